//! A boolean, as the kernel has it in a `__u8`: one byte.

ghost use Rattle.std.specs.Prelude.{◌≡◌, Bool, Ok, refl};
ghost use Rattle.neli_wire.specs.Numbers.{byte_of_bool, bool_of_bytes};
ghost use Rattle.neli_wire.specs.Reading.{value_at};
ghost use Rattle.neli_wire.specs.laws.Reading.{value_at-local, value_at-no_memory, value_at-wide};
ghost use Rattle.neli_wire.specs.laws.Sizes.{unpadded-rounded, unpadded-zeros};
ghost use Rattle.neli_wire.specs.laws.Writing.{written-length, written-no_memory};

use crate::{Cursor, DeError, FromBytes, SerError, Size, ToBytes, TypeSize};
use std::alloc::Global;

impl Size for bool {
    ghost unpadded_length = { λ _. 1 };

    ghost wire_length = { λ _. 1 };

    ghost rounded = { unpadded-rounded (λ _. 1) };

    fn unpadded_size(&self) -> usize {
        1
    }

    fn written_size(&self) -> usize {
        1
    }
}

/// 1 where it is true, else 0.
impl ToBytes for bool {
    ghost wire = { λ b. Ok (byte_of_bool b) };

    ghost length_is = { λ b bytes e. written-length (byte_of_bool b) bytes 1 refl e };

    ghost zeros_after = { λ b bytes e. unpadded-zeros 1 bytes
        (written-length (byte_of_bool b) bytes 1 refl e) };

    ghost no_memory = { λ b. written-no_memory (byte_of_bool b) };

    fn to_bytes(&self, buffer: &mut Vec<u8>) -> Result<(), SerError> {
        buffer.push(u8::from(*self))?;
        Ok(())
    }
}

/// True where the byte is not 0.
impl FromBytes for bool {
    ghost Value = { Bool };

    ghost view = { λ b. b };

    ghost read = { value_at 1 bool_of_bytes };

    ghost takes_memory = { λ _. ⊥ };

    ghost local = { value_at-local 1 bool_of_bytes };

    ghost no_memory = { value_at-no_memory 1 bool_of_bytes };

    fn from_bytes(_alloc: Global, cursor: &mut Cursor<'_>) -> Result<bool, DeError> {
        let bytes = cursor.bytes(1)?;
        Ok(bytes[0] != 0)
    }
}

impl TypeSize for bool {
    ghost width = { 1 };

    ghost wire_is_wide = { λ b bytes e. written-length (byte_of_bool b) bytes 1 refl e };

    ghost read_is_wide = { λ s r v e. value_at-wide 1 bool_of_bytes s r v e };

    fn type_size() -> usize {
        1
    }
}
