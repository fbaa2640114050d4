//! The header of a family that has none.

ghost use Rattle.std.specs.Prelude.{◌≡◌, [], Ok, refl};
ghost use Rattle.neli_wire.specs.laws.Reading.{done-local, done-no_memory, done-wide};
ghost use Rattle.neli_wire.specs.laws.Sizes.{unpadded-rounded, unpadded-zeros};
ghost use Rattle.neli_wire.specs.laws.Writing.{written-length, written-no_memory};

use neli_wire::{Cursor, DeError, FromBytes, SerError, Size, ToBytes, TypeSize};
use std::alloc::Global;

/// No header of the family's own: no bytes.
#[derive(Clone, Copy, Debug, PartialEq, Eq)]
pub struct NoUserHeader;

impl Size for NoUserHeader {
    ghost unpadded_length = { λ _. 0 };

    ghost wire_length = { λ _. 0 };

    ghost rounded = { unpadded-rounded (λ _. 0) };

    fn unpadded_size(&self) -> usize {
        0
    }

    fn written_size(&self) -> usize {
        0
    }
}

impl ToBytes for NoUserHeader {
    ghost wire = { λ _. Ok [] };

    ghost length_is = { λ v bytes e. written-length [] bytes 0 refl e };

    ghost zeros_after = { λ v bytes e. unpadded-zeros 0 bytes (written-length [] bytes 0 refl e) };

    ghost no_memory = { λ v. written-no_memory [] };

    fn to_bytes(&self, _buffer: &mut Vec<u8>) -> Result<(), SerError> {
        Ok(())
    }
}

impl FromBytes for NoUserHeader {
    ghost Value = { Unit {0} };

    ghost view = { λ _. tt };

    ghost read = { λ s. Ok (tt, s) };

    ghost takes_memory = { λ _. ⊥ };

    ghost local = { done-local (λ (x : Unit {0}). x) tt };

    ghost no_memory = { λ s e. done-no_memory tt s e };

    fn from_bytes(_alloc: Global, _cursor: &mut Cursor<'_>) -> Result<NoUserHeader, DeError> {
        Ok(NoUserHeader)
    }
}

impl TypeSize for NoUserHeader {
    ghost width = { 0 };

    ghost wire_is_wide = { λ v bytes e. written-length [] bytes 0 refl e };

    ghost read_is_wide = { λ s r v e. done-wide tt s r v e };

    fn type_size() -> usize {
        0
    }
}
