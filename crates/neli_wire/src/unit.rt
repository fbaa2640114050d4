//! Values that take no bytes.

ghost use Rattle.std.specs.Prelude.{◌≡◌, ℕ, [], refl, Ok, Err};
ghost use Rattle.neli_wire.specs.laws.Reading.{done-local, done-no_memory, done-wide};
ghost use Rattle.neli_wire.specs.laws.Sizes.{unpadded-rounded, unpadded-zeros};
ghost use Rattle.neli_wire.specs.laws.Strings.{nothing-no_memory, nothing-never_short};
ghost use Rattle.neli_wire.specs.Strings.{nothing};
ghost use Rattle.neli_wire.specs.laws.Writing.{written-length, written-no_memory};

use crate::{Cursor, DeError, FromBytes, FromBytesWithInput, SerError, Size, ToBytes, TypeSize};
use std::alloc::Global;
use std::marker::PhantomData;

impl Size for () {
    ghost unpadded_length = { λ _. 0 };

    ghost wire_length = { λ _. 0 };

    ghost rounded = { unpadded-rounded (λ _. 0) };

    fn unpadded_size(&self) -> usize {
        0
    }

    fn written_size(&self) -> usize {
        0
    }
}

impl ToBytes for () {
    ghost wire = { λ _. Ok [] };

    ghost length_is = { λ v bytes e. written-length [] bytes 0 refl e };

    ghost zeros_after = { λ v bytes e. unpadded-zeros 0 bytes (written-length [] bytes 0 refl e) };

    ghost no_memory = { λ v. written-no_memory [] };

    fn to_bytes(&self, _buffer: &mut Vec<u8>) -> Result<(), SerError> {
        Ok(())
    }
}

impl FromBytes for () {
    ghost Value = { Unit {0} };

    ghost view = { λ _. tt };

    ghost read = { λ s. Ok (tt, s) };

    ghost takes_memory = { λ _. ⊥ };

    ghost local = { done-local (λ (x : Unit {0}). x) tt };

    ghost no_memory = { λ s e. done-no_memory tt s e };

    fn from_bytes(_alloc: Global, _cursor: &mut Cursor<'_>) -> Result<(), DeError> {
        Ok(())
    }
}

impl FromBytesWithInput for () {
    ghost Value = { Unit {0} };

    ghost view = { λ _. tt };

    ghost read = { nothing };

    ghost takes_memory = { λ _. ⊥ };

    ghost no_memory = { nothing-no_memory };

    ghost never_short = { nothing-never_short };

    fn from_bytes_with_input(
        _alloc: Global,
        _cursor: &mut Cursor<'_>,
        n: usize,
    ) -> Result<(), DeError> {
        if n > 0 {
            return Err(DeError::InvalidInput(n));
        }
        Ok(())
    }
}

impl<T> Size for PhantomData<T> {
    ghost unpadded_length = { λ _. 0 };

    ghost wire_length = { λ _. 0 };

    ghost rounded = { unpadded-rounded (λ _. 0) };

    fn unpadded_size(&self) -> usize {
        0
    }

    fn written_size(&self) -> usize {
        0
    }
}

impl<T> ToBytes for PhantomData<T> {
    ghost wire = { λ _. Ok [] };

    ghost length_is = { λ v bytes e. written-length [] bytes 0 refl e };

    ghost zeros_after = { λ v bytes e. unpadded-zeros 0 bytes (written-length [] bytes 0 refl e) };

    ghost no_memory = { λ v. written-no_memory [] };

    fn to_bytes(&self, _buffer: &mut Vec<u8>) -> Result<(), SerError> {
        Ok(())
    }
}

impl<T> FromBytes for PhantomData<T> {
    ghost Value = { Unit {0} };

    ghost view = { λ _. tt };

    ghost read = { λ s. Ok (tt, s) };

    ghost takes_memory = { λ _. ⊥ };

    ghost local = { done-local (λ (x : Unit {0}). x) tt };

    ghost no_memory = { λ s e. done-no_memory tt s e };

    fn from_bytes(_alloc: Global, _cursor: &mut Cursor<'_>) -> Result<PhantomData<T>, DeError> {
        Ok(PhantomData)
    }
}

impl<T> TypeSize for PhantomData<T> {
    ghost width = { 0 };

    ghost wire_is_wide = { λ v bytes e. written-length [] bytes 0 refl e };

    ghost read_is_wide = { λ s r v e. done-wide tt s r v e };

    fn type_size() -> usize {
        0
    }
}
