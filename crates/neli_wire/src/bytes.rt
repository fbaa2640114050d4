//! Bytes as they are: slices, read without a copy, and arrays.

ghost use Rattle.std.specs.Prelude.{◌≡◌, ℕ, List, Ok, Err, length};
ghost use Rattle.neli_wire.specs.Reading.{value_at};
ghost use Rattle.neli_wire.specs.laws.Reading.{value_at-local, value_at-no_memory};
ghost use Rattle.neli_wire.specs.laws.Sizes.{unpadded-rounded, unpadded-zeros};
ghost use Rattle.neli_wire.specs.laws.Strings.{all-never_short};
ghost use Rattle.neli_wire.specs.laws.Writing.{own-length, written-no_memory};

use crate::implementing::{pad_from, strip_to_four};
use crate::{Cursor, DeError, FromBytes, FromBytesWithInputBorrowed, SerError, Size, ToBytes};
use std::alloc::Global;

impl<'a> Size for &'a [u8] {
    ghost unpadded_length = { λ b. length b.now };

    ghost wire_length = { λ b. length b.now };

    ghost rounded = { unpadded-rounded (λ b. length b.now) };

    fn unpadded_size(&self) -> usize {
        self.len()
    }

    fn written_size(&self) -> usize {
        self.len()
    }
}

impl<'a> ToBytes for &'a [u8] {
    ghost wire = { λ b. Ok b.now };

    ghost length_is = { λ b bytes e. own-length b.now bytes e };

    ghost zeros_after = { λ b bytes e. unpadded-zeros (length b.now) bytes
        (own-length b.now bytes e) };

    ghost no_memory = { λ b. written-no_memory b.now };

    fn to_bytes(&self, buffer: &mut Vec<u8>) -> Result<(), SerError> {
        buffer.extend_from_slice(self)?;
        Ok(())
    }
}

impl<'a> FromBytesWithInputBorrowed<'a> for &'a [u8] {
    type Error = DeError;

    ghost Value = { List ℕ };

    ghost view = { λ b. b.now };

    ghost read = { λ s. Ok s };

    ghost never_short = { all-never_short };

    fn from_bytes_with_input(cursor: &mut Cursor<'a>, n: usize) -> Result<Self, DeError> {
        cursor.input(n)
    }

    fn strip(cursor: &mut Cursor<'a>) -> Result<(), DeError> {
        strip_to_four(cursor)
    }
}

impl<const N: usize> Size for [u8; N] {
    ghost unpadded_length = { λ b. length b };

    ghost wire_length = { λ b. length b };

    ghost rounded = { unpadded-rounded (λ b. length b) };

    fn unpadded_size(&self) -> usize {
        self.len()
    }

    fn written_size(&self) -> usize {
        self.len()
    }
}

impl<const N: usize> ToBytes for [u8; N] {
    ghost wire = { λ b. Ok b };

    ghost length_is = { λ b bytes e. own-length b bytes e };

    ghost zeros_after = { λ b bytes e. unpadded-zeros (length b) bytes (own-length b bytes e) };

    ghost no_memory = { λ b. written-no_memory b };

    fn to_bytes(&self, buffer: &mut Vec<u8>) -> Result<(), SerError> {
        buffer.extend_from_slice(self)?;
        Ok(())
    }

    fn pad(&self, buffer: &mut Vec<u8>) -> Result<(), SerError> {
        pad_from(buffer, 0)?;
        Ok(())
    }
}

impl<const N: usize> FromBytes for [u8; N] {
    ghost Value = { List ℕ };

    ghost view = { λ b. b };

    ghost read = { value_at N (λ bytes. bytes) };

    ghost takes_memory = { λ _. ⊥ };

    ghost local = { value_at-local N (λ bytes. bytes) };

    ghost no_memory = { value_at-no_memory N (λ bytes. bytes) };

    fn from_bytes(_alloc: Global, cursor: &mut Cursor<'_>) -> Result<[u8; N], DeError> {
        let bytes = cursor.bytes(N)?;
        let mut array = [0; N];
        array.copy_from_slice(bytes);
        Ok(array)
    }

    fn strip(cursor: &mut Cursor<'_>) -> Result<(), DeError> {
        strip_to_four(cursor)
    }
}
