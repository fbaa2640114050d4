//! The integer types, the lowest byte first.
//!
//! A number is a [`Constant`] that means itself.

ghost use Rattle.std.specs.Prelude.{refl, FitsSigned};
ghost use Rattle.std.specs.Int.{w8, w16, w32, w64, w128};
ghost use Rattle.byteorder.specs.Endian.{little_bytes, little_number};
ghost use Rattle.neli_wire.specs.Numbers.{FitsBytes, signed_bytes, signed_number};
ghost use Rattle.neli_wire.specs.laws.Numbers.{count-unsigned, reads_back-unsigned, writes_back-unsigned};
ghost use Rattle.neli_wire.specs.laws.Numbers.{in_range-unsigned, count-signed, reads_back-signed};
ghost use Rattle.neli_wire.specs.laws.Numbers.{writes_back-signed, in_range-signed};

use crate::{Constant, WireNumber};
use byteorder::{ByteOrder, LittleEndian};
use std::alloc::AllocError;

impl<N: WireNumber> Constant for N {
    type Number = N;

    ghost wire_number = { λ n. n };

    ghost wire_value = { λ n. n };

    ghost back_to_number = { λ _ _. refl };

    fn from_wire(number: N) -> N {
        number
    }

    fn to_wire(&self) -> N {
        *self
    }
}

impl WireNumber for u8 {
    ghost byte_count = { 1 };

    ghost IsInRange = { FitsBytes 1 };

    ghost bytes_of = { little_bytes 1 };

    ghost number_of = { little_number 1 };

    ghost count_is = { count-unsigned 1 };

    ghost reads_back = { reads_back-unsigned 1 };

    ghost writes_back = { writes_back-unsigned 1 };

    ghost in_range = { in_range-unsigned 1 };

    fn count() -> usize {
        size_of::<u8>()
    }

    fn append(self, buffer: &mut Vec<u8>) -> Result<(), AllocError> {
        buffer.extend_from_slice(&[self])
    }

    fn number(bytes: &[u8]) -> u8 {
        bytes[0]
    }
}

impl WireNumber for u16 {
    ghost byte_count = { 2 };

    ghost IsInRange = { FitsBytes 2 };

    ghost bytes_of = { little_bytes 2 };

    ghost number_of = { little_number 2 };

    ghost count_is = { count-unsigned 2 };

    ghost reads_back = { reads_back-unsigned 2 };

    ghost writes_back = { writes_back-unsigned 2 };

    ghost in_range = { in_range-unsigned 2 };

    fn count() -> usize {
        size_of::<u16>()
    }

    fn append(self, buffer: &mut Vec<u8>) -> Result<(), AllocError> {
        let mut bytes = [0; 2];
        LittleEndian::write_u16(&mut bytes, self);
        buffer.extend_from_slice(&bytes)
    }

    fn number(bytes: &[u8]) -> u16 {
        LittleEndian::read_u16(bytes)
    }
}

impl WireNumber for u32 {
    ghost byte_count = { 4 };

    ghost IsInRange = { FitsBytes 4 };

    ghost bytes_of = { little_bytes 4 };

    ghost number_of = { little_number 4 };

    ghost count_is = { count-unsigned 4 };

    ghost reads_back = { reads_back-unsigned 4 };

    ghost writes_back = { writes_back-unsigned 4 };

    ghost in_range = { in_range-unsigned 4 };

    fn count() -> usize {
        size_of::<u32>()
    }

    fn append(self, buffer: &mut Vec<u8>) -> Result<(), AllocError> {
        let mut bytes = [0; 4];
        LittleEndian::write_u32(&mut bytes, self);
        buffer.extend_from_slice(&bytes)
    }

    fn number(bytes: &[u8]) -> u32 {
        LittleEndian::read_u32(bytes)
    }
}

impl WireNumber for u64 {
    ghost byte_count = { 8 };

    ghost IsInRange = { FitsBytes 8 };

    ghost bytes_of = { little_bytes 8 };

    ghost number_of = { little_number 8 };

    ghost count_is = { count-unsigned 8 };

    ghost reads_back = { reads_back-unsigned 8 };

    ghost writes_back = { writes_back-unsigned 8 };

    ghost in_range = { in_range-unsigned 8 };

    fn count() -> usize {
        size_of::<u64>()
    }

    fn append(self, buffer: &mut Vec<u8>) -> Result<(), AllocError> {
        let mut bytes = [0; 8];
        LittleEndian::write_u64(&mut bytes, self);
        buffer.extend_from_slice(&bytes)
    }

    fn number(bytes: &[u8]) -> u64 {
        LittleEndian::read_u64(bytes)
    }
}

impl WireNumber for u128 {
    ghost byte_count = { 16 };

    ghost IsInRange = { FitsBytes 16 };

    ghost bytes_of = { little_bytes 16 };

    ghost number_of = { little_number 16 };

    ghost count_is = { count-unsigned 16 };

    ghost reads_back = { reads_back-unsigned 16 };

    ghost writes_back = { writes_back-unsigned 16 };

    ghost in_range = { in_range-unsigned 16 };

    fn count() -> usize {
        size_of::<u128>()
    }

    fn append(self, buffer: &mut Vec<u8>) -> Result<(), AllocError> {
        let mut bytes = [0; 16];
        LittleEndian::write_u128(&mut bytes, self);
        buffer.extend_from_slice(&bytes)
    }

    fn number(bytes: &[u8]) -> u128 {
        LittleEndian::read_u128(bytes)
    }
}

impl WireNumber for i8 {
    ghost byte_count = { 1 };

    ghost IsInRange = { FitsSigned w8 };

    ghost bytes_of = { signed_bytes w8 1 };

    ghost number_of = { signed_number w8 1 };

    ghost count_is = { count-signed w8 1 refl };

    ghost reads_back = { reads_back-signed w8 1 refl };

    ghost writes_back = { writes_back-signed w8 1 refl };

    ghost in_range = { in_range-signed w8 1 refl };

    fn count() -> usize {
        size_of::<i8>()
    }

    fn append(self, buffer: &mut Vec<u8>) -> Result<(), AllocError> {
        buffer.extend_from_slice(&self.to_le_bytes())
    }

    fn number(bytes: &[u8]) -> i8 {
        i8::from_le_bytes([bytes[0]])
    }
}

impl WireNumber for i16 {
    ghost byte_count = { 2 };

    ghost IsInRange = { FitsSigned w16 };

    ghost bytes_of = { signed_bytes w16 2 };

    ghost number_of = { signed_number w16 2 };

    ghost count_is = { count-signed w16 2 refl };

    ghost reads_back = { reads_back-signed w16 2 refl };

    ghost writes_back = { writes_back-signed w16 2 refl };

    ghost in_range = { in_range-signed w16 2 refl };

    fn count() -> usize {
        size_of::<i16>()
    }

    fn append(self, buffer: &mut Vec<u8>) -> Result<(), AllocError> {
        let mut bytes = [0; 2];
        LittleEndian::write_i16(&mut bytes, self);
        buffer.extend_from_slice(&bytes)
    }

    fn number(bytes: &[u8]) -> i16 {
        LittleEndian::read_i16(bytes)
    }
}

impl WireNumber for i32 {
    ghost byte_count = { 4 };

    ghost IsInRange = { FitsSigned w32 };

    ghost bytes_of = { signed_bytes w32 4 };

    ghost number_of = { signed_number w32 4 };

    ghost count_is = { count-signed w32 4 refl };

    ghost reads_back = { reads_back-signed w32 4 refl };

    ghost writes_back = { writes_back-signed w32 4 refl };

    ghost in_range = { in_range-signed w32 4 refl };

    fn count() -> usize {
        size_of::<i32>()
    }

    fn append(self, buffer: &mut Vec<u8>) -> Result<(), AllocError> {
        let mut bytes = [0; 4];
        LittleEndian::write_i32(&mut bytes, self);
        buffer.extend_from_slice(&bytes)
    }

    fn number(bytes: &[u8]) -> i32 {
        LittleEndian::read_i32(bytes)
    }
}

impl WireNumber for i64 {
    ghost byte_count = { 8 };

    ghost IsInRange = { FitsSigned w64 };

    ghost bytes_of = { signed_bytes w64 8 };

    ghost number_of = { signed_number w64 8 };

    ghost count_is = { count-signed w64 8 refl };

    ghost reads_back = { reads_back-signed w64 8 refl };

    ghost writes_back = { writes_back-signed w64 8 refl };

    ghost in_range = { in_range-signed w64 8 refl };

    fn count() -> usize {
        size_of::<i64>()
    }

    fn append(self, buffer: &mut Vec<u8>) -> Result<(), AllocError> {
        let mut bytes = [0; 8];
        LittleEndian::write_i64(&mut bytes, self);
        buffer.extend_from_slice(&bytes)
    }

    fn number(bytes: &[u8]) -> i64 {
        LittleEndian::read_i64(bytes)
    }
}

impl WireNumber for i128 {
    ghost byte_count = { 16 };

    ghost IsInRange = { FitsSigned w128 };

    ghost bytes_of = { signed_bytes w128 16 };

    ghost number_of = { signed_number w128 16 };

    ghost count_is = { count-signed w128 16 refl };

    ghost reads_back = { reads_back-signed w128 16 refl };

    ghost writes_back = { writes_back-signed w128 16 refl };

    ghost in_range = { in_range-signed w128 16 refl };

    fn count() -> usize {
        size_of::<i128>()
    }

    fn append(self, buffer: &mut Vec<u8>) -> Result<(), AllocError> {
        let mut bytes = [0; 16];
        LittleEndian::write_i128(&mut bytes, self);
        buffer.extend_from_slice(&bytes)
    }

    fn number(bytes: &[u8]) -> i128 {
        LittleEndian::read_i128(bytes)
    }
}
