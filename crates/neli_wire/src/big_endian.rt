//! Numbers that are written with their highest byte first.

ghost use Rattle.std.specs.Prelude.{◌≡◌};
ghost use Rattle.byteorder.specs.Endian.{big_bytes, big_number};
ghost use Rattle.byteorder.specs.Numbers.{length-bytes_high_first};
ghost use Rattle.neli_wire.specs.laws.Numbers.{reads_back-big, writes_back-big, in_range-big};
ghost use Rattle.neli_wire.specs.Numbers.{FitsBytes};

use crate::WireNumber;
use byteorder::{BigEndian, ByteOrder};
use std::alloc::AllocError;
use std::marker::Model;

/// A `u16` written with its highest byte first, in 2 bytes, as the kernel's `__be16`.
#[derive(Clone, Copy, Debug, PartialEq, Eq)]
pub struct BeU16(u16);

impl Model for BeU16 {
    ghost use Rattle.std.specs.Prelude.{ℕ};

    ghost Value = { ℕ };

    ghost view = { λ b. b.0 };

    ghost inverse = { λ n. record { 0 = n } };
}

impl BeU16 {
    /// The number, to be written with its highest byte first.
    pub fn new(number: u16) -> BeU16
        ensures { result ≡ number }
    {
        BeU16(number)
    }

    /// The number in the machine's byte order.
    pub fn as_ne_u16(self) -> u16
        ensures { result ≡ self }
    {
        self.0
    }
}

impl WireNumber for BeU16 {
    ghost byte_count = { 2 };

    ghost IsInRange = { FitsBytes 2 };

    ghost bytes_of = { big_bytes 2 };

    ghost number_of = { big_number 2 };

    ghost count_is = { length-bytes_high_first 2 };

    ghost reads_back = { reads_back-big 2 };

    ghost writes_back = { writes_back-big 2 };

    ghost in_range = { in_range-big 2 };

    fn count() -> usize {
        size_of::<u16>()
    }

    fn append(self, buffer: &mut Vec<u8>) -> Result<(), AllocError> {
        let mut bytes = [0; 2];
        BigEndian::write_u16(&mut bytes, self.0);
        buffer.extend_from_slice(&bytes)
    }

    fn number(bytes: &[u8]) -> BeU16 {
        BeU16(BigEndian::read_u16(bytes))
    }
}

/// A `u32` written with its highest byte first, in 4 bytes, as the kernel's `__be32`.
#[derive(Clone, Copy, Debug, PartialEq, Eq)]
pub struct BeU32(u32);

impl Model for BeU32 {
    ghost use Rattle.std.specs.Prelude.{ℕ};

    ghost Value = { ℕ };

    ghost view = { λ b. b.0 };

    ghost inverse = { λ n. record { 0 = n } };
}

impl BeU32 {
    /// The number, to be written with its highest byte first.
    pub fn new(number: u32) -> BeU32
        ensures { result ≡ number }
    {
        BeU32(number)
    }

    /// The number in the machine's byte order.
    pub fn as_ne_u32(self) -> u32
        ensures { result ≡ self }
    {
        self.0
    }
}

impl WireNumber for BeU32 {
    ghost byte_count = { 4 };

    ghost IsInRange = { FitsBytes 4 };

    ghost bytes_of = { big_bytes 4 };

    ghost number_of = { big_number 4 };

    ghost count_is = { length-bytes_high_first 4 };

    ghost reads_back = { reads_back-big 4 };

    ghost writes_back = { writes_back-big 4 };

    ghost in_range = { in_range-big 4 };

    fn count() -> usize {
        size_of::<u32>()
    }

    fn append(self, buffer: &mut Vec<u8>) -> Result<(), AllocError> {
        let mut bytes = [0; 4];
        BigEndian::write_u32(&mut bytes, self.0);
        buffer.extend_from_slice(&bytes)
    }

    fn number(bytes: &[u8]) -> BeU32 {
        BeU32(BigEndian::read_u32(bytes))
    }
}

/// A `u64` written with its highest byte first, in 8 bytes, as the kernel's `__be64`.
#[derive(Clone, Copy, Debug, PartialEq, Eq)]
pub struct BeU64(u64);

impl Model for BeU64 {
    ghost use Rattle.std.specs.Prelude.{ℕ};

    ghost Value = { ℕ };

    ghost view = { λ b. b.0 };

    ghost inverse = { λ n. record { 0 = n } };
}

impl BeU64 {
    /// The number, to be written with its highest byte first.
    pub fn new(number: u64) -> BeU64
        ensures { result ≡ number }
    {
        BeU64(number)
    }

    /// The number in the machine's byte order.
    pub fn as_ne_u64(self) -> u64
        ensures { result ≡ self }
    {
        self.0
    }
}

impl WireNumber for BeU64 {
    ghost byte_count = { 8 };

    ghost IsInRange = { FitsBytes 8 };

    ghost bytes_of = { big_bytes 8 };

    ghost number_of = { big_number 8 };

    ghost count_is = { length-bytes_high_first 8 };

    ghost reads_back = { reads_back-big 8 };

    ghost writes_back = { writes_back-big 8 };

    ghost in_range = { in_range-big 8 };

    fn count() -> usize {
        size_of::<u64>()
    }

    fn append(self, buffer: &mut Vec<u8>) -> Result<(), AllocError> {
        let mut bytes = [0; 8];
        BigEndian::write_u64(&mut bytes, self.0);
        buffer.extend_from_slice(&bytes)
    }

    fn number(bytes: &[u8]) -> BeU64 {
        BeU64(BigEndian::read_u64(bytes))
    }
}
