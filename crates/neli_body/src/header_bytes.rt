//! The bytes of a header, before they are written.

ghost use Rattle.std.specs.Prelude.{◌≡◌, ◌≤◌, ◌+◌, ◌++◌, List, [], length, take};
ghost use Rattle.std.specs.Int.{w32};
ghost use Rattle.neli_wire.specs.Numbers.{little_bytes, signed_bytes};

use std::marker::Model;

/// The most bytes that a header has.
const MOST: usize = 40;

/// The bytes of a header, appended field by field, at most 40 of them. Contracts see them as a list.
#[derive(Drop)]
pub struct HeaderBytes {
    bytes: [u8; 40],
    count: usize,
}

impl Model for HeaderBytes {
    ghost use Rattle.std.specs.Prelude.{ℕ, ◌≤◌, List, take};

    ghost Value = { List ℕ };

    ghost view = { λ h. take h.count h.bytes };

    ghost invariant = { λ h. h.count ≤ 40 };
}

impl HeaderBytes {
    /// No bytes.
    pub fn new() -> HeaderBytes
        ensures { result ≡ [] }
    {
        HeaderBytes {
            bytes: [0; MOST],
            count: 0,
        }
    }

    /// The bytes, lent.
    pub fn as_slice(&self) -> &[u8]
        ensures { result.now ≡ self.now }
    {
        &self.bytes[..self.count]
    }

    /// Appends these bytes; there must be room for them.
    pub fn bytes(mut self, bytes: &[u8]) -> HeaderBytes
        requires { length self + length bytes.now ≤ 40 }
        ensures { result ≡ self ++ bytes.now }
    {
        let start = self.count;
        let end = start + bytes.len();
        self.bytes[start..end].copy_from_slice(bytes);
        self.count = end;
        self
    }

    /// Appends a number of one byte; there must be room for it.
    pub fn u8(mut self, value: u8) -> HeaderBytes
        requires { length self + 1 ≤ 40 }
        ensures { result ≡ self ++ little_bytes 1 value }
    {
        self.bytes[self.count] = value;
        self.count += 1;
        self
    }

    /// Appends a number of two bytes, the lowest first; there must be room for it.
    pub fn u16(self, value: u16) -> HeaderBytes
        requires { length self + 2 ≤ 40 }
        ensures { result ≡ self ++ little_bytes 2 value }
    {
        self.bytes(&value.to_le_bytes())
    }

    /// Appends a number of four bytes, the lowest first; there must be room for it.
    pub fn u32(self, value: u32) -> HeaderBytes
        requires { length self + 4 ≤ 40 }
        ensures { result ≡ self ++ little_bytes 4 value }
    {
        self.bytes(&value.to_le_bytes())
    }

    /// Appends a signed number of four bytes, the lowest first; there must be room for it.
    pub fn i32(self, value: i32) -> HeaderBytes
        requires { length self + 4 ≤ 40 }
        ensures { result ≡ self ++ signed_bytes w32 4 value }
    {
        self.bytes(&value.to_le_bytes())
    }

    /// Appends a number of eight bytes, the lowest first; there must be room for it.
    pub fn u64(self, value: u64) -> HeaderBytes
        requires { length self + 8 ≤ 40 }
        ensures { result ≡ self ++ little_bytes 8 value }
    {
        self.bytes(&value.to_le_bytes())
    }
}
