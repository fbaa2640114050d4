//! Numbers by their places in the bytes of a header, the lowest byte first.

ghost use Rattle.std.specs.Prelude.{◌≡◌, ◌≤◌, ◌+◌, length, drop};
ghost use Rattle.std.specs.Int.{w32};
ghost use Rattle.neli_wire.specs.Frames.{number_in};
ghost use Rattle.neli_wire.specs.Numbers.{signed_number};

use byteorder::{ByteOrder, LittleEndian};

/// The number of one byte at this place; the slice must have it.
pub fn u8_in(bytes: &[u8], place: usize) -> u8
    requires { place + 1 ≤ length bytes.now }
    ensures { result ≡ number_in 1 place bytes.now }
{
    bytes[place]
}

/// The number of two bytes from this place on; the slice must have them.
pub fn u16_in(bytes: &[u8], place: usize) -> u16
    requires { place + 2 ≤ length bytes.now }
    ensures { result ≡ number_in 2 place bytes.now }
{
    LittleEndian::read_u16(&bytes[place..])
}

/// The number of four bytes from this place on; the slice must have them.
pub fn u32_in(bytes: &[u8], place: usize) -> u32
    requires { place + 4 ≤ length bytes.now }
    ensures { result ≡ number_in 4 place bytes.now }
{
    LittleEndian::read_u32(&bytes[place..])
}

/// The signed number of four bytes from this place on; the slice must have them.
pub fn i32_in(bytes: &[u8], place: usize) -> i32
    requires { place + 4 ≤ length bytes.now }
    ensures { result ≡ signed_number w32 4 (drop place bytes.now) }
{
    LittleEndian::read_i32(&bytes[place..])
}

/// The number of eight bytes from this place on; the slice must have them.
pub fn u64_in(bytes: &[u8], place: usize) -> u64
    requires { place + 8 ≤ length bytes.now }
    ensures { result ≡ number_in 8 place bytes.now }
{
    LittleEndian::read_u64(&bytes[place..])
}
