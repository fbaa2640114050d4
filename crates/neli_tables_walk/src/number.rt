//! Numbers in bytes.

ghost use Rattle.std.specs.Prelude.{◌≡◌, ◌≤◌, Some, length};
ghost use Rattle.neli_tables_walk.specs.Numbers.{number_as, number_in, plain_number_json};
ghost use Rattle.neli_tables_walk.specs.Numbers.{plain_number_text};
ghost use Rattle.neli_tables_walk.specs.Numbers.{width_of, width_with};
ghost use Rattle.byteorder.specs.Endian.{big_number, little_number};

use crate::digits::{Decimal, SignedDecimal};
use byteorder::{BigEndian, ByteOrder, LittleEndian};
use neli_tables::Kind;
use std::fmt;
use std::fmt::Display;

/// How a number lies in its bytes.
#[derive(Clone, Copy, Debug, PartialEq, Eq)]
pub struct Width {
    /// The number of bytes.
    pub size: usize,
    /// Whether the highest byte is the first; else the order is the host's, the lowest first.
    pub is_big: bool,
    /// Whether the number has a sign.
    pub is_signed: bool,
}

/// A number.
#[derive(Clone, Copy, Debug, PartialEq, Eq)]
pub struct Number {
    /// Its bits, as a number without a sign.
    pub bits: u64,
    /// The number with its sign, where its kind has one.
    pub signed: Option<i64>,
}

/// A width.
fn width_with(size: usize, is_big: bool, is_signed: bool) -> Width
    ensures { result ≡ width_with size is_big is_signed }
{
    Width {
        size,
        is_big,
        is_signed,
    }
}

/// How a number of this kind lies in so many bytes; `None` where the kind is no number's. `uint`
/// and `sint` have eight bytes, or four where there are fewer than eight.
pub fn width_of(kind: Kind, length: usize) -> Option<Width>
    ensures { result ≡ width_of length kind }
{
    let either = if length < 8 { 4 } else { 8 };
    Some(match kind {
        Kind::U8 => width_with(1, false, false),
        Kind::U16 => width_with(2, false, false),
        Kind::U32 => width_with(4, false, false),
        Kind::U64 => width_with(8, false, false),
        Kind::S8 => width_with(1, false, true),
        Kind::S16 => width_with(2, false, true),
        Kind::S32 => width_with(4, false, true),
        Kind::S64 => width_with(8, false, true),
        Kind::Be16 => width_with(2, true, false),
        Kind::Be32 => width_with(4, true, false),
        Kind::Be64 => width_with(8, true, false),
        Kind::Sbe32 => width_with(4, true, true),
        Kind::Uint => width_with(either, false, false),
        Kind::Sint => width_with(either, false, true),
        _ => return None,
    })
}

/// The number in at most eight bytes, with the highest first.
fn big_number(bytes: &[u8], is_signed: bool) -> Number
    requires some { 1 ≤ length bytes.now }
    requires few { length bytes.now ≤ 8 }
    ensures { result
        ≡ number_as is_signed (length bytes.now) (big_number (length bytes.now) bytes.now) }
{
    let size = bytes.len();
    Number {
        bits: BigEndian::read_uint(bytes, size),
        signed: if is_signed {
            Some(BigEndian::read_int(bytes, size))
        } else {
            None
        },
    }
}

/// The bits of a number in at most eight bytes, with the lowest first. The sizes that kinds have are
/// read at once.
fn little_bits(bytes: &[u8]) -> u64
    requires some { 1 ≤ length bytes.now }
    requires few { length bytes.now ≤ 8 }
    ensures { result ≡ little_number (length bytes.now) bytes.now }
{
    match bytes.len() {
        2 => LittleEndian::read_u16(bytes) as u64,
        4 => LittleEndian::read_u32(bytes) as u64,
        8 => LittleEndian::read_u64(bytes),
        size => LittleEndian::read_uint(bytes, size),
    }
}

/// The number in at most eight bytes, with the lowest first.
fn little_number(bytes: &[u8], is_signed: bool) -> Number
    requires some { 1 ≤ length bytes.now }
    requires few { length bytes.now ≤ 8 }
    ensures { result
        ≡ number_as is_signed (length bytes.now) (little_number (length bytes.now) bytes.now) }
{
    let size = bytes.len();
    Number {
        bits: little_bits(bytes),
        signed: if is_signed {
            Some(LittleEndian::read_int(bytes, size))
        } else {
            None
        },
    }
}

/// The number that these bytes are, where they are as many as it has.
pub fn number_in(width: Width, bytes: &[u8]) -> Option<Number>
    ensures { result ≡ number_in width bytes.now }
{
    let size = bytes.len();
    if size != width.size || size < 1 || 8 < size {
        None
    } else if width.is_big {
        Some(big_number(bytes, width.is_signed))
    } else {
        Some(little_number(bytes, width.is_signed))
    }
}

/// A number in decimal digits, or as hexadecimal ones.
#[derive(Clone, Copy)]
pub struct NumberText {
    /// The number.
    pub number: Number,
    /// Whether its bits are printed as hexadecimal digits.
    pub is_hex: bool,
}

impl fmt::Display for NumberText {
    ghost output = { λ n. Some (plain_number_text n.is_hex n.number) };

    fn fmt<W: fmt::Write>(&self, f: &mut fmt::Formatter<W>) -> fmt::Result {
        let bits = self.number.bits;
        if self.is_hex {
            return write!(f, "0x{bits:x}");
        }
        Display::fmt(&NumberJson(self.number), f)
    }
}

/// A number of JSON.
#[derive(Clone, Copy)]
pub struct NumberJson(pub Number);

impl fmt::Display for NumberJson {
    ghost output = { λ n. Some (plain_number_json n.0) };

    fn fmt<W: fmt::Write>(&self, f: &mut fmt::Formatter<W>) -> fmt::Result {
        match self.0.signed {
            Some(signed) => Display::fmt(&SignedDecimal(signed), f),
            None => Display::fmt(&Decimal(self.0.bits), f),
        }
    }
}
