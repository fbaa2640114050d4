//! Whole numbers, as bytes of a width.

ghost use Rattle.std.specs.Prelude.{◌≡◌, IfOk, IsTrue};
ghost use Rattle.neli_tables_write.specs.Integers.{ReadsAs, integer_value, number_value};

use crate::Why;
use neli_tables_walk::{Number, Width, number_in};
use std::alloc::Global;

/// A whole number of 64 bits, without or with a sign.
#[derive(Clone, Copy, Debug, PartialEq, Eq)]
pub enum Integer {
    /// Without a sign.
    Unsigned(u64),
    /// With one.
    Signed(i64),
}

/// Whether a number of a table is this one.
fn is_same(number: Number, integer: Integer) -> bool
    ensures { IsTrue result → number_value number ≡ integer_value integer }
{
    match (number.signed, integer) {
        (Some(one), Integer::Signed(other)) => one == other,
        (Some(one), Integer::Unsigned(other)) => 0 <= one && one as u64 == other,
        (None, Integer::Signed(other)) => 0 <= other && number.bits == other as u64,
        (None, Integer::Unsigned(other)) => number.bits == other,
    }
}

/// The bits of a number, one with a sign as two's complement.
fn bits_of(integer: Integer) -> u64 {
    match integer {
        Integer::Unsigned(number) => number,
        Integer::Signed(number) => number.cast_unsigned(),
    }
}

/// The bytes of a number of this width, which read as this number.
///
/// Refused with [`Why::Range`] where no bytes of the width are this number, and with [`Why::Memory`].
pub fn integer_bytes(alloc: Global, width: Width, integer: Integer) -> Result<Vec<u8>, Why>
    ensures { IfOk result (λ bytes. ReadsAs width integer bytes.items) }
{
    let bits = bits_of(integer);
    let (bytes, start) = if width.is_big {
        (bits.to_be_bytes(), 8usize.saturating_sub(width.size))
    } else {
        (bits.to_le_bytes(), 0)
    };
    let end = start.saturating_add(width.size).min(8);
    let part = &bytes[start..end];
    match number_in(width, part) {
        Some(number) if is_same(number, integer) => Ok(Vec::from_slice(alloc, part)?),
        _ => Err(Why::Range),
    }
}
