//! The bits of a value, and their names.

ghost use Rattle.std.specs.Prelude.{◌≡◌, map};
ghost use Rattle.neli_tables.specs.Lines.{line_view};
ghost use Rattle.neli_tables.specs.Bits.{covers, is_set, left_by, mask_of, unnamed_bits, without};

use crate::Line;

/// The number of a line; 0 where it has none.
pub fn mask_of(line: &Line<'_>) -> u64
    ensures { result ≡ mask_of (line_view line.now) }
{
    match line.span {
        Some(span) => span.first,
        None => 0,
    }
}

/// Whether all bits of a mask are set, and it has some.
fn covers(bits: u64, mask: u64) -> bool
    ensures { result ≡ covers bits mask }
{
    0 < mask && bits & mask == mask
}

/// Bits without those of a mask.
fn without(bits: u64, mask: u64) -> u64
    ensures { result ≡ without bits mask }
{
    bits ^ (bits & mask)
}

/// Whether a row of a flag set names bits of this value: all bits of the row's mask are set.
pub fn is_set(row: &Line<'_>, bits: u64) -> bool
    ensures { result ≡ is_set bits (line_view row.now) }
{
    covers(bits, mask_of(row))
}

/// What is left of a value's bits without those that a row names.
fn left_by(row: &Line<'_>, bits: u64, left: u64) -> u64
    ensures { result ≡ left_by bits left (line_view row.now) }
{
    if is_set(row, bits) {
        without(left, mask_of(row))
    } else {
        left
    }
}

/// The bits of a value that no row of a flag set names.
pub fn unnamed_bits(rows: &[Line<'_>], bits: u64) -> u64
    ensures { result ≡ unnamed_bits bits bits (map line_view rows.now) }
{
    let mut left = bits;
    for row in rows {
        left = left_by(row, bits, left);
    }
    left
}
