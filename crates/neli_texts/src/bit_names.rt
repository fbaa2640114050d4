//! Bits by their names: one after the other, with bars between them.

ghost use Rattle.std.specs.Prelude.{◌≡◌, IsOk, map};
ghost use Rattle.std.specs.Fmt.{HasWritten, IsPlainFormatter};
ghost use Rattle.bitflags.specs.Sets.{Row, is_next};
ghost use Rattle.neli_texts.specs.FlagNames.{mark, names_text};

use std::fmt;

/// A row of a table of flags: some bits, and their name.
pub(crate) trait NamedBits {
    // The row's name and bits.
    ghost row_of: { Self → Row };

    /// The bits.
    fn bits_named(&self) -> u32
        ensures { result ≡ (row_of self.now).1 };

    /// Their name.
    fn name_of_bits(&self) -> &str
        ensures { result.now ≡ (row_of self.now).0 };
}

/// The mark before a name: a bar, except before the first.
fn mark(is_first: bool) -> &'static str
    ensures { result.now ≡ mark is_first }
{
    if is_first { "" } else { "|" }
}

/// Whether a row is printed: it has a name, the set has all of its bits, and some of them are left.
fn is_next<R: NamedBits>(row: &R, set: u32, left: u32) -> bool
    ensures { result ≡ is_next (R.row_of row.now).0 (R.row_of row.now).1 set left }
{
    let bits = row.bits_named();
    !row.name_of_bits().is_empty() && set & bits == bits && left & bits != 0
}

/// Prints the bits of a set by the names of a table, as `UP|RUNNING`: the names in the order of the table, then the
/// rest as one number, as `UP|0x80000000`; `0x0` without any bit.
pub(crate) fn write_names<R: NamedBits, W: fmt::Write>(
    rows: &[R],
    set: u32,
    f: &mut fmt::Formatter<W>,
) -> fmt::Result
    ensures writes { IsPlainFormatter f.old → IsOk result → HasWritten W.Write.write_str_gives f.old
        (names_text (map R.row_of rows.now) set) f.new }
{
    let mut left = set;
    let mut is_first = true;
    for row in rows {
        if is_next(row, set, left) {
            let mark = mark(is_first);
            let name = row.name_of_bits();
            write!(f, "{mark}{name}")?;
            is_first = false;
            left &= !row.bits_named();
        }
    }
    if left != 0 || is_first {
        let mark = mark(is_first);
        write!(f, "{mark}0x{left:x}")?;
    }
    Ok(())
}
