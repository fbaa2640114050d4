//! Structures, and the bytes behind them.

ghost use Rattle.std.specs.Prelude.{◌≡◌, Some, drop};
ghost use Rattle.neli_print.specs.Rests.{rest_member, rest_of, rest_words, size_at};
ghost use Rattle.neli_tables_walk.specs.Values.{struct_in};

use neli_tables::{Kind, Table};
use neli_tables_walk::{Bytes, Hex};
use std::fmt;

/// The bytes from this place on.
pub(crate) fn bytes_from(bytes: &[u8], start: usize) -> &[u8]
    ensures { result.now ≡ drop start bytes.now }
{
    match bytes.get(start..) {
        Some(rest) => rest,
        None => &[],
    }
}

/// The place of the structure that a payload is by the line at this place, if it is one.
pub(crate) fn struct_in(table: &Table<'_>, place: usize) -> Option<usize>
    ensures { result ≡ struct_in table.now place }
{
    let options = table.options(place)?;
    match options.kind {
        Some(Kind::Struct) if !options.array => options.of,
        _ => None,
    }
}

/// The size of the structure at this place in bytes.
fn size_at(table: &Table<'_>, place: usize) -> usize
    ensures { result ≡ size_at table.now place }
{
    match table.line(place) {
        Some(line) => match line.span {
            Some(span) => span.first as usize,
            None => 0,
        },
        None => 0,
    }
}

/// The bytes behind a structure, where a payload is one by the line at this place.
pub(crate) fn rest_of<'b>(table: &Table<'_>, place: usize, payload: &'b [u8]) -> &'b [u8]
    ensures { result.now ≡ rest_of table.now place payload.now }
{
    match struct_in(table, place) {
        Some(of) => bytes_from(payload, size_at(table, of)),
        None => &[],
    }
}

/// The member of bytes behind what is known, after others; nothing where there are none.
#[derive(Clone, Copy)]
pub(crate) struct RestMember<'b>(pub &'b [u8]);

impl fmt::Display for RestMember<'_> {
    ghost output = { λ r. Some (rest_member r.0.now) };

    fn fmt<W: fmt::Write>(&self, f: &mut fmt::Formatter<W>) -> fmt::Result {
        match self.0 {
            [] => Ok(()),
            bytes => {
                let bytes = Hex(bytes);
                write!(f, ",\"rest\":\"{bytes}\"")
            }
        }
    }
}

/// Bytes behind what is known, on its line; nothing where there are none.
#[derive(Clone, Copy)]
pub(crate) struct RestWords<'b>(pub &'b [u8]);

impl fmt::Display for RestWords<'_> {
    ghost output = { λ r. Some (rest_words r.0.now) };

    fn fmt<W: fmt::Write>(&self, f: &mut fmt::Formatter<W>) -> fmt::Result {
        match self.0 {
            [] => Ok(()),
            bytes => {
                let bytes = Bytes(bytes);
                write!(f, " rest {bytes}")
            }
        }
    }
}
