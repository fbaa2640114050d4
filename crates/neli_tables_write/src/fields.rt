//! Fields of a structure.

ghost use Rattle.std.specs.Prelude.{◌≡◌, OnErr};

use crate::{Given, Why, value_bytes};
use neli_tables::{Kind, Options, Span, Table};
use neli_tables_walk::without_zero;
use std::alloc::Global;

/// Whether what is shorter than a field of these options has zeros behind it there.
fn may_be_short(options: &Options) -> bool {
    options.array
        || matches!(
            options.kind,
            Some(Kind::Text | Kind::Bytes | Kind::Pad | Kind::Hardware)
        )
}

/// Sets the bytes of a field. Refused with [`Why::Range`] where it has no room for them, or they are too few; then
/// nothing is set.
pub(crate) fn set_part(
    bytes: &mut [u8],
    span: Span,
    options: &Options,
    part: &[u8],
) -> Result<(), Why>
    ensures unchanged { OnErr result (bytes.new ≡ bytes.old) }
{
    let part = match options.kind {
        Some(Kind::Text) => without_zero(part),
        _ => part,
    };
    let (start, end) = (span.first as usize, span.last as usize);
    if end < start || bytes.len() < end || end - start < part.len() {
        return Err(Why::Range);
    }
    if part.len() < end - start && !may_be_short(options) {
        return Err(Why::Range);
    }
    bytes[start..start + part.len()].copy_from_slice(part);
    bytes[start + part.len()..end].fill(0);
    Ok(())
}

/// Sets the field of the row at this place in the bytes of its structure. Refused, nothing is set.
pub(crate) fn set_field(
    alloc: Global,
    table: &Table<'_>,
    row: usize,
    bytes: &mut [u8],
    given: Given<'_>,
) -> Result<(), Why>
    ensures unchanged { OnErr result (bytes.new ≡ bytes.old) }
{
    let line = table.line(row).ok_or(Why::NoName)?;
    let options = table.options(row).ok_or(Why::NoName)?;
    let span = line.span.ok_or(Why::NoName)?;
    let part = value_bytes(alloc, table, options, given)?;
    set_part(bytes, span, options, &part)
}
