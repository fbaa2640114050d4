//! Values by the options of their rows, as bytes.

ghost use Rattle.std.specs.Prelude.{◌≡◌, [], IfOk, Some};
ghost use Rattle.neli_tables_write.specs.Values.{FlagIs, IsNumberOf, IsTextOf, IsValueOf, NamesNumber, is_allowed, is_in_mask};
ghost use Rattle.neli_tables_write.specs.Values.{is_in_span, line_number};

use crate::{
    Given, Integer, Why, hardware_bytes, integer_bytes, ip_bytes, ipv4_bytes, ipv6_bytes,
    row_named, text_bytes,
};
use neli_tables::{Kind, Options, Span, Table};
use neli_tables_walk::width_of;
use std::alloc::Global;

/// Whether a range, if there is one, has this number.
fn is_in_span(span: Option<Span>, number: u64) -> bool
    ensures { result ≡ is_in_span span number }
{
    match span {
        Some(span) => span.first <= number && number <= span.last,
        None => true,
    }
}

/// Whether a mask, if there is one, has all bits of this number.
fn is_in_mask(mask: Option<u64>, number: u64) -> bool
    ensures { result ≡ is_in_mask mask number }
{
    match mask {
        Some(mask) => number & mask == number,
        None => true,
    }
}

/// Whether a row allows this number. One below 0 is in no range and no mask.
fn is_allowed(options: &Options, integer: Integer) -> bool
    ensures { result ≡ is_allowed options.now integer }
{
    let number = match integer {
        Integer::Unsigned(number) => number,
        Integer::Signed(number) if 0 <= number => number as u64,
        Integer::Signed(_) => return options.range.is_none() && options.mask.is_none(),
    };
    is_in_span(options.range, number) && is_in_mask(options.mask, number)
}

/// The bytes of a number of such a row, which read as this number: of `uint` and `sint` four, or eight where it needs
/// as many.
///
/// Refused with [`Why::OtherSort`] where the kind is no number's, with [`Why::Range`] where it does not fit the kind or
/// the row does not allow it, and with [`Why::Memory`].
#[tactic(auto, using(crate::specs::laws::Values::width_own))]
pub fn number_bytes(alloc: Global, options: &Options, integer: Integer) -> Result<Vec<u8>, Why>
    ensures { IfOk result (λ bytes. IsNumberOf options.now integer bytes.items) }
{
    let kind = options.kind.ok_or(Why::OtherSort)?;
    if !is_allowed(options, integer) {
        return Err(Why::Range);
    }
    let narrow = width_of(kind, 4).ok_or(Why::OtherSort)?;
    match integer_bytes(alloc, narrow, integer) {
        Err(Why::Range) => {
            let wide = width_of(kind, 8).ok_or(Why::OtherSort)?;
            integer_bytes(alloc, wide, integer)
        }
        bytes => bytes,
    }
}

/// The number of the line at this place; 0 where it has none.
fn line_number(table: &Table<'_>, place: usize) -> u64
    ensures { result ≡ line_number table.now place }
{
    match table.line(place) {
        Some(line) => match line.span {
            Some(span) => span.first,
            None => 0,
        },
        None => 0,
    }
}

/// The bits of a flag set that a name means, or the number that `0x` and digits are.
///
/// Refused with [`Why::NoValue`].
pub(crate) fn flag_bits(table: &Table<'_>, flags: usize, text: &str) -> Result<u64, Why>
    ensures { IfOk result (FlagIs table.now flags text.now) }
{
    if let Some(row) = row_named(table, flags, text.as_bytes()) {
        return Ok(line_number(table, row));
    }
    let Some(digits) = text.strip_prefix("0x") else {
        return Err(Why::NoValue);
    };
    match u64::from_str_radix(digits, 16) {
        Ok(bits) => Ok(bits),
        Err(_) => Err(Why::NoValue),
    }
}

/// The number that a text names by the enum or the flag set of a row.
///
/// Refused with [`Why::NoValue`] where no row has the name, and with [`Why::OtherSort`] where numbers have no names.
fn named_number(table: &Table<'_>, options: &Options, text: &str) -> Result<u64, Why>
    ensures { IfOk result (NamesNumber table.now options.now text.now) }
{
    if let Some(flags) = options.flags {
        return flag_bits(table, flags, text);
    }
    let values = options.values.ok_or(Why::OtherSort)?;
    match row_named(table, values, text.as_bytes()) {
        Some(row) => Ok(line_number(table, row)),
        None => Err(Why::NoValue),
    }
}

/// The bytes of what a text means by such a row.
fn bytes_of_text(
    alloc: Global,
    table: &Table<'_>,
    options: &Options,
    text: &str,
) -> Result<Vec<u8>, Why>
    ensures { IfOk result (λ bytes. IsTextOf table.now options.now options.now.kind text.now bytes.items) }
{
    match options.kind {
        Some(Kind::Text | Kind::Ztext) => text_bytes(alloc, text),
        Some(Kind::Hardware) => hardware_bytes(alloc, text),
        Some(Kind::Ipv4) => ipv4_bytes(alloc, text),
        Some(Kind::Ipv6) => ipv6_bytes(alloc, text),
        Some(Kind::Ip | Kind::Address) => ip_bytes(alloc, text),
        _ => {
            let number = named_number(table, options, text)?;
            number_bytes(alloc, options, Integer::Unsigned(number))
        }
    }
}

/// The bytes of nothing, of a flag.
fn bytes_of_nothing(alloc: Global, options: &Options) -> Result<Vec<u8>, Why>
    ensures { IfOk result (λ bytes. (options.now.kind ≡ Some Kind.Flag) × (bytes.items ≡ [])) }
{
    match options.kind {
        Some(Kind::Flag) => Ok(Vec::new(alloc)),
        _ => Err(Why::OtherSort),
    }
}

/// The bytes of a value by the options of its row, from which the walk reads the value again.
///
/// Refused with [`Why::OtherSort`], [`Why::Range`], [`Why::NoValue`], [`Why::NoAddress`], [`Why::ZeroInside`] and
/// [`Why::Memory`].
pub fn value_bytes(
    alloc: Global,
    table: &Table<'_>,
    options: &Options,
    given: Given<'_>,
) -> Result<Vec<u8>, Why>
    ensures { IfOk result (λ bytes. IsValueOf table.now options.now given.entry bytes.items) }
{
    match given {
        Given::Nothing => bytes_of_nothing(alloc, options),
        Given::Number(integer) => number_bytes(alloc, options, integer),
        Given::Text(text) => bytes_of_text(alloc, table, options, text),
        Given::Bytes(bytes) => Ok(Vec::from_slice(alloc, bytes)?),
    }
}
