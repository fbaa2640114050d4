//! Values of JSON by the options of their rows, as bytes.

use crate::fields::set_part;
use crate::structure::{size_of, zeros};
use crate::value::flag_bits;
use crate::{Given, Integer, Why, integer_bytes, ip_bytes, row_named, value_bytes};
use neli_tables::{Kind, Options, Table};
use neli_tables_walk::width_of;
use serde_json::Value;
use std::alloc::{AllocError, Global};

/// How many structures and arrays stand in one another at most.
pub(crate) const DEPTH: usize = 5;

/// The bytes that hexadecimal digits are.
pub(crate) fn digits_bytes(alloc: Global, digits: &str) -> Result<Vec<u8>, Why> {
    match hex::decode(alloc, digits) {
        Ok(bytes) => Ok(bytes),
        Err(hex::FromHexError::OutOfMemory) => Err(Why::Memory),
        Err(_) => Err(Why::NoDigits),
    }
}

/// The digits of bytes that stand for any value: `{"bytes":".."}`.
pub(crate) fn plain_digits(value: &Value) -> Option<&str> {
    if value.as_object()?.len() != 1 {
        return None;
    }
    value.get("bytes")?.as_str()
}

/// A number of JSON, where it is whole and of 64 bits.
pub(crate) fn integer_of(value: &Value) -> Option<Integer> {
    match value.as_u64() {
        Some(number) => Some(Integer::Unsigned(number)),
        None => Some(Integer::Signed(value.as_i64()?)),
    }
}

/// The bits that texts name.
fn bits_of(table: &Table<'_>, flags: usize, names: &[Value]) -> Result<u64, Why> {
    let mut bits = 0;
    for name in names {
        bits |= flag_bits(table, flags, name.as_str().ok_or(Why::OtherSort)?)?;
    }
    Ok(bits)
}

/// What one value of JSON is, where it is a number, a text or the names of bits.
fn given_of<'v>(table: &Table<'_>, options: &Options, value: &'v Value) -> Result<Given<'v>, Why> {
    match value {
        Value::Bool(true) => Ok(Given::Nothing),
        Value::String(text) => Ok(Given::Text(text.as_str())),
        Value::Number(_) => Ok(Given::Number(integer_of(value).ok_or(Why::Range)?)),
        Value::Array(names) => {
            let flags = options.flags.ok_or(Why::OtherSort)?;
            let bits = bits_of(table, flags, names)?;
            Ok(Given::Number(Integer::Unsigned(bits)))
        }
        _ => Err(Why::OtherSort),
    }
}

/// Bits and their mask, of `struct nla_bitfield32`.
fn selected_bits(
    alloc: Global,
    table: &Table<'_>,
    options: &Options,
    value: &Value,
) -> Result<Vec<u8>, Why> {
    let word = Options {
        kind: Some(Kind::U32),
        ..*options
    };
    let mut bytes = Vec::new(alloc);
    for name in ["value", "selector"] {
        let member = value.get(name).ok_or(Why::NoName)?;
        let part = value_bytes(alloc, table, &word, given_of(table, &word, member)?)?;
        bytes.extend_from_slice(&part)?;
    }
    Ok(bytes)
}

/// The sixteen bytes of a text in the form of RFC 4122.
fn uuid_bytes(alloc: Global, text: &str) -> Result<Vec<u8>, Why> {
    let mut digits = String::new(alloc);
    for digit in text.chars() {
        if digit != '-' {
            push_char(&mut digits, digit)?;
        }
    }
    let bytes = digits_bytes(alloc, digits.as_str())?;
    if bytes.len() == 16 {
        Ok(bytes)
    } else {
        Err(Why::NoDigits)
    }
}

/// Appends a character.
fn push_char(text: &mut String, c: char) -> Result<(), AllocError> {
    text.push(c)?;
    Ok(())
}

/// Appends the number that a member is; 0 where it is missing.
fn append_member(
    alloc: Global,
    bytes: &mut Vec<u8>,
    kind: Kind,
    value: Option<&Value>,
) -> Result<(), Why> {
    let integer = match value {
        Some(value) => integer_of(value).ok_or(Why::Range)?,
        None => Integer::Unsigned(0),
    };
    append_number(alloc, bytes, kind, integer)
}

/// Appends a number of this kind.
fn append_number(
    alloc: Global,
    bytes: &mut Vec<u8>,
    kind: Kind,
    integer: Integer,
) -> Result<(), Why> {
    let width = width_of(kind, 4).ok_or(Why::OtherSort)?;
    let part = integer_bytes(alloc, width, integer)?;
    Ok(bytes.extend_from_slice(&part)?)
}

/// `struct sockaddr_in` or `sockaddr_in6`: the family, the port, for IPv6 the flow, the address, and for IPv6 the scope.
fn socket_bytes(alloc: Global, value: &Value) -> Result<Vec<u8>, Why> {
    let text = value.get("address").ok_or(Why::NoName)?;
    let address = ip_bytes(alloc, text.as_str().ok_or(Why::OtherSort)?)?;
    let mut bytes = Vec::new(alloc);
    let is_v4 = address.len() == 4;
    let family = if is_v4 { 2 } else { 10 };
    append_number(alloc, &mut bytes, Kind::U16, Integer::Unsigned(family))?;
    append_member(alloc, &mut bytes, Kind::Be16, value.get("port"))?;
    if is_v4 {
        bytes.extend_from_slice(&address)?;
        bytes.extend_from_slice(&[0; 8])?;
    } else {
        append_member(alloc, &mut bytes, Kind::Be32, value.get("flowinfo"))?;
        bytes.extend_from_slice(&address)?;
        append_member(alloc, &mut bytes, Kind::U32, value.get("scope_id"))?;
    }
    Ok(bytes)
}

/// The bytes of one value that is not a structure.
fn cell_bytes(
    alloc: Global,
    table: &Table<'_>,
    options: &Options,
    value: &Value,
) -> Result<Vec<u8>, Why> {
    if let Some(digits) = plain_digits(value) {
        return digits_bytes(alloc, digits);
    }
    match options.kind {
        Some(Kind::Bits) => selected_bits(alloc, table, options, value),
        Some(Kind::Uuid) => uuid_bytes(alloc, value.as_str().ok_or(Why::OtherSort)?),
        Some(Kind::Sockaddr) => socket_bytes(alloc, value),
        _ => value_bytes(alloc, table, options, given_of(table, options, value)?),
    }
}

/// The bytes of as many values as an array has.
#[cycle(values)]
fn array_bytes(
    alloc: Global,
    table: &Table<'_>,
    options: &Options,
    items: &[Value],
    depth: usize,
) -> Result<Vec<u8>, Why> {
    let each = Options {
        array: false,
        ..*options
    };
    let mut bytes = Vec::new(alloc);
    for item in items {
        let part = json_bytes(alloc, table, &each, item, depth)?;
        bytes.extend_from_slice(&part)?;
    }
    Ok(bytes)
}

/// The bytes of a value by the options of its row; `depth` structures and arrays may stand in one another.
///
/// Refused as a value is.
#[cycle(values)]
pub(crate) fn json_bytes(
    alloc: Global,
    table: &Table<'_>,
    options: &Options,
    value: &Value,
    depth: usize,
) -> Result<Vec<u8>, Why> {
    let Some(depth) = depth.checked_sub(1) else {
        return Err(Why::TooDeep);
    };
    if options.array && plain_digits(value).is_none() {
        let items = value.as_array().ok_or(Why::OtherSort)?;
        return array_bytes(alloc, table, options, items, depth);
    }
    match (options.kind, options.of) {
        (Some(Kind::Struct), Some(place)) if plain_digits(value).is_none() => {
            struct_bytes(alloc, table, place, value, depth)
        }
        _ => cell_bytes(alloc, table, options, value),
    }
}

/// The bytes of a structure: its fields, and zeros where none is given.
#[cycle(values)]
fn struct_bytes(
    alloc: Global,
    table: &Table<'_>,
    place: usize,
    value: &Value,
    depth: usize,
) -> Result<Vec<u8>, Why> {
    let mut bytes = zeros(alloc, size_of(table, Some(place)))?;
    match set_fields(
        alloc,
        table,
        place,
        &mut bytes,
        value,
        Others::Refused,
        depth,
    ) {
        Ok(end) => bytes.truncate(end),
        Err((_, why)) => return Err(why),
    }
    Ok(bytes)
}

/// What a member of an object may be that is no field of a structure.
#[derive(Clone, Copy, Debug, PartialEq, Eq)]
pub(crate) enum Others {
    /// Nothing: it is refused.
    Refused,
    /// An attribute after the structure: it is passed over.
    Passed,
}

/// Sets the fields of a structure that an object has, and returns where the structure ends: as the table says, or
/// where its last field has fewer values, behind these.
///
/// Refused with the name of the member: as a value is, and with [`Why::NoName`] where it is no field.
#[cycle(values)]
pub(crate) fn set_fields<'v>(
    alloc: Global,
    table: &Table<'_>,
    place: usize,
    bytes: &mut Vec<u8>,
    value: &'v Value,
    others: Others,
    depth: usize,
) -> Result<usize, (&'v str, Why)> {
    let Some(members) = value.as_object() else {
        return Err(("", Why::OtherSort));
    };
    let last = place.saturating_add(table.row_names(place).len());
    let mut end = bytes.len();
    for (name, member) in members.iter() {
        let name = name.as_str();
        let Some(row) = row_named(table, place, name.as_bytes()) else {
            if others == Others::Refused {
                return Err((name, Why::NoName));
            }
            continue;
        };
        match set_member(alloc, table, row, bytes, member, depth) {
            Ok(after) if row == last => end = after,
            Ok(_) => {}
            Err(why) => return Err((name, why)),
        }
    }
    Ok(end)
}

/// Sets the field of the row at this place, and returns where its structure ends if it is the last.
#[cycle(values)]
fn set_member(
    alloc: Global,
    table: &Table<'_>,
    row: usize,
    bytes: &mut Vec<u8>,
    value: &Value,
    depth: usize,
) -> Result<usize, Why> {
    let line = table.line(row).ok_or(Why::NoName)?;
    let options = table.options(row).ok_or(Why::NoName)?;
    let span = line.span.ok_or(Why::NoName)?;
    let part = json_bytes(alloc, table, options, value, depth)?;
    set_part(bytes, span, options, &part)?;
    let end = (span.first as usize).saturating_add(part.len());
    if end < span.last as usize && (options.array || options.kind == Some(Kind::Bytes)) {
        Ok(end)
    } else {
        Ok(bytes.len())
    }
}
