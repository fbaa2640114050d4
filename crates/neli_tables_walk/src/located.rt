//! Where a message stands among the tables.

ghost use Rattle.std.specs.Prelude.{◌≡◌};
ghost use Rattle.std.specs.Option.{option_map};
ghost use Rattle.neli_tables.specs.Families.{fixed_id};
ghost use Rattle.neli_tables_walk.specs.Bodies.{body_in, body_view, counted_line, first_table};
ghost use Rattle.neli_tables_walk.specs.Bodies.{fixed_body};
ghost use Rattle.neli_tables_walk.specs.Bodies.{generic_body, generic_table, is_meant, number_at};
ghost use Rattle.neli_tables_walk.specs.Bodies.{typed_body, where_at};

use crate::generic::{GENERIC, GENERIC_HEADER_SIZE, generic_header};
use crate::{Body, Head};
use byteorder::{ByteOrder, LittleEndian};
use neli_tables::{Span, Table, Tables, options_of};

/// The body of a message with this header and this payload.
///
/// - In generic netlink the table is that of the family, by the number that was learnt for it or is
///   fixed, and the line that of the header's command. The body follows the header.
/// - In a protocol whose first table has the option `at=` the message's number stands in the
///   payload. With `id=` too, the payload begins with this number in four bytes; else the message
///   is not known.
/// - In any other protocol the number is the type, in the first table that has it; types below 16
///   are no protocol's own and have no line.
pub fn body_of<'b, 'w, 't>(
    tables: &'w Tables<'t>,
    head: Head,
    payload: &'b [u8],
) -> Body<'b, 'w, 't>
    ensures { body_view result ≡ body_in tables.now head payload.now }
{
    if head.protocol == GENERIC {
        generic_body(tables, head, payload)
    } else {
        fixed_body(tables, head, payload)
    }
}

/// The table of the family of generic netlink whose messages have this type.
fn generic_table<'w, 't>(tables: &'w Tables<'t>, number: u16) -> Option<&'w Table<'t>>
    ensures { option_map (λ table. table.now) result ≡ generic_table tables.now number }
{
    tables.table(tables.generic_by_id(number)?)
}

/// The body of a message of generic netlink.
fn generic_body<'b, 'w, 't>(
    tables: &'w Tables<'t>,
    head: Head,
    payload: &'b [u8],
) -> Body<'b, 'w, 't>
    ensures { body_view result ≡ generic_body tables.now head payload.now }
{
    if head.is_control() {
        return Body::unknown(payload);
    }
    let Some(header) = generic_header(payload) else {
        return Body::unknown(payload);
    };
    let table = generic_table(tables, head.message_type);
    let line = match table {
        Some(table) => table.message(head.way(), None, header.command as u64),
        None => None,
    };
    Body {
        table,
        line,
        generic: Some(header),
        bytes: &payload[GENERIC_HEADER_SIZE..],
    }
}

/// The first table of a protocol.
pub(crate) fn first_table<'w, 't>(tables: &'w Tables<'t>, protocol: u16) -> Option<&'w Table<'t>>
    ensures { option_map (λ table. table.now) result ≡ first_table tables.now protocol }
{
    tables.table(tables.of_protocol(protocol as u64)?)
}

/// Where the messages of a family state their number, if not in their header.
pub(crate) fn where_at(table: &Table<'_>) -> Option<Span>
    ensures { result ≡ where_at table.now }
{
    options_of(table.line(0)?).at
}

/// The body of a message of another protocol.
fn fixed_body<'b, 'w, 't>(tables: &'w Tables<'t>, head: Head, payload: &'b [u8]) -> Body<'b, 'w, 't>
    ensures { body_view result ≡ fixed_body tables.now head payload.now }
{
    match first_table(tables, head.protocol) {
        Some(table) => match where_at(table) {
            Some(at) => Body {
                table: Some(table),
                line: counted_line(table, at, head, payload),
                generic: None,
                bytes: payload,
            },
            None => typed_body(tables, head, payload),
        },
        None => typed_body(tables, head, payload),
    }
}

/// The body of a message whose type is its number.
fn typed_body<'b, 'w, 't>(tables: &'w Tables<'t>, head: Head, payload: &'b [u8]) -> Body<'b, 'w, 't>
    ensures { body_view result ≡ typed_body tables.now head payload.now }
{
    if head.is_control() {
        return Body::unknown(payload);
    }
    let place = tables.message(
        head.protocol as u64,
        head.way(),
        payload.first().copied(),
        head.message_type as u64,
    );
    Body::placed(tables, place, payload)
}

/// The place of the message whose number stands in these bytes of a payload.
fn counted_line(table: &Table<'_>, at: Span, head: Head, payload: &[u8]) -> Option<usize>
    ensures { result ≡ counted_line table.now at head payload.now }
{
    if !is_meant(table, payload) {
        return None;
    }
    let number = number_at(at, payload)?;
    table.message(head.way(), payload.first().copied(), number)
}

/// The number of a family, where it is fixed.
fn fixed_id(table: &Table<'_>) -> Option<u64>
    ensures { result ≡ fixed_id table.now }
{
    options_of(table.line(0)?).id
}

/// Whether a payload begins with the number of a table's family, in four bytes, where that has one.
fn is_meant(table: &Table<'_>, payload: &[u8]) -> bool
    ensures { result ≡ is_meant table.now payload.now }
{
    match fixed_id(table) {
        Some(id) => 4 <= payload.len() && LittleEndian::read_u32(payload) as u64 == id,
        None => true,
    }
}

/// The number in these bytes of a payload; `None` where it is shorter, or these are none or more
/// than eight.
fn number_at(at: Span, payload: &[u8]) -> Option<u64>
    ensures { result ≡ number_at at payload.now }
{
    let bytes = payload.get(at.first as usize..at.last as usize)?;
    let size = bytes.len();
    if 0 < size && size < 9 {
        Some(LittleEndian::read_uint(bytes, size))
    } else {
        None
    }
}
