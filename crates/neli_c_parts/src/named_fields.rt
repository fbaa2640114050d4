//! The fields of the structure at the front of a message's body, as C has them.

ghost use Rattle.std.specs.Prelude.{◌≡◌, ◌≤◌, IfOk, OnOk, length};
ghost use Rattle.std.specs.Option.{option_map};
ghost use Rattle.neli_tables_walk.specs.Bodies.{body_view};
ghost use Rattle.neli_c_parts.specs.AnswersShown.{payload_view};
ghost use Rattle.neli_c_parts.specs.NamedFields.{GivesField, StoresField, between, field_end, field_in, field_start};
ghost use Rattle.neli_c_parts.specs.NamedFields.{field_text, field_value, field_view, part_of, structure_of};
ghost use Rattle.neli_c_parts.specs.Rooms.{put_at};

use crate::code::{ITEM, LENGTH, OK, PLACE};
use crate::families::Families;
use crate::message::NeliMessage;
use crate::named::NeliNamed;
use crate::naming::{body_in, body_place};
use crate::room::{TooLong, put_at, write_text_at};
use neli_tables::{Line, Span, Table};
use neli_tables_walk::{Body, Payload, PayloadJson, Shape};
use std::cmp::min;

/// A field of the structure at the front of a body.
pub const FIELD: u8 = 36;

/// A field: the table, the place of its row, the row, and its bytes.
#[derive(Clone, Copy)]
struct Field<'b, 'w> {
    table: &'w Table<'static>,
    place: usize,
    row: &'w Line<'static>,
    part: &'b [u8],
}

/// The structure at the front of a body, before its attributes, if it has one.
fn structure_of(shape: &Shape) -> Option<usize>
    ensures { result ≡ structure_of shape.now }
{
    match shape {
        Shape::Nest(nest) => nest.after,
        Shape::Short(nest) => nest.after,
        _ => None,
    }
}

/// Where a field begins, which may be past the bytes.
fn field_start(span: Option<Span>) -> usize
    ensures { result ≡ field_start span }
{
    match span {
        Some(span) => span.first as usize,
        None => 0,
    }
}

/// Where it ends.
fn field_end(span: Option<Span>) -> usize
    ensures { result ≡ field_end span }
{
    match span {
        Some(span) => span.last as usize,
        None => 0,
    }
}

/// The bytes from one place up to another.
fn between(first: usize, last: usize, bytes: &[u8]) -> &[u8]
    requires { last ≤ length bytes.now }
    ensures { result.now ≡ between first last bytes.now }
{
    if first <= last {
        &bytes[first..last]
    } else {
        &[]
    }
}

/// The bytes of a field that are there.
fn part_of(span: Option<Span>, bytes: &[u8]) -> &[u8]
    ensures { result.now ≡ part_of span bytes.now }
{
    let (first, last) = (field_start(span), field_end(span));
    between(min(first, bytes.len()), min(last, bytes.len()), bytes)
}

/// The field of this index.
fn field_in<'b, 'w>(body: &Body<'b, 'w, 'static>, index: usize) -> Option<Field<'b, 'w>>
    ensures { option_map field_view result ≡ field_in (body_view body.now) index }
{
    let table = body.table?;
    let section = structure_of(&body.shape())?;
    let row = table.rows(section).get(index)?;
    Some(Field {
        table,
        place: section.saturating_add(1).saturating_add(index),
        row,
        part: part_of(row.span, body.bytes),
    })
}

/// Writes a field's name, and its value behind it; returns how long the value is.
fn write_field(field: &Field<'_, '_>, out: &mut [u8]) -> Result<usize, TooLong>
    ensures value { IfOk result (λ size. size ≡ length (field_value (field_view field.now))) }
    ensures text { OnOk result (out.new ≡ put_at 0 (field_text (field_view field.now)) out.old) }
{
    let name = field.row.name;
    let value = PayloadJson(Payload {
        table: field.table,
        place: field.place,
        bytes: field.part,
    });
    put_at(out, 0, name);
    let end = write_text_at(value, out, name.len())?;
    Ok(end - name.len())
}

/// Stores a field whose structure begins at this place, if there is one, and writes its texts.
#[tactic(auto, using(crate::proofs::Parts::long_both))]
fn store_field(
    field: Option<Field<'_, '_>>,
    begin: usize,
    named: &mut NeliNamed,
    out: &mut [u8],
    size: &mut usize,
) -> i32
    ensures { StoresField result begin (option_map field_view field.entry) named.old named.new
        out.old out.new size.old size.new }
{
    let Some(field) = field else {
        return OK;
    };
    let Ok(value_length) = write_field(&field, out) else {
        return LENGTH;
    };
    let name_length = field.row.name.len();
    let Some(whole) = name_length.checked_add(value_length) else {
        return LENGTH;
    };
    *named = NeliNamed {
        number: 0,
        kind: FIELD,
        depth: 0,
        payload: begin.saturating_add(field_start(field.row.span)),
        payload_length: field.part.len(),
        path: 0,
        path_length: name_length,
        value: name_length,
        value_length,
    };
    *size = whole;
    ITEM
}

/// Stores a field of the structure at the front of a message's body, and writes its name and its value.
pub fn message_field(
    families: &Families,
    protocol: u16,
    bytes: &[u8],
    message: &NeliMessage,
    index: usize,
    named: &mut NeliNamed,
    out: &mut [u8],
    size: &mut usize,
) -> i32
    ensures { GivesField result protocol message.now (payload_view bytes.now message.now) index
        families.now named.old named.new out.old out.new size.old size.new }
{
    match body_in(families, protocol, bytes, message) {
        Some(body) => {
            let begin = body_place(&body, message);
            store_field(field_in(&body, index), begin, named, out, size)
        }
        None => PLACE,
    }
}
