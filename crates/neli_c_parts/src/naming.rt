//! What the calls find in a message by name, with their codes.

ghost use Rattle.std.specs.Prelude.{◌≡◌, ◌≢◌, ◌&&◌, IfOk, OnErr, nat_le, if◌then◌else◌};
ghost use Rattle.std.specs.Option.{option_map};
ghost use Rattle.neli_tables_walk.specs.Bodies.{body_in, body_shape, body_view};
ghost use Rattle.neli_tables_walk.specs.Shapes.{context_view};
ghost use Rattle.neli_tables_check.specs.Violations.{violation_by};
ghost use Rattle.neli_c_parts.specs.AnswersShown.{payload_view};
ghost use Rattle.neli_c_parts.specs.Codes.{bad_length, item, ok, room, violation};
ghost use Rattle.neli_c_parts.specs.Named.{Checks, ChecksAs, Explains, FindsPath, GivesItems, PrintsWrong, StoresIn};
ghost use Rattle.neli_c_parts.specs.Named.{StoresItems, at_in, body_place, list_in, place_view, said, unlisted_code};
ghost use Rattle.neli_c_parts.specs.Named.{validation_at};
ghost use Rattle.neli_c_parts.specs.NamedItems.{named_items, named_text};
ghost use Rattle.neli_c_parts.specs.Tables.{head_of};

use crate::bytes::payload_of;
use crate::code::{ITEM, KIND, LENGTH, OK, PLACE, ROOM, SHORT, VIOLATION};
use crate::families::Families;
use crate::message::NeliMessage;
use crate::named::{NeliNamed, Stored, named_items};
use crate::printing::print;
use crate::room::TooLong;
use crate::tabling::head_of;
use neli_tables_check::{Place, Refusal, Validation, Violation, check_as, find, validation_of};
use neli_tables_walk::{Body, Context, GENERIC_HEADER_SIZE, Nest, Shape, body_of};

/// The kernel's two parsers (`enum neli_validation` of include/neli.h).
pub const LIBERAL: i32 = 0;

pub const STRICT: i32 = 1;

/// The body of a message, where its payload lies within the bytes.
pub fn body_in<'b, 'w>(
    families: &'w Families,
    protocol: u16,
    bytes: &'b [u8],
    message: &NeliMessage,
) -> Option<Body<'b, 'w, 'static>>
    ensures { option_map body_view result
        ≡ option_map (body_in families.now.tables (head_of protocol message.now))
        (payload_view bytes.now message.now) }
{
    match payload_of(bytes, message) {
        Some(payload) => Some(body_of(&families.tables, head_of(protocol, message), payload)),
        None => None,
    }
}

/// What the attributes of a body are read by, and the list that they are, if the tables have one.
fn list_in<'w>(body: &Body<'_, 'w, 'static>) -> Option<(Context<'w, 'static>, Nest)>
    ensures { option_map (λ list. (context_view list.0, list.1)) result ≡ list_in (body_view body.now) }
{
    match (body.context(), body.shape()) {
        (Some(context), Shape::Nest(nest)) => Some((context, nest)),
        _ => None,
    }
}

/// The place of a body in the bytes that its message was read from; the largest where that passes 64 bits.
pub fn body_place(body: &Body<'_, '_, 'static>, message: &NeliMessage) -> usize
    ensures { result ≡ body_place (body_view body.now) message.now }
{
    match body.generic {
        Some(_) => message.payload.saturating_add(GENERIC_HEADER_SIZE),
        None => message.payload,
    }
}

/// The code of items that were stored, with how many they are and how long their texts are; of those that were not,
/// `LENGTH`, and `count` and `size` are as they were.
fn of_stored(
    stored: Result<Stored, TooLong>,
    item_room: usize,
    text_room: usize,
    count: &mut usize,
    size: &mut usize,
) -> i32
    ensures sizes { IfOk stored (λ all. (count.new ≡ all.count) × (size.new ≡ all.size)) }
    ensures code { IfOk stored (λ all. result
        ≡ (if nat_le all.count item_room && nat_le all.size text_room then ok else room)) }
    ensures refused { OnErr stored
        ((result ≡ bad_length) × (count.new ≡ count.old) × (size.new ≡ size.old)) }
{
    let Ok(stored) = stored else {
        return LENGTH;
    };
    *count = stored.count;
    *size = stored.size;
    if stored.count <= item_room && stored.size <= text_room {
        OK
    } else {
        ROOM
    }
}

/// Stores the items of a body at this place, and writes their texts, as many as there is room for.
fn store_items(
    context: Context<'_, 'static>,
    nest: Nest,
    bytes: &[u8],
    place: usize,
    items: &mut [NeliNamed],
    count: &mut usize,
    out: &mut [u8],
    size: &mut usize,
) -> i32
    ensures stored { result ≢ bad_length → StoresItems result
        (named_items (context_view context.entry) nest bytes.now place)
        (named_text (context_view context.entry) nest bytes.now)
        items.old items.new count.new out.old out.new size.new }
    ensures unstored { result ≡ bad_length
        → (count.new ≡ count.old) × (size.new ≡ size.old) }
{
    let (item_room, text_room) = (items.len(), out.len());
    let stored = named_items(context, nest, bytes, place, items, out);
    of_stored(stored, item_room, text_room, count, size)
}

/// The code of a body that is no list of attributes: `SHORT` if it is shorter than the structure before them.
fn unlisted(body: &Body<'_, '_, 'static>) -> i32
    ensures { result ≡ unlisted_code (body_shape (body_view body.now)) }
{
    match body.shape() {
        Shape::Short(_) => SHORT,
        _ => KIND,
    }
}

/// Stores the items of a body, if its table has its attributes.
fn body_items(
    body: &Body<'_, '_, 'static>,
    message: &NeliMessage,
    items: &mut [NeliNamed],
    count: &mut usize,
    out: &mut [u8],
    size: &mut usize,
) -> i32
    ensures stored { StoresIn result (body_view body.now) message.now (list_in (body_view body.now))
        items.old items.new count.new out.old out.new size.new }
    ensures unstored { result ≢ ok → result ≢ room
        → (count.new ≡ count.old) × (size.new ≡ size.old) }
{
    let Some((context, nest)) = list_in(body) else {
        return unlisted(body);
    };
    let place = body_place(body, message);
    store_items(context, nest, body.bytes, place, items, count, out, size)
}

/// Stores the items of a message's attributes, and writes their paths and values.
pub fn message_items(
    families: &Families,
    protocol: u16,
    bytes: &[u8],
    message: &NeliMessage,
    items: &mut [NeliNamed],
    count: &mut usize,
    out: &mut [u8],
    size: &mut usize,
) -> i32
    ensures stored { GivesItems result protocol message.now (payload_view bytes.now message.now)
        families.now items.old items.new count.new out.old out.new size.new }
    ensures unstored { result ≢ ok → result ≢ room
        → (count.new ≡ count.old) × (size.new ≡ size.old) }
{
    match body_in(families, protocol, bytes, message) {
        Some(body) => body_items(&body, message, items, count, out, size),
        None => PLACE,
    }
}

/// Checks a body's attributes as a parser does, and prints the first violation.
fn check_body(
    body: &Body<'_, '_, 'static>,
    validation: Validation,
    out: &mut [u8],
    size: &mut usize,
) -> i32
    ensures checked { result ≢ bad_length → PrintsWrong result (body_view body.now).0
        (violation_by validation (body_view body.now)) out.old out.new size.new }
    ensures unprinted { result ≢ violation → size.new ≡ size.old }
{
    let Some(table) = body.table else {
        return OK;
    };
    match check_as(body, validation) {
        Ok(()) => OK,
        Err(Violation { place, wrong }) => {
            let place = Place {
                table,
                path: place.path,
            };
            let code = print(Violation { place, wrong }, out, size);
            if code == LENGTH { LENGTH } else { VIOLATION }
        }
    }
}

/// Checks a message's attributes by their rows, and prints the first violation.
pub fn check_message(
    families: &Families,
    protocol: u16,
    bytes: &[u8],
    message: &NeliMessage,
    out: &mut [u8],
    size: &mut usize,
) -> i32
    ensures checked { Checks result protocol message.now (payload_view bytes.now message.now)
        families.now out.old out.new size.new }
    ensures unprinted { result ≢ violation → size.new ≡ size.old }
{
    match body_in(families, protocol, bytes, message) {
        Some(body) => check_body(&body, validation_of(&body), out, size),
        None => PLACE,
    }
}

/// The parser with this number.
fn validation_at(number: i32) -> Option<Validation>
    ensures { result ≡ validation_at number }
{
    match number {
        LIBERAL => Some(Validation::Liberal),
        STRICT => Some(Validation::Strict),
        _ => None,
    }
}

/// Checks a message's attributes as the parser with this number does, and prints the first violation.
pub fn check_message_as(
    families: &Families,
    validation: i32,
    protocol: u16,
    bytes: &[u8],
    message: &NeliMessage,
    out: &mut [u8],
    size: &mut usize,
) -> i32
    ensures checked { ChecksAs result (validation_at validation) protocol message.now
        (payload_view bytes.now message.now) families.now out.old out.new size.new }
    ensures unprinted { result ≢ violation → size.new ≡ size.old }
{
    let Some(validation) = validation_at(validation) else {
        return KIND;
    };
    match body_in(families, protocol, bytes, message) {
        Some(body) => check_body(&body, validation, out, size),
        None => PLACE,
    }
}

/// The attribute at an offset of a body's message, by the body's table.
fn place_in<'w>(body: &Body<'_, 'w, 'static>, offset: usize) -> Option<Place<'w, 'static>>
    ensures { place_view result ≡ at_in (body_view body.now) offset }
{
    match (body.table, find(body, offset)) {
        (Some(table), Some(place)) => Some(Place {
            table,
            path: place.path,
        }),
        _ => None,
    }
}

/// Prints the path to the attribute at an offset of a message.
pub fn path_at(
    families: &Families,
    protocol: u16,
    bytes: &[u8],
    message: &NeliMessage,
    offset: usize,
    out: &mut [u8],
    size: &mut usize,
) -> i32
    ensures found { FindsPath result protocol message.now (payload_view bytes.now message.now)
        offset families.now out.old out.new size.new }
    ensures unprinted { result ≢ item → size.new ≡ size.old }
{
    let Some(body) = body_in(families, protocol, bytes, message) else {
        return PLACE;
    };
    match place_in(&body, offset) {
        Some(place) => {
            let code = print(place, out, size);
            if code == LENGTH { LENGTH } else { ITEM }
        }
        None => OK,
    }
}

/// The kernel's text, if it sent one.
fn said(text: &[u8]) -> Option<&[u8]>
    ensures { option_map (λ t. t.now) result ≡ said text.now }
{
    if text.is_empty() { None } else { Some(text) }
}

/// Prints a refusal of the kernel: its number by name and meaning, its text, and the attribute at
/// an offset of the request.
pub fn refusal_text(
    families: &Families,
    protocol: u16,
    bytes: &[u8],
    message: &NeliMessage,
    error: i32,
    text: &[u8],
    offset: usize,
    out: &mut [u8],
    size: &mut usize,
) -> i32
    ensures { Explains result protocol message.now (payload_view bytes.now message.now) error
        text.now offset families.now out.old out.new size.old size.new }
{
    let Some(body) = body_in(families, protocol, bytes, message) else {
        return PLACE;
    };
    let refusal = Refusal {
        number: error.unsigned_abs(),
        text: said(text),
        place: place_in(&body, offset),
    };
    print(refusal, out, size)
}
