//! Numbers by their names, and names by their numbers, among tables; and one table that is built in.

ghost use Rattle.std.specs.Prelude.{◌≡◌, find, map, position};
ghost use Rattle.std.specs.Option.{option_copied, option_map};
ghost use Rattle.neli_tables.specs.Families.{protocol_of, tables_in};
ghost use Rattle.neli_tables.specs.Lines.{line_view};
ghost use Rattle.neli_tables_walk.specs.Bodies.{body_view};
ghost use Rattle.neli_c_parts.specs.AnswersShown.{payload_view};
ghost use Rattle.neli_c_parts.specs.Lookups.{AddsBuiltIn, GivesName, GivesNumber, IsTextNamed, NamesMessage, family_in};
ghost use Rattle.neli_c_parts.specs.Lookups.{has_number, heading_named, is_family_named, is_list, is_list_word, is_named};
ghost use Rattle.neli_c_parts.specs.Lookups.{is_own, is_own_word, line_name, message_name, name_found, name_in};
ghost use Rattle.neli_c_parts.specs.Lookups.{number_found, number_in, request_in, rows_named};

use crate::code::{ITEM, KIND, OK, PLACE};
use crate::families::Families;
use crate::message::NeliMessage;
use crate::naming::body_in;
use crate::room::put_at;
use crate::tabling::of_unread;
use neli_tables::{Line, Table, Way, Word};
use neli_tables_generic::GenericTable;
use neli_tables_routing::RoutingTable;
use neli_tables_system::SystemTable;
use neli_tables_walk::Body;
use std::alloc::Global;

/// Whether such a line begins a list of rows: fields, attributes, cases, or values.
fn is_list_word(word: Word) -> bool
    ensures { result ≡ is_list_word word }
{
    matches!(
        word,
        Word::Struct | Word::Set | Word::Choice | Word::Enum | Word::Flags
    )
}

/// Whether such a line is a message or a group.
fn is_own_word(word: Word) -> bool
    ensures { result ≡ is_own_word word }
{
    matches!(word, Word::Message | Word::Group)
}

/// Whether a line begins the list with this name.
fn is_list(line: &Line<'_>, name: &[u8]) -> bool
    ensures { result ≡ is_list name.now (line_view line.now) }
{
    is_list_word(line.word) && line.name == name
}

/// Whether a line is the message or the group with this name.
fn is_own(line: &Line<'_>, name: &[u8]) -> bool
    ensures { result ≡ is_own name.now (line_view line.now) }
{
    is_own_word(line.word) && line.name == name
}

/// Whether a line has this name.
fn is_named(line: &Line<'_>, name: &[u8]) -> bool
    ensures { result ≡ is_named name.now (line_view line.now) }
{
    line.name == name
}

/// Whether a line has this number.
fn has_number(line: &Line<'_>, number: u64) -> bool
    ensures { result ≡ has_number number (line_view line.now) }
{
    match line.span {
        Some(span) => span.first == number,
        None => false,
    }
}

/// The index of the first of these lines that begins the list with this name.
fn first_list(lines: &[Line<'_>], name: &[u8]) -> Option<usize>
    ensures { result ≡ position (λ line. is_list name.now (line_view line)) lines.now }
{
    lines.iter().position(|line| is_list(line, name))
}

/// The same, as the lines are seen.
fn list_among(lines: &[Line<'_>], name: &[u8]) -> Option<usize>
    ensures { result ≡ position (is_list name.now) (map line_view lines.now) }
{
    first_list(lines, name)
}

/// The rows of the first list of a table with this name.
fn rows_named<'w, 't>(table: &'w Table<'t>, name: &[u8]) -> &'w [Line<'t>]
    ensures { map line_view result.now ≡ rows_named name.now table.now }
{
    match list_among(table.lines(), name) {
        Some(section) => table.rows(section),
        None => &[],
    }
}

/// The first of these lines that is the message or the group with this name.
fn first_own<'w, 't>(lines: &'w [Line<'t>], name: &[u8]) -> Option<&'w Line<'t>>
    ensures { option_copied result ≡ find (λ line. is_own name.now (line_view line)) lines.now }
{
    lines.iter().find(|line| is_own(line, name))
}

/// The same, as the lines are seen.
fn own_among<'w, 't>(lines: &'w [Line<'t>], name: &[u8]) -> Option<&'w Line<'t>>
    ensures { option_map (λ line. line_view line.now) result
        ≡ find (is_own name.now) (map line_view lines.now) }
{
    first_own(lines, name)
}

/// The first of these lines with this name.
fn first_named<'w, 't>(lines: &'w [Line<'t>], name: &[u8]) -> Option<&'w Line<'t>>
    ensures { option_copied result ≡ find (λ line. is_named name.now (line_view line)) lines.now }
{
    lines.iter().find(|line| is_named(line, name))
}

/// The same, as the lines are seen.
fn named_among<'w, 't>(lines: &'w [Line<'t>], name: &[u8]) -> Option<&'w Line<'t>>
    ensures { option_map (λ line. line_view line.now) result
        ≡ find (is_named name.now) (map line_view lines.now) }
{
    first_named(lines, name)
}

/// The first of these lines with this number.
fn first_numbered<'w, 't>(lines: &'w [Line<'t>], number: u64) -> Option<&'w Line<'t>>
    ensures { option_copied result ≡ find (λ line. has_number number (line_view line)) lines.now }
{
    lines.iter().find(|line| has_number(line, number))
}

/// The same, as the lines are seen.
fn numbered_among<'w, 't>(lines: &'w [Line<'t>], number: u64) -> Option<&'w Line<'t>>
    ensures { option_map (λ line. line_view line.now) result
        ≡ find (has_number number) (map line_view lines.now) }
{
    first_numbered(lines, number)
}

/// The number of a line that was found.
fn number_at(line: Option<&Line<'_>>) -> Option<u64>
    ensures { result ≡ protocol_of (option_map (λ line. line_view line.now) line.entry) }
{
    Some(line?.span?.first)
}

/// The name of a line that was found.
fn name_at<'t>(line: Option<&Line<'t>>) -> Option<&'t [u8]>
    ensures { option_map (λ name. name.now) result
        ≡ option_map (λ line. line_name (line_view line.now)) line.entry }
{
    Some(line?.name)
}

/// The number of the first row with this name in a list; where that has no name of the first message or group.
fn number_in(table: &Table<'_>, list: &[u8], name: &[u8]) -> Option<u64>
    ensures { result ≡ number_in list.now name.now table.now }
{
    if list.is_empty() {
        number_at(own_among(table.lines(), name))
    } else {
        number_at(named_among(rows_named(table, list), name))
    }
}

/// The message to the kernel with this number.
fn message_numbered<'w, 't>(table: &'w Table<'t>, number: u64) -> Option<&'w Line<'t>>
    ensures { option_map (λ line. line_view line.now) result ≡ request_in number table.now }
{
    table.line(table.message(Way::Request, None, number)?)
}

/// The name of the first row with this number in a list; where that has no name of the message to the kernel.
fn name_in<'t>(table: &Table<'t>, list: &[u8], number: u64) -> Option<&'t [u8]>
    ensures { option_map (λ name. name.now) result ≡ name_in list.now number table.now }
{
    if list.is_empty() {
        name_at(message_numbered(table, number))
    } else {
        name_at(numbered_among(rows_named(table, list), number))
    }
}

/// Whether this is the table of the family with this name.
fn is_family_named(table: &Table<'_>, name: &[u8]) -> bool
    ensures { result ≡ is_family_named name.now table.now }
{
    match table.line(0) {
        Some(line) => line.name == name,
        None => false,
    }
}

/// The first table whose family has this name.
fn family_in<'w>(families: &'w Families, name: &[u8]) -> Option<&'w Table<'static>>
    ensures { option_map (λ table. table.now) result
        ≡ family_in name.now (tables_in families.now.tables) }
{
    families
        .tables
        .tables()
        .iter()
        .find(|table| is_family_named(table, name))
}

/// Stores the number of a name.
pub fn number_of(
    families: &Families,
    family: &[u8],
    list: &[u8],
    name: &[u8],
    number: &mut u64,
) -> i32
    ensures { GivesNumber result (number_found family.now list.now name.now families.now)
        number.old number.new }
{
    let Some(table) = family_in(families, family) else {
        return OK;
    };
    match number_in(table, list, name) {
        Some(found) => {
            *number = found;
            ITEM
        }
        None => OK,
    }
}

/// Writes a name, if there is one, as much of it as there is room for.
fn give_name(name: Option<&[u8]>, out: &mut [u8], size: &mut usize) -> i32
    ensures { GivesName result (option_map (λ name. name.now) name.entry)
        out.old out.new size.old size.new }
{
    let Some(name) = name else {
        return OK;
    };
    put_at(out, 0, name);
    *size = name.len();
    ITEM
}

/// Writes the name of a number.
pub fn name_of(
    families: &Families,
    family: &[u8],
    list: &[u8],
    number: u64,
    out: &mut [u8],
    size: &mut usize,
) -> i32
    ensures { GivesName result (name_found family.now list.now number families.now)
        out.old out.new size.old size.new }
{
    let Some(table) = family_in(families, family) else {
        return OK;
    };
    give_name(name_in(table, list, number), out, size)
}

/// The name of the line that a body's message has.
fn name_in_body<'w>(body: &Body<'_, 'w, 'static>) -> Option<&'static [u8]>
    ensures { option_map (λ name. name.now) result ≡ message_name (body_view body.now) }
{
    name_at(body.table?.line(body.line?))
}

/// Writes the name of a message.
pub fn message_name(
    families: &Families,
    protocol: u16,
    bytes: &[u8],
    message: &NeliMessage,
    out: &mut [u8],
    size: &mut usize,
) -> i32
    ensures { NamesMessage result protocol message.now (payload_view bytes.now message.now)
        families.now out.old out.new size.old size.new }
{
    match body_in(families, protocol, bytes, message) {
        Some(body) => give_name(name_in_body(&body), out, size),
        None => PLACE,
    }
}

/// The text with this name that is built in.
fn text_named(name: &[u8]) -> Option<&'static [u8]>
    ensures { IsTextNamed (heading_named name.now) (option_map (λ text. text.now) result) }
{
    if let Some(table) = RoutingTable::named(name) {
        return Some(table.text());
    }
    if let Some(table) = GenericTable::named(name) {
        return Some(table.text());
    }
    match SystemTable::named(name) {
        Some(table) => Some(table.text()),
        None => None,
    }
}

/// Adds the table with this name that is built in, behind the others.
pub fn add_built_in(alloc: Global, families: &mut Families, name: &[u8]) -> i32
    ensures { AddsBuiltIn result (heading_named name.now) families.old families.new }
{
    let Some(text) = text_named(name) else {
        return KIND;
    };
    match families.add(alloc, text) {
        Ok(()) => OK,
        Err(error) => of_unread(error),
    }
}
