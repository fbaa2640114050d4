//! Whole messages from JSON: which line of the tables is meant, what the header says, and the payload.

ghost use Rattle.std.specs.Prelude.{◌≡◌, true, IfOk, IfSome};
ghost use Rattle.std.specs.Option.{option_map};
ghost use Rattle.neli_tables_walk.specs.Bodies.{body_items, body_view};
ghost use Rattle.serde_json.specs.View.{view};
ghost use Rattle.neli_tables_write.specs.Asked.{asked_view, says};
ghost use Rattle.neli_tables_write.specs.Requests.{IsMessage, IsMessageOf, asked_name, message_name};

use crate::asked::says;
use crate::attributes_json::number_in;
use crate::flag_names::bits_of_flag;
use crate::{Message, Refusal, Why};
use neli_consts::NlmF;
use neli_tables::{Line, MessagePlace, Table, Tables, Word, options_of};
use neli_tables_walk::{Body, Head, body_of};
use neli_wire::Constant;
use serde_json::Value;
use std::alloc::Global;

/// `NETLINK_GENERIC` of `linux/netlink.h`.
const GENERIC: u64 = 16;

/// The numbers that families of generic netlink have (`GENL_MIN_ID`, `GENL_MAX_ID` of `linux/genetlink.h`).
const FIRST_ID: u16 = 16;

const LAST_ID: u16 = 1023;

/// The flag of a message to the kernel (`NLM_F_REQUEST`).
const REQUEST: u16 = 1;

/// The members of an object that is a whole message: those that are printed of one.
const MEMBERS: [&str; 15] = [
    "protocol",
    "type",
    "name",
    "length",
    "flags",
    "seq",
    "port",
    "command",
    "version",
    "reserved",
    "structure",
    "fields",
    "attributes",
    "payload",
    "rest",
];

/// A message that JSON asks for: what its header says, and its payload.
#[derive(Debug, Drop)]
pub struct Written {
    /// The type.
    pub message_type: u16,
    /// The flags.
    pub flags: u16,
    /// The sequence number.
    pub sequence: u32,
    /// The port.
    pub port: u32,
    /// The payload.
    pub payload: Vec<u8>,
}

/// What an object says of a message's header.
#[derive(Clone, Copy)]
struct Header {
    message_type: Option<u16>,
    flags: u16,
    sequence: u32,
    port: u32,
}

/// The name of the message that an object is.
fn asked_name(value: &Value) -> Option<&str>
    ensures { option_map (λ name. name.now) result ≡ asked_name (view value.now) }
{
    value.get("name")?.as_str()
}

/// The first member of an object that no message has.
fn other_member(value: &Value) -> Option<&str> {
    for (name, _) in value.as_object()?.iter() {
        if !MEMBERS.iter().any(|member| *member == name.as_str()) {
            return Some(name.as_str());
        }
    }
    None
}

/// A member that is a number of at most so much; `None` where it is missing.
fn number_up_to(value: &Value, name: &str, most: u64) -> Result<Option<u64>, Why> {
    match number_in(value, name)? {
        Some(number) if most < number => Err(Why::Range),
        number => Ok(number),
    }
}

/// The same, refused with its name.
fn member_of(
    value: &Value,
    name: &'static str,
    most: u64,
) -> Result<Option<u64>, (&'static str, Why)> {
    match number_up_to(value, name, most) {
        Ok(number) => Ok(number),
        Err(why) => Err((name, why)),
    }
}

/// The flags of a message: a number, or an array of names. REQUEST where an object has none.
fn flags_in(value: &Value) -> Result<u16, Why> {
    let Some(flags) = value.get("flags") else {
        return Ok(REQUEST);
    };
    let Some(names) = flags.as_array() else {
        return Ok((number_up_to(value, "flags", 0xffff)?.unwrap_or(0) & 0xffff) as u16);
    };
    let mut bits = 0;
    for name in names {
        bits |= bits_of_flag(name.as_str().ok_or(Why::OtherSort)?).ok_or(Why::NoValue)?;
    }
    Ok(bits)
}

/// The same, of this object. Refused with the member's name.
fn header_in(value: &Value) -> Result<Header, (&'static str, Why)> {
    let (message_type, sequence, port) = (
        member_of(value, "type", 0xffff)?,
        member_of(value, "seq", 0xffff_ffff)?,
        member_of(value, "port", 0xffff_ffff)?,
    );
    let flags = match flags_in(value) {
        Ok(flags) => flags,
        Err(why) => return Err(("flags", why)),
    };
    Ok(Header {
        message_type: match message_type {
            Some(number) => Some((number & 0xffff) as u16),
            None => None,
        },
        flags,
        sequence: (sequence.unwrap_or(0) & 0xffff_ffff) as u32,
        port: (port.unwrap_or(0) & 0xffff_ffff) as u32,
    })
}

/// The number of the family of generic netlink whose table has this index.
fn id_of(tables: &Tables<'_>, index: usize) -> Option<u16> {
    for id in FIRST_ID..=LAST_ID {
        if tables.generic_by_id(id) == Some(index) {
            return Some(id);
        }
    }
    None
}

/// The protocol of a table.
fn protocol_of(table: &Table<'_>) -> Option<u64> {
    Some(table.line(0)?.span?.first)
}

/// Whether a line is a message of this name that goes to the kernel, or that comes from it.
fn is_meant(line: &Line<'_>, name: &[u8], flags: u16) -> bool {
    if !matches!(line.word, Word::Message) || line.name != name {
        return false;
    }
    let options = options_of(line);
    if flags & REQUEST == REQUEST {
        options.request || !options.reply
    } else {
        options.reply || !options.request
    }
}

/// The name of the line that a body's message has.
fn has_name(body: &Body<'_, '_, '_>, name: &str) -> bool
    ensures { result ≡ true → message_name (body_view body.now) ≡ Some name.now }
{
    let (Some(table), Some(line)) = (body.table, body.line) else {
        return false;
    };
    match table.line(line) {
        Some(line) => line.name == name.as_bytes(),
        None => false,
    }
}

/// Whether the tables read a message as one of this name, with what was asked for.
fn is_read(
    tables: &Tables<'_>,
    protocol: u16,
    name: &str,
    message: &Message<'_, '_>,
    written: &Written,
) -> bool
    ensures { result ≡ true → IsMessage tables.now protocol name.now written.now }
{
    let head = Head {
        protocol,
        message_type: written.message_type,
        flags: NlmF::from_wire(written.flags),
    };
    let body = body_of(tables, head, &written.payload);
    has_name(&body, name) && says(&body, message.asked())
}

/// The type of the message that stands at this place among the tables, in this table.
fn type_of(tables: &Tables<'_>, place: MessagePlace, table: &Table<'_>) -> Result<u16, Why> {
    if protocol_of(table) == Some(GENERIC) {
        return id_of(tables, place.table).ok_or(Why::NoFamily);
    }
    let span = table
        .line(place.line)
        .ok_or(Why::NoName)?
        .span
        .ok_or(Why::NoName)?;
    Ok((span.first & 0xffff) as u16)
}

/// The message of the line at this place, where the tables read it as one of this name; else `None`.
fn message_at<'t>(
    alloc: Global,
    tables: &Tables<'t>,
    protocol: u16,
    header: Header,
    name: &str,
    place: MessagePlace,
    value: &Value,
) -> Result<Option<Written>, Refusal<'t>>
    ensures { IfOk result (λ found. IfSome found (IsMessage tables.now protocol name.now)) }
{
    let Some(table) = tables.table(place.table) else {
        return Ok(None);
    };
    let message = Message::from_json(alloc, table, place.line, value)?;
    let known = match header.message_type {
        Some(number) => Ok(number),
        None => type_of(tables, place, table),
    };
    let (message_type, payload) = match (known, message.payload()) {
        (Ok(message_type), Ok(payload)) => (message_type, payload),
        (Err(why), _) => return Err(Refusal::of(alloc, name, why)),
        (_, Err(why)) => return Err(Refusal::of(alloc, name, why)),
    };
    let written = Written {
        message_type,
        flags: header.flags,
        sequence: header.sequence,
        port: header.port,
        payload,
    };
    if is_read(tables, protocol, name, &message, &written) {
        Ok(Some(written))
    } else {
        Ok(None)
    }
}

/// The first message of this name in the table of this index that the tables read as it was asked for.
fn message_in<'t>(
    alloc: Global,
    tables: &Tables<'t>,
    protocol: u16,
    header: Header,
    name: &str,
    index: usize,
    value: &Value,
) -> Result<Option<Written>, Refusal<'t>>
    ensures { IfOk result (λ found. IfSome found (IsMessage tables.now protocol name.now)) }
{
    let Some(table) = tables.table(index) else {
        return Ok(None);
    };
    for line in 0..table.lines().len() {
        if is_meant(&table.lines()[line], name.as_bytes(), header.flags) {
            match message_at(
                alloc,
                tables,
                protocol,
                header,
                name,
                MessagePlace { table: index, line },
                value,
            ) {
                Ok(None) => {}
                found => return found,
            }
        }
    }
    Ok(None)
}

/// The message of this name that an object is.
fn message_named<'t>(
    alloc: Global,
    tables: &Tables<'t>,
    protocol: u16,
    name: &str,
    value: &Value,
) -> Result<Written, Refusal<'t>>
    ensures { IfOk result (IsMessage tables.now protocol name.now) }
{
    let header = match header_in(value) {
        Ok(header) => header,
        Err((member, why)) => return Err(Refusal::of(alloc, member, why)),
    };
    let mut first = None;
    for index in 0..tables.tables().len() {
        if protocol_of(&tables.tables()[index]) != Some(protocol as u64) {
            continue;
        }
        match message_in(alloc, tables, protocol, header, name, index, value) {
            Ok(Some(written)) => return Ok(written),
            Ok(None) => {}
            Err(refusal) if first.is_none() => first = Some(refusal),
            Err(_) => {}
        }
    }
    match first {
        Some(refusal) => Err(refusal),
        None => Err(Refusal::of(alloc, name, Why::NoName)),
    }
}

/// The message of a protocol that an object of JSON is (docs/WRITING.md): the member `name` is that of its line in the
/// tables; `flags`, an array of names or a number, are REQUEST where they are missing; `seq` and `port` 0; and `type`
/// is that of its line, or of the family of generic netlink, as it was learnt. Others are those of
/// [`Message::from_json`].
///
/// Refused as that is; with [`Why::NoName`] where no table of the protocol has such a message, or the object has a member
/// that is none of a message; and with [`Why::NoFamily`] where the number of its family is not known.
pub fn message_from_json<'t>(
    alloc: Global,
    tables: &Tables<'t>,
    protocol: u16,
    value: &Value,
) -> Result<Written, Refusal<'t>>
    ensures { IfOk result (IsMessageOf tables.now protocol (view value.now)) }
{
    if let Some(member) = other_member(value) {
        return Err(Refusal::of(alloc, member, Why::NoName));
    }
    match asked_name(value) {
        Some(name) => message_named(alloc, tables, protocol, name, value),
        None => Err(Refusal::of(alloc, "name", Why::NoName)),
    }
}
