//! Messages that JSON asks for, with the codes of the call that writes them.

ghost use Rattle.std.specs.Prelude.{◌≡◌, ◌≢◌, Some, IfErr, IfOk, IfSome};
ghost use Rattle.serde_json.specs.Read.{read};
ghost use Rattle.serde_json.specs.View.{view};
ghost use Rattle.neli_tables_write.specs.Requests.{IsMessageOf};
ghost use Rattle.neli_c_parts.specs.Asked.{WritesAnswer};
ghost use Rattle.neli_c_parts.specs.Codes.{bad_length, violation};
ghost use Rattle.neli_c_parts.specs.JsonWritten.{GivesMade, GivesWhy, IsMade, IsWhy, TellsRefused, TellsUnread};
ghost use Rattle.neli_c_parts.specs.JsonWritten.{WritesJson, message_wire, no_json_text};
ghost use Rattle.neli_c_parts.specs.Named.{IsWritten};

use crate::asking::notify;
use crate::code::{LENGTH, MEMORY, VIOLATION};
use crate::families::Families;
use crate::printing::print;
use neli_tables_write::{Refusal, Why, Written, message_from_json};
use serde_json::{Error, Value};
use std::alloc::Global;
use std::fmt;
use std::fmt::Display;

/// The place in a text from which on it is no JSON.
#[derive(Clone, Copy, Drop)]
pub struct NoJson {
    pub line: usize,
    pub column: usize,
}

impl fmt::Display for NoJson {
    ghost output = { λ at. Some (no_json_text at) };

    fn fmt<W: fmt::Write>(&self, f: &mut fmt::Formatter<W>) -> fmt::Result {
        let (line, column) = (self.line, self.column);
        write!(f, "no JSON at line {line}, column {column}")
    }
}

/// Why no message is written.
#[derive(Drop)]
pub enum Unwritten {
    /// Memory ran out.
    Memory,
    /// The text is no JSON.
    NoJson(NoJson),
    /// The tables have no such message.
    Refused(Refusal<'static>),
}

/// Why a text was not read.
fn of_unread(error: &Error) -> Unwritten
    ensures { TellsUnread error.now result }
{
    if error.is_memory() {
        return Unwritten::Memory;
    }
    Unwritten::NoJson(NoJson {
        line: error.line(),
        column: error.column(),
    })
}

/// The value that a text is.
fn value_of(alloc: Global, json: &[u8]) -> Result<Value, Unwritten>
    ensures ok { IfOk result (λ value. read json.now ≡ Some (view value)) }
    ensures refused { IfErr result (IsWhy json.now) }
{
    match Value::from_slice(alloc, json) {
        Ok(value) => Ok(value),
        Err(error) => Err(of_unread(&error)),
    }
}

/// Why an object was refused.
fn of_refusal(refusal: Refusal<'static>) -> Unwritten
    ensures { TellsRefused result }
{
    match refusal.why {
        Why::Memory => Unwritten::Memory,
        _ => Unwritten::Refused(refusal),
    }
}

/// The message that an object is.
fn message_of(
    alloc: Global,
    families: &Families,
    protocol: u16,
    value: &Value,
) -> Result<Written, Unwritten>
    ensures ok { IfOk result (IsMessageOf families.now.tables protocol (view value.now)) }
    ensures refused { IfErr result TellsRefused }
{
    match message_from_json(alloc, &families.tables, protocol, value) {
        Ok(written) => Ok(written),
        Err(refusal) => Err(of_refusal(refusal)),
    }
}

/// The message that a text asks for.
fn made_of(
    alloc: Global,
    families: &Families,
    protocol: u16,
    json: &[u8],
) -> Result<Written, Unwritten>
    ensures { IsMade families.now protocol json.now result }
{
    match value_of(alloc, json) {
        Ok(value) => message_of(alloc, families, protocol, &value),
        Err(why) => Err(why),
    }
}

/// Prints why something is refused.
fn print_why<D: Display + Drop>(why: D, out: &mut [u8], size: &mut usize) -> i32
    ensures code { result ≢ bad_length → result ≡ violation }
    ensures printed { result ≢ bad_length
        → IfSome (D.output why) (λ text. IsWritten text out.old out.new size.new) }
    ensures unprinted { result ≡ bad_length → size.new ≡ size.old }
{
    let code = print(why, out, size);
    if code == LENGTH { LENGTH } else { VIOLATION }
}

/// Prints why no message is written, but not where memory ran out.
fn give_why(why: Unwritten, out: &mut [u8], size: &mut usize) -> i32
    ensures { GivesWhy result why out.old out.new size.old size.new }
{
    match why {
        Unwritten::Memory => MEMORY,
        Unwritten::NoJson(at) => print_why(at, out, size),
        Unwritten::Refused(refusal) => print_why(refusal, out, size),
    }
}

/// Writes the bytes of a message where there is room for all.
fn give_message(alloc: Global, written: &Written, out: &mut [u8], size: &mut usize) -> i32
    ensures { WritesAnswer result (message_wire written.now) out.old out.new size.old size.new }
{
    notify(
        alloc,
        written.message_type,
        written.flags,
        written.sequence,
        written.port,
        &written.payload,
        out,
        size,
    )
}

/// Writes a message, or why there is none.
fn give_made(
    alloc: Global,
    made: Result<Written, Unwritten>,
    out: &mut [u8],
    size: &mut usize,
) -> i32
    ensures { GivesMade result made out.old out.new size.old size.new }
{
    match made {
        Ok(written) => give_message(alloc, &written, out, size),
        Err(why) => give_why(why, out, size),
    }
}

/// Writes the message that an object of JSON is, or why it is refused.
pub fn write_json(
    alloc: Global,
    families: &Families,
    protocol: u16,
    json: &[u8],
    out: &mut [u8],
    size: &mut usize,
) -> i32
    ensures { WritesJson result protocol json.now families.now out.old out.new size.old size.new }
{
    let made = made_of(alloc, families, protocol, json);
    give_made(alloc, made, out, size)
}
