//! What the calls on tables do, with their codes.

ghost use Rattle.std.specs.Prelude.{◌≡◌, ◌≢◌, ◌⊎◌, IsErr, IsOk, length};
ghost use Rattle.neli_tables.specs.Refusals.{why_text};
ghost use Rattle.neli_tables.specs.Schemas.{table_in};
ghost use Rattle.neli_tables.specs.Families.{tables_in};
ghost use Rattle.neli_tables_walk.specs.Built.{IsAdded};
ghost use Rattle.neli_c_parts.specs.Rooms.{beginning};
ghost use Rattle.neli_c_parts.specs.AnswersShown.{payload_view};
ghost use Rattle.neli_c_parts.specs.Codes.{bad_length, bad_table, memory, ok};
ghost use Rattle.neli_c_parts.specs.Tables.{IsBadLine, Learns, LearnsFrom, SameLearnt, SameTables};
ghost use Rattle.neli_c_parts.specs.Tables.{head_of, unread_code};

use crate::bytes::payload_of;
use crate::code::{LENGTH, MEMORY, OK, PLACE, TABLE};
use crate::families::Families;
use crate::message::NeliMessage;
use crate::printing::print;
use neli_consts::NlmF;
use neli_tables::{ReadError, Why};
use neli_tables_walk::Head;
use neli_wire::Constant;
use std::alloc::{AllocError, Global};

/// The code of a text that cannot be read.
pub fn of_unread(error: ReadError) -> i32
    ensures { result ≡ unread_code error }
{
    match error {
        ReadError::Line(_, _) => TABLE,
        ReadError::Memory => MEMORY,
    }
}

/// Prints why a line is bad, and what its number is.
fn show_bad_line(number: usize, why: Why, line: &mut usize, out: &mut [u8], size: &mut usize) -> i32
    ensures code { (result ≡ bad_table) ⊎ (result ≡ bad_length) }
    ensures shown { result ≡ bad_table → (line.new ≡ number) × (out.new ≡ beginning (why_text why) out.old)
        × (size.new ≡ length (why_text why)) }
    ensures unshown { result ≢ bad_table
        → (line.new ≡ line.old) × (size.new ≡ size.old) }
{
    if print(why, out, size) == LENGTH {
        return LENGTH;
    }
    *line = number;
    TABLE
}

/// Adds the table that a text is; where a line is bad, `line` is its number, and `out` has why.
pub fn add(
    alloc: Global,
    families: &mut Families,
    text: &'static [u8],
    line: &mut usize,
    out: &mut [u8],
    size: &mut usize,
) -> i32
    ensures learnt { SameLearnt families.old families.new }
    ensures added { result ≡ ok
        → IsAdded text.now (tables_in families.old.tables) (tables_in families.new.tables) }
    ensures unchanged { result ≢ ok → SameTables families.old families.new }
    ensures bad { result ≡ bad_table
        → IsBadLine (table_in text.now) line.new out.old out.new size.new }
    ensures code { (result ≡ ok) ⊎ (result ≡ memory) ⊎ (result ≡ bad_table) ⊎ (result ≡ bad_length) }
    ensures unshown { result ≢ bad_table
        → (line.new ≡ line.old) × (size.new ≡ size.old) }
    ensures unwritten { result ≢ bad_table → result ≢ bad_length → out.new ≡ out.old }
{
    match families.add(alloc, text) {
        Ok(()) => OK,
        Err(ReadError::Memory) => MEMORY,
        Err(ReadError::Line(number, why)) => show_bad_line(number, why, line, out, size),
    }
}

/// The code of what was learnt.
fn of_learnt(learnt: Result<(), AllocError>) -> i32
    ensures ok { IsOk learnt → result ≡ ok }
    ensures memory { IsErr learnt → result ≡ memory }
{
    match learnt {
        Ok(()) => OK,
        Err(_) => MEMORY,
    }
}

/// Learns that the family of generic netlink with this name has this number.
pub fn learn(families: &mut Families, id: u16, name: &[u8]) -> i32
    ensures { Learns result id name.now families.old families.new }
{
    of_learnt(families.learn(id, name))
}

/// What the header of a message says of its payload.
pub fn head_of(protocol: u16, message: &NeliMessage) -> Head
    ensures { result ≡ head_of protocol message.now }
{
    Head {
        protocol,
        message_type: message.message_type,
        flags: NlmF::from_wire(message.flags),
    }
}

/// Learns the number of a family of generic netlink from a message of the controller that names it.
pub fn learn_from(
    families: &mut Families,
    protocol: u16,
    bytes: &[u8],
    message: &NeliMessage,
) -> i32
    ensures { LearnsFrom result (head_of protocol message.now) (payload_view bytes.now message.now)
        families.old families.new }
{
    let Some(payload) = payload_of(bytes, message) else {
        return PLACE;
    };
    of_learnt(families.learn_from(head_of(protocol, message), payload))
}
