//! What the calls print of messages, with their codes.

ghost use Rattle.std.specs.Prelude.{◌≡◌, ◌≢◌, IfOk, OnErr, false, nat_le, if◌then◌else◌};
ghost use Rattle.neli_print.specs.Messages.{datagram_json, datagram_text, message_json, message_text};
ghost use Rattle.neli_c_parts.specs.AnswersShown.{payload_view};
ghost use Rattle.neli_c_parts.specs.Codes.{bad_length, ok, room};
ghost use Rattle.neli_c_parts.specs.Printed.{IsPrinted, Prints, PrintsMessage, header_of};

use crate::bytes::payload_of;
use crate::code::{LENGTH, OK, PLACE, ROOM};
use crate::families::Families;
use crate::message::NeliMessage;
use crate::room::{TooLong, write_text};
use crate::tabling::head_of;
use neli_print::{Datagram, DatagramJson, DatagramText, Header, Message, MessageJson, MessageText};
use std::fmt::Display;

/// The code of a text that was written, with its length as `size`; of one that was not, `LENGTH`, and `size` stays.
fn of_written(written: Result<usize, TooLong>, available: usize, size: &mut usize) -> i32
    ensures size { IfOk written (λ length. size.new ≡ length) }
    ensures code { IfOk written
        (λ length. result ≡ (if nat_le length available then ok else room)) }
    ensures refused { OnErr written ((result ≡ bad_length) × (size.new ≡ size.old)) }
{
    let Ok(length) = written else {
        return LENGTH;
    };
    *size = length;
    if length <= available { OK } else { ROOM }
}

/// Prints a value into bytes, as much of its text as there is room for; `size` is how long the text is.
pub fn print<D: Display + Drop>(value: D, out: &mut [u8], size: &mut usize) -> i32
    ensures printed { result ≢ bad_length → Prints result (D.output value) out.old out.new size.new }
    ensures unprinted { result ≡ bad_length → size.new ≡ size.old }
{
    let available = out.len();
    let written = write_text(value, out);
    of_written(written, available, size)
}

/// The header of a message of this protocol.
fn header_of(protocol: u16, message: &NeliMessage) -> Header
    ensures { result ≡ header_of protocol message.now }
{
    Header {
        head: head_of(protocol, message),
        length: message.length,
        sequence: message.number,
        port: message.port,
    }
}

/// Prints a message as lines of text.
pub fn message_text(
    families: &Families,
    protocol: u16,
    bytes: &[u8],
    message: &NeliMessage,
    out: &mut [u8],
    size: &mut usize,
) -> i32
    ensures { PrintsMessage result
        (message_text false families.now.tables (header_of protocol message.now))
        (payload_view bytes.now message.now) out.old out.new size.old size.new }
{
    let Some(payload) = payload_of(bytes, message) else {
        return PLACE;
    };
    let message = Message {
        tables: &families.tables,
        header: header_of(protocol, message),
        payload,
    };
    let text = MessageText {
        is_coloured: false,
        message,
    };
    print(text, out, size)
}

/// Prints a message as an object of JSON.
pub fn message_json(
    families: &Families,
    protocol: u16,
    bytes: &[u8],
    message: &NeliMessage,
    out: &mut [u8],
    size: &mut usize,
) -> i32
    ensures { PrintsMessage result
        (message_json families.now.tables (header_of protocol message.now))
        (payload_view bytes.now message.now) out.old out.new size.old size.new }
{
    let Some(payload) = payload_of(bytes, message) else {
        return PLACE;
    };
    let message = Message {
        tables: &families.tables,
        header: header_of(protocol, message),
        payload,
    };
    print(MessageJson(message), out, size)
}

/// Prints a datagram as lines of text.
pub fn datagram_text(
    families: &Families,
    protocol: u16,
    bytes: &[u8],
    out: &mut [u8],
    size: &mut usize,
) -> i32
    ensures { IsPrinted result (datagram_text false families.now.tables protocol bytes.now)
        out.old out.new size.old size.new }
{
    let text = DatagramText {
        is_coloured: false,
        datagram: Datagram {
            tables: &families.tables,
            protocol,
            bytes,
        },
    };
    print(text, out, size)
}

/// Prints a datagram as lines of JSON.
pub fn datagram_json(
    families: &Families,
    protocol: u16,
    bytes: &[u8],
    out: &mut [u8],
    size: &mut usize,
) -> i32
    ensures { IsPrinted result (datagram_json families.now.tables protocol bytes.now)
        out.old out.new size.old size.new }
{
    let datagram = Datagram {
        tables: &families.tables,
        protocol,
        bytes,
    };
    print(DatagramJson(datagram), out, size)
}
