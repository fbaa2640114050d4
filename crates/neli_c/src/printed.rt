//! Messages by name, as text and as JSON (docs/SHOW.md), printed into the caller's bytes. They take no memory.
//!
//! `size` is how long the text is. Returns `OK`; `ROOM` if the text is longer than `out`, which then has its beginning;
//! `STATE` if the tables are closed; `LENGTH` if the text has more bytes than a `usize` counts, and then `size` is
//! as it was. The tables are unchanged.

ghost use Rattle.std.specs.Prelude.{◌≡◌, IfSome, None, false};
ghost use Rattle.neli_print.specs.Messages.{datagram_json, datagram_text, message_json, message_text};
ghost use Rattle.neli_c_parts.specs.AnswersShown.{payload_view};
ghost use Rattle.neli_c_parts.specs.Codes.{state};
ghost use Rattle.neli_c_parts.specs.Printed.{IsPrinted, PrintsMessage, header_of};

use neli_c_parts::code::STATE;
use neli_c_parts::message::NeliMessage;
use neli_c_parts::printing::{datagram_json, datagram_text, message_json, message_text};
use neli_c_parts::tables_opaque::NeliTables;
use std::alloc::Global;

/// A message of this protocol as lines of text, each with a line feed. `PLACE` if its payload is past the bytes; then
/// nothing is written.
#[unsafe(no_mangle)]
pub extern "C" fn neli_c_message_text(
    alloc: Global,
    tables: &mut NeliTables,
    protocol: u16,
    bytes: &[u8],
    message: &NeliMessage,
    out: &mut [u8],
    size: &mut usize,
) -> i32
    ensures open { IfSome tables.old.place.value (λ s. PrintsMessage result
        (message_text false s.tables (header_of protocol message.now))
        (payload_view bytes.now message.now) out.old out.new size.old size.new) }
    ensures closed { tables.old.place.value ≡ None
        → (result ≡ state) × (out.new ≡ out.old) × (size.new ≡ size.old) }
    ensures same { tables.new.place.value ≡ tables.old.place.value }
{
    let Some(families) = tables.take(alloc) else {
        return STATE;
    };
    let code = message_text(&families, protocol, bytes, message, out, size);
    tables.put(families);
    code
}

/// A message of this protocol as one object, without a line feed. `PLACE` if its payload is past the bytes; then
/// nothing is written.
#[unsafe(no_mangle)]
pub extern "C" fn neli_c_message_json(
    alloc: Global,
    tables: &mut NeliTables,
    protocol: u16,
    bytes: &[u8],
    message: &NeliMessage,
    out: &mut [u8],
    size: &mut usize,
) -> i32
    ensures open { IfSome tables.old.place.value (λ s. PrintsMessage result
        (message_json s.tables (header_of protocol message.now))
        (payload_view bytes.now message.now) out.old out.new size.old size.new) }
    ensures closed { tables.old.place.value ≡ None
        → (result ≡ state) × (out.new ≡ out.old) × (size.new ≡ size.old) }
    ensures same { tables.new.place.value ≡ tables.old.place.value }
{
    let Some(families) = tables.take(alloc) else {
        return STATE;
    };
    let code = message_json(&families, protocol, bytes, message, out, size);
    tables.put(families);
    code
}

/// The messages of a datagram of this protocol, and the fault after them, as lines of text.
#[unsafe(no_mangle)]
pub extern "C" fn neli_c_datagram_text(
    alloc: Global,
    tables: &mut NeliTables,
    protocol: u16,
    bytes: &[u8],
    out: &mut [u8],
    size: &mut usize,
) -> i32
    ensures open { IfSome tables.old.place.value (λ s. IsPrinted result
        (datagram_text false s.tables protocol bytes.now) out.old out.new size.old size.new) }
    ensures closed { tables.old.place.value ≡ None
        → (result ≡ state) × (out.new ≡ out.old) × (size.new ≡ size.old) }
    ensures same { tables.new.place.value ≡ tables.old.place.value }
{
    let Some(families) = tables.take(alloc) else {
        return STATE;
    };
    let code = datagram_text(&families, protocol, bytes, out, size);
    tables.put(families);
    code
}

/// The messages of a datagram of this protocol, and the fault after them, as lines of JSON, an object each.
#[unsafe(no_mangle)]
pub extern "C" fn neli_c_datagram_json(
    alloc: Global,
    tables: &mut NeliTables,
    protocol: u16,
    bytes: &[u8],
    out: &mut [u8],
    size: &mut usize,
) -> i32
    ensures open { IfSome tables.old.place.value (λ s. IsPrinted result
        (datagram_json s.tables protocol bytes.now) out.old out.new size.old size.new) }
    ensures closed { tables.old.place.value ≡ None
        → (result ≡ state) × (out.new ≡ out.old) × (size.new ≡ size.old) }
    ensures same { tables.new.place.value ≡ tables.old.place.value }
{
    let Some(families) = tables.take(alloc) else {
        return STATE;
    };
    let code = datagram_json(&families, protocol, bytes, out, size);
    tables.put(families);
    code
}
