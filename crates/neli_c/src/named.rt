//! What is in a message by name: its attributes, each with its path and its value, and what is
//! wrong with them. They take no memory.
//!
//! Each call returns `STATE` if the tables are closed; `PLACE` if the message's payload is past the
//! bytes; `LENGTH` if a text has more bytes than a `usize` counts. Texts are written as much as there
//! is room for, and `size` is how long the whole is; it is as it was where no text is printed, and at
//! `LENGTH`. The tables are unchanged.

ghost use Rattle.std.specs.Prelude.{◌≡◌, ◌≢◌, IfSome, None};
ghost use Rattle.neli_c_parts.specs.AnswersShown.{payload_view};
ghost use Rattle.neli_c_parts.specs.Codes.{item, ok, room, state, violation};
ghost use Rattle.neli_c_parts.specs.Diagnosed.{Diagnoses};
ghost use Rattle.neli_c_parts.specs.Named.{Checks, ChecksAs, Explains, FindsPath, GivesItems, validation_at};
ghost use Rattle.neli_c_parts.specs.NamedFields.{GivesField};

use neli_c_parts::code::STATE;
use neli_c_parts::diagnosing::diagnosis;
use neli_c_parts::message::NeliMessage;
use neli_c_parts::named::NeliNamed;
use neli_c_parts::named_fields::message_field;
use neli_c_parts::naming::{check_message, check_message_as, message_items, path_at, refusal_text};
use neli_c_parts::tables_opaque::NeliTables;
use std::alloc::Global;

/// Stores the items of a message's attributes, those in nests behind their nest, and writes of each
/// its path, the names with dots between them, and behind it its value in JSON: by what its row
/// says that it is, or else its bytes.
///
/// `count` is how many items there are, and `size` how long their texts are. Returns `OK`; `ROOM`
/// if not all of it has room, and then the first items are stored that have, and the beginning of
/// the texts; `KIND` if the tables know no attributes of such a message, `SHORT` if its body is shorter than the
/// structure before them, and then nothing is stored.
#[unsafe(no_mangle)]
pub extern "C" fn neli_c_named_items(
    alloc: Global,
    tables: &mut NeliTables,
    protocol: u16,
    bytes: &[u8],
    message: &NeliMessage,
    items: &mut [NeliNamed],
    count: &mut usize,
    out: &mut [u8],
    size: &mut usize,
) -> i32
    ensures closed { tables.old.place.value ≡ None
        → (result ≡ state) × (items.new ≡ items.old) × (out.new ≡ out.old) }
    ensures open { IfSome tables.old.place.value (λ s. GivesItems result protocol message.now
        (payload_view bytes.now message.now) s items.old items.new count.new out.old out.new
        size.new) }
    ensures unstored { result ≢ ok → result ≢ room
        → (count.new ≡ count.old) × (size.new ≡ size.old) }
    ensures same { tables.new.place.value ≡ tables.old.place.value }
{
    let Some(families) = tables.take(alloc) else {
        return STATE;
    };
    let code = message_items(&families, protocol, bytes, message, items, count, out, size);
    tables.put(families);
    code
}

/// Stores the field of this index of the structure at the front of a message's body, before its attributes, and writes
/// its name, and behind it its value in JSON by its row. Of a field that ends past the body its bytes are those that
/// are there.
///
/// Returns `ITEM`; `OK` if there is no such field.
#[unsafe(no_mangle)]
pub extern "C" fn neli_c_named_field(
    alloc: Global,
    tables: &mut NeliTables,
    protocol: u16,
    bytes: &[u8],
    message: &NeliMessage,
    index: usize,
    named: &mut NeliNamed,
    out: &mut [u8],
    size: &mut usize,
) -> i32
    ensures closed { tables.old.place.value ≡ None
        → (result ≡ state) × (named.new ≡ named.old) × (out.new ≡ out.old) × (size.new ≡ size.old) }
    ensures open { IfSome tables.old.place.value (λ s. GivesField result protocol message.now
        (payload_view bytes.now message.now) index s named.old named.new out.old out.new size.old
        size.new) }
    ensures same { tables.new.place.value ≡ tables.old.place.value }
{
    let Some(families) = tables.take(alloc) else {
        return STATE;
    };
    let code = message_field(&families, protocol, bytes, message, index, named, out, size);
    tables.put(families);
    code
}

/// Checks a message before it is sent, as the parser does by which the kernel reads such a request, as its table says, and
/// prints the first attribute that it would refuse.
///
/// Returns `OK` if there is none; `VIOLATION` if there is one. A message without a line passes.
#[unsafe(no_mangle)]
pub extern "C" fn neli_c_check(
    alloc: Global,
    tables: &mut NeliTables,
    protocol: u16,
    bytes: &[u8],
    message: &NeliMessage,
    out: &mut [u8],
    size: &mut usize,
) -> i32
    ensures closed { tables.old.place.value ≡ None
        → (result ≡ state) × (out.new ≡ out.old) }
    ensures open { IfSome tables.old.place.value (λ s. Checks result protocol message.now
        (payload_view bytes.now message.now) s out.old out.new size.new) }
    ensures unprinted { result ≢ violation → size.new ≡ size.old }
    ensures same { tables.new.place.value ≡ tables.old.place.value }
{
    let Some(families) = tables.take(alloc) else {
        return STATE;
    };
    let code = check_message(&families, protocol, bytes, message, out, size);
    tables.put(families);
    code
}

/// Checks a message as the parser with this number of `enum neli_validation` does, whatever its table says.
///
/// Returns what `neli_c_check` returns; `KIND` if there is no such parser.
#[unsafe(no_mangle)]
pub extern "C" fn neli_c_check_as(
    alloc: Global,
    tables: &mut NeliTables,
    validation: i32,
    protocol: u16,
    bytes: &[u8],
    message: &NeliMessage,
    out: &mut [u8],
    size: &mut usize,
) -> i32
    ensures closed { tables.old.place.value ≡ None
        → (result ≡ state) × (out.new ≡ out.old) }
    ensures open { IfSome tables.old.place.value (λ s. ChecksAs result (validation_at validation)
        protocol message.now (payload_view bytes.now message.now) s out.old out.new size.new) }
    ensures unprinted { result ≢ violation → size.new ≡ size.old }
    ensures same { tables.new.place.value ≡ tables.old.place.value }
{
    let Some(families) = tables.take(alloc) else {
        return STATE;
    };
    let code = check_message_as(&families, validation, protocol, bytes, message, out, size);
    tables.put(families);
    code
}

/// Prints the path to the attribute that contains an offset, counted from the message's first byte, as that of an
/// extended acknowledgement (`NLMSGERR_ATTR_OFFS`).
///
/// Returns `ITEM`; `OK` if no attribute that the tables know is there.
#[unsafe(no_mangle)]
pub extern "C" fn neli_c_path_at(
    alloc: Global,
    tables: &mut NeliTables,
    protocol: u16,
    bytes: &[u8],
    message: &NeliMessage,
    offset: usize,
    out: &mut [u8],
    size: &mut usize,
) -> i32
    ensures closed { tables.old.place.value ≡ None
        → (result ≡ state) × (out.new ≡ out.old) }
    ensures open { IfSome tables.old.place.value (λ s. FindsPath result protocol message.now
        (payload_view bytes.now message.now) offset s out.old out.new size.new) }
    ensures unprinted { result ≢ item → size.new ≡ size.old }
    ensures same { tables.new.place.value ≡ tables.old.place.value }
{
    let Some(families) = tables.take(alloc) else {
        return STATE;
    };
    let code = path_at(&families, protocol, bytes, message, offset, out, size);
    tables.put(families);
    code
}

/// Prints a refusal of the kernel in a line: the name and the meaning of its number, its text, if
/// it sent one, and the path to the attribute at its offset in the request, which is this message,
/// if the tables know one there.
///
/// Returns `OK`; `ROOM` if the line is longer than `out`, which then has its beginning.
#[unsafe(no_mangle)]
pub extern "C" fn neli_c_refusal_text(
    alloc: Global,
    tables: &mut NeliTables,
    protocol: u16,
    bytes: &[u8],
    message: &NeliMessage,
    error: i32,
    text: &[u8],
    offset: usize,
    out: &mut [u8],
    size: &mut usize,
) -> i32
    ensures closed { tables.old.place.value ≡ None
        → (result ≡ state) × (out.new ≡ out.old) }
    ensures open { IfSome tables.old.place.value (λ s. Explains result protocol message.now
        (payload_view bytes.now message.now) error text.now offset s out.old out.new size.old
        size.new) }
    ensures same { tables.new.place.value ≡ tables.old.place.value }
{
    let Some(families) = tables.take(alloc) else {
        return STATE;
    };
    let code = refusal_text(
        &families, protocol, bytes, message, error, text, offset, out, size,
    );
    tables.put(families);
    code
}

/// Prints why the kernel refused a request, which is this message, in a line: the name and the meaning of its number, and
/// what the attributes of its acknowledgement say, which `ext_ack` lists: its text, the path to the attribute that it is
/// about, the value of that as it was sent, what the policy allows, and an attribute that is missing.
///
/// Returns `OK`; `ROOM` if the line is longer than `out`, which then has its beginning.
#[unsafe(no_mangle)]
pub extern "C" fn neli_c_diagnosis(
    alloc: Global,
    tables: &mut NeliTables,
    protocol: u16,
    bytes: &[u8],
    message: &NeliMessage,
    error: i32,
    ext_ack: &[u8],
    out: &mut [u8],
    size: &mut usize,
) -> i32
    ensures closed { tables.old.place.value ≡ None
        → (result ≡ state) × (out.new ≡ out.old) }
    ensures open { IfSome tables.old.place.value (λ s. Diagnoses result protocol message.now
        (payload_view bytes.now message.now) error ext_ack.now s out.old out.new size.old
        size.new) }
    ensures same { tables.new.place.value ≡ tables.old.place.value }
{
    let Some(families) = tables.take(alloc) else {
        return STATE;
    };
    let code = diagnosis(
        &families, protocol, bytes, message, error, ext_ack, out, size,
    );
    tables.put(families);
    code
}
