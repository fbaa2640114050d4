//! Names by numbers, and numbers by names: of messages, attributes and values, by tables, and of errors. They take no
//! memory.
//!
//! The calls on tables return `STATE` if the tables are closed, and leave them unchanged. A name is written as much as
//! there is room for, and `size` is how long it is.

ghost use Rattle.std.specs.Prelude.{◌≡◌, ◌≢◌, ◌+◌, IfSome, IsNone, None, drop, length, nat_le, slice_index, take};
ghost use Rattle.std.specs.Prelude.{unsigned_abs, if◌then◌else◌};
ghost use Rattle.neli_errno.specs.Errnos.{errno_of};
ghost use Rattle.neli_c_parts.specs.AnswersShown.{payload_view};
ghost use Rattle.neli_c_parts.specs.Codes.{item, ok, room, state};
ghost use Rattle.neli_c_parts.specs.Lookups.{GivesName, GivesNumber, NamesMessage, name_found, number_found};

use neli_c_parts::code::{ITEM, OK, ROOM, STATE};
use neli_c_parts::lookups::{message_name, name_of, number_of};
use neli_c_parts::message::NeliMessage;
use neli_c_parts::tables_opaque::NeliTables;
use neli_errno::Errno;
use std::alloc::Global;

/// Stores the number of a name: of the first row with it in a list of a family, a set, a choice, an enum, flags or a
/// structure; where `list` is empty, of the family's first message or group.
///
/// Returns `ITEM`; `OK` if there is none.
#[unsafe(no_mangle)]
pub extern "C" fn neli_c_number_of(
    alloc: Global,
    tables: &mut NeliTables,
    family: &[u8],
    list: &[u8],
    name: &[u8],
    number: &mut u64,
) -> i32
    ensures closed { tables.old.place.value ≡ None
        → (result ≡ state) × (number.new ≡ number.old) }
    ensures open { IfSome tables.old.place.value (λ s. GivesNumber result
        (number_found family.now list.now name.now s) number.old number.new) }
    ensures same { tables.new.place.value ≡ tables.old.place.value }
{
    let Some(families) = tables.take(alloc) else {
        return STATE;
    };
    let code = number_of(&families, family, list, name, number);
    tables.put(families);
    code
}

/// Writes the name of a number: of the first row with it in such a list; where `list` is empty, of the family's message
/// to the kernel.
///
/// Returns `ITEM`; `OK` if there is none.
#[unsafe(no_mangle)]
pub extern "C" fn neli_c_name_of(
    alloc: Global,
    tables: &mut NeliTables,
    family: &[u8],
    list: &[u8],
    number: u64,
    out: &mut [u8],
    size: &mut usize,
) -> i32
    ensures closed { tables.old.place.value ≡ None
        → (result ≡ state) × (out.new ≡ out.old) × (size.new ≡ size.old) }
    ensures open { IfSome tables.old.place.value (λ s. GivesName result
        (name_found family.now list.now number s) out.old out.new size.old size.new) }
    ensures same { tables.new.place.value ≡ tables.old.place.value }
{
    let Some(families) = tables.take(alloc) else {
        return STATE;
    };
    let code = name_of(&families, family, list, number, out, size);
    tables.put(families);
    code
}

/// Writes the name of a message, of generic netlink that of its command.
///
/// Returns `ITEM`; `OK` if no table has it; `PLACE` if its payload is past the bytes.
#[unsafe(no_mangle)]
pub extern "C" fn neli_c_message_name(
    alloc: Global,
    tables: &mut NeliTables,
    protocol: u16,
    bytes: &[u8],
    message: &NeliMessage,
    out: &mut [u8],
    size: &mut usize,
) -> i32
    ensures closed { tables.old.place.value ≡ None
        → (result ≡ state) × (out.new ≡ out.old) × (size.new ≡ size.old) }
    ensures open { IfSome tables.old.place.value (λ s. NamesMessage result protocol message.now
        (payload_view bytes.now message.now) s out.old out.new size.old size.new) }
    ensures same { tables.new.place.value ≡ tables.old.place.value }
{
    let Some(families) = tables.take(alloc) else {
        return STATE;
    };
    let code = message_name(&families, protocol, bytes, message, out, size);
    tables.put(families);
    code
}

/// Writes the name of an error number, which may be below 0, as `EINVAL` of 22 and of -22, and a zero byte;
/// `text_length` is the name's length.
///
/// Returns `ITEM`; `OK` if the number has no name, and then `text_length` is as it was; `ROOM` if `out` is too small;
/// without `ITEM` nothing is written.
#[unsafe(no_mangle)]
pub extern "C" fn neli_c_errno_name(error: i32, out: &mut [u8], text_length: &mut usize) -> i32
    ensures unnamed { IsNone (errno_of (unsigned_abs error))
        → (result ≡ ok) × (text_length.new ≡ text_length.old) }
    ensures code { IfSome (errno_of (unsigned_abs error)) (λ row. (text_length.new ≡ length row.1)
        × (result ≡ (if nat_le (length row.1 + 1) (length out.old) then item else room))) }
    ensures text { result ≡ item → IfSome (errno_of (unsigned_abs error))
        (λ row. take (length row.1) out.new ≡ row.1) }
    ensures zero { result ≡ item → slice_index out.new text_length.new ≡ 0 }
    ensures rest { result ≡ item
        → drop (text_length.new + 1) out.new ≡ drop (text_length.new + 1) out.old }
    ensures unchanged { result ≢ item → out.new ≡ out.old }
{
    let Some(errno) = Errno::from_number(error.unsigned_abs()) else {
        return OK;
    };
    let name = errno.name().as_bytes();
    let end = name.len();
    *text_length = end;
    if out.len() <= end {
        return ROOM;
    }
    out[..end].copy_from_slice(name);
    out[end] = 0;
    ITEM
}
