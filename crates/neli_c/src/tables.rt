//! Tables of families for C. C holds a `struct neli_tables`, which is closed if all its bytes are 0.
//!
//! Each call but those that open and free them returns `STATE` if the tables are closed, and changes nothing then.

ghost use Rattle.std.specs.Prelude.{◌≡◌, ◌≢◌, ◌⊎◌, IfSome, IsSome, None};
ghost use Rattle.neli_c_parts.specs.AnswersShown.{payload_view};
ghost use Rattle.neli_c_parts.specs.Codes.{bad_length, bad_table, memory, ok, state};
ghost use Rattle.neli_c.specs.Opens.{StaysClosed, StaysOpen};
ghost use Rattle.neli_c_parts.specs.Lookups.{AddsBuiltIn, heading_named};
ghost use Rattle.neli_c_parts.specs.Tables.{AddsTable, IsBuiltIn, IsEmpty, Learns, LearnsFrom, head_of};

use neli_c_parts::code::{MEMORY, OK, STATE};
use neli_c_parts::families::Families;
use neli_c_parts::lookups::add_built_in;
use neli_c_parts::message::NeliMessage;
use neli_c_parts::tables_opaque::NeliTables;
use neli_c_parts::tabling::{add, learn, learn_from, of_unread};
use std::alloc::Global;

/// Opens tables without any family.
///
/// Returns `OK`; `STATE` if they are open, or `MEMORY`; then they are unchanged.
#[unsafe(no_mangle)]
pub extern "C" fn neli_c_tables_new(alloc: Global, tables: &mut NeliTables) -> i32
    ensures new { result ≡ ok
        → IsSome tables.new.place.value × IfSome tables.new.place.value IsEmpty }
    ensures open { IsSome tables.old.place.value → result ≡ state }
    ensures closed { tables.old.place.value ≡ None → (result ≡ ok) ⊎ (result ≡ memory) }
    ensures unchanged { result ≢ ok → tables.new.place.value ≡ tables.old.place.value }
{
    if let Some(families) = tables.take(alloc) {
        tables.put(families);
        return STATE;
    }
    match Box::new(alloc, Families::new(alloc)) {
        Ok(families) => {
            tables.put(families);
            OK
        }
        Err(_) => MEMORY,
    }
}

/// Opens the tables of all families that are built in.
///
/// Returns `OK`; `STATE` if they are open, `MEMORY`, or `TABLE` if a text that is built in cannot be read; then they
/// are unchanged.
#[unsafe(no_mangle)]
pub extern "C" fn neli_c_tables_built_in(alloc: Global, tables: &mut NeliTables) -> i32
    ensures new { result ≡ ok
        → IsSome tables.new.place.value × IfSome tables.new.place.value IsBuiltIn }
    ensures open { IsSome tables.old.place.value → result ≡ state }
    ensures closed { tables.old.place.value ≡ None
        → (result ≡ ok) ⊎ (result ≡ memory) ⊎ (result ≡ bad_table) }
    ensures unchanged { result ≢ ok → tables.new.place.value ≡ tables.old.place.value }
{
    if let Some(families) = tables.take(alloc) {
        tables.put(families);
        return STATE;
    }
    let families = match Families::built_in(alloc) {
        Ok(families) => families,
        Err(error) => return of_unread(error),
    };
    match Box::new(alloc, families) {
        Ok(families) => {
            tables.put(families);
            OK
        }
        Err(_) => MEMORY,
    }
}

/// Frees what tables have, and closes them; of closed ones, nothing. Returns `OK`.
#[unsafe(no_mangle)]
pub extern "C" fn neli_c_tables_free(alloc: Global, tables: &mut NeliTables) -> i32
    ensures code { result ≡ ok }
    ensures closed { tables.new.place.value ≡ None }
{
    drop(tables.take(alloc));
    OK
}

/// Adds the table that a text is behind the others. The text stays as it is until the tables are freed.
///
/// Returns `OK`; `TABLE` if a line of it is bad, and then `line` is the number of the first, counted from 1, `out` has
/// why, as much as there is room for, and `size` is how long that is; `MEMORY`; or `LENGTH` if that has more bytes
/// than a `usize` counts. Without `OK` nothing is added, and without `TABLE` `line` and `size` are as they were.
#[unsafe(no_mangle)]
pub extern "C" fn neli_c_tables_add(
    alloc: Global,
    tables: &mut NeliTables,
    text: &'static [u8],
    line: &mut usize,
    out: &mut [u8],
    size: &mut usize,
) -> i32
    ensures closed { tables.old.place.value ≡ None
        → (result ≡ state) × (tables.new.place.value ≡ None) × (out.new ≡ out.old) }
    ensures open { StaysOpen
        (λ s t. AddsTable result text.now s t line.new out.old out.new size.new)
        tables.old.place.value tables.new.place.value }
    ensures unshown { result ≢ bad_table
        → (line.new ≡ line.old) × (size.new ≡ size.old) }
    ensures unwritten { result ≢ bad_table → result ≢ bad_length → out.new ≡ out.old }
{
    let Some(mut families) = tables.take(alloc) else {
        return STATE;
    };
    let code = add(alloc, &mut families, text, line, out, size);
    tables.put(families);
    code
}

/// Adds the table that is built in with this name, that of its text in `tables/`, behind the others.
///
/// Returns `OK`; `KIND` if none has the name, `MEMORY`, or `TABLE` if the text cannot be read; then nothing is added.
#[unsafe(no_mangle)]
pub extern "C" fn neli_c_tables_add_built_in(
    alloc: Global,
    tables: &mut NeliTables,
    name: &[u8],
) -> i32
    ensures closed { StaysClosed result tables.old.place.value tables.new.place.value }
    ensures open { StaysOpen (AddsBuiltIn result (heading_named name.now))
        tables.old.place.value tables.new.place.value }
{
    let Some(mut families) = tables.take(alloc) else {
        return STATE;
    };
    let code = add_built_in(alloc, &mut families, name);
    tables.put(families);
    code
}

/// Learns that the family of generic netlink with this name has this number, as the kernel gives it.
///
/// Returns `OK`, or `MEMORY`; then nothing is learnt.
#[unsafe(no_mangle)]
pub extern "C" fn neli_c_tables_learn(
    alloc: Global,
    tables: &mut NeliTables,
    id: u16,
    name: &[u8],
) -> i32
    ensures closed { StaysClosed result tables.old.place.value tables.new.place.value }
    ensures open { StaysOpen (Learns result id name.now)
        tables.old.place.value tables.new.place.value }
{
    let Some(mut families) = tables.take(alloc) else {
        return STATE;
    };
    let code = learn(&mut families, id, name);
    tables.put(families);
    code
}

/// Learns the number of a family of generic netlink from a message of the controller that names it
/// (`CTRL_CMD_NEWFAMILY`). Of any other message nothing is learnt.
///
/// Returns `OK`; `PLACE` if its payload is past the bytes, or `MEMORY`; then nothing is learnt.
#[unsafe(no_mangle)]
pub extern "C" fn neli_c_tables_learn_from(
    alloc: Global,
    tables: &mut NeliTables,
    protocol: u16,
    bytes: &[u8],
    message: &NeliMessage,
) -> i32
    ensures closed { StaysClosed result tables.old.place.value tables.new.place.value }
    ensures open { StaysOpen
        (LearnsFrom result (head_of protocol message.now) (payload_view bytes.now message.now))
        tables.old.place.value tables.new.place.value }
{
    let Some(mut families) = tables.take(alloc) else {
        return STATE;
    };
    let code = learn_from(&mut families, protocol, bytes, message);
    tables.put(families);
    code
}
