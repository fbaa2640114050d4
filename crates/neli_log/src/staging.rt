//! The deliveries of a datagram, before any list changes.

ghost use Rattle.std.specs.Prelude.{◌≡◌, ◌↔◌, ◌<◌, ℕ, List, [], ◌∷◌, None, Some, Option, IfOk, OnOk, length};
ghost use Rattle.std.specs.Prelude.{IsTrue, is_some, true};
ghost use Rattle.neli_wire.specs.Place.{whole};
ghost use Rattle.neli_reader.specs.Agreement.{untyped_layout};
ghost use Rattle.neli_reader.specs.Cuts.{Cut as Rest};
ghost use Rattle.neli_reader.specs.Cuts.{cut_of, message_before};
ghost use Rattle.neli_deliveries.specs.Deliveries.{Untyped};
ghost use Rattle.neli_lent.specs.Spans.{Spells};
ghost use Rattle.neli_log.specs.Places.{HasReader, pending_of};
ghost use Rattle.neli_log.specs.Contents.{entry_read, part_of, span_of};
ghost use Rattle.neli_log.specs.Routed.{is_open, message_routed};
ghost use Rattle.neli_log.specs.Staged.{AreStaged, IsFound, cut_left};
ghost use Rattle.neli_log.specs.declared.entry.Route.{Route as Way};

use crate::content::Content;
use crate::next::{Address, next_message};
use crate::{Entry, Places, Route, Span};
use neli_reader::SocketError;
use neli_util::Groups;
use neli_wire::{Cursor, DeError, NoMemory};
use std::alloc::Global;

/// The entry of a message: for multicast if there are groups, else for the number that it answers, or as a stray for
/// all.
fn entry_of(
    port: u32,
    places: &Places<Content>,
    groups: &Groups,
    address: Address,
    span: Span,
) -> Entry<Content>
    ensures read { (bytes : List ℕ) (u : Untyped) → Spells (part_of bytes span) u
        → address.number ≡ u.0.sequence_number → address.port ≡ u.0.port
        → entry_read (part_of bytes) result
        ≡ message_routed port (is_open (pending_of places.now)) groups.now u }
    ensures span { span_of result.item ≡ span ∷ [] }
    ensures open { (n : ℕ) → result.route ≡ Way.Number n
        → is_some (pending_of places.now (Some n)) ≡ true }
{
    if !groups.is_empty() {
        return Entry {
            item: Content::Message(span),
            route: Route::Multicast,
        };
    }
    if address.port == port && places.is_open(Some(address.number)) {
        Entry {
            item: Content::Message(span),
            route: Route::Number(address.number),
        }
    } else {
        Entry {
            item: Content::Stray(span),
            route: Route::Numbers,
        }
    }
}

/// Whether an entry with this route has a receiver; a number that it goes to is open.
fn is_received(places: &Places<Content>, route: Route) -> bool
    requires { (n : ℕ) → route ≡ Way.Number n → is_some (pending_of places.now (Some n)) ≡ true }
    ensures { IsTrue result ↔ HasReader (pending_of places.now) route }
{
    match route {
        Route::Number(_) => true,
        _ => places.has_reader(route),
    }
}

/// Adds the entry of a message, if it has a receiver.
fn stage_message(
    port: u32,
    places: &Places<Content>,
    groups: &Groups,
    address: Address,
    span: Span,
    entries: &mut Vec<Entry<Content>>,
) -> Result<(), NoMemory>
    ensures { (serial at : ℕ) (bytes : List ℕ) (u : Untyped) (cut rest : Rest Untyped)
        → AreStaged (pending_of places.now) port serial bytes groups.now cut entries.old.items at
        (message_before u rest)
        → IsFound serial at bytes span u address → OnOk result
        (AreStaged (pending_of places.now) port serial bytes groups.now cut entries.new.items
        span.end rest) }
{
    let entry = entry_of(port, places, groups, address, span);
    if is_received(places, entry.route) {
        entries.push(entry)?;
    }
    Ok(())
}

/// Adds the entry of the fault that ends a datagram, if it has a receiver.
fn stage_fault(
    alloc: Global,
    places: &Places<Content>,
    fault: DeError,
    entries: &mut Vec<Entry<Content>>,
) -> Result<(), NoMemory>
    ensures { (port serial at : ℕ) (bytes groups : List ℕ) (cut : Rest Untyped)
        → AreStaged (pending_of places.now) port serial bytes groups cut entries.old.items at
        ([], Some fault)
        → OnOk result (AreStaged (pending_of places.now) port serial bytes groups cut
        entries.new.items at ([], None)) }
{
    if places.has_reader(Route::Numbers) {
        let fault = Box::new(alloc, SocketError::De(fault))?;
        entries.push(Entry {
            item: Content::Fault(fault),
            route: Route::Numbers,
        })?;
    }
    Ok(())
}

/// Adds the entry of the message at the front of the cursor's rest, and moves past it; or returns its fault.
fn stage_next(
    alloc: Global,
    port: u32,
    places: &Places<Content>,
    serial: u64,
    groups: &Groups,
    cursor: &mut Cursor<'_>,
    entries: &mut Vec<Entry<Content>>,
) -> Result<Option<DeError>, NoMemory>
    requires { 0 < length cursor.old.rest }
    ensures staged { (cut : Rest Untyped)
        → AreStaged (pending_of places.now) port serial (whole cursor.old) groups.now cut
        entries.old.items (length cursor.old.before) (cut_left cursor.old.rest None)
        → IfOk result (λ fault. AreStaged (pending_of places.now) port serial (whole cursor.old)
        groups.now cut entries.new.items (length cursor.new.before)
        (cut_left cursor.new.rest fault)) }
    ensures moved { OnOk result (whole cursor.new ≡ whole cursor.old) }
    ensures shorter { IfOk result (λ fault. fault ≡ None
        → length cursor.new.rest < length cursor.old.rest) }
{
    let start = cursor.position();
    match next_message(alloc, cursor)? {
        Ok(address) => {
            let span = Span {
                datagram: serial,
                start,
                end: cursor.position(),
            };
            stage_message(port, places, groups, address, span, entries)?;
            Ok(None)
        }
        Err(fault) => Ok(Some(fault)),
    }
}

/// The entries of a datagram's messages, and the fault after them, if there is one.
fn stage_messages(
    alloc: Global,
    port: u32,
    places: &Places<Content>,
    serial: u64,
    bytes: &[u8],
    groups: &Groups,
) -> Result<(Vec<Entry<Content>>, Option<DeError>), NoMemory>
    ensures { IfOk result (λ r. AreStaged (pending_of places.now) port serial bytes.now groups.now
        (cut_of untyped_layout bytes.now) r.0.items (length bytes.now) ([], r.1)) }
{
    let mut entries = Vec::new(alloc);
    let mut cursor = Cursor::new(bytes);
    while !cursor.rest().is_empty() {
        let fault = stage_next(
            alloc,
            port,
            places,
            serial,
            groups,
            &mut cursor,
            &mut entries,
        )?;
        if let Some(fault) = fault {
            return Ok((entries, Some(fault)));
        }
    }
    Ok((entries, None))
}

/// Returns the entries of a datagram that arrived for these groups; its spans have this serial number.
///
/// Refused only if memory runs out.
pub(crate) fn staged(
    alloc: Global,
    port: u32,
    places: &Places<Content>,
    serial: u64,
    bytes: &[u8],
    groups: &Groups,
) -> Result<Vec<Entry<Content>>, NoMemory>
    ensures { IfOk result (λ es. AreStaged (pending_of places.now) port serial bytes.now groups.now
        (cut_of untyped_layout bytes.now) es.items (length bytes.now) ([], None)) }
{
    let (mut entries, fault) = stage_messages(alloc, port, places, serial, bytes, groups)?;
    if let Some(fault) = fault {
        stage_fault(alloc, places, fault, &mut entries)?;
    }
    Ok(entries)
}
