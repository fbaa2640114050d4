//! What happens to one request, and what that makes of it.

ghost use Rattle.std.specs.Prelude.{◌≡◌, ◌≤◌, ◌<◌, ◌++◌, ◌∷◌, ◌==◌, ℕ, [], Ok, Some, IfOk, IfSome, IsNone, OnErr, OnOk, false, is_some, length, option_map, take};
ghost use Rattle.neli_lent.specs.Messages.{message_view};
ghost use Rattle.neli_session.specs.Lines.{SameLinks, SameRequests};
ghost use Rattle.neli_session.specs.Messages.{IsMessage};
ghost use Rattle.neli_session.specs.Readiness.{IsTurn, IsTurned, Turns};
ghost use Rattle.neli_session.specs.Requests.{changed, heard, of_number, own_of, passed};
ghost use Rattle.neli_session.specs.Runs.{HearsRun};
ghost use Rattle.neli_session.specs.Sessions.{closed, kept, takes};

use crate::change::Change;
use crate::line::Place;
use crate::queue::Queue;
use crate::request::Request;
use crate::run::Run;
use indexmap::IndexMap;
use neli_lent::LentMessage;
use neli_wire::NoMemory;

/// What a change made of a request.
#[derive(Clone, Copy, Debug)]
pub(crate) struct Turn {
    /// It had something to read.
    pub(crate) was_ready: bool,
    /// It has something to read.
    pub(crate) is_ready: bool,
    /// Its number is in use.
    pub(crate) stays: bool,
}

impl Turn {
    /// That of a request which had something to read, or had not.
    fn of(was_ready: bool, request: &Request) -> Turn
        ensures was { result.was_ready ≡ was_ready }
        ensures turned { IsTurned (Some request.now) result }
    {
        Turn {
            was_ready,
            is_ready: request.is_ready(),
            stays: request.is_kept(),
        }
    }
}

/// Takes in a message for a group, or for none, by the request with its number, if it answers that, and with it the run
/// that begins with it at the front of bytes. Refused only if memory runs out; then nothing changes.
pub(crate) fn hear(
    places: &mut IndexMap<u32, Place>,
    group: u32,
    message: &LentMessage<'_, u16>,
    first: usize,
    bytes: &[u8],
) -> Result<Option<(Turn, Run)>, NoMemory>
    requires within { first ≤ length bytes.now }
    requires some { 0 < first }
    requires first { IsMessage (take first bytes.now) (message_view message.now) }
    ensures untaken { IfOk result (λ t. IsNone t
        → takes group (own_of (message_view message.now) places.old.entries) ≡ false) }
    ensures alone { IfOk result (λ t. IsNone t
        → SameRequests places.old.entries places.new.entries) }
    ensures turn { IfOk result (λ t. IfSome t (λ r.
        IsTurn (own_of (message_view message.now) places.old.entries)
        (own_of (message_view message.now) places.new.entries) r.0)) }
    ensures heard { IfOk result (λ t. IfSome t (λ r.
        HearsRun group (message_view message.now) bytes.now r.1
        (own_of (message_view message.now) places.old.entries)
        (kept (own_of (message_view message.now) places.new.entries)))) }
    ensures others { (q : ℕ) → ((message_view message.now).0.sequence_number == q) ≡ false
        → of_number q places.new.entries ≡ of_number q places.old.entries }
    ensures links { SameLinks places.old.entries places.new.entries }
    ensures unchanged { OnErr result (SameRequests places.old.entries places.new.entries) }
{
    match places.get_mut(message.nl_seq()) {
        None => Ok(None),
        Some(place) => {
            let request = &mut place.request;
            if !request.answers(group) {
                return Ok(None);
            }
            let was_ready = request.is_ready();
            let run = request.hear(message, first, bytes)?;
            Ok(Some((Turn::of(was_ready, request), run)))
        }
    }
}

/// Takes in a message for a group, by the request with its number, if it answers that, and appends it to a queue in any
/// case. Refused only if memory runs out; then nothing changes.
pub(crate) fn hear_with(
    places: &mut IndexMap<u32, Place>,
    queue: &mut Queue,
    group: u32,
    message: &LentMessage<'_, u16>,
    span: &[u8],
) -> Result<Option<Turn>, NoMemory>
    requires { IsMessage span.now (message_view message.now) }
    ensures taken { IfOk result (λ t. is_some t
        ≡ takes group (own_of (message_view message.now) places.old.entries)) }
    ensures alone { IfOk result (λ t. IsNone t
        → SameRequests places.old.entries places.new.entries) }
    ensures turn { IfOk result (λ t. IfSome t
        (IsTurn (own_of (message_view message.now) places.old.entries)
        (own_of (message_view message.now) places.new.entries))) }
    ensures heard { IfOk result (λ t. IfSome t (λ _.
        own_of (message_view message.now) places.new.entries
        ≡ option_map (heard (message_view message.now))
        (own_of (message_view message.now) places.old.entries))) }
    ensures others { (q : ℕ) → ((message_view message.now).0.sequence_number == q) ≡ false
        → of_number q places.new.entries ≡ of_number q places.old.entries }
    ensures links { SameLinks places.old.entries places.new.entries }
    ensures queue { OnOk result (queue.new ≡ queue.old ++ Ok (message_view message.now) ∷ []) }
    ensures unchanged { OnErr result (SameRequests places.old.entries places.new.entries
        × (queue.new ≡ queue.old)) }
{
    if let Some(place) = places.get_mut(message.nl_seq()) {
        let request = &mut place.request;
        if request.answers(group) {
            let was_ready = request.is_ready();
            request.hear_with(queue, message, span)?;
            return Ok(Some(Turn::of(was_ready, request)));
        }
    }
    queue.add(span)?;
    Ok(None)
}

/// Notes what happens to the request with a number, if there is one.
pub(crate) fn change(places: &mut IndexMap<u32, Place>, number: u32, change: Change) -> Option<Turn>
    ensures { Turns number (changed change) result places.old.entries places.new.entries }
{
    let Some(place) = places.get_mut(&number) else {
        return None;
    };
    let was_ready = place.request.is_ready();
    place.request.change(change);
    Some(Turn::of(was_ready, &place.request))
}

/// Goes past the next item of the request with a number, if there is one.
pub(crate) fn pass(places: &mut IndexMap<u32, Place>, number: u32) -> Option<Turn>
    ensures { Turns number passed result places.old.entries places.new.entries }
{
    let Some(place) = places.get_mut(&number) else {
        return None;
    };
    let was_ready = place.request.is_ready();
    place.request.pass();
    Some(Turn::of(was_ready, &place.request))
}

/// Closes the request with a number, if there is one.
pub(crate) fn close(places: &mut IndexMap<u32, Place>, number: u32) -> Option<Turn>
    ensures { Turns number closed result places.old.entries places.new.entries }
{
    let Some(place) = places.get_mut(&number) else {
        return None;
    };
    let was_ready = place.request.is_ready();
    place.request.close();
    Some(Turn::of(was_ready, &place.request))
}
