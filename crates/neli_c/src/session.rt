//! A session for C. C holds a `struct neli_session`, which is closed if all its bytes are 0.
//!
//! Each call but those that open and free it returns `STATE` if the session is closed, and changes nothing then.

ghost use Rattle.std.specs.Prelude.{◌≡◌, ◌≢◌, ◌⊎◌, IfSome, IsSome, None, if◌then◌else◌, is_some};
ghost use Rattle.std.specs.Borrow.{sem};
ghost use Rattle.neli_consts_system.specs.NlFamily.{nl_family_of};
ghost use Rattle.neli_reader.specs.Headers.{flags_of};
ghost use Rattle.neli_session.specs.Sessions.{at};
ghost use Rattle.neli_c_parts.specs.Codes.{in_use, item, memory, ok, state, waits};
ghost use Rattle.neli_c_session.specs.Calls.{Chooses, Closes, ClosesMulticast, FallsQuiet, IsNew, IsSent};
ghost use Rattle.neli_c_session.specs.Calls.{IsUnsent, Queues, QueuesAs, SendsRequest, SetsNumber, TakesFault, TakesIn, TakesNumber};
ghost use Rattle.neli_c_session.specs.Calls.{answering_in, is_set};
ghost use Rattle.neli_c_session.specs.Places.{IsLeft};
ghost use Rattle.neli_c_session.specs.Reads.{LendsNext, LendsOutgoing, PassesNext, TellsReady, TellsVerdict, is_ready_of};
ghost use Rattle.neli_c_session.specs.Reads.{reader_of};

use crate::lending::Lending;
use neli_c_parts::code::{IN_USE, MEMORY, OK, STATE};
use neli_c_parts::lending::NeliLent;
use neli_c_parts::session::NeliVerdict;
use neli_c_session::opaque::NeliSession;
use neli_c_session::reading::NeliBytes;
use neli_c_session::{reading, receiving, sending};
use neli_consts_system::NlFamily;
use std::alloc::Global;

/// Opens a session over the caller's socket, of this protocol and with this port. It keeps what comes to groups, and, if
/// `keeps_unasked` is not 0, what answers no request.
///
/// Returns `OK`; `STATE` if it is open, or `MEMORY`; then it is unchanged.
#[unsafe(no_mangle)]
pub extern "C" fn neli_c_session_new(
    alloc: Global,
    session: &mut NeliSession,
    protocol: i32,
    port: u32,
    keeps_unasked: u8,
) -> i32
    ensures new { result ≡ ok → IsSome session.new.place.value
        × IfSome session.new.place.value (IsNew (nl_family_of protocol) port (is_set keeps_unasked)) }
    ensures open { IsSome session.old.place.value → result ≡ state }
    ensures closed { session.old.place.value ≡ None → (result ≡ ok) ⊎ (result ≡ memory) }
    ensures unchanged { result ≢ ok → session.new.place.value ≡ session.old.place.value }
{
    if let Some(held) = session.take(alloc) {
        session.put(held);
        return STATE;
    }
    let held = sending::opened(alloc, NlFamily::from(protocol), port, keeps_unasked != 0);
    match Box::new(alloc, held) {
        Ok(held) => {
            session.put(held);
            OK
        }
        Err(_) => MEMORY,
    }
}

/// Frees a session's memory, and closes it; does nothing to a closed one. Returns `OK`.
#[unsafe(no_mangle)]
pub extern "C" fn neli_c_session_free(alloc: Global, session: &mut NeliSession) -> i32
    ensures code { result ≡ ok }
    ensures closed { session.new.place.value ≡ None }
{
    drop(session.take(alloc));
    OK
}

/// Sets the sequence number to try first for the next request. Returns `OK`.
#[unsafe(no_mangle)]
pub extern "C" fn neli_c_session_set_number(
    alloc: Global,
    session: &mut NeliSession,
    number: u32,
) -> i32
    ensures closed { session.old.place.value ≡ None
        → (result ≡ state) × (session.new.place.value ≡ None) }
    ensures open { IfSome session.old.place.value (λ s. (result ≡ ok) × IsSome session.new.place.value
        × IfSome session.new.place.value (SetsNumber number s)) }
{
    let Some(mut held) = session.take(alloc) else {
        return STATE;
    };
    sending::set_number(&mut held, number);
    session.put(held);
    OK
}

/// Sends a request of this type, with these flags and REQUEST, whose payload is this body: it waits for
/// `neli_c_session_outgoing`, and `number` is its sequence number.
///
/// Returns `OK`; `LENGTH` if the length exceeds 32 bits; `IN_USE` if no number is free; or `MEMORY`. Then nothing is
/// sent, and `number` is unchanged.
#[unsafe(no_mangle)]
pub extern "C" fn neli_c_session_send(
    alloc: Global,
    session: &mut NeliSession,
    nl_type: u16,
    flags: u16,
    body: &[u8],
    number: &mut u32,
) -> i32
    ensures closed { session.old.place.value ≡ None
        → (result ≡ state) × (session.new.place.value ≡ None) × (number.new ≡ number.old) }
    ensures open { IfSome session.old.place.value (λ s. IsSome session.new.place.value
        × IfSome session.new.place.value (λ t. SendsRequest result nl_type (flags_of flags) body.now s t number.old number.new)) }
{
    let Some(mut held) = session.take(alloc) else {
        return STATE;
    };
    let code = sending::send(&mut held, nl_type, flags, body, number);
    session.put(held);
    code
}

/// Sends requests as one datagram: the bytes of whole messages, each with a sequence number of its own. They wait for
/// `neli_c_session_outgoing`, and how each is answered is decided by the table of neli_answers.
///
/// Returns `OK`; `SHORT` if the bytes are not one or more whole messages; `KIND` if several are answered by dumps;
/// `IN_USE` if a number is in use, or several of them have it; or `MEMORY`. Then nothing is sent.
#[unsafe(no_mangle)]
pub extern "C" fn neli_c_session_send_all(
    alloc: Global,
    session: &mut NeliSession,
    requests: &[u8],
) -> i32
    ensures closed { session.old.place.value ≡ None
        → (result ≡ state) × (session.new.place.value ≡ None) }
    ensures open { IfSome session.old.place.value (λ s. IsSome session.new.place.value
        × IfSome session.new.place.value (Queues result None requests.now s)) }
{
    let Some(mut held) = session.take(alloc) else {
        return STATE;
    };
    let code = sending::send_all(&mut held, requests);
    session.put(held);
    code
}

/// Sends requests that are answered as this number of `enum neli_answering` says, else as `neli_c_session_send_all`.
///
/// Returns what that does; `KIND` also if no way to answer has the number.
#[unsafe(no_mangle)]
pub extern "C" fn neli_c_session_send_expecting(
    alloc: Global,
    session: &mut NeliSession,
    answering: u32,
    requests: &[u8],
) -> i32
    ensures closed { session.old.place.value ≡ None
        → (result ≡ state) × (session.new.place.value ≡ None) }
    ensures open { IfSome session.old.place.value (λ s. IsSome session.new.place.value
        × IfSome session.new.place.value (QueuesAs result (answering_in answering) requests.now s)) }
{
    let Some(mut held) = session.take(alloc) else {
        return STATE;
    };
    let code = sending::send_expecting(&mut held, answering, requests);
    session.put(held);
    code
}

/// Takes a sequence number that is not in use.
///
/// Returns `OK`, or `IN_USE` if no number is free; then `number` is unchanged.
#[unsafe(no_mangle)]
pub extern "C" fn neli_c_session_take_number(
    alloc: Global,
    session: &mut NeliSession,
    number: &mut u32,
) -> i32
    ensures closed { session.old.place.value ≡ None
        → (result ≡ state) × (session.new.place.value ≡ None) × (number.new ≡ number.old) }
    ensures open { IfSome session.old.place.value (λ s. IsSome session.new.place.value
        × IfSome session.new.place.value (λ t. TakesNumber result s t number.old number.new)) }
{
    let Some(mut held) = session.take(alloc) else {
        return STATE;
    };
    let code = sending::take_number(&mut held, number);
    session.put(held);
    code
}

/// Notes that the link has sent what `neli_c_session_outgoing` lent. Without that nothing changes. Returns `OK`.
#[unsafe(no_mangle)]
pub extern "C" fn neli_c_session_sent(alloc: Global, session: &mut NeliSession) -> i32
    ensures closed { session.old.place.value ≡ None
        → (result ≡ state) × (session.new.place.value ≡ None) }
    ensures open { IfSome session.old.place.value (λ s. (result ≡ ok) × IsSome session.new.place.value
        × IfSome session.new.place.value (IsSent s)) }
{
    let Some(mut held) = session.take(alloc) else {
        return STATE;
    };
    sending::sent(&mut held);
    session.put(held);
    OK
}

/// Notes that the link has not sent it: its number in `errno.h`, which its requests read as a loss. Nothing comes for
/// them. Returns `OK`.
#[unsafe(no_mangle)]
pub extern "C" fn neli_c_session_not_sent(
    alloc: Global,
    session: &mut NeliSession,
    errno: i32,
) -> i32
    ensures closed { session.old.place.value ≡ None
        → (result ≡ state) × (session.new.place.value ≡ None) }
    ensures open { IfSome session.old.place.value (λ s. (result ≡ ok) × IsSome session.new.place.value
        × IfSome session.new.place.value (IsUnsent errno s)) }
{
    let Some(mut held) = session.take(alloc) else {
        return STATE;
    };
    sending::not_sent(&mut held, errno);
    session.put(held);
    OK
}

/// Takes in a datagram of a group, or of none, which is 0; `is_joined` is 0 if the socket is not in that group.
///
/// Returns `OK`, and `taken` is the number of its bytes; or `MEMORY`, and `taken` is how many of its first bytes were
/// taken in: the others are to be handed in again.
#[unsafe(no_mangle)]
pub extern "C" fn neli_c_session_receive(
    alloc: Global,
    session: &mut NeliSession,
    bytes: &[u8],
    group: u32,
    is_joined: u8,
    taken: &mut usize,
) -> i32
    ensures closed { session.old.place.value ≡ None
        → (result ≡ state) × (session.new.place.value ≡ None) × (taken.new ≡ taken.old) }
    ensures open { IfSome session.old.place.value (λ s. IsSome session.new.place.value
        × IfSome session.new.place.value (λ t. TakesIn result bytes.now group (is_set is_joined) s t taken.new)) }
{
    let Some(mut held) = session.take(alloc) else {
        return STATE;
    };
    let code = receiving::receive(&mut held, bytes, group, is_joined != 0, taken);
    session.put(held);
    code
}

/// Notes a fault of the link, by its number in `errno.h`: requests that are awaited, multicast and the unasked get it as
/// a loss. After 105 (`ENOBUFS`) nothing goes out until `neli_c_session_quiet`.
///
/// Returns `OK`, or `MEMORY`; then nothing changes.
#[unsafe(no_mangle)]
pub extern "C" fn neli_c_session_fault(alloc: Global, session: &mut NeliSession, errno: i32) -> i32
    ensures closed { session.old.place.value ≡ None
        → (result ≡ state) × (session.new.place.value ≡ None) }
    ensures open { IfSome session.old.place.value (λ s. IsSome session.new.place.value
        × IfSome session.new.place.value (TakesFault result errno s)) }
{
    let Some(mut held) = session.take(alloc) else {
        return STATE;
    };
    let code = receiving::fault(&mut held, errno);
    session.put(held);
    code
}

/// Notes that the link was seen empty, which ends what was sent before, where the kernel answers at once. Returns `OK`.
#[unsafe(no_mangle)]
pub extern "C" fn neli_c_session_quiet(alloc: Global, session: &mut NeliSession) -> i32
    ensures closed { session.old.place.value ≡ None
        → (result ≡ state) × (session.new.place.value ≡ None) }
    ensures open { IfSome session.old.place.value (λ s. (result ≡ ok) × IsSome session.new.place.value
        × IfSome session.new.place.value (FallsQuiet s)) }
{
    let Some(mut held) = session.take(alloc) else {
        return STATE;
    };
    receiving::quiet(&mut held);
    session.put(held);
    OK
}

/// Goes past the next item of a reader of `enum neli_reader`, if there is one. The number is the request's. Returns `OK`.
#[unsafe(no_mangle)]
pub extern "C" fn neli_c_session_pass(
    alloc: Global,
    session: &mut NeliSession,
    reader: u32,
    number: u32,
) -> i32
    ensures closed { session.old.place.value ≡ None
        → (result ≡ state) × (session.new.place.value ≡ None) }
    ensures open { IfSome session.old.place.value (λ s. (result ≡ ok) × IsSome session.new.place.value
        × IfSome session.new.place.value (PassesNext reader number s)) }
{
    let Some(mut held) = session.take(alloc) else {
        return STATE;
    };
    reading::pass(&mut held, reader, number);
    session.put(held);
    OK
}

/// Closes a request: nothing of its answer is kept any more, and its number is in use until nothing more can come for it.
/// Returns `OK`.
#[unsafe(no_mangle)]
pub extern "C" fn neli_c_session_close(alloc: Global, session: &mut NeliSession, number: u32) -> i32
    ensures closed { session.old.place.value ≡ None
        → (result ≡ state) × (session.new.place.value ≡ None) }
    ensures open { IfSome session.old.place.value (λ s. (result ≡ ok) × IsSome session.new.place.value
        × IfSome session.new.place.value (Closes number s)) }
{
    let Some(mut held) = session.take(alloc) else {
        return STATE;
    };
    reading::close(&mut held, number);
    session.put(held);
    OK
}

/// Closes multicast: nothing of it is kept any more. Returns `OK`.
#[unsafe(no_mangle)]
pub extern "C" fn neli_c_session_close_multicast(alloc: Global, session: &mut NeliSession) -> i32
    ensures closed { session.old.place.value ≡ None
        → (result ≡ state) × (session.new.place.value ≡ None) }
    ensures open { IfSome session.old.place.value (λ s. (result ≡ ok) × IsSome session.new.place.value
        × IfSome session.new.place.value (ClosesMulticast s)) }
{
    let Some(mut held) = session.take(alloc) else {
        return STATE;
    };
    reading::close_multicast(&mut held);
    session.put(held);
    OK
}

/// Reports the verdict on the answer to a request, by the items read from it; all but `WAITS` are final.
///
/// Returns `WAITS` until it has ended; `OK` if it is complete; `INTERRUPTED` if a message of it is marked with
/// `NLM_F_DUMP_INTR`; `KERNEL_ERROR` if the kernel answered with an error, or ended a dump with one, whose code is in
/// `verdict`; `LINK` if the link lost something of it, or did not send the request, and the errno is in `verdict`; `SHORT`
/// if a datagram could not be read to its end; `UNENDED` if the link was seen empty before its end; `HANDLE` if the number
/// is not in use, and then `verdict` is unchanged. The session is unchanged.
#[unsafe(no_mangle)]
pub extern "C" fn neli_c_session_verdict(
    alloc: Global,
    session: &mut NeliSession,
    number: u32,
    verdict: &mut NeliVerdict,
) -> i32
    ensures closed { session.old.place.value ≡ None
        → (result ≡ state) × (session.new.place.value ≡ None) × (verdict.new ≡ verdict.old) }
    ensures same { session.new.place.value ≡ session.old.place.value }
    ensures open { IfSome session.old.place.value
        (λ s. TellsVerdict result number s verdict.old verdict.new) }
{
    let Some(held) = session.take(alloc) else {
        return STATE;
    };
    let code = reading::verdict(&held, number, verdict);
    session.put(held);
    code
}

/// Returns `IN_USE` if a sequence number is in use, or else `OK`. The session is unchanged.
#[unsafe(no_mangle)]
pub extern "C" fn neli_c_session_is_in_use(
    alloc: Global,
    session: &mut NeliSession,
    number: u32,
) -> i32
    ensures closed { session.old.place.value ≡ None
        → (result ≡ state) × (session.new.place.value ≡ None) }
    ensures same { session.new.place.value ≡ session.old.place.value }
    ensures open { IfSome session.old.place.value
        (λ s. result ≡ (if is_some (at s.requests number) then in_use else ok)) }
{
    let Some(held) = session.take(alloc) else {
        return STATE;
    };
    let is_in_use = held.is_in_use(number);
    session.put(held);
    if is_in_use { IN_USE } else { OK }
}

/// Reports which request has something to read: an item, a loss or the end. `number` is that of the first in line: a
/// request joins the line at its end when it has something, goes to the end again when it was read
/// (`neli_c_session_pass`) and has more, and leaves when it has nothing or is closed. It takes no memory, and the session is
/// unchanged.
///
/// Returns `ITEM`, or `WAITS` if none has; then `number` is unchanged.
#[unsafe(no_mangle)]
pub extern "C" fn neli_c_session_ready(
    alloc: Global,
    session: &mut NeliSession,
    number: &mut u32,
) -> i32
    ensures closed { session.old.place.value ≡ None
        → (result ≡ state) × (session.new.place.value ≡ None) × (number.new ≡ number.old) }
    ensures same { session.new.place.value ≡ session.old.place.value }
    ensures open { IfSome session.old.place.value (λ s. TellsReady result s number.old number.new) }
{
    let Some(held) = session.take(alloc) else {
        return STATE;
    };
    let code = reading::next_ready(&held, number);
    session.put(held);
    code
}

/// Returns `ITEM` if a reader of `enum neli_reader` has something to read, or else `WAITS`; the number is the request's.
/// It takes no memory, and the session is unchanged.
#[unsafe(no_mangle)]
pub extern "C" fn neli_c_session_is_ready(
    alloc: Global,
    session: &mut NeliSession,
    reader: u32,
    number: u32,
) -> i32
    ensures closed { session.old.place.value ≡ None
        → (result ≡ state) × (session.new.place.value ≡ None) }
    ensures same { session.new.place.value ≡ session.old.place.value }
    ensures open { IfSome session.old.place.value
        (λ s. result ≡ (if is_ready_of (reader_of reader number) s then item else waits)) }
{
    let Some(held) = session.take(alloc) else {
        return STATE;
    };
    let code = reading::is_ready(&held, reader, number);
    session.put(held);
    code
}

/// Chooses the datagram to send next, which `neli_c_session_outgoing` lends then: the one on its way, until
/// `neli_c_session_sent` or `neli_c_session_not_sent`, or else the first that waits and may go out. It takes no memory.
///
/// Returns `ITEM`, or `WAITS` if none may go out now.
#[unsafe(no_mangle)]
pub extern "C" fn neli_c_session_next_outgoing(alloc: Global, session: &mut NeliSession) -> i32
    ensures closed { session.old.place.value ≡ None
        → (result ≡ state) × (session.new.place.value ≡ None) }
    ensures open { IfSome session.old.place.value (λ s. IsSome session.new.place.value
        × IfSome session.new.place.value (Chooses result s)) }
{
    let Some(mut held) = session.take(alloc) else {
        return STATE;
    };
    let code = sending::choose(&mut held);
    session.put(held);
    code
}

/// Lends the datagram on its way.
fn lend_outgoing<'r>(session: &'r mut NeliSession, bytes: &mut NeliBytes<'r>) -> Lending<'r>
    ensures* same { sem 𝓛 (IsLeft session.entry) }
    ensures closed { session.old.place.value ≡ None
        → (result.code ≡ state) × (bytes.new ≡ bytes.old) }
    ensures open { IfSome session.old.place.value
        (λ s. LendsOutgoing result.code s bytes.old bytes.new) }
{
    let code = match session.lend() {
        Some(held) => reading::lend_outgoing(held, bytes),
        None => STATE,
    };
    Lending {
        code,
        bytes: bytes.bytes,
    }
}

/// Lends the datagram on its way, until the next call of this session. It takes no memory, and the session is unchanged.
///
/// Returns `ITEM`, or `WAITS` if none is on its way; then `bytes` is unchanged.
#[unsafe(no_mangle)]
pub extern "C" fn neli_c_session_outgoing<'r>(
    session: &'r mut NeliSession,
    bytes: &mut NeliBytes<'r>,
) -> i32
    ensures* same { sem 𝓛 (IsLeft session.entry) }
    ensures closed { session.old.place.value ≡ None → (result ≡ state) × (bytes.new ≡ bytes.old) }
    ensures open { IfSome session.old.place.value
        (λ s. LendsOutgoing result s bytes.old bytes.new) }
{
    lend_outgoing(session, bytes).code
}

/// Lends the next item of a reader.
fn lend_next<'r>(
    session: &'r mut NeliSession,
    reader: u32,
    number: u32,
    lent: &mut NeliLent<'r>,
) -> Lending<'r>
    ensures* same { sem 𝓛 (IsLeft session.entry) }
    ensures closed { session.old.place.value ≡ None
        → (result.code ≡ state) × (lent.new ≡ lent.old) }
    ensures open { IfSome session.old.place.value
        (λ s. LendsNext result.code reader number s lent.old lent.new) }
{
    let code = match session.lend() {
        Some(held) => reading::lend(held, reader, number, lent),
        None => STATE,
    };
    Lending {
        code,
        bytes: lent.bytes,
    }
}

/// Lends the next item of a reader of `enum neli_reader`, where the session keeps it, until the next call of this
/// session. The number is the request's. It takes no memory, and the session is unchanged: the item stays the next one
/// until `neli_c_session_pass`.
///
/// Returns `ITEM`; `KERNEL_ERROR` for an error message of a request with another code than 0, which `lent` has too;
/// `LINK` for a loss, whose errno is in `lent`: by a fault of the link, or of a request that was not sent; `SHORT` for one
/// by a datagram that could not be read to its end; `OK` at the end; `WAITS`; `HANDLE` if nobody reads here. But for the
/// error, `lent` is unchanged without `ITEM` or `KERNEL_ERROR`.
#[unsafe(no_mangle)]
pub extern "C" fn neli_c_session_next<'r>(
    session: &'r mut NeliSession,
    reader: u32,
    number: u32,
    lent: &mut NeliLent<'r>,
) -> i32
    ensures* same { sem 𝓛 (IsLeft session.entry) }
    ensures closed { session.old.place.value ≡ None → (result ≡ state) × (lent.new ≡ lent.old) }
    ensures open { IfSome session.old.place.value
        (λ s. LendsNext result reader number s lent.old lent.new) }
{
    lend_next(session, reader, number, lent).code
}
