//! What is read.

ghost use Rattle.std.specs.Prelude.{◌≡◌, if◌then◌else◌};
ghost use Rattle.neli_c_parts.specs.Codes.{item, waits};
ghost use Rattle.neli_lent.specs.Messages.{message_view};
ghost use Rattle.neli_c_session.specs.Calls.{Closes, ClosesMulticast};
ghost use Rattle.neli_c_session.specs.Reads.{LendsNext, LendsOutgoing, PassesNext, Stores, TellsVerdict, byte_of};
ghost use Rattle.neli_c_session.specs.Reads.{TellsReady, error_code, is_ready_of, next_code};
ghost use Rattle.neli_c_session.specs.Reads.{reader_of, shown_error};

use crate::outcome::{errno_of, of_loss, of_verdict, verdict_error};
use neli_c_parts::code::{HANDLE, ITEM, KERNEL_ERROR, OK, WAITS};
use neli_c_parts::lending::{NeliLent, stored};
use neli_c_parts::session::NeliVerdict;
use neli_consts::NLMSG_ERROR;
use neli_lent::LentMessage;
use neli_session::{Next, Reader, Session};

/// The reader of a request's answer.
pub const REQUEST: u32 = 0;
/// The reader of multicast.
pub const MULTICAST: u32 = 1;
/// The reader of what nobody asked for.
pub const UNASKED: u32 = 2;

/// A datagram that is lent: its bytes where the session keeps them.
#[repr(C)]
#[derive(Clone, Copy)]
pub struct NeliBytes<'r> {
    pub bytes: &'r [u8],
}

/// The reader of this kind, and with this sequence number if it is a request's; none of another kind.
fn reader_of(kind: u32, number: u32) -> Option<Reader>
    ensures { result ≡ reader_of kind number }
{
    match kind {
        REQUEST => Some(Reader::Request(number)),
        MULTICAST => Some(Reader::Multicast),
        UNASKED => Some(Reader::Unasked),
        _ => None,
    }
}

/// The code of an error message; 0 of another one, and of one that is too short.
fn error_code(message: &LentMessage<'_, u16>) -> i32
    ensures { result ≡ error_code (message_view message.now) }
{
    match *message.nl_type() {
        NLMSG_ERROR => message.code(),
        _ => 0,
    }
}

/// The code of the error that a message is, as an answer to a request; what another reader reads is none.
fn shown_error(message: &LentMessage<'_, u16>, is_answer: bool) -> i32
    ensures { result ≡ shown_error is_answer (message_view message.now) }
{
    if is_answer { error_code(message) } else { 0 }
}

/// Stores an item of a request, or of another reader, and returns its code.
fn store<'r>(next: Next<'r>, is_answer: bool, lent: &mut NeliLent<'r>) -> i32
    ensures code { result ≡ next_code is_answer next.entry }
    ensures stored { Stores is_answer next.entry lent.old lent.new }
{
    match next {
        Next::Message(message) => {
            let error = shown_error(&message, is_answer);
            *lent = stored(&message, error);
            if error == 0 { ITEM } else { KERNEL_ERROR }
        }
        Next::Loss(loss) => {
            lent.error = errno_of(loss);
            of_loss(loss)
        }
        Next::End => OK,
        Next::Waits => WAITS,
        Next::Closed => HANDLE,
    }
}

/// Lends the next item of a reader, which stays the next one.
pub fn lend<'r>(session: &'r Session, kind: u32, number: u32, lent: &mut NeliLent<'r>) -> i32
    ensures { LendsNext result kind number session.now lent.old lent.new }
{
    let Some(reader) = reader_of(kind, number) else {
        return HANDLE;
    };
    store(session.next(reader), kind == REQUEST, lent)
}

/// Goes past the next item of a reader, if there is one.
pub fn pass(session: &mut Session, kind: u32, number: u32)
    ensures { PassesNext kind number session.old session.new }
{
    match reader_of(kind, number) {
        Some(Reader::Request(number)) => session.pass_answer(number),
        Some(Reader::Multicast) => session.pass_multicast(),
        Some(Reader::Unasked) => session.pass_unasked(),
        None => {}
    }
}

/// The number of the first request in line, of those that have something to read.
pub fn next_ready(session: &Session, number: &mut u32) -> i32
    ensures { TellsReady result session.now number.old number.new }
{
    match session.next_ready() {
        Some(ready) => {
            *number = ready;
            ITEM
        }
        None => WAITS,
    }
}

/// Whether a reader of this kind has something to read.
pub fn is_ready(session: &Session, kind: u32, number: u32) -> i32
    ensures { result ≡ (if is_ready_of (reader_of kind number) session.now then item else waits) }
{
    let is_ready = match reader_of(kind, number) {
        Some(reader) => session.is_ready(reader),
        None => false,
    };
    if is_ready { ITEM } else { WAITS }
}

/// Lends the datagram on its way.
pub fn lend_outgoing<'r>(session: &'r Session, bytes: &mut NeliBytes<'r>) -> i32
    ensures { LendsOutgoing result session.now bytes.old bytes.new }
{
    match session.outgoing() {
        Some(lent) => {
            bytes.bytes = lent;
            ITEM
        }
        None => WAITS,
    }
}

/// A flag as a byte.
fn byte_of(flag: bool) -> u8
    ensures { result ≡ byte_of flag }
{
    if flag { 1 } else { 0 }
}

/// The verdict on the answer to a request.
pub fn verdict(session: &Session, number: u32, verdict: &mut NeliVerdict) -> i32
    ensures { TellsVerdict result number session.now verdict.old verdict.new }
{
    let Some(stands) = session.verdict(number) else {
        return HANDLE;
    };
    *verdict = NeliVerdict {
        error: verdict_error(stands),
        filtered: byte_of(session.is_filtered(number)),
    };
    of_verdict(stands)
}

/// Closes a request.
pub fn close(session: &mut Session, number: u32)
    ensures { Closes number session.old session.new }
{
    session.close(number);
}

/// Closes multicast.
pub fn close_multicast(session: &mut Session)
    ensures { ClosesMulticast session.old session.new }
{
    session.close_multicast();
}
