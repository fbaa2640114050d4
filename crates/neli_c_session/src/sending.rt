//! What is sent.

ghost use Rattle.std.specs.Prelude.{◌≡◌, None, Some};
ghost use Rattle.neli_reader.specs.Headers.{flags_of};
ghost use Rattle.neli_c_session.specs.Calls.{Chooses, IsNew, IsSent, IsUnsent, Queues, QueuesAs, SendsRequest};
ghost use Rattle.neli_c_session.specs.Calls.{SetsNumber, TakesNumber, answering_in};

use crate::outcome::of_refusal;
use neli_answers::Answering;
use neli_c_parts::code::{IN_USE, ITEM, KIND, OK, WAITS};
use neli_c_parts::expecting::{SILENCE, of_number};
use neli_consts::NlmF;
use neli_consts_system::NlFamily;
use neli_session::Session;
use neli_wire::Constant;
use std::alloc::Global;

/// The way to answer that has this number, if one has.
fn answering_in(number: u32) -> Option<Answering>
    ensures { result ≡ answering_in number }
{
    if number > SILENCE {
        return None;
    }
    Some(of_number(number))
}

/// A session of a socket of this protocol with this port, which keeps what answers no request if `keeps_unasked`.
pub fn opened(alloc: Global, protocol: NlFamily, port: u32, keeps_unasked: bool) -> Session
    ensures { IsNew protocol port keeps_unasked result }
{
    Session::new(alloc, protocol, port, keeps_unasked)
}

/// Sends a request of this type with these flags and REQUEST, whose payload is this body; `number` is its number.
pub fn send(session: &mut Session, nl_type: u16, flags: u16, body: &[u8], number: &mut u32) -> i32
    ensures { SendsRequest result nl_type (flags_of flags) body.now session.old session.new number.old number.new }
{
    match session.request(nl_type, NlmF::from_wire(flags), body) {
        Ok(taken) => {
            *number = taken;
            OK
        }
        Err(error) => of_refusal(error),
    }
}

/// Sends whole messages as one datagram.
pub fn send_all(session: &mut Session, requests: &[u8]) -> i32
    ensures { Queues result None requests.now session.old session.new }
{
    match session.send(requests) {
        Ok(()) => OK,
        Err(error) => of_refusal(error),
    }
}

/// Sends whole messages that are answered so.
fn send_as(session: &mut Session, answering: Answering, requests: &[u8]) -> i32
    ensures { Queues result (Some answering) requests.now session.old session.new }
{
    match session.send_expecting(requests, answering) {
        Ok(()) => OK,
        Err(error) => of_refusal(error),
    }
}

/// Sends whole messages that are answered as this number says.
pub fn send_expecting(session: &mut Session, answering: u32, requests: &[u8]) -> i32
    ensures { QueuesAs result (answering_in answering) requests.now session.old session.new }
{
    match answering_in(answering) {
        Some(answering) => send_as(session, answering, requests),
        None => KIND,
    }
}

/// Takes a sequence number that is not in use.
pub fn take_number(session: &mut Session, number: &mut u32) -> i32
    ensures { TakesNumber result session.old session.new number.old number.new }
{
    match session.take_number() {
        Some(taken) => {
            *number = taken;
            OK
        }
        None => IN_USE,
    }
}

/// Sets the sequence number to try first.
pub fn set_number(session: &mut Session, number: u32)
    ensures { SetsNumber number session.old session.new }
{
    session.set_number(number);
}

/// Chooses the datagram to send next, if none is on its way; whether one is then.
pub fn choose(session: &mut Session) -> i32
    ensures { Chooses result session.old session.new }
{
    if session.next_outgoing() { ITEM } else { WAITS }
}

/// Notes that the link has sent what is on its way.
pub fn sent(session: &mut Session)
    ensures { IsSent session.old session.new }
{
    session.sent();
}

/// Notes that the link has not sent it.
pub fn not_sent(session: &mut Session, errno: i32)
    ensures { IsUnsent errno session.old session.new }
{
    session.not_sent(errno);
}
