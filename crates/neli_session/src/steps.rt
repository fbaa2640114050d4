//! Each call of a session is a step of a history: what the laws say of whole lists of calls they say of these calls.

ghost use Rattle.std.specs.Prelude.{ℕ, List, None, Some, IfErr, OnErr, OnOk, take};
ghost use Rattle.neli_session.specs.Histories.{Ask, Close, CloseMulticast, Fault, IsNew, IsStep, NotSent, Outgoing};
ghost use Rattle.neli_session.specs.Histories.{PassAnswer, PassMulticast, PassUnasked, Quiet, Receive, Send, Sent};
ghost use Rattle.neli_session.specs.Sends.{next_of};

use crate::{Answering, SendError, Session, Untaken};
use neli_consts::NlmF;
use neli_consts_system::NlFamily;
use neli_wire::NoMemory;
use std::alloc::Global;

/// [`Session::new`] makes a session from which histories begin.
pub fn new(alloc: Global, protocol: NlFamily, port: u32, keeps_unasked: bool) -> Session
    ensures { IsNew result }
{
    Session::new(alloc, protocol, port, keeps_unasked)
}

/// [`Session::send`] as a step; a refusal changes nothing.
pub fn send(session: &mut Session, requests: &[u8]) -> Result<(), SendError>
    ensures sent { OnOk result (IsStep (Send None requests.now) session.old session.new) }
    ensures refused { OnErr result (IsStep Ask session.old session.new) }
{
    session.send(requests)
}

/// [`Session::send_expecting`] as a step; a refusal changes nothing.
pub fn send_expecting(
    session: &mut Session,
    requests: &[u8],
    answering: Answering,
) -> Result<(), SendError>
    ensures sent { OnOk result
        (IsStep (Send (Some answering) requests.now) session.old session.new) }
    ensures refused { OnErr result (IsStep Ask session.old session.new) }
{
    session.send_expecting(requests, answering)
}

/// [`Session::request`] as a step; a refusal changes nothing.
pub fn request(
    session: &mut Session,
    nl_type: u16,
    flags: NlmF,
    body: &[u8],
) -> Result<u32, SendError>
    ensures sent { OnOk result
        ((bytes : List ℕ) × IsStep (Send None bytes) session.old session.new) }
    ensures refused { OnErr result (IsStep Ask session.old session.new) }
{
    session.request(nl_type, flags, body)
}

/// [`Session::take_number`] as a step.
pub fn take_number(session: &mut Session) -> Option<u32>
    ensures { IsStep Ask session.old session.new }
{
    session.take_number()
}

/// [`Session::set_number`] as a step.
pub fn set_number(session: &mut Session, number: u32)
    ensures { IsStep Ask session.old session.new }
{
    session.set_number(number);
}

/// [`Session::next_outgoing`] as a step.
pub fn next_outgoing(session: &mut Session) -> bool
    ensures { IsStep (Outgoing (next_of session.old)) session.old session.new }
{
    session.next_outgoing()
}

/// [`Session::sent`] as a step.
pub fn sent(session: &mut Session)
    ensures { IsStep Sent session.old session.new }
{
    session.sent();
}

/// [`Session::not_sent`] as a step.
pub fn not_sent(session: &mut Session, errno: i32)
    ensures { IsStep (NotSent errno) session.old session.new }
{
    session.not_sent(errno);
}

/// [`Session::receive`] as a step; where memory runs out, of the first bytes of the datagram.
pub fn receive(
    session: &mut Session,
    datagram: &[u8],
    group: u32,
    is_joined: bool,
) -> Result<(), Untaken>
    ensures received { OnOk result
        (IsStep (Receive group is_joined datagram.now) session.old session.new) }
    ensures part { IfErr result (λ u. IsStep (Receive group is_joined (take u.taken datagram.now))
        session.old session.new) }
{
    session.receive(datagram, group, is_joined)
}

/// [`Session::fault`] as a step; a refusal changes nothing.
pub fn fault(session: &mut Session, errno: i32) -> Result<(), NoMemory>
    ensures lost { OnOk result (IsStep (Fault errno) session.old session.new) }
    ensures refused { OnErr result (IsStep Ask session.old session.new) }
{
    session.fault(errno)
}

/// [`Session::quiet`] as a step.
pub fn quiet(session: &mut Session)
    ensures { IsStep Quiet session.old session.new }
{
    session.quiet();
}

/// [`Session::pass_answer`] as a step.
pub fn pass_answer(session: &mut Session, number: u32)
    ensures { IsStep (PassAnswer number) session.old session.new }
{
    session.pass_answer(number);
}

/// [`Session::pass_multicast`] as a step.
pub fn pass_multicast(session: &mut Session)
    ensures { IsStep PassMulticast session.old session.new }
{
    session.pass_multicast();
}

/// [`Session::pass_unasked`] as a step.
pub fn pass_unasked(session: &mut Session)
    ensures { IsStep PassUnasked session.old session.new }
{
    session.pass_unasked();
}

/// [`Session::close`] as a step.
pub fn close(session: &mut Session, number: u32)
    ensures { IsStep (Close number) session.old session.new }
{
    session.close(number);
}

/// [`Session::close_multicast`] as a step.
pub fn close_multicast(session: &mut Session)
    ensures { IsStep CloseMulticast session.old session.new }
{
    session.close_multicast();
}
