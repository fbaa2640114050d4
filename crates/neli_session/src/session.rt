//! The session.

ghost use Rattle.std.specs.Prelude.{◌≡◌, ◌≤◌, ◌<◌, ◌∷◌, ℕ, IfOk, IfSome, IsNone, length, take, true, false, Err, None, Some, is_some, [], OnErr, OnOk, not, ◌==◌, ◌&&◌};
ghost use Rattle.neli_lent.specs.Messages.{message_view};
ghost use Rattle.neli_session.specs.Messages.{IsMessage, IsWhole, messages_of};
ghost use Rattle.neli_session.specs.Readiness.{line_after, line_after_all, line_among};
ghost use Rattle.neli_session.specs.Sessions.{HaveCome, after, among, at, gains, is_heard, is_own, is_unasked, kept_queue, share, when};
ghost use Rattle.neli_session.specs.Sends.{SameSending};

use crate::Loss;
use crate::change::Change;
use crate::outbox::Mail;
use crate::queue::Queue;
use crate::requests::Requests;
use neli_consts_system::NlFamily;
use neli_lent::LentMessage;
use neli_wire::NoMemory;
use std::alloc::Global;

/// A session over one socket: its requests, and what its readers have not read yet.
#[derive(Drop)]
pub struct Session {
    pub(crate) alloc: Global,
    pub(crate) protocol: NlFamily,
    pub(crate) port: u32,
    /// The number to try first for a request.
    pub(crate) next_number: u32,
    /// The requests whose numbers are in use.
    pub(crate) requests: Requests,
    /// The numbers of the requests that are queued or awaited, and maybe of others.
    pub(crate) awaited: Vec<u32>,
    /// The datagrams that wait to be sent.
    pub(crate) outbox: Vec<Mail>,
    /// The datagram that the link sends.
    pub(crate) leaving: Option<Mail>,
    /// The number of the dump that went out last.
    pub(crate) running: Option<u32>,
    /// Whether the link has dropped something, and was not seen empty since.
    pub(crate) is_congested: bool,
    /// What waits for the reader of multicast; none where it is closed.
    pub(crate) multicast: Option<Queue>,
    /// What waits for the reader of messages that answer no request; none where they are not kept.
    pub(crate) unasked: Option<Queue>,
}

/// Appends a message to a queue, if it is there. Refused only if memory runs out; then nothing changes.
fn add(
    queue: &mut Option<Queue>,
    message: &LentMessage<'_, u16>,
    span: &[u8],
) -> Result<(), NoMemory>
    requires { IsMessage span.now (message_view message.now) }
    ensures added { OnOk result
        (queue.new ≡ gains (share true (message_view message.now)) queue.old) }
    ensures unchanged { OnErr result (queue.new ≡ queue.old) }
{
    match queue {
        None => Ok(()),
        Some(queue) => queue.add(span),
    }
}

/// Appends a loss to the queues that are there. Refused only if memory runs out; then nothing changes.
fn lose_to(one: &mut Option<Queue>, other: &mut Option<Queue>, loss: Loss) -> Result<(), NoMemory>
    ensures one { OnOk result (one.new ≡ gains (Err loss ∷ []) one.old) }
    ensures other { OnOk result (other.new ≡ gains (Err loss ∷ []) other.old) }
    ensures unchanged { OnErr result ((one.new ≡ one.old) × (other.new ≡ other.old)) }
{
    match one {
        None => match other {
            None => Ok(()),
            Some(other) => other.add_loss(loss),
        },
        Some(one) => match other {
            None => one.add_loss(loss),
            Some(other) => one.add_loss_to_both(other, loss),
        },
    }
}

impl Session {
    /// A session of a socket of this protocol with this port, which keeps what comes to groups, and what answers no
    /// request if `keeps_unasked`. It takes no memory.
    pub fn new(alloc: Global, protocol: NlFamily, port: u32, keeps_unasked: bool) -> Session
        ensures protocol { result.protocol ≡ protocol }
        ensures port { result.port ≡ port }
        ensures number { result.next_number ≡ 0 }
        ensures requests { (q : ℕ) → at result.requests q ≡ None }
        ensures line { result.requests.line ≡ [] }
        ensures awaited { result.awaited.items ≡ [] }
        ensures outbox { result.outbox.items ≡ [] }
        ensures leaving { result.leaving ≡ None }
        ensures running { result.running ≡ None }
        ensures congested { result.is_congested ≡ false }
        ensures multicast { result.multicast ≡ Some [] }
        ensures unasked { result.unasked ≡ kept_queue keeps_unasked }
    {
        let unasked = if keeps_unasked {
            Some(Queue::new(alloc))
        } else {
            None
        };
        Session {
            alloc,
            protocol,
            port,
            next_number: 0,
            requests: Requests::new(alloc),
            awaited: Vec::new(alloc),
            outbox: Vec::new(alloc),
            leaving: None,
            running: None,
            is_congested: false,
            multicast: Some(Queue::new(alloc)),
            unasked,
        }
    }

    /// Whether a sequence number is in use: its request is still to be sent, something may still come for it, or its
    /// answer is still read.
    pub fn is_in_use(&self, number: u32) -> bool
        ensures { result ≡ is_some (at self.now.requests number) }
    {
        self.requests.get(number).is_some()
    }

    /// Closes multicast: nothing of it is kept any more.
    pub fn close_multicast(&mut self)
        ensures multicast { self.new.multicast ≡ None }
        ensures requests { self.new.requests ≡ self.old.requests }
        ensures unasked { self.new.unasked ≡ self.old.unasked }
        ensures sending { SameSending self.old self.new }
    {
        self.multicast = None;
    }

    /// Takes in a message of a group, or of none, which is 0, at the front of bytes, of so many. Where a request takes it,
    /// the run that begins with it is taken in; returns the number of its bytes, and none where the message came alone.
    /// Refused only if memory runs out; then nothing changes.
    pub(crate) fn take_in(
        &mut self,
        group: u32,
        is_joined: bool,
        message: &LentMessage<'_, u16>,
        first: usize,
        bytes: &[u8],
    ) -> Result<Option<usize>, NoMemory>
        requires within { first ≤ length bytes.now }
        requires some { 0 < first }
        requires first { IsMessage (take first bytes.now) (message_view message.now) }
        ensures requests { IfOk result (λ o. IsNone o → (q : ℕ) → at self.new.requests q
            ≡ after self.old.port group (message_view message.now) q (at self.old.requests q)) }
        ensures multicast { IfOk result (λ o. IsNone o → self.new.multicast
            ≡ gains (share (is_heard self.old.port group is_joined (message_view message.now))
            (message_view message.now)) self.old.multicast) }
        ensures unasked { IfOk result (λ o. IsNone o → self.new.unasked
            ≡ gains (share (is_unasked self.old.port group (at self.old.requests)
            (message_view message.now)) (message_view message.now)) self.old.unasked) }
        ensures line { IfOk result (λ o. IsNone o → self.new.requests.line
            ≡ line_after self.old.port group (message_view message.now) (at self.old.requests)
            self.old.requests.line) }
        ensures run { IfOk result (λ o. IfSome o (λ taken. (0 < taken) × (taken ≤ length bytes.now)
            × IsWhole (take taken bytes.now)
            × HaveCome self.old.port group is_joined (messages_of (take taken bytes.now))
            (at self.old.requests) (at self.new.requests) self.old.multicast self.new.multicast
            self.old.unasked self.new.unasked
            × (self.new.requests.line ≡ line_after_all self.old.port group
            (messages_of (take taken bytes.now)) (at self.old.requests) self.old.requests.line))) }
        ensures sending { SameSending self.old self.new }
        ensures unchanged { OnErr result
            (((q : ℕ) → at self.new.requests q ≡ at self.old.requests q)
            × (self.new.requests.line ≡ self.old.requests.line)
            × (self.new.multicast ≡ self.old.multicast) × (self.new.unasked ≡ self.old.unasked)) }
    {
        let is_own = *message.nl_pid() == self.port;
        let is_heard = group != 0 && (!is_own || is_joined);
        if !is_own {
            self.take_in_other(group, message, &bytes[..first])?;
            return Ok(None);
        }
        if !is_heard {
            return self.take_in_own(group, is_joined, message, first, bytes);
        }
        if let Some(multicast) = &mut self.multicast {
            self.requests
                .hear_with(multicast, group, message, &bytes[..first])?;
            return Ok(None);
        }
        self.take_in_own(group, is_joined, message, first, bytes)
    }

    /// The same of a message with the session's port, which multicast does not get.
    fn take_in_own(
        &mut self,
        group: u32,
        is_joined: bool,
        message: &LentMessage<'_, u16>,
        first: usize,
        bytes: &[u8],
    ) -> Result<Option<usize>, NoMemory>
        requires own { is_own self.old.port (message_view message.now) ≡ true }
        requires unheard { (not (group == 0) && is_joined) ≡ true → self.old.multicast ≡ None }
        requires within { first ≤ length bytes.now }
        requires some { 0 < first }
        requires first { IsMessage (take first bytes.now) (message_view message.now) }
        ensures requests { IfOk result (λ o. IsNone o → (q : ℕ) → at self.new.requests q
            ≡ after self.old.port group (message_view message.now) q (at self.old.requests q)) }
        ensures unasked { IfOk result (λ o. IsNone o → self.new.unasked
            ≡ gains (share (is_unasked self.old.port group (at self.old.requests)
            (message_view message.now)) (message_view message.now)) self.old.unasked) }
        ensures line { IfOk result (λ o. IsNone o → self.new.requests.line
            ≡ line_after self.old.port group (message_view message.now) (at self.old.requests)
            self.old.requests.line) }
        ensures run { IfOk result (λ o. IfSome o (λ taken. (0 < taken) × (taken ≤ length bytes.now)
            × IsWhole (take taken bytes.now)
            × HaveCome self.old.port group is_joined (messages_of (take taken bytes.now))
            (at self.old.requests) (at self.new.requests) self.old.multicast self.new.multicast
            self.old.unasked self.new.unasked
            × (self.new.requests.line ≡ line_after_all self.old.port group
            (messages_of (take taken bytes.now)) (at self.old.requests) self.old.requests.line))) }
        ensures multicast { self.new.multicast ≡ self.old.multicast }
        ensures sending { SameSending self.old self.new }
        ensures unchanged { OnErr result
            (((q : ℕ) → at self.new.requests q ≡ at self.old.requests q)
            × (self.new.requests.line ≡ self.old.requests.line)
            × (self.new.unasked ≡ self.old.unasked)) }
    {
        if let Some(taken) = self.requests.hear(group, message, first, bytes)? {
            return Ok(Some(taken));
        }
        if group == 0 {
            add(&mut self.unasked, message, &bytes[..first])?;
        }
        Ok(None)
    }

    /// Notes a loss: the requests that are awaited, and the readers of multicast and of messages that answer no
    /// request, get it. Refused only if memory runs out; then nothing changes.
    pub(crate) fn lose(&mut self, loss: Loss) -> Result<(), NoMemory>
        ensures requests { OnOk result ((q : ℕ) → at self.new.requests q
            ≡ among self.old.awaited.items (when (Change.Lose loss)) q (at self.old.requests q)) }
        ensures line { OnOk result (self.new.requests.line
            ≡ line_among self.old.awaited.items (when (Change.Lose loss)) (at self.old.requests)
            self.old.requests.line) }
        ensures multicast { OnOk result (self.new.multicast
            ≡ gains (Err loss ∷ []) self.old.multicast) }
        ensures unasked { OnOk result (self.new.unasked ≡ gains (Err loss ∷ []) self.old.unasked) }
        ensures sending { SameSending self.old self.new }
        ensures unchanged { OnErr result ((self.new.requests ≡ self.old.requests)
            × (self.new.multicast ≡ self.old.multicast) × (self.new.unasked ≡ self.old.unasked)) }
    {
        lose_to(&mut self.multicast, &mut self.unasked, loss)?;
        self.requests.change_all(&self.awaited, Change::Lose(loss));
        Ok(())
    }

    /// Takes in a message with another port than the session's.
    fn take_in_other(
        &mut self,
        group: u32,
        message: &LentMessage<'_, u16>,
        span: &[u8],
    ) -> Result<(), NoMemory>
        requires { IsMessage span.now (message_view message.now) }
        ensures multicast { OnOk result (self.new.multicast
            ≡ gains (share (not (group == 0)) (message_view message.now)) self.old.multicast) }
        ensures unasked { OnOk result (self.new.unasked
            ≡ gains (share (group == 0) (message_view message.now)) self.old.unasked) }
        ensures requests { self.new.requests ≡ self.old.requests }
        ensures sending { SameSending self.old self.new }
        ensures unchanged { OnErr result ((self.new.multicast ≡ self.old.multicast)
            × (self.new.unasked ≡ self.old.unasked)) }
    {
        if group == 0 {
            add(&mut self.unasked, message, span)
        } else {
            add(&mut self.multicast, message, span)
        }
    }
}
