//! What is sent.

ghost use Rattle.std.specs.Prelude.{◌≡◌, ◌<◌, ◌&&◌, ℕ, [], false, None, Some, if◌then◌else◌, IfErr, IfOk, IfSome, IsErrOf, IsNone, OnErr, OnOk};
ghost use Rattle.std.specs.Prelude.{is_some, option_map};
ghost use Rattle.neli_session.specs.Readiness.{line_among};
ghost use Rattle.neli_session.specs.Sessions.{among, at, when};
ghost use Rattle.neli_session.specs.Mails.{answers_at_once, dumps_of, entries_of, first_of, numbers_in, on_its_way, request_length};
ghost use Rattle.neli_session.specs.Mails.{running_with, still_waiting};
ghost use Rattle.neli_session.specs.Sends.{Adds, IsFirstFree, IsQueued, IsRequested, NothingQueued, RefusesRequest, RefusesSend, SameBesides};
ghost use Rattle.neli_session.specs.Sends.{SameNames, SameMails, SameReaders, ends_now, is_idle, next_of, number_after, runs_now};
ghost use Rattle.neli_session.specs.Words.{send_text};

use crate::Session;
use crate::change::Change;
use crate::entry::{Entry, dump_in, entries_in};
use crate::frame::frame;
use crate::outbox::{Mail, post, take_next, unpost};
use crate::requests::Unadded;
use neli_answers::{Answering, answers_at_once};
use neli_consts::NlmF;
use std::error::Error;
use std::fmt;

/// Why requests are not sent.
#[derive(Clone, Copy, Debug, PartialEq, Eq)]
pub enum SendError {
    /// The bytes are not one or more whole messages.
    Unreadable,
    /// Several of them are answered by dumps. The kernel runs one at a time and refuses the others with `EBUSY`.
    TwoDumps,
    /// This sequence number is in use, or several of them have it.
    InUse(u32),
    /// No sequence number is free.
    NoNumber,
    /// The length of the request exceeds 32 bits.
    Length,
    /// Memory ran out.
    Memory,
}

impl fmt::Display for SendError {
    ghost output = { send_text };

    fn fmt<W: fmt::Write>(&self, f: &mut fmt::Formatter<W>) -> fmt::Result {
        match self {
            SendError::Unreadable => write!(f, "Not one or more whole messages"),
            SendError::TwoDumps => {
                write!(f, "Several requests of a datagram are answered by dumps")
            }
            SendError::InUse(number) => write!(f, "Sequence number {number} is in use"),
            SendError::NoNumber => write!(f, "No sequence number is free"),
            SendError::Length => write!(f, "Length does not fit its field"),
            SendError::Memory => write!(f, "Out of memory"),
        }
    }
}

impl Error for SendError {}

impl Session {
    /// Whether a dump runs: the one that went out last is awaited.
    fn runs(&self) -> bool
        ensures { result ≡ runs_now self.now.running (at self.now.requests) }
    {
        let Some(number) = self.running else {
            return false;
        };
        match self.requests.get(number) {
            None => false,
            Some(request) => request.is_running(),
        }
    }

    /// Queues a datagram of these requests, of which this one is answered by a dump.
    fn queue(
        &mut self,
        requests: &[u8],
        entries: &[Entry],
        dump: Option<u32>,
    ) -> Result<(), SendError>
        requires dump { dump ≡ first_of (dumps_of entries.now) }
        ensures added { OnOk result (Adds requests.now entries.now self.old self.new) }
        ensures in_use { IfErr result (RefusesSend requests.now entries.now self.old) }
        ensures unchanged { OnErr result (NothingQueued self.old self.new) }
        ensures line { self.new.requests.line ≡ self.old.requests.line }
        ensures rest { SameBesides self.old self.new }
    {
        let Ok(mail) = Mail::new(self.alloc, requests, entries, dump) else {
            return Err(SendError::Memory);
        };
        if post(&mut self.outbox, &mut self.awaited, mail).is_err() {
            return Err(SendError::Memory);
        }
        match self.requests.add_all(self.alloc, entries) {
            Ok(()) => Ok(()),
            Err(refusal) => {
                unpost(&mut self.outbox, &mut self.awaited, entries.len());
                match refusal {
                    Unadded::InUse(number) => Err(SendError::InUse(number)),
                    Unadded::Memory => Err(SendError::Memory),
                }
            }
        }
    }

    /// Queues the requests that these bytes are, answered as the caller says or as the table does.
    fn send_by(&mut self, requests: &[u8], by: Option<Answering>) -> Result<(), SendError>
        ensures queued { OnOk result (IsQueued requests.now
            (entries_of self.old.protocol by requests.now) self.old self.new) }
        ensures refused { IfErr result (RefusesSend requests.now
            (entries_of self.old.protocol by requests.now) self.old) }
        ensures unchanged { OnErr result (NothingQueued self.old self.new) }
        ensures line { self.new.requests.line ≡ self.old.requests.line }
        ensures rest { SameBesides self.old self.new }
    {
        match entries_in(self.alloc, self.protocol, by, requests) {
            Err(_) => Err(SendError::Memory),
            Ok(None) => Err(SendError::Unreadable),
            Ok(Some(entries)) => {
                if entries.is_empty() {
                    return Err(SendError::Unreadable);
                }
                match dump_in(&entries) {
                    Err(_) => Err(SendError::TwoDumps),
                    Ok(dump) => self.queue(requests, &entries, dump),
                }
            }
        }
    }

    /// Sends requests: the bytes of one or more whole messages, as one datagram, each with a sequence number of its own
    /// and of this session's protocol. They go out by [`Session::next_outgoing`]; how each is answered is decided by the table
    /// of neli_answers.
    ///
    /// Refused as `Unreadable` if the bytes are not whole messages, or none; as `TwoDumps`; as `InUse` with the first
    /// number that is in use; or as `Memory`. Then nothing changes.
    pub fn send(&mut self, requests: &[u8]) -> Result<(), SendError>
        ensures queued { OnOk result (IsQueued requests.now
            (entries_of self.old.protocol None requests.now) self.old self.new) }
        ensures refused { IfErr result (RefusesSend requests.now
            (entries_of self.old.protocol None requests.now) self.old) }
        ensures unchanged { OnErr result (NothingQueued self.old self.new) }
        ensures line { self.new.requests.line ≡ self.old.requests.line }
        ensures rest { SameBesides self.old self.new }
    {
        self.send_by(requests, None)
    }

    /// Sends a request of this type with these flags and `NLM_F_REQUEST`, whose payload is this body, and returns its
    /// sequence number, which [`Session::take_number`] takes; else as [`Session::send`].
    ///
    /// Refused as `NoNumber`, as `Length`, or as `send` refuses the message. Then nothing is sent.
    pub fn request(&mut self, nl_type: u16, flags: NlmF, body: &[u8]) -> Result<u32, SendError>
        ensures sent { IfOk result
            (λ n. IsRequested nl_type flags body.now n self.old self.new) }
        ensures long { IsErrOf result SendError.Length → 4294967295 < request_length body.now }
        ensures refused { IfErr result (RefusesRequest nl_type flags body.now self.old) }
        ensures unchanged { OnErr result (NothingQueued self.old self.new) }
        ensures line { self.new.requests.line ≡ self.old.requests.line }
        ensures readers { SameReaders self.old self.new }
        ensures leaving { self.new.leaving ≡ self.old.leaving }
        ensures running { self.new.running ≡ self.old.running }
        ensures congested { self.new.is_congested ≡ self.old.is_congested }
        ensures port { self.new.port ≡ self.old.port }
        ensures protocol { self.new.protocol ≡ self.old.protocol }
    {
        let Some(number) = self.take_number() else {
            return Err(SendError::NoNumber);
        };
        match frame(self.alloc, self.port, number, nl_type, flags, body) {
            Err(_) => Err(SendError::Memory),
            Ok(None) => Err(SendError::Length),
            Ok(Some(bytes)) => match self.send(&bytes) {
                Ok(()) => Ok(number),
                Err(error) => Err(error),
            },
        }
    }

    /// Sends requests that are answered so: of a protocol whose rules the caller knows. Else as [`Session::send`].
    pub fn send_expecting(&mut self, requests: &[u8], answering: Answering) -> Result<(), SendError>
        ensures queued { OnOk result (IsQueued requests.now
            (entries_of self.old.protocol (Some answering) requests.now) self.old self.new) }
        ensures refused { IfErr result (RefusesSend requests.now
            (entries_of self.old.protocol (Some answering) requests.now) self.old) }
        ensures unchanged { OnErr result (NothingQueued self.old self.new) }
        ensures line { self.new.requests.line ≡ self.old.requests.line }
        ensures rest { SameBesides self.old self.new }
    {
        self.send_by(requests, Some(answering))
    }

    /// Chooses the datagram to send next, which [`Session::outgoing`] lends then, and returns whether there is one: that on
    /// its way, until [`Session::sent`] or [`Session::not_sent`] says what became of it, or else the first that waits and
    /// may go out. While a dump runs no other goes out, and after the fault `ENOBUFS` nothing does until the link was seen
    /// empty, for the kernel drops what comes meanwhile. It takes no memory.
    pub fn next_outgoing(&mut self) -> bool
        ensures chosen { result ≡ is_some self.new.leaving }
        ensures leaving { self.new.leaving ≡ on_its_way self.old.leaving (next_of self.old) }
        ensures outbox { self.new.outbox.items ≡ still_waiting (next_of self.old)
            (runs_now self.old.running (at self.old.requests)) self.old.outbox.items }
        ensures running { self.new.running ≡ running_with (next_of self.old) self.old.running }
        ensures requests { (q : ℕ) → at self.new.requests q
            ≡ among (numbers_in (next_of self.old)) (when Change.Leave) q (at self.old.requests q) }
        ensures line { self.new.requests.line
            ≡ line_among (numbers_in (next_of self.old)) (when Change.Leave) (at self.old.requests)
            self.old.requests.line }
        ensures awaited { self.new.awaited ≡ self.old.awaited }
        ensures names { SameNames self.old self.new }
        ensures readers { SameReaders self.old self.new }
        ensures congested { self.new.is_congested ≡ self.old.is_congested }
    {
        if self.leaving.is_some() {
            return true;
        }
        if self.is_congested {
            return false;
        }
        let runs = self.runs();
        let Some(mail) = take_next(&mut self.outbox, runs) else {
            return false;
        };
        if let Some(number) = mail.dump() {
            self.running = Some(number);
        }
        self.requests.change_all(mail.numbers(), Change::Leave);
        self.leaving = Some(mail);
        true
    }

    /// Lends the datagram on its way; none if [`Session::next_outgoing`] chose none.
    pub fn outgoing(&self) -> Option<&[u8]>
        ensures lent { IfSome result (λ s.
            option_map (λ p. p.bytes) self.now.leaving ≡ Some s.now) }
        ensures none { IsNone result → self.now.leaving ≡ None }
    {
        match &self.leaving {
            None => None,
            Some(mail) => Some(mail.bytes()),
        }
    }

    /// Notes what became of what is on its way.
    fn gone(&mut self, by: Change)
        ensures leaving { self.new.leaving ≡ None }
        ensures requests { (q : ℕ) → at self.new.requests q
            ≡ among (numbers_in self.old.leaving) (when by) q (at self.old.requests q) }
        ensures line { self.new.requests.line
            ≡ line_among (numbers_in self.old.leaving) (when by) (at self.old.requests)
            self.old.requests.line }
        ensures outbox { self.new.outbox ≡ self.old.outbox }
        ensures running { self.new.running ≡ self.old.running }
        ensures awaited { self.new.awaited ≡ self.old.awaited }
        ensures names { SameNames self.old self.new }
        ensures readers { SameReaders self.old self.new }
        ensures congested { self.new.is_congested ≡ self.old.is_congested }
    {
        if let Some(mail) = self.leaving.take() {
            self.requests.change_all(mail.numbers(), by);
        }
    }

    /// Notes that the link has sent what [`Session::outgoing`] lends. If it lends nothing, nothing changes.
    pub fn sent(&mut self)
        ensures leaving { self.new.leaving ≡ None }
        ensures requests { (q : ℕ) → at self.new.requests q
            ≡ among (numbers_in self.old.leaving) (when Change.Sent) q (at self.old.requests q) }
        ensures line { self.new.requests.line
            ≡ line_among (numbers_in self.old.leaving) (when Change.Sent) (at self.old.requests)
            self.old.requests.line }
        ensures outbox { self.new.outbox ≡ self.old.outbox }
        ensures running { self.new.running ≡ self.old.running }
        ensures awaited { self.new.awaited ≡ self.old.awaited }
        ensures names { SameNames self.old self.new }
        ensures readers { SameReaders self.old self.new }
        ensures congested { self.new.is_congested ≡ self.old.is_congested }
    {
        self.gone(Change::Sent);
    }

    /// Notes that the link has not sent it: its errno, as 1 for `EPERM`. Its requests read that as a loss, and nothing
    /// comes for them.
    pub fn not_sent(&mut self, errno: i32)
        ensures leaving { self.new.leaving ≡ None }
        ensures requests { (q : ℕ) → at self.new.requests q
            ≡ among (numbers_in self.old.leaving) (when (Change.Unsent errno)) q
            (at self.old.requests q) }
        ensures line { self.new.requests.line
            ≡ line_among (numbers_in self.old.leaving) (when (Change.Unsent errno))
            (at self.old.requests) self.old.requests.line }
        ensures outbox { self.new.outbox ≡ self.old.outbox }
        ensures running { self.new.running ≡ self.old.running }
        ensures awaited { self.new.awaited ≡ self.old.awaited }
        ensures names { SameNames self.old self.new }
        ensures readers { SameReaders self.old self.new }
        ensures congested { self.new.is_congested ≡ self.old.is_congested }
    {
        self.gone(Change::Unsent(errno));
    }

    /// Notes that the link was seen empty. The kernel answers while a request is sent, and goes on with a dump whenever the
    /// link is received from, so nothing more comes for what was sent before; but where it may answer later, as in audit
    /// or another process's protocol, answers are still awaited.
    pub fn quiet(&mut self)
        ensures requests { (q : ℕ) → at self.new.requests q
            ≡ among (ends_now self.old) (when Change.Settle) q (at self.old.requests q) }
        ensures line { self.new.requests.line
            ≡ line_among (ends_now self.old) (when Change.Settle) (at self.old.requests)
            self.old.requests.line }
        ensures awaited { self.new.awaited.items
            ≡ (if answers_at_once self.old.protocol && is_idle self.old then []
            else self.old.awaited.items) }
        ensures congested { self.new.is_congested ≡ false }
        ensures names { SameNames self.old self.new }
        ensures mails { SameMails self.old self.new }
        ensures readers { SameReaders self.old self.new }
    {
        self.is_congested = false;
        if !answers_at_once(self.protocol) {
            return;
        }
        self.requests.change_all(&self.awaited, Change::Settle);
        if self.outbox.is_empty() && self.leaving.is_none() {
            self.awaited.clear();
        }
    }

    /// Takes a sequence number that is not in use, the first from the one after that which was taken last, at first 0 or
    /// as [`Session::set_number`] says; or none, only if all numbers are in use.
    pub fn take_number(&mut self) -> Option<u32>
        ensures free { IfSome result (λ n. at self.old.requests n ≡ None) }
        ensures first { IsFirstFree (at self.old.requests) self.old.next_number result }
        ensures number { IfSome result (λ n. self.new.next_number ≡ number_after n 1) }
        ensures requests { self.new.requests ≡ self.old.requests }
        ensures readers { SameReaders self.old self.new }
        ensures mails { SameMails self.old self.new }
        ensures awaited { self.new.awaited ≡ self.old.awaited }
        ensures congested { self.new.is_congested ≡ self.old.is_congested }
        ensures port { self.new.port ≡ self.old.port }
        ensures protocol { self.new.protocol ≡ self.old.protocol }
    {
        let _first = self.next_number;
        let mut tries = 0;
        while tries <= self.requests.len() {
            let number = self.next_number;
            self.next_number = number.wrapping_add(1);
            if !self.is_in_use(number) {
                return Some(number);
            }
            tries += 1;
        }
        None
    }

    /// Sets the sequence number to try first for the next request.
    pub fn set_number(&mut self, number: u32)
        ensures number { self.new.next_number ≡ number }
        ensures requests { self.new.requests ≡ self.old.requests }
        ensures readers { SameReaders self.old self.new }
        ensures mails { SameMails self.old self.new }
        ensures awaited { self.new.awaited ≡ self.old.awaited }
        ensures congested { self.new.is_congested ≡ self.old.is_congested }
        ensures port { self.new.port ≡ self.old.port }
        ensures protocol { self.new.protocol ≡ self.old.protocol }
    {
        self.next_number = number;
    }
}
