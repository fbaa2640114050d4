//! What comes from the link.

ghost use Rattle.std.specs.Prelude.{◌≡◌, ◌≤◌, ◌<◌, ◌+◌, ◌∷◌, ◌||◌, ℕ, pos, [], Err, Some, IfErr, OnOk, OnErr, codes, length, take};
ghost use Rattle.std.specs.Ordering.{int_eq};
ghost use Rattle.neli_wire.specs.declared.errors.DeError.{DeError};
ghost use Rattle.neli_lent.specs.Messages.{messages_in};
ghost use Rattle.neli_session.specs.Messages.{IsWhole, messages_of};
ghost use Rattle.neli_session.specs.Readiness.{line_after_all, line_among, line_received};
ghost use Rattle.neli_session.specs.Sends.{SameNames, SameMails, SameSending};
ghost use Rattle.neli_session.specs.Sessions.{HaveCome, HaveComeBeforeLoss, among, at, gains, when};

use crate::change::Change;
use crate::spans::span_at;
use crate::{Loss, Session};
use neli_wire::NoMemory;
use std::error::Error;
use std::fmt;

/// The fault of a link that has dropped something: no buffer space (`ENOBUFS` of `asm-generic/errno.h`).
pub(crate) const ENOBUFS: i32 = 105;

/// Memory ran out within a datagram: its first messages were taken in, those before this place.
#[derive(Clone, Copy, Debug, PartialEq, Eq)]
pub struct Untaken {
    /// The number of bytes that were taken in. Hand in the others again.
    pub taken: usize,
}

impl fmt::Display for Untaken {
    ghost output = { λ _. Some (codes "Out of memory") };

    fn fmt<W: fmt::Write>(&self, f: &mut fmt::Formatter<W>) -> fmt::Result {
        write!(f, "Out of memory")
    }
}

impl Error for Untaken {}

impl Session {
    /// Takes in a datagram of a group, or of none, which is 0; `is_joined` is whether the socket is in that group, whose
    /// name a notification of the session's own change has in any case.
    ///
    /// Refused only if memory runs out; then its first messages are taken in, and the refusal says how many bytes they
    /// have.
    pub fn receive(&mut self, datagram: &[u8], group: u32, is_joined: bool) -> Result<(), Untaken>
        ensures whole { OnOk result (IsWhole datagram.now
            → HaveCome self.old.port group is_joined (messages_of datagram.now)
            (at self.old.requests) (at self.new.requests) self.old.multicast self.new.multicast
            self.old.unasked self.new.unasked) }
        ensures faulty { OnOk result ((e : DeError)
            → (messages_in {K = ℕ} (λ n. n) datagram.now).1 ≡ Some e
            → HaveComeBeforeLoss self.old.port group is_joined (messages_of datagram.now)
            self.old.awaited.items (at self.old.requests) (at self.new.requests)
            self.old.multicast self.new.multicast self.old.unasked self.new.unasked) }
        ensures part { IfErr result (λ u. (u.taken ≤ length datagram.now)
            × IsWhole (take u.taken datagram.now)
            × HaveCome self.old.port group is_joined (messages_of (take u.taken datagram.now))
            (at self.old.requests) (at self.new.requests) self.old.multicast self.new.multicast
            self.old.unasked self.new.unasked) }
        ensures line { OnOk result (self.new.requests.line
            ≡ line_received self.old.port group datagram.now self.old.awaited.items
            (at self.old.requests) self.old.requests.line) }
        ensures line_part { IfErr result (λ u. self.new.requests.line
            ≡ line_after_all self.old.port group (messages_of (take u.taken datagram.now))
            (at self.old.requests) self.old.requests.line) }
        ensures sending { SameSending self.old self.new }
    {
        let mut place = 0;
        while place < datagram.len() {
            let Ok((message, span)) = span_at(datagram, place) else {
                return match self.lose(Loss::Datagram) {
                    Ok(()) => Ok(()),
                    Err(_) => Err(Untaken { taken: place }),
                };
            };
            match self.take_in(group, is_joined, &message, span.len(), &datagram[place..]) {
                Ok(None) => place += span.len(),
                Ok(Some(taken)) => place += taken,
                Err(_) => return Err(Untaken { taken: place }),
            }
        }
        Ok(())
    }

    /// Notes a fault of the link: its errno, as 105 for `ENOBUFS`. Requests that are awaited, and the readers of
    /// multicast and of messages that answer no request, get it as a loss, in its place. After `ENOBUFS` nothing goes out
    /// until the link was seen empty.
    ///
    /// Refused only if memory runs out; then nothing changes.
    pub fn fault(&mut self, errno: i32) -> Result<(), NoMemory>
        ensures requests { OnOk result ((q : ℕ) → at self.new.requests q
            ≡ among self.old.awaited.items (when (Change.Lose (Loss.Link errno))) q
            (at self.old.requests q)) }
        ensures line { OnOk result (self.new.requests.line
            ≡ line_among self.old.awaited.items (when (Change.Lose (Loss.Link errno)))
            (at self.old.requests) self.old.requests.line) }
        ensures multicast { OnOk result (self.new.multicast
            ≡ gains (Err (Loss.Link errno) ∷ []) self.old.multicast) }
        ensures unasked { OnOk result (self.new.unasked
            ≡ gains (Err (Loss.Link errno) ∷ []) self.old.unasked) }
        ensures congested { OnOk result
            (self.new.is_congested ≡ (int_eq errno (pos 105) || self.old.is_congested)) }
        ensures names { SameNames self.old self.new }
        ensures mails { SameMails self.old self.new }
        ensures awaited { self.new.awaited ≡ self.old.awaited }
        ensures unchanged { OnErr result ((self.new.requests ≡ self.old.requests)
            × (self.new.multicast ≡ self.old.multicast) × (self.new.unasked ≡ self.old.unasked)
            × (self.new.is_congested ≡ self.old.is_congested)) }
    {
        self.lose(Loss::Link(errno))?;
        if errno == ENOBUFS {
            self.is_congested = true;
        }
        Ok(())
    }
}
