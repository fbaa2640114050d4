//! The requests whose numbers are in use, and the line of those that have something to read.

ghost use Rattle.std.specs.Prelude.{◌≡◌, ◌<◌, ◌^◌, ◌++◌, ◌∷◌, ◌&&◌, ◌==◌, ℕ, [], Ok, None, Some, IfOk, IfSome, IsErrOf, IsNone, OnErr, OnOk, false, true, not, if◌then◌else◌};
ghost use Rattle.std.specs.Prelude.{◌≤◌, is_some, length, nat_eq, option_copied, take};
ghost use Rattle.neli_lent.specs.Messages.{message_view};
ghost use Rattle.neli_session.specs.Lines.{first_in, is_in, without};
ghost use Rattle.neli_session.specs.Messages.{IsMessage, IsWhole, messages_of};
ghost use Rattle.neli_session.specs.Readiness.{AreAway, line_among, line_by, read_in, ready_at, settled_in};
ghost use Rattle.neli_session.specs.Runs.{AreTaken};
ghost use Rattle.neli_session.specs.Sends.{first_taken, with_entries, with_entry, without_entries};
ghost use Rattle.neli_session.specs.Sessions.{after_message, among, at, closed_at, passed_at, takes, when};

use crate::change::Change;
use crate::entry::Entry;
use crate::line::Line;
use crate::queue::Queue;
use crate::request::Request;
use crate::turn::{change, close, hear, hear_with, pass};
use neli_lent::LentMessage;
use neli_wire::NoMemory;
use std::alloc::Global;
use std::marker::Model;

/// Why requests are not added.
#[derive(Clone, Copy, Debug)]
pub(crate) enum Unadded {
    /// This number is in use, or two of them have it.
    InUse(u32),
    /// Memory ran out.
    Memory,
}

/// The requests whose numbers are in use.
#[derive(Drop)]
pub(crate) struct Requests {
    line: Line,
}

impl Model for Requests {
    ghost use Rattle.neli_session.specs.Lines.{order_of};
    ghost use Rattle.neli_session.specs.Readiness.{AreInLine};
    ghost use Rattle.neli_session.specs.Requests.{Held};

    ghost Value = { Held };

    ghost view = { λ r. record { entries = r.line.places.entries; line = order_of r.line } };

    ghost invariant = { λ r. AreInLine r.line (order_of r.line) };
}

impl Requests {
    /// No requests. It takes no memory.
    pub(crate) fn new(alloc: Global) -> Requests
        ensures requests { (q : ℕ) → at result q ≡ None }
        ensures line { result.line ≡ [] }
    {
        Requests {
            line: Line::new(alloc),
        }
    }

    /// The request with a number.
    pub(crate) fn get(&self, number: u32) -> Option<&Request>
        ensures { option_copied result ≡ at self.now number }
    {
        self.line.get(number)
    }

    /// The number of the first request that has something to read.
    pub(crate) fn first_ready(&self) -> Option<u32>
        ensures first { result ≡ first_in self.now.line }
        ensures ready { (q : ℕ) → is_in q self.now.line ≡ ready_at (at self.now q) }
    {
        self.line.first()
    }

    /// Takes in a message for a group, or for none, by the request with its number, if it answers that, and with it the
    /// run that begins with it at the front of bytes; returns the number of their bytes. Refused only if memory runs out;
    /// then nothing changes.
    pub(crate) fn hear(
        &mut self,
        group: u32,
        message: &LentMessage<'_, u16>,
        first: usize,
        bytes: &[u8],
    ) -> Result<Option<usize>, NoMemory>
        requires within { first ≤ length bytes.now }
        requires some { 0 < first }
        requires first { IsMessage (take first bytes.now) (message_view message.now) }
        ensures untaken { IfOk result (λ o. IsNone o
            → takes group (at self.old (message_view message.now).0.sequence_number) ≡ false) }
        ensures alone { IfOk result (λ o. IsNone o → (q : ℕ) → at self.new q
            ≡ after_message group (message_view message.now) q (at self.old q)) }
        ensures line_alone { IfOk result (λ o. IsNone o → self.new.line
            ≡ line_by group (message_view message.now) (at self.old) self.old.line) }
        ensures run { IfOk result (λ o. IfSome o (λ taken. (0 < taken) × (taken ≤ length bytes.now)
            × IsWhole (take taken bytes.now)
            × AreTaken group (message_view message.now) (messages_of (take taken bytes.now))
            (at self.old) (at self.new) self.old.line self.new.line)) }
        ensures unchanged { OnErr result (((q : ℕ) → at self.new q ≡ at self.old q)
            × (self.new.line ≡ self.old.line)) }
    {
        match hear(&mut self.line.places, group, message, first, bytes)? {
            None => Ok(None),
            Some((turn, run)) => {
                self.line.settle(*message.nl_seq(), turn);
                Ok(Some(run.length))
            }
        }
    }

    /// Takes in a message for a group, by the request with its number, if it answers that, and appends it to a queue in
    /// any case; returns whether it does. Refused only if memory runs out; then nothing changes.
    pub(crate) fn hear_with(
        &mut self,
        queue: &mut Queue,
        group: u32,
        message: &LentMessage<'_, u16>,
        span: &[u8],
    ) -> Result<bool, NoMemory>
        requires { IsMessage span.now (message_view message.now) }
        ensures taken { IfOk result (λ taken. taken
            ≡ takes group (at self.old (message_view message.now).0.sequence_number)) }
        ensures heard { OnOk result ((q : ℕ) → at self.new q
            ≡ after_message group (message_view message.now) q (at self.old q)) }
        ensures line { OnOk result (self.new.line
            ≡ line_by group (message_view message.now) (at self.old) self.old.line) }
        ensures queue { OnOk result (queue.new ≡ queue.old ++ Ok (message_view message.now) ∷ []) }
        ensures unchanged { OnErr result (((q : ℕ) → at self.new q ≡ at self.old q)
            × (self.new.line ≡ self.old.line) × (queue.new ≡ queue.old)) }
    {
        match hear_with(&mut self.line.places, queue, group, message, span)? {
            None => Ok(false),
            Some(turn) => {
                self.line.settle(*message.nl_seq(), turn);
                Ok(true)
            }
        }
    }

    /// Notes what happens to the request with a number, if there is one.
    fn change(&mut self, number: u32, by: Change)
        ensures changed { (q : ℕ) → at self.new q
            ≡ (if nat_eq number q then when by (at self.old q) else at self.old q) }
        ensures line { self.new.line
            ≡ settled_in (ready_at (when by (at self.old number))) number self.old.line }
    {
        let Some(turn) = change(&mut self.line.places, number, by) else {
            return;
        };
        self.line.settle(number, turn);
    }

    /// Notes what happens to the requests with these numbers.
    pub(crate) fn change_all(&mut self, numbers: &[u32], by: Change)
        ensures requests { (q : ℕ) → at self.new q ≡ among numbers.now (when by) q (at self.old q) }
        ensures line { self.new.line
            ≡ line_among numbers.now (when by) (at self.old) self.old.line }
    {
        for number in numbers {
            self.change(*number, by);
        }
    }

    /// Goes past the next item of the request with a number, if there is one.
    pub(crate) fn pass(&mut self, number: u32)
        ensures own { at self.new number ≡ passed_at (at self.old number) }
        ensures others { (q : ℕ) → nat_eq number q ≡ false → at self.new q ≡ at self.old q }
        ensures line { self.new.line
            ≡ read_in (ready_at (passed_at (at self.old number))) number self.old.line }
    {
        let Some(turn) = pass(&mut self.line.places, number) else {
            return;
        };
        self.line.settle_read(number, turn);
    }

    /// Closes the request with a number, if there is one.
    pub(crate) fn close(&mut self, number: u32)
        ensures own { at self.new number ≡ closed_at (at self.old number) }
        ensures others { (q : ℕ) → nat_eq number q ≡ false → at self.new q ≡ at self.old q }
        ensures line { self.new.line ≡ without number self.old.line }
    {
        let Some(turn) = close(&mut self.line.places, number) else {
            return;
        };
        self.line.settle(number, turn);
    }

    /// Adds a request that waits to be sent. After a refusal nothing has changed.
    fn add(&mut self, alloc: Global, entry: Entry) -> Result<(), Unadded>
        ensures free { OnOk result (at self.old entry.number ≡ None) }
        ensures added { OnOk result ((q : ℕ) → at self.new q ≡ with_entry entry q (at self.old q)) }
        ensures in_use { (n : ℕ) → IsErrOf result (Unadded.InUse n)
            → (n ≡ entry.number) × (is_some (at self.old entry.number) ≡ true) }
        ensures unchanged { OnErr result ((q : ℕ) → at self.new q ≡ at self.old q) }
        ensures line { self.new.line ≡ self.old.line }
        ensures away { OnOk result (is_in entry.number self.new.line ≡ false) }
    {
        if self.line.places.contains_key(&entry.number) {
            return Err(Unadded::InUse(entry.number));
        }
        let request = Request::new(alloc, entry.answering, entry.echoes);
        let Ok(()) = self.line.add(entry.number, request) else {
            return Err(Unadded::Memory);
        };
        Ok(())
    }

    /// Removes the request with a number, which has nothing to read.
    fn remove(&mut self, number: u32)
        requires { is_in number self.old.line ≡ false }
        ensures removed { (q : ℕ) → at self.new q ≡ (if number == q then None else at self.old q) }
        ensures line { self.new.line ≡ self.old.line }
    {
        self.line.remove(number);
    }

    /// Removes these requests, which have nothing to read.
    fn remove_all(&mut self, entries: &[Entry])
        requires { AreAway entries.now self.old.line }
        ensures removed { (q : ℕ) → at self.new q ≡ without_entries entries.now q (at self.old q) }
        ensures line { self.new.line ≡ self.old.line }
    {
        for entry in entries {
            self.remove(entry.number);
        }
    }

    /// Adds these requests, which wait to be sent. After a refusal nothing has changed.
    pub(crate) fn add_all(&mut self, alloc: Global, entries: &[Entry]) -> Result<(), Unadded>
        ensures free { OnOk result (first_taken (at self.old) entries.now ≡ None) }
        ensures added { OnOk result ((q : ℕ) → at self.new q
            ≡ with_entries entries.now q (at self.old q)) }
        ensures in_use { (n : ℕ) → IsErrOf result (Unadded.InUse n)
            → first_taken (at self.old) entries.now ≡ Some n }
        ensures unchanged { OnErr result ((q : ℕ) → at self.new q ≡ at self.old q) }
        ensures line { self.new.line ≡ self.old.line }
    {
        let mut count = 0;
        while count < entries.len() {
            match self.add(alloc, entries[count]) {
                Ok(()) => count += 1,
                Err(refusal) => {
                    self.remove_all(&entries[..count]);
                    return Err(refusal);
                }
            }
        }
        Ok(())
    }

    /// The number of requests.
    pub(crate) fn len(&self) -> usize
        ensures len { result ≡ length self.now.entries }
        ensures fits { result < 2 ^ 63 }
    {
        self.line.places.len()
    }
}
