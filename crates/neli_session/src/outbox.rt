//! Datagrams that wait to be sent.

ghost use Rattle.std.specs.Prelude.{◌≡◌, ◌≤◌, ◌++◌, ◌∷◌, ℕ, List, [], IfOk, IsNone, OnErr, OnOk, length};
ghost use Rattle.neli_session.specs.Mails.{Mail, may_go, next_mail, numbers_of, without_next};

use crate::entry::{Entry, numbers};
use neli_wire::NoMemory;
use std::alloc::Global;
use std::marker::Model;

/// A datagram to send.
#[derive(Drop)]
pub(crate) struct Mail {
    bytes: Vec<u8>,
    /// The sequence numbers of its requests.
    numbers: Vec<u32>,
    /// That of the request that is answered by a dump.
    dump: Option<u32>,
}

impl Model for Mail {
    ghost use Rattle.neli_session.specs.Mails.{Mail};

    ghost Value = { Mail };

    ghost view = { λ p. record { bytes = p.bytes.items; numbers = p.numbers.items; dump = p.dump } };
}

impl Mail {
    /// The datagram with these bytes, which has these requests, and of them this dump.
    pub(crate) fn new(
        alloc: Global,
        requests: &[u8],
        entries: &[Entry],
        dump: Option<u32>,
    ) -> Result<Mail, NoMemory>
        ensures bytes { IfOk result (λ p. p.bytes ≡ requests.now) }
        ensures numbers { IfOk result (λ p. p.numbers ≡ numbers_of entries.now) }
        ensures dump { IfOk result (λ p. p.dump ≡ dump) }
    {
        let mut bytes = Vec::new(alloc);
        bytes.extend_from_slice(requests)?;
        let numbers = numbers(alloc, entries)?;
        Ok(Mail {
            bytes,
            numbers,
            dump,
        })
    }

    /// Its bytes.
    pub(crate) fn bytes(&self) -> &[u8]
        ensures { result.now ≡ self.now.bytes }
    {
        &self.bytes
    }

    /// The numbers of its requests.
    pub(crate) fn numbers(&self) -> &[u32]
        ensures { result.now ≡ self.now.numbers }
    {
        &self.numbers
    }

    /// The number of its dump, if it has one.
    pub(crate) fn dump(&self) -> Option<u32>
        ensures { result ≡ self.now.dump }
    {
        self.dump
    }

    /// Whether it may go out while a dump runs, or none does.
    fn may_go(&self, runs: bool) -> bool
        ensures { result ≡ may_go runs self.now }
    {
        !(runs && self.dump.is_some())
    }
}

/// Appends a datagram, and its numbers to those that are awaited. Refused only if memory runs out; then nothing changes.
pub(crate) fn post(
    mails: &mut Vec<Mail>,
    awaited: &mut Vec<u32>,
    mail: Mail,
) -> Result<(), NoMemory>
    ensures mails { OnOk result (mails.new.items ≡ mails.old.items ++ mail ∷ []) }
    ensures awaited { OnOk result (awaited.new.items ≡ awaited.old.items ++ mail.numbers) }
    ensures unchanged { OnErr result ((mails.new.items ≡ mails.old.items)
        × (awaited.new.items ≡ awaited.old.items)) }
{
    let count = awaited.len();
    awaited.extend_from_slice(mail.numbers())?;
    if mails.push(mail).is_err() {
        awaited.truncate(count);
        return Err(NoMemory);
    }
    Ok(())
}

/// Takes the last datagram back, whose numbers these many are the last ones of those that are awaited.
pub(crate) fn unpost(mails: &mut Vec<Mail>, awaited: &mut Vec<u32>, count: usize)
    requires { count ≤ length awaited.old.items }
    ensures mails { (before : List Mail) (last : Mail) → mails.old.items ≡ before ++ last ∷ []
        → mails.new.items ≡ before }
    ensures awaited { (before last : List ℕ) → awaited.old.items ≡ before ++ last
        → length last ≡ count → awaited.new.items ≡ before }
{
    let _ = mails.pop();
    let left = awaited.len() - count;
    awaited.truncate(left);
}

/// Takes out the first that may go out while a dump runs, or none does.
pub(crate) fn take_next(mails: &mut Vec<Mail>, runs: bool) -> Option<Mail>
    ensures next { result ≡ next_mail runs mails.old.items }
    ensures others { mails.new.items ≡ without_next runs mails.old.items }
    ensures none { IsNone result → mails.new ≡ mails.old }
{
    let mut place = 0;
    while place < mails.len() {
        if mails[place].may_go(runs) {
            return Some(mails.remove(place));
        }
        place += 1;
    }
    None
}
