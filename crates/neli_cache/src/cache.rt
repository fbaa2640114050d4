//! The table that a program keeps.

ghost use Rattle.std.specs.Prelude.{◌≡◌, ℕ, ◌||◌, List, IfOk, IfSome, OnErr, OnOk, if◌then◌else◌, is_some};
ghost use Rattle.neli_lent.specs.Messages.{message_view};
ghost use Rattle.neli_session.specs.Freshness.{judged};
ghost use Rattle.neli_cache.specs.Fold.{Answered, Ended, Lost, Notified, Requested};
ghost use Rattle.neli_cache.specs.Fold.{after_event, after_said, change_by, change_when, is_about, is_current, is_replaced, seen_at, start};
ghost use Rattle.neli_cache.specs.Keys.{said};
ghost use Rattle.neli_cache.specs.Tables.{at};

use crate::{Change, Keys, Table};
use neli_lent::LentMessage;
use neli_session::{Freshness, Verdict};
use neli_wire::NoMemory;
use std::alloc::Global;
use std::mem::replace;

/// A table of the kernel's objects, and whether it is current.
///
/// Where [`Cache::freshness`] is `Current`, the table is the fold of the dump that was requested last and of the
/// notifications since that request. Else it is what it was when it was last current, and before that it is empty.
#[derive(Drop)]
pub struct Cache {
    alloc: Global,
    pub(crate) keys: Keys,
    pub(crate) freshness: Freshness,
    pub(crate) objects: Table,
    /// What came since the request: the dump, and the notifications over it.
    pub(crate) next: Table,
    /// The keys of those notifications: the dump may say older things of them.
    pub(crate) heard: Table,
}

/// Folds a message into a table; returns what became of its object. Refused only if memory runs out; then nothing
/// changes.
fn fold(
    alloc: Global,
    keys: &Keys,
    table: &mut Table,
    message: &LentMessage<'_, u16>,
) -> Result<Option<Change>, NoMemory>
    ensures folded { OnOk result ((q : List ℕ) → at q table.new
        ≡ after_said q (said keys.now (message_view message.now)) (at q table.old)) }
    ensures change { IfOk result (λ c. c
        ≡ change_by (said keys.now (message_view message.now)) table.old) }
    ensures unchanged { OnErr result (table.new ≡ table.old) }
{
    match keys.read(alloc, message)? {
        None => Ok(None),
        Some(told) => table.put(alloc, told.key, told.payload),
    }
}

/// Folds a message of a dump into a table, if no notification was about its object. Refused only if memory runs out.
fn fold_answer(
    alloc: Global,
    keys: &Keys,
    table: &mut Table,
    heard: &Table,
    message: &LentMessage<'_, u16>,
) -> Result<(), NoMemory>
    ensures { OnOk result ((q : List ℕ) → at q table.new
        ≡ (if is_some (at q heard.now) then at q table.old
        else after_said q (said keys.now (message_view message.now)) (at q table.old))) }
{
    let Some(told) = keys.read(alloc, message)? else {
        return Ok(());
    };
    if heard.get(&told.key).is_some() {
        return Ok(());
    }
    table.put(alloc, told.key, told.payload)?;
    Ok(())
}

/// Folds a notification into a table, and notes its object. Refused only if memory runs out.
fn fold_heard(
    alloc: Global,
    keys: &Keys,
    table: &mut Table,
    heard: &mut Table,
    message: &LentMessage<'_, u16>,
) -> Result<(), NoMemory>
    ensures folded { OnOk result ((q : List ℕ) → at q table.new
        ≡ after_said q (said keys.now (message_view message.now)) (at q table.old)) }
    ensures heard { OnOk result ((q : List ℕ) → is_some (at q heard.new)
        ≡ (is_about q (said keys.now (message_view message.now)) || is_some (at q heard.old))) }
{
    let Some(told) = keys.read(alloc, message)? else {
        return Ok(());
    };
    let key = Vec::from_slice(alloc, &told.key)?;
    heard.put(alloc, key, Some(&[]))?;
    table.put(alloc, told.key, told.payload)?;
    Ok(())
}

/// Whether a list is current once its answer has ended with this verdict.
fn is_complete(verdict: Verdict) -> bool
    ensures { result ≡ is_current (judged verdict) }
{
    matches!(verdict, Verdict::Complete)
}

impl Cache {
    /// A cache of the objects with these keys: stale, and empty. It takes no memory.
    pub fn new(alloc: Global, keys: Keys) -> Cache
        ensures start { (q : List ℕ) → seen_at q result ≡ start }
        ensures keys { result.keys ≡ keys }
    {
        Cache {
            alloc,
            keys,
            freshness: Freshness::Stale,
            objects: Table::new(alloc),
            next: Table::new(alloc),
            heard: Table::new(alloc),
        }
    }

    /// Whether the table is current, or to be requested, or being read.
    pub fn freshness(&self) -> Freshness
        ensures { result ≡ self.now.freshness }
    {
        self.freshness
    }

    /// The objects.
    pub fn table(&self) -> &Table
        ensures { result.now ≡ self.now.objects }
    {
        &self.objects
    }

    /// The dump was requested with this sequence number. The table stays as it is until that dump's end.
    pub fn requested(&mut self, number: u32)
        ensures requested { (q : List ℕ) → seen_at q self.new
            ≡ after_event self.old.keys q (Requested number) (seen_at q self.old) }
        ensures keys { self.new.keys ≡ self.old.keys }
    {
        self.freshness = self.freshness.requested(number);
        self.next = Table::new(self.alloc);
        self.heard = Table::new(self.alloc);
    }

    /// Something was lost of what came to groups: the cache is stale. Before the list is requested again, what waits of
    /// groups is to be read to its end: Linux reports a loss before what it had kept, which is older than the dump.
    pub fn lost(&mut self)
        ensures lost { (q : List ℕ) → seen_at q self.new
            ≡ after_event self.old.keys q Lost (seen_at q self.old) }
        ensures keys { self.new.keys ≡ self.old.keys }
    {
        self.freshness = self.freshness.lost();
        self.next = Table::new(self.alloc);
        self.heard = Table::new(self.alloc);
    }

    /// Takes in a message of an answer: nothing, if it is not that of the dump which is being read. Refused only if
    /// memory runs out; then the cache is stale, as after a loss.
    pub fn take_answer(&mut self, message: &LentMessage<'_, u16>) -> Result<(), NoMemory>
        ensures taken { OnOk result ((q : List ℕ) → seen_at q self.new
            ≡ after_event self.old.keys q (Answered (message_view message.now))
            (seen_at q self.old)) }
        ensures refused { OnErr result ((q : List ℕ) → seen_at q self.new
            ≡ after_event self.old.keys q Lost (seen_at q self.old)) }
        ensures keys { self.new.keys ≡ self.old.keys }
    {
        match self.freshness {
            Freshness::Read(number) if number == *message.nl_seq() => {}
            _ => return Ok(()),
        }
        let folded = fold_answer(self.alloc, &self.keys, &mut self.next, &self.heard, message);
        if folded.is_err() {
            self.lost();
        }
        folded
    }

    /// Takes in a notification. Refused only if memory runs out; then the table is as it was.
    fn hear(&mut self, message: &LentMessage<'_, u16>) -> Result<Option<Change>, NoMemory>
        ensures taken { OnOk result ((q : List ℕ) → seen_at q self.new
            ≡ after_event self.old.keys q (Notified (message_view message.now))
            (seen_at q self.old)) }
        ensures change { IfOk result (λ c. c ≡ change_when self.old.freshness
            (said self.old.keys (message_view message.now)) self.old.objects) }
        ensures unchanged { OnErr result (self.new.objects ≡ self.old.objects) }
        ensures keys { self.new.keys ≡ self.old.keys }
    {
        match self.freshness {
            Freshness::Stale => Ok(None),
            Freshness::Current => fold(self.alloc, &self.keys, &mut self.objects, message),
            Freshness::Read(_) => {
                fold_heard(
                    self.alloc,
                    &self.keys,
                    &mut self.next,
                    &mut self.heard,
                    message,
                )?;
                Ok(None)
            }
        }
    }

    /// Takes in a notification; returns what became of its object in the table. While the dump is read it is kept for
    /// the dump's end, and while the cache is stale it is dropped: then the table stays as it is. Refused only if
    /// memory runs out; then the cache is stale, as after a loss.
    pub fn take_notification(
        &mut self,
        message: &LentMessage<'_, u16>,
    ) -> Result<Option<Change>, NoMemory>
        ensures taken { OnOk result ((q : List ℕ) → seen_at q self.new
            ≡ after_event self.old.keys q (Notified (message_view message.now))
            (seen_at q self.old)) }
        ensures change { IfOk result (λ c. c ≡ change_when self.old.freshness
            (said self.old.keys (message_view message.now)) self.old.objects) }
        ensures refused { OnErr result ((q : List ℕ) → seen_at q self.new
            ≡ after_event self.old.keys q Lost (seen_at q self.old)) }
        ensures keys { self.new.keys ≡ self.old.keys }
    {
        match self.hear(message) {
            Ok(change) => Ok(change),
            Err(error) => {
                self.lost();
                Err(error)
            }
        }
    }

    /// The answer to a request has ended with this verdict. Where that was the dump which is being read, and it is
    /// complete, the table is replaced by what was read; returns the table before.
    pub fn ended(&mut self, number: u32, verdict: Verdict) -> Option<Table>
        ensures ended { (q : List ℕ) → seen_at q self.new
            ≡ after_event self.old.keys q (Ended number verdict) (seen_at q self.old) }
        ensures replaced { is_some result ≡ is_replaced number verdict self.old.freshness }
        ensures before { IfSome result (λ t. t ≡ self.old.objects) }
        ensures keys { self.new.keys ≡ self.old.keys }
    {
        match self.freshness {
            Freshness::Read(own) if own == number => {}
            _ => return None,
        }
        self.freshness = self.freshness.ended(number, verdict);
        let read = replace(&mut self.next, Table::new(self.alloc));
        self.heard = Table::new(self.alloc);
        if is_complete(verdict) {
            return Some(replace(&mut self.objects, read));
        }
        None
    }
}
