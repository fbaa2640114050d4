//! What waits for a reader.

ghost use Rattle.std.specs.Prelude.{◌≡◌, ◌≢◌, ◌∷◌, ◌++◌, List, [], Err, None, Some, IfSome, IsNone, OnErr, OnOk, IsTrue, false, true, ◌↔◌};
ghost use Rattle.neli_session.specs.Messages.{IsWhole, messages_of};
ghost use Rattle.neli_session.specs.Noted.{noted_of};
ghost use Rattle.neli_session.specs.Waiting.{IsFronted, Item, as_items, entries_in, items_of, lent_item};

use crate::Loss;
use crate::chunk::Chunk;
use crate::noted::Noted;
use neli_lent::LentMessage;
use neli_wire::NoMemory;
use std::alloc::Global;
use std::collections::VecDeque;
use std::marker::Model;

/// Consecutive messages, or a loss.
#[derive(Drop)]
pub(crate) enum Entry {
    Messages(Chunk),
    Loss(Loss),
}

/// Goes past the first item of an entry; returns what is noted of it, and whether none is left.
fn pass_in(entry: &mut Entry) -> (Noted, bool)
    ensures noted { (item : Item) (later : List Item) → items_of entry.old ≡ item ∷ later
        → result.0 ≡ noted_of item }
    ensures last { (item : Item) (later : List Item) → items_of entry.old ≡ item ∷ later
        → result.1 ≡ true → later ≡ [] }
    ensures rest { (item : Item) (later : List Item) → items_of entry.old ≡ item ∷ later
        → result.1 ≡ false → (items_of entry.new ≡ later) × (later ≢ []) }
{
    match entry {
        Entry::Loss(loss) => (Noted::of_loss(*loss), true),
        Entry::Messages(chunk) => chunk.pass(),
    }
}

/// Appends an entry. Refused only if memory runs out; then nothing changes.
fn push(
    front: &mut Option<Entry>,
    later: &mut VecDeque<Entry>,
    entry: Entry,
) -> Result<(), NoMemory>
    requires { IsFronted front.old later.old.items }
    ensures fronted { IsFronted front.new later.new.items }
    ensures pushed { OnOk result (entries_in front.new later.new.items
        ≡ entries_in front.old later.old.items ++ entry ∷ []) }
    ensures unchanged { OnErr result (entries_in front.new later.new.items
        ≡ entries_in front.old later.old.items) }
{
    if front.is_none() {
        *front = Some(entry);
        return Ok(());
    }
    later.push_back(entry)?;
    Ok(())
}

/// Removes the last entry.
fn pop(front: &mut Option<Entry>, later: &mut VecDeque<Entry>)
    requires { IsFronted front.old later.old.items }
    ensures fronted { IsFronted front.new later.new.items }
    ensures popped { (es : List Entry) (e : Entry)
        → entries_in front.old later.old.items ≡ es ++ e ∷ []
        → entries_in front.new later.new.items ≡ es }
{
    if let Some(_) = later.pop_back() {
        return;
    }
    *front = None;
}

/// Removes the first entry.
fn advance(front: &mut Option<Entry>, later: &mut VecDeque<Entry>)
    ensures fronted { IsFronted front.new later.new.items }
    ensures rest { entries_in front.new later.new.items ≡ later.old.items }
{
    *front = later.pop_front();
}

/// Messages and losses in order. The first entry has a place of its own: where no other waits, the queue needs no memory
/// but for its messages.
#[derive(Drop)]
pub(crate) struct Queue {
    alloc: Global,
    front: Option<Entry>,
    later: VecDeque<Entry>,
}

impl Model for Queue {
    ghost use Rattle.std.specs.Prelude.{List};
    ghost use Rattle.neli_session.specs.Waiting.{AreFilled, IsFronted, Item, all_items, entries_in};

    ghost Value = { List Item };

    ghost view = { λ q. all_items (entries_in q.front q.later.items) };

    ghost invariant = { λ q. IsFronted q.front q.later.items × AreFilled (entries_in q.front q.later.items) };
}

impl Queue {
    /// An empty queue. It takes no memory.
    pub(crate) fn new(alloc: Global) -> Queue
        ensures { result ≡ [] }
    {
        Queue {
            alloc,
            front: None,
            later: VecDeque::new(alloc),
        }
    }

    /// Appends the messages that these bytes are. Refused only if memory runs out; then nothing changes.
    pub(crate) fn add(&mut self, bytes: &[u8]) -> Result<(), NoMemory>
        requires { IsWhole bytes.now × (messages_of bytes.now ≢ []) }
        ensures added { OnOk result (self.new ≡ self.old ++ as_items (messages_of bytes.now)) }
        ensures unchanged { OnErr result (self.new ≡ self.old) }
    {
        let chunk = Chunk::new(self.alloc, bytes)?;
        push(&mut self.front, &mut self.later, Entry::Messages(chunk))?;
        Ok(())
    }

    /// Appends the messages that these bytes are to both. Refused only if memory runs out; then nothing changes.
    pub(crate) fn add_both(&mut self, other: &mut Queue, bytes: &[u8]) -> Result<(), NoMemory>
        requires { IsWhole bytes.now × (messages_of bytes.now ≢ []) }
        ensures added { OnOk result (self.new ≡ self.old ++ as_items (messages_of bytes.now)) }
        ensures other { OnOk result (other.new ≡ other.old ++ as_items (messages_of bytes.now)) }
        ensures unchanged { OnErr result ((self.new ≡ self.old) × (other.new ≡ other.old)) }
    {
        let chunk = Chunk::new(self.alloc, bytes)?;
        push(&mut self.front, &mut self.later, Entry::Messages(chunk))?;
        if other.add(bytes).is_err() {
            pop(&mut self.front, &mut self.later);
            return Err(NoMemory);
        }
        Ok(())
    }

    /// Appends a loss. Refused only if memory runs out; then nothing changes.
    pub(crate) fn add_loss(&mut self, loss: Loss) -> Result<(), NoMemory>
        ensures added { OnOk result (self.new ≡ self.old ++ Err loss ∷ []) }
        ensures unchanged { OnErr result (self.new ≡ self.old) }
    {
        push(&mut self.front, &mut self.later, Entry::Loss(loss))?;
        Ok(())
    }

    /// Appends a loss to both. Refused only if memory runs out; then nothing changes.
    pub(crate) fn add_loss_to_both(&mut self, other: &mut Queue, loss: Loss) -> Result<(), NoMemory>
        ensures added { OnOk result (self.new ≡ self.old ++ Err loss ∷ []) }
        ensures other { OnOk result (other.new ≡ other.old ++ Err loss ∷ []) }
        ensures unchanged { OnErr result ((self.new ≡ self.old) × (other.new ≡ other.old)) }
    {
        push(&mut self.front, &mut self.later, Entry::Loss(loss))?;
        if other.add_loss(loss).is_err() {
            pop(&mut self.front, &mut self.later);
            return Err(NoMemory);
        }
        Ok(())
    }

    /// Removes all items.
    pub(crate) fn clear(&mut self)
        ensures { self.new ≡ [] }
    {
        self.front = None;
        self.later.clear();
    }

    /// Whether nothing waits.
    pub(crate) fn is_empty(&self) -> bool
        ensures { IsTrue result ↔ (self.now ≡ []) }
    {
        match &self.front {
            None => true,
            Some(_) => false,
        }
    }

    /// The first item.
    pub(crate) fn first(&self) -> Option<Result<LentMessage<'_, u16>, Loss>>
        ensures none { IsNone result → self.now ≡ [] }
        ensures some { IfSome result
            (λ item. (later : List Item) × (self.now ≡ lent_item item ∷ later)) }
    {
        match &self.front {
            None => None,
            Some(Entry::Messages(chunk)) => match chunk.first() {
                None => None,
                Some(message) => Some(Ok(message)),
            },
            Some(Entry::Loss(loss)) => Some(Err(*loss)),
        }
    }

    /// Goes past the first item, if there is one, and returns what is noted of it.
    pub(crate) fn pass(&mut self) -> Option<Noted>
        ensures passed { (item : Item) (later : List Item) → self.old ≡ item ∷ later
            → (self.new ≡ later) × (result ≡ Some (noted_of item)) }
        ensures none { self.old ≡ [] → (self.new ≡ []) × (result ≡ None) }
    {
        let Some(entry) = &mut self.front else {
            return None;
        };
        let (noted, is_last) = pass_in(entry);
        if is_last {
            advance(&mut self.front, &mut self.later);
        }
        Some(noted)
    }
}
