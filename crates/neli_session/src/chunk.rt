//! Consecutive messages of one reader.

ghost use Rattle.std.specs.Prelude.{◌≡◌, ◌≤◌, ◌↔◌, ◌∷◌, ℕ, List, [], IfOk, IfSome, IsNone, IsTrue, Ok, drop, length};
ghost use Rattle.neli_reader.specs.Cuts.{message_before};
ghost use Rattle.neli_lent.specs.Messages.{Lent, message_view, messages_in};
ghost use Rattle.neli_session.specs.Messages.{IsWhole, messages_of};
ghost use Rattle.neli_session.specs.Noted.{noted_of};

use crate::noted::Noted;
use neli_lent::LentMessage;
use neli_wire::{Cursor, NoMemory};
use std::alloc::Global;
use std::marker::Model;

/// The message at a place of whole messages, and the place after it; none at their end.
fn message_at(bytes: &[u8], place: usize) -> Option<(LentMessage<'_, u16>, usize)>
    requires within { place ≤ length bytes.now }
    requires whole { IsWhole (drop place bytes.now) }
    ensures none { IsNone result → messages_of (drop place bytes.now) ≡ [] }
    ensures within { IfSome result (λ r. r.1 ≤ length bytes.now) }
    ensures some { IfSome result (λ r. messages_in (λ n. n) (drop place bytes.now)
        ≡ message_before (message_view r.0) (messages_in (λ n. n) (drop r.1 bytes.now))) }
{
    let mut cursor = Cursor::new(bytes);
    cursor.set_position(place);
    if let Ok(message) = LentMessage::lend(&mut cursor) {
        return Some((message, cursor.position()));
    }
    None
}

/// Whether no message is at a place of whole messages.
fn is_end(bytes: &[u8], place: usize) -> bool
    requires within { place ≤ length bytes.now }
    requires whole { IsWhole (drop place bytes.now) }
    ensures { IsTrue result ↔ (messages_of (drop place bytes.now) ≡ []) }
{
    place == bytes.len()
}

/// Messages one after the other, in one buffer: those from a place on.
#[derive(Drop)]
pub(crate) struct Chunk {
    bytes: Vec<u8>,
    place: usize,
}

impl Model for Chunk {
    ghost use Rattle.std.specs.Prelude.{ℕ, List, ◌≤◌, drop, length};
    ghost use Rattle.neli_lent.specs.Messages.{Lent};
    ghost use Rattle.neli_session.specs.Messages.{IsWhole, messages_of};

    ghost Value = { List (Lent ℕ) };

    ghost view = { λ c. messages_of (drop c.place c.bytes.items) };

    ghost invariant = { λ c. (c.place ≤ length c.bytes.items)
        × IsWhole (drop c.place c.bytes.items) };
}

impl Chunk {
    /// A chunk of the messages that these bytes are.
    pub(crate) fn new(alloc: Global, bytes: &[u8]) -> Result<Chunk, NoMemory>
        requires { IsWhole bytes.now }
        ensures { IfOk result (λ c. c ≡ messages_of bytes.now) }
    {
        let mut kept = Vec::new(alloc);
        kept.extend_from_slice(bytes)?;
        Ok(Chunk {
            bytes: kept,
            place: 0,
        })
    }

    /// The first message.
    pub(crate) fn first(&self) -> Option<LentMessage<'_, u16>>
        ensures none { IsNone result → self.now ≡ [] }
        ensures some { IfSome result
            (λ l. (later : List (Lent ℕ)) × (self.now ≡ message_view l ∷ later)) }
    {
        match message_at(&self.bytes, self.place) {
            None => None,
            Some((message, _)) => Some(message),
        }
    }

    /// Goes past the first message, if there is one; returns what is noted of it, and whether none is left.
    pub(crate) fn pass(&mut self) -> (Noted, bool)
        ensures passed { (m : Lent ℕ) (later : List (Lent ℕ)) → self.old ≡ m ∷ later
            → (self.new ≡ later) × (result.0 ≡ noted_of (Ok m)) }
        ensures empty { IsTrue result.1 ↔ (self.new ≡ []) }
    {
        match message_at(&self.bytes, self.place) {
            None => (Noted::nothing(), true),
            Some((message, end)) => {
                let noted = Noted::of_message(&message);
                self.place = end;
                (noted, is_end(&self.bytes, end))
            }
        }
    }
}
