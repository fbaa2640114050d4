//! The walk over a datagram's messages, with lent payloads.

ghost use Rattle.std.specs.Prelude.{◌≡◌, ◌+◌, ◌≤◌, ℕ, List, [], None, IfSome, IsNone, OnOk, OnErr, length};
ghost use Rattle.std.specs.Iterator.{YieldsFirstBy, item_count};
ghost use Rattle.neli_lent.specs.Walks.{cut_with, items_of, map_item, map_ok};
ghost use Rattle.neli_lent.specs.Messages.{message_view, messages_in};

use crate::LentMessage;
use neli_consts::NlType;
use neli_wire::{Cursor, DeError};
use std::marker::{Model, PhantomData};

/// The messages of a datagram, one after the other, each with a lent payload.
///
/// An iterator of results: after the messages it returns the fault of the rest, if there is one; then nothing. It takes
/// no memory. Contracts see it as the bytes still to be read.
#[derive(Drop)]
pub struct LentMessages<'b, T> {
    cursor: Cursor<'b>,
    of: PhantomData<T>,
}

impl<'b, T> Model for LentMessages<'b, T> {
    ghost Value = { List ℕ };

    ghost view = { λ i. i.cursor.rest };
}

impl<'b, T: NlType> LentMessages<'b, T> {
    /// The messages of these bytes.
    pub fn new(bytes: &'b [u8]) -> Self
        ensures { result ≡ bytes.now }
    {
        LentMessages {
            cursor: Cursor::new(bytes),
            of: PhantomData,
        }
    }

    /// The next message, or the fault of the rest, or the end.
    #[inline]
    fn step(&mut self) -> Option<Result<LentMessage<'b, T>, DeError>>
        ensures cut { messages_in T.wire_value self.old
            ≡ cut_with (map_item message_view result) (messages_in T.wire_value self.new) }
        ensures end { IsNone result → messages_in T.wire_value self.new ≡ ([], None) }
        ensures fault { IfSome result
            (λ item. OnErr item (messages_in T.wire_value self.new ≡ ([], None))) }
    {
        if self.cursor.rest().is_empty() {
            return None;
        }
        match LentMessage::lend(&mut self.cursor) {
            Ok(message) => Some(Ok(message)),
            Err(error) => {
                let end = self.cursor.get_ref().len();
                self.cursor.set_position(end);
                Some(Err(error))
            }
        }
    }

    /// The bytes still to be read. Call it before [`next`](Iterator::next) to find where that message or fault begins:
    /// as many bytes before the datagram's end as it returns.
    pub fn rest(&self) -> &'b [u8]
        ensures { result.now ≡ self.now }
    {
        self.cursor.rest()
    }

    /// A second walk from the same place.
    pub fn ahead(&self) -> Self
        ensures { result ≡ self.now }
    {
        LentMessages {
            cursor: self.cursor.ahead(),
            of: PhantomData,
        }
    }
}

impl<'b, T: NlType> Iterator for LentMessages<'b, T> {
    type Item = Result<LentMessage<'b, T>, DeError>;

    ghost next_gives = { YieldsFirstBy (map_ok message_view)
        (λ s. items_of (messages_in T.wire_value s)) };

    ghost remaining = { item_count (λ s. items_of (messages_in T.wire_value s)) };

    #[inline]
    fn next(&mut self) -> Option<Result<LentMessage<'b, T>, DeError>> {
        self.step()
    }
}
