//! Lent deliveries: a message stays where the log keeps its datagram.

ghost use Rattle.std.specs.Prelude.{◌≡◌};
ghost use Rattle.neli_reader.specs.Messages.{message_from};
ghost use Rattle.neli_lent.specs.Messages.{message_view};
ghost use Rattle.neli_lent.specs.Spans.{IsSpan, Spells};
ghost use Rattle.neli_deliveries.specs.Deliveries.{Untyped, head_of};
ghost use Rattle.neli_log.specs.Spans.{span_bytes};
ghost use Rattle.neli_log.specs.Contents.{IsReadable, delivery_of};
ghost use Rattle.neli_log.specs.Lending.{IsFirstLent, IsLent, Lends, lent_heading};
ghost use Rattle.neli_log.specs.Log.{IsTrimmedAndBacked, pending_of};

use crate::Log;
use crate::content::Content;
use crate::store::Store;
use neli_deliveries::Heading;
use neli_lent::LentMessage;
use neli_reader::SocketError;
use neli_wire::Cursor;

/// A delivery that waits, lent from the log: nothing of it is copied.
#[derive(Clone, Copy, Debug)]
pub enum LentDelivery<'b> {
    /// A message for this handle only.
    Message(LentMessage<'b, u16>),
    /// A message that arrived for no group, and has another port than the router's or a sequence number that is not
    /// open.
    Stray(LentMessage<'b, u16>),
    /// A datagram could not be read to its end, or the link failed.
    Fault(&'b SocketError),
}

impl LentDelivery<'_> {
    /// The delivery by its message's header.
    pub fn heading(&self) -> Heading
        ensures { result ≡ lent_heading self.now }
    {
        match self {
            LentDelivery::Message(message) => {
                Heading::Message(*message.nl_type(), *message.nl_flags())
            }
            _ => Heading::Other,
        }
    }
}

/// The message in a span's bytes.
fn lent(span: &[u8]) -> LentMessage<'_, u16>
    requires { IsSpan span.now }
    ensures { (u : Untyped) → Spells span.now u → Lends (message_view result) (message_from u) }
{
    let mut cursor = Cursor::new(span);
    match LentMessage::lend(&mut cursor) {
        Ok(message) => message,
        Err(_) => unreachable!(),
    }
}

impl Store {
    /// An entry's delivery.
    pub(crate) fn lend<'b>(&'b self, content: &'b Content) -> LentDelivery<'b>
        requires { IsReadable self.now.datagrams content.now }
        ensures { IsLent (delivery_of (span_bytes self.now.datagrams) content.now) result }
    {
        match content {
            Content::Message(span) => LentDelivery::Message(lent(self.datagrams.span_bytes(*span))),
            Content::Stray(span) => LentDelivery::Stray(lent(self.datagrams.span_bytes(*span))),
            Content::Fault(error) => LentDelivery::Fault(error),
        }
    }

    /// The first delivery that waits, or that nothing waits.
    fn lend_first(&self, whose: Option<u32>) -> Option<LentDelivery<'_>>
        requires { IsTrimmedAndBacked self.now }
        ensures { IsFirstLent (head_of (pending_of self.now whose)) result }
    {
        match self.places.first(whose) {
            None => None,
            Some(content) => Some(self.lend(content)),
        }
    }
}

impl Log {
    /// Returns the first delivery that waits for a number, or for multicast, lent until the log changes; or that
    /// nothing waits. It takes no memory.
    ///
    /// It is the delivery that [`first`](neli_deliveries::Deliveries::first) reads.
    pub fn lend_first(&self, whose: Option<u32>) -> Option<LentDelivery<'_>>
        ensures { IsFirstLent (head_of (pending_of self.now whose)) result }
    {
        self.store.lend_first(whose)
    }
}
