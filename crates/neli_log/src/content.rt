//! The content of an entry.

use crate::Span;
use neli_reader::SocketError;

/// A delivery; a message is the span of its bytes.
#[derive(Drop)]
pub(crate) enum Content {
    /// A message for one handle.
    Message(Span),
    /// A message that arrived for no group, and has another port than the router's or a number that is not open.
    Stray(Span),
    /// A datagram could not be read to its end, or the link failed. It is on the heap, so that an entry is short.
    Fault(Box<SocketError>),
}
