//! Spans, and the datagrams that they name.

use smallvec::SmallVec;

/// The bytes from `start` up to `end` of the datagram with this serial number.
#[derive(Clone, Copy, Debug, PartialEq, Eq)]
pub struct Span {
    /// The serial number of the datagram: the number of datagrams kept before it.
    pub datagram: u64,
    /// Where the bytes begin in the datagram.
    pub start: usize,
    /// Where they end.
    pub end: usize,
}

/// The bytes of a datagram. As many as an acknowledgement has take no memory of their own.
pub type Bytes = SmallVec<u8, 40>;

/// A datagram, and the number of its spans that remain.
#[derive(Drop)]
pub(crate) struct Datagram {
    pub(crate) bytes: Bytes,
    pub(crate) spans: usize,
}
