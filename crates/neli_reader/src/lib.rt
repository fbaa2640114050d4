//! Netlink messages, and the reader of a datagram.
//!
//! A message is a header of 16 bytes, a payload, and padding up to a multiple of four (RFC 3549
//! section 2.3.2; `struct nlmsghdr` of linux/netlink.h). All numbers are little-endian.
//!
//! ```text
//!  0       4       6       8       12      16         16 + L   align(16 + L)
//!  +-------+-------+-------+-------+-------+----- - - - -+- - - - +
//!  | length| type  | flags | number| port  | payload     | padding|
//!  +-------+-------+-------+-------+-------+----- - - - -+- - - - +
//! ```
//!
//! The length counts the header and the payload but no padding, so L is the length less 16. The number is the sequence
//! number. A datagram is such messages, one after the other.
//!
//! - [`Nlmsghdr`] is a message, [`NlPayload`] its payload by its [`Kind`], and [`Nlmsgerr`] an error, an
//!   acknowledgement or the end of a dump; [`NlmsghdrErr`] and [`NlmsghdrAck`] are what these answer.
//! - [`NlBufferIter`] reads the messages of a datagram one by one, [`cut`] reads all of them, and
//!   [`NlBuffer`] is a list of messages.
//! - [`SocketError`] is an error of a reader, or of a link below it, [`RouterError`] one of a router, and
//!   [`BuilderError`] why a builder made no value, for most builders.
//! - [`laws`]: each byte list has one cut, the greatest number of its messages, reading a message as other types agrees
//!   with retyping it, and which bytes of a datagram are written again.
//!
//! In `neli_msg`, `specs/Kinds.antt` states on one page which kind a payload is, and `specs/Messages.antt` how a
//! message lies in bytes; here `specs/Cuts.antt` states what a whole datagram means. This crate re-exports the items of
//! `neli_msg`.
#![tactic(auto)]

mod builder_error;
mod iter;
pub mod laws;

pub use builder_error::BuilderError;
pub use iter::{NlBuffer, NlBufferIter, cut};
pub use neli_msg::{
    Explained, Kind, NlPayload, Nlmsgerr, NlmsgerrBuilder, NlmsgerrBuilderError, Nlmsghdr,
    NlmsghdrAck, NlmsghdrAckBuilder, NlmsghdrAckBuilderError, NlmsghdrBuilder,
    NlmsghdrBuilderError, NlmsghdrErr, NlmsghdrErrBuilder, NlmsghdrErrBuilderError, RouterError,
    SocketError, Tail,
};
