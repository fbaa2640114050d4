//! A kernel's answers to netlink requests, as bytes on the link, for testing a client without a kernel.
//!
//! - [`Request`] is a request as the kernel receives it, and makes each answer to it: an acknowledgement, an error, a
//!   reply.
//! - [`Dump`] is an answer in several messages, which are cut into datagrams.
//! - [`notification`] is a message that the kernel sends to groups.
//! - [`ExtAck`] are the attributes of an extended acknowledgement.
//! - [`laws`]: read as a datagram, an answer is one message.
//!
//! ```text
//!  0       4       6       8       12      16      20                36                align(20 + L)
//!  +-------+-------+-------+-------+-------+-------+-----------------+----- - - -+- - -+----- - - - -+
//!  | length| 2     | flags | number| port  | code  | request's header| its rest  |zeros| attributes  |
//!  +-------+-------+-------+-------+-------+-------+-----------------+----- - - -+- - -+----- - - - -+
//! ```
//!
//! This is an error that echoes a whole request of L bytes. An acknowledgement and a capped error echo only the header,
//! and their attributes begin at 36. The number and the port are those of the request.
//!
//! `specs/Answers.antt` defines the message of each answer; `specs/Wires.antt` of `neli_msg` defines the bytes of every
//! message.
#![tactic(auto)]

mod dump;
pub mod laws;
mod message;
mod request;
mod unasked;

pub use dump::Dump;
pub use request::{ExtAck, Request, read_ext_ack};
pub use unasked::notification;
