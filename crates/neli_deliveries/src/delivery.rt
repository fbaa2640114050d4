//! A delivery that waits for a handle.

use neli_attr::Buffer;
use neli_consts::NlmF;
use neli_reader::{Nlmsghdr, SocketError};

/// A delivery that waits for a handle until it is read.
#[derive(Debug, Drop)]
pub enum Delivery {
    /// A message for this handle only.
    Message(Nlmsghdr<u16, Buffer>),
    /// A message that arrived for no group, and has another port than the router's or a sequence
    /// number that is not open. Each open number gets it.
    Stray(Nlmsghdr<u16, Buffer>),
    /// A datagram could not be read to its end, or the link failed. Each open number gets it.
    Fault(SocketError),
}

/// A delivery, by the header of its message.
#[derive(Clone, Copy, Debug, PartialEq, Eq)]
pub enum Heading {
    /// A message for this handle only: its type and its flags.
    Message(u16, NlmF),
    /// A stray, or a fault.
    Other,
}
