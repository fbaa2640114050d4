//! The commands of a run and their outcomes.

use neli_consts::NlmF;
use neli_reader::{NlPayload, Nlmsghdr, RouterError, SocketError};
use neli_util::Groups;

/// A command to a router. `ST` and `SP` are the types of sent messages and their payloads.
///
/// Handles are numbered: 0 is that for multicast, and k that of the k-th request that was sent.
#[derive(Drop)]
pub enum Command<ST, SP> {
    /// Sets the sequence number of the next request.
    SetNextSeq(u32),
    /// Sends a request of this type, with these flags and this payload.
    Send(ST, NlmF, NlPayload<ST, SP>),
    /// Takes in a datagram that arrived for these groups.
    Datagram(Vec<u8>, Groups),
    /// Takes in a fault of the link.
    Fault(SocketError),
    /// Reads the next item of this handle.
    Read(usize),
    /// Closes this handle.
    Close(usize),
}

/// The outcome of a command. `RT` and `RP` are the types that items are read as.
#[derive(Drop)]
pub enum Outcome<ST, SP, RT, RP> {
    /// Done: a number set, a datagram or a fault taken in, a handle closed.
    Done,
    /// These bytes are to be sent.
    Sent(Vec<u8>),
    /// Nothing is to be sent, for this cause.
    NotSent(RouterError<ST, SP>),
    /// The next item of the handle.
    Item(Result<Nlmsghdr<RT, RP>, RouterError<RT, RP>>),
    /// The handle has ended: no item follows.
    End,
    /// No item has arrived yet.
    Waits,
    /// The handle does not exist yet, or is closed.
    NoHandle,
}
