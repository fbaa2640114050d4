//! The result of a read, without its errors.

use neli_reader::Nlmsghdr;

/// What a read of a handle returns that is no error.
#[derive(Debug, Drop)]
pub enum Next<T, P> {
    /// The next message.
    Message(Nlmsghdr<T, P>),
    /// The handle has ended: no message follows.
    End,
    /// No message has arrived yet.
    Waits,
}
