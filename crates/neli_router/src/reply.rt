//! The result of a read.

use neli_reader::{Nlmsghdr, RouterError};

/// The result of a read of a handle.
#[derive(Debug, Drop)]
pub enum Reply<T, P> {
    /// The next item: a message, or an error in place of one.
    Item(Result<Nlmsghdr<T, P>, RouterError<T, P>>),
    /// The handle has ended: no item follows.
    End,
    /// No item has arrived yet.
    Waits,
}
