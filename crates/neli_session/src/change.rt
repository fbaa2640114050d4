//! What happens to several requests at once.

use crate::Loss;

/// What happens to several requests at once.
#[derive(Clone, Copy, Debug, PartialEq, Eq)]
pub enum Change {
    /// The link sends them, and their answers may come.
    Leave,
    /// The link has sent them.
    Sent,
    /// The link has not sent them: its errno.
    Unsent(i32),
    /// Something was lost.
    Lose(Loss),
    /// The link was seen empty.
    Settle,
}
