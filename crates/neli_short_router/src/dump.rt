//! The items of an answer.

use neli_reader::{Nlmsghdr, RouterError};
use neli_router::Verdict;

/// The items of an answer that have arrived, and the verdict on it.
#[derive(Drop)]
pub struct Dump<T, P> {
    /// Each message, or the error in place of one, in their order. The last item of a whole dump is its end, a message
    /// without a body of these types.
    pub items: Vec<Result<Nlmsghdr<T, P>, RouterError<T, P>>>,
    /// Whether the answer is whole, as [`NlRouter::verdict`](neli_router::NlRouter::verdict) returns it after these
    /// reads; `Pending` where the end has not arrived.
    pub verdict: Verdict,
}
