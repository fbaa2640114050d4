//! The router, call by call: each request gets a sequence number, and a reply that arrived for no group goes to the
//! handle of its request.
//!
//! - [`NlRouter`]: sends, takes in datagrams and faults of the link, returns a handle's next item.
//! - [`NlRouterReceiverHandle`]: the handle of a request, by its sequence number, or that of multicast, without one.
//! - [`Reply`]: what a read returns: an item, the end, or a wait.
//! - [`Verdict`]: how an answer stands: whether what was given is all of it; [`verdict_of`] returns it of items in a list.
//! - [`NlRouter::lend_next`] and [`NlRouter::pass`]: the same read of a router over a log, without a copy; [`LentReply`] is
//!   what it returns. [`NlRouter::lend_items`] lends all that wait, one after the other ([`ItemsAhead`]).
//! - [`laws`]: `==` of what is known of handles is equality, and a lent read is an owned one.
//!
//! `specs/Rule.antt` defines where a handle's answers end and what each read returns; `specs/Reads.antt` a read of the
//! next item, and the step past it; `specs/Same.antt` what a call leaves as it was; `specs/Sends.antt` the bytes of a
//! request, and the three causes that refuse it; `specs/Requests.antt` the two requests to the controller of generic
//! netlink; `specs/Verdicts.antt` the verdict on an answer, by where the other side's ends ([`Answering`]), and
//! `specs/GivenUp.antt` what is kept of one that was given up; `specs/Lending.antt` what a lent read lends, and what
//! passing it changes; `specs/Ahead.antt` the same of items that are lent one after the other.
#![tactic(auto)]

mod ahead;
mod given_up;
mod handle;
mod items;
pub mod laws;
mod lending;
mod listening;
mod reply;
mod requests;
mod router;
mod rule;
mod verdict;

pub use ahead::ItemsAhead;
pub use given_up::GivenUp;
pub use handle::{HandleState, NlRouterReceiverHandle};
pub use items::{filtered_of, verdict_of};
pub use lending::{LentError, LentReply};
pub use listening::{Missed, Notice};
pub use neli_answers::{Answering, is_dump};
pub use neli_deliveries::{Deliveries, Delivery, Heading};
pub use reply::Reply;
pub use router::NlRouter;
pub use verdict::{Heard, Loss, Verdict};
