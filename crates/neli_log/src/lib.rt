//! The shared store of deliveries: each is stored once, however many handles wait for it.
//!
//! - [`Log`]: the store, an implementation of [`neli_deliveries::Deliveries`].
//! - [`Places`]: the entries, each stored once, and a place among them for each list that waits; [`Entry`], [`Route`].
//! - [`Datagrams`]: each datagram, stored once, as long as a [`Span`] names a part of it.
//! - [`laws`]: `==` of routes and of spans is equality.
//! - [`LentDelivery`]: the first delivery that waits, lent in place by [`Log::lend_first`]; [`Ahead`]: all of them.
//!
//! A datagram's bytes are copied once, and a message is a span of them. An entry of the log is such a span or a fault,
//! with the route that was decided on arrival; each open number, and multicast until it is closed, has a place among
//! the entries. Here two datagrams arrived; 4 waits for three entries, 6 for two and 5 for none:
//!
//! ```text
//!  datagrams       0: 48 bytes                    1: 16 bytes
//!                 /     |      \                   |
//!  entries    to 4    to 6    to all (a stray)    to 4
//!              ^        ^                          ^
//!  places      4        6                          5
//! ```
//!
//! When 4 reads its first message, the entry before 6's place is removed, and the bytes of datagram 0 stay for the
//! other two. Every refusal is returned before anything changes.
//!
//! By definition, the entries alone show what a list waits for. To avoid a search, an entry links to the next one of
//! its number, a place stores the first and the last of its own, and each entry for all numbers counts the places that
//! stand at it. No datagram is kept without a span, and the serial numbers of the kept ones have no gap. No clause
//! speaks of time; as the code is written, that of a step does not grow with the places, nor with the entries that wait.
//!
//! `specs/Routes.antt` defines the receivers of entries; `specs/Places.antt` and `specs/Spans.antt` what the fields of
//! `Places` and `Datagrams` hold; `specs/Contents.antt` the delivery of an entry, `specs/Routed.antt` the routes of a datagram's deliveries,
//! `specs/Log.antt` what the fields hold, `specs/Next.antt` and `specs/Staged.antt` the reading of a datagram, step by
//! step, `specs/Lending.antt` what is lent, and `specs/Ahead.antt` what waits from a place on.
#![tactic(auto)]

mod adding;
mod ahead;
mod chains;
mod content;
mod counts;
mod datagrams;
mod entry;
mod forgetting;
mod handing;
pub mod hints;
pub mod laws;
mod lending;
mod log;
mod next;
mod part;
mod passing;
mod place;
mod places;
mod reading;
mod span;
mod staging;
mod store;

pub use ahead::Ahead;
pub use datagrams::Datagrams;
pub use entry::{Entry, Route};
pub use lending::LentDelivery;
pub use log::Log;
pub use places::Places;
pub use span::Span;
