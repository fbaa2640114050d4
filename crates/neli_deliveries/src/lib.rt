//! Who gets what: the deliveries of a router, and what a store of them must keep.
//!
//! - [`Delivery`]: waits for a handle: a message of its own, a stray one, or a fault.
//! - [`Heading`]: a delivery by the header of its message.
//! - [`Deliveries`]: a list of these for each open sequence number, and one for multicast.
//!
//! `specs/Deliveries.antt` states which handles get a datagram or a fault of the link,
//! `specs/Readings.antt` what a delivery is as the caller's types.
#![tactic(auto)]

mod deliveries;
mod delivery;

pub use deliveries::Deliveries;
pub use delivery::{Delivery, Heading};
