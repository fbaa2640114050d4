//! The plain store of deliveries: a list for each open number, found by the number.
//!
//! - [`Queues`]: the store, an implementation of [`neli_deliveries::Deliveries`].
//!
//! A datagram is read and cut into pieces, and every refusal is returned, before any list changes.
//! A piece is a delivery in a list of its own, with the number that it goes to. Appending it to the
//! list of that number takes no memory.
//!
//! `specs/Queues.antt` defines what the fields hold, `specs/Pieces.antt` what a number gains from
//! pieces.
#![tactic(auto)]

mod appending;
mod piece;
mod queues;
mod reading;
mod staging;

pub use queues::Queues;
