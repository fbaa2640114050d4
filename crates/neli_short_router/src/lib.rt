//! Short calls of a router: a request by its body, datagrams with the numbers of their groups, and reads by the
//! handle's own types.
//!
//! - [`Client`]: the calls, each over the one of the router that it stands for.
//! - [`Request`]: the bytes to send, and the handle for the answer. [`Next`]: what a read returns that is no error.
//!   [`Dump`]: all items of an answer, and the verdict on it.
//! - [`laws`]: the items of a dump are those of the reply rule, and its verdict is the one on them.
//!
//! `specs/Reads.antt` defines one read, and one read after another.
#![tactic(auto)]

mod client;
mod dump;
pub mod laws;
mod next;
mod request;

pub use client::Client;
pub use dump::Dump;
pub use next::Next;
pub use request::Request;
