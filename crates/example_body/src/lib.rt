//! Types of a user's own on the wire layer.
//!
//! - [`Watch`]: a port and a list of levels, one after the other, with writing and reading.
//! - [`Probe`]: a header of a few fields and a payload of any type, with a builder.
//! - [`Gauge`]: fields of fixed size and then attributes, as most bodies of routing: the fields alone are its own.
//!
//! Each file has, in this order: the struct, its getters, its sizes, its bytes, its reading or its builder, and the
//! laws of these, from the facts of its fields only.
#![tactic(auto)]

mod gauge;
mod probe;
mod watch;

pub use gauge::{Gauge, GaugeHeader};
pub use probe::{DEFAULT_HOPS, Probe, ProbeBuilder, ProbeBuilderError};
pub use watch::Watch;
