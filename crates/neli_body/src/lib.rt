//! The parts of all families' bodies: a header of fixed size, and what follows it.
//!
//! - [`HeaderBytes`]: the bytes of a header, appended field by field.
//! - [`numbers`]: the number at a place of a header.
//! - [`FixedHeader`]: what a type of headers states. [`read_fixed`], [`write_fixed`]: a header alone.
//! - [`read_body`], [`write_body`], [`size_of_body`]: a header and what follows it, such as attributes.
#![tactic(auto)]

mod body;
mod fixed;
mod header_bytes;
pub mod laws;
pub mod numbers;

pub use body::{read_body, size_of_body, write_body};
pub use fixed::{FixedHeader, read_fixed, write_fixed};
pub use header_bytes::HeaderBytes;
