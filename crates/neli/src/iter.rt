//! The messages of a datagram, one by one or all at once.

pub use neli_reader::{NlBufferIter, cut};
