//! Multicast groups, and arrays of bits.

pub use neli_util::{Groups, NetlinkBitArray};
