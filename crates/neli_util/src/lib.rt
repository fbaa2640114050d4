//! What netlink programs use beside their messages: multicast groups and bit arrays.
//!
//! - [`Groups`]: the multicast groups of a datagram or a membership, a list without 0.
//! - [`NetlinkBitArray`]: the numbers that are set, from 1 to a capacity, as the kernel writes them for a list of group
//!   memberships.
//!
//! Their meaning is stated in `specs/`: `Groups`, `Masks` and `BitArrays`.
#![tactic(auto)]

mod bit_array;
mod groups;
mod masks;

pub use bit_array::NetlinkBitArray;
pub use groups::Groups;
