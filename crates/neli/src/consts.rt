//! The numbers and flags of the kernel's headers, a module for each group of them.
//!
//! An enum keeps a number without a name, a flag set every bit that it read. An enum of your own is a [`Constant`]; its
//! flags are seen through [`Flags`].

pub mod connector;
pub mod genl;
pub mod laws;
pub mod linux;
pub mod netfilter;
pub mod nl;
pub mod rtnl;
pub mod socket;

pub use bitflags::Flags;
pub use neli_consts::MAX_NL_LENGTH;
pub use neli_texts::{FlagNames, NamedFlags};
pub use neli_wire::{Constant, WireNumber, alignto};
