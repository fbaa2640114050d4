//! How a program adds the numbers of a netlink family that the library has no tables for: a few
//! commands and attributes of `nl80211`, the kernel's family for wireless links.
//! `docs/EXTENDING.md` explains it.
//!
//! - `command`: an enum of commands, a [`neli::consts::genl::Cmd`]
//! - `attribute`: an enum of attributes, a [`neli::consts::genl::NlAttrType`]
#![tactic(auto)]

mod attribute;
mod command;

pub use attribute::WirelessAttribute;
pub use command::WirelessCommand;
