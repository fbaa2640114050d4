//! Sockets: address families, netlink families, flags of a message that is sent or received.

pub use neli_consts_system::{AddrFamily, Msg, NlFamily};
