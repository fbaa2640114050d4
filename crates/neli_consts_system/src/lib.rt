//! The numbers of the connector, of netfilter's logging and of sockets, by name.
//!
//! Each table is an enum with a variant for each name and `UnrecognizedConst` for every other
//! number. A number is read as the first variant that has it, and written from there as the same
//! number, so none is lost. Two values are equal where they are the same variant; a hand-made
//! `UnrecognizedConst` with a named number is equal to no named variant. `From` goes both ways, to
//! the number also from a reference.
//!
//! [`Msg`] is a set of flags: its calls are those of `bitflags::Flags`, and `From` of a number
//! keeps only the named bits. `|`, `&`, `-` and `^` are the union, the intersection, the difference
//! and the symmetric difference, and `!` gives the named bits that are not in the set.
//!
//! By [`neli_wire::Constant`] each value is written as its number, and read from it, a set with all
//! of its bits. The kernel's header and the prefix of its names stand with each table; a name is
//! spelled like the rest of the kernel's.
//!
//! - `connector`: the connector and its events of processes
//! - `netfilter`: netfilter's logging
//! - `socket`: families of sockets
//! - `msg`: the flags of sending and receiving
#![tactic(auto)]

// The named flags of a set, as `Flags::flags` lists them.
macro_rules! flag_list {
    ($set:ident: $($name:ident),*) => {
        &[$(Flag { name: stringify!($name), value: $set::$name },)*]
    };
}

mod connector;
pub mod laws;
mod msg;
mod netfilter;
mod socket;

pub use connector::{CnMsgIdx, CnMsgVal, ProcCnMcastOp, ProcEventType};
pub use msg::Msg;
pub use netfilter::{LogCmd, LogCopyMode, NetfilterMsg, NfLogAttr, NfLogCfg};
pub use socket::{AddrFamily, NlFamily};
