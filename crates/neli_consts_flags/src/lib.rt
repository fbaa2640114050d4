//! The flags of the fields in routing bodies, by name.
//!
//! Each set is a number whose bits have names; the names are constants of the type. Some names
//! share their bits, and one may have none or several. The sets are instances of one type,
//! [`FlagSet`], so their calls are written and proved once.
//!
//! The calls of a set are those of `bitflags::Flags`. `|`, `&`, `-` and `^` are the union, the
//! intersection, the difference and the symmetric difference, and `!` gives the named bits that are
//! not in the set. `From` of a number keeps only the named bits. By [`neli_wire::Constant`] a set
//! is written as its number, and read with all of its bits, also those without a name.
//!
//! The kernel's header and the prefix of its names stand with each set; a constant is spelled like
//! the rest of the kernel's name.
//!
//! - `iff`: links
//! - `ifa_f`: addresses
//! - `rtm_f`: routes
//! - `nud`, `ntf`: neighbours
//! - `vlan_flags`: virtual LANs
//! - `frf`: routing rules
#![tactic(auto)]

// The named flags of a set, as `Kind::flags` lists them.
macro_rules! flag_list {
    ($set:ident: $($name:ident),*) => {
        &[$(Flag { name: stringify!($name), value: $set::$name },)*]
    };
}

mod frf;
mod ifa_f;
mod iff;
pub mod laws;
mod ntf;
mod nud;
mod rtm_f;
mod set;
mod vlan_flags;

pub use frf::Frf;
pub use ifa_f::IfaF;
pub use iff::Iff;
pub use ntf::Ntf;
pub use nud::Nud;
pub use rtm_f::RtmF;
pub use set::{FlagSet, Kind, Of};
pub use vlan_flags::VlanFlags;
