//! The numbers of routing messages and of the fields in their bodies, by name.
//!
//! Each table is an enum with a variant for each name and `UnrecognizedConst` for every other
//! number. A number is read as the first variant that has it, and written from there as the same
//! number, so none is lost. Two values are equal where they are the same variant; a hand-made
//! `UnrecognizedConst` with a named number is equal to no named variant.
//!
//! `From` goes both ways, to the number also from a reference. By [`neli_wire::Constant`] each
//! table is written as its number, and read from it.
//!
//! The kernel's header and the prefix of its names stand with each table; a variant is spelled like
//! the rest of the kernel's name.
//!
//! - `addresses`: address families
//! - `links`: kinds of link
//! - `messages`: types of routing messages
//! - `routes`: fields of a route
//! - `rules`: actions of routing rules
#![tactic(auto)]

mod addresses;
pub mod laws;
mod links;
mod messages;
mod routes;
mod rules;

pub use addresses::{Af, RtAddrFamily};
pub use links::Arphrd;
pub use messages::Rtm;
pub use routes::{RtScope, RtTable, Rtn, Rtprot};
pub use rules::FrAct;
