//! The numbers of the attributes in routing messages, by name, and the types that read such a
//! number.
//!
//! Each table is an enum with a variant for each name and `UnrecognizedConst` for every other
//! number. A number is read as the first variant that has it, and written from there as the same
//! number, so none is lost. Two values are equal where they are the same variant; a hand-made
//! `UnrecognizedConst` with a named number is equal to no named variant.
//!
//! `From` goes both ways, to the number also from a reference. By [`neli_wire::Constant`] each
//! table is written as its number, and read from it. [`RtaType`] is the bound of code that takes
//! any of them, and [`RtaTypeWrapper`] the value of all of them.
//!
//! The kernel's header and the prefix of its names stand with each table; a variant is spelled like
//! the rest of the kernel's name.
//!
//! - `addresses`: attributes of addresses
//! - `links`: attributes of links
//! - `link_kinds`: attributes inside those of links, which depend on the kind of link
//! - `neighbours`: attributes of neighbours
//! - `queues`: attributes of queueing disciplines
//! - `routes`: attributes of routes
//! - `rules`: attributes of routing rules
//! - `rta_type`: any of these
#![tactic(auto)]

mod addresses;
pub mod laws;
mod link_kinds;
mod links;
mod neighbours;
mod queues;
mod routes;
mod rta_type;
mod rules;

pub use addresses::Ifa;
pub use link_kinds::{IflaInfo, IflaVlan, IflaVlanQos};
pub use links::Ifla;
pub use neighbours::Nda;
pub use queues::Tca;
pub use routes::Rta;
pub use rta_type::{RtaType, RtaTypeWrapper};
pub use rules::Frattr;
