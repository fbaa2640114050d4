//! What the exports of `neli_c` stand on: the structs of C, and what the calls do with them.
//!
//! - [`code`] is what a call returns, [`message`] a message and an attribute as C has them, and [`bytes`] the caller's
//!   bytes. [`answering`] reads errors and acknowledgements.
//! - [`session`] is what a router for C holds: [`lent_reads`] are its reads without a copy, [`outcome`] the codes of
//!   what it returns, [`lending`] an item where the router keeps it, [`ahead`] several. [`router_place`] and
//!   [`router_opaque`] are how C holds that.
//! - [`asking`] is a request, and [`dumping`] what a dump holds that answers one: [`dump_place`] and [`dump_opaque`]
//!   are how C holds that.
//! - [`expecting`] is how a request is answered.
//! - [`families`] are tables: [`tables_place`] and [`tables_opaque`] are how C holds them. [`tabling`] adds to them,
//!   [`printing`] prints messages by them, and [`naming`] finds attributes by name and what is wrong with them.
//! - [`writing`] writes messages that JSON asks for, and [`diagnosing`] says why the kernel refused one.
//! - [`lookups`] finds numbers by their names and names by their numbers, and adds one table that is built in.
//! - [`named`] has the items of a walk by name, [`named_fields`] the fields of the structure before them, and [`room`] writes a text into bytes that may be too few for it.
//! - [`laws`] has what follows from the contracts.
#![tactic(auto)]

pub mod ahead;
pub mod answering;
pub mod asking;
pub mod bytes;
pub mod code;
pub mod diagnosing;
pub mod dump_opaque;
pub mod dump_place;
pub mod dumping;
pub mod expecting;
pub mod families;
pub mod laws;
pub mod lending;
pub mod lent_reads;
pub mod lookups;
pub mod message;
pub mod named;
pub mod named_fields;
pub mod naming;
pub mod outcome;
pub mod printing;
pub mod room;
pub mod router_opaque;
pub mod router_place;
pub mod session;
pub mod tables_opaque;
pub mod tables_place;
pub mod tabling;
pub mod writing;
