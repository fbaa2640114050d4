//! The library for C: thin exports, which `include/neli.h` declares, over what `neli_c_parts` has.
//!
//! - [`lent`] walks over messages and attributes in the caller's bytes, [`several`] stores many of them in one call,
//!   and [`number`] reads numbers and texts of a payload.
//! - [`lists`] finds lists of attributes and looks attributes up, and [`answer`] reads errors and acknowledgements.
//! - [`write`] writes messages, attributes and nests into the caller's bytes, and [`json`] messages that JSON asks for.
//! - [`router`] has a router behind a struct that the library alone looks into.
//! - [`session`] has a session behind such a struct.
//! - [`kept`] says whether a list that a program keeps is current.
//! - [`expecting`] says how Linux answers a request, and where its answer ends.
//! - [`kernel`] makes a kernel's answers to a request, and [`dump`] those in several messages.
//! - [`tables`] has families' tables, [`printed`] messages by them as text and as JSON, and [`named`] their attributes
//!   one by one, and what is wrong with them.
//! - [`names`] has names by numbers and numbers by names, [`text`] what codes are called.
//!
//! Each call returns a code: from 0 on a result, below 0 a refusal. A refusal leaves its arguments unchanged, unless
//! the call states otherwise.
#![tactic(auto)]

pub mod answer;
pub mod dump;
pub mod expecting;
pub mod json;
pub mod kept;
pub mod kernel;
mod lending;
pub mod lent;
pub mod lists;
pub mod named;
pub mod names;
pub mod number;
pub mod printed;
pub mod router;
pub mod session;
pub mod several;
pub mod tables;
pub mod text;
pub mod write;
