//! The work of the program `neli_tool`, over the caller's reader and writers.
//!
//! - [`run`] does what the words of the command line request, and returns how the run ends.
//! - [`listing`] lists the messages of a datagram; `list` reads one and writes its listing.
//! - [`rewriting`] writes a datagram again, with zeros for its padding; `list_zero` does so for an input.
//! - [`replay`] reads a script, performs its commands with a new router, and writes a line for each; [`laws`] states
//!   which line is named as bad.
//! - [`line`] has the line of a message, and that of an ending.
//! - [`input`] reads a whole input.
//! - [`status`] is how a run ends.
#![tactic(auto)]

mod entry;
pub mod input;
pub mod laws;
pub mod line;
pub mod listing;
mod play;
pub mod replay;
mod report;
pub mod rewriting;
pub mod run;
mod script;
pub mod status;
mod words;
