//! Texts for people: they take no memory, and print in a fixed form.
//!
//! - [`ExitStatus`]: how a process ended, as `exited with 3` or `killed by signal 9`.
//! - [`FlagNames`]: a set of flags by name, as `UP|RUNNING`.
#![tactic(auto)]

mod bit_names;
mod exit_status;
mod flag_names;
pub mod laws;

pub use exit_status::ExitStatus;
pub use flag_names::{FlagNames, NamedFlags};
