//! A table of the kernel's objects that a program keeps current: a dump, and then the notifications, folded by key. It
//! has no socket: the caller hands in the messages that a session reads.
//!
//! - [`Keys`]: which messages say that an object is there or gone, and which of their bytes are its key.
//! - [`Cache`]: the table, and its [`neli_session::Freshness`]. While a dump is read the table stays as it is; at the
//!   dump's end it is replaced at once.
//! - [`Table`]: objects by their keys. [`Change`]: what a message or a dump changed.
//!
//! `specs/Keys.antt` says what a message says of which object, `specs/Fold.antt` what a table is by whole lists of
//! messages, and what each call changes at each key; [`laws`] speak of all calls of a cache.
#![tactic(auto)]

mod cache;
mod change;
mod difference;
mod families;
mod keys;
pub mod laws;
mod table;
mod walk;

pub use cache::Cache;
pub use change::Change;
pub use difference::Changes;
pub use keys::{Keys, Part};
pub use table::Table;
pub use walk::Entries;
