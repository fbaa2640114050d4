//! Lists of values that are written and read one after the other, such as attributes and messages, and handles that
//! find attributes in them.
//!
//! - [`FrameList`]: the list, of any values. [`TryClone`]: values that are copied with their list.
//! - [`AttrHandle`]: an owned list or lent attributes, with look-ups.
//! - [`TypedPayload`], [`Retyped`], [`ToTyped`]: what a handle requires of its attributes.
//! - [`read_first`], [`read_whole`], [`read_borrowed`]: values read from a payload.
//! - [`laws`]: what lists state about themselves.
#![tactic(auto)]

mod frame_list;
mod handle;
pub mod laws;
mod listed;
mod payload;
mod try_clone;

pub use frame_list::FrameList;
pub use handle::{AttrHandle, AttrSlice, Retyped, ToTyped, TypedPayload};
pub use listed::handle_of_payload;
pub use payload::{read_borrowed, read_first, read_whole};
pub use try_clone::TryClone;
