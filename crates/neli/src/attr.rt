//! Operations on attributes of both kinds: their payloads, and handles to look them up.
//!
//! The kinds themselves are with their protocols: `Nlattr` in [`crate::genl`], `Rtattr` in [`crate::rtnl`].

pub use neli_attr::{AttrHandle, AttrSlice, Attribute, laws};
pub use neli_list::{Retyped, ToTyped, TypedPayload};
