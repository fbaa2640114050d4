//! Attributes: a length, a type and a payload, padded to four bytes.
//!
//! - [`Nlattr`]: an attribute of generic netlink, whose type field [`AttrType`] has two flags. [`Rtattr`]: one of
//!   routing netlink. [`Attribute`]: the calls for the payload of both.
//! - [`NlattrBuilder`], [`RtattrBuilder`]: they compute the length, and return a [`BuildError`].
//! - [`Buffer`]: bytes, the payload of an attribute that was made or read.
//! - [`GenlBuffer`], [`RtBuffer`]: lists of attributes.
//! - [`GenlAttrHandle`], [`RtAttrHandle`]: lists with look-ups of attributes.
//! - [`laws`]: laws of lists, of built attributes, and of nested ones.
//!
//! `specs/` states what is read and written, in `Nlattr`, `Rtattr` and `RoundTrips`. Lists and handles are those of
//! `neli_list`, whose pages are `Handles`, `Lookup` and `Payloads`; [`Buffer`], [`AttrType`], [`Attribute`] and
//! [`BuildError`] those of `neli_attr_parts`: `Attributes`, `Buffers`, `Builders` and `TypeField`.
#![tactic(auto)]

pub mod laws;
mod nlattr;
mod rtattr;

pub use neli_attr_parts::{
    AttrType, AttrTypeBuilder, AttrTypeBuilderError, Attribute, Buffer, BuildError, of,
};
pub use neli_list::{AttrHandle, AttrSlice, FrameList, TryClone};
pub use nlattr::{GenlAttrHandle, GenlBuffer, Nlattr, NlattrBuilder, NlattrBuilderError};
pub use rtattr::{RtAttrHandle, RtBuffer, Rtattr, RtattrBuilder, RtattrBuilderError};
