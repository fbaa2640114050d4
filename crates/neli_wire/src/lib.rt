//! The wire layer of netlink: values that are written as bytes and read back.
//!
//! - [`Size`], [`ToBytes`], [`TypeSize`], [`Header`]: how long a value is, and its wire bytes.
//! - [`FromBytes`]: values that take as many bytes as they need. [`FromBytesWithInput`] and
//!   [`FromBytesWithInputBorrowed`]: values that are given their number of bytes.
//! - [`Constant`]: values that are one number each, such as enums and flag sets. It implies the traits above.
//! - [`Cursor`]: the place that reads go through.
//! - [`SerError`], [`DeError`], [`NoMemory`]: why a value is not written or read. [`MsgError`],
//!   [`UninitializedFieldError`]: the texts that these hold.
//! - [`implementing`]: what an implementer of these traits calls. [`laws`]: laws over the definitions.
//!
//! Implemented here: the integer types, lowest byte first, [`BeU16`], [`BeU32`] and [`BeU64`], `bool`, `Ipv4Addr`,
//! `Ipv6Addr`, `Vec<T>`, texts, byte slices and arrays, `()` and `PhantomData`. `specs/` states what a read or a write
//! means: `Sizes`, `Writing`, `Reading`, `Numbers`, `Constants`, `Strings` and `Frames`; and what the cursor and the errors
//! are: `Bytes`, `Place`, `Messages`, `ErrorTexts` and `Refusals`.
#![tactic(auto)]

mod addresses;
mod big_endian;
mod booleans;
mod bytes;
mod constants;
mod cursor;
mod errors;
mod frames;
pub mod implementing;
pub mod laws;
mod lists;
mod message;
mod numbers;
mod reading;
mod sizes;
mod texts;
mod unit;
mod writing;

pub use big_endian::{BeU16, BeU32, BeU64};
pub use constants::{Constant, WireNumber};
pub use cursor::Cursor;
pub use errors::{DeError, NoMemory, SerError, Utf8};
pub use message::{MsgError, UninitializedFieldError};
pub use reading::{FromBytes, FromBytesWithInput, FromBytesWithInputBorrowed, Header, TypeSize};
pub use sizes::{Size, alignto};
pub use writing::ToBytes;
