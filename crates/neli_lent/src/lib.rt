//! Messages and attributes read without a copy: their payloads are the bytes that they were read from.
//!
//! - [`LentMessages`] walks the messages of a datagram, and [`LentMessage`] is one: its header, and its
//!   payload's bytes. It becomes an owned, typed message by `to_nlmsghdr`.
//! - [`LentAttrs`] walks attributes, generic or routing ones by the type of their type field, and
//!   [`LentAttr`] is one. [`LentNlattrs`] and [`LentRtattrs`] are names for the two.
//! - [`FromSpan`]: `Nlmsghdr::<T, P>::from_span` reads the bytes of one message as the caller's types, with its lengths
//!   computed.
//! - [`lend_payload`]: the frame that all of them are, once its header is read.
//! - [`AttrSelector`]: the types that find attributes.
//! - [`laws`]: lent values are those read as owned values, or refused with them.
//!
//! Both walks are iterators over results. They take no allocator, and memory never runs out: the only error is the
//! first fault of the bytes; it comes once, and nothing after it.
//!
//! `specs/` states what a walk gives, by the same frames and cuts as the owned reads.
#![tactic(auto)]

mod attribute;
mod attributes;
mod frame;
pub mod laws;
mod message;
mod messages;
mod selector;
mod span;

pub use attribute::{LentAttr, LentNlattr, LentRtattr};
pub use attributes::{LentAttrs, LentNlattrs, LentRtattrs};
pub use frame::lend_payload;
pub use message::LentMessage;
pub use messages::LentMessages;
pub use selector::AttrSelector;
pub use span::FromSpan;
