//! Short calls: what a program writes most often, each over the calls that it stands for.
//!
//! - [`Made`], [`Put`]: an attribute of a type and a payload, and lists that grow by them, nests from the outside in.
//! - [`Lookup`], [`LentLookup`]: an attribute that is looked up and read, also at the end of a path through nests, of
//!   owned attributes and of lent ones. [`AttrError`]: which attribute can't be read, and why.
//! - [`ExtAck`], [`ExtAckBuilder`]: what an error says beside its code, by words.
//! - [`ReadBody`]: a message's body as a type of the caller's, of owned messages and of lent ones.
//! - [`laws`]: what these say of the types that they stand on.
//!
//! A call is named as the one that it stands for (`get_with_len` as `get_attr_payload_as_with_len`), and `specs/`
//! states its result by the definitions of that one.
#![tactic(auto)]

mod body;
mod error;
mod ext_ack;
mod ext_ack_builder;
mod found;
pub mod laws;
mod lent;
mod look;
mod make;

pub use body::ReadBody;
pub use error::AttrError;
pub use ext_ack::ExtAck;
pub use ext_ack_builder::ExtAckBuilder;
pub use lent::LentLookup;
pub use look::Lookup;
pub use make::{Made, Put};
