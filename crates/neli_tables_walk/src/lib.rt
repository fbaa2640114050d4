//! A message by a family's table: its line, its attributes, and its values as text and as JSON (RFC 8259).
//!
//! Which line a message has:
//!
//! - [`body_of`]: the body of a message by its header: the table of its family, the line of the
//!   message, the header of generic netlink before the body, and the body's bytes.
//! - [`is_answer`], [`answer_of`]: whether a message is an answer of every protocol, and what its
//!   attributes are.
//! - [`learn_from`]: learns the number of a family of generic netlink from a message of the
//!   controller. [`first_payload`]: an attribute of a list by its number.
//! - [`built_in`]: the tables of all families that are built in.
//!
//! A walk over the attributes of a [`Body`], each with its path and what its row says; nests, next
//! hops and what a choice picks are entered:
//!
//! - [`Walk`]: each attribute of a body, those in a nest after the nest, and what is left behind
//!   the attributes of a list.
//! - [`Item`]: the path of an attribute or a hop, its type field, its payload, and what this is
//!   ([`Shape`]).
//! - [`find`]: the path to the attribute at an offset.
//! - [`Context`]: what payloads are read by, a table and the address family of the message; what a
//!   message's body is by the message's line.
//!
//! The walk takes no memory: at most [`MAX_DEPTH`] lists are open at once, and a nest below these
//! is reported and not entered.
//!
//! Values by the lines of a table:
//!
//! - [`Payload`]: the bytes of an attribute or a body, and the line that says what they are.
//!   [`PayloadText`] and [`PayloadJson`] print them.
//! - [`Fields`]: the bytes of a structure, and its line. [`FieldsText`] and [`FieldsJson`] print
//!   them.
//! - [`breach_of`]: how a payload cannot be of its kind. Such a payload is printed as bytes.
//! - [`Name`], [`NameJson`]: a name that stands in a table. [`LineName`]: that of the line at a place.
//! - [`number_in`]: the number that bytes are by its [`Width`]. [`without_zero`]: a text in bytes.
//! - [`Decimal`], [`SignedDecimal`]: numbers in decimal digits.
//! - [`Quoted`], [`Hex`], [`Hardware`], [`Bytes`], [`BytesJson`]: texts, bytes and hardware
//!   addresses.
//!
//! What is printed is a function of the table and the bytes: `payload_text` and `payload_json` of
//! `specs/Values.antt`, `fields_text` and `fields_json` of `specs/Fields.antt`. In JSON it is one
//! value: `payload_json-json` and `fields_json-json` of `specs/laws/Values.antt`.
#![tactic(auto)]

mod answer;
mod body;
mod breach;
mod built;
mod cell;
mod chosen;
mod context;
mod controller;
mod digits;
mod element;
mod field_bytes;
mod fields;
mod flags;
mod form;
mod generic;
mod head;
mod hex;
mod item;
mod level;
mod levels;
mod located;
mod name;
mod named;
mod number;
mod numbered;
mod offset;
mod payload;
mod plain;
mod quoted;
mod shape;
mod socket;
mod structures;
mod walk;

pub use answer::{answer_of, is_answer};
pub use body::Body;
pub use breach::{Breach, without_zero};
pub use built::built_in;
pub use context::Context;
pub use controller::{first_payload, learn_from};
pub use digits::{Decimal, SignedDecimal};
pub use fields::{Fields, FieldsJson, FieldsText};
pub use generic::{GENERIC_HEADER_SIZE, GenericHeader};
pub use head::Head;
pub use hex::{Bytes, BytesJson, Hardware, Hex};
pub use item::{Found, Item, Path, Rest, Step, Visit};
pub use level::MAX_DEPTH;
pub use located::body_of;
pub use name::{LineName, Name, NameJson};
pub use number::{Number, NumberJson, Width, number_in, width_of};
pub use offset::find;
pub use payload::{Payload, PayloadJson, PayloadText, breach_of};
pub use quoted::Quoted;
pub use shape::{Nest, Shape};
pub use walk::{Visits, Walk};
