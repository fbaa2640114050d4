//! Netlink messages by families' tables, as text for people and as JSON (RFC 8259).
//!
//! - [`DatagramText`], [`DatagramJson`]: the messages of a datagram, and the fault after them.
//! - [`MessageText`], [`MessageJson`]: a message: its header, and what its payload is by the
//!   tables.
//! - [`ItemText`], [`ItemJson`]: an item of a walk over attributes.
//! - [`laws`]: JSON is one value a message, and lines of such values a datagram.
//!
//! Each of the first three is printed by `Display`, and takes no memory. What it prints is a function of the tables
//! and the bytes: `datagram_text`, `message_json` and the others of `specs/`.
#![tactic(auto)]

mod answer;
mod body;
mod datagram;
mod fault;
mod flag_rows;
mod flags;
mod head;
mod item;
mod item_json;
mod item_text;
pub mod laws;
mod list;
mod message;
mod message_name;
mod names;
mod pieces;
mod reply;
mod rests;

pub use datagram::{Datagram, DatagramJson, DatagramText};
pub use fault::Fault;
pub use head::Header;
pub use item::Open;
pub use item_json::ItemJson;
pub use item_text::ItemText;
pub use message::{Message, MessageJson, MessageText};
pub use pieces::{Colour, When, escape};
