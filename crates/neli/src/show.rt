//! Messages by the tables of their families, as text for people and as JSON (RFC 8259).
//!
//! - [`DatagramText`], [`DatagramJson`]: the messages of a datagram, and the fault after them.
//! - [`MessageText`], [`MessageJson`]: a message: its header, and what its payload is by the tables.
//! - [`ItemText`], [`ItemJson`]: an item of a walk over attributes.
//!
//! Each is printed by `Display` and takes no memory. What it prints is a function of the tables and the bytes; in JSON
//! each message is one value ([`laws`]).

pub use neli_print::{
    Datagram, DatagramJson, DatagramText, Fault, Header, ItemJson, ItemText, Message, MessageJson,
    MessageText, Open, laws,
};
