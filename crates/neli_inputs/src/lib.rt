//! Cuts the usual forms of netlink input into datagrams.
//!
//! - [`read_input`] takes raw bytes, hexadecimal text or a pcap file of `nlmon`, and detects which.
//! - [`pcap`] reads a pcap file.
//! - [`text`] reads hexadecimal text: plain, of `xxd`, or of `tcpdump -x`.
//!
//! A datagram is named by its place among the bytes that were read ([`Packet`]); so nothing is copied except the bytes
//! of a text. Each part that is not a datagram is a [`Refusal`] at its place; reading continues after it.
#![tactic(auto)]

mod cooked;
mod input;
mod item;
mod line;
mod order;
pub mod pcap;
pub mod pcapng;
pub mod text;
mod time;

pub use input::read_input;
pub use item::{Input, Item, Packet, Refusal};
