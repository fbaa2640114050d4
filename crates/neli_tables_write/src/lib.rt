//! Messages written by the names of a family's table.
#![tactic(auto)]

mod address;
mod asked;
mod attributes;
mod attributes_json;
mod choice;
mod fields;
mod flag_names;
mod given;
mod integer;
mod json;
mod members_json;
mod message;
mod names;
mod nested;
mod open;
mod refusal;
mod refusing;
mod request;
mod structure;
mod text;
mod value;
mod why;

pub use address::{hardware_bytes, ip_bytes, ipv4_bytes, ipv6_bytes};
pub use asked::{Asked, Part};
pub use attributes::{MAX_PAYLOAD, append_attribute};
pub use given::Given;
pub use integer::{Integer, integer_bytes};
pub use message::Message;
pub use names::{request_named, row_named};
pub use refusal::Refusal;
pub use request::{Written, message_from_json};
pub use text::text_bytes;
pub use value::{number_bytes, value_bytes};
pub use why::Why;
