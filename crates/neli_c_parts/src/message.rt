//! Messages and attributes as C has them, and the codes of refused bytes.

ghost use Rattle.std.specs.Prelude.{◌≡◌, ◌≢◌, length};
ghost use Rattle.neli_c_parts.specs.Codes.{ok};
ghost use Rattle.neli_c_parts.specs.Walks.{header_view, refusal_code};

use crate::code::{BYTES, LENGTH, MEMORY, SHORT};
use neli_lent::LentMessage;
use neli_wire::DeError;
use std::io::ErrorKind;

/// The rest of a walk: the bytes from a place to an end.
#[repr(C)]
#[derive(Clone, Copy)]
pub struct NeliWalk {
    pub place: usize,
    pub end: usize,
}

/// A message: its header, and the place of its payload.
#[repr(C)]
#[derive(Clone, Copy)]
pub struct NeliMessage {
    pub length: u32,
    pub message_type: u16,
    pub flags: u16,
    pub number: u32,
    pub port: u32,
    pub payload: usize,
    pub payload_length: usize,
}

/// An attribute: its header, and the place of its payload. The type field is a number of 14 bits and two flags.
#[repr(C)]
#[derive(Clone, Copy)]
pub struct NeliAttribute {
    pub length: u16,
    pub field: u16,
    pub number: u16,
    pub flags: u16,
    pub payload: usize,
    pub payload_length: usize,
}

/// The fields of a message whose payload lies at this place.
pub fn message_at(lent: &LentMessage<'_, u16>, payload: usize) -> NeliMessage
    ensures header { header_view result ≡ lent.now.header }
    ensures payload { result.payload ≡ payload }
    ensures payload_length { result.payload_length ≡ length lent.now.payload.now }
{
    NeliMessage {
        length: *lent.nl_len(),
        message_type: *lent.nl_type(),
        flags: u16::from(*lent.nl_flags()),
        number: *lent.nl_seq(),
        port: *lent.nl_pid(),
        payload,
        payload_length: lent.nl_payload().len(),
    }
}

/// The code for refused bytes.
pub fn code_of(error: &DeError) -> i32
    ensures code { result ≡ refusal_code error.now }
    ensures refused { result ≢ ok }
{
    match error {
        DeError::Io(ErrorKind::UnexpectedEof) => SHORT,
        DeError::InvalidInput(_) => LENGTH,
        DeError::Memory => MEMORY,
        _ => BYTES,
    }
}
