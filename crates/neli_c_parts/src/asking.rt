//! A request as C has it, and messages in answer to it as bytes.

ghost use Rattle.std.specs.Prelude.{◌≡◌, ◌≢◌, IfErr, IfOk, Ok};
ghost use Rattle.neli_c_parts.specs.Asked.{IsAsked, SaysWants, WritesAnswer, notification_wire};
ghost use Rattle.neli_c_parts.specs.Asked.{byte_of, ser_code};
ghost use Rattle.neli_c_parts.specs.Codes.{ok};
ghost use Rattle.neli_c_parts.specs.Writes.{WritesMessage};
ghost use Rattle.neli_c_parts.specs.Walks.{header_view};

use crate::bytes::copy;
use crate::code::{LENGTH, MEMORY};
use crate::message::NeliMessage;
use neli_attr::Buffer;
use neli_consts::NlmF;
use neli_kernel::{Request, notification};
use neli_reader::{NlmsghdrAck, NlmsghdrAckBuilder};
use neli_wire::{Constant, SerError};
use std::alloc::Global;

/// A request: the message, the port of the socket that sent it, and what its header asks for, each 1 or 0.
#[repr(C)]
#[derive(Clone, Copy)]
pub struct NeliRequest {
    pub message: NeliMessage,
    pub port: u32,
    pub is_handled: u8,
    pub wants_acknowledgement: u8,
    pub wants_dump: u8,
    pub wants_routing_dump: u8,
    pub wants_echo: u8,
}

/// The header that a message shows.
fn header_of(message: &NeliMessage) -> NlmsghdrAck<u16>
    ensures { result ≡ header_view message.now }
{
    let built = NlmsghdrAckBuilder::default()
        .nl_len(message.length)
        .nl_type(message.message_type)
        .nl_flags(NlmF::from_wire(message.flags))
        .nl_seq(message.number)
        .nl_pid(message.port)
        .build();
    match built {
        Ok(header) => header,
        Err(_) => unreachable!(),
    }
}

/// The request of this header and this payload.
pub fn asked_by<'b>(request: &NeliRequest, payload: &'b [u8]) -> Request<'b>
    ensures { IsAsked request.now payload.now result }
{
    Request::from_parts(request.port, header_of(&request.message), payload)
}

/// 1 if it holds, else 0.
fn byte_of(holds: bool) -> u8
    ensures { result ≡ byte_of holds }
{
    if holds { 1 } else { 0 }
}

/// What a message asks for that came from the socket of this port.
pub fn request_of(message: NeliMessage, port: u32) -> NeliRequest
    ensures message { result.message ≡ message }
    ensures port { result.port ≡ port }
    ensures wants { SaysWants result }
{
    let asked = Request::from_parts(port, header_of(&message), &[]);
    NeliRequest {
        message,
        port,
        is_handled: byte_of(asked.is_handled()),
        wants_acknowledgement: byte_of(asked.wants_acknowledgement()),
        wants_dump: byte_of(asked.wants_dump()),
        wants_routing_dump: byte_of(asked.wants_routing_dump()),
        wants_echo: byte_of(asked.wants_echo()),
    }
}

/// The code of why a message has no bytes.
pub fn of_ser(error: &SerError) -> i32
    ensures code { result ≡ ser_code error.now }
    ensures refused { result ≢ ok }
{
    match error {
        SerError::Memory => MEMORY,
        _ => LENGTH,
    }
}

/// Copies the bytes of a message if there is room for all; or the code of why it has none.
pub fn give(made: Result<Vec<u8>, SerError>, out: &mut [u8], size: &mut usize) -> i32
    ensures bytes { IfOk made
        (λ bytes. WritesMessage result (Ok bytes.items) out.old out.new size.new) }
    ensures refused { IfErr made (λ e. (result ≡ ser_code e) × (size.new ≡ size.old)) }
    ensures unwritten { result ≢ ok → out.new ≡ out.old }
{
    match made {
        Ok(bytes) => copy(&bytes, out, size),
        Err(error) => of_ser(&error),
    }
}

/// Writes a message of this type, with these flags, this number, this port and this body, where there is room for all.
pub fn notify(
    alloc: Global,
    nl_type: u16,
    flags: u16,
    number: u32,
    port: u32,
    body: &[u8],
    out: &mut [u8],
    size: &mut usize,
) -> i32
    ensures { WritesAnswer result (notification_wire nl_type flags number port body.now) out.old
        out.new size.old size.new }
{
    let Ok(body) = Buffer::from_slice(alloc, body) else {
        return MEMORY;
    };
    let made = notification(alloc, nl_type, NlmF::from_wire(flags), number, port, body);
    give(made, out, size)
}
