//! Notifications: messages that the kernel sends to groups.

ghost use Rattle.std.specs.Prelude.{◌≡◌, Ok, IfOk, IfErr};
ghost use Rattle.neli_reader.specs.NlPayload.TheVariants as payload;
ghost use Rattle.neli_kernel.specs.Answers.{RefusesMessage, message_or_refusal, message_with};

use crate::message::message;
use neli_consts::{NlType, NlmF};
use neli_reader::NlPayload;
use neli_wire::{SerError, ToBytes};
use std::alloc::Global;

/// Returns a message to groups, with the sequence number of the request that caused it and the port of its socket, or
/// with 0 and 0 if no request did or the kernel does not report which. The groups are no part of the bytes; a socket
/// gets them beside the datagram, as a router's `processing_loop` does.
///
/// Refused as `Msg` if the length exceeds 32 bits, then as the body is refused, or as `Memory`.
pub fn notification<T: NlType + Drop, P: ToBytes + Drop>(
    alloc: Global,
    nl_type: T,
    nl_flags: NlmF,
    number: u32,
    port: u32,
    body: P,
) -> Result<Vec<u8>, SerError>
    ensures bytes { IfOk result
        (λ bytes. message_or_refusal T.wire_number P.wire
        (message_with P.Size.wire_length nl_type nl_flags number port (payload.Payload body))
        ≡ Ok bytes.items) }
    ensures refused { IfErr result (RefusesMessage T.wire_number P.wire
        (message_with P.Size.wire_length nl_type nl_flags number port (payload.Payload body))) }
{
    message(
        alloc,
        nl_type,
        nl_flags,
        number,
        port,
        NlPayload::Payload(body),
    )
}
