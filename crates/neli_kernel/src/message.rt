//! The bytes of one message.

ghost use Rattle.std.specs.Prelude.{◌≡◌, Ok, IfOk, IfErr};
ghost use Rattle.neli_kernel.specs.Answers.{RefusesMessage, message_or_refusal, message_with};

use neli_consts::{NlType, NlmF};
use neli_reader::{NlPayload, NlmsghdrBuilder};
use neli_wire::implementing::length_refusal;
use neli_wire::{MsgError, SerError, ToBytes};
use std::alloc::Global;

/// Returns the bytes of a message with this header and payload; its length is computed.
///
/// Refused as `Msg` if the length exceeds 32 bits, then as the payload is refused, or as `Memory`.
pub(crate) fn message<T: NlType + Drop, P: ToBytes + Drop>(
    alloc: Global,
    nl_type: T,
    nl_flags: NlmF,
    number: u32,
    port: u32,
    payload: NlPayload<T, P>,
) -> Result<Vec<u8>, SerError>
    ensures bytes { IfOk result (λ bytes. message_or_refusal T.wire_number P.wire
        (message_with P.Size.wire_length nl_type nl_flags number port payload) ≡ Ok bytes.items) }
    ensures refused { IfErr result (RefusesMessage T.wire_number P.wire
        (message_with P.Size.wire_length nl_type nl_flags number port payload)) }
{
    let built = NlmsghdrBuilder::default()
        .nl_type(nl_type)
        .nl_flags(nl_flags)
        .nl_seq(number)
        .nl_pid(port)
        .nl_payload(payload)
        .build();
    let Ok(message) = built else {
        return Err(SerError::Msg(MsgError::from_static(length_refusal())));
    };
    let mut bytes = Vec::new(alloc);
    message.to_bytes(&mut bytes)?;
    Ok(bytes)
}
