//! The bytes of a request.

ghost use Rattle.std.specs.Prelude.{◌≡◌, ◌<◌, ℕ, Ok, IfOk, IfSome, IsNone};
ghost use Rattle.neli_session.specs.Mails.{request_length, request_wire};

use neli_consts::NlmF;
use neli_reader::{NlPayload, NlmsghdrBuilder};
use neli_wire::{NoMemory, ToBytes};
use std::alloc::Global;

/// A request with this port, number, type, these flags and REQUEST, and this body; none if its length exceeds 32 bits.
pub(crate) fn frame(
    alloc: Global,
    port: u32,
    number: u32,
    nl_type: u16,
    flags: NlmF,
    body: &[u8],
) -> Result<Option<Vec<u8>>, NoMemory>
    ensures bytes { IfOk result (λ o. IfSome o
        (λ v. request_wire port number nl_type flags body.now ≡ Ok v.items)) }
    ensures long { IfOk result (λ o. IsNone o → 4294967295 < request_length body.now) }
{
    let request = NlmsghdrBuilder::<u16, &[u8]>::default()
        .nl_type(nl_type)
        .nl_flags(flags | NlmF::REQUEST)
        .nl_seq(number)
        .nl_pid(port)
        .nl_payload(NlPayload::Payload(body))
        .build();
    let Ok(message) = request else {
        return Ok(None);
    };
    let mut bytes = Vec::new(alloc);
    match message.to_bytes(&mut bytes) {
        Ok(()) => Ok(Some(bytes)),
        Err(_) => Err(NoMemory),
    }
}
