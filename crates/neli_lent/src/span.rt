//! A message that is read from its own bytes as the caller's types.

ghost use Rattle.std.specs.Prelude.{◌≡◌, ◌≢◌, ℕ, List, Err, Ok, IfOk, IfErr};
ghost use Rattle.neli_wire.specs.Sizes.{align};
ghost use Rattle.neli_reader.specs.Messages.{Message};
ghost use Rattle.neli_reader.specs.NlPayload.TheVariants as payload;
ghost use Rattle.neli_reader.specs.Retyping.{HasOwnEcho, IsMessageTooLong, RefusesTyping, payload_stating};
ghost use Rattle.neli_reader.specs.Retyping.{stated_echo, typed_header, typed_payload, with_len};
ghost use Rattle.neli_reader.specs.Wires.{message_size};
ghost use Rattle.neli_lent.specs.Spans.{IsSpan, Spells};

use crate::LentMessage;
use neli_attr::Buffer;
use neli_consts::NlType;
use neli_list::read_whole;
use neli_reader::{NlPayload, Nlmsghdr, NlmsghdrAck, RouterError};
use neli_wire::implementing::length_refusal;
use neli_wire::{Cursor, FromBytesWithInput, MsgError, Size};
use std::alloc::Global;

/// A message with this header and these bytes as its body, read as `P`; the length is computed.
fn with_body<T: NlType, P: FromBytesWithInput + Size>(
    alloc: Global,
    header: &NlmsghdrAck<u16>,
    bytes: &[u8],
) -> Result<Nlmsghdr<T, P>, RouterError<T, P>>
    ensures value { IfOk result
        (λ m. typed_payload T.wire_value P.read (payload.Payload bytes.now)
        ≡ Ok (payload_stating 0 P.view m.payload)) }
    ensures header { IfOk result (λ m. m.header ≡ with_len (typed_header T.wire_value header.now)
        (align (message_size P.wire_length m))) }
    ensures length { IfOk result (λ m. HasOwnEcho P.wire_length m.payload) }
    ensures refused { IfErr result
        (RefusesTyping (typed_payload T.wire_value P.read (payload.Payload bytes.now))
        (IsMessageTooLong P.view P.wire_length P.read T.wire_value (payload.Payload bytes.now))) }
    ensures memory { result ≡ Err RouterError.Memory → P.takes_memory bytes.now }
{
    let body: P = read_whole(alloc, bytes)?;
    let mut message = Nlmsghdr::from_header(header.to_typed(), NlPayload::Empty);
    match message.set_payload(NlPayload::Payload(body)) {
        Ok(()) => Ok(message),
        Err(_) => Err(RouterError::Msg(MsgError::from_static(length_refusal()))),
    }
}

/// A value read from the bytes of one message, from its header to the end of its padding.
pub trait FromSpan: Sized {
    /// Why the bytes are refused.
    type Error;

    /// The value of these bytes, which must be one message that can be read untyped.
    fn from_span(alloc: Global, span: &[u8]) -> Result<Self, Self::Error>
        requires { IsSpan span.now };
}

impl<T: NlType, P: FromBytesWithInput + Size> FromSpan for Nlmsghdr<T, P> {
    type Error = RouterError<T, P>;

    /// The message of a span, from its header to the end of its padding, with the meanings of its numbers, and its
    /// body's or its echoed payload's bytes read as `P`: the same as reading it untyped and retyping that. A body is
    /// read in place.
    ///
    /// Lengths are computed anew. Refused with the refusal of these bytes as [`RouterError::De`], as
    /// [`RouterError::Msg`] if a length exceeds 32 bits, or as [`RouterError::Memory`]; for a body of another type than
    /// 2 and 3, that only if reading it takes memory.
    fn from_span(alloc: Global, span: &[u8]) -> Result<Nlmsghdr<T, P>, RouterError<T, P>>
        requires { IsSpan span.now }
        ensures value { (u : Message ℕ (List ℕ)) → Spells span.now u → IfOk result
            (λ m. typed_payload T.wire_value P.read u.1
            ≡ Ok (payload_stating (stated_echo u.1) P.view m.payload)) }
        ensures header { (u : Message ℕ (List ℕ)) → Spells span.now u → IfOk result
            (λ m. m.header ≡ with_len (typed_header T.wire_value u.0)
            (align (message_size P.wire_length m))) }
        ensures length { IfOk result (λ m. HasOwnEcho P.wire_length m.payload) }
        ensures refused { (u : Message ℕ (List ℕ)) → Spells span.now u → IfErr result
            (RefusesTyping (typed_payload T.wire_value P.read u.1)
            (IsMessageTooLong P.view P.wire_length P.read T.wire_value u.1)) }
        // A body of another type than 2 and 3 is read in place.
        ensures memory { (u : Message ℕ (List ℕ)) (bytes : List ℕ) → Spells span.now u
            → u.0.message_type ≢ 2 → u.0.message_type ≢ 3 → u.1 ≡ payload.Payload bytes
            → result ≡ Err RouterError.Memory → P.takes_memory bytes }
    {
        let mut cursor = Cursor::new(span);
        let message: LentMessage<'_, u16> = match LentMessage::lend(&mut cursor) {
            Ok(message) => message,
            Err(error) => return Err(RouterError::De(error)),
        };
        if message.has_plain_body() {
            return with_body(alloc, message.header(), message.nl_payload());
        }
        // Only running out of memory refuses it.
        match message.to_nlmsghdr::<Buffer>(alloc) {
            Ok(message) => message.to_typed(alloc),
            Err(_) => Err(RouterError::Memory),
        }
    }
}
