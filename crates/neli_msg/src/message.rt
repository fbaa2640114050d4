//! Messages.

ghost use Rattle.neli_attr.specs.Builders.{IsWhyNot};
ghost use Rattle.neli_msg.specs.Builders.{built_message, own_length};
ghost use Rattle.neli_attr.specs.Builders.Fault.{Invalid};
ghost use Rattle.neli_msg.specs.declared.payload.NlPayload.{NlPayload as Payload};
ghost use Rattle.neli_msg.specs.Retyping.{HasOwnEcho, IsMessageTooLong, RefusesTyping, body_of, capped_of};
ghost use Rattle.neli_msg.specs.Retyping.{failure_of, payload_stating, stated_echo, typed_header, typed_payload};
ghost use Rattle.neli_msg.specs.Retyping.{typing_takes_memory, with_len, with_payload, without_capped};
ghost use Rattle.neli_msg.specs.Retyping.{without_failure};
ghost use Rattle.neli_msg.specs.Wires.{message_size, payload_size};
ghost use Rattle.std.specs.Prelude.{Err, ℕ, List, IsOk, codes, option_map, Some, ◌≡◌};
ghost use Rattle.std.specs.Prelude.{Ok, IfOk, IfErr, OnOk, OnErr};
ghost use Rattle.neli_wire.specs.Sizes.{align};
ghost use Rattle.neli_msg.specs.Kinds.{payload_in, payload_view};
ghost use Rattle.neli_msg.specs.Messages.{message_takes_memory};
ghost use Rattle.neli_msg.specs.laws.Kinds.{payload_in-no_memory};

use crate::frame::frame_length;
use crate::framed::{Carried, Framed, FramedBuilder};
use crate::payload::read_payload;
use crate::{NlPayload, Nlmsgerr, NlmsghdrAck, NlmsghdrErr, RouterError};
use neli_attr::{Buffer, BuildError, of};
use neli_consts::{MESSAGE_HEADER_SIZE, NlType};
use neli_wire::implementing::length_refusal;
use neli_wire::{DeError, FromBytesWithInput, MsgError, SerError, Size, UninitializedFieldError};
use std::alloc::Global;
use std::mem::replace;

/// A message: `struct nlmsghdr` of linux/netlink.h and its payload.
pub type Nlmsghdr<T, P> = Framed<T, NlPayload<T, P>>;

impl<T, P> Framed<T, NlPayload<T, P>> {
    /// The payload of the message.
    pub fn nl_payload(&self) -> &NlPayload<T, P>
        ensures { result.now ≡ self.now.payload }
    {
        &self.payload
    }
}

impl<T: NlType, P: FromBytesWithInput> Carried<T> for NlPayload<T, P> {
    ghost Value = { Payload T P.Value };

    ghost view = { payload_view P.view };

    ghost read = { λ h. payload_in T.wire_value P.read (T.wire_number h.message_type) h.flags };

    ghost takes_memory = { message_takes_memory T.wire_number P.read P.takes_memory };

    ghost no_memory = { λ h. payload_in-no_memory T.wire_value P.read P.no_memory
        (T.wire_number h.message_type) h.flags };

    fn read_after(alloc: Global, header: &NlmsghdrAck<T>, bytes: &[u8]) -> Result<Self, DeError> {
        let number = header.nl_type().to_number();
        read_payload(alloc, number, *header.nl_flags(), bytes)
    }
}

/// Why no message was built.
pub type NlmsghdrBuilderError = BuildError<{ of::NLMSGHDR }>;

/// A builder of messages. The length is computed.
pub type NlmsghdrBuilder<T, P> = FramedBuilder<T, NlPayload<T, P>>;

impl<T: Drop, P: Drop> FramedBuilder<T, NlPayload<T, P>> {
    /// The payload of the message.
    pub fn nl_payload(mut self, value: NlPayload<T, P>) -> Self
        ensures { result ≡ record self { payload = Some value } }
    {
        self.payload = Some(value);
        self
    }
}

impl<T: NlType + Drop, P: Size + Drop> FramedBuilder<T, NlPayload<T, P>> {
    /// Builds the message, with the length of its header and payload, rounded up to four: a body of 5 bytes is read
    /// back as 8, with zeros at its end. It takes no memory.
    ///
    /// Refused if a field is missing, or the length exceeds 32 bits.
    pub fn build(self) -> Result<Nlmsghdr<T, P>, NlmsghdrBuilderError>
        ensures built { IfOk result (λ m. built_message P.wire_length self ≡ Ok m) }
        ensures refused { IfErr result
            (λ e. (e ≡ BuildError.Memory → ⊥) × IsWhyNot (built_message P.wire_length self) e) }
    {
        let given = self.header;
        let message_type = given
            .nl_type
            .ok_or(UninitializedFieldError::new("nl_type"))?;
        let flags = given
            .nl_flags
            .ok_or(UninitializedFieldError::new("nl_flags"))?;
        let payload = self
            .payload
            .ok_or(UninitializedFieldError::new("nl_payload"))?;
        let len = frame_length(&payload).ok_or(BuildError::ValidationError(length_refusal()))?;
        let header = NlmsghdrAck {
            len,
            message_type,
            flags,
            sequence_number: given.nl_seq.unwrap_or(0),
            port: given.nl_pid.unwrap_or(0),
        };
        Ok(Framed { header, payload })
    }
}

impl<T, P> Framed<T, NlPayload<T, P>> {
    /// The message with this header and payload, unchanged: its length is the one that the header states.
    pub fn from_header(header: NlmsghdrAck<T>, payload: NlPayload<T, P>) -> Self
        ensures header { result.header ≡ header }
        ensures payload { result.payload ≡ payload }
    {
        Self { header, payload }
    }

    /// The body, if the message carries one.
    pub fn get_payload(&self) -> Option<&P>
        ensures { option_map (λ p. p.now) result ≡ body_of self.now.payload }
    {
        match &self.payload {
            NlPayload::Payload(body) => Some(body),
            _ => None,
        }
    }
}

impl<T: NlType, P: Drop> Framed<T, NlPayload<T, P>> {
    /// Takes an error out: the message is then empty, and states a length of 16. Any other message stays as it is.
    pub fn get_err(&mut self) -> Option<Nlmsgerr<NlmsghdrErr<T, P>>>
        ensures error { result ≡ failure_of self.old.payload }
        ensures left { self.new ≡ without_failure self.old }
    {
        if let NlPayload::Err(_) = &self.payload {
            let payload = replace(&mut self.payload, NlPayload::Empty);
            if let NlPayload::Err(answer) = payload {
                self.header = self.header.with_len(MESSAGE_HEADER_SIZE as u32);
                return Some(answer);
            }
        }
        None
    }
}

impl<T: NlType, P: Drop> Framed<T, NlPayload<T, P>> {
    /// Takes a capped error out: the message is then empty, and states a length of 16. Any other message stays as it
    /// is.
    pub fn get_capped(&mut self) -> Option<Nlmsgerr<NlmsghdrAck<T>>>
        ensures error { result ≡ capped_of self.old.payload }
        ensures left { self.new ≡ without_capped self.old }
    {
        if let NlPayload::Capped(_) = &self.payload {
            let payload = replace(&mut self.payload, NlPayload::Empty);
            if let NlPayload::Capped(answer) = payload {
                self.header = self.header.with_len(MESSAGE_HEADER_SIZE as u32);
                return Some(answer);
            }
        }
        None
    }
}

impl<T: NlType, P: Size + Drop> Framed<T, NlPayload<T, P>> {
    /// Replaces the message's payload, and computes its length anew.
    ///
    /// Refused as `SerError::Msg` if the length exceeds 32 bits; then the message is as it was.
    pub fn set_payload(&mut self, payload: NlPayload<T, P>) -> Result<(), SerError>
        ensures set { OnOk result
            (own_length (payload_size P.wire_length payload) ≡ Ok self.new.header.len) }
        ensures ok { OnOk result (self.new ≡ with_payload self.old self.new.header.len payload) }
        ensures refused { IfErr result
            (λ e. (e ≡ SerError.Msg (codes "Length does not fit its field"))
            × (own_length (payload_size P.wire_length payload)
            ≡ Err (Invalid (codes "Length does not fit its field")))) }
        ensures unchanged { OnErr result (self.new ≡ self.old) }
    {
        let Some(len) = frame_length(&payload) else {
            return Err(SerError::Msg(MsgError::from_static(length_refusal())));
        };
        self.header = self.header.with_len(len);
        self.payload = payload;
        Ok(())
    }
}

impl Framed<u16, NlPayload<u16, Buffer>> {
    /// The same message with the meanings of its numbers, and its body's or its echoed payload's bytes read as `P`.
    /// Lengths are computed anew; codes, attributes and a header echoed alone stay.
    ///
    /// Refused with the refusal of these bytes as [`RouterError::De`], as [`RouterError::Msg`] if a length exceeds 32
    /// bits, or as [`RouterError::Memory`], only if reading these bytes takes memory or there are attributes to copy.
    pub fn to_typed<T: NlType, P: FromBytesWithInput + Size>(
        &self,
        alloc: Global,
    ) -> Result<Nlmsghdr<T, P>, RouterError<T, P>>
        ensures value { IfOk result
            (λ m. typed_payload T.wire_value P.read self.now.payload
            ≡ Ok (payload_stating (stated_echo self.now.payload) P.view m.payload)) }
        ensures header { IfOk result
            (λ m. m.header ≡ with_len (typed_header T.wire_value self.now.header)
            (align (message_size P.wire_length m))) }
        ensures length { IfOk result (λ m. HasOwnEcho P.wire_length m.payload) }
        ensures refused { IfErr result
            (RefusesTyping (typed_payload T.wire_value P.read self.now.payload)
            (IsMessageTooLong P.view P.wire_length P.read T.wire_value self.now.payload)) }
        ensures memory { result ≡ Err RouterError.Memory
            → typing_takes_memory P.read P.takes_memory self.now.payload }
        ensures empty { self.now.payload ≡ NlPayload.Empty → IsOk result }
    {
        let payload: NlPayload<T, P> = self.payload.to_typed(alloc, self.payload.body_len())?;
        let Some(len) = frame_length(&payload) else {
            return Err(RouterError::Msg(MsgError::from_static(length_refusal())));
        };
        let header = self.header.to_typed().with_len(len);
        Ok(Framed { header, payload })
    }
}
