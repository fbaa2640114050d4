//! The message that an error answers.

ghost use Rattle.neli_attr.specs.Builders.{IsWhyNot};
ghost use Rattle.neli_msg.specs.Builders.{built_echo};
ghost use Rattle.neli_msg.specs.Retyping.{HasOwnLength, IsTooLong, RefusesTyping, echo_stating, typed_echo};
ghost use Rattle.std.specs.Prelude.{Some, ◌≡◌, Err, Ok, IfOk, IfErr};

use crate::frame::frame_length;
use crate::framed::{Carried, Framed, FramedBuilder};
use crate::{NlmsghdrAck, RouterError};
use neli_attr::{Buffer, BuildError, of};
use neli_consts::{NlType, NlmF};
use neli_list::{TryClone, read_whole};
use neli_wire::implementing::length_refusal;
use neli_wire::{
    DeError, FromBytesWithInput, MsgError, NoMemory, SerError, Size, ToBytes,
    UninitializedFieldError,
};
use std::alloc::Global;

/// The payload of an echoed message: a body, whatever the header says.
#[derive(Debug, Drop, PartialEq, Eq)]
pub struct Echoed<P>(pub(crate) P);

/// The message that an error answers: its header, and its payload as the kernel echoes it.
pub type NlmsghdrErr<T, P> = Framed<T, Echoed<P>>;

impl<T, P> Framed<T, Echoed<P>> {
    /// The payload of the message.
    pub fn nl_payload(&self) -> &P
        ensures { result.now ≡ self.now.payload.0 }
    {
        &self.payload.0
    }
}

impl<P: Size> Size for Echoed<P> {
    ghost unpadded_length = { λ x. P.unpadded_length x.0 };

    ghost wire_length = { λ x. P.wire_length x.0 };

    ghost rounded = { λ x. P.rounded x.0 };

    fn unpadded_size(&self) -> usize {
        self.0.unpadded_size()
    }

    fn written_size(&self) -> usize {
        self.0.written_size()
    }
}

impl<P: ToBytes> ToBytes for Echoed<P> {
    ghost wire = { λ x. P.wire x.0 };

    ghost length_is = { λ x. P.length_is x.0 };

    ghost zeros_after = { λ x. P.zeros_after x.0 };

    ghost no_memory = { λ x. P.no_memory x.0 };

    fn to_bytes(&self, buffer: &mut Vec<u8>) -> Result<(), SerError> {
        self.0.to_bytes(buffer)
    }
}

impl<T: NlType, P: FromBytesWithInput> Carried<T> for Echoed<P> {
    ghost Value = { P.Value };

    ghost view = { λ x. P.view x.0 };

    ghost read = { λ _. P.read };

    ghost takes_memory = { λ _. P.takes_memory };

    ghost no_memory = { λ _. P.no_memory };

    fn read_after(alloc: Global, _header: &NlmsghdrAck<T>, bytes: &[u8]) -> Result<Self, DeError> {
        Ok(Echoed(read_whole(alloc, bytes)?))
    }
}

impl<P: TryClone> TryClone for Echoed<P> {
    ghost copy_takes_memory = { λ echoed. P.copy_takes_memory echoed.0 };

    fn try_clone(&self) -> Result<Self, NoMemory> {
        Ok(Echoed(self.0.try_clone()?))
    }
}

/// Why no echoed message was built.
pub type NlmsghdrErrBuilderError = BuildError<{ of::NLMSGHDR_ERR }>;

/// A builder of echoed messages. The length is computed.
pub type NlmsghdrErrBuilder<T, P> = FramedBuilder<T, Echoed<P>>;

impl<T: Drop, P: Drop> FramedBuilder<T, Echoed<P>> {
    /// The payload of the message.
    pub fn nl_payload(mut self, value: P) -> Self
        ensures { result ≡ record self { payload = Some (record { 0 = value }) } }
    {
        self.payload = Some(Echoed(value));
        self
    }
}

impl<T: NlType + Drop, P: Size + Drop> FramedBuilder<T, Echoed<P>> {
    /// Builds the message, with the length of its header and payload, rounded up to four. It takes no memory.
    ///
    /// Refused if a field is missing, or the length exceeds 32 bits.
    pub fn build(self) -> Result<NlmsghdrErr<T, P>, NlmsghdrErrBuilderError>
        ensures built { IfOk result (λ m. built_echo P.wire_length self ≡ Ok m) }
        ensures refused { IfErr result
            (λ e. (e ≡ BuildError.Memory → ⊥) × IsWhyNot (built_echo P.wire_length self) e) }
    {
        let given = self.header;
        let message_type = given
            .nl_type
            .ok_or(UninitializedFieldError::new("nl_type"))?;
        let payload = self
            .payload
            .ok_or(UninitializedFieldError::new("nl_payload"))?;
        let len = frame_length(&payload).ok_or(BuildError::ValidationError(length_refusal()))?;
        let header = NlmsghdrAck {
            len,
            message_type,
            flags: given.nl_flags.unwrap_or(NlmF::empty()),
            sequence_number: given.nl_seq.unwrap_or(0),
            port: given.nl_pid.unwrap_or(0),
        };
        Ok(Framed { header, payload })
    }
}

impl Framed<u16, Echoed<Buffer>> {
    /// The same message with the meaning of its type's number, and its payload's bytes read as `P`. Its length is
    /// computed anew.
    ///
    /// Refused with the refusal of these bytes as [`RouterError::De`], as [`RouterError::Msg`] if the length exceeds 32
    /// bits, or as [`RouterError::Memory`] if reading these bytes takes memory.
    pub fn to_typed<T: NlType, P: FromBytesWithInput + Size>(
        &self,
        alloc: Global,
    ) -> Result<NlmsghdrErr<T, P>, RouterError<T, P>>
        ensures value { IfOk result
            (λ m. typed_echo T.wire_value P.read self.now
            ≡ Ok (echo_stating self.now.header.len P.view m)) }
        ensures length { IfOk result (HasOwnLength P.wire_length) }
        ensures refused { IfErr result (RefusesTyping (typed_echo T.wire_value P.read self.now)
            (IsTooLong P.view P.wire_length P.read self.now.payload.0)) }
        ensures memory { result ≡ Err RouterError.Memory → P.takes_memory self.now.payload.0 }
    {
        let payload: Echoed<P> = Echoed(read_whole(alloc, self.payload.0.as_ref())?);
        let Some(len) = frame_length(&payload) else {
            return Err(RouterError::Msg(MsgError::from_static(length_refusal())));
        };
        let header = self.header.to_typed().with_len(len);
        Ok(Framed { header, payload })
    }
}
