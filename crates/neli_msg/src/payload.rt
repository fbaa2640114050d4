//! The payload of a message, after its header.

ghost use Rattle.std.specs.Prelude.{◌≡◌, ℕ, List, Ok, Err, IsOk, IfOk, IfErr, OnOk, OnErr, IsTrue, ◌↔◌, length};
ghost use Rattle.neli_wire.specs.Place.{whole};
ghost use Rattle.neli_wire.specs.Refusals.{Refuses};
ghost use Rattle.neli_wire.specs.Reading.{exact_reading, exact_takes_memory};
ghost use Rattle.neli_msg.specs.Copies.{payload_copy_takes_memory};
ghost use Rattle.neli_msg.specs.Kinds.{kind_takes_memory, payload_as, payload_in, payload_takes_memory};
ghost use Rattle.neli_msg.specs.Kinds.{payload_view};
ghost use Rattle.neli_wire.specs.laws.Sizes.{unpadded-rounded};
ghost use Rattle.neli_msg.specs.Retyping.{HasOwnEcho, IsEchoTooLong, RefusesTyping, body_count};
ghost use Rattle.neli_msg.specs.Retyping.{first_as, first_takes_memory, payload_stating, stated_echo, typed_first};
ghost use Rattle.neli_msg.specs.Wires.{payload_size, payload_wire};
ghost use Rattle.neli_msg.specs.laws.Wires.{payload_wire-length, payload_wire-no_memory, payload_wire-zeros};

use crate::answer::{read_dump_end, read_failure, read_headed};
use crate::{Kind, Nlmsgerr, NlmsghdrAck, NlmsghdrErr, RouterError};
use neli_attr::Buffer;
use neli_consts::{NlType, NlmF};
use neli_list::{TryClone, read_whole};
use neli_wire::{Constant, Cursor, DeError, FromBytesWithInput, NoMemory, SerError, Size, ToBytes};
use std::alloc::Global;

/// The payload of a message, by its kind.
#[derive(Debug, Drop, PartialEq, Eq)]
pub enum NlPayload<T, P> {
    /// An acknowledgement: type 2 (`NLMSG_ERROR`) with code 0. It has the header that it answers, and attributes if its
    /// flags have both CAPPED and ACK_TLVS; otherwise what follows the header is not read.
    Ack(Nlmsgerr<NlmsghdrAck<T>>),
    /// A capped error: type 2 (`NLMSG_ERROR`) with another code and the flag CAPPED, as the kernel sends it on a socket
    /// with `NETLINK_CAP_ACK`. It has the header of the message that it answers, with the length of the whole, and
    /// attributes if its flags have ACK_TLVS; otherwise what follows the header is not read.
    Capped(Nlmsgerr<NlmsghdrAck<T>>),
    /// The end of a dump: type 3 (`NLMSG_DONE`) with the flag MULTI. It has a code and attributes.
    DumpExtAck(Nlmsgerr<()>),
    /// An error: type 2 (`NLMSG_ERROR`) with another code, without the flag CAPPED. It has the message that
    /// it answers, and attributes.
    Err(Nlmsgerr<NlmsghdrErr<T, P>>),
    /// A body: all the bytes of the payload, read as one value.
    Payload(P),
    /// Nothing: type 3 (`NLMSG_DONE`) without a byte.
    Empty,
}

/// Reads a payload of this kind.
#[tactic(auto, using(neli_wire::specs::laws::Reading::refused_first))]
fn read_as<T: Constant<Number = u16>, P: FromBytesWithInput>(
    alloc: Global,
    kind: Kind,
    bytes: &[u8],
) -> Result<NlPayload<T, P>, DeError>
    ensures value { IfOk result
        (λ p. payload_as T.wire_value P.read kind bytes.now ≡ Ok (payload_view P.view p)) }
    ensures refused { IfErr result
        (Refuses (payload_as T.wire_value P.read kind bytes.now)
        (kind_takes_memory P.read P.takes_memory kind bytes.now)) }
{
    match kind {
        Kind::Body => Ok(NlPayload::Payload(read_whole(alloc, bytes)?)),
        Kind::Nothing => Ok(NlPayload::Empty),
        Kind::DumpEnd => Ok(NlPayload::DumpExtAck(read_dump_end(alloc, bytes)?)),
        Kind::Acknowledgement(tail) => Ok(NlPayload::Ack(read_headed(alloc, tail, bytes)?)),
        Kind::Capped(tail) => Ok(NlPayload::Capped(read_headed(alloc, tail, bytes)?)),
        Kind::Failure => Ok(NlPayload::Err(read_failure(alloc, bytes)?)),
    }
}

/// Reads these bytes as the payload after a header of this type and these flags.
pub(crate) fn read_payload<T: Constant<Number = u16>, P: FromBytesWithInput>(
    alloc: Global,
    number: u16,
    flags: NlmF,
    bytes: &[u8],
) -> Result<NlPayload<T, P>, DeError>
    ensures value { IfOk result
        (λ p. payload_in T.wire_value P.read number flags bytes.now ≡ Ok (payload_view P.view p)) }
    ensures refused { IfErr result
        (Refuses (payload_in T.wire_value P.read number flags bytes.now)
        (payload_takes_memory P.read P.takes_memory number flags bytes.now)) }
{
    read_as(alloc, Kind::of(number, flags, bytes), bytes)
}

impl<T: Constant<Number = u16>, P: FromBytesWithInput> NlPayload<T, P> {
    /// Reads the next `n` bytes as the payload after a header of this type and these flags.
    ///
    /// `InvalidInput(n)` if there are fewer bytes, and then the refusals of the kind in the order of its parts. A
    /// refusal leaves the cursor where it was.
    pub fn from_parts(
        alloc: Global,
        cursor: &mut Cursor<'_>,
        nl_type: u16,
        nl_flags: NlmF,
        n: usize,
    ) -> Result<Self, DeError>
        ensures value { IfOk result
            (λ p. exact_reading (payload_in T.wire_value P.read nl_type nl_flags) n cursor.old.rest
            ≡ Ok (payload_view P.view p, cursor.new.rest)) }
        ensures moved { OnOk result (whole cursor.new ≡ whole cursor.old) }
        ensures refused { IfErr result
            (Refuses (exact_reading
            (payload_in T.wire_value P.read nl_type nl_flags) n cursor.old.rest)
            (exact_takes_memory
            (payload_takes_memory P.read P.takes_memory nl_type nl_flags) n cursor.old.rest)) }
        ensures unchanged { OnErr result (cursor.new ≡ cursor.old) }
    {
        let bytes = cursor.input(n)?;
        let payload = read_payload(alloc, nl_type, nl_flags, bytes)?;
        cursor.advance(n);
        Ok(payload)
    }
}

impl<T: NlType, P: Size> Size for NlPayload<T, P> {
    ghost unpadded_length = { payload_size P.wire_length };

    ghost wire_length = { payload_size P.wire_length };

    ghost rounded = { unpadded-rounded (payload_size P.wire_length) };

    fn unpadded_size(&self) -> usize {
        match self {
            NlPayload::Ack(answer) => answer.written_size(),
            NlPayload::Capped(answer) => answer.written_size(),
            NlPayload::DumpExtAck(answer) => answer.written_size(),
            NlPayload::Err(answer) => answer.written_size(),
            NlPayload::Payload(body) => body.written_size(),
            NlPayload::Empty => 0,
        }
    }

    fn written_size(&self) -> usize {
        self.unpadded_size()
    }
}

impl<T: NlType, P: ToBytes> ToBytes for NlPayload<T, P> {
    ghost wire = { payload_wire T.wire_number P.wire };

    ghost length_is = { payload_wire-length T.wire_number P.wire P.Size.wire_length P.length_is };

    ghost zeros_after = { payload_wire-zeros T.wire_number P.wire P.Size.wire_length P.length_is };

    ghost no_memory = { payload_wire-no_memory T.wire_number P.wire P.no_memory };

    fn to_bytes(&self, buffer: &mut Vec<u8>) -> Result<(), SerError> {
        match self {
            NlPayload::Ack(answer) => answer.to_bytes(buffer),
            NlPayload::Capped(answer) => answer.to_bytes(buffer),
            NlPayload::DumpExtAck(answer) => answer.to_bytes(buffer),
            NlPayload::Err(answer) => answer.to_bytes(buffer),
            NlPayload::Payload(body) => body.to_bytes(buffer),
            NlPayload::Empty => Ok(()),
        }
    }
}

impl<T: NlType, P: TryClone> NlPayload<T, P> {
    /// An equal payload.
    ///
    /// Refused only if memory runs out: a copy takes some where that of the body does, or for attributes.
    pub fn try_clone(&self) -> Result<Self, NoMemory>
        ensures value { IfOk result (λ p. p ≡ self.now) }
        ensures memory { OnErr result (payload_copy_takes_memory P.copy_takes_memory self.now) }
    {
        Ok(match self {
            NlPayload::Ack(answer) => NlPayload::Ack(answer.try_clone()?),
            NlPayload::Capped(answer) => NlPayload::Capped(answer.try_clone()?),
            NlPayload::DumpExtAck(answer) => NlPayload::DumpExtAck(answer.try_clone()?),
            NlPayload::Err(answer) => NlPayload::Err(answer.try_clone()?),
            NlPayload::Payload(body) => NlPayload::Payload(body.try_clone()?),
            NlPayload::Empty => NlPayload::Empty,
        })
    }
}

impl<T: NlType, P: TryClone> TryClone for NlPayload<T, P> {
    ghost copy_takes_memory = { payload_copy_takes_memory P.copy_takes_memory };

    fn try_clone(&self) -> Result<Self, NoMemory> {
        NlPayload::try_clone(self)
    }
}

impl NlPayload<u16, Buffer> {
    /// The number of a body's bytes; 0 for the other kinds.
    pub(crate) fn body_len(&self) -> usize
        ensures { result ≡ body_count self.now }
    {
        match self {
            NlPayload::Payload(body) => body.len(),
            _ => 0,
        }
    }

    /// The same payload with the meanings of its numbers, and the first `n` bytes of a body, or all the echoed bytes of
    /// an error, read as `P`. Codes, attributes and a header echoed alone stay.
    ///
    /// Refused as [`RouterError::De`] with `InvalidInput(n)` if a body has fewer bytes, otherwise with the refusal of
    /// these bytes; as [`RouterError::Msg`] if an echoed message's length exceeds 32 bits; or as
    /// [`RouterError::Memory`], only if reading these bytes takes memory or there are attributes to copy.
    pub fn to_typed<T: NlType, P: FromBytesWithInput + Size>(
        &self,
        alloc: Global,
        n: usize,
    ) -> Result<NlPayload<T, P>, RouterError<T, P>>
        ensures value { IfOk result
            (λ p. typed_first T.wire_value P.read n self.now
            ≡ Ok (payload_stating (stated_echo self.now) P.view p)) }
        ensures length { IfOk result (HasOwnEcho P.wire_length) }
        ensures refused { IfErr result (RefusesTyping (typed_first T.wire_value P.read n self.now)
            (IsEchoTooLong P.view P.wire_length P.read self.now)) }
        ensures memory { result ≡ Err RouterError.Memory → first_takes_memory P.read P.takes_memory n self.now }
        ensures empty { self.now ≡ NlPayload.Empty → IsOk result }
    {
        match self {
            NlPayload::Ack(answer) => Ok(NlPayload::Ack(answer.to_typed()?)),
            NlPayload::Capped(answer) => Ok(NlPayload::Capped(answer.to_typed()?)),
            NlPayload::DumpExtAck(answer) => Ok(NlPayload::DumpExtAck(answer.try_clone()?)),
            NlPayload::Err(answer) => Ok(NlPayload::Err(answer.to_typed(alloc)?)),
            NlPayload::Payload(body) => Ok(NlPayload::Payload(read_first(alloc, body, n)?)),
            NlPayload::Empty => Ok(NlPayload::Empty),
        }
    }
}

/// The value that the first `n` bytes of a body spell.
fn read_first<P: FromBytesWithInput>(alloc: Global, body: &Buffer, n: usize) -> Result<P, DeError>
    ensures value { IfOk result (λ v. first_as P.read n body.now ≡ Ok (P.view v)) }
    ensures refused { IfErr result (Refuses (first_as P.read n body.now)
        (exact_takes_memory P.takes_memory n body.now)) }
{
    let cursor = Cursor::new(body.as_ref());
    let bytes = cursor.input(n)?;
    read_whole(alloc, bytes)
}
