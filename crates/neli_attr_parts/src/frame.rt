//! What both kinds of attributes share: how they are read and written, by the type of their type field.

ghost use Rattle.std.specs.Prelude.{◌≡◌, ◌+◌, ◌<◌, Ok, IfOk, IfErr, OnOk, OnErr, MatchOption, codes, length, min, take};
ghost use Rattle.neli_wire.specs.Frames.{frame_at, frame_takes_memory};
ghost use Rattle.neli_wire.specs.Place.{whole};
ghost use Rattle.neli_wire.specs.Refusals.{Refuses};
ghost use Rattle.neli_wire.specs.Writing.{RefusesWrite, append_wire};
ghost use Rattle.neli_attr_parts.specs.Attributes.{attr, attribute, attribute_payload, attribute_wire, nested_payload};
ghost use Rattle.neli_attr_parts.specs.laws.Steps.{attribute_at, attribute_takes_memory};

use crate::Buffer;
use neli_consts::ATTRIBUTE_HEADER_SIZE;
use neli_wire::implementing::{length_refusal, pad_from, read_padded_payload, undo_on_refusal};
use neli_wire::{
    Constant, Cursor, DeError, FromBytes, FromBytesWithInput, MsgError, SerError, Size, ToBytes,
};
use std::alloc::Global;

/// The parts of an attribute: its length, its type and its payload.
pub type Parts<K, P> = (u16, K, P);

/// Reads an attribute, its header first.
#[tactic(auto, using(neli_wire::specs::laws::Reading::refused_first), unfolding(crate::specs::laws::Steps::head_at, crate::specs::laws::Steps::attribute_at, crate::specs::laws::Steps::attribute_takes_memory))]
fn read_fields<K: Constant<Number = u16>, P: FromBytesWithInput>(
    alloc: Global,
    cursor: &mut Cursor<'_>,
) -> Result<Parts<K, P>, DeError>
    ensures value { IfOk result (λ a. attribute_at K.wire_value P.read cursor.old.rest
        ≡ Ok (attr a.0 a.1 (P.view a.2), cursor.new.rest)) }
    ensures moved { OnOk result (whole cursor.new ≡ whole cursor.old) }
    ensures refused { IfErr result (Refuses (attribute_at K.wire_value P.read cursor.old.rest)
        (attribute_takes_memory K.wire_value P.takes_memory cursor.old.rest)) }
    ensures unchanged { OnErr result (cursor.new ≡ cursor.old) }
{
    let mut ahead = cursor.ahead();
    let len = u16::from_bytes(alloc, &mut ahead)?;
    let kind = K::from_bytes(alloc, &mut ahead)?;
    let payload = read_padded_payload(alloc, &mut ahead, ATTRIBUTE_HEADER_SIZE, len as usize)?;
    *cursor = ahead;
    Ok((len, kind, payload))
}

/// Reads the attribute at the cursor. A refusal leaves the cursor where it was.
///
/// Refused as a frame with a header of four bytes is.
pub fn read_attribute<K: Constant<Number = u16>, P: FromBytesWithInput>(
    alloc: Global,
    cursor: &mut Cursor<'_>,
) -> Result<Parts<K, P>, DeError>
    ensures value { IfOk result (λ a. frame_at (attribute K.wire_value P.read) cursor.old.rest
        ≡ Ok (attr a.0 a.1 (P.view a.2), cursor.new.rest)) }
    ensures moved { OnOk result (whole cursor.new ≡ whole cursor.old) }
    ensures refused { let layout = attribute K.wire_value P.read in
        IfErr result (Refuses (frame_at layout cursor.old.rest)
        (frame_takes_memory layout (λ _. P.takes_memory) cursor.old.rest)) }
    ensures unchanged { OnErr result (cursor.new ≡ cursor.old) }
{
    read_fields(alloc, cursor)
}

/// Appends an attribute. A refusal leaves some of it appended.
#[tactic(auto, using(neli_wire::specs::laws::Writing::append_wire_both, neli_wire::specs::laws::Writing::append_wire_zeros))]
fn write_fields<K: Constant<Number = u16>, P: ToBytes>(
    len: u16,
    kind: &K,
    payload: &P,
    buffer: &mut Vec<u8>,
) -> Result<(), SerError>
    ensures appended { OnOk result (append_wire buffer.old.items
        (attribute_wire len (K.wire_number kind.now) (P.wire payload.now)) ≡ Ok buffer.new.items) }
    ensures refused { IfErr result
        (RefusesWrite (attribute_wire len (K.wire_number kind.now) (P.wire payload.now))) }
    ensures front { OnErr result
        (take (length buffer.old.items) buffer.new.items ≡ buffer.old.items) }
{
    let start = buffer.len();
    len.to_bytes(buffer)?;
    kind.to_bytes(buffer)?;
    payload.to_bytes(buffer)?;
    pad_from(buffer, start)?;
    Ok(())
}

/// Appends an attribute with its padding. A refusal leaves the buffer as it was.
pub fn write_attribute<K: Constant<Number = u16>, P: ToBytes>(
    len: u16,
    kind: &K,
    payload: &P,
    buffer: &mut Vec<u8>,
) -> Result<(), SerError>
    ensures appended { OnOk result (append_wire buffer.old.items
        (attribute_wire len (K.wire_number kind.now) (P.wire payload.now)) ≡ Ok buffer.new.items) }
    ensures refused { IfErr result
        (RefusesWrite (attribute_wire len (K.wire_number kind.now) (P.wire payload.now))) }
    ensures unchanged { OnErr result (buffer.new.items ≡ buffer.old.items) }
{
    let start = buffer.len();
    let outcome = write_fields(len, kind, payload, buffer);
    undo_on_refusal(buffer, start, outcome)
}

/// The wire bytes of a payload.
///
/// Refused as the payload's write is.
#[tactic(auto, using(crate::specs::laws::Attributes::after_nothing))]
pub fn written<P: ToBytes>(alloc: Global, payload: &P) -> Result<Buffer, SerError>
    ensures bytes { IfOk result (λ b. P.wire payload.now ≡ Ok b) }
    ensures refused { IfErr result (RefusesWrite (P.wire payload.now)) }
{
    let mut bytes = Vec::new(alloc);
    payload.to_bytes(&mut bytes)?;
    Ok(Buffer::from(bytes))
}

/// The length of an attribute with this payload, if it fits its field.
pub fn frame_length(payload: &Buffer) -> Option<u16>
    ensures { let whole = 4 + length payload.now in
        MatchOption result (65535 < whole) (λ len. len ≡ whole) }
{
    u16::try_from(payload.len().saturating_add(ATTRIBUTE_HEADER_SIZE)).ok()
}

/// The refusal of a length that passes its field.
fn too_long() -> SerError
    ensures { result ≡ SerError.Msg (codes "Length does not fit its field") }
{
    SerError::Msg(MsgError::from_static(length_refusal()))
}

/// The wire bytes of a payload and the length of an attribute with it.
///
/// Refused first as the payload's write is; then with a `SerError::Msg` if the length exceeds 65535.
#[tactic(auto, using(crate::specs::laws::Attributes::refused_payload))]
pub fn payload_bytes<P: ToBytes>(alloc: Global, payload: &P) -> Result<(u16, Buffer), SerError>
    ensures bytes { IfOk result (λ a. attribute_payload (P.wire payload.now) ≡ Ok a.1) }
    ensures length { IfOk result (λ a. a.0 ≡ 4 + length a.1) }
    ensures refused { IfErr result (RefusesWrite (attribute_payload (P.wire payload.now))) }
{
    let bytes = written(alloc, payload)?;
    let len = frame_length(&bytes).ok_or(too_long())?;
    Ok((len, bytes))
}

/// The payload with the wire bytes of an attribute after it, and the length of an attribute with both.
///
/// Refused first as the attribute's write is; then with a `SerError::Msg` if the length exceeds 65535. A refusal drops
/// the payload.
#[tactic(auto, using(crate::specs::laws::Attributes::refused_nested))]
pub fn nested_bytes<A: ToBytes>(payload: Buffer, attr: &A) -> Result<(u16, Buffer), SerError>
    ensures bytes { IfOk result (λ a. nested_payload payload (A.wire attr.now) ≡ Ok a.1) }
    ensures length { IfOk result (λ a. a.0 ≡ 4 + length a.1) }
    ensures refused { IfErr result (RefusesWrite (nested_payload payload (A.wire attr.now))) }
{
    let mut bytes = Vec::from(payload);
    attr.to_bytes(&mut bytes)?;
    let nested = Buffer::from(bytes);
    let len = frame_length(&nested).ok_or(too_long())?;
    Ok((len, nested))
}

/// The size of an attribute with this payload, without padding, capped at `usize::MAX`.
pub fn size_with<P: Size>(payload: &P) -> usize
    ensures { result ≡ min (4 + P.wire_length payload.now) usize.MAX }
{
    payload.written_size().saturating_add(ATTRIBUTE_HEADER_SIZE)
}
