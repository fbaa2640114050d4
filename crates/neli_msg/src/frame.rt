//! The frames of messages and answers: the parts that are read and written, and their length.

ghost use Rattle.std.specs.Prelude.{◌≡◌, ◌<◌, IfOk, IfErr, OnOk, OnErr, MatchOption, ◌+◌, drop, length, min, take};
ghost use Rattle.neli_wire.specs.Sizes.{align};
ghost use Rattle.neli_wire.specs.Refusals.{Refuses};
ghost use Rattle.neli_wire.specs.Writing.{RefusesWrite, append_wire, ◌+++◌, pad_wire};
ghost use Rattle.neli_msg.specs.Answers.{ext_ack_in};

use neli_attr::{Buffer, GenlBuffer};
use neli_consts::{MESSAGE_HEADER_SIZE, NlmsgerrAttr};
use neli_list::read_whole;
use neli_wire::implementing::{pad_from, padded_length, undo_on_refusal};
use neli_wire::{DeError, SerError, Size, ToBytes};
use std::alloc::Global;

/// The attributes that all of these bytes list.
pub(crate) fn read_attributes(
    alloc: Global,
    bytes: &[u8],
) -> Result<GenlBuffer<NlmsgerrAttr, Buffer>, DeError>
    ensures value { IfOk result (λ list. ext_ack_in bytes.now ≡ Ok list) }
    ensures refused { IfErr result (Refuses (ext_ack_in bytes.now) (0 < length bytes.now)) }
{
    read_whole(alloc, bytes)
}

/// The bytes from place `n` on; none if there are fewer.
pub(crate) fn from_place(bytes: &[u8], n: usize) -> &[u8]
    ensures { result.now ≡ drop n bytes.now }
{
    if n < bytes.len() { &bytes[n..] } else { &[] }
}

/// Appends two values. A refusal leaves some of them appended.
#[tactic(auto, using(neli_wire::specs::laws::Writing::append_wire_both))]
fn write_both<A: ToBytes, B: ToBytes>(
    first: &A,
    second: &B,
    buffer: &mut Vec<u8>,
) -> Result<(), SerError>
    ensures appended { OnOk result
        (append_wire buffer.old.items (A.wire first.now +++ B.wire second.now)
        ≡ Ok buffer.new.items) }
    ensures refused { IfErr result (RefusesWrite (A.wire first.now +++ B.wire second.now)) }
    ensures front { OnErr result
        (take (length buffer.old.items) buffer.new.items ≡ buffer.old.items) }
{
    first.to_bytes(buffer)?;
    second.to_bytes(buffer)?;
    Ok(())
}

/// Appends two values and zeros up to a multiple of four. A refusal leaves some of them appended.
#[tactic(auto, using(neli_wire::specs::laws::Writing::append_wire_zeros))]
fn write_both_padded<A: ToBytes, B: ToBytes>(
    first: &A,
    second: &B,
    buffer: &mut Vec<u8>,
) -> Result<(), SerError>
    ensures appended { OnOk result
        (append_wire buffer.old.items (pad_wire (A.wire first.now +++ B.wire second.now))
        ≡ Ok buffer.new.items) }
    ensures refused { IfErr result
        (RefusesWrite (pad_wire (A.wire first.now +++ B.wire second.now))) }
    ensures front { OnErr result
        (take (length buffer.old.items) buffer.new.items ≡ buffer.old.items) }
{
    let start = buffer.len();
    write_both(first, second, buffer)?;
    pad_from(buffer, start)?;
    Ok(())
}

/// Appends a header, a payload and their padding, or leaves the buffer as it was.
pub(crate) fn write_framed<A: ToBytes, B: ToBytes>(
    header: &A,
    payload: &B,
    buffer: &mut Vec<u8>,
) -> Result<(), SerError>
    ensures appended { OnOk result
        (append_wire buffer.old.items (pad_wire (A.wire header.now +++ B.wire payload.now))
        ≡ Ok buffer.new.items) }
    ensures refused { IfErr result
        (RefusesWrite (pad_wire (A.wire header.now +++ B.wire payload.now))) }
    ensures unchanged { OnErr result (buffer.new.items ≡ buffer.old.items) }
{
    let start = buffer.len();
    let outcome = write_both_padded(header, payload, buffer);
    undo_on_refusal(buffer, start, outcome)
}

/// Appends three values. A refusal leaves some of them appended.
#[tactic(auto, using(neli_wire::specs::laws::Writing::append_wire_both))]
fn write_each<A: ToBytes, B: ToBytes, C: ToBytes>(
    first: &A,
    second: &B,
    third: &C,
    buffer: &mut Vec<u8>,
) -> Result<(), SerError>
    ensures appended { OnOk result (append_wire buffer.old.items
        ((A.wire first.now +++ B.wire second.now) +++ C.wire third.now) ≡ Ok buffer.new.items) }
    ensures refused { IfErr result
        (RefusesWrite ((A.wire first.now +++ B.wire second.now) +++ C.wire third.now)) }
    ensures front { OnErr result
        (take (length buffer.old.items) buffer.new.items ≡ buffer.old.items) }
{
    write_both(first, second, buffer)?;
    third.to_bytes(buffer)?;
    Ok(())
}

/// Appends three values, or leaves the buffer as it was.
pub(crate) fn write_three<A: ToBytes, B: ToBytes, C: ToBytes>(
    first: &A,
    second: &B,
    third: &C,
    buffer: &mut Vec<u8>,
) -> Result<(), SerError>
    ensures appended { OnOk result (append_wire buffer.old.items
        ((A.wire first.now +++ B.wire second.now) +++ C.wire third.now) ≡ Ok buffer.new.items) }
    ensures refused { IfErr result
        (RefusesWrite ((A.wire first.now +++ B.wire second.now) +++ C.wire third.now)) }
    ensures unchanged { OnErr result (buffer.new.items ≡ buffer.old.items) }
{
    let start = buffer.len();
    let outcome = write_each(first, second, third, buffer);
    undo_on_refusal(buffer, start, outcome)
}

/// The length of a message with this payload, if it fits its field: the header's 16 bytes and the payload, rounded up
/// to four.
pub(crate) fn frame_length<P: Size>(payload: &P) -> Option<u32>
    ensures { MatchOption result (4294967295 < align (16 + P.wire_length payload.now))
        (λ len. len ≡ align (16 + P.wire_length payload.now)) }
{
    let size = payload.written_size().saturating_add(MESSAGE_HEADER_SIZE);
    u32::try_from(padded_length(size)).ok()
}
