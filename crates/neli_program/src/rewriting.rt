//! A datagram that is read and written again.

ghost use Rattle.std.specs.Prelude.{◌≡◌, ◌↔◌, ◌≤◌, ◌+◌, ◌++◌, [], IsTrue, IfOk, IfErr, length, take, drop};
ghost use Rattle.std.specs.Option.{option_map};
ghost use Rattle.neli_wire.specs.Frames.{frame_at};
ghost use Rattle.neli_wire.specs.Numbers.{AreBytes};
ghost use Rattle.neli_wire.specs.Refusals.{Refuses};
ghost use Rattle.neli_reader.specs.Agreement.{untyped_layout};
ghost use Rattle.neli_reader.specs.Messages.{message_of};
ghost use Rattle.neli_reader.specs.Kinds.{tail_of};
ghost use Rattle.neli_reader.specs.Zeroed.{HasNoTail, IsAllRead};
ghost use Rattle.neli_program.specs.declared.status.Status.TheVariants as status;
ghost use Rattle.neli_program.specs.Rewriting.{IsAgain, Rewrites, TailEnds};
ghost use Rattle.neli_program.specs.Runs.{Prints};

use crate::input::{InputError, read_whole};
use crate::line::{Ending, RawMessage};
use crate::listing::{ending_at, fault_ending, out_of_memory, status_of, write_text};
use crate::status::Status;
use bitflags::Flags;
use neli_attr::Buffer;
use neli_consts::NlmF;
use neli_reader::{NlPayload, Nlmsghdr, cut};
use neli_wire::{Cursor, DeError, FromBytes, ToBytes};
use std::alloc::Global;
use std::io::{Read, Write};

/// A datagram that is written again, and how that ends.
#[derive(Drop)]
pub struct Rewriting {
    /// All the bytes of the datagram, with zeros for its padding; none if the ending is not `Whole`.
    pub bytes: Vec<u8>,
    /// How that ends.
    pub ending: Ending,
}

/// The length of an acknowledgement or a capped error with nothing after the echoed header: its own header of 16 bytes,
/// a code of 4, and that header of 16.
const WHOLE_ECHO: u32 = 36;

/// Whether what follows a header that is echoed without a payload was read, in a message with these flags and this
/// length: it is attributes, or nothing.
fn is_tail_read(flags: NlmF, len: u32) -> bool
    ensures { IsTrue result ↔ IsAllRead (tail_of flags) len }
{
    if flags.contains(NlmF::CAPPED) && flags.contains(NlmF::ACK_TLVS) {
        true
    } else {
        len <= WHOLE_ECHO
    }
}

/// Whether all of the message was read.
fn is_whole(message: &RawMessage) -> bool
    ensures { IsTrue result ↔ HasNoTail (message_of (λ b. b) message.now) }
{
    match message.nl_payload() {
        NlPayload::Ack(_) | NlPayload::Capped(_) => {
            is_tail_read(*message.nl_flags(), *message.nl_len())
        }
        _ => true,
    }
}

/// Writes the message at the front of these bytes again: returns as many bytes as it has, or none if a part of it is
/// not read.
///
/// Refused as reading it is; memory may run out only if there is a header.
fn message_again(alloc: Global, bytes: &[u8]) -> Result<Option<Vec<u8>>, DeError>
    ensures value { IfOk result (λ again. IsAgain bytes.now (option_map (λ w. w.items) again)) }
    ensures refused { IfErr result (Refuses (frame_at untyped_layout bytes.now) (16 ≤ length bytes.now)) }
{
    let mut cursor = Cursor::new(bytes);
    let message: RawMessage = Nlmsghdr::from_bytes(alloc, &mut cursor)?;
    if !is_whole(&message) {
        return Ok(None);
    }
    let mut written = Vec::new(alloc);
    let Ok(()) = message.to_bytes(&mut written) else {
        return Err(DeError::Memory);
    };
    // Never true: the written message is as long as the one read.
    if written.len() + cursor.rest().len() != bytes.len() {
        return Err(DeError::Memory);
    }
    Ok(Some(written))
}

/// Overwrites the bytes at a place.
fn put(bytes: &mut Vec<u8>, at: usize, piece: &[u8])
    requires { at + length piece.now ≤ length bytes.old.items }
    ensures { bytes.new.items ≡ take at bytes.old.items ++ (piece.now
        ++ drop (at + length piece.now) bytes.old.items) }
{
    bytes[at..at + piece.len()].copy_from_slice(piece);
}

/// A rewriting of no bytes, with this ending.
fn nothing(alloc: Global, ending: Ending) -> Rewriting
    ensures { (result.bytes.items ≡ []) × (result.ending ≡ ending) }
{
    let bytes = Vec::new(alloc);
    Rewriting { bytes, ending }
}

/// A rewriting of no bytes, for a datagram whose rest begins with a message that has a tail: a fault after it is
/// reported in place of the tail.
fn after_tail(alloc: Global, left: &[u8]) -> Rewriting
    ensures { TailEnds left.now result.bytes.items result.ending }
{
    let Ok((_messages, fault)) = cut::<u16, Buffer>(alloc, left) else {
        return nothing(alloc, Ending::Memory);
    };
    if let Some(fault) = fault {
        return nothing(alloc, fault_ending(&fault));
    }
    nothing(alloc, Ending::Tail)
}

/// A law: the items of a slice of bytes are bytes. It does nothing.
fn are_bytes(bytes: &[u8])
    ensures { AreBytes bytes.now }
{
    let _ = bytes;
}

/// Writes a datagram again, in its own memory: message by message over itself.
///
/// The result has no bytes if the datagram has a fault, a message has unread bytes, or memory runs out.
pub fn rewriting_of(alloc: Global, bytes: Vec<u8>) -> Rewriting
    ensures { Rewrites bytes.items result.bytes.items result.ending }
{
    are_bytes(&bytes);
    let mut text = bytes;
    let mut at = 0;
    while at < text.len() {
        match message_again(alloc, &text[at..]) {
            Ok(Some(written)) => {
                put(&mut text, at, &written);
                at += written.len();
            }
            Ok(None) => return after_tail(alloc, &text[at..]),
            Err(error) => return nothing(alloc, ending_at(&error)),
        }
    }
    let ending = Ending::Whole;
    Rewriting {
        bytes: text,
        ending,
    }
}

/// Writes the datagram in the input, with zeros for its padding, or only the line of its fault.
///
/// Nothing is written if the input fails or does not end.
#[tactic(auto, using(crate::proofs::Runs::text_prints, crate::proofs::Runs::memory_prints))]
pub fn list_zero<R: Read, W: Write>(alloc: Global, input: &mut R, output: &mut W) -> Status
    ensures text { Prints Rewrites (R.remaining input.old)
        (W.contents output.old) (W.contents output.new) result }
    ensures untouched { result ≡ status.NoInput → output.new ≡ output.old }
{
    let bytes = match read_whole(alloc, input) {
        Ok(bytes) => bytes,
        Err(InputError::Memory) => return out_of_memory(output),
        Err(InputError::Failed | InputError::Endless) => return Status::NoInput,
    };
    let rewriting = rewriting_of(alloc, bytes);
    match write_text(&rewriting.bytes, rewriting.ending, output) {
        Ok(()) => status_of(rewriting.ending),
        Err(_) => Status::NoOutput,
    }
}
