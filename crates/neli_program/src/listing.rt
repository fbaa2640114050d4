//! The listing of a datagram.

ghost use Rattle.std.specs.Prelude.{◌≡◌, ◌≢◌, ◌<◌, ◌++◌, List, ℕ, length, Ok, Some, IfOk, IfErr, OnOk, OnErr, IsOk};
ghost use Rattle.std.specs.Io.KnownBytes.{Appends};
ghost use Rattle.neli_wire.specs.Frames.{frame_at};
ghost use Rattle.neli_wire.specs.Place.{whole};
ghost use Rattle.neli_wire.specs.Refusals.{Refuses};
ghost use Rattle.neli_reader.specs.Agreement.{untyped_layout};
ghost use Rattle.neli_lent.specs.Messages.{as_owned, as_owned_takes_memory, message_view};
ghost use Rattle.neli_program.specs.declared.line.Ending.TheVariants as line;
ghost use Rattle.neli_program.specs.declared.status.Status.TheVariants as status;
ghost use Rattle.neli_program.specs.Lines.{ending as ending_text};
ghost use Rattle.neli_program.specs.Listing.{BeginsWith, BeginsWithBody, IsLineOf, Lists, ending_by, ending_of};
ghost use Rattle.neli_program.specs.Listing.{reading_takes_memory};
ghost use Rattle.neli_program.specs.Runs.{Prints, PrintsMemory, status_by};

use crate::input::{InputError, read_whole};
use crate::line::{Ending, Line, RawMessage};
use crate::status::Status;
use neli_consts::{NLMSG_DONE, NLMSG_ERROR};
use neli_lent::LentMessage;
use neli_reader::Nlmsghdr;
use neli_wire::{Cursor, DeError, FromBytes};
use std::alloc::Global;
use std::io;
use std::io::{ErrorKind, Read, Write};

/// The ending for a datagram with this fault.
pub fn fault_ending(fault: &DeError) -> Ending
    ensures { result ≡ ending_of (Some fault.now) }
{
    match fault {
        DeError::InvalidInput(n) => Ending::Input(*n),
        DeError::Io(ErrorKind::UnexpectedEof) => Ending::Short,
        _ => Ending::Other,
    }
}

/// The ending if the next line is refused with this error.
pub(crate) fn ending_at(error: &DeError) -> Ending
    ensures { result ≡ ending_by error.now }
{
    match error {
        DeError::Memory => Ending::Memory,
        error => fault_ending(error),
    }
}

/// The line of a lent message. A body is not read; an error, an acknowledgement or the end of a dump is, since its
/// attributes are counted.
///
/// Refused as that payload is refused. It takes memory if the payload has attributes or an echo to copy; a body takes
/// none.
fn line_of(alloc: Global, message: &LentMessage<'_, u16>) -> Result<Line, DeError>
    ensures value { IfOk result
        (IsLineOf (as_owned (λ n. n) (λ n. n) (λ b. Ok b) (message_view message.now))) }
    ensures refused { IfErr result
        (Refuses (as_owned (λ n. n) (λ n. n) (λ b. Ok b) (message_view message.now))
        (as_owned_takes_memory (λ n. n) (λ b. Ok b) (λ b. 0 < length b)
        (message_view message.now))) }
    ensures body { message.now.header.message_type ≢ 2 → message.now.header.message_type ≢ 3
        → IsOk result }
{
    let number = *message.nl_type();
    if number == NLMSG_ERROR || number == NLMSG_DONE {
        let owned: RawMessage = message.to_nlmsghdr(alloc)?;
        return Ok(Line::of(&owned));
    }
    Ok(Line::of_body(message))
}

/// Reads the message at the front of the cursor's rest as an owned one, and returns its line.
fn read_owned_line(alloc: Global, cursor: &mut Cursor<'_>) -> Result<Line, DeError>
    ensures value { IfOk result (λ l. BeginsWith cursor.old.rest l cursor.new.rest) }
    ensures refused { IfErr result (Refuses (frame_at untyped_layout cursor.old.rest)
        (reading_takes_memory cursor.old.rest)) }
    ensures moved { OnOk result (whole cursor.new ≡ whole cursor.old) }
    ensures unchanged { OnErr result (cursor.new ≡ cursor.old) }
{
    let message: RawMessage = Nlmsghdr::from_bytes(alloc, cursor)?;
    Ok(Line::of(&message))
}

/// Reads the message at the front of the cursor's rest, and returns its line.
///
/// Refused as reading it as an untyped message is. It takes memory only where that reading does, for copied bytes; and
/// none if the payload is a body by the message's type alone, and the padding is there.
pub fn read_line(alloc: Global, cursor: &mut Cursor<'_>) -> Result<Line, DeError>
    ensures value { IfOk result (λ l. BeginsWith cursor.old.rest l cursor.new.rest) }
    ensures refused { IfErr result (Refuses (frame_at untyped_layout cursor.old.rest)
        (reading_takes_memory cursor.old.rest)) }
    ensures body { BeginsWithBody cursor.old.rest → IsOk result }
    ensures moved { OnOk result (whole cursor.new ≡ whole cursor.old) }
    ensures unchanged { OnErr result (cursor.new ≡ cursor.old) }
{
    let mut ahead = cursor.ahead();
    let Ok(message) = LentMessage::lend(&mut ahead) else {
        // A fault of the payload is reported before missing padding, so the whole message is read.
        return read_owned_line(alloc, cursor);
    };
    let line = line_of(alloc, &message)?;
    *cursor = ahead;
    Ok(line)
}

/// Writes a line for each message of a datagram, and returns how they end.
///
/// If memory runs out, the lines are those of the messages before, and the next line takes memory.
pub fn write_lines<W: Write>(alloc: Global, bytes: &[u8], output: &mut W) -> io::Result<Ending>
    ensures lists { IfOk result (λ e. (lines : List ℕ) × Lists bytes.now lines e
        × Appends (W.contents output.old) (W.contents output.new) lines) }
    // Plain bytes have only faults with a line of their own.
    ensures named { IfOk result (λ e. e ≢ line.Other) }
{
    let mut cursor = Cursor::new(bytes);
    while !cursor.rest().is_empty() {
        match read_line(alloc, &mut cursor) {
            Ok(line) => writeln!(output, "{line}")?,
            Err(error) => return Ok(ending_at(&error)),
        }
    }
    Ok(Ending::Whole)
}

/// Writes the line of an ending, if it has one, and flushes the output.
pub fn write_ending<W: Write>(ending: Ending, output: &mut W) -> io::Result<()>
    ensures { OnOk result
        (Appends (W.contents output.old) (W.contents output.new) (ending_text ending)) }
{
    write!(output, "{ending}")?;
    output.flush()
}

/// Writes a text and its ending, and flushes the output.
pub fn write_text<W: Write>(text: &[u8], ending: Ending, output: &mut W) -> io::Result<()>
    ensures { OnOk result (Appends (W.contents output.old) (W.contents output.new)
        (text.now ++ ending_text ending)) }
{
    output.write_all(text)?;
    write_ending(ending, output)
}

/// Writes the lines of a datagram and their ending, and returns the ending.
fn write_listing<W: Write>(alloc: Global, bytes: &[u8], output: &mut W) -> io::Result<Ending>
    ensures { IfOk result (λ e. (lines : List ℕ) × Lists bytes.now lines e
        × Appends (W.contents output.old) (W.contents output.new) (lines ++ ending_text e)) }
{
    let ending = write_lines(alloc, bytes, output)?;
    write_ending(ending, output)?;
    Ok(ending)
}

/// The status of a run that wrote a text with this ending.
pub fn status_of(ending: Ending) -> Status
    ensures { result ≡ status_by ending }
{
    match ending {
        Ending::Whole => Status::Whole,
        Ending::Memory => Status::Memory,
        _ => Status::Fault,
    }
}

/// Writes that memory ran out.
pub fn out_of_memory<W: Write>(output: &mut W) -> Status
    ensures { PrintsMemory (W.contents output.old) (W.contents output.new) result }
{
    match write_ending(Ending::Memory, output) {
        Ok(()) => Status::Memory,
        Err(_) => Status::NoOutput,
    }
}

/// Lists the datagram in the input: a line for each message, then the line of its fault.
///
/// The whole input is read before the first line is written; nothing is written if it fails or does not end. Each line
/// is written as it is made, so `output` should buffer.
#[tactic(auto, using(crate::proofs::Runs::text_prints, crate::proofs::Runs::memory_prints))]
pub fn list<R: Read, W: Write>(alloc: Global, input: &mut R, output: &mut W) -> Status
    ensures text { Prints Lists (R.remaining input.old)
        (W.contents output.old) (W.contents output.new) result }
    ensures untouched { result ≡ status.NoInput → output.new ≡ output.old }
{
    let bytes = match read_whole(alloc, input) {
        Ok(bytes) => bytes,
        Err(InputError::Memory) => return out_of_memory(output),
        Err(InputError::Failed | InputError::Endless) => return Status::NoInput,
    };
    match write_listing(alloc, &bytes, output) {
        Ok(ending) => status_of(ending),
        Err(_) => Status::NoOutput,
    }
}
