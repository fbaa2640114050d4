//! The lines of outcomes.

ghost use Rattle.std.specs.Prelude.{◌≡◌, ◌++◌, codes, OnOk};
ghost use Rattle.std.specs.Io.KnownBytes.{Appends};
ghost use Rattle.hex.specs.Hex.{encode_lower};
ghost use Rattle.neli_program.specs.Report.{error_text, fault_text, outcome_text, refusal_text, sends};

use crate::line::Line;
use neli_attr::Buffer;
use neli_reader::{RouterError, SocketError};
use neli_runs::Outcome;
use neli_wire::DeError;
use std::io;
use std::io::{ErrorKind, Write};

/// The outcome of a command of a script.
pub type RawOutcome = Outcome<u16, Buffer, u16, Buffer>;

/// An error in such an outcome.
pub type RawError = RouterError<u16, Buffer>;

/// Writes bytes in lower-case hexadecimal.
fn write_hex<W: Write>(bytes: &[u8], output: &mut W) -> io::Result<()>
    ensures { OnOk result (Appends (W.contents output.old) (W.contents output.new)
        (encode_lower bytes.now)) }
{
    for byte in bytes {
        write!(output, "{byte:02x}")?;
    }
    Ok(())
}

/// Writes why bytes were not read.
fn write_fault<W: Write>(fault: &DeError, output: &mut W) -> io::Result<()>
    ensures { OnOk result (Appends (W.contents output.old) (W.contents output.new)
        (fault_text fault.now)) }
{
    match fault {
        DeError::InvalidInput(n) => write!(output, "input {n}"),
        DeError::Io(ErrorKind::UnexpectedEof) => write!(output, "short"),
        _ => write!(output, "other"),
    }
}

/// Writes why an item is no message.
fn write_error<W: Write>(error: &RawError, output: &mut W) -> io::Result<()>
    ensures { OnOk result (Appends (W.contents output.old) (W.contents output.new)
        (error_text error.now)) }
{
    match error {
        RouterError::NoAck => write!(output, "noack"),
        RouterError::UnexpectedAck => write!(output, "unexpectedack"),
        RouterError::Nlmsgerr(answer) => {
            let code = *answer.error();
            write!(output, "netlink {code}")
        }
        RouterError::Capped(answer) => {
            let code = *answer.error();
            write!(output, "capped {code}")
        }
        RouterError::BadSeqOrPid(message) => {
            let number = *message.nl_seq();
            let port = *message.nl_pid();
            write!(output, "stray number {number} port {port}")
        }
        RouterError::De(fault) | RouterError::Socket(SocketError::De(fault)) => {
            write_fault(fault, output)
        }
        RouterError::Msg(_) => write!(output, "length"),
        RouterError::Socket(SocketError::Io(ErrorKind::ConnectionReset)) => {
            write!(output, "link reset")
        }
        RouterError::Socket(_) | RouterError::Io(_) => write!(output, "link other"),
        RouterError::ClosedChannel => write!(output, "closed"),
        RouterError::SeqInUse(number) => write!(output, "in use {number}"),
        RouterError::Memory => write!(output, "memory"),
    }
}

/// Writes why nothing is sent.
fn write_refusal<W: Write>(error: &RawError, output: &mut W) -> io::Result<()>
    ensures { OnOk result (Appends (W.contents output.old) (W.contents output.new)
        (refusal_text error.now)) }
{
    match error {
        RouterError::SeqInUse(number) => write!(output, "in use {number}"),
        RouterError::Msg(_) => write!(output, "length"),
        _ => write!(output, "other"),
    }
}

/// Writes the line of an outcome, without its end. `handle` counts the requests sent so far, its own included.
fn write_outcome<W: Write>(outcome: &RawOutcome, handle: usize, output: &mut W) -> io::Result<()>
    ensures { OnOk result (Appends (W.contents output.old) (W.contents output.new)
        (outcome_text handle outcome.now)) }
{
    match outcome {
        Outcome::Done => write!(output, "ok"),
        Outcome::Sent(bytes) => {
            write!(output, "sent {handle} ")?;
            write_hex(bytes, output)
        }
        Outcome::NotSent(error) => {
            write!(output, "refused ")?;
            write_refusal(error, output)
        }
        Outcome::Item(Ok(message)) => {
            let line = Line::of(message);
            write!(output, "item {line}")
        }
        Outcome::Item(Err(error)) => {
            write!(output, "error ")?;
            write_error(error, output)
        }
        Outcome::End => write!(output, "end"),
        Outcome::Waits => write!(output, "waits"),
        Outcome::NoHandle => write!(output, "no handle"),
    }
}

/// The number of requests that a command with this outcome sent: one or none.
pub(crate) fn count_sent(outcome: &RawOutcome) -> usize
    ensures { result ≡ sends outcome.now }
{
    match outcome {
        Outcome::Sent(_) => 1,
        _ => 0,
    }
}

/// Writes the line of an outcome. `handle` counts the requests sent so far, its own included.
pub(crate) fn write_line<W: Write>(
    outcome: &RawOutcome,
    handle: usize,
    output: &mut W,
) -> io::Result<()>
    ensures { OnOk result (Appends (W.contents output.old) (W.contents output.new)
        (outcome_text handle outcome.now ++ codes "\n")) }
{
    write_outcome(outcome, handle, output)?;
    writeln!(output)
}
