//! Reads a script and plays it.

ghost use Rattle.std.specs.Prelude.{◌≡◌, OnOk};
ghost use Rattle.std.specs.Io.KnownBytes.{Appends};
ghost use Rattle.neli_program.specs.declared.status.Status.TheVariants as status;
ghost use Rattle.neli_program.specs.Replays.{PrintsBadLine, PrintsMemory, PrintsReplay};

use crate::input::{InputError, read_whole};
use crate::play::play;
use crate::script::ScriptError;
use crate::status::Status;
use neli_runs::Deliveries;
use std::alloc::Global;
use std::io;
use std::io::{Read, Write};

/// Writes that memory ran out.
fn write_memory<W: Write>(output: &mut W) -> Status
    ensures { PrintsMemory (W.contents output.old) (W.contents output.new) result }
{
    let written = match writeln!(output, "memory") {
        Ok(()) => output.flush(),
        Err(error) => Err(error),
    };
    match written {
        Ok(()) => Status::Memory,
        Err(_) => Status::NoOutput,
    }
}

/// Writes which line is bad.
fn write_bad_line<W: Write>(line: usize, output: &mut W) -> Status
    ensures { PrintsBadLine line (W.contents output.old) (W.contents output.new) result }
{
    let written = match writeln!(output, "bad line {line}") {
        Ok(()) => output.flush(),
        Err(error) => Err(error),
    };
    match written {
        Ok(()) => Status::BadLine,
        Err(_) => Status::NoOutput,
    }
}

/// Writes a text, and flushes the output.
fn write_whole<W: Write>(text: &[u8], output: &mut W) -> io::Result<()>
    ensures { OnOk result (Appends (W.contents output.old) (W.contents output.new) text.now) }
{
    output.write_all(text)?;
    output.flush()
}

/// Reads a script, performs its commands with a new router that keeps its deliveries in a `D`, and writes a line for
/// each command.
///
/// The whole script is played before anything is written. Until then its text and the lines of its outcomes are kept,
/// but no command or outcome. If a line is bad, only the number of the first such line is written; if memory runs out,
/// only that. Nothing is written if the input fails or does not end.
pub fn replay<D: Deliveries, R: Read, W: Write>(
    alloc: Global,
    input: &mut R,
    output: &mut W,
) -> Status
    ensures text { PrintsReplay (R.remaining input.old)
        (W.contents output.old) (W.contents output.new) result }
    ensures untouched { result ≡ status.NoInput → output.new ≡ output.old }
{
    let bytes = match read_whole(alloc, input) {
        Ok(bytes) => bytes,
        Err(InputError::Memory) => return write_memory(output),
        Err(InputError::Failed | InputError::Endless) => return Status::NoInput,
    };
    let text = match play::<D>(alloc, &bytes) {
        Ok(text) => text,
        Err(ScriptError::BadLine(line)) => return write_bad_line(line, output),
        Err(ScriptError::Memory) => return write_memory(output),
    };
    match write_whole(&text, output) {
        Ok(()) => Status::Whole,
        Err(_) => Status::NoOutput,
    }
}
