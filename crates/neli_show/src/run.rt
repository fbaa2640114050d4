//! A run of the program.

ghost use Rattle.std.specs.Prelude.{◌≡◌, ◌≢◌, Err, IfErr, IfOk, IfSome, IsErr, IsOk, None, Ok, OnErr, OnOk};
ghost use Rattle.std.specs.Prelude.{◌⊎◌, find, is_some, map, string_bytes};
ghost use Rattle.std.specs.IoError.{error_kind};
ghost use Rattle.std.specs.Io.KnownBytes.{Appends, IsAtEnd};
ghost use Rattle.std.specs.Option.{option_map};
ghost use Rattle.neli_show.specs.declared.request.Request.{Request as Asked};
ghost use Rattle.neli_show.specs.Learnt.{AreTables};
ghost use Rattle.neli_show.specs.Lines.{Writes, WritesInput, is_whole_input};
ghost use Rattle.neli_show.specs.Parts.{input_by};
ghost use Rattle.neli_show.specs.Runs.{IsShown, asked_in, complaint_line, complaint_text, family_word};
ghost use Rattle.neli_show.specs.Runs.{input_status};
ghost use Rattle.neli_show.specs.Families.{family_in};
ghost use Rattle.neli_show.specs.Infos.{info_text};
ghost use Rattle.neli_show.specs.declared.info.Info.{Info as Told};
ghost use Rattle.neli_show.specs.Runs.{printed_status, status_code, unread_status};
ghost use Rattle.neli_tables_walk.specs.Json.{AreLines};

use crate::family::family_of;
use crate::gathered::print;
use crate::info::Info;
use crate::learn::{learn_input, learn_word};
use crate::part::Parts;
use crate::request::{Command, Output, Request, command_in};
use crate::whole::is_whole_input;
use neli_inputs::{Input, read_input};
use neli_tables::{ReadError, Tables};
use neli_tables_walk::built_in;
use std::alloc::Global;
use std::io::{ErrorKind, Read, Write};
use std::{fmt, io};

/// How a run ended.
#[derive(Clone, Copy, Debug, PartialEq, Eq)]
pub enum Status {
    /// All of the input is printed.
    Whole,
    /// A part of the input is not a message, and a line reports it.
    Fault,
    /// The input failed, and nothing is printed.
    NoInput,
    /// The output failed; a part of it may be written.
    NoOutput,
    /// The words are not a request of the program.
    Usage,
    /// Memory ran out before anything was printed.
    Memory,
}

impl Status {
    /// The exit status.
    pub fn code(self) -> u8
        ensures { result ≡ status_code self }
    {
        match self {
            Status::Whole => 0,
            Status::Fault | Status::NoInput | Status::NoOutput => 1,
            Status::Usage => 2,
            Status::Memory => 3,
        }
    }

    /// The message about it on standard error.
    fn complaint(self) -> Option<&'static str>
        ensures { option_map (λ text. text.now) result ≡ complaint_text self }
    {
        match self {
            Status::Whole | Status::Fault => None,
            Status::NoInput => Some("neli_show: the input cannot be read"),
            Status::NoOutput => Some("neli_show: the output cannot be written"),
            Status::Usage => Some(
                "usage: neli_show [--json | --color[=WHEN]] \
                [route | connector | generic[:FAMILY=ID] | NUMBER] < FILE (--help says more)",
            ),
            Status::Memory => Some("neli_show: out of memory"),
        }
    }
}

/// Prints the parts of an input by these tables.
fn print_input<W: Write>(
    out: &mut W,
    tables: &Tables<'_>,
    request: Request,
    input: &Input,
) -> fmt::Result
    ensures { OnOk result (Appends (W.contents out.old) (W.contents out.new)
        (input_by request.output tables.now request.protocol input.now.bytes.items
        input.now.items.items)) }
{
    let parts = Parts {
        output: request.output,
        tables,
        protocol: request.protocol,
        input,
    };
    print(out, parts)?;
    match out.flush() {
        Ok(()) => Ok(()),
        Err(_) => Err(fmt::Error),
    }
}

/// The status of a run that printed its input, which is messages alone or not; or of one whose output failed.
fn status_of(printed: fmt::Result, is_whole: bool) -> Status
    ensures ok { IsOk printed → result ≡ printed_status is_whole }
    ensures unprinted { IsErr printed → result ≡ Status.NoOutput }
{
    match printed {
        Ok(()) if is_whole => Status::Whole,
        Ok(()) => Status::Fault,
        Err(_) => Status::NoOutput,
    }
}

/// Prints an input by these tables, and returns the status of the run.
fn show_by<W: Write>(out: &mut W, tables: &Tables<'_>, request: Request, input: &Input) -> Status
    ensures text { result ≢ Status.NoOutput → Appends (W.contents out.old) (W.contents out.new)
        (input_by request.output tables.now request.protocol input.now.bytes.items
        input.now.items.items) }
    ensures ends { result ≢ Status.NoOutput
        → result ≡ printed_status (is_whole_input input.now.bytes.items input.now.items.items) }
    ensures shown { (result ≢ Status.Usage) × (result ≢ Status.Memory) × (result ≢ Status.NoInput) }
{
    let printed = print_input(out, tables, request, input);
    status_of(printed, is_whole_input(input))
}

/// The tables that an input is read by: those that are built in, with the numbers of families that
/// a word and the input have.
fn tables_for(
    alloc: Global,
    word: Option<&str>,
    protocol: u16,
    input: &Input,
) -> Result<Tables<'static>, ReadError>
    ensures { IfOk result (λ tables. AreTables (option_map (λ w. w.now) word.entry) protocol
        input.now.bytes.items input.now.items.items tables) }
{
    let mut tables = built_in(alloc)?;
    learn_word(&mut tables, word)?;
    learn_input(&mut tables, protocol, input)?;
    Ok(tables)
}

/// Prints bytes in the requested form.
fn show_bytes<W: Write>(
    alloc: Global,
    request: Request,
    word: Option<&str>,
    bytes: Vec<u8>,
    out: &mut W,
) -> Result<Status, ReadError>
    ensures shown { IfOk result (λ status. status ≢ Status.NoOutput
        → IsShown request (option_map (λ w. w.now) word.entry) bytes.items (W.contents out.old)
        (W.contents out.new) status) }
    ensures ran { IfOk result (λ status. (status ≢ Status.Usage) × (status ≢ Status.Memory)
        × (status ≢ Status.NoInput)) }
    ensures unchanged { OnErr result (out.new ≡ out.old) }
{
    let input = read_input(alloc, bytes)?;
    let tables = tables_for(alloc, word, request.protocol, &input)?;
    Ok(show_by(out, &tables, request, &input))
}

/// The status of a run whose input failed: memory ran out, or it cannot be read.
fn status_without_input(error: &io::Error) -> Status
    ensures { result ≡ input_status (error_kind error.now) }
{
    if error.kind() == ErrorKind::OutOfMemory {
        Status::Memory
    } else {
        Status::NoInput
    }
}

/// Reads the input, and prints it in the requested form.
fn show<R: Read, W: Write>(
    alloc: Global,
    request: Request,
    word: Option<&str>,
    input: &mut R,
    out: &mut W,
) -> Status
    ensures shown { result ≢ Status.NoOutput → result ≢ Status.NoInput → result ≢ Status.Memory
        → IfSome (R.remaining input.old)
        (λ bytes. IsShown request (option_map (λ w. w.now) word.entry) bytes (W.contents out.old)
        (W.contents out.new) result) }
    ensures json { request.output ≡ Output.Json → result ≢ Status.NoOutput
        → Writes (W.contents out.old) (W.contents out.new) AreLines }
    ensures asked { result ≢ Status.Usage }
    ensures unread { result ≡ Status.NoInput → out.new ≡ out.old }
    ensures memory { result ≡ Status.Memory → out.new ≡ out.old }
    ensures read { result ≢ Status.NoInput → result ≢ Status.Memory
        → IsAtEnd (R.remaining input.new) }
{
    let mut bytes = Vec::new(alloc);
    match input.read_to_end(&mut bytes) {
        Ok(_) => match show_bytes(alloc, request, word, bytes, out) {
            Ok(status) => status,
            Err(_) => Status::Memory,
        },
        Err(error) => status_without_input(&error),
    }
}

/// Returns the command in these words, or the status of a run whose words were not read.
fn asked(terminal: bool, words: &io::Result<Vec<String>>) -> Result<Command, Status>
    ensures unread { IfErr words.now (λ error. result ≡ Err (unread_status (error_kind error))) }
    ensures any { result ≡ asked_in terminal words.now }
{
    match words {
        Ok(words) => command_in(terminal, words.as_slice()).ok_or(Status::Usage),
        Err(error) if error.kind() == ErrorKind::OutOfMemory => Err(Status::Memory),
        Err(_) => Err(Status::Usage),
    }
}

/// The first of these words that names a family and its number.
fn family_in(words: &[String]) -> Option<&str>
    ensures { option_map (λ word. word.now) result
        ≡ find (λ word. is_some (family_in word)) (map string_bytes words.now) }
{
    for word in words {
        if family_of(word.as_str()).is_some() {
            return Some(word.as_str());
        }
    }
    None
}

/// The first word that names a family and its number.
fn family_word(words: &io::Result<Vec<String>>) -> Option<&str>
    ensures { option_map (λ word. word.now) result ≡ family_word words.now }
{
    match words {
        Ok(words) => family_in(words.as_slice()),
        Err(_) => None,
    }
}

/// Prints what the program says of itself.
fn tell<W: Write>(info: Info, out: &mut W) -> Status
    ensures told { result ≡ Status.Whole
        → Appends (W.contents out.old) (W.contents out.new) (info_text info) }
    ensures ends { (result ≡ Status.Whole) ⊎ (result ≡ Status.NoOutput) }
{
    match out.write_all(info.text().as_bytes()) {
        Ok(()) => match out.flush() {
            Ok(()) => Status::Whole,
            Err(_) => Status::NoOutput,
        },
        Err(_) => Status::NoOutput,
    }
}

/// Writes the message about a status, if there is one, in a line.
fn complain<C: Write>(complaints: &mut C, status: Status) -> io::Result<()>
    ensures written { OnOk result (Appends (C.contents complaints.old) (C.contents complaints.new)
        (complaint_line (complaint_text status))) }
    ensures quiet { complaint_text status ≡ None → complaints.new ≡ complaints.old }
{
    match status.complaint() {
        Some(complaint) => writeln!(complaints, "{complaint}"),
        None => Ok(()),
    }
}

/// Performs the command in these words, and returns the status of the run; writes the cause of a
/// failure to `complaints`.
pub fn run<R: Read, W: Write, C: Write>(
    alloc: Global,
    terminal: bool,
    words: &io::Result<Vec<String>>,
    input: &mut R,
    out: &mut W,
    complaints: &mut C,
) -> Status
    ensures shown { (request : Asked) → asked_in terminal words.now ≡ Ok (Command.Show request)
        → result ≢ Status.NoOutput → result ≢ Status.NoInput → result ≢ Status.Memory
        → IfSome (R.remaining input.old)
        (λ bytes. IsShown request (family_word words.now) bytes (W.contents out.old)
        (W.contents out.new) result) }
    ensures json { (request : Asked) → asked_in terminal words.now ≡ Ok (Command.Show request)
        → request.output ≡ Output.Json → result ≢ Status.NoOutput
        → Writes (W.contents out.old) (W.contents out.new) AreLines }
    ensures lines { (request : Asked) → asked_in terminal words.now ≡ Ok (Command.Show request)
        → request.output ≡ Output.Json → result ≢ Status.NoOutput → result ≢ Status.NoInput
        → result ≢ Status.Memory
        → IfSome (R.remaining input.old)
        (λ bytes. WritesInput bytes (W.contents out.old) (W.contents out.new)) }
    ensures told { (info : Told) → asked_in terminal words.now ≡ Ok (Command.Tell info)
        → (input.new ≡ input.old) × (result ≡ Status.Whole
        → Appends (W.contents out.old) (W.contents out.new) (info_text info)) }
    ensures asked { IsOk (asked_in terminal words.now) → result ≢ Status.Usage }
    ensures refused { IfErr (asked_in terminal words.now)
        (λ status. (result ≡ status) × (out.new ≡ out.old) × (input.new ≡ input.old)) }
    ensures unread { result ≡ Status.NoInput → out.new ≡ out.old }
    ensures memory { result ≡ Status.Memory → out.new ≡ out.old }
    ensures read { (request : Asked) → asked_in terminal words.now ≡ Ok (Command.Show request)
        → result ≢ Status.NoInput → result ≢ Status.Memory → IsAtEnd (R.remaining input.new) }
    ensures quiet { complaint_text result ≡ None → complaints.new ≡ complaints.old }
{
    let status = match asked(terminal, words) {
        Ok(Command::Show(request)) => show(alloc, request, family_word(words), input, out),
        Ok(Command::Tell(info)) => tell(info, out),
        Err(status) => status,
    };
    // If this fails too, only the status reports it.
    let _ = complain(complaints, status);
    status
}
