//! A run of the program.

ghost use Rattle.std.specs.Prelude.{◌≡◌, ◌↔◌, [], ◌∷◌, map, codes, string_bytes, IsTrue};
ghost use Rattle.neli_program.specs.declared.status.Status.TheVariants as status;
ghost use Rattle.neli_program.specs.Runs.{Prints, PrintsMemory};
ghost use Rattle.neli_program.specs.Listing.{Lists};
ghost use Rattle.neli_program.specs.Rewriting.{Rewrites};
ghost use Rattle.neli_program.specs.Replays.{PrintsReplay};
ghost use Rattle.neli_program.specs.Requests.{AreWrong, AskForList, AskForReplay, AskForZero, Asks, Complains};
ghost use Rattle.neli_program.specs.Requests.{RanOutOfMemory};

use crate::listing::{list, out_of_memory};
use crate::replay::replay;
use crate::rewriting::list_zero;
use crate::status::Status;
use neli_runs::Deliveries;
use std::alloc::Global;
use std::io;
use std::io::{ErrorKind, Read, Write};

/// The request in the arguments after the program's name.
#[derive(Clone, Copy, Debug, PartialEq, Eq)]
pub enum Request {
    /// To list a datagram: the one word `list`.
    List,
    /// To write a datagram with zeros for its padding: the words `list` and `zero`.
    Zero,
    /// To play a script: the one word `replay`.
    Replay,
    /// To print the usage line: any other arguments.
    Usage,
    /// To report that memory ran out while they were read.
    Memory,
}

/// Whether there is only this word.
fn are_one(words: &[String], name: &str) -> bool
    ensures { IsTrue result ↔ (map string_bytes words.now ≡ name.now ∷ []) }
{
    match words {
        [word] => word.as_str() == name,
        _ => false,
    }
}

/// Whether these are the words `list` and `zero`.
fn is_list_zero(words: &[String]) -> bool
    ensures { IsTrue result ↔ (map string_bytes words.now ≡ codes "list" ∷ codes "zero" ∷ []) }
{
    match words {
        [first, second] if first.as_str() == "list" && second.as_str() == "zero" => true,
        _ => false,
    }
}

/// The request in these words. Words that could not be read for another reason than memory, as one that is not UTF-8,
/// are wrong.
#[tactic(auto, using(crate::proofs::Asked::list_words, crate::proofs::Asked::zero_words, crate::proofs::Asked::replay_words, crate::proofs::Asked::memory_error, crate::proofs::Asked::other_words, crate::proofs::Asked::other_error))]
pub fn requested(words: &io::Result<Vec<String>>) -> Request
    ensures { Asks words.now result }
{
    match words {
        Ok(words) => {
            if are_one(words.as_slice(), "list") {
                Request::List
            } else if is_list_zero(words.as_slice()) {
                Request::Zero
            } else if are_one(words.as_slice(), "replay") {
                Request::Replay
            } else {
                Request::Usage
            }
        }
        Err(error) => {
            if error.kind() == ErrorKind::OutOfMemory {
                Request::Memory
            } else {
                Request::Usage
            }
        }
    }
}

/// Writes the usage line.
fn complain<C: Write>(complaints: &mut C) -> Status
    ensures { Complains (C.contents complaints.old) (C.contents complaints.new) result }
{
    let written = match writeln!(complaints, "usage: neli_tool list [zero] | replay") {
        Ok(()) => complaints.flush(),
        Err(error) => Err(error),
    };
    match written {
        Ok(()) => Status::Usage,
        Err(_) => Status::NoUsage,
    }
}

/// Does what these words request, and returns how the run ends; the exit status is its `code`.
///
/// The words are checked first. The input is read only if they request a datagram or a script: whole, and before
/// anything is written. For wrong words the usage line is written to `complaints`. The router of a script keeps its
/// deliveries in a `D`.
#[tactic(auto, using(crate::proofs::Asked::not_both, crate::proofs::Asked::not_zero_too, crate::proofs::Asked::not_replay_too, crate::proofs::Asked::list_or_zero, crate::proofs::Asked::list_or_replay, crate::proofs::Asked::zero_or_replay, crate::proofs::Asked::memory_no_input))]
pub fn run<D: Deliveries, R: Read, W: Write, C: Write>(
    alloc: Global,
    words: &io::Result<Vec<String>>,
    input: &mut R,
    output: &mut W,
    complaints: &mut C,
) -> Status
    ensures list { AskForList words.now
        → Prints Lists (R.remaining input.old)
        (W.contents output.old) (W.contents output.new) result }
    ensures zero { AskForZero words.now
        → Prints Rewrites (R.remaining input.old)
        (W.contents output.old) (W.contents output.new) result }
    ensures replay { AskForReplay words.now
        → PrintsReplay (R.remaining input.old)
        (W.contents output.old) (W.contents output.new) result }
    ensures memory { RanOutOfMemory words.now
        → PrintsMemory (W.contents output.old) (W.contents output.new) result }
    ensures usage { AreWrong words.now
        → Complains (C.contents complaints.old) (C.contents complaints.new) result }
    ensures untouched { AreWrong words.now → output.new ≡ output.old }
    ensures no_input { result ≡ status.NoInput → output.new ≡ output.old }
    ensures unread { ¬ AskForList words.now → ¬ AskForZero words.now → ¬ AskForReplay words.now
        → input.new ≡ input.old }
    ensures silent { ¬ AreWrong words.now → complaints.new ≡ complaints.old }
{
    match requested(words) {
        Request::List => list(alloc, input, output),
        Request::Zero => list_zero(alloc, input, output),
        Request::Replay => replay::<D, R, W>(alloc, input, output),
        Request::Usage => complain(complaints),
        Request::Memory => out_of_memory(output),
    }
}
