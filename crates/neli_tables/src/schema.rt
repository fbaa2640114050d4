//! Reads a text.

ghost use Rattle.std.specs.Prelude.{◌≡◌, Ok, None, Some, map, IfErr, IfOk};
ghost use Rattle.neli_tables.specs.Lines.{line_view};
ghost use Rattle.neli_tables.specs.Names.{finds};
ghost use Rattle.neli_tables.specs.Refusals.{Reads};
ghost use Rattle.neli_tables.specs.Schemas.{IsWhyNot, error_at, error_text, line_at, lines_from, table_in};
ghost use Rattle.neli_tables.specs.Text.{worded_view};
ghost use Rattle.neli_tables.specs.declared.schema.ReadError.TheVariants.{Memory};

use crate::line::{Line, read_line};
use crate::names::Names;
use crate::section::{place_fault, section_after};
use crate::text::{Worded, worded_lines};
use crate::why::{Unread, Why};
use crate::word::Word;
use std::alloc::{AllocError, AllocFailed, Global};
use std::fmt;

/// Why a text is not read.
#[derive(Clone, Copy, Debug, PartialEq, Eq)]
pub enum ReadError {
    /// The line with this number, counted from 1, is the first that is refused, for this cause.
    Line(usize, Why),
    /// Memory ran out.
    Memory,
}

impl fmt::Display for ReadError {
    ghost output = { λ e. Some (error_text e) };

    fn fmt<W: fmt::Write>(&self, f: &mut fmt::Formatter<W>) -> fmt::Result {
        match self {
            ReadError::Line(number, why) => write!(f, "line {number}: {why}"),
            ReadError::Memory => write!(f, "out of memory"),
        }
    }
}

impl From<AllocError> for ReadError {
    ghost from_gives = { λ _ e. e ≡ Memory };

    fn from(_error: AllocError) -> ReadError {
        ReadError::Memory
    }
}

impl<V: Drop> From<AllocFailed<V>> for ReadError {
    ghost from_gives = { λ _ e. e ≡ Memory };

    fn from(_error: AllocFailed<V>) -> ReadError {
        ReadError::Memory
    }
}

/// The line of these words, if its place is valid.
fn read_placed<'t>(
    alloc: Global,
    names: &Names<'t>,
    section: Option<Word>,
    number: usize,
    words: &[&'t [u8]],
) -> Result<Line<'t>, Unread>
    ensures { Reads line_view (line_at (finds names.now) section number
        (map (λ word. word.now) words.now)) result }
{
    match read_line(alloc, names, number, words) {
        Ok(line) => match place_fault(section, line.word) {
            None => Ok(line),
            Some(why) => Err(Unread::Refused(why)),
        },
        Err(unread) => Err(unread),
    }
}

/// The reported refusal of the line with this number.
fn error_at(number: usize, unread: Unread) -> ReadError
    ensures { result ≡ error_at number unread }
{
    match unread {
        Unread::Refused(why) => ReadError::Line(number, why),
        Unread::Memory => ReadError::Memory,
    }
}

/// Reads these lines.
fn read_lines<'t>(
    alloc: Global,
    names: &Names<'t>,
    worded: &[Worded<'t>],
) -> Result<Vec<Line<'t>>, ReadError>
    ensures lines { IfOk result (λ lines.
        lines_from (finds names.now) None (map worded_view worded.now)
        ≡ Ok (map line_view lines.items)) }
    ensures refused { IfErr result
        (IsWhyNot (lines_from (finds names.now) None (map worded_view worded.now))) }
{
    let mut lines = Vec::new(alloc);
    let mut section = None;
    for line in worded {
        match read_placed(alloc, names, section, line.number, &line.words) {
            Ok(read) => {
                section = section_after(section, read.word);
                lines.push(read)?;
            }
            Err(unread) => return Err(error_at(line.number, unread)),
        }
    }
    Ok(lines)
}

/// Reads the lines of a family's text.
///
/// Refused with the number of the first bad line, or if memory runs out.
pub fn read_table<'t>(alloc: Global, text: &'t [u8]) -> Result<Vec<Line<'t>>, ReadError>
    ensures lines { IfOk result (λ lines. table_in text.now ≡ Ok (map line_view lines.items)) }
    ensures refused { IfErr result (IsWhyNot (table_in text.now)) }
{
    let worded = worded_lines(alloc, text)?;
    let names = Names::of(alloc, &worded)?;
    read_lines(alloc, &names, &worded)
}
