//! The lines of a text, and the words of a line.

ghost use Rattle.std.specs.Prelude.{◌≡◌, ◌==◌, map, IfOk};
ghost use Rattle.std.specs.List.{slice_split};
ghost use Rattle.neli_tables.specs.Text.{begins_comment, words_in, worded_in, worded_view};

use std::alloc::{AllocError, Global};

/// A line with words: its number, counted from 1, and its words.
#[derive(Drop)]
pub(crate) struct Worded<'t> {
    pub number: usize,
    pub words: Vec<&'t [u8]>,
}

/// The parts of a text between its line ends, lent.
fn parts_of<'t>(alloc: Global, text: &'t [u8]) -> Result<Vec<&'t [u8]>, AllocError>
    ensures { IfOk result (λ parts. map (λ part. part.now) parts.items
        ≡ slice_split (λ b. b == 10) text.now) }
{
    text.split(|byte| *byte == b'\n').collect(alloc)
}

/// Whether this word starts a comment.
fn begins_comment(word: &[u8]) -> bool
    ensures { result ≡ begins_comment word.now }
{
    match word {
        [first, ..] => *first == b'#',
        [] => false,
    }
}

/// The words of a line, without a comment, lent.
fn words_of<'t>(alloc: Global, line: &'t [u8]) -> Result<Vec<&'t [u8]>, AllocError>
    ensures { IfOk result (λ words. map (λ word. word.now) words.items ≡ words_in line.now) }
{
    line.split(|byte| *byte == b' ')
        .take_while(|word| !begins_comment(word))
        .filter(|word| !word.is_empty())
        .collect(alloc)
}

/// Returns the lines of a text that have words.
pub(crate) fn worded_lines<'t>(alloc: Global, text: &'t [u8]) -> Result<Vec<Worded<'t>>, AllocError>
    ensures { IfOk result (λ lines. map worded_view lines.items ≡ worded_in text.now) }
{
    let lines = parts_of(alloc, text)?;
    let mut worded = Vec::new(alloc);
    for (index, line) in lines.iter().enumerate() {
        let words = words_of(alloc, line)?;
        if words.is_empty() {
            continue;
        }
        let number = index + 1;
        worded.push(Worded { number, words })?;
    }
    Ok(worded)
}
