//! The places of the lines that others refer to.

ghost use Rattle.std.specs.Prelude.{◌≡◌, ℕ, List, map, IfOk, OnOk};
ghost use Rattle.std.specs.Option.{option_map};
ghost use Rattle.neli_tables.specs.declared.word.Word.{Word};
ghost use Rattle.neli_tables.specs.Names.{finds, head_of, head_view, place_before, place_in, word_text};
ghost use Rattle.neli_tables.specs.Text.{worded_view};

use crate::text::Worded;
use crate::word::Word;
use std::alloc::{AllocError, Global};
use std::collections::HashMap;

/// The lines of a text by their first word and their name: the first of each, by its place among the lines with words,
/// counted from 0.
#[derive(Drop)]
pub(crate) struct Names<'t> {
    map: HashMap<(&'t [u8], &'t [u8]), usize>,
}

/// The text of a first word.
fn text_of(word: Word) -> &'static [u8]
    ensures { result.now ≡ word_text word }
{
    match word {
        Word::Family => b"family",
        Word::Group => b"group",
        Word::Message => b"message",
        Word::Struct => b"struct",
        Word::Field => b"field",
        Word::Set => b"set",
        Word::Attr => b"attr",
        Word::Each => b"each",
        Word::Choice => b"choice",
        Word::Case => b"case",
        Word::Else => b"else",
        Word::Enum => b"enum",
        Word::Flags => b"flags",
        Word::Value => b"value",
    }
}

/// The first word and the name of a line of these words.
fn head_of<'t>(words: &[&'t [u8]]) -> Option<(&'t [u8], &'t [u8])>
    ensures { option_map head_view result ≡ head_of (map (λ word. word.now) words.now) }
{
    match words {
        [first, name, ..] => Some((*first, *name)),
        _ => None,
    }
}

impl<'t> Names<'t> {
    /// The places of these lines.
    pub(crate) fn of(alloc: Global, lines: &[Worded<'t>]) -> Result<Names<'t>, AllocError>
        ensures { IfOk result (λ names. (w : Word) (name : List ℕ)
            → finds names w name ≡ place_in w name 0 (map worded_view lines.now)) }
    {
        let mut names = Names {
            map: HashMap::new(alloc),
        };
        let mut index = lines.len();
        while 0 < index {
            index -= 1;
            names.add(&lines[index].words, index)?;
        }
        Ok(names)
    }

    /// Notes that a line with these words stands here; it replaces a later one with its first word and name.
    fn add(&mut self, words: &[&'t [u8]], place: usize) -> Result<(), AllocError>
        ensures { OnOk result ((w : Word) (name : List ℕ) → finds self.new w name
            ≡ place_before w name place (map (λ word. word.now) words.now) (finds self.old w name)) }
    {
        let Some(key) = head_of(words) else {
            return Ok(());
        };
        self.map.insert(key, place)?;
        Ok(())
    }

    /// Returns the place of the line with this first word and this name.
    pub(crate) fn find(&self, word: Word, name: &'t [u8]) -> Option<usize>
        ensures { result ≡ finds self.now word name.now }
    {
        self.map.get(&(text_of(word), name)).copied()
    }
}
