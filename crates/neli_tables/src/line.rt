//! A line, read from its words.

ghost use Rattle.std.specs.Prelude.{◌≡◌, map};
ghost use Rattle.neli_tables.specs.Lines.{after_number, all_belong, belongs, class_of, is_countable};
ghost use Rattle.neli_tables.specs.Lines.{key_belongs};
ghost use Rattle.neli_tables.specs.Lines.{kind_in, kind_said, line_in, line_view, line_with, no_number};
ghost use Rattle.neli_tables.specs.Lines.{number_allowed, number_at, number_in, numbers_of};
ghost use Rattle.neli_tables.specs.Names.{finds};
ghost use Rattle.neli_tables.specs.Refusals.{Reads};
ghost use Rattle.neli_tables.specs.Settings.{setting_view};

use crate::key::Key;
use crate::kind::Kind;
use crate::names::Names;
use crate::number::{Span, span_of};
use crate::setting::{Said, Setting, settings_of};
use crate::why::{Unread, Why};
use crate::word::{Word, word_named};
use std::alloc::Global;

/// A line of a text.
#[derive(Drop)]
pub struct Line<'t> {
    /// Its number in the text, counted from 1.
    pub number: usize,
    /// Its kind, by its first word.
    pub word: Word,
    /// Its name.
    pub name: &'t [u8],
    /// The number after its name, or the range; `None` if it has none.
    pub span: Option<Span>,
    /// Its options, in order.
    pub settings: Vec<Setting<&'t [u8]>>,
}

/// The numbers that lines have after their names.
#[derive(Clone, Copy, Debug, PartialEq, Eq)]
pub(crate) enum Numbers {
    /// None.
    Never,
    /// A number, or none.
    Maybe,
    /// A number.
    One,
    /// A number or a range.
    Range,
}

/// Returns the numbers that lines with this first word have.
fn numbers_of(word: Word) -> Numbers
    ensures { result ≡ numbers_of word }
{
    match word {
        Word::Set | Word::Each | Word::Choice | Word::Else | Word::Enum | Word::Flags => {
            Numbers::Never
        }
        Word::Family | Word::Group | Word::Case => Numbers::Maybe,
        Word::Message | Word::Struct | Word::Attr | Word::Value => Numbers::One,
        Word::Field => Numbers::Range,
    }
}

/// Checks the number of a line that has one.
fn number_allowed(numbers: Numbers, span: Span) -> Result<Span, Why>
    ensures { result ≡ number_allowed numbers span }
{
    match numbers {
        Numbers::Never => Err(Why::NumberElsewhere),
        Numbers::Maybe | Numbers::One => {
            if span.first == span.last {
                Ok(span)
            } else {
                Err(Why::NotANumber)
            }
        }
        Numbers::Range => Ok(span),
    }
}

/// Checks that a line may lack its number.
fn no_number(numbers: Numbers) -> Result<Option<Span>, Why>
    ensures { result ≡ no_number numbers }
{
    match numbers {
        Numbers::Never | Numbers::Maybe => Ok(None),
        Numbers::One | Numbers::Range => Err(Why::NumberMissing),
    }
}

/// Whether a word stands in the place of a number: it begins with a digit.
fn is_countable(word: &[u8]) -> bool
    ensures { result ≡ is_countable word.now }
{
    match word {
        [first, ..] => b'0' <= *first && *first <= b'9',
        [] => false,
    }
}

/// The number that this word is.
fn number_at(numbers: Numbers, word: &[u8]) -> Result<Option<Span>, Why>
    ensures { result ≡ number_at numbers word.now }
{
    let Some(span) = span_of(word) else {
        return Err(Why::NotANumber);
    };
    match number_allowed(numbers, span) {
        Ok(span) => Ok(Some(span)),
        Err(why) => Err(why),
    }
}

/// The number after a name, if these words follow it.
fn number_in(numbers: Numbers, words: &[&[u8]]) -> Result<Option<Span>, Why>
    ensures { result ≡ number_in numbers (map (λ word. word.now) words.now) }
{
    match words {
        [word, ..] if is_countable(word) => number_at(numbers, word),
        _ => no_number(numbers),
    }
}

/// The kind in an option.
fn kind_said(said: Said) -> Option<Kind>
    ensures { result ≡ kind_said said }
{
    match said {
        Said::Kind(kind) => Some(kind),
        Said::Key(_) => None,
    }
}

/// The kind among these options.
fn kind_in(settings: &[Setting<&[u8]>]) -> Option<Kind>
    ensures { result ≡ kind_in (map setting_view settings.now) }
{
    for setting in settings {
        if let Some(kind) = kind_said(setting.said) {
            return Some(kind);
        }
    }
    None
}

/// What an option requires of the kind beside it.
#[derive(Clone, Copy, Debug, PartialEq, Eq)]
pub(crate) enum Class {
    /// A number.
    Number,
    /// A nest, or hops.
    Nest,
    /// The kind that a choice picks.
    Choice,
    /// A structure.
    Struct,
    /// Bits, with the mask of those that count.
    Bits,
    /// Bytes.
    Bytes,
    /// Another kind.
    Other,
    /// No kind.
    Nothing,
}

/// The class of a kind.
fn class_of(kind: Option<Kind>) -> Class
    ensures { result ≡ class_of kind }
{
    let Some(kind) = kind else {
        return Class::Nothing;
    };
    match kind {
        Kind::U8 | Kind::U16 | Kind::U32 | Kind::U64 => Class::Number,
        Kind::S8 | Kind::S16 | Kind::S32 | Kind::S64 => Class::Number,
        Kind::Be16 | Kind::Be32 | Kind::Be64 | Kind::Sbe32 => Class::Number,
        Kind::Uint | Kind::Sint => Class::Number,
        Kind::Nest | Kind::Hops => Class::Nest,
        Kind::Choice => Class::Choice,
        Kind::Struct => Class::Struct,
        Kind::Bits => Class::Bits,
        Kind::Bytes => Class::Bytes,
        _ => Class::Other,
    }
}

/// Whether an option may stand on a line with this first word and a kind of this class.
fn belongs(word: Word, class: Class, said: Said) -> bool
    ensures { result ≡ belongs word class said }
{
    match said {
        Said::Kind(_) => matches!(
            word,
            Word::Message | Word::Field | Word::Attr | Word::Each | Word::Case | Word::Else
        ),
        Said::Key(key) => key_belongs(word, class, key),
    }
}

/// Whether this option, which is no kind, may stand on such a line.
fn key_belongs(word: Word, class: Class, key: Key) -> bool
    ensures { result ≡ key_belongs word class key }
{
    match key {
        Key::After => matches!(class, Class::Nest),
        Key::By | Key::ByFamily => matches!(class, Class::Choice),
        Key::Enum | Key::Flags => matches!(class, Class::Number | Class::Bits),
        Key::Array => matches!(class, Class::Number | Class::Struct),
        Key::Length => !matches!(class, Class::Nothing),
        Key::Range | Key::Mask => matches!(class, Class::Number),
        Key::Hex => matches!(class, Class::Number | Class::Bytes),
        Key::Multi => matches!(word, Word::Attr),
        Key::Request | Key::Reply | Key::Family | Key::Strict => matches!(word, Word::Message),
        Key::StrictFrom => matches!(word, Word::Set),
        Key::Version | Key::Id | Key::At => matches!(word, Word::Family),
        Key::Prefix => matches!(word, Word::Enum | Word::Flags),
    }
}

/// Whether all these options may stand on such a line.
fn all_belong(word: Word, class: Class, settings: &[Setting<&[u8]>]) -> bool
    ensures { result ≡ all_belong word class (map setting_view settings.now) }
{
    for setting in settings {
        if !belongs(word, class, setting.said) {
            return false;
        }
    }
    true
}

/// The words after a number, if there is one.
fn after_number<'w, 't>(words: &'w [&'t [u8]], span: Option<Span>) -> &'w [&'t [u8]]
    ensures { map (λ word. word.now) result.now
        ≡ after_number (map (λ word. word.now) words.now) span }
{
    match (span, words) {
        (Some(_), [_, rest @ ..]) => rest,
        _ => words,
    }
}

/// Returns the line with this first word, this name, and these words after it.
fn read_named<'t>(
    alloc: Global,
    names: &Names<'t>,
    number: usize,
    word: Word,
    name: &'t [u8],
    words: &[&'t [u8]],
) -> Result<Line<'t>, Unread>
    ensures { Reads line_view (line_with (finds names.now) number word name.now
        (map (λ word. word.now) words.now)) result }
{
    let span = match number_in(numbers_of(word), words) {
        Ok(span) => span,
        Err(why) => return Err(Unread::Refused(why)),
    };
    let settings = settings_of(alloc, names, after_number(words, span))?;
    if !all_belong(word, class_of(kind_in(&settings)), &settings) {
        return Err(Unread::Refused(Why::OptionElsewhere));
    }
    Ok(Line {
        number,
        word,
        name,
        span,
        settings,
    })
}

/// Returns the line of these words, which has this number in its text.
pub(crate) fn read_line<'t>(
    alloc: Global,
    names: &Names<'t>,
    number: usize,
    words: &[&'t [u8]],
) -> Result<Line<'t>, Unread>
    ensures { Reads line_view (line_in (finds names.now) number
        (map (λ word. word.now) words.now)) result }
{
    let [first, rest @ ..] = words else {
        return Err(Unread::Refused(Why::UnknownWord));
    };
    let Some(word) = word_named(first) else {
        return Err(Unread::Refused(Why::UnknownWord));
    };
    let [name, words @ ..] = rest else {
        return Err(Unread::Refused(Why::NameMissing));
    };
    read_named(alloc, names, number, word, name, words)
}
