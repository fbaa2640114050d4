//! The options of a line.

ghost use Rattle.std.specs.Prelude.{◌≡◌, ◌==◌, ◌<◌, length, map, IfSome};
ghost use Rattle.std.specs.List.{position};
ghost use Rattle.std.specs.Option.{option_map};
ghost use Rattle.neli_tables.specs.Names.{finds};
ghost use Rattle.neli_tables.specs.Refusals.{Reads, seen_as};
ghost use Rattle.neli_tables.specs.Settings.{has_slot, said_named, setting_in, setting_view, settings_in};
ghost use Rattle.neli_tables.specs.Settings.{settings_view};
ghost use Rattle.neli_tables.specs.Settings.{setting_with, slot, taken, takes, value_in, value_or_none};
ghost use Rattle.neli_tables.specs.Settings.{value_view};

use crate::key::{Key, key_named};
use crate::kind::{Kind, kind_named};
use crate::names::Names;
use crate::number::{Span, span_of};
use crate::why::{Unread, Why};
use crate::word::Word;
use std::alloc::Global;

/// The meaning of an option.
#[derive(Clone, Copy, Debug, PartialEq, Eq)]
pub enum Said {
    /// The kind.
    Kind(Kind),
    /// Something else.
    Key(Key),
}

/// The value that an option takes after a `=`.
#[derive(Clone, Copy, Debug, PartialEq, Eq)]
pub(crate) enum Takes {
    /// No value.
    Nothing,
    /// The name of a line with this first word.
    Line(Word),
    /// Another word.
    Word,
    /// A number or a range.
    Span,
}

/// The value of an option.
#[derive(Clone, Copy, Debug)]
pub enum Value<N> {
    /// None.
    Nothing,
    /// A word.
    Word(N),
    /// A number or a range.
    Span(Span),
    /// The line that it refers to: its place among the lines of the text with words, counted from 0.
    Line(usize),
}

/// An option of a line.
#[derive(Clone, Copy, Debug)]
pub struct Setting<N> {
    /// Its meaning.
    pub said: Said,
    /// Its value.
    pub value: Value<N>,
}

impl Said {
    /// The value that it takes.
    pub(crate) fn takes(self) -> Takes
        ensures { result ≡ takes self }
    {
        match self {
            Said::Kind(Kind::Nest | Kind::Hops) => Takes::Line(Word::Set),
            Said::Kind(Kind::Struct) | Said::Key(Key::After) => Takes::Line(Word::Struct),
            Said::Kind(Kind::Choice) => Takes::Line(Word::Choice),
            Said::Kind(_) => Takes::Nothing,
            Said::Key(Key::By) => Takes::Line(Word::Attr),
            Said::Key(Key::Enum) => Takes::Line(Word::Enum),
            Said::Key(Key::Flags) => Takes::Line(Word::Flags),
            Said::Key(Key::Prefix) => Takes::Word,
            Said::Key(
                Key::Length
                | Key::Range
                | Key::Mask
                | Key::Family
                | Key::Version
                | Key::Id
                | Key::At
                | Key::StrictFrom,
            ) => Takes::Span,
            Said::Key(_) => Takes::Nothing,
        }
    }
}

/// The number of an option: kinds share one, since a line has one kind.
fn slot(said: Said) -> u8
    ensures { result ≡ slot said }
{
    match said {
        Said::Kind(_) => 0,
        Said::Key(Key::After) => 1,
        Said::Key(Key::By) => 2,
        Said::Key(Key::ByFamily) => 3,
        Said::Key(Key::Enum) => 4,
        Said::Key(Key::Flags) => 5,
        Said::Key(Key::Array) => 6,
        Said::Key(Key::Multi) => 7,
        Said::Key(Key::Length) => 8,
        Said::Key(Key::Range) => 9,
        Said::Key(Key::Mask) => 10,
        Said::Key(Key::Hex) => 11,
        Said::Key(Key::Request) => 12,
        Said::Key(Key::Reply) => 13,
        Said::Key(Key::Family) => 14,
        Said::Key(Key::Version) => 15,
        Said::Key(Key::Id) => 16,
        Said::Key(Key::At) => 17,
        Said::Key(Key::Prefix) => 18,
        Said::Key(Key::Strict) => 19,
        Said::Key(Key::StrictFrom) => 20,
    }
}

/// The meaning of the option with this name.
fn said_named(name: &[u8]) -> Option<Said>
    ensures { result ≡ said_named name.now }
{
    match kind_named(name) {
        Some(kind) => Some(Said::Kind(kind)),
        None => match key_named(name) {
            Some(key) => Some(Said::Key(key)),
            None => None,
        },
    }
}

/// The value of this word, if the option takes this.
fn taken<'t>(names: &Names<'t>, takes: Takes, word: &'t [u8]) -> Result<Value<&'t [u8]>, Why>
    ensures { seen_as value_view result ≡ taken (finds names.now) takes word.now }
{
    match takes {
        Takes::Nothing => Err(Why::Value),
        Takes::Line(first) => match names.find(first, word) {
            Some(place) => Ok(Value::Line(place)),
            None => Err(Why::NothingNamed),
        },
        Takes::Word => Ok(Value::Word(word)),
        Takes::Span => match span_of(word) {
            Some(span) => Ok(Value::Span(span)),
            None => Err(Why::NotANumber),
        },
    }
}

/// The value after a `=`, if the option takes this.
fn value_in<'t>(names: &Names<'t>, takes: Takes, word: &'t [u8]) -> Result<Value<&'t [u8]>, Why>
    ensures { seen_as value_view result ≡ value_in (finds names.now) takes word.now }
{
    if word.is_empty() {
        Err(Why::Value)
    } else {
        taken(names, takes, word)
    }
}

/// The value of an option that takes this, if a `=` may follow its name.
fn value_or_none<'t>(
    names: &Names<'t>,
    takes: Takes,
    word: Option<&'t [u8]>,
) -> Result<Value<&'t [u8]>, Why>
    ensures { seen_as value_view result
        ≡ value_or_none (finds names.now) takes (option_map (λ word. word.now) word.entry) }
{
    match word {
        Some(word) => value_in(names, takes, word),
        None => match takes {
            Takes::Nothing => Ok(Value::Nothing),
            Takes::Line(_) | Takes::Word | Takes::Span => Err(Why::Value),
        },
    }
}

/// The option in these two words; the second one followed a `=`.
fn setting_with<'t>(
    names: &Names<'t>,
    name: &[u8],
    value: Option<&'t [u8]>,
) -> Result<Setting<&'t [u8]>, Why>
    ensures { seen_as setting_view result
        ≡ setting_with (finds names.now) name.now (option_map (λ v. v.now) value.entry) }
{
    let Some(said) = said_named(name) else {
        return Err(Why::UnknownOption);
    };
    match value_or_none(names, said.takes(), value) {
        Ok(value) => Ok(Setting { said, value }),
        Err(why) => Err(why),
    }
}

/// The index of the first `=`.
fn equals_in(word: &[u8]) -> Option<usize>
    ensures value { result ≡ position (λ b. b == 61) word.now }
    ensures within { IfSome result (λ at. at < length word.now) }
{
    word.iter().position(|byte| *byte == b'=')
}

/// The option in a word.
fn setting_of<'t>(names: &Names<'t>, word: &'t [u8]) -> Result<Setting<&'t [u8]>, Why>
    ensures { seen_as setting_view result ≡ setting_in (finds names.now) word.now }
{
    match equals_in(word) {
        Some(at) => setting_with(names, &word[..at], Some(&word[at + 1..])),
        None => setting_with(names, word, None),
    }
}

/// Whether two options have the same number.
fn same_slot(one: Said, other: Said) -> bool
    ensures { result ≡ slot one == slot other }
{
    slot(one) == slot(other)
}

/// Whether one of these options has the number of this one.
fn has_slot(settings: &[Setting<&[u8]>], said: Said) -> bool
    ensures { result ≡ has_slot (map setting_view settings.now) said }
{
    for setting in settings {
        if same_slot(setting.said, said) {
            return true;
        }
    }
    false
}

/// Returns the options in these words.
pub(crate) fn settings_of<'t>(
    alloc: Global,
    names: &Names<'t>,
    words: &[&'t [u8]],
) -> Result<Vec<Setting<&'t [u8]>>, Unread>
    ensures { Reads settings_view
        (settings_in (finds names.now) (map (λ word. word.now) words.now)) result }
{
    let mut settings = Vec::with_capacity(alloc, words.len())?;
    for word in words {
        let setting = match setting_of(names, word) {
            Ok(setting) => setting,
            Err(why) => return Err(Unread::Refused(why)),
        };
        if has_slot(&settings, setting.said) {
            return Err(Unread::Refused(Why::Twice));
        }
        settings.push(setting)?;
    }
    Ok(settings)
}
