//! The first word of a line.

ghost use Rattle.std.specs.Prelude.{◌≡◌, map};
ghost use Rattle.neli_tables.specs.Rows.{row_view};
ghost use Rattle.neli_tables.specs.Words.{word_named, words};

use crate::rows::row_named;

/// The sort of a line, by its first word.
#[derive(Clone, Copy, Debug, PartialEq, Eq)]
pub enum Word {
    /// `family`.
    Family,
    /// `group`.
    Group,
    /// `message`.
    Message,
    /// `struct`.
    Struct,
    /// `field`.
    Field,
    /// `set`.
    Set,
    /// `attr`.
    Attr,
    /// `each`.
    Each,
    /// `choice`.
    Choice,
    /// `case`.
    Case,
    /// `else`.
    Else,
    /// `enum`.
    Enum,
    /// `flags`.
    Flags,
    /// `value`.
    Value,
}

/// Each first word, and its line.
static WORDS: [(&[u8], Word); 14] = [
    (b"family", Word::Family),
    (b"group", Word::Group),
    (b"message", Word::Message),
    (b"struct", Word::Struct),
    (b"field", Word::Field),
    (b"set", Word::Set),
    (b"attr", Word::Attr),
    (b"each", Word::Each),
    (b"choice", Word::Choice),
    (b"case", Word::Case),
    (b"else", Word::Else),
    (b"enum", Word::Enum),
    (b"flags", Word::Flags),
    (b"value", Word::Value),
];

/// The whole table.
#[tactic(auto, unfolding(crate::specs::Words::words))]
fn word_rows() -> &'static [(&'static [u8], Word)]
    ensures { map row_view result.now ≡ words }
{
    &WORDS
}

/// Returns the line with this first word.
pub(crate) fn word_named(name: &[u8]) -> Option<Word>
    ensures { result ≡ word_named name.now }
{
    row_named(word_rows(), name)
}
