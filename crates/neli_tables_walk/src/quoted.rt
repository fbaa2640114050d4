//! Texts in quotes, as strings of JSON (RFC 8259, section 7).

ghost use Rattle.std.specs.Prelude.{◌≡◌, Some};
ghost use Rattle.std.specs.Option.{option_map};
ghost use Rattle.neli_tables_walk.specs.Quoted.{escape_of, escaped, escaped_char, quoted, text_in};

use neli_tables::are_plain;
use std::fmt::Display;
use std::{fmt, str};

/// The form of a character in a string of JSON.
#[derive(Clone, Copy, Debug, PartialEq, Eq)]
enum Escape {
    /// As itself.
    Plain,
    /// As a reverse solidus and this letter.
    Letter(char),
    /// By its number, which is below 256.
    Number,
}

/// Returns the form of a character in a string: quotes, the reverse solidus and control characters
/// are escaped. So are DEL and the control characters above it, which a string may have, since a
/// terminal obeys them.
fn escape_of(c: char) -> Escape
    ensures { result ≡ escape_of c }
{
    match c {
        '"' | '\\' => Escape::Letter(c),
        '\n' => Escape::Letter('n'),
        '\r' => Escape::Letter('r'),
        '\t' => Escape::Letter('t'),
        '\0'..='\x1f' | '\x7f'..='\u{9f}' => Escape::Number,
        _ => Escape::Plain,
    }
}

/// A character in its form in a string.
#[derive(Clone, Copy)]
struct EscapedChar(char);

impl fmt::Display for EscapedChar {
    ghost output = { λ c. Some (escaped_char c.0) };

    fn fmt<W: fmt::Write>(&self, f: &mut fmt::Formatter<W>) -> fmt::Result {
        let c = self.0;
        match escape_of(c) {
            Escape::Plain => write!(f, "{c}"),
            Escape::Letter(letter) => write!(f, "\\{letter}"),
            Escape::Number => {
                let number = u32::from(c);
                let (high, low) = (number / 16, number % 16);
                write!(f, "\\u00{high:x}{low:x}")
            }
        }
    }
}

/// The characters of a text in their form in a string, one after the other.
#[derive(Clone, Copy)]
struct EscapedChars<'t>(&'t str);

impl fmt::Display for EscapedChars<'_> {
    ghost output = { λ t. Some (escaped t.0.now) };

    fn fmt<W: fmt::Write>(&self, f: &mut fmt::Formatter<W>) -> fmt::Result {
        for c in self.0.chars() {
            let written = EscapedChar(c);
            write!(f, "{written}")?;
        }
        Ok(())
    }
}

/// A text in its form in a string.
#[derive(Clone, Copy)]
pub(crate) struct Escaped<'t>(pub &'t str);

impl fmt::Display for Escaped<'_> {
    ghost output = { λ t. Some (escaped t.0.now) };

    #[tactic(auto, using(crate::proofs::ValueTexts::escaped_plain))]
    fn fmt<W: fmt::Write>(&self, f: &mut fmt::Formatter<W>) -> fmt::Result {
        let text = self.0;
        if are_plain(text.as_bytes()) {
            f.write_str(text)
        } else {
            let chars = EscapedChars(text);
            Display::fmt(&chars, f)
        }
    }
}

/// A text in quotes: a string of JSON, and safe to print on a terminal.
#[derive(Clone, Copy)]
pub struct Quoted<'t>(pub &'t str);

impl fmt::Display for Quoted<'_> {
    ghost output = { λ t. Some (quoted t.0.now) };

    fn fmt<W: fmt::Write>(&self, f: &mut fmt::Formatter<W>) -> fmt::Result {
        let escaped = Escaped(self.0);
        write!(f, "\"{escaped}\"")
    }
}

/// The text that bytes are, where they are UTF-8.
pub(crate) fn text_in(bytes: &[u8]) -> Option<&str>
    ensures { option_map (λ text. text.now) result ≡ text_in bytes.now }
{
    match str::from_utf8(bytes) {
        Ok(text) => Some(text),
        Err(_) => None,
    }
}
