//! Pieces of lines.

ghost use Rattle.std.specs.Prelude.{◌≡◌, Some};
ghost use Rattle.neli_print.specs.Pieces.{escape_of, indent, repeated, when};

use std::fmt;

/// A text so many times.
#[derive(Clone, Copy)]
pub(crate) struct Repeated {
    pub text: &'static str,
    pub count: usize,
}

impl fmt::Display for Repeated {
    ghost output = { λ r. Some (repeated r.text.now r.count) };

    fn fmt<W: fmt::Write>(&self, f: &mut fmt::Formatter<W>) -> fmt::Result {
        let text = self.text;
        for _time in 0..self.count {
            f.write_str(text)?;
        }
        Ok(())
    }
}

/// Two blanks a level.
#[derive(Clone, Copy)]
pub(crate) struct Blanks(usize);

impl fmt::Display for Blanks {
    ghost output = { λ i. Some (indent i.0) };

    fn fmt<W: fmt::Write>(&self, f: &mut fmt::Formatter<W>) -> fmt::Result {
        for _level in 0..self.0 {
            f.write_str("  ")?;
        }
        Ok(())
    }
}

/// Two blanks for each of so many levels.
pub(crate) fn indent(count: usize) -> Blanks
    ensures { result.0 ≡ count }
{
    Blanks(count)
}

/// A text, if something holds.
#[derive(Clone, Copy)]
pub struct When {
    /// Whether it holds.
    pub holds: bool,
    /// The text.
    pub text: &'static str,
}

impl fmt::Display for When {
    ghost output = { λ w. Some (when w.holds w.text.now) };

    fn fmt<W: fmt::Write>(&self, f: &mut fmt::Formatter<W>) -> fmt::Result {
        let text = self.text;
        if self.holds {
            f.write_str(text)
        } else {
            Ok(())
        }
    }
}

/// The colour of a name.
#[derive(Clone, Copy, Debug, PartialEq, Eq)]
pub enum Colour {
    /// Of a message's type.
    Type,
    /// Of a structure.
    Structure,
    /// Of an attribute.
    Attribute,
    /// Of an error or a fault.
    Error,
    /// What ends a colour.
    End,
}

/// The escape of a terminal that begins or ends a colour, if there are colours.
pub fn escape(is_coloured: bool, colour: Colour) -> When
    ensures holds { result.holds ≡ is_coloured }
    ensures text { result.text.now ≡ escape_of colour }
{
    let text = match colour {
        Colour::Type => "\x1b[1;33m",
        Colour::Structure => "\x1b[32m",
        Colour::Attribute => "\x1b[36m",
        Colour::Error => "\x1b[31m",
        Colour::End => "\x1b[0m",
    };
    When {
        holds: is_coloured,
        text,
    }
}
