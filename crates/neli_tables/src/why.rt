//! Why a text is not read.

ghost use Rattle.std.specs.Prelude.{◌≡◌, Some};
ghost use Rattle.neli_tables.specs.Refusals.{why_text};
ghost use Rattle.neli_tables.specs.declared.why.Unread.TheVariants.{Memory, Refused};

use std::alloc::{AllocError, AllocFailed};
use std::fmt;

/// Why a line is refused.
#[derive(Clone, Copy, Debug, PartialEq, Eq)]
pub enum Why {
    /// No line begins with its first word.
    UnknownWord,
    /// It has no name.
    NameMissing,
    /// It has no number, and needs one.
    NumberMissing,
    /// It has a number, and lines with its first word have none.
    NumberElsewhere,
    /// A word in the place of a number is not a number of at most 64 bits, nor a range in order.
    NotANumber,
    /// A word is not an option.
    UnknownOption,
    /// An option has no value and needs one, or has one and takes none.
    Value,
    /// An option occurs twice, or a second kind does.
    Twice,
    /// An option is not allowed on such a line, or with such a kind.
    OptionElsewhere,
    /// The first line is not the family, or a later one is.
    FamilyFirst,
    /// A row is below no line to which it can belong.
    RowElsewhere,
    /// No line of the wanted sort has the name.
    NothingNamed,
}

impl fmt::Display for Why {
    ghost output = { λ why. Some (why_text why) };

    fn fmt<W: fmt::Write>(&self, f: &mut fmt::Formatter<W>) -> fmt::Result {
        match self {
            Why::UnknownWord => write!(f, "no line begins with this word"),
            Why::NameMissing => write!(f, "a name is missing"),
            Why::NumberMissing => write!(f, "a number is missing"),
            Why::NumberElsewhere => write!(f, "such a line has no number"),
            Why::NotANumber => write!(f, "no number of 64 bits, or a range out of order"),
            Why::UnknownOption => write!(f, "no such option"),
            Why::Value => write!(
                f,
                "an option without its value, or with one that it does not take"
            ),
            Why::Twice => write!(f, "an option that stands twice"),
            Why::OptionElsewhere => write!(f, "an option that does not belong here"),
            Why::FamilyFirst => write!(f, "the family comes first, and once"),
            Why::RowElsewhere => write!(f, "a row that does not belong here"),
            Why::NothingNamed => write!(f, "a name that no such line has"),
        }
    }
}

/// Why a part of a text is not read.
#[derive(Clone, Copy, Debug, PartialEq, Eq)]
pub(crate) enum Unread {
    /// It is refused.
    Refused(Why),
    /// Memory ran out.
    Memory,
}

impl From<Why> for Unread {
    ghost from_gives = { λ why e. e ≡ Refused why };

    fn from(why: Why) -> Unread {
        Unread::Refused(why)
    }
}

impl From<AllocError> for Unread {
    ghost from_gives = { λ _ e. e ≡ Memory };

    fn from(_error: AllocError) -> Unread {
        Unread::Memory
    }
}

impl<V: Drop> From<AllocFailed<V>> for Unread {
    ghost from_gives = { λ _ e. e ≡ Memory };

    fn from(_error: AllocFailed<V>) -> Unread {
        Unread::Memory
    }
}
