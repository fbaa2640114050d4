//! What a parser does not allow.

ghost use Rattle.std.specs.Prelude.{Some};
ghost use Rattle.neli_tables_check.specs.Violations.{wrong_text};

use neli_tables::Span;
use neli_tables_walk::Breach;
use std::fmt;

/// What a parser of the kernel does not allow.
#[derive(Clone, Copy, Debug, PartialEq, Eq)]
pub enum Wrong {
    /// The payload cannot be of its kind.
    Kind(Breach),
    /// The payload has another length in bytes than from the first to the last of these; of a text
    /// without a zero at its end.
    Length(Span),
    /// A number is none from the first to the last of these. Those of an array are not looked at.
    Range(Span),
    /// A number with a sign is none from the first to the last of these.
    Signed(i64, i64),
    /// A number has bits that are none of these. Those of an array are not looked at.
    Mask(u64),
    /// A `struct nla_bitfield32` has bits that it does not select.
    Unselected,
    /// The table has no such attribute, or it is one without a meaning (`pad`).
    Unknown,
    /// A nest lacks the flag `NLA_F_NESTED`.
    NotNested,
    /// An attribute that is no nest has the flag `NLA_F_NESTED`.
    Nested,
    /// The attribute is a nest in the tenth list, which no kernel enters.
    Deep,
    /// So many bytes follow the attributes of a list, and are none.
    Rest(usize),
}

impl fmt::Display for Wrong {
    ghost output = { λ w. Some (wrong_text w) };

    fn fmt<W: fmt::Write>(&self, f: &mut fmt::Formatter<W>) -> fmt::Result {
        match self {
            Wrong::Kind(breach) => write!(f, "{breach}"),
            Wrong::Length(span) => {
                let (first, last) = (span.first, span.last);
                write!(f, "not of {first} to {last} bytes")
            }
            Wrong::Range(span) => {
                let (first, last) = (span.first, span.last);
                write!(f, "not from {first} to {last}")
            }
            Wrong::Signed(first, last) => write!(f, "not from {first} to {last}"),
            Wrong::Mask(mask) => write!(f, "bits that are not in 0x{mask:x}"),
            Wrong::Unselected => write!(f, "bits that are not selected"),
            Wrong::Unknown => write!(f, "unknown attribute"),
            Wrong::NotNested => write!(f, "NLA_F_NESTED is missing"),
            Wrong::Nested => write!(f, "NLA_F_NESTED not expected"),
            Wrong::Deep => write!(f, "a nest in too many"),
            Wrong::Rest(count) => write!(f, "{count} bytes after the attributes"),
        }
    }
}
