//! Why something is not written.

ghost use Rattle.std.specs.Prelude.{◌≡◌, Some};
ghost use Rattle.neli_tables_write.specs.Refusals.{why_text};

use std::alloc::AllocError;
use std::fmt;

/// Why a value, a field, an attribute or a message is not written.
#[derive(Clone, Copy, Debug, PartialEq, Eq)]
pub enum Why {
    /// Memory ran out.
    Memory,
    /// No message, field, attribute or nest of the table has this name here.
    NoName,
    /// No value of the enum has this name, no bit of the flag set.
    NoValue,
    /// The kind takes no value of this sort: a text for a number without names, a number for an address.
    OtherSort,
    /// The number has more bits than its kind, or a sign that this has not; or the row's range or mask does not allow it.
    Range,
    /// There is a zero in the text.
    ZeroInside,
    /// The text is no address of the kind.
    NoAddress,
    /// The text is not hexadecimal digits, two a byte.
    NoDigits,
    /// The payload has more than 65531 bytes, which the length of an attribute cannot state.
    TooLong,
    /// Nothing picks what the attribute is: the attribute that does was not given before it, or its value has no case.
    NoCase,
    /// It is a nest: attributes stand in it, and no value.
    IsNest,
    /// It is no nest, and attributes cannot stand in it.
    NoNest,
    /// Ten lists are open, as many as the walk enters.
    TooDeep,
    /// The number of the family of generic netlink was not learnt.
    NoFamily,
}

impl From<AllocError> for Why {
    ghost use Rattle.neli_tables_write.specs.declared.why.Why.TheVariants.{Memory};

    ghost from_gives = { λ _ why. why ≡ Memory };

    fn from(_: AllocError) -> Why {
        Why::Memory
    }
}

impl fmt::Display for Why {
    ghost output = { λ why. Some (why_text why) };

    fn fmt<W: fmt::Write>(&self, f: &mut fmt::Formatter<W>) -> fmt::Result {
        f.write_str(match self {
            Why::Memory => "out of memory",
            Why::NoName => "no such name",
            Why::NoValue => "no such value",
            Why::OtherSort => "a value of another sort",
            Why::Range => "out of range",
            Why::ZeroInside => "a zero in the text",
            Why::NoAddress => "no address",
            Why::NoDigits => "no hexadecimal digits",
            Why::TooLong => "longer than 65531 bytes",
            Why::NoCase => "nothing before it says what it is",
            Why::IsNest => "a nest",
            Why::NoNest => "no nest",
            Why::TooDeep => "nested too deep",
            Why::NoFamily => "the number of its family is not known",
        })
    }
}
