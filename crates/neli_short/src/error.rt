//! Why an attribute that is there is not read.

ghost use Rattle.std.specs.Prelude.{◌≡◌};
ghost use Rattle.neli_short.specs.Errors.{attr_text};

use neli_wire::DeError;
use std::error::Error;
use std::fmt;

/// Why an attribute is not read: the number of its type, and the cause.
///
/// It prints both, as `attribute 4: Invalid input was provided: 3`.
#[derive(Debug, Drop)]
pub struct AttrError {
    number: u16,
    cause: DeError,
}

impl AttrError {
    /// The refusal of the attribute whose type has this number.
    pub fn new(number: u16, cause: DeError) -> AttrError
        ensures { result ≡ record { number = number; cause = cause } }
    {
        AttrError { number, cause }
    }

    /// The number of the attribute's type, without flags.
    pub fn number(&self) -> u16
        ensures { result ≡ self.now.number }
    {
        self.number
    }

    /// Why it is not read.
    pub fn cause(&self) -> &DeError
        ensures { result.now ≡ self.now.cause }
    {
        &self.cause
    }
}

impl fmt::Display for AttrError {
    ghost output = { attr_text };

    fn fmt<W: fmt::Write>(&self, f: &mut fmt::Formatter<W>) -> fmt::Result {
        let number = self.number;
        let cause = &self.cause;
        write!(f, "attribute {number}: {cause}")
    }
}

impl Error for AttrError {}

impl From<AttrError> for DeError {
    ghost from_gives = { λ error e. e ≡ error.cause };

    fn from(error: AttrError) -> DeError {
        let AttrError { cause, .. } = error;
        cause
    }
}
