//! Why bytes are no message, or no attribute.

ghost use Rattle.std.specs.Prelude.{Some};
ghost use Rattle.neli_print.specs.Faults.{fault_text};

use neli_wire::DeError;
use std::fmt;

/// Why bytes are no message, or no attribute, in words.
#[derive(Clone, Copy)]
pub struct Fault<'e>(pub &'e DeError);

impl fmt::Display for Fault<'_> {
    ghost output = { λ f. Some (fault_text f.0.now) };

    fn fmt<W: fmt::Write>(&self, f: &mut fmt::Formatter<W>) -> fmt::Result {
        match self.0 {
            DeError::InvalidInput(length) => write!(f, "a wrong length, {length}"),
            DeError::Io(_) => write!(f, "the bytes end too early"),
            DeError::Memory => write!(f, "out of memory"),
            DeError::Msg(_) | DeError::Utf8(_) => write!(f, "unreadable"),
        }
    }
}
