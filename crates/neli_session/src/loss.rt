//! What is lost.

ghost use Rattle.neli_session.specs.Words.{loss_text};

use std::fmt;

/// Something that was lost.
#[derive(Clone, Copy, Debug, PartialEq, Eq)]
pub enum Loss {
    /// The link reported a fault: its errno, as 105 for `ENOBUFS`.
    Link(i32),
    /// A datagram could not be read to its end.
    Datagram,
    /// The link did not send the request: its errno, as 1 for `EPERM`.
    Unsent(i32),
}

impl fmt::Display for Loss {
    ghost output = { loss_text };

    fn fmt<W: fmt::Write>(&self, f: &mut fmt::Formatter<W>) -> fmt::Result {
        match self {
            Loss::Link(errno) => write!(f, "The link failed: errno {errno}"),
            Loss::Datagram => write!(f, "A datagram could not be read to its end"),
            Loss::Unsent(errno) => write!(f, "The request was not sent: errno {errno}"),
        }
    }
}
