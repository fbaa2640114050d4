//! An error number, with its name and its meaning.

ghost use Rattle.std.specs.Prelude.{◌≡◌, Some};
ghost use Rattle.std.specs.Option.{option_map};
ghost use Rattle.neli_errno.specs.Errnos.{errno_of, errno_view, errno_text};

use crate::table;
use std::fmt;

/// An error number of Linux that has a name. It prints its name and its meaning, as
/// `EINVAL: Invalid argument`.
#[derive(Clone, Copy, Debug)]
pub struct Errno {
    pub(crate) number: u32,
    pub(crate) name: &'static str,
    pub(crate) meaning: &'static str,
}

impl Errno {
    /// The error with this number, as 22 for `EINVAL`; `None` for a number without a name.
    pub fn from_number(number: u32) -> Option<Errno>
        ensures { option_map errno_view result ≡ errno_of number }
    {
        table::errno_of(number)
    }

    /// The number, as 22 for `EINVAL`.
    pub fn number(&self) -> u32
        ensures { result ≡ self.now.number }
    {
        self.number
    }

    /// The name, as `EINVAL`.
    pub fn name(&self) -> &'static str
        ensures { result.now ≡ self.now.name.now }
    {
        self.name
    }

    /// The meaning, as `Invalid argument`.
    pub fn meaning(&self) -> &'static str
        ensures { result.now ≡ self.now.meaning.now }
    {
        self.meaning
    }
}

impl fmt::Display for Errno {
    ghost output = { λ e. Some (errno_text (errno_view e)) };

    fn fmt<W: fmt::Write>(&self, f: &mut fmt::Formatter<W>) -> fmt::Result {
        let name = self.name;
        let meaning = self.meaning;
        write!(f, "{name}: {meaning}")
    }
}
