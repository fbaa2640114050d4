//! Refusals by path.

ghost use Rattle.std.specs.Prelude.{◌≡◌, Some};
ghost use Rattle.neli_tables_write.specs.Refusals.{nearest_text, refusal_text};

use crate::Why;
use neli_tables_walk::Name;
use std::alloc::Global;
use std::fmt;

/// Why something that was asked for is refused.
#[derive(Debug, Drop)]
pub struct Refusal<'t> {
    /// The path or the name that was given.
    pub path: String,
    /// Why.
    pub why: Why,
    /// Where no such name is there, the name there that takes the fewest changes of a byte.
    pub nearest: Option<&'t [u8]>,
}

impl<'t> Refusal<'t> {
    /// A refusal of no name, as of a whole message.
    pub(crate) fn bare(alloc: Global, why: Why) -> Refusal<'t> {
        Refusal {
            path: String::new(alloc),
            why,
            nearest: None,
        }
    }

    /// A refusal of a name; where memory runs out, of none.
    pub(crate) fn of(alloc: Global, name: &str, why: Why) -> Refusal<'t> {
        match String::from_str(alloc, name) {
            Ok(path) => Refusal {
                path,
                why,
                nearest: None,
            },
            Err(_) => Refusal::bare(alloc, Why::Memory),
        }
    }
}

/// The nearest name, if there is one.
#[derive(Clone, Copy)]
struct Nearest<'t>(Option<&'t [u8]>);

impl fmt::Display for Nearest<'_> {
    ghost use Rattle.std.specs.Option.{option_map};

    ghost output = { λ n. Some (nearest_text (option_map (λ name. name.now) n.0)) };

    fn fmt<W: fmt::Write>(&self, f: &mut fmt::Formatter<W>) -> fmt::Result {
        match self.0 {
            Some(name) => {
                let name = Name(name);
                write!(f, ", the nearest is {name}")
            }
            None => Ok(()),
        }
    }
}

impl fmt::Display for Refusal<'_> {
    ghost use Rattle.std.specs.Option.{option_map};
    ghost use Rattle.std.specs.String.{string_bytes};

    ghost output = { λ r. Some (refusal_text (string_bytes r.path) r.why
        (option_map (λ name. name.now) r.nearest)) };

    fn fmt<W: fmt::Write>(&self, f: &mut fmt::Formatter<W>) -> fmt::Result {
        let (path, why, nearest) = (self.path.as_str(), self.why, Nearest(self.nearest));
        write!(f, "{path}: {why}{nearest}")
    }
}
