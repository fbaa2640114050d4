//! Names that stand in a table.

ghost use Rattle.std.specs.Prelude.{Some};
ghost use Rattle.neli_tables_walk.specs.Names.{line_name, name_json, name_text};

use crate::hex::Hex;
use crate::quoted::{Escaped, text_in};
use neli_tables::Table;
use std::fmt;
use std::fmt::Display;

/// A name of a table as text. What a terminal would obey is escaped as in JSON; a name that is not
/// UTF-8 is its bytes as hexadecimal digits.
#[derive(Clone, Copy)]
pub struct Name<'t>(pub &'t [u8]);

impl fmt::Display for Name<'_> {
    ghost output = { λ n. Some (name_text n.0.now) };

    fn fmt<W: fmt::Write>(&self, f: &mut fmt::Formatter<W>) -> fmt::Result {
        match text_in(self.0) {
            Some(text) => {
                let text = Escaped(text);
                Display::fmt(&text, f)
            }
            None => {
                let hex = Hex(self.0);
                Display::fmt(&hex, f)
            }
        }
    }
}

/// A name of a table as a string of JSON.
#[derive(Clone, Copy)]
pub struct NameJson<'t>(pub &'t [u8]);

impl fmt::Display for NameJson<'_> {
    ghost output = { λ n. Some (name_json n.0.now) };

    fn fmt<W: fmt::Write>(&self, f: &mut fmt::Formatter<W>) -> fmt::Result {
        let name = Name(self.0);
        write!(f, "\"{name}\"")
    }
}

/// The name of the line at a place of a table, as text; nothing where there is no such line.
#[derive(Clone, Copy)]
pub struct LineName<'w, 't> {
    /// The table.
    pub table: &'w Table<'t>,
    /// The place of the line, counted from 0.
    pub place: usize,
}

impl fmt::Display for LineName<'_, '_> {
    ghost output = { λ n. Some (name_text (line_name n.table.now n.place)) };

    fn fmt<W: fmt::Write>(&self, f: &mut fmt::Formatter<W>) -> fmt::Result {
        if let Some(name) = self.table.plain_name(self.place) {
            return f.write_str(name);
        }
        let name = match self.table.line(self.place) {
            Some(line) => line.name,
            None => &[],
        };
        Display::fmt(&Name(name), f)
    }
}
