//! Structures, one after the other.

ghost use Rattle.std.specs.Prelude.{◌≡◌, Some, codes};
ghost use Rattle.neli_tables_walk.specs.Lists.{joined};
ghost use Rattle.neli_tables_walk.specs.Structures.{structures_members, structures_text};

use crate::fields::{Fields, FlatJson, FlatText};
use std::fmt;

/// Structures of so many bytes, one after the other.
#[derive(Clone, Copy)]
pub struct Structures<'b, 'w, 't> {
    /// The bytes of all, and the line of their structure.
    pub fields: Fields<'b, 'w, 't>,
    /// The size of one in bytes.
    pub size: usize,
}

impl<'b, 'w, 't> Structures<'b, 'w, 't> {
    /// One of them.
    fn one(&self, bytes: &'b [u8]) -> Fields<'b, 'w, 't>
        ensures { result ≡ record {
          table = self.now.fields.table;
          place = self.now.fields.place;
          bytes = bytes.entry;
        } }
    {
        Fields {
            table: self.fields.table,
            place: self.fields.place,
            bytes,
        }
    }
}

/// Structures, each in brackets after a blank.
#[derive(Clone, Copy)]
pub struct StructuresText<'b, 'w, 't>(pub Structures<'b, 'w, 't>);

impl fmt::Display for StructuresText<'_, '_, '_> {
    ghost output = { λ s. Some (structures_text s.0.fields.table.now s.0.fields.place s.0.size
        s.0.fields.bytes.now) };

    fn fmt<W: fmt::Write>(&self, f: &mut fmt::Formatter<W>) -> fmt::Result {
        for bytes in self.0.fields.bytes.chunks(self.0.size.max(1)) {
            let fields = FlatText(self.0.one(bytes));
            write!(f, " ({fields} )")?;
        }
        Ok(())
    }
}

/// Structures with commas between them.
#[derive(Clone, Copy)]
pub struct StructuresJson<'b, 'w, 't>(pub Structures<'b, 'w, 't>);

impl fmt::Display for StructuresJson<'_, '_, '_> {
    ghost output = { λ s. Some (joined (codes ",") (structures_members s.0.fields.table.now
        s.0.fields.place s.0.size s.0.fields.bytes.now)) };

    fn fmt<W: fmt::Write>(&self, f: &mut fmt::Formatter<W>) -> fmt::Result {
        let mut comma = "";
        for bytes in self.0.fields.bytes.chunks(self.0.size.max(1)) {
            let fields = FlatJson(self.0.one(bytes));
            write!(f, "{comma}{fields}")?;
            comma = ",";
        }
        Ok(())
    }
}
