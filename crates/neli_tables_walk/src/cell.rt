//! Payloads and fields that are not one structure.

ghost use Rattle.std.specs.Prelude.{◌≡◌, Some};
ghost use Rattle.neli_tables_walk.specs.Cells.{cell_json, cell_text, kept_cell};

use crate::breach::cell_breach;
use crate::fields::Fields;
use crate::form::{Cell, Plain, cell_of};
use crate::plain::{Item, ItemJson, ItemText};
use crate::structures::{Structures, StructuresJson, StructuresText};
use neli_tables::{Options, Table};
use std::fmt;
use std::fmt::Display;

/// Bytes, what they are, and the options that say the names of their values.
#[derive(Clone, Copy)]
pub struct Value<'b, 'w, 't> {
    /// The table.
    pub table: &'w Table<'t>,
    /// The options of the line.
    pub options: &'w Options,
    /// What the bytes are.
    pub cell: Cell,
    /// The bytes.
    pub bytes: &'b [u8],
}

/// What bytes are by the options of a field; those that cannot be so are bytes.
fn kept_cell(table: &Table<'_>, options: &Options, bytes: &[u8]) -> Cell
    ensures { result ≡ kept_cell table.now options.now bytes.now }
{
    let cell = cell_of(table, options, bytes.len());
    match cell_breach(cell, bytes) {
        Some(_) => Cell::Plain(Plain::Bytes),
        None => cell,
    }
}

impl<'b, 'w, 't> Value<'b, 'w, 't> {
    /// The bytes of a field, as what they are by its options.
    pub fn of(table: &'w Table<'t>, options: &'w Options, bytes: &'b [u8]) -> Value<'b, 'w, 't>
        ensures { result ≡ record {
          table = table.entry;
          options = options.entry;
          cell = kept_cell table.now options.now bytes.now;
          bytes = bytes.entry;
        } }
    {
        let cell = kept_cell(table, options, bytes);
        Value {
            table,
            options,
            cell,
            bytes,
        }
    }

    /// The bytes as what they are, where that is no structure.
    fn item(&self, plain: Plain) -> Item<'b, 'w, 't>
        ensures { result ≡ record {
          table = self.now.table;
          options = self.now.options;
          plain = plain;
          bytes = self.now.bytes;
        } }
    {
        Item {
            table: self.table,
            options: self.options,
            plain,
            bytes: self.bytes,
        }
    }

    /// The structures at this place, of so many bytes.
    fn structures(&self, place: usize, size: usize) -> Structures<'b, 'w, 't>
        ensures { result ≡ record {
          fields = record { table = self.now.table; place = place; bytes = self.now.bytes };
          size = size;
        } }
    {
        let fields = Fields {
            table: self.table,
            place,
            bytes: self.bytes,
        };
        Structures { fields, size }
    }
}

/// A value as text.
#[derive(Clone, Copy)]
pub struct ValueText<'b, 'w, 't>(pub Value<'b, 'w, 't>);

impl fmt::Display for ValueText<'_, '_, '_> {
    ghost output = { λ v. Some (cell_text v.0.table.now v.0.options.now v.0.cell v.0.bytes.now) };

    fn fmt<W: fmt::Write>(&self, f: &mut fmt::Formatter<W>) -> fmt::Result {
        match self.0.cell {
            Cell::Plain(plain) => {
                let item = ItemText(self.0.item(plain));
                Display::fmt(&item, f)
            }
            Cell::Structures(place, size) => {
                let structures = StructuresText(self.0.structures(place, size));
                Display::fmt(&structures, f)
            }
        }
    }
}

/// A value in JSON.
#[derive(Clone, Copy)]
pub struct ValueJson<'b, 'w, 't>(pub Value<'b, 'w, 't>);

impl fmt::Display for ValueJson<'_, '_, '_> {
    ghost output = { λ v. Some (cell_json v.0.table.now v.0.options.now v.0.cell v.0.bytes.now) };

    fn fmt<W: fmt::Write>(&self, f: &mut fmt::Formatter<W>) -> fmt::Result {
        match self.0.cell {
            Cell::Plain(plain) => {
                let item = ItemJson(self.0.item(plain));
                Display::fmt(&item, f)
            }
            Cell::Structures(place, size) => {
                let structures = StructuresJson(self.0.structures(place, size));
                write!(f, "[{structures}]")
            }
        }
    }
}
