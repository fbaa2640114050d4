//! Names of lines, as parts of a printed line.

ghost use Rattle.std.specs.Prelude.{◌≡◌, Some, take};
ghost use Rattle.std.specs.Option.{option_map};
ghost use Rattle.neli_tables_walk.specs.Names.{line_name};
ghost use Rattle.neli_print.specs.Names.{is_each, is_each_row, name_member};
ghost use Rattle.neli_print.specs.Names.{row_name, structure_members, structure_text};

use crate::item::front_of;
use crate::pieces::{Colour, escape};
use neli_tables::{Table, Word};
use neli_tables_walk::{Fields, FieldsJson, FieldsText, LineName, NameJson, Nest, Step};
use std::fmt;
use std::fmt::Display;

/// The name of the line at this place; empty where there is none.
pub(crate) fn line_name<'w, 't>(table: &'w Table<'t>, place: usize) -> &'t [u8]
    ensures { result.now ≡ line_name table.now place }
{
    match table.line(place) {
        Some(line) => line.name,
        None => &[],
    }
}

/// The name of an attribute, if it has a row.
pub(crate) fn row_name<'w, 't>(table: &'w Table<'t>, step: Option<Step>) -> Option<LineName<'w, 't>>
    ensures { option_map (λ name. line_name name.table.now name.place) result
        ≡ row_name table.now step }
{
    Some(LineName {
        table,
        place: step?.row?,
    })
}

/// Whether the line at this place is a row for each number that has none of its own.
fn is_each_row(table: &Table<'_>, row: Option<usize>) -> bool
    ensures { result ≡ is_each_row table.now row }
{
    let Some(place) = row else {
        return false;
    };
    match table.line(place) {
        Some(line) => matches!(line.word, Word::Each),
        None => false,
    }
}

/// Whether the row of an attribute stands for each number that has none of its own.
pub(crate) fn is_each(table: &Table<'_>, step: Option<Step>) -> bool
    ensures { result ≡ is_each table.now step }
{
    match step {
        Some(step) => is_each_row(table, step.row),
        None => false,
    }
}

/// The member of a name, after others; nothing without a name.
#[derive(Clone, Copy)]
pub(crate) struct NameMember<'t>(pub Option<&'t [u8]>);

impl fmt::Display for NameMember<'_> {
    ghost output = { λ n. Some (name_member (option_map (λ name. name.now) n.0)) };

    fn fmt<W: fmt::Write>(&self, f: &mut fmt::Formatter<W>) -> fmt::Result {
        match self.0 {
            Some(name) => {
                let name = NameJson(name);
                write!(f, ",\"name\":{name}")
            }
            None => Ok(()),
        }
    }
}

/// The same of the name of a line.
#[derive(Clone, Copy)]
pub(crate) struct LineNameMember<'w, 't>(pub Option<LineName<'w, 't>>);

impl fmt::Display for LineNameMember<'_, '_> {
    ghost output = { λ n. Some (name_member
        (option_map (λ name. line_name name.table.now name.place) n.0)) };

    fn fmt<W: fmt::Write>(&self, f: &mut fmt::Formatter<W>) -> fmt::Result {
        match self.0 {
            Some(name) => {
                f.write_str(",\"name\":\"")?;
                Display::fmt(&name, f)?;
                f.write_str("\"")
            }
            None => Ok(()),
        }
    }
}

/// The structure at the front of some bytes, by the place of its line.
#[derive(Clone, Copy)]
pub(crate) struct Structure<'b, 'w, 't> {
    pub table: &'w Table<'t>,
    pub place: Option<usize>,
    pub bytes: &'b [u8],
}

impl<'b, 'w, 't> Structure<'b, 'w, 't> {
    /// The structure at the front of a nest with this payload.
    pub(crate) fn of_nest(
        table: &'w Table<'t>,
        nest: &Nest,
        payload: &'b [u8],
    ) -> Structure<'b, 'w, 't>
        ensures table { result.table.now ≡ table.now }
        ensures place { result.place ≡ nest.now.after }
        ensures bytes { result.bytes.now ≡ take nest.now.header payload.now }
    {
        Structure {
            table,
            place: nest.after,
            bytes: front_of(payload, nest.header),
        }
    }
}

/// The members of a structure, after others: its name, and its fields; none without a structure.
#[derive(Clone, Copy)]
pub(crate) struct StructureMembers<'b, 'w, 't>(pub Structure<'b, 'w, 't>);

impl fmt::Display for StructureMembers<'_, '_, '_> {
    ghost output = { λ s. Some (structure_members s.0.table.now s.0.place s.0.bytes.now) };

    fn fmt<W: fmt::Write>(&self, f: &mut fmt::Formatter<W>) -> fmt::Result {
        let Structure {
            table,
            place,
            bytes,
        } = self.0;
        let Some(place) = place else {
            return Ok(());
        };
        let name = NameJson(line_name(table, place));
        let fields = FieldsJson(Fields {
            table,
            place,
            bytes,
        });
        write!(f, ",\"structure\":{name},\"fields\":{fields}")
    }
}

/// A structure on a line: its name, and its fields, each after a blank; nothing without a
/// structure.
#[derive(Clone, Copy)]
pub(crate) struct StructureText<'b, 'w, 't> {
    pub is_coloured: bool,
    pub structure: Structure<'b, 'w, 't>,
}

impl fmt::Display for StructureText<'_, '_, '_> {
    ghost output = { λ s. Some (structure_text s.is_coloured s.structure.table.now
        s.structure.place s.structure.bytes.now) };

    fn fmt<W: fmt::Write>(&self, f: &mut fmt::Formatter<W>) -> fmt::Result {
        let Structure {
            table,
            place,
            bytes,
        } = self.structure;
        let Some(place) = place else {
            return Ok(());
        };
        let start = escape(self.is_coloured, Colour::Structure);
        let name = LineName { table, place };
        let end = escape(self.is_coloured, Colour::End);
        let fields = FieldsText(Fields {
            table,
            place,
            bytes,
        });
        Display::fmt(&start, f)?;
        Display::fmt(&name, f)?;
        Display::fmt(&end, f)?;
        Display::fmt(&fields, f)
    }
}
