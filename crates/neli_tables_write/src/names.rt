//! Lines of a table by their names.

ghost use Rattle.std.specs.Prelude.{◌≡◌, ◌+◌, ◌<◌, IfSome, length, map, position};
ghost use Rattle.std.specs.Option.{option_map};
ghost use Rattle.neli_tables.specs.FoundRows.{rows_of};
ghost use Rattle.neli_tables.specs.Lines.{line_view};
ghost use Rattle.neli_tables_write.specs.Named.{is_named, is_request, request_named, row_named};

use neli_tables::{Line, Table, Word, options_of};
use std::alloc::{AllocError, Global};

/// Whether a line has this name.
fn is_named(line: &Line<'_>, name: &[u8]) -> bool
    ensures { result ≡ is_named name.now (line_view line.now) }
{
    line.name == name
}

/// The index of the first of these with this name.
fn position_named(rows: &[Line<'_>], name: &[u8]) -> Option<usize>
    ensures value { result ≡ position (λ row. is_named name.now (line_view row)) rows.now }
    ensures within { IfSome result (λ index. index < length rows.now) }
{
    rows.iter().position(|row| is_named(row, name))
}

/// The place of the first row with this name in the section at this place: of an attribute in a set, a field in a
/// structure, a value in an enum.
pub fn row_named(table: &Table<'_>, section: usize, name: &[u8]) -> Option<usize>
    ensures { result ≡ row_named table.now section name.now }
{
    let lines = table.lines();
    match position_named(table.rows(section), name) {
        Some(index) => {
            prove!(index < lines.len());
            Some(section + 1 + index)
        }
        None => None,
    }
}

/// Whether a line is a message of this name that may be sent to the kernel.
fn is_request(line: &Line<'_>, name: &[u8]) -> bool
    ensures { result ≡ is_request name.now (line_view line.now) }
{
    matches!(line.word, Word::Message) && line.name == name && !options_of(line).reply
}

/// The place of the first message of this name that may be sent to the kernel.
pub fn request_named(table: &Table<'_>, name: &[u8]) -> Option<usize>
    ensures { result ≡ request_named table.now name.now }
{
    position_of_request(table.lines(), name)
}

/// The index of the first of these that is a message of this name that may be sent to the kernel.
fn position_of_request(lines: &[Line<'_>], name: &[u8]) -> Option<usize>
    ensures { result ≡ position (λ line. is_request name.now (line_view line)) lines.now }
{
    lines.iter().position(|line| is_request(line, name))
}

/// The first row of the sections at these places whose name takes the fewest changes of a byte to be this one; `None`
/// where they have no row.
///
/// Refused where memory runs out.
pub(crate) fn nearest_row<'w, 't>(
    alloc: Global,
    table: &'w Table<'t>,
    sections: &[usize],
    name: &[u8],
) -> Result<Option<&'w Line<'t>>, AllocError> {
    let mut best: Option<(usize, &Line<'t>)> = None;
    for section in sections {
        for row in table.rows(*section) {
            let far = strsim::generic_levenshtein(alloc, row.name, name)?;
            best = match best {
                Some((least, nearest)) if least <= far => Some((least, nearest)),
                _ => Some((far, row)),
            };
        }
    }
    match best {
        Some((_, row)) => Ok(Some(row)),
        None => Ok(None),
    }
}
