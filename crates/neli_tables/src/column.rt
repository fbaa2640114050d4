//! Fields whose values have no names, with their own names as they are printed.

ghost use Rattle.std.specs.Prelude.{◌≡◌, ◌++◌, map, IfOk};
ghost use Rattle.std.specs.Option.{option_map};
ghost use Rattle.std.specs.String.{string_bytes};
ghost use Rattle.neli_tables.specs.Columns.{column_of, column_view, plain_kind};
ghost use Rattle.neli_tables.specs.Lines.{line_view};

use crate::plain::plain_name;
use crate::{Kind, Line, Options, Word, options_of};
use std::alloc::{AllocError, Global};

/// A field of a structure whose values have no names: where it lies, and what stands around a value of it.
#[derive(Drop)]
pub struct Column {
    /// The place of its first byte in the structure, counted from 0.
    pub start: usize,
    /// The place after its last byte.
    pub end: usize,
    /// Its kind.
    pub kind: Kind,
    /// Its name between two blanks.
    pub text: String,
    /// Its name in quotes with a colon, as the name of a member in JSON.
    pub json: String,
}

/// The kind of one value that has no name, and that is printed in decimal digits if it is a number; `None` where values
/// have names, are several, or are printed in hexadecimal digits.
#[inline]
pub fn plain_kind(options: &Options) -> Option<Kind>
    ensures { result ≡ plain_kind options.now }
{
    if options.array || options.hex || options.values.is_some() || options.flags.is_some() {
        return None;
    }
    options.kind
}

/// A name between two texts.
fn enclosed(alloc: Global, before: &str, name: &str, after: &str) -> Result<String, AllocError>
    ensures { IfOk result (λ text. string_bytes text ≡ before.now ++ (name.now ++ after.now)) }
{
    let size = before
        .len()
        .saturating_add(name.len())
        .saturating_add(after.len());
    let mut text = String::with_capacity(alloc, size)?;
    text.push_str(before)?;
    text.push_str(name)?;
    text.push_str(after)?;
    Ok(text)
}

/// The column of a line, where it is a field with such a kind, and its name needs no escape.
fn column_of(alloc: Global, line: &Line<'_>) -> Result<Option<Column>, AllocError>
    ensures { IfOk result (λ column. option_map column_view column ≡ column_of (line_view line.now)) }
{
    if !matches!(line.word, Word::Field) {
        return Ok(None);
    }
    let Some(span) = line.span else {
        return Ok(None);
    };
    let Some(kind) = plain_kind(&options_of(line)) else {
        return Ok(None);
    };
    let Some(name) = plain_name(line) else {
        return Ok(None);
    };
    Ok(Some(Column {
        start: span.first as usize,
        end: span.last as usize,
        kind,
        text: enclosed(alloc, " ", name, " ")?,
        json: enclosed(alloc, "\"", name, "\":")?,
    }))
}

/// The columns of all lines, in order. Refused where memory runs out.
pub(crate) fn all_columns(
    alloc: Global,
    lines: &[Line<'_>],
) -> Result<Vec<Option<Column>>, AllocError>
    ensures { IfOk result (λ columns. map (option_map column_view) columns.items
        ≡ map column_of (map line_view lines.now)) }
{
    let mut columns = Vec::with_capacity(alloc, lines.len())?;
    for line in lines {
        columns.push(column_of(alloc, line)?)?;
    }
    Ok(columns)
}
