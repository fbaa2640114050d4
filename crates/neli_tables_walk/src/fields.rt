//! The fields of a structure.

ghost use Rattle.std.specs.Prelude.{◌≡◌, ◌++◌, [], IfSome, List, Some, codes, ℕ};
ghost use Rattle.std.specs.Fmt.{WritesOnOk};
ghost use Rattle.neli_tables.specs.Columns.{column_of, column_view};
ghost use Rattle.neli_tables.specs.Lines.{line_view};
ghost use Rattle.neli_tables.specs.Options.{options_of};
ghost use Rattle.neli_tables.specs.Plain.{name_view, plain_name};
ghost use Rattle.neli_tables_walk.specs.Cells.{value_json, value_text};
ghost use Rattle.neli_tables_walk.specs.FieldLists.{Printed, PrintsNumber, field_text_by};
ghost use Rattle.neli_tables_walk.specs.FieldLists.{fields_json_by, fields_text_by, members_by};
ghost use Rattle.neli_tables_walk.specs.Fields.{fields_json, fields_text};
ghost use Rattle.neli_tables_walk.specs.Lists.{joined};
ghost use Rattle.neli_tables_walk.specs.Names.{name_json, name_text};
ghost use Rattle.neli_tables_walk.specs.Plains.{item_json, item_text};
ghost use Rattle.neli_tables_walk.specs.Rows.{IsRow};

use crate::cell::{Value, ValueJson, ValueText};
use crate::field_bytes::field_bytes;
use crate::name::Name;
use crate::named::{NamedJson, NamedText};
use crate::number::{Number, NumberJson};
use crate::numbered::{digits_as, number_by};
use crate::plain::{Item, ItemJson, ItemText};
use neli_tables::{Column, Line, Options, Table};
use std::fmt;
use std::fmt::Display;

/// The bytes of a structure, and the line that says what they are.
#[derive(Clone, Copy)]
pub struct Fields<'b, 'w, 't> {
    /// The table.
    pub table: &'w Table<'t>,
    /// The place of the `struct` line, counted from 0.
    pub place: usize,
    /// The bytes. They may end before the last field; what goes on behind it is not printed.
    pub bytes: &'b [u8],
}

/// What prints the value of a field.
trait FieldPrinter {
    /// What it prints of bytes by the options of their line.
    ghost printed: { Printed };

    /// What it prints before a number.
    ghost before: { List ℕ };

    /// Prints the value of a field that is these bytes.
    fn print<W: fmt::Write>(
        table: &Table<'_>,
        options: &Options,
        bytes: &[u8],
        f: &mut fmt::Formatter<W>,
    ) -> fmt::Result
        ensures writes { WritesOnOk W.Write.write_str_gives f.old result
            (printed table.now options.now bytes.now) f.new };

    /// The number of a column, if the bytes of a structure have it, and nothing but its digits is to be printed at once.
    fn number(
        _row: &Line<'_>,
        _options: &Options,
        _column: &Column,
        _bytes: &[u8],
    ) -> Option<Number>
        requires options { _options.now ≡ options_of (line_view _row.now) }
        requires column { column_of (line_view _row.now) ≡ Some (column_view _column.now) }
        ensures { IfSome result (PrintsNumber printed before (line_view _row.now) _bytes.now) }
    {
        None
    }
}

/// Values as text.
enum PrintsText {}

impl FieldPrinter for PrintsText {
    ghost printed = { value_text };

    ghost before = { codes " " };

    fn print<W: fmt::Write>(
        table: &Table<'_>,
        options: &Options,
        bytes: &[u8],
        f: &mut fmt::Formatter<W>,
    ) -> fmt::Result {
        if let Some(number) = number_by(table, options, bytes) {
            f.write_str(" ")?;
            return Display::fmt(&NamedText(number), f);
        }
        let value = ValueText(Value::of(table, options, bytes));
        Display::fmt(&value, f)
    }

    #[inline(always)]
    fn number(row: &Line<'_>, options: &Options, column: &Column, bytes: &[u8]) -> Option<Number> {
        number_at(row, options, column, bytes)
    }
}

/// Values in JSON.
enum PrintsJson {}

impl FieldPrinter for PrintsJson {
    ghost printed = { value_json };

    ghost before = { [] };

    fn print<W: fmt::Write>(
        table: &Table<'_>,
        options: &Options,
        bytes: &[u8],
        f: &mut fmt::Formatter<W>,
    ) -> fmt::Result {
        if let Some(number) = number_by(table, options, bytes) {
            return Display::fmt(&NamedJson(number), f);
        }
        let value = ValueJson(Value::of(table, options, bytes));
        Display::fmt(&value, f)
    }

    #[inline(always)]
    fn number(row: &Line<'_>, options: &Options, column: &Column, bytes: &[u8]) -> Option<Number> {
        number_at(row, options, column, bytes)
    }
}

/// Values of a structure in an array, as text: in it structures are bytes.
enum PrintsFlatText {}

impl FieldPrinter for PrintsFlatText {
    ghost printed = { item_text };

    ghost before = { codes " " };

    fn print<W: fmt::Write>(
        table: &Table<'_>,
        options: &Options,
        bytes: &[u8],
        f: &mut fmt::Formatter<W>,
    ) -> fmt::Result {
        let value = ItemText(Item::of(table, options, bytes));
        Display::fmt(&value, f)
    }
}

/// The same in JSON.
enum PrintsFlatJson {}

impl FieldPrinter for PrintsFlatJson {
    ghost printed = { item_json };

    ghost before = { [] };

    fn print<W: fmt::Write>(
        table: &Table<'_>,
        options: &Options,
        bytes: &[u8],
        f: &mut fmt::Formatter<W>,
    ) -> fmt::Result {
        let value = ItemJson(Item::of(table, options, bytes));
        Display::fmt(&value, f)
    }
}

/// The number of a column, if the bytes of a structure have it, and it is printed in decimal digits.
#[inline(always)]
fn number_at(_row: &Line<'_>, options: &Options, column: &Column, bytes: &[u8]) -> Option<Number>
    requires options { options.now ≡ options_of (line_view _row.now) }
    requires column { column_of (line_view _row.now) ≡ Some (column_view column.now) }
    ensures text { IfSome result
        (PrintsNumber value_text (codes " ") (line_view _row.now) bytes.now) }
    ensures json { IfSome result (PrintsNumber value_json [] (line_view _row.now) bytes.now) }
{
    let part = bytes.get(column.start..column.end)?;
    digits_as(options, column.kind, part)
}

/// Prints the name of a row, which is kept where it needs no escape.
#[inline(always)]
fn write_row_name<W: fmt::Write>(
    row: &Line<'_>,
    kept: Option<&str>,
    f: &mut fmt::Formatter<W>,
) -> fmt::Result
    requires { name_view kept ≡ plain_name (line_view row.now) }
    ensures writes { WritesOnOk W.Write.write_str_gives f.old result
        (name_text row.now.name.now) f.new }
{
    match kept {
        Some(name) => f.write_str(name),
        None => Display::fmt(&Name(row.name), f),
    }
}

/// Prints the name of a field after a blank.
#[inline(always)]
fn write_name<W: fmt::Write>(
    row: &Line<'_>,
    kept: Option<&str>,
    f: &mut fmt::Formatter<W>,
) -> fmt::Result
    requires { name_view kept ≡ plain_name (line_view row.now) }
    ensures writes { WritesOnOk W.Write.write_str_gives f.old result
        (codes " " ++ name_text row.now.name.now) f.new }
{
    f.write_str(" ")?;
    write_row_name(row, kept, f)
}

/// Prints the name of a member as a string, after what stands before it, and the colon behind it.
#[inline(always)]
fn write_key<W: fmt::Write>(
    before: &str,
    row: &Line<'_>,
    kept: Option<&str>,
    f: &mut fmt::Formatter<W>,
) -> fmt::Result
    requires { name_view kept ≡ plain_name (line_view row.now) }
    ensures writes { WritesOnOk W.Write.write_str_gives f.old result
        (before.now ++ (name_json row.now.name.now ++ codes ":")) f.new }
{
    f.write_str(before)?;
    f.write_str("\"")?;
    write_row_name(row, kept, f)?;
    f.write_str("\":")
}

/// What a table keeps of a row of a structure.
#[derive(Clone, Copy)]
struct Row<'w, 't> {
    line: &'w Line<'t>,
    options: &'w Options,
    column: Option<&'w Column>,
    name: Option<&'t str>,
}

/// Prints a field as its name and its value, after blanks, if bytes have it.
#[inline(always)]
fn write_field<V: FieldPrinter, W: fmt::Write>(
    table: &Table<'_>,
    row: Row<'_, '_>,
    bytes: &[u8],
    f: &mut fmt::Formatter<W>,
) -> fmt::Result
    requires blank { V.before ≡ codes " " }
    requires row { IsRow row }
    ensures writes { WritesOnOk W.Write.write_str_gives f.old result (field_text_by V.printed
        table.now bytes.now (line_view row.entry.line.now)) f.new }
{
    let Row {
        line,
        options,
        column,
        name,
    } = row;
    if let Some(column) = column {
        if let Some(number) = V::number(line, options, column, bytes) {
            f.write_str(&column.text)?;
            return Display::fmt(&NumberJson(number), f);
        }
    }
    if let Some(part) = field_bytes(line, options, bytes) {
        write_name(line, name, f)?;
        return V::print(table, options, part, f);
    }
    Ok(())
}

/// Prints the fields that bytes have, each as its name and its value, after blanks.
fn write_fields<V: FieldPrinter, W: fmt::Write>(
    fields: Fields<'_, '_, '_>,
    f: &mut fmt::Formatter<W>,
) -> fmt::Result
    requires blank { V.before ≡ codes " " }
    ensures writes { WritesOnOk W.Write.write_str_gives f.old result (fields_text_by V.printed
        fields.entry.table.now fields.entry.place fields.entry.bytes.now) f.new }
{
    let rows = fields.table.rows(fields.place);
    let all = fields.table.row_options(fields.place);
    let names = fields.table.row_names(fields.place);
    let columns = fields.table.row_columns(fields.place);
    for (index, line) in rows.iter().enumerate() {
        let row = Row {
            line,
            options: &all[index],
            column: columns[index].as_ref(),
            name: names[index],
        };
        write_field::<V, W>(fields.table, row, fields.bytes, f)?;
    }
    Ok(())
}

/// Prints the fields that bytes have as members of an object, with commas between them.
fn write_members<V: FieldPrinter, W: fmt::Write>(
    fields: Fields<'_, '_, '_>,
    f: &mut fmt::Formatter<W>,
) -> fmt::Result
    requires blank { V.before ≡ [] }
    ensures writes { WritesOnOk W.Write.write_str_gives f.old result (joined (codes ",")
        (members_by V.printed fields.entry.table.now fields.entry.place fields.entry.bytes.now)) f.new }
{
    let rows = fields.table.rows(fields.place);
    let all = fields.table.row_options(fields.place);
    let names = fields.table.row_names(fields.place);
    let columns = fields.table.row_columns(fields.place);
    let mut comma = "";
    for (index, row) in rows.iter().enumerate() {
        let options = &all[index];
        if let Some(column) = &columns[index] {
            if let Some(number) = V::number(row, options, column, fields.bytes) {
                f.write_str(comma)?;
                f.write_str(&column.json)?;
                Display::fmt(&NumberJson(number), f)?;
                comma = ",";
                continue;
            }
        }
        if let Some(part) = field_bytes(row, options, fields.bytes) {
            write_key(comma, row, names[index], f)?;
            V::print(fields.table, options, part, f)?;
            comma = ",";
        }
    }
    Ok(())
}

/// The fields that bytes have, as text: each as its name and its value, after blanks.
#[derive(Clone, Copy)]
pub struct FieldsText<'b, 'w, 't>(pub Fields<'b, 'w, 't>);

impl fmt::Display for FieldsText<'_, '_, '_> {
    ghost output = { λ t. Some (fields_text t.0.table.now t.0.place t.0.bytes.now) };

    fn fmt<W: fmt::Write>(&self, f: &mut fmt::Formatter<W>) -> fmt::Result {
        write_fields::<PrintsText, W>(self.0, f)
    }
}

/// The fields that bytes have, as an object of JSON.
#[derive(Clone, Copy)]
pub struct FieldsJson<'b, 'w, 't>(pub Fields<'b, 'w, 't>);

impl fmt::Display for FieldsJson<'_, '_, '_> {
    ghost output = { λ t. Some (fields_json t.0.table.now t.0.place t.0.bytes.now) };

    fn fmt<W: fmt::Write>(&self, f: &mut fmt::Formatter<W>) -> fmt::Result {
        f.write_str("{")?;
        write_members::<PrintsJson, W>(self.0, f)?;
        f.write_str("}")
    }
}

/// The fields of a structure in an array, as text. Structures in it are bytes.
#[derive(Clone, Copy)]
pub(crate) struct FlatText<'b, 'w, 't>(pub Fields<'b, 'w, 't>);

impl fmt::Display for FlatText<'_, '_, '_> {
    ghost output = { λ t. Some (fields_text_by item_text t.0.table.now t.0.place t.0.bytes.now) };

    fn fmt<W: fmt::Write>(&self, f: &mut fmt::Formatter<W>) -> fmt::Result {
        write_fields::<PrintsFlatText, W>(self.0, f)
    }
}

/// The fields of a structure in an array, as an object of JSON. Structures in it are bytes.
#[derive(Clone, Copy)]
pub(crate) struct FlatJson<'b, 'w, 't>(pub Fields<'b, 'w, 't>);

impl fmt::Display for FlatJson<'_, '_, '_> {
    ghost output = { λ t. Some (fields_json_by item_json t.0.table.now t.0.place t.0.bytes.now) };

    fn fmt<W: fmt::Write>(&self, f: &mut fmt::Formatter<W>) -> fmt::Result {
        f.write_str("{")?;
        write_members::<PrintsFlatJson, W>(self.0, f)?;
        f.write_str("}")
    }
}
