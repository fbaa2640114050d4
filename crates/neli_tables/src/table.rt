//! A family's table.

ghost use Rattle.std.specs.Prelude.{◌≡◌, ◌+◌, ◌<◌, ◌≤◌, List, Ok, IfErr, IfOk, IfSome, length, map, position};
ghost use Rattle.std.specs.Prelude.{get_or, option_and_then, slice_get};
ghost use Rattle.std.specs.Option.{option_map};
ghost use Rattle.neli_tables.specs.Lines.{LineSeen, line_view};
ghost use Rattle.neli_tables.specs.Schemas.{IsWhyNot, table_in};
ghost use Rattle.neli_tables.specs.Index.{AreFirsts, Indexes};
ghost use Rattle.neli_tables.specs.RowKeys.{place_of, rest_key, way_number};
ghost use Rattle.neli_tables.specs.Options.{options_of};
ghost use Rattle.neli_tables.specs.Plain.{name_view, plain_name};
ghost use Rattle.neli_tables.specs.Columns.{column_of, column_view};
ghost use Rattle.neli_tables.specs.FoundRows.{begins_section, case_in, group_in, is_case, message_for};
ghost use Rattle.neli_tables.specs.FoundRows.{message_in};
ghost use Rattle.neli_tables.specs.FoundRows.{row_in, rows_among, rows_of, size_before, sizes_of};

use crate::column::{Column, all_columns};
use crate::firsts::Firsts;
use crate::index::Index;
use crate::likely::Likely;
use crate::options::{Options, all_options};
use crate::plain::plain_names;
use crate::way::{Way, group_key, is_row, message_key, rest_key, row_key, way_number};
use crate::{Line, ReadError, Word, read_table};
use std::alloc::{AllocError, Global};
use std::marker::Model;

/// The table of a family: its lines, and a map of where they stand. Contracts see it as its lines.
///
/// A line is meant by its place among these, counted from 0. Lines that options refer to are meant so too.
#[derive(Drop)]
pub struct Table<'t> {
    lines: Vec<Line<'t>>,
    options: Vec<Options>,
    names: Vec<Option<&'t str>>,
    columns: Vec<Option<Column>>,
    sizes: Vec<usize>,
    likely: Likely,
    firsts: Firsts,
    index: Index,
}

impl<'t> Model for Table<'t> {
    ghost Value = { List LineSeen };

    ghost view = { λ t. map line_view t.lines.items };

    ghost invariant = { λ t. Indexes t.index (map line_view t.lines.items)
        × AreFirsts t.firsts (map line_view t.lines.items)
        × (t.options.items ≡ map options_of (map line_view t.lines.items))
        × (map name_view t.names.items ≡ map plain_name (map line_view t.lines.items))
        × (map (option_map column_view) t.columns.items
        ≡ map column_of (map line_view t.lines.items))
        × (t.sizes.items ≡ sizes_of (map line_view t.lines.items)) };
}

impl<'t> Table<'t> {
    /// The table that a text is.
    ///
    /// Refused as `read_table` refuses it: where a line is none, by the number of the first such line, and where memory
    /// runs out.
    pub fn read(alloc: Global, text: &'t [u8]) -> Result<Table<'t>, ReadError>
        ensures lines { IfOk result (λ table. table_in text.now ≡ Ok table) }
        ensures refused { IfErr result (IsWhyNot (table_in text.now)) }
    {
        let lines = read_table(alloc, text)?;
        let table = Table::of(alloc, lines)?;
        Ok(table)
    }

    /// The table of these lines, which are those of a text. Refused where memory runs out.
    pub fn of(alloc: Global, lines: Vec<Line<'t>>) -> Result<Table<'t>, AllocError>
        ensures { IfOk result (λ table. table ≡ map line_view lines.entry.items) }
    {
        let index = Index::of(alloc, &lines)?;
        let firsts = Firsts::of(alloc, &lines, &index)?;
        let options = all_options(alloc, &lines)?;
        let names = plain_names(alloc, &lines)?;
        let columns = all_columns(alloc, &lines)?;
        let sizes = all_sizes(alloc, &lines)?;
        let likely = Likely::of(alloc, &lines)?;
        Ok(Table {
            lines,
            options,
            names,
            columns,
            sizes,
            likely,
            firsts,
            index,
        })
    }

    /// All lines; the first is the family.
    pub fn lines(&self) -> &[Line<'t>]
        ensures { map line_view result.now ≡ self.now }
    {
        &self.lines
    }

    /// The line at this place.
    pub fn line(&self, place: usize) -> Option<&Line<'t>>
        ensures { option_map (λ line. line_view line.now) result ≡ slice_get self.now place }
    {
        self.lines.get(place)
    }

    /// What the options of the line at this place say.
    pub fn options(&self, place: usize) -> Option<&Options>
        ensures { option_map (λ options. options.now) result
            ≡ option_map options_of (slice_get self.now place) }
    {
        self.options.get(place)
    }

    /// The rows of the section at this place, in order: the fields of a structure, the values of an enum, the
    /// attributes of a set, the cases of a choice.
    pub fn rows(&self, section: usize) -> &[Line<'t>]
        ensures { map line_view result.now ≡ rows_of section self.now }
    {
        let size = self.size(section);
        if size == 0 {
            return &[];
        }
        &self.lines[section + 1..section + 1 + size]
    }

    /// The number of the rows of the section at this place; 0 where there is no such place.
    fn size(&self, section: usize) -> usize
        ensures size { result ≡ length (rows_of section self.now) }
        ensures within { 0 < result → section + 1 + result ≤ length self.now }
    {
        if section < self.sizes.len() {
            self.sizes[section]
        } else {
            0
        }
    }

    /// What the options of the rows of the section at this place say, in order.
    pub fn row_options(&self, section: usize) -> &[Options]
        ensures { result.now ≡ map options_of (rows_of section self.now) }
    {
        let size = self.size(section);
        if size == 0 {
            return &[];
        }
        &self.options[section + 1..section + 1 + size]
    }

    /// The name of the line at this place, where it is printed as it stands: each of its bytes is a printing character
    /// of ASCII that needs no escape in quotes.
    pub fn plain_name(&self, place: usize) -> Option<&'t str>
        ensures { name_view result ≡ option_and_then plain_name (slice_get self.now place) }
    {
        match self.names.get(place) {
            Some(name) => *name,
            None => None,
        }
    }

    /// The same of the rows of the section at this place, in order.
    pub fn row_names(&self, section: usize) -> &[Option<&'t str>]
        ensures { map name_view result.now ≡ map plain_name (rows_of section self.now) }
    {
        let size = self.size(section);
        if size == 0 {
            return &[];
        }
        &self.names[section + 1..section + 1 + size]
    }

    /// The columns of the rows of the section at this place, in order.
    pub fn row_columns(&self, section: usize) -> &[Option<Column>]
        ensures { map (option_map column_view) result.now ≡ map column_of (rows_of section self.now) }
    {
        let size = self.size(section);
        if size == 0 {
            return &[];
        }
        &self.columns[section + 1..section + 1 + size]
    }

    /// The place of the row that has this number in the section at this place: of an attribute in a set, a case in a
    /// choice, a value in an enum. Where no row has it, that of the row for all others, `each` or `else`, if there is
    /// one.
    pub fn row(&self, section: usize, number: u64) -> Option<usize>
        ensures { result ≡ row_in self.now section number }
    {
        let place = self.likely.place(section, number);
        if self.firsts.has(place, row_key(section, number)) {
            return Some(place);
        }
        match self.index.find(row_key(section, number)) {
            Some(place) => Some(place),
            None => self.rest(section),
        }
    }

    /// The place of the case that this text picks of the choice at this place, or of `else`, if there is one. Looks at
    /// one case after the other.
    pub fn case(&self, choice: usize, text: &[u8]) -> Option<usize>
        ensures { result ≡ case_in self.now choice text.now }
    {
        match case_at(&self.lines, choice, text) {
            Some(place) => Some(place),
            None => self.rest(choice),
        }
    }

    /// The place of the row for all other numbers or texts of the section at this place: `each` or `else`.
    pub fn rest(&self, section: usize) -> Option<usize>
        ensures { result ≡ place_of (rest_key section) self.now }
    {
        self.index.find(rest_key(section))
    }

    /// The place of the message that has this number (of generic netlink its command), goes this way, and whose body
    /// begins with this byte; `None` for a body without bytes.
    ///
    /// One with the option `family=` comes before one without, then one with `request` or `reply` before one that goes
    /// both ways.
    pub fn message(&self, way: Way, first: Option<u8>, number: u64) -> Option<usize>
        ensures { result ≡ message_in self.now (way_number way) first number }
    {
        let Some(first) = first else {
            return self.message_for(way, None, number);
        };
        match self.message_for(way, Some(first as u64), number) {
            Some(place) => Some(place),
            None => self.message_for(way, None, number),
        }
    }

    /// The place of the message for bodies that begin with this byte, or of that for all.
    fn message_for(&self, way: Way, first: Option<u64>, number: u64) -> Option<usize>
        ensures { result ≡ message_for self.now (way_number way) first number }
    {
        match self.index.find(message_key(way_number(way), first, number)) {
            Some(place) => Some(place),
            None => self.index.find(message_key(0, first, number)),
        }
    }

    /// The place of the multicast group with this number.
    pub fn group(&self, number: u64) -> Option<usize>
        ensures { result ≡ group_in self.now number }
    {
        self.index.find(group_key(number))
    }
}

/// Whether a line begins a section.
fn begins_section(line: &Line<'_>) -> bool
    ensures { result ≡ begins_section (line_view line.now) }
{
    !is_row(line.word)
}

/// The index of the first of these lines that begins a section.
fn next_section(lines: &[Line<'_>]) -> Option<usize>
    ensures value { result ≡ position (λ line. begins_section (line_view line)) lines.now }
    ensures within { IfSome result (λ index. index < length lines.now) }
{
    lines.iter().position(|line| begins_section(line))
}

/// These lines, up to the first that begins a section.
fn rows_among<'s, 't>(lines: &'s [Line<'t>]) -> &'s [Line<'t>]
    ensures rows { map line_view result.now ≡ rows_among (map line_view lines.now) }
    ensures within { length result.now ≤ length lines.now }
{
    match next_section(lines) {
        Some(index) => &lines[..index],
        None => lines,
    }
}

/// The rows of the section at this place.
fn rows_of<'s, 't>(lines: &'s [Line<'t>], section: usize) -> &'s [Line<'t>]
    ensures rows { map line_view result.now ≡ rows_of section (map line_view lines.now) }
    ensures within { 0 < length result.now → section + 1 + length result.now ≤ length lines.now }
{
    if section < lines.len() {
        rows_among(&lines[section + 1..])
    } else {
        &[]
    }
}

/// How many rows follow the line at this place, where so many follow the line before it: one less, if any do, so that
/// the rows of a section are looked at once.
fn size_at(lines: &[Line<'_>], place: usize, before: usize) -> usize
    requires within { place < length lines.now }
    requires before { before ≡ size_before (map line_view lines.now) place }
    ensures { result ≡ get_or (sizes_of (map line_view lines.now)) place 0 }
{
    if before > 0 {
        before - 1
    } else {
        rows_of(lines, place).len()
    }
}

/// How many rows follow each of these lines, in order. Refused where memory runs out.
fn all_sizes(alloc: Global, lines: &[Line<'_>]) -> Result<Vec<usize>, AllocError>
    ensures { IfOk result (λ sizes. sizes.items ≡ sizes_of (map line_view lines.now)) }
{
    let mut sizes = Vec::with_capacity(alloc, lines.len())?;
    let mut size = 0;
    for place in 0..lines.len() {
        size = size_at(lines, place, size);
        sizes.push(size)?;
    }
    Ok(sizes)
}

/// Whether this case is picked by this text.
fn is_case(row: &Line<'_>, text: &[u8]) -> bool
    ensures { result ≡ is_case text.now (line_view row.now) }
{
    matches!(row.word, Word::Case) && row.span.is_none() && row.name == text
}

/// The index of the first of these that this text picks.
fn position_of_case(rows: &[Line<'_>], text: &[u8]) -> Option<usize>
    ensures value { result ≡ position (λ row. is_case text.now (line_view row)) rows.now }
    ensures within { IfSome result (λ index. index < length rows.now) }
{
    rows.iter().position(|row| is_case(row, text))
}

/// The place of the case that this text picks of the choice at this place.
fn case_at(lines: &[Line<'_>], choice: usize, text: &[u8]) -> Option<usize>
    ensures { result ≡ option_map (λ index. choice + 1 + index)
        (position (is_case text.now) (rows_of choice (map line_view lines.now))) }
{
    let rows = rows_of(lines, choice);
    match position_of_case(rows, text) {
        Some(index) => Some(choice + 1 + index),
        None => None,
    }
}
