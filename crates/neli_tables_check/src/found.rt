//! What an entry of a list is found to be.

ghost use Rattle.std.specs.Prelude.{◌≡◌, ◌≤◌, Some, length};
ghost use Rattle.neli_tables_walk.specs.Shapes.{context_view};
ghost use Rattle.neli_tables_check.specs.Violations.{attribute_wrong, chosen_of, entry_found, entry_row, entry_step};
ghost use Rattle.neli_tables_check.specs.Violations.{found_view, hop_found, is_from, is_kept, line_of, listed_view};
ghost use Rattle.neli_tables_check.specs.Violations.{number_at, parser_of, picked, picked_by, picked_in, row_found};
ghost use Rattle.neli_tables_check.specs.Violations.{shape_found, unknown_found};

use crate::cut::{entry_number, is_flagged, last_payload, payload_in};
use crate::listed::{Listed, inner_of};
use crate::values::{flag_wrong, length_wrong, shape_wrong};
use crate::{Validation, Wrong};
use neli_tables::{Kind, Options, Word};
use neli_tables_walk::{Context, Nest, Shape, Step};

/// What an entry is: a list and the parser that goes through it, or nothing that is wrong.
pub type Found<'b> = Result<Option<(Validation, Listed<'b>)>, Wrong>;

/// An entry of a list, and what follows it.
#[derive(Clone, Copy)]
pub struct Entry<'b> {
    /// Its bytes.
    pub bytes: &'b [u8],
    /// The rest of the list.
    pub rest: &'b [u8],
}

/// What a parser goes through: a list of payloads that are read by this.
#[derive(Clone, Copy)]
pub struct Reader<'c, 'w, 't, 'b> {
    /// The table, and the address family of the message.
    pub context: &'c Context<'w, 't>,
    /// The parser of the list.
    pub validation: Validation,
    /// The list.
    pub list: Listed<'b>,
}

impl<'b> Reader<'_, '_, '_, 'b> {
    /// The part of a path that an entry is.
    pub fn step(&self, entry: &Entry<'b>) -> Step
        requires { 4 ≤ length entry.now.bytes.now }
        ensures { result ≡ entry_step (context_view self.now.context.now) (listed_view self.now.list)
            entry.now.bytes.now }
    {
        if self.list.is_hops {
            return Step {
                number: None,
                row: None,
            };
        }
        Step {
            number: Some(entry_number(entry.bytes)),
            row: self.row(entry),
        }
    }

    /// The place of the row of an attribute.
    fn row(&self, entry: &Entry<'b>) -> Option<usize>
        requires { 4 ≤ length entry.now.bytes.now }
        ensures { result ≡ entry_row (context_view self.now.context.now) (listed_view self.now.list)
            entry.now.bytes.now }
    {
        let number = entry_number(entry.bytes) as u64;
        self.context.table.row(self.list.nest.set, number)
    }

    /// What an entry is.
    pub fn found(&self, entry: &Entry<'b>) -> Found<'b>
        requires { 4 ≤ length entry.now.bytes.now }
        ensures { found_view result ≡ entry_found self.now.validation
            (context_view self.now.context.now) (listed_view self.now.list) entry.now.bytes.now
            entry.now.rest.now }
    {
        if self.list.is_hops {
            return hop_found(self.validation, self.list.nest, entry.bytes);
        }
        self.row_found(self.row(entry), entry)
    }

    /// What an attribute with this row is.
    fn row_found(&self, row: Option<usize>, entry: &Entry<'b>) -> Found<'b>
        requires { 4 ≤ length entry.now.bytes.now }
        ensures { found_view result ≡ row_found self.now.validation
            (context_view self.now.context.now) (listed_view self.now.list) row
            entry.now.bytes.now entry.now.rest.now }
    {
        let Some(row) = row else {
            return unknown_found(self.validation);
        };
        let (Some(line), Some(options)) = (
            self.context.table.line(row),
            self.context.table.options(row),
        ) else {
            return Ok(None);
        };
        let validation = self.parser_of(entry_number(entry.bytes));
        let place = self.line_of(row, options);
        let shape = match place {
            Some(place) => self.context.body_shape(place, payload_in(entry.bytes)),
            None => Shape::Bytes,
        };
        self.shape_found(validation, line.word, options, shape, entry)
    }

    /// The parser of the attribute with this number.
    fn parser_of(&self, number: u16) -> Validation
        ensures { result ≡ parser_of (context_view self.now.context.now).0 self.now.validation
            self.now.list.nest.set number }
    {
        if self.validation == Validation::Strict {
            return Validation::Strict;
        }
        match self.context.table.options(self.list.nest.set) {
            Some(options) if is_from(options.strict_from, number) => Validation::Strict,
            _ => Validation::Liberal,
        }
    }

    /// What an attribute of this shape is.
    fn shape_found(
        &self,
        validation: Validation,
        word: Word,
        options: &Options,
        shape: Shape,
        entry: &Entry<'b>,
    ) -> Found<'b>
        requires { 4 ≤ length entry.now.bytes.now }
        ensures { found_view result ≡ shape_found validation
            (context_view self.now.context.now) word options.now shape
            entry.now.bytes.now entry.now.rest.now }
    {
        if let Some(wrong) = self.attribute_wrong(validation, word, options, shape, entry) {
            return Err(wrong);
        }
        if is_kept(validation, options, entry) {
            Ok(inner_of(validation, shape, payload_in(entry.bytes)))
        } else {
            Ok(None)
        }
    }

    /// What is wrong with an attribute itself.
    fn attribute_wrong(
        &self,
        validation: Validation,
        word: Word,
        options: &Options,
        shape: Shape,
        entry: &Entry<'b>,
    ) -> Option<Wrong>
        requires { 4 ≤ length entry.now.bytes.now }
        ensures { result ≡ attribute_wrong validation (context_view self.now.context.now) word
            options.now shape entry.now.bytes.now }
    {
        let flagged = is_flagged(entry.bytes);
        if let Some(wrong) = flag_wrong(validation, word, options.kind, shape, flagged) {
            return Some(wrong);
        }
        let payload = payload_in(entry.bytes);
        match shape_wrong(validation, self.context, shape, payload) {
            Some(wrong) => Some(wrong),
            None => length_wrong(options, payload),
        }
    }

    /// The place of the line that says what an attribute with this row is.
    fn line_of(&self, row: usize, options: &Options) -> Option<usize>
        ensures { result ≡ line_of (context_view self.now.context.now) (listed_view self.now.list)
            row options.now }
    {
        match options.kind {
            Some(Kind::Choice) => self.chosen(options),
            _ => Some(row),
        }
    }

    /// The place of the case that a choice picks.
    fn chosen(&self, options: &Options) -> Option<usize>
        ensures { result ≡ chosen_of (context_view self.now.context.now)
            (listed_view self.now.list) options.now options.now.of }
    {
        let choice = options.of?;
        if options.by_family {
            return self.context.table.row(choice, self.context.family as u64);
        }
        self.picked_in(choice, options.by?)
    }

    /// The place of the case that the attribute of this row picks, in this list.
    fn picked_in(&self, choice: usize, by: usize) -> Option<usize>
        ensures { result ≡ picked_in (context_view self.now.context.now).0
            (listed_view self.now.list) choice (Some by) }
    {
        let number = self.context.table.line(by)?.span?.first;
        if self.context.table.row(self.list.nest.set, number)? != by {
            return None;
        }
        match last_payload(number, self.list.bytes) {
            Some(bytes) => self.context.picked(choice, by, bytes),
            None => self.context.table.rest(choice),
        }
    }
}

/// Whether a number is this one, or comes behind it.
fn is_from(first: Option<u64>, number: u16) -> bool
    ensures { result ≡ is_from first number }
{
    match first {
        Some(first) => first <= number as u64,
        None => false,
    }
}

/// What a parser makes of an attribute that it does not know.
fn unknown_found<'b>(validation: Validation) -> Found<'b>
    ensures { found_view result ≡ unknown_found validation }
{
    match validation {
        Validation::Strict => Err(Wrong::Unknown),
        Validation::Liberal => Ok(None),
    }
}

/// A hop: its attributes.
fn hop_found(validation: Validation, nest: Nest, entry: &[u8]) -> Found<'_>
    ensures { found_view result ≡ hop_found validation nest entry.now }
{
    Ok(inner_of(validation, Shape::Nest(nest), entry))
}

/// Whether a parser looks into an attribute: the liberal one into the last of equal ones.
fn is_kept(validation: Validation, options: &Options, entry: &Entry<'_>) -> bool
    requires { 4 ≤ length entry.now.bytes.now }
    ensures { result ≡ is_kept validation options.now entry.now.bytes.now entry.now.rest.now }
{
    match validation {
        Validation::Strict => true,
        Validation::Liberal => {
            options.multi || last_payload(entry_number(entry.bytes) as u64, entry.rest).is_none()
        }
    }
}
