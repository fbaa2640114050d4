//! Checks a body by its table.

ghost use Rattle.std.specs.Prelude.{◌≡◌, ◌≤◌, ◌+◌, ◌-◌, IfErr, IfOk, IfSome, IsNone, None, Some, length};
ghost use Rattle.std.specs.Option.{option_map};
ghost use Rattle.neli_tables_walk.specs.Bodies.{body_view};
ghost use Rattle.neli_tables_walk.specs.Shapes.{context_view, line_options};
ghost use Rattle.neli_tables_check.specs.Violations.{check_view, deeper_at, entry_wrong, is_strict, list_wrong, listed_view, rest_wrong};
ghost use Rattle.neli_tables_check.specs.Violations.{shaped_wrong, validation_of, violation_by, violation_in};
ghost use Rattle.neli_tables_check.specs.Violations.{violation_text, violation_view};

use crate::cut::{behind, entry_size};
use crate::found::{Entry, Reader};
use crate::listed::{Listed, attributes_of};
use crate::values::shape_wrong;
use crate::{Place, Validation, Wrong};
use neli_tables::Table;
use neli_tables_walk::{Body, Context, MAX_DEPTH, Path, Shape};
use std::fmt;

/// The first attribute that a parser does not allow, and what that is.
#[derive(Drop)]
pub struct Violation<'w, 't> {
    /// The attribute, or the nest whose attributes bytes follow; without steps the body.
    pub place: Place<'w, 't>,
    /// What is not allowed.
    pub wrong: Wrong,
}

impl fmt::Display for Violation<'_, '_> {
    ghost output = { λ v.
        Some (violation_text v.place.table.now v.place.path.steps.items v.wrong) };

    fn fmt<W: fmt::Write>(&self, f: &mut fmt::Formatter<W>) -> fmt::Result {
        let (place, wrong) = (&self.place, self.wrong);
        write!(f, "{place}: {wrong}")
    }
}

/// The parser by which the kernel reads the message of a body, as the table says: the strict one where its line has
/// `strict`.
pub fn validation_of(body: &Body<'_, '_, '_>) -> Validation
    ensures { result ≡ validation_of (body_view body.now) }
{
    match (body.table, body.line) {
        (Some(table), Some(line)) if is_strict(table, line) => Validation::Strict,
        _ => Validation::Liberal,
    }
}

/// Whether the line at this place has `strict`.
fn is_strict(table: &Table<'_>, line: usize) -> bool
    ensures { result ≡ is_strict (line_options table.now line) }
{
    match table.options(line) {
        Some(options) => options.strict,
        None => false,
    }
}

/// Checks a body as the parser does by which the kernel reads its message: [`check_as`] by [`validation_of`].
///
/// Refused with the first violation, in the order of the bytes.
pub fn check<'w, 't>(body: &Body<'_, 'w, 't>) -> Result<(), Violation<'w, 't>>
    ensures { check_view result ≡ violation_in (body_view body.now) }
{
    check_as(body, validation_of(body))
}

/// Checks that the attributes of a body are as their rows say, as a parser of the kernel does with those of a request.
/// What no table has passes, as a message without a line.
///
/// Refused with the first violation, in the order of the bytes: of nests the outer one first.
pub fn check_as<'w, 't>(
    body: &Body<'_, 'w, 't>,
    validation: Validation,
) -> Result<(), Violation<'w, 't>>
    ensures { check_view result ≡ violation_by validation (body_view body.now) }
{
    let Some(context) = body.context() else {
        return Ok(());
    };
    match shaped_violation(&context, validation, body.shape(), body.bytes) {
        Some(violation) => Err(violation),
        None => Ok(()),
    }
}

/// The violation of a body of this shape.
fn shaped_violation<'w, 't>(
    context: &Context<'w, 't>,
    validation: Validation,
    shape: Shape,
    bytes: &[u8],
) -> Option<Violation<'w, 't>>
    ensures { option_map violation_view result
        ≡ shaped_wrong validation (context_view context.now) shape bytes.now }
{
    let path = Path::default();
    if let Shape::Nest(nest) = shape {
        return list_violation(context, validation, path, attributes_of(nest, bytes));
    }
    let wrong = shape_wrong(validation, context, shape, bytes)?;
    Some(violation_at(context.table, path, wrong))
}

/// A violation at a path.
fn violation_at<'w, 't>(table: &'w Table<'t>, path: Path, wrong: Wrong) -> Violation<'w, 't>
    ensures { violation_view result ≡ (path.steps.items, wrong) }
{
    let place = Place { table, path };
    Violation { place, wrong }
}

/// The violation of a list at a path, or of those in it.
#[tactic(auto, using(crate::proofs::Steps::left_none, crate::proofs::Steps::left_zero, crate::proofs::Steps::left_some, crate::proofs::Steps::left_next, crate::proofs::Steps::list_left))]
fn list_violation<'w, 't>(
    context: &Context<'w, 't>,
    validation: Validation,
    path: Path,
    list: Listed<'_>,
) -> Option<Violation<'w, 't>>
    requires { length path.steps.items ≤ 9 }
    ensures { option_map violation_view result
        ≡ list_wrong (context_view context.now) (9 - length path.steps.items) validation
        path.steps.items (listed_view list.entry) }
{
    let reader = Reader {
        context,
        validation,
        list,
    };
    let (mut left, mut bytes) = (list.bytes.len(), list.bytes);
    while 0 < left {
        let Some(size) = entry_size(list.front(), bytes) else {
            return rest_violation(&reader, path, bytes);
        };
        let rest = behind(size, bytes);
        let entry = Entry {
            bytes: &bytes[..size],
            rest,
        };
        match judged(&reader, &path, &entry) {
            Err(violation) => return Some(violation),
            Ok(None) => {}
            Ok(Some(inner)) => {
                match list_violation(context, inner.validation, inner.path, inner.list) {
                    Some(violation) => return Some(violation),
                    None => {}
                }
            }
        }
        bytes = rest;
        left -= 1;
    }
    rest_violation(&reader, path, bytes)
}

/// A list in another: its path, and the parser that goes through it.
#[derive(Drop)]
struct Inner<'b> {
    path: Path,
    validation: Validation,
    list: Listed<'b>,
}

/// What an entry of a list at a path is: a violation, a list, or neither.
fn judged<'b, 'w, 't>(
    reader: &Reader<'_, 'w, 't, 'b>,
    path: &Path,
    entry: &Entry<'b>,
) -> Result<Option<Inner<'b>>, Violation<'w, 't>>
    requires size { 4 ≤ length entry.now.bytes.now }
    requires depth { length path.now.steps.items ≤ 9 }
    ensures wrong { IfErr result (λ violation.
        entry_wrong (deeper_at (context_view reader.now.context.now) (9 - length path.now.steps.items))
        (context_view reader.now.context.now) reader.now.validation path.now.steps.items
        (listed_view reader.now.list) entry.now.bytes.now entry.now.rest.now
        ≡ Some (violation_view violation)) }
    ensures fine { IfOk result (λ inner. IsNone inner
        → entry_wrong (deeper_at (context_view reader.now.context.now) (9 - length path.now.steps.items))
        (context_view reader.now.context.now) reader.now.validation path.now.steps.items
        (listed_view reader.now.list) entry.now.bytes.now entry.now.rest.now ≡ None) }
    ensures inner { IfOk result (λ inner. IfSome inner (λ it.
        entry_wrong (deeper_at (context_view reader.now.context.now) (9 - length path.now.steps.items))
        (context_view reader.now.context.now) reader.now.validation path.now.steps.items
        (listed_view reader.now.list) entry.now.bytes.now entry.now.rest.now
        ≡ list_wrong (context_view reader.now.context.now) (9 - length it.path.steps.items) it.validation
        it.path.steps.items (listed_view it.list))) }
    ensures deeper { IfOk result (λ inner. IfSome inner (λ it.
        (length it.path.steps.items ≡ length path.now.steps.items + 1)
        × (length it.path.steps.items ≤ 9))) }
{
    let inside = path.then(reader.step(entry));
    match reader.found(entry) {
        Err(wrong) => Err(violation_at(reader.context.table, inside, wrong)),
        Ok(None) => Ok(None),
        Ok(Some((validation, list))) => {
            if inside.steps().len() == MAX_DEPTH {
                return Err(violation_at(reader.context.table, inside, Wrong::Deep));
            }
            Ok(Some(Inner {
                path: inside,
                validation,
                list,
            }))
        }
    }
}

/// The violation of bytes behind the entries of a list.
fn rest_violation<'w, 't>(
    reader: &Reader<'_, 'w, 't, '_>,
    path: Path,
    bytes: &[u8],
) -> Option<Violation<'w, 't>>
    ensures { option_map violation_view result ≡ rest_wrong reader.now.validation
        (listed_view reader.now.list) path.steps.items bytes.now }
{
    if bytes.is_empty() {
        return None;
    }
    if reader.validation == Validation::Liberal && !reader.list.is_hops {
        return None;
    }
    let wrong = Wrong::Rest(bytes.len());
    Some(violation_at(reader.context.table, path, wrong))
}
