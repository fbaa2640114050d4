//! Why the kernel refused a request.

ghost use Rattle.std.specs.Prelude.{◌≡◌, ◌++◌, Some};
ghost use Rattle.std.specs.Option.{option_map};
ghost use Rattle.neli_tables_walk.specs.Bodies.{body_view};
ghost use Rattle.neli_tables_walk.specs.Controller.{first_payload};
ghost use Rattle.neli_tables_check.specs.Diagnoses.{about_text, allowed_of, allowed_text, is_value, lacking, limits_in};
ghost use Rattle.neli_tables_check.specs.Diagnoses.{limit_in, missing_of, missing_text, offset_by, payload_view};
ghost use Rattle.neli_tables_check.specs.Diagnoses.{row_in_path, sent_at, sent_in, set_at, value_by, value_of};
ghost use Rattle.neli_tables_check.specs.Diagnoses.{value_row, value_text};
ghost use Rattle.neli_tables_check.specs.Offsets.{found_at};
ghost use Rattle.neli_tables_check.specs.Refusals.{place_of, place_text, refusal_text, text_of};

use crate::cut::{entry_size, payload_in};
use crate::offset::{body_start, find};
use crate::refusal::{Refusal, offset_in};
use byteorder::{ByteOrder, LittleEndian};
use neli_consts::{ATTRIBUTE_HEADER_SIZE, NlmsgerrAttr};
use neli_tables::{Kind, Span, Table};
use neli_tables_walk::{Body, LineName, Payload, PayloadText, Shape, first_payload};
use std::fmt;

/// Attributes of an extended acknowledgement that are newer than the Rust crate (`linux/netlink.h`): the type of an
/// attribute that is missing, and the offset of the nest that lacks it.
const MISS_TYPE: u16 = 5;

const MISS_NEST: u16 = 6;

/// Of a policy the least and the largest number (`NL_POLICY_TYPE_ATTR_MIN_VALUE_U`, `.._MAX_VALUE_U`).
const MIN_VALUE: u16 = 4;

const MAX_VALUE: u16 = 5;

/// An error of the kernel by the request that it refused: in one line, as
/// `EINVAL: Invalid argument: integer out of range: IFLA_GROUP = 9999, allowed 0..4094`.
#[derive(Drop)]
pub struct Diagnosis<'b, 'r, 'w, 't> {
    /// The error, the kernel's text, and the attribute that it is about.
    pub refusal: Refusal<'b, 'w, 't>,
    /// The table of the request.
    pub table: Option<&'w Table<'t>>,
    /// The value of this attribute as it was sent; `None` of lists.
    pub value: Option<Payload<'r, 'w, 't>>,
    /// The least and the largest number that the kernel's policy allows there.
    pub allowed: Option<Span>,
    /// The place of the row of an attribute that is missing.
    pub missing: Option<usize>,
}

impl<'b, 'r, 'w, 't> Diagnosis<'b, 'r, 'w, 't> {
    /// That of the error with this number and these attributes of its acknowledgement, by which a request with this
    /// body was refused.
    pub fn of(request: &Body<'r, 'w, 't>, number: u32, attributes: &'b [u8]) -> Self
        ensures number { result.refusal.number ≡ number }
        ensures text { option_map (λ text. text.now) result.refusal.text ≡ text_of attributes.now }
        ensures place { option_map (λ place. place.path.steps.items) result.refusal.place
            ≡ place_of (body_view request.now) attributes.now }
        ensures value { option_map payload_view result.value
            ≡ value_of (body_view request.now) attributes.now }
        ensures allowed { result.allowed ≡ allowed_of attributes.now }
        ensures missing { result.missing ≡ missing_of (body_view request.now) attributes.now }
    {
        Diagnosis {
            refusal: Refusal::of(request, number, attributes),
            table: request.table,
            value: value_of(request, attributes),
            allowed: allowed_of(attributes),
            missing: missing_of(request, attributes),
        }
    }
}

/// The number in four bytes of the attribute with this number.
pub fn number_of(attributes: &[u8], number: u16) -> Option<usize>
    ensures { result ≡ offset_by (first_payload number attributes.now) }
{
    offset_in(first_payload(attributes, number)?)
}

/// The place of the row at the end of the path to an offset.
fn row_at(request: &Body<'_, '_, '_>, offset: usize) -> Option<usize>
    ensures { result ≡ row_in_path (found_at (body_view request.now) offset) }
{
    find(request, offset)?.path.steps().last()?.row
}

/// The payload of the attribute that bytes begin with.
fn sent_in(bytes: &[u8]) -> Option<&[u8]>
    ensures { option_map (λ payload. payload.now) result ≡ sent_in bytes.now }
{
    let size = entry_size(ATTRIBUTE_HEADER_SIZE, bytes)?;
    Some(payload_in(&bytes[..size]))
}

/// The payload of the attribute that begins at an offset of a request.
fn sent_at<'r>(request: &Body<'r, '_, '_>, offset: usize) -> Option<&'r [u8]>
    ensures { option_map (λ payload. payload.now) result ≡ sent_at (body_view request.now) offset }
{
    let start = body_start(request);
    if offset < start {
        return None;
    }
    sent_in(request.bytes.get(offset - start..).unwrap_or(&[]))
}

/// Whether a payload of this kind is a value, and no list.
fn is_value(kind: Option<Kind>) -> bool
    ensures { result ≡ is_value kind }
{
    !matches!(kind, None | Some(Kind::Nest | Kind::Hops | Kind::Choice))
}

/// A row whose payloads are values.
fn value_row(table: &Table<'_>, row: Option<usize>) -> Option<usize>
    ensures { result ≡ value_row table.now row }
{
    let row = row?;
    if is_value(table.options(row)?.kind) {
        Some(row)
    } else {
        None
    }
}

/// The value of the attribute at an offset of a request.
fn value_at<'r, 'w, 't>(request: &Body<'r, 'w, 't>, offset: usize) -> Option<Payload<'r, 'w, 't>>
    ensures { option_map payload_view result
        ≡ value_by (body_view request.now).0 (body_view request.now) offset }
{
    let table = request.table?;
    let place = value_row(table, row_at(request, offset))?;
    Some(Payload {
        table,
        place,
        bytes: sent_at(request, offset)?,
    })
}

/// The value of the attribute that an acknowledgement is about.
fn value_of<'r, 'w, 't>(
    request: &Body<'r, 'w, 't>,
    attributes: &[u8],
) -> Option<Payload<'r, 'w, 't>>
    ensures { option_map payload_view result ≡ value_of (body_view request.now) attributes.now }
{
    value_at(
        request,
        number_of(attributes, u16::from(NlmsgerrAttr::Offset))?,
    )
}

/// The number in eight bytes.
pub fn limit_in(bytes: Option<&[u8]>) -> Option<u64>
    ensures { result ≡ limit_in (option_map (λ bytes. bytes.now) bytes.entry) }
{
    let bytes = bytes?;
    if bytes.len() == 8 {
        Some(LittleEndian::read_u64(bytes))
    } else {
        None
    }
}

/// The numbers that the policy in an acknowledgement allows.
fn allowed_of(attributes: &[u8]) -> Option<Span>
    ensures { result ≡ allowed_of attributes.now }
{
    limits_in(first_payload(attributes, u16::from(NlmsgerrAttr::Policy))?)
}

/// The numbers that a row of a policy allows.
pub fn limits_in(row: &[u8]) -> Option<Span>
    ensures { result ≡ limits_in row.now }
{
    Some(Span {
        first: limit_in(first_payload(row, MIN_VALUE))?,
        last: limit_in(first_payload(row, MAX_VALUE))?,
    })
}

/// The set that the nest of a row has.
fn set_at(table: &Table<'_>, row: Option<usize>) -> Option<usize>
    ensures { result ≡ set_at table.now row }
{
    table.options(row?)?.of
}

/// The set of the nest at an offset, or of the body.
fn lacking(table: &Table<'_>, request: &Body<'_, '_, '_>, nest: Option<usize>) -> Option<usize>
    ensures { result ≡ lacking table.now (body_view request.now) nest }
{
    match (nest, request.shape()) {
        (Some(offset), _) => set_at(table, row_at(request, offset)),
        (None, Shape::Nest(nest)) => Some(nest.set),
        (None, _) => None,
    }
}

/// The place of the row of the attribute that is missing.
fn missing_of(request: &Body<'_, '_, '_>, attributes: &[u8]) -> Option<usize>
    ensures { result ≡ missing_of (body_view request.now) attributes.now }
{
    let table = request.table?;
    let set = lacking(table, request, number_of(attributes, MISS_NEST))?;
    table.row(set, number_of(attributes, MISS_TYPE)? as u64)
}

/// A value, after an equals sign.
#[derive(Clone, Copy)]
struct ValueText<'r, 'w, 't>(&'w Table<'t>, Option<Payload<'r, 'w, 't>>);

impl fmt::Display for ValueText<'_, '_, '_> {
    ghost output = { λ v. Some (value_text v.0.now (option_map payload_view v.1)) };

    fn fmt<W: fmt::Write>(&self, f: &mut fmt::Formatter<W>) -> fmt::Result {
        match self.1 {
            Some(payload) => {
                let value = PayloadText(Payload {
                    table: self.0,
                    place: payload.place,
                    bytes: payload.bytes,
                });
                write!(f, " ={value}")
            }
            None => Ok(()),
        }
    }
}

/// What the policy allows, after a comma.
#[derive(Clone, Copy)]
struct AllowedText(Option<Span>);

impl fmt::Display for AllowedText {
    ghost output = { λ a. Some (allowed_text a.0) };

    fn fmt<W: fmt::Write>(&self, f: &mut fmt::Formatter<W>) -> fmt::Result {
        match self.0 {
            Some(span) => {
                let (first, last) = (span.first, span.last);
                write!(f, ", allowed {first}..{last}")
            }
            None => Ok(()),
        }
    }
}

/// The attribute that is missing, after a colon.
#[derive(Clone, Copy)]
struct MissingText<'w, 't>(&'w Table<'t>, Option<usize>);

impl fmt::Display for MissingText<'_, '_> {
    ghost output = { λ m. Some (missing_text m.0.now m.1) };

    fn fmt<W: fmt::Write>(&self, f: &mut fmt::Formatter<W>) -> fmt::Result {
        match self.1 {
            Some(place) => {
                let name = LineName {
                    table: self.0,
                    place,
                };
                write!(f, ": missing {name}")
            }
            None => Ok(()),
        }
    }
}

impl fmt::Display for Diagnosis<'_, '_, '_, '_> {
    ghost output = { λ d. Some (refusal_text d.refusal.number (option_map (λ text. text.now) d.refusal.text)
        (option_map place_text d.refusal.place)
        ++ about_text (option_map (λ table. table.now) d.table) (option_map payload_view d.value) d.allowed d.missing) };

    fn fmt<W: fmt::Write>(&self, f: &mut fmt::Formatter<W>) -> fmt::Result {
        let (refusal, allowed) = (&self.refusal, AllowedText(self.allowed));
        match self.table {
            Some(table) => {
                let value = ValueText(table, self.value);
                let missing = MissingText(table, self.missing);
                write!(f, "{refusal}{value}{allowed}{missing}")
            }
            None => write!(f, "{refusal}{allowed}"),
        }
    }
}
