//! A row of a policy, as the running kernel states it, and an attribute against it.

ghost use Rattle.std.specs.Prelude.{◌≡◌, ◌≤◌, length};
ghost use Rattle.std.specs.Option.{option_map};
ghost use Rattle.neli_tables_walk.specs.Numbers.{width_of};
ghost use Rattle.neli_tables_check.specs.Policies.{attribute_unmet, bits_unmet, flag_unmet, kind_from, kind_of};
ghost use Rattle.neli_tables_check.specs.Policies.{length_unmet, lengths_of, number_unmet, payload_unmet};
ghost use Rattle.neli_tables_check.specs.Policies.{range_unmet, ruled_in, selected_unmet, signed_in, text_unmet};
ghost use Rattle.neli_tables_check.specs.Policies.{unless_between, value_unmet, ztext_unmet};

use crate::Wrong;
use crate::cut::{is_flagged, payload_in};
use crate::diagnosis::{limit_in, limits_in, number_of};
use crate::policies::Ruled;
use crate::values::{
    BITS_SIZE, breach_wrong, is_within, least_breach, mask_wrong, nest_wrong, range_wrong,
    size_breach, unselected, zero_breach,
};
use byteorder::{ByteOrder, LittleEndian};
use neli_tables::{Kind, Span};
use neli_tables_walk::{Number, first_payload, number_in, width_of, without_zero};

/// What a row states of an attribute, by types of `enum netlink_policy_type_attr` (`linux/netlink.h`): its kind, a number
/// of `enum netlink_attribute_type`.
const TYPE: u16 = 1;

/// The least and the largest number with a sign.
const MIN_VALUE_S: u16 = 2;

const MAX_VALUE_S: u16 = 3;

/// The least and the largest length in bytes.
const MIN_LENGTH: u16 = 6;

const MAX_LENGTH: u16 = 7;

/// The policy of the attributes in a nest.
const POLICY_IDX: u16 = 8;

/// The bits of a `struct nla_bitfield32`, and of a number.
const BITFIELD32_MASK: u16 = 10;

const MASK: u16 = 12;

/// A nest, and an array of nests, of `enum netlink_attribute_type`.
const NESTED: usize = 13;

const NESTED_ARRAY: usize = 14;

/// The kind with a number of `enum netlink_attribute_type`.
fn kind_from(sort: usize) -> Option<Kind>
    ensures { result ≡ kind_from sort }
{
    Some(match sort {
        1 => Kind::Flag,
        2 => Kind::U8,
        3 => Kind::U16,
        4 => Kind::U32,
        5 => Kind::U64,
        6 => Kind::S8,
        7 => Kind::S16,
        8 => Kind::S32,
        9 => Kind::S64,
        10 => Kind::Bytes,
        11 => Kind::Text,
        12 => Kind::Ztext,
        NESTED | NESTED_ARRAY => Kind::Nest,
        15 => Kind::Bits,
        16 => Kind::Sint,
        17 => Kind::Uint,
        _ => return None,
    })
}

/// The kind of a row's attribute.
fn kind_of(row: &[u8]) -> Option<Kind>
    ensures { result ≡ kind_of row.now }
{
    kind_from(number_of(row, TYPE)?)
}

/// The lengths that a row allows.
fn lengths_of(row: &[u8]) -> Span
    ensures { result ≡ lengths_of row.now }
{
    Span {
        first: number_of(row, MIN_LENGTH).unwrap_or(0) as u64,
        last: match number_of(row, MAX_LENGTH) {
            Some(most) => most as u64,
            None => u64::MAX,
        },
    }
}

/// What the attributes in a nest are, or its elements.
pub fn ruled_in(row: &[u8]) -> Option<Ruled>
    ensures { result ≡ ruled_in row.now }
{
    let sort = number_of(row, TYPE)?;
    let policy = number_of(row, POLICY_IDX)?;
    match sort {
        NESTED => Some(Ruled::Attributes(policy)),
        NESTED_ARRAY => Some(Ruled::Elements(policy)),
        _ => None,
    }
}

/// The length that a row does not allow.
fn length_unmet(row: &[u8], size: usize) -> Option<Wrong>
    ensures { result ≡ length_unmet row.now size }
{
    let span = lengths_of(row);
    if is_within(span, size as u64) {
        None
    } else {
        Some(Wrong::Length(span))
    }
}

/// The number with a sign in eight bytes.
fn signed_in(bytes: Option<&[u8]>) -> Option<i64>
    ensures { result ≡ signed_in (option_map (λ bytes. bytes.now) bytes.entry) }
{
    let bytes = bytes?;
    let width = width_of(Kind::S64, bytes.len())?;
    number_in(width, bytes)?.signed
}

/// What is wrong with a number that is below the first or above the last.
fn unless_between(first: Option<i64>, last: Option<i64>, number: i64) -> Option<Wrong>
    ensures { result ≡ unless_between first last number }
{
    let (first, last) = (first?, last?);
    if number < first || last < number {
        Some(Wrong::Signed(first, last))
    } else {
        None
    }
}

/// The range of a row that a number is not in, where this is the number with its sign.
fn range_unmet(row: &[u8], number: Number, signed: Option<i64>) -> Option<Wrong>
    ensures { result ≡ range_unmet row.now number signed }
{
    let Some(signed) = signed else {
        return range_wrong(limits_in(row), number);
    };
    unless_between(
        signed_in(first_payload(row, MIN_VALUE_S)),
        signed_in(first_payload(row, MAX_VALUE_S)),
        signed,
    )
}

/// What a row does not allow of a number.
fn value_unmet(row: &[u8], number: Number) -> Option<Wrong>
    ensures { result ≡ value_unmet row.now number }
{
    match range_unmet(row, number, number.signed) {
        Some(wrong) => Some(wrong),
        None => mask_wrong(limit_in(first_payload(row, MASK)), number),
    }
}

/// What a row does not allow of a payload that is a number of this kind.
fn number_unmet(row: &[u8], kind: Kind, bytes: &[u8]) -> Option<Wrong>
    ensures { result ≡ number_unmet row.now (width_of (length bytes.now) kind) bytes.now }
{
    let Some(width) = width_of(kind, bytes.len()) else {
        return Some(Wrong::Unknown);
    };
    match number_in(width, bytes) {
        Some(number) => value_unmet(row, number),
        None => breach_wrong(size_breach(width.size, bytes)),
    }
}

/// The bits that a row has and a `struct nla_bitfield32` selects besides.
fn selected_unmet(row: &[u8], bytes: &[u8]) -> Option<Wrong>
    requires { 8 ≤ length bytes.now }
    ensures { result ≡ selected_unmet row.now bytes.now }
{
    let mask = number_of(row, BITFIELD32_MASK)?;
    let selected = Number {
        bits: LittleEndian::read_u32(&bytes[4..8]) as u64,
        signed: None,
    };
    mask_wrong(Some(mask as u64), selected)
}

/// What a row does not allow of a `struct nla_bitfield32`.
fn bits_unmet(row: &[u8], bytes: &[u8]) -> Option<Wrong>
    ensures { result ≡ bits_unmet row.now bytes.now }
{
    if bytes.len() != BITS_SIZE {
        return breach_wrong(size_breach(BITS_SIZE, bytes));
    }
    match unselected(bytes) {
        Some(wrong) => Some(wrong),
        None => selected_unmet(row, bytes),
    }
}

/// What a row does not allow of a text.
fn text_unmet(row: &[u8], bytes: &[u8]) -> Option<Wrong>
    ensures { result ≡ text_unmet row.now bytes.now }
{
    match breach_wrong(least_breach(1, bytes)) {
        Some(wrong) => Some(wrong),
        None => length_unmet(row, without_zero(bytes).len()),
    }
}

/// What a row does not allow of a text that ends with a zero.
fn ztext_unmet(row: &[u8], bytes: &[u8]) -> Option<Wrong>
    ensures { result ≡ ztext_unmet row.now bytes.now }
{
    match breach_wrong(zero_breach(bytes)) {
        Some(wrong) => Some(wrong),
        None => length_unmet(row, without_zero(bytes).len()),
    }
}

/// What a row does not allow of a payload, which is of this kind.
fn payload_unmet(row: &[u8], kind: Option<Kind>, bytes: &[u8]) -> Option<Wrong>
    ensures { result ≡ payload_unmet row.now kind bytes.now }
{
    let Some(kind) = kind else {
        return Some(Wrong::Unknown);
    };
    match kind {
        Kind::Flag => breach_wrong(size_breach(0, bytes)),
        Kind::Bytes => length_unmet(row, bytes.len()),
        Kind::Text => text_unmet(row, bytes),
        Kind::Ztext => ztext_unmet(row, bytes),
        Kind::Bits => bits_unmet(row, bytes),
        Kind::Nest => nest_wrong(0, bytes),
        kind => number_unmet(row, kind, bytes),
    }
}

/// What the strict parser does not allow of the flag of a nest.
fn flag_unmet(kind: Option<Kind>, flagged: bool) -> Option<Wrong>
    ensures { result ≡ flag_unmet kind flagged }
{
    match (kind, flagged) {
        (Some(Kind::Nest), false) => Some(Wrong::NotNested),
        (Some(Kind::Nest), true) => None,
        (_, true) => Some(Wrong::Nested),
        (_, false) => None,
    }
}

/// What a row does not allow of an attribute.
pub fn attribute_unmet(row: &[u8], entry: &[u8]) -> Option<Wrong>
    requires { 4 ≤ length entry.now }
    ensures { result ≡ attribute_unmet row.now entry.now }
{
    let kind = kind_of(row);
    match flag_unmet(kind, is_flagged(entry)) {
        Some(wrong) => Some(wrong),
        None => payload_unmet(row, kind, payload_in(entry)),
    }
}
