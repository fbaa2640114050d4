//! A payload against the line that says what it is.

ghost use Rattle.std.specs.Prelude.{◌≡◌, ◌≤◌, ◌==◌, length, take};
ghost use Rattle.std.specs.List.{position};
ghost use Rattle.neli_tables_walk.specs.Shapes.{context_view};
ghost use Rattle.neli_tables_check.specs.Parsers.{bits_wrong, breach_wrong, family_breach, flag_wrong};
ghost use Rattle.neli_tables_check.specs.Parsers.{form_wrong, is_flat, is_outside, is_within, kind_wrong, least_breach};
ghost use Rattle.neli_tables_check.specs.Parsers.{length_wrong, mask_wrong, nest_wrong, pad_wrong, place_wrong};
ghost use Rattle.neli_tables_check.specs.Parsers.{range_wrong, shape_flag_wrong, shape_wrong, taken_by};
ghost use Rattle.neli_tables_check.specs.Parsers.{text_length, unselected, values_wrong, zero_breach};
ghost use Rattle.neli_tables_walk.specs.Breaches.{size_breach};

use crate::{Validation, Wrong};
use byteorder::{ByteOrder, LittleEndian};
use neli_tables::{Kind, Options, Span, Word};
use neli_tables_walk::{
    Breach, Context, Number, Payload, Shape, breach_of, number_in, width_of, without_zero,
};

/// The families of addresses of 4 and of 16 bytes (`AF_INET`, `AF_INET6` of `linux/socket.h`).
const INET: u8 = 2;

const INET6: u8 = 10;

/// The size of a `struct nla_bitfield32`.
pub const BITS_SIZE: usize = 8;

/// The size of a `struct sockaddr_in`, the shorter one.
const SOCKET_SIZE: usize = 16;

/// What a parser does not allow of a payload of this shape.
pub fn shape_wrong(
    validation: Validation,
    context: &Context<'_, '_>,
    shape: Shape,
    bytes: &[u8],
) -> Option<Wrong>
    ensures { result ≡ shape_wrong validation (context_view context.now) shape bytes.now }
{
    match shape {
        Shape::Row(place) => place_wrong(validation, context, place, bytes),
        Shape::Nest(nest) => nest_wrong(nest.header, bytes),
        Shape::Short(nest) => Some(Wrong::Kind(Breach::Shorter(nest.header))),
        _ => None,
    }
}

/// What a nest lacks that has bytes, but not the header of an attribute.
pub fn nest_wrong(header: usize, bytes: &[u8]) -> Option<Wrong>
    ensures { result ≡ nest_wrong header bytes.now }
{
    if header == 0 && 0 < bytes.len() {
        breach_wrong(least_breach(4, bytes))
    } else {
        None
    }
}

/// What the line at this place does not allow.
fn place_wrong(
    validation: Validation,
    context: &Context<'_, '_>,
    place: usize,
    bytes: &[u8],
) -> Option<Wrong>
    ensures { result ≡ place_wrong validation (context_view context.now) place bytes.now }
{
    let options = context.table.options(place)?;
    let breach = breach_of(&Payload {
        table: context.table,
        place,
        bytes,
    });
    if let Some(wrong) = form_wrong(validation, context.family, options, breach, bytes) {
        return Some(wrong);
    }
    match length_wrong(options, bytes) {
        Some(wrong) => Some(wrong),
        None => values_wrong(options, bytes),
    }
}

/// How a payload is not as its options say, where this is how it cannot be printed so.
fn form_wrong(
    validation: Validation,
    family: u8,
    options: &Options,
    breach: Option<Breach>,
    bytes: &[u8],
) -> Option<Wrong>
    ensures { result ≡ form_wrong validation family options.now breach bytes.now }
{
    if options.array {
        breach_wrong(breach)
    } else {
        kind_wrong(validation, family, options.kind, breach, bytes)
    }
}

/// The same by its kind.
fn kind_wrong(
    validation: Validation,
    family: u8,
    kind: Option<Kind>,
    breach: Option<Breach>,
    bytes: &[u8],
) -> Option<Wrong>
    ensures { result ≡ kind_wrong validation family kind breach bytes.now }
{
    match kind {
        Some(Kind::Text) => breach_wrong(least_breach(1, bytes)),
        Some(Kind::Ztext) => breach_wrong(zero_breach(bytes)),
        Some(Kind::Address) => breach_wrong(taken_by(validation, family_breach(family, bytes))),
        Some(Kind::Sockaddr) => breach_wrong(least_breach(SOCKET_SIZE, bytes)),
        Some(Kind::Bits) => bits_wrong(breach, bytes),
        Some(Kind::Pad) => pad_wrong(validation),
        Some(Kind::Flag | Kind::Uint | Kind::Sint) => breach_wrong(breach),
        _ => breach_wrong(taken_by(validation, breach)),
    }
}

/// What a parser refuses of this: the liberal one takes a payload that is too long.
fn taken_by(validation: Validation, breach: Option<Breach>) -> Option<Breach>
    ensures { result ≡ taken_by validation breach }
{
    match (validation, breach) {
        (Validation::Liberal, Some(Breach::Longer(_))) => None,
        _ => breach,
    }
}

/// What is wrong with a payload that cannot be of its kind.
pub fn breach_wrong(breach: Option<Breach>) -> Option<Wrong>
    ensures { result ≡ breach_wrong breach }
{
    match breach {
        Some(breach) => Some(Wrong::Kind(breach)),
        None => None,
    }
}

/// How bytes are fewer than these.
pub fn least_breach(size: usize, bytes: &[u8]) -> Option<Breach>
    ensures { result ≡ least_breach size bytes.now }
{
    if bytes.len() < size {
        Some(Breach::Shorter(size))
    } else {
        None
    }
}

/// How bytes are not of this size.
pub fn size_breach(size: usize, bytes: &[u8]) -> Option<Breach>
    ensures { result ≡ size_breach size bytes.now }
{
    if size < bytes.len() {
        Some(Breach::Longer(size))
    } else {
        least_breach(size, bytes)
    }
}

/// How bytes are no address of a family.
fn family_breach(family: u8, bytes: &[u8]) -> Option<Breach>
    ensures { result ≡ family_breach family bytes.now }
{
    match family {
        INET => size_breach(4, bytes),
        INET6 => size_breach(16, bytes),
        _ => None,
    }
}

/// How bytes are no text with a zero.
pub fn zero_breach(bytes: &[u8]) -> Option<Breach>
    ensures { result ≡ zero_breach bytes.now }
{
    match zero_in(bytes) {
        Some(_) => None,
        None => Some(Breach::NoZero),
    }
}

/// The index of the first zero.
fn zero_in(bytes: &[u8]) -> Option<usize>
    ensures { result ≡ position (λ b. b == 0) bytes.now }
{
    bytes.iter().position(|byte| *byte == 0)
}

/// What is wrong with bits, where they may be no `struct nla_bitfield32`.
fn bits_wrong(breach: Option<Breach>, bytes: &[u8]) -> Option<Wrong>
    ensures { result ≡ bits_wrong breach bytes.now }
{
    match breach {
        Some(breach) => Some(Wrong::Kind(breach)),
        None if bytes.len() == BITS_SIZE => unselected(bytes),
        None => None,
    }
}

/// What is wrong with bits, behind which those stand that they select.
pub fn unselected(bytes: &[u8]) -> Option<Wrong>
    requires { 8 ≤ length bytes.now }
    ensures { result ≡ unselected bytes.now }
{
    let bits = LittleEndian::read_u32(&bytes[..4]);
    let selected = LittleEndian::read_u32(&bytes[4..8]);
    if bits & selected == bits {
        None
    } else {
        Some(Wrong::Unselected)
    }
}

/// What a parser makes of bytes without a meaning.
fn pad_wrong(validation: Validation) -> Option<Wrong>
    ensures { result ≡ pad_wrong validation }
{
    match validation {
        Validation::Strict => Some(Wrong::Unknown),
        Validation::Liberal => None,
    }
}

/// How many bytes count as the length of a payload.
fn text_length(kind: Option<Kind>, bytes: &[u8]) -> usize
    ensures { result ≡ text_length kind bytes.now }
{
    match kind {
        Some(Kind::Text | Kind::Ztext) => without_zero(bytes).len(),
        _ => bytes.len(),
    }
}

/// Whether a number is from the first to the last of these.
pub fn is_within(span: Span, number: u64) -> bool
    ensures { result ≡ is_within span number }
{
    span.first <= number && number <= span.last
}

/// The length that options do not allow.
pub fn length_wrong(options: &Options, bytes: &[u8]) -> Option<Wrong>
    ensures { result ≡ length_wrong options.now bytes.now }
{
    let span = options.length?;
    if is_within(span, text_length(options.kind, bytes) as u64) {
        None
    } else {
        Some(Wrong::Length(span))
    }
}

/// At most so many bytes, those at the front.
fn first_of(size: usize, bytes: &[u8]) -> &[u8]
    ensures { result.now ≡ take size bytes.now }
{
    if size < bytes.len() {
        &bytes[..size]
    } else {
        bytes
    }
}

/// What options do not allow of the number that a payload is.
fn values_wrong(options: &Options, bytes: &[u8]) -> Option<Wrong>
    ensures { result ≡ values_wrong options.now bytes.now }
{
    if options.array {
        return None;
    }
    let width = width_of(options.kind?, bytes.len())?;
    let number = number_in(width, first_of(width.size, bytes))?;
    match range_wrong(options.range, number) {
        Some(wrong) => Some(wrong),
        None => mask_wrong(options.mask, number),
    }
}

/// The range that a number is not in.
pub fn range_wrong(range: Option<Span>, number: Number) -> Option<Wrong>
    ensures { result ≡ range_wrong range number }
{
    let span = range?;
    if is_outside(span, number) {
        Some(Wrong::Range(span))
    } else {
        None
    }
}

/// The mask that a number has other bits than.
pub fn mask_wrong(mask: Option<u64>, number: Number) -> Option<Wrong>
    ensures { result ≡ mask_wrong mask number }
{
    let mask = mask?;
    if number.bits & mask == number.bits {
        None
    } else {
        Some(Wrong::Mask(mask))
    }
}

/// Whether a number is not from the first to the last of these.
fn is_outside(span: Span, number: Number) -> bool
    ensures { result ≡ is_outside span number }
{
    match number.signed {
        Some(signed) if signed < 0 => true,
        _ => !is_within(span, number.bits),
    }
}

/// Whether a policy says of a kind that it is no nest.
fn is_flat(kind: Option<Kind>) -> bool
    ensures { result ≡ is_flat kind }
{
    match kind {
        None | Some(Kind::Nest | Kind::Hops | Kind::Choice | Kind::Bytes | Kind::Pad) => false,
        Some(_) => true,
    }
}

/// What a parser does not allow of an attribute with the flag of a nest, or without.
pub fn flag_wrong(
    validation: Validation,
    word: Word,
    kind: Option<Kind>,
    shape: Shape,
    flagged: bool,
) -> Option<Wrong>
    ensures { result ≡ flag_wrong validation word kind shape flagged }
{
    match (validation, word) {
        (Validation::Strict, Word::Attr) => shape_flag_wrong(kind, shape, flagged),
        _ => None,
    }
}

/// The same of the strict parser.
fn shape_flag_wrong(kind: Option<Kind>, shape: Shape, flagged: bool) -> Option<Wrong>
    ensures { result ≡ shape_flag_wrong kind shape flagged }
{
    match shape {
        Shape::Nest(nest) if nest.header == 0 && !flagged => Some(Wrong::NotNested),
        Shape::Nest(_) => None,
        _ if flagged && is_flat(kind) => Some(Wrong::Nested),
        _ => None,
    }
}
