//! What is asked of a message, and whether the walk gives it.

ghost use Rattle.std.specs.Prelude.{◌≡◌, map, drop, take};
ghost use Rattle.neli_tables_walk.specs.Bodies.{body_items, body_view};
ghost use Rattle.neli_tables_walk.specs.Walks.{item_view};
ghost use Rattle.neli_tables_write.specs.Asked.{are_asked, asked_view, is_asked, is_found, is_field, says};

use neli_attr::AttrType;
use neli_tables_walk::{Body, Found, Item, Shape, Walk};

/// What is asked for.
#[derive(Clone, Copy, Debug, PartialEq, Eq)]
pub enum Part {
    /// An attribute with this type field, a number of 14 bits below two flags; its bytes are the payload.
    Attribute(u16),
    /// A nest with this type field; its bytes are the structure before the attributes that follow.
    Nest(u16),
    /// Hops with this type field, which follow.
    Hops(u16),
    /// A hop; its bytes are the structure before the attributes that follow. What its first two say, its length, is
    /// not looked at.
    Hop,
    /// Bytes behind the attributes of a list, which begin with none.
    Rest,
}

/// What is asked of a message, at a place of its own.
#[derive(Debug, Drop)]
pub struct Asked {
    /// How many lists it stands in, each in a nest of the one before: 1 in that of the body.
    pub lists: usize,
    /// What it is.
    pub part: Part,
    /// Its bytes.
    pub bytes: Vec<u8>,
}

/// Whether a type field is this one.
fn is_field(kind: Option<AttrType<u16>>, field: u16) -> bool
    ensures { result ≡ is_field kind field }
{
    match kind {
        Some(kind) => u16::from(kind) == field,
        None => false,
    }
}

/// The first bytes, this many; all where they are fewer.
fn front_of(bytes: &[u8], size: usize) -> &[u8]
    ensures { result.now ≡ take size bytes.now }
{
    match bytes.get(..size) {
        Some(front) => front,
        None => bytes,
    }
}

/// The bytes from this place on.
fn bytes_from(bytes: &[u8], start: usize) -> &[u8]
    ensures { result.now ≡ drop start bytes.now }
{
    match bytes.get(start..) {
        Some(rest) => rest,
        None => &[],
    }
}

/// Whether what was found is this.
fn is_found(found: &Found<'_>, part: Part, bytes: &[u8]) -> bool
    ensures { result ≡ is_found found.now.shape found.now.kind found.now.payload.now part bytes.now }
{
    match (found.shape, part) {
        (Shape::Nest(nest), Part::Nest(field)) => {
            is_field(found.kind, field) && front_of(found.payload, nest.header) == bytes
        }
        (Shape::Nest(nest), Part::Hop) => {
            found.kind.is_none()
                && bytes_from(front_of(found.payload, nest.header), 2) == bytes_from(bytes, 2)
        }
        (Shape::Hops(_), Part::Hops(field)) => is_field(found.kind, field),
        (Shape::Nest(_) | Shape::Hops(_), _) => false,
        (_, Part::Attribute(field)) => is_field(found.kind, field) && found.payload == bytes,
        _ => false,
    }
}

/// Whether an item of a walk is what is asked for.
fn is_asked(item: &Item<'_>, asked: &Asked) -> bool
    ensures { result ≡ is_asked (item_view item.now) (asked_view asked.now) }
{
    let lists = item.path.steps().len();
    match &item.content {
        Ok(found) => lists == asked.lists && is_found(found, asked.part, &asked.bytes),
        Err(rest) => {
            lists + 1 == asked.lists
                && matches!(asked.part, Part::Rest)
                && rest.bytes == &asked.bytes[..]
        }
    }
}

/// Whether the items of a walk are what is asked for, one by one.
fn are_asked(walk: Walk<'_, '_, '_>, asked: &[Asked]) -> bool
    ensures { result ≡ are_asked walk.entry (map asked_view asked.now) }
{
    let mut rest = asked;
    for item in walk {
        let [first, later @ ..] = rest else {
            return false;
        };
        if !is_asked(&item, first) {
            return false;
        }
        rest = later;
    }
    rest.is_empty()
}

/// Whether the walk over a body gives what is asked for.
pub(crate) fn says(body: &Body<'_, '_, '_>, asked: &[Asked]) -> bool
    ensures { result ≡ says (body_items (body_view body.now)) (map asked_view asked.now) }
{
    match body.walk() {
        Some(walk) => are_asked(walk, asked),
        None => asked.is_empty(),
    }
}
