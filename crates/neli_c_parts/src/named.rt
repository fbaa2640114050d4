//! The items of a walk by name, as C has them.

ghost use Rattle.std.specs.Prelude.{◌≡◌, ◌+◌, ◌<◌, ◌≤◌, [], ◌∷◌, ◌++◌, IfOk, OnErr, OnOk, Some, length};
ghost use Rattle.neli_wire.specs.Sizes.{align};
ghost use Rattle.neli_tables_walk.specs.Found.{front_of};
ghost use Rattle.neli_tables_walk.specs.Shapes.{context_view, kind_at};
ghost use Rattle.neli_tables_walk.specs.Walks.{item_view, sort_in};
ghost use Rattle.neli_tables_check.specs.Paths.{path_text};
ghost use Rattle.neli_c_parts.specs.NamedItems.{begin_at, begins_after, begins_behind, element_number};
ghost use Rattle.neli_c_parts.specs.NamedItems.{element_named, found_view, inner_begin, item_at};
ghost use Rattle.neli_c_parts.specs.NamedItems.{item_named, item_text, items_from, items_text};
ghost use Rattle.neli_c_parts.specs.NamedItems.{kind_number, kind_or_none, listed, named_items};
ghost use Rattle.neli_c_parts.specs.NamedItems.{named_text, number_of, shape_number, value_json};
ghost use Rattle.neli_c_parts.specs.NamedItems.{with_texts};
ghost use Rattle.neli_c_parts.specs.Rooms.{put_at};

use crate::room::{TooLong, write_text_at};
use arrayvec::ArrayVec;
use neli_attr::AttrType;
use neli_consts::ATTRIBUTE_HEADER_SIZE;
use neli_tables::{Kind, Table, options_of};
use neli_tables_check::PathText;
use neli_tables_walk::{
    BytesJson, Context, Found, Item, MAX_DEPTH, Nest, Path, Payload, PayloadJson, Shape, Walk,
};
use neli_wire::alignto;
use std::fmt;

/// No row says what the bytes are.
pub const NONE: u8 = 0;
/// A structure with attributes.
pub const HOP: u8 = 32;
/// Less than the structure that a nest begins with.
pub const SHORT: u8 = 33;
/// A nest in as many lists as a walk enters.
pub const DEEP: u8 = 34;
/// What is left of a list behind its attributes.
pub const REST: u8 = 35;

/// An attribute, a hop, or what is left of a list behind its attributes.
#[repr(C)]
#[derive(Clone, Copy)]
pub struct NeliNamed {
    /// The number of an attribute; 0 of a hop and of what is left.
    pub number: u16,
    /// What it is, by `enum neli_kind` of `include/neli.h`.
    pub kind: u8,
    /// In how many lists it is: 1 in the body's own.
    pub depth: u8,
    /// The place of its payload.
    pub payload: usize,
    /// How many bytes that has.
    pub payload_length: usize,
    /// The place of its path among the texts.
    pub path: usize,
    /// How long that is.
    pub path_length: usize,
    /// The place of its value in JSON.
    pub value: usize,
    /// How long that is.
    pub value_length: usize,
}

/// The number of a kind.
fn kind_number(kind: Kind) -> u8
    ensures { result ≡ kind_number kind }
{
    match kind {
        Kind::Flag => 1,
        Kind::U8 => 2,
        Kind::U16 => 3,
        Kind::U32 => 4,
        Kind::U64 => 5,
        Kind::S8 => 6,
        Kind::S16 => 7,
        Kind::S32 => 8,
        Kind::S64 => 9,
        Kind::Be16 => 10,
        Kind::Be32 => 11,
        Kind::Be64 => 12,
        Kind::Sbe32 => 13,
        Kind::Uint => 14,
        Kind::Sint => 15,
        Kind::Text => 16,
        Kind::Ztext => 17,
        Kind::Hardware => 18,
        Kind::Ipv4 => 19,
        Kind::Ipv6 => 20,
        Kind::Ip => 21,
        Kind::Address => 22,
        Kind::Sockaddr => 23,
        Kind::Uuid => 24,
        Kind::Bits => 25,
        Kind::Struct => 26,
        Kind::Nest => 27,
        Kind::Hops => 28,
        Kind::Choice => 29,
        Kind::Bytes => 30,
        Kind::Pad => 31,
    }
}

/// The number of the kind that the line at this place says; 0 where it says none.
fn kind_at(table: &Table<'_>, place: usize) -> u8
    ensures { result ≡ kind_or_none (kind_at table.now place) }
{
    let Some(line) = table.line(place) else {
        return NONE;
    };
    match options_of(line).kind {
        Some(kind) => kind_number(kind),
        None => NONE,
    }
}

/// The number of what a payload is.
fn shape_number(table: &Table<'_>, shape: &Shape) -> u8
    ensures { result ≡ shape_number table.now shape.now }
{
    match shape {
        Shape::Row(place) => kind_at(table, *place),
        Shape::Nest(_) => kind_number(Kind::Nest),
        Shape::Hops(_) => kind_number(Kind::Hops),
        Shape::Bytes => NONE,
        Shape::Short(_) => SHORT,
        Shape::Deep(_) => DEEP,
    }
}

/// Where the next elements begin of the lists that are open, the outermost first.
type Begins = ArrayVec<usize, MAX_DEPTH>;

/// Where the next element of the list in so many others begins.
fn begin_at(begins: &Begins, depth: usize) -> usize
    ensures { result ≡ begin_at begins.now.items depth }
{
    begins.as_slice().get(depth).copied().unwrap_or(0)
}

/// The bytes before an element's payload: the header of an attribute, none of a hop.
fn front_of(kind: &Option<AttrType<u16>>) -> usize
    ensures { result ≡ front_of kind.now }
{
    match kind {
        Some(_) => ATTRIBUTE_HEADER_SIZE,
        None => 0,
    }
}

/// A size rounded up to four.
fn aligned(size: usize) -> Result<usize, TooLong>
    ensures ok { IfOk result (λ n. n ≡ align size) }
    ensures refused { OnErr result (usize.MAX < size + 3) }
{
    if usize::MAX - 3 < size {
        return Err(TooLong);
    }
    Ok(alignto(size))
}

/// A place so many bytes further on.
fn further(place: usize, size: usize) -> Result<usize, TooLong>
    ensures ok { IfOk result (λ n. n ≡ place + size) }
    ensures refused { OnErr result (usize.MAX < place + size) }
{
    place.checked_add(size).ok_or(TooLong)
}

/// Where the elements of the list begin that a payload at this place is, if it is one.
fn inner_begin(shape: &Shape, place: usize) -> Result<Option<usize>, TooLong>
    ensures { IfOk result (λ begin. inner_begin (sort_in shape.now) place ≡ listed begin) }
{
    match shape {
        Shape::Nest(nest) => Ok(Some(further(place, aligned(nest.header)?)?)),
        Shape::Hops(_) => Ok(Some(place)),
        _ => Ok(None),
    }
}

/// Puts a place behind the others, if there is room.
fn push(begins: &mut Begins, place: usize) -> Result<(), TooLong>
    ensures ok { OnOk result (begins.new.items ≡ begins.old.items ++ place ∷ []) }
    ensures refused { OnErr result (MAX_DEPTH ≤ length begins.old.items) }
{
    match begins.try_push(place) {
        Ok(()) => Ok(()),
        Err(_) => Err(TooLong),
    }
}

/// Goes past an element of the list in so many others, and into the list that it is.
fn go_behind(begins: &mut Begins, depth: usize, found: &Found<'_>) -> Result<(), TooLong>
    ensures { OnOk result (begins.new.items
        ≡ begins_behind begins.old.items depth (found_view found.now)) }
{
    let begin = begin_at(begins, depth);
    let front = front_of(&found.kind);
    let size = aligned(further(front, found.payload.len())?)?;
    let inner = inner_begin(&found.shape, further(begin, front)?)?;
    begins.truncate(depth);
    push(begins, further(begin, size)?)?;
    match inner {
        Some(place) => push(begins, place),
        None => Ok(()),
    }
}

/// Goes past an item.
fn go_past(begins: &mut Begins, item: &Item<'_>) -> Result<(), TooLong>
    ensures { OnOk result (begins.new.items ≡ begins_after begins.old.items (item_view item.now)) }
{
    match &item.content {
        Ok(found) => go_behind(begins, item.path.steps().len().saturating_sub(1), found),
        Err(_) => Ok(()),
    }
}

/// The number of an attribute; 0 of a hop.
fn number_of(kind: &Option<AttrType<u16>>) -> u16
    ensures { result ≡ number_of kind.now }
{
    match kind {
        Some(kind) => *kind.nla_type(),
        None => 0,
    }
}

/// The number of what an element is.
fn element_number(table: &Table<'_>, found: &Found<'_>) -> u8
    ensures { result ≡ element_number table.now found.now.kind found.now.shape }
{
    match found.kind {
        Some(_) => shape_number(table, &found.shape),
        None => HOP,
    }
}

/// An attribute or a hop in so many lists.
fn element_named(
    table: &Table<'_>,
    begins: &Begins,
    depth: u8,
    found: &Found<'_>,
) -> Result<NeliNamed, TooLong>
    ensures { IfOk result (λ named. named
        ≡ element_named table.now begins.now.items depth (found_view found.now)) }
{
    let begin = begin_at(begins, depth.saturating_sub(1) as usize);
    Ok(NeliNamed {
        number: number_of(&found.kind),
        kind: element_number(table, found),
        depth,
        payload: further(begin, front_of(&found.kind))?,
        payload_length: found.payload.len(),
        path: 0,
        path_length: 0,
        value: 0,
        value_length: 0,
    })
}

/// How many steps a path has.
fn depth_of(path: &Path) -> Result<u8, TooLong>
    ensures ok { IfOk result (λ depth. (depth ≡ length path.now.steps.items) × (depth < 255)) }
    ensures refused { OnErr result (255 ≤ length path.now.steps.items) }
{
    let depth = path.steps().len();
    if depth < 255 {
        Ok(depth as u8)
    } else {
        Err(TooLong)
    }
}

/// An item, as C has it but for its texts.
fn item_named(table: &Table<'_>, begins: &Begins, item: &Item<'_>) -> Result<NeliNamed, TooLong>
    ensures { IfOk result
        (λ named. named ≡ item_named table.now begins.now.items (item_view item.now)) }
{
    let depth = depth_of(&item.path)?;
    match &item.content {
        Ok(found) => element_named(table, begins, depth, found),
        Err(rest) => Ok(NeliNamed {
            number: 0,
            kind: REST,
            depth: depth + 1,
            payload: begin_at(begins, depth as usize),
            payload_length: rest.bytes.len(),
            path: 0,
            path_length: 0,
            value: 0,
            value_length: 0,
        }),
    }
}

/// An item with its texts, a path of so many bytes at a place and behind it a value of so many.
fn with_texts(
    shown: NeliNamed,
    path: usize,
    path_length: usize,
    value_length: usize,
) -> Result<NeliNamed, TooLong>
    ensures ok { IfOk result (λ named. named ≡ with_texts shown path path_length value_length) }
    ensures refused { OnErr result (usize.MAX < path + path_length) }
{
    let mut named = shown;
    named.path = path;
    named.path_length = path_length;
    named.value = further(path, path_length)?;
    named.value_length = value_length;
    Ok(named)
}

/// Writes an item's path into bytes from a place on, and its value behind that; returns how long
/// each is.
#[tactic(auto, using(crate::proofs::Parts::put_both))]
fn write_texts(
    table: &Table<'_>,
    item: &Item<'_>,
    out: &mut [u8],
    place: usize,
) -> Result<(usize, usize), TooLong>
    ensures path { IfOk result
        (λ sizes. sizes.0 ≡ length (path_text table.now item.now.path.steps.items)) }
    ensures value { IfOk result
        (λ sizes. sizes.1 ≡ length (value_json table.now (item_view item.now))) }
    ensures text { OnOk result
        (out.new ≡ put_at place (item_text table.now (item_view item.now)) out.old) }
{
    let path = PathText {
        table,
        steps: item.path.steps(),
    };
    let behind = write_text_at(path, out, place)?;
    let end = write_text_at(ItemValue { table, item }, out, behind)?;
    Ok((behind - place, end - behind))
}

/// Puts an item at its index, if there is room.
#[tactic(auto, using(crate::proofs::Parts::put_stored, crate::proofs::Parts::put_past))]
fn put_item(items: &mut [NeliNamed], index: usize, item: NeliNamed)
    ensures { items.new ≡ put_at index (item ∷ []) items.old }
{
    if index < items.len() {
        items[index] = item;
    }
}

/// What a walk has stored: how many items there are, and how long their texts are. What has no room
/// is counted alone.
#[derive(Clone, Copy)]
pub struct Stored {
    /// How many items.
    pub count: usize,
    /// How many bytes of text.
    pub size: usize,
}

/// Stores an item behind others, and its texts behind theirs, and goes past it.
#[tactic(auto, using(crate::proofs::Parts::long_both))]
fn store(
    table: &Table<'_>,
    begins: &mut Begins,
    item: &Item<'_>,
    stored: Stored,
    items: &mut [NeliNamed],
    out: &mut [u8],
) -> Result<Stored, TooLong>
    ensures begins { OnOk result
        (begins.new.items ≡ begins_after begins.old.items (item_view item.now)) }
    ensures items { OnOk result (items.new ≡ put_at stored.count
        (item_at table.now begins.old.items stored.size (item_view item.now) ∷ []) items.old) }
    ensures text { OnOk result
        (out.new ≡ put_at stored.size (item_text table.now (item_view item.now)) out.old) }
    ensures count { IfOk result (λ next. next.count ≡ stored.count + 1) }
    ensures size { IfOk result
        (λ next. next.size ≡ stored.size + length (item_text table.now (item_view item.now))) }
{
    let shown = item_named(table, begins, item)?;
    let (path, value) = write_texts(table, item, out, stored.size)?;
    let named = with_texts(shown, stored.size, path, value)?;
    put_item(items, stored.count, named);
    go_past(begins, item)?;
    Ok(Stored {
        count: further(stored.count, 1)?,
        size: further(further(stored.size, path)?, value)?,
    })
}

/// Stores the items of a walk, of which the first element begins at this place, and their texts.
fn store_all(
    table: &Table<'_>,
    walk: Walk<'_, '_, '_>,
    start: usize,
    items: &mut [NeliNamed],
    out: &mut [u8],
) -> Result<Stored, TooLong>
    ensures items { OnOk result
        (items.new ≡ put_at 0 (items_from table.now (start ∷ []) 0 walk.entry) items.old) }
    ensures text { OnOk result (out.new ≡ put_at 0 (items_text table.now walk.entry) out.old) }
    ensures count { IfOk result
        (λ stored. stored.count ≡ length (items_from table.now (start ∷ []) 0 walk.entry)) }
    ensures size { IfOk result
        (λ stored. stored.size ≡ length (items_text table.now walk.entry)) }
{
    let mut walk = walk;
    let mut begins = ArrayVec::new();
    begins.push(start);
    let mut stored = Stored { count: 0, size: 0 };
    while let Some(item) = walk.next() {
        stored = store(table, &mut begins, &item, stored, items, out)?;
    }
    Ok(stored)
}

/// Stores the items of a walk over a body at this place, and writes their paths and values, as many
/// as there is room for; returns how many there are in all, and how long their texts are.
pub fn named_items(
    context: Context<'_, '_>,
    nest: Nest,
    bytes: &[u8],
    place: usize,
    items: &mut [NeliNamed],
    out: &mut [u8],
) -> Result<Stored, TooLong>
    ensures items { OnOk result (items.new ≡ put_at 0
        (named_items (context_view context.entry) nest bytes.now place) items.old) }
    ensures text { OnOk result
        (out.new ≡ put_at 0 (named_text (context_view context.entry) nest bytes.now) out.old) }
    ensures count { IfOk result (λ stored. stored.count
        ≡ length (named_items (context_view context.entry) nest bytes.now place)) }
    ensures size { IfOk result (λ stored. stored.size
        ≡ length (named_text (context_view context.entry) nest bytes.now)) }
{
    let start = further(place, aligned(nest.header)?)?;
    store_all(
        context.table,
        Walk::new(context, nest, bytes),
        start,
        items,
        out,
    )
}

/// The value of an item in JSON: by the line that says what it is, or else its bytes.
#[derive(Clone, Copy)]
struct ItemValue<'i, 'b, 'w, 't> {
    /// The table of the walk.
    table: &'w Table<'t>,
    /// The item.
    item: &'i Item<'b>,
}

impl fmt::Display for ItemValue<'_, '_, '_, '_> {
    ghost output = { λ v. Some (value_json v.table.now (item_view v.item.now)) };

    fn fmt<W: fmt::Write>(&self, f: &mut fmt::Formatter<W>) -> fmt::Result {
        match &self.item.content {
            Ok(found) => match found.shape {
                Shape::Row(place) => {
                    let value = PayloadJson(Payload {
                        table: self.table,
                        place,
                        bytes: found.payload,
                    });
                    write!(f, "{value}")
                }
                _ => {
                    let value = BytesJson(found.payload);
                    write!(f, "{value}")
                }
            },
            Err(rest) => {
                let value = BytesJson(rest.bytes);
                write!(f, "{value}")
            }
        }
    }
}
