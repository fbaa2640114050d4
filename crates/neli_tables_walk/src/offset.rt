//! The attribute at an offset.

ghost use Rattle.std.specs.Prelude.{◌≡◌, ◌<◌, ◌≤◌, [], MatchOption, Some};
ghost use Rattle.std.specs.Option.{option_map};
ghost use Rattle.neli_tables_walk.specs.Elements.{element_view, elements_of};
ghost use Rattle.neli_tables_walk.specs.Found.{containing, element_size, front_of, list_start};
ghost use Rattle.neli_tables_walk.specs.Found.{path_at};
ghost use Rattle.neli_tables_walk.specs.Found.{path_from, place_from, place_view, place_with};
ghost use Rattle.neli_tables_walk.specs.Found.{some_steps, step_at};
ghost use Rattle.neli_tables_walk.specs.Shapes.{context_view, listed_view, onto};
ghost use Rattle.neli_tables_walk.specs.Walks.{list_of};

use crate::element::{Element, take_element};
use crate::level::{Level, Listed, MAX_DEPTH, Sort};
use crate::levels::{Levels, listed_bytes, nested_bytes, sort_of};
use crate::{Context, Nest, Path, Shape, Step};
use arrayvec::ArrayVec;
use neli_consts::ATTRIBUTE_HEADER_SIZE;
use neli_wire::alignto;

/// An offset in a list.
#[derive(Clone, Copy, Debug)]
pub(crate) struct Place<'b> {
    /// The list.
    pub list: Listed<'b>,
    /// The offset from its first byte.
    pub offset: usize,
}

/// The path to the attribute or the hop that contains an offset, its header and its padding
/// included: of nests the innermost, of ten at most. The offset counts from the first byte of a
/// body that is a structure and attributes. `None` where no attribute is there.
pub fn find(context: Context<'_, '_>, nest: Nest, body: &[u8], offset: usize) -> Option<Path>
    ensures { option_map (λ path. path.steps.items) result
        ≡ path_at (context_view context.entry) nest body.now offset }
{
    let sort = Sort {
        nest,
        is_hops: false,
    };
    let bytes = nested_bytes(&nest, body);
    path_from(context, place_from(Listed { sort, bytes }, offset)?)
}

/// The path to this place in a list that stands in no other.
fn path_from(context: Context<'_, '_>, place: Place<'_>) -> Option<Path>
    ensures { option_map (λ path. path.steps.items) result
        ≡ path_from (context_view context.entry) (Some (place_view place.entry)) }
{
    let mut levels = Levels {
        context,
        open: ArrayVec::new(),
    };
    let mut steps = ArrayVec::new();
    let mut place = place;
    while !steps.is_full() {
        let Some((step, inner)) = step_at(&levels, &place) else {
            return some_path(steps);
        };
        steps.push(step);
        let Some(next) = inner else {
            return some_path(steps);
        };
        levels.open.push(Level {
            list: place.list,
            rest: &[],
            inside: step,
        });
        place = next;
    }
    some_path(steps)
}

/// A path of these steps, if there are any.
fn some_path(steps: ArrayVec<Step, MAX_DEPTH>) -> Option<Path>
    ensures { option_map (λ path. path.steps.items) result ≡ some_steps steps.items }
{
    if steps.is_empty() {
        None
    } else {
        Some(Path { steps })
    }
}

/// The step to a place in these lists, and the same place in the list that it leads into.
fn step_at<'b>(levels: &Levels<'b, '_, '_>, place: &Place<'b>) -> Option<(Step, Option<Place<'b>>)>
    ensures { option_map (λ s. (s.0, option_map place_view s.1)) result
        ≡ step_at (context_view levels.now.context) (onto levels.now.open.items [])
        (place_view place.now) }
{
    let (element, offset) = element_at(&place.list, place.offset)?;
    let step = levels.step_of(&place.list, &element);
    let shape = levels.shape_of(&place.list, &step, &element);
    Some((step, place_in(&element, shape, offset)))
}

/// The same place in the list that an element is, if it is one.
fn place_in<'b>(element: &Element<'b>, shape: Shape, offset: usize) -> Option<Place<'b>>
    ensures { option_map place_view result
        ≡ place_with (element_view element.now) offset (list_of shape element.now.payload.now) }
{
    let sort = sort_of(&shape)?;
    let front = front_of(element);
    if offset < front {
        return None;
    }
    let bytes = listed_bytes(&sort, element.payload);
    place_from(Listed { sort, bytes }, offset - front)
}

/// The same place from a list's first byte, where its payload has it at an offset.
fn place_from(list: Listed<'_>, offset: usize) -> Option<Place<'_>>
    ensures { option_map place_view result ≡ place_from (listed_view list.entry) offset }
{
    let start = list_start(&list.sort)?;
    if offset < start {
        return None;
    }
    Some(Place {
        list,
        offset: offset - start,
    })
}

/// The offset of a list in its payload; `None` past every one.
fn list_start(sort: &Sort) -> Option<usize>
    ensures { MatchOption result (usize.MAX < list_start sort.now)
        (λ start. start ≡ list_start sort.now) }
{
    if sort.is_hops {
        return Some(0);
    }
    if usize::MAX - 3 < sort.nest.header {
        return None;
    }
    Some(alignto(sort.nest.header))
}

/// The element that contains an offset, and the offset from its first byte.
fn element_at<'b>(list: &Listed<'b>, offset: usize) -> Option<(Element<'b>, usize)>
    ensures { option_map (λ r. (element_view r.0, r.1)) result
        ≡ containing offset (elements_of list.now.sort list.now.bytes.now).0 }
{
    let mut rest = list.bytes;
    let mut offset = offset;
    while let Ok((element, later)) = take_element(&list.sort, rest) {
        let size = element_size(&element);
        if offset < size {
            return Some((element, offset));
        }
        offset -= size;
        rest = later;
    }
    None
}

/// How many bytes stand before an element's payload.
fn front_of(element: &Element<'_>) -> usize
    ensures value { result ≡ front_of (element_view element.now).0 }
    ensures few { result ≤ 4 }
{
    match element.kind {
        Some(_) => ATTRIBUTE_HEADER_SIZE,
        None => 0,
    }
}

/// How many bytes an element takes in its list.
fn element_size(element: &Element<'_>) -> usize
    ensures { result ≡ element_size (element_view element.now) }
{
    alignto(front_of(element) + element.payload.len())
}
