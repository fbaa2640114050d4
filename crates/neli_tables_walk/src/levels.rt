//! The lists that a walk is in.

ghost use Rattle.std.specs.Prelude.{ℕ, ◌≡◌, ◌≢◌, ◌-◌, ◌<◌, ◌≤◌, List, [], ◌∷◌, ◌++◌, Ok, Err, None};
ghost use Rattle.std.specs.Prelude.{Some, IfSome, IsNone, length, map, take};
ghost use Rattle.std.specs.Option.{option_map};
ghost use Rattle.arrayvec.specs.ArrayVec.{array_vec_len};
ghost use Rattle.neli_tables_walk.specs.declared.level.Level.{Level};
ghost use Rattle.neli_tables_walk.specs.declared.shape.Shape.TheVariants.{Row};
ghost use Rattle.neli_tables_walk.specs.Elements.{element_at, element_view};
ghost use Rattle.neli_tables_walk.specs.Shapes.{context_view, listed_view, onto};
ghost use Rattle.neli_tables_walk.specs.Visited.{item_at, next_at, parts_of, visit_view, visited};
ghost use Rattle.neli_tables_walk.specs.Walks.{EntersGiven, closed, given_shape, inner_items, later_level};
ghost use Rattle.neli_tables_walk.specs.Walks.{list_of, listed_bytes, nested_bytes};
ghost use Rattle.neli_tables_walk.specs.Walks.{next_item, open_items, shape_in, sort_in, step_of};
ghost use Rattle.neli_tables_walk.specs.Walks.{walked};

use crate::element::{Element, take_element};
use crate::level::{Level, Listed, MAX_DEPTH, Sort};
use crate::{Context, Found, Item, Nest, Path, Rest, Shape, Step, Visit};
use arrayvec::ArrayVec;
use neli_wire::{DeError, alignto};

/// The lists that a walk is in, the outermost first.
#[derive(Drop)]
pub struct Levels<'b, 'w, 't> {
    pub context: Context<'w, 't>,
    pub open: ArrayVec<Level<'b>, MAX_DEPTH>,
}

impl<'b, 'w, 't> Levels<'b, 'w, 't> {
    /// The next item, with its path.
    pub fn take_item(&mut self) -> Option<Item<'b>>
        ensures context { self.new.context ≡ self.old.context }
        ensures items { open_items (context_view self.old.context) [] [] self.old.open.items
            ≡ next_item result
            (open_items (context_view self.old.context) [] [] self.new.open.items) }
        ensures end { IsNone result
            → open_items (context_view self.new.context) [] [] self.new.open.items ≡ [] }
    {
        let visit = self.take_visit()?;
        let levels = self.open.as_slice();
        prove!(levels.len() <= MAX_DEPTH);
        let path = path_to(&levels[..visit.parts()]);
        Some(Item {
            path,
            content: visit.content,
        })
    }

    /// The next item without its path: of the innermost list that has something left.
    #[inline(always)]
    pub fn take_visit(&mut self) -> Option<Visit<'b>>
        ensures context { self.new.context ≡ self.old.context }
        ensures items { open_items (context_view self.old.context) [] [] self.old.open.items
            ≡ next_at result self.new.open.items
            (open_items (context_view self.old.context) [] [] self.new.open.items) }
        ensures visit { IfSome result (λ v. visited (item_at v self.new.open.items)
            ≡ visit_view v) }
        ensures parts { IfSome result (λ v. parts_of v ≤ length self.new.open.items) }
        ensures few { IfSome result (λ v. v.lists ≤ MAX_DEPTH) }
        ensures end { IsNone result
            → open_items (context_view self.new.context) [] [] self.new.open.items ≡ [] }
    {
        while let Some(level) = self.open.as_slice().last() {
            if !level.rest.is_empty() {
                return Some(self.advance());
            }
            self.open.pop();
        }
        None
    }

    /// The next item of the innermost list, of which something is left.
    #[inline(always)]
    fn advance(&mut self) -> Visit<'b>
        requires any { 0 < array_vec_len self.old.open }
        requires some { (around : List Level) (last : Level)
            → self.old.open.items ≡ around ++ last ∷ []
            → last.rest.now ≢ [] }
        ensures context { self.new.context ≡ self.old.context }
        ensures items { item_at result self.new.open.items
            ∷ open_items (context_view self.old.context) [] [] self.new.open.items
            ≡ open_items (context_view self.old.context) [] [] self.old.open.items }
        ensures visit { visited (item_at result self.new.open.items) ≡ visit_view result }
        ensures parts { parts_of result ≤ length self.new.open.items }
        ensures few { result.lists ≤ MAX_DEPTH }
    {
        let last = self.open.len() - 1;
        let level = &self.open.as_slice()[last];
        match take_element(&level.list.sort, level.rest) {
            Ok((element, rest)) => self.give_element(element, rest),
            Err(error) => self.give_rest(error),
        }
    }

    /// What is left of the innermost list, which then has nothing left.
    #[inline(always)]
    fn give_rest(&mut self, error: DeError) -> Visit<'b>
        requires any { 0 < array_vec_len self.old.open }
        requires some { (around : List Level) (last : Level)
            → self.old.open.items ≡ around ++ last ∷ []
            → last.rest.now ≢ [] }
        requires fault { (around : List Level) (last : Level)
            → self.old.open.items ≡ around ++ last ∷ []
            → element_at last.list.sort last.rest.now ≡ Err error }
        ensures context { self.new.context ≡ self.old.context }
        ensures items { item_at result self.new.open.items
            ∷ open_items (context_view self.old.context) [] [] self.new.open.items
            ≡ open_items (context_view self.old.context) [] [] self.old.open.items }
        ensures visit { visited (item_at result self.new.open.items) ≡ visit_view result }
        ensures parts { parts_of result ≤ length self.new.open.items }
        ensures few { result.lists ≤ MAX_DEPTH }
    {
        Visit {
            lists: self.open.len(),
            step: None,
            content: Err(self.take_rest(error)),
        }
    }

    /// Takes what is left of the innermost list. Few lists have such a rest, and the step to an
    /// attribute is shorter without this.
    #[inline(never)]
    fn take_rest(&mut self, error: DeError) -> Rest<'b>
        requires { 0 < array_vec_len self.old.open }
        ensures context { self.new.context ≡ self.old.context }
        ensures length { length self.new.open.items ≡ length self.old.open.items }
        ensures error { result.error ≡ error }
        ensures ended { (around : List Level) (last : Level)
            → self.old.open.items ≡ around ++ last ∷ []
            → (result.bytes.now ≡ last.rest.now)
            × (ended : Level) × (self.new.open.items ≡ around ++ ended ∷ [])
            × (ended.rest.now ≡ []) }
    {
        let last = self.open.len() - 1;
        let level = &self.open.as_slice()[last];
        let bytes = level.rest;
        let inside = level.inside;
        self.note(&bytes[bytes.len()..], inside);
        Rest { bytes, error }
    }

    /// The element that is next in the innermost list; if it is a nest, what it has comes next.
    #[inline(always)]
    fn give_element(&mut self, element: Element<'b>, rest: &'b [u8]) -> Visit<'b>
        requires any { 0 < array_vec_len self.old.open }
        requires found { (around : List Level) (last : Level)
            → self.old.open.items ≡ around ++ last ∷ []
            → element_at last.list.sort last.rest.now ≡ Ok (element_view element, rest.now) }
        ensures context { self.new.context ≡ self.old.context }
        ensures items { item_at result self.new.open.items
            ∷ open_items (context_view self.old.context) [] [] self.new.open.items
            ≡ open_items (context_view self.old.context) [] [] self.old.open.items }
        ensures visit { visited (item_at result self.new.open.items) ≡ visit_view result }
        ensures parts { parts_of result ≤ length self.new.open.items }
        ensures few { result.lists ≤ MAX_DEPTH }
    {
        let lists = self.open.len();
        let level = &self.open.as_slice()[lists - 1];
        let step = self.step_of(&level.list, &element);
        let payload = element.payload;
        self.note(rest, step);
        let shape = self.enter_given(payload);
        Visit {
            lists,
            step: Some(step),
            content: Ok(Found {
                kind: element.kind,
                payload,
                shape,
            }),
        }
    }

    /// Notes what is left of the innermost list, and what was given last of it.
    #[inline(always)]
    fn note(&mut self, rest: &'b [u8], inside: Step)
        requires { 0 < array_vec_len self.old.open }
        ensures context { self.new.context ≡ self.old.context }
        ensures length { length self.new.open.items ≡ length self.old.open.items }
        ensures noted { (around : List Level) (last : Level)
            → self.old.open.items ≡ around ++ last ∷ []
            → self.new.open.items ≡ around ++ later_level last rest.entry inside ∷ [] }
    {
        let last = self.open.len() - 1;
        let level = &mut self.open.as_mut_slice()[last];
        level.rest = rest;
        level.inside = inside;
    }

    /// The part of a path that an element of this list is.
    #[inline(always)]
    pub fn step_of(&self, list: &Listed<'b>, element: &Element<'b>) -> Step
        ensures { result
            ≡ step_of (context_view self.now.context) list.now.sort (element_view element.now) }
    {
        match &element.kind {
            Some(kind) => {
                let number = *kind.nla_type();
                Step {
                    number: Some(number),
                    row: self.context.table.row(list.sort.nest.set, number as u64),
                }
            }
            None => Step {
                number: None,
                row: None,
            },
        }
    }

    /// What an element of this list is: a hop is its structure and its attributes.
    pub fn shape_of(&self, list: &Listed<'b>, step: &Step, element: &Element<'b>) -> Shape
        requires { step.now
            ≡ step_of (context_view self.now.context) list.now.sort (element_view element.now) }
        ensures { result ≡ shape_in (context_view self.now.context) (listed_view list.now)
            (onto self.now.open.items []) (element_view element.now) }
    {
        self.context
            .listed_shape(list, self.open.as_slice(), step.row, element.payload)
    }

    /// What this payload is, which was given last of the innermost list. If it is a nest, what it
    /// has becomes the innermost list.
    #[inline(always)]
    fn enter_given(&mut self, payload: &'b [u8]) -> Shape
        requires { 0 < array_vec_len self.old.open }
        ensures context { self.new.context ≡ self.old.context }
        ensures kept { take (length self.old.open.items) self.new.open.items
            ≡ self.old.open.items }
        ensures more { length self.old.open.items ≤ length self.new.open.items }
        ensures entered { EntersGiven (context_view self.old.context) self.old.open.items payload.now
            self.new.open.items result }
    {
        match self.plain_row() {
            Some(place) => Shape::Row(place),
            None => self.enter_other(payload),
        }
    }

    /// The row of what was given last of the innermost list, where this row alone says what the
    /// payload is, and it is no list.
    #[inline(always)]
    fn plain_row(&self) -> Option<usize>
        requires { 0 < array_vec_len self.now.open }
        ensures { IfSome result (λ place. (around : List Level) (last : Level)
            → self.now.open.items ≡ around ++ last ∷ []
            → (payload : List ℕ)
            → given_shape (context_view self.now.context) around last payload ≡ Row place) }
    {
        let last = self.open.len() - 1;
        let level = &self.open.as_slice()[last];
        if level.list.sort.is_hops {
            None
        } else {
            self.context.plain_row(level.inside.row)
        }
    }

    /// The same of any payload. Most have a plain row, and the step to these is shorter without this.
    #[inline(never)]
    fn enter_other(&mut self, payload: &'b [u8]) -> Shape
        requires { 0 < array_vec_len self.old.open }
        ensures context { self.new.context ≡ self.old.context }
        ensures kept { take (length self.old.open.items) self.new.open.items
            ≡ self.old.open.items }
        ensures more { length self.old.open.items ≤ length self.new.open.items }
        ensures entered { EntersGiven (context_view self.old.context) self.old.open.items payload.now
            self.new.open.items result }
    {
        let shape = self.given_shape(payload);
        self.enter(shape, payload)
    }

    /// What this payload is, which was given last of the innermost list.
    fn given_shape(&self, payload: &[u8]) -> Shape
        requires { 0 < array_vec_len self.now.open }
        ensures { (around : List Level) (last : Level)
            → self.now.open.items ≡ around ++ last ∷ []
            → result ≡ given_shape (context_view self.now.context) around last payload.now }
    {
        let levels = self.open.as_slice();
        let last = levels.len() - 1;
        let level = &levels[last];
        self.context
            .listed_shape(&level.list, &levels[..last], level.inside.row, payload)
    }

    /// Makes what a nest has the innermost list. A nest in too many is not entered.
    fn enter(&mut self, shape: Shape, payload: &'b [u8]) -> Shape
        ensures context { self.new.context ≡ self.old.context }
        ensures kept { take (length self.old.open.items) self.new.open.items
            ≡ self.old.open.items }
        ensures more { length self.old.open.items ≤ length self.new.open.items }
        ensures full { array_vec_len self.old.open ≡ MAX_DEPTH
            → (result ≡ closed shape)
            × (open_items (context_view self.old.context) [] [] self.new.open.items
            ≡ open_items (context_view self.old.context) [] [] self.old.open.items) }
        ensures entered { array_vec_len self.old.open < MAX_DEPTH
            → (result ≡ shape)
            × (open_items (context_view self.old.context) [] [] self.new.open.items
            ≡ inner_items
            (walked (context_view self.old.context) (9 - length self.old.open.items)
            (map (λ l. l.inside) self.old.open.items) (onto self.old.open.items []))
            (list_of shape payload.now)
            ++ open_items (context_view self.old.context) [] [] self.old.open.items) }
    {
        let Some(sort) = sort_of(&shape) else {
            return shape;
        };
        if self.open.is_full() {
            return Shape::Deep(sort.nest);
        }
        let bytes = listed_bytes(&sort, payload);
        self.open.push(level_of(sort, bytes));
        shape
    }
}

/// What the list has that a payload is, if it is one.
pub fn sort_of(shape: &Shape) -> Option<Sort>
    ensures { result ≡ sort_in shape.now }
{
    match shape {
        Shape::Nest(nest) => Some(Sort {
            nest: *nest,
            is_hops: false,
        }),
        Shape::Hops(nest) => Some(Sort {
            nest: *nest,
            is_hops: true,
        }),
        _ => None,
    }
}

/// A list of which all is left.
pub fn level_of(sort: Sort, bytes: &[u8]) -> Level<'_>
    ensures list { listed_view result.list ≡ (sort, bytes.now) }
    ensures rest { result.rest.now ≡ bytes.now }
{
    Level {
        list: Listed { sort, bytes },
        rest: bytes,
        inside: Step {
            number: None,
            row: None,
        },
    }
}

/// The bytes of the list that a payload is: attributes begin after the structure.
pub fn listed_bytes<'b>(sort: &Sort, payload: &'b [u8]) -> &'b [u8]
    ensures { result.now ≡ listed_bytes sort.now payload.now }
{
    if sort.is_hops {
        payload
    } else {
        nested_bytes(&sort.nest, payload)
    }
}

/// The attributes of a nest, after its structure.
pub fn nested_bytes<'b>(nest: &Nest, payload: &'b [u8]) -> &'b [u8]
    ensures { result.now ≡ nested_bytes nest.now payload.now }
{
    if payload.len() < nest.header {
        return &[];
    }
    let start = alignto(nest.header);
    if payload.len() < start {
        return &[];
    }
    &payload[start..]
}

/// The path to what was given last of the innermost of these lists. It is made where it stays: a
/// path is long.
#[inline(never)]
fn path_to(levels: &[Level<'_>]) -> Path
    requires { length levels.now ≤ MAX_DEPTH }
    ensures { result.steps.items ≡ map (λ l. l.inside) levels.now }
{
    let mut steps = ArrayVec::new();
    for level in levels {
        steps.push(level.inside);
    }
    Path { steps }
}
