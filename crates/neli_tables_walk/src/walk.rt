//! The walk.

ghost use Rattle.std.specs.Prelude.{◌≡◌, [], List, IsNone};
ghost use Rattle.std.specs.Iterator.{YieldsFirstBy, item_count};
ghost use Rattle.neli_tables_walk.specs.Shapes.{context_view};
ghost use Rattle.neli_tables_walk.specs.Visited.{VisitsFirst};
ghost use Rattle.neli_tables_walk.specs.Walks.{Seen, item_view, next_item, open_items, walk_items};

use crate::level::Sort;
use crate::levels::{Levels, level_of, nested_bytes};
use crate::{Context, Item, Nest, Visit};
use arrayvec::ArrayVec;
use std::marker::Model;

/// The attributes of a body, each with its path and what it is, and after each nest those in it.
///
/// An iterator. After the attributes of a list comes what is left of it, if something is, and then
/// what follows the nest that this list is in. It takes no memory. Contracts see it as the items
/// that are left.
#[derive(Drop)]
pub struct Walk<'b, 'w, 't> {
    levels: Levels<'b, 'w, 't>,
}

impl<'b, 'w, 't> Model for Walk<'b, 'w, 't> {
    ghost Value = { List Seen };

    ghost view = { λ w. open_items (context_view w.levels.context) [] [] w.levels.open.items };
}

impl<'b, 'w, 't> Walk<'b, 'w, 't> {
    /// What a body has: a structure, and after it the attributes of a set.
    pub fn new(context: Context<'w, 't>, nest: Nest, body: &'b [u8]) -> Self
        ensures { result ≡ walk_items (context_view context.entry) nest body.now }
    {
        let sort = Sort {
            nest,
            is_hops: false,
        };
        let mut open = ArrayVec::new();
        open.push(level_of(sort, nested_bytes(&nest, body)));
        Walk {
            levels: Levels { context, open },
        }
    }

    /// The same items without their paths, for which less is done.
    pub fn visits(self) -> Visits<'b, 'w, 't>
        ensures { result ≡ self.entry }
    {
        Visits {
            levels: self.levels,
        }
    }

    /// The next item.
    pub(crate) fn step(&mut self) -> Option<Item<'b>>
        ensures items { self.old ≡ next_item result self.new }
        ensures end { IsNone result → self.new ≡ [] }
    {
        self.levels.take_item()
    }
}

impl<'b, 'w, 't> Iterator for Walk<'b, 'w, 't> {
    type Item = Item<'b>;

    ghost next_gives = { YieldsFirstBy item_view (λ items. items) };

    ghost remaining = { item_count (λ (items : List Seen). items) };

    fn next(&mut self) -> Option<Item<'b>> {
        self.step()
    }
}

/// The items of a walk without their paths.
///
/// An iterator, as [`Walk`]. Contracts see it as the items that are left.
#[derive(Drop)]
pub struct Visits<'b, 'w, 't> {
    levels: Levels<'b, 'w, 't>,
}

impl<'b, 'w, 't> Model for Visits<'b, 'w, 't> {
    ghost Value = { List Seen };

    ghost view = { λ w. open_items (context_view w.levels.context) [] [] w.levels.open.items };
}

impl<'b, 'w, 't> Visits<'b, 'w, 't> {
    /// The next item.
    #[inline(always)]
    fn step(&mut self) -> Option<Visit<'b>>
        ensures { VisitsFirst self.old result self.new }
    {
        self.levels.take_visit()
    }
}

impl<'b, 'w, 't> Iterator for Visits<'b, 'w, 't> {
    type Item = Visit<'b>;

    ghost next_gives = { VisitsFirst };

    ghost remaining = { item_count (λ (items : List Seen). items) };

    #[inline(always)]
    fn next(&mut self) -> Option<Visit<'b>> {
        self.step()
    }
}
