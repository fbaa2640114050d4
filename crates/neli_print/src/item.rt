//! An item of a walk, whatever the form that prints it.

ghost use Rattle.std.specs.Prelude.{◌≡◌, ◌^◌, ◌≤◌, take};
ghost use Rattle.neli_tables_walk.specs.Visited.{visit_view, visited};
ghost use Rattle.neli_tables_walk.specs.Walks.{content_view, item_view};
ghost use Rattle.neli_print.specs.Items.{after_item, after_visit, depth_in, entry_view};
ghost use Rattle.neli_print.specs.Items.{opens_list};

use neli_tables_walk::{Found, Item, Rest, Shape, Step, Visit};

/// An item as it is printed.
#[derive(Clone, Copy)]
pub(crate) struct Entry<'i, 'b> {
    /// How many lists are around it: as many as its path has parts, and one more around what is left
    /// of a list.
    pub lists: usize,
    /// The attribute or the hop itself; `None` where it is what is left of a list.
    pub step: Option<Step>,
    /// What stands there.
    pub content: &'i Result<Found<'b>, Rest<'b>>,
}

impl<'i, 'b> Entry<'i, 'b> {
    /// The entry of an item with its path.
    pub(crate) fn of_item(item: &'i Item<'b>) -> Entry<'i, 'b>
        ensures seen { entry_view result ≡ visited (item_view item.now) }
        ensures few { result.lists ≤ 2 ^ 63 }
    {
        let steps = item.path.steps();
        let (lists, step) = match item.content {
            Ok(_) => (steps.len(), steps.last().copied()),
            Err(_) => (steps.len() + 1, None),
        };
        Entry {
            lists,
            step,
            content: &item.content,
        }
    }

    /// The entry of an item without its path.
    pub(crate) fn of_visit(visit: &'i Visit<'b>) -> Entry<'i, 'b>
        ensures seen { entry_view result ≡ visit_view visit.now }
        ensures lists { result.lists ≡ visit.now.lists }
    {
        Entry {
            lists: visit.lists,
            step: visit.step,
            content: &visit.content,
        }
    }
}

/// Whether items in a list come next: those of a nest, or hops.
fn opens_list(content: &Result<Found<'_>, Rest<'_>>) -> bool
    ensures { result ≡ opens_list (content_view content.now) }
{
    match content {
        Ok(found) => matches!(found.shape, Shape::Nest(_) | Shape::Hops(_)),
        Err(_) => false,
    }
}

/// The first bytes, this many; all where they are fewer.
pub(crate) fn front_of(bytes: &[u8], size: usize) -> &[u8]
    ensures { result.now ≡ take size bytes.now }
{
    match bytes.get(..size) {
        Some(front) => front,
        None => bytes,
    }
}

/// The lists of JSON that are open between two items.
#[derive(Clone, Copy, Debug, PartialEq, Eq)]
pub struct Open {
    /// How many are open; one at least.
    pub lists: usize,
    /// Whether nothing is in the innermost.
    pub is_first: bool,
}

impl Open {
    /// The list of a body, which has just begun.
    pub const BODY: Open = Open {
        lists: 1,
        is_first: true,
    };

    /// How many are open around an item that is in so many: as many, but no more than were open, and
    /// one at least.
    pub(crate) fn depth(&self, lists: usize) -> usize
        ensures { result ≡ depth_in self.now lists }
    {
        lists.min(self.lists).max(1)
    }

    /// What is open after an item.
    pub fn after(&self, item: &Item<'_>) -> Open
        ensures { result ≡ after_item self.now (item_view item.now) }
    {
        self.after_entry(Entry::of_item(item))
    }

    /// What is open after an entry.
    pub(crate) fn after_entry(&self, item: Entry<'_, '_>) -> Open
        requires { item.lists ≤ 2 ^ 63 }
        ensures { result ≡ after_visit self.now (entry_view item.entry) }
    {
        let depth = self.depth(item.lists);
        if opens_list(item.content) {
            Open {
                lists: depth + 1,
                is_first: true,
            }
        } else {
            Open {
                lists: depth,
                is_first: false,
            }
        }
    }
}
