//! Adds an entry after the others.

ghost use Rattle.std.specs.Prelude.{◌≡◌, ◌+◌, ◌<◌, ◌++◌, ◌∷◌, [], None, Some, length};
ghost use Rattle.std.specs.VecDeque.{deque_capacity, deque_len};
ghost use Rattle.neli_log.specs.Places.{Gains, HasRoom, IsTrimmed, KeepsPlaceRoom, LeavesRoom, entries_of};
ghost use Rattle.neli_log.specs.Places.{pending_of, place_of};
ghost use Rattle.neli_log.specs.Routes.{entry};

use crate::chains::{extended, link};
use crate::entry::{Entry, Route};
use crate::hints::put;
use crate::place::{Place, Shared};
use crate::places::Places;
use std::collections::VecDeque;

impl<T: Drop> Places<T> {
    /// Stores an item for multicast, which has this place.
    pub(crate) fn add_to_multicast(&mut self, item: T, p: Place)
        requires trimmed { IsTrimmed self.old }
        requires is { place_of self.old None ≡ Some p }
        requires room { HasRoom 1 self.old }
        ensures entries { entries_of self.new
            ≡ entries_of self.old ++ entry item Route.Multicast ∷ [] }
        ensures more { Gains (pending_of self.old) (entry item Route.Multicast)
            (pending_of self.new) }
        ensures trimmed { IsTrimmed self.new }
        ensures room { LeavesRoom self.old self.new }
        ensures place_room { KeepsPlaceRoom self.old self.new }
    {
        let at = self.base + self.entries.len() as u64;
        link(&mut self.links, self.base, p.chain, at);
        self.multicast = Some(extended(p, at));
        append(
            &mut self.entries,
            &mut self.links,
            Entry {
                item,
                route: Route::Multicast,
            },
        );
    }

    /// Stores an item for one number, which has this place.
    pub(crate) fn add_to_number(&mut self, item: T, n: u32, p: Place)
        requires trimmed { IsTrimmed self.old }
        requires is { place_of self.old (Some n) ≡ Some p }
        requires room { HasRoom 1 self.old }
        ensures entries { entries_of self.new
            ≡ entries_of self.old ++ entry item (Route.Number n) ∷ [] }
        ensures more { Gains (pending_of self.old) (entry item (Route.Number n))
            (pending_of self.new) }
        ensures trimmed { IsTrimmed self.new }
        ensures room { LeavesRoom self.old self.new }
        ensures place_room { KeepsPlaceRoom self.old self.new }
    {
        let at = self.base + self.entries.len() as u64;
        link(&mut self.links, self.base, p.chain, at);
        put(&mut self.numbers, self.hints.hint(n), n, extended(p, at));
        append(
            &mut self.entries,
            &mut self.links,
            Entry {
                item,
                route: Route::Number(n),
            },
        );
    }

    /// Stores an item for all open numbers, of which at least one exists.
    pub(crate) fn add_to_numbers(&mut self, item: T)
        requires trimmed { IsTrimmed self.old }
        requires some { 0 < length self.old.numbers.entries }
        requires room { HasRoom 1 self.old }
        ensures entries { entries_of self.new
            ≡ entries_of self.old ++ entry item Route.Numbers ∷ [] }
        ensures more { Gains (pending_of self.old) (entry item Route.Numbers)
            (pending_of self.new) }
        ensures trimmed { IsTrimmed self.new }
        ensures room { LeavesRoom self.old self.new }
        ensures place_room { KeepsPlaceRoom self.old self.new }
    {
        let at = self.base + self.entries.len() as u64;
        self.shared.push_back_reserved(Shared {
            at,
            readers: self.caught_up,
        });
        self.caught_up = 0;
        append(
            &mut self.entries,
            &mut self.links,
            Entry {
                item,
                route: Route::Numbers,
            },
        );
    }
}

/// Adds an entry without a link, if there is room.
fn append<T: Drop>(
    entries: &mut VecDeque<Entry<T>>,
    links: &mut VecDeque<Option<u64>>,
    entry: Entry<T>,
)
    requires entries { deque_len entries.old < deque_capacity entries.old }
    requires links { deque_len links.old < deque_capacity links.old }
    ensures entries { entries.new.items ≡ entries.old.items ++ entry ∷ [] }
    ensures links { links.new.items ≡ links.old.items ++ None ∷ [] }
    ensures entries_room { (deque_len entries.new ≡ deque_len entries.old + 1)
        × (deque_capacity entries.new ≡ deque_capacity entries.old) }
    ensures links_room { (deque_len links.new ≡ deque_len links.old + 1)
        × (deque_capacity links.new ≡ deque_capacity links.old) }
{
    entries.push_back_reserved(entry);
    links.push_back_reserved(None);
}
