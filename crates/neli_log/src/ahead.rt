//! What waits for a list, looked at one delivery after the other; the log stays as it is.

ghost use Rattle.std.specs.Prelude.{◌≡◌, ◌+◌, ◌-◌, ◌≤◌, ◌<◌, ◌∷◌, [], true, IfSome, IsNone, Some, drop, length};
ghost use Rattle.neli_deliveries.specs.Deliveries.{head_of};
ghost use Rattle.neli_log.specs.Ahead.{StandsAt, items_from};
ghost use Rattle.neli_log.specs.Lending.{IsFirstLent};
ghost use Rattle.neli_log.specs.Log.{pending_of};
ghost use Rattle.neli_log.specs.Places.{IsSound, RouteAt, entries_of, next_position};
ghost use Rattle.neli_log.specs.Routes.{is_shared, leads_only};

use crate::chains::{lesser_of, start, without_first};
use crate::entry::Route;
use crate::place::Place;
use crate::places::Places;
use crate::store::Store;
use crate::{LentDelivery, Log};
use std::marker::Model;

impl<T: Drop> Places<T> {
    /// The position of the first entry that this list waits for from a place on, if there is one.
    pub(crate) fn next_from(&self, whose: Option<u32>, p: &Place) -> Option<u64>
        requires sound { IsSound self.now }
        requires stands { StandsAt whose self.now p.now }
        ensures next { result ≡ next_position self.now whose p.now }
        ensures within { IfSome result (λ m. (self.now.base ≤ m)
            × (m - self.now.base < length (entries_of self.now))) }
    {
        let first = start(p.chain);
        match whose {
            None => first,
            Some(_) => lesser_of(first, self.shared_position(p.shared_passed)),
        }
    }

    /// The place past the entry at position `m`, its first, which goes to this list only.
    pub(crate) fn past_own(&self, whose: Option<u32>, p: Place, m: u64) -> Place
        requires sound { IsSound self.now }
        requires stands { StandsAt whose self.now p }
        requires next { next_position self.now whose p ≡ Some m }
        requires route { RouteAt self.now m (λ r. leads_only whose r ≡ true) }
        ensures from { result.from ≡ m + 1 }
        ensures passed { result.shared_passed ≡ p.shared_passed }
        ensures stands { StandsAt whose self.now result }
    {
        let link = self.links[(m - self.base) as usize];
        Place {
            from: m + 1,
            chain: without_first(p.chain, link),
            shared_passed: p.shared_passed,
        }
    }

    /// The place past the entry at position `m`, its first, which goes to all numbers.
    fn past_shared(&self, n: u32, p: Place, m: u64) -> Place
        requires sound { IsSound self.now }
        requires stands { StandsAt (Some n) self.now p }
        requires next { next_position self.now (Some n) p ≡ Some m }
        requires route { RouteAt self.now m (λ r. is_shared r ≡ true) }
        ensures from { result.from ≡ m + 1 }
        ensures stands { StandsAt (Some n) self.now result }
    {
        Place {
            from: m + 1,
            chain: p.chain,
            shared_passed: p.shared_passed + 1,
        }
    }

    /// The place past the entry at position `m`, its first, which has this route.
    fn past(&self, whose: Option<u32>, p: Place, m: u64, route: Route) -> Place
        requires sound { IsSound self.now }
        requires stands { StandsAt whose self.now p }
        requires next { next_position self.now whose p ≡ Some m }
        requires route { RouteAt self.now m (λ r. r ≡ route) }
        ensures from { result.from ≡ m + 1 }
        ensures stands { StandsAt whose self.now result }
    {
        match whose {
            None => self.past_own(None, p, m),
            Some(n) => match route {
                Route::Numbers => self.past_shared(n, p, m),
                _ => self.past_own(Some(n), p, m),
            },
        }
    }

    /// The first item that a list waits for from a place on, and the place past it; or that there is none.
    fn first_from(&self, whose: Option<u32>, p: Place) -> Option<(&T, Place)>
        requires sound { IsSound self.now }
        requires stands { StandsAt whose self.now p }
        ensures first { IfSome result (λ r. items_from self.now whose p
            ≡ r.0.now ∷ items_from self.now whose r.1) }
        ensures stands { IfSome result (λ r. StandsAt whose self.now r.1) }
        ensures none { IsNone result → items_from self.now whose p ≡ [] }
    {
        let Some(m) = self.next_from(whose, &p) else {
            return None;
        };
        let entry = &self.entries[(m - self.base) as usize];
        Some((&entry.item, self.past(whose, p, m, entry.route)))
    }
}

/// The deliveries that wait for a number, or for multicast, one after the other, each lent from the log.
///
/// Contracts see it as the list of those that it has not lent yet. It takes no memory, and each step looks up what the
/// log keeps for that list, however much waits for others.
#[derive(Drop)]
pub struct Ahead<'b> {
    store: &'b Store,
    whose: Option<u32>,
    place: Place,
}

impl<'b> Model for Ahead<'b> {
    ghost use Rattle.std.specs.Prelude.{List};
    ghost use Rattle.neli_deliveries.specs.declared.delivery.Delivery.{Delivery};
    ghost use Rattle.neli_log.specs.Ahead.{IsAhead, deliveries_from};

    ghost Value = { List Delivery };

    ghost view = { λ a. deliveries_from a.store.now a.whose a.place };

    ghost invariant = { λ a. IsAhead a.store.now a.whose a.place };
}

impl<'b> Ahead<'b> {
    /// The same deliveries a second time.
    pub fn ahead(&self) -> Self
        ensures { result ≡ self.now }
    {
        Ahead {
            store: self.store,
            whose: self.whose,
            place: self.place,
        }
    }

    /// Lends the first delivery that it has not lent yet, and goes on to the one after it; or that there is none.
    pub fn lend_next(&mut self) -> Option<LentDelivery<'b>>
        ensures lends { IsFirstLent (head_of (Some self.old)) result }
        ensures rest { self.new ≡ drop 1 self.old }
    {
        let store = self.store;
        let Some((content, after)) = store.places.first_from(self.whose, self.place) else {
            return None;
        };
        self.place = after;
        Some(store.lend(content))
    }
}

impl Log {
    /// Returns the deliveries that wait for a number, or for multicast, lent one after the other until the log changes;
    /// or that it is not open. It takes no memory.
    pub fn ahead(&self, whose: Option<u32>) -> Option<Ahead<'_>>
        ensures { result ≡ pending_of self.now whose }
    {
        let store = &self.store;
        match store.places.place(whose) {
            None => None,
            Some(place) => Some(Ahead {
                store,
                whose,
                place,
            }),
        }
    }
}
