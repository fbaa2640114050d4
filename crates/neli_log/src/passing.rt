//! A place moves past the first entry that it waits for.

ghost use Rattle.std.specs.Prelude.{◌≡◌, ◌≢◌, ◌+◌, ◌-◌, ◌≤◌, ◌<◌, ℕ, true, false, List, ◌∷◌, Option};
ghost use Rattle.std.specs.Prelude.{None, Some, IfSome};
ghost use Rattle.std.specs.Prelude.{length, map, slice_get};
ghost use Rattle.neli_log.specs.Lists.{SameListsBut};
ghost use Rattle.neli_log.specs.Places.{IsPlace, CountsPassed, IsSound, KeepsPlaceRoom, KeepsRoom, RouteAt};
ghost use Rattle.neli_log.specs.Places.{entries_of, next_position, pending_of, place_of};
ghost use Rattle.neli_log.specs.Routes.{is_shared, leads_only};

use crate::counts::{lower, raise};
use crate::hints::put;
use crate::place::Place;
use crate::places::Places;

impl<T: Drop> Places<T> {
    /// The position of the entry for all numbers with this serial number.
    pub(crate) fn shared_position(&self, passed: u64) -> Option<u64>
        requires { self.now.shared_base ≤ passed }
        ensures { result ≡ slice_get (map (λ s. s.at) self.now.shared.items)
            (passed - self.now.shared_base) }
    {
        match self.shared.get((passed - self.shared_base) as usize) {
            None => None,
            Some(s) => Some(s.at),
        }
    }

    /// The position of the first entry that a place waits for, if it waits for one.
    pub(crate) fn next_of(&self, whose: Option<u32>, p: &Place) -> Option<u64>
        requires sound { IsSound self.now }
        requires is { place_of self.now whose ≡ Some p.now }
        ensures next { result ≡ next_position self.now whose p.now }
        ensures within { IfSome result (λ m. (self.now.base ≤ m)
            × (m - self.now.base < length (entries_of self.now))) }
    {
        self.next_from(whose, p)
    }

    /// Moves multicast's place past the entry at position `m`, its first.
    pub(crate) fn pass_multicast(&mut self, p: Place, m: u64)
        requires sound { IsSound self.old }
        requires is { place_of self.old None ≡ Some p }
        requires next { next_position self.old None p ≡ Some m }
        ensures entries { entries_of self.new ≡ entries_of self.old }
        ensures taken { (x : T) (xs : List T) → pending_of self.old None ≡ Some (x ∷ xs)
            → pending_of self.new None ≡ Some xs }
        ensures others { SameListsBut None (pending_of self.old) (pending_of self.new) }
        ensures sound { IsSound self.new }
        ensures room { KeepsRoom self.old self.new }
        ensures place_room { KeepsPlaceRoom self.old self.new }
    {
        self.multicast = Some(self.after_own(None, p, m));
    }

    /// Moves a number's place past the entry at position `m`, its first, which goes to that number
    /// only.
    pub(crate) fn pass_number(&mut self, n: u32, p: Place, m: u64)
        requires sound { IsSound self.old }
        requires is { place_of self.old (Some n) ≡ Some p }
        requires next { next_position self.old (Some n) p ≡ Some m }
        requires route { RouteAt self.old m (λ r. is_shared r ≡ false) }
        ensures entries { entries_of self.new ≡ entries_of self.old }
        ensures taken { (x : T) (xs : List T) → pending_of self.old (Some n) ≡ Some (x ∷ xs)
            → pending_of self.new (Some n) ≡ Some xs }
        ensures others { SameListsBut (Some n) (pending_of self.old) (pending_of self.new) }
        ensures sound { IsSound self.new }
        ensures room { KeepsRoom self.old self.new }
        ensures place_room { KeepsPlaceRoom self.old self.new }
    {
        let after = self.after_own(Some(n), p, m);
        put(&mut self.numbers, self.hints.hint(n), n, after);
    }

    /// Moves a number's place past the entry at position `m`, its first, which goes to all numbers.
    pub(crate) fn pass_shared(&mut self, n: u32, p: Place, m: u64)
        requires sound { IsSound self.old }
        requires is { place_of self.old (Some n) ≡ Some p }
        requires next { next_position self.old (Some n) p ≡ Some m }
        requires route { RouteAt self.old m (λ r. is_shared r ≡ true) }
        ensures entries { entries_of self.new ≡ entries_of self.old }
        ensures taken { (x : T) (xs : List T) → pending_of self.old (Some n) ≡ Some (x ∷ xs)
            → pending_of self.new (Some n) ≡ Some xs }
        ensures others { SameListsBut (Some n) (pending_of self.old) (pending_of self.new) }
        ensures sound { IsSound self.new }
        ensures room { KeepsRoom self.old self.new }
        ensures place_room { KeepsPlaceRoom self.old self.new }
    {
        // This shows the prover that a count of places fits: there are fewer than 2^63 numbers.
        let _ = self.numbers.len();
        let i = (p.shared_passed - self.shared_base) as usize;
        lower(&mut self.shared, &mut self.caught_up, i);
        raise(&mut self.shared, &mut self.caught_up, i + 1);
        let after = Place {
            from: m + 1,
            chain: p.chain,
            shared_passed: p.shared_passed + 1,
        };
        put(&mut self.numbers, self.hints.hint(n), n, after);
    }

    /// The place after the entry at position `m`, its first, which goes to this list only.
    fn after_own(&self, whose: Option<u32>, p: Place, m: u64) -> Place
        requires sound { IsSound self.now }
        requires is { place_of self.now whose ≡ Some p }
        requires next { next_position self.now whose p ≡ Some m }
        requires route { RouteAt self.now m (λ r. leads_only whose r ≡ true) }
        ensures from { result.from ≡ m + 1 }
        ensures passed { result.shared_passed ≡ p.shared_passed }
        ensures place { IsPlace whose self.now.base self.now.entries.items self.now.links.items
            result }
        ensures counted { (q : ℕ) → whose ≡ Some q
            → CountsPassed self.now.shared_base self.now.base self.now.entries.items result }
    {
        self.past_own(whose, p, m)
    }
}
