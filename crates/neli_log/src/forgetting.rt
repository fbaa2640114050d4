//! Removes the first entry, and places.

ghost use Rattle.std.specs.Prelude.{◌≡◌, ◌≢◌, ◌<◌, ℕ, true, false, Option, None, Some, drop, slice_get};
ghost use Rattle.neli_log.specs.Lists.{SameLists, SameListsBut};
ghost use Rattle.neli_log.specs.Places.{HavePassedFirst, BeginsWith, IsSound, AwaitsFirst, KeepsPlaceRoom};
ghost use Rattle.neli_log.specs.Places.{KeepsRoom, entries_of, pending_of, place_of};
ghost use Rattle.neli_log.specs.Routes.{is_shared};

use crate::counts::lower;
use crate::entry::{Entry, Route};
use crate::hints::value_of;
use crate::places::Places;

impl<T: Drop> Places<T> {
    /// Whether a place stands at the first entry, which has this route.
    pub(crate) fn is_awaited(&self, route: Route) -> bool
        requires sound { IsSound self.now }
        requires at { BeginsWith self.now route }
        ensures yes { result ≡ true → AwaitsFirst (place_of self.now) self.now.base route }
        ensures no { result ≡ false → HavePassedFirst (place_of self.now) self.now.base route }
    {
        match route {
            Route::Multicast => match self.multicast {
                None => false,
                Some(p) => p.from <= self.base,
            },
            Route::Number(n) => match value_of(&self.numbers, self.hints.hint(n), n) {
                None => false,
                Some(p) => p.from <= self.base,
            },
            Route::Numbers => {
                // This shows the prover that no number has two places.
                let _ = self.numbers.len();
                match self.shared.front() {
                    None => false,
                    Some(s) => s.readers > 0,
                }
            }
        }
    }

    /// Removes the first entry, for which no place waits.
    pub(crate) fn forget(&mut self, route: Route) -> Option<Entry<T>>
        requires sound { IsSound self.old }
        requires at { BeginsWith self.old route }
        requires past { HavePassedFirst (place_of self.old) self.old.base route }
        ensures taken { result ≡ slice_get (entries_of self.old) 0 }
        ensures less { entries_of self.new ≡ drop 1 (entries_of self.old) }
        ensures same { SameLists (pending_of self.old) (pending_of self.new) }
        ensures sound { IsSound self.new }
        ensures room { KeepsRoom self.old self.new }
        ensures place_room { KeepsPlaceRoom self.old self.new }
    {
        match route {
            Route::Numbers => self.forget_shared(),
            _ => self.forget_own(route),
        }
    }

    fn forget_own(&mut self, route: Route) -> Option<Entry<T>>
        requires sound { IsSound self.old }
        requires alone { is_shared route ≡ false }
        requires at { BeginsWith self.old route }
        requires past { HavePassedFirst (place_of self.old) self.old.base route }
        ensures taken { result ≡ slice_get (entries_of self.old) 0 }
        ensures less { entries_of self.new ≡ drop 1 (entries_of self.old) }
        ensures same { SameLists (pending_of self.old) (pending_of self.new) }
        ensures sound { IsSound self.new }
        ensures room { KeepsRoom self.old self.new }
        ensures place_room { KeepsPlaceRoom self.old self.new }
    {
        let _ = self.links.pop_front();
        let first = self.entries.pop_front();
        self.base += 1;
        first
    }

    fn forget_shared(&mut self) -> Option<Entry<T>>
        requires sound { IsSound self.old }
        requires at { BeginsWith self.old Route.Numbers }
        requires past { HavePassedFirst (place_of self.old) self.old.base Route.Numbers }
        ensures taken { result ≡ slice_get (entries_of self.old) 0 }
        ensures less { entries_of self.new ≡ drop 1 (entries_of self.old) }
        ensures same { SameLists (pending_of self.old) (pending_of self.new) }
        ensures sound { IsSound self.new }
        ensures room { KeepsRoom self.old self.new }
        ensures place_room { KeepsPlaceRoom self.old self.new }
    {
        let _ = self.shared.pop_front();
        self.shared_base += 1;
        let _ = self.links.pop_front();
        let first = self.entries.pop_front();
        self.base += 1;
        first
    }

    /// Removes multicast's place.
    pub(crate) fn remove_multicast(&mut self)
        requires { IsSound self.old }
        ensures entries { entries_of self.new ≡ entries_of self.old }
        ensures closed { pending_of self.new None ≡ None }
        ensures others { SameListsBut None (pending_of self.old) (pending_of self.new) }
        ensures sound { IsSound self.new }
        ensures room { KeepsRoom self.old self.new }
        ensures place_room { KeepsPlaceRoom self.old self.new }
    {
        self.multicast = None;
    }

    /// Removes the place of a number, if it has one.
    pub(crate) fn remove_number(&mut self, n: u32)
        requires { IsSound self.old }
        ensures entries { entries_of self.new ≡ entries_of self.old }
        ensures closed { pending_of self.new (Some n) ≡ None }
        ensures others { SameListsBut (Some n) (pending_of self.old) (pending_of self.new) }
        ensures sound { IsSound self.new }
        ensures room { KeepsRoom self.old self.new }
        ensures place_room { KeepsPlaceRoom self.old self.new }
    {
        if let Some((index, _, p)) = self.numbers.swap_remove_full(&n) {
            self.hints.note_at(&self.numbers, index);
            let i = (p.shared_passed - self.shared_base) as usize;
            lower(&mut self.shared, &mut self.caught_up, i);
        }
    }
}
