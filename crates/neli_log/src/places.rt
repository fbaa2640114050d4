//! The entries, and the lists that wait for them.

ghost use Rattle.std.specs.HashMap.{spare};
ghost use Rattle.std.specs.Prelude.{◌≡◌, ◌≢◌, ◌↔◌, ◌≤◌, ◌+◌, ◌++◌, ℕ, List, [], ◌∷◌, Option, None, Some};
ghost use Rattle.std.specs.Prelude.{IfSome, IsNone, IsOk};
ghost use Rattle.std.specs.Prelude.{IsTrue, OnErr, OnOk, is_some, length, option_map};
ghost use Rattle.neli_log.specs.Lists.{SameLists, SameListsBut};
ghost use Rattle.neli_log.specs.Places.{Gains, HasPlaceRoom, HasReader, HasRoom, IsSound, IsTrimmed};
ghost use Rattle.neli_log.specs.Places.{KeepsPlaceRoom, KeepsRoom, LeavesRoom, entries_of, head_of};
ghost use Rattle.neli_log.specs.Places.{pending_of};
ghost use Rattle.neli_log.specs.Places.{place_of};
ghost use Rattle.neli_log.specs.Routes.{entry};
ghost use Rattle.neli_log.specs.declared.entry.Route.{Route as Way};

use crate::entry::{Entry, Route};
use crate::hints::{Hints, value_of};
use crate::place::{Place, Shared};
use indexmap::IndexMap;
use std::alloc::{AllocError, Global};
use std::collections::VecDeque;

/// Entries in the order of arrival, each stored once however many lists wait for it, and a place for each open number
/// and for multicast.
///
/// Contracts see what each list waits for, by number or for multicast (`None`), or that it is not open.
#[derive(Drop)]
pub struct Places<T> {
    pub(crate) base: u64,
    pub(crate) entries: VecDeque<Entry<T>>,
    pub(crate) links: VecDeque<Option<u64>>,
    pub(crate) shared_base: u64,
    pub(crate) shared: VecDeque<Shared>,
    pub(crate) caught_up: usize,
    pub(crate) multicast: Option<Place>,
    pub(crate) numbers: IndexMap<u32, Place>,
    pub(crate) hints: Hints,
}

impl<T: Drop> Places<T> {
    /// No entries, no open number, and a place for multicast. It takes no memory.
    pub fn new(alloc: Global) -> Self
        ensures entries { entries_of result ≡ [] }
        ensures multicast { pending_of result None ≡ Some [] }
        ensures numbers { (q : ℕ) → pending_of result (Some q) ≡ None }
        ensures trimmed { IsTrimmed result }
    {
        Places {
            base: 0,
            entries: VecDeque::new(alloc),
            links: VecDeque::new(alloc),
            shared_base: 0,
            shared: VecDeque::new(alloc),
            caught_up: 0,
            multicast: Some(Place {
                from: 0,
                chain: None,
                shared_passed: 0,
            }),
            numbers: IndexMap::new(alloc),
            hints: Hints::new(alloc),
        }
    }

    #[inline]
    pub(crate) fn place(&self, whose: Option<u32>) -> Option<Place>
        ensures { result ≡ place_of self.now whose }
    {
        match whose {
            None => self.multicast,
            Some(n) => value_of(&self.numbers, self.hints.hint(n), n),
        }
    }

    /// Whether a number, or multicast, has a place.
    pub fn is_open(&self, whose: Option<u32>) -> bool
        ensures { result ≡ is_some (pending_of self.now whose) }
    {
        self.place(whose).is_some()
    }

    /// Whether an entry with this route has a receiver.
    pub fn has_reader(&self, route: Route) -> bool
        ensures { IsTrue result ↔ HasReader (pending_of self.now) route }
    {
        match route {
            Route::Multicast => self.multicast.is_some(),
            Route::Number(n) => value_of(&self.numbers, self.hints.hint(n), n).is_some(),
            Route::Numbers => self.numbers.len() > 0,
        }
    }

    /// Gives a number that has no place one after the last entry.
    ///
    /// Refused only if memory runs out; then nothing changes. It is not refused if the table of numbers has room for one
    /// more: then it takes memory for hints alone, which need not be right.
    pub fn open(&mut self, number: u32) -> Result<(), AllocError>
        requires closed { pending_of self.old (Some number) ≡ None }
        requires trimmed { IsTrimmed self.old }
        ensures entries { entries_of self.new ≡ entries_of self.old }
        ensures opened { OnOk result (pending_of self.new (Some number) ≡ Some []) }
        ensures others { OnOk result (SameListsBut (Some number)
            (pending_of self.old) (pending_of self.new)) }
        ensures unchanged { OnErr result (SameLists (pending_of self.old) (pending_of self.new)) }
        ensures enough { HasPlaceRoom self.old → IsOk result }
        ensures trimmed { IsTrimmed self.new }
        ensures room { KeepsRoom self.old self.new }
        ensures place_room { spare self.old.numbers ≤ spare self.new.numbers + 1 }
    {
        // This shows the prover that the count of places fits: there are fewer than 2^63 numbers.
        let _ = self.numbers.len();
        let from = self.base + self.entries.len() as u64;
        let shared_passed = self.shared_base + self.shared.len() as u64;
        self.numbers.insert(
            number,
            Place {
                from,
                chain: None,
                shared_passed,
            },
        )?;
        self.caught_up += 1;
        self.hints.note_last(&self.numbers);
        Ok(())
    }

    /// Removes a place, if it exists. Entries for which no list waits any more are kept until [`Places::pop_unawaited`]
    /// removes them.
    pub fn remove(&mut self, whose: Option<u32>)
        requires { IsSound self.old }
        ensures entries { entries_of self.new ≡ entries_of self.old }
        ensures closed { pending_of self.new whose ≡ None }
        ensures others { SameListsBut whose (pending_of self.old) (pending_of self.new) }
        ensures sound { IsSound self.new }
        ensures room { KeepsRoom self.old self.new }
        ensures place_room { KeepsPlaceRoom self.old self.new }
    {
        match whose {
            None => self.remove_multicast(),
            Some(n) => self.remove_number(n),
        }
    }

    /// Returns the first item that a list waits for, if it is open and waits for one.
    pub fn first(&self, whose: Option<u32>) -> Option<&T>
        requires { IsTrimmed self.now }
        ensures { option_map (λ x. x.now) result ≡ head_of (pending_of self.now whose) }
    {
        match self.place(whose) {
            None => None,
            Some(p) => match self.next_of(whose, &p) {
                None => None,
                Some(m) => Some(&self.entries[(m - self.base) as usize].item),
            },
        }
    }

    /// Moves a place past the first item that its list waits for, if it waits for one. Entries for which no list waits
    /// any more are kept until [`Places::pop_unawaited`] removes them.
    pub fn pass(&mut self, whose: Option<u32>)
        requires { IsSound self.old }
        ensures entries { entries_of self.new ≡ entries_of self.old }
        ensures taken { (x : T) (xs : List T) → pending_of self.old whose ≡ Some (x ∷ xs)
            → pending_of self.new whose ≡ Some xs }
        ensures nothing { head_of (pending_of self.old whose) ≡ None
            → pending_of self.new whose ≡ pending_of self.old whose }
        ensures others { SameListsBut whose (pending_of self.old) (pending_of self.new) }
        ensures sound { IsSound self.new }
        ensures room { KeepsRoom self.old self.new }
        ensures place_room { KeepsPlaceRoom self.old self.new }
    {
        if let Some(p) = self.place(whose) {
            if let Some(m) = self.next_of(whose, &p) {
                let route = self.entries[(m - self.base) as usize].route;
                match whose {
                    None => self.pass_multicast(p, m),
                    Some(n) => match route {
                        Route::Numbers => self.pass_shared(n, p, m),
                        _ => self.pass_number(n, p, m),
                    },
                }
            }
        }
    }

    /// Removes the first entry and returns its item, if no list waits for it.
    pub fn pop_unawaited(&mut self) -> Option<T>
        requires { IsSound self.old }
        ensures taken { IfSome result (λ x. (route : Way)
            × (entries_of self.old ≡ entry x route ∷ entries_of self.new)) }
        ensures same { SameLists (pending_of self.old) (pending_of self.new) }
        ensures sound { IsSound self.new }
        ensures left { IsNone result → entries_of self.new ≡ entries_of self.old }
        ensures trimmed { IsNone result → IsTrimmed self.new }
        ensures room { KeepsRoom self.old self.new }
        ensures place_room { KeepsPlaceRoom self.old self.new }
    {
        let route = match self.entries.front() {
            None => return None,
            Some(first) => first.route,
        };
        if self.is_awaited(route) {
            return None;
        }
        match self.forget(route) {
            None => None,
            Some(first) => Some(first.item),
        }
    }

    /// Makes room for n more entries. Takes no memory if the room exists already.
    ///
    /// Refused if memory runs out, or if the positions of the entries would exceed 64 bits; then all lists are as they
    /// were.
    pub fn reserve(&mut self, n: usize) -> Result<(), AllocError>
        requires { IsTrimmed self.old }
        ensures entries { entries_of self.new ≡ entries_of self.old }
        ensures same { SameLists (pending_of self.old) (pending_of self.new) }
        ensures trimmed { IsTrimmed self.new }
        ensures room { OnOk result (HasRoom n self.new) }
        ensures enough { HasRoom n self.old → IsOk result }
        ensures kept { KeepsRoom self.old self.new }
        ensures place_room { KeepsPlaceRoom self.old self.new }
    {
        let end = self.base + self.entries.len() as u64;
        if n as u64 > u64::MAX - end {
            return Err(AllocError);
        }
        self.entries.reserve(n)?;
        self.links.reserve(n)?;
        self.shared.reserve(n)?;
        Ok(())
    }

    /// Stores an entry after the others. It must have a receiver, and the room must exist.
    pub fn push(&mut self, added: Entry<T>)
        requires trimmed { IsTrimmed self.old }
        requires reader { HasReader (pending_of self.old) added.route }
        requires room { HasRoom 1 self.old }
        ensures entries { entries_of self.new ≡ entries_of self.old ++ added ∷ [] }
        ensures more { Gains (pending_of self.old) added (pending_of self.new) }
        ensures trimmed { IsTrimmed self.new }
        ensures room { LeavesRoom self.old self.new }
        ensures place_room { KeepsPlaceRoom self.old self.new }
    {
        let Entry { item, route } = added;
        match route {
            Route::Multicast => {
                if let Some(p) = self.multicast {
                    self.add_to_multicast(item, p);
                }
            }
            Route::Number(n) => {
                if let Some(p) = self.place(Some(n)) {
                    self.add_to_number(item, n, p);
                }
            }
            Route::Numbers => self.add_to_numbers(item),
        }
    }

    /// Returns the number of kept entries: 0 exactly if no list waits for anything.
    pub fn len(&self) -> usize
        requires { IsTrimmed self.now }
        ensures len { result ≡ length (entries_of self.now) }
        ensures none { (result ≡ 0)
            ↔ ((w : Option ℕ) (xs : List T) → pending_of self.now w ≡ Some xs → xs ≡ []) }
    {
        self.entries.len()
    }
}
