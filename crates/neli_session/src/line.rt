//! The requests by their numbers, and the line of those that have something to read.

ghost use Rattle.std.specs.Prelude.{◌≡◌, ◌==◌, ℕ, [], Some, None, OnErr, OnOk, false, true, if◌then◌else◌, nat_eq, option_copied};
ghost use Rattle.neli_session.specs.Lines.{Joins, Leaves, SameLinks, SameRequests, StaysInLine, end_with, link_at, link_if, link_of, with_after, with_before};
ghost use Rattle.neli_session.specs.Readiness.{IsTurned, Reads, Shifts};
ghost use Rattle.neli_session.specs.Requests.{of_number};
ghost use Rattle.neli_session.specs.Sessions.{kept};

use crate::request::Request;
use crate::turn::Turn;
use indexmap::IndexMap;
use neli_wire::NoMemory;
use std::alloc::Global;

/// The neighbours of a number that stands in the line.
#[derive(Clone, Copy, Debug)]
pub(crate) struct Link {
    before: Option<u32>,
    after: Option<u32>,
}

/// A request, and its neighbours while its number stands in the line.
#[derive(Drop)]
pub(crate) struct Place {
    pub(crate) request: Request,
    link: Link,
}

impl Place {
    /// The place of a request whose number does not stand in the line.
    pub(crate) fn new(request: Request) -> Place
        ensures { result.request ≡ request }
    {
        Place {
            request,
            link: Link {
                before: None,
                after: None,
            },
        }
    }
}

/// Writes the link of a number, if it has a place.
fn set_link(places: &mut IndexMap<u32, Place>, number: u32, link: Link)
    ensures links { (q : ℕ) → link_of q places.new.entries
        ≡ link_at number (λ _. link) q (link_of q places.old.entries) }
    ensures requests { SameRequests places.old.entries places.new.entries }
{
    if let Some(place) = places.get_mut(&number) {
        place.link = link;
    }
}

/// Writes which number follows one: which is the first in line, if it follows none.
fn set_after(
    places: &mut IndexMap<u32, Place>,
    first: &mut Option<u32>,
    before: Option<u32>,
    after: Option<u32>,
)
    ensures links { (q : ℕ) → link_of q places.new.entries
        ≡ link_if before (with_after after) q (link_of q places.old.entries) }
    ensures requests { SameRequests places.old.entries places.new.entries }
    ensures first { first.new ≡ end_with before after first.old }
{
    match before {
        None => *first = after,
        Some(number) => {
            if let Some(place) = places.get_mut(&number) {
                place.link.after = after;
            }
        }
    }
}

/// Writes which number one follows: which is the last in line, if none follows it.
fn set_before(
    places: &mut IndexMap<u32, Place>,
    last: &mut Option<u32>,
    after: Option<u32>,
    before: Option<u32>,
)
    ensures links { (q : ℕ) → link_of q places.new.entries
        ≡ link_if after (with_before before) q (link_of q places.old.entries) }
    ensures requests { SameRequests places.old.entries places.new.entries }
    ensures last { last.new ≡ end_with after before last.old }
{
    match after {
        None => *last = before,
        Some(number) => {
            if let Some(place) = places.get_mut(&number) {
                place.link.before = before;
            }
        }
    }
}

/// The requests by their numbers, and the ends of the line.
#[derive(Drop)]
pub(crate) struct Line {
    pub(crate) places: IndexMap<u32, Place>,
    first: Option<u32>,
    last: Option<u32>,
}

impl Line {
    /// No requests, and an empty line. It takes no memory.
    pub(crate) fn new(alloc: Global) -> Line
        ensures places { result.places.entries ≡ [] }
        ensures first { result.first ≡ None }
        ensures last { result.last ≡ None }
    {
        Line {
            places: IndexMap::new(alloc),
            first: None,
            last: None,
        }
    }

    /// The first number in line.
    pub(crate) fn first(&self) -> Option<u32>
        ensures { result ≡ self.now.first }
    {
        self.first
    }

    /// The request with a number.
    pub(crate) fn get(&self, number: u32) -> Option<&Request>
        ensures { option_copied result ≡ of_number number self.now.places.entries }
    {
        match self.places.get(&number) {
            None => None,
            Some(place) => Some(&place.request),
        }
    }

    /// Appends a number to the line.
    fn join(&mut self, number: u32)
        ensures line { Joins number self.old self.new }
        ensures requests { SameRequests self.old.places.entries self.new.places.entries }
    {
        let link = Link {
            before: self.last,
            after: None,
        };
        set_link(&mut self.places, number, link);
        set_after(&mut self.places, &mut self.first, self.last, Some(number));
        self.last = Some(number);
    }

    /// Takes a number out of the line.
    fn leave(&mut self, number: u32)
        ensures line { Leaves number self.old self.new }
        ensures requests { SameRequests self.old.places.entries self.new.places.entries }
    {
        let link = match self.places.get(&number) {
            None => return,
            Some(place) => place.link,
        };
        set_after(&mut self.places, &mut self.first, link.before, link.after);
        set_before(&mut self.places, &mut self.last, link.after, link.before);
    }

    /// Whether a number is the last in line.
    fn is_last(&self, number: u32) -> bool
        ensures { result ≡ true → self.now.last ≡ Some number }
    {
        match self.last {
            None => false,
            Some(last) => last == number,
        }
    }

    /// Adds a request with a number that is not in use. Refused only if memory runs out; then nothing changes.
    pub(crate) fn add(&mut self, number: u32, request: Request) -> Result<(), NoMemory>
        requires { of_number number self.old.places.entries ≡ None }
        ensures line { StaysInLine number self.old self.new }
        ensures added { OnOk result ((q : ℕ) → of_number q self.new.places.entries
            ≡ (if number == q then Some request else of_number q self.old.places.entries)) }
        ensures unchanged { OnErr result
            (SameRequests self.old.places.entries self.new.places.entries) }
    {
        match self.places.insert(number, Place::new(request)) {
            Ok(_) => Ok(()),
            Err(_) => Err(NoMemory),
        }
    }

    /// Removes the request with a number, which does not stand in line.
    pub(crate) fn remove(&mut self, number: u32)
        ensures line { StaysInLine number self.old self.new }
        ensures removed { (q : ℕ) → of_number q self.new.places.entries
            ≡ (if number == q then None else of_number q self.old.places.entries) }
    {
        let _ = self.places.swap_remove(&number);
    }

    /// Puts a number into line, or takes it out.
    fn shift(&mut self, number: u32, was_ready: bool, is_ready: bool)
        ensures line { Shifts number was_ready is_ready self.old self.new }
        ensures requests { SameRequests self.old.places.entries self.new.places.entries }
    {
        match (was_ready, is_ready) {
            (true, true) => {}
            (false, false) => {}
            (true, false) => self.leave(number),
            (false, true) => self.join(number),
        }
    }

    /// The same after a change of its request, which is removed if its number is not in use any more.
    pub(crate) fn settle(&mut self, number: u32, turn: Turn)
        requires { IsTurned (of_number number self.old.places.entries) turn }
        ensures line { Shifts number turn.was_ready turn.is_ready self.old self.new }
        ensures own { of_number number self.new.places.entries
            ≡ kept (of_number number self.old.places.entries) }
        ensures others { (q : ℕ) → nat_eq number q ≡ false
            → of_number q self.new.places.entries ≡ of_number q self.old.places.entries }
    {
        self.shift(number, turn.was_ready, turn.is_ready);
        if turn.stays {
            return;
        }
        self.remove(number);
    }

    /// Puts a number that was read at the end of the line, or takes it out.
    pub(crate) fn settle_read(&mut self, number: u32, turn: Turn)
        ensures line { Reads number turn.was_ready turn.is_ready self.old self.new }
        ensures requests { SameRequests self.old.places.entries self.new.places.entries }
    {
        if turn.is_ready && self.is_last(number) {
            return;
        }
        self.shift(number, turn.was_ready, false);
        self.shift(number, false, turn.is_ready);
    }
}
