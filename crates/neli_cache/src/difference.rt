//! What became of each object from one table to the next.

ghost use Rattle.std.specs.Prelude.{◌≡◌, ◌∷◌, [], IfSome, IsNone, drop, filter_map, option_and_then, option_map, slice_get};
ghost use Rattle.std.specs.Iterator.{YieldsFirstBy, item_count};
ghost use Rattle.neli_cache.specs.Differences.{changed_from, changes_between, changes_left, gone_from, named};

use crate::{Change, Table};

/// The key of an entry that is new or was changed, and what became of its object.
fn changed_at<'t>(before: &Table, now: &'t Table, index: usize) -> Option<(&'t [u8], Change)>
    ensures { option_map named result
        ≡ option_and_then (changed_from before.now) (slice_get now.now index) }
{
    match now.entry(index) {
        None => None,
        Some((key, payload)) => match Change::between(before.get(key), Some(payload)) {
            None => None,
            Some(change) => Some((key, change)),
        },
    }
}

/// The key of an entry that is gone.
fn gone_at<'t>(before: &'t Table, now: &Table, index: usize) -> Option<(&'t [u8], Change)>
    ensures { option_map named result
        ≡ option_and_then (gone_from now.now) (slice_get before.now index) }
{
    match before.entry(index) {
        None => None,
        Some((key, _)) => match now.get(key) {
            None => Some((key, Change::Gone)),
            Some(_) => None,
        },
    }
}

/// The first object from an index on that is new, or was changed: its key, what became of it, and the index after it.
#[tactic(auto, using(crate::proofs::Steps::filtered_step))]
fn next_changed<'t>(
    before: &Table,
    now: &'t Table,
    from: usize,
) -> Option<((&'t [u8], Change), usize)>
    ensures none { IsNone result → filter_map (changed_from before.now) (drop from now.now) ≡ [] }
    ensures some { IfSome result (λ r. filter_map (changed_from before.now) (drop from now.now)
        ≡ named r.0 ∷ filter_map (changed_from before.now) (drop r.1 now.now)) }
{
    for index in from..now.len() {
        if let Some(changed) = changed_at(before, now, index) {
            return Some((changed, index + 1));
        }
    }
    None
}

/// The first object from an index on that is gone, and the index after it.
#[tactic(auto, using(crate::proofs::Steps::filtered_step))]
fn next_gone<'t>(before: &'t Table, now: &Table, from: usize) -> Option<((&'t [u8], Change), usize)>
    ensures none { IsNone result → filter_map (gone_from now.now) (drop from before.now) ≡ [] }
    ensures some { IfSome result (λ r. filter_map (gone_from now.now) (drop from before.now)
        ≡ named r.0 ∷ filter_map (gone_from now.now) (drop r.1 before.now)) }
{
    for index in from..before.len() {
        if let Some(gone) = gone_at(before, now, index) {
            return Some((gone, index + 1));
        }
    }
    None
}

/// What became of each object from one table to the next, each once: first those that are new or were changed, then
/// those that are gone.
#[derive(Drop)]
pub struct Changes<'t> {
    before: &'t Table,
    now: &'t Table,
    /// The indices of the entries to look at next: of the table now, and then of the one before.
    next: usize,
    next_before: usize,
}

impl<'t> Changes<'t> {
    /// What became of each object of these tables.
    pub fn new(before: &'t Table, now: &'t Table) -> Changes<'t>
        ensures { changes_left result ≡ changes_between before.now now.now }
    {
        Changes {
            before,
            now,
            next: 0,
            next_before: 0,
        }
    }
}

impl<'t> Iterator for Changes<'t> {
    type Item = (&'t [u8], Change);

    ghost next_gives = { YieldsFirstBy named changes_left };

    ghost remaining = { item_count changes_left };

    fn next(&mut self) -> Option<(&'t [u8], Change)> {
        if let Some((changed, next)) = next_changed(self.before, self.now, self.next) {
            self.next = next;
            return Some(changed);
        }
        self.next = self.now.len();
        if let Some((gone, next)) = next_gone(self.before, self.now, self.next_before) {
            self.next_before = next;
            return Some(gone);
        }
        self.next_before = self.before.len();
        None
    }
}
