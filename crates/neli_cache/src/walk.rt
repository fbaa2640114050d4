//! The objects of a table, one by one.

ghost use Rattle.std.specs.Prelude.{◌≡◌, ◌∷◌, [], IfSome, IsNone, drop};
ghost use Rattle.std.specs.Iterator.{YieldsFirstBy, item_count};
ghost use Rattle.std.specs.Map.Iter.{deref_pair};
ghost use Rattle.neli_cache.specs.Walks.{entries_left};

use crate::Table;

/// The entry at an index, and the index after it.
#[tactic(auto, using(crate::proofs::Steps::entry_step, crate::proofs::Steps::entry_none))]
fn entry_at<'t>(table: &'t Table, index: usize) -> Option<((&'t [u8], &'t [u8]), usize)>
    ensures none { IsNone result → drop index table.now ≡ [] }
    ensures some { IfSome result (λ r. drop index table.now ≡ deref_pair r.0 ∷ drop r.1 table.now) }
{
    if index >= table.len() {
        return None;
    }
    match table.entry(index) {
        None => None,
        Some(entry) => Some((entry, index + 1)),
    }
}

/// The objects of a table, each with its key and its payload.
#[derive(Drop)]
pub struct Entries<'t> {
    table: &'t Table,
    next: usize,
}

impl<'t> Entries<'t> {
    /// All objects of a table.
    pub(crate) fn new(table: &'t Table) -> Entries<'t>
        ensures { entries_left result ≡ table.now }
    {
        Entries { table, next: 0 }
    }
}

impl<'t> Iterator for Entries<'t> {
    type Item = (&'t [u8], &'t [u8]);

    ghost next_gives = { YieldsFirstBy deref_pair entries_left };

    ghost remaining = { item_count entries_left };

    fn next(&mut self) -> Option<(&'t [u8], &'t [u8])> {
        match entry_at(self.table, self.next) {
            None => None,
            Some((entry, next)) => {
                self.next = next;
                Some(entry)
            }
        }
    }
}
