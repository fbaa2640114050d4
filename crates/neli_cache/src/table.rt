//! Objects by their keys.

ghost use Rattle.std.specs.Prelude.{◌≡◌, ℕ, [], List, None, Some, IfOk, OnErr, OnOk, length, option_map, slice_get};
ghost use Rattle.std.specs.Option.{option_copied};
ghost use Rattle.std.specs.Map.Iter.{deref_pair};
ghost use Rattle.neli_cache.specs.Changes.{change_of};
ghost use Rattle.neli_cache.specs.Walks.{entries_left};
ghost use Rattle.neli_cache.specs.Tables.{AreKeyed, at, put_at, shown};

use crate::{Change, Entries};
use indexmap::IndexMap;
use neli_wire::NoMemory;
use std::alloc::Global;
use std::marker::Model;

/// Takes out what has a key.
fn remove(entries: &mut IndexMap<Vec<u8>, Vec<u8>>, key: &[u8])
    ensures { (q : List ℕ) → at q (shown entries.new.entries)
        ≡ put_at key.now None q (at q (shown entries.old.entries)) }
{
    let _ = entries.swap_remove(key);
}

/// Puts a payload in with a key. Refused only if memory runs out; then nothing changes.
fn insert(
    entries: &mut IndexMap<Vec<u8>, Vec<u8>>,
    key: Vec<u8>,
    payload: Vec<u8>,
) -> Result<(), NoMemory>
    ensures inserted { OnOk result ((q : List ℕ) → at q (shown entries.new.entries)
        ≡ put_at key.items (Some payload.items) q (at q (shown entries.old.entries))) }
    ensures unchanged { OnErr result (entries.new.entries ≡ entries.old.entries) }
{
    match entries.insert(key, payload) {
        Ok(_) => Ok(()),
        Err(_) => Err(NoMemory),
    }
}

/// Objects by their keys: of each the payload of the last message that said it was there.
#[derive(Drop)]
pub struct Table {
    entries: IndexMap<Vec<u8>, Vec<u8>>,
}

impl Model for Table {
    ghost use Rattle.neli_cache.specs.Tables.{Objects, shown};

    ghost Value = { Objects };

    ghost view = { λ t. shown t.entries.entries };
}

impl Table {
    /// A table without objects. It takes no memory.
    pub(crate) fn new(alloc: Global) -> Table
        ensures { result ≡ [] }
    {
        Table {
            entries: IndexMap::new(alloc),
        }
    }

    /// The number of objects.
    pub fn len(&self) -> usize
        ensures length { result ≡ length self.now }
        ensures keyed { AreKeyed self.now }
    {
        self.entries.len()
    }

    /// The payload of the object with a key.
    pub fn get(&self, key: &[u8]) -> Option<&[u8]>
        ensures { option_copied result ≡ at key.now self.now }
    {
        match self.entries.get(key) {
            None => None,
            Some(payload) => Some(payload.as_slice()),
        }
    }

    /// The objects, each with its key and its payload.
    pub fn iter(&self) -> Entries<'_>
        ensures { entries_left result ≡ self.now }
    {
        Entries::new(self)
    }

    /// The key and the payload of the object at an index, below [`Table::len`]. Their order is kept until an object
    /// goes.
    pub fn entry(&self, index: usize) -> Option<(&[u8], &[u8])>
        ensures { option_map deref_pair result ≡ slice_get self.now index }
    {
        match self.entries.get_index(index) {
            None => None,
            Some((key, payload)) => Some((key.as_slice(), payload.as_slice())),
        }
    }

    /// Puts an object in with a key, or takes it out where there is none; returns what became of it. Refused only if
    /// memory runs out; then nothing changes.
    pub(crate) fn put(
        &mut self,
        alloc: Global,
        key: Vec<u8>,
        payload: Option<&[u8]>,
    ) -> Result<Option<Change>, NoMemory>
        ensures put { OnOk result ((q : List ℕ) → at q self.new
            ≡ put_at key.items (option_copied payload.entry) q (at q self.old)) }
        ensures change { IfOk result (λ c. c
            ≡ change_of (at key.items self.old) (option_copied payload.entry)) }
        ensures unchanged { OnErr result (self.new ≡ self.old) }
    {
        let change = Change::between(self.get(&key), payload);
        match payload {
            None => {
                remove(&mut self.entries, &key);
            }
            Some(payload) => {
                let kept = Vec::from_slice(alloc, payload)?;
                insert(&mut self.entries, key, kept)?;
            }
        }
        Ok(change)
    }
}
