//! The log as a store of deliveries.

ghost use Rattle.std.specs.Prelude.{◌≡◌, ◌↔◌, ◌≤◌, ◌+◌, ℕ, List, [], ◌∷◌, Option, None, Some, IsOk, OnErr};
ghost use Rattle.std.specs.Prelude.{OnOk, option_map, true};
ghost use Rattle.neli_deliveries.specs.Lists.{ListsGain, Opens, SameLists, SameListsBut};
ghost use Rattle.neli_deliveries.specs.declared.delivery.Delivery.{Delivery as Waiting};
ghost use Rattle.neli_deliveries.specs.Deliveries.{fault_share, is_would_block};
ghost use Rattle.neli_log.specs.Log.{IsAsBefore, KeepsEachOnce, KeepsEntries, KeepsNoMore, byte_count};
ghost use Rattle.neli_log.specs.Log.{entry_count};
ghost use Rattle.neli_log.specs.Log.{pending_of, routed_by, share_of};

use crate::store::Store;
use neli_consts::NlType;
use neli_deliveries::{Deliveries, Heading};
use neli_reader::{Nlmsghdr, RouterError, SocketError};
use neli_util::Groups;
use neli_wire::{FromBytesWithInput, NoMemory, Size};
use std::alloc::Global;
use std::marker::Model;

/// One list of entries, in which each open number and multicast have a place; the messages are spans of the datagrams
/// that arrived.
///
/// A stray or a fault is one entry, however many numbers are open. No clause speaks of time: as the code is written, a
/// message for one handle costs a look-up by its number, and a read or a close costs that and what it frees, however
/// many numbers are open and however much waits.
#[derive(Drop)]
pub struct Log {
    pub(crate) store: Store,
}

impl Model for Log {
    ghost use Rattle.neli_log.specs.declared.store.Store.{Store};
    ghost use Rattle.neli_log.specs.Log.{IsTrimmedAndBacked};
    ghost use Rattle.neli_log.specs.contracts.store.Store as e;

    ghost Value = { Store };

    ghost coded = { e.the_row.coded };

    ghost view = { λ l. l.store };

    ghost invariant = { λ l. IsTrimmedAndBacked l.store };
}

impl Log {
    /// Returns the number of kept entries: 0 exactly if nothing waits anywhere. It takes no memory.
    pub fn kept(&self) -> usize
        ensures kept { result ≡ entry_count self.now }
        ensures none { (result ≡ 0) ↔ ((w : Option ℕ) (ds : List Waiting)
            → pending_of self.now w ≡ Some ds → ds ≡ []) }
    {
        self.store.kept()
    }

    /// Returns the number of bytes in the kept datagrams, each counted once; 0 if no entry is kept. It takes no memory.
    pub fn kept_bytes(&self) -> usize
        ensures bytes { result ≡ byte_count self.now }
        ensures none { entry_count self.now ≡ 0 → result ≡ 0 }
    {
        self.store.kept_bytes()
    }
}

impl Deliveries for Log {
    ghost port_of = { λ s. s.port };

    ghost pending = { pending_of };

    fn new(alloc: Global, port: u32) -> Self {
        Log {
            store: Store::new(alloc, port),
        }
    }

    fn port(&self) -> u32 {
        self.store.port
    }

    fn is_open(&self, whose: Option<u32>) -> bool {
        self.store.is_open(whose)
    }

    /// Adds and removes no entry and no byte.
    fn open(&mut self, number: u32) -> Result<(), NoMemory>
        requires { pending_of self.old (Some number) ≡ None }
        ensures port { self.new.port ≡ self.old.port }
        ensures opened { OnOk result (Opens number (pending_of self.old) (pending_of self.new)) }
        ensures unchanged { OnErr result (SameLists (pending_of self.old) (pending_of self.new)) }
        ensures left { IsAsBefore self.old self.new }
    {
        self.store.open(number)
    }

    /// Adds no entry and no byte.
    fn close(&mut self, whose: Option<u32>)
        ensures port { self.new.port ≡ self.old.port }
        ensures closed { pending_of self.new whose ≡ None }
        ensures others { SameListsBut whose (pending_of self.old) (pending_of self.new) }
        ensures fewer { KeepsNoMore self.old self.new }
    {
        self.store.close(whose);
    }

    /// Adds one entry for each message that has a receiver, however many wait for it, and one for the fault at the end;
    /// in the datagram's order, and nothing else. The bytes are kept whole if a message of them is, and else not at
    /// all. If memory runs out, entries and bytes are unchanged.
    fn datagram(&mut self, bytes: &[u8], groups: &Groups) -> Result<(), NoMemory>
        ensures port { self.new.port ≡ self.old.port }
        ensures ok { OnOk result (ListsGain (share_of self.old bytes.now groups.now)
            (pending_of self.old) (pending_of self.new)) }
        ensures unchanged { OnErr result (SameLists (pending_of self.old) (pending_of self.new)) }
        ensures empty { bytes.now ≡ [] → IsOk result }
        ensures kept { OnOk result (KeepsEntries self.old self.new bytes.now) }
        ensures once { OnOk result (KeepsEachOnce self.old self.new
            (routed_by self.old bytes.now groups.now)) }
        ensures left { OnErr result (IsAsBefore self.old self.new) }
    {
        self.store.datagram(bytes, groups)
    }

    /// Adds at most one entry, which has a receiver. If no number is open, a fault is not refused. If memory runs out,
    /// entries and bytes are unchanged.
    fn fault(&mut self, error: SocketError) -> Result<(), NoMemory>
        ensures port { self.new.port ≡ self.old.port }
        ensures ok { OnOk result (ListsGain (λ w. fault_share w error)
            (pending_of self.old) (pending_of self.new)) }
        ensures unchanged { OnErr result (SameLists (pending_of self.old) (pending_of self.new)) }
        ensures would_block { is_would_block error ≡ true → IsOk result }
        ensures unawaited { ((q : ℕ) → pending_of self.old (Some q) ≡ None) → IsOk result }
        ensures kept { OnOk result (KeepsEntries self.old self.new []) }
        ensures once { entry_count self.new ≤ entry_count self.old + 1 }
        ensures left { OnErr result (IsAsBefore self.old self.new) }
    {
        self.store.fault(error)
    }

    fn first<T: NlType, P: FromBytesWithInput + Size>(
        &self,
        alloc: Global,
        whose: Option<u32>,
    ) -> Result<Option<Result<Nlmsghdr<T, P>, RouterError<T, P>>>, NoMemory> {
        self.store.first(alloc, whose)
    }

    fn first_heading(&self, whose: Option<u32>) -> Option<Heading> {
        match self.lend_first(whose) {
            None => None,
            Some(delivery) => Some(delivery.heading()),
        }
    }

    /// Adds no entry and no byte.
    fn drop_first(&mut self, whose: Option<u32>)
        requires { (d : Waiting) × (ds : List Waiting)
            × (pending_of self.old whose ≡ Some (d ∷ ds)) }
        ensures port { self.new.port ≡ self.old.port }
        ensures taken { (d : Waiting) (ds : List Waiting)
            → pending_of self.old whose ≡ Some (d ∷ ds) → pending_of self.new whose ≡ Some ds }
        ensures others { SameListsBut whose (pending_of self.old) (pending_of self.new) }
        ensures fewer { KeepsNoMore self.old self.new }
    {
        self.store.drop_first(whose);
    }

    /// Adds no entry and no byte.
    fn clear(&mut self, whose: Option<u32>)
        ensures port { self.new.port ≡ self.old.port }
        ensures cleared { pending_of self.new whose
            ≡ option_map (λ _. []) (pending_of self.old whose) }
        ensures others { SameListsBut whose (pending_of self.old) (pending_of self.new) }
        ensures fewer { KeepsNoMore self.old self.new }
    {
        self.store.clear(whose);
    }
}
