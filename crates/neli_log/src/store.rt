//! The parts of a log, and the operations on them.

ghost use Rattle.std.specs.Prelude.{◌≡◌, ◌↔◌, ◌++◌, ◌+◌, ◌≤◌, ℕ, List, [], ◌∷◌, Option, None, Some, IfOk};
ghost use Rattle.std.specs.Prelude.{IsOk};
ghost use Rattle.std.specs.Prelude.{OnErr, OnOk, is_some, length, map, option_map, true};
ghost use Rattle.neli_deliveries.specs.Lists.{ListsGain, Opens, SameLists, SameListsBut};
ghost use Rattle.neli_deliveries.specs.declared.delivery.Delivery.{Delivery as Waiting};
ghost use Rattle.neli_deliveries.specs.Deliveries.{fault_share, head_of, is_would_block};
ghost use Rattle.neli_deliveries.specs.Readings.{FirstTakesMemory, IsFirst, IsReading, ReadingTakesMemory};
ghost use Rattle.neli_log.specs.Places.{pending_of as items_of};
ghost use Rattle.neli_log.specs.Spans.{AreSpansOf, next_serial, span_bytes};
ghost use Rattle.neli_log.specs.Contents.{AreMessages, IsReadable, delivery_of, entry_read, part_of};
ghost use Rattle.neli_log.specs.Contents.{spans_of};
ghost use Rattle.neli_log.specs.Log.{IsAsBefore, IsTrimmedAndBacked, IsUntrimmed, Keeps, KeepsEachOnce};
ghost use Rattle.neli_log.specs.Log.{KeepsEntries};
ghost use Rattle.neli_log.specs.Log.{KeepsNoMore, byte_count, entries_read, entry_count, pending_of};
ghost use Rattle.neli_log.specs.Log.{routed_by};
ghost use Rattle.neli_log.specs.Log.{share_of};
ghost use Rattle.neli_log.specs.Staged.{HaveReaders, deliveries_added};

use crate::content::Content;
use crate::handing::{keep_copy, push_all, release, span_count};
use crate::reading::typed;
use crate::staging::staged;
use crate::{Datagrams, Entry, Places, Route};
use neli_consts::NlType;
use neli_reader::{Nlmsghdr, RouterError, SocketError};
use neli_util::Groups;
use neli_wire::{FromBytesWithInput, NoMemory, Size};
use std::alloc::Global;
use std::io::ErrorKind;

/// The entries and the places among them, and the datagrams that the entries' spans name.
#[derive(Drop)]
pub(crate) struct Store {
    pub(crate) port: u32,
    pub(crate) alloc: Global,
    pub(crate) places: Places<Content>,
    pub(crate) datagrams: Datagrams,
}

/// Whether the error is that the link would block.
fn would_block(error: &SocketError) -> bool
    ensures { result ≡ is_would_block error.now }
{
    matches!(error, SocketError::Io(ErrorKind::WouldBlock))
}

impl Store {
    /// An empty store for a router with this port. It takes no memory.
    pub(crate) fn new(alloc: Global, port: u32) -> Self
        ensures port { result.port ≡ port }
        ensures multicast { pending_of result None ≡ Some [] }
        ensures numbers { (q : ℕ) → pending_of result (Some q) ≡ None }
        ensures log { IsTrimmedAndBacked result }
    {
        Store {
            port,
            alloc,
            places: Places::new(alloc),
            datagrams: Datagrams::new(alloc),
        }
    }

    /// Whether a list for this number, or for multicast, is open.
    pub(crate) fn is_open(&self, whose: Option<u32>) -> bool
        ensures { result ≡ is_some (pending_of self.now whose) }
    {
        self.places.is_open(whose)
    }

    /// Removes the entries for which no list waits any more.
    fn trim(&mut self)
        requires { IsUntrimmed self.old }
        ensures port { self.new.port ≡ self.old.port }
        ensures same { SameLists (pending_of self.old) (pending_of self.new) }
        ensures fewer { KeepsNoMore self.old self.new }
        ensures log { IsTrimmedAndBacked self.new }
    {
        while let Some(content) = self.places.pop_unawaited() {
            release(&mut self.datagrams, content);
        }
    }

    /// Opens an empty list for a number.
    pub(crate) fn open(&mut self, number: u32) -> Result<(), NoMemory>
        requires closed { pending_of self.old (Some number) ≡ None }
        requires log { IsTrimmedAndBacked self.old }
        ensures port { self.new.port ≡ self.old.port }
        ensures opened { OnOk result (Opens number (pending_of self.old) (pending_of self.new)) }
        ensures unchanged { OnErr result (SameLists (pending_of self.old) (pending_of self.new)) }
        ensures left { IsAsBefore self.old self.new }
        ensures log { IsTrimmedAndBacked self.new }
    {
        self.places.open(number)?;
        Ok(())
    }

    /// Removes a list with its deliveries.
    pub(crate) fn close(&mut self, whose: Option<u32>)
        requires { IsTrimmedAndBacked self.old }
        ensures port { self.new.port ≡ self.old.port }
        ensures closed { pending_of self.new whose ≡ None }
        ensures others { SameListsBut whose (pending_of self.old) (pending_of self.new) }
        ensures fewer { KeepsNoMore self.old self.new }
        ensures log { IsTrimmedAndBacked self.new }
    {
        self.places.remove(whose);
        self.trim();
    }

    /// Removes the first delivery that waits.
    pub(crate) fn drop_first(&mut self, whose: Option<u32>)
        requires { IsTrimmedAndBacked self.old }
        ensures port { self.new.port ≡ self.old.port }
        ensures taken { (d : Waiting) (ds : List Waiting)
            → pending_of self.old whose ≡ Some (d ∷ ds) → pending_of self.new whose ≡ Some ds }
        ensures others { SameListsBut whose (pending_of self.old) (pending_of self.new) }
        ensures fewer { KeepsNoMore self.old self.new }
        ensures log { IsTrimmedAndBacked self.new }
    {
        self.places.pass(whose);
        self.trim();
    }

    /// Removes all deliveries of a list, if it is open.
    pub(crate) fn clear(&mut self, whose: Option<u32>)
        requires { IsTrimmedAndBacked self.old }
        ensures port { self.new.port ≡ self.old.port }
        ensures cleared { pending_of self.new whose
            ≡ option_map (λ _. []) (pending_of self.old whose) }
        ensures others { SameListsBut whose (pending_of self.old) (pending_of self.new) }
        ensures fewer { KeepsNoMore self.old self.new }
        ensures log { IsTrimmedAndBacked self.new }
    {
        while self.places.first(whose).is_some() {
            self.drop_first(whose);
        }
    }

    /// Stores these entries, whose spans are of these bytes.
    fn hand_over(&mut self, bytes: &[u8], entries: Vec<Entry<Content>>) -> Result<(), NoMemory>
        requires log { IsTrimmedAndBacked self.old }
        requires spans { AreSpansOf (next_serial self.old.datagrams) (length bytes.now)
            (spans_of entries.items) }
        requires messages { AreMessages (part_of bytes.now) (spans_of entries.items) }
        requires readers { HaveReaders (items_of self.old.places) entries.items }
        ensures port { self.new.port ≡ self.old.port }
        ensures ok { OnOk result (ListsGain (λ w. deliveries_added bytes.now w entries.items)
            (pending_of self.old) (pending_of self.new)) }
        ensures unchanged { OnErr result (SameLists (pending_of self.old) (pending_of self.new)) }
        ensures kept { OnOk result (Keeps self.old self.new bytes.now entries.items) }
        ensures read { OnOk result (entries_read self.new
            ≡ entries_read self.old ++ map (entry_read (part_of bytes.now)) entries.items) }
        ensures left { OnErr result (IsAsBefore self.old self.new) }
        ensures log { IsTrimmedAndBacked self.new }
    {
        self.places.reserve(entries.len())?;
        let spans = span_count(&entries);
        keep_copy(self.alloc, &mut self.datagrams, bytes, spans)?;
        push_all(&mut self.places, entries);
        Ok(())
    }

    /// Delivers the messages and the fault of a datagram that arrived for these groups.
    pub(crate) fn datagram(&mut self, bytes: &[u8], groups: &Groups) -> Result<(), NoMemory>
        requires { IsTrimmedAndBacked self.old }
        ensures port { self.new.port ≡ self.old.port }
        ensures ok { OnOk result (ListsGain (share_of self.old bytes.now groups.now)
            (pending_of self.old) (pending_of self.new)) }
        ensures unchanged { OnErr result (SameLists (pending_of self.old) (pending_of self.new)) }
        ensures empty { bytes.now ≡ [] → IsOk result }
        ensures kept { OnOk result (KeepsEntries self.old self.new bytes.now) }
        ensures once { OnOk result (KeepsEachOnce self.old self.new
            (routed_by self.old bytes.now groups.now)) }
        ensures left { OnErr result (IsAsBefore self.old self.new) }
        ensures log { IsTrimmedAndBacked self.new }
    {
        if bytes.is_empty() {
            return Ok(());
        }
        let serial = self.datagrams.next_serial();
        let entries = staged(self.alloc, self.port, &self.places, serial, bytes, groups)?;
        if entries.is_empty() {
            return Ok(());
        }
        self.hand_over(bytes, entries)
    }

    /// Delivers a fault of the link to each open number, unless the fault is that the link would
    /// block.
    pub(crate) fn fault(&mut self, error: SocketError) -> Result<(), NoMemory>
        requires { IsTrimmedAndBacked self.old }
        ensures port { self.new.port ≡ self.old.port }
        ensures ok { OnOk result (ListsGain (λ w. fault_share w error)
            (pending_of self.old) (pending_of self.new)) }
        ensures unchanged { OnErr result (SameLists (pending_of self.old) (pending_of self.new)) }
        ensures would_block { is_would_block error ≡ true → IsOk result }
        ensures unawaited { ((q : ℕ) → pending_of self.old (Some q) ≡ None) → IsOk result }
        ensures kept { OnOk result (KeepsEntries self.old self.new []) }
        ensures once { entry_count self.new ≤ entry_count self.old + 1 }
        ensures left { OnErr result (IsAsBefore self.old self.new) }
        ensures log { IsTrimmedAndBacked self.new }
    {
        if would_block(&error) {
            return Ok(());
        }
        if !self.places.has_reader(Route::Numbers) {
            return Ok(());
        }
        let fault = Box::new(self.alloc, error)?;
        self.places.reserve(1)?;
        self.places.push(Entry {
            item: Content::Fault(fault),
            route: Route::Numbers,
        });
        Ok(())
    }

    /// An entry's delivery as these types: a message, or why there is none.
    fn read<T: NlType, P: FromBytesWithInput + Size>(
        &self,
        alloc: Global,
        content: &Content,
    ) -> Result<Result<Nlmsghdr<T, P>, RouterError<T, P>>, NoMemory>
        requires { IsReadable self.now.datagrams content.now }
        ensures value { IfOk result (IsReading T.wire_value P.view P.wire_length P.read
            (delivery_of (span_bytes self.now.datagrams) content.now)) }
        ensures memory { OnErr result (ReadingTakesMemory P.takes_memory
            (delivery_of (span_bytes self.now.datagrams) content.now)) }
    {
        match content {
            Content::Message(span) => typed(alloc, self.datagrams.span_bytes(*span)),
            Content::Stray(span) => match typed(alloc, self.datagrams.span_bytes(*span))? {
                Ok(message) => Ok(Err(RouterError::BadSeqOrPid(message))),
                Err(error) => Ok(Err(error)),
            },
            Content::Fault(error) => Ok(Err(RouterError::Socket(error.try_clone()?))),
        }
    }

    /// Returns the first delivery that waits, read as these types, or that nothing waits.
    pub(crate) fn first<T: NlType, P: FromBytesWithInput + Size>(
        &self,
        alloc: Global,
        whose: Option<u32>,
    ) -> Result<Option<Result<Nlmsghdr<T, P>, RouterError<T, P>>>, NoMemory>
        requires { IsTrimmedAndBacked self.now }
        ensures first { IfOk result (IsFirst T.wire_value P.view P.wire_length P.read
            (head_of (pending_of self.now whose))) }
        ensures nothing { head_of (pending_of self.now whose) ≡ None → IsOk result }
        ensures memory { OnErr result
            (FirstTakesMemory P.takes_memory (head_of (pending_of self.now whose))) }
    {
        match self.places.first(whose) {
            None => Ok(None),
            Some(content) => Ok(Some(self.read(alloc, content)?)),
        }
    }

    /// Returns the number of kept entries.
    pub(crate) fn kept(&self) -> usize
        requires { IsTrimmedAndBacked self.now }
        ensures kept { result ≡ entry_count self.now }
        ensures none { (result ≡ 0) ↔ ((w : Option ℕ) (ds : List Waiting)
            → pending_of self.now w ≡ Some ds → ds ≡ []) }
    {
        self.places.len()
    }

    /// Returns the number of kept bytes of datagrams.
    pub(crate) fn kept_bytes(&self) -> usize
        requires { IsTrimmedAndBacked self.now }
        ensures bytes { result ≡ byte_count self.now }
        ensures none { entry_count self.now ≡ 0 → result ≡ 0 }
    {
        self.datagrams.byte_count()
    }
}
