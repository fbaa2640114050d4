//! A store with a limit.

ghost use Rattle.std.specs.Prelude.{◌≡◌, ◌++◌, ℕ, [], Option, Some, IsOk, OnOk, OnErr, is_some, option_map};
ghost use Rattle.neli.specs.deliveries.Deliveries.{datagram_share};
ghost use Rattle.neli.specs.log.Log.{byte_count, pending_of};
ghost use Rattle.neli.specs.reader.Agreement.{untyped_layout};
ghost use Rattle.neli.specs.reader.Cuts.{cut_of};
ghost use Rattle.example_store.specs.Limited.{StaysWithin};

use neli::consts::nl::NlType;
use neli::err::{NoMemory, RouterError, SocketError};
use neli::nl::Nlmsghdr;
use neli::router::synchronous::{Deliveries, Heading, Log};
use neli::utils::Groups;
use neli::{FromBytesWithInput, Size};
use std::alloc::Global;

/// The shared log, with a limit on the bytes of the datagrams that it keeps.
///
/// A datagram that would exceed the limit is refused as out of memory, even if no handle waits for it. Pass it in again
/// after a read or a close.
#[derive(Drop)]
pub struct Limited<const LIMIT: usize> {
    log: Log,
}

impl<const LIMIT: usize> Limited<LIMIT> {
    /// The log, which reports how much it keeps.
    pub fn log(&self) -> &Log
        ensures { result.now ≡ self.now.log }
    {
        &self.log
    }
}

impl<const LIMIT: usize> Deliveries for Limited<LIMIT> {
    ghost port_of = { λ s. s.log.port };

    ghost pending = { λ s. pending_of s.log };

    fn new(alloc: Global, port: u32) -> Self {
        Limited {
            log: Log::new(alloc, port),
        }
    }

    fn port(&self) -> u32 {
        self.log.port()
    }

    fn is_open(&self, whose: Option<u32>) -> bool {
        self.log.is_open(whose)
    }

    fn open(&mut self, number: u32) -> Result<(), NoMemory> {
        self.log.open(number)
    }

    fn close(&mut self, whose: Option<u32>) {
        self.log.close(whose);
    }

    /// The kept bytes never grow above the limit.
    #[tactic(auto, using(crate::proofs::Limits::stays_within))]
    fn datagram(&mut self, bytes: &[u8], groups: &Groups) -> Result<(), NoMemory>
        ensures port { self.new.log.port ≡ self.old.log.port }
        ensures ok { OnOk result ((w : Option ℕ) → pending_of self.new.log w
            ≡ option_map (λ ds. ds ++ datagram_share self.old.log.port
            (λ q. is_some (pending_of self.old.log (Some q))) w
            (cut_of untyped_layout bytes.now) groups.now) (pending_of self.old.log w)) }
        ensures unchanged { OnErr result ((w : Option ℕ)
            → pending_of self.new.log w ≡ pending_of self.old.log w) }
        ensures empty { bytes.now ≡ [] → IsOk result }
        ensures limit { StaysWithin LIMIT (byte_count self.old.log) (byte_count self.new.log) }
    {
        if LIMIT.saturating_sub(self.log.kept_bytes()) < bytes.len() {
            return Err(NoMemory);
        }
        self.log.datagram(bytes, groups)
    }

    fn fault(&mut self, error: SocketError) -> Result<(), NoMemory> {
        self.log.fault(error)
    }

    fn first<T: NlType, P: FromBytesWithInput + Size>(
        &self,
        alloc: Global,
        whose: Option<u32>,
    ) -> Result<Option<Result<Nlmsghdr<T, P>, RouterError<T, P>>>, NoMemory> {
        self.log.first(alloc, whose)
    }

    fn first_heading(&self, whose: Option<u32>) -> Option<Heading> {
        self.log.first_heading(whose)
    }

    fn drop_first(&mut self, whose: Option<u32>) {
        self.log.drop_first(whose);
    }

    fn clear(&mut self, whose: Option<u32>) {
        self.log.clear(whose);
    }
}
