//! A list of deliveries for each open number.

ghost use Rattle.std.specs.Prelude.{◌≡◌, ◌++◌, ℕ, Option, IfOk, OnOk, OnErr, option_map};
ghost use Rattle.neli_reader.specs.Agreement.{untyped_layout};
ghost use Rattle.neli_reader.specs.Cuts.{cut_of};
ghost use Rattle.neli_deliveries.specs.Lists.{ListsGain};
ghost use Rattle.neli_deliveries.specs.Deliveries.{is_would_block, datagram_share};
ghost use Rattle.neli_queues.specs.Pieces.{is_open};
ghost use Rattle.neli_queues.specs.Queues.{AreDue, share_of_both, kept_port, pending_of};

use crate::appending::{Numbers, append_all, have_room};
use crate::piece::Piece;
use crate::reading::{heading, read};
use crate::staging::{listed, stage_each, stage_fault, stage_messages};
use neli_consts::NlType;
use neli_deliveries::{Deliveries, Delivery, Heading};
use neli_reader::{Nlmsghdr, RouterError, SocketError, cut};
use neli_util::Groups;
use neli_wire::{FromBytesWithInput, NoMemory, Size};
use std::alloc::Global;
use std::collections::{HashMap, LinkedList};
use std::io::ErrorKind;

/// A list of deliveries for each open number, found by a hash of the number, and one for multicast.
#[derive(Drop)]
pub struct Queues {
    port: u32,
    alloc: Global,
    multicast: Option<LinkedList<Delivery>>,
    numbers: Numbers,
}

/// Whether the error is that the link would block.
fn would_block(error: &SocketError) -> bool
    ensures { result ≡ is_would_block error.now }
{
    matches!(error, SocketError::Io(ErrorKind::WouldBlock))
}

impl Queues {
    /// The list of a number, or of multicast, if it is open.
    fn list(&self, whose: Option<u32>) -> Option<&LinkedList<Delivery>>
        ensures { option_map (λ ds. ds.now) result ≡ pending_of self.now whose }
    {
        match whose {
            None => self.multicast.as_ref(),
            Some(number) => self.numbers.get(&number),
        }
    }

    /// The deliveries of a datagram that arrived for these groups: those for multicast, and pieces
    /// for numbers.
    fn staged(
        &self,
        bytes: &[u8],
        groups: &Groups,
    ) -> Result<(LinkedList<Delivery>, Vec<Piece>), NoMemory>
        ensures { IfOk result (λ r. AreDue self.now (λ w. datagram_share (kept_port self.now)
            (is_open self.now.numbers) w (cut_of untyped_layout bytes.now) groups.now)
            r.0 r.1.items) }
    {
        let (messages, fault) = cut(self.alloc, bytes)?;
        let mut pieces = Vec::new(self.alloc);
        if groups.is_empty() {
            stage_messages(self.alloc, self.port, &self.numbers, messages, &mut pieces)?;
            stage_fault(self.alloc, &self.numbers, fault, &mut pieces)?;
            Ok((LinkedList::new(self.alloc), pieces))
        } else {
            let for_multicast = listed(self.alloc, messages)?;
            stage_fault(self.alloc, &self.numbers, fault, &mut pieces)?;
            Ok((for_multicast, pieces))
        }
    }

    /// Appends these deliveries to multicast's list, if it is open, and the pieces to the lists of
    /// their numbers.
    ///
    /// Refused if a list could reach 2^63 deliveries; then nothing changes.
    fn hand_over(
        &mut self,
        mut for_multicast: LinkedList<Delivery>,
        pieces: Vec<Piece>,
    ) -> Result<(), NoMemory>
        ensures port { kept_port self.new ≡ kept_port self.old }
        ensures ok { OnOk result (ListsGain (λ w. share_of_both for_multicast pieces.items w)
            (pending_of self.old) (pending_of self.new)) }
        ensures unchanged { OnErr result (self.new ≡ self.old) }
    {
        if !have_room(&self.numbers, &pieces) {
            return Err(NoMemory);
        }
        if let Some(waiting) = &mut self.multicast {
            waiting.append(&mut for_multicast)?;
        }
        append_all(&mut self.numbers, pieces);
        Ok(())
    }
}

impl Deliveries for Queues {
    ghost port_of = { kept_port };

    ghost pending = { pending_of };

    fn new(alloc: Global, port: u32) -> Self {
        Queues {
            port,
            alloc,
            multicast: Some(LinkedList::new(alloc)),
            numbers: HashMap::new(alloc),
        }
    }

    fn port(&self) -> u32 {
        self.port
    }

    fn is_open(&self, whose: Option<u32>) -> bool {
        self.list(whose).is_some()
    }

    fn open(&mut self, number: u32) -> Result<(), NoMemory> {
        self.numbers.insert(number, LinkedList::new(self.alloc))?;
        Ok(())
    }

    fn close(&mut self, whose: Option<u32>) {
        match whose {
            None => self.multicast = None,
            Some(number) => {
                let _ = self.numbers.remove(&number);
            }
        }
    }

    fn datagram(&mut self, bytes: &[u8], groups: &Groups) -> Result<(), NoMemory> {
        if bytes.is_empty() {
            return Ok(());
        }
        let (for_multicast, pieces) = self.staged(bytes, groups)?;
        self.hand_over(for_multicast, pieces)
    }

    fn fault(&mut self, error: SocketError) -> Result<(), NoMemory> {
        if would_block(&error) {
            return Ok(());
        }
        if self.numbers.is_empty() {
            return Ok(());
        }
        let mut pieces = Vec::new(self.alloc);
        stage_each(
            self.alloc,
            &self.numbers,
            &Delivery::Fault(error),
            &mut pieces,
        )?;
        self.hand_over(LinkedList::new(self.alloc), pieces)
    }

    fn first<T: NlType, P: FromBytesWithInput + Size>(
        &self,
        alloc: Global,
        whose: Option<u32>,
    ) -> Result<Option<Result<Nlmsghdr<T, P>, RouterError<T, P>>>, NoMemory> {
        let Some(list) = self.list(whose) else {
            return Ok(None);
        };
        match list.front() {
            None => Ok(None),
            Some(delivery) => Ok(Some(read(alloc, delivery)?)),
        }
    }

    fn first_heading(&self, whose: Option<u32>) -> Option<Heading> {
        let list = self.list(whose)?;
        Some(heading(list.front()?))
    }

    fn drop_first(&mut self, whose: Option<u32>) {
        match whose {
            None => {
                if let Some(list) = &mut self.multicast {
                    let _ = list.pop_front();
                }
            }
            Some(number) => {
                if let Some(list) = self.numbers.get_mut(&number) {
                    let _ = list.pop_front();
                }
            }
        }
    }

    fn clear(&mut self, whose: Option<u32>) {
        match whose {
            None => {
                if let Some(list) = &mut self.multicast {
                    list.clear();
                }
            }
            Some(number) => {
                if let Some(list) = self.numbers.get_mut(&number) {
                    list.clear();
                }
            }
        }
    }
}
