//! The deliveries of a datagram or a link fault, before any list changes.

ghost use Rattle.std.specs.Prelude.{◌≡◌, ◌++◌, ◌==◌, ℕ, true, if◌then◌else◌, [], ◌∷◌, IfOk, OnOk, map};
ghost use Rattle.neli_reader.specs.Messages.{message_of};
ghost use Rattle.neli_deliveries.specs.Deliveries.{is_reply, message, message_to, messages_to, reader_fault};
ghost use Rattle.neli_queues.specs.Pieces.{deliveries_for, is_open};

use crate::appending::Numbers;
use crate::piece::Piece;
use neli_attr::Buffer;
use neli_deliveries::Delivery;
use neli_reader::{Nlmsghdr, SocketError};
use neli_wire::{DeError, NoMemory};
use std::alloc::Global;
use std::collections::LinkedList;

/// Returns an equal delivery.
fn copy_of(delivery: &Delivery) -> Result<Delivery, NoMemory>
    ensures { IfOk result (λ d. d ≡ delivery.now) }
{
    Ok(match delivery {
        Delivery::Message(message) => Delivery::Message(message.try_clone()?),
        Delivery::Stray(message) => Delivery::Stray(message.try_clone()?),
        Delivery::Fault(error) => Delivery::Fault(error.try_clone()?),
    })
}

/// Adds a piece of this delivery for one number.
fn stage_one(
    alloc: Global,
    number: u32,
    delivery: Delivery,
    pieces: &mut Vec<Piece>,
) -> Result<(), NoMemory>
    ensures { OnOk result ((q : ℕ) → deliveries_for q pieces.new.items
        ≡ deliveries_for q pieces.old.items ++ (if number == q then delivery ∷ [] else [])) }
{
    let mut list = LinkedList::new(alloc);
    list.push_back(delivery)?;
    pieces.push(Piece { number, list })?;
    Ok(())
}

/// Adds a piece for each open number, with a copy of this delivery.
pub(crate) fn stage_each(
    alloc: Global,
    numbers: &Numbers,
    delivery: &Delivery,
    pieces: &mut Vec<Piece>,
) -> Result<(), NoMemory>
    ensures { OnOk result
        ((q : ℕ) → is_open numbers.now q ≡ true
        → deliveries_for q pieces.new.items
        ≡ deliveries_for q pieces.old.items ++ delivery.now ∷ []) }
{
    for number in numbers.keys() {
        stage_one(alloc, *number, copy_of(delivery)?, pieces)?;
    }
    Ok(())
}

/// Whether a message answers a request: it has the router's port and an open number.
fn answers(message: &Nlmsghdr<u16, Buffer>, port: u32, numbers: &Numbers) -> bool
    ensures { result ≡ is_reply port (is_open numbers.now) (message_of (λ b. b) message.now) }
{
    *message.nl_pid() == port && numbers.contains_key(message.nl_seq())
}

/// Adds the deliveries of a message: a piece for the number that it answers, or else a stray for
/// each.
#[tactic(auto, using(crate::proofs::Messages::message_to_stray))]
fn stage_message(
    alloc: Global,
    port: u32,
    numbers: &Numbers,
    message: Nlmsghdr<u16, Buffer>,
    pieces: &mut Vec<Piece>,
) -> Result<(), NoMemory>
    ensures { OnOk result ((q : ℕ) → is_open numbers.now q ≡ true
        → deliveries_for q pieces.new.items ≡ deliveries_for q pieces.old.items
        ++ message_to port (is_open numbers.now) q (message_of (λ b. b) message)) }
{
    if answers(&message, port, numbers) {
        let number = *message.nl_seq();
        stage_one(alloc, number, Delivery::Message(message), pieces)
    } else {
        stage_each(alloc, numbers, &Delivery::Stray(message), pieces)
    }
}

/// Adds the deliveries of messages, in their order.
pub(crate) fn stage_messages(
    alloc: Global,
    port: u32,
    numbers: &Numbers,
    messages: Vec<Nlmsghdr<u16, Buffer>>,
    pieces: &mut Vec<Piece>,
) -> Result<(), NoMemory>
    ensures { OnOk result ((q : ℕ) → is_open numbers.now q ≡ true
        → deliveries_for q pieces.new.items ≡ deliveries_for q pieces.old.items
        ++ messages_to port (is_open numbers.now) q (map (message_of (λ b. b)) messages.items)) }
{
    for message in messages {
        stage_message(alloc, port, numbers, message, pieces)?;
    }
    Ok(())
}

/// Adds the fault of a datagram for each open number, if there is one.
pub(crate) fn stage_fault(
    alloc: Global,
    numbers: &Numbers,
    fault: Option<DeError>,
    pieces: &mut Vec<Piece>,
) -> Result<(), NoMemory>
    ensures { OnOk result
        ((q : ℕ) → is_open numbers.now q ≡ true
        → deliveries_for q pieces.new.items
        ≡ deliveries_for q pieces.old.items ++ reader_fault fault) }
{
    match fault {
        None => Ok(()),
        Some(error) => stage_each(
            alloc,
            numbers,
            &Delivery::Fault(SocketError::De(error)),
            pieces,
        ),
    }
}

/// The messages in a list of deliveries, in their order.
pub(crate) fn listed(
    alloc: Global,
    messages: Vec<Nlmsghdr<u16, Buffer>>,
) -> Result<LinkedList<Delivery>, NoMemory>
    ensures { IfOk result
        (λ ds. ds ≡ map message (map (message_of (λ b. b)) messages.items)) }
{
    let mut list = LinkedList::new(alloc);
    for message in messages {
        list.push_back(Delivery::Message(message))?;
    }
    Ok(list)
}
