//! Listening: reads of multicast that continue after any item.

ghost use Rattle.std.specs.Prelude.{true, false, ◌≡◌, ◌∷◌, ◌++◌, [], ℕ, List, Option, None, Some, Ok, IfOk};
ghost use Rattle.std.specs.Prelude.{IsOk, OnErr, OnOk, option_map};
ghost use Rattle.neli_deliveries.specs.Lists.{SameLists, SameListsBut};
ghost use Rattle.neli_deliveries.specs.declared.delivery.Delivery.{Delivery as Waiting};
ghost use Rattle.neli_deliveries.specs.Deliveries.{fault_share, is_would_block};
ghost use Rattle.neli_router.specs.GivenUp.{is_given_up, still_open};
ghost use Rattle.neli_router.specs.Listening.{IsNotice, fault_kind, missed_with};
ghost use Rattle.neli_router.specs.Same.{SameButDeliveries};
ghost use Rattle.neli_router.specs.declared.listening.Missed.{Missed as Lost};
ghost use Rattle.neli_reader.specs.SocketError.TheVariants as socket;
ghost use Rattle.neli_router.specs.declared.listening.Missed.TheVariants as missed;
ghost use Rattle.neli_router.specs.declared.listening.Notice.TheVariants as notice;
ghost use Rattle.std.specs.declared.io.ErrorKind.TheVariants as kind;

use crate::{Deliveries, NlRouter};
use neli_attr::Buffer;
use neli_consts::NlType;
use neli_reader::{Nlmsghdr, RouterError, SocketError};
use neli_wire::{FromBytesWithInput, NoMemory, Size};
use std::alloc::Global;
use std::io::ErrorKind;

/// Why messages to groups may be lost.
#[derive(Clone, Copy, Debug, PartialEq, Eq)]
pub enum Missed {
    /// The socket's buffer ran over, reported as `ENOBUFS`.
    Overrun,
    /// Another fault of the link.
    Fault(ErrorKind),
}

/// The result of a read of multicast that continues after it, whatever it is.
#[derive(Debug, Drop)]
pub enum Notice<T, P> {
    /// The next message.
    Message(Nlmsghdr<T, P>),
    /// The next message, which cannot be read as the caller's types: its header and its bytes as they arrived.
    Untyped(Result<Nlmsghdr<u16, Buffer>, RouterError<u16, Buffer>>),
    /// The link failed since the last such notice, so messages may be lost.
    Missed(Missed),
    /// No message has arrived yet.
    Waits,
    /// Multicast is closed.
    Closed,
}

/// Whether the link would only block.
fn would_block(error: &SocketError) -> bool
    ensures { result ≡ is_would_block error.now }
{
    matches!(error, SocketError::Io(ErrorKind::WouldBlock))
}

/// What a fault of the link makes listeners miss, after what was missed before; an overrun is reported before any
/// other.
pub(crate) fn missed_with(missed: Option<Missed>, error: &SocketError) -> Option<Missed>
    ensures { result ≡ missed_with missed error.now }
{
    if would_block(error) {
        return missed;
    }
    match missed {
        Some(Missed::Overrun) => missed,
        _ => Some(Missed::Fault(kind_of(error))),
    }
}

/// The kind of a fault of the link; `Other` if it has none.
fn kind_of(error: &SocketError) -> ErrorKind
    ensures { result ≡ fault_kind error.now }
{
    match error {
        SocketError::Io(kind) => *kind,
        _ => ErrorKind::Other,
    }
}

impl<D: Deliveries> NlRouter<D> {
    /// Takes in that the socket's buffer ran over (`ENOBUFS`): messages are lost. A request gets this as a fault of the
    /// link, whose kind is `Other`; a listener as [`Missed::Overrun`].
    ///
    /// Refused only if memory runs out; then nothing is delivered. Never refused while no number is open.
    pub fn link_overran(&mut self) -> Result<(), NoMemory>
        ensures same { SameButDeliveries D.port_of self.old self.new }
        ensures others { OnOk result ((w : Option ℕ)
            → is_given_up self.old.given_up.items w ≡ false
            → D.pending self.new.deliveries w
            ≡ option_map (λ ds. ds ++ fault_share w (socket.Io kind.Other))
            (D.pending self.old.deliveries w)) }
        ensures given_up { OnOk result ((q : ℕ)
            → is_given_up self.old.given_up.items (Some q) ≡ true
            → D.pending self.new.deliveries (Some q)
            ≡ option_map (λ _. []) (D.pending self.old.deliveries (Some q))) }
        ensures left { OnOk result (self.new.given_up.items
            ≡ still_open (D.pending self.new.deliveries) self.old.given_up.items) }
        ensures missed { OnOk result (self.new.missed ≡ Some missed.Overrun) }
        ensures unchanged { OnErr result ((self.new.given_up ≡ self.old.given_up)
            × (self.new.missed ≡ self.old.missed)
            × SameLists (D.pending self.old.deliveries) (D.pending self.new.deliveries)) }
        ensures unawaited { ((q : ℕ) → D.pending self.old.deliveries (Some q) ≡ None) → IsOk result }
    {
        self.link_failed(SocketError::Io(ErrorKind::Other))?;
        self.missed = Some(Missed::Overrun);
        Ok(())
    }

    /// Returns the next message for groups, read as these types, for a listener that continues after any item. A
    /// message that cannot be read as them is returned as it arrived, and a fault of the link since the last read is
    /// reported once, before the messages that wait.
    ///
    /// Refused only if memory runs out; then the router is unchanged.
    pub fn listen<T: NlType, P: FromBytesWithInput + Size + Drop>(
        &mut self,
        alloc: Global,
    ) -> Result<Notice<T, P>, NoMemory>
        ensures same { SameButDeliveries D.port_of self.old self.new }
        ensures given_up { self.new.given_up ≡ self.old.given_up }
        ensures missed { (m : Lost) → self.old.missed ≡ Some m
            → (result ≡ Ok (notice.Missed m)) × (self.new.missed ≡ None)
            × (self.new.deliveries ≡ self.old.deliveries) }
        ensures closed { self.old.missed ≡ None → D.pending self.old.deliveries None ≡ None
            → (result ≡ Ok notice.Closed) × (self.new ≡ self.old) }
        ensures waits { self.old.missed ≡ None → D.pending self.old.deliveries None ≡ Some []
            → (result ≡ Ok notice.Waits) × (self.new ≡ self.old) }
        ensures gives { self.old.missed ≡ None → (d : Waiting) (ds : List Waiting)
            → D.pending self.old.deliveries None ≡ Some (d ∷ ds)
            → IfOk result (λ given. IsNotice T.wire_value P.view P.wire_length P.read d given
            × (D.pending self.new.deliveries None ≡ Some ds) × (self.new.missed ≡ None)) }
        ensures others { SameListsBut None
            (D.pending self.old.deliveries) (D.pending self.new.deliveries) }
        ensures unchanged { OnErr result (self.new ≡ self.old) }
    {
        if let Some(missed) = self.missed {
            self.missed = None;
            return Ok(Notice::Missed(missed));
        }
        if !self.deliveries.is_open(None) {
            return Ok(Notice::Closed);
        }
        match self.deliveries.first(alloc, None)? {
            None => Ok(Notice::Waits),
            Some(Ok(message)) => {
                self.deliveries.drop_first(None);
                Ok(Notice::Message(message))
            }
            Some(Err(_)) => match self.deliveries.first(alloc, None)? {
                None => Ok(Notice::Waits),
                Some(item) => {
                    self.deliveries.drop_first(None);
                    Ok(Notice::Untyped(item))
                }
            },
        }
    }
}
