//! Giving up: a handle is dropped, and its number stays open until the end of its answer.

ghost use Rattle.std.specs.Prelude.{true, false, ◌≡◌, ◌||◌, ◌++◌, ◌∷◌, [], ℕ, List, None, Some, IsOk, IfOk};
ghost use Rattle.std.specs.Prelude.{Option, OnErr, OnOk, is_some, option_map, if◌then◌else◌};
ghost use Rattle.std.specs.List.{list_any};
ghost use Rattle.neli_answers.specs.declared.answering.Answering.TheVariants as answered;
ghost use Rattle.neli_reader.specs.Agreement.{untyped_layout};
ghost use Rattle.neli_reader.specs.Cuts.{cut_of};
ghost use Rattle.neli_lent.specs.Messages.{message_view, messages_in};
ghost use Rattle.neli_deliveries.specs.Lists.{SameLists, SameListsBut};
ghost use Rattle.neli_deliveries.specs.declared.delivery.Delivery.{Delivery as Waiting};
ghost use Rattle.neli_deliveries.specs.Deliveries.{datagram_share, fault_share, is_would_block};
ghost use Rattle.neli_router.specs.GivenUp.{IsLeft, ends_it, finishes, given_up, has_end, has_finished, is_given_up};
ghost use Rattle.neli_router.specs.GivenUp.{kept_of};
ghost use Rattle.neli_router.specs.GivenUp.{still_open, ungrouped};
ghost use Rattle.neli_router.specs.Listening.{missed_with};
ghost use Rattle.neli_router.specs.Same.{SameButDeliveries, SameButHandle};
ghost use Rattle.neli_router.specs.Verdicts.{heard_of, known_of};

use crate::listening::missed_with;
use crate::verdict::is_last;
use crate::{Deliveries, Heard, NlRouter, NlRouterReceiverHandle};
use neli_answers::Answering;
use neli_lent::{LentMessage, LentMessages};
use neli_reader::SocketError;
use neli_util::Groups;
use neli_wire::NoMemory;
use std::alloc::Global;

/// A number that was given up: it is open until the last message of its answer arrives.
#[derive(Clone, Copy, Debug, PartialEq, Eq)]
pub struct GivenUp {
    pub(crate) number: u32,
    pub(crate) answering: Answering,
}

/// Whether a message is the last that answers this request.
fn ends_it(port: u32, request: &GivenUp, message: &LentMessage<'_, u16>) -> bool
    ensures { result ≡ ends_it port request.now (message_view message.now) }
{
    *message.nl_pid() == port
        && *message.nl_seq() == request.number
        && request
            .answering
            .ends_with(*message.nl_type(), *message.nl_flags(), message.code())
}

/// Whether the last message that answers this request is among those of these bytes.
fn has_end(port: u32, request: &GivenUp, bytes: &[u8]) -> bool
    ensures { result ≡ list_any (ends_it port request.now) (messages_in (λ n. n) bytes.now).0 }
{
    for item in LentMessages::<u16>::new(bytes) {
        if let Ok(message) = item {
            if ends_it(port, request, &message) {
                return true;
            }
        }
    }
    false
}

/// Removes the deliveries in these bytes for a request that was given up, and its list too if its answer ends there.
fn settle_one<D: Deliveries>(deliveries: &mut D, request: &GivenUp, bytes: &[u8])
    ensures port { D.port_of deliveries.new ≡ D.port_of deliveries.old }
    ensures kept { (w : Option ℕ) → D.pending deliveries.new w
        ≡ kept_of (D.port_of deliveries.old) (request.now ∷ []) (messages_in (λ n. n) bytes.now).0 w
        (D.pending deliveries.old w) }
{
    let whose = Some(request.number);
    if has_end(deliveries.port(), request, bytes) {
        deliveries.close(whose);
    } else {
        deliveries.clear(whose);
    }
}

/// The same of each of these requests.
fn settle_each<D: Deliveries>(deliveries: &mut D, given_up: &[GivenUp], bytes: &[u8])
    ensures port { D.port_of deliveries.new ≡ D.port_of deliveries.old }
    ensures kept { (w : Option ℕ) → D.pending deliveries.new w
        ≡ kept_of (D.port_of deliveries.old) given_up.now (messages_in (λ n. n) bytes.now).0 w
        (D.pending deliveries.old w) }
{
    for request in given_up {
        settle_one(deliveries, request, bytes);
    }
}

/// Whether one of the two holds.
fn either(one: bool, other: bool) -> bool
    ensures { result ≡ (one || other) }
{
    one || other
}

/// How an answer comes of which nothing else is known.
fn awaited(needs_ack: bool) -> Answering
    ensures { result ≡ (if needs_ack then answered.Acknowledgement else answered.Reply) }
{
    if needs_ack {
        Answering::Acknowledgement
    } else {
        Answering::Reply
    }
}

/// Removes all that waits for a number, and returns whether the last message of its answer was there.
fn finishes<D: Deliveries>(deliveries: &mut D, number: u32, answering: Answering) -> bool
    ensures port { D.port_of deliveries.new ≡ D.port_of deliveries.old }
    ensures others { SameListsBut (Some number) (D.pending deliveries.old) (D.pending deliveries.new) }
    ensures last { (ds : List Waiting) → D.pending deliveries.old (Some number) ≡ Some ds
        → (result ≡ finishes answering ds)
        × (D.pending deliveries.new (Some number) ≡ Some []) }
{
    let whose = Some(number);
    let mut last = false;
    while let Some(heading) = deliveries.first_heading(whose) {
        last = either(last, is_last(answering, heading));
        deliveries.drop_first(whose);
    }
    last
}

impl<D: Deliveries> NlRouter<D> {
    /// Forgets the given-up numbers that are no longer open.
    pub(crate) fn forget_closed(&mut self)
        ensures same { self.new ≡ record self.old { given_up = self.new.given_up } }
        ensures given_up { self.new.given_up.items
            ≡ still_open (D.pending self.old.deliveries) self.old.given_up.items }
    {
        let deliveries = &self.deliveries;
        self.given_up
            .retain(|request| deliveries.is_open(Some(request.number)));
    }

    /// Keeps nothing in these bytes for the requests that were given up, and closes those whose answer ends there.
    fn settle(&mut self, bytes: &[u8])
        ensures same { SameButDeliveries D.port_of self.old self.new }
        ensures missed { self.new.missed ≡ self.old.missed }
        ensures kept { (w : Option ℕ) → D.pending self.new.deliveries w
            ≡ kept_of (D.port_of self.old.deliveries) self.old.given_up.items
            (messages_in (λ n. n) bytes.now).0 w (D.pending self.old.deliveries w) }
        ensures given_up { self.new.given_up.items
            ≡ still_open (D.pending self.new.deliveries) self.old.given_up.items }
    {
        if self.given_up.is_empty() {
            return;
        }
        settle_each(&mut self.deliveries, &self.given_up, bytes);
        self.forget_closed();
    }

    /// Takes in a datagram that arrived for these groups, as [`NlRouter::processing_loop`] does, but keeps nothing of
    /// it for the requests that were given up; closes the number of one if the last message of its answer is in it.
    ///
    /// Refused only if memory runs out; then nothing is delivered.
    pub fn receive(&mut self, bytes: &[u8], groups: &Groups) -> Result<(), NoMemory>
        ensures same { SameButDeliveries D.port_of self.old self.new }
        ensures missed { self.new.missed ≡ self.old.missed }
        // Whatever was given up, the others get the same as from `processing_loop`.
        ensures others { OnOk result ((w : Option ℕ)
            → is_given_up self.old.given_up.items w ≡ false
            → D.pending self.new.deliveries w
            ≡ option_map (λ ds. ds ++ datagram_share (D.port_of self.old.deliveries)
            (λ q. is_some (D.pending self.old.deliveries (Some q))) w
            (cut_of untyped_layout bytes.now) groups.now) (D.pending self.old.deliveries w)) }
        ensures given_up { OnOk result ((q : ℕ)
            → is_given_up self.old.given_up.items (Some q) ≡ true
            → D.pending self.new.deliveries (Some q)
            ≡ (if has_end (D.port_of self.old.deliveries) self.old.given_up.items
            (ungrouped groups.now (messages_in (λ n. n) bytes.now).0) q then None
            else option_map (λ _. []) (D.pending self.old.deliveries (Some q)))) }
        ensures left { OnOk result (self.new.given_up.items
            ≡ still_open (D.pending self.new.deliveries) self.old.given_up.items) }
        ensures unchanged { OnErr result ((self.new.given_up ≡ self.old.given_up)
            × SameLists (D.pending self.old.deliveries) (D.pending self.new.deliveries)) }
        ensures empty { bytes.now ≡ [] → IsOk result }
    {
        self.processing_loop(bytes, groups)?;
        if groups.is_empty() {
            self.settle(bytes);
        } else {
            self.settle(&[]);
        }
        Ok(())
    }

    /// Takes in a fault of the link, as [`NlRouter::error_handling`] does, but keeps nothing of it for the requests
    /// that were given up, which stay so: the other side may still answer them.
    ///
    /// Refused only if memory runs out; then nothing is delivered. A link that would block, and any fault while no
    /// number is open, is never refused.
    pub fn link_failed(&mut self, error: SocketError) -> Result<(), NoMemory>
        ensures same { SameButDeliveries D.port_of self.old self.new }
        ensures others { OnOk result ((w : Option ℕ)
            → is_given_up self.old.given_up.items w ≡ false
            → D.pending self.new.deliveries w ≡ option_map (λ ds. ds ++ fault_share w error)
            (D.pending self.old.deliveries w)) }
        ensures given_up { OnOk result ((q : ℕ)
            → is_given_up self.old.given_up.items (Some q) ≡ true
            → D.pending self.new.deliveries (Some q)
            ≡ option_map (λ _. []) (D.pending self.old.deliveries (Some q))) }
        ensures left { OnOk result (self.new.given_up.items
            ≡ still_open (D.pending self.new.deliveries) self.old.given_up.items) }
        ensures missed { OnOk result (self.new.missed ≡ missed_with self.old.missed error) }
        ensures unchanged { OnErr result ((self.new.given_up ≡ self.old.given_up)
            × (self.new.missed ≡ self.old.missed)
            × SameLists (D.pending self.old.deliveries) (D.pending self.new.deliveries)) }
        ensures would_block { is_would_block error ≡ true → IsOk result }
        ensures unawaited { ((q : ℕ) → D.pending self.old.deliveries (Some q) ≡ None) → IsOk result }
    {
        let missed = missed_with(self.missed, &error);
        self.error_handling(error)?;
        self.missed = missed;
        self.settle(&[]);
        Ok(())
    }

    /// What is known of the answer to an open number.
    fn known(&self, number: u32, needs_ack: bool) -> Heard
        ensures { result ≡ known_of needs_ack (heard_of self.now.heard (Some number)) }
    {
        match self.heard.get(&number) {
            None => Heard::begun(awaited(needs_ack)),
            Some(heard) => *heard,
        }
    }

    /// Removes all that waits for an open number, of whose answer this is known, and returns whether the last message
    /// of that has arrived; if not, the number is among those given up.
    ///
    /// Refused only if memory runs out.
    fn leave(&mut self, number: u32, known: Heard) -> Result<bool, NoMemory>
        ensures same { SameButDeliveries D.port_of self.old self.new }
        ensures missed { self.new.missed ≡ self.old.missed }
        ensures others { SameListsBut (Some number)
            (D.pending self.old.deliveries) (D.pending self.new.deliveries) }
        ensures ok { (ds : List Waiting) → D.pending self.old.deliveries (Some number) ≡ Some ds
            → IfOk result (λ finished. (finished ≡ has_finished known ds)
            × (D.pending self.new.deliveries (Some number) ≡ Some [])) }
        ensures given_up { IfOk result (λ finished. self.new.given_up.items
            ≡ (if finished then self.old.given_up.items
            else self.old.given_up.items ++ given_up number known.answering ∷ [])) }
        ensures unchanged { OnErr result (self.new.given_up.items ≡ self.old.given_up.items) }
    {
        let answering = known.answering;
        let last = finishes(&mut self.deliveries, number, answering);
        let finished = either(known.finished, last);
        if !finished {
            self.given_up.push(GivenUp { number, answering })?;
        }
        Ok(finished)
    }

    /// Gives a handle up: its number stays open until the last message of its answer has arrived, and nothing that
    /// waits or still arrives for it is kept, if datagrams are handed in by [`NlRouter::receive`] and faults of the
    /// link by [`NlRouter::link_failed`]. So messages on their way are no other request's strays. If that message
    /// arrived already, the number is closed, as is the handle of multicast.
    ///
    /// The last message is the one with which the answer ends by [`Answering::ends_with`], whether it could be read as
    /// the caller's types or not. No fault ends the other side's answer.
    ///
    /// Refused only if memory runs out; then the handle is closed.
    pub fn give_up<RT, RP>(
        &mut self,
        _alloc: Global,
        handle: NlRouterReceiverHandle<RT, RP>,
    ) -> Result<(), NoMemory>
        ensures same { SameButHandle D.port_of D.pending handle.number self.old self.new }
        ensures multicast { handle.number ≡ None
            → (IsOk result) × (D.pending self.new.deliveries None ≡ None) }
        ensures closed { D.pending self.old.deliveries handle.number ≡ None
            → (IsOk result) × (D.pending self.new.deliveries handle.number ≡ None) }
        ensures ok { (q : ℕ) (ds : List Waiting) → handle.number ≡ Some q
            → D.pending self.old.deliveries (Some q) ≡ Some ds
            → OnOk result (IsLeft q
            (known_of handle.needs_ack (heard_of self.old.heard (Some q))).answering
            (has_finished (known_of handle.needs_ack (heard_of self.old.heard (Some q))) ds)
            self.old.given_up.items
            (D.pending self.new.deliveries) self.new.given_up.items) }
        ensures unheard { heard_of self.new.heard handle.number ≡ None }
        ensures refused { OnErr result ((D.pending self.new.deliveries handle.number ≡ None)
            × (self.new.given_up.items
            ≡ still_open (D.pending self.new.deliveries) self.old.given_up.items)) }
    {
        let state = handle.state();
        let Some(number) = state.number else {
            self.close(handle);
            return Ok(());
        };
        if !self.deliveries.is_open(state.number) {
            self.close(handle);
            return Ok(());
        }
        let known = self.known(number, state.needs_ack);
        match self.leave(number, known) {
            Ok(finished) => {
                if finished {
                    self.close(handle);
                } else {
                    self.forget_heard(number);
                }
                Ok(())
            }
            Err(error) => {
                self.close(handle);
                Err(error)
            }
        }
    }
}
