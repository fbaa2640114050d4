//! The calls.

ghost use Rattle.std.specs.Prelude.{true, false, ◌≡◌, ◌≢◌, ◌<◌, ℕ, List, [], ◌∷◌, ◌++◌, None, Some, Ok, Err, IsOk, IfOk};
ghost use Rattle.std.specs.Prelude.{IfErr, Option, OnOk, OnErr, is_some, option_map, if◌then◌else◌, vec_len, vec_capacity};
ghost use Rattle.neli_answers.specs.Answers.{answering_by_flags};
ghost use Rattle.neli_reader.specs.Agreement.{untyped_layout};
ghost use Rattle.neli_reader.specs.Cuts.{cut_of};
ghost use Rattle.neli_reader.specs.NlPayload.TheVariants as payload;
ghost use Rattle.neli_lent.specs.Messages.{messages_in};
ghost use Rattle.neli_util.specs.Groups.{without_zeros};
ghost use Rattle.neli_deliveries.specs.Lists.{Opens, SameLists, SameListsBut};
ghost use Rattle.neli_deliveries.specs.declared.delivery.Delivery.{Delivery as Waiting};
ghost use Rattle.neli_deliveries.specs.Deliveries.{datagram_share};
ghost use Rattle.neli_deliveries.specs.Readings.{Item as Given, ReadingTakesMemory};
ghost use Rattle.neli_router.specs.GivenUp.{has_end, is_given_up, still_open, ungrouped};
ghost use Rattle.neli_router.specs.Reads.{IsNextRead};
ghost use Rattle.neli_router.specs.Same.{SameButDeliveries, SameButHandle, SameButRequest};
ghost use Rattle.neli_router.specs.Sends.{RefusesSend, TakesMemory, asks, frame_or_refusal, number_after};
ghost use Rattle.neli_router.specs.Verdicts.{begun, heard_of, verdict_by};
ghost use Rattle.neli_short_router.specs.Next.{next_of};
ghost use Rattle.neli_short_router.specs.Reads.{AreReads, HasNoItem, IsRead, LeavesRest, standing};
ghost use Rattle.neli_short_router.specs.declared.next.Next.TheVariants as next;

use crate::{Dump, Next, Request};
use neli_consts::{NlType, NlmF};
use neli_reader::{NlPayload, Nlmsghdr, RouterError};
use neli_router::{Deliveries, NlRouter, NlRouterReceiverHandle, Reply, Verdict};
use neli_util::Groups;
use neli_wire::{FromBytesWithInput, NoMemory, Size, ToBytes};
use std::alloc::Global;

/// Routers, as a program calls one that sends requests and reads the answers.
pub trait Client {
    /// Returns a request of this type, with these flags and REQUEST, and this body; and the handle for its answer.
    ///
    /// It is [`NlRouter::send`] with the body as payload, and refused as that is.
    fn request<T: NlType, P: ToBytes + Drop>(
        &mut self,
        alloc: Global,
        nl_type: T,
        nl_flags: NlmF,
        body: P,
    ) -> Result<Request<T, P>, RouterError<T, P>>;

    /// Takes in a datagram that arrived for the groups with these numbers, or for none.
    ///
    /// It is [`NlRouter::receive`] with the numbers as groups; a 0 is left out. Refused only if memory runs out; then
    /// nothing is delivered.
    fn receive_for(
        &mut self,
        alloc: Global,
        datagram: &[u8],
        groups: &[u32],
    ) -> Result<(), NoMemory>;

    /// Returns the handle's next message, read as the handle's own types; or the end, or that it waits.
    ///
    /// It is [`NlRouter::next_typed`] with one `Result`: an item that is an error is returned as the error, and
    /// `Memory` is returned only if memory runs out; then the router and the handle are unchanged.
    fn next<T: NlType, P: FromBytesWithInput + Size + Drop>(
        &mut self,
        alloc: Global,
        handle: &mut NlRouterReceiverHandle<T, P>,
    ) -> Result<Next<T, P>, RouterError<T, P>>;

    /// Appends the handle's next items, up to its end, or up to where it waits, and returns the verdict on the answer:
    /// `Pending` until its end has arrived.
    ///
    /// Refused only if memory runs out; then the items read so far are appended, and the next call continues after
    /// them.
    fn read_into<T: NlType, P: FromBytesWithInput + Size + Drop>(
        &mut self,
        alloc: Global,
        handle: &mut NlRouterReceiverHandle<T, P>,
        items: &mut Vec<Result<Nlmsghdr<T, P>, RouterError<T, P>>>,
    ) -> Result<Verdict, NoMemory>;

    /// Returns the handle's next items, up to its end, or up to where it waits, and the verdict on the answer.
    ///
    /// Refused only if memory runs out; then the items read so far are lost, which those of
    /// [`read_into`](Client::read_into) are not.
    fn read_dump<T: NlType, P: FromBytesWithInput + Size + Drop>(
        &mut self,
        alloc: Global,
        handle: &mut NlRouterReceiverHandle<T, P>,
    ) -> Result<Dump<T, P>, NoMemory>;
}

/// Appends an item to a list with room for it.
fn put<T>(items: &mut Vec<T>, item: T)
    requires { vec_len items.old < vec_capacity items.old }
    ensures { items.new.items ≡ items.old.items ++ item ∷ [] }
{
    match items.push(item) {
        Ok(()) => {}
        Err(_) => unreachable!(),
    }
}

/// Appends the next item of a handle, if there is one, and returns whether there was.
fn read_one<D: Deliveries, T: NlType, P: FromBytesWithInput + Size + Drop>(
    router: &mut NlRouter<D>,
    alloc: Global,
    handle: &mut NlRouterReceiverHandle<T, P>,
    items: &mut Vec<Result<Nlmsghdr<T, P>, RouterError<T, P>>>,
) -> Result<bool, NoMemory>
    ensures rest { LeavesRest D.port_of D.pending handle.old handle.new router.old router.new }
    ensures read { result ≡ Ok true → (x : Given T P)
        × IsRead T.wire_value T.wire_number P.view P.wire_length P.read
        (standing handle.old (D.pending router.old.deliveries) (heard_of router.old.heard)) x
        (standing handle.new (D.pending router.new.deliveries) (heard_of router.new.heard))
        × (items.new.items ≡ items.old.items ++ x ∷ []) }
    ensures unchanged { result ≢ Ok true → (items.new.items ≡ items.old.items)
        × (handle.new ≡ handle.old) × (router.new ≡ router.old) }
    ensures none { result ≡ Ok false → HasNoItem
        (standing handle.old (D.pending router.old.deliveries) (heard_of router.old.heard)) }
{
    items.reserve(1)?;
    match router.next_typed(alloc, handle)? {
        Reply::Item(item) => {
            put(items, item);
            Ok(true)
        }
        Reply::End | Reply::Waits => Ok(false),
    }
}

impl<D: Deliveries> Client for NlRouter<D> {
    fn request<T: NlType, P: ToBytes + Drop>(
        &mut self,
        alloc: Global,
        nl_type: T,
        nl_flags: NlmF,
        body: P,
    ) -> Result<Request<T, P>, RouterError<T, P>>
        ensures same { SameButRequest D.port_of self.old self.new }
        ensures bytes { IfOk result (λ r. frame_or_refusal
            T.wire_number P.wire P.Size.wire_length
            (D.port_of self.old.deliveries) self.old.next_seq
            (is_some (D.pending self.old.deliveries (Some self.old.next_seq)))
            nl_type nl_flags (payload.Payload body) ≡ Ok r.bytes.items) }
        ensures refused { IfErr result (RefusesSend (frame_or_refusal
            T.wire_number P.wire P.Size.wire_length
            (D.port_of self.old.deliveries) self.old.next_seq
            (is_some (D.pending self.old.deliveries (Some self.old.next_seq)))
            nl_type nl_flags (payload.Payload body))
            (TakesMemory T.wire_number P.wire P.Size.wire_length
            (is_some (D.pending self.old.deliveries (Some self.old.next_seq)))
            (payload.Payload body))) }
        ensures handle { IfOk result (λ r. r.handle ≡ asks self.old.next_seq nl_flags) }
        ensures next_seq { OnOk result (self.new.next_seq ≡ number_after self.old.next_seq) }
        ensures opened { OnOk result (Opens self.old.next_seq
            (D.pending self.old.deliveries) (D.pending self.new.deliveries)) }
        ensures heard { OnOk result
            ((heard_of self.new.heard (Some self.old.next_seq) ≡ Some (begun (answering_by_flags nl_flags)))
            × SameListsBut (Some self.old.next_seq)
            (heard_of self.old.heard) (heard_of self.new.heard)) }
        ensures unchanged { OnErr result ((self.new.next_seq ≡ self.old.next_seq)
            × (SameLists (D.pending self.old.deliveries) (D.pending self.new.deliveries))) }
        ensures unheard { OnErr result
            (SameLists (heard_of self.old.heard) (heard_of self.new.heard)) }
    {
        let (bytes, handle) = self.send(alloc, nl_type, nl_flags, NlPayload::Payload(body))?;
        Ok(Request { bytes, handle })
    }

    fn receive_for(
        &mut self,
        alloc: Global,
        datagram: &[u8],
        groups: &[u32],
    ) -> Result<(), NoMemory>
        ensures same { SameButDeliveries D.port_of self.old self.new }
        ensures missed { self.new.missed ≡ self.old.missed }
        ensures others { OnOk result ((w : Option ℕ)
            → is_given_up self.old.given_up.items w ≡ false
            → D.pending self.new.deliveries w
            ≡ option_map (λ ds. ds ++ datagram_share (D.port_of self.old.deliveries)
            (λ q. is_some (D.pending self.old.deliveries (Some q))) w
            (cut_of untyped_layout datagram.now) (without_zeros groups.now))
            (D.pending self.old.deliveries w)) }
        ensures given_up { OnOk result ((q : ℕ)
            → is_given_up self.old.given_up.items (Some q) ≡ true
            → D.pending self.new.deliveries (Some q)
            ≡ (if has_end (D.port_of self.old.deliveries) self.old.given_up.items
            (ungrouped (without_zeros groups.now) (messages_in (λ n. n) datagram.now).0) q then None
            else option_map (λ _. []) (D.pending self.old.deliveries (Some q)))) }
        ensures left { OnOk result (self.new.given_up.items
            ≡ still_open (D.pending self.new.deliveries) self.old.given_up.items) }
        ensures unchanged { OnErr result ((self.new.given_up ≡ self.old.given_up)
            × SameLists (D.pending self.old.deliveries) (D.pending self.new.deliveries)) }
        ensures empty { datagram.now ≡ [] → groups.now ≡ [] → IsOk result }
    {
        let groups = Groups::new_groups(alloc, groups)?;
        self.receive(datagram, &groups)
    }

    fn next<T: NlType, P: FromBytesWithInput + Size + Drop>(
        &mut self,
        alloc: Global,
        handle: &mut NlRouterReceiverHandle<T, P>,
    ) -> Result<Next<T, P>, RouterError<T, P>>
        ensures same { SameButHandle D.port_of D.pending handle.old.number self.old self.new }
        ensures ended { handle.old.ended ≡ true
            → (result ≡ Ok next.End) × (handle.new ≡ handle.old) × (self.new ≡ self.old) }
        ensures closed { handle.old.ended ≡ false
            → D.pending self.old.deliveries handle.old.number ≡ None
            → (result ≡ Err RouterError.ClosedChannel)
            × (handle.new ≡ record handle.old { ended = true }) × (self.new ≡ self.old) }
        ensures waits { handle.old.ended ≡ false
            → D.pending self.old.deliveries handle.old.number ≡ Some []
            → (result ≡ Ok next.Waits) × (handle.new ≡ handle.old) × (self.new ≡ self.old) }
        ensures gives { handle.old.ended ≡ false → (d : Waiting) (ds : List Waiting)
            → D.pending self.old.deliveries handle.old.number ≡ Some (d ∷ ds)
            → result ≢ Err RouterError.Memory
            → IsNextRead T.wire_value T.wire_number P.view P.wire_length P.read
            D.pending d ds handle.old handle.new self.old self.new (λ x. next_of x) result }
        ensures unchanged { result ≡ Err RouterError.Memory
            → (handle.new ≡ handle.old) × (self.new ≡ self.old) }
        ensures memory { handle.old.ended ≡ false → (d : Waiting) (ds : List Waiting)
            → D.pending self.old.deliveries handle.old.number ≡ Some (d ∷ ds)
            → result ≡ Err RouterError.Memory → ReadingTakesMemory P.takes_memory d }
        ensures given_up { self.new.given_up ≡ self.old.given_up }
    {
        match self.next_typed(alloc, handle)? {
            Reply::Item(Ok(message)) => Ok(Next::Message(message)),
            Reply::Item(Err(error)) => Err(error),
            Reply::End => Ok(Next::End),
            Reply::Waits => Ok(Next::Waits),
        }
    }

    fn read_into<T: NlType, P: FromBytesWithInput + Size + Drop>(
        &mut self,
        alloc: Global,
        handle: &mut NlRouterReceiverHandle<T, P>,
        items: &mut Vec<Result<Nlmsghdr<T, P>, RouterError<T, P>>>,
    ) -> Result<Verdict, NoMemory>
        ensures rest { LeavesRest D.port_of D.pending handle.old handle.new self.old self.new }
        ensures reads { (given : List (Given T P))
            × AreReads T.wire_value T.wire_number P.view P.wire_length P.read
            (standing handle.old (D.pending self.old.deliveries) (heard_of self.old.heard)) given
            (standing handle.new (D.pending self.new.deliveries) (heard_of self.new.heard))
            × (items.new.items ≡ items.old.items ++ given) }
        ensures all { OnOk result (HasNoItem
            (standing handle.new (D.pending self.new.deliveries) (heard_of self.new.heard))) }
        ensures verdict { IfOk result (λ verdict. verdict
            ≡ verdict_by handle.new.number (heard_of self.new.heard handle.new.number)) }
    {
        'items: while read_one(self, alloc, handle, items)? {}
        Ok(self.verdict(handle))
    }

    fn read_dump<T: NlType, P: FromBytesWithInput + Size + Drop>(
        &mut self,
        alloc: Global,
        handle: &mut NlRouterReceiverHandle<T, P>,
    ) -> Result<Dump<T, P>, NoMemory>
        ensures rest { LeavesRest D.port_of D.pending handle.old handle.new self.old self.new }
        ensures reads { (given : List (Given T P))
            × AreReads T.wire_value T.wire_number P.view P.wire_length P.read
            (standing handle.old (D.pending self.old.deliveries) (heard_of self.old.heard)) given
            (standing handle.new (D.pending self.new.deliveries) (heard_of self.new.heard))
            × IfOk result (λ dump. dump.items.items ≡ given) }
        ensures all { OnOk result (HasNoItem
            (standing handle.new (D.pending self.new.deliveries) (heard_of self.new.heard))) }
        ensures verdict { IfOk result (λ dump. dump.verdict
            ≡ verdict_by handle.new.number (heard_of self.new.heard handle.new.number)) }
    {
        let mut items = Vec::new(alloc);
        let verdict = self.read_into(alloc, handle, &mut items)?;
        Ok(Dump { items, verdict })
    }
}
