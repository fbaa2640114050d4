//! The router's calls.

ghost use Rattle.std.specs.Prelude.{true, false, ◌≡◌, ℕ, List, [], ◌∷◌, None, Some, Ok, Err, IsOk, IfOk, IfErr};
ghost use Rattle.std.specs.Prelude.{Option, OnOk, OnErr, is_some, option_map};
ghost use Rattle.neli_reader.specs.Cuts.{cut_of};
ghost use Rattle.neli_reader.specs.Agreement.{untyped_layout};
ghost use Rattle.neli_deliveries.specs.Lists.{ListsGain, Opens, SameLists, SameListsBut};
ghost use Rattle.neli_deliveries.specs.declared.delivery.Delivery.{Delivery as Waiting};
ghost use Rattle.neli_deliveries.specs.Deliveries.{fault_share, heading_of, is_would_block, datagram_share};
ghost use Rattle.neli_deliveries.specs.Readings.{ReadingTakesMemory};
ghost use Rattle.neli_router.specs.declared.reply.Reply.TheVariants as reply;
ghost use Rattle.neli_router.specs.GivenUp.{still_open};
ghost use Rattle.neli_router.specs.Reads.{IsNextRead};
ghost use Rattle.neli_router.specs.Same.{SameButDeliveries, SameButHandle, SameButRequest};
ghost use Rattle.neli_router.specs.Verdicts.{begun, heard_after, heard_of, settled, verdict_by};
ghost use Rattle.neli_answers.specs.Answers.{answering_by_flags};
ghost use Rattle.neli_router.specs.Sends.{RefusesSend, TakesMemory, asks, expects, number_after, frame_or_refusal};

use crate::rule::{answer, awaits};
use crate::{
    Deliveries, GivenUp, HandleState, Heard, Loss, Missed, NlRouterReceiverHandle, Reply, Verdict,
};
use indexmap::IndexMap;
use neli_answers::Answering;
use neli_consts::{NlType, NlmF};
use neli_deliveries::Heading;
use neli_genl::Genlmsghdr;
use neli_log::Log;
use neli_log::hints::{Hints, put, value_of};
use neli_reader::{NlPayload, Nlmsghdr, NlmsghdrBuilder, RouterError, SocketError};
use neli_util::Groups;
use neli_wire::implementing::length_refusal;
use neli_wire::{FromBytesWithInput, MsgError, NoMemory, Size, ToBytes};
use std::alloc::Global;

/// A router: it gives each request a sequence number, and delivers a reply that arrived for no group to the handle of
/// its request.
///
/// It has no link: requests are returned as bytes, and the caller passes in the datagrams that arrive and the faults of
/// the link. A `D` stores the deliveries of the handles; by default a [`Log`], which stores each delivery once.
#[derive(Drop)]
pub struct NlRouter<D = Log> {
    pub(crate) deliveries: D,
    pub(crate) next_seq: u32,
    /// What is known of the answer to each request that is open, and was not given up.
    pub(crate) heard: IndexMap<u32, Heard>,
    /// Where its numbers may be found there.
    pub(crate) hints: Hints,
    /// The numbers that were given up, and are open.
    pub(crate) given_up: Vec<GivenUp>,
    /// What multicast missed, and was not yet reported.
    pub(crate) missed: Option<Missed>,
}

impl<D: Deliveries> NlRouter<D> {
    /// A router with this port, whose next sequence number is 0, and the handle for multicast.
    ///
    /// `pid` is the port of the socket that sends the requests. For a socket that was not bound to a port the kernel
    /// chose one, which getsockname(2) returns; 0 is the kernel's own.
    pub fn new(alloc: Global, pid: u32) -> (Self, NlRouterReceiverHandle<u16, Genlmsghdr<u8, u16>>)
        ensures port { D.port_of result.0.deliveries ≡ pid }
        ensures next_seq { result.0.next_seq ≡ 0 }
        ensures multicast { D.pending result.0.deliveries None ≡ Some [] }
        ensures numbers { (q : ℕ) → D.pending result.0.deliveries (Some q) ≡ None }
        ensures heard { (w : Option ℕ) → heard_of result.0.heard w ≡ None }
        ensures given_up { result.0.given_up.items ≡ [] }
        ensures missed { result.0.missed ≡ None }
        ensures handle { result.1
            ≡ record { number = None; needs_ack = false; single_given = false; ended = false } }
    {
        let router = NlRouter {
            deliveries: D::new(alloc, pid),
            next_seq: 0,
            heard: IndexMap::new(alloc),
            hints: Hints::new(alloc),
            given_up: Vec::new(alloc),
            missed: None,
        };
        let handle = NlRouterReceiverHandle::new(HandleState {
            number: None,
            needs_ack: false,
            single_given: false,
            ended: false,
        });
        (router, handle)
    }

    /// Returns the port: requests have it, and a message that arrived for no group and has another one is a stray.
    pub fn pid(&self) -> u32
        ensures { result ≡ D.port_of self.now.deliveries }
    {
        self.deliveries.port()
    }

    /// Returns the store of the handles' deliveries. It takes no memory.
    pub fn deliveries(&self) -> &D
        ensures { result.now ≡ self.now.deliveries }
    {
        &self.deliveries
    }

    /// Sets the sequence number of the next request.
    pub fn set_next_seq(&mut self, number: u32)
        ensures { self.new ≡ record self.old { next_seq = number } }
    {
        self.next_seq = number;
    }

    /// Returns a request of this type, with these flags and REQUEST, as bytes to send, and the handle for its replies.
    /// The sequence number of the first is 0, or the one of `set_next_seq`; it grows by one with each request that is
    /// sent, modulo 2^32.
    ///
    /// Refused, in this order, as `SeqInUse` if the number belongs to a handle that is not closed; as `Msg` if the
    /// length exceeds 32 bits; as `Socket(Ser)` if the payload is not written, or as `Memory` if memory runs out. A
    /// refusal leaves the router unchanged, and the number is not used up.
    pub fn send<ST: NlType, SP: ToBytes + Drop, RT, RP>(
        &mut self,
        alloc: Global,
        nl_type: ST,
        nl_flags: NlmF,
        nl_payload: NlPayload<ST, SP>,
    ) -> Result<(Vec<u8>, NlRouterReceiverHandle<RT, RP>), RouterError<ST, SP>>
        ensures same { SameButRequest D.port_of self.old self.new }
        ensures bytes { IfOk result (λ r. frame_or_refusal
            ST.wire_number SP.wire SP.Size.wire_length
            (D.port_of self.old.deliveries) self.old.next_seq
            (is_some (D.pending self.old.deliveries (Some self.old.next_seq)))
            nl_type nl_flags nl_payload ≡ Ok r.0.items) }
        ensures refused { IfErr result (RefusesSend (frame_or_refusal
            ST.wire_number SP.wire SP.Size.wire_length
            (D.port_of self.old.deliveries) self.old.next_seq
            (is_some (D.pending self.old.deliveries (Some self.old.next_seq)))
            nl_type nl_flags nl_payload)
            (TakesMemory ST.wire_number SP.wire SP.Size.wire_length
            (is_some (D.pending self.old.deliveries (Some self.old.next_seq))) nl_payload)) }
        ensures handle { IfOk result (λ r. r.1 ≡ asks self.old.next_seq nl_flags) }
        ensures next_seq { OnOk result (self.new.next_seq ≡ number_after self.old.next_seq) }
        ensures opened { OnOk result (Opens self.old.next_seq
            (D.pending self.old.deliveries) (D.pending self.new.deliveries)) }
        ensures unchanged { OnErr result ((self.new.next_seq ≡ self.old.next_seq)
            × (SameLists (D.pending self.old.deliveries) (D.pending self.new.deliveries))) }
        // Nothing is known of the answer yet.
        ensures heard { OnOk result
            ((heard_of self.new.heard (Some self.old.next_seq) ≡ Some (begun (answering_by_flags nl_flags)))
            × SameListsBut (Some self.old.next_seq)
            (heard_of self.old.heard) (heard_of self.new.heard)) }
        ensures unheard { OnErr result
            (SameLists (heard_of self.old.heard) (heard_of self.new.heard)) }
    {
        let answering = Answering::by_flags(nl_flags);
        self.send_expecting(alloc, answering, nl_type, nl_flags, nl_payload)
    }

    /// Returns a request as [`send`](NlRouter::send) does, for a caller who knows how the other side answers it, as by
    /// [`Answering::of`]: where an acknowledgement ends the answer, the handle expects one, whatever the flags are.
    pub fn send_expecting<ST: NlType, SP: ToBytes + Drop, RT, RP>(
        &mut self,
        alloc: Global,
        answering: Answering,
        nl_type: ST,
        nl_flags: NlmF,
        nl_payload: NlPayload<ST, SP>,
    ) -> Result<(Vec<u8>, NlRouterReceiverHandle<RT, RP>), RouterError<ST, SP>>
        ensures same { SameButRequest D.port_of self.old self.new }
        ensures bytes { IfOk result (λ r. frame_or_refusal
            ST.wire_number SP.wire SP.Size.wire_length
            (D.port_of self.old.deliveries) self.old.next_seq
            (is_some (D.pending self.old.deliveries (Some self.old.next_seq)))
            nl_type nl_flags nl_payload ≡ Ok r.0.items) }
        ensures refused { IfErr result (RefusesSend (frame_or_refusal
            ST.wire_number SP.wire SP.Size.wire_length
            (D.port_of self.old.deliveries) self.old.next_seq
            (is_some (D.pending self.old.deliveries (Some self.old.next_seq)))
            nl_type nl_flags nl_payload)
            (TakesMemory ST.wire_number SP.wire SP.Size.wire_length
            (is_some (D.pending self.old.deliveries (Some self.old.next_seq))) nl_payload)) }
        ensures handle { IfOk result (λ r. r.1 ≡ expects self.old.next_seq answering) }
        ensures next_seq { OnOk result (self.new.next_seq ≡ number_after self.old.next_seq) }
        ensures opened { OnOk result (Opens self.old.next_seq
            (D.pending self.old.deliveries) (D.pending self.new.deliveries)) }
        ensures unchanged { OnErr result ((self.new.next_seq ≡ self.old.next_seq)
            × (SameLists (D.pending self.old.deliveries) (D.pending self.new.deliveries))) }
        // Nothing is known of the answer yet.
        ensures heard { OnOk result
            ((heard_of self.new.heard (Some self.old.next_seq) ≡ Some (begun answering))
            × SameListsBut (Some self.old.next_seq)
            (heard_of self.old.heard) (heard_of self.new.heard)) }
        ensures unheard { OnErr result
            (SameLists (heard_of self.old.heard) (heard_of self.new.heard)) }
    {
        let number = self.next_seq;
        if self.deliveries.is_open(Some(number)) {
            return Err(RouterError::SeqInUse(number));
        }
        let bytes = frame(alloc, nl_type, nl_flags, number, self.pid(), nl_payload)?;
        self.deliveries.open(number)?;
        let Ok(_) = self.heard.insert(number, Heard::begun(answering)) else {
            self.deliveries.close(Some(number));
            return Err(RouterError::Memory);
        };
        self.hints.note_last(&self.heard);
        self.next_seq = number.wrapping_add(1);
        let handle = NlRouterReceiverHandle::new(HandleState {
            number: Some(number),
            needs_ack: awaits(answering),
            single_given: false,
            ended: false,
        });
        Ok((bytes, handle))
    }

    /// Takes in a datagram that arrived for these groups. Without groups, a message with the router's port and an open
    /// number goes to the handle of that number, and any other is a stray: it goes to the handle of every open number.
    /// With groups, each message goes to multicast, if that is open. The fault that ends a datagram goes to the handle
    /// of every open number in both cases.
    ///
    /// Refused only if memory runs out; then nothing is delivered.
    pub fn processing_loop(&mut self, bytes: &[u8], groups: &Groups) -> Result<(), NoMemory>
        ensures same { SameButDeliveries D.port_of self.old self.new }
        ensures ok { OnOk result (ListsGain (λ w. datagram_share (D.port_of self.old.deliveries)
            (λ q. is_some (D.pending self.old.deliveries (Some q))) w
            (cut_of untyped_layout bytes.now) groups.now)
            (D.pending self.old.deliveries) (D.pending self.new.deliveries)) }
        ensures unchanged { OnErr result (SameLists
            (D.pending self.old.deliveries) (D.pending self.new.deliveries)) }
        ensures empty { bytes.now ≡ [] → IsOk result }
        ensures given_up { self.new.given_up ≡ self.old.given_up }
        ensures missed { self.new.missed ≡ self.old.missed }
    {
        self.deliveries.datagram(bytes, groups)
    }

    /// Takes in a fault of the link: each handle with a number gets it, unless the link would only block.
    ///
    /// Refused only if memory runs out; then nothing is delivered. A link that would block, and any fault while no
    /// number is open, is never refused.
    pub fn error_handling(&mut self, error: SocketError) -> Result<(), NoMemory>
        ensures same { SameButDeliveries D.port_of self.old self.new }
        ensures ok { OnOk result (ListsGain (λ w. fault_share w error)
            (D.pending self.old.deliveries) (D.pending self.new.deliveries)) }
        ensures unchanged { OnErr result (SameLists
            (D.pending self.old.deliveries) (D.pending self.new.deliveries)) }
        ensures would_block { is_would_block error ≡ true → IsOk result }
        ensures unawaited { ((q : ℕ) → D.pending self.old.deliveries (Some q) ≡ None) → IsOk result }
        ensures given_up { self.new.given_up ≡ self.old.given_up }
        ensures missed { self.new.missed ≡ self.old.missed }
    {
        self.deliveries.fault(error)
    }

    /// Returns the handle's next item, read as these types whatever the handle's own are; or the end, or that it waits.
    /// A handle that is not open here returns `ClosedChannel`, and is then ended: it returns the end in every router.
    ///
    /// Refused only if memory runs out; then the router and the handle are unchanged. For a message of another type
    /// than 2 and 3 only if reading its body takes memory, so a refused body is an item.
    pub fn next_typed<T: NlType, P: FromBytesWithInput + Size + Drop, RT, RP>(
        &mut self,
        alloc: Global,
        handle: &mut NlRouterReceiverHandle<RT, RP>,
    ) -> Result<Reply<T, P>, NoMemory>
        ensures same { SameButHandle D.port_of D.pending handle.old.number self.old self.new }
        ensures ended { handle.old.ended ≡ true
            → (result ≡ Ok reply.End) × (handle.new ≡ handle.old) × (self.new ≡ self.old) }
        ensures closed { handle.old.ended ≡ false
            → D.pending self.old.deliveries handle.old.number ≡ None
            → (result ≡ Ok (reply.Item (Err RouterError.ClosedChannel)))
            × (handle.new ≡ record handle.old { ended = true }) × (self.new ≡ self.old) }
        ensures waits { handle.old.ended ≡ false
            → D.pending self.old.deliveries handle.old.number ≡ Some []
            → (result ≡ Ok reply.Waits) × (handle.new ≡ handle.old) × (self.new ≡ self.old) }
        ensures gives { handle.old.ended ≡ false → (d : Waiting) (ds : List Waiting)
            → D.pending self.old.deliveries handle.old.number ≡ Some (d ∷ ds)
            → IfOk result (IsNextRead T.wire_value T.wire_number P.view P.wire_length P.read
            D.pending d ds handle.old handle.new self.old self.new (λ x. reply.Item x)) }
        ensures unchanged { OnErr result ((handle.new ≡ handle.old) × (self.new ≡ self.old)) }
        ensures memory { handle.old.ended ≡ false → (d : Waiting) (ds : List Waiting)
            → D.pending self.old.deliveries handle.old.number ≡ Some (d ∷ ds)
            → OnErr result (ReadingTakesMemory P.takes_memory d) }
        ensures given_up { self.new.given_up ≡ self.old.given_up }
    {
        let state = handle.state();
        if state.ended {
            return Ok(Reply::End);
        }
        match self.deliveries.first(alloc, state.number)? {
            None => {
                if self.deliveries.is_open(state.number) {
                    return Ok(Reply::Waits);
                }
                handle.set_state(HandleState {
                    ended: true,
                    ..state
                });
                Ok(Reply::Item(Err(RouterError::ClosedChannel)))
            }
            Some(item) => {
                let heading = self.heading(state.number);
                self.deliveries.drop_first(state.number);
                let (after, given) = answer(state, item);
                hear(
                    &mut self.heard,
                    &self.hints,
                    state.number,
                    after.ended,
                    heading,
                    &given,
                );
                handle.set_state(after);
                Ok(Reply::Item(given))
            }
        }
    }

    /// The first delivery that waits, by its message's header.
    fn heading(&self, whose: Option<u32>) -> Heading
        ensures { (d : Waiting) (ds : List Waiting)
            → D.pending self.now.deliveries whose ≡ Some (d ∷ ds) → result ≡ heading_of d }
    {
        match self.deliveries.first_heading(whose) {
            None => Heading::Other,
            Some(heading) => heading,
        }
    }

    /// Closes a handle: its deliveries are removed, and its number may be used again. It takes no memory.
    ///
    /// A handle is known by its number. If that is not open here nothing changes; a handle of another router closes the
    /// one with the same number here.
    pub fn close<RT, RP>(&mut self, handle: NlRouterReceiverHandle<RT, RP>)
        ensures same { SameButHandle D.port_of D.pending handle.number self.old self.new }
        ensures closed { D.pending self.new.deliveries handle.number ≡ None }
        ensures unheard { heard_of self.new.heard handle.number ≡ None }
        ensures given_up { self.new.given_up.items
            ≡ still_open (D.pending self.new.deliveries) self.old.given_up.items }
    {
        self.deliveries.close(handle.state().number);
        if let Some(number) = handle.state().number {
            self.forget_heard(number);
        }
        self.forget_closed();
    }

    /// Returns the verdict on the answer to a request, by the items read from it: `Pending` until it has ended, unless
    /// a message is marked; then a final one, the first that holds: `Interrupted` if a returned message is marked
    /// `NLM_F_DUMP_INTR`; `Failed` if the other side answered with an error or ended a dump with one; `Lost` if
    /// anything else arrived in place of a message, or the other side's answer goes on; `Complete`.
    ///
    /// A handle that is not open here, or was given up, is `Lost(Closed)`; that of multicast is `Pending`. It takes no
    /// memory.
    pub fn verdict<RT, RP>(&self, handle: &NlRouterReceiverHandle<RT, RP>) -> Verdict
        ensures { result ≡ verdict_by handle.now.number
            (heard_of self.now.heard handle.now.number) }
    {
        match handle.state().number {
            None => Verdict::Pending,
            Some(number) => match self.heard.get(&number) {
                None => Verdict::Lost(Loss::Closed),
                Some(heard) => heard.settled().verdict,
            },
        }
    }

    /// Returns what is known of the answer to a request, by the items read from it: its verdict, and whether the other
    /// side filtered. Nothing for multicast, and for a handle that is not open here. It takes no memory.
    pub fn heard<RT, RP>(&self, handle: &NlRouterReceiverHandle<RT, RP>) -> Option<Heard>
        ensures { result ≡ option_map settled (heard_of self.now.heard handle.now.number) }
    {
        match handle.state().number {
            None => None,
            Some(number) => match self.heard.get(&number) {
                None => None,
                Some(heard) => Some(heard.settled()),
            },
        }
    }

    /// Forgets what is known of the answer to a request.
    pub(crate) fn forget_heard(&mut self, number: u32)
        ensures same { self.new
            ≡ record self.old { heard = self.new.heard; hints = self.new.hints } }
        ensures unheard { heard_of self.new.heard (Some number) ≡ None }
        ensures heard { SameListsBut (Some number)
            (heard_of self.old.heard) (heard_of self.new.heard) }
    {
        if let Some((index, _, _)) = self.heard.swap_remove_full(&number) {
            self.hints.note_at(&self.heard, index);
        }
    }
}

/// Notes one more returned item of the answer to a request, at which the answer ends or not, of a delivery with this
/// heading.
fn hear<T, P>(
    all: &mut IndexMap<u32, Heard>,
    hints: &Hints,
    whose: Option<u32>,
    ended: bool,
    heading: Heading,
    item: &Result<Nlmsghdr<T, P>, RouterError<T, P>>,
)
    ensures heard { heard_of all.new whose
        ≡ option_map (heard_after ended heading item.now) (heard_of all.old whose) }
    ensures others { SameListsBut whose (heard_of all.old) (heard_of all.new) }
{
    if let Some(number) = whose {
        let hint = hints.hint(number);
        if let Some(heard) = value_of(all, hint, number) {
            put(all, hint, number, heard.with(ended, heading, item));
        }
    }
}

/// The bytes of a request.
fn frame<ST: NlType, SP: ToBytes + Drop>(
    alloc: Global,
    nl_type: ST,
    nl_flags: NlmF,
    number: u32,
    port: u32,
    nl_payload: NlPayload<ST, SP>,
) -> Result<Vec<u8>, RouterError<ST, SP>>
    ensures bytes { IfOk result (λ bytes. frame_or_refusal
        ST.wire_number SP.wire SP.Size.wire_length port number false nl_type nl_flags nl_payload
        ≡ Ok bytes.items) }
    ensures refused { IfErr result (RefusesSend (frame_or_refusal
        ST.wire_number SP.wire SP.Size.wire_length port number false nl_type nl_flags nl_payload)
        (TakesMemory ST.wire_number SP.wire SP.Size.wire_length false nl_payload)) }
{
    let request = NlmsghdrBuilder::default()
        .nl_type(nl_type)
        .nl_flags(nl_flags | NlmF::REQUEST)
        .nl_seq(number)
        .nl_pid(port)
        .nl_payload(nl_payload)
        .build();
    let Ok(message) = request else {
        return Err(RouterError::Msg(MsgError::from_static(length_refusal())));
    };
    let mut bytes = Vec::new(alloc);
    // Where this is refused, writing asks for room piece by piece.
    let _ = bytes.reserve(message.padded_size());
    match message.to_bytes(&mut bytes) {
        Ok(()) => Ok(bytes),
        Err(error) => Err(SocketError::from(error).into()),
    }
}
