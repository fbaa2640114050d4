//! Lent reads: a handle's next item where the log keeps its bytes, and the step past it.

ghost use Rattle.std.specs.Prelude.{true, false, ◌≡◌, ◌||◌, ◌∷◌, [], List, None, Some, Err, option_map};
ghost use Rattle.neli_lent.specs.Messages.{message_view};
ghost use Rattle.neli_deliveries.specs.Lists.{SameListsBut};
ghost use Rattle.neli_deliveries.specs.declared.delivery.Delivery.{Delivery as Waiting};
ghost use Rattle.neli_log.specs.Log.{pending_of};
ghost use Rattle.neli_router.specs.Lending.{IsLentReply, lent_answers, lent_end_code, lent_ends, lent_error_verdict};
ghost use Rattle.neli_router.specs.Lending.{lent_item, lent_last, lent_single, lent_step, lent_verdict};
ghost use Rattle.neli_router.specs.Lending.{is_lent_flagged, untyped, with_step};
ghost use Rattle.neli_router.specs.Reads.{GoesPast, item_for};
ghost use Rattle.neli_router.specs.Rule.{has_number};
ghost use Rattle.neli_router.specs.Same.{SameButHandle};
ghost use Rattle.neli_router.specs.Verdicts.{heard_of};
ghost use Rattle.neli_router.specs.declared.lending.LentError.TheVariants as error;
ghost use Rattle.neli_router.specs.declared.lending.LentReply.TheVariants as reply;

use crate::verdict::{fault_verdict, is_last};
use crate::{Deliveries, HandleState, Heard, Loss, NlRouter, NlRouterReceiverHandle, Verdict};
use bitflags::Flags;
use indexmap::IndexMap;
use neli_consts::{NLMSG_DONE, NlmF};
use neli_deliveries::Heading;
use neli_lent::LentMessage;
use neli_log::hints::{Hints, put, value_of};
use neli_log::{LentDelivery, Log};
use neli_reader::{Kind, SocketError};

/// The error in place of a lent message: the [`RouterError`](neli_reader::RouterError) of that name, with nothing of it
/// copied.
#[derive(Clone, Copy, Debug)]
pub enum LentError<'b> {
    /// The other side answered with an error: its code, as -19 for `ENODEV`, and the message of it. An owned read
    /// returns it as `Nlmsgerr`, or as `Capped`.
    Answer(i32, LentMessage<'b, u16>),
    /// Something else arrived in place of the acknowledgement.
    NoAck,
    /// An acknowledgement arrived that was not requested.
    UnexpectedAck,
    /// A message arrived with a sequence number or a port that no request has.
    BadSeqOrPid(LentMessage<'b, u16>),
    /// A datagram could not be read to its end, or the link failed.
    Socket(&'b SocketError),
    /// The handle is not open here.
    ClosedChannel,
}

/// The result of a lent read of a handle.
#[derive(Clone, Copy, Debug)]
pub enum LentReply<'b> {
    /// The next item: a message, or an error in place of one.
    Item(Result<LentMessage<'b, u16>, LentError<'b>>),
    /// The handle has ended: no item follows.
    End,
    /// No item has arrived yet.
    Waits,
}

/// Whether a lent message is an acknowledgement or an error.
fn is_answer(message: &LentMessage<'_, u16>) -> bool
    ensures { result ≡ lent_answers (message_view message.now) }
{
    matches!(
        message.kind(),
        Kind::Acknowledgement(_) | Kind::Capped(_) | Kind::Failure
    )
}

/// Whether a lent message is a whole reply to a request, or the last message of one.
fn is_single(numbered: bool, message: &LentMessage<'_, u16>) -> bool
    ensures { result ≡ lent_single numbered (message_view message.now) }
{
    numbered
        && !is_answer(message)
        && (!message.nl_flags().contains(NlmF::MULTI) || *message.nl_type() == NLMSG_DONE)
}

/// Whether a handle's answers end at this message.
fn ends(state: HandleState, message: &LentMessage<'_, u16>) -> bool
    ensures { result ≡ lent_ends state.needs_ack (has_number state.number) state.single_given
        (message_view message.now) }
{
    is_answer(message)
        || if state.needs_ack {
            state.single_given
        } else {
            is_single(state.number.is_some(), message)
        }
}

/// The item that is lent where the answers end at this message.
fn last_item<'b>(
    state: HandleState,
    message: LentMessage<'b, u16>,
) -> Result<LentMessage<'b, u16>, LentError<'b>>
    ensures { result ≡ lent_last state.needs_ack state.single_given message.entry }
{
    match message.kind() {
        Kind::Acknowledgement(_) if state.needs_ack => Ok(message),
        Kind::Acknowledgement(_) => Err(LentError::UnexpectedAck),
        _ if state.single_given => Err(LentError::NoAck),
        Kind::Capped(_) | Kind::Failure => Err(LentError::Answer(message.code(), message)),
        _ => Ok(message),
    }
}

/// The item that is lent of a delivery.
pub(crate) fn item_of<'b>(
    state: HandleState,
    delivery: LentDelivery<'b>,
) -> Result<LentMessage<'b, u16>, LentError<'b>>
    ensures { result ≡ lent_item state.needs_ack (has_number state.number) state.single_given
        delivery.entry }
{
    match delivery {
        LentDelivery::Message(message) => {
            if ends(state, &message) {
                last_item(state, message)
            } else {
                Ok(message)
            }
        }
        LentDelivery::Stray(message) => Err(LentError::BadSeqOrPid(message)),
        LentDelivery::Fault(fault) => Err(LentError::Socket(fault)),
    }
}

/// The code of the end of a dump, if a message is one; 0 of any other.
fn end_code(message: &LentMessage<'_, u16>) -> i32
    ensures { result ≡ lent_end_code (message_view message.now) }
{
    match message.kind() {
        Kind::DumpEnd => message.code(),
        _ => 0,
    }
}

/// By the error in place of a message.
fn error_verdict(error: LentError<'_>) -> Verdict
    ensures { result ≡ lent_error_verdict error.entry }
{
    match error {
        LentError::Answer(code, _) => Verdict::Failed(code),
        LentError::NoAck => Verdict::Lost(Loss::NoAck),
        LentError::UnexpectedAck => Verdict::Lost(Loss::UnexpectedAck),
        LentError::BadSeqOrPid(_) => Verdict::Lost(Loss::Stray),
        LentError::Socket(fault) => fault_verdict(fault),
        LentError::ClosedChannel => Verdict::Lost(Loss::Closed),
    }
}

/// Whether an item is a message with this flag.
fn has_flag(flag: NlmF, item: &Result<LentMessage<'_, u16>, LentError<'_>>) -> bool
    ensures { result ≡ is_lent_flagged flag.0 item.now }
{
    match item {
        Ok(message) => message.nl_flags().contains(flag),
        Err(_) => false,
    }
}

/// By an item that is given, at which the answer ends or not.
fn item_verdict(ended: bool, item: &Result<LentMessage<'_, u16>, LentError<'_>>) -> Verdict
    ensures { result ≡ lent_verdict ended item.now }
{
    if has_flag(NlmF::DUMP_INTR, item) {
        return Verdict::Interrupted;
    }
    if !ended {
        return Verdict::Pending;
    }
    match item {
        Ok(message) => {
            let code = end_code(message);
            if code == 0 {
                Verdict::Complete
            } else {
                Verdict::Failed(code)
            }
        }
        Err(error) => error_verdict(*error),
    }
}

/// What a step past a delivery changes.
#[derive(Clone, Copy)]
pub(crate) struct Step {
    single: bool,
    ended: bool,
    heading: Heading,
    filtered: bool,
    verdict: Verdict,
}

impl Step {
    /// What is known of an answer after it.
    fn after(self, heard: Heard) -> Heard
        ensures { result ≡ with_step self heard }
    {
        let verdict = match heard.verdict {
            Verdict::Pending => self.verdict,
            before => before,
        };
        Heard {
            verdict,
            filtered: heard.filtered || self.filtered,
            finished: heard.finished || is_last(heard.answering, self.heading),
            answering: heard.answering,
        }
    }
}

/// The step past a delivery.
pub(crate) fn step_past(state: HandleState, delivery: LentDelivery<'_>) -> Step
    ensures { result ≡ lent_step state.needs_ack (has_number state.number) state.single_given
        delivery.entry }
{
    let (single, ended) = match &delivery {
        LentDelivery::Message(message) => (
            is_single(state.number.is_some(), message),
            ends(state, message),
        ),
        _ => (false, true),
    };
    let heading = delivery.heading();
    let item = item_of(state, delivery);
    Step {
        single,
        ended,
        heading,
        filtered: has_flag(NlmF::DUMP_FILTERED, &item),
        verdict: item_verdict(ended, &item),
    }
}

/// A handle's state after a step.
pub(crate) fn state_after(state: HandleState, step: Step) -> HandleState
    ensures { result ≡ record state {
      single_given = state.single_given || step.single;
      ended = step.ended;
    } }
{
    HandleState {
        single_given: state.single_given || step.single,
        ended: step.ended,
        ..state
    }
}

/// Notes a step in what is known of the answer to a request.
fn hear(all: &mut IndexMap<u32, Heard>, hints: &Hints, whose: Option<u32>, step: Step)
    ensures heard { heard_of all.new whose ≡ option_map (with_step step) (heard_of all.old whose) }
    ensures others { SameListsBut whose (heard_of all.old) (heard_of all.new) }
{
    if let Some(number) = whose {
        let hint = hints.hint(number);
        if let Some(heard) = value_of(all, hint, number) {
            put(all, hint, number, step.after(heard));
        }
    }
}

impl NlRouter<Log> {
    /// Lends the handle's next item until the next call that changes the router; or the end, or that it waits. It
    /// takes no memory and copies nothing, and the item stays the next one until [`pass`](NlRouter::pass).
    ///
    /// It is the item that [`next_typed`](NlRouter::next_typed) returns, a message as its header and its payload's
    /// bytes, whatever the handle's types are: the body is not read, so none is refused. A handle that is not open here
    /// gives `ClosedChannel`.
    ///
    /// ```
    /// while let LentReply::Item(Ok(message)) = router.lend_next(&handle) {
    ///     for attr in message.get_attrs::<Ifinfomsg, Ifla>()? {
    ///         count += attr?.attr_payload().len();
    ///     }
    ///     router.pass(&mut handle);
    /// }
    /// ```
    pub fn lend_next<RT, RP>(&self, handle: &NlRouterReceiverHandle<RT, RP>) -> LentReply<'_>
        ensures ended { handle.now.ended ≡ true → result ≡ reply.End }
        ensures closed { handle.now.ended ≡ false
            → pending_of self.now.deliveries handle.now.number ≡ None
            → result ≡ reply.Item (Err error.ClosedChannel) }
        ensures waits { handle.now.ended ≡ false
            → pending_of self.now.deliveries handle.now.number ≡ Some []
            → result ≡ reply.Waits }
        ensures lends { handle.now.ended ≡ false → (d : Waiting) (ds : List Waiting)
            → pending_of self.now.deliveries handle.now.number ≡ Some (d ∷ ds)
            → IsLentReply (item_for (λ n. n) handle.now (untyped d)) result }
    {
        let state = handle.state();
        if state.ended {
            return LentReply::End;
        }
        match self.deliveries.lend_first(state.number) {
            None => {
                if self.deliveries.is_open(state.number) {
                    return LentReply::Waits;
                }
                LentReply::Item(Err(LentError::ClosedChannel))
            }
            Some(delivery) => LentReply::Item(item_of(state, delivery)),
        }
    }

    /// Goes on to the handle's next item: the router and the handle change as [`next_typed`](NlRouter::next_typed)
    /// changes them where the message can be read as its types, and nothing is read. It takes no memory.
    ///
    /// Where no item waits nothing changes. A handle that is not open here is then ended.
    pub fn pass<RT, RP>(&mut self, handle: &mut NlRouterReceiverHandle<RT, RP>)
        ensures same { SameButHandle (λ d. d.port) pending_of handle.old.number self.old self.new }
        ensures ended { handle.old.ended ≡ true
            → (handle.new ≡ handle.old) × (self.new ≡ self.old) }
        ensures closed { handle.old.ended ≡ false
            → pending_of self.old.deliveries handle.old.number ≡ None
            → (handle.new ≡ record handle.old { ended = true }) × (self.new ≡ self.old) }
        ensures waits { handle.old.ended ≡ false
            → pending_of self.old.deliveries handle.old.number ≡ Some []
            → (handle.new ≡ handle.old) × (self.new ≡ self.old) }
        ensures passes { handle.old.ended ≡ false → (d : Waiting) (ds : List Waiting)
            → pending_of self.old.deliveries handle.old.number ≡ Some (d ∷ ds)
            → GoesPast (λ n. n) pending_of d ds (untyped d) handle.old handle.new self.old self.new }
        ensures given_up { self.new.given_up ≡ self.old.given_up }
    {
        let state = handle.state();
        if state.ended {
            return;
        }
        let Some(delivery) = self.deliveries.lend_first(state.number) else {
            if !self.deliveries.is_open(state.number) {
                handle.set_state(HandleState {
                    ended: true,
                    ..state
                });
            }
            return;
        };
        let step = step_past(state, delivery);
        self.deliveries.drop_first(state.number);
        hear(&mut self.heard, &self.hints, state.number, step);
        let after = state_after(state, step);
        handle.set_state(after);
    }
}
