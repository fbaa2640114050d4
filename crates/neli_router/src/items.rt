//! Items that a caller keeps in a list: how the answer stands by them.

ghost use Rattle.std.specs.Prelude.{true, not, ◌≡◌, ◌||◌, ◌&&◌};
ghost use Rattle.neli_router.specs.Rule.{ends_at, is_single, item_of, last_item, needs_ack};
ghost use Rattle.neli_router.specs.Verdicts.{given_of, is_filtered, is_flagged, is_last_item, item_verdict, verdict};
ghost use Rattle.neli_router.specs.Verdicts.{verdict_of_items, verdict_with};
ghost use Rattle.neli_answers.specs.Answers.{answering_by_flags};
ghost use Rattle.std.specs.List.{list_any};

use crate::rule::{ends_alone, is_single, needs_acknowledgement};
use crate::verdict::{has_flag, item_verdict, whole_verdict};
use crate::{Loss, Verdict};
use neli_answers::Answering;
use neli_consts::{NlType, NlmF};
use neli_reader::{NlPayload, Nlmsghdr, RouterError};

/// How an answer stands that ends at this item, by what is given there.
fn last_verdict<T, P>(
    needs_ack: bool,
    single_given: bool,
    item: &Result<Nlmsghdr<T, P>, RouterError<T, P>>,
) -> Verdict
    ensures { result ≡ item_verdict true (last_item needs_ack single_given item.now) }
{
    let Ok(message) = item else {
        return item_verdict(true, item);
    };
    match message.nl_payload() {
        NlPayload::Ack(_) if needs_ack => item_verdict(true, item),
        NlPayload::Ack(_) => Verdict::Lost(Loss::UnexpectedAck),
        _ if single_given => Verdict::Lost(Loss::NoAck),
        NlPayload::Err(error) => Verdict::Failed(*error.error()),
        NlPayload::Capped(error) => Verdict::Failed(*error.error()),
        _ => item_verdict(true, item),
    }
}

/// Whether an item is the last message of an answer.
fn is_last_item<T: NlType, P>(
    answering: Answering,
    item: &Result<Nlmsghdr<T, P>, RouterError<T, P>>,
) -> bool
    ensures { result ≡ is_last_item T.wire_number answering item.now }
{
    match item {
        Ok(message) => {
            answering.ends_with(message.nl_type().to_number(), *message.nl_flags(), 0)
        }
        Err(_) => false,
    }
}

/// Whether what is given where an answer ends is a message with this flag.
fn last_has_flag<T, P>(
    flag: NlmF,
    needs_ack: bool,
    single_given: bool,
    item: &Result<Nlmsghdr<T, P>, RouterError<T, P>>,
) -> bool
    ensures { result ≡ is_flagged flag.0 (last_item needs_ack single_given item.now) }
{
    let Ok(message) = item else {
        return false;
    };
    let is_given = match message.nl_payload() {
        NlPayload::Ack(_) => needs_ack,
        NlPayload::Err(_) | NlPayload::Capped(_) => false,
        _ => !single_given,
    };
    is_given && has_flag(flag, item)
}

/// Whether what is given where an answer ends is the last message of it.
fn last_is_last<T: NlType, P>(
    answering: Answering,
    needs_ack: bool,
    single_given: bool,
    item: &Result<Nlmsghdr<T, P>, RouterError<T, P>>,
) -> bool
    ensures { result ≡ is_last_item T.wire_number answering (last_item needs_ack single_given item.now) }
{
    let Ok(message) = item else {
        return false;
    };
    let is_given = match message.nl_payload() {
        NlPayload::Ack(_) => needs_ack,
        NlPayload::Err(_) | NlPayload::Capped(_) => false,
        _ => !single_given,
    };
    is_given && is_last_item(answering, item)
}

/// What is known of the answer to a request after some of its items.
#[derive(Clone, Copy)]
struct Progress {
    verdict: Verdict,
    filtered: bool,
    finished: bool,
    single_given: bool,
    ended: bool,
}

impl Progress {
    /// After one item more.
    fn with<T: NlType, P>(
        self,
        answering: Answering,
        needs_ack: bool,
        item: &Result<Nlmsghdr<T, P>, RouterError<T, P>>,
    ) -> Progress
        ensures verdict { result.verdict ≡ verdict_with self.verdict
            (ends_at T.wire_number needs_ack true self.single_given item.now)
            (item_of T.wire_number needs_ack true self.single_given item.now) }
        ensures filtered { result.filtered ≡ (self.filtered || (not self.ended
            && is_flagged 32 (item_of T.wire_number needs_ack true self.single_given item.now))) }
        ensures finished { result.finished ≡ (self.finished || (not self.ended
            && is_last_item T.wire_number answering
            (item_of T.wire_number needs_ack true self.single_given item.now))) }
        ensures single_given { result.single_given
            ≡ (self.single_given || is_single T.wire_number true item.now) }
        ensures ended { result.ended
            ≡ (self.ended || ends_at T.wire_number needs_ack true self.single_given item.now) }
    {
        let single = is_single(true, item);
        let ends = ends_alone(item) || if needs_ack { self.single_given } else { single };
        let (verdict, filtered, last) = if ends {
            (
                last_verdict(needs_ack, self.single_given, item),
                last_has_flag(NlmF::DUMP_FILTERED, needs_ack, self.single_given, item),
                last_is_last(answering, needs_ack, self.single_given, item),
            )
        } else {
            (
                item_verdict(false, item),
                has_flag(NlmF::DUMP_FILTERED, item),
                is_last_item(answering, item),
            )
        };
        Progress {
            verdict: match self.verdict {
                Verdict::Pending => verdict,
                before => before,
            },
            filtered: self.filtered || (!self.ended && filtered),
            finished: self.finished || (!self.ended && last),
            single_given: self.single_given || single,
            ended: self.ended || ends,
        }
    }
}

/// What is known of the answer to a request by its items.
fn progress_of<T: NlType, P>(
    answering: Answering,
    needs_ack: bool,
    items: &[Result<Nlmsghdr<T, P>, RouterError<T, P>>],
) -> Progress
    ensures verdict { result.verdict ≡ verdict T.wire_number needs_ack true items.now }
    ensures filtered { result.filtered ≡ is_filtered T.wire_number needs_ack true items.now }
    ensures finished { result.finished ≡ list_any (is_last_item T.wire_number answering)
        (given_of T.wire_number needs_ack true items.now) }
{
    let mut progress = Progress {
        verdict: Verdict::Pending,
        filtered: false,
        finished: false,
        single_given: false,
        ended: false,
    };
    for item in items {
        progress = progress.with(answering, needs_ack, item);
    }
    progress
}

/// How the answer to a request stands by its items, for callers who keep them: what [`NlRouter::verdict`] returns after
/// these were read. `nl_flags` are the request's own, which say how it is answered.
///
/// The items are those that reads of the request's handle returned, all of them and in order; they may go on past the
/// end of the answer. It takes no memory.
///
/// [`NlRouter::verdict`]: crate::NlRouter::verdict
pub fn verdict_of<T: NlType, P>(
    nl_flags: NlmF,
    items: &[Result<Nlmsghdr<T, P>, RouterError<T, P>>],
) -> Verdict
    ensures { result ≡ verdict_of_items T.wire_number (answering_by_flags nl_flags)
        (needs_ack nl_flags) items.now }
{
    let answering = Answering::by_flags(nl_flags);
    let progress = progress_of(answering, needs_acknowledgement(nl_flags), items);
    whole_verdict(progress.finished, progress.verdict)
}

/// Whether the other side filtered, by the items of the answer to a request: one of them has the flag
/// `NLM_F_DUMP_FILTERED`. The arguments are those of [`verdict_of`]. It takes no memory.
pub fn filtered_of<T: NlType, P>(
    nl_flags: NlmF,
    items: &[Result<Nlmsghdr<T, P>, RouterError<T, P>>],
) -> bool
    ensures { result ≡ is_filtered T.wire_number (needs_ack nl_flags) true items.now }
{
    let answering = Answering::by_flags(nl_flags);
    progress_of(answering, needs_acknowledgement(nl_flags), items).filtered
}
