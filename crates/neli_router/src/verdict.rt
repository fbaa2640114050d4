//! The verdict on an answer, by the items read from it: whether it is complete.

ghost use Rattle.std.specs.Prelude.{◌≡◌};
ghost use Rattle.neli_router.specs.Verdicts.{begun, end_code, error_verdict, heard_after, is_flagged, settled};
ghost use Rattle.neli_router.specs.Verdicts.{fault_verdict, is_last, item_verdict, last_verdict, whole_verdict};

use bitflags::Flags;
use neli_answers::Answering;
use neli_consts::NlmF;
use neli_deliveries::Heading;
use neli_reader::{NlPayload, Nlmsghdr, RouterError, SocketError};

/// The verdict on an answer. All but [`Verdict::Pending`] are final.
#[derive(Clone, Copy, Debug, PartialEq, Eq)]
pub enum Verdict {
    /// It has not ended yet, and no message of it is marked as interrupted.
    Pending,
    /// It has ended well: the reads returned all of it.
    Complete,
    /// A message of it, its end included, has the flag `NLM_F_DUMP_INTR`: the listed objects changed meanwhile, so
    /// entries may be missing or repeated. Request it again.
    Interrupted,
    /// The other side answered with an error, or ended a dump with one: the code, as -19 for `ENODEV`.
    Failed(i32),
    /// It did not come to its end.
    Lost(Loss),
}

/// What ended an answer before its end.
#[derive(Clone, Copy, Debug, PartialEq, Eq)]
pub enum Loss {
    /// The link failed.
    Link,
    /// A datagram could not be read to its end.
    Datagram,
    /// A message arrived with a sequence number or a port that no request has.
    Stray,
    /// A message could not be read as the caller's types.
    Unreadable,
    /// Something else arrived in place of the acknowledgement.
    NoAck,
    /// An acknowledgement arrived that was not requested.
    UnexpectedAck,
    /// The reads ended before the other side's answer did: a message of a dump came without `NLM_F_MULTI`.
    Unended,
    /// The handle is not open here.
    Closed,
}

/// What is known of an answer so far.
#[derive(Clone, Copy, Debug, PartialEq, Eq)]
pub struct Heard {
    /// The verdict.
    pub verdict: Verdict,
    /// A returned message has the flag `NLM_F_DUMP_FILTERED`: the other side filtered as requested.
    pub filtered: bool,
    /// The other side's last message of it was read, whatever ended the answer.
    pub finished: bool,
    /// How the other side answers, which says what its last message is.
    pub answering: Answering,
}

/// Whether a delivery with this heading is the last message of an answer.
pub(crate) fn is_last(answering: Answering, heading: Heading) -> bool
    ensures { result ≡ is_last answering heading }
{
    match heading {
        Heading::Message(nl_type, nl_flags) => answering.ends_with(nl_type, nl_flags, 0),
        Heading::Other => false,
    }
}

/// A verdict, by whether the other side's last message was read.
pub(crate) fn whole_verdict(finished: bool, verdict: Verdict) -> Verdict
    ensures { result ≡ whole_verdict finished verdict }
{
    match verdict {
        Verdict::Complete if !finished => Verdict::Lost(Loss::Unended),
        verdict => verdict,
    }
}

/// Whether an item is a message with this flag.
pub(crate) fn has_flag<T, P>(flag: NlmF, item: &Result<Nlmsghdr<T, P>, RouterError<T, P>>) -> bool
    ensures { result ≡ is_flagged flag.0 item.now }
{
    match item {
        Ok(message) => message.nl_flags().contains(flag),
        Err(_) => false,
    }
}

/// By a fault of the link, or of a datagram.
pub(crate) fn fault_verdict(error: &SocketError) -> Verdict
    ensures { result ≡ fault_verdict error.now }
{
    match error {
        SocketError::De(_) => Verdict::Lost(Loss::Datagram),
        _ => Verdict::Lost(Loss::Link),
    }
}

/// By the error in place of a message.
fn error_verdict<T, P>(error: &RouterError<T, P>) -> Verdict
    ensures { result ≡ error_verdict error.now }
{
    match error {
        RouterError::Nlmsgerr(answer) => Verdict::Failed(*answer.error()),
        RouterError::Capped(answer) => Verdict::Failed(*answer.error()),
        RouterError::Socket(error) => fault_verdict(error),
        RouterError::BadSeqOrPid(_) => Verdict::Lost(Loss::Stray),
        RouterError::NoAck => Verdict::Lost(Loss::NoAck),
        RouterError::UnexpectedAck => Verdict::Lost(Loss::UnexpectedAck),
        RouterError::ClosedChannel => Verdict::Lost(Loss::Closed),
        _ => Verdict::Lost(Loss::Unreadable),
    }
}

/// The code of the end of a dump; 0 of any other message.
fn end_code<T, P>(payload: &NlPayload<T, P>) -> i32
    ensures { result ≡ end_code payload.now }
{
    match payload {
        NlPayload::DumpExtAck(end) => *end.error(),
        _ => 0,
    }
}

/// By the item that ends an answer.
fn last_verdict<T, P>(item: &Result<Nlmsghdr<T, P>, RouterError<T, P>>) -> Verdict
    ensures { result ≡ last_verdict item.now }
{
    match item {
        Ok(message) => {
            let code = end_code(message.nl_payload());
            if code == 0 {
                Verdict::Complete
            } else {
                Verdict::Failed(code)
            }
        }
        Err(error) => error_verdict(error),
    }
}

/// By an item that is given, at which the answer ends or not.
pub(crate) fn item_verdict<T, P>(
    ended: bool,
    item: &Result<Nlmsghdr<T, P>, RouterError<T, P>>,
) -> Verdict
    ensures { result ≡ item_verdict ended item.now }
{
    if has_flag(NlmF::DUMP_INTR, item) {
        Verdict::Interrupted
    } else if ended {
        last_verdict(item)
    } else {
        Verdict::Pending
    }
}

impl Heard {
    /// Nothing is known yet of an answer that comes so.
    pub(crate) fn begun(answering: Answering) -> Heard
        ensures { result ≡ begun answering }
    {
        Heard {
            verdict: Verdict::Pending,
            filtered: false,
            finished: false,
            answering,
        }
    }

    /// What is known with one more returned item, at which the answer ends or not, of a delivery with this heading.
    pub(crate) fn with<T, P>(
        self,
        ended: bool,
        heading: Heading,
        item: &Result<Nlmsghdr<T, P>, RouterError<T, P>>,
    ) -> Heard
        ensures { result ≡ heard_after ended heading item.now self }
    {
        let verdict = match self.verdict {
            Verdict::Pending => item_verdict(ended, item),
            verdict => verdict,
        };
        Heard {
            verdict,
            filtered: self.filtered || has_flag(NlmF::DUMP_FILTERED, item),
            finished: self.finished || is_last(self.answering, heading),
            answering: self.answering,
        }
    }

    /// The same with the final verdict.
    pub(crate) fn settled(self) -> Heard
        ensures { result ≡ settled self }
    {
        Heard {
            verdict: whole_verdict(self.finished, self.verdict),
            ..self
        }
    }
}
