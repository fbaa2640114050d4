//! Consecutive messages that are part of one answer.

ghost use Rattle.std.specs.Prelude.{◌≡◌, ◌≤◌, ◌<◌, ◌+◌, ℕ, IfSome, drop, length, take, true};
ghost use Rattle.neli_lent.specs.Messages.{Lent, message_view};
ghost use Rattle.neli_session.specs.Messages.{IsMessage};
ghost use Rattle.neli_session.specs.Requests.{ends};
ghost use Rattle.neli_session.specs.Runs.{HasRun, IsLike};

use crate::spans::span_at;
use neli_answers::Answering;
use neli_lent::LentMessage;

/// Messages at the front of bytes.
#[derive(Clone, Copy, Debug)]
pub(crate) struct Run {
    /// The number of their bytes.
    pub(crate) length: usize,
    /// The last of them ends the answer.
    pub(crate) ended: bool,
}

/// Whether an answer of this kind ends with a message.
pub(crate) fn ends(answering: Answering, message: &LentMessage<'_, u16>) -> bool
    ensures { result ≡ ends answering (message_view message.now) }
{
    let (nl_type, flags) = (*message.nl_type(), *message.nl_flags());
    answering.ends_with(nl_type, flags, message.code())
}

/// Whether two messages have the same port and the same number.
fn is_like(message: &LentMessage<'_, u16>, other: &LentMessage<'_, u16>) -> bool
    ensures { result ≡ true → IsLike (message_view message.now) (message_view other.now) }
{
    *other.nl_pid() == *message.nl_pid() && *other.nl_seq() == *message.nl_seq()
}

/// The message at a place of bytes, by itself, if it has the port and the number of this one.
fn next_like(
    answering: Answering,
    message: &LentMessage<'_, u16>,
    bytes: &[u8],
    place: usize,
) -> Option<Run>
    requires { place < length bytes.now }
    ensures within { IfSome result (λ r. (0 < r.length) × (place + r.length ≤ length bytes.now)) }
    ensures like { IfSome result (λ r. (k : Lent ℕ)
        × IsMessage (take r.length (drop place bytes.now)) k
        × IsLike (message_view message.now) k × (ends answering k ≡ r.ended)) }
{
    let Ok((next, span)) = span_at(bytes, place) else {
        return None;
    };
    if is_like(message, &next) {
        let ended = ends(answering, &next);
        return Some(Run {
            length: span.len(),
            ended,
        });
    }
    None
}

/// The run at the front of bytes whose first message is this one, of so many bytes: the messages with its port and its
/// number, up to the first that ends an answer of this kind.
pub(crate) fn run_of(
    answering: Answering,
    message: &LentMessage<'_, u16>,
    first: usize,
    bytes: &[u8],
) -> Run
    requires within { first ≤ length bytes.now }
    requires some { 0 < first }
    requires first { IsMessage (take first bytes.now) (message_view message.now) }
    ensures { HasRun answering (message_view message.now) bytes.now result }
{
    let mut run = Run {
        length: first,
        ended: ends(answering, message),
    };
    while run.length < bytes.len() && !run.ended {
        let Some(next) = next_like(answering, message, bytes, run.length) else {
            return run;
        };
        run = Run {
            length: run.length + next.length,
            ended: next.ended,
        };
    }
    run
}
