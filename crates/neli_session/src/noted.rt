//! What is noted of an item that is read.

ghost use Rattle.std.specs.Prelude.{◌≡◌, Ok, Err};
ghost use Rattle.neli_lent.specs.Messages.{message_view};
ghost use Rattle.neli_session.specs.Noted.{noted_of};

use crate::request::message_verdict;
use crate::{Loss, Verdict};
use bitflags::Flags;
use neli_consts::NlmF;
use neli_lent::LentMessage;

/// What is noted of an item that is read.
#[derive(Clone, Copy, Debug)]
pub(crate) struct Noted {
    /// The verdict by it.
    pub(crate) verdict: Verdict,
    /// The kernel marked it as filtered.
    pub(crate) is_filtered: bool,
}

impl Noted {
    /// Of a message.
    pub(crate) fn of_message(message: &LentMessage<'_, u16>) -> Noted
        ensures { result ≡ noted_of (Ok (message_view message.now)) }
    {
        Noted {
            verdict: message_verdict(message),
            is_filtered: message.nl_flags().contains(NlmF::DUMP_FILTERED),
        }
    }

    /// Of a loss.
    pub(crate) fn of_loss(loss: Loss) -> Noted
        ensures { result ≡ noted_of (Err loss) }
    {
        Noted {
            verdict: Verdict::Lost(loss),
            is_filtered: false,
        }
    }

    /// Of nothing.
    pub(crate) fn nothing() -> Noted {
        Noted {
            verdict: Verdict::Pending,
            is_filtered: false,
        }
    }
}
