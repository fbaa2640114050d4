//! The codes of outcomes: of sends, reads and verdicts.

ghost use Rattle.std.specs.Prelude.{◌≡◌, ◌≢◌};
ghost use Rattle.neli_c_parts.specs.Codes.{ok};
ghost use Rattle.neli_c_session.specs.Outcomes.{loss_code, loss_errno, send_code, stands_code, stands_error};

use neli_c_parts::code::{
    IN_USE, INTERRUPTED, KERNEL_ERROR, KIND, LENGTH, LINK, MEMORY, OK, SHORT, UNENDED, WAITS,
};
use neli_session::{Loss, SendError, Verdict};

/// The code of why nothing is sent.
pub fn of_refusal(error: SendError) -> i32
    ensures code { result ≡ send_code error }
    ensures refused { result ≢ ok }
{
    match error {
        SendError::Unreadable => SHORT,
        SendError::TwoDumps => KIND,
        SendError::InUse(_) => IN_USE,
        SendError::NoNumber => IN_USE,
        SendError::Length => LENGTH,
        SendError::Memory => MEMORY,
    }
}

/// The code of a loss.
pub fn of_loss(loss: Loss) -> i32
    ensures { result ≡ loss_code loss }
{
    match loss {
        Loss::Link(_) => LINK,
        Loss::Datagram => SHORT,
        Loss::Unsent(_) => LINK,
    }
}

/// The errno of a loss; 0 where no fault of the link caused it.
pub fn errno_of(loss: Loss) -> i32
    ensures { result ≡ loss_errno loss }
{
    match loss {
        Loss::Link(errno) => errno,
        Loss::Datagram => 0,
        Loss::Unsent(errno) => errno,
    }
}

/// The code of a verdict.
pub fn of_verdict(verdict: Verdict) -> i32
    ensures { result ≡ stands_code verdict }
{
    match verdict {
        Verdict::Pending => WAITS,
        Verdict::Complete => OK,
        Verdict::Interrupted => INTERRUPTED,
        Verdict::Failed(_) => KERNEL_ERROR,
        Verdict::Lost(loss) => of_loss(loss),
        Verdict::Unanswered => UNENDED,
    }
}

/// The other side's code of a failure, or the errno of a loss; 0 elsewhere.
pub fn verdict_error(verdict: Verdict) -> i32
    ensures { result ≡ stands_error verdict }
{
    match verdict {
        Verdict::Failed(code) => code,
        Verdict::Lost(loss) => errno_of(loss),
        _ => 0,
    }
}
