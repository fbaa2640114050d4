//! A list of the kernel's objects that a caller in C keeps: whether it is current, and may be requested again.

ghost use Rattle.std.specs.Prelude.{◌≡◌, pos};
ghost use Rattle.neli_session.specs.Freshness.{Ended, Lost, Requested, is_passing};
ghost use Rattle.neli_c_session.specs.Lists.{Follows, freshness_in, verdict_by};

use neli_c_parts::code::{INTERRUPTED, KERNEL_ERROR, LINK, OK, SHORT, WAITS};
use neli_session::{Freshness, Loss, Verdict};

/// It is to be requested.
pub const STALE: u32 = 0;
/// It is being read.
pub const READ: u32 = 1;
/// It is current.
pub const CURRENT: u32 = 2;

/// Whether a list is current: all bytes 0 of one that was not requested.
#[repr(C)]
#[derive(Clone, Copy)]
pub struct NeliList {
    /// [`STALE`], [`READ`] or [`CURRENT`]; another number is taken for the first.
    pub state: u32,
    /// The sequence number of the request that reads it, while it is read.
    pub number: u32,
}

impl NeliList {
    fn freshness(self) -> Freshness
        ensures { result ≡ freshness_in self }
    {
        match self.state {
            READ => Freshness::Read(self.number),
            CURRENT => Freshness::Current,
            _ => Freshness::Stale,
        }
    }

    /// The list was requested with this sequence number.
    pub fn requested(self, number: u32) -> NeliList
        ensures { Follows (Requested number) self result }
    {
        held(self.freshness().requested(number))
    }

    /// The answer to the request with this sequence number has ended, with a verdict of this code.
    pub fn ended(self, number: u32, code: i32) -> NeliList
        ensures { Follows (Ended number (verdict_by code (pos 0))) self result }
    {
        held(self.freshness().ended(number, verdict_by(code, 0)))
    }

    /// Something was lost of what came to groups.
    pub fn lost(self) -> NeliList
        ensures { Follows Lost self result }
    {
        held(self.freshness().lost())
    }
}

/// A list as C has it.
fn held(list: Freshness) -> NeliList
    ensures { freshness_in result ≡ list }
{
    let (state, number) = match list {
        Freshness::Stale => (STALE, 0),
        Freshness::Read(number) => (READ, number),
        Freshness::Current => (CURRENT, 0),
    };
    NeliList { state, number }
}

/// The verdict with this code and this error; of another code that nothing answered.
fn verdict_by(code: i32, error: i32) -> Verdict
    ensures { result ≡ verdict_by code error }
{
    match code {
        OK => Verdict::Complete,
        WAITS => Verdict::Pending,
        INTERRUPTED => Verdict::Interrupted,
        KERNEL_ERROR => Verdict::Failed(error),
        LINK => Verdict::Lost(Loss::Link(error)),
        SHORT => Verdict::Lost(Loss::Datagram),
        _ => Verdict::Unanswered,
    }
}

/// Whether a list whose verdict has this code and this error may be complete when it is requested again.
pub fn is_passing(code: i32, error: i32) -> bool
    ensures { result ≡ is_passing (verdict_by code error) }
{
    verdict_by(code, error).is_passing()
}
