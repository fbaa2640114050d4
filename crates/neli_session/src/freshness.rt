//! Whether a list of the kernel's objects that a program keeps is current.

ghost use Rattle.std.specs.Prelude.{◌≡◌};
ghost use Rattle.neli_session.specs.Freshness.{Ended, Lost, Requested, is_passing, then_is};

use crate::Verdict;
use crate::receiving::ENOBUFS;

/// The error of a kernel that runs another dump of the socket (`EBUSY` of `asm-generic/errno-base.h`).
const EBUSY: i32 = 16;

/// Whether a list that a program keeps, as that of the links, is current. It is kept so by what comes to a group that it
/// is in, from a dump on that was read to its end, up to a loss.
///
/// A program has one for each of its lists. [`Freshness::lost`] of all of them follows each loss that multicast reads;
/// then what came to groups is dropped, and each list that is stale is requested again, in any order.
#[derive(Clone, Copy, Debug, PartialEq, Eq)]
pub enum Freshness {
    /// It is to be requested: it never was, its answer was not complete, or something was lost since.
    Stale,
    /// It is being read, by the request with this sequence number.
    Read(u32),
    /// It was read whole, and nothing was lost since it was requested.
    Current,
}

impl Freshness {
    /// That of a list which was requested with this sequence number.
    pub fn requested(self, number: u32) -> Freshness
        ensures { result ≡ then_is (Requested number) self }
    {
        Freshness::Read(number)
    }

    /// After the answer to a request has ended with this verdict: current if that was its request, and the verdict is
    /// [`Verdict::Complete`]. Of another request nothing changes.
    pub fn ended(self, number: u32, verdict: Verdict) -> Freshness
        ensures { result ≡ then_is (Ended number verdict) self }
    {
        match self {
            Freshness::Read(own) if own == number => match verdict {
                Verdict::Complete => Freshness::Current,
                _ => Freshness::Stale,
            },
            freshness => freshness,
        }
    }

    /// After something was lost of what came to groups: the list is stale, also while it is read.
    pub fn lost(self) -> Freshness
        ensures { result ≡ then_is Lost self }
    {
        Freshness::Stale
    }
}

impl Verdict {
    /// Whether a list with this verdict may be complete when it is requested again: the listed objects changed
    /// meanwhile, something of it was lost, or the kernel was busy with another dump (`EBUSY`) or had no room for it
    /// (`ENOBUFS`).
    pub fn is_passing(self) -> bool
        ensures { result ≡ is_passing self }
    {
        match self {
            Verdict::Interrupted | Verdict::Lost(_) => true,
            Verdict::Failed(code) => code == -EBUSY || code == -ENOBUFS,
            Verdict::Pending | Verdict::Complete | Verdict::Unanswered => false,
        }
    }
}
