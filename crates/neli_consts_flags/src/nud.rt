//! The states of a neighbour.

ghost use Rattle.neli_consts_flags.specs.Nud.{nud_names};

use crate::{FlagSet, Kind, Of};
use bitflags::Flag;

/// States of a neighbour, each a bit of its own so that a request can name a set of them: `NUD_*`
/// of `linux/neighbour.h`.
pub type Nud = FlagSet<u16, 5>;

impl Nud {
    /// No state yet; the set without a bit.
    pub const NONE: Nud = FlagSet(0);

    /// Its link address is being resolved.
    pub const INCOMPLETE: Nud = FlagSet(1);

    /// It answered recently.
    pub const REACHABLE: Nud = FlagSet(2);

    /// Its link address is known, but too old to be trusted.
    pub const STALE: Nud = FlagSet(4);

    /// A packet went to a stale neighbour, and an answer is awaited.
    pub const DELAY: Nud = FlagSet(8);

    /// It is being probed again.
    pub const PROBE: Nud = FlagSet(0x10);

    /// It did not answer.
    pub const FAILED: Nud = FlagSet(0x20);

    /// It needs no resolution.
    pub const NOARP: Nud = FlagSet(0x40);

    /// It was set by hand and stays.
    pub const PERMANENT: Nud = FlagSet(0x80);
}

impl Kind<u16, 5> for Of<5> {
    ghost names = { nud_names };

    fn name<'a>() -> &'a str {
        "Nud"
    }

    fn flags<'a>() -> &'a [Flag<Nud>] {
        flag_list!(Nud: NONE, INCOMPLETE, REACHABLE, STALE, DELAY, PROBE, FAILED, NOARP, PERMANENT)
    }
}
