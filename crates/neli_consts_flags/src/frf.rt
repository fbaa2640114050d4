//! The flags of a routing rule.

ghost use Rattle.neli_consts_flags.specs.Frf.{frf_names};

use crate::{FlagSet, Kind, Of};
use bitflags::Flag;

/// Properties of a routing rule: `FIB_RULE_*` of `linux/fib_rules.h`.
pub type Frf = FlagSet<u32, 1>;

impl Frf {
    /// It can't be deleted.
    pub const PERMANENT: Frf = FlagSet(1);

    /// It holds for the packets that don't fit it.
    pub const INVERT: Frf = FlagSet(2);

    /// The target rule does not exist.
    pub const UNRESOLVED: Frf = FlagSet(4);

    /// The input link does not exist.
    pub const IIF_DETACHED: Frf = FlagSet(8);

    /// An older name of [`Frf::IIF_DETACHED`].
    pub const DEV_DETACHED: Frf = FlagSet(8);

    /// The output link does not exist.
    pub const OIF_DETACHED: Frf = FlagSet(0x10);

    /// The source address is still to be found.
    pub const FIND_SADDR: Frf = FlagSet(0x10000);
}

impl Kind<u32, 1> for Of<1> {
    ghost names = { frf_names };

    fn name<'a>() -> &'a str {
        "Frf"
    }

    fn flags<'a>() -> &'a [Flag<Frf>] {
        flag_list!(Frf:
            PERMANENT, INVERT, UNRESOLVED, IIF_DETACHED, DEV_DETACHED, OIF_DETACHED, FIND_SADDR
        )
    }
}
