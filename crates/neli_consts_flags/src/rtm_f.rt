//! The flags of a route.

ghost use Rattle.neli_consts_flags.specs.RtmF.{rtm_f_names};

use crate::{FlagSet, Kind, Of};
use bitflags::Flag;

/// How a route is announced, looked up and kept: `RTM_F_*` of `linux/rtnetlink.h`.
pub type RtmF = FlagSet<u32, 6>;

impl RtmF {
    /// Changes of the route are to be announced.
    pub const NOTIFY: RtmF = FlagSet(0x100);

    /// It was made from another route.
    pub const CLONED: RtmF = FlagSet(0x200);

    /// Packets are spread over its next hops.
    pub const EQUALIZE: RtmF = FlagSet(0x400);

    /// The entry is of a prefix, not of a single address.
    pub const PREFIX: RtmF = FlagSet(0x800);

    /// The answer names the table where the route was found (`RTM_F_LOOKUP_TABLE`).
    pub const LOOKUPTABLE: RtmF = FlagSet(0x1000);

    /// The answer is the entry that was found (`RTM_F_FIB_MATCH`).
    pub const FIBMATCH: RtmF = FlagSet(0x2000);
}

impl Kind<u32, 6> for Of<6> {
    ghost names = { rtm_f_names };

    fn name<'a>() -> &'a str {
        "RtmF"
    }

    fn flags<'a>() -> &'a [Flag<RtmF>] {
        flag_list!(RtmF: NOTIFY, CLONED, EQUALIZE, PREFIX, LOOKUPTABLE, FIBMATCH)
    }
}
