//! The flags of a neighbour.

ghost use Rattle.neli_consts_flags.specs.Ntf.{ntf_names};

use crate::{FlagSet, Kind, Of};
use bitflags::Flag;

/// Properties of a neighbour: `NTF_*` of `linux/neighbour.h`.
pub type Ntf = FlagSet<u8, 4>;

impl Ntf {
    /// It is in use.
    pub const USE: Ntf = FlagSet(1);

    /// The entry is the link's own.
    pub const SELF: Ntf = FlagSet(2);

    /// The entry is that of the link's master.
    pub const MASTER: Ntf = FlagSet(4);

    /// This host answers for it.
    pub const PROXY: Ntf = FlagSet(8);

    /// Learned outside the kernel, which keeps the entry.
    pub const EXT_LEARNED: Ntf = FlagSet(0x10);

    /// The hardware has the entry too.
    pub const OFFLOADED: Ntf = FlagSet(0x20);

    /// The neighbour is a router.
    pub const ROUTER: Ntf = FlagSet(0x80);
}

impl Kind<u8, 4> for Of<4> {
    ghost names = { ntf_names };

    fn name<'a>() -> &'a str {
        "Ntf"
    }

    fn flags<'a>() -> &'a [Flag<Ntf>] {
        flag_list!(Ntf: USE, SELF, MASTER, PROXY, EXT_LEARNED, OFFLOADED, ROUTER)
    }
}
