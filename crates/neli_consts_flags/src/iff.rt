//! The flags of a link.

ghost use Rattle.neli_consts_flags.specs.Iff.{iff_names};

use crate::{FlagSet, Kind, Of};
use bitflags::Flag;

/// The state and the properties of a link: `IFF_*` of `linux/if.h`.
pub type Iff = FlagSet<u32, 3>;

impl Iff {
    /// The link is switched on.
    pub const UP: Iff = FlagSet(1);

    /// It has a broadcast address.
    pub const BROADCAST: Iff = FlagSet(2);

    /// Its driver prints more.
    pub const DEBUG: Iff = FlagSet(4);

    /// It leads back to this host.
    pub const LOOPBACK: Iff = FlagSet(8);

    /// It has one other end.
    pub const POINTOPOINT: Iff = FlagSet(0x10);

    /// No trailers are sent.
    pub const NOTRAILERS: Iff = FlagSet(0x20);

    /// The link is switched on and can carry packets.
    pub const RUNNING: Iff = FlagSet(0x40);

    /// Addresses are not resolved on it.
    pub const NOARP: Iff = FlagSet(0x80);

    /// It takes all packets, whatever their destination.
    pub const PROMISC: Iff = FlagSet(0x100);

    /// It takes all multicast packets.
    pub const ALLMULTI: Iff = FlagSet(0x200);

    /// It stands for a group of links that share the load.
    pub const MASTER: Iff = FlagSet(0x400);

    /// It is one of such a group.
    pub const SLAVE: Iff = FlagSet(0x800);

    /// It can carry multicast packets.
    pub const MULTICAST: Iff = FlagSet(0x1000);

    /// Its medium can be chosen.
    pub const PORTSEL: Iff = FlagSet(0x2000);

    /// Its medium is chosen by itself.
    pub const AUTOMEDIA: Iff = FlagSet(0x4000);

    /// It loses its addresses when it goes down.
    pub const DYNAMIC: Iff = FlagSet(0x8000);

    /// The driver reports that the layer below is up (`IFF_LOWER_UP`).
    pub const LOWERUP: Iff = FlagSet(0x10000);

    /// It waits for an event before it can be used.
    pub const DORMANT: Iff = FlagSet(0x20000);

    /// It echoes the packets that it sent.
    pub const ECHO: Iff = FlagSet(0x40000);
}

impl Kind<u32, 3> for Of<3> {
    ghost names = { iff_names };

    fn name<'a>() -> &'a str {
        "Iff"
    }

    fn flags<'a>() -> &'a [Flag<Iff>] {
        flag_list!(Iff:
            UP, BROADCAST, DEBUG, LOOPBACK, POINTOPOINT, NOTRAILERS, RUNNING, NOARP, PROMISC,
            ALLMULTI, MASTER, SLAVE, MULTICAST, PORTSEL, AUTOMEDIA, DYNAMIC, LOWERUP, DORMANT, ECHO
        )
    }
}
