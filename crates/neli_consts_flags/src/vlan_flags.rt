//! The flags of a virtual LAN.

ghost use Rattle.neli_consts_flags.specs.VlanFlags.{vlan_flags_names};

use crate::{FlagSet, Kind, Of};
use bitflags::Flag;

/// Properties of a virtual LAN: `VLAN_FLAG_*` of `linux/if_vlan.h`. One byte, while the kernel's
/// own structure has four.
pub type VlanFlags = FlagSet<u8, 7>;

impl VlanFlags {
    /// Incoming frames lose their tag.
    pub const REORDER_HDR: VlanFlags = FlagSet(1);

    /// The network is announced by GVRP.
    pub const GVRP: VlanFlags = FlagSet(2);

    /// Its state does not follow that of the link below.
    pub const LOOSE_BINDING: VlanFlags = FlagSet(4);

    /// The network is announced by MVRP.
    pub const MVRP: VlanFlags = FlagSet(8);

    /// Its state follows that of the bridge's ports that belong to it.
    pub const BRIDGE_BINDING: VlanFlags = FlagSet(0x10);
}

impl Kind<u8, 7> for Of<7> {
    ghost names = { vlan_flags_names };

    fn name<'a>() -> &'a str {
        "VlanFlags"
    }

    fn flags<'a>() -> &'a [Flag<VlanFlags>] {
        flag_list!(VlanFlags: REORDER_HDR, GVRP, LOOSE_BINDING, MVRP, BRIDGE_BINDING)
    }
}
