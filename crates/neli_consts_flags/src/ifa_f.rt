//! The flags of an address.

ghost use Rattle.neli_consts_flags.specs.IfaF.{ifa_f_names};

use crate::{FlagSet, Kind, Of};
use bitflags::Flag;

/// The purpose and the state of a link's address: `IFA_F_*` of `linux/if_addr.h`, those of one
/// byte.
pub type IfaF = FlagSet<u8, 2>;

impl IfaF {
    /// Not the first address of its network on the link.
    pub const SECONDARY: IfaF = FlagSet(1);

    /// The same bit, with its meaning in version 6: a temporary address.
    pub const TEMPORARY: IfaF = FlagSet(1);

    /// It is not tested for duplicates.
    pub const NODAD: IfaF = FlagSet(2);

    /// It may be used while it is tested.
    pub const OPTIMISTIC: IfaF = FlagSet(4);

    /// Another host has it too.
    pub const DADFAILED: IfaF = FlagSet(8);

    /// The home address of a mobile host.
    pub const HOMEADDRESS: IfaF = FlagSet(0x10);

    /// Its preferred time is over.
    pub const DEPRECATED: IfaF = FlagSet(0x20);

    /// It is still being tested.
    pub const TENTATIVE: IfaF = FlagSet(0x40);

    /// It does not expire.
    pub const PERMANENT: IfaF = FlagSet(0x80);
}

impl Kind<u8, 2> for Of<2> {
    ghost names = { ifa_f_names };

    fn name<'a>() -> &'a str {
        "IfaF"
    }

    fn flags<'a>() -> &'a [Flag<IfaF>] {
        flag_list!(IfaF:
            SECONDARY, TEMPORARY, NODAD, OPTIMISTIC, DADFAILED, HOMEADDRESS, DEPRECATED, TENTATIVE,
            PERMANENT
        )
    }
}
