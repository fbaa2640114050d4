//! Links that share another link by their hardware address.

ghost use Rattle.std.proofs.Common.{rules};
ghost use Rattle.std.specs.Prelude.{◌≡◌};
ghost use Rattle.neli_consts_linux.specs.IflaMacvlan.{ifla_macvlan_number, ifla_macvlan_of};
ghost use Rattle.neli_consts_linux.specs.IflaMacvlan.{ifla_macvlan_is_unrecognized};
ghost use Rattle.neli_wire.specs.laws.Constants.{first_with-number};

use neli_consts_attrs::RtaType;
use neli_wire::Constant;

/// Attributes inside [`IflaInfo::Data`](neli_consts_attrs::IflaInfo::Data) of a `macvlan` or
/// `macvtap`: `IFLA_MACVLAN_*` of `linux/if_link.h`.
#[derive(Clone, Copy, Debug, PartialEq, Eq)]
pub enum IflaMacvlan {
    /// No attribute: 0 stands for none.
    Unspec,
    /// Who may reach whom on the same link.
    Mode,
    /// Flags, a bit for each.
    Flags,
    /// The change for the addresses that follow: add, remove, drop all, or set.
    MacaddrMode,
    /// A hardware address.
    Macaddr,
    /// Hardware addresses, an [`IflaMacvlan::Macaddr`] for each.
    MacaddrData,
    /// How many addresses it takes frames from.
    MacaddrCount,
    /// The requested length of the queue for broadcast frames.
    BcQueueLen,
    /// The length of that queue in use.
    BcQueueLenUsed,
    /// With this many listeners or more, a multicast frame goes through the queue.
    BcCutoff,
    /// A number without a name.
    UnrecognizedConst(u16),
}

impl IflaMacvlan {
    /// Whether the value is a number without a name, an `UnrecognizedConst`.
    pub fn is_unrecognized(&self) -> bool
        ensures { result ≡ ifla_macvlan_is_unrecognized self.now }
    {
        matches!(self, IflaMacvlan::UnrecognizedConst(_))
    }
}

impl From<u16> for IflaMacvlan {
    ghost from_gives = { λ number value. value ≡ ifla_macvlan_of number };

    fn from(number: u16) -> IflaMacvlan {
        match number {
            0 => IflaMacvlan::Unspec,
            1 => IflaMacvlan::Mode,
            2 => IflaMacvlan::Flags,
            3 => IflaMacvlan::MacaddrMode,
            4 => IflaMacvlan::Macaddr,
            5 => IflaMacvlan::MacaddrData,
            6 => IflaMacvlan::MacaddrCount,
            7 => IflaMacvlan::BcQueueLen,
            8 => IflaMacvlan::BcQueueLenUsed,
            9 => IflaMacvlan::BcCutoff,
            _ => IflaMacvlan::UnrecognizedConst(number),
        }
    }
}

impl From<IflaMacvlan> for u16 {
    ghost from_gives = { λ value number. number ≡ ifla_macvlan_number value };

    fn from(value: IflaMacvlan) -> u16 {
        match value {
            IflaMacvlan::Unspec => 0,
            IflaMacvlan::Mode => 1,
            IflaMacvlan::Flags => 2,
            IflaMacvlan::MacaddrMode => 3,
            IflaMacvlan::Macaddr => 4,
            IflaMacvlan::MacaddrData => 5,
            IflaMacvlan::MacaddrCount => 6,
            IflaMacvlan::BcQueueLen => 7,
            IflaMacvlan::BcQueueLenUsed => 8,
            IflaMacvlan::BcCutoff => 9,
            IflaMacvlan::UnrecognizedConst(number) => number,
        }
    }
}

impl Constant for IflaMacvlan {
    type Number = u16;

    ghost wire_number = { ifla_macvlan_number };

    ghost wire_value = { ifla_macvlan_of };

    fn from_wire(number: u16) -> IflaMacvlan {
        IflaMacvlan::from(number)
    }

    fn to_wire(&self) -> u16 {
        u16::from(*self)
    }

    ghost back_to_number = { λ n _. Prim.search (first_with-number, rules) };
}

impl RtaType for IflaMacvlan {}
