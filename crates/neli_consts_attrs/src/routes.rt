//! Attributes of routes.

ghost use Rattle.std.proofs.Common.{rules};
ghost use Rattle.std.specs.Prelude.{◌≡◌};
ghost use Rattle.neli_consts_attrs.specs.Rta.{rta_number, rta_of, rta_is_unrecognized};
ghost use Rattle.neli_wire.specs.laws.Constants.{first_with-number};

use neli_wire::Constant;

/// Attributes of a route: `RTA_*` of `linux/rtnetlink.h`.
#[derive(Clone, Copy, Debug, PartialEq, Eq)]
pub enum Rta {
    /// No attribute: 0 stands for none.
    Unspec,
    /// The destination address.
    Dst,
    /// The source address.
    Src,
    /// The index of the input link.
    Iif,
    /// The index of the output link.
    Oif,
    /// The address of the next hop.
    Gateway,
    /// The metric: of several routes the one with the lowest is used.
    Priority,
    /// The source address to prefer.
    Prefsrc,
    /// Attributes of the path, such as its largest packet.
    Metrics,
    /// The next hops.
    Multipath,
    /// No longer used by the kernel.
    Protoinfo,
    /// The realms of the route.
    Flow,
    /// The route's use, and its end.
    Cacheinfo,
    /// No longer used by the kernel.
    Session,
    /// No longer used by the kernel.
    MpAlgo,
    /// The table's number, where it needs more than a byte.
    Table,
    /// The mark of packets.
    Mark,
    /// Counters of a multicast route.
    MfcStats,
    /// A gateway of another address family.
    Via,
    /// The label to send with, in MPLS.
    Newdst,
    /// The preference of a router.
    Pref,
    /// How packets are encapsulated.
    EncapType,
    /// The attributes of that encapsulation.
    Encap,
    /// The seconds until the route expires.
    Expires,
    /// No attribute: it aligns the next one to eight bytes.
    Pad,
    /// The user of the look-up.
    Uid,
    /// Whether the time to live is carried over, in MPLS.
    TtlPropagate,
    /// A number without a name.
    UnrecognizedConst(u16),
}

impl Rta {
    /// Whether the value is a number without a name, an `UnrecognizedConst`.
    pub fn is_unrecognized(&self) -> bool
        ensures { result ≡ rta_is_unrecognized self.now }
    {
        matches!(self, Rta::UnrecognizedConst(_))
    }
}

impl From<u16> for Rta {
    ghost from_gives = { λ number value. value ≡ rta_of number };

    fn from(number: u16) -> Rta {
        match number {
            0 => Rta::Unspec,
            1 => Rta::Dst,
            2 => Rta::Src,
            3 => Rta::Iif,
            4 => Rta::Oif,
            5 => Rta::Gateway,
            6 => Rta::Priority,
            7 => Rta::Prefsrc,
            8 => Rta::Metrics,
            9 => Rta::Multipath,
            10 => Rta::Protoinfo,
            11 => Rta::Flow,
            12 => Rta::Cacheinfo,
            13 => Rta::Session,
            14 => Rta::MpAlgo,
            15 => Rta::Table,
            16 => Rta::Mark,
            17 => Rta::MfcStats,
            18 => Rta::Via,
            19 => Rta::Newdst,
            20 => Rta::Pref,
            21 => Rta::EncapType,
            22 => Rta::Encap,
            23 => Rta::Expires,
            24 => Rta::Pad,
            25 => Rta::Uid,
            26 => Rta::TtlPropagate,
            _ => Rta::UnrecognizedConst(number),
        }
    }
}

impl From<Rta> for u16 {
    ghost from_gives = { λ value number. number ≡ rta_number value };

    fn from(value: Rta) -> u16 {
        match value {
            Rta::Unspec => 0,
            Rta::Dst => 1,
            Rta::Src => 2,
            Rta::Iif => 3,
            Rta::Oif => 4,
            Rta::Gateway => 5,
            Rta::Priority => 6,
            Rta::Prefsrc => 7,
            Rta::Metrics => 8,
            Rta::Multipath => 9,
            Rta::Protoinfo => 10,
            Rta::Flow => 11,
            Rta::Cacheinfo => 12,
            Rta::Session => 13,
            Rta::MpAlgo => 14,
            Rta::Table => 15,
            Rta::Mark => 16,
            Rta::MfcStats => 17,
            Rta::Via => 18,
            Rta::Newdst => 19,
            Rta::Pref => 20,
            Rta::EncapType => 21,
            Rta::Encap => 22,
            Rta::Expires => 23,
            Rta::Pad => 24,
            Rta::Uid => 25,
            Rta::TtlPropagate => 26,
            Rta::UnrecognizedConst(number) => number,
        }
    }
}

impl From<&Rta> for u16 {
    ghost from_gives = { λ value number. number ≡ rta_number value.now };

    fn from(value: &Rta) -> u16 {
        u16::from(*value)
    }
}

impl Constant for Rta {
    type Number = u16;

    ghost wire_number = { rta_number };

    ghost wire_value = { rta_of };

    fn from_wire(number: u16) -> Rta {
        Rta::from(number)
    }

    fn to_wire(&self) -> u16 {
        u16::from(self)
    }

    ghost back_to_number = { λ n _. Prim.search (first_with-number, rules) };
}
