//! Attributes of routing rules.

ghost use Rattle.std.proofs.Common.{rules};
ghost use Rattle.std.specs.Prelude.{◌≡◌};
ghost use Rattle.neli_consts_attrs.specs.Frattr.{frattr_number, frattr_of, frattr_is_unrecognized};
ghost use Rattle.neli_wire.specs.laws.Constants.{first_with-number};

use neli_wire::Constant;

/// Attributes of a routing rule: `FRA_*` of `linux/fib_rules.h`.
#[derive(Clone, Copy, Debug, PartialEq, Eq)]
pub enum Frattr {
    /// No attribute: 0 stands for none.
    Unspec,
    /// The destination address.
    Dst,
    /// The source address.
    Src,
    /// The name of the input link.
    Iifname,
    /// The older name of [`Frattr::Iifname`]; 3 is read as that one.
    Ifname,
    /// The rule to go on with.
    Goto,
    /// Not used.
    Unused2,
    /// The place among the rules: the lowest comes first.
    Priority,
    /// Not used.
    Unused3,
    /// Not used.
    Unused4,
    /// Not used.
    Unused5,
    /// The mark of a packet.
    Fwmark,
    /// The realms of a route.
    Flow,
    /// The key of the tunnel that delivered a packet.
    TunId,
    /// The group of links whose routes are ignored.
    SuppressIfgroup,
    /// Routes with a prefix of at most this length are ignored.
    SuppressPrefixlen,
    /// The table's number, where it needs more than a byte.
    Table,
    /// The bits of the mark that count.
    Fwmask,
    /// The name of the output link.
    Oifname,
    /// No attribute: it aligns the next one to eight bytes.
    Pad,
    /// The table is that of the link's layer 3 master, a VRF.
    L3mdev,
    /// The users whose packets match, from the first to the last.
    UidRange,
    /// Who made the rule.
    Protocol,
    /// The protocol inside the internet protocol, as TCP.
    IpProto,
    /// The source ports, from the first to the last.
    SportRange,
    /// The destination ports, from the first to the last.
    DportRange,
    /// The differentiated services code point of a packet.
    Dscp,
    /// The flow label of a packet (IPv6).
    Flowlabel,
    /// The bits of the flow label that count.
    FlowlabelMask,
    /// The bits of the source port that count.
    SportMask,
    /// The bits of the destination port that count.
    DportMask,
    /// The bits of [`Frattr::Dscp`] that count.
    DscpMask,
    /// One above the last of these (`__FRA_MAX`); a later kernel may have an attribute there.
    Max,
    /// A number without a name.
    UnrecognizedConst(u16),
}

impl Frattr {
    /// Whether the value is a number without a name, an `UnrecognizedConst`.
    pub fn is_unrecognized(&self) -> bool
        ensures { result ≡ frattr_is_unrecognized self.now }
    {
        matches!(self, Frattr::UnrecognizedConst(_))
    }
}

impl From<u16> for Frattr {
    ghost from_gives = { λ number value. value ≡ frattr_of number };

    fn from(number: u16) -> Frattr {
        match number {
            0 => Frattr::Unspec,
            1 => Frattr::Dst,
            2 => Frattr::Src,
            3 => Frattr::Iifname,
            4 => Frattr::Goto,
            5 => Frattr::Unused2,
            6 => Frattr::Priority,
            7 => Frattr::Unused3,
            8 => Frattr::Unused4,
            9 => Frattr::Unused5,
            10 => Frattr::Fwmark,
            11 => Frattr::Flow,
            12 => Frattr::TunId,
            13 => Frattr::SuppressIfgroup,
            14 => Frattr::SuppressPrefixlen,
            15 => Frattr::Table,
            16 => Frattr::Fwmask,
            17 => Frattr::Oifname,
            18 => Frattr::Pad,
            19 => Frattr::L3mdev,
            20 => Frattr::UidRange,
            21 => Frattr::Protocol,
            22 => Frattr::IpProto,
            23 => Frattr::SportRange,
            24 => Frattr::DportRange,
            25 => Frattr::Dscp,
            26 => Frattr::Flowlabel,
            27 => Frattr::FlowlabelMask,
            28 => Frattr::SportMask,
            29 => Frattr::DportMask,
            30 => Frattr::DscpMask,
            31 => Frattr::Max,
            _ => Frattr::UnrecognizedConst(number),
        }
    }
}

impl From<Frattr> for u16 {
    ghost from_gives = { λ value number. number ≡ frattr_number value };

    fn from(value: Frattr) -> u16 {
        match value {
            Frattr::Unspec => 0,
            Frattr::Dst => 1,
            Frattr::Src => 2,
            Frattr::Iifname => 3,
            Frattr::Ifname => 3,
            Frattr::Goto => 4,
            Frattr::Unused2 => 5,
            Frattr::Priority => 6,
            Frattr::Unused3 => 7,
            Frattr::Unused4 => 8,
            Frattr::Unused5 => 9,
            Frattr::Fwmark => 10,
            Frattr::Flow => 11,
            Frattr::TunId => 12,
            Frattr::SuppressIfgroup => 13,
            Frattr::SuppressPrefixlen => 14,
            Frattr::Table => 15,
            Frattr::Fwmask => 16,
            Frattr::Oifname => 17,
            Frattr::Pad => 18,
            Frattr::L3mdev => 19,
            Frattr::UidRange => 20,
            Frattr::Protocol => 21,
            Frattr::IpProto => 22,
            Frattr::SportRange => 23,
            Frattr::DportRange => 24,
            Frattr::Dscp => 25,
            Frattr::Flowlabel => 26,
            Frattr::FlowlabelMask => 27,
            Frattr::SportMask => 28,
            Frattr::DportMask => 29,
            Frattr::DscpMask => 30,
            Frattr::Max => 31,
            Frattr::UnrecognizedConst(number) => number,
        }
    }
}

impl From<&Frattr> for u16 {
    ghost from_gives = { λ value number. number ≡ frattr_number value.now };

    fn from(value: &Frattr) -> u16 {
        u16::from(*value)
    }
}

impl Constant for Frattr {
    type Number = u16;

    ghost wire_number = { frattr_number };

    ghost wire_value = { frattr_of };

    fn from_wire(number: u16) -> Frattr {
        Frattr::from(number)
    }

    fn to_wire(&self) -> u16 {
        u16::from(self)
    }

    ghost back_to_number = { λ n _. Prim.search (first_with-number, rules) };
}
