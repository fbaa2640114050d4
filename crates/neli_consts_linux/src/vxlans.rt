//! Tunnels by VXLAN.

ghost use Rattle.std.proofs.Common.{rules};
ghost use Rattle.std.specs.Prelude.{◌≡◌};
ghost use Rattle.neli_consts_linux.specs.IflaVxlan.{ifla_vxlan_number, ifla_vxlan_of, ifla_vxlan_is_unrecognized};
ghost use Rattle.neli_wire.specs.laws.Constants.{first_with-number};

use neli_consts_attrs::RtaType;
use neli_wire::Constant;

/// Attributes inside [`IflaInfo::Data`](neli_consts_attrs::IflaInfo::Data) of a VXLAN tunnel:
/// `IFLA_VXLAN_*` of `linux/if_link.h`.
#[derive(Clone, Copy, Debug, PartialEq, Eq)]
pub enum IflaVxlan {
    /// No attribute: 0 stands for none.
    Unspec,
    /// The number of the virtual network.
    Id,
    /// The IPv4 multicast group, or the other end.
    Group,
    /// The link below.
    Link,
    /// The IPv4 address of this end.
    Local,
    /// The time to live of packets.
    Ttl,
    /// The type of service of packets.
    Tos,
    /// Whether addresses are learned.
    Learning,
    /// How long a learned address is kept, in seconds.
    Ageing,
    /// The greatest number of learned addresses.
    Limit,
    /// The lowest and the highest source port, in network order.
    PortRange,
    /// Whether ARP is answered here.
    Proxy,
    /// Whether route short circuit is on.
    Rsc,
    /// Whether unknown hardware addresses are reported.
    L2miss,
    /// Whether unknown IP addresses are reported.
    L3miss,
    /// The destination port, in network order.
    Port,
    /// The IPv6 multicast group, or the other end.
    Group6,
    /// The IPv6 address of this end.
    Local6,
    /// Whether packets over IPv4 have a checksum.
    UdpCsum,
    /// Whether packets over IPv6 are sent without a checksum.
    UdpZeroCsum6Tx,
    /// Whether packets over IPv6 are received without a checksum.
    UdpZeroCsum6Rx,
    /// Whether the other end is to compute checksums.
    RemcsumTx,
    /// Whether checksums are computed for the other end.
    RemcsumRx,
    /// Whether packets carry a group policy; it has no value.
    Gbp,
    /// Whether checksums are computed in full; it has no value.
    RemcsumNopartial,
    /// Whether the other end and the network are chosen by packet.
    CollectMetadata,
    /// The flow label of packets over IPv6, in network order.
    Label,
    /// Whether packets carry other protocols than Ethernet; it has no value.
    Gpe,
    /// Whether the time to live is that of the packet inside; it has no value.
    TtlInherit,
    /// Whether packets may be fragmented: 0 yes, 1 no, 2 as in the packet inside.
    Df,
    /// Whether networks are filtered by number.
    Vnifilter,
    /// Whether packets for this host skip the network.
    Localbypass,
    /// Where the flow label comes from: 0 as set, 1 from the packet inside.
    LabelPolicy,
    /// Reserved bits of the header that packets may have, eight bytes.
    ReservedBits,
    /// Whether multicast packets of the tunnel are routed.
    McRoute,
    /// A number without a name.
    UnrecognizedConst(u16),
}

impl IflaVxlan {
    /// Whether the value is a number without a name, an `UnrecognizedConst`.
    pub fn is_unrecognized(&self) -> bool
        ensures { result ≡ ifla_vxlan_is_unrecognized self.now }
    {
        matches!(self, IflaVxlan::UnrecognizedConst(_))
    }
}

impl From<u16> for IflaVxlan {
    ghost from_gives = { λ number value. value ≡ ifla_vxlan_of number };

    fn from(number: u16) -> IflaVxlan {
        match number {
            0 => IflaVxlan::Unspec,
            1 => IflaVxlan::Id,
            2 => IflaVxlan::Group,
            3 => IflaVxlan::Link,
            4 => IflaVxlan::Local,
            5 => IflaVxlan::Ttl,
            6 => IflaVxlan::Tos,
            7 => IflaVxlan::Learning,
            8 => IflaVxlan::Ageing,
            9 => IflaVxlan::Limit,
            10 => IflaVxlan::PortRange,
            11 => IflaVxlan::Proxy,
            12 => IflaVxlan::Rsc,
            13 => IflaVxlan::L2miss,
            14 => IflaVxlan::L3miss,
            15 => IflaVxlan::Port,
            16 => IflaVxlan::Group6,
            17 => IflaVxlan::Local6,
            18 => IflaVxlan::UdpCsum,
            19 => IflaVxlan::UdpZeroCsum6Tx,
            20 => IflaVxlan::UdpZeroCsum6Rx,
            21 => IflaVxlan::RemcsumTx,
            22 => IflaVxlan::RemcsumRx,
            23 => IflaVxlan::Gbp,
            24 => IflaVxlan::RemcsumNopartial,
            25 => IflaVxlan::CollectMetadata,
            26 => IflaVxlan::Label,
            27 => IflaVxlan::Gpe,
            28 => IflaVxlan::TtlInherit,
            29 => IflaVxlan::Df,
            30 => IflaVxlan::Vnifilter,
            31 => IflaVxlan::Localbypass,
            32 => IflaVxlan::LabelPolicy,
            33 => IflaVxlan::ReservedBits,
            34 => IflaVxlan::McRoute,
            _ => IflaVxlan::UnrecognizedConst(number),
        }
    }
}

impl From<IflaVxlan> for u16 {
    ghost from_gives = { λ value number. number ≡ ifla_vxlan_number value };

    fn from(value: IflaVxlan) -> u16 {
        match value {
            IflaVxlan::Unspec => 0,
            IflaVxlan::Id => 1,
            IflaVxlan::Group => 2,
            IflaVxlan::Link => 3,
            IflaVxlan::Local => 4,
            IflaVxlan::Ttl => 5,
            IflaVxlan::Tos => 6,
            IflaVxlan::Learning => 7,
            IflaVxlan::Ageing => 8,
            IflaVxlan::Limit => 9,
            IflaVxlan::PortRange => 10,
            IflaVxlan::Proxy => 11,
            IflaVxlan::Rsc => 12,
            IflaVxlan::L2miss => 13,
            IflaVxlan::L3miss => 14,
            IflaVxlan::Port => 15,
            IflaVxlan::Group6 => 16,
            IflaVxlan::Local6 => 17,
            IflaVxlan::UdpCsum => 18,
            IflaVxlan::UdpZeroCsum6Tx => 19,
            IflaVxlan::UdpZeroCsum6Rx => 20,
            IflaVxlan::RemcsumTx => 21,
            IflaVxlan::RemcsumRx => 22,
            IflaVxlan::Gbp => 23,
            IflaVxlan::RemcsumNopartial => 24,
            IflaVxlan::CollectMetadata => 25,
            IflaVxlan::Label => 26,
            IflaVxlan::Gpe => 27,
            IflaVxlan::TtlInherit => 28,
            IflaVxlan::Df => 29,
            IflaVxlan::Vnifilter => 30,
            IflaVxlan::Localbypass => 31,
            IflaVxlan::LabelPolicy => 32,
            IflaVxlan::ReservedBits => 33,
            IflaVxlan::McRoute => 34,
            IflaVxlan::UnrecognizedConst(number) => number,
        }
    }
}

impl Constant for IflaVxlan {
    type Number = u16;

    ghost wire_number = { ifla_vxlan_number };

    ghost wire_value = { ifla_vxlan_of };

    fn from_wire(number: u16) -> IflaVxlan {
        IflaVxlan::from(number)
    }

    fn to_wire(&self) -> u16 {
        u16::from(*self)
    }

    ghost back_to_number = { λ n _. Prim.search (first_with-number, rules) };
}

impl RtaType for IflaVxlan {}
