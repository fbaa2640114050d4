//! Attributes of links.

ghost use Rattle.std.proofs.Common.{rules};
ghost use Rattle.std.specs.Prelude.{◌≡◌};
ghost use Rattle.neli_consts_attrs.specs.Ifla.{ifla_number, ifla_of, ifla_is_unrecognized};
ghost use Rattle.neli_wire.specs.laws.Constants.{first_with-number};

use neli_wire::Constant;

/// Attributes of a link: `IFLA_*` of `linux/if_link.h`.
#[derive(Clone, Copy, Debug, PartialEq, Eq)]
pub enum Ifla {
    /// No attribute: 0 stands for none.
    Unspec,
    /// The hardware address.
    Address,
    /// The hardware address of broadcasts.
    Broadcast,
    /// The name of the link, with a zero at its end.
    Ifname,
    /// The largest packet, in bytes.
    Mtu,
    /// The index of the link below it.
    Link,
    /// The queueing discipline, by name.
    Qdisc,
    /// Counters of 32 bits.
    Stats,
    Cost,
    Priority,
    /// The index of the link that it belongs to.
    Master,
    /// An event of the wireless extensions.
    Wireless,
    /// A protocol's own data about the link.
    Protinfo,
    /// The length of the queue of packets to send.
    Txqlen,
    /// The memory and the interrupt of the device.
    Map,
    Weight,
    /// The link's operational state (RFC 2863).
    Operstate,
    /// The state to which the link goes up by itself: up, or dormant (RFC 2863).
    Linkmode,
    /// Attributes of [`IflaInfo`].
    Linkinfo,
    /// A process whose network namespace the link is to move to.
    NetNsPid,
    /// Another name, of the administrator's choice.
    Ifalias,
    /// The number of virtual functions.
    NumVf,
    /// The virtual functions.
    VfinfoList,
    /// Counters of 64 bits.
    Stats64,
    /// The ports of the virtual functions.
    VfPorts,
    /// The port of the link itself.
    PortSelf,
    /// Each address family's own data about the link.
    AfSpec,
    /// The group that the link belongs to.
    Group,
    /// A descriptor of the network namespace that the link is to move to.
    NetNsFd,
    /// A mask of what else to put in the answer.
    ExtMask,
    /// How many users asked the link to take all packets.
    Promiscuity,
    /// The number of transmit queues.
    NumTxQueues,
    /// The number of receive queues.
    NumRxQueues,
    /// Whether the link has a carrier.
    Carrier,
    /// Identifies the physical port.
    PhysPortId,
    /// How often the carrier changed.
    CarrierChanges,
    /// Identifies the switch of the port.
    PhysSwitchId,
    /// The network namespace of the link below it.
    LinkNetnsid,
    /// The name of the physical port.
    PhysPortName,
    /// A protocol keeps the link down.
    ProtoDown,
    /// The most segments of a packet that is segmented when it is sent (GSO).
    GsoMaxSegs,
    /// The largest packet that is segmented when it is sent (GSO), in bytes.
    GsoMaxSize,
    /// No attribute: it aligns the next one to eight bytes.
    Pad,
    /// The program that sees the packets first.
    Xdp,
    /// What made the kernel announce the link.
    Event,
    /// The network namespace that the link moved to.
    NewNetnsid,
    /// The namespace that the request is about, now `IFLA_TARGET_NETNSID`.
    IfNetnsid,
    /// How often the carrier went up.
    CarrierUpCount,
    /// How often the carrier went down.
    CarrierDownCount,
    /// The index of the link in the network namespace that it moves to.
    NewIfindex,
    /// The least value of [`Ifla::Mtu`].
    MinMtu,
    /// The greatest value of [`Ifla::Mtu`].
    MaxMtu,
    /// Attributes [`Ifla::AltIfname`].
    PropList,
    /// One more name of the link.
    AltIfname,
    /// The hardware address that the device was made with.
    PermAddress,
    /// Why a protocol keeps the link down.
    ProtoDownReason,
    /// A number without a name.
    UnrecognizedConst(u16),
}

impl Ifla {
    /// Whether the value is a number without a name, an `UnrecognizedConst`.
    pub fn is_unrecognized(&self) -> bool
        ensures { result ≡ ifla_is_unrecognized self.now }
    {
        matches!(self, Ifla::UnrecognizedConst(_))
    }
}

impl From<u16> for Ifla {
    ghost from_gives = { λ number value. value ≡ ifla_of number };

    fn from(number: u16) -> Ifla {
        match number {
            0 => Ifla::Unspec,
            1 => Ifla::Address,
            2 => Ifla::Broadcast,
            3 => Ifla::Ifname,
            4 => Ifla::Mtu,
            5 => Ifla::Link,
            6 => Ifla::Qdisc,
            7 => Ifla::Stats,
            8 => Ifla::Cost,
            9 => Ifla::Priority,
            10 => Ifla::Master,
            11 => Ifla::Wireless,
            12 => Ifla::Protinfo,
            13 => Ifla::Txqlen,
            14 => Ifla::Map,
            15 => Ifla::Weight,
            16 => Ifla::Operstate,
            17 => Ifla::Linkmode,
            18 => Ifla::Linkinfo,
            19 => Ifla::NetNsPid,
            20 => Ifla::Ifalias,
            21 => Ifla::NumVf,
            22 => Ifla::VfinfoList,
            23 => Ifla::Stats64,
            24 => Ifla::VfPorts,
            25 => Ifla::PortSelf,
            26 => Ifla::AfSpec,
            27 => Ifla::Group,
            28 => Ifla::NetNsFd,
            29 => Ifla::ExtMask,
            30 => Ifla::Promiscuity,
            31 => Ifla::NumTxQueues,
            32 => Ifla::NumRxQueues,
            33 => Ifla::Carrier,
            34 => Ifla::PhysPortId,
            35 => Ifla::CarrierChanges,
            36 => Ifla::PhysSwitchId,
            37 => Ifla::LinkNetnsid,
            38 => Ifla::PhysPortName,
            39 => Ifla::ProtoDown,
            40 => Ifla::GsoMaxSegs,
            41 => Ifla::GsoMaxSize,
            42 => Ifla::Pad,
            43 => Ifla::Xdp,
            44 => Ifla::Event,
            45 => Ifla::NewNetnsid,
            46 => Ifla::IfNetnsid,
            47 => Ifla::CarrierUpCount,
            48 => Ifla::CarrierDownCount,
            49 => Ifla::NewIfindex,
            50 => Ifla::MinMtu,
            51 => Ifla::MaxMtu,
            52 => Ifla::PropList,
            53 => Ifla::AltIfname,
            54 => Ifla::PermAddress,
            55 => Ifla::ProtoDownReason,
            _ => Ifla::UnrecognizedConst(number),
        }
    }
}

impl From<Ifla> for u16 {
    ghost from_gives = { λ value number. number ≡ ifla_number value };

    fn from(value: Ifla) -> u16 {
        match value {
            Ifla::Unspec => 0,
            Ifla::Address => 1,
            Ifla::Broadcast => 2,
            Ifla::Ifname => 3,
            Ifla::Mtu => 4,
            Ifla::Link => 5,
            Ifla::Qdisc => 6,
            Ifla::Stats => 7,
            Ifla::Cost => 8,
            Ifla::Priority => 9,
            Ifla::Master => 10,
            Ifla::Wireless => 11,
            Ifla::Protinfo => 12,
            Ifla::Txqlen => 13,
            Ifla::Map => 14,
            Ifla::Weight => 15,
            Ifla::Operstate => 16,
            Ifla::Linkmode => 17,
            Ifla::Linkinfo => 18,
            Ifla::NetNsPid => 19,
            Ifla::Ifalias => 20,
            Ifla::NumVf => 21,
            Ifla::VfinfoList => 22,
            Ifla::Stats64 => 23,
            Ifla::VfPorts => 24,
            Ifla::PortSelf => 25,
            Ifla::AfSpec => 26,
            Ifla::Group => 27,
            Ifla::NetNsFd => 28,
            Ifla::ExtMask => 29,
            Ifla::Promiscuity => 30,
            Ifla::NumTxQueues => 31,
            Ifla::NumRxQueues => 32,
            Ifla::Carrier => 33,
            Ifla::PhysPortId => 34,
            Ifla::CarrierChanges => 35,
            Ifla::PhysSwitchId => 36,
            Ifla::LinkNetnsid => 37,
            Ifla::PhysPortName => 38,
            Ifla::ProtoDown => 39,
            Ifla::GsoMaxSegs => 40,
            Ifla::GsoMaxSize => 41,
            Ifla::Pad => 42,
            Ifla::Xdp => 43,
            Ifla::Event => 44,
            Ifla::NewNetnsid => 45,
            Ifla::IfNetnsid => 46,
            Ifla::CarrierUpCount => 47,
            Ifla::CarrierDownCount => 48,
            Ifla::NewIfindex => 49,
            Ifla::MinMtu => 50,
            Ifla::MaxMtu => 51,
            Ifla::PropList => 52,
            Ifla::AltIfname => 53,
            Ifla::PermAddress => 54,
            Ifla::ProtoDownReason => 55,
            Ifla::UnrecognizedConst(number) => number,
        }
    }
}

impl From<&Ifla> for u16 {
    ghost from_gives = { λ value number. number ≡ ifla_number value.now };

    fn from(value: &Ifla) -> u16 {
        u16::from(*value)
    }
}

impl Constant for Ifla {
    type Number = u16;

    ghost wire_number = { ifla_number };

    ghost wire_value = { ifla_of };

    fn from_wire(number: u16) -> Ifla {
        Ifla::from(number)
    }

    fn to_wire(&self) -> u16 {
        u16::from(self)
    }

    ghost back_to_number = { λ n _. Prim.search (first_with-number, rules) };
}
