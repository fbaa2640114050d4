//! Bridges and their ports.

ghost use Rattle.std.proofs.Common.{rules};
ghost use Rattle.std.specs.Prelude.{◌≡◌};
ghost use Rattle.neli_consts_linux.specs.IflaBr.{ifla_br_number, ifla_br_of, ifla_br_is_unrecognized};
ghost use Rattle.neli_consts_linux.specs.IflaBrport.{ifla_brport_number, ifla_brport_of, ifla_brport_is_unrecognized};
ghost use Rattle.neli_wire.specs.laws.Constants.{first_with-number};

use neli_consts_attrs::RtaType;
use neli_wire::Constant;

/// Attributes inside [`IflaInfo::Data`](neli_consts_attrs::IflaInfo::Data) of a bridge: `IFLA_BR_*`
/// of `linux/if_link.h`. Times are in hundredths of a second.
#[derive(Clone, Copy, Debug, PartialEq, Eq)]
pub enum IflaBr {
    /// No attribute: 0 stands for none.
    Unspec,
    /// How long a port listens and learns before it forwards.
    ForwardDelay,
    /// The time between two messages of the spanning tree.
    HelloTime,
    /// How old a message of the spanning tree may be.
    MaxAge,
    /// How long a learned address is kept.
    AgeingTime,
    /// Whether a spanning tree is used, and whose: 0 none, 1 the kernel's, 2 a program's.
    StpState,
    /// The bridge's priority in the spanning tree.
    Priority,
    /// Whether frames are filtered by VLAN.
    VlanFiltering,
    /// The type of Ethernet frame that carries the tag, in network order.
    VlanProtocol,
    /// Link-local addresses whose frames are forwarded all the same, a bit for each.
    GroupFwdMask,
    /// The bridge at the root of the spanning tree.
    RootId,
    /// This bridge in the spanning tree.
    BridgeId,
    /// The port towards the root.
    RootPort,
    /// The cost of the path to the root.
    RootPathCost,
    /// Whether the topology is changing.
    TopologyChange,
    /// Whether this bridge has seen it change.
    TopologyChangeDetected,
    /// The time left until the next message.
    HelloTimer,
    /// The time left until a change is reported again.
    TcnTimer,
    /// The time left of a change of the topology.
    TopologyChangeTimer,
    /// The time left until old addresses are dropped.
    GcTimer,
    /// The destination hardware address of the spanning tree's messages.
    GroupAddr,
    /// A request to forget all learned addresses; it has no value.
    FdbFlush,
    /// Whether a multicast router is on the bridge itself: 0 never, 1 as learned, 2 always.
    McastRouter,
    /// Whether it learns who listens to which multicast group.
    McastSnooping,
    /// Whether queries have the bridge's own address as their source.
    McastQueryUseIfaddr,
    /// Whether it sends queries itself.
    McastQuerier,
    /// Not used since Linux 4.20.
    McastHashElasticity,
    /// The greatest number of multicast groups that it keeps.
    McastHashMax,
    /// How many queries are sent when a listener leaves.
    McastLastMemberCnt,
    /// How many queries are sent at the start.
    McastStartupQueryCnt,
    /// The time between queries when a listener leaves.
    McastLastMemberIntvl,
    /// How long a listener is kept without an answer.
    McastMembershipIntvl,
    /// How long another querier is kept without a query.
    McastQuerierIntvl,
    /// The time between queries.
    McastQueryIntvl,
    /// How long listeners may delay an answer.
    McastQueryResponseIntvl,
    /// The time between queries at the start.
    McastStartupQueryIntvl,
    /// Whether IPv4 packets pass through iptables.
    NfCallIptables,
    /// Whether IPv6 packets pass through ip6tables.
    NfCallIp6tables,
    /// Whether ARP packets pass through arptables.
    NfCallArptables,
    /// The VLAN of frames without a tag at a new port.
    VlanDefaultPvid,
    /// Padding that aligns the next attribute to eight bytes.
    Pad,
    /// Whether frames are counted by VLAN.
    VlanStatsEnabled,
    /// Whether queries and answers are counted.
    McastStatsEnabled,
    /// The version of IGMP in queries.
    McastIgmpVersion,
    /// The version of MLD in queries.
    McastMldVersion,
    /// Whether frames are counted by VLAN and port.
    VlanStatsPerPort,
    /// Options that are on or off, and which of them are set.
    MultiBoolopt,
    /// The querier that was chosen, as attributes.
    McastQuerierState,
    /// How many addresses it has learned.
    FdbNLearned,
    /// How many addresses it may learn; 0 is no limit.
    FdbMaxLearned,
    /// A number without a name.
    UnrecognizedConst(u16),
}

impl IflaBr {
    /// Whether the value is a number without a name, an `UnrecognizedConst`.
    pub fn is_unrecognized(&self) -> bool
        ensures { result ≡ ifla_br_is_unrecognized self.now }
    {
        matches!(self, IflaBr::UnrecognizedConst(_))
    }
}

impl From<u16> for IflaBr {
    ghost from_gives = { λ number value. value ≡ ifla_br_of number };

    fn from(number: u16) -> IflaBr {
        match number {
            0 => IflaBr::Unspec,
            1 => IflaBr::ForwardDelay,
            2 => IflaBr::HelloTime,
            3 => IflaBr::MaxAge,
            4 => IflaBr::AgeingTime,
            5 => IflaBr::StpState,
            6 => IflaBr::Priority,
            7 => IflaBr::VlanFiltering,
            8 => IflaBr::VlanProtocol,
            9 => IflaBr::GroupFwdMask,
            10 => IflaBr::RootId,
            11 => IflaBr::BridgeId,
            12 => IflaBr::RootPort,
            13 => IflaBr::RootPathCost,
            14 => IflaBr::TopologyChange,
            15 => IflaBr::TopologyChangeDetected,
            16 => IflaBr::HelloTimer,
            17 => IflaBr::TcnTimer,
            18 => IflaBr::TopologyChangeTimer,
            19 => IflaBr::GcTimer,
            20 => IflaBr::GroupAddr,
            21 => IflaBr::FdbFlush,
            22 => IflaBr::McastRouter,
            23 => IflaBr::McastSnooping,
            24 => IflaBr::McastQueryUseIfaddr,
            25 => IflaBr::McastQuerier,
            26 => IflaBr::McastHashElasticity,
            27 => IflaBr::McastHashMax,
            28 => IflaBr::McastLastMemberCnt,
            29 => IflaBr::McastStartupQueryCnt,
            30 => IflaBr::McastLastMemberIntvl,
            31 => IflaBr::McastMembershipIntvl,
            32 => IflaBr::McastQuerierIntvl,
            33 => IflaBr::McastQueryIntvl,
            34 => IflaBr::McastQueryResponseIntvl,
            35 => IflaBr::McastStartupQueryIntvl,
            36 => IflaBr::NfCallIptables,
            37 => IflaBr::NfCallIp6tables,
            38 => IflaBr::NfCallArptables,
            39 => IflaBr::VlanDefaultPvid,
            40 => IflaBr::Pad,
            41 => IflaBr::VlanStatsEnabled,
            42 => IflaBr::McastStatsEnabled,
            43 => IflaBr::McastIgmpVersion,
            44 => IflaBr::McastMldVersion,
            45 => IflaBr::VlanStatsPerPort,
            46 => IflaBr::MultiBoolopt,
            47 => IflaBr::McastQuerierState,
            48 => IflaBr::FdbNLearned,
            49 => IflaBr::FdbMaxLearned,
            _ => IflaBr::UnrecognizedConst(number),
        }
    }
}

impl From<IflaBr> for u16 {
    ghost from_gives = { λ value number. number ≡ ifla_br_number value };

    fn from(value: IflaBr) -> u16 {
        match value {
            IflaBr::Unspec => 0,
            IflaBr::ForwardDelay => 1,
            IflaBr::HelloTime => 2,
            IflaBr::MaxAge => 3,
            IflaBr::AgeingTime => 4,
            IflaBr::StpState => 5,
            IflaBr::Priority => 6,
            IflaBr::VlanFiltering => 7,
            IflaBr::VlanProtocol => 8,
            IflaBr::GroupFwdMask => 9,
            IflaBr::RootId => 10,
            IflaBr::BridgeId => 11,
            IflaBr::RootPort => 12,
            IflaBr::RootPathCost => 13,
            IflaBr::TopologyChange => 14,
            IflaBr::TopologyChangeDetected => 15,
            IflaBr::HelloTimer => 16,
            IflaBr::TcnTimer => 17,
            IflaBr::TopologyChangeTimer => 18,
            IflaBr::GcTimer => 19,
            IflaBr::GroupAddr => 20,
            IflaBr::FdbFlush => 21,
            IflaBr::McastRouter => 22,
            IflaBr::McastSnooping => 23,
            IflaBr::McastQueryUseIfaddr => 24,
            IflaBr::McastQuerier => 25,
            IflaBr::McastHashElasticity => 26,
            IflaBr::McastHashMax => 27,
            IflaBr::McastLastMemberCnt => 28,
            IflaBr::McastStartupQueryCnt => 29,
            IflaBr::McastLastMemberIntvl => 30,
            IflaBr::McastMembershipIntvl => 31,
            IflaBr::McastQuerierIntvl => 32,
            IflaBr::McastQueryIntvl => 33,
            IflaBr::McastQueryResponseIntvl => 34,
            IflaBr::McastStartupQueryIntvl => 35,
            IflaBr::NfCallIptables => 36,
            IflaBr::NfCallIp6tables => 37,
            IflaBr::NfCallArptables => 38,
            IflaBr::VlanDefaultPvid => 39,
            IflaBr::Pad => 40,
            IflaBr::VlanStatsEnabled => 41,
            IflaBr::McastStatsEnabled => 42,
            IflaBr::McastIgmpVersion => 43,
            IflaBr::McastMldVersion => 44,
            IflaBr::VlanStatsPerPort => 45,
            IflaBr::MultiBoolopt => 46,
            IflaBr::McastQuerierState => 47,
            IflaBr::FdbNLearned => 48,
            IflaBr::FdbMaxLearned => 49,
            IflaBr::UnrecognizedConst(number) => number,
        }
    }
}

impl Constant for IflaBr {
    type Number = u16;

    ghost wire_number = { ifla_br_number };

    ghost wire_value = { ifla_br_of };

    fn from_wire(number: u16) -> IflaBr {
        IflaBr::from(number)
    }

    fn to_wire(&self) -> u16 {
        u16::from(*self)
    }

    ghost back_to_number = { λ n _. Prim.search (first_with-number, rules) };
}

impl RtaType for IflaBr {}

/// Attributes of a bridge's port, inside
/// [`IflaInfo::SlaveData`](neli_consts_attrs::IflaInfo::SlaveData) or
/// [`Ifla::Protinfo`](neli_consts_attrs::Ifla::Protinfo): `IFLA_BRPORT_*` of `linux/if_link.h`.
/// Times are in hundredths of a second.
#[derive(Clone, Copy, Debug, PartialEq, Eq)]
pub enum IflaBrport {
    /// No attribute: 0 stands for none.
    Unspec,
    /// The port's state in the spanning tree.
    State,
    /// Its priority in the spanning tree.
    Priority,
    /// The cost of the path through it.
    Cost,
    /// Whether a frame may leave by its input port.
    Mode,
    /// Whether a message of the spanning tree shuts the port.
    Guard,
    /// Whether it may never lead to the root.
    Protect,
    /// Whether a listener that leaves is dropped at once.
    FastLeave,
    /// Whether addresses are learned at it.
    Learning,
    /// Whether frames to unknown addresses leave by it.
    UnicastFlood,
    /// Whether ARP is answered for hosts behind it.
    Proxyarp,
    /// Whether it takes over the addresses that the hardware learns.
    LearningSync,
    /// Whether ARP is answered as Wi-Fi needs it.
    ProxyarpWifi,
    /// The bridge at the root of the spanning tree.
    RootId,
    /// The designated bridge.
    BridgeId,
    /// The designated port.
    DesignatedPort,
    /// The cost from there to the root.
    DesignatedCost,
    /// The port in the spanning tree: its priority and its number.
    Id,
    /// Its number.
    No,
    /// Whether a change of the topology is acknowledged with the next message.
    TopologyChangeAck,
    /// Whether a message waits to be sent.
    ConfigPending,
    /// The time left until the last message is too old.
    MessageAgeTimer,
    /// The time left until the state changes.
    ForwardDelayTimer,
    /// The time left until the next message may be sent.
    HoldTimer,
    /// A request to forget the addresses learned at it; it has no value.
    Flush,
    /// Whether a multicast router is behind it: 0 never, 1 as learned, 2 always, 3 for a while.
    MulticastRouter,
    /// Padding that aligns the next attribute to eight bytes.
    Pad,
    /// Whether multicast frames without listeners leave by it.
    McastFlood,
    /// Whether multicast frames are sent to each listener separately.
    McastToUcast,
    /// Whether VLANs are mapped to tunnels.
    VlanTunnel,
    /// Whether broadcast frames leave by it.
    BcastFlood,
    /// Link-local addresses whose frames are forwarded all the same, a bit for each.
    GroupFwdMask,
    /// Whether neighbour requests are answered here and not forwarded.
    NeighSuppress,
    /// Whether it forwards only to ports that are not isolated.
    Isolated,
    /// The port that takes over when it has no carrier.
    BackupPort,
    /// Whether its media redundancy ring is open.
    MrpRingOpen,
    /// Whether its interconnected ring is open.
    MrpInOpen,
    /// How many hosts may be tracked at it.
    McastEhtHostsLimit,
    /// How many hosts are tracked at it.
    McastEhtHostsCnt,
    /// Whether hosts must be authorized before they may send.
    Locked,
    /// Whether hosts are authorized by their hardware address.
    Mab,
    /// How many multicast groups are joined at it.
    McastNGroups,
    /// How many may be joined; 0 is no limit.
    McastMaxGroups,
    /// Whether neighbour requests are answered here by VLAN.
    NeighVlanSuppress,
    /// The next hop of frames that go to the backup port.
    BackupNhid,
    /// A number without a name.
    UnrecognizedConst(u16),
}

impl IflaBrport {
    /// Whether the value is a number without a name, an `UnrecognizedConst`.
    pub fn is_unrecognized(&self) -> bool
        ensures { result ≡ ifla_brport_is_unrecognized self.now }
    {
        matches!(self, IflaBrport::UnrecognizedConst(_))
    }
}

impl From<u16> for IflaBrport {
    ghost from_gives = { λ number value. value ≡ ifla_brport_of number };

    fn from(number: u16) -> IflaBrport {
        match number {
            0 => IflaBrport::Unspec,
            1 => IflaBrport::State,
            2 => IflaBrport::Priority,
            3 => IflaBrport::Cost,
            4 => IflaBrport::Mode,
            5 => IflaBrport::Guard,
            6 => IflaBrport::Protect,
            7 => IflaBrport::FastLeave,
            8 => IflaBrport::Learning,
            9 => IflaBrport::UnicastFlood,
            10 => IflaBrport::Proxyarp,
            11 => IflaBrport::LearningSync,
            12 => IflaBrport::ProxyarpWifi,
            13 => IflaBrport::RootId,
            14 => IflaBrport::BridgeId,
            15 => IflaBrport::DesignatedPort,
            16 => IflaBrport::DesignatedCost,
            17 => IflaBrport::Id,
            18 => IflaBrport::No,
            19 => IflaBrport::TopologyChangeAck,
            20 => IflaBrport::ConfigPending,
            21 => IflaBrport::MessageAgeTimer,
            22 => IflaBrport::ForwardDelayTimer,
            23 => IflaBrport::HoldTimer,
            24 => IflaBrport::Flush,
            25 => IflaBrport::MulticastRouter,
            26 => IflaBrport::Pad,
            27 => IflaBrport::McastFlood,
            28 => IflaBrport::McastToUcast,
            29 => IflaBrport::VlanTunnel,
            30 => IflaBrport::BcastFlood,
            31 => IflaBrport::GroupFwdMask,
            32 => IflaBrport::NeighSuppress,
            33 => IflaBrport::Isolated,
            34 => IflaBrport::BackupPort,
            35 => IflaBrport::MrpRingOpen,
            36 => IflaBrport::MrpInOpen,
            37 => IflaBrport::McastEhtHostsLimit,
            38 => IflaBrport::McastEhtHostsCnt,
            39 => IflaBrport::Locked,
            40 => IflaBrport::Mab,
            41 => IflaBrport::McastNGroups,
            42 => IflaBrport::McastMaxGroups,
            43 => IflaBrport::NeighVlanSuppress,
            44 => IflaBrport::BackupNhid,
            _ => IflaBrport::UnrecognizedConst(number),
        }
    }
}

impl From<IflaBrport> for u16 {
    ghost from_gives = { λ value number. number ≡ ifla_brport_number value };

    fn from(value: IflaBrport) -> u16 {
        match value {
            IflaBrport::Unspec => 0,
            IflaBrport::State => 1,
            IflaBrport::Priority => 2,
            IflaBrport::Cost => 3,
            IflaBrport::Mode => 4,
            IflaBrport::Guard => 5,
            IflaBrport::Protect => 6,
            IflaBrport::FastLeave => 7,
            IflaBrport::Learning => 8,
            IflaBrport::UnicastFlood => 9,
            IflaBrport::Proxyarp => 10,
            IflaBrport::LearningSync => 11,
            IflaBrport::ProxyarpWifi => 12,
            IflaBrport::RootId => 13,
            IflaBrport::BridgeId => 14,
            IflaBrport::DesignatedPort => 15,
            IflaBrport::DesignatedCost => 16,
            IflaBrport::Id => 17,
            IflaBrport::No => 18,
            IflaBrport::TopologyChangeAck => 19,
            IflaBrport::ConfigPending => 20,
            IflaBrport::MessageAgeTimer => 21,
            IflaBrport::ForwardDelayTimer => 22,
            IflaBrport::HoldTimer => 23,
            IflaBrport::Flush => 24,
            IflaBrport::MulticastRouter => 25,
            IflaBrport::Pad => 26,
            IflaBrport::McastFlood => 27,
            IflaBrport::McastToUcast => 28,
            IflaBrport::VlanTunnel => 29,
            IflaBrport::BcastFlood => 30,
            IflaBrport::GroupFwdMask => 31,
            IflaBrport::NeighSuppress => 32,
            IflaBrport::Isolated => 33,
            IflaBrport::BackupPort => 34,
            IflaBrport::MrpRingOpen => 35,
            IflaBrport::MrpInOpen => 36,
            IflaBrport::McastEhtHostsLimit => 37,
            IflaBrport::McastEhtHostsCnt => 38,
            IflaBrport::Locked => 39,
            IflaBrport::Mab => 40,
            IflaBrport::McastNGroups => 41,
            IflaBrport::McastMaxGroups => 42,
            IflaBrport::NeighVlanSuppress => 43,
            IflaBrport::BackupNhid => 44,
            IflaBrport::UnrecognizedConst(number) => number,
        }
    }
}

impl Constant for IflaBrport {
    type Number = u16;

    ghost wire_number = { ifla_brport_number };

    ghost wire_value = { ifla_brport_of };

    fn from_wire(number: u16) -> IflaBrport {
        IflaBrport::from(number)
    }

    fn to_wire(&self) -> u16 {
        u16::from(*self)
    }

    ghost back_to_number = { λ n _. Prim.search (first_with-number, rules) };
}

impl RtaType for IflaBrport {}
