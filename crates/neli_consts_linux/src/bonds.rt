//! Several links that act as one.

ghost use Rattle.std.proofs.Common.{rules};
ghost use Rattle.std.specs.Prelude.{◌≡◌};
ghost use Rattle.neli_consts_linux.specs.IflaBond.{ifla_bond_number, ifla_bond_of, ifla_bond_is_unrecognized};
ghost use Rattle.neli_consts_linux.specs.IflaBondAdInfo.{ifla_bond_ad_info_number, ifla_bond_ad_info_of};
ghost use Rattle.neli_consts_linux.specs.IflaBondAdInfo.{ifla_bond_ad_info_is_unrecognized};
ghost use Rattle.neli_consts_linux.specs.IflaBondSlave.{ifla_bond_slave_number, ifla_bond_slave_of};
ghost use Rattle.neli_consts_linux.specs.IflaBondSlave.{ifla_bond_slave_is_unrecognized};
ghost use Rattle.neli_wire.specs.laws.Constants.{first_with-number};

use neli_consts_attrs::RtaType;
use neli_wire::Constant;

/// Attributes inside [`IflaInfo::Data`](neli_consts_attrs::IflaInfo::Data) of a bond: `IFLA_BOND_*`
/// of `linux/if_link.h`. Times are in milliseconds.
#[derive(Clone, Copy, Debug, PartialEq, Eq)]
pub enum IflaBond {
    /// No attribute: 0 stands for none.
    Unspec,
    /// How the links share the work.
    Mode,
    /// The link in use.
    ActiveSlave,
    /// The time between two checks of the carrier.
    Miimon,
    /// How long a link is up before it is used.
    Updelay,
    /// How long a link is down before it is left.
    Downdelay,
    /// Whether the carrier is what the driver reports.
    UseCarrier,
    /// The time between two ARP probes.
    ArpInterval,
    /// The IPv4 addresses that are probed, numbered attributes.
    ArpIpTarget,
    /// Which probes and answers are checked.
    ArpValidate,
    /// Whether one address must answer, or all.
    ArpAllTargets,
    /// The link that is preferred.
    Primary,
    /// When the bond returns to the preferred link.
    PrimaryReselect,
    /// Which link's hardware address the bond has.
    FailOverMac,
    /// Which parts of a packet choose its link.
    XmitHashPolicy,
    /// How many reports of multicast groups are sent after a change.
    ResendIgmp,
    /// How many announcements are sent after a change.
    NumPeerNotif,
    /// Whether a link that is not in use takes frames too.
    AllSlavesActive,
    /// How many links must be up.
    MinLinks,
    /// The time between two learning packets, in seconds.
    LpInterval,
    /// How many packets a link sends before the next.
    PacketsPerSlave,
    /// How often LACP messages are requested: 0 slow, 1 fast.
    AdLacpRate,
    /// How an aggregator is chosen.
    AdSelect,
    /// The aggregator in use, attributes of [`IflaBondAdInfo`].
    AdInfo,
    /// The priority of this system in LACP.
    AdActorSysPrio,
    /// The administrator's part of the port key.
    AdUserPortKey,
    /// The hardware address of this system in LACP.
    AdActorSystem,
    /// Whether flows move with the load.
    TlbDynamicLb,
    /// The time between two announcements.
    PeerNotifDelay,
    /// Whether LACP messages are sent unasked.
    AdLacpActive,
    /// How many probes may remain unanswered.
    MissedMax,
    /// The IPv6 addresses that are probed, numbered attributes.
    NsIp6Target,
    /// Whether collecting and distributing start together.
    CoupledControl,
    /// Whether neighbour requests go out on all links.
    BroadcastNeigh,
    /// A number without a name.
    UnrecognizedConst(u16),
}

impl IflaBond {
    /// Whether the value is a number without a name, an `UnrecognizedConst`.
    pub fn is_unrecognized(&self) -> bool
        ensures { result ≡ ifla_bond_is_unrecognized self.now }
    {
        matches!(self, IflaBond::UnrecognizedConst(_))
    }
}

impl From<u16> for IflaBond {
    ghost from_gives = { λ number value. value ≡ ifla_bond_of number };

    fn from(number: u16) -> IflaBond {
        match number {
            0 => IflaBond::Unspec,
            1 => IflaBond::Mode,
            2 => IflaBond::ActiveSlave,
            3 => IflaBond::Miimon,
            4 => IflaBond::Updelay,
            5 => IflaBond::Downdelay,
            6 => IflaBond::UseCarrier,
            7 => IflaBond::ArpInterval,
            8 => IflaBond::ArpIpTarget,
            9 => IflaBond::ArpValidate,
            10 => IflaBond::ArpAllTargets,
            11 => IflaBond::Primary,
            12 => IflaBond::PrimaryReselect,
            13 => IflaBond::FailOverMac,
            14 => IflaBond::XmitHashPolicy,
            15 => IflaBond::ResendIgmp,
            16 => IflaBond::NumPeerNotif,
            17 => IflaBond::AllSlavesActive,
            18 => IflaBond::MinLinks,
            19 => IflaBond::LpInterval,
            20 => IflaBond::PacketsPerSlave,
            21 => IflaBond::AdLacpRate,
            22 => IflaBond::AdSelect,
            23 => IflaBond::AdInfo,
            24 => IflaBond::AdActorSysPrio,
            25 => IflaBond::AdUserPortKey,
            26 => IflaBond::AdActorSystem,
            27 => IflaBond::TlbDynamicLb,
            28 => IflaBond::PeerNotifDelay,
            29 => IflaBond::AdLacpActive,
            30 => IflaBond::MissedMax,
            31 => IflaBond::NsIp6Target,
            32 => IflaBond::CoupledControl,
            33 => IflaBond::BroadcastNeigh,
            _ => IflaBond::UnrecognizedConst(number),
        }
    }
}

impl From<IflaBond> for u16 {
    ghost from_gives = { λ value number. number ≡ ifla_bond_number value };

    fn from(value: IflaBond) -> u16 {
        match value {
            IflaBond::Unspec => 0,
            IflaBond::Mode => 1,
            IflaBond::ActiveSlave => 2,
            IflaBond::Miimon => 3,
            IflaBond::Updelay => 4,
            IflaBond::Downdelay => 5,
            IflaBond::UseCarrier => 6,
            IflaBond::ArpInterval => 7,
            IflaBond::ArpIpTarget => 8,
            IflaBond::ArpValidate => 9,
            IflaBond::ArpAllTargets => 10,
            IflaBond::Primary => 11,
            IflaBond::PrimaryReselect => 12,
            IflaBond::FailOverMac => 13,
            IflaBond::XmitHashPolicy => 14,
            IflaBond::ResendIgmp => 15,
            IflaBond::NumPeerNotif => 16,
            IflaBond::AllSlavesActive => 17,
            IflaBond::MinLinks => 18,
            IflaBond::LpInterval => 19,
            IflaBond::PacketsPerSlave => 20,
            IflaBond::AdLacpRate => 21,
            IflaBond::AdSelect => 22,
            IflaBond::AdInfo => 23,
            IflaBond::AdActorSysPrio => 24,
            IflaBond::AdUserPortKey => 25,
            IflaBond::AdActorSystem => 26,
            IflaBond::TlbDynamicLb => 27,
            IflaBond::PeerNotifDelay => 28,
            IflaBond::AdLacpActive => 29,
            IflaBond::MissedMax => 30,
            IflaBond::NsIp6Target => 31,
            IflaBond::CoupledControl => 32,
            IflaBond::BroadcastNeigh => 33,
            IflaBond::UnrecognizedConst(number) => number,
        }
    }
}

impl Constant for IflaBond {
    type Number = u16;

    ghost wire_number = { ifla_bond_number };

    ghost wire_value = { ifla_bond_of };

    fn from_wire(number: u16) -> IflaBond {
        IflaBond::from(number)
    }

    fn to_wire(&self) -> u16 {
        u16::from(*self)
    }

    ghost back_to_number = { λ n _. Prim.search (first_with-number, rules) };
}

impl RtaType for IflaBond {}

/// Attributes inside [`IflaBond::AdInfo`], of the aggregator in use: `IFLA_BOND_AD_INFO_*` of
/// `linux/if_link.h`.
#[derive(Clone, Copy, Debug, PartialEq, Eq)]
pub enum IflaBondAdInfo {
    /// No attribute: 0 stands for none.
    Unspec,
    /// Its number.
    Aggregator,
    /// How many ports it has.
    NumPorts,
    /// The key of this end.
    ActorKey,
    /// The key of the other end.
    PartnerKey,
    /// The hardware address of the other end.
    PartnerMac,
    /// A number without a name.
    UnrecognizedConst(u16),
}

impl IflaBondAdInfo {
    /// Whether the value is a number without a name, an `UnrecognizedConst`.
    pub fn is_unrecognized(&self) -> bool
        ensures { result ≡ ifla_bond_ad_info_is_unrecognized self.now }
    {
        matches!(self, IflaBondAdInfo::UnrecognizedConst(_))
    }
}

impl From<u16> for IflaBondAdInfo {
    ghost from_gives = { λ number value. value ≡ ifla_bond_ad_info_of number };

    fn from(number: u16) -> IflaBondAdInfo {
        match number {
            0 => IflaBondAdInfo::Unspec,
            1 => IflaBondAdInfo::Aggregator,
            2 => IflaBondAdInfo::NumPorts,
            3 => IflaBondAdInfo::ActorKey,
            4 => IflaBondAdInfo::PartnerKey,
            5 => IflaBondAdInfo::PartnerMac,
            _ => IflaBondAdInfo::UnrecognizedConst(number),
        }
    }
}

impl From<IflaBondAdInfo> for u16 {
    ghost from_gives = { λ value number. number ≡ ifla_bond_ad_info_number value };

    fn from(value: IflaBondAdInfo) -> u16 {
        match value {
            IflaBondAdInfo::Unspec => 0,
            IflaBondAdInfo::Aggregator => 1,
            IflaBondAdInfo::NumPorts => 2,
            IflaBondAdInfo::ActorKey => 3,
            IflaBondAdInfo::PartnerKey => 4,
            IflaBondAdInfo::PartnerMac => 5,
            IflaBondAdInfo::UnrecognizedConst(number) => number,
        }
    }
}

impl Constant for IflaBondAdInfo {
    type Number = u16;

    ghost wire_number = { ifla_bond_ad_info_number };

    ghost wire_value = { ifla_bond_ad_info_of };

    fn from_wire(number: u16) -> IflaBondAdInfo {
        IflaBondAdInfo::from(number)
    }

    fn to_wire(&self) -> u16 {
        u16::from(*self)
    }

    ghost back_to_number = { λ n _. Prim.search (first_with-number, rules) };
}

impl RtaType for IflaBondAdInfo {}

/// Attributes inside [`IflaInfo::SlaveData`](neli_consts_attrs::IflaInfo::SlaveData) of a link in a
/// bond: `IFLA_BOND_SLAVE_*` of `linux/if_link.h`.
#[derive(Clone, Copy, Debug, PartialEq, Eq)]
pub enum IflaBondSlave {
    /// No attribute: 0 stands for none.
    Unspec,
    /// Whether it is in use: 0 active, 1 backup.
    State,
    /// Whether its carrier is up.
    MiiStatus,
    /// How often it has failed.
    LinkFailureCount,
    /// Its own hardware address.
    PermHwaddr,
    /// The queue that is bound to it.
    QueueId,
    /// The aggregator that it is in.
    AdAggregatorId,
    /// The state of this end's port in LACP.
    AdActorOperPortState,
    /// The state of the other end's port in LACP.
    AdPartnerOperPortState,
    /// Its priority when the link in use is chosen.
    Prio,
    /// Its priority in LACP.
    ActorPortPrio,
    /// The state of churn detection for this end.
    AdChurnActorState,
    /// The state of churn detection for the other end.
    AdChurnPartnerState,
    /// A number without a name.
    UnrecognizedConst(u16),
}

impl IflaBondSlave {
    /// Whether the value is a number without a name, an `UnrecognizedConst`.
    pub fn is_unrecognized(&self) -> bool
        ensures { result ≡ ifla_bond_slave_is_unrecognized self.now }
    {
        matches!(self, IflaBondSlave::UnrecognizedConst(_))
    }
}

impl From<u16> for IflaBondSlave {
    ghost from_gives = { λ number value. value ≡ ifla_bond_slave_of number };

    fn from(number: u16) -> IflaBondSlave {
        match number {
            0 => IflaBondSlave::Unspec,
            1 => IflaBondSlave::State,
            2 => IflaBondSlave::MiiStatus,
            3 => IflaBondSlave::LinkFailureCount,
            4 => IflaBondSlave::PermHwaddr,
            5 => IflaBondSlave::QueueId,
            6 => IflaBondSlave::AdAggregatorId,
            7 => IflaBondSlave::AdActorOperPortState,
            8 => IflaBondSlave::AdPartnerOperPortState,
            9 => IflaBondSlave::Prio,
            10 => IflaBondSlave::ActorPortPrio,
            11 => IflaBondSlave::AdChurnActorState,
            12 => IflaBondSlave::AdChurnPartnerState,
            _ => IflaBondSlave::UnrecognizedConst(number),
        }
    }
}

impl From<IflaBondSlave> for u16 {
    ghost from_gives = { λ value number. number ≡ ifla_bond_slave_number value };

    fn from(value: IflaBondSlave) -> u16 {
        match value {
            IflaBondSlave::Unspec => 0,
            IflaBondSlave::State => 1,
            IflaBondSlave::MiiStatus => 2,
            IflaBondSlave::LinkFailureCount => 3,
            IflaBondSlave::PermHwaddr => 4,
            IflaBondSlave::QueueId => 5,
            IflaBondSlave::AdAggregatorId => 6,
            IflaBondSlave::AdActorOperPortState => 7,
            IflaBondSlave::AdPartnerOperPortState => 8,
            IflaBondSlave::Prio => 9,
            IflaBondSlave::ActorPortPrio => 10,
            IflaBondSlave::AdChurnActorState => 11,
            IflaBondSlave::AdChurnPartnerState => 12,
            IflaBondSlave::UnrecognizedConst(number) => number,
        }
    }
}

impl Constant for IflaBondSlave {
    type Number = u16;

    ghost wire_number = { ifla_bond_slave_number };

    ghost wire_value = { ifla_bond_slave_of };

    fn from_wire(number: u16) -> IflaBondSlave {
        IflaBondSlave::from(number)
    }

    fn to_wire(&self) -> u16 {
        u16::from(*self)
    }

    ghost back_to_number = { λ n _. Prim.search (first_with-number, rules) };
}

impl RtaType for IflaBondSlave {}
