//! Next hops of routes.

ghost use Rattle.std.proofs.Common.{rules};
ghost use Rattle.std.specs.Prelude.{◌≡◌};
ghost use Rattle.neli_consts_linux.specs.Nha.{nha_number, nha_of, nha_is_unrecognized};
ghost use Rattle.neli_consts_linux.specs.NhaResGroup.{nha_res_group_number, nha_res_group_of};
ghost use Rattle.neli_consts_linux.specs.NhaResGroup.{nha_res_group_is_unrecognized};
ghost use Rattle.neli_consts_linux.specs.NhaResBucket.{nha_res_bucket_number, nha_res_bucket_of};
ghost use Rattle.neli_consts_linux.specs.NhaResBucket.{nha_res_bucket_is_unrecognized};
ghost use Rattle.neli_consts_linux.specs.NhaGroupStats.{nha_group_stats_number, nha_group_stats_of};
ghost use Rattle.neli_consts_linux.specs.NhaGroupStats.{nha_group_stats_is_unrecognized};
ghost use Rattle.neli_consts_linux.specs.NhaGroupStatsEntry.{nha_group_stats_entry_number, nha_group_stats_entry_of};
ghost use Rattle.neli_consts_linux.specs.NhaGroupStatsEntry.{nha_group_stats_entry_is_unrecognized};
ghost use Rattle.neli_consts_linux.specs.NexthopGrpType.{nexthop_grp_type_number, nexthop_grp_type_of};
ghost use Rattle.neli_consts_linux.specs.NexthopGrpType.{nexthop_grp_type_is_unrecognized};
ghost use Rattle.neli_wire.specs.laws.Constants.{first_with-number};

use neli_consts_attrs::RtaType;
use neli_wire::Constant;

/// Attributes of a next hop: `NHA_*` of `linux/nexthop.h`.
#[derive(Clone, Copy, Debug, PartialEq, Eq)]
pub enum Nha {
    /// No attribute: 0 stands for none.
    Unspec,
    /// The number of the next hop; 0 lets the kernel choose one.
    Id,
    /// The members of a group, eight bytes for each.
    Group,
    /// The kind of group, a [`NexthopGrpType`].
    GroupType,
    /// Packets are dropped; it has no value.
    Blackhole,
    /// The index of the output link.
    Oif,
    /// The address of the gateway.
    Gateway,
    /// How packets are encapsulated.
    EncapType,
    /// The attributes of that encapsulation.
    Encap,
    /// A dump of groups only; it has no value.
    Groups,
    /// A dump of the next hops whose link has this master.
    Master,
    /// The next hop belongs to a bridge's forwarding table; it has no value.
    Fdb,
    /// Attributes of [`NhaResGroup`].
    ResGroup,
    /// Attributes of [`NhaResBucket`].
    ResBucket,
    /// What else the request asks for, a bit for each.
    OpFlags,
    /// The counters of a group, attributes of [`NhaGroupStats`].
    GroupStats,
    /// Whether the hardware counts the packets of the group.
    HwStatsEnable,
    /// Whether the hardware is counting now.
    HwStatsUsed,
    /// A number without a name.
    UnrecognizedConst(u16),
}

impl Nha {
    /// Whether the value is a number without a name, an `UnrecognizedConst`.
    pub fn is_unrecognized(&self) -> bool
        ensures { result ≡ nha_is_unrecognized self.now }
    {
        matches!(self, Nha::UnrecognizedConst(_))
    }
}

impl From<u16> for Nha {
    ghost from_gives = { λ number value. value ≡ nha_of number };

    fn from(number: u16) -> Nha {
        match number {
            0 => Nha::Unspec,
            1 => Nha::Id,
            2 => Nha::Group,
            3 => Nha::GroupType,
            4 => Nha::Blackhole,
            5 => Nha::Oif,
            6 => Nha::Gateway,
            7 => Nha::EncapType,
            8 => Nha::Encap,
            9 => Nha::Groups,
            10 => Nha::Master,
            11 => Nha::Fdb,
            12 => Nha::ResGroup,
            13 => Nha::ResBucket,
            14 => Nha::OpFlags,
            15 => Nha::GroupStats,
            16 => Nha::HwStatsEnable,
            17 => Nha::HwStatsUsed,
            _ => Nha::UnrecognizedConst(number),
        }
    }
}

impl From<Nha> for u16 {
    ghost from_gives = { λ value number. number ≡ nha_number value };

    fn from(value: Nha) -> u16 {
        match value {
            Nha::Unspec => 0,
            Nha::Id => 1,
            Nha::Group => 2,
            Nha::GroupType => 3,
            Nha::Blackhole => 4,
            Nha::Oif => 5,
            Nha::Gateway => 6,
            Nha::EncapType => 7,
            Nha::Encap => 8,
            Nha::Groups => 9,
            Nha::Master => 10,
            Nha::Fdb => 11,
            Nha::ResGroup => 12,
            Nha::ResBucket => 13,
            Nha::OpFlags => 14,
            Nha::GroupStats => 15,
            Nha::HwStatsEnable => 16,
            Nha::HwStatsUsed => 17,
            Nha::UnrecognizedConst(number) => number,
        }
    }
}

impl Constant for Nha {
    type Number = u16;

    ghost wire_number = { nha_number };

    ghost wire_value = { nha_of };

    fn from_wire(number: u16) -> Nha {
        Nha::from(number)
    }

    fn to_wire(&self) -> u16 {
        u16::from(*self)
    }

    ghost back_to_number = { λ n _. Prim.search (first_with-number, rules) };
}

impl RtaType for Nha {}

/// Attributes inside [`Nha::ResGroup`], of a resilient group: `NHA_RES_GROUP_*` of
/// `linux/nexthop.h`.
#[derive(Clone, Copy, Debug, PartialEq, Eq)]
pub enum NhaResGroup {
    /// No attribute, or padding before a number of eight bytes (`NHA_RES_GROUP_PAD`).
    Unspec,
    /// How many buckets the group has.
    Buckets,
    /// How long a bucket without packets keeps its next hop, in hundredths of a second.
    IdleTimer,
    /// How long the group may be out of balance, in hundredths of a second.
    UnbalancedTimer,
    /// How long it has been out of balance, in hundredths of a second.
    UnbalancedTime,
    /// A number without a name.
    UnrecognizedConst(u16),
}

impl NhaResGroup {
    /// Whether the value is a number without a name, an `UnrecognizedConst`.
    pub fn is_unrecognized(&self) -> bool
        ensures { result ≡ nha_res_group_is_unrecognized self.now }
    {
        matches!(self, NhaResGroup::UnrecognizedConst(_))
    }
}

impl From<u16> for NhaResGroup {
    ghost from_gives = { λ number value. value ≡ nha_res_group_of number };

    fn from(number: u16) -> NhaResGroup {
        match number {
            0 => NhaResGroup::Unspec,
            1 => NhaResGroup::Buckets,
            2 => NhaResGroup::IdleTimer,
            3 => NhaResGroup::UnbalancedTimer,
            4 => NhaResGroup::UnbalancedTime,
            _ => NhaResGroup::UnrecognizedConst(number),
        }
    }
}

impl From<NhaResGroup> for u16 {
    ghost from_gives = { λ value number. number ≡ nha_res_group_number value };

    fn from(value: NhaResGroup) -> u16 {
        match value {
            NhaResGroup::Unspec => 0,
            NhaResGroup::Buckets => 1,
            NhaResGroup::IdleTimer => 2,
            NhaResGroup::UnbalancedTimer => 3,
            NhaResGroup::UnbalancedTime => 4,
            NhaResGroup::UnrecognizedConst(number) => number,
        }
    }
}

impl Constant for NhaResGroup {
    type Number = u16;

    ghost wire_number = { nha_res_group_number };

    ghost wire_value = { nha_res_group_of };

    fn from_wire(number: u16) -> NhaResGroup {
        NhaResGroup::from(number)
    }

    fn to_wire(&self) -> u16 {
        u16::from(*self)
    }

    ghost back_to_number = { λ n _. Prim.search (first_with-number, rules) };
}

impl RtaType for NhaResGroup {}

/// Attributes inside [`Nha::ResBucket`], of one bucket of a resilient group: `NHA_RES_BUCKET_*` of
/// `linux/nexthop.h`.
#[derive(Clone, Copy, Debug, PartialEq, Eq)]
pub enum NhaResBucket {
    /// No attribute, or padding before a number of eight bytes (`NHA_RES_BUCKET_PAD`).
    Unspec,
    /// The place of the bucket in its group.
    Index,
    /// How long it has had no packets, in hundredths of a second.
    IdleTime,
    /// The number of its next hop.
    NhId,
    /// A number without a name.
    UnrecognizedConst(u16),
}

impl NhaResBucket {
    /// Whether the value is a number without a name, an `UnrecognizedConst`.
    pub fn is_unrecognized(&self) -> bool
        ensures { result ≡ nha_res_bucket_is_unrecognized self.now }
    {
        matches!(self, NhaResBucket::UnrecognizedConst(_))
    }
}

impl From<u16> for NhaResBucket {
    ghost from_gives = { λ number value. value ≡ nha_res_bucket_of number };

    fn from(number: u16) -> NhaResBucket {
        match number {
            0 => NhaResBucket::Unspec,
            1 => NhaResBucket::Index,
            2 => NhaResBucket::IdleTime,
            3 => NhaResBucket::NhId,
            _ => NhaResBucket::UnrecognizedConst(number),
        }
    }
}

impl From<NhaResBucket> for u16 {
    ghost from_gives = { λ value number. number ≡ nha_res_bucket_number value };

    fn from(value: NhaResBucket) -> u16 {
        match value {
            NhaResBucket::Unspec => 0,
            NhaResBucket::Index => 1,
            NhaResBucket::IdleTime => 2,
            NhaResBucket::NhId => 3,
            NhaResBucket::UnrecognizedConst(number) => number,
        }
    }
}

impl Constant for NhaResBucket {
    type Number = u16;

    ghost wire_number = { nha_res_bucket_number };

    ghost wire_value = { nha_res_bucket_of };

    fn from_wire(number: u16) -> NhaResBucket {
        NhaResBucket::from(number)
    }

    fn to_wire(&self) -> u16 {
        u16::from(*self)
    }

    ghost back_to_number = { λ n _. Prim.search (first_with-number, rules) };
}

impl RtaType for NhaResBucket {}

/// Attributes inside [`Nha::GroupStats`], the counters of a group: `NHA_GROUP_STATS_*` of
/// `linux/nexthop.h`.
#[derive(Clone, Copy, Debug, PartialEq, Eq)]
pub enum NhaGroupStats {
    /// No attribute: 0 stands for none.
    Unspec,
    /// The counters of a member, attributes of [`NhaGroupStatsEntry`].
    Entry,
    /// A number without a name.
    UnrecognizedConst(u16),
}

impl NhaGroupStats {
    /// Whether the value is a number without a name, an `UnrecognizedConst`.
    pub fn is_unrecognized(&self) -> bool
        ensures { result ≡ nha_group_stats_is_unrecognized self.now }
    {
        matches!(self, NhaGroupStats::UnrecognizedConst(_))
    }
}

impl From<u16> for NhaGroupStats {
    ghost from_gives = { λ number value. value ≡ nha_group_stats_of number };

    fn from(number: u16) -> NhaGroupStats {
        match number {
            0 => NhaGroupStats::Unspec,
            1 => NhaGroupStats::Entry,
            _ => NhaGroupStats::UnrecognizedConst(number),
        }
    }
}

impl From<NhaGroupStats> for u16 {
    ghost from_gives = { λ value number. number ≡ nha_group_stats_number value };

    fn from(value: NhaGroupStats) -> u16 {
        match value {
            NhaGroupStats::Unspec => 0,
            NhaGroupStats::Entry => 1,
            NhaGroupStats::UnrecognizedConst(number) => number,
        }
    }
}

impl Constant for NhaGroupStats {
    type Number = u16;

    ghost wire_number = { nha_group_stats_number };

    ghost wire_value = { nha_group_stats_of };

    fn from_wire(number: u16) -> NhaGroupStats {
        NhaGroupStats::from(number)
    }

    fn to_wire(&self) -> u16 {
        u16::from(*self)
    }

    ghost back_to_number = { λ n _. Prim.search (first_with-number, rules) };
}

impl RtaType for NhaGroupStats {}

/// Attributes inside [`NhaGroupStats::Entry`], of one member of a group: `NHA_GROUP_STATS_ENTRY_*`
/// of `linux/nexthop.h`.
#[derive(Clone, Copy, Debug, PartialEq, Eq)]
pub enum NhaGroupStatsEntry {
    /// No attribute: 0 stands for none.
    Unspec,
    /// The number of the next hop.
    Id,
    /// How many packets it was chosen for.
    Packets,
    /// How many of them the hardware forwarded.
    PacketsHw,
    /// A number without a name.
    UnrecognizedConst(u16),
}

impl NhaGroupStatsEntry {
    /// Whether the value is a number without a name, an `UnrecognizedConst`.
    pub fn is_unrecognized(&self) -> bool
        ensures { result ≡ nha_group_stats_entry_is_unrecognized self.now }
    {
        matches!(self, NhaGroupStatsEntry::UnrecognizedConst(_))
    }
}

impl From<u16> for NhaGroupStatsEntry {
    ghost from_gives = { λ number value. value ≡ nha_group_stats_entry_of number };

    fn from(number: u16) -> NhaGroupStatsEntry {
        match number {
            0 => NhaGroupStatsEntry::Unspec,
            1 => NhaGroupStatsEntry::Id,
            2 => NhaGroupStatsEntry::Packets,
            3 => NhaGroupStatsEntry::PacketsHw,
            _ => NhaGroupStatsEntry::UnrecognizedConst(number),
        }
    }
}

impl From<NhaGroupStatsEntry> for u16 {
    ghost from_gives = { λ value number. number ≡ nha_group_stats_entry_number value };

    fn from(value: NhaGroupStatsEntry) -> u16 {
        match value {
            NhaGroupStatsEntry::Unspec => 0,
            NhaGroupStatsEntry::Id => 1,
            NhaGroupStatsEntry::Packets => 2,
            NhaGroupStatsEntry::PacketsHw => 3,
            NhaGroupStatsEntry::UnrecognizedConst(number) => number,
        }
    }
}

impl Constant for NhaGroupStatsEntry {
    type Number = u16;

    ghost wire_number = { nha_group_stats_entry_number };

    ghost wire_value = { nha_group_stats_entry_of };

    fn from_wire(number: u16) -> NhaGroupStatsEntry {
        NhaGroupStatsEntry::from(number)
    }

    fn to_wire(&self) -> u16 {
        u16::from(*self)
    }

    ghost back_to_number = { λ n _. Prim.search (first_with-number, rules) };
}

impl RtaType for NhaGroupStatsEntry {}

/// The value of [`Nha::GroupType`], a kind of group: `NEXTHOP_GRP_TYPE_*` of `linux/nexthop.h`.
#[derive(Clone, Copy, Debug, PartialEq, Eq)]
pub enum NexthopGrpType {
    /// A flow chooses its next hop by its hash.
    Mpath,
    /// A resilient group: flows stay where they are when the group changes.
    Res,
    /// A number without a name.
    UnrecognizedConst(u16),
}

impl NexthopGrpType {
    /// Whether the value is a number without a name, an `UnrecognizedConst`.
    pub fn is_unrecognized(&self) -> bool
        ensures { result ≡ nexthop_grp_type_is_unrecognized self.now }
    {
        matches!(self, NexthopGrpType::UnrecognizedConst(_))
    }
}

impl From<u16> for NexthopGrpType {
    ghost from_gives = { λ number value. value ≡ nexthop_grp_type_of number };

    fn from(number: u16) -> NexthopGrpType {
        match number {
            0 => NexthopGrpType::Mpath,
            1 => NexthopGrpType::Res,
            _ => NexthopGrpType::UnrecognizedConst(number),
        }
    }
}

impl From<NexthopGrpType> for u16 {
    ghost from_gives = { λ value number. number ≡ nexthop_grp_type_number value };

    fn from(value: NexthopGrpType) -> u16 {
        match value {
            NexthopGrpType::Mpath => 0,
            NexthopGrpType::Res => 1,
            NexthopGrpType::UnrecognizedConst(number) => number,
        }
    }
}

impl Constant for NexthopGrpType {
    type Number = u16;

    ghost wire_number = { nexthop_grp_type_number };

    ghost wire_value = { nexthop_grp_type_of };

    fn from_wire(number: u16) -> NexthopGrpType {
        NexthopGrpType::from(number)
    }

    fn to_wire(&self) -> u16 {
        u16::from(*self)
    }

    ghost back_to_number = { λ n _. Prim.search (first_with-number, rules) };
}
