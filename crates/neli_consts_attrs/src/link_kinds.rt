//! Attributes of a kind of link, inside those of links.

ghost use Rattle.std.proofs.Common.{rules};
ghost use Rattle.std.specs.Prelude.{◌≡◌};
ghost use Rattle.neli_consts_attrs.specs.IflaInfo.{ifla_info_number, ifla_info_of, ifla_info_is_unrecognized};
ghost use Rattle.neli_consts_attrs.specs.IflaVlan.{ifla_vlan_number, ifla_vlan_of, ifla_vlan_is_unrecognized};
ghost use Rattle.neli_consts_attrs.specs.IflaVlanQos.{ifla_vlan_qos_number, ifla_vlan_qos_of};
ghost use Rattle.neli_consts_attrs.specs.IflaVlanQos.{ifla_vlan_qos_is_unrecognized};
ghost use Rattle.neli_wire.specs.laws.Constants.{first_with-number};

use neli_wire::Constant;

/// Attributes inside [`Ifla::Linkinfo`]: `IFLA_INFO_*` of `linux/if_link.h`.
#[derive(Clone, Copy, Debug, PartialEq, Eq)]
pub enum IflaInfo {
    /// No attribute: 0 stands for none.
    Unspec,
    /// The kind of link, by name, as `vlan`.
    Kind,
    /// The attributes of that kind.
    Data,
    /// The counters of that kind.
    Xstats,
    /// The kind of its master.
    SlaveKind,
    /// The attributes that the master's kind keeps for the link.
    SlaveData,
    /// A number without a name.
    UnrecognizedConst(u16),
}

impl IflaInfo {
    /// Whether the value is a number without a name, an `UnrecognizedConst`.
    pub fn is_unrecognized(&self) -> bool
        ensures { result ≡ ifla_info_is_unrecognized self.now }
    {
        matches!(self, IflaInfo::UnrecognizedConst(_))
    }
}

impl From<u16> for IflaInfo {
    ghost from_gives = { λ number value. value ≡ ifla_info_of number };

    fn from(number: u16) -> IflaInfo {
        match number {
            0 => IflaInfo::Unspec,
            1 => IflaInfo::Kind,
            2 => IflaInfo::Data,
            3 => IflaInfo::Xstats,
            4 => IflaInfo::SlaveKind,
            5 => IflaInfo::SlaveData,
            _ => IflaInfo::UnrecognizedConst(number),
        }
    }
}

impl From<IflaInfo> for u16 {
    ghost from_gives = { λ value number. number ≡ ifla_info_number value };

    fn from(value: IflaInfo) -> u16 {
        match value {
            IflaInfo::Unspec => 0,
            IflaInfo::Kind => 1,
            IflaInfo::Data => 2,
            IflaInfo::Xstats => 3,
            IflaInfo::SlaveKind => 4,
            IflaInfo::SlaveData => 5,
            IflaInfo::UnrecognizedConst(number) => number,
        }
    }
}

impl From<&IflaInfo> for u16 {
    ghost from_gives = { λ value number. number ≡ ifla_info_number value.now };

    fn from(value: &IflaInfo) -> u16 {
        u16::from(*value)
    }
}

impl Constant for IflaInfo {
    type Number = u16;

    ghost wire_number = { ifla_info_number };

    ghost wire_value = { ifla_info_of };

    fn from_wire(number: u16) -> IflaInfo {
        IflaInfo::from(number)
    }

    fn to_wire(&self) -> u16 {
        u16::from(self)
    }

    ghost back_to_number = { λ n _. Prim.search (first_with-number, rules) };
}

/// Attributes inside [`IflaInfo::Data`] of a virtual LAN: `IFLA_VLAN_*` of `linux/if_link.h`.
#[derive(Clone, Copy, Debug, PartialEq, Eq)]
pub enum IflaVlan {
    /// No attribute: 0 stands for none.
    Unspec,
    /// The number of the virtual LAN.
    Id,
    /// A value and a mask of flags.
    Flags,
    /// Attributes of [`IflaVlanQos`], for outgoing packets.
    EgressQos,
    /// Attributes of [`IflaVlanQos`], for incoming packets.
    IngressQos,
    /// The type of Ethernet frame that carries the tag.
    Protocol,
    /// A number without a name.
    UnrecognizedConst(u16),
}

impl IflaVlan {
    /// Whether the value is a number without a name, an `UnrecognizedConst`.
    pub fn is_unrecognized(&self) -> bool
        ensures { result ≡ ifla_vlan_is_unrecognized self.now }
    {
        matches!(self, IflaVlan::UnrecognizedConst(_))
    }
}

impl From<u16> for IflaVlan {
    ghost from_gives = { λ number value. value ≡ ifla_vlan_of number };

    fn from(number: u16) -> IflaVlan {
        match number {
            0 => IflaVlan::Unspec,
            1 => IflaVlan::Id,
            2 => IflaVlan::Flags,
            3 => IflaVlan::EgressQos,
            4 => IflaVlan::IngressQos,
            5 => IflaVlan::Protocol,
            _ => IflaVlan::UnrecognizedConst(number),
        }
    }
}

impl From<IflaVlan> for u16 {
    ghost from_gives = { λ value number. number ≡ ifla_vlan_number value };

    fn from(value: IflaVlan) -> u16 {
        match value {
            IflaVlan::Unspec => 0,
            IflaVlan::Id => 1,
            IflaVlan::Flags => 2,
            IflaVlan::EgressQos => 3,
            IflaVlan::IngressQos => 4,
            IflaVlan::Protocol => 5,
            IflaVlan::UnrecognizedConst(number) => number,
        }
    }
}

impl From<&IflaVlan> for u16 {
    ghost from_gives = { λ value number. number ≡ ifla_vlan_number value.now };

    fn from(value: &IflaVlan) -> u16 {
        u16::from(*value)
    }
}

impl Constant for IflaVlan {
    type Number = u16;

    ghost wire_number = { ifla_vlan_number };

    ghost wire_value = { ifla_vlan_of };

    fn from_wire(number: u16) -> IflaVlan {
        IflaVlan::from(number)
    }

    fn to_wire(&self) -> u16 {
        u16::from(self)
    }

    ghost back_to_number = { λ n _. Prim.search (first_with-number, rules) };
}

/// Attributes inside [`IflaVlan::EgressQos`] and [`IflaVlan::IngressQos`]: `IFLA_VLAN_QOS_*` of
/// `linux/if_link.h`.
#[derive(Clone, Copy, Debug, PartialEq, Eq)]
pub enum IflaVlanQos {
    /// No attribute: 0 stands for none.
    Unspec,
    /// A priority and the one that it becomes.
    Mapping,
    /// A number without a name.
    UnrecognizedConst(u16),
}

impl IflaVlanQos {
    /// Whether the value is a number without a name, an `UnrecognizedConst`.
    pub fn is_unrecognized(&self) -> bool
        ensures { result ≡ ifla_vlan_qos_is_unrecognized self.now }
    {
        matches!(self, IflaVlanQos::UnrecognizedConst(_))
    }
}

impl From<u16> for IflaVlanQos {
    ghost from_gives = { λ number value. value ≡ ifla_vlan_qos_of number };

    fn from(number: u16) -> IflaVlanQos {
        match number {
            0 => IflaVlanQos::Unspec,
            1 => IflaVlanQos::Mapping,
            _ => IflaVlanQos::UnrecognizedConst(number),
        }
    }
}

impl From<IflaVlanQos> for u16 {
    ghost from_gives = { λ value number. number ≡ ifla_vlan_qos_number value };

    fn from(value: IflaVlanQos) -> u16 {
        match value {
            IflaVlanQos::Unspec => 0,
            IflaVlanQos::Mapping => 1,
            IflaVlanQos::UnrecognizedConst(number) => number,
        }
    }
}

impl From<&IflaVlanQos> for u16 {
    ghost from_gives = { λ value number. number ≡ ifla_vlan_qos_number value.now };

    fn from(value: &IflaVlanQos) -> u16 {
        u16::from(*value)
    }
}

impl Constant for IflaVlanQos {
    type Number = u16;

    ghost wire_number = { ifla_vlan_qos_number };

    ghost wire_value = { ifla_vlan_qos_of };

    fn from_wire(number: u16) -> IflaVlanQos {
        IflaVlanQos::from(number)
    }

    fn to_wire(&self) -> u16 {
        u16::from(self)
    }

    ghost back_to_number = { λ n _. Prim.search (first_with-number, rules) };
}
