//! Virtual functions of a link.

ghost use Rattle.std.proofs.Common.{rules};
ghost use Rattle.std.specs.Prelude.{◌≡◌};
ghost use Rattle.neli_consts_linux.specs.IflaVf.{ifla_vf_number, ifla_vf_of, ifla_vf_is_unrecognized};
ghost use Rattle.neli_wire.specs.laws.Constants.{first_with-number};

use neli_consts_attrs::RtaType;
use neli_wire::Constant;

/// Attributes of a virtual function, inside each attribute of number 1 (`IFLA_VF_INFO`) in
/// [`Ifla::VfinfoList`](neli_consts_attrs::Ifla::VfinfoList): `IFLA_VF_*` of `linux/if_link.h`. The types named here
/// are those of `neli_payloads`.
#[derive(Clone, Copy, Debug, PartialEq, Eq)]
pub enum IflaVf {
    /// No attribute: 0 stands for none.
    Unspec,
    /// The hardware address, a `VfMac`.
    Mac,
    /// The VLAN, a `VfVlan`.
    Vlan,
    /// The greatest rate that it may send at, a `VfSetting`.
    TxRate,
    /// Whether the source addresses of its frames are checked, a `VfSetting`.
    Spoofchk,
    /// The state of its link, a `VfSetting`.
    LinkState,
    /// The rates that it may send at, a `VfRate`.
    Rate,
    /// Whether it may ask how receive queues are chosen, a `VfSetting`.
    RssQueryEn,
    /// Counters: attributes of `IFLA_VF_STATS_*`, each a number of 64 bits.
    Stats,
    /// Whether it is trusted, a `VfSetting`.
    Trust,
    /// The InfiniBand identity of its node, a `VfGuid`.
    IbNodeGuid,
    /// The InfiniBand identity of its port, a `VfGuid`.
    IbPortGuid,
    /// Its VLANs with their protocols: attributes of number 1, a `VfVlanInfo` each.
    VlanList,
    /// The broadcast address, 32 bytes: a `HardwareAddress`.
    Broadcast,
    /// A number without a name.
    UnrecognizedConst(u16),
}

impl IflaVf {
    /// Whether the value is a number without a name, an `UnrecognizedConst`.
    pub fn is_unrecognized(&self) -> bool
        ensures { result ≡ ifla_vf_is_unrecognized self.now }
    {
        matches!(self, IflaVf::UnrecognizedConst(_))
    }
}

impl From<u16> for IflaVf {
    ghost from_gives = { λ number value. value ≡ ifla_vf_of number };

    fn from(number: u16) -> IflaVf {
        match number {
            0 => IflaVf::Unspec,
            1 => IflaVf::Mac,
            2 => IflaVf::Vlan,
            3 => IflaVf::TxRate,
            4 => IflaVf::Spoofchk,
            5 => IflaVf::LinkState,
            6 => IflaVf::Rate,
            7 => IflaVf::RssQueryEn,
            8 => IflaVf::Stats,
            9 => IflaVf::Trust,
            10 => IflaVf::IbNodeGuid,
            11 => IflaVf::IbPortGuid,
            12 => IflaVf::VlanList,
            13 => IflaVf::Broadcast,
            _ => IflaVf::UnrecognizedConst(number),
        }
    }
}

impl From<IflaVf> for u16 {
    ghost from_gives = { λ value number. number ≡ ifla_vf_number value };

    fn from(value: IflaVf) -> u16 {
        match value {
            IflaVf::Unspec => 0,
            IflaVf::Mac => 1,
            IflaVf::Vlan => 2,
            IflaVf::TxRate => 3,
            IflaVf::Spoofchk => 4,
            IflaVf::LinkState => 5,
            IflaVf::Rate => 6,
            IflaVf::RssQueryEn => 7,
            IflaVf::Stats => 8,
            IflaVf::Trust => 9,
            IflaVf::IbNodeGuid => 10,
            IflaVf::IbPortGuid => 11,
            IflaVf::VlanList => 12,
            IflaVf::Broadcast => 13,
            IflaVf::UnrecognizedConst(number) => number,
        }
    }
}

impl Constant for IflaVf {
    type Number = u16;

    ghost wire_number = { ifla_vf_number };

    ghost wire_value = { ifla_vf_of };

    fn from_wire(number: u16) -> IflaVf {
        IflaVf::from(number)
    }

    fn to_wire(&self) -> u16 {
        u16::from(*self)
    }

    ghost back_to_number = { λ n _. Prim.search (first_with-number, rules) };
}

impl RtaType for IflaVf {}
