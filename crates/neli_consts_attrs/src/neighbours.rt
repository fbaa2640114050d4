//! Attributes of neighbours.

ghost use Rattle.std.proofs.Common.{rules};
ghost use Rattle.std.specs.Prelude.{◌≡◌};
ghost use Rattle.neli_consts_attrs.specs.Nda.{nda_number, nda_of, nda_is_unrecognized};
ghost use Rattle.neli_wire.specs.laws.Constants.{first_with-number};

use neli_wire::Constant;

/// Attributes of a neighbour: `NDA_*` of `linux/neighbour.h`.
#[derive(Clone, Copy, Debug, PartialEq, Eq)]
pub enum Nda {
    /// No attribute: 0 stands for none.
    Unspec,
    /// Its address on the network.
    Dst,
    /// Its address on the link.
    Lladdr,
    /// The times of its confirmation, use and update, and its number of references.
    Cacheinfo,
    /// How many probes it was sent.
    Probes,
    /// The virtual LAN.
    Vlan,
    /// The port of a tunnel's other end (VXLAN).
    Port,
    /// The network of a tunnel (VXLAN).
    Vni,
    /// The index of a tunnel's output link (VXLAN).
    Ifindex,
    /// The index of the link's master.
    Master,
    /// The network namespace of that link.
    LinkNetnsid,
    /// The network that the entry belongs to (VXLAN).
    SrcVni,
    /// A number without a name.
    UnrecognizedConst(u16),
}

impl Nda {
    /// Whether the value is a number without a name, an `UnrecognizedConst`.
    pub fn is_unrecognized(&self) -> bool
        ensures { result ≡ nda_is_unrecognized self.now }
    {
        matches!(self, Nda::UnrecognizedConst(_))
    }
}

impl From<u16> for Nda {
    ghost from_gives = { λ number value. value ≡ nda_of number };

    fn from(number: u16) -> Nda {
        match number {
            0 => Nda::Unspec,
            1 => Nda::Dst,
            2 => Nda::Lladdr,
            3 => Nda::Cacheinfo,
            4 => Nda::Probes,
            5 => Nda::Vlan,
            6 => Nda::Port,
            7 => Nda::Vni,
            8 => Nda::Ifindex,
            9 => Nda::Master,
            10 => Nda::LinkNetnsid,
            11 => Nda::SrcVni,
            _ => Nda::UnrecognizedConst(number),
        }
    }
}

impl From<Nda> for u16 {
    ghost from_gives = { λ value number. number ≡ nda_number value };

    fn from(value: Nda) -> u16 {
        match value {
            Nda::Unspec => 0,
            Nda::Dst => 1,
            Nda::Lladdr => 2,
            Nda::Cacheinfo => 3,
            Nda::Probes => 4,
            Nda::Vlan => 5,
            Nda::Port => 6,
            Nda::Vni => 7,
            Nda::Ifindex => 8,
            Nda::Master => 9,
            Nda::LinkNetnsid => 10,
            Nda::SrcVni => 11,
            Nda::UnrecognizedConst(number) => number,
        }
    }
}

impl From<&Nda> for u16 {
    ghost from_gives = { λ value number. number ≡ nda_number value.now };

    fn from(value: &Nda) -> u16 {
        u16::from(*value)
    }
}

impl Constant for Nda {
    type Number = u16;

    ghost wire_number = { nda_number };

    ghost wire_value = { nda_of };

    fn from_wire(number: u16) -> Nda {
        Nda::from(number)
    }

    fn to_wire(&self) -> u16 {
        u16::from(self)
    }

    ghost back_to_number = { λ n _. Prim.search (first_with-number, rules) };
}
