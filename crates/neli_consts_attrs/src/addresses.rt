//! Attributes of addresses.

ghost use Rattle.std.proofs.Common.{rules};
ghost use Rattle.std.specs.Prelude.{◌≡◌};
ghost use Rattle.neli_consts_attrs.specs.Ifa.{ifa_number, ifa_of, ifa_is_unrecognized};
ghost use Rattle.neli_wire.specs.laws.Constants.{first_with-number};

use neli_wire::Constant;

/// Attributes of an address: `IFA_*` of `linux/if_addr.h`.
#[derive(Clone, Copy, Debug, PartialEq, Eq)]
pub enum Ifa {
    /// No attribute: 0 stands for none.
    Unspec,
    /// The address; on a link between two hosts that of the other end.
    Address,
    /// The address of this end.
    Local,
    /// The name of the link, as it is shown with the address.
    Label,
    /// The address of broadcasts.
    Broadcast,
    /// The anycast address.
    Anycast,
    /// How long it is preferred and valid.
    Cacheinfo,
    /// The multicast address.
    Multicast,
    /// The flags, in four bytes.
    Flags,
    /// A number without a name.
    UnrecognizedConst(u16),
}

impl Ifa {
    /// Whether the value is a number without a name, an `UnrecognizedConst`.
    pub fn is_unrecognized(&self) -> bool
        ensures { result ≡ ifa_is_unrecognized self.now }
    {
        matches!(self, Ifa::UnrecognizedConst(_))
    }
}

impl From<u16> for Ifa {
    ghost from_gives = { λ number value. value ≡ ifa_of number };

    fn from(number: u16) -> Ifa {
        match number {
            0 => Ifa::Unspec,
            1 => Ifa::Address,
            2 => Ifa::Local,
            3 => Ifa::Label,
            4 => Ifa::Broadcast,
            5 => Ifa::Anycast,
            6 => Ifa::Cacheinfo,
            7 => Ifa::Multicast,
            8 => Ifa::Flags,
            _ => Ifa::UnrecognizedConst(number),
        }
    }
}

impl From<Ifa> for u16 {
    ghost from_gives = { λ value number. number ≡ ifa_number value };

    fn from(value: Ifa) -> u16 {
        match value {
            Ifa::Unspec => 0,
            Ifa::Address => 1,
            Ifa::Local => 2,
            Ifa::Label => 3,
            Ifa::Broadcast => 4,
            Ifa::Anycast => 5,
            Ifa::Cacheinfo => 6,
            Ifa::Multicast => 7,
            Ifa::Flags => 8,
            Ifa::UnrecognizedConst(number) => number,
        }
    }
}

impl From<&Ifa> for u16 {
    ghost from_gives = { λ value number. number ≡ ifa_number value.now };

    fn from(value: &Ifa) -> u16 {
        u16::from(*value)
    }
}

impl Constant for Ifa {
    type Number = u16;

    ghost wire_number = { ifa_number };

    ghost wire_value = { ifa_of };

    fn from_wire(number: u16) -> Ifa {
        Ifa::from(number)
    }

    fn to_wire(&self) -> u16 {
        u16::from(self)
    }

    ghost back_to_number = { λ n _. Prim.search (first_with-number, rules) };
}
