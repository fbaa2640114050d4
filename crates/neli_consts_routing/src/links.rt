//! Kinds of link.

ghost use Rattle.std.proofs.Common.{rules};
ghost use Rattle.std.specs.Prelude.{◌≡◌};
ghost use Rattle.neli_consts_routing.specs.Arphrd.{arphrd_number, arphrd_of, arphrd_is_unrecognized};
ghost use Rattle.neli_wire.specs.laws.Constants.{first_with-number};

use neli_wire::Constant;

/// Kinds of link, by their hardware addresses: `ARPHRD_*` of `linux/if_arp.h`.
#[derive(Clone, Copy, Debug, PartialEq, Eq)]
pub enum Arphrd {
    /// NET/ROM, a network of amateur radio.
    Netrom,
    /// Ethernet.
    Ether,
    /// Experimental Ethernet.
    Eether,
    /// AX.25, of amateur radio.
    AX25,
    /// PROnet token ring.
    Pronet,
    /// Chaosnet.
    Chaos,
    /// IEEE 802.2 Ethernet, token ring or token bus.
    Ieee802,
    /// ARCNET.
    Arcnet,
    /// AppleTalk.
    Appletlk,
    /// Frame relay.
    Dlci,
    /// The number of [`Arphrd::Appletlk`], so 8 is read as that variant. The kernel's own is 19.
    Atm,
    /// Metricom's radio (STRIP).
    Metricom,
    /// IEEE 1394, FireWire.
    Ieee1394,
    /// EUI-64.
    Eui64,
    /// InfiniBand.
    Infiniband,
    /// The loopback link.
    Loopback,
    /// The kind is unknown.
    Void,
    /// There is no hardware address.
    None,
    /// A number without a name.
    UnrecognizedConst(u16),
}

impl Arphrd {
    /// Whether the value is a number without a name, an `UnrecognizedConst`.
    pub fn is_unrecognized(&self) -> bool
        ensures { result ≡ arphrd_is_unrecognized self.now }
    {
        matches!(self, Arphrd::UnrecognizedConst(_))
    }
}

impl From<u16> for Arphrd {
    ghost from_gives = { λ number value. value ≡ arphrd_of number };

    fn from(number: u16) -> Arphrd {
        match number {
            0 => Arphrd::Netrom,
            1 => Arphrd::Ether,
            2 => Arphrd::Eether,
            3 => Arphrd::AX25,
            4 => Arphrd::Pronet,
            5 => Arphrd::Chaos,
            6 => Arphrd::Ieee802,
            7 => Arphrd::Arcnet,
            8 => Arphrd::Appletlk,
            15 => Arphrd::Dlci,
            23 => Arphrd::Metricom,
            24 => Arphrd::Ieee1394,
            27 => Arphrd::Eui64,
            32 => Arphrd::Infiniband,
            772 => Arphrd::Loopback,
            65535 => Arphrd::Void,
            65534 => Arphrd::None,
            _ => Arphrd::UnrecognizedConst(number),
        }
    }
}

impl From<Arphrd> for u16 {
    ghost from_gives = { λ value number. number ≡ arphrd_number value };

    fn from(value: Arphrd) -> u16 {
        match value {
            Arphrd::Netrom => 0,
            Arphrd::Ether => 1,
            Arphrd::Eether => 2,
            Arphrd::AX25 => 3,
            Arphrd::Pronet => 4,
            Arphrd::Chaos => 5,
            Arphrd::Ieee802 => 6,
            Arphrd::Arcnet => 7,
            Arphrd::Appletlk => 8,
            Arphrd::Dlci => 15,
            Arphrd::Atm => 8,
            Arphrd::Metricom => 23,
            Arphrd::Ieee1394 => 24,
            Arphrd::Eui64 => 27,
            Arphrd::Infiniband => 32,
            Arphrd::Loopback => 772,
            Arphrd::Void => 65535,
            Arphrd::None => 65534,
            Arphrd::UnrecognizedConst(number) => number,
        }
    }
}

impl From<&Arphrd> for u16 {
    ghost from_gives = { λ value number. number ≡ arphrd_number value.now };

    fn from(value: &Arphrd) -> u16 {
        u16::from(*value)
    }
}

impl Constant for Arphrd {
    type Number = u16;

    ghost wire_number = { arphrd_number };

    ghost wire_value = { arphrd_of };

    fn from_wire(number: u16) -> Arphrd {
        Arphrd::from(number)
    }

    fn to_wire(&self) -> u16 {
        u16::from(self)
    }

    ghost back_to_number = { λ n _. Prim.search (first_with-number, rules) };
}
