//! Address families.

ghost use Rattle.std.proofs.Common.{rules};
ghost use Rattle.std.specs.Prelude.{◌≡◌};
ghost use Rattle.neli_consts_routing.specs.Af.{af_number, af_of, af_is_unrecognized};
ghost use Rattle.neli_consts_routing.specs.RtAddrFamily.{rt_addr_family_number, rt_addr_family_of};
ghost use Rattle.neli_consts_routing.specs.RtAddrFamily.{rt_addr_family_is_unrecognized};
ghost use Rattle.neli_wire.specs.laws.Constants.{first_with-number};

use neli_wire::Constant;

/// The internet's address families: `AF_INET` and `AF_INET6` of `linux/socket.h`.
#[derive(Clone, Copy, Debug, PartialEq, Eq)]
pub enum Af {
    /// Version 4.
    Inet,
    /// Version 6.
    Inet6,
    /// A number without a name.
    UnrecognizedConst(u8),
}

impl Af {
    /// Whether the value is a number without a name, an `UnrecognizedConst`.
    pub fn is_unrecognized(&self) -> bool
        ensures { result ≡ af_is_unrecognized self.now }
    {
        matches!(self, Af::UnrecognizedConst(_))
    }
}

impl From<u8> for Af {
    ghost from_gives = { λ number value. value ≡ af_of number };

    fn from(number: u8) -> Af {
        match number {
            2 => Af::Inet,
            10 => Af::Inet6,
            _ => Af::UnrecognizedConst(number),
        }
    }
}

impl From<Af> for u8 {
    ghost from_gives = { λ value number. number ≡ af_number value };

    fn from(value: Af) -> u8 {
        match value {
            Af::Inet => 2,
            Af::Inet6 => 10,
            Af::UnrecognizedConst(number) => number,
        }
    }
}

impl From<&Af> for u8 {
    ghost from_gives = { λ value number. number ≡ af_number value.now };

    fn from(value: &Af) -> u8 {
        u8::from(*value)
    }
}

impl Constant for Af {
    type Number = u8;

    ghost wire_number = { af_number };

    ghost wire_value = { af_of };

    fn from_wire(number: u8) -> Af {
        Af::from(number)
    }

    fn to_wire(&self) -> u8 {
        u8::from(self)
    }

    ghost back_to_number = { λ n _. Prim.search (first_with-number, rules) };
}

/// Address families, as the first byte of a routing body carries them: `AF_*` of `linux/socket.h`.
#[derive(Clone, Copy, Debug, PartialEq, Eq)]
pub enum RtAddrFamily {
    /// Every family, in a dump request.
    Unspecified,
    /// Within the host.
    UnixOrLocal,
    /// Version 4 of the internet protocol.
    Inet,
    /// Version 6 of the internet protocol.
    Inet6,
    /// IPX.
    Ipx,
    /// Netlink.
    Netlink,
    /// X.25.
    X25,
    /// AX.25, of amateur radio.
    Ax25,
    /// Permanent virtual circuits of ATM.
    Atmpvc,
    /// AppleTalk.
    Appletalk,
    /// Frames as they are on the link.
    Packet,
    /// The kernel's cipher and digest functions.
    Alg,
    /// A number without a name.
    UnrecognizedConst(u8),
}

impl RtAddrFamily {
    /// Whether the value is a number without a name, an `UnrecognizedConst`.
    pub fn is_unrecognized(&self) -> bool
        ensures { result ≡ rt_addr_family_is_unrecognized self.now }
    {
        matches!(self, RtAddrFamily::UnrecognizedConst(_))
    }
}

impl From<u8> for RtAddrFamily {
    ghost from_gives = { λ number value. value ≡ rt_addr_family_of number };

    fn from(number: u8) -> RtAddrFamily {
        match number {
            0 => RtAddrFamily::Unspecified,
            1 => RtAddrFamily::UnixOrLocal,
            2 => RtAddrFamily::Inet,
            10 => RtAddrFamily::Inet6,
            4 => RtAddrFamily::Ipx,
            16 => RtAddrFamily::Netlink,
            9 => RtAddrFamily::X25,
            3 => RtAddrFamily::Ax25,
            8 => RtAddrFamily::Atmpvc,
            5 => RtAddrFamily::Appletalk,
            17 => RtAddrFamily::Packet,
            38 => RtAddrFamily::Alg,
            _ => RtAddrFamily::UnrecognizedConst(number),
        }
    }
}

impl From<RtAddrFamily> for u8 {
    ghost from_gives = { λ value number. number ≡ rt_addr_family_number value };

    fn from(value: RtAddrFamily) -> u8 {
        match value {
            RtAddrFamily::Unspecified => 0,
            RtAddrFamily::UnixOrLocal => 1,
            RtAddrFamily::Inet => 2,
            RtAddrFamily::Inet6 => 10,
            RtAddrFamily::Ipx => 4,
            RtAddrFamily::Netlink => 16,
            RtAddrFamily::X25 => 9,
            RtAddrFamily::Ax25 => 3,
            RtAddrFamily::Atmpvc => 8,
            RtAddrFamily::Appletalk => 5,
            RtAddrFamily::Packet => 17,
            RtAddrFamily::Alg => 38,
            RtAddrFamily::UnrecognizedConst(number) => number,
        }
    }
}

impl From<&RtAddrFamily> for u8 {
    ghost from_gives = { λ value number. number ≡ rt_addr_family_number value.now };

    fn from(value: &RtAddrFamily) -> u8 {
        u8::from(*value)
    }
}

impl Constant for RtAddrFamily {
    type Number = u8;

    ghost wire_number = { rt_addr_family_number };

    ghost wire_value = { rt_addr_family_of };

    fn from_wire(number: u8) -> RtAddrFamily {
        RtAddrFamily::from(number)
    }

    fn to_wire(&self) -> u8 {
        u8::from(self)
    }

    ghost back_to_number = { λ n _. Prim.search (first_with-number, rules) };
}
