//! Numbers of control messages.

ghost use Rattle.std.proofs.Common.{rules};
ghost use Rattle.std.specs.Prelude.{◌≡◌};
ghost use Rattle.neli_consts.specs.Nlmsg.{nlmsg_number, nlmsg_of, nlmsg_is_unrecognized};
ghost use Rattle.neli_consts.specs.NlmsgerrAttr.{nlmsgerr_attr_number, nlmsgerr_attr_of, nlmsgerr_attr_is_unrecognized};
ghost use Rattle.neli_wire.specs.laws.Constants.{first_with-number};

use neli_wire::Constant;

/// The number of [`Nlmsg::Noop`].
pub const NLMSG_NOOP: u16 = 1;

/// The number of [`Nlmsg::Error`].
pub const NLMSG_ERROR: u16 = 2;

/// The number of [`Nlmsg::Done`].
pub const NLMSG_DONE: u16 = 3;

/// The number of [`Nlmsg::Overrun`].
pub const NLMSG_OVERRUN: u16 = 4;

/// Types of control messages, which every netlink protocol has: `NLMSG_*` of `linux/netlink.h` (RFC
/// 3549, section 2.3.2).
#[derive(Clone, Copy, Debug, PartialEq, Eq)]
pub enum Nlmsg {
    /// To be skipped.
    Noop,
    /// The answer to a request: an acknowledgement where its code is 0.
    Error,
    /// The end of an answer in several messages.
    Done,
    /// Messages were lost.
    Overrun,
    /// A number without a name.
    UnrecognizedConst(u16),
}

impl Nlmsg {
    /// Whether the value is a number without a name, an `UnrecognizedConst`.
    pub fn is_unrecognized(&self) -> bool
        ensures { result ≡ nlmsg_is_unrecognized self.now }
    {
        matches!(self, Nlmsg::UnrecognizedConst(_))
    }
}

impl From<u16> for Nlmsg {
    ghost from_gives = { λ number value. value ≡ nlmsg_of number };

    fn from(number: u16) -> Nlmsg {
        match number {
            NLMSG_NOOP => Nlmsg::Noop,
            NLMSG_ERROR => Nlmsg::Error,
            NLMSG_DONE => Nlmsg::Done,
            NLMSG_OVERRUN => Nlmsg::Overrun,
            _ => Nlmsg::UnrecognizedConst(number),
        }
    }
}

impl From<Nlmsg> for u16 {
    ghost from_gives = { λ value number. number ≡ nlmsg_number value };

    fn from(value: Nlmsg) -> u16 {
        match value {
            Nlmsg::Noop => NLMSG_NOOP,
            Nlmsg::Error => NLMSG_ERROR,
            Nlmsg::Done => NLMSG_DONE,
            Nlmsg::Overrun => NLMSG_OVERRUN,
            Nlmsg::UnrecognizedConst(number) => number,
        }
    }
}

impl From<&Nlmsg> for u16 {
    ghost from_gives = { λ value number. number ≡ nlmsg_number value.now };

    fn from(value: &Nlmsg) -> u16 {
        u16::from(*value)
    }
}

impl Constant for Nlmsg {
    type Number = u16;

    ghost wire_number = { nlmsg_number };

    ghost wire_value = { nlmsg_of };

    fn from_wire(number: u16) -> Nlmsg {
        Nlmsg::from(number)
    }

    fn to_wire(&self) -> u16 {
        u16::from(self)
    }

    ghost back_to_number = { λ n _. Prim.search (first_with-number, rules) };
}

/// Attributes of an error or an acknowledgement: `NLMSGERR_ATTR_*` of `linux/netlink.h`.
#[derive(Clone, Copy, Debug, PartialEq, Eq)]
pub enum NlmsgerrAttr {
    /// No attribute: 0 stands for none.
    Unused,
    /// A text that says what was wrong, with a zero at its end.
    Msg,
    /// The place of the error in the request, in bytes, counted from the request's header.
    Offset,
    /// Bytes of the protocol, in an acknowledgement.
    Cookie,
    /// What the kernel would have accepted there.
    Policy,
    /// A number without a name.
    UnrecognizedConst(u16),
}

impl NlmsgerrAttr {
    /// Whether the value is a number without a name, an `UnrecognizedConst`.
    pub fn is_unrecognized(&self) -> bool
        ensures { result ≡ nlmsgerr_attr_is_unrecognized self.now }
    {
        matches!(self, NlmsgerrAttr::UnrecognizedConst(_))
    }
}

impl From<u16> for NlmsgerrAttr {
    ghost from_gives = { λ number value. value ≡ nlmsgerr_attr_of number };

    fn from(number: u16) -> NlmsgerrAttr {
        match number {
            0 => NlmsgerrAttr::Unused,
            1 => NlmsgerrAttr::Msg,
            2 => NlmsgerrAttr::Offset,
            3 => NlmsgerrAttr::Cookie,
            4 => NlmsgerrAttr::Policy,
            _ => NlmsgerrAttr::UnrecognizedConst(number),
        }
    }
}

impl From<NlmsgerrAttr> for u16 {
    ghost from_gives = { λ value number. number ≡ nlmsgerr_attr_number value };

    fn from(value: NlmsgerrAttr) -> u16 {
        match value {
            NlmsgerrAttr::Unused => 0,
            NlmsgerrAttr::Msg => 1,
            NlmsgerrAttr::Offset => 2,
            NlmsgerrAttr::Cookie => 3,
            NlmsgerrAttr::Policy => 4,
            NlmsgerrAttr::UnrecognizedConst(number) => number,
        }
    }
}

impl From<&NlmsgerrAttr> for u16 {
    ghost from_gives = { λ value number. number ≡ nlmsgerr_attr_number value.now };

    fn from(value: &NlmsgerrAttr) -> u16 {
        u16::from(*value)
    }
}

impl Constant for NlmsgerrAttr {
    type Number = u16;

    ghost wire_number = { nlmsgerr_attr_number };

    ghost wire_value = { nlmsgerr_attr_of };

    fn from_wire(number: u16) -> NlmsgerrAttr {
        NlmsgerrAttr::from(number)
    }

    fn to_wire(&self) -> u16 {
        u16::from(self)
    }

    ghost back_to_number = { λ n _. Prim.search (first_with-number, rules) };
}
