//! Fields of a route.

ghost use Rattle.std.proofs.Common.{rules};
ghost use Rattle.std.specs.Prelude.{◌≡◌};
ghost use Rattle.neli_consts_routing.specs.Rtn.{rtn_number, rtn_of, rtn_is_unrecognized};
ghost use Rattle.neli_consts_routing.specs.Rtprot.{rtprot_number, rtprot_of, rtprot_is_unrecognized};
ghost use Rattle.neli_consts_routing.specs.RtScope.{rt_scope_number, rt_scope_of, rt_scope_is_unrecognized};
ghost use Rattle.neli_consts_routing.specs.RtTable.{rt_table_number, rt_table_of, rt_table_is_unrecognized};
ghost use Rattle.neli_wire.specs.laws.Constants.{first_with-number};

use neli_wire::Constant;

/// What a route does with a packet: `RTN_*` of `linux/rtnetlink.h`.
#[derive(Clone, Copy, Debug, PartialEq, Eq)]
pub enum Rtn {
    /// Not specified.
    Unspec,
    /// On to a gateway, or to the host itself on a link.
    Unicast,
    /// To this host.
    Local,
    /// To this host, sent as broadcast.
    Broadcast,
    /// To this host, sent as unicast.
    Anycast,
    /// To the members of a group.
    Multicast,
    /// Dropped without an answer.
    Blackhole,
    /// Dropped; the sender learns that the host can't be reached.
    Unreachable,
    /// Dropped; the sender learns that an administrator forbids it.
    Prohibit,
    /// Not found in this table: the search goes on in the next one.
    Throw,
    /// With another address in place of its own.
    Nat,
    /// By an outside resolver.
    Xresolve,
    /// A number without a name.
    UnrecognizedConst(u8),
}

impl Rtn {
    /// Whether the value is a number without a name, an `UnrecognizedConst`.
    pub fn is_unrecognized(&self) -> bool
        ensures { result ≡ rtn_is_unrecognized self.now }
    {
        matches!(self, Rtn::UnrecognizedConst(_))
    }
}

impl From<u8> for Rtn {
    ghost from_gives = { λ number value. value ≡ rtn_of number };

    fn from(number: u8) -> Rtn {
        match number {
            0 => Rtn::Unspec,
            1 => Rtn::Unicast,
            2 => Rtn::Local,
            3 => Rtn::Broadcast,
            4 => Rtn::Anycast,
            5 => Rtn::Multicast,
            6 => Rtn::Blackhole,
            7 => Rtn::Unreachable,
            8 => Rtn::Prohibit,
            9 => Rtn::Throw,
            10 => Rtn::Nat,
            11 => Rtn::Xresolve,
            _ => Rtn::UnrecognizedConst(number),
        }
    }
}

impl From<Rtn> for u8 {
    ghost from_gives = { λ value number. number ≡ rtn_number value };

    fn from(value: Rtn) -> u8 {
        match value {
            Rtn::Unspec => 0,
            Rtn::Unicast => 1,
            Rtn::Local => 2,
            Rtn::Broadcast => 3,
            Rtn::Anycast => 4,
            Rtn::Multicast => 5,
            Rtn::Blackhole => 6,
            Rtn::Unreachable => 7,
            Rtn::Prohibit => 8,
            Rtn::Throw => 9,
            Rtn::Nat => 10,
            Rtn::Xresolve => 11,
            Rtn::UnrecognizedConst(number) => number,
        }
    }
}

impl From<&Rtn> for u8 {
    ghost from_gives = { λ value number. number ≡ rtn_number value.now };

    fn from(value: &Rtn) -> u8 {
        u8::from(*value)
    }
}

impl Constant for Rtn {
    type Number = u8;

    ghost wire_number = { rtn_number };

    ghost wire_value = { rtn_of };

    fn from_wire(number: u8) -> Rtn {
        Rtn::from(number)
    }

    fn to_wire(&self) -> u8 {
        u8::from(self)
    }

    ghost back_to_number = { λ n _. Prim.search (first_with-number, rules) };
}

/// Who made a route: `RTPROT_*` of `linux/rtnetlink.h`.
#[derive(Clone, Copy, Debug, PartialEq, Eq)]
pub enum Rtprot {
    /// Not specified.
    Unspec,
    /// A redirect message (ICMP).
    Redirect,
    /// The kernel.
    Kernel,
    /// Set up while the system started.
    Boot,
    /// An administrator.
    Static,
    /// A number without a name.
    UnrecognizedConst(u8),
}

impl Rtprot {
    /// Whether the value is a number without a name, an `UnrecognizedConst`.
    pub fn is_unrecognized(&self) -> bool
        ensures { result ≡ rtprot_is_unrecognized self.now }
    {
        matches!(self, Rtprot::UnrecognizedConst(_))
    }
}

impl From<u8> for Rtprot {
    ghost from_gives = { λ number value. value ≡ rtprot_of number };

    fn from(number: u8) -> Rtprot {
        match number {
            0 => Rtprot::Unspec,
            1 => Rtprot::Redirect,
            2 => Rtprot::Kernel,
            3 => Rtprot::Boot,
            4 => Rtprot::Static,
            _ => Rtprot::UnrecognizedConst(number),
        }
    }
}

impl From<Rtprot> for u8 {
    ghost from_gives = { λ value number. number ≡ rtprot_number value };

    fn from(value: Rtprot) -> u8 {
        match value {
            Rtprot::Unspec => 0,
            Rtprot::Redirect => 1,
            Rtprot::Kernel => 2,
            Rtprot::Boot => 3,
            Rtprot::Static => 4,
            Rtprot::UnrecognizedConst(number) => number,
        }
    }
}

impl From<&Rtprot> for u8 {
    ghost from_gives = { λ value number. number ≡ rtprot_number value.now };

    fn from(value: &Rtprot) -> u8 {
        u8::from(*value)
    }
}

impl Constant for Rtprot {
    type Number = u8;

    ghost wire_number = { rtprot_number };

    ghost wire_value = { rtprot_of };

    fn from_wire(number: u8) -> Rtprot {
        Rtprot::from(number)
    }

    fn to_wire(&self) -> u8 {
        u8::from(self)
    }

    ghost back_to_number = { λ n _. Prim.search (first_with-number, rules) };
}

/// How far away a destination is: `RT_SCOPE_*` of `linux/rtnetlink.h`. A greater number is nearer.
#[derive(Clone, Copy, Debug, PartialEq, Eq)]
pub enum RtScope {
    /// Anywhere.
    Universe,
    /// Inside the own system.
    Site,
    /// On an attached link.
    Link,
    /// This host.
    Host,
    /// No place: the destination doesn't exist.
    Nowhere,
    /// A number without a name.
    UnrecognizedConst(u8),
}

impl RtScope {
    /// Whether the value is a number without a name, an `UnrecognizedConst`.
    pub fn is_unrecognized(&self) -> bool
        ensures { result ≡ rt_scope_is_unrecognized self.now }
    {
        matches!(self, RtScope::UnrecognizedConst(_))
    }
}

impl From<u8> for RtScope {
    ghost from_gives = { λ number value. value ≡ rt_scope_of number };

    fn from(number: u8) -> RtScope {
        match number {
            0 => RtScope::Universe,
            200 => RtScope::Site,
            253 => RtScope::Link,
            254 => RtScope::Host,
            255 => RtScope::Nowhere,
            _ => RtScope::UnrecognizedConst(number),
        }
    }
}

impl From<RtScope> for u8 {
    ghost from_gives = { λ value number. number ≡ rt_scope_number value };

    fn from(value: RtScope) -> u8 {
        match value {
            RtScope::Universe => 0,
            RtScope::Site => 200,
            RtScope::Link => 253,
            RtScope::Host => 254,
            RtScope::Nowhere => 255,
            RtScope::UnrecognizedConst(number) => number,
        }
    }
}

impl From<&RtScope> for u8 {
    ghost from_gives = { λ value number. number ≡ rt_scope_number value.now };

    fn from(value: &RtScope) -> u8 {
        u8::from(*value)
    }
}

impl Constant for RtScope {
    type Number = u8;

    ghost wire_number = { rt_scope_number };

    ghost wire_value = { rt_scope_of };

    fn from_wire(number: u8) -> RtScope {
        RtScope::from(number)
    }

    fn to_wire(&self) -> u8 {
        u8::from(self)
    }

    ghost back_to_number = { λ n _. Prim.search (first_with-number, rules) };
}

/// Routing tables: `RT_TABLE_*` of `linux/rtnetlink.h`.
#[derive(Clone, Copy, Debug, PartialEq, Eq)]
pub enum RtTable {
    /// Not specified.
    Unspec,
    /// The number is above 255; an attribute has it.
    Compat,
    /// The last table searched, by the kernel's own rules.
    Default,
    /// The table of routes that name none.
    Main,
    /// Addresses of this host, kept by the kernel.
    Local,
    /// A number without a name.
    UnrecognizedConst(u8),
}

impl RtTable {
    /// Whether the value is a number without a name, an `UnrecognizedConst`.
    pub fn is_unrecognized(&self) -> bool
        ensures { result ≡ rt_table_is_unrecognized self.now }
    {
        matches!(self, RtTable::UnrecognizedConst(_))
    }
}

impl From<u8> for RtTable {
    ghost from_gives = { λ number value. value ≡ rt_table_of number };

    fn from(number: u8) -> RtTable {
        match number {
            0 => RtTable::Unspec,
            252 => RtTable::Compat,
            253 => RtTable::Default,
            254 => RtTable::Main,
            255 => RtTable::Local,
            _ => RtTable::UnrecognizedConst(number),
        }
    }
}

impl From<RtTable> for u8 {
    ghost from_gives = { λ value number. number ≡ rt_table_number value };

    fn from(value: RtTable) -> u8 {
        match value {
            RtTable::Unspec => 0,
            RtTable::Compat => 252,
            RtTable::Default => 253,
            RtTable::Main => 254,
            RtTable::Local => 255,
            RtTable::UnrecognizedConst(number) => number,
        }
    }
}

impl From<&RtTable> for u8 {
    ghost from_gives = { λ value number. number ≡ rt_table_number value.now };

    fn from(value: &RtTable) -> u8 {
        u8::from(*value)
    }
}

impl Constant for RtTable {
    type Number = u8;

    ghost wire_number = { rt_table_number };

    ghost wire_value = { rt_table_of };

    fn from_wire(number: u8) -> RtTable {
        RtTable::from(number)
    }

    fn to_wire(&self) -> u8 {
        u8::from(self)
    }

    ghost back_to_number = { λ n _. Prim.search (first_with-number, rules) };
}
