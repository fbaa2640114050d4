//! Multicast groups of routing.

ghost use Rattle.std.proofs.Common.{rules};
ghost use Rattle.std.specs.Prelude.{◌≡◌};
ghost use Rattle.neli_consts_linux.specs.Rtnlgrp.{rtnlgrp_number, rtnlgrp_of, rtnlgrp_is_unrecognized};
ghost use Rattle.neli_wire.specs.laws.Constants.{first_with-number};

use neli_wire::Constant;

/// The multicast groups of routing netlink: `RTNLGRP_*` of `linux/rtnetlink.h`. A listener joins
/// them by number.
#[derive(Clone, Copy, Debug, PartialEq, Eq)]
pub enum Rtnlgrp {
    /// No group: 0 stands for none.
    None,
    /// Links.
    Link,
    /// Not used by the kernel.
    Notify,
    /// Neighbours.
    Neigh,
    /// Queueing disciplines, classes, filters and actions.
    Tc,
    /// IPv4 addresses.
    Ipv4Ifaddr,
    /// IPv4 multicast routes.
    Ipv4Mroute,
    /// IPv4 routes.
    Ipv4Route,
    /// IPv4 routing rules.
    Ipv4Rule,
    /// IPv6 addresses.
    Ipv6Ifaddr,
    /// IPv6 multicast routes.
    Ipv6Mroute,
    /// IPv6 routes.
    Ipv6Route,
    /// IPv6 data about links.
    Ipv6Ifinfo,
    /// DECnet addresses, of kernels before 6.1.
    DecnetIfaddr,
    /// Not used by the kernel.
    Nop2,
    /// DECnet routes, of kernels before 6.1.
    DecnetRoute,
    /// DECnet routing rules, of kernels before 6.1.
    DecnetRule,
    /// Not used by the kernel.
    Nop4,
    /// IPv6 prefixes that routers announce.
    Ipv6Prefix,
    /// IPv6 routing rules.
    Ipv6Rule,
    /// Options of neighbour discovery that programs handle.
    NdUseropt,
    /// Phonet addresses.
    PhonetIfaddr,
    /// Phonet routes.
    PhonetRoute,
    /// Data center bridging.
    Dcb,
    /// IPv4 settings of links.
    Ipv4Netconf,
    /// IPv6 settings of links.
    Ipv6Netconf,
    /// Multicast groups that a bridge's ports have joined.
    Mdb,
    /// MPLS routes.
    MplsRoute,
    /// Numbers of network namespaces.
    Nsid,
    /// MPLS settings of links.
    MplsNetconf,
    /// IPv4 multicast routes missing in the table, for a routing daemon only.
    Ipv4MrouteR,
    /// IPv6 multicast routes missing in the table, for a routing daemon only.
    Ipv6MrouteR,
    /// Next hops.
    Nexthop,
    /// The VLANs of a bridge and its ports.
    Brvlan,
    /// MCTP addresses.
    MctpIfaddr,
    /// Virtual networks of a tunnel link.
    Tunnel,
    /// Counters of links that the hardware keeps.
    Stats,
    /// IPv4 multicast addresses that links have joined.
    Ipv4Mcaddr,
    /// IPv6 multicast addresses that links have joined.
    Ipv6Mcaddr,
    /// IPv6 anycast addresses that links have joined.
    Ipv6Acaddr,
    /// A number without a name.
    UnrecognizedConst(u32),
}

impl Rtnlgrp {
    /// Whether the value is a number without a name, an `UnrecognizedConst`.
    pub fn is_unrecognized(&self) -> bool
        ensures { result ≡ rtnlgrp_is_unrecognized self.now }
    {
        matches!(self, Rtnlgrp::UnrecognizedConst(_))
    }
}

impl From<u32> for Rtnlgrp {
    ghost from_gives = { λ number value. value ≡ rtnlgrp_of number };

    fn from(number: u32) -> Rtnlgrp {
        match number {
            0 => Rtnlgrp::None,
            1 => Rtnlgrp::Link,
            2 => Rtnlgrp::Notify,
            3 => Rtnlgrp::Neigh,
            4 => Rtnlgrp::Tc,
            5 => Rtnlgrp::Ipv4Ifaddr,
            6 => Rtnlgrp::Ipv4Mroute,
            7 => Rtnlgrp::Ipv4Route,
            8 => Rtnlgrp::Ipv4Rule,
            9 => Rtnlgrp::Ipv6Ifaddr,
            10 => Rtnlgrp::Ipv6Mroute,
            11 => Rtnlgrp::Ipv6Route,
            12 => Rtnlgrp::Ipv6Ifinfo,
            13 => Rtnlgrp::DecnetIfaddr,
            14 => Rtnlgrp::Nop2,
            15 => Rtnlgrp::DecnetRoute,
            16 => Rtnlgrp::DecnetRule,
            17 => Rtnlgrp::Nop4,
            18 => Rtnlgrp::Ipv6Prefix,
            19 => Rtnlgrp::Ipv6Rule,
            20 => Rtnlgrp::NdUseropt,
            21 => Rtnlgrp::PhonetIfaddr,
            22 => Rtnlgrp::PhonetRoute,
            23 => Rtnlgrp::Dcb,
            24 => Rtnlgrp::Ipv4Netconf,
            25 => Rtnlgrp::Ipv6Netconf,
            26 => Rtnlgrp::Mdb,
            27 => Rtnlgrp::MplsRoute,
            28 => Rtnlgrp::Nsid,
            29 => Rtnlgrp::MplsNetconf,
            30 => Rtnlgrp::Ipv4MrouteR,
            31 => Rtnlgrp::Ipv6MrouteR,
            32 => Rtnlgrp::Nexthop,
            33 => Rtnlgrp::Brvlan,
            34 => Rtnlgrp::MctpIfaddr,
            35 => Rtnlgrp::Tunnel,
            36 => Rtnlgrp::Stats,
            37 => Rtnlgrp::Ipv4Mcaddr,
            38 => Rtnlgrp::Ipv6Mcaddr,
            39 => Rtnlgrp::Ipv6Acaddr,
            _ => Rtnlgrp::UnrecognizedConst(number),
        }
    }
}

impl From<Rtnlgrp> for u32 {
    ghost from_gives = { λ value number. number ≡ rtnlgrp_number value };

    fn from(value: Rtnlgrp) -> u32 {
        match value {
            Rtnlgrp::None => 0,
            Rtnlgrp::Link => 1,
            Rtnlgrp::Notify => 2,
            Rtnlgrp::Neigh => 3,
            Rtnlgrp::Tc => 4,
            Rtnlgrp::Ipv4Ifaddr => 5,
            Rtnlgrp::Ipv4Mroute => 6,
            Rtnlgrp::Ipv4Route => 7,
            Rtnlgrp::Ipv4Rule => 8,
            Rtnlgrp::Ipv6Ifaddr => 9,
            Rtnlgrp::Ipv6Mroute => 10,
            Rtnlgrp::Ipv6Route => 11,
            Rtnlgrp::Ipv6Ifinfo => 12,
            Rtnlgrp::DecnetIfaddr => 13,
            Rtnlgrp::Nop2 => 14,
            Rtnlgrp::DecnetRoute => 15,
            Rtnlgrp::DecnetRule => 16,
            Rtnlgrp::Nop4 => 17,
            Rtnlgrp::Ipv6Prefix => 18,
            Rtnlgrp::Ipv6Rule => 19,
            Rtnlgrp::NdUseropt => 20,
            Rtnlgrp::PhonetIfaddr => 21,
            Rtnlgrp::PhonetRoute => 22,
            Rtnlgrp::Dcb => 23,
            Rtnlgrp::Ipv4Netconf => 24,
            Rtnlgrp::Ipv6Netconf => 25,
            Rtnlgrp::Mdb => 26,
            Rtnlgrp::MplsRoute => 27,
            Rtnlgrp::Nsid => 28,
            Rtnlgrp::MplsNetconf => 29,
            Rtnlgrp::Ipv4MrouteR => 30,
            Rtnlgrp::Ipv6MrouteR => 31,
            Rtnlgrp::Nexthop => 32,
            Rtnlgrp::Brvlan => 33,
            Rtnlgrp::MctpIfaddr => 34,
            Rtnlgrp::Tunnel => 35,
            Rtnlgrp::Stats => 36,
            Rtnlgrp::Ipv4Mcaddr => 37,
            Rtnlgrp::Ipv6Mcaddr => 38,
            Rtnlgrp::Ipv6Acaddr => 39,
            Rtnlgrp::UnrecognizedConst(number) => number,
        }
    }
}

impl Constant for Rtnlgrp {
    type Number = u32;

    ghost wire_number = { rtnlgrp_number };

    ghost wire_value = { rtnlgrp_of };

    fn from_wire(number: u32) -> Rtnlgrp {
        Rtnlgrp::from(number)
    }

    fn to_wire(&self) -> u32 {
        u32::from(*self)
    }

    ghost back_to_number = { λ n _. Prim.search (first_with-number, rules) };
}
