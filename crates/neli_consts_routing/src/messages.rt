//! Types of routing messages.

ghost use Rattle.std.proofs.Common.{rules};
ghost use Rattle.std.specs.Prelude.{◌≡◌};
ghost use Rattle.neli_consts_routing.specs.Rtm.{rtm_number, rtm_of, rtm_is_unrecognized};
ghost use Rattle.neli_wire.specs.laws.Constants.{first_with-number};

use neli_wire::Constant;

/// Types of routing messages: `RTM_*` of `linux/rtnetlink.h`. The kernel announces with `New..` and
/// `Del..`, and answers `Get..` with `New..`.
#[derive(Clone, Copy, Debug, PartialEq, Eq)]
pub enum Rtm {
    /// Makes or changes a link, or reports one.
    Newlink,
    /// Removes a link, or reports a removed one.
    Dellink,
    /// Asks for links.
    Getlink,
    /// Changes a link.
    Setlink,
    /// Adds or changes an address, or reports one.
    Newaddr,
    /// Removes an address, or reports a removed one.
    Deladdr,
    /// Asks for addresses.
    Getaddr,
    /// Adds or changes a route, or reports one.
    Newroute,
    /// Removes a route, or reports a removed one.
    Delroute,
    /// Asks for routes, or for the route to an address.
    Getroute,
    /// Adds or changes a neighbour, or reports one.
    Newneigh,
    /// Removes a neighbour, or reports a removed one.
    Delneigh,
    /// Asks for neighbours.
    Getneigh,
    /// Adds a routing rule, or reports one.
    Newrule,
    /// Removes a routing rule, or reports a removed one.
    Delrule,
    /// Asks for routing rules.
    Getrule,
    /// Adds or changes a queueing discipline, or reports one.
    Newqdisc,
    /// Removes a queueing discipline, or reports a removed one.
    Delqdisc,
    /// Asks for queueing disciplines.
    Getqdisc,
    /// Adds or changes a class of a queueing discipline, or reports one.
    Newtclass,
    /// Removes a class of a queueing discipline, or reports a removed one.
    Deltclass,
    /// Asks for classes of a queueing discipline.
    Gettclass,
    /// Adds or changes a filter of packets, or reports one.
    Newtfilter,
    /// Removes a filter of packets, or reports a removed one.
    Deltfilter,
    /// Asks for filters of packets.
    Gettfilter,
    /// Adds or changes an action of filters, or reports one.
    Newaction,
    /// Removes an action of filters, or reports a removed one.
    Delaction,
    /// Asks for actions of filters.
    Getaction,
    /// Reports a prefix that a router announced.
    Newprefix,
    /// Asks for multicast addresses.
    Getmulticast,
    /// Asks for anycast addresses.
    Getanycast,
    /// Reports a table of neighbours and its parameters.
    Newneightbl,
    /// Asks for the tables of neighbours.
    Getneightbl,
    /// Changes the parameters of a table of neighbours.
    Setneightbl,
    /// Reports options that a router announced, for programs.
    Newnduseropt,
    /// Adds or changes a label by which addresses are chosen (RFC 6724), or reports one.
    Newaddrlabel,
    /// Removes such a label, or reports a removed one.
    Deladdrlabel,
    /// Asks for such labels.
    Getaddrlabel,
    /// Asks for the settings of data center bridging.
    Getdcb,
    /// Changes the settings of data center bridging.
    Setdcb,
    /// Reports a link's settings of the internet protocol.
    Newnetconf,
    /// Asks for links' settings of the internet protocol.
    Getnetconf,
    /// Adds an entry to the multicast database of a bridge, or reports one.
    Newmdb,
    /// Removes an entry of the multicast database of a bridge, or reports a removed one.
    Delmdb,
    /// Asks for the multicast databases of bridges.
    Getmdb,
    /// Gives a number to a network namespace, or reports one.
    Newnsid,
    /// Reports that the number of a network namespace is gone.
    Delnsid,
    /// Asks for the numbers of network namespaces.
    Getnsid,
    /// A number without a name.
    UnrecognizedConst(u16),
}

impl Rtm {
    /// Whether the value is a number without a name, an `UnrecognizedConst`.
    pub fn is_unrecognized(&self) -> bool
        ensures { result ≡ rtm_is_unrecognized self.now }
    {
        matches!(self, Rtm::UnrecognizedConst(_))
    }
}

impl From<u16> for Rtm {
    ghost from_gives = { λ number value. value ≡ rtm_of number };

    fn from(number: u16) -> Rtm {
        match number {
            16 => Rtm::Newlink,
            17 => Rtm::Dellink,
            18 => Rtm::Getlink,
            19 => Rtm::Setlink,
            20 => Rtm::Newaddr,
            21 => Rtm::Deladdr,
            22 => Rtm::Getaddr,
            24 => Rtm::Newroute,
            25 => Rtm::Delroute,
            26 => Rtm::Getroute,
            28 => Rtm::Newneigh,
            29 => Rtm::Delneigh,
            30 => Rtm::Getneigh,
            32 => Rtm::Newrule,
            33 => Rtm::Delrule,
            34 => Rtm::Getrule,
            36 => Rtm::Newqdisc,
            37 => Rtm::Delqdisc,
            38 => Rtm::Getqdisc,
            40 => Rtm::Newtclass,
            41 => Rtm::Deltclass,
            42 => Rtm::Gettclass,
            44 => Rtm::Newtfilter,
            45 => Rtm::Deltfilter,
            46 => Rtm::Gettfilter,
            48 => Rtm::Newaction,
            49 => Rtm::Delaction,
            50 => Rtm::Getaction,
            52 => Rtm::Newprefix,
            58 => Rtm::Getmulticast,
            62 => Rtm::Getanycast,
            64 => Rtm::Newneightbl,
            66 => Rtm::Getneightbl,
            67 => Rtm::Setneightbl,
            68 => Rtm::Newnduseropt,
            72 => Rtm::Newaddrlabel,
            73 => Rtm::Deladdrlabel,
            74 => Rtm::Getaddrlabel,
            78 => Rtm::Getdcb,
            79 => Rtm::Setdcb,
            80 => Rtm::Newnetconf,
            82 => Rtm::Getnetconf,
            84 => Rtm::Newmdb,
            85 => Rtm::Delmdb,
            86 => Rtm::Getmdb,
            88 => Rtm::Newnsid,
            89 => Rtm::Delnsid,
            90 => Rtm::Getnsid,
            _ => Rtm::UnrecognizedConst(number),
        }
    }
}

impl From<Rtm> for u16 {
    ghost from_gives = { λ value number. number ≡ rtm_number value };

    fn from(value: Rtm) -> u16 {
        match value {
            Rtm::Newlink => 16,
            Rtm::Dellink => 17,
            Rtm::Getlink => 18,
            Rtm::Setlink => 19,
            Rtm::Newaddr => 20,
            Rtm::Deladdr => 21,
            Rtm::Getaddr => 22,
            Rtm::Newroute => 24,
            Rtm::Delroute => 25,
            Rtm::Getroute => 26,
            Rtm::Newneigh => 28,
            Rtm::Delneigh => 29,
            Rtm::Getneigh => 30,
            Rtm::Newrule => 32,
            Rtm::Delrule => 33,
            Rtm::Getrule => 34,
            Rtm::Newqdisc => 36,
            Rtm::Delqdisc => 37,
            Rtm::Getqdisc => 38,
            Rtm::Newtclass => 40,
            Rtm::Deltclass => 41,
            Rtm::Gettclass => 42,
            Rtm::Newtfilter => 44,
            Rtm::Deltfilter => 45,
            Rtm::Gettfilter => 46,
            Rtm::Newaction => 48,
            Rtm::Delaction => 49,
            Rtm::Getaction => 50,
            Rtm::Newprefix => 52,
            Rtm::Getmulticast => 58,
            Rtm::Getanycast => 62,
            Rtm::Newneightbl => 64,
            Rtm::Getneightbl => 66,
            Rtm::Setneightbl => 67,
            Rtm::Newnduseropt => 68,
            Rtm::Newaddrlabel => 72,
            Rtm::Deladdrlabel => 73,
            Rtm::Getaddrlabel => 74,
            Rtm::Getdcb => 78,
            Rtm::Setdcb => 79,
            Rtm::Newnetconf => 80,
            Rtm::Getnetconf => 82,
            Rtm::Newmdb => 84,
            Rtm::Delmdb => 85,
            Rtm::Getmdb => 86,
            Rtm::Newnsid => 88,
            Rtm::Delnsid => 89,
            Rtm::Getnsid => 90,
            Rtm::UnrecognizedConst(number) => number,
        }
    }
}

impl From<&Rtm> for u16 {
    ghost from_gives = { λ value number. number ≡ rtm_number value.now };

    fn from(value: &Rtm) -> u16 {
        u16::from(*value)
    }
}

impl Constant for Rtm {
    type Number = u16;

    ghost wire_number = { rtm_number };

    ghost wire_value = { rtm_of };

    fn from_wire(number: u16) -> Rtm {
        Rtm::from(number)
    }

    fn to_wire(&self) -> u16 {
        u16::from(self)
    }

    ghost back_to_number = { λ n _. Prim.search (first_with-number, rules) };
}
