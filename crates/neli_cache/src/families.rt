//! The keys of routing's objects.

ghost use Rattle.std.specs.Prelude.{◌≡◌};
ghost use Rattle.neli_cache.specs.Families.{addresses, links, neighbours, next_hops, routes, routes_of_ipv6, rules};

use crate::Keys;
use crate::Part::{Attribute, Bytes, Nothing};
use neli_consts_attrs::{Ifa, Nda, Rta};
use neli_consts_linux::{Nha, RTM_DELNEXTHOP, RTM_NEWNEXTHOP};
use neli_consts_routing::Rtm;
use neli_wire::Constant;

impl Keys {
    /// Links, by their index: `ifi_index`, four bytes. What bridges say of their ports is not meant: Linux tells that
    /// with the same types, in the family `AF_BRIDGE`.
    pub fn links() -> Keys
        ensures { result ≡ links }
    {
        Keys {
            new_type: Rtm::Newlink.to_wire(),
            gone_type: Rtm::Dellink.to_wire(),
            family: Some(0),
            header: 16,
            parts: [Bytes(4, 8), Nothing, Nothing, Nothing, Nothing, Nothing],
        }
    }

    /// Addresses, by family, length of the prefix, link, `IFA_LOCAL` and `IFA_ADDRESS`.
    pub fn addresses() -> Keys
        ensures { result ≡ addresses }
    {
        Keys {
            new_type: Rtm::Newaddr.to_wire(),
            gone_type: Rtm::Deladdr.to_wire(),
            family: None,
            header: 8,
            parts: [
                Bytes(0, 2),
                Bytes(4, 8),
                Attribute(Ifa::Local.to_wire()),
                Attribute(Ifa::Address.to_wire()),
                Nothing,
                Nothing,
            ],
        }
    }

    /// Neighbours of IPv4 or of IPv6 (2 or 10), by link and address (`NDA_DST`).
    pub fn neighbours(family: u8) -> Keys
        ensures { result ≡ neighbours family }
    {
        Keys {
            new_type: Rtm::Newneigh.to_wire(),
            gone_type: Rtm::Delneigh.to_wire(),
            family: Some(family),
            header: 12,
            parts: [
                Bytes(4, 8),
                Attribute(Nda::Dst.to_wire()),
                Nothing,
                Nothing,
                Nothing,
                Nothing,
            ],
        }
    }

    /// Routes of IPv4, by destination and its length, type of service, table and metric. Of several with the same of
    /// these the last one counts. Linux tells nobody of those that go with their link.
    pub fn routes() -> Keys
        ensures { result ≡ routes }
    {
        Keys {
            new_type: Rtm::Newroute.to_wire(),
            gone_type: Rtm::Delroute.to_wire(),
            family: Some(2),
            header: 12,
            parts: [
                Bytes(1, 4),
                Attribute(Rta::Dst.to_wire()),
                Attribute(Rta::Table.to_wire()),
                Attribute(Rta::Priority.to_wire()),
                Nothing,
                Nothing,
            ],
        }
    }

    /// Routes of IPv6, also by link and gateway: each link has one to `fe80::/64`. A route that was replaced by one of
    /// another link or gateway stays, since Linux tells of the new one alone.
    pub fn routes_of_ipv6() -> Keys
        ensures { result ≡ routes_of_ipv6 }
    {
        Keys {
            new_type: Rtm::Newroute.to_wire(),
            gone_type: Rtm::Delroute.to_wire(),
            family: Some(10),
            header: 12,
            parts: [
                Bytes(1, 4),
                Attribute(Rta::Dst.to_wire()),
                Attribute(Rta::Table.to_wire()),
                Attribute(Rta::Priority.to_wire()),
                Attribute(Rta::Oif.to_wire()),
                Attribute(Rta::Gateway.to_wire()),
            ],
        }
    }

    /// Rules of all families, by all that they are but their flags.
    pub fn rules() -> Keys
        ensures { result ≡ rules }
    {
        Keys {
            new_type: Rtm::Newrule.to_wire(),
            gone_type: Rtm::Delrule.to_wire(),
            family: None,
            header: 12,
            parts: [
                Bytes(0, 8),
                Bytes(12, usize::MAX),
                Nothing,
                Nothing,
                Nothing,
                Nothing,
            ],
        }
    }

    /// Next hops, by their number (`NHA_ID`). Linux tells nobody of those that go with their link.
    pub fn next_hops() -> Keys
        ensures { result ≡ next_hops }
    {
        Keys {
            new_type: RTM_NEWNEXTHOP.to_wire(),
            gone_type: RTM_DELNEXTHOP.to_wire(),
            family: None,
            header: 8,
            parts: [
                Attribute(Nha::Id.to_wire()),
                Nothing,
                Nothing,
                Nothing,
                Nothing,
                Nothing,
            ],
        }
    }
}
