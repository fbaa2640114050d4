//! The cooked header of a netlink packet.
//!
//! ```text
//!  0      2      4                    14       16
//!  +------+------+--------------------+--------+
//!  | kind | 824  | address, unused    | family |                 of nlmon (253), and of Linux (113)
//!  +------+------+--------------------+--------+
//!
//!  0        2        4           8      10     11              20
//!  +--------+--------+-----------+------+------+---------------+
//!  | family | unused | interface | 824  | kind | address       | of Linux, version 2 (276)
//!  +--------+--------+-----------+------+------+---------------+
//! ```
//!
//! All numbers have their high byte first.

ghost use Rattle.std.specs.Prelude.{◌≡◌, ◌≤◌, length, IfSome};
ghost use Rattle.neli_inputs.specs.Cooked.{cooked_by, cooked_by_first, cooked_by_second, is_read};

use byteorder::{BigEndian, ByteOrder};

/// The link type of packets of `nlmon` (`LINKTYPE_NETLINK` of tcpdump.org/linktypes.html).
const NETLINK: u32 = 253;

/// The link type of packets of any interface (`LINKTYPE_LINUX_SLL`).
const LINUX_SLL: u32 = 113;

/// The same with another header (`LINKTYPE_LINUX_SLL2`).
const LINUX_SLL2: u32 = 276;

/// The type of hardware of a netlink packet (`ARPHRD_NETLINK` of `linux/if_arp.h`).
const ARPHRD_NETLINK: u16 = 824;

/// What a cooked header says.
#[derive(Clone, Copy, Debug, PartialEq, Eq)]
pub(crate) struct Cooked {
    /// The size of the header in bytes.
    pub size: usize,
    /// The netlink family of the packet (`linux/netlink.h`).
    pub family: u16,
    /// The kind of the packet, as who sent it (`PACKET_OUTGOING` and others of `linux/if_packet.h`).
    pub kind: u16,
}

/// Whether packets of this link type may be of netlink.
pub(crate) fn is_read(link: u32) -> bool
    ensures { result ≡ is_read link }
{
    link == NETLINK || link == LINUX_SLL || link == LINUX_SLL2
}

/// Returns what the cooked header at the front says, if that is one of a netlink packet: one of 16 bytes.
pub(crate) fn cooked_by_first(bytes: &[u8]) -> Option<Cooked>
    ensures value { result ≡ cooked_by_first bytes.now }
    ensures within { IfSome result (λ cooked. cooked.size ≤ length bytes.now) }
{
    if bytes.len() < 16 || BigEndian::read_u16(&bytes[2..]) != ARPHRD_NETLINK {
        return None;
    }
    Some(Cooked {
        size: 16,
        family: BigEndian::read_u16(&bytes[14..]),
        kind: BigEndian::read_u16(bytes),
    })
}

/// The same of version 2: one of 20 bytes.
fn cooked_by_second(bytes: &[u8]) -> Option<Cooked>
    ensures value { result ≡ cooked_by_second bytes.now }
    ensures within { IfSome result (λ cooked. cooked.size ≤ length bytes.now) }
{
    if bytes.len() < 20 || BigEndian::read_u16(&bytes[8..]) != ARPHRD_NETLINK {
        return None;
    }
    Some(Cooked {
        size: 20,
        family: BigEndian::read_u16(bytes),
        kind: u16::from(bytes[10]),
    })
}

/// Returns what the cooked header of a packet of this link type says, if the packet is of netlink.
pub(crate) fn cooked_by(link: u32, bytes: &[u8]) -> Option<Cooked>
    ensures value { result ≡ cooked_by link bytes.now }
    ensures within { IfSome result (λ cooked. cooked.size ≤ length bytes.now) }
{
    match link {
        NETLINK | LINUX_SLL => cooked_by_first(bytes),
        LINUX_SLL2 => cooked_by_second(bytes),
        _ => None,
    }
}
