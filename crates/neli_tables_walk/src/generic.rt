//! The header of generic netlink.

ghost use Rattle.std.specs.Prelude.{◌≡◌, ◌≤◌, IfSome, length};
ghost use Rattle.neli_tables_walk.specs.Bodies.{generic_header};

use byteorder::{ByteOrder, LittleEndian};

/// `NETLINK_GENERIC` of `linux/netlink.h`.
pub(crate) const GENERIC: u16 = 16;

/// How many bytes a [`GenericHeader`] has.
pub const GENERIC_HEADER_SIZE: usize = 4;

/// The header before a body of generic netlink (`struct genlmsghdr` of `linux/genetlink.h`).
#[derive(Clone, Copy, Debug, PartialEq, Eq)]
pub struct GenericHeader {
    /// The command, which is the number of the family's message.
    pub command: u8,
    /// The version of the family.
    pub version: u8,
    /// Two bytes without a meaning, 0 from the kernel.
    pub reserved: u16,
}

/// The header that a payload begins with; `None` where it is shorter.
pub(crate) fn generic_header(payload: &[u8]) -> Option<GenericHeader>
    ensures value { result ≡ generic_header payload.now }
    ensures long { IfSome result (λ _. GENERIC_HEADER_SIZE ≤ length payload.now) }
{
    if payload.len() < GENERIC_HEADER_SIZE {
        return None;
    }
    Some(GenericHeader {
        command: payload[0],
        version: payload[1],
        reserved: LittleEndian::read_u16(&payload[2..]),
    })
}
