//! What the payload of a message is.

ghost use Rattle.std.specs.Prelude.{◌≡◌};
ghost use Rattle.neli_msg.specs.Kinds.{is_acknowledged, kind_of, tail_of};

use bitflags::Flags;
use byteorder::{ByteOrder, LittleEndian};
use neli_consts::{NLMSG_DONE, NLMSG_ERROR, NlmF};

/// What a message's payload is, by its type, flags, length and code (RFC 3549 section 2.3.2.2; the kernel's
/// `netlink_ack`). [`NlPayload`](crate::NlPayload) is the payload that is read so.
#[derive(Clone, Copy, Debug, PartialEq, Eq)]
pub enum Kind {
    /// Data: all the bytes are a body.
    Body,
    /// Nothing: type 3 (`NLMSG_DONE`) without a byte.
    Nothing,
    /// The end of a dump: type 3 (`NLMSG_DONE`) with the flag MULTI.
    DumpEnd,
    /// An acknowledgement: type 2 (`NLMSG_ERROR`) with code 0 and a header.
    Acknowledgement(Tail),
    /// A capped error: type 2 (`NLMSG_ERROR`) otherwise, with the flag CAPPED.
    Capped(Tail),
    /// An error with the whole message that it answers: type 2 (`NLMSG_ERROR`) otherwise.
    Failure,
}

/// What stands after the header that an acknowledgement or a capped error answers.
#[derive(Clone, Copy, Debug, PartialEq, Eq)]
pub enum Tail {
    /// Bytes that are not read.
    Unread,
    /// Attributes.
    Attributes,
}

impl Tail {
    /// That of a message with these flags: attributes under CAPPED and ACK_TLVS.
    pub fn of(nl_flags: NlmF) -> Tail
        ensures { result ≡ tail_of nl_flags }
    {
        if nl_flags.contains(NlmF::CAPPED) && nl_flags.contains(NlmF::ACK_TLVS) {
            Tail::Attributes
        } else {
            Tail::Unread
        }
    }
}

/// Whether these bytes are an acknowledgement, and not an error.
fn is_acknowledgement(bytes: &[u8]) -> bool
    ensures { result ≡ is_acknowledged bytes.now }
{
    bytes.len() >= 20 && LittleEndian::read_u32(bytes) == 0
}

impl Kind {
    /// The kind of a payload of these bytes, after a header of this type and these flags.
    pub fn of(nl_type: u16, nl_flags: NlmF, bytes: &[u8]) -> Kind
        ensures { result ≡ kind_of nl_type nl_flags bytes.now }
    {
        match nl_type {
            NLMSG_ERROR if is_acknowledgement(bytes) => Kind::Acknowledgement(Tail::of(nl_flags)),
            NLMSG_ERROR if nl_flags.contains(NlmF::CAPPED) => Kind::Capped(Tail::of(nl_flags)),
            NLMSG_ERROR => Kind::Failure,
            NLMSG_DONE if bytes.is_empty() => Kind::Nothing,
            NLMSG_DONE if nl_flags.contains(NlmF::MULTI) => Kind::DumpEnd,
            _ => Kind::Body,
        }
    }
}
