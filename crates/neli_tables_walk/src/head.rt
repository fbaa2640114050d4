//! What a message's header says of its payload.

ghost use Rattle.std.specs.Prelude.{◌≡◌};
ghost use Rattle.neli_tables_walk.specs.Bodies.{is_control, way_of};

use bitflags::Flags;
use neli_consts::NlmF;
use neli_tables::Way;

/// The first type of a message that is a protocol's own (`NLMSG_MIN_TYPE` of `linux/netlink.h`).
const MIN_TYPE: u16 = 16;

/// The header of a message, as far as it says what the payload is.
#[derive(Clone, Copy, Debug, PartialEq, Eq)]
pub struct Head {
    /// The protocol (`NETLINK_*` of `linux/netlink.h`).
    pub protocol: u16,
    /// The type of the message.
    pub message_type: u16,
    /// Its flags.
    pub flags: NlmF,
}

impl Head {
    /// Which way the message goes: to the kernel where it has the flag REQUEST.
    pub fn way(&self) -> Way
        ensures { result ≡ way_of self.now.flags }
    {
        if self.flags.contains(NlmF::REQUEST) {
            Way::Request
        } else {
            Way::Reply
        }
    }

    /// Whether its type is one that all protocols have, as those of answers.
    pub(crate) fn is_control(&self) -> bool
        ensures { result ≡ is_control self.now.message_type }
    {
        self.message_type < MIN_TYPE
    }
}
