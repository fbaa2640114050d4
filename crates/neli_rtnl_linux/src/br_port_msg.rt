//! Multicast groups of bridges.

ghost use Rattle.std.specs.Prelude.{◌≡◌};
ghost use Rattle.neli_rtnl_linux.specs.BrPortMsg.{IsPlainBrPortMsg, br_port_msg_bytes, br_port_msg_header};
ghost use Rattle.neli_rtnl_linux.specs.laws.BrPortMsg.{br_port_msg-reads_back, br_port_msg-width};
ghost use Rattle.neli_rtnl_linux.specs.laws.BrPortMsg.{br_port_msg-writes_back};

use neli_body::numbers::{u8_in, u16_in, u32_in};
use neli_body::{FixedHeader, HeaderBytes};
use neli_consts_linux::Mdba;
use neli_consts_routing::RtAddrFamily;
use neli_rtnl::{Body, Fields};
use neli_wire::Constant;

/// The fields of a message on a bridge's multicast groups, before its attributes.
#[derive(Clone, Copy, Debug, PartialEq, Eq)]
pub struct BrPortMsgHeader {
    /// The family: `AF_BRIDGE`.
    pub family: RtAddrFamily,
    pad1: u8,
    pad2: u16,
    /// The index of the bridge; 0 in a request for all.
    pub ifindex: u32,
}

impl BrPortMsgHeader {
    /// The fields of a message on a bridge's groups; the padding is 0.
    pub fn new(family: RtAddrFamily, ifindex: u32) -> BrPortMsgHeader
        ensures family { result.family ≡ family }
        ensures ifindex { result.ifindex ≡ ifindex }
        ensures pad1 { result.pad1 ≡ 0 }
        ensures pad2 { result.pad2 ≡ 0 }
    {
        BrPortMsgHeader {
            family,
            pad1: 0,
            pad2: 0,
            ifindex,
        }
    }
}

/// The multicast groups of a bridge: `struct br_port_msg` of `linux/if_bridge.h` with its three bytes of padding,
/// 8 bytes, and attributes: the body of `Rtm::Newmdb`, `Rtm::Delmdb` and `Rtm::Getmdb`.
pub type BrPortMsg = Body<BrPortMsgHeader, Mdba>;

impl FixedHeader for BrPortMsgHeader {
    ghost width = { 8 };

    ghost bytes_of = { br_port_msg_bytes };

    ghost header_of = { br_port_msg_header };

    ghost IsPlain = { IsPlainBrPortMsg };

    ghost width_is = { br_port_msg-width };

    ghost reads_back = { br_port_msg-reads_back };

    ghost writes_back = { br_port_msg-writes_back };

    fn size() -> usize {
        8
    }

    fn spell(&self) -> HeaderBytes {
        HeaderBytes::new()
            .u8(self.family.to_wire())
            .u8(self.pad1)
            .u16(self.pad2)
            .u32(self.ifindex)
    }

    fn from_spelling(bytes: &[u8]) -> BrPortMsgHeader {
        BrPortMsgHeader {
            family: RtAddrFamily::from_wire(u8_in(bytes, 0)),
            pad1: u8_in(bytes, 1),
            pad2: u16_in(bytes, 2),
            ifindex: u32_in(bytes, 4),
        }
    }
}

impl Fields for BrPortMsgHeader {
    fn name() -> &'static str {
        "BrPortMsg"
    }
}
