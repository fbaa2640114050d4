//! Neighbour tables.

ghost use Rattle.std.specs.Prelude.{◌≡◌};
ghost use Rattle.neli_rtnl_linux.specs.Ndtmsg.{IsPlainNdtmsg, ndtmsg_bytes, ndtmsg_header};
ghost use Rattle.neli_rtnl_linux.specs.laws.Ndtmsg.{ndtmsg-reads_back, ndtmsg-width, ndtmsg-writes_back};

use neli_body::numbers::{u8_in, u16_in};
use neli_body::{FixedHeader, HeaderBytes};
use neli_consts_linux::Ndta;
use neli_consts_routing::RtAddrFamily;
use neli_rtnl::{Body, Fields};
use neli_wire::Constant;

/// The fields of a message on a neighbour table, before its attributes.
#[derive(Clone, Copy, Debug, PartialEq, Eq)]
pub struct NdtmsgHeader {
    /// The family of the table's addresses; `Unspecified` in a request for all.
    pub ndtm_family: RtAddrFamily,
    pad1: u8,
    pad2: u16,
}

impl NdtmsgHeader {
    /// The fields of a message on a neighbour table; the padding is 0.
    pub fn new(ndtm_family: RtAddrFamily) -> NdtmsgHeader
        ensures ndtm_family { result.ndtm_family ≡ ndtm_family }
        ensures pad1 { result.pad1 ≡ 0 }
        ensures pad2 { result.pad2 ≡ 0 }
    {
        NdtmsgHeader {
            ndtm_family,
            pad1: 0,
            pad2: 0,
        }
    }
}

/// A neighbour table: `struct ndtmsg` of `linux/neighbour.h`, 4 bytes, and attributes: the body of
/// `Rtm::Newneightbl`, `Rtm::Getneightbl` and `Rtm::Setneightbl`.
pub type Ndtmsg = Body<NdtmsgHeader, Ndta>;

impl FixedHeader for NdtmsgHeader {
    ghost width = { 4 };

    ghost bytes_of = { ndtmsg_bytes };

    ghost header_of = { ndtmsg_header };

    ghost IsPlain = { IsPlainNdtmsg };

    ghost width_is = { ndtmsg-width };

    ghost reads_back = { ndtmsg-reads_back };

    ghost writes_back = { ndtmsg-writes_back };

    fn size() -> usize {
        4
    }

    fn spell(&self) -> HeaderBytes {
        HeaderBytes::new()
            .u8(self.ndtm_family.to_wire())
            .u8(self.pad1)
            .u16(self.pad2)
    }

    fn from_spelling(bytes: &[u8]) -> NdtmsgHeader {
        NdtmsgHeader {
            ndtm_family: RtAddrFamily::from_wire(u8_in(bytes, 0)),
            pad1: u8_in(bytes, 1),
            pad2: u16_in(bytes, 2),
        }
    }
}

impl Fields for NdtmsgHeader {
    fn name() -> &'static str {
        "Ndtmsg"
    }
}
