//! Next hops.

ghost use Rattle.std.specs.Prelude.{◌≡◌};
ghost use Rattle.neli_rtnl_linux.specs.Nhmsg.{IsPlainNhmsg, nhmsg_bytes, nhmsg_header};
ghost use Rattle.neli_rtnl_linux.specs.laws.Nhmsg.{nhmsg-reads_back, nhmsg-width, nhmsg-writes_back};

use neli_body::numbers::{u8_in, u32_in};
use neli_body::{FixedHeader, HeaderBytes};
use neli_consts_linux::Nha;
use neli_consts_routing::{RtAddrFamily, RtScope, Rtprot};
use neli_rtnl::{Body, Fields};
use neli_wire::Constant;

/// The fields of a next hop before its attributes.
#[derive(Clone, Copy, Debug, PartialEq, Eq)]
pub struct NhmsgHeader {
    /// The family of its gateway; a group has 0.
    pub nh_family: RtAddrFamily,
    /// The scope, which a kernel reports; 0 in a request.
    pub nh_scope: RtScope,
    /// Who made it.
    pub nh_protocol: Rtprot,
    resvd: u8,
    /// The flags, `RTNH_F_*` of `linux/rtnetlink.h`.
    pub nh_flags: u32,
}

impl NhmsgHeader {
    /// The fields of a next hop; the reserved byte is 0.
    pub fn new(
        nh_family: RtAddrFamily,
        nh_scope: RtScope,
        nh_protocol: Rtprot,
        nh_flags: u32,
    ) -> NhmsgHeader
        ensures nh_family { result.nh_family ≡ nh_family }
        ensures nh_scope { result.nh_scope ≡ nh_scope }
        ensures nh_protocol { result.nh_protocol ≡ nh_protocol }
        ensures nh_flags { result.nh_flags ≡ nh_flags }
        ensures resvd { result.resvd ≡ 0 }
    {
        NhmsgHeader {
            nh_family,
            nh_scope,
            nh_protocol,
            resvd: 0,
            nh_flags,
        }
    }
}

/// A next hop: `struct nhmsg` of `linux/nexthop.h`, 8 bytes, and its attributes: the body of `RTM_NEWNEXTHOP`,
/// `RTM_DELNEXTHOP` and `RTM_GETNEXTHOP`.
pub type Nhmsg = Body<NhmsgHeader, Nha>;

impl FixedHeader for NhmsgHeader {
    ghost width = { 8 };

    ghost bytes_of = { nhmsg_bytes };

    ghost header_of = { nhmsg_header };

    ghost IsPlain = { IsPlainNhmsg };

    ghost width_is = { nhmsg-width };

    ghost reads_back = { nhmsg-reads_back };

    ghost writes_back = { nhmsg-writes_back };

    fn size() -> usize {
        8
    }

    fn spell(&self) -> HeaderBytes {
        HeaderBytes::new()
            .u8(self.nh_family.to_wire())
            .u8(self.nh_scope.to_wire())
            .u8(self.nh_protocol.to_wire())
            .u8(self.resvd)
            .u32(self.nh_flags)
    }

    fn from_spelling(bytes: &[u8]) -> NhmsgHeader {
        NhmsgHeader {
            nh_family: RtAddrFamily::from_wire(u8_in(bytes, 0)),
            nh_scope: RtScope::from_wire(u8_in(bytes, 1)),
            nh_protocol: Rtprot::from_wire(u8_in(bytes, 2)),
            resvd: u8_in(bytes, 3),
            nh_flags: u32_in(bytes, 4),
        }
    }
}

impl Fields for NhmsgHeader {
    fn name() -> &'static str {
        "Nhmsg"
    }
}
