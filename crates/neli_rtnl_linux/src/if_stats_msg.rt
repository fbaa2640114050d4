//! Statistics of links.

ghost use Rattle.std.specs.Prelude.{◌≡◌};
ghost use Rattle.neli_rtnl_linux.specs.IfStatsMsg.{IsPlainIfStatsMsg, if_stats_msg_bytes, if_stats_msg_header};
ghost use Rattle.neli_rtnl_linux.specs.laws.IfStatsMsg.{if_stats_msg-reads_back, if_stats_msg-width};
ghost use Rattle.neli_rtnl_linux.specs.laws.IfStatsMsg.{if_stats_msg-writes_back};

use neli_body::numbers::{u8_in, u16_in, u32_in};
use neli_body::{FixedHeader, HeaderBytes};
use neli_consts_linux::IflaStats;
use neli_consts_routing::RtAddrFamily;
use neli_rtnl::{Body, Fields};
use neli_wire::Constant;

/// The fields of a message on a link's statistics, before its attributes.
#[derive(Clone, Copy, Debug, PartialEq, Eq)]
pub struct IfStatsMsgHeader {
    /// The family; a kernel sends 0.
    pub family: RtAddrFamily,
    pad1: u8,
    pad2: u16,
    /// The index of the link; 0 in a request for all.
    pub ifindex: u32,
    /// The attributes that are asked for, or sent: bit `n - 1` stands for attribute `n` of `IflaStats`.
    pub filter_mask: u32,
}

impl IfStatsMsgHeader {
    /// The fields of a message on a link's statistics; the padding is 0.
    pub fn new(family: RtAddrFamily, ifindex: u32, filter_mask: u32) -> IfStatsMsgHeader
        ensures family { result.family ≡ family }
        ensures ifindex { result.ifindex ≡ ifindex }
        ensures filter_mask { result.filter_mask ≡ filter_mask }
        ensures pad1 { result.pad1 ≡ 0 }
        ensures pad2 { result.pad2 ≡ 0 }
    {
        IfStatsMsgHeader {
            family,
            pad1: 0,
            pad2: 0,
            ifindex,
            filter_mask,
        }
    }
}

/// The statistics of a link: `struct if_stats_msg` of `linux/if_link.h`, 12 bytes, and attributes: the body of
/// `RTM_NEWSTATS`, `RTM_GETSTATS` and `RTM_SETSTATS`.
pub type IfStatsMsg = Body<IfStatsMsgHeader, IflaStats>;

impl FixedHeader for IfStatsMsgHeader {
    ghost width = { 12 };

    ghost bytes_of = { if_stats_msg_bytes };

    ghost header_of = { if_stats_msg_header };

    ghost IsPlain = { IsPlainIfStatsMsg };

    ghost width_is = { if_stats_msg-width };

    ghost reads_back = { if_stats_msg-reads_back };

    ghost writes_back = { if_stats_msg-writes_back };

    fn size() -> usize {
        12
    }

    fn spell(&self) -> HeaderBytes {
        HeaderBytes::new()
            .u8(self.family.to_wire())
            .u8(self.pad1)
            .u16(self.pad2)
            .u32(self.ifindex)
            .u32(self.filter_mask)
    }

    fn from_spelling(bytes: &[u8]) -> IfStatsMsgHeader {
        IfStatsMsgHeader {
            family: RtAddrFamily::from_wire(u8_in(bytes, 0)),
            pad1: u8_in(bytes, 1),
            pad2: u16_in(bytes, 2),
            ifindex: u32_in(bytes, 4),
            filter_mask: u32_in(bytes, 8),
        }
    }
}

impl Fields for IfStatsMsgHeader {
    fn name() -> &'static str {
        "IfStatsMsg"
    }
}
