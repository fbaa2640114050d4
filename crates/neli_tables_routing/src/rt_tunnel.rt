//! The text of `tables/rt_tunnel.table`. Written by `tables/into-crates`.

ghost use Rattle.neli_tables_routing.specs.Tables.{Begins, heading_of};
ghost use Rattle.neli_tables_routing.specs.declared.table.RoutingTable.TheVariants as table;

/// The text.
static TEXT: &[u8] = b"\
    # Written by hand from the headers (linux/if_link.h).\n\nfamily rt-tunnel 0\n\ngroup RTNLGRP_T\
    UNNEL 35\n\nmessage RTM_NEWTUNNEL 120 nest=filter after=tunnel_msg strict\nmessage RTM_DELTUNN\
    EL 121 nest=filter after=tunnel_msg strict\nmessage RTM_GETTUNNEL 122 nest=filter after=tunnel\
    _msg\n\nflags flags prefix=TUNNEL_MSG_FLAG_\n  value stats 0x1\n\nstruct tunnel_msg 8\n  fiel\
    d family 0..1 u8\n  field flags 1..2 u8 flags=flags\n  field ifindex 4..8 u32\n\nset filte\
    r\n  attr VXLAN_VNIFILTER_ENTRY 1 nest=entry multi\n\nset entry\n  attr VXLAN_VNIFILTER_ENTRY_\
    START 1 u32\n  attr VXLAN_VNIFILTER_ENTRY_END 2 u32\n  attr VXLAN_VNIFILTER_ENTRY_GROUP 3 ipv\
    4\n  attr VXLAN_VNIFILTER_ENTRY_GROUP6 4 ipv6\n  attr VXLAN_VNIFILTER_ENTRY_STATS 5 nest=stati\
    stics\n\nset statistics\n  attr VNIFILTER_ENTRY_STATS_RX_BYTES 1 u64\n  attr VNIFILTER_ENTRY_S\
    TATS_RX_PKTS 2 u64\n  attr VNIFILTER_ENTRY_STATS_RX_DROPS 3 u64\n  attr VNIFILTER_ENTRY_STATS_\
    RX_ERRORS 4 u64\n  attr VNIFILTER_ENTRY_STATS_TX_BYTES 5 u64\n  attr VNIFILTER_ENTRY_STATS_TX_\
    PKTS 6 u64\n  attr VNIFILTER_ENTRY_STATS_TX_DROPS 7 u64\n  attr VNIFILTER_ENTRY_STATS_TX_ERROR\
    S 8 u64\n  attr VNIFILTER_ENTRY_STATS_PAD 9 pad\n";

/// The text of `tables/rt_tunnel.table`.
pub(crate) fn text() -> &'static [u8]
    ensures { Begins result.now (heading_of table.RtTunnel) }
{
    TEXT
}
