//! The text of `tables/rt_bridge.table`. Written by `tables/into-crates`.

ghost use Rattle.neli_tables_routing.specs.Tables.{Begins, heading_of};
ghost use Rattle.neli_tables_routing.specs.declared.table.RoutingTable.TheVariants as table;

/// The text.
static TEXT: &[u8] = b"\
    # Written by hand from the headers.\n\nfamily rt-bridge 0\n\ngroup RTNLGRP_MDB 26\ngroup RTNLG\
    RP_BRVLAN 33\n\nmessage RTM_NEWMDB 84 request nest=mdb-request after=br_port_msg\nmessage RTM_\
    NEWMDB 84 reply nest=mdb after=br_port_msg\nmessage RTM_DELMDB 85 request nest=mdb-request aft\
    er=br_port_msg\nmessage RTM_DELMDB 85 reply nest=mdb after=br_port_msg\nmessage RTM_GETMDB 86 \
    request nest=mdb-get after=br_port_msg strict\nmessage RTM_GETMDB 86 reply nest=mdb after=br_p\
    ort_msg\nmessage RTM_NEWVLAN 112 nest=vlans after=br_vlan_msg strict\nmessage RTM_DELVLAN 113 \
    nest=vlans after=br_vlan_msg strict\nmessage RTM_GETVLAN 114 nest=vlan-dump after=br_vlan_msg \
    strict\n\nflags entry-flags prefix=MDB_FLAGS_\n  value offload 0x1\n  value fast-leave 0x2\n  \
    value star-excl 0x4\n  value blocked 0x8\n\nflags dump-flags prefix=BRIDGE_VLANDB_DUMPF_\n  va\
    lue stats 0x1\n  value global 0x2\n\nstruct br_port_msg 8\n  field family 0..1 u8\n  field ifi\
    ndex 4..8 u32\n\nstruct br_vlan_msg 8\n  field family 0..1 u8\n  field ifindex 4..8 u32\n\nstr\
    uct br_mdb_entry 28\n  field ifindex 0..4 u32\n  field state 4..5 u8\n  field flags 5..6 u8 fl\
    ags=entry-flags\n  field vid 6..8 u16\n  field addr.u 8..24 bytes\n  field addr.proto 24..26 b\
    e16\n\nstruct router_port 4\n  field ifindex 0..4 u32\n\nstruct bridge_vlan_info 4\n  field fl\
    ags 0..2 u16\n  field vid 2..4 u16\n\nset mdb\n  attr MDBA_MDB 1 nest=entries\n  attr MDBA_ROU\
    TER 2 nest=routers\n\nset entries\n  attr MDBA_MDB_ENTRY 1 nest=entry multi\n\nset entry\n  at\
    tr MDBA_MDB_ENTRY_INFO 1 nest=entry-attributes after=br_mdb_entry multi\n\nset sources\n  att\
    r MDBA_MDB_SRCLIST_ENTRY 1 nest=source multi\n\nset routers\n  attr MDBA_ROUTER_PORT 1 nest=ro\
    uter after=router_port multi\n\nset entry-attributes\n  attr MDBA_MDB_EATTR_TIMER 1 u32\n  att\
    r MDBA_MDB_EATTR_SRC_LIST 2 nest=sources\n  attr MDBA_MDB_EATTR_GROUP_MODE 3 u8\n  attr MDBA_M\
    DB_EATTR_SOURCE 4 ip\n  attr MDBA_MDB_EATTR_RTPROT 5 u8\n  attr MDBA_MDB_EATTR_DST 6 ip\n  att\
    r MDBA_MDB_EATTR_DST_PORT 7 u16\n  attr MDBA_MDB_EATTR_VNI 8 u32\n  attr MDBA_MDB_EATTR_IFINDE\
    X 9 u32\n  attr MDBA_MDB_EATTR_SRC_VNI 10 u32\n\nset source\n  attr MDBA_MDB_SRCATTR_ADDRESS \
    1 ip\n  attr MDBA_MDB_SRCATTR_TIMER 2 u32\n\nset router\n  attr MDBA_ROUTER_PATTR_TIMER 1 u3\
    2\n  attr MDBA_ROUTER_PATTR_TYPE 2 u8\n  attr MDBA_ROUTER_PATTR_INET_TIMER 3 u32\n  attr MDBA_\
    ROUTER_PATTR_INET6_TIMER 4 u32\n  attr MDBA_ROUTER_PATTR_VID 5 u16\n\nset mdb-request strict-f\
    rom=3\n  attr MDBA_SET_ENTRY 1 struct=br_mdb_entry\n  attr MDBA_SET_ENTRY_ATTRS 2 nest=request\
    -attributes\n\nset mdb-get\n  attr MDBA_GET_ENTRY 1 struct=br_mdb_entry\n  attr MDBA_GET_ENTRY\
    _ATTRS 2 nest=request-attributes\n\nset request-attributes\n  attr MDBE_ATTR_SOURCE 1 ip\n  at\
    tr MDBE_ATTR_SRC_LIST 2 nest=request-sources\n  attr MDBE_ATTR_GROUP_MODE 3 u8\n  attr MDBE_AT\
    TR_RTPROT 4 u8\n  attr MDBE_ATTR_DST 5 ip\n  attr MDBE_ATTR_DST_PORT 6 u16\n  attr MDBE_ATTR_V\
    NI 7 u32\n  attr MDBE_ATTR_IFINDEX 8 s32\n  attr MDBE_ATTR_SRC_VNI 9 u32\n  attr MDBE_ATTR_STA\
    TE_MASK 10 u8\n\nset request-sources\n  attr MDBE_SRC_LIST_ENTRY 1 nest=request-source mult\
    i\n\nset request-source\n  attr MDBE_SRCATTR_ADDRESS 1 ip\n\nset vlans\n  attr BRIDGE_VLANDB_E\
    NTRY 1 nest=vlan multi\n  attr BRIDGE_VLANDB_GLOBAL_OPTIONS 2 nest=options multi\n\nset vlan-d\
    ump\n  attr BRIDGE_VLANDB_DUMP_FLAGS 1 u32 flags=dump-flags\n\nset vlan\n  attr BRIDGE_VLANDB_\
    ENTRY_INFO 1 struct=bridge_vlan_info\n  attr BRIDGE_VLANDB_ENTRY_RANGE 2 u16\n  attr BRIDGE_VL\
    ANDB_ENTRY_STATE 3 u8\n  attr BRIDGE_VLANDB_ENTRY_TUNNEL_INFO 4 nest=tunnel\n  attr BRIDGE_VLA\
    NDB_ENTRY_STATS 5 nest=statistics\n  attr BRIDGE_VLANDB_ENTRY_MCAST_ROUTER 6 u8\n  attr BRIDGE\
    _VLANDB_ENTRY_MCAST_N_GROUPS 7 u32\n  attr BRIDGE_VLANDB_ENTRY_MCAST_MAX_GROUPS 8 u32\n  attr \
    BRIDGE_VLANDB_ENTRY_NEIGH_SUPPRESS 9 u8\n\nset tunnel\n  attr BRIDGE_VLANDB_TINFO_ID 1 u32\n  \
    attr BRIDGE_VLANDB_TINFO_CMD 2 u32\n\nset statistics\n  attr BRIDGE_VLANDB_STATS_RX_BYTES 1 u6\
    4\n  attr BRIDGE_VLANDB_STATS_RX_PACKETS 2 u64\n  attr BRIDGE_VLANDB_STATS_TX_BYTES 3 u64\n  a\
    ttr BRIDGE_VLANDB_STATS_TX_PACKETS 4 u64\n  attr BRIDGE_VLANDB_STATS_PAD 5 pad\n\nset option\
    s\n  attr BRIDGE_VLANDB_GOPTS_ID 1 u16\n  attr BRIDGE_VLANDB_GOPTS_RANGE 2 u16\n  attr BRIDGE_\
    VLANDB_GOPTS_MCAST_SNOOPING 3 u8\n  attr BRIDGE_VLANDB_GOPTS_MCAST_IGMP_VERSION 4 u8\n  attr B\
    RIDGE_VLANDB_GOPTS_MCAST_MLD_VERSION 5 u8\n  attr BRIDGE_VLANDB_GOPTS_MCAST_LAST_MEMBER_CNT 6 \
    u32\n  attr BRIDGE_VLANDB_GOPTS_MCAST_STARTUP_QUERY_CNT 7 u32\n  attr BRIDGE_VLANDB_GOPTS_MCAS\
    T_LAST_MEMBER_INTVL 8 u64\n  attr BRIDGE_VLANDB_GOPTS_PAD 9 pad\n  attr BRIDGE_VLANDB_GOPTS_MC\
    AST_MEMBERSHIP_INTVL 10 u64\n  attr BRIDGE_VLANDB_GOPTS_MCAST_QUERIER_INTVL 11 u64\n  attr BRI\
    DGE_VLANDB_GOPTS_MCAST_QUERY_INTVL 12 u64\n  attr BRIDGE_VLANDB_GOPTS_MCAST_QUERY_RESPONSE_INT\
    VL 13 u64\n  attr BRIDGE_VLANDB_GOPTS_MCAST_STARTUP_QUERY_INTVL 14 u64\n  attr BRIDGE_VLANDB_G\
    OPTS_MCAST_QUERIER 15 u8\n  attr BRIDGE_VLANDB_GOPTS_MCAST_ROUTER_PORTS 16 nest=routers\n  att\
    r BRIDGE_VLANDB_GOPTS_MCAST_QUERIER_STATE 17 nest=querier\n  attr BRIDGE_VLANDB_GOPTS_MSTI 18 \
    u16\n\nset querier\n  attr BRIDGE_QUERIER_IP_ADDRESS 1 ipv4\n  attr BRIDGE_QUERIER_IP_PORT 2 u\
    32\n  attr BRIDGE_QUERIER_IP_OTHER_TIMER 3 u64\n  attr BRIDGE_QUERIER_PAD 4 pad\n  attr BRIDGE\
    _QUERIER_IPV6_ADDRESS 5 ipv6\n  attr BRIDGE_QUERIER_IPV6_PORT 6 u32\n  attr BRIDGE_QUERIER_IPV\
    6_OTHER_TIMER 7 u64\n";

/// The text of `tables/rt_bridge.table`.
pub(crate) fn text() -> &'static [u8]
    ensures { Begins result.now (heading_of table.RtBridge) }
{
    TEXT
}
