//! The text of `tables/rt_neigh.table`. Written by `tables/into-crates`.

ghost use Rattle.neli_tables_routing.specs.Tables.{Begins, heading_of};
ghost use Rattle.neli_tables_routing.specs.declared.table.RoutingTable.TheVariants as table;

/// The text.
static TEXT: &[u8] = b"\
    # Written by hand from the headers.\n\nfamily rt-neigh 0\n\ngroup RTNLGRP_NEIGH 3\n\nmessage R\
    TM_NEWNEIGH 28 nest=neighbour after=ndmsg\nmessage RTM_DELNEIGH 29 nest=neighbour after=ndms\
    g\nmessage RTM_GETNEIGH 30 nest=neighbour after=ndmsg\nmessage RTM_NEWNEIGHTBL 64 nest=cache a\
    fter=ndtmsg\nmessage RTM_GETNEIGHTBL 66 nest=cache after=ndtmsg\nmessage RTM_SETNEIGHTBL 67 ne\
    st=cache after=ndtmsg\n\nenum route-type prefix=RTN_\n  value unspec 0\n  value unicast 1\n  v\
    alue local 2\n  value broadcast 3\n  value anycast 4\n  value multicast 5\n  value blackhole \
    6\n  value unreachable 7\n  value prohibit 8\n  value throw 9\n  value nat 10\n  value xresolv\
    e 11\n\nenum protocol prefix=RTPROT_\n  value unspec 0\n  value redirect 1\n  value kernel \
    2\n  value boot 3\n  value static 4\n  value gated 8\n  value ra 9\n  value mrt 10\n  value ze\
    bra 11\n  value bird 12\n  value dnrouted 13\n  value xorp 14\n  value ntk 15\n  value dhcp 1\
    6\n  value mrouted 17\n  value keepalived 18\n  value babel 42\n  value openr 99\n  value bgp \
    186\n  value isis 187\n  value ospf 188\n  value rip 189\n  value eigrp 192\n\nflags state pre\
    fix=NUD_\n  value incomplete 0x1\n  value reachable 0x2\n  value stale 0x4\n  value delay 0x\
    8\n  value probe 0x10\n  value failed 0x20\n  value noarp 0x40\n  value permanent 0x80\n\nflag\
    s flags prefix=NTF_\n  value use 0x1\n  value self 0x2\n  value master 0x4\n  value proxy 0x\
    8\n  value ext-learned 0x10\n  value offloaded 0x20\n  value sticky 0x40\n  value router 0x8\
    0\n\nflags extended-flags prefix=NTF_EXT_\n  value managed 0x1\n  value locked 0x2\n\nstruct n\
    da_cacheinfo 16\n  field ndm_confirmed 0..4 u32\n  field ndm_used 4..8 u32\n  field ndm_update\
    d 8..12 u32\n  field ndm_refcnt 12..16 u32\n\nstruct ndmsg 12\n  field ndm_family 0..1 u8\n  f\
    ield ndm_ifindex 4..8 s32\n  field ndm_state 8..10 u16 flags=state\n  field ndm_flags 10..11 u\
    8 flags=flags\n  field ndm_type 11..12 u8 enum=route-type\n\nstruct ndt_config 32\n  field ndt\
    c_key_len 0..2 u16\n  field ndtc_entry_size 2..4 u16\n  field ndtc_entries 4..8 u32\n  field n\
    dtc_last_flush 8..12 u32\n  field ndtc_last_rand 12..16 u32\n  field ndtc_hash_rnd 16..20 u3\
    2\n  field ndtc_hash_mask 20..24 u32\n  field ndtc_hash_chain_gc 24..28 u32\n  field ndtc_prox\
    y_qlen 28..32 u32\n\nstruct ndt_stats 88\n  field ndts_allocs 0..8 u64\n  field ndts_destroys \
    8..16 u64\n  field ndts_hash_grows 16..24 u64\n  field ndts_res_failed 24..32 u64\n  field ndt\
    s_lookups 32..40 u64\n  field ndts_hits 40..48 u64\n  field ndts_rcv_probes_mcast 48..56 u6\
    4\n  field ndts_rcv_probes_ucast 56..64 u64\n  field ndts_periodic_gc_runs 64..72 u64\n  fiel\
    d ndts_forced_gc_runs 72..80 u64\n  field ndts_table_fulls 80..88 u64\n\nstruct ndtmsg 4\n  fi\
    eld ndtm_family 0..1 u8\n\nset neighbour strict-from=13\n  attr NDA_DST 1 address length=0..3\
    2\n  attr NDA_LLADDR 2 hardware length=0..32\n  attr NDA_CACHEINFO 3 struct=nda_cacheinfo leng\
    th=16..65531\n  attr NDA_PROBES 4 u32\n  attr NDA_VLAN 5 u16\n  attr NDA_PORT 6 be16\n  attr N\
    DA_VNI 7 u32\n  attr NDA_IFINDEX 8 u32\n  attr NDA_MASTER 9 u32\n  attr NDA_LINK_NETNSID 10 s3\
    2\n  attr NDA_SRC_VNI 11 u32\n  attr NDA_PROTOCOL 12 u8 enum=protocol\n  attr NDA_NH_ID 13 u3\
    2\n  attr NDA_FDB_EXT_ATTRS 14 nest=forwarding\n  attr NDA_FLAGS_EXT 15 u32 flags=extended-fla\
    gs\n  attr NDA_NDM_STATE_MASK 16 u16 flags=state\n  attr NDA_NDM_FLAGS_MASK 17 u8 flags=flag\
    s\n\nset forwarding\n  attr NFEA_ACTIVITY_NOTIFY 1 u8\n  attr NFEA_DONT_REFRESH 2 flag\n\nset \
    cache\n  attr NDTA_NAME 1 text\n  attr NDTA_THRESH1 2 u32\n  attr NDTA_THRESH2 3 u32\n  attr N\
    DTA_THRESH3 4 u32\n  attr NDTA_CONFIG 5 struct=ndt_config\n  attr NDTA_PARMS 6 nest=cache-sett\
    ings\n  attr NDTA_STATS 7 struct=ndt_stats\n  attr NDTA_GC_INTERVAL 8 u64\n  attr NDTA_PAD 9 p\
    ad\n\nset cache-settings\n  attr NDTPA_IFINDEX 1 u32\n  attr NDTPA_REFCNT 2 u32\n  attr NDTPA_\
    REACHABLE_TIME 3 u64\n  attr NDTPA_BASE_REACHABLE_TIME 4 u64\n  attr NDTPA_RETRANS_TIME 5 u6\
    4\n  attr NDTPA_GC_STALETIME 6 u64\n  attr NDTPA_DELAY_PROBE_TIME 7 u64\n  attr NDTPA_QUEUE_LE\
    N 8 u32\n  attr NDTPA_APP_PROBES 9 u32\n  attr NDTPA_UCAST_PROBES 10 u32\n  attr NDTPA_MCAST_P\
    ROBES 11 u32\n  attr NDTPA_ANYCAST_DELAY 12 u64\n  attr NDTPA_PROXY_DELAY 13 u64\n  attr NDTPA\
    _PROXY_QLEN 14 u32\n  attr NDTPA_LOCKTIME 15 u64\n  attr NDTPA_QUEUE_LENBYTES 16 u32\n  attr N\
    DTPA_MCAST_REPROBES 17 u32\n  attr NDTPA_PAD 18 pad\n  attr NDTPA_INTERVAL_PROBE_TIME_MS 19 u6\
    4\n";

/// The text of `tables/rt_neigh.table`.
pub(crate) fn text() -> &'static [u8]
    ensures { Begins result.now (heading_of table.RtNeigh) }
{
    TEXT
}
