//! The text of `tables/netdev.table`. Written by `tables/into-crates`.

ghost use Rattle.neli_tables_generic.specs.Tables.{Begins, heading_of};
ghost use Rattle.neli_tables_generic.specs.declared.table.GenericTable.TheVariants as table;

/// The text.
static TEXT: &[u8] = b"\
    # Written by from-specs from the specification netdev.yaml of Linux 6.12.\n\nfamily netdev 16 \
    version=1\n\ngroup mgmt\ngroup page-pool\n\nmessage NETDEV_CMD_DEV_GET 1 nest=dev strict\nmess\
    age NETDEV_CMD_DEV_ADD_NTF 2 reply nest=dev\nmessage NETDEV_CMD_DEV_DEL_NTF 3 reply nest=dev\n\
    message NETDEV_CMD_DEV_CHANGE_NTF 4 reply nest=dev\nmessage NETDEV_CMD_PAGE_POOL_GET 5 nest=pa\
    ge-pool strict\nmessage NETDEV_CMD_PAGE_POOL_ADD_NTF 6 reply nest=page-pool\nmessage NETDEV_CM\
    D_PAGE_POOL_DEL_NTF 7 reply nest=page-pool\nmessage NETDEV_CMD_PAGE_POOL_CHANGE_NTF 8 reply ne\
    st=page-pool\nmessage NETDEV_CMD_PAGE_POOL_STATS_GET 9 nest=page-pool-stats strict\nmessage NE\
    TDEV_CMD_QUEUE_GET 10 nest=queue strict\nmessage NETDEV_CMD_NAPI_GET 11 nest=napi strict\nmess\
    age NETDEV_CMD_QSTATS_GET 12 nest=qstats strict\nmessage NETDEV_CMD_BIND_RX 13 nest=dmabuf str\
    ict\n\nenum queue-type prefix=NETDEV_QUEUE_TYPE_\n  value rx 0\n  value tx 1\n\nflags xdp-act \
    prefix=NETDEV_XDP_ACT_\n  value basic 0x1\n  value redirect 0x2\n  value ndo-xmit 0x4\n  valu\
    e xsk-zerocopy 0x8\n  value hw-offload 0x10\n  value rx-sg 0x20\n  value ndo-xmit-sg 0x40\n\nf\
    lags xdp-rx-metadata prefix=NETDEV_XDP_RX_METADATA_\n  value timestamp 0x1\n  value hash 0x\
    2\n  value vlan-tag 0x4\n\nflags xsk-flags prefix=NETDEV_XSK_FLAGS_\n  value tx-timestamp 0x\
    1\n  value tx-checksum 0x2\n\nflags qstats-scope prefix=NETDEV_QSTATS_SCOPE_\n  value queue 0x\
    1\n\nset dev\n  attr NETDEV_A_DEV_IFINDEX 1 u32 range=1..4294967295\n  attr NETDEV_A_DEV_PAD \
    2 pad\n  attr NETDEV_A_DEV_XDP_FEATURES 3 u64 flags=xdp-act\n  attr NETDEV_A_DEV_XDP_ZC_MAX_SE\
    GS 4 u32 range=1..4294967295\n  attr NETDEV_A_DEV_XDP_RX_METADATA_FEATURES 5 u64 flags=xdp-rx-\
    metadata\n  attr NETDEV_A_DEV_XSK_FEATURES 6 u64 flags=xsk-flags\n\nset page-pool\n  attr NETD\
    EV_A_PAGE_POOL_ID 1 uint range=1..4294967295\n  attr NETDEV_A_PAGE_POOL_IFINDEX 2 u32 range=1.\
    .2147483647\n  attr NETDEV_A_PAGE_POOL_NAPI_ID 3 uint range=1..4294967295\n  attr NETDEV_A_PAG\
    E_POOL_INFLIGHT 4 uint\n  attr NETDEV_A_PAGE_POOL_INFLIGHT_MEM 5 uint\n  attr NETDEV_A_PAGE_PO\
    OL_DETACH_TIME 6 uint\n  attr NETDEV_A_PAGE_POOL_DMABUF 7 u32\n\nset page-pool-stats\n  attr N\
    ETDEV_A_PAGE_POOL_STATS_INFO 1 nest=page-pool\n  attr NETDEV_A_PAGE_POOL_STATS_ALLOC_FAST 8 ui\
    nt\n  attr NETDEV_A_PAGE_POOL_STATS_ALLOC_SLOW 9 uint\n  attr NETDEV_A_PAGE_POOL_STATS_ALLOC_S\
    LOW_HIGH_ORDER 10 uint\n  attr NETDEV_A_PAGE_POOL_STATS_ALLOC_EMPTY 11 uint\n  attr NETDEV_A_P\
    AGE_POOL_STATS_ALLOC_REFILL 12 uint\n  attr NETDEV_A_PAGE_POOL_STATS_ALLOC_WAIVE 13 uint\n  at\
    tr NETDEV_A_PAGE_POOL_STATS_RECYCLE_CACHED 14 uint\n  attr NETDEV_A_PAGE_POOL_STATS_RECYCLE_CA\
    CHE_FULL 15 uint\n  attr NETDEV_A_PAGE_POOL_STATS_RECYCLE_RING 16 uint\n  attr NETDEV_A_PAGE_P\
    OOL_STATS_RECYCLE_RING_FULL 17 uint\n  attr NETDEV_A_PAGE_POOL_STATS_RECYCLE_RELEASED_REFCNT 1\
    8 uint\n\nset napi\n  attr NETDEV_A_NAPI_IFINDEX 1 u32 range=1..4294967295\n  attr NETDEV_A_NA\
    PI_ID 2 u32\n  attr NETDEV_A_NAPI_IRQ 3 u32\n  attr NETDEV_A_NAPI_PID 4 u32\n\nset queue\n  at\
    tr NETDEV_A_QUEUE_ID 1 u32\n  attr NETDEV_A_QUEUE_IFINDEX 2 u32 range=1..4294967295\n  attr NE\
    TDEV_A_QUEUE_TYPE 3 u32 enum=queue-type\n  attr NETDEV_A_QUEUE_NAPI_ID 4 u32\n  attr NETDEV_A_\
    QUEUE_DMABUF 5 u32\n\nset qstats\n  attr NETDEV_A_QSTATS_IFINDEX 1 u32 range=1..4294967295\n  \
    attr NETDEV_A_QSTATS_QUEUE_TYPE 2 u32 enum=queue-type\n  attr NETDEV_A_QSTATS_QUEUE_ID 3 u3\
    2\n  attr NETDEV_A_QSTATS_SCOPE 4 uint flags=qstats-scope\n  attr NETDEV_A_QSTATS_RX_PACKETS \
    8 uint\n  attr NETDEV_A_QSTATS_RX_BYTES 9 uint\n  attr NETDEV_A_QSTATS_TX_PACKETS 10 uint\n  a\
    ttr NETDEV_A_QSTATS_TX_BYTES 11 uint\n  attr NETDEV_A_QSTATS_RX_ALLOC_FAIL 12 uint\n  attr NET\
    DEV_A_QSTATS_RX_HW_DROPS 13 uint\n  attr NETDEV_A_QSTATS_RX_HW_DROP_OVERRUNS 14 uint\n  attr N\
    ETDEV_A_QSTATS_RX_CSUM_COMPLETE 15 uint\n  attr NETDEV_A_QSTATS_RX_CSUM_UNNECESSARY 16 uin\
    t\n  attr NETDEV_A_QSTATS_RX_CSUM_NONE 17 uint\n  attr NETDEV_A_QSTATS_RX_CSUM_BAD 18 uint\n  \
    attr NETDEV_A_QSTATS_RX_HW_GRO_PACKETS 19 uint\n  attr NETDEV_A_QSTATS_RX_HW_GRO_BYTES 20 uin\
    t\n  attr NETDEV_A_QSTATS_RX_HW_GRO_WIRE_PACKETS 21 uint\n  attr NETDEV_A_QSTATS_RX_HW_GRO_WIR\
    E_BYTES 22 uint\n  attr NETDEV_A_QSTATS_RX_HW_DROP_RATELIMITS 23 uint\n  attr NETDEV_A_QSTATS_\
    TX_HW_DROPS 24 uint\n  attr NETDEV_A_QSTATS_TX_HW_DROP_ERRORS 25 uint\n  attr NETDEV_A_QSTATS_\
    TX_CSUM_NONE 26 uint\n  attr NETDEV_A_QSTATS_TX_NEEDS_CSUM 27 uint\n  attr NETDEV_A_QSTATS_TX_\
    HW_GSO_PACKETS 28 uint\n  attr NETDEV_A_QSTATS_TX_HW_GSO_BYTES 29 uint\n  attr NETDEV_A_QSTATS\
    _TX_HW_GSO_WIRE_PACKETS 30 uint\n  attr NETDEV_A_QSTATS_TX_HW_GSO_WIRE_BYTES 31 uint\n  attr N\
    ETDEV_A_QSTATS_TX_HW_DROP_RATELIMITS 32 uint\n  attr NETDEV_A_QSTATS_TX_STOP 33 uint\n  attr N\
    ETDEV_A_QSTATS_TX_WAKE 34 uint\n\nset dmabuf\n  attr NETDEV_A_DMABUF_IFINDEX 1 u32 range=1..42\
    94967295\n  attr NETDEV_A_DMABUF_QUEUES 2 nest=queue multi\n  attr NETDEV_A_DMABUF_FD 3 u3\
    2\n  attr NETDEV_A_DMABUF_ID 4 u32 range=1..4294967295\n";

/// The text of `tables/netdev.table`.
pub(crate) fn text() -> &'static [u8]
    ensures { Begins result.now (heading_of table.Netdev) }
{
    TEXT
}
