//! The text of `tables/l2tp.table`. Written by `tables/into-crates`.

ghost use Rattle.neli_tables_generic.specs.Tables.{Begins, heading_of};
ghost use Rattle.neli_tables_generic.specs.declared.table.GenericTable.TheVariants as table;

/// The text.
static TEXT: &[u8] = b"\
    # Written by hand from the headers.\n\nfamily l2tp 16 version=1\n\nmessage L2TP_CMD_TUNNEL_CRE\
    ATE 1 nest=l2tp\nmessage L2TP_CMD_TUNNEL_DELETE 2 nest=l2tp\nmessage L2TP_CMD_TUNNEL_MODIFY 3 \
    nest=l2tp\nmessage L2TP_CMD_TUNNEL_GET 4 nest=l2tp\nmessage L2TP_CMD_SESSION_CREATE 5 nest=l2t\
    p\nmessage L2TP_CMD_SESSION_DELETE 6 nest=l2tp\nmessage L2TP_CMD_SESSION_MODIFY 7 nest=l2tp\nm\
    essage L2TP_CMD_SESSION_GET 8 nest=l2tp\n\nenum pseudowire prefix=L2TP_PWTYPE_\n  value none \
    0\n  value eth-vlan 4\n  value eth 5\n  value ppp 7\n  value ppp-ac 8\n  value ip 11\n\nenum e\
    ncapsulation prefix=L2TP_ENCAPTYPE_\n  value udp 0\n  value ip 1\n\nset l2tp\n  attr L2TP_ATTR\
    _PW_TYPE 1 u16 enum=pseudowire\n  attr L2TP_ATTR_ENCAP_TYPE 2 u16 enum=encapsulation\n  attr L\
    2TP_ATTR_OFFSET 3 u16\n  attr L2TP_ATTR_DATA_SEQ 4 u8\n  attr L2TP_ATTR_L2SPEC_TYPE 5 u8\n  at\
    tr L2TP_ATTR_L2SPEC_LEN 6 u8\n  attr L2TP_ATTR_PROTO_VERSION 7 u8\n  attr L2TP_ATTR_IFNAME 8 z\
    text\n  attr L2TP_ATTR_CONN_ID 9 u32\n  attr L2TP_ATTR_PEER_CONN_ID 10 u32\n  attr L2TP_ATTR_S\
    ESSION_ID 11 u32\n  attr L2TP_ATTR_PEER_SESSION_ID 12 u32\n  attr L2TP_ATTR_UDP_CSUM 13 u8\n  \
    attr L2TP_ATTR_VLAN_ID 14 u16\n  attr L2TP_ATTR_COOKIE 15 bytes\n  attr L2TP_ATTR_PEER_COOKIE \
    16 bytes\n  attr L2TP_ATTR_DEBUG 17 u32\n  attr L2TP_ATTR_RECV_SEQ 18 u8\n  attr L2TP_ATTR_SEN\
    D_SEQ 19 u8\n  attr L2TP_ATTR_LNS_MODE 20 u8\n  attr L2TP_ATTR_USING_IPSEC 21 u8\n  attr L2TP_\
    ATTR_RECV_TIMEOUT 22 u64\n  attr L2TP_ATTR_FD 23 u32\n  attr L2TP_ATTR_IP_SADDR 24 ipv4\n  att\
    r L2TP_ATTR_IP_DADDR 25 ipv4\n  attr L2TP_ATTR_UDP_SPORT 26 u16\n  attr L2TP_ATTR_UDP_DPORT 2\
    7 u16\n  attr L2TP_ATTR_MTU 28 u16\n  attr L2TP_ATTR_MRU 29 u16\n  attr L2TP_ATTR_STATS 30 nes\
    t=stats\n  attr L2TP_ATTR_IP6_SADDR 31 ipv6\n  attr L2TP_ATTR_IP6_DADDR 32 ipv6\n  attr L2TP_A\
    TTR_UDP_ZERO_CSUM6_TX 33 flag\n  attr L2TP_ATTR_UDP_ZERO_CSUM6_RX 34 flag\n  attr L2TP_ATTR_PA\
    D 35 pad\n\nset stats\n  attr L2TP_ATTR_TX_PACKETS 1 u64\n  attr L2TP_ATTR_TX_BYTES 2 u64\n  a\
    ttr L2TP_ATTR_TX_ERRORS 3 u64\n  attr L2TP_ATTR_RX_PACKETS 4 u64\n  attr L2TP_ATTR_RX_BYTES 5 \
    u64\n  attr L2TP_ATTR_RX_SEQ_DISCARDS 6 u64\n  attr L2TP_ATTR_RX_OOS_PACKETS 7 u64\n  attr L2T\
    P_ATTR_RX_ERRORS 8 u64\n  attr L2TP_ATTR_STATS_PAD 9 pad\n  attr L2TP_ATTR_RX_COOKIE_DISCARDS \
    10 u64\n  attr L2TP_ATTR_RX_INVALID 11 u64\n";

/// The text of `tables/l2tp.table`.
pub(crate) fn text() -> &'static [u8]
    ensures { Begins result.now (heading_of table.L2tp) }
{
    TEXT
}
