//! The text of `tables/conntrack.table`. Written by `tables/into-crates`.

ghost use Rattle.neli_tables_system.specs.Tables.{Begins, heading_of};
ghost use Rattle.neli_tables_system.specs.declared.table.SystemTable.TheVariants as table;

/// The text.
static TEXT: &[u8] = b"\
    # Written by hand from the headers.\n\nfamily conntrack 12\n\ngroup NFNLGRP_CONNTRACK_NEW 1\ng\
    roup NFNLGRP_CONNTRACK_UPDATE 2\ngroup NFNLGRP_CONNTRACK_DESTROY 3\ngroup NFNLGRP_CONNTRACK_EX\
    P_NEW 4\ngroup NFNLGRP_CONNTRACK_EXP_UPDATE 5\ngroup NFNLGRP_CONNTRACK_EXP_DESTROY 6\n\nmessag\
    e IPCTNL_MSG_CT_NEW 256 nest=ct after=nfgenmsg\nmessage IPCTNL_MSG_CT_GET 257 nest=ct after=nf\
    genmsg\nmessage IPCTNL_MSG_CT_DELETE 258 nest=ct after=nfgenmsg\nmessage IPCTNL_MSG_CT_GET_CTR\
    ZERO 259 request nest=ct after=nfgenmsg\n# The kernel replies to 515 under this number.\nmessa\
    ge IPCTNL_MSG_EXP_GET_STATS_CPU 259 reply nest=expect-stats after=nfgenmsg\nmessage IPCTNL_MSG\
    _CT_GET_STATS_CPU 260 nest=stats-cpu after=nfgenmsg\nmessage IPCTNL_MSG_CT_GET_STATS 261 nest=\
    stats-global after=nfgenmsg\nmessage IPCTNL_MSG_CT_GET_DYING 262 nest=ct after=nfgenmsg\nmessa\
    ge IPCTNL_MSG_CT_GET_UNCONFIRMED 263 nest=ct after=nfgenmsg\nmessage IPCTNL_MSG_EXP_NEW 512 ne\
    st=expect after=nfgenmsg\nmessage IPCTNL_MSG_EXP_GET 513 nest=expect after=nfgenmsg\nmessage I\
    PCTNL_MSG_EXP_DELETE 514 nest=expect after=nfgenmsg\nmessage IPCTNL_MSG_EXP_GET_STATS_CPU 515 \
    nest=expect-stats after=nfgenmsg\n\nenum tcp-state prefix=TCP_CONNTRACK_\n  value none 0\n  va\
    lue syn-sent 1\n  value syn-recv 2\n  value established 3\n  value fin-wait 4\n  value close-w\
    ait 5\n  value last-ack 6\n  value time-wait 7\n  value close 8\n  value listen 9\n  value ign\
    ore 11\n  value retrans 12\n  value unack 13\n\nflags status prefix=IPS_\n  value expected 0x\
    1\n  value seen-reply 0x2\n  value assured 0x4\n  value confirmed 0x8\n  value src-nat 0x1\
    0\n  value dst-nat 0x20\n  value seq-adjust 0x40\n  value src-nat-done 0x80\n  value dst-nat-d\
    one 0x100\n  value dying 0x200\n  value fixed-timeout 0x400\n  value template 0x800\n  value u\
    ntracked 0x1000\n  value helper 0x2000\n  value offload 0x4000\n  value hw-offload 0x8000\n\ns\
    truct nfgenmsg 4\n  field nfgen_family 0..1 u8\n  field version 1..2 u8\n  field res_id 2..4 b\
    e16\n\nstruct nf_ct_tcp_flags 2\n  field flags 0..1 u8\n  field mask 1..2 u8\n\nset ct\n  att\
    r CTA_TUPLE_ORIG 1 nest=tuple\n  attr CTA_TUPLE_REPLY 2 nest=tuple\n  attr CTA_STATUS 3 be32 f\
    lags=status\n  attr CTA_PROTOINFO 4 nest=protoinfo\n  attr CTA_HELP 5 nest=help\n  attr CTA_NA\
    T_SRC 6 nest=nat\n  attr CTA_TIMEOUT 7 be32\n  attr CTA_MARK 8 be32\n  attr CTA_COUNTERS_ORIG \
    9 nest=counters\n  attr CTA_COUNTERS_REPLY 10 nest=counters\n  attr CTA_USE 11 be32\n  attr CT\
    A_ID 12 be32\n  attr CTA_NAT_DST 13 nest=nat\n  attr CTA_TUPLE_MASTER 14 nest=tuple\n  attr CT\
    A_SEQ_ADJ_ORIG 15 nest=seqadj\n  attr CTA_SEQ_ADJ_REPLY 16 nest=seqadj\n  attr CTA_SECMARK 17 \
    be32\n  attr CTA_ZONE 18 be16\n  attr CTA_SECCTX 19 nest=secctx\n  attr CTA_TIMESTAMP 20 nest=\
    timestamp\n  attr CTA_MARK_MASK 21 be32\n  attr CTA_LABELS 22 bytes\n  attr CTA_LABELS_MASK 2\
    3 bytes\n  attr CTA_SYNPROXY 24 nest=synproxy\n  attr CTA_FILTER 25 nest=filter\n  attr CTA_ST\
    ATUS_MASK 26 be32 flags=status\n\nset tuple\n  attr CTA_TUPLE_IP 1 nest=ip\n  attr CTA_TUPLE_P\
    ROTO 2 nest=proto\n  attr CTA_TUPLE_ZONE 3 be16\n\nset ip\n  attr CTA_IP_V4_SRC 1 ipv4\n  att\
    r CTA_IP_V4_DST 2 ipv4\n  attr CTA_IP_V6_SRC 3 ipv6\n  attr CTA_IP_V6_DST 4 ipv6\n\nset prot\
    o\n  attr CTA_PROTO_NUM 1 u8\n  attr CTA_PROTO_SRC_PORT 2 be16\n  attr CTA_PROTO_DST_PORT 3 be\
    16\n  attr CTA_PROTO_ICMP_ID 4 be16\n  attr CTA_PROTO_ICMP_TYPE 5 u8\n  attr CTA_PROTO_ICMP_CO\
    DE 6 u8\n  attr CTA_PROTO_ICMPV6_ID 7 be16\n  attr CTA_PROTO_ICMPV6_TYPE 8 u8\n  attr CTA_PROT\
    O_ICMPV6_CODE 9 u8\n\nset protoinfo\n  attr CTA_PROTOINFO_TCP 1 nest=tcp\n  attr CTA_PROTOINFO\
    _DCCP 2 nest=dccp\n  attr CTA_PROTOINFO_SCTP 3 nest=sctp\n\nset tcp\n  attr CTA_PROTOINFO_TCP_\
    STATE 1 u8 enum=tcp-state\n  attr CTA_PROTOINFO_TCP_WSCALE_ORIGINAL 2 u8\n  attr CTA_PROTOINFO\
    _TCP_WSCALE_REPLY 3 u8\n  attr CTA_PROTOINFO_TCP_FLAGS_ORIGINAL 4 struct=nf_ct_tcp_flags\n  at\
    tr CTA_PROTOINFO_TCP_FLAGS_REPLY 5 struct=nf_ct_tcp_flags\n\nset dccp\n  attr CTA_PROTOINFO_DC\
    CP_STATE 1 u8\n  attr CTA_PROTOINFO_DCCP_ROLE 2 u8\n  attr CTA_PROTOINFO_DCCP_HANDSHAKE_SEQ 3 \
    be64\n  attr CTA_PROTOINFO_DCCP_PAD 4 pad\n\nset sctp\n  attr CTA_PROTOINFO_SCTP_STATE 1 u\
    8\n  attr CTA_PROTOINFO_SCTP_VTAG_ORIGINAL 2 be32\n  attr CTA_PROTOINFO_SCTP_VTAG_REPLY 3 be3\
    2\n\nset counters\n  attr CTA_COUNTERS_PACKETS 1 be64\n  attr CTA_COUNTERS_BYTES 2 be64\n  att\
    r CTA_COUNTERS32_PACKETS 3 be32\n  attr CTA_COUNTERS32_BYTES 4 be32\n  attr CTA_COUNTERS_PAD \
    5 pad\n\nset timestamp\n  attr CTA_TIMESTAMP_START 1 be64\n  attr CTA_TIMESTAMP_STOP 2 be6\
    4\n  attr CTA_TIMESTAMP_PAD 3 pad\n\nset nat\n  attr CTA_NAT_V4_MINIP 1 ipv4\n  attr CTA_NAT_V\
    4_MAXIP 2 ipv4\n  attr CTA_NAT_PROTO 3 nest=protonat\n  attr CTA_NAT_V6_MINIP 4 ipv6\n  attr C\
    TA_NAT_V6_MAXIP 5 ipv6\n\nset protonat\n  attr CTA_PROTONAT_PORT_MIN 1 be16\n  attr CTA_PROTON\
    AT_PORT_MAX 2 be16\n\nset seqadj\n  attr CTA_SEQADJ_CORRECTION_POS 1 be32\n  attr CTA_SEQADJ_O\
    FFSET_BEFORE 2 sbe32\n  attr CTA_SEQADJ_OFFSET_AFTER 3 sbe32\n\nset synproxy\n  attr CTA_SYNPR\
    OXY_ISN 1 be32\n  attr CTA_SYNPROXY_ITS 2 be32\n  attr CTA_SYNPROXY_TSOFF 3 be32\n\nset hel\
    p\n  attr CTA_HELP_NAME 1 text\n  attr CTA_HELP_INFO 2 bytes\n\nset secctx\n  attr CTA_SECCTX_\
    NAME 1 text\n\nset filter\n  attr CTA_FILTER_ORIG_FLAGS 1 u32\n  attr CTA_FILTER_REPLY_FLAGS \
    2 u32\n\nset stats-cpu\n  attr CTA_STATS_SEARCHED 1 be32\n  attr CTA_STATS_FOUND 2 be32\n  att\
    r CTA_STATS_NEW 3 be32\n  attr CTA_STATS_INVALID 4 be32\n  attr CTA_STATS_IGNORE 5 be32\n  att\
    r CTA_STATS_DELETE 6 be32\n  attr CTA_STATS_DELETE_LIST 7 be32\n  attr CTA_STATS_INSERT 8 be3\
    2\n  attr CTA_STATS_INSERT_FAILED 9 be32\n  attr CTA_STATS_DROP 10 be32\n  attr CTA_STATS_EARL\
    Y_DROP 11 be32\n  attr CTA_STATS_ERROR 12 be32\n  attr CTA_STATS_SEARCH_RESTART 13 be32\n  att\
    r CTA_STATS_CLASH_RESOLVE 14 be32\n  attr CTA_STATS_CHAIN_TOOLONG 15 be32\n\nset stats-globa\
    l\n  attr CTA_STATS_GLOBAL_ENTRIES 1 be32\n  attr CTA_STATS_GLOBAL_MAX_ENTRIES 2 be32\n\nset e\
    xpect\n  attr CTA_EXPECT_MASTER 1 nest=tuple\n  attr CTA_EXPECT_TUPLE 2 nest=tuple\n  attr CTA\
    _EXPECT_MASK 3 nest=tuple\n  attr CTA_EXPECT_TIMEOUT 4 be32\n  attr CTA_EXPECT_ID 5 be32\n  at\
    tr CTA_EXPECT_HELP_NAME 6 text\n  attr CTA_EXPECT_ZONE 7 be16\n  attr CTA_EXPECT_FLAGS 8 be3\
    2\n  attr CTA_EXPECT_CLASS 9 be32\n  attr CTA_EXPECT_NAT 10 nest=expect-nat\n  attr CTA_EXPECT\
    _FN 11 text\n\nset expect-nat\n  attr CTA_EXPECT_NAT_DIR 1 be32\n  attr CTA_EXPECT_NAT_TUPLE \
    2 nest=tuple\n\nset expect-stats\n  attr CTA_STATS_EXP_NEW 1 be32\n  attr CTA_STATS_EXP_CREAT\
    E 2 be32\n  attr CTA_STATS_EXP_DELETE 3 be32\n";

/// The text of `tables/conntrack.table`.
pub(crate) fn text() -> &'static [u8]
    ensures { Begins result.now (heading_of table.Conntrack) }
{
    TEXT
}
