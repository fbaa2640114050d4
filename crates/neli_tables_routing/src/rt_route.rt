//! The text of `tables/rt_route.table`. Written by `tables/into-crates`.

ghost use Rattle.neli_tables_routing.specs.Tables.{Begins, heading_of};
ghost use Rattle.neli_tables_routing.specs.declared.table.RoutingTable.TheVariants as table;

/// The text.
static TEXT: &[u8] = b"\
    # Written by from-specs from the specification rt_route.yaml of Linux 6.12 and own/rt_route.ta\
    ble.\n\nfamily rt-route 0\n\ngroup RTNLGRP_IPV4_ROUTE 7\ngroup RTNLGRP_IPV6_ROUTE 11\ngroup RT\
    NLGRP_MPLS_ROUTE 27\ngroup RTNLGRP_IPV4_MROUTE 6\ngroup RTNLGRP_IPV6_MROUTE 10\ngroup RTNLGRP_\
    NEXTHOP 32\ngroup RTNLGRP_IPV4_MROUTE_R 30\ngroup RTNLGRP_IPV6_MROUTE_R 31\n\nmessage RTM_NEWR\
    OUTE 24 nest=route-attrs after=rtmsg\nmessage RTM_DELROUTE 25 nest=route-attrs after=rtmsg\nme\
    ssage RTM_GETROUTE 26 nest=route-attrs after=rtmsg\nmessage RTM_NEWNEXTHOP 104 nest=next-hop a\
    fter=nhmsg strict\nmessage RTM_DELNEXTHOP 105 nest=next-hop after=nhmsg strict\nmessage RTM_GE\
    TNEXTHOP 106 nest=next-hop after=nhmsg strict\nmessage RTM_NEWNEXTHOPBUCKET 116 nest=next-hop \
    after=nhmsg\nmessage RTM_DELNEXTHOPBUCKET 117 nest=next-hop after=nhmsg\nmessage RTM_GETNEXTHO\
    PBUCKET 118 nest=next-hop after=nhmsg strict\n\nenum rtm-type prefix=RTN_\n  value unspec \
    0\n  value unicast 1\n  value local 2\n  value broadcast 3\n  value anycast 4\n  value multica\
    st 5\n  value blackhole 6\n  value unreachable 7\n  value prohibit 8\n  value throw 9\n  valu\
    e nat 10\n  value xresolve 11\n\nenum table prefix=RT_TABLE_\n  value unspec 0\n  value compa\
    t 252\n  value default 253\n  value main 254\n  value local 255\n\nenum protocol prefix=RTPROT\
    _\n  value unspec 0\n  value redirect 1\n  value kernel 2\n  value boot 3\n  value static \
    4\n  value gated 8\n  value ra 9\n  value mrt 10\n  value zebra 11\n  value bird 12\n  value d\
    nrouted 13\n  value xorp 14\n  value ntk 15\n  value dhcp 16\n  value mrouted 17\n  value keep\
    alived 18\n  value babel 42\n  value openr 99\n  value bgp 186\n  value isis 187\n  value osp\
    f 188\n  value rip 189\n  value eigrp 192\n\nenum scope prefix=RT_SCOPE_\n  value universe \
    0\n  value site 200\n  value link 253\n  value host 254\n  value nowhere 255\n\nenum encap-typ\
    e prefix=LWTUNNEL_ENCAP_\n  value none 0\n  value mpls 1\n  value ip 2\n  value ila 3\n  valu\
    e ip6 4\n  value seg6 5\n  value bpf 6\n  value seg6-local 7\n  value rpl 8\n  value ioam6 \
    9\n  value xfrm 10\n\nenum preference prefix=ICMPV6_ROUTER_PREF_\n  value medium 0\n  value hi\
    gh 1\n  value invalid 2\n  value low 3\n\nenum group-type prefix=NEXTHOP_GRP_TYPE_\n  value mp\
    ath 0\n  value res 1\n\nenum segment-action prefix=SEG6_LOCAL_ACTION_\n  value unspec 0\n  val\
    ue end 1\n  value end-x 2\n  value end-t 3\n  value end-dx2 4\n  value end-dx6 5\n  value end-\
    dx4 6\n  value end-dt6 7\n  value end-dt4 8\n  value end-b6 9\n  value end-b6-encap 10\n  valu\
    e end-bm 11\n  value end-s 12\n  value end-as 13\n  value end-am 14\n  value end-bpf 15\n  val\
    ue end-dt46 16\n\nenum segments-mode prefix=SEG6_IPTUN_MODE_\n  value inline 0\n  value encap \
    1\n  value l2encap 2\n  value encap-red 3\n  value l2encap-red 4\n\nflags route-flags prefix=R\
    TM_F_\n  value dead 1\n  value pervasive 2\n  value onlink 4\n  value hop-offload 8\n  value l\
    inkdown 16\n  value unresolved 32\n  value hop-trap 64\n  value notify 256\n  value cloned 51\
    2\n  value equalize 1024\n  value prefix 2048\n  value lookup-table 4096\n  value fib-match 81\
    92\n  value offload 16384\n  value trap 32768\n  value offload-failed 536870912\n\nflags hop-f\
    lags prefix=RTNH_F_\n  value dead 1\n  value pervasive 2\n  value onlink 4\n  value offload \
    8\n  value linkdown 16\n  value unresolved 32\n  value trap 64\n\nstruct rtmsg 12\n  field rtm\
    _family 0..1 u8\n  field rtm_dst_len 1..2 u8\n  field rtm_src_len 2..3 u8\n  field rtm_tos 3..\
    4 u8\n  field rtm_table 4..5 u8 enum=table\n  field rtm_protocol 5..6 u8 enum=protocol\n  fiel\
    d rtm_scope 6..7 u8 enum=scope\n  field rtm_type 7..8 u8 enum=rtm-type\n  field rtm_flags 8..1\
    2 u32 flags=route-flags\n\nstruct rta_cacheinfo 32\n  field rta_clntref 0..4 u32\n  field rta_\
    lastuse 4..8 u32\n  field rta_expires 8..12 s32\n  field rta_error 12..16 u32\n  field rta_use\
    d 16..20 u32\n  field rta_id 20..24 u32\n  field rta_ts 24..28 u32\n  field rta_tsage 28..32 u\
    32\n\nstruct rta_mfc_stats 24\n  field mfcs_packets 0..8 u64\n  field mfcs_bytes 8..16 u64\n  \
    field mfcs_wrong_if 16..24 u64\n\nstruct rtvia 18\n  field rtvia_family 0..2 u16\n  field rtvi\
    a_addr 2..18 ip\n\nstruct rtnexthop 8\n  field rtnh_len 0..2 u16\n  field rtnh_flags 2..3 u8 f\
    lags=hop-flags\n  field rtnh_hops 3..4 u8\n  field rtnh_ifindex 4..8 s32\n\nstruct seg6_iptunn\
    el_encap 4108\n  field mode 0..4 s32 enum=segments-mode\n  field nexthdr 4..5 u8\n  field hdrl\
    en 5..6 u8\n  field type 6..7 u8\n  field segments_left 7..8 u8\n  field first_segment 8..9 u\
    8\n  field flags 9..10 u8\n  field tag 10..12 be16\n  field segments 12..4108 struct=in6_addr \
    array\n\nstruct nexthop_grp 8\n  field id 0..4 u32\n  field weight 4..5 u8\n  field weight_hig\
    h 5..6 u8\n  field resvd2 6..8 u16\n\nstruct nhmsg 8\n  field nh_family 0..1 u8\n  field nh_sc\
    ope 1..2 u8 enum=scope\n  field nh_protocol 2..3 u8 enum=protocol\n  field resvd 3..4 u8\n  fi\
    eld nh_flags 4..8 u32 flags=hop-flags\n\nstruct in6_addr 16\n  field s6_addr 0..16 ipv6\n\nstr\
    uct ioam6_trace_hdr 252\n  field namespace_id 0..2 be16\n  field overflow_nodelen 2..3 u8\n  f\
    ield remlen 3..4 u8\n  field type_be32 4..8 be32 hex\n  field data 8..252 bytes\n\nstruct ipv6\
    _sr_hdr 4104\n  field nexthdr 0..1 u8\n  field hdrlen 1..2 u8\n  field type 2..3 u8\n  field s\
    egments_left 3..4 u8\n  field first_segment 4..5 u8\n  field flags 5..6 u8\n  field tag 6..8 b\
    e16\n  field segments 8..4104 struct=in6_addr array\n\nset route-attrs strict-from=30\n  attr \
    RTA_DST 1 choice=route-destination by-family\n  attr RTA_SRC 2 address\n  attr RTA_IIF 3 u3\
    2\n  attr RTA_OIF 4 u32\n  attr RTA_GATEWAY 5 address\n  attr RTA_PRIORITY 6 u32\n  attr RTA_P\
    REFSRC 7 address\n  attr RTA_METRICS 8 nest=rta-metrics\n  attr RTA_MULTIPATH 9 hops=route-att\
    rs after=rtnexthop length=8..65531\n  attr RTA_PROTOINFO 10 bytes\n  attr RTA_FLOW 11 u32\n  a\
    ttr RTA_CACHEINFO 12 struct=rta_cacheinfo\n  attr RTA_SESSION 13 bytes\n  attr RTA_MP_ALGO 14 \
    bytes\n  attr RTA_TABLE 15 u32 enum=table\n  attr RTA_MARK 16 u32\n  attr RTA_MFC_STATS 17 str\
    uct=rta_mfc_stats\n  attr RTA_VIA 18 struct=rtvia\n  attr RTA_NEWDST 19 be32 array\n  attr RTA\
    _PREF 20 u8 enum=preference\n  attr RTA_ENCAP_TYPE 21 u16 enum=encap-type\n  attr RTA_ENCAP 2\
    2 choice=encap-msg by=RTA_ENCAP_TYPE\n  attr RTA_EXPIRES 23 uint\n  attr RTA_PAD 24 bytes\n  a\
    ttr RTA_UID 25 u32\n  attr RTA_TTL_PROPAGATE 26 u8\n  attr RTA_IP_PROTO 27 u8\n  attr RTA_SPOR\
    T 28 be16\n  attr RTA_DPORT 29 be16\n  attr RTA_NH_ID 30 u32\n  attr RTA_FLOWLABEL 31 be32\n\n\
    set rta-metrics\n  attr RTAX_UNSPEC 0 pad\n  attr RTAX_LOCK 1 u32\n  attr RTAX_MTU 2 u32\n  at\
    tr RTAX_WINDOW 3 u32\n  attr RTAX_RTT 4 u32\n  attr RTAX_RTTVAR 5 u32\n  attr RTAX_SSTHRESH 6 \
    u32\n  attr RTAX_CWND 7 u32\n  attr RTAX_ADVMSS 8 u32\n  attr RTAX_REORDERING 9 u32\n  attr RT\
    AX_HOPLIMIT 10 u32\n  attr RTAX_INITCWND 11 u32\n  attr RTAX_FEATURES 12 u32\n  attr RTAX_RTO_\
    MIN 13 u32\n  attr RTAX_INITRWND 14 u32\n  attr RTAX_QUICKACK 15 u32\n  attr RTAX_CC_ALGO 16 t\
    ext\n  attr RTAX_FASTOPEN_NO_COOKIE 17 u32\n\nset mpls\n  attr MPLS_IPTUNNEL_DST 1 be32 array \
    length=4..65531\n  attr MPLS_IPTUNNEL_TTL 2 u8\n\nset tunnel strict-from=8\n  attr LWTUNNEL_IP\
    _ID 1 be64\n  attr LWTUNNEL_IP_DST 2 ipv4\n  attr LWTUNNEL_IP_SRC 3 ipv4\n  attr LWTUNNEL_IP_T\
    TL 4 u8\n  attr LWTUNNEL_IP_TOS 5 u8\n  attr LWTUNNEL_IP_FLAGS 6 be16\n  attr LWTUNNEL_IP_PAD \
    7 pad\n  attr LWTUNNEL_IP_OPTS 8 nest=tunnel-options\n\nset tunnel6 strict-from=8\n  attr LWTU\
    NNEL_IP6_ID 1 be64\n  attr LWTUNNEL_IP6_DST 2 ipv6\n  attr LWTUNNEL_IP6_SRC 3 ipv6\n  attr LWT\
    UNNEL_IP6_HOPLIMIT 4 u8\n  attr LWTUNNEL_IP6_TC 5 u8\n  attr LWTUNNEL_IP6_FLAGS 6 be16\n  att\
    r LWTUNNEL_IP6_PAD 7 pad\n  attr LWTUNNEL_IP6_OPTS 8 nest=tunnel-options\n\nset tunnel-option\
    s\n  attr LWTUNNEL_IP_OPTS_GENEVE 1 nest=geneve-option\n  attr LWTUNNEL_IP_OPTS_VXLAN 2 nest=v\
    xlan-option\n  attr LWTUNNEL_IP_OPTS_ERSPAN 3 nest=erspan-option\n\nset geneve-option\n  attr \
    LWTUNNEL_IP_OPT_GENEVE_CLASS 1 be16\n  attr LWTUNNEL_IP_OPT_GENEVE_TYPE 2 u8\n  attr LWTUNNEL_\
    IP_OPT_GENEVE_DATA 3 bytes length=0..127\n\nset vxlan-option\n  attr LWTUNNEL_IP_OPT_VXLAN_GB\
    P 1 u32\n\nset erspan-option\n  attr LWTUNNEL_IP_OPT_ERSPAN_VER 1 u8\n  attr LWTUNNEL_IP_OPT_E\
    RSPAN_INDEX 2 be32\n  attr LWTUNNEL_IP_OPT_ERSPAN_DIR 3 u8\n  attr LWTUNNEL_IP_OPT_ERSPAN_HWI\
    D 4 u8\n\nset segments\n  attr SEG6_IPTUNNEL_SRH 1 struct=seg6_iptunnel_encap\n\nset next-ho\
    p\n  attr NHA_ID 1 u32\n  attr NHA_GROUP 2 struct=nexthop_grp array\n  attr NHA_GROUP_TYPE 3 u\
    16 enum=group-type\n  attr NHA_BLACKHOLE 4 flag\n  attr NHA_OIF 5 u32\n  attr NHA_GATEWAY 6 ad\
    dress\n  attr NHA_ENCAP_TYPE 7 u16 enum=encap-type\n  attr NHA_ENCAP 8 choice=encap-msg by=NHA\
    _ENCAP_TYPE\n  attr NHA_GROUPS 9 flag\n  attr NHA_MASTER 10 u32\n  attr NHA_FDB 11 flag\n  att\
    r NHA_RES_GROUP 12 nest=resilient-group\n  attr NHA_RES_BUCKET 13 nest=resilient-bucket\n  att\
    r NHA_OP_FLAGS 14 u32\n  attr NHA_GROUP_STATS 15 nest=group-statistics\n  attr NHA_HW_STATS_EN\
    ABLE 16 u32\n  attr NHA_HW_STATS_USED 17 u32\n\nset resilient-group\n  attr NHA_RES_GROUP_PAD \
    0 pad\n  attr NHA_RES_GROUP_BUCKETS 1 u16\n  attr NHA_RES_GROUP_IDLE_TIMER 2 u32\n  attr NHA_R\
    ES_GROUP_UNBALANCED_TIMER 3 u32\n  attr NHA_RES_GROUP_UNBALANCED_TIME 4 u64\n\nset resilient-b\
    ucket\n  attr NHA_RES_BUCKET_PAD 0 pad\n  attr NHA_RES_BUCKET_INDEX 1 u16\n  attr NHA_RES_BUCK\
    ET_IDLE_TIME 2 u64\n  attr NHA_RES_BUCKET_NH_ID 3 u32\n\nset group-statistics\n  attr NHA_GROU\
    P_STATS_ENTRY 1 nest=member-statistics\n\nset member-statistics\n  attr NHA_GROUP_STATS_ENTRY_\
    ID 1 u32\n  attr NHA_GROUP_STATS_ENTRY_PACKETS 2 uint\n  attr NHA_GROUP_STATS_ENTRY_PACKETS_H\
    W 3 uint\n\nset ila\n  attr ILA_ATTR_LOCATOR 1 be64\n  attr ILA_ATTR_IDENTIFIER 2 be64\n  att\
    r ILA_ATTR_LOCATOR_MATCH 3 be64\n  attr ILA_ATTR_IFINDEX 4 s32\n  attr ILA_ATTR_DIR 5 u32\n  a\
    ttr ILA_ATTR_PAD 6 pad\n  attr ILA_ATTR_CSUM_MODE 7 u8\n  attr ILA_ATTR_IDENT_TYPE 8 u8\n  att\
    r ILA_ATTR_HOOK_TYPE 9 u8\n\nset bpf\n  attr LWT_BPF_IN 1 nest=bpf-program\n  attr LWT_BPF_OU\
    T 2 nest=bpf-program\n  attr LWT_BPF_XMIT 3 nest=bpf-program\n  attr LWT_BPF_XMIT_HEADROOM 4 u\
    32\n\nset bpf-program\n  attr LWT_BPF_PROG_FD 1 u32\n  attr LWT_BPF_PROG_NAME 2 text\n\nset se\
    gments-local\n  attr SEG6_LOCAL_ACTION 1 u32 enum=segment-action\n  attr SEG6_LOCAL_SRH 2 stru\
    ct=ipv6_sr_hdr\n  attr SEG6_LOCAL_TABLE 3 u32 enum=table\n  attr SEG6_LOCAL_NH4 4 ipv4\n  att\
    r SEG6_LOCAL_NH6 5 ipv6\n  attr SEG6_LOCAL_IIF 6 u32\n  attr SEG6_LOCAL_OIF 7 u32\n  attr SEG6\
    _LOCAL_BPF 8 nest=segment-program\n  attr SEG6_LOCAL_VRFTABLE 9 u32 enum=table\n  attr SEG6_LO\
    CAL_COUNTERS 10 nest=segment-counters\n  attr SEG6_LOCAL_FLAVORS 11 nest=segment-flavors\n\nse\
    t segment-program\n  attr SEG6_LOCAL_BPF_PROG_UNSPEC 0 pad\n  attr SEG6_LOCAL_BPF_PROG 1 u3\
    2\n  attr SEG6_LOCAL_BPF_PROG_NAME 2 text\n\nset segment-counters\n  attr SEG6_LOCAL_CNT_PAD \
    1 pad\n  attr SEG6_LOCAL_CNT_PACKETS 2 u64\n  attr SEG6_LOCAL_CNT_BYTES 3 u64\n  attr SEG6_LOC\
    AL_CNT_ERRORS 4 u64\n\nset segment-flavors\n  attr SEG6_LOCAL_FLV_OPERATION 1 u32\n  attr SEG6\
    _LOCAL_FLV_LCBLOCK_BITS 2 u8\n  attr SEG6_LOCAL_FLV_LCNODE_FN_BITS 3 u8\n\nset rpl\n  attr RPL\
    _IPTUNNEL_SRH 1 bytes\n\nset ioam6\n  attr IOAM6_IPTUNNEL_MODE 1 u8\n  attr IOAM6_IPTUNNEL_DS\
    T 2 ipv6\n  attr IOAM6_IPTUNNEL_TRACE 3 struct=ioam6_trace_hdr\n  attr IOAM6_IPTUNNEL_FREQ_K \
    4 u32\n  attr IOAM6_IPTUNNEL_FREQ_N 5 u32\n  attr IOAM6_IPTUNNEL_SRC 6 ipv6\n\nset xfrm\n  att\
    r LWT_XFRM_IF_ID 1 u32\n  attr LWT_XFRM_LINK 2 u32\n\nchoice encap-msg\n  case mpls 1 nest=mpl\
    s\n  case ip 2 nest=tunnel\n  case ila 3 nest=ila\n  case ip6 4 nest=tunnel6\n  case seg6 5 ne\
    st=segments\n  case bpf 6 nest=bpf\n  case seg6-local 7 nest=segments-local\n  case rpl 8 nest\
    =rpl\n  case ioam6 9 nest=ioam6\n  case xfrm 10 nest=xfrm\n\nchoice route-destination\n  case \
    AF_MPLS 28 be32 array\n  else other address\n";

/// The text of `tables/rt_route.table`.
pub(crate) fn text() -> &'static [u8]
    ensures { Begins result.now (heading_of table.RtRoute) }
{
    TEXT
}
