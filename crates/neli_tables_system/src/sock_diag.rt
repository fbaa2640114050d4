//! The text of `tables/sock_diag.table`. Written by `tables/into-crates`.

ghost use Rattle.neli_tables_system.specs.Tables.{Begins, heading_of};
ghost use Rattle.neli_tables_system.specs.declared.table.SystemTable.TheVariants as table;

/// The text.
static TEXT: &[u8] = b"\
    # Written by hand from the headers.\n\nfamily sock-diag 4\n\ngroup SKNLGRP_INET_TCP_DESTROY \
    1\ngroup SKNLGRP_INET_UDP_DESTROY 2\ngroup SKNLGRP_INET6_TCP_DESTROY 3\ngroup SKNLGRP_INET6_UD\
    P_DESTROY 4\n\nmessage SOCK_DIAG_BY_FAMILY 20 request family=2 nest=inet-request after=inet_di\
    ag_req_v2\nmessage SOCK_DIAG_BY_FAMILY 20 reply family=2 nest=inet after=inet_diag_msg\nmessag\
    e SOCK_DIAG_BY_FAMILY 20 request family=10 nest=inet-request after=inet_diag_req_v2_ipv6\nmess\
    age SOCK_DIAG_BY_FAMILY 20 reply family=10 nest=inet after=inet_diag_msg_ipv6\nmessage SOCK_DI\
    AG_BY_FAMILY 20 request family=1 struct=unix_diag_req\nmessage SOCK_DIAG_BY_FAMILY 20 reply fa\
    mily=1 nest=unix after=unix_diag_msg\nmessage SOCK_DIAG_BY_FAMILY 20 request family=16 struct=\
    netlink_diag_req\nmessage SOCK_DIAG_BY_FAMILY 20 reply family=16 nest=netlink after=netlink_di\
    ag_msg\nmessage SOCK_DIAG_BY_FAMILY 20 request family=17 struct=packet_diag_req\nmessage SOCK_\
    DIAG_BY_FAMILY 20 reply family=17 nest=packet after=packet_diag_msg\nmessage SOCK_DESTROY 21 f\
    amily=2 nest=inet-request after=inet_diag_req_v2\nmessage SOCK_DESTROY 21 family=10 nest=inet-\
    request after=inet_diag_req_v2_ipv6\n\nenum tcp-state\n  value established 1\n  value syn-sen\
    t 2\n  value syn-recv 3\n  value fin-wait1 4\n  value fin-wait2 5\n  value time-wait 6\n  valu\
    e close 7\n  value close-wait 8\n  value last-ack 9\n  value listen 10\n  value closing 11\n  \
    value new-syn-recv 12\n\n# The bits of struct inet_diag_sockopt, in its order.\nflags socket-o\
    ptions\n  value recverr 0x1\n  value is_icsk 0x2\n  value freebind 0x4\n  value hdrincl 0x\
    8\n  value mc_loop 0x10\n  value transparent 0x20\n  value mc_all 0x40\n  value nodefrag 0x8\
    0\n\nflags more-socket-options\n  value bind_address_no_port 0x1\n  value recverr_rfc4884 0x\
    2\n  value defer_connect 0x4\n\nstruct inet_diag_req_v2 56\n  field sdiag_family 0..1 u8\n  fi\
    eld sdiag_protocol 1..2 u8\n  field idiag_ext 2..3 u8\n  field idiag_states 4..8 u32\n  field \
    id.idiag_sport 8..10 be16\n  field id.idiag_dport 10..12 be16\n  field id.idiag_src 12..16 ipv\
    4\n  field id.idiag_dst 28..32 ipv4\n  field id.idiag_if 44..48 u32\n  field id.idiag_cookie 4\
    8..56 u32 array hex\n\nstruct inet_diag_req_v2_ipv6 56\n  field sdiag_family 0..1 u8\n  field \
    sdiag_protocol 1..2 u8\n  field idiag_ext 2..3 u8\n  field idiag_states 4..8 u32\n  field id.i\
    diag_sport 8..10 be16\n  field id.idiag_dport 10..12 be16\n  field id.idiag_src 12..28 ipv\
    6\n  field id.idiag_dst 28..44 ipv6\n  field id.idiag_if 44..48 u32\n  field id.idiag_cookie 4\
    8..56 u32 array hex\n\nstruct inet_diag_msg 72\n  field idiag_family 0..1 u8\n  field idiag_st\
    ate 1..2 u8 enum=tcp-state\n  field idiag_timer 2..3 u8\n  field idiag_retrans 3..4 u8\n  fiel\
    d id.idiag_sport 4..6 be16\n  field id.idiag_dport 6..8 be16\n  field id.idiag_src 8..12 ipv\
    4\n  field id.idiag_dst 24..28 ipv4\n  field id.idiag_if 40..44 u32\n  field id.idiag_cookie 4\
    4..52 u32 array hex\n  field idiag_expires 52..56 u32\n  field idiag_rqueue 56..60 u32\n  fiel\
    d idiag_wqueue 60..64 u32\n  field idiag_uid 64..68 u32\n  field idiag_inode 68..72 u32\n\nstr\
    uct inet_diag_msg_ipv6 72\n  field idiag_family 0..1 u8\n  field idiag_state 1..2 u8 enum=tcp-\
    state\n  field idiag_timer 2..3 u8\n  field idiag_retrans 3..4 u8\n  field id.idiag_sport 4..\
    6 be16\n  field id.idiag_dport 6..8 be16\n  field id.idiag_src 8..24 ipv6\n  field id.idiag_ds\
    t 24..40 ipv6\n  field id.idiag_if 40..44 u32\n  field id.idiag_cookie 44..52 u32 array he\
    x\n  field idiag_expires 52..56 u32\n  field idiag_rqueue 56..60 u32\n  field idiag_wqueue 60.\
    .64 u32\n  field idiag_uid 64..68 u32\n  field idiag_inode 68..72 u32\n\nstruct inet_diag_memi\
    nfo 16\n  field idiag_rmem 0..4 u32\n  field idiag_wmem 4..8 u32\n  field idiag_fmem 8..12 u3\
    2\n  field idiag_tmem 12..16 u32\n\nstruct unix_diag_req 24\n  field sdiag_family 0..1 u8\n  f\
    ield sdiag_protocol 1..2 u8\n  field udiag_states 4..8 u32\n  field udiag_ino 8..12 u32\n  fie\
    ld udiag_show 12..16 u32\n  field udiag_cookie 16..24 u32 array hex\n\nstruct unix_diag_msg 1\
    6\n  field udiag_family 0..1 u8\n  field udiag_type 1..2 u8\n  field udiag_state 2..3 u8 enum=\
    tcp-state\n  field udiag_ino 4..8 u32\n  field udiag_cookie 8..16 u32 array hex\n\nstruct unix\
    _diag_vfs 8\n  field udiag_vfs_ino 0..4 u32\n  field udiag_vfs_dev 4..8 u32\n\nstruct unix_dia\
    g_rqlen 8\n  field udiag_rqueue 0..4 u32\n  field udiag_wqueue 4..8 u32\n\nstruct netlink_diag\
    _req 20\n  field sdiag_family 0..1 u8\n  field sdiag_protocol 1..2 u8\n  field ndiag_ino 4..8 \
    u32\n  field ndiag_show 8..12 u32\n  field ndiag_cookie 12..20 u32 array hex\n\nstruct netlink\
    _diag_msg 28\n  field ndiag_family 0..1 u8\n  field ndiag_type 1..2 u8\n  field ndiag_protoco\
    l 2..3 u8\n  field ndiag_state 3..4 u8\n  field ndiag_portid 4..8 u32\n  field ndiag_dst_porti\
    d 8..12 u32\n  field ndiag_dst_group 12..16 u32\n  field ndiag_ino 16..20 u32\n  field ndiag_c\
    ookie 20..28 u32 array hex\n\nstruct netlink_diag_ring 16\n  field ndr_block_size 0..4 u32\n  \
    field ndr_block_nr 4..8 u32\n  field ndr_frame_size 8..12 u32\n  field ndr_frame_nr 12..16 u3\
    2\n\nstruct packet_diag_req 20\n  field sdiag_family 0..1 u8\n  field sdiag_protocol 1..2 u\
    8\n  field pdiag_ino 4..8 u32\n  field pdiag_show 8..12 u32\n  field pdiag_cookie 12..20 u32 a\
    rray hex\n\nstruct packet_diag_msg 16\n  field pdiag_family 0..1 u8\n  field pdiag_type 1..2 u\
    8\n  field pdiag_num 2..4 u16\n  field pdiag_ino 4..8 u32\n  field pdiag_cookie 8..16 u32 arra\
    y hex\n\nstruct packet_diag_info 24\n  field pdi_index 0..4 u32\n  field pdi_version 4..8 u3\
    2\n  field pdi_reserve 8..12 u32\n  field pdi_copy_thresh 12..16 u32\n  field pdi_tstamp 16..2\
    0 u32\n  field pdi_flags 20..24 u32\n\nstruct packet_diag_mclist 44\n  field pdmc_index 0..4 u\
    32\n  field pdmc_count 4..8 u32\n  field pdmc_type 8..10 u16\n  field pdmc_alen 10..12 u16\n  \
    field pdmc_addr 12..44 hardware\n\nstruct sock_filter 8\n  field code 0..2 u16\n  field jt 2..\
    3 u8\n  field jf 3..4 u8\n  field k 4..8 u32\n\nstruct tcp_diag_md5sig 100\n  field tcpm_famil\
    y 0..1 u8\n  field tcpm_prefixlen 1..2 u8\n  field tcpm_keylen 2..4 u16\n  field tcpm_addr 4..\
    20 bytes\n  field tcpm_key 20..100 bytes\n\nstruct inet_diag_sockopt 2\n  field options 0..1 u\
    8 flags=socket-options\n  field more_options 1..2 u8 flags=more-socket-options\n\nstruct packe\
    t_diag_ring 28\n  field pdr_block_size 0..4 u32\n  field pdr_block_nr 4..8 u32\n  field pdr_fr\
    ame_size 8..12 u32\n  field pdr_frame_nr 12..16 u32\n  field pdr_retire_tmo 16..20 u32\n  fiel\
    d pdr_sizeof_priv 20..24 u32\n  field pdr_features 24..28 u32\n\nstruct tcp_info 248\n  field \
    tcpi_state 0..1 u8 enum=tcp-state\n  field tcpi_ca_state 1..2 u8\n  field tcpi_retransmits 2..\
    3 u8\n  field tcpi_probes 3..4 u8\n  field tcpi_backoff 4..5 u8\n  field tcpi_options 5..6 u\
    8\n  field tcpi_wscale 6..7 u8 hex\n  field tcpi_delivery_rate_app_limited 7..8 u8 hex\n  fiel\
    d tcpi_rto 8..12 u32\n  field tcpi_ato 12..16 u32\n  field tcpi_snd_mss 16..20 u32\n  field tc\
    pi_rcv_mss 20..24 u32\n  field tcpi_unacked 24..28 u32\n  field tcpi_sacked 28..32 u32\n  fiel\
    d tcpi_lost 32..36 u32\n  field tcpi_retrans 36..40 u32\n  field tcpi_fackets 40..44 u32\n  fi\
    eld tcpi_last_data_sent 44..48 u32\n  field tcpi_last_ack_sent 48..52 u32\n  field tcpi_last_d\
    ata_recv 52..56 u32\n  field tcpi_last_ack_recv 56..60 u32\n  field tcpi_pmtu 60..64 u32\n  fi\
    eld tcpi_rcv_ssthresh 64..68 u32\n  field tcpi_rtt 68..72 u32\n  field tcpi_rttvar 72..76 u3\
    2\n  field tcpi_snd_ssthresh 76..80 u32\n  field tcpi_snd_cwnd 80..84 u32\n  field tcpi_advms\
    s 84..88 u32\n  field tcpi_reordering 88..92 u32\n  field tcpi_rcv_rtt 92..96 u32\n  field tcp\
    i_rcv_space 96..100 u32\n  field tcpi_total_retrans 100..104 u32\n  field tcpi_pacing_rate 104\
    ..112 u64\n  field tcpi_max_pacing_rate 112..120 u64\n  field tcpi_bytes_acked 120..128 u6\
    4\n  field tcpi_bytes_received 128..136 u64\n  field tcpi_segs_out 136..140 u32\n  field tcpi_\
    segs_in 140..144 u32\n  field tcpi_notsent_bytes 144..148 u32\n  field tcpi_min_rtt 148..152 u\
    32\n  field tcpi_data_segs_in 152..156 u32\n  field tcpi_data_segs_out 156..160 u32\n  field t\
    cpi_delivery_rate 160..168 u64\n  field tcpi_busy_time 168..176 u64\n  field tcpi_rwnd_limite\
    d 176..184 u64\n  field tcpi_sndbuf_limited 184..192 u64\n  field tcpi_delivered 192..196 u3\
    2\n  field tcpi_delivered_ce 196..200 u32\n  field tcpi_bytes_sent 200..208 u64\n  field tcpi_\
    bytes_retrans 208..216 u64\n  field tcpi_dsack_dups 216..220 u32\n  field tcpi_reord_seen 220.\
    .224 u32\n  field tcpi_rcv_ooopack 224..228 u32\n  field tcpi_snd_wnd 228..232 u32\n  field tc\
    pi_rcv_wnd 232..236 u32\n  field tcpi_rehash 236..240 u32\n  field tcpi_total_rto 240..242 u1\
    6\n  field tcpi_total_rto_recoveries 242..244 u16\n  field tcpi_total_rto_time 244..248 u3\
    2\n\nstruct tcpvegas_info 16\n  field tcpv_enabled 0..4 u32\n  field tcpv_rttcnt 4..8 u32\n  f\
    ield tcpv_rtt 8..12 u32\n  field tcpv_minrtt 12..16 u32\n\nstruct tcp_dctcp_info 16\n  field d\
    ctcp_enabled 0..2 u16\n  field dctcp_ce_state 2..4 u16\n  field dctcp_alpha 4..8 u32\n  field \
    dctcp_ab_ecn 8..12 u32\n  field dctcp_ab_tot 12..16 u32\n\nstruct tcp_bbr_info 20\n  field bbr\
    _bw_lo 0..4 u32\n  field bbr_bw_hi 4..8 u32\n  field bbr_min_rtt 8..12 u32\n  field bbr_pacing\
    _gain 12..16 u32\n  field bbr_cwnd_gain 16..20 u32\n\nstruct sk_meminfo 36\n  field rmem_allo\
    c 0..4 u32\n  field rcvbuf 4..8 u32\n  field wmem_alloc 8..12 u32\n  field sndbuf 12..16 u3\
    2\n  field fwd_alloc 16..20 u32\n  field wmem_queued 20..24 u32\n  field optmem 24..28 u32\n  \
    field backlog 28..32 u32\n  field drops 32..36 u32\n\nset inet-request\n  attr INET_DIAG_REQ_B\
    YTECODE 1 bytes\n  attr INET_DIAG_REQ_SK_BPF_STORAGES 2 nest=storage-request\n  attr INET_DIAG\
    _REQ_PROTOCOL 3 u32\n\nset inet\n  attr INET_DIAG_MEMINFO 1 struct=inet_diag_meminfo\n  attr I\
    NET_DIAG_INFO 2 struct=tcp_info\n  attr INET_DIAG_VEGASINFO 3 struct=tcpvegas_info\n  attr INE\
    T_DIAG_CONG 4 text\n  attr INET_DIAG_TOS 5 u8\n  attr INET_DIAG_TCLASS 6 u8\n  attr INET_DIAG_\
    SKMEMINFO 7 struct=sk_meminfo\n  attr INET_DIAG_SHUTDOWN 8 u8\n  attr INET_DIAG_DCTCPINFO 9 st\
    ruct=tcp_dctcp_info\n  attr INET_DIAG_PROTOCOL 10 u8\n  attr INET_DIAG_SKV6ONLY 11 u8\n  attr \
    INET_DIAG_LOCALS 12 bytes\n  attr INET_DIAG_PEERS 13 bytes\n  attr INET_DIAG_PAD 14 pad\n  att\
    r INET_DIAG_MARK 15 u32\n  attr INET_DIAG_BBRINFO 16 struct=tcp_bbr_info\n  attr INET_DIAG_CLA\
    SS_ID 17 u32\n  attr INET_DIAG_MD5SIG 18 struct=tcp_diag_md5sig array\n  attr INET_DIAG_ULP_IN\
    FO 19 nest=ulp\n  attr INET_DIAG_SK_BPF_STORAGES 20 nest=storages\n  attr INET_DIAG_CGROUP_ID \
    21 u64\n  attr INET_DIAG_SOCKOPT 22 struct=inet_diag_sockopt\n\nset storage-request\n  attr SK\
    _DIAG_BPF_STORAGE_REQ_MAP_FD 1 u32 multi\n\nset storages\n  attr SK_DIAG_BPF_STORAGE 1 nest=st\
    orage multi\n\nset storage\n  attr SK_DIAG_BPF_STORAGE_PAD 1 pad\n  attr SK_DIAG_BPF_STORAGE_M\
    AP_ID 2 u32\n  attr SK_DIAG_BPF_STORAGE_MAP_VALUE 3 bytes\n\nset ulp\n  attr INET_ULP_INFO_NAM\
    E 1 text\n  attr INET_ULP_INFO_TLS 2 nest=tls\n  attr INET_ULP_INFO_MPTCP 3 nest=mptcp\n\nset \
    mptcp\n  attr MPTCP_SUBFLOW_ATTR_TOKEN_REM 1 u32\n  attr MPTCP_SUBFLOW_ATTR_TOKEN_LOC 2 u3\
    2\n  attr MPTCP_SUBFLOW_ATTR_RELWRITE_SEQ 3 u32\n  attr MPTCP_SUBFLOW_ATTR_MAP_SEQ 4 u64\n  at\
    tr MPTCP_SUBFLOW_ATTR_MAP_SFSEQ 5 u32\n  attr MPTCP_SUBFLOW_ATTR_SSN_OFFSET 6 u32\n  attr MPTC\
    P_SUBFLOW_ATTR_MAP_DATALEN 7 u16\n  attr MPTCP_SUBFLOW_ATTR_FLAGS 8 u32\n  attr MPTCP_SUBFLOW_\
    ATTR_ID_REM 9 u8\n  attr MPTCP_SUBFLOW_ATTR_ID_LOC 10 u8\n  attr MPTCP_SUBFLOW_ATTR_PAD 11 pa\
    d\n\nset tls\n  attr TLS_INFO_VERSION 1 u16\n  attr TLS_INFO_CIPHER 2 u16\n  attr TLS_INFO_TXC\
    ONF 3 u16\n  attr TLS_INFO_RXCONF 4 u16\n  attr TLS_INFO_ZC_RO_TX 5 flag\n  attr TLS_INFO_RX_N\
    O_PAD 6 flag\n\nset unix\n  attr UNIX_DIAG_NAME 0 text\n  attr UNIX_DIAG_VFS 1 struct=unix_dia\
    g_vfs\n  attr UNIX_DIAG_PEER 2 u32\n  attr UNIX_DIAG_ICONS 3 u32 array\n  attr UNIX_DIAG_RQLE\
    N 4 struct=unix_diag_rqlen\n  attr UNIX_DIAG_MEMINFO 5 struct=sk_meminfo\n  attr UNIX_DIAG_SHU\
    TDOWN 6 u8\n  attr UNIX_DIAG_UID 7 u32\n\nset netlink\n  attr NETLINK_DIAG_MEMINFO 0 struct=sk\
    _meminfo\n  attr NETLINK_DIAG_GROUPS 1 u32 array hex\n  attr NETLINK_DIAG_RX_RING 2 struct=net\
    link_diag_ring\n  attr NETLINK_DIAG_TX_RING 3 struct=netlink_diag_ring\n  attr NETLINK_DIAG_FL\
    AGS 4 u32\n\nset packet\n  attr PACKET_DIAG_INFO 0 struct=packet_diag_info\n  attr PACKET_DIAG\
    _MCLIST 1 struct=packet_diag_mclist array\n  attr PACKET_DIAG_RX_RING 2 struct=packet_diag_rin\
    g\n  attr PACKET_DIAG_TX_RING 3 struct=packet_diag_ring\n  attr PACKET_DIAG_FANOUT 4 u32\n  at\
    tr PACKET_DIAG_UID 5 u32\n  attr PACKET_DIAG_MEMINFO 6 struct=sk_meminfo\n  attr PACKET_DIAG_F\
    ILTER 7 struct=sock_filter array\n";

/// The text of `tables/sock_diag.table`.
pub(crate) fn text() -> &'static [u8]
    ensures { Begins result.now (heading_of table.SockDiag) }
{
    TEXT
}
