//! The text of `tables/ovs_flow.table`. Written by `tables/into-crates`.

ghost use Rattle.neli_tables_generic.specs.Tables.{Begins, heading_of};
ghost use Rattle.neli_tables_generic.specs.declared.table.GenericTable.TheVariants as table;

/// The text.
static TEXT: &[u8] = b"\
    # Written by from-specs from the specification ovs_flow.yaml of Linux 6.12 and own/ovs_flow.ta\
    ble.\n\nfamily ovs_flow 16 version=1\n\ngroup ovs_flow\n\nmessage OVS_FLOW_CMD_NEW 1 nest=flow\
    -attrs after=ovs_header\nmessage OVS_FLOW_CMD_GET 3 nest=flow-attrs after=ovs_header\n\nenum o\
    vs-frag-type prefix=OVS_FRAG_TYPE_\n  value none 0\n  value first 1\n  value later 2\n  value \
    any 255\n\nenum ovs-hash-alg\n  value ovs-hash-alg-l4 0\n\nflags ovs-ufid-flags prefix=OVS_UFI\
    D_F_\n  value omit-key 0x1\n  value omit-mask 0x2\n  value omit-actions 0x4\n\nflags ct-state-\
    flags prefix=OVS_CS_F_\n  value new 0x1\n  value established 0x2\n  value related 0x4\n  valu\
    e reply-dir 0x8\n  value invalid 0x10\n  value tracked 0x20\n  value src-nat 0x40\n  value dst\
    -nat 0x80\n\nstruct ovs_header 4\n  field dp_ifindex 0..4 u32\n\nstruct ovs_flow_stats 16\n  f\
    ield n_packets 0..8 u64\n  field n_bytes 8..16 u64\n\nstruct ovs_key_ethernet 12\n  field eth_\
    src 0..6 hardware\n  field eth_dst 6..12 hardware\n\nstruct ovs_key_mpls 4\n  field mpls_lse 0\
    ..4 be32\n\nstruct ovs_key_ipv4 12\n  field ipv4_src 0..4 ipv4\n  field ipv4_dst 4..8 ipv4\n  \
    field ipv4_proto 8..9 u8\n  field ipv4_tos 9..10 u8\n  field ipv4_ttl 10..11 u8\n  field ipv4_\
    frag 11..12 u8 enum=ovs-frag-type\n\nstruct ovs_key_ipv6 40\n  field ipv6_src 0..16 ipv6\n  fi\
    eld ipv6_dst 16..32 ipv6\n  field ipv6_label 32..36 be32\n  field ipv6_proto 36..37 u8\n  fiel\
    d ipv6_tclass 37..38 u8\n  field ipv6_hlimit 38..39 u8\n  field ipv6_frag 39..40 u8\n\nstruct \
    ovs_key_ipv6_exthdrs 2\n  field hdrs 0..2 u16\n\nstruct ovs_key_tcp 4\n  field tcp_src 0..2 be\
    16\n  field tcp_dst 2..4 be16\n\nstruct ovs_key_udp 4\n  field udp_src 0..2 be16\n  field udp_\
    dst 2..4 be16\n\nstruct ovs_key_sctp 4\n  field sctp_src 0..2 be16\n  field sctp_dst 2..4 be1\
    6\n\nstruct ovs_key_icmp 2\n  field icmp_type 0..1 u8\n  field icmp_code 1..2 u8\n\nstruct ovs\
    _key_arp 24\n  field arp_sip 0..4 ipv4\n  field arp_tip 4..8 ipv4\n  field arp_op 8..10 be1\
    6\n  field arp_sha 10..16 hardware\n  field arp_tha 16..22 hardware\n\nstruct ovs_key_nd 2\
    8\n  field nd_target 0..16 ipv6\n  field nd_sll 16..22 hardware\n  field nd_tll 22..28 hardwar\
    e\n\nstruct ovs_key_ct_tuple_ipv4 16\n  field ipv4_src 0..4 ipv4\n  field ipv4_dst 4..8 ipv\
    4\n  field src_port 8..10 be16\n  field dst_port 10..12 be16\n  field ipv4_proto 12..13 u8\n\n\
    struct ovs_action_push_vlan 4\n  field vlan_tpid 0..2 be16\n  field vlan_tci 2..4 be16\n\nstru\
    ct ovs_action_hash 8\n  field hash_alg 0..4 u32\n  field hash_basis 4..8 u32\n\nstruct ovs_act\
    ion_push_mpls 8\n  field mpls_lse 0..4 be32\n  field mpls_ethertype 4..6 be16\n\nstruct ovs_ac\
    tion_add_mpls 8\n  field mpls_lse 0..4 be32\n  field mpls_ethertype 4..6 be16\n  field tun_fla\
    gs 6..8 u16\n\nstruct ovs_key_ct_tuple_ipv6 40\n  field ipv6_src 0..16 ipv6\n  field ipv6_dst \
    16..32 ipv6\n  field src_port 32..34 be16\n  field dst_port 34..36 be16\n  field ipv6_proto 36\
    ..37 u8\n\nstruct ovs_action_push_eth 12\n  field addresses.eth_src 0..6 hardware\n  field add\
    resses.eth_dst 6..12 hardware\n\nstruct mark 8\n  field value 0..4 u32\n  field mask 4..8 u3\
    2\n\nstruct labels 32\n  field value 0..16 bytes\n  field mask 16..32 bytes\n\nstruct ovs_acti\
    on_trunc 4\n  field max_len 0..4 u32\n\nstruct ovs_nsh_key_base 8\n  field flags 0..1 u8\n  fi\
    eld ttl 1..2 u8\n  field mdtype 2..3 u8\n  field np 3..4 u8\n  field path_hdr 4..8 be32\n\nstr\
    uct ovs_nsh_key_md1 16\n  field context 0..16 be32 array\n\nset flow-attrs\n  attr OVS_FLOW_AT\
    TR_KEY 1 nest=key-attrs\n  attr OVS_FLOW_ATTR_ACTIONS 2 nest=action-attrs\n  attr OVS_FLOW_ATT\
    R_STATS 3 struct=ovs_flow_stats\n  attr OVS_FLOW_ATTR_TCP_FLAGS 4 u8\n  attr OVS_FLOW_ATTR_USE\
    D 5 u64\n  attr OVS_FLOW_ATTR_CLEAR 6 flag\n  attr OVS_FLOW_ATTR_MASK 7 nest=key-attrs\n  att\
    r OVS_FLOW_ATTR_PROBE 8 flag\n  attr OVS_FLOW_ATTR_UFID 9 bytes length=1..16\n  attr OVS_FLOW_\
    ATTR_UFID_FLAGS 10 u32 flags=ovs-ufid-flags\n  attr OVS_FLOW_ATTR_PAD 11 pad\n\nset key-attr\
    s\n  attr OVS_KEY_ATTR_ENCAP 1 nest=key-attrs\n  attr OVS_KEY_ATTR_PRIORITY 2 u32\n  attr OVS_\
    KEY_ATTR_IN_PORT 3 u32\n  attr OVS_KEY_ATTR_ETHERNET 4 struct=ovs_key_ethernet\n  attr OVS_KEY\
    _ATTR_VLAN 5 be16\n  attr OVS_KEY_ATTR_ETHERTYPE 6 be16\n  attr OVS_KEY_ATTR_IPV4 7 struct=ovs\
    _key_ipv4\n  attr OVS_KEY_ATTR_IPV6 8 struct=ovs_key_ipv6\n  attr OVS_KEY_ATTR_TCP 9 struct=ov\
    s_key_tcp\n  attr OVS_KEY_ATTR_UDP 10 struct=ovs_key_udp\n  attr OVS_KEY_ATTR_ICMP 11 struct=o\
    vs_key_icmp\n  attr OVS_KEY_ATTR_ICMPV6 12 struct=ovs_key_icmp\n  attr OVS_KEY_ATTR_ARP 13 str\
    uct=ovs_key_arp\n  attr OVS_KEY_ATTR_ND 14 struct=ovs_key_nd\n  attr OVS_KEY_ATTR_SKB_MARK 15 \
    u32\n  attr OVS_KEY_ATTR_TUNNEL 16 nest=tunnel-key-attrs\n  attr OVS_KEY_ATTR_SCTP 17 struct=o\
    vs_key_sctp\n  attr OVS_KEY_ATTR_TCP_FLAGS 18 be16\n  attr OVS_KEY_ATTR_DP_HASH 19 u32\n  att\
    r OVS_KEY_ATTR_RECIRC_ID 20 u32\n  attr OVS_KEY_ATTR_MPLS 21 struct=ovs_key_mpls\n  attr OVS_K\
    EY_ATTR_CT_STATE 22 u32 flags=ct-state-flags\n  attr OVS_KEY_ATTR_CT_ZONE 23 u16\n  attr OVS_K\
    EY_ATTR_CT_MARK 24 u32\n  attr OVS_KEY_ATTR_CT_LABELS 25 bytes\n  attr OVS_KEY_ATTR_CT_ORIG_TU\
    PLE_IPV4 26 struct=ovs_key_ct_tuple_ipv4\n  attr OVS_KEY_ATTR_CT_ORIG_TUPLE_IPV6 27 struct=ovs\
    _key_ct_tuple_ipv6\n  attr OVS_KEY_ATTR_NSH 28 nest=ovs-nsh-key-attrs\n  attr OVS_KEY_ATTR_PAC\
    KET_TYPE 29 be32\n  attr OVS_KEY_ATTR_ND_EXTENSIONS 30 bytes\n  attr OVS_KEY_ATTR_TUNNEL_INFO \
    31 bytes\n  attr OVS_KEY_ATTR_IPV6_EXTHDRS 32 struct=ovs_key_ipv6_exthdrs\n\nset action-attr\
    s\n  attr OVS_ACTION_ATTR_OUTPUT 1 u32\n  attr OVS_ACTION_ATTR_USERSPACE 2 nest=userspace-attr\
    s\n  attr OVS_ACTION_ATTR_SET 3 nest=key-attrs\n  attr OVS_ACTION_ATTR_PUSH_VLAN 4 struct=ovs_\
    action_push_vlan\n  attr OVS_ACTION_ATTR_POP_VLAN 5 flag\n  attr OVS_ACTION_ATTR_SAMPLE 6 nest\
    =sample-attrs\n  attr OVS_ACTION_ATTR_RECIRC 7 u32\n  attr OVS_ACTION_ATTR_HASH 8 struct=ovs_a\
    ction_hash\n  attr OVS_ACTION_ATTR_PUSH_MPLS 9 struct=ovs_action_push_mpls\n  attr OVS_ACTION_\
    ATTR_POP_MPLS 10 be16\n  attr OVS_ACTION_ATTR_SET_MASKED 11 nest=key-attrs\n  attr OVS_ACTION_\
    ATTR_CT 12 nest=ct-attrs\n  attr OVS_ACTION_ATTR_TRUNC 13 struct=ovs_action_trunc\n  attr OVS_\
    ACTION_ATTR_PUSH_ETH 14 struct=ovs_action_push_eth\n  attr OVS_ACTION_ATTR_POP_ETH 15 flag\n  \
    attr OVS_ACTION_ATTR_CT_CLEAR 16 flag\n  attr OVS_ACTION_ATTR_PUSH_NSH 17 nest=ovs-nsh-key-att\
    rs\n  attr OVS_ACTION_ATTR_POP_NSH 18 flag\n  attr OVS_ACTION_ATTR_METER 19 u32\n  attr OVS_AC\
    TION_ATTR_CLONE 20 nest=action-attrs\n  attr OVS_ACTION_ATTR_CHECK_PKT_LEN 21 nest=check-pkt-l\
    en-attrs\n  attr OVS_ACTION_ATTR_ADD_MPLS 22 struct=ovs_action_add_mpls\n  attr OVS_ACTION_ATT\
    R_DEC_TTL 23 nest=dec-ttl-attrs\n  attr OVS_ACTION_ATTR_DROP 24 u32\n  attr OVS_ACTION_ATTR_PS\
    AMPLE 25 nest=psample-attrs\n\nset tunnel-key-attrs\n  attr OVS_TUNNEL_KEY_ATTR_ID 0 be64\n  a\
    ttr OVS_TUNNEL_KEY_ATTR_IPV4_SRC 1 ipv4\n  attr OVS_TUNNEL_KEY_ATTR_IPV4_DST 2 ipv4\n  attr OV\
    S_TUNNEL_KEY_ATTR_TOS 3 u8\n  attr OVS_TUNNEL_KEY_ATTR_TTL 4 u8\n  attr OVS_TUNNEL_KEY_ATTR_DO\
    NT_FRAGMENT 5 flag\n  attr OVS_TUNNEL_KEY_ATTR_CSUM 6 flag\n  attr OVS_TUNNEL_KEY_ATTR_OAM 7 f\
    lag\n  attr OVS_TUNNEL_KEY_ATTR_GENEVE_OPTS 8 bytes\n  attr OVS_TUNNEL_KEY_ATTR_TP_SRC 9 be1\
    6\n  attr OVS_TUNNEL_KEY_ATTR_TP_DST 10 be16\n  attr OVS_TUNNEL_KEY_ATTR_VXLAN_OPTS 11 nest=vx\
    lan-ext-attrs\n  attr OVS_TUNNEL_KEY_ATTR_IPV6_SRC 12 ipv6\n  attr OVS_TUNNEL_KEY_ATTR_IPV6_DS\
    T 13 ipv6\n  attr OVS_TUNNEL_KEY_ATTR_PAD 14 pad\n  attr OVS_TUNNEL_KEY_ATTR_ERSPAN_OPTS 15 by\
    tes\n  attr OVS_TUNNEL_KEY_ATTR_IPV4_INFO_BRIDGE 16 flag\n\nset check-pkt-len-attrs\n  attr OV\
    S_CHECK_PKT_LEN_ATTR_PKT_LEN 1 u16\n  attr OVS_CHECK_PKT_LEN_ATTR_ACTIONS_IF_GREATER 2 nest=ac\
    tion-attrs\n  attr OVS_CHECK_PKT_LEN_ATTR_ACTIONS_IF_LESS_EQUAL 3 nest=action-attrs\n\nset sam\
    ple-attrs\n  attr OVS_SAMPLE_ATTR_PROBABILITY 1 u32\n  attr OVS_SAMPLE_ATTR_ACTIONS 2 nest=act\
    ion-attrs\n\nset userspace-attrs\n  attr OVS_USERSPACE_ATTR_PID 1 u32\n  attr OVS_USERSPACE_AT\
    TR_USERDATA 2 bytes\n  attr OVS_USERSPACE_ATTR_EGRESS_TUN_PORT 3 u32\n  attr OVS_USERSPACE_ATT\
    R_ACTIONS 4 flag\n\nset ovs-nsh-key-attrs\n  attr OVS_NSH_KEY_ATTR_BASE 1 struct=ovs_nsh_key_b\
    ase\n  attr OVS_NSH_KEY_ATTR_MD1 2 struct=ovs_nsh_key_md1\n  attr OVS_NSH_KEY_ATTR_MD2 3 byte\
    s\n\nset ct-attrs\n  attr OVS_CT_ATTR_COMMIT 1 flag\n  attr OVS_CT_ATTR_ZONE 2 u16\n  attr OVS\
    _CT_ATTR_MARK 3 struct=mark\n  attr OVS_CT_ATTR_LABELS 4 struct=labels\n  attr OVS_CT_ATTR_HEL\
    PER 5 text\n  attr OVS_CT_ATTR_NAT 6 nest=nat-attrs\n  attr OVS_CT_ATTR_FORCE_COMMIT 7 fla\
    g\n  attr OVS_CT_ATTR_EVENTMASK 8 u32\n  attr OVS_CT_ATTR_TIMEOUT 9 text\n\nset nat-attrs\n  a\
    ttr OVS_NAT_ATTR_SRC 1 flag\n  attr OVS_NAT_ATTR_DST 2 flag\n  attr OVS_NAT_ATTR_IP_MIN 3 i\
    p\n  attr OVS_NAT_ATTR_IP_MAX 4 ip\n  attr OVS_NAT_ATTR_PROTO_MIN 5 u16\n  attr OVS_NAT_ATTR_P\
    ROTO_MAX 6 u16\n  attr OVS_NAT_ATTR_PERSISTENT 7 flag\n  attr OVS_NAT_ATTR_PROTO_HASH 8 fla\
    g\n  attr OVS_NAT_ATTR_PROTO_RANDOM 9 flag\n\nset dec-ttl-attrs\n  attr OVS_DEC_TTL_ATTR_ACTIO\
    N 1 nest=action-attrs\n\nset vxlan-ext-attrs\n  attr OVS_VXLAN_EXT_GBP 1 u32\n\nset psample-at\
    trs\n  attr OVS_PSAMPLE_ATTR_GROUP 1 u32\n  attr OVS_PSAMPLE_ATTR_COOKIE 2 bytes\n";

/// The text of `tables/ovs_flow.table`.
pub(crate) fn text() -> &'static [u8]
    ensures { Begins result.now (heading_of table.OvsFlow) }
{
    TEXT
}
