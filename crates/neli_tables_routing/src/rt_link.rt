//! The text of `tables/rt_link.table`. Written by `tables/into-crates`.

ghost use Rattle.neli_tables_routing.specs.Tables.{Begins, heading_of};
ghost use Rattle.neli_tables_routing.specs.declared.table.RoutingTable.TheVariants as table;

/// The text.
static TEXT: &[u8] = b"\
    # Written by from-specs from the specification rt_link.yaml of Linux 6.12 and own/rt_link.tabl\
    e.\n\nfamily rt-link 0\n\ngroup RTNLGRP_LINK 1\ngroup RTNLGRP_STATS 36\n\nmessage RTM_NEWLINK \
    16 nest=link-attrs after=ifinfomsg\nmessage RTM_DELLINK 17 nest=link-attrs after=ifinfomsg\nme\
    ssage RTM_GETLINK 18 nest=link-attrs after=ifinfomsg\nmessage RTM_SETLINK 19 nest=link-attrs a\
    fter=ifinfomsg\nmessage RTM_NEWSTATS 92 nest=stats-attrs after=if_stats_msg\nmessage RTM_GETST\
    ATS 94 nest=statistics-request after=if_stats_msg strict\nmessage RTM_SETSTATS 95 nest=statist\
    ics-request after=if_stats_msg strict\nmessage RTM_NEWLINKPROP 108 nest=link-attrs after=ifinf\
    omsg strict\nmessage RTM_DELLINKPROP 109 nest=link-attrs after=ifinfomsg strict\nmessage RTM_G\
    ETLINKPROP 110 nest=link-attrs after=ifinfomsg\n\nenum vlan-protocols prefix=ETH_P_\n  value 8\
    021q 33024\n  value 8021ad 34984\n\nenum ifla-vf-link-state-enum prefix=IFLA_VF_LINK_STATE\
    _\n  value auto 0\n  value enable 1\n  value disable 2\n\nenum netkit-policy\n  value forward \
    0\n  value blackhole 2\n\nenum netkit-mode prefix=NETKIT_\n  value l2 0\n  value l3 1\n\nenum \
    hardware-type prefix=ARPHRD_\n  value netrom 0\n  value ether 1\n  value eether 2\n  value ax2\
    5 3\n  value pronet 4\n  value chaos 5\n  value ieee802 6\n  value arcnet 7\n  value appletlk \
    8\n  value dlci 15\n  value atm 19\n  value metricom 23\n  value ieee1394 24\n  value eui64 2\
    7\n  value infiniband 32\n  value slip 256\n  value cslip 257\n  value slip6 258\n  value csli\
    p6 259\n  value rsrvd 260\n  value adapt 264\n  value rose 270\n  value x25 271\n  value hwx2\
    5 272\n  value can 280\n  value mctp 290\n  value ppp 512\n  value cisco 513\n  value lapb 51\
    6\n  value ddcmp 517\n  value rawhdlc 518\n  value rawip 519\n  value tunnel 768\n  value tunn\
    el6 769\n  value frad 770\n  value skip 771\n  value loopback 772\n  value localtlk 773\n  val\
    ue fddi 774\n  value bif 775\n  value sit 776\n  value ipddp 777\n  value ipgre 778\n  value p\
    imreg 779\n  value hippi 780\n  value ash 781\n  value econet 782\n  value irda 783\n  value f\
    cpp 784\n  value fcal 785\n  value fcpl 786\n  value fcfabric 787\n  value ieee802-tr 800\n  v\
    alue ieee80211 801\n  value ieee80211-prism 802\n  value ieee80211-radiotap 803\n  value ieee8\
    02154 804\n  value ieee802154-monitor 805\n  value phonet 820\n  value phonet-pipe 821\n  valu\
    e caif 822\n  value ip6gre 823\n  value netlink 824\n  value 6lowpan 825\n  value vsockmon 82\
    6\n  value none 65534\n  value void 65535\n\nenum operstate prefix=IF_OPER_\n  value unknown \
    0\n  value notpresent 1\n  value down 2\n  value lowerlayerdown 3\n  value testing 4\n  value \
    dormant 5\n  value up 6\n\nenum linkmode prefix=IF_LINK_MODE_\n  value default 0\n  value dorm\
    ant 1\n  value testing 2\n\nenum ipvlan-mode prefix=IPVLAN_MODE_\n  value l2 0\n  value l3 \
    1\n  value l3s 2\n\nenum macsec-validation prefix=MACSEC_VALIDATE_\n  value disabled 0\n  valu\
    e check 1\n  value strict 2\n\nenum macsec-offload prefix=MACSEC_OFFLOAD_\n  value off 0\n  va\
    lue phy 1\n  value mac 2\n\nenum can-state prefix=CAN_STATE_\n  value error-active 0\n  value \
    error-warning 1\n  value error-passive 2\n  value bus-off 3\n  value stopped 4\n  value sleepi\
    ng 5\n\nenum address-generation prefix=IN6_ADDR_GEN_MODE_\n  value eui64 0\n  value none 1\n  \
    value stable-privacy 2\n  value random 3\n\nenum vxlan-df prefix=VXLAN_DF_\n  value unset \
    0\n  value set 1\n  value inherit 2\n\nenum netkit-scrub prefix=NETKIT_SCRUB_\n  value none \
    0\n  value default 1\n\nenum macvlan-mode prefix=MACVLAN_MODE_\n  value private 1\n  value vep\
    a 2\n  value bridge 4\n  value passthru 8\n  value source 16\n\nenum macvlan-address-mode pref\
    ix=MACVLAN_MACADDR_\n  value add 0\n  value del 1\n  value flush 2\n  value set 3\n\nenum tun-\
    type prefix=IFF_\n  value tun 1\n  value tap 2\n\nenum geneve-fragments prefix=GENEVE_DF_\n  v\
    alue unset 0\n  value set 1\n  value inherit 2\n\nenum bond-mode prefix=BOND_MODE_\n  value ro\
    undrobin 0\n  value activebackup 1\n  value xor 2\n  value broadcast 3\n  value 8023ad 4\n  va\
    lue tlb 5\n  value alb 6\n\nenum bond-transmit-policy prefix=BOND_XMIT_POLICY_\n  value layer\
    2 0\n  value layer34 1\n  value layer23 2\n  value encap23 3\n  value encap34 4\n  value vlan-\
    srcmac 5\n\nflags ifinfo-flags prefix=IFF_\n  value up 0x1\n  value broadcast 0x2\n  value deb\
    ug 0x4\n  value loopback 0x8\n  value point-to-point 0x10\n  value no-trailers 0x20\n  value r\
    unning 0x40\n  value no-arp 0x80\n  value promisc 0x100\n  value all-multi 0x200\n  value mast\
    er 0x400\n  value slave 0x800\n  value multicast 0x1000\n  value portsel 0x2000\n  value auto-\
    media 0x4000\n  value dynamic 0x8000\n  value lower-up 0x10000\n  value dormant 0x20000\n  val\
    ue echo 0x40000\n\nflags vlan-flags prefix=VLAN_FLAG_\n  value reorder-hdr 0x1\n  value gvrp 0\
    x2\n  value loose-binding 0x4\n  value mvrp 0x8\n  value bridge-binding 0x10\n\nflags rtext-fi\
    lter prefix=RTEXT_FILTER_\n  value vf 0x1\n  value brvlan 0x2\n  value brvlan-compressed 0x\
    4\n  value skip-stats 0x8\n  value mrp 0x10\n  value cfm-config 0x20\n  value cfm-status 0x4\
    0\n  value mst 0x80\n\nflags macvlan-flags prefix=MACVLAN_FLAG_\n  value nopromisc 1\n  value \
    nodst 2\n\nflags ipvlan-flags prefix=IPVLAN_F_\n  value private 1\n  value vepa 2\n\nstruct rt\
    genmsg 1\n  field family 0..1 u8\n\nstruct ifinfomsg 16\n  field ifi_family 0..1 u8\n  field i\
    fi_type 2..4 u16 enum=hardware-type\n  field ifi_index 4..8 s32\n  field ifi_flags 8..12 u32 f\
    lags=ifinfo-flags\n  field ifi_change 12..16 u32\n\nstruct ifla_bridge_id 8\n  field prio 0..\
    2 be16\n  field addr 2..8 hardware\n\nstruct ifla_cacheinfo 16\n  field max_reasm_len 0..4 u3\
    2\n  field tstamp 4..8 u32\n  field reachable_time 8..12 u32\n  field retrans_time 12..16 u3\
    2\n\nstruct rtnl_link_stats 96\n  field rx_packets 0..4 u32\n  field tx_packets 4..8 u32\n  fi\
    eld rx_bytes 8..12 u32\n  field tx_bytes 12..16 u32\n  field rx_errors 16..20 u32\n  field tx_\
    errors 20..24 u32\n  field rx_dropped 24..28 u32\n  field tx_dropped 28..32 u32\n  field multi\
    cast 32..36 u32\n  field collisions 36..40 u32\n  field rx_length_errors 40..44 u32\n  field r\
    x_over_errors 44..48 u32\n  field rx_crc_errors 48..52 u32\n  field rx_frame_errors 52..56 u3\
    2\n  field rx_fifo_errors 56..60 u32\n  field rx_missed_errors 60..64 u32\n  field tx_aborted_\
    errors 64..68 u32\n  field tx_carrier_errors 68..72 u32\n  field tx_fifo_errors 72..76 u32\n  \
    field tx_heartbeat_errors 76..80 u32\n  field tx_window_errors 80..84 u32\n  field rx_compress\
    ed 84..88 u32\n  field tx_compressed 88..92 u32\n  field rx_nohandler 92..96 u32\n\nstruct rtn\
    l_link_stats64 200\n  field rx_packets 0..8 u64\n  field tx_packets 8..16 u64\n  field rx_byte\
    s 16..24 u64\n  field tx_bytes 24..32 u64\n  field rx_errors 32..40 u64\n  field tx_errors 40.\
    .48 u64\n  field rx_dropped 48..56 u64\n  field tx_dropped 56..64 u64\n  field multicast 64..7\
    2 u64\n  field collisions 72..80 u64\n  field rx_length_errors 80..88 u64\n  field rx_over_err\
    ors 88..96 u64\n  field rx_crc_errors 96..104 u64\n  field rx_frame_errors 104..112 u64\n  fie\
    ld rx_fifo_errors 112..120 u64\n  field rx_missed_errors 120..128 u64\n  field tx_aborted_erro\
    rs 128..136 u64\n  field tx_carrier_errors 136..144 u64\n  field tx_fifo_errors 144..152 u6\
    4\n  field tx_heartbeat_errors 152..160 u64\n  field tx_window_errors 160..168 u64\n  field rx\
    _compressed 168..176 u64\n  field tx_compressed 176..184 u64\n  field rx_nohandler 184..192 u6\
    4\n  field rx_otherhost_dropped 192..200 u64\n\nstruct rtnl_link_ifmap 32\n  field mem_start 0\
    ..8 u64\n  field mem_end 8..16 u64\n  field base_addr 16..24 u64\n  field irq 24..26 u16\n  fi\
    eld dma 26..27 u8\n  field port 27..28 u8\n\nstruct ipv4_devconf 132\n  field forwarding 0..4 \
    s32\n  field mc_forwarding 4..8 s32\n  field proxy_arp 8..12 s32\n  field accept_redirects 12.\
    .16 s32\n  field secure_redirects 16..20 s32\n  field send_redirects 20..24 s32\n  field share\
    d_media 24..28 s32\n  field rp_filter 28..32 s32\n  field accept_source_route 32..36 s32\n  fi\
    eld bootp_relay 36..40 s32\n  field log_martians 40..44 s32\n  field tag 44..48 s32\n  field a\
    rpfilter 48..52 s32\n  field medium_id 52..56 s32\n  field noxfrm 56..60 s32\n  field nopolic\
    y 60..64 s32\n  field force_igmp_version 64..68 s32\n  field arp_announce 68..72 s32\n  field \
    arp_ignore 72..76 s32\n  field promote_secondaries 76..80 s32\n  field arp_accept 80..84 s3\
    2\n  field arp_notify 84..88 s32\n  field accept_local 88..92 s32\n  field src_vmark 92..96 s3\
    2\n  field proxy_arp_pvlan 96..100 s32\n  field route_localnet 100..104 s32\n  field igmpv2_un\
    solicited_report_interval 104..108 s32\n  field igmpv3_unsolicited_report_interval 108..112 s3\
    2\n  field ignore_routes_with_linkdown 112..116 s32\n  field drop_unicast_in_l2_multicast 116.\
    .120 s32\n  field drop_gratuitous_arp 120..124 s32\n  field bc_forwarding 124..128 s32\n  fiel\
    d arp_evict_nocarrier 128..132 s32\n\nstruct ipv6_devconf 240\n  field forwarding 0..4 s32\n  \
    field hoplimit 4..8 s32\n  field mtu6 8..12 s32\n  field accept_ra 12..16 s32\n  field accept_\
    redirects 16..20 s32\n  field autoconf 20..24 s32\n  field dad_transmits 24..28 s32\n  field r\
    tr_solicits 28..32 s32\n  field rtr_solicit_interval 32..36 s32\n  field rtr_solicit_delay 36.\
    .40 s32\n  field use_tempaddr 40..44 s32\n  field temp_valid_lft 44..48 s32\n  field temp_pref\
    ered_lft 48..52 s32\n  field regen_max_retry 52..56 s32\n  field max_desync_factor 56..60 s3\
    2\n  field max_addresses 60..64 s32\n  field force_mld_version 64..68 s32\n  field accept_ra_d\
    efrtr 68..72 s32\n  field accept_ra_pinfo 72..76 s32\n  field accept_ra_rtr_pref 76..80 s3\
    2\n  field rtr_probe_interval 80..84 s32\n  field accept_ra_rt_info_max_plen 84..88 s32\n  fie\
    ld proxy_ndp 88..92 s32\n  field optimistic_dad 92..96 s32\n  field accept_source_route 96..10\
    0 s32\n  field mc_forwarding 100..104 s32\n  field disable_ipv6 104..108 s32\n  field accept_d\
    ad 108..112 s32\n  field force_tllao 112..116 s32\n  field ndisc_notify 116..120 s32\n  field \
    mldv1_unsolicited_report_interval 120..124 s32\n  field mldv2_unsolicited_report_interval 124.\
    .128 s32\n  field suppress_frag_ndisc 128..132 s32\n  field accept_ra_from_local 132..136 s3\
    2\n  field use_optimistic 136..140 s32\n  field accept_ra_mtu 140..144 s32\n  field stable_sec\
    ret 144..148 s32\n  field use_oif_addrs_only 148..152 s32\n  field accept_ra_min_hop_limit 152\
    ..156 s32\n  field ignore_routes_with_linkdown 156..160 s32\n  field drop_unicast_in_l2_multic\
    ast 160..164 s32\n  field drop_unsolicited_na 164..168 s32\n  field keep_addr_on_down 168..17\
    2 s32\n  field rtr_solicit_max_interval 172..176 s32\n  field seg6_enabled 176..180 s32\n  fie\
    ld seg6_require_hmac 180..184 s32\n  field enhanced_dad 184..188 s32\n  field addr_gen_mode 18\
    8..192 s32\n  field disable_policy 192..196 s32\n  field accept_ra_rt_info_min_plen 196..200 s\
    32\n  field ndisc_tclass 200..204 s32\n  field rpl_seg_enabled 204..208 s32\n  field ra_defrtr\
    _metric 208..212 s32\n  field ioam6_enabled 212..216 s32\n  field ioam6_id 216..220 s32\n  fie\
    ld ioam6_id_wide 220..224 s32\n  field ndisc_evict_nocarrier 224..228 s32\n  field accept_untr\
    acked_na 228..232 s32\n  field accept_ra_min_lft 232..236 s32\n  field force_forwarding 236..2\
    40 s32\n\nstruct ifla_icmp6_stats 56\n  field num 0..8 u64\n  field inmsgs 8..16 u64\n  field \
    inerrors 16..24 u64\n  field outmsgs 24..32 u64\n  field outerrors 32..40 u64\n  field csumerr\
    ors 40..48 u64\n  field ratelimithost 48..56 u64\n\nstruct ifla_inet6_stats 304\n  field num 0\
    ..8 u64\n  field inpkts 8..16 u64\n  field inoctets 16..24 u64\n  field indelivers 24..32 u6\
    4\n  field outforwdatagrams 32..40 u64\n  field outrequests 40..48 u64\n  field outoctets 48..\
    56 u64\n  field inhdrerrors 56..64 u64\n  field intoobigerrors 64..72 u64\n  field innoroutes \
    72..80 u64\n  field inaddrerrors 80..88 u64\n  field inunknownprotos 88..96 u64\n  field intru\
    ncatedpkts 96..104 u64\n  field indiscards 104..112 u64\n  field outdiscards 112..120 u64\n  f\
    ield outnoroutes 120..128 u64\n  field reasmtimeout 128..136 u64\n  field reasmreqds 136..144 \
    u64\n  field reasmoks 144..152 u64\n  field reasmfails 152..160 u64\n  field fragoks 160..168 \
    u64\n  field fragfails 168..176 u64\n  field fragcreates 176..184 u64\n  field inmcastpkts 184\
    ..192 u64\n  field outmcastpkts 192..200 u64\n  field inbcastpkts 200..208 u64\n  field outbca\
    stpkts 208..216 u64\n  field inmcastoctets 216..224 u64\n  field outmcastoctets 224..232 u6\
    4\n  field inbcastoctets 232..240 u64\n  field outbcastoctets 240..248 u64\n  field csumerror\
    s 248..256 u64\n  field noectpkts 256..264 u64\n  field ect1pkts 264..272 u64\n  field ect0pkt\
    s 272..280 u64\n  field cepkts 280..288 u64\n  field reasm_overlaps 288..296 u64\n  field outp\
    kts 296..304 u64\n\nstruct br_boolopt_multi 8\n  field optval 0..4 u32\n  field optmask 4..8 u\
    32\n\nstruct if_stats_msg 12\n  field family 0..1 u8\n  field ifindex 4..8 u32\n  field filter\
    _mask 8..12 u32\n\nstruct ifla_vlan_flags 8\n  field flags 0..4 u32 flags=vlan-flags\n  field \
    mask 4..8 u32\n\nstruct ifla_vlan_qos_mapping 8\n  field from 0..4 u32\n  field to 4..8 u3\
    2\n\nstruct ifla_vf_mac 36\n  field vf 0..4 u32\n  field mac 4..36 hardware\n\nstruct ifla_vf_\
    vlan 12\n  field vf 0..4 u32\n  field vlan 4..8 u32\n  field qos 8..12 u32\n\nstruct ifla_vf_t\
    x_rate 8\n  field vf 0..4 u32\n  field rate 4..8 u32\n\nstruct ifla_vf_spoofchk 8\n  field vf \
    0..4 u32\n  field setting 4..8 u32\n\nstruct ifla_vf_link_state 8\n  field vf 0..4 u32\n  fiel\
    d link_state 4..8 u32 enum=ifla-vf-link-state-enum\n\nstruct ifla_vf_rate 12\n  field vf 0..4 \
    u32\n  field min_tx_rate 4..8 u32\n  field max_tx_rate 8..12 u32\n\nstruct ifla_vf_rss_query_e\
    n 8\n  field vf 0..4 u32\n  field setting 4..8 u32\n\nstruct ifla_vf_trust 8\n  field vf 0..4 \
    u32\n  field setting 4..8 u32\n\nstruct ifla_vf_guid 16\n  field vf 0..4 u32\n  field guid 8..\
    16 u64\n\nstruct ifla_vf_vlan_info 16\n  field vf 0..4 u32\n  field vlan 4..8 u32\n  field qo\
    s 8..12 u32\n  field vlan_proto 12..14 be16\n\nstruct ifla_vxlan_port_range 4\n  field low 0..\
    2 be16\n  field high 2..4 be16\n\nstruct bridge_vlan_info 4\n  field flags 0..2 u16\n  field v\
    id 2..4 u16\n\nstruct ifla_vf_broadcast 32\n  field broadcast 0..32 hardware\n\nstruct ifla_po\
    rt_vsi 8\n  field vsi_mgr_id 0..1 u8\n  field vsi_type_id 1..4 bytes\n  field vsi_type_versio\
    n 4..5 u8\n\nstruct can_bittiming 32\n  field bitrate 0..4 u32\n  field sample_point 4..8 u3\
    2\n  field tq 8..12 u32\n  field prop_seg 12..16 u32\n  field phase_seg1 16..20 u32\n  field p\
    hase_seg2 20..24 u32\n  field sjw 24..28 u32\n  field brp 28..32 u32\n\nstruct can_bittiming_c\
    onst 48\n  field name 0..16 text\n  field tseg1_min 16..20 u32\n  field tseg1_max 20..24 u3\
    2\n  field tseg2_min 24..28 u32\n  field tseg2_max 28..32 u32\n  field sjw_max 32..36 u32\n  f\
    ield brp_min 36..40 u32\n  field brp_max 40..44 u32\n  field brp_inc 44..48 u32\n\nstruct can_\
    ctrlmode 8\n  field mask 0..4 u32\n  field flags 4..8 u32\n\nstruct can_berr_counter 4\n  fiel\
    d txerr 0..2 u16\n  field rxerr 2..4 u16\n\nstruct ifla_rmnet_flags 8\n  field flags 0..4 u3\
    2\n  field mask 4..8 u32\n\nstruct can_device_stats 24\n  field bus_error 0..4 u32\n  field er\
    ror_warning 4..8 u32\n  field error_passive 8..12 u32\n  field bus_off 12..16 u32\n  field arb\
    itration_lost 16..20 u32\n  field restarts 20..24 u32\n\nstruct bridge_vlan_xstats 40\n  fiel\
    d rx_bytes 0..8 u64\n  field rx_packets 8..16 u64\n  field tx_bytes 16..24 u64\n  field tx_pac\
    kets 24..32 u64\n  field vid 32..34 u16\n  field flags 34..36 u16\n\nstruct br_mcast_stats 24\
    0\n  field igmp_v1queries 0..16 u64 array\n  field igmp_v2queries 16..32 u64 array\n  field ig\
    mp_v3queries 32..48 u64 array\n  field igmp_leaves 48..64 u64 array\n  field igmp_v1reports 64\
    ..80 u64 array\n  field igmp_v2reports 80..96 u64 array\n  field igmp_v3reports 96..112 u64 ar\
    ray\n  field igmp_parse_errors 112..120 u64\n  field mld_v1queries 120..136 u64 array\n  fiel\
    d mld_v2queries 136..152 u64 array\n  field mld_leaves 152..168 u64 array\n  field mld_v1repor\
    ts 168..184 u64 array\n  field mld_v2reports 184..200 u64 array\n  field mld_parse_errors 200.\
    .208 u64\n  field mcast_bytes 208..224 u64 array\n  field mcast_packets 224..240 u64 array\n\n\
    struct bridge_stp_xstats 48\n  field transition_blk 0..8 u64\n  field transition_fwd 8..16 u6\
    4\n  field rx_bpdu 16..24 u64\n  field tx_bpdu 24..32 u64\n  field rx_tcn 32..40 u64\n  field \
    tx_tcn 40..48 u64\n\nstruct mpls_link_stats 72\n  field rx_packets 0..8 u64\n  field tx_packet\
    s 8..16 u64\n  field rx_bytes 16..24 u64\n  field tx_bytes 24..32 u64\n  field rx_errors 32..4\
    0 u64\n  field tx_errors 40..48 u64\n  field rx_dropped 48..56 u64\n  field tx_dropped 56..64 \
    u64\n  field rx_noroute 64..72 u64\n\nstruct rtnl_hw_stats64 72\n  field rx_packets 0..8 u6\
    4\n  field tx_packets 8..16 u64\n  field rx_bytes 16..24 u64\n  field tx_bytes 24..32 u64\n  f\
    ield rx_errors 32..40 u64\n  field tx_errors 40..48 u64\n  field rx_dropped 48..56 u64\n  fiel\
    d tx_dropped 56..64 u64\n  field multicast 64..72 u64\n\nset link-attrs\n  attr IFLA_ADDRESS \
    1 hardware length=0..32\n  attr IFLA_BROADCAST 2 hardware length=0..32\n  attr IFLA_IFNAME 3 t\
    ext length=1..15\n  attr IFLA_MTU 4 u32\n  attr IFLA_LINK 5 u32\n  attr IFLA_QDISC 6 text\n  a\
    ttr IFLA_STATS 7 struct=rtnl_link_stats\n  attr IFLA_COST 8 text\n  attr IFLA_PRIORITY 9 tex\
    t\n  attr IFLA_MASTER 10 u32\n  attr IFLA_WIRELESS 11 bytes\n  attr IFLA_PROTINFO 12 choice=pr\
    otinfo-msg by-family\n  attr IFLA_TXQLEN 13 u32 range=0..32767\n  attr IFLA_MAP 14 struct=rtnl\
    _link_ifmap length=32..65531\n  attr IFLA_WEIGHT 15 u32\n  attr IFLA_OPERSTATE 16 u8 enum=oper\
    state\n  attr IFLA_LINKMODE 17 u8 enum=linkmode\n  attr IFLA_LINKINFO 18 nest=linkinfo-attr\
    s\n  attr IFLA_NET_NS_PID 19 u32\n  attr IFLA_IFALIAS 20 text length=0..255\n  attr IFLA_NUM_V\
    F 21 u32\n  attr IFLA_VFINFO_LIST 22 nest=vfinfo-list-attrs\n  attr IFLA_STATS64 23 struct=rtn\
    l_link_stats64\n  attr IFLA_VF_PORTS 24 nest=vf-ports-attrs\n  attr IFLA_PORT_SELF 25 nest=fun\
    ction-port\n  attr IFLA_AF_SPEC 26 choice=af-spec-msg by-family\n  attr IFLA_GROUP 27 u32\n  a\
    ttr IFLA_NET_NS_FD 28 u32\n  attr IFLA_EXT_MASK 29 u32 flags=rtext-filter\n  attr IFLA_PROMISC\
    UITY 30 u32\n  attr IFLA_NUM_TX_QUEUES 31 u32\n  attr IFLA_NUM_RX_QUEUES 32 u32\n  attr IFLA_C\
    ARRIER 33 u8\n  attr IFLA_PHYS_PORT_ID 34 bytes length=0..32\n  attr IFLA_CARRIER_CHANGES 35 u\
    32\n  attr IFLA_PHYS_SWITCH_ID 36 bytes length=0..32\n  attr IFLA_LINK_NETNSID 37 s32\n  attr \
    IFLA_PHYS_PORT_NAME 38 text\n  attr IFLA_PROTO_DOWN 39 u8\n  attr IFLA_GSO_MAX_SEGS 40 u32\n  \
    attr IFLA_GSO_MAX_SIZE 41 u32\n  attr IFLA_PAD 42 pad\n  attr IFLA_XDP 43 nest=xdp-attrs\n  at\
    tr IFLA_EVENT 44 u32\n  attr IFLA_NEW_NETNSID 45 s32\n  attr IFLA_TARGET_NETNSID 46 s32\n  att\
    r IFLA_CARRIER_UP_COUNT 47 u32\n  attr IFLA_CARRIER_DOWN_COUNT 48 u32\n  attr IFLA_NEW_IFINDE\
    X 49 s32\n  attr IFLA_MIN_MTU 50 u32\n  attr IFLA_MAX_MTU 51 u32\n  attr IFLA_PROP_LIST 52 nes\
    t=link-attrs\n  attr IFLA_ALT_IFNAME 53 text length=1..127 multi\n  attr IFLA_PERM_ADDRESS 54 \
    hardware length=0..32\n  attr IFLA_PROTO_DOWN_REASON 55 nest=proto-down-reason\n  attr IFLA_PA\
    RENT_DEV_NAME 56 ztext\n  attr IFLA_PARENT_DEV_BUS_NAME 57 ztext\n  attr IFLA_GRO_MAX_SIZE 58 \
    u32\n  attr IFLA_TSO_MAX_SIZE 59 u32\n  attr IFLA_TSO_MAX_SEGS 60 u32\n  attr IFLA_ALLMULTI 6\
    1 u32\n  attr IFLA_DEVLINK_PORT 62 nest=devlink-port\n  attr IFLA_GSO_IPV4_MAX_SIZE 63 u32\n  \
    attr IFLA_GRO_IPV4_MAX_SIZE 64 u32\n  attr IFLA_DPLL_PIN 65 nest=link-dpll-pin-attrs\n  attr I\
    FLA_MAX_PACING_OFFLOAD_HORIZON 66 uint\n  attr IFLA_NETNS_IMMUTABLE 67 u8\n  attr IFLA_HEADROO\
    M 68 u16\n  attr IFLA_TAILROOM 69 u16\n\nset af-spec-attrs\n  attr AF_INET 2 nest=ifla-attr\
    s\n  attr AF_INET6 10 nest=ifla6-attrs\n  attr AF_MCTP 45 nest=mctp-attrs\n\nset vfinfo-list-a\
    ttrs\n  attr IFLA_VF_INFO 1 nest=vfinfo-attrs multi\n\nset vfinfo-attrs\n  attr IFLA_VF_MAC 1 \
    struct=ifla_vf_mac length=36..65531\n  attr IFLA_VF_VLAN 2 struct=ifla_vf_vlan length=12..6553\
    1\n  attr IFLA_VF_TX_RATE 3 struct=ifla_vf_tx_rate length=8..65531\n  attr IFLA_VF_SPOOFCHK 4 \
    struct=ifla_vf_spoofchk length=8..65531\n  attr IFLA_VF_LINK_STATE 5 struct=ifla_vf_link_stat\
    e length=8..65531\n  attr IFLA_VF_RATE 6 struct=ifla_vf_rate length=12..65531\n  attr IFLA_VF_\
    RSS_QUERY_EN 7 struct=ifla_vf_rss_query_en length=8..65531\n  attr IFLA_VF_STATS 8 nest=vf-sta\
    ts-attrs\n  attr IFLA_VF_TRUST 9 struct=ifla_vf_trust length=8..65531\n  attr IFLA_VF_IB_NODE_\
    GUID 10 struct=ifla_vf_guid length=16..65531\n  attr IFLA_VF_IB_PORT_GUID 11 struct=ifla_vf_gu\
    id length=16..65531\n  attr IFLA_VF_VLAN_LIST 12 nest=vf-vlan-attrs\n  attr IFLA_VF_BROADCAST \
    13 struct=ifla_vf_broadcast\n\nset vf-stats-attrs\n  attr IFLA_VF_STATS_RX_PACKETS 0 u64\n  at\
    tr IFLA_VF_STATS_TX_PACKETS 1 u64\n  attr IFLA_VF_STATS_RX_BYTES 2 u64\n  attr IFLA_VF_STATS_T\
    X_BYTES 3 u64\n  attr IFLA_VF_STATS_BROADCAST 4 u64\n  attr IFLA_VF_STATS_MULTICAST 5 u64\n  a\
    ttr IFLA_VF_STATS_PAD 6 pad\n  attr IFLA_VF_STATS_RX_DROPPED 7 u64\n  attr IFLA_VF_STATS_TX_DR\
    OPPED 8 u64\n\nset vf-vlan-attrs\n  attr IFLA_VF_VLAN_INFO 1 struct=ifla_vf_vlan_info mult\
    i\n\nset vf-ports-attrs\n  attr IFLA_VF_PORT 1 nest=function-port multi\n\nset port-self-attr\
    s\n\nset linkinfo-attrs\n  attr IFLA_INFO_KIND 1 text\n  attr IFLA_INFO_DATA 2 choice=linkinfo\
    -data-msg by=IFLA_INFO_KIND\n  attr IFLA_INFO_XSTATS 3 choice=linkinfo-statistics by=IFLA_INFO\
    _KIND\n  attr IFLA_INFO_SLAVE_KIND 4 text\n  attr IFLA_INFO_SLAVE_DATA 5 choice=linkinfo-membe\
    r-data-msg by=IFLA_INFO_SLAVE_KIND\n\nset linkinfo-bond-attrs\n  attr IFLA_BOND_MODE 1 u8 enum\
    =bond-mode\n  attr IFLA_BOND_ACTIVE_SLAVE 2 u32\n  attr IFLA_BOND_MIIMON 3 u32\n  attr IFLA_BO\
    ND_UPDELAY 4 u32\n  attr IFLA_BOND_DOWNDELAY 5 u32\n  attr IFLA_BOND_USE_CARRIER 6 u8\n  attr \
    IFLA_BOND_ARP_INTERVAL 7 u32\n  attr IFLA_BOND_ARP_IP_TARGET 8 nest=linkinfo-bond-attrs.arp-ip\
    -target\n  attr IFLA_BOND_ARP_VALIDATE 9 u32\n  attr IFLA_BOND_ARP_ALL_TARGETS 10 u32\n  attr \
    IFLA_BOND_PRIMARY 11 u32\n  attr IFLA_BOND_PRIMARY_RESELECT 12 u8\n  attr IFLA_BOND_FAIL_OVER_\
    MAC 13 u8\n  attr IFLA_BOND_XMIT_HASH_POLICY 14 u8 enum=bond-transmit-policy\n  attr IFLA_BOND\
    _RESEND_IGMP 15 u32\n  attr IFLA_BOND_NUM_PEER_NOTIF 16 u8\n  attr IFLA_BOND_ALL_SLAVES_ACTIV\
    E 17 u8\n  attr IFLA_BOND_MIN_LINKS 18 u32\n  attr IFLA_BOND_LP_INTERVAL 19 u32\n  attr IFLA_B\
    OND_PACKETS_PER_SLAVE 20 u32\n  attr IFLA_BOND_AD_LACP_RATE 21 u8\n  attr IFLA_BOND_AD_SELECT \
    22 u8\n  attr IFLA_BOND_AD_INFO 23 nest=bond-ad-info-attrs\n  attr IFLA_BOND_AD_ACTOR_SYS_PRI\
    O 24 u16\n  attr IFLA_BOND_AD_USER_PORT_KEY 25 u16\n  attr IFLA_BOND_AD_ACTOR_SYSTEM 26 hardwa\
    re length=0..6\n  attr IFLA_BOND_TLB_DYNAMIC_LB 27 u8\n  attr IFLA_BOND_PEER_NOTIF_DELAY 28 u3\
    2\n  attr IFLA_BOND_AD_LACP_ACTIVE 29 u8\n  attr IFLA_BOND_MISSED_MAX 30 u8\n  attr IFLA_BOND_\
    NS_IP6_TARGET 31 nest=linkinfo-bond-attrs.ns-ip6-target\n  attr IFLA_BOND_COUPLED_CONTROL 32 u\
    8\n  attr IFLA_BOND_BROADCAST_NEIGH 33 u8\n\nset linkinfo-bond-attrs.arp-ip-target\n  each ind\
    ex ipv4\n\nset linkinfo-bond-attrs.ns-ip6-target\n  each index ip\n\nset bond-ad-info-attr\
    s\n  attr IFLA_BOND_AD_INFO_AGGREGATOR 1 u16\n  attr IFLA_BOND_AD_INFO_NUM_PORTS 2 u16\n  att\
    r IFLA_BOND_AD_INFO_ACTOR_KEY 3 u16\n  attr IFLA_BOND_AD_INFO_PARTNER_KEY 4 u16\n  attr IFLA_B\
    OND_AD_INFO_PARTNER_MAC 5 hardware length=0..6\n\nset bond-slave-attrs\n  attr IFLA_BOND_SLAVE\
    _STATE 1 u8\n  attr IFLA_BOND_SLAVE_MII_STATUS 2 u8\n  attr IFLA_BOND_SLAVE_LINK_FAILURE_COUN\
    T 3 u32\n  attr IFLA_BOND_SLAVE_PERM_HWADDR 4 hardware length=0..32\n  attr IFLA_BOND_SLAVE_QU\
    EUE_ID 5 u16\n  attr IFLA_BOND_SLAVE_AD_AGGREGATOR_ID 6 u16\n  attr IFLA_BOND_SLAVE_AD_ACTOR_O\
    PER_PORT_STATE 7 u8\n  attr IFLA_BOND_SLAVE_AD_PARTNER_OPER_PORT_STATE 8 u16\n  attr IFLA_BOND\
    _SLAVE_PRIO 9 s32\n  attr IFLA_BOND_SLAVE_ACTOR_PORT_PRIO 10 u16\n  attr IFLA_BOND_SLAVE_AD_CH\
    URN_ACTOR_STATE 11 u8\n  attr IFLA_BOND_SLAVE_AD_CHURN_PARTNER_STATE 12 u8\n\nset linkinfo-bri\
    dge-attrs strict-from=48\n  attr IFLA_BR_FORWARD_DELAY 1 u32\n  attr IFLA_BR_HELLO_TIME 2 u3\
    2\n  attr IFLA_BR_MAX_AGE 3 u32\n  attr IFLA_BR_AGEING_TIME 4 u32\n  attr IFLA_BR_STP_STATE 5 \
    u32\n  attr IFLA_BR_PRIORITY 6 u16\n  attr IFLA_BR_VLAN_FILTERING 7 u8\n  attr IFLA_BR_VLAN_PR\
    OTOCOL 8 be16 enum=vlan-protocols\n  attr IFLA_BR_GROUP_FWD_MASK 9 u16\n  attr IFLA_BR_ROOT_I\
    D 10 struct=ifla_bridge_id\n  attr IFLA_BR_BRIDGE_ID 11 struct=ifla_bridge_id\n  attr IFLA_BR_\
    ROOT_PORT 12 u16\n  attr IFLA_BR_ROOT_PATH_COST 13 u32\n  attr IFLA_BR_TOPOLOGY_CHANGE 14 u\
    8\n  attr IFLA_BR_TOPOLOGY_CHANGE_DETECTED 15 u8\n  attr IFLA_BR_HELLO_TIMER 16 u64\n  attr IF\
    LA_BR_TCN_TIMER 17 u64\n  attr IFLA_BR_TOPOLOGY_CHANGE_TIMER 18 u64\n  attr IFLA_BR_GC_TIMER 1\
    9 u64\n  attr IFLA_BR_GROUP_ADDR 20 hardware length=0..6\n  attr IFLA_BR_FDB_FLUSH 21 flag\n  \
    attr IFLA_BR_MCAST_ROUTER 22 u8\n  attr IFLA_BR_MCAST_SNOOPING 23 u8\n  attr IFLA_BR_MCAST_QUE\
    RY_USE_IFADDR 24 u8\n  attr IFLA_BR_MCAST_QUERIER 25 u8\n  attr IFLA_BR_MCAST_HASH_ELASTICITY \
    26 u32\n  attr IFLA_BR_MCAST_HASH_MAX 27 u32\n  attr IFLA_BR_MCAST_LAST_MEMBER_CNT 28 u32\n  a\
    ttr IFLA_BR_MCAST_STARTUP_QUERY_CNT 29 u32\n  attr IFLA_BR_MCAST_LAST_MEMBER_INTVL 30 u64\n  a\
    ttr IFLA_BR_MCAST_MEMBERSHIP_INTVL 31 u64\n  attr IFLA_BR_MCAST_QUERIER_INTVL 32 u64\n  attr I\
    FLA_BR_MCAST_QUERY_INTVL 33 u64\n  attr IFLA_BR_MCAST_QUERY_RESPONSE_INTVL 34 u64\n  attr IFLA\
    _BR_MCAST_STARTUP_QUERY_INTVL 35 u64\n  attr IFLA_BR_NF_CALL_IPTABLES 36 u8\n  attr IFLA_BR_NF\
    _CALL_IP6TABLES 37 u8\n  attr IFLA_BR_NF_CALL_ARPTABLES 38 u8\n  attr IFLA_BR_VLAN_DEFAULT_PVI\
    D 39 u16\n  attr IFLA_BR_PAD 40 pad\n  attr IFLA_BR_VLAN_STATS_ENABLED 41 u8\n  attr IFLA_BR_M\
    CAST_STATS_ENABLED 42 u8\n  attr IFLA_BR_MCAST_IGMP_VERSION 43 u8\n  attr IFLA_BR_MCAST_MLD_VE\
    RSION 44 u8\n  attr IFLA_BR_VLAN_STATS_PER_PORT 45 u8\n  attr IFLA_BR_MULTI_BOOLOPT 46 struct=\
    br_boolopt_multi length=8\n  attr IFLA_BR_MCAST_QUERIER_STATE 47 nest=bridge-querier\n  attr I\
    FLA_BR_FDB_N_LEARNED 48 u32\n  attr IFLA_BR_FDB_MAX_LEARNED 49 u32\n\nset linkinfo-brport-attr\
    s strict-from=38\n  attr IFLA_BRPORT_STATE 1 u8\n  attr IFLA_BRPORT_PRIORITY 2 u16\n  attr IFL\
    A_BRPORT_COST 3 u32\n  attr IFLA_BRPORT_MODE 4 u8\n  attr IFLA_BRPORT_GUARD 5 u8\n  attr IFLA_\
    BRPORT_PROTECT 6 u8\n  attr IFLA_BRPORT_FAST_LEAVE 7 u8\n  attr IFLA_BRPORT_LEARNING 8 u8\n  a\
    ttr IFLA_BRPORT_UNICAST_FLOOD 9 u8\n  attr IFLA_BRPORT_PROXYARP 10 u8\n  attr IFLA_BRPORT_LEAR\
    NING_SYNC 11 u8\n  attr IFLA_BRPORT_PROXYARP_WIFI 12 u8\n  attr IFLA_BRPORT_ROOT_ID 13 struct=\
    ifla_bridge_id\n  attr IFLA_BRPORT_BRIDGE_ID 14 struct=ifla_bridge_id\n  attr IFLA_BRPORT_DESI\
    GNATED_PORT 15 u16\n  attr IFLA_BRPORT_DESIGNATED_COST 16 u16\n  attr IFLA_BRPORT_ID 17 u1\
    6\n  attr IFLA_BRPORT_NO 18 u16\n  attr IFLA_BRPORT_TOPOLOGY_CHANGE_ACK 19 u8\n  attr IFLA_BRP\
    ORT_CONFIG_PENDING 20 u8\n  attr IFLA_BRPORT_MESSAGE_AGE_TIMER 21 u64\n  attr IFLA_BRPORT_FORW\
    ARD_DELAY_TIMER 22 u64\n  attr IFLA_BRPORT_HOLD_TIMER 23 u64\n  attr IFLA_BRPORT_FLUSH 24 fla\
    g\n  attr IFLA_BRPORT_MULTICAST_ROUTER 25 u8\n  attr IFLA_BRPORT_PAD 26 pad\n  attr IFLA_BRPOR\
    T_MCAST_FLOOD 27 u8\n  attr IFLA_BRPORT_MCAST_TO_UCAST 28 u8\n  attr IFLA_BRPORT_VLAN_TUNNEL 2\
    9 u8\n  attr IFLA_BRPORT_BCAST_FLOOD 30 u8\n  attr IFLA_BRPORT_GROUP_FWD_MASK 31 u16\n  attr I\
    FLA_BRPORT_NEIGH_SUPPRESS 32 u8\n  attr IFLA_BRPORT_ISOLATED 33 u8\n  attr IFLA_BRPORT_BACKUP_\
    PORT 34 u32\n  attr IFLA_BRPORT_MRP_RING_OPEN 35 u8\n  attr IFLA_BRPORT_MRP_IN_OPEN 36 u8\n  a\
    ttr IFLA_BRPORT_MCAST_EHT_HOSTS_LIMIT 37 u32\n  attr IFLA_BRPORT_MCAST_EHT_HOSTS_CNT 38 u3\
    2\n  attr IFLA_BRPORT_LOCKED 39 u8\n  attr IFLA_BRPORT_MAB 40 u8\n  attr IFLA_BRPORT_MCAST_N_G\
    ROUPS 41 u32\n  attr IFLA_BRPORT_MCAST_MAX_GROUPS 42 u32\n  attr IFLA_BRPORT_NEIGH_VLAN_SUPPRE\
    SS 43 u8\n  attr IFLA_BRPORT_BACKUP_NHID 44 u32\n\nset linkinfo-gre-attrs\n  attr IFLA_GRE_LIN\
    K 1 u32\n  attr IFLA_GRE_IFLAGS 2 be16 hex\n  attr IFLA_GRE_OFLAGS 3 be16 hex\n  attr IFLA_GRE\
    _IKEY 4 be32\n  attr IFLA_GRE_OKEY 5 be32\n  attr IFLA_GRE_LOCAL 6 ip\n  attr IFLA_GRE_REMOTE \
    7 ip\n  attr IFLA_GRE_TTL 8 u8\n  attr IFLA_GRE_TOS 9 u8\n  attr IFLA_GRE_PMTUDISC 10 u8\n  at\
    tr IFLA_GRE_ENCAP_LIMIT 11 u8\n  attr IFLA_GRE_FLOWINFO 12 be32\n  attr IFLA_GRE_FLAGS 13 u3\
    2\n  attr IFLA_GRE_ENCAP_TYPE 14 u16\n  attr IFLA_GRE_ENCAP_FLAGS 15 u16\n  attr IFLA_GRE_ENCA\
    P_SPORT 16 be16\n  attr IFLA_GRE_ENCAP_DPORT 17 be16\n  attr IFLA_GRE_COLLECT_METADATA 18 fla\
    g\n  attr IFLA_GRE_IGNORE_DF 19 u8\n  attr IFLA_GRE_FWMARK 20 u32\n  attr IFLA_GRE_ERSPAN_INDE\
    X 21 u32\n  attr IFLA_GRE_ERSPAN_VER 22 u8\n  attr IFLA_GRE_ERSPAN_DIR 23 u8\n  attr IFLA_GRE_\
    ERSPAN_HWID 24 u16\n\nset linkinfo-geneve-attrs strict-from=14\n  attr IFLA_GENEVE_ID 1 u3\
    2\n  attr IFLA_GENEVE_REMOTE 2 ip\n  attr IFLA_GENEVE_TTL 3 u8\n  attr IFLA_GENEVE_TOS 4 u\
    8\n  attr IFLA_GENEVE_PORT 5 be16\n  attr IFLA_GENEVE_COLLECT_METADATA 6 flag\n  attr IFLA_GEN\
    EVE_REMOTE6 7 ip\n  attr IFLA_GENEVE_UDP_CSUM 8 u8\n  attr IFLA_GENEVE_UDP_ZERO_CSUM6_TX 9 u\
    8\n  attr IFLA_GENEVE_UDP_ZERO_CSUM6_RX 10 u8\n  attr IFLA_GENEVE_LABEL 11 be32\n  attr IFLA_G\
    ENEVE_TTL_INHERIT 12 u8\n  attr IFLA_GENEVE_DF 13 u8 enum=geneve-fragments\n  attr IFLA_GENEVE\
    _INNER_PROTO_INHERIT 14 flag\n\nset linkinfo-iptun-attrs\n  attr IFLA_IPTUN_LINK 1 u32\n  att\
    r IFLA_IPTUN_LOCAL 2 ip\n  attr IFLA_IPTUN_REMOTE 3 ip\n  attr IFLA_IPTUN_TTL 4 u8\n  attr IFL\
    A_IPTUN_TOS 5 u8\n  attr IFLA_IPTUN_ENCAP_LIMIT 6 u8\n  attr IFLA_IPTUN_FLOWINFO 7 be32\n  att\
    r IFLA_IPTUN_FLAGS 8 be16 hex\n  attr IFLA_IPTUN_PROTO 9 u8\n  attr IFLA_IPTUN_PMTUDISC 10 u\
    8\n  attr IFLA_IPTUN_6RD_PREFIX 11 ipv6\n  attr IFLA_IPTUN_6RD_RELAY_PREFIX 12 ipv4\n  attr IF\
    LA_IPTUN_6RD_PREFIXLEN 13 u16\n  attr IFLA_IPTUN_6RD_RELAY_PREFIXLEN 14 u16\n  attr IFLA_IPTUN\
    _ENCAP_TYPE 15 u16\n  attr IFLA_IPTUN_ENCAP_FLAGS 16 u16\n  attr IFLA_IPTUN_ENCAP_SPORT 17 be1\
    6\n  attr IFLA_IPTUN_ENCAP_DPORT 18 be16\n  attr IFLA_IPTUN_COLLECT_METADATA 19 flag\n  attr I\
    FLA_IPTUN_FWMARK 20 u32\n\nset linkinfo-tun-attrs\n  attr IFLA_TUN_OWNER 1 u32\n  attr IFLA_TU\
    N_GROUP 2 u32\n  attr IFLA_TUN_TYPE 3 u8 enum=tun-type\n  attr IFLA_TUN_PI 4 u8\n  attr IFLA_T\
    UN_VNET_HDR 5 u8\n  attr IFLA_TUN_PERSIST 6 u8\n  attr IFLA_TUN_MULTI_QUEUE 7 u8\n  attr IFLA_\
    TUN_NUM_QUEUES 8 u32\n  attr IFLA_TUN_NUM_DISABLED_QUEUES 9 u32\n\nset linkinfo-vlan-attrs\n  \
    attr IFLA_VLAN_ID 1 u16\n  attr IFLA_VLAN_FLAGS 2 struct=ifla_vlan_flags length=8..65531\n  at\
    tr IFLA_VLAN_EGRESS_QOS 3 nest=ifla-vlan-qos\n  attr IFLA_VLAN_INGRESS_QOS 4 nest=ifla-vlan-qo\
    s\n  attr IFLA_VLAN_PROTOCOL 5 be16 enum=vlan-protocols\n\nset ifla-vlan-qos\n  attr IFLA_VLAN\
    _QOS_MAPPING 1 struct=ifla_vlan_qos_mapping multi length=8..65531\n\nset linkinfo-vrf-attr\
    s\n  attr IFLA_VRF_TABLE 1 u32\n\nset xdp-attrs strict-from=8\n  attr IFLA_XDP_FD 1 s32\n  att\
    r IFLA_XDP_ATTACHED 2 u8\n  attr IFLA_XDP_FLAGS 3 u32\n  attr IFLA_XDP_PROG_ID 4 u32\n  attr I\
    FLA_XDP_DRV_PROG_ID 5 u32\n  attr IFLA_XDP_SKB_PROG_ID 6 u32\n  attr IFLA_XDP_HW_PROG_ID 7 u3\
    2\n  attr IFLA_XDP_EXPECTED_FD 8 s32\n\nset ifla-attrs\n  attr IFLA_INET_CONF 1 struct=ipv4_de\
    vconf\n\nset ifla6-attrs\n  attr IFLA_INET6_FLAGS 1 u32\n  attr IFLA_INET6_CONF 2 struct=ipv6_\
    devconf\n  attr IFLA_INET6_STATS 3 struct=ifla_inet6_stats\n  attr IFLA_INET6_MCAST 4 byte\
    s\n  attr IFLA_INET6_CACHEINFO 5 struct=ifla_cacheinfo\n  attr IFLA_INET6_ICMP6STATS 6 struct=\
    ifla_icmp6_stats\n  attr IFLA_INET6_TOKEN 7 ipv6 length=16..65531\n  attr IFLA_INET6_ADDR_GEN_\
    MODE 8 u8 enum=address-generation\n  attr IFLA_INET6_RA_MTU 9 u32\n\nset mctp-attrs\n  attr IF\
    LA_MCTP_NET 1 u32\n  attr IFLA_MCTP_PHYS_BINDING 2 u8\n\nset stats-attrs\n  attr IFLA_STATS_LI\
    NK_64 1 struct=rtnl_link_stats64\n  attr IFLA_STATS_LINK_XSTATS 2 nest=link-xstats\n  attr IFL\
    A_STATS_LINK_XSTATS_SLAVE 3 nest=link-xstats\n  attr IFLA_STATS_LINK_OFFLOAD_XSTATS 4 nest=lin\
    k-offload-xstats\n  attr IFLA_STATS_AF_SPEC 5 nest=stats-af-spec\n\nset link-offload-xstat\
    s\n  attr IFLA_OFFLOAD_XSTATS_CPU_HIT 1 struct=rtnl_link_stats64\n  attr IFLA_OFFLOAD_XSTATS_H\
    W_S_INFO 2 nest=link-offload-xstats.hw-s-info\n  attr IFLA_OFFLOAD_XSTATS_L3_STATS 3 struct=rt\
    nl_hw_stats64\n\nset link-offload-xstats.hw-s-info\n  each index nest=hw-s-info-one\n\nset hw-\
    s-info-one\n  attr IFLA_OFFLOAD_XSTATS_HW_S_INFO_REQUEST 1 u8\n  attr IFLA_OFFLOAD_XSTATS_HW_S\
    _INFO_USED 2 u8\n\nset link-dpll-pin-attrs\n  attr DPLL_A_PIN_ID 1 u32\n\nset linkinfo-netkit-\
    attrs\n  attr IFLA_NETKIT_PEER_INFO 1 nest=link-attrs after=ifinfomsg\n  attr IFLA_NETKIT_PRIM\
    ARY 2 u8\n  attr IFLA_NETKIT_POLICY 3 u32 enum=netkit-policy\n  attr IFLA_NETKIT_PEER_POLICY \
    4 u32 enum=netkit-policy\n  attr IFLA_NETKIT_MODE 5 u32 enum=netkit-mode\n  attr IFLA_NETKIT_S\
    CRUB 6 u32 enum=netkit-scrub\n  attr IFLA_NETKIT_PEER_SCRUB 7 u32 enum=netkit-scrub\n\nset pro\
    to-down-reason\n  attr IFLA_PROTO_DOWN_REASON_MASK 1 u32\n  attr IFLA_PROTO_DOWN_REASON_VALUE \
    2 u32\n\nset veth\n  attr VETH_INFO_PEER 1 nest=link-attrs after=ifinfomsg length=16..6553\
    1\n\nset vxlan strict-from=31\n  attr IFLA_VXLAN_ID 1 u32\n  attr IFLA_VXLAN_GROUP 2 ipv4 leng\
    th=4..65531\n  attr IFLA_VXLAN_LINK 3 u32\n  attr IFLA_VXLAN_LOCAL 4 ipv4 length=4..65531\n  a\
    ttr IFLA_VXLAN_TTL 5 u8\n  attr IFLA_VXLAN_TOS 6 u8\n  attr IFLA_VXLAN_LEARNING 7 u8\n  attr I\
    FLA_VXLAN_AGEING 8 u32\n  attr IFLA_VXLAN_LIMIT 9 u32\n  attr IFLA_VXLAN_PORT_RANGE 10 struct=\
    ifla_vxlan_port_range length=4..65531\n  attr IFLA_VXLAN_PROXY 11 u8\n  attr IFLA_VXLAN_RSC 1\
    2 u8\n  attr IFLA_VXLAN_L2MISS 13 u8\n  attr IFLA_VXLAN_L3MISS 14 u8\n  attr IFLA_VXLAN_PORT 1\
    5 be16\n  attr IFLA_VXLAN_GROUP6 16 ipv6 length=16..65531\n  attr IFLA_VXLAN_LOCAL6 17 ipv6 le\
    ngth=16..65531\n  attr IFLA_VXLAN_UDP_CSUM 18 u8\n  attr IFLA_VXLAN_UDP_ZERO_CSUM6_TX 19 u\
    8\n  attr IFLA_VXLAN_UDP_ZERO_CSUM6_RX 20 u8\n  attr IFLA_VXLAN_REMCSUM_TX 21 u8\n  attr IFLA_\
    VXLAN_REMCSUM_RX 22 u8\n  attr IFLA_VXLAN_GBP 23 flag\n  attr IFLA_VXLAN_REMCSUM_NOPARTIAL 24 \
    flag\n  attr IFLA_VXLAN_COLLECT_METADATA 25 u8\n  attr IFLA_VXLAN_LABEL 26 be32\n  attr IFLA_V\
    XLAN_GPE 27 flag\n  attr IFLA_VXLAN_TTL_INHERIT 28 bytes length=0..1\n  attr IFLA_VXLAN_DF 29 \
    u8 enum=vxlan-df\n  attr IFLA_VXLAN_VNIFILTER 30 u8\n  attr IFLA_VXLAN_LOCALBYPASS 31 u8\n  at\
    tr IFLA_VXLAN_LABEL_POLICY 32 u32\n  attr IFLA_VXLAN_RESERVED_BITS 33 be32 array hex length=\
    8\n  attr IFLA_VXLAN_MC_ROUTE 34 u8\n\nset macvlan\n  attr IFLA_MACVLAN_MODE 1 u32 enum=macvla\
    n-mode\n  attr IFLA_MACVLAN_FLAGS 2 u16 flags=macvlan-flags\n  attr IFLA_MACVLAN_MACADDR_MODE \
    3 u32 enum=macvlan-address-mode\n  attr IFLA_MACVLAN_MACADDR 4 hardware length=0..32\n  attr I\
    FLA_MACVLAN_MACADDR_DATA 5 nest=macvlan-addresses\n  attr IFLA_MACVLAN_MACADDR_COUNT 6 u32\n  \
    attr IFLA_MACVLAN_BC_QUEUE_LEN 7 u32\n  attr IFLA_MACVLAN_BC_QUEUE_LEN_USED 8 u32\n  attr IFLA\
    _MACVLAN_BC_CUTOFF 9 s32\n\nset macvlan-addresses\n  attr IFLA_MACVLAN_MACADDR 4 hardware leng\
    th=0..32\n\nset vrf-port\n  attr IFLA_VRF_PORT_TABLE 1 u32\n\nset bridge-querier\n  attr BRIDG\
    E_QUERIER_IP_ADDRESS 1 ipv4\n  attr BRIDGE_QUERIER_IP_PORT 2 u32\n  attr BRIDGE_QUERIER_IP_OTH\
    ER_TIMER 3 u64\n  attr BRIDGE_QUERIER_PAD 4 pad\n  attr BRIDGE_QUERIER_IPV6_ADDRESS 5 ipv6\n  \
    attr BRIDGE_QUERIER_IPV6_PORT 6 u32\n  attr BRIDGE_QUERIER_IPV6_OTHER_TIMER 7 u64\n\nset bridg\
    e-request\n  attr IFLA_BRIDGE_FLAGS 0 u16\n  attr IFLA_BRIDGE_MODE 1 u16\n  attr IFLA_BRIDGE_V\
    LAN_INFO 2 struct=bridge_vlan_info length=4 multi\n  attr IFLA_BRIDGE_VLAN_TUNNEL_INFO 3 nest=\
    vlan-tunnel multi\n  attr IFLA_BRIDGE_MRP 4 nest=mrp\n  attr IFLA_BRIDGE_CFM 5 nest=cfm\n  att\
    r IFLA_BRIDGE_MST 6 nest=spanning-trees\n\nset vlan-tunnel strict-from=4\n  attr IFLA_BRIDGE_V\
    LAN_TUNNEL_ID 1 u32\n  attr IFLA_BRIDGE_VLAN_TUNNEL_VID 2 u16\n  attr IFLA_BRIDGE_VLAN_TUNNEL_\
    FLAGS 3 u16\n\nset spanning-trees\n  attr IFLA_BRIDGE_MST_ENTRY 1 nest=spanning-tree\n\nset sp\
    anning-tree\n  attr IFLA_BRIDGE_MST_ENTRY_MSTI 1 u16\n  attr IFLA_BRIDGE_MST_ENTRY_STATE 2 u\
    8\n\nset function-port\n  attr IFLA_PORT_VF 1 u32\n  attr IFLA_PORT_PROFILE 2 text length=1..4\
    0\n  attr IFLA_PORT_VSI_TYPE 3 struct=ifla_port_vsi\n  attr IFLA_PORT_INSTANCE_UUID 4 uuid\n  \
    attr IFLA_PORT_HOST_UUID 5 text length=0..16\n  attr IFLA_PORT_REQUEST 6 u8\n  attr IFLA_PORT_\
    RESPONSE 7 u16\n\nset statistics-request\n  attr IFLA_STATS_GET_FILTERS 1 nest=statistics-filt\
    ers\n  attr IFLA_STATS_SET_OFFLOAD_XSTATS_L3_STATS 2 u8\n\nset ipvlan\n  attr IFLA_IPVLAN_MOD\
    E 1 u16 enum=ipvlan-mode\n  attr IFLA_IPVLAN_FLAGS 2 u16 flags=ipvlan-flags\n\nset vti\n  att\
    r IFLA_VTI_LINK 1 u32\n  attr IFLA_VTI_IKEY 2 be32\n  attr IFLA_VTI_OKEY 3 be32\n  attr IFLA_V\
    TI_LOCAL 4 ip\n  attr IFLA_VTI_REMOTE 5 ip\n  attr IFLA_VTI_FWMARK 6 u32\n\nset bareudp\n  att\
    r IFLA_BAREUDP_PORT 1 be16\n  attr IFLA_BAREUDP_ETHERTYPE 2 be16\n  attr IFLA_BAREUDP_SRCPORT_\
    MIN 3 u16\n  attr IFLA_BAREUDP_MULTIPROTO_MODE 4 flag\n\nset macsec\n  attr IFLA_MACSEC_SCI 1 \
    be64\n  attr IFLA_MACSEC_PORT 2 be16\n  attr IFLA_MACSEC_ICV_LEN 3 u8\n  attr IFLA_MACSEC_CIPH\
    ER_SUITE 4 u64\n  attr IFLA_MACSEC_WINDOW 5 u32\n  attr IFLA_MACSEC_ENCODING_SA 6 u8\n  attr I\
    FLA_MACSEC_ENCRYPT 7 u8\n  attr IFLA_MACSEC_PROTECT 8 u8\n  attr IFLA_MACSEC_INC_SCI 9 u8\n  a\
    ttr IFLA_MACSEC_ES 10 u8\n  attr IFLA_MACSEC_SCB 11 u8\n  attr IFLA_MACSEC_REPLAY_PROTECT 12 u\
    8\n  attr IFLA_MACSEC_VALIDATION 13 u8 enum=macsec-validation\n  attr IFLA_MACSEC_PAD 14 pa\
    d\n  attr IFLA_MACSEC_OFFLOAD 15 u8 enum=macsec-offload\n\nset xfrm strict-from=3\n  attr IFLA\
    _XFRM_LINK 1 u32\n  attr IFLA_XFRM_IF_ID 2 u32\n  attr IFLA_XFRM_COLLECT_METADATA 3 flag\n\nse\
    t can\n  attr IFLA_CAN_BITTIMING 1 struct=can_bittiming\n  attr IFLA_CAN_BITTIMING_CONST 2 str\
    uct=can_bittiming_const\n  attr IFLA_CAN_CLOCK 3 u32\n  attr IFLA_CAN_STATE 4 u32 enum=can-sta\
    te\n  attr IFLA_CAN_CTRLMODE 5 struct=can_ctrlmode\n  attr IFLA_CAN_RESTART_MS 6 u32\n  attr I\
    FLA_CAN_RESTART 7 u32\n  attr IFLA_CAN_BERR_COUNTER 8 struct=can_berr_counter\n  attr IFLA_CAN\
    _DATA_BITTIMING 9 struct=can_bittiming\n  attr IFLA_CAN_DATA_BITTIMING_CONST 10 struct=can_bit\
    timing_const\n  attr IFLA_CAN_TERMINATION 11 u16\n  attr IFLA_CAN_TERMINATION_CONST 12 u16 arr\
    ay\n  attr IFLA_CAN_BITRATE_CONST 13 u32 array\n  attr IFLA_CAN_DATA_BITRATE_CONST 14 u32 arra\
    y\n  attr IFLA_CAN_BITRATE_MAX 15 u32\n  attr IFLA_CAN_TDC 16 nest=can-tdc\n  attr IFLA_CAN_CT\
    RLMODE_EXT 17 nest=can-ctrlmode-ext\n\nset can-tdc\n  attr IFLA_CAN_TDC_TDCV_MIN 1 u32\n  att\
    r IFLA_CAN_TDC_TDCV_MAX 2 u32\n  attr IFLA_CAN_TDC_TDCO_MIN 3 u32\n  attr IFLA_CAN_TDC_TDCO_MA\
    X 4 u32\n  attr IFLA_CAN_TDC_TDCF_MIN 5 u32\n  attr IFLA_CAN_TDC_TDCF_MAX 6 u32\n  attr IFLA_C\
    AN_TDC_TDCV 7 u32\n  attr IFLA_CAN_TDC_TDCO 8 u32\n  attr IFLA_CAN_TDC_TDCF 9 u32\n\nset can-c\
    trlmode-ext\n  attr IFLA_CAN_CTRLMODE_SUPPORTED 1 u32\n\nset hsr\n  attr IFLA_HSR_SLAVE1 1 u3\
    2\n  attr IFLA_HSR_SLAVE2 2 u32\n  attr IFLA_HSR_MULTICAST_SPEC 3 u8\n  attr IFLA_HSR_SUPERVIS\
    ION_ADDR 4 hardware\n  attr IFLA_HSR_SEQ_NR 5 u16\n  attr IFLA_HSR_VERSION 6 u8\n  attr IFLA_H\
    SR_PROTOCOL 7 u8\n  attr IFLA_HSR_INTERLINK 8 u32\n\nset gtp\n  attr IFLA_GTP_FD0 1 u32\n  att\
    r IFLA_GTP_FD1 2 u32\n  attr IFLA_GTP_PDP_HASHSIZE 3 u32\n  attr IFLA_GTP_ROLE 4 u32\n  attr I\
    FLA_GTP_CREATE_SOCKETS 5 u8\n  attr IFLA_GTP_RESTART_COUNT 6 u8\n  attr IFLA_GTP_LOCAL 7 ipv\
    4\n  attr IFLA_GTP_LOCAL6 8 ipv6\n\nset ppp\n  attr IFLA_PPP_DEV_FD 1 s32\n\nset ip6tunnel\n  \
    attr IFLA_IPTUN_LINK 1 u32\n  attr IFLA_IPTUN_LOCAL 2 ipv6\n  attr IFLA_IPTUN_REMOTE 3 ipv\
    6\n  attr IFLA_IPTUN_TTL 4 u8\n  attr IFLA_IPTUN_TOS 5 u8\n  attr IFLA_IPTUN_ENCAP_LIMIT 6 u\
    8\n  attr IFLA_IPTUN_FLOWINFO 7 be32\n  attr IFLA_IPTUN_FLAGS 8 u32\n  attr IFLA_IPTUN_PROTO \
    9 u8\n  attr IFLA_IPTUN_PMTUDISC 10 u8\n  attr IFLA_IPTUN_6RD_PREFIX 11 ipv6\n  attr IFLA_IPTU\
    N_6RD_RELAY_PREFIX 12 ipv4\n  attr IFLA_IPTUN_6RD_PREFIXLEN 13 u16\n  attr IFLA_IPTUN_6RD_RELA\
    Y_PREFIXLEN 14 u16\n  attr IFLA_IPTUN_ENCAP_TYPE 15 u16\n  attr IFLA_IPTUN_ENCAP_FLAGS 16 u1\
    6\n  attr IFLA_IPTUN_ENCAP_SPORT 17 be16\n  attr IFLA_IPTUN_ENCAP_DPORT 18 be16\n  attr IFLA_I\
    PTUN_COLLECT_METADATA 19 flag\n  attr IFLA_IPTUN_FWMARK 20 u32\n\nset mrp\n  attr IFLA_BRIDGE_\
    MRP_INSTANCE 1 nest=mrp-instance\n  attr IFLA_BRIDGE_MRP_PORT_STATE 2 nest=mrp-port-state\n  a\
    ttr IFLA_BRIDGE_MRP_PORT_ROLE 3 nest=mrp-port-role\n  attr IFLA_BRIDGE_MRP_RING_STATE 4 nest=m\
    rp-ring-state\n  attr IFLA_BRIDGE_MRP_RING_ROLE 5 nest=mrp-ring-role\n  attr IFLA_BRIDGE_MRP_S\
    TART_TEST 6 nest=mrp-start-test\n  attr IFLA_BRIDGE_MRP_INFO 7 nest=mrp-info multi\n  attr IFL\
    A_BRIDGE_MRP_IN_ROLE 8 nest=mrp-in-role\n  attr IFLA_BRIDGE_MRP_IN_STATE 9 nest=mrp-in-stat\
    e\n  attr IFLA_BRIDGE_MRP_START_IN_TEST 10 nest=mrp-start-in-test\n\nset mrp-instance\n  attr \
    IFLA_BRIDGE_MRP_INSTANCE_RING_ID 1 u32\n  attr IFLA_BRIDGE_MRP_INSTANCE_P_IFINDEX 2 u32\n  att\
    r IFLA_BRIDGE_MRP_INSTANCE_S_IFINDEX 3 u32\n  attr IFLA_BRIDGE_MRP_INSTANCE_PRIO 4 u16\n\nset \
    mrp-port-state\n  attr IFLA_BRIDGE_MRP_PORT_STATE_STATE 1 u32\n\nset mrp-port-role\n  attr IFL\
    A_BRIDGE_MRP_PORT_ROLE_ROLE 1 u32\n\nset mrp-ring-state\n  attr IFLA_BRIDGE_MRP_RING_STATE_RIN\
    G_ID 1 u32\n  attr IFLA_BRIDGE_MRP_RING_STATE_STATE 2 u32\n\nset mrp-ring-role\n  attr IFLA_BR\
    IDGE_MRP_RING_ROLE_RING_ID 1 u32\n  attr IFLA_BRIDGE_MRP_RING_ROLE_ROLE 2 u32\n\nset mrp-start\
    -test\n  attr IFLA_BRIDGE_MRP_START_TEST_RING_ID 1 u32\n  attr IFLA_BRIDGE_MRP_START_TEST_INTE\
    RVAL 2 u32\n  attr IFLA_BRIDGE_MRP_START_TEST_MAX_MISS 3 u32\n  attr IFLA_BRIDGE_MRP_START_TES\
    T_PERIOD 4 u32\n  attr IFLA_BRIDGE_MRP_START_TEST_MONITOR 5 u32\n\nset mrp-info\n  attr IFLA_B\
    RIDGE_MRP_INFO_RING_ID 1 u32\n  attr IFLA_BRIDGE_MRP_INFO_P_IFINDEX 2 u32\n  attr IFLA_BRIDGE_\
    MRP_INFO_S_IFINDEX 3 u32\n  attr IFLA_BRIDGE_MRP_INFO_PRIO 4 u16\n  attr IFLA_BRIDGE_MRP_INFO_\
    RING_STATE 5 u32\n  attr IFLA_BRIDGE_MRP_INFO_RING_ROLE 6 u32\n  attr IFLA_BRIDGE_MRP_INFO_TES\
    T_INTERVAL 7 u32\n  attr IFLA_BRIDGE_MRP_INFO_TEST_MAX_MISS 8 u32\n  attr IFLA_BRIDGE_MRP_INFO\
    _TEST_MONITOR 9 u32\n  attr IFLA_BRIDGE_MRP_INFO_I_IFINDEX 10 u32\n  attr IFLA_BRIDGE_MRP_INFO\
    _IN_STATE 11 u32\n  attr IFLA_BRIDGE_MRP_INFO_IN_ROLE 12 u32\n  attr IFLA_BRIDGE_MRP_INFO_IN_T\
    EST_INTERVAL 13 u32\n  attr IFLA_BRIDGE_MRP_INFO_IN_TEST_MAX_MISS 14 u32\n\nset mrp-in-rol\
    e\n  attr IFLA_BRIDGE_MRP_IN_ROLE_RING_ID 1 u32\n  attr IFLA_BRIDGE_MRP_IN_ROLE_IN_ID 2 u1\
    6\n  attr IFLA_BRIDGE_MRP_IN_ROLE_ROLE 3 u32\n  attr IFLA_BRIDGE_MRP_IN_ROLE_I_IFINDEX 4 u3\
    2\n\nset mrp-in-state\n  attr IFLA_BRIDGE_MRP_IN_STATE_IN_ID 1 u32\n  attr IFLA_BRIDGE_MRP_IN_\
    STATE_STATE 2 u32\n\nset mrp-start-in-test\n  attr IFLA_BRIDGE_MRP_START_IN_TEST_IN_ID 1 u3\
    2\n  attr IFLA_BRIDGE_MRP_START_IN_TEST_INTERVAL 2 u32\n  attr IFLA_BRIDGE_MRP_START_IN_TEST_M\
    AX_MISS 3 u32\n  attr IFLA_BRIDGE_MRP_START_IN_TEST_PERIOD 4 u32\n\nset cfm\n  attr IFLA_BRIDG\
    E_CFM_MEP_CREATE 1 nest=cfm-mep-create multi\n  attr IFLA_BRIDGE_CFM_MEP_DELETE 2 nest=cfm-mep\
    -delete multi\n  attr IFLA_BRIDGE_CFM_MEP_CONFIG 3 nest=cfm-mep-config multi\n  attr IFLA_BRID\
    GE_CFM_CC_CONFIG 4 nest=cfm-cc-config multi\n  attr IFLA_BRIDGE_CFM_CC_PEER_MEP_ADD 5 nest=cfm\
    -cc-peer-mep-add multi\n  attr IFLA_BRIDGE_CFM_CC_PEER_MEP_REMOVE 6 nest=cfm-cc-peer-mep-add m\
    ulti\n  attr IFLA_BRIDGE_CFM_CC_RDI 7 nest=cfm-cc-rdi multi\n  attr IFLA_BRIDGE_CFM_CC_CCM_TX \
    8 nest=cfm-cc-ccm-tx multi\n  attr IFLA_BRIDGE_CFM_MEP_CREATE_INFO 9 nest=cfm-mep-create mult\
    i\n  attr IFLA_BRIDGE_CFM_MEP_CONFIG_INFO 10 nest=cfm-mep-config multi\n  attr IFLA_BRIDGE_CFM\
    _CC_CONFIG_INFO 11 nest=cfm-cc-config multi\n  attr IFLA_BRIDGE_CFM_CC_RDI_INFO 12 nest=cfm-cc\
    -rdi multi\n  attr IFLA_BRIDGE_CFM_CC_CCM_TX_INFO 13 nest=cfm-cc-ccm-tx multi\n  attr IFLA_BRI\
    DGE_CFM_CC_PEER_MEP_INFO 14 nest=cfm-cc-peer-mep-add multi\n  attr IFLA_BRIDGE_CFM_MEP_STATUS_\
    INFO 15 nest=cfm-mep-status-info multi\n  attr IFLA_BRIDGE_CFM_CC_PEER_STATUS_INFO 16 nest=cfm\
    -cc-peer-status-info multi\n\nset cfm-mep-create\n  attr IFLA_BRIDGE_CFM_MEP_CREATE_INSTANCE \
    1 u32\n  attr IFLA_BRIDGE_CFM_MEP_CREATE_DOMAIN 2 u32\n  attr IFLA_BRIDGE_CFM_MEP_CREATE_DIREC\
    TION 3 u32\n  attr IFLA_BRIDGE_CFM_MEP_CREATE_IFINDEX 4 u32\n\nset cfm-mep-delete\n  attr IFLA\
    _BRIDGE_CFM_MEP_DELETE_INSTANCE 1 u32\n\nset cfm-mep-config\n  attr IFLA_BRIDGE_CFM_MEP_CONFIG\
    _INSTANCE 1 u32\n  attr IFLA_BRIDGE_CFM_MEP_CONFIG_UNICAST_MAC 2 hardware length=6\n  attr IFL\
    A_BRIDGE_CFM_MEP_CONFIG_MDLEVEL 3 u32\n  attr IFLA_BRIDGE_CFM_MEP_CONFIG_MEPID 4 u32\n\nset cf\
    m-cc-config\n  attr IFLA_BRIDGE_CFM_CC_CONFIG_INSTANCE 1 u32\n  attr IFLA_BRIDGE_CFM_CC_CONFIG\
    _ENABLE 2 u32\n  attr IFLA_BRIDGE_CFM_CC_CONFIG_EXP_INTERVAL 3 u32\n  attr IFLA_BRIDGE_CFM_CC_\
    CONFIG_EXP_MAID 4 bytes length=48\n\nset cfm-cc-peer-mep-add\n  attr IFLA_BRIDGE_CFM_CC_PEER_M\
    EP_INSTANCE 1 u32\n  attr IFLA_BRIDGE_CFM_CC_PEER_MEPID 2 u32\n\nset cfm-cc-rdi\n  attr IFLA_B\
    RIDGE_CFM_CC_RDI_INSTANCE 1 u32\n  attr IFLA_BRIDGE_CFM_CC_RDI_RDI 2 u32\n\nset cfm-cc-ccm-t\
    x\n  attr IFLA_BRIDGE_CFM_CC_CCM_TX_INSTANCE 1 u32\n  attr IFLA_BRIDGE_CFM_CC_CCM_TX_DMAC 2 ha\
    rdware length=6\n  attr IFLA_BRIDGE_CFM_CC_CCM_TX_SEQ_NO_UPDATE 3 u32\n  attr IFLA_BRIDGE_CFM_\
    CC_CCM_TX_PERIOD 4 u32\n  attr IFLA_BRIDGE_CFM_CC_CCM_TX_IF_TLV 5 u32\n  attr IFLA_BRIDGE_CFM_\
    CC_CCM_TX_IF_TLV_VALUE 6 u8\n  attr IFLA_BRIDGE_CFM_CC_CCM_TX_PORT_TLV 7 u32\n  attr IFLA_BRID\
    GE_CFM_CC_CCM_TX_PORT_TLV_VALUE 8 u8\n\nset cfm-mep-status-info\n  attr IFLA_BRIDGE_CFM_MEP_ST\
    ATUS_INSTANCE 1 u32\n  attr IFLA_BRIDGE_CFM_MEP_STATUS_OPCODE_UNEXP_SEEN 2 u32\n  attr IFLA_BR\
    IDGE_CFM_MEP_STATUS_VERSION_UNEXP_SEEN 3 u32\n  attr IFLA_BRIDGE_CFM_MEP_STATUS_RX_LEVEL_LOW_S\
    EEN 4 u32\n\nset cfm-cc-peer-status-info\n  attr IFLA_BRIDGE_CFM_CC_PEER_STATUS_INSTANCE 1 u3\
    2\n  attr IFLA_BRIDGE_CFM_CC_PEER_STATUS_PEER_MEPID 2 u32\n  attr IFLA_BRIDGE_CFM_CC_PEER_STAT\
    US_CCM_DEFECT 3 u32\n  attr IFLA_BRIDGE_CFM_CC_PEER_STATUS_RDI 4 u32\n  attr IFLA_BRIDGE_CFM_C\
    C_PEER_STATUS_PORT_TLV_VALUE 5 u8\n  attr IFLA_BRIDGE_CFM_CC_PEER_STATUS_IF_TLV_VALUE 6 u8\n  \
    attr IFLA_BRIDGE_CFM_CC_PEER_STATUS_SEEN 7 u32\n  attr IFLA_BRIDGE_CFM_CC_PEER_STATUS_TLV_SEE\
    N 8 u32\n  attr IFLA_BRIDGE_CFM_CC_PEER_STATUS_SEQ_UNEXP_SEEN 9 u32\n\nset ipoib\n  attr IFLA_\
    IPOIB_PKEY 1 u16 hex\n  attr IFLA_IPOIB_MODE 2 u16\n  attr IFLA_IPOIB_UMCAST 3 u16\n\nset rmne\
    t\n  attr IFLA_RMNET_MUX_ID 1 u16\n  attr IFLA_RMNET_FLAGS 2 struct=ifla_rmnet_flags\n\nset ds\
    a\n  attr IFLA_DSA_CONDUIT 1 u32\n\nset amt\n  attr IFLA_AMT_MODE 1 u32\n  attr IFLA_AMT_RELAY\
    _PORT 2 be16\n  attr IFLA_AMT_GATEWAY_PORT 3 be16\n  attr IFLA_AMT_LINK 4 u32\n  attr IFLA_AMT\
    _LOCAL_IP 5 ipv4\n  attr IFLA_AMT_REMOTE_IP 6 ipv4\n  attr IFLA_AMT_DISCOVERY_IP 7 ipv4\n  att\
    r IFLA_AMT_MAX_TUNNELS 8 u32\n\nset batadv\n  attr IFLA_BATADV_ALGO_NAME 1 text\n\nset devlink\
    -port\n  attr DEVLINK_ATTR_BUS_NAME 1 text\n  attr DEVLINK_ATTR_DEV_NAME 2 text\n  attr DEVLIN\
    K_ATTR_PORT_INDEX 3 u32\n\nset link-xstats\n  attr LINK_XSTATS_TYPE_BRIDGE 1 nest=bridge-xstat\
    s\n  attr LINK_XSTATS_TYPE_BOND 2 nest=bond-xstats\n\nset bridge-xstats\n  attr BRIDGE_XSTATS_\
    VLAN 1 struct=bridge_vlan_xstats multi\n  attr BRIDGE_XSTATS_MCAST 2 struct=br_mcast_stats\n  \
    attr BRIDGE_XSTATS_PAD 3 pad\n  attr BRIDGE_XSTATS_STP 4 struct=bridge_stp_xstats\n\nset bond-\
    xstats\n  attr BOND_XSTATS_3AD 1 nest=bond-3ad-stats\n\nset bond-3ad-stats\n  attr BOND_3AD_ST\
    AT_LACPDU_RX 0 u64\n  attr BOND_3AD_STAT_LACPDU_TX 1 u64\n  attr BOND_3AD_STAT_LACPDU_UNKNOWN_\
    RX 2 u64\n  attr BOND_3AD_STAT_LACPDU_ILLEGAL_RX 3 u64\n  attr BOND_3AD_STAT_MARKER_RX 4 u6\
    4\n  attr BOND_3AD_STAT_MARKER_TX 5 u64\n  attr BOND_3AD_STAT_MARKER_RESP_RX 6 u64\n  attr BON\
    D_3AD_STAT_MARKER_RESP_TX 7 u64\n  attr BOND_3AD_STAT_MARKER_UNKNOWN_RX 8 u64\n  attr BOND_3AD\
    _STAT_PAD 9 pad\n\nset stats-af-spec\n  attr AF_MPLS 28 nest=mpls-stats\n\nset mpls-stats\n  a\
    ttr MPLS_STATS_LINK 1 struct=mpls_link_stats\n\nset statistics-filters\n  each statistics u32 \
    hex\n\nchoice linkinfo-data-msg\n  case bond nest=linkinfo-bond-attrs\n  case bridge nest=link\
    info-bridge-attrs\n  case erspan nest=linkinfo-gre-attrs\n  case gre nest=linkinfo-gre-attr\
    s\n  case gretap nest=linkinfo-gre-attrs\n  case geneve nest=linkinfo-geneve-attrs\n  case ipi\
    p nest=linkinfo-iptun-attrs\n  case sit nest=linkinfo-iptun-attrs\n  case tun nest=linkinfo-tu\
    n-attrs\n  case vlan nest=linkinfo-vlan-attrs\n  case vrf nest=linkinfo-vrf-attrs\n  case netk\
    it nest=linkinfo-netkit-attrs\n  case veth nest=veth\n  case vxlan nest=vxlan\n  case macvlan \
    nest=macvlan\n  case macvtap nest=macvlan\n  case ipvlan nest=ipvlan\n  case ipvtap nest=ipvla\
    n\n  case ip6gre nest=linkinfo-gre-attrs\n  case ip6gretap nest=linkinfo-gre-attrs\n  case ip6\
    erspan nest=linkinfo-gre-attrs\n  case ip6tnl nest=ip6tunnel\n  case vti nest=vti\n  case vti\
    6 nest=vti\n  case bareudp nest=bareudp\n  case macsec nest=macsec\n  case xfrm nest=xfrm\n  c\
    ase can nest=can\n  case hsr nest=hsr\n  case gtp nest=gtp\n  case ppp nest=ppp\n  case ipoib \
    nest=ipoib\n  case rmnet nest=rmnet\n  case dsa nest=dsa\n  case amt nest=amt\n  case batadv n\
    est=batadv\n\nchoice linkinfo-member-data-msg\n  case bridge nest=linkinfo-brport-attrs\n  cas\
    e bond nest=bond-slave-attrs\n  case vrf nest=vrf-port\n  case bridge_slave nest=linkinfo-brpo\
    rt-attrs\n  case bond_slave nest=bond-slave-attrs\n\nchoice protinfo-msg\n  case AF_BRIDGE 7 n\
    est=linkinfo-brport-attrs\n  case AF_INET6 10 nest=ifla6-attrs\n\nchoice af-spec-msg\n  case A\
    F_BRIDGE 7 nest=bridge-request\n  else other nest=af-spec-attrs\n\nchoice linkinfo-statistic\
    s\n  case can struct=can_device_stats\n";

/// The text of `tables/rt_link.table`.
pub(crate) fn text() -> &'static [u8]
    ensures { Begins result.now (heading_of table.RtLink) }
{
    TEXT
}
