//! The text of `tables/tc.table`. Written by `tables/into-crates`.

ghost use Rattle.neli_tables_routing.specs.Tables.{Begins, heading_of};
ghost use Rattle.neli_tables_routing.specs.declared.table.RoutingTable.TheVariants as table;

/// The text.
static TEXT: &[u8] = b"\
    # Written by from-specs from the specification tc.yaml of Linux 6.12 and own/tc.table.\n\nfami\
    ly tc 0\n\ngroup RTNLGRP_TC 4\n\nmessage RTM_NEWQDISC 36 nest=tc-attrs after=tcmsg\nmessage RT\
    M_DELQDISC 37 nest=tc-attrs after=tcmsg\nmessage RTM_GETQDISC 38 nest=tc-attrs after=tcmsg\nme\
    ssage RTM_NEWTCLASS 40 nest=tc-attrs after=tcmsg\nmessage RTM_DELTCLASS 41 nest=tc-attrs after\
    =tcmsg\nmessage RTM_GETTCLASS 42 nest=tc-attrs after=tcmsg\nmessage RTM_NEWTFILTER 44 nest=tc-\
    attrs after=tcmsg\nmessage RTM_DELTFILTER 45 nest=tc-attrs after=tcmsg\nmessage RTM_GETTFILTE\
    R 46 nest=tc-attrs after=tcmsg\nmessage RTM_NEWCHAIN 100 nest=tc-attrs after=tcmsg\nmessage RT\
    M_DELCHAIN 101 nest=tc-attrs after=tcmsg\nmessage RTM_GETCHAIN 102 nest=tc-attrs after=tcmsg\n\
    message RTM_NEWACTION 48 nest=action-root after=tcamsg\nmessage RTM_DELACTION 49 nest=action-r\
    oot after=tcamsg\nmessage RTM_GETACTION 50 nest=action-root after=tcamsg\n\nenum pedit-header \
    prefix=TCA_PEDIT_KEY_EX_HDR_TYPE_\n  value network 0\n  value eth 1\n  value ip4 2\n  value ip\
    6 3\n  value tcp 4\n  value udp 5\n\nenum pedit-command prefix=TCA_PEDIT_KEY_EX_CMD_\n  value \
    set 0\n  value add 1\n\nflags tc-cls-flags prefix=TCA_CLS_FLAGS_\n  value skip-hw 0x1\n  valu\
    e skip-sw 0x2\n  value in-hw 0x4\n  value not-in-hw 8\n  value verbose 0x10\n\nflags tc-flower\
    -key-ctrl-flags\n  value frag 0x1\n  value firstfrag 0x2\n  value tuncsum 0x4\n  value tundf 0\
    x8\n  value tunoam 0x10\n  value tuncrit 0x20\n\nstruct tcmsg 20\n  field tcm_family 0..1 u\
    8\n  field tcm_ifindex 4..8 s32\n  field tcm_handle 8..12 u32\n  field tcm_parent 12..16 u3\
    2\n  field tcm_info 16..20 u32\n\nstruct tc_stats 40\n  field bytes 0..8 u64\n  field packets \
    8..12 u32\n  field drops 12..16 u32\n  field overlimits 16..20 u32\n  field bps 20..24 u32\n  \
    field pps 24..28 u32\n  field qlen 28..32 u32\n  field backlog 32..36 u32\n\nstruct tc_cbs_qop\
    t 20\n  field offload 0..1 u8\n  field hicredit 4..8 s32\n  field locredit 8..12 s32\n  field \
    idleslope 12..16 s32\n  field sendslope 16..20 s32\n\nstruct tc_etf_qopt 12\n  field delta 0..\
    4 s32\n  field clockid 4..8 s32\n  field flags 8..12 s32\n\nstruct tc_fifo_qopt 4\n  field lim\
    it 0..4 u32\n\nstruct tc_htb_opt 44\n  field rate.cell_log 0..1 u8\n  field rate.linklayer 1..\
    2 u8\n  field rate.overhead 2..4 u16\n  field rate.cell_align 4..6 s16\n  field rate.mpu 6..8 \
    u16\n  field rate.rate 8..12 u32\n  field ceil.cell_log 12..13 u8\n  field ceil.linklayer 13..\
    14 u8\n  field ceil.overhead 14..16 u16\n  field ceil.cell_align 16..18 s16\n  field ceil.mpu \
    18..20 u16\n  field ceil.rate 20..24 u32\n  field buffer 24..28 u32\n  field cbuffer 28..32 u3\
    2\n  field quantum 32..36 u32\n  field level 36..40 u32\n  field prio 40..44 u32\n\nstruct tc_\
    htb_glob 20\n  field version 0..4 u32\n  field rate2quantum 4..8 u32\n  field defcls 8..12 u3\
    2\n  field debug 12..16 u32\n  field direct_pkts 16..20 u32\n\nstruct tc_gred_qopt 52\n  fiel\
    d limit 0..4 u32\n  field qth_min 4..8 u32\n  field qth_max 8..12 u32\n  field DP 12..16 u3\
    2\n  field backlog 16..20 u32\n  field qave 20..24 u32\n  field forced 24..28 u32\n  field ear\
    ly 28..32 u32\n  field other 32..36 u32\n  field pdrop 36..40 u32\n  field Wlog 40..41 u8\n  f\
    ield Plog 41..42 u8\n  field Scell_log 42..43 u8\n  field prio 43..44 u8\n  field packets 44..\
    48 u32\n  field bytesin 48..52 u32\n\nstruct tc_gred_sopt 12\n  field DPs 0..4 u32\n  field de\
    f_DP 4..8 u32\n  field grio 8..9 u8\n  field flags 9..10 u8\n\nstruct tc_hfsc_qopt 2\n  field \
    defcls 0..2 u16\n\nstruct tc_mqprio_qopt 82\n  field num_tc 0..1 u8\n  field prio_tc_map 1..1\
    7 u8 array\n  field hw 17..18 u8\n  field count 18..50 u16 array\n  field offset 50..82 u16 ar\
    ray\n\nstruct tc_multiq_qopt 4\n  field bands 0..2 u16\n  field max_bands 2..4 u16\n\nstruct t\
    c_netem_qopt 24\n  field latency 0..4 u32\n  field limit 4..8 u32\n  field loss 8..12 u32\n  f\
    ield gap 12..16 u32\n  field duplicate 16..20 u32\n  field jitter 20..24 u32\n\nstruct tc_nete\
    m_gimodel 20\n  field p13 0..4 u32\n  field p31 4..8 u32\n  field p32 8..12 u32\n  field p14 1\
    2..16 u32\n  field p23 16..20 u32\n\nstruct tc_netem_gemodel 16\n  field p 0..4 u32\n  field \
    r 4..8 u32\n  field h 8..12 u32\n  field k1 12..16 u32\n\nstruct tc_netem_corr 12\n  field del\
    ay_corr 0..4 u32\n  field loss_corr 4..8 u32\n  field dup_corr 8..12 u32\n\nstruct tc_netem_re\
    order 8\n  field probability 0..4 u32\n  field correlation 4..8 u32\n\nstruct tc_netem_corrup\
    t 8\n  field probability 0..4 u32\n  field correlation 4..8 u32\n\nstruct tc_netem_rate 16\n  \
    field rate 0..4 u32\n  field packet_overhead 4..8 s32\n  field cell_size 8..12 u32\n  field ce\
    ll_overhead 12..16 s32\n\nstruct tc_netem_slot 40\n  field min_delay 0..8 s64\n  field max_del\
    ay 8..16 s64\n  field max_packets 16..20 s32\n  field max_bytes 20..24 s32\n  field dist_dela\
    y 24..32 s64\n  field dist_jitter 32..40 s64\n\nstruct tc_plug_qopt 8\n  field action 0..4 s3\
    2\n  field limit 4..8 u32\n\nstruct tc_prio_qopt 20\n  field bands 0..4 u32\n  field priomap 4\
    ..20 u8 array\n\nstruct tc_red_qopt 16\n  field limit 0..4 u32\n  field qth_min 4..8 u32\n  fi\
    eld qth_max 8..12 u32\n  field Wlog 12..13 u8\n  field Plog 13..14 u8\n  field Scell_log 14..1\
    5 u8\n  field flags 15..16 u8\n\nstruct tc_sfb_qopt 36\n  field rehash_interval 0..4 u32\n  fi\
    eld warmup_time 4..8 u32\n  field max 8..12 u32\n  field bin_size 12..16 u32\n  field incremen\
    t 16..20 u32\n  field decrement 20..24 u32\n  field limit 24..28 u32\n  field penalty_rate 28.\
    .32 u32\n  field penalty_burst 32..36 u32\n\nstruct tc_sfq_qopt 20\n  field quantum 0..4 u3\
    2\n  field perturb_period 4..8 s32\n  field limit 8..12 u32\n  field divisor 12..16 u32\n  fie\
    ld flows 16..20 u32\n\nstruct tc_sfqred_stats 24\n  field prob_drop 0..4 u32\n  field forced_d\
    rop 4..8 u32\n  field prob_mark 8..12 u32\n  field forced_mark 12..16 u32\n  field prob_mark_h\
    ead 16..20 u32\n  field forced_mark_head 20..24 u32\n\nstruct tc_sfq_qopt_v1 72\n  field v0.qu\
    antum 0..4 u32\n  field v0.perturb_period 4..8 s32\n  field v0.limit 8..12 u32\n  field v0.div\
    isor 12..16 u32\n  field v0.flows 16..20 u32\n  field depth 20..24 u32\n  field headdrop 24..2\
    8 u32\n  field limit 28..32 u32\n  field qth_min 32..36 u32\n  field qth_max 36..40 u32\n  fie\
    ld Wlog 40..41 u8\n  field Plog 41..42 u8\n  field Scell_log 42..43 u8\n  field flags 43..44 u\
    8\n  field max_P 44..48 u32\n  field stats.prob_drop 48..52 u32\n  field stats.forced_drop 52.\
    .56 u32\n  field stats.prob_mark 56..60 u32\n  field stats.forced_mark 60..64 u32\n  field sta\
    ts.prob_mark_head 64..68 u32\n  field stats.forced_mark_head 68..72 u32\n\nstruct tc_ratespec \
    12\n  field cell_log 0..1 u8\n  field linklayer 1..2 u8\n  field overhead 2..4 u16\n  field ce\
    ll_align 4..6 s16\n  field mpu 6..8 u16\n  field rate 8..12 u32\n\nstruct tc_tbf_qopt 36\n  fi\
    eld rate.cell_log 0..1 u8\n  field rate.linklayer 1..2 u8\n  field rate.overhead 2..4 u16\n  f\
    ield rate.cell_align 4..6 s16\n  field rate.mpu 6..8 u16\n  field rate.rate 8..12 u32\n  fiel\
    d peakrate.cell_log 12..13 u8\n  field peakrate.linklayer 13..14 u8\n  field peakrate.overhea\
    d 14..16 u16\n  field peakrate.cell_align 16..18 s16\n  field peakrate.mpu 18..20 u16\n  fiel\
    d peakrate.rate 20..24 u32\n  field limit 24..28 u32\n  field buffer 28..32 u32\n  field mtu 3\
    2..36 u32\n\nstruct tc_sizespec 24\n  field cell_log 0..1 u8\n  field size_log 1..2 u8\n  fiel\
    d cell_align 2..4 s16\n  field overhead 4..8 s32\n  field linklayer 8..12 u32\n  field mpu 12.\
    .16 u32\n  field mtu 16..20 u32\n  field tsize 20..24 u32\n\nstruct gnet_estimator 2\n  field \
    interval 0..1 s8\n  field ewma_log 1..2 u8\n\nstruct tc_choke_xstats 20\n  field early 0..4 u3\
    2\n  field pdrop 4..8 u32\n  field other 8..12 u32\n  field marked 12..16 u32\n  field matche\
    d 16..20 u32\n\nstruct tc_codel_xstats 36\n  field maxpacket 0..4 u32\n  field count 4..8 u3\
    2\n  field lastcount 8..12 u32\n  field ldelay 12..16 u32\n  field drop_next 16..20 s32\n  fie\
    ld drop_overlimit 20..24 u32\n  field ecn_mark 24..28 u32\n  field dropping 28..32 u32\n  fiel\
    d ce_mark 32..36 u32\n\nstruct tc_fq_codel_xstats 40\n  field type 0..4 u32\n  field maxpacke\
    t 4..8 u32\n  field drop_overlimit 8..12 u32\n  field ecn_mark 12..16 u32\n  field new_flow_co\
    unt 16..20 u32\n  field new_flows_len 20..24 u32\n  field old_flows_len 24..28 u32\n  field ce\
    _mark 28..32 u32\n  field memory_usage 32..36 u32\n  field drop_overmemory 36..40 u32\n\nstruc\
    t tc_fq_pie_xstats 36\n  field packets_in 0..4 u32\n  field dropped 4..8 u32\n  field overlimi\
    t 8..12 u32\n  field overmemory 12..16 u32\n  field ecn_mark 16..20 u32\n  field new_flow_coun\
    t 20..24 u32\n  field new_flows_len 24..28 u32\n  field old_flows_len 28..32 u32\n  field memo\
    ry_usage 32..36 u32\n\nstruct tc_fq_qd_stats 152\n  field gc_flows 0..8 u64\n  field highprio_\
    packets 8..16 u64\n  field tcp_retrans 16..24 u64\n  field throttled 24..32 u64\n  field flows\
    _plimit 32..40 u64\n  field pkts_too_long 40..48 u64\n  field allocation_errors 48..56 u64\n  \
    field time_next_delayed_flow 56..64 s64\n  field flows 64..68 u32\n  field inactive_flows 68..\
    72 u32\n  field throttled_flows 72..76 u32\n  field unthrottle_latency_ns 76..80 u32\n  field \
    ce_mark 80..88 u64\n  field horizon_drops 88..96 u64\n  field horizon_caps 96..104 u64\n  fiel\
    d fastpath_packets 104..112 u64\n  field band_drops 112..136 u64 array\n  field band_pkt_coun\
    t 136..148 u32 array\n\nstruct tc_hhf_xstats 16\n  field drop_overlimit 0..4 u32\n  field hh_o\
    verlimit 4..8 u32\n  field hh_tot_count 8..12 u32\n  field hh_cur_count 12..16 u32\n\nstruct t\
    c_pie_xstats 40\n  field prob 0..8 u64\n  field delay 8..12 u32\n  field avg_dq_rate 12..16 u3\
    2\n  field dq_rate_estimating 16..20 u32\n  field packets_in 20..24 u32\n  field dropped 24..2\
    8 u32\n  field overlimit 28..32 u32\n  field maxq 32..36 u32\n  field ecn_mark 36..40 u32\n\ns\
    truct tc_red_xstats 16\n  field early 0..4 u32\n  field pdrop 4..8 u32\n  field other 8..12 u3\
    2\n  field marked 12..16 u32\n\nstruct tc_sfb_xstats 36\n  field earlydrop 0..4 u32\n  field p\
    enaltydrop 4..8 u32\n  field bucketdrop 8..12 u32\n  field queuedrop 12..16 u32\n  field child\
    drop 16..20 u32\n  field marked 20..24 u32\n  field maxqlen 24..28 u32\n  field maxprob 28..3\
    2 u32\n  field avgprob 32..36 u32\n\nstruct tc_sfq_xstats 4\n  field allot 0..4 s32\n\nstruct \
    gnet_stats_basic 16\n  field bytes 0..8 u64\n  field packets 8..12 u32\n\nstruct gnet_stats_ra\
    te_est 8\n  field bps 0..4 u32\n  field pps 4..8 u32\n\nstruct gnet_stats_rate_est64 16\n  fie\
    ld bps 0..8 u64\n  field pps 8..16 u64\n\nstruct gnet_stats_queue 20\n  field qlen 0..4 u3\
    2\n  field backlog 4..8 u32\n  field drops 8..12 u32\n  field requeues 12..16 u32\n  field ove\
    rlimits 16..20 u32\n\nstruct tc_u32_key 16\n  field mask 0..4 be32 hex\n  field val 4..8 be32 \
    hex\n  field off 8..12 s32\n  field offmask 12..16 s32\n\nstruct tc_u32_mark 12\n  field val 0\
    ..4 u32\n  field mask 4..8 u32\n  field success 8..12 u32\n\nstruct tc_u32_sel 2064\n  field f\
    lags 0..1 u8\n  field offshift 1..2 u8\n  field nkeys 2..3 u8\n  field offmask 4..6 be16\n  fi\
    eld off 6..8 u16\n  field offoff 8..10 s16\n  field hoff 10..12 s16\n  field hmask 12..16 be3\
    2\n  field keys 16..2064 struct=tc_u32_key array\n\nstruct tc_u32_pcnt 24\n  field rcnt 0..8 u\
    64\n  field rhit 8..16 u64\n  field kcnts 16..24 u64\n\nstruct tcf_t 32\n  field install 0..8 \
    u64\n  field lastuse 8..16 u64\n  field expires 16..24 u64\n  field firstuse 24..32 u64\n\nstr\
    uct tc_gen 20\n  field index 0..4 u32\n  field capab 4..8 u32\n  field action 8..12 s32\n  fie\
    ld refcnt 12..16 s32\n  field bindcnt 16..20 s32\n\nstruct tc_gact_p 8\n  field ptype 0..2 u1\
    6\n  field pval 2..4 u16\n  field paction 4..8 s32\n\nstruct tcf_ematch_tree_hdr 4\n  field nm\
    atches 0..2 u16\n  field progid 2..4 u16\n\nstruct tc_basic_pcnt 16\n  field rcnt 0..8 u64\n  \
    field rhit 8..16 u64\n\nstruct tc_matchall_pcnt 8\n  field rhit 0..8 u64\n\nstruct tc_mpls 2\
    4\n  field index 0..4 u32\n  field capab 4..8 u32\n  field action 8..12 s32\n  field refcnt 12\
    ..16 s32\n  field bindcnt 16..20 s32\n  field m_action 20..24 s32\n\nstruct tc_police 56\n  fi\
    eld index 0..4 u32\n  field action 4..8 s32\n  field limit 8..12 u32\n  field burst 12..16 u3\
    2\n  field mtu 16..20 u32\n  field rate.cell_log 20..21 u8\n  field rate.linklayer 21..22 u\
    8\n  field rate.overhead 22..24 u16\n  field rate.cell_align 24..26 s16\n  field rate.mpu 26..\
    28 u16\n  field rate.rate 28..32 u32\n  field peakrate.cell_log 32..33 u8\n  field peakrate.li\
    nklayer 33..34 u8\n  field peakrate.overhead 34..36 u16\n  field peakrate.cell_align 36..38 s1\
    6\n  field peakrate.mpu 38..40 u16\n  field peakrate.rate 40..44 u32\n  field refcnt 44..48 s3\
    2\n  field bindcnt 48..52 s32\n  field capab 52..56 u32\n\nstruct tc_pedit_sel 46\n  field ind\
    ex 0..4 u32\n  field capab 4..8 u32\n  field action 8..12 s32\n  field refcnt 12..16 s32\n  fi\
    eld bindcnt 16..20 s32\n  field nkeys 20..21 u8\n  field flags 21..22 u8\n  field keys.mask 22\
    ..26 u32\n  field keys.val 26..30 u32\n  field keys.off 30..34 u32\n  field keys.at 34..38 u3\
    2\n  field keys.offmask 38..42 u32\n  field keys.shift 42..46 u32\n\nstruct tc_pedit_key 2\
    4\n  field mask 0..4 u32\n  field val 4..8 u32\n  field off 8..12 u32\n  field at 12..16 u3\
    2\n  field offmask 16..20 u32\n  field shift 20..24 u32\n\nstruct tc_vlan 24\n  field index 0.\
    .4 u32\n  field capab 4..8 u32\n  field action 8..12 s32\n  field refcnt 12..16 s32\n  field b\
    indcnt 16..20 s32\n  field v_action 20..24 s32\n\nstruct tcamsg 4\n  field tca_family 0..1 u\
    8\n\nstruct tc_mirred 28\n  field index 0..4 u32\n  field capab 4..8 u32\n  field action 8..1\
    2 s32\n  field refcnt 12..16 s32\n  field bindcnt 16..20 s32\n  field eaction 20..24 s32\n  fi\
    eld ifindex 24..28 u32\n\nstruct tc_act_bpf 20\n  field index 0..4 u32\n  field capab 4..8 u3\
    2\n  field action 8..12 s32\n  field refcnt 12..16 s32\n  field bindcnt 16..20 s32\n\nstruct t\
    c_connmark 24\n  field index 0..4 u32\n  field capab 4..8 u32\n  field action 8..12 s32\n  fie\
    ld refcnt 12..16 s32\n  field bindcnt 16..20 s32\n  field zone 20..22 u16\n\nstruct tc_ct 2\
    0\n  field index 0..4 u32\n  field capab 4..8 u32\n  field action 8..12 s32\n  field refcnt 12\
    ..16 s32\n  field bindcnt 16..20 s32\n\nstruct tc_gate 20\n  field index 0..4 u32\n  field cap\
    ab 4..8 u32\n  field action 8..12 s32\n  field refcnt 12..16 s32\n  field bindcnt 16..20 s3\
    2\n\nstruct tc_ife 24\n  field index 0..4 u32\n  field capab 4..8 u32\n  field action 8..12 s3\
    2\n  field refcnt 12..16 s32\n  field bindcnt 16..20 s32\n  field flags 20..22 u16\n\nstruct t\
    c_defact 20\n  field index 0..4 u32\n  field capab 4..8 u32\n  field action 8..12 s32\n  fiel\
    d refcnt 12..16 s32\n  field bindcnt 16..20 s32\n\nstruct tc_skbedit 20\n  field index 0..4 u3\
    2\n  field capab 4..8 u32\n  field action 8..12 s32\n  field refcnt 12..16 s32\n  field bindcn\
    t 16..20 s32\n\nstruct tc_skbmod 32\n  field index 0..4 u32\n  field capab 4..8 u32\n  field a\
    ction 8..12 s32\n  field refcnt 12..16 s32\n  field bindcnt 16..20 s32\n  field flags 24..32 u\
    64\n\nstruct tc_tunnel_key 24\n  field index 0..4 u32\n  field capab 4..8 u32\n  field action \
    8..12 s32\n  field refcnt 12..16 s32\n  field bindcnt 16..20 s32\n  field t_action 20..24 s3\
    2\n\nstruct tc_ctinfo 20\n  field index 0..4 u32\n  field capab 4..8 u32\n  field action 8..1\
    2 s32\n  field refcnt 12..16 s32\n  field bindcnt 16..20 s32\n\nstruct tc_service_curve 12\n  \
    field m1 0..4 u32\n  field d 4..8 u32\n  field m2 8..12 u32\n\nstruct tc_htb_xstats 20\n  fiel\
    d lends 0..4 u32\n  field borrows 4..8 u32\n  field giants 8..12 u32\n  field tokens 12..16 s3\
    2\n  field ctokens 16..20 s32\n\nstruct tc_hfsc_stats 24\n  field work 0..8 u64\n  field rtwor\
    k 8..16 u64\n  field period 16..20 u32\n  field level 20..24 u32\n\nstruct sock_filter 8\n  fi\
    eld code 0..2 u16\n  field jt 2..3 u8\n  field jf 3..4 u8\n  field k 4..8 u32\n\nstruct tc_drr\
    _stats 4\n  field deficit 0..4 u32\n\nstruct tc_qfq_stats 8\n  field weight 0..4 u32\n  field \
    lmax 4..8 u32\n\nstruct tc_csum 24\n  field index 0..4 u32\n  field capab 4..8 u32\n  field ac\
    tion 8..12 s32\n  field refcnt 12..16 s32\n  field bindcnt 16..20 s32\n  field update_flags 20\
    ..24 u32\n\nstruct tc_nat 36\n  field index 0..4 u32\n  field capab 4..8 u32\n  field action 8\
    ..12 s32\n  field refcnt 12..16 s32\n  field bindcnt 16..20 s32\n  field old_addr 20..24 ipv\
    4\n  field new_addr 24..28 ipv4\n  field mask 28..32 ipv4\n  field flags 32..36 u32\n\nset tc-\
    attrs\n  attr TCA_KIND 1 text\n  attr TCA_OPTIONS 2 choice=tc-options-msg by=TCA_KIND\n  attr \
    TCA_STATS 3 struct=tc_stats\n  attr TCA_XSTATS 4 choice=tca-stats-app-msg by=TCA_KIND\n  attr \
    TCA_RATE 5 struct=gnet_estimator length=0..2\n  attr TCA_FCNT 6 u32\n  attr TCA_STATS2 7 nest=\
    tca-stats-attrs\n  attr TCA_STAB 8 nest=tca-stab-attrs\n  attr TCA_PAD 9 pad\n  attr TCA_DUMP_\
    INVISIBLE 10 flag\n  attr TCA_CHAIN 11 u32\n  attr TCA_HW_OFFLOAD 12 u8\n  attr TCA_INGRESS_BL\
    OCK 13 u32\n  attr TCA_EGRESS_BLOCK 14 u32\n  attr TCA_DUMP_FLAGS 15 bits\n  attr TCA_EXT_WARN\
    _MSG 16 text\n\nset tc-act-attrs\n  attr TCA_ACT_KIND 1 text\n  attr TCA_ACT_OPTIONS 2 choice=\
    tc-act-options-msg by=TCA_ACT_KIND\n  attr TCA_ACT_INDEX 3 u32\n  attr TCA_ACT_STATS 4 nest=tc\
    -act-stats-attrs\n  attr TCA_ACT_PAD 5 pad\n  attr TCA_ACT_COOKIE 6 bytes length=0..16\n  att\
    r TCA_ACT_FLAGS 7 bits\n  attr TCA_ACT_HW_STATS 8 bits\n  attr TCA_ACT_USED_HW_STATS 9 bit\
    s\n  attr TCA_ACT_IN_HW_COUNT 10 u32\n\nset tc-act-stats-attrs\n  attr TCA_STATS_BASIC 1 struc\
    t=gnet_stats_basic\n  attr TCA_STATS_RATE_EST 2 struct=gnet_stats_rate_est\n  attr TCA_STATS_Q\
    UEUE 3 struct=gnet_stats_queue\n  attr TCA_STATS_APP 4 bytes\n  attr TCA_STATS_RATE_EST64 5 st\
    ruct=gnet_stats_rate_est64\n  attr TCA_STATS_PAD 6 pad\n  attr TCA_STATS_BASIC_HW 7 struct=gne\
    t_stats_basic\n  attr TCA_STATS_PKT64 8 u64\n\nset tc-act-bpf-attrs\n  attr TCA_ACT_BPF_TM 1 s\
    truct=tcf_t\n  attr TCA_ACT_BPF_PARMS 2 struct=tc_act_bpf\n  attr TCA_ACT_BPF_OPS_LEN 3 u1\
    6\n  attr TCA_ACT_BPF_OPS 4 struct=sock_filter array\n  attr TCA_ACT_BPF_FD 5 u32\n  attr TCA_\
    ACT_BPF_NAME 6 text\n  attr TCA_ACT_BPF_PAD 7 pad\n  attr TCA_ACT_BPF_TAG 8 bytes\n  attr TCA_\
    ACT_BPF_ID 9 u32\n\nset tc-act-connmark-attrs\n  attr TCA_CONNMARK_PARMS 1 struct=tc_connmar\
    k\n  attr TCA_CONNMARK_TM 2 struct=tcf_t\n  attr TCA_CONNMARK_PAD 3 pad\n\nset tc-act-csum-att\
    rs\n  attr TCA_CSUM_PARMS 1 struct=tc_csum\n  attr TCA_CSUM_TM 2 struct=tcf_t\n  attr TCA_CSUM\
    _PAD 3 pad\n\nset tc-act-ct-attrs\n  attr TCA_CT_PARMS 1 struct=tc_ct\n  attr TCA_CT_TM 2 stru\
    ct=tcf_t\n  attr TCA_CT_ACTION 3 u16\n  attr TCA_CT_ZONE 4 u16\n  attr TCA_CT_MARK 5 u32\n  at\
    tr TCA_CT_MARK_MASK 6 u32\n  attr TCA_CT_LABELS 7 bytes\n  attr TCA_CT_LABELS_MASK 8 bytes\n  \
    attr TCA_CT_NAT_IPV4_MIN 9 ipv4\n  attr TCA_CT_NAT_IPV4_MAX 10 ipv4\n  attr TCA_CT_NAT_IPV6_MI\
    N 11 ipv6\n  attr TCA_CT_NAT_IPV6_MAX 12 ipv6\n  attr TCA_CT_NAT_PORT_MIN 13 be16\n  attr TCA_\
    CT_NAT_PORT_MAX 14 be16\n  attr TCA_CT_PAD 15 pad\n  attr TCA_CT_HELPER_NAME 16 text\n  attr T\
    CA_CT_HELPER_FAMILY 17 u8\n  attr TCA_CT_HELPER_PROTO 18 u8\n\nset tc-act-ctinfo-attrs\n  att\
    r TCA_CTINFO_PAD 1 pad\n  attr TCA_CTINFO_TM 2 struct=tcf_t\n  attr TCA_CTINFO_ACT 3 struct=tc\
    _ctinfo\n  attr TCA_CTINFO_ZONE 4 u16\n  attr TCA_CTINFO_PARMS_DSCP_MASK 5 u32\n  attr TCA_CTI\
    NFO_PARMS_DSCP_STATEMASK 6 u32\n  attr TCA_CTINFO_PARMS_CPMARK_MASK 7 u32\n  attr TCA_CTINFO_S\
    TATS_DSCP_SET 8 u64\n  attr TCA_CTINFO_STATS_DSCP_ERROR 9 u64\n  attr TCA_CTINFO_STATS_CPMARK_\
    SET 10 u64\n\nset tc-act-gate-attrs\n  attr TCA_GATE_TM 1 struct=tcf_t\n  attr TCA_GATE_PARMS \
    2 struct=tc_gate\n  attr TCA_GATE_PAD 3 pad\n  attr TCA_GATE_PRIORITY 4 s32\n  attr TCA_GATE_E\
    NTRY_LIST 5 nest=gate-entries\n  attr TCA_GATE_BASE_TIME 6 u64\n  attr TCA_GATE_CYCLE_TIME 7 u\
    64\n  attr TCA_GATE_CYCLE_TIME_EXT 8 u64\n  attr TCA_GATE_FLAGS 9 u32\n  attr TCA_GATE_CLOCKI\
    D 10 s32\n\nset tc-act-ife-attrs\n  attr TCA_IFE_PARMS 1 struct=tc_ife\n  attr TCA_IFE_TM 2 st\
    ruct=tcf_t\n  attr TCA_IFE_DMAC 3 hardware\n  attr TCA_IFE_SMAC 4 hardware\n  attr TCA_IFE_TYP\
    E 5 u16\n  attr TCA_IFE_METALST 6 bytes\n  attr TCA_IFE_PAD 7 pad\n\nset tc-act-mirred-attr\
    s\n  attr TCA_MIRRED_TM 1 struct=tcf_t\n  attr TCA_MIRRED_PARMS 2 struct=tc_mirred\n  attr TCA\
    _MIRRED_PAD 3 pad\n  attr TCA_MIRRED_BLOCKID 4 u32\n\nset tc-act-mpls-attrs\n  attr TCA_MPLS_T\
    M 1 struct=tcf_t\n  attr TCA_MPLS_PARMS 2 struct=tc_mpls\n  attr TCA_MPLS_PAD 3 pad\n  attr TC\
    A_MPLS_PROTO 4 be16\n  attr TCA_MPLS_LABEL 5 u32\n  attr TCA_MPLS_TC 6 u8\n  attr TCA_MPLS_TT\
    L 7 u8\n  attr TCA_MPLS_BOS 8 u8\n\nset tc-act-nat-attrs\n  attr TCA_NAT_PARMS 1 struct=tc_na\
    t\n  attr TCA_NAT_TM 2 struct=tcf_t\n  attr TCA_NAT_PAD 3 pad\n\nset tc-act-pedit-attrs\n  att\
    r TCA_PEDIT_TM 1 struct=tcf_t\n  attr TCA_PEDIT_PARMS 2 struct=tc_pedit_sel\n  attr TCA_PEDIT_\
    PAD 3 pad\n  attr TCA_PEDIT_PARMS_EX 4 bytes\n  attr TCA_PEDIT_KEYS_EX 5 nest=pedit-keys\n  at\
    tr TCA_PEDIT_KEY_EX 6 nest=pedit-key\n\nset tc-act-police-attrs\n  attr TCA_POLICE_TBF 1 struc\
    t=tc_police\n  attr TCA_POLICE_RATE 2 u32 array\n  attr TCA_POLICE_PEAKRATE 3 u32 array\n  att\
    r TCA_POLICE_AVRATE 4 u32\n  attr TCA_POLICE_RESULT 5 u32\n  attr TCA_POLICE_TM 6 struct=tcf_\
    t\n  attr TCA_POLICE_PAD 7 pad\n  attr TCA_POLICE_RATE64 8 u64\n  attr TCA_POLICE_PEAKRATE64 \
    9 u64\n  attr TCA_POLICE_PKTRATE64 10 u64\n  attr TCA_POLICE_PKTBURST64 11 u64\n\nset tc-act-s\
    imple-attrs\n  attr TCA_DEF_TM 1 struct=tcf_t\n  attr TCA_DEF_PARMS 2 struct=tc_defact\n  att\
    r TCA_DEF_DATA 3 text\n  attr TCA_DEF_PAD 4 pad\n\nset tc-act-skbedit-attrs\n  attr TCA_SKBEDI\
    T_TM 1 struct=tcf_t\n  attr TCA_SKBEDIT_PARMS 2 struct=tc_skbedit\n  attr TCA_SKBEDIT_PRIORIT\
    Y 3 u32\n  attr TCA_SKBEDIT_QUEUE_MAPPING 4 u16\n  attr TCA_SKBEDIT_MARK 5 u32\n  attr TCA_SKB\
    EDIT_PAD 6 pad\n  attr TCA_SKBEDIT_PTYPE 7 u16\n  attr TCA_SKBEDIT_MASK 8 u32\n  attr TCA_SKBE\
    DIT_FLAGS 9 u64\n  attr TCA_SKBEDIT_QUEUE_MAPPING_MAX 10 u16\n\nset tc-act-skbmod-attrs\n  att\
    r TCA_SKBMOD_TM 1 struct=tcf_t\n  attr TCA_SKBMOD_PARMS 2 struct=tc_skbmod\n  attr TCA_SKBMOD_\
    DMAC 3 hardware\n  attr TCA_SKBMOD_SMAC 4 hardware\n  attr TCA_SKBMOD_ETYPE 5 u16\n  attr TCA_\
    SKBMOD_PAD 6 pad\n\nset tc-act-tunnel-key-attrs\n  attr TCA_TUNNEL_KEY_TM 1 struct=tcf_t\n  at\
    tr TCA_TUNNEL_KEY_PARMS 2 struct=tc_tunnel_key\n  attr TCA_TUNNEL_KEY_ENC_IPV4_SRC 3 ipv4\n  a\
    ttr TCA_TUNNEL_KEY_ENC_IPV4_DST 4 ipv4\n  attr TCA_TUNNEL_KEY_ENC_IPV6_SRC 5 ipv6\n  attr TCA_\
    TUNNEL_KEY_ENC_IPV6_DST 6 ipv6\n  attr TCA_TUNNEL_KEY_ENC_KEY_ID 7 be32\n  attr TCA_TUNNEL_KEY\
    _PAD 8 pad\n  attr TCA_TUNNEL_KEY_ENC_DST_PORT 9 be16\n  attr TCA_TUNNEL_KEY_NO_CSUM 10 u8\n  \
    attr TCA_TUNNEL_KEY_ENC_OPTS 11 nest=tunnel-key-options\n  attr TCA_TUNNEL_KEY_ENC_TOS 12 u\
    8\n  attr TCA_TUNNEL_KEY_ENC_TTL 13 u8\n  attr TCA_TUNNEL_KEY_NO_FRAG 14 flag\n\nset tc-act-vl\
    an-attrs strict-from=7\n  attr TCA_VLAN_TM 1 struct=tcf_t\n  attr TCA_VLAN_PARMS 2 struct=tc_v\
    lan\n  attr TCA_VLAN_PUSH_VLAN_ID 3 u16\n  attr TCA_VLAN_PUSH_VLAN_PROTOCOL 4 be16 hex\n  att\
    r TCA_VLAN_PAD 5 pad\n  attr TCA_VLAN_PUSH_VLAN_PRIORITY 6 u8\n  attr TCA_VLAN_PUSH_ETH_DST 7 \
    hardware\n  attr TCA_VLAN_PUSH_ETH_SRC 8 hardware\n\nset tc-basic-attrs\n  attr TCA_BASIC_CLAS\
    SID 1 u32\n  attr TCA_BASIC_EMATCHES 2 nest=tc-ematch-attrs\n  attr TCA_BASIC_ACT 3 nest=tc-ba\
    sic-attrs.act\n  attr TCA_BASIC_POLICE 4 nest=tc-police-attrs\n  attr TCA_BASIC_PCNT 5 struct=\
    tc_basic_pcnt\n  attr TCA_BASIC_PAD 6 pad\n\nset tc-basic-attrs.act\n  each index nest=tc-act-\
    attrs\n\nset tc-bpf-attrs\n  attr TCA_BPF_ACT 1 nest=tc-bpf-attrs.act\n  attr TCA_BPF_POLICE \
    2 nest=tc-police-attrs\n  attr TCA_BPF_CLASSID 3 u32\n  attr TCA_BPF_OPS_LEN 4 u16\n  attr TCA\
    _BPF_OPS 5 struct=sock_filter array\n  attr TCA_BPF_FD 6 u32\n  attr TCA_BPF_NAME 7 text\n  at\
    tr TCA_BPF_FLAGS 8 u32\n  attr TCA_BPF_FLAGS_GEN 9 u32\n  attr TCA_BPF_TAG 10 bytes\n  attr TC\
    A_BPF_ID 11 u32\n\nset tc-bpf-attrs.act\n  each index nest=tc-act-attrs\n\nset tc-cake-attr\
    s\n  attr TCA_CAKE_PAD 1 pad\n  attr TCA_CAKE_BASE_RATE64 2 u64\n  attr TCA_CAKE_DIFFSERV_MOD\
    E 3 u32\n  attr TCA_CAKE_ATM 4 u32\n  attr TCA_CAKE_FLOW_MODE 5 u32\n  attr TCA_CAKE_OVERHEAD \
    6 s32\n  attr TCA_CAKE_RTT 7 u32\n  attr TCA_CAKE_TARGET 8 u32\n  attr TCA_CAKE_AUTORATE 9 u3\
    2\n  attr TCA_CAKE_MEMORY 10 u32\n  attr TCA_CAKE_NAT 11 u32\n  attr TCA_CAKE_RAW 12 u32\n  at\
    tr TCA_CAKE_WASH 13 u32\n  attr TCA_CAKE_MPU 14 u32\n  attr TCA_CAKE_INGRESS 15 u32\n  attr TC\
    A_CAKE_ACK_FILTER 16 u32\n  attr TCA_CAKE_SPLIT_GSO 17 u32\n  attr TCA_CAKE_FWMARK 18 u32\n\ns\
    et tc-cake-stats-attrs\n  attr TCA_CAKE_STATS_PAD 1 pad\n  attr TCA_CAKE_STATS_CAPACITY_ESTIMA\
    TE64 2 u64\n  attr TCA_CAKE_STATS_MEMORY_LIMIT 3 u32\n  attr TCA_CAKE_STATS_MEMORY_USED 4 u3\
    2\n  attr TCA_CAKE_STATS_AVG_NETOFF 5 u32\n  attr TCA_CAKE_STATS_MIN_NETLEN 6 u32\n  attr TCA_\
    CAKE_STATS_MAX_NETLEN 7 u32\n  attr TCA_CAKE_STATS_MIN_ADJLEN 8 u32\n  attr TCA_CAKE_STATS_MAX\
    _ADJLEN 9 u32\n  attr TCA_CAKE_STATS_TIN_STATS 10 nest=tc-cake-stats-attrs.tin-stats\n  attr T\
    CA_CAKE_STATS_DEFICIT 11 s32\n  attr TCA_CAKE_STATS_COBALT_COUNT 12 u32\n  attr TCA_CAKE_STATS\
    _DROPPING 13 u32\n  attr TCA_CAKE_STATS_DROP_NEXT_US 14 s32\n  attr TCA_CAKE_STATS_P_DROP 15 u\
    32\n  attr TCA_CAKE_STATS_BLUE_TIMER_US 16 s32\n\nset tc-cake-stats-attrs.tin-stats\n  each in\
    dex nest=tc-cake-tin-stats-attrs\n\nset tc-cake-tin-stats-attrs\n  attr TCA_CAKE_TIN_STATS_PA\
    D 1 pad\n  attr TCA_CAKE_TIN_STATS_SENT_PACKETS 2 u32\n  attr TCA_CAKE_TIN_STATS_SENT_BYTES64 \
    3 u64\n  attr TCA_CAKE_TIN_STATS_DROPPED_PACKETS 4 u32\n  attr TCA_CAKE_TIN_STATS_DROPPED_BYTE\
    S64 5 u64\n  attr TCA_CAKE_TIN_STATS_ACKS_DROPPED_PACKETS 6 u32\n  attr TCA_CAKE_TIN_STATS_ACK\
    S_DROPPED_BYTES64 7 u64\n  attr TCA_CAKE_TIN_STATS_ECN_MARKED_PACKETS 8 u32\n  attr TCA_CAKE_T\
    IN_STATS_ECN_MARKED_BYTES64 9 u64\n  attr TCA_CAKE_TIN_STATS_BACKLOG_PACKETS 10 u32\n  attr TC\
    A_CAKE_TIN_STATS_BACKLOG_BYTES 11 u32\n  attr TCA_CAKE_TIN_STATS_THRESHOLD_RATE64 12 u64\n  at\
    tr TCA_CAKE_TIN_STATS_TARGET_US 13 u32\n  attr TCA_CAKE_TIN_STATS_INTERVAL_US 14 u32\n  attr T\
    CA_CAKE_TIN_STATS_WAY_INDIRECT_HITS 15 u32\n  attr TCA_CAKE_TIN_STATS_WAY_MISSES 16 u32\n  att\
    r TCA_CAKE_TIN_STATS_WAY_COLLISIONS 17 u32\n  attr TCA_CAKE_TIN_STATS_PEAK_DELAY_US 18 u32\n  \
    attr TCA_CAKE_TIN_STATS_AVG_DELAY_US 19 u32\n  attr TCA_CAKE_TIN_STATS_BASE_DELAY_US 20 u3\
    2\n  attr TCA_CAKE_TIN_STATS_SPARSE_FLOWS 21 u32\n  attr TCA_CAKE_TIN_STATS_BULK_FLOWS 22 u3\
    2\n  attr TCA_CAKE_TIN_STATS_UNRESPONSIVE_FLOWS 23 u32\n  attr TCA_CAKE_TIN_STATS_MAX_SKBLEN 2\
    4 u32\n  attr TCA_CAKE_TIN_STATS_FLOW_QUANTUM 25 u32\n\nset tc-cbs-attrs\n  attr TCA_CBS_PARM\
    S 1 struct=tc_cbs_qopt\n\nset tc-cgroup-attrs\n  attr TCA_CGROUP_ACT 1 nest=tc-cgroup-attrs.ac\
    t\n  attr TCA_CGROUP_POLICE 2 nest=tc-police-attrs\n  attr TCA_CGROUP_EMATCHES 3 nest=tc-ematc\
    h-attrs\n\nset tc-cgroup-attrs.act\n  each index nest=tc-act-attrs\n\nset tc-choke-attrs\n  at\
    tr TCA_CHOKE_PARMS 1 struct=tc_red_qopt\n  attr TCA_CHOKE_STAB 2 bytes length=256\n  attr TCA_\
    CHOKE_MAX_P 3 u32\n\nset tc-codel-attrs\n  attr TCA_CODEL_TARGET 1 u32\n  attr TCA_CODEL_LIMI\
    T 2 u32\n  attr TCA_CODEL_INTERVAL 3 u32\n  attr TCA_CODEL_ECN 4 u32\n  attr TCA_CODEL_CE_THRE\
    SHOLD 5 u32\n\nset tc-drr-attrs\n  attr TCA_DRR_QUANTUM 1 u32\n\nset tc-ematch-attrs\n  attr T\
    CA_EMATCH_TREE_HDR 1 struct=tcf_ematch_tree_hdr\n  attr TCA_EMATCH_TREE_LIST 2 nest=ematche\
    s\n\nset tc-flow-attrs\n  attr TCA_FLOW_KEYS 1 u32\n  attr TCA_FLOW_MODE 2 u32\n  attr TCA_FLO\
    W_BASECLASS 3 u32\n  attr TCA_FLOW_RSHIFT 4 u32\n  attr TCA_FLOW_ADDEND 5 u32\n  attr TCA_FLOW\
    _MASK 6 u32\n  attr TCA_FLOW_XOR 7 u32\n  attr TCA_FLOW_DIVISOR 8 u32\n  attr TCA_FLOW_ACT 9 n\
    est=tc-fw-attrs.act\n  attr TCA_FLOW_POLICE 10 nest=tc-police-attrs\n  attr TCA_FLOW_EMATCHES \
    11 nest=tc-ematch-attrs\n  attr TCA_FLOW_PERTURB 12 u32\n\nset tc-flower-attrs strict-from=10\
    6\n  attr TCA_FLOWER_CLASSID 1 u32\n  attr TCA_FLOWER_INDEV 2 text\n  attr TCA_FLOWER_ACT 3 ne\
    st=tc-flower-attrs.act\n  attr TCA_FLOWER_KEY_ETH_DST 4 hardware\n  attr TCA_FLOWER_KEY_ETH_DS\
    T_MASK 5 hardware\n  attr TCA_FLOWER_KEY_ETH_SRC 6 hardware\n  attr TCA_FLOWER_KEY_ETH_SRC_MAS\
    K 7 hardware\n  attr TCA_FLOWER_KEY_ETH_TYPE 8 be16\n  attr TCA_FLOWER_KEY_IP_PROTO 9 u8\n  at\
    tr TCA_FLOWER_KEY_IPV4_SRC 10 ipv4\n  attr TCA_FLOWER_KEY_IPV4_SRC_MASK 11 ipv4\n  attr TCA_FL\
    OWER_KEY_IPV4_DST 12 ipv4\n  attr TCA_FLOWER_KEY_IPV4_DST_MASK 13 ipv4\n  attr TCA_FLOWER_KEY_\
    IPV6_SRC 14 ip\n  attr TCA_FLOWER_KEY_IPV6_SRC_MASK 15 ip\n  attr TCA_FLOWER_KEY_IPV6_DST 16 i\
    p\n  attr TCA_FLOWER_KEY_IPV6_DST_MASK 17 ip\n  attr TCA_FLOWER_KEY_TCP_SRC 18 be16\n  attr TC\
    A_FLOWER_KEY_TCP_DST 19 be16\n  attr TCA_FLOWER_KEY_UDP_SRC 20 be16\n  attr TCA_FLOWER_KEY_UDP\
    _DST 21 be16\n  attr TCA_FLOWER_FLAGS 22 u32 flags=tc-cls-flags\n  attr TCA_FLOWER_KEY_VLAN_I\
    D 23 be16\n  attr TCA_FLOWER_KEY_VLAN_PRIO 24 u8\n  attr TCA_FLOWER_KEY_VLAN_ETH_TYPE 25 be1\
    6\n  attr TCA_FLOWER_KEY_ENC_KEY_ID 26 be32\n  attr TCA_FLOWER_KEY_ENC_IPV4_SRC 27 ipv4\n  att\
    r TCA_FLOWER_KEY_ENC_IPV4_SRC_MASK 28 ipv4\n  attr TCA_FLOWER_KEY_ENC_IPV4_DST 29 ipv4\n  att\
    r TCA_FLOWER_KEY_ENC_IPV4_DST_MASK 30 ipv4\n  attr TCA_FLOWER_KEY_ENC_IPV6_SRC 31 ip\n  attr T\
    CA_FLOWER_KEY_ENC_IPV6_SRC_MASK 32 ip\n  attr TCA_FLOWER_KEY_ENC_IPV6_DST 33 ip\n  attr TCA_FL\
    OWER_KEY_ENC_IPV6_DST_MASK 34 ip\n  attr TCA_FLOWER_KEY_TCP_SRC_MASK 35 be16\n  attr TCA_FLOWE\
    R_KEY_TCP_DST_MASK 36 be16\n  attr TCA_FLOWER_KEY_UDP_SRC_MASK 37 be16\n  attr TCA_FLOWER_KEY_\
    UDP_DST_MASK 38 be16\n  attr TCA_FLOWER_KEY_SCTP_SRC_MASK 39 be16\n  attr TCA_FLOWER_KEY_SCTP_\
    DST_MASK 40 be16\n  attr TCA_FLOWER_KEY_SCTP_SRC 41 be16\n  attr TCA_FLOWER_KEY_SCTP_DST 42 be\
    16\n  attr TCA_FLOWER_KEY_ENC_UDP_SRC_PORT 43 be16\n  attr TCA_FLOWER_KEY_ENC_UDP_SRC_PORT_MAS\
    K 44 be16\n  attr TCA_FLOWER_KEY_ENC_UDP_DST_PORT 45 be16\n  attr TCA_FLOWER_KEY_ENC_UDP_DST_P\
    ORT_MASK 46 be16\n  attr TCA_FLOWER_KEY_FLAGS 47 be32 flags=tc-flower-key-ctrl-flags\n  attr T\
    CA_FLOWER_KEY_FLAGS_MASK 48 be32 flags=tc-flower-key-ctrl-flags\n  attr TCA_FLOWER_KEY_ICMPV4_\
    CODE 49 u8\n  attr TCA_FLOWER_KEY_ICMPV4_CODE_MASK 50 u8\n  attr TCA_FLOWER_KEY_ICMPV4_TYPE 5\
    1 u8\n  attr TCA_FLOWER_KEY_ICMPV4_TYPE_MASK 52 u8\n  attr TCA_FLOWER_KEY_ICMPV6_CODE 53 u\
    8\n  attr TCA_FLOWER_KEY_ICMPV6_CODE_MASK 54 u8\n  attr TCA_FLOWER_KEY_ICMPV6_TYPE 55 u8\n  at\
    tr TCA_FLOWER_KEY_ICMPV6_TYPE_MASK 56 u8\n  attr TCA_FLOWER_KEY_ARP_SIP 57 be32\n  attr TCA_FL\
    OWER_KEY_ARP_SIP_MASK 58 be32\n  attr TCA_FLOWER_KEY_ARP_TIP 59 be32\n  attr TCA_FLOWER_KEY_AR\
    P_TIP_MASK 60 be32\n  attr TCA_FLOWER_KEY_ARP_OP 61 u8\n  attr TCA_FLOWER_KEY_ARP_OP_MASK 62 u\
    8\n  attr TCA_FLOWER_KEY_ARP_SHA 63 hardware\n  attr TCA_FLOWER_KEY_ARP_SHA_MASK 64 hardwar\
    e\n  attr TCA_FLOWER_KEY_ARP_THA 65 hardware\n  attr TCA_FLOWER_KEY_ARP_THA_MASK 66 hardwar\
    e\n  attr TCA_FLOWER_KEY_MPLS_TTL 67 u8\n  attr TCA_FLOWER_KEY_MPLS_BOS 68 u8\n  attr TCA_FLOW\
    ER_KEY_MPLS_TC 69 u8\n  attr TCA_FLOWER_KEY_MPLS_LABEL 70 u32\n  attr TCA_FLOWER_KEY_TCP_FLAG\
    S 71 be16\n  attr TCA_FLOWER_KEY_TCP_FLAGS_MASK 72 be16\n  attr TCA_FLOWER_KEY_IP_TOS 73 u\
    8\n  attr TCA_FLOWER_KEY_IP_TOS_MASK 74 u8\n  attr TCA_FLOWER_KEY_IP_TTL 75 u8\n  attr TCA_FLO\
    WER_KEY_IP_TTL_MASK 76 u8\n  attr TCA_FLOWER_KEY_CVLAN_ID 77 be16\n  attr TCA_FLOWER_KEY_CVLAN\
    _PRIO 78 u8\n  attr TCA_FLOWER_KEY_CVLAN_ETH_TYPE 79 be16\n  attr TCA_FLOWER_KEY_ENC_IP_TOS 8\
    0 u8\n  attr TCA_FLOWER_KEY_ENC_IP_TOS_MASK 81 u8\n  attr TCA_FLOWER_KEY_ENC_IP_TTL 82 u8\n  a\
    ttr TCA_FLOWER_KEY_ENC_IP_TTL_MASK 83 u8\n  attr TCA_FLOWER_KEY_ENC_OPTS 84 nest=tc-flower-key\
    -enc-opts-attrs\n  attr TCA_FLOWER_KEY_ENC_OPTS_MASK 85 nest=tc-flower-key-enc-opts-attrs\n  a\
    ttr TCA_FLOWER_IN_HW_COUNT 86 u32\n  attr TCA_FLOWER_KEY_PORT_SRC_MIN 87 be16\n  attr TCA_FLOW\
    ER_KEY_PORT_SRC_MAX 88 be16\n  attr TCA_FLOWER_KEY_PORT_DST_MIN 89 be16\n  attr TCA_FLOWER_KEY\
    _PORT_DST_MAX 90 be16\n  attr TCA_FLOWER_KEY_CT_STATE 91 u16\n  attr TCA_FLOWER_KEY_CT_STATE_M\
    ASK 92 u16\n  attr TCA_FLOWER_KEY_CT_ZONE 93 u16\n  attr TCA_FLOWER_KEY_CT_ZONE_MASK 94 u1\
    6\n  attr TCA_FLOWER_KEY_CT_MARK 95 u32\n  attr TCA_FLOWER_KEY_CT_MARK_MASK 96 u32\n  attr TCA\
    _FLOWER_KEY_CT_LABELS 97 bytes\n  attr TCA_FLOWER_KEY_CT_LABELS_MASK 98 bytes\n  attr TCA_FLOW\
    ER_KEY_MPLS_OPTS 99 nest=mpls-options\n  attr TCA_FLOWER_KEY_HASH 100 u32\n  attr TCA_FLOWER_K\
    EY_HASH_MASK 101 u32\n  attr TCA_FLOWER_KEY_NUM_OF_VLANS 102 u8\n  attr TCA_FLOWER_KEY_PPPOE_S\
    ID 103 be16\n  attr TCA_FLOWER_KEY_PPP_PROTO 104 be16\n  attr TCA_FLOWER_KEY_L2TPV3_SID 105 be\
    32\n  attr TCA_FLOWER_L2_MISS 106 u8\n  attr TCA_FLOWER_KEY_CFM 107 nest=tc-flower-key-cfm-att\
    rs\n  attr TCA_FLOWER_KEY_SPI 108 be32\n  attr TCA_FLOWER_KEY_SPI_MASK 109 be32\n  attr TCA_FL\
    OWER_KEY_ENC_FLAGS 110 be32 flags=tc-flower-key-ctrl-flags\n  attr TCA_FLOWER_KEY_ENC_FLAGS_MA\
    SK 111 be32 flags=tc-flower-key-ctrl-flags\n\nset tc-flower-attrs.act\n  each index nest=tc-ac\
    t-attrs\n\nset tc-flower-key-enc-opts-attrs strict-from=2\n  attr TCA_FLOWER_KEY_ENC_OPTS_GENE\
    VE 1 nest=tc-flower-key-enc-opt-geneve-attrs\n  attr TCA_FLOWER_KEY_ENC_OPTS_VXLAN 2 nest=tc-f\
    lower-key-enc-opt-vxlan-attrs\n  attr TCA_FLOWER_KEY_ENC_OPTS_ERSPAN 3 nest=tc-flower-key-enc-\
    opt-erspan-attrs\n  attr TCA_FLOWER_KEY_ENC_OPTS_GTP 4 nest=tc-flower-key-enc-opt-gtp-attr\
    s\n\nset tc-flower-key-enc-opt-geneve-attrs\n  attr TCA_FLOWER_KEY_ENC_OPT_GENEVE_CLASS 1 be1\
    6\n  attr TCA_FLOWER_KEY_ENC_OPT_GENEVE_TYPE 2 u8\n  attr TCA_FLOWER_KEY_ENC_OPT_GENEVE_DATA \
    3 bytes length=0..127\n\nset tc-flower-key-enc-opt-vxlan-attrs\n  attr TCA_FLOWER_KEY_ENC_OPT_\
    VXLAN_GBP 1 u32\n\nset tc-flower-key-enc-opt-erspan-attrs\n  attr TCA_FLOWER_KEY_ENC_OPT_ERSPA\
    N_VER 1 u8\n  attr TCA_FLOWER_KEY_ENC_OPT_ERSPAN_INDEX 2 be32\n  attr TCA_FLOWER_KEY_ENC_OPT_E\
    RSPAN_DIR 3 u8\n  attr TCA_FLOWER_KEY_ENC_OPT_ERSPAN_HWID 4 u8\n\nset tc-flower-key-enc-opt-gt\
    p-attrs\n  attr TCA_FLOWER_KEY_ENC_OPT_GTP_PDU_TYPE 1 u8\n  attr TCA_FLOWER_KEY_ENC_OPT_GTP_QF\
    I 2 u8\n\nset tc-flower-key-mpls-opt-attrs\n  attr TCA_FLOWER_KEY_MPLS_OPT_LSE_DEPTH 1 u8\n  a\
    ttr TCA_FLOWER_KEY_MPLS_OPT_LSE_TTL 2 u8\n  attr TCA_FLOWER_KEY_MPLS_OPT_LSE_BOS 3 u8\n  attr \
    TCA_FLOWER_KEY_MPLS_OPT_LSE_TC 4 u8\n  attr TCA_FLOWER_KEY_MPLS_OPT_LSE_LABEL 5 u32\n\nset tc-\
    flower-key-cfm-attrs\n  attr TCA_FLOWER_KEY_CFM_MD_LEVEL 1 u8\n  attr TCA_FLOWER_KEY_CFM_OPCOD\
    E 2 u8\n\nset tc-fw-attrs\n  attr TCA_FW_CLASSID 1 u32\n  attr TCA_FW_POLICE 2 nest=tc-police-\
    attrs\n  attr TCA_FW_INDEV 3 text\n  attr TCA_FW_ACT 4 nest=tc-fw-attrs.act\n  attr TCA_FW_MAS\
    K 5 u32\n\nset tc-fw-attrs.act\n  each index nest=tc-act-attrs\n\nset tc-gred-attrs\n  attr TC\
    A_GRED_PARMS 1 struct=tc_gred_qopt array\n  attr TCA_GRED_STAB 2 u8 array\n  attr TCA_GRED_DP\
    S 3 struct=tc_gred_sopt\n  attr TCA_GRED_MAX_P 4 u32 array\n  attr TCA_GRED_LIMIT 5 u32\n  att\
    r TCA_GRED_VQ_LIST 6 nest=tca-gred-vq-list-attrs\n\nset tca-gred-vq-list-attrs\n  attr TCA_GRE\
    D_VQ_ENTRY 1 nest=tca-gred-vq-entry-attrs multi\n\nset tca-gred-vq-entry-attrs\n  attr TCA_GRE\
    D_VQ_PAD 1 pad\n  attr TCA_GRED_VQ_DP 2 u32\n  attr TCA_GRED_VQ_STAT_BYTES 3 u64\n  attr TCA_G\
    RED_VQ_STAT_PACKETS 4 u32\n  attr TCA_GRED_VQ_STAT_BACKLOG 5 u32\n  attr TCA_GRED_VQ_STAT_PROB\
    _DROP 6 u32\n  attr TCA_GRED_VQ_STAT_PROB_MARK 7 u32\n  attr TCA_GRED_VQ_STAT_FORCED_DROP 8 u3\
    2\n  attr TCA_GRED_VQ_STAT_FORCED_MARK 9 u32\n  attr TCA_GRED_VQ_STAT_PDROP 10 u32\n  attr TCA\
    _GRED_VQ_STAT_OTHER 11 u32\n  attr TCA_GRED_VQ_FLAGS 12 u32\n\nset tc-hfsc-attrs\n  attr TCA_H\
    FSC_RSC 1 struct=tc_service_curve\n  attr TCA_HFSC_FSC 2 struct=tc_service_curve\n  attr TCA_H\
    FSC_USC 3 struct=tc_service_curve\n\nset tc-hhf-attrs\n  attr TCA_HHF_BACKLOG_LIMIT 1 u32\n  a\
    ttr TCA_HHF_QUANTUM 2 u32\n  attr TCA_HHF_HH_FLOWS_LIMIT 3 u32\n  attr TCA_HHF_RESET_TIMEOUT \
    4 u32\n  attr TCA_HHF_ADMIT_BYTES 5 u32\n  attr TCA_HHF_EVICT_TIMEOUT 6 u32\n  attr TCA_HHF_NO\
    N_HH_WEIGHT 7 u32\n\nset tc-htb-attrs\n  attr TCA_HTB_PARMS 1 struct=tc_htb_opt\n  attr TCA_HT\
    B_INIT 2 struct=tc_htb_glob\n  attr TCA_HTB_CTAB 3 u32 array\n  attr TCA_HTB_RTAB 4 u32 arra\
    y\n  attr TCA_HTB_DIRECT_QLEN 5 u32\n  attr TCA_HTB_RATE64 6 u64\n  attr TCA_HTB_CEIL64 7 u6\
    4\n  attr TCA_HTB_PAD 8 pad\n  attr TCA_HTB_OFFLOAD 9 flag\n\nset tc-matchall-attrs\n  attr TC\
    A_MATCHALL_CLASSID 1 u32\n  attr TCA_MATCHALL_ACT 2 nest=tc-matchall-attrs.act\n  attr TCA_MAT\
    CHALL_FLAGS 3 u32\n  attr TCA_MATCHALL_PCNT 4 struct=tc_matchall_pcnt\n  attr TCA_MATCHALL_PA\
    D 5 pad\n\nset tc-matchall-attrs.act\n  each index nest=tc-act-attrs\n\nset tc-etf-attrs\n  at\
    tr TCA_ETF_PARMS 1 struct=tc_etf_qopt\n\nset tc-ets-attrs\n  attr TCA_ETS_NBANDS 1 u8\n  attr \
    TCA_ETS_NSTRICT 2 u8\n  attr TCA_ETS_QUANTA 3 nest=tc-ets-attrs\n  attr TCA_ETS_QUANTA_BAND 4 \
    u32 multi\n  attr TCA_ETS_PRIOMAP 5 nest=tc-ets-attrs\n  attr TCA_ETS_PRIOMAP_BAND 6 u8 mult\
    i\n\nset tc-fq-attrs strict-from=13\n  attr TCA_FQ_PLIMIT 1 u32\n  attr TCA_FQ_FLOW_PLIMIT 2 u\
    32\n  attr TCA_FQ_QUANTUM 3 u32\n  attr TCA_FQ_INITIAL_QUANTUM 4 u32\n  attr TCA_FQ_RATE_ENABL\
    E 5 u32\n  attr TCA_FQ_FLOW_DEFAULT_RATE 6 u32\n  attr TCA_FQ_FLOW_MAX_RATE 7 u32\n  attr TCA_\
    FQ_BUCKETS_LOG 8 u32\n  attr TCA_FQ_FLOW_REFILL_DELAY 9 u32\n  attr TCA_FQ_ORPHAN_MASK 10 u3\
    2\n  attr TCA_FQ_LOW_RATE_THRESHOLD 11 u32\n  attr TCA_FQ_CE_THRESHOLD 12 u32\n  attr TCA_FQ_T\
    IMER_SLACK 13 u32\n  attr TCA_FQ_HORIZON 14 u32\n  attr TCA_FQ_HORIZON_DROP 15 u8\n  attr TCA_\
    FQ_PRIOMAP 16 struct=tc_prio_qopt\n  attr TCA_FQ_WEIGHTS 17 s32 array\n\nset tc-fq-codel-attr\
    s\n  attr TCA_FQ_CODEL_TARGET 1 u32\n  attr TCA_FQ_CODEL_LIMIT 2 u32\n  attr TCA_FQ_CODEL_INTE\
    RVAL 3 u32\n  attr TCA_FQ_CODEL_ECN 4 u32\n  attr TCA_FQ_CODEL_FLOWS 5 u32\n  attr TCA_FQ_CODE\
    L_QUANTUM 6 u32\n  attr TCA_FQ_CODEL_CE_THRESHOLD 7 u32\n  attr TCA_FQ_CODEL_DROP_BATCH_SIZE \
    8 u32\n  attr TCA_FQ_CODEL_MEMORY_LIMIT 9 u32\n  attr TCA_FQ_CODEL_CE_THRESHOLD_SELECTOR 10 u\
    8\n  attr TCA_FQ_CODEL_CE_THRESHOLD_MASK 11 u8\n\nset tc-fq-pie-attrs\n  attr TCA_FQ_PIE_LIMI\
    T 1 u32\n  attr TCA_FQ_PIE_FLOWS 2 u32\n  attr TCA_FQ_PIE_TARGET 3 u32\n  attr TCA_FQ_PIE_TUPD\
    ATE 4 u32\n  attr TCA_FQ_PIE_ALPHA 5 u32\n  attr TCA_FQ_PIE_BETA 6 u32\n  attr TCA_FQ_PIE_QUAN\
    TUM 7 u32\n  attr TCA_FQ_PIE_MEMORY_LIMIT 8 u32\n  attr TCA_FQ_PIE_ECN_PROB 9 u32\n  attr TCA_\
    FQ_PIE_ECN 10 u32\n  attr TCA_FQ_PIE_BYTEMODE 11 u32\n  attr TCA_FQ_PIE_DQ_RATE_ESTIMATOR 12 u\
    32\n\nset tc-netem-attrs\n  attr TCA_NETEM_CORR 1 struct=tc_netem_corr\n  attr TCA_NETEM_DELAY\
    _DIST 2 s16 array\n  attr TCA_NETEM_REORDER 3 struct=tc_netem_reorder\n  attr TCA_NETEM_CORRUP\
    T 4 struct=tc_netem_corrupt\n  attr TCA_NETEM_LOSS 5 nest=tc-netem-loss-attrs\n  attr TCA_NETE\
    M_RATE 6 struct=tc_netem_rate\n  attr TCA_NETEM_ECN 7 u32\n  attr TCA_NETEM_RATE64 8 u64\n  at\
    tr TCA_NETEM_PAD 9 pad\n  attr TCA_NETEM_LATENCY64 10 s64\n  attr TCA_NETEM_JITTER64 11 s6\
    4\n  attr TCA_NETEM_SLOT 12 struct=tc_netem_slot\n  attr TCA_NETEM_SLOT_DIST 13 s16 array\n  a\
    ttr TCA_NETEM_PRNG_SEED 14 u64\n\nset tc-netem-loss-attrs\n  attr NETEM_LOSS_GI 1 struct=tc_ne\
    tem_gimodel\n  attr NETEM_LOSS_GE 2 struct=tc_netem_gemodel\n\nset tc-pie-attrs\n  attr TCA_PI\
    E_TARGET 1 u32\n  attr TCA_PIE_LIMIT 2 u32\n  attr TCA_PIE_TUPDATE 3 u32\n  attr TCA_PIE_ALPH\
    A 4 u32\n  attr TCA_PIE_BETA 5 u32\n  attr TCA_PIE_ECN 6 u32\n  attr TCA_PIE_BYTEMODE 7 u3\
    2\n  attr TCA_PIE_DQ_RATE_ESTIMATOR 8 u32\n\nset tc-police-attrs\n  attr TCA_POLICE_TBF 1 stru\
    ct=tc_police\n  attr TCA_POLICE_RATE 2 u32 array\n  attr TCA_POLICE_PEAKRATE 3 u32 array\n  at\
    tr TCA_POLICE_AVRATE 4 u32\n  attr TCA_POLICE_RESULT 5 u32\n  attr TCA_POLICE_TM 6 struct=tcf_\
    t\n  attr TCA_POLICE_PAD 7 pad\n  attr TCA_POLICE_RATE64 8 u64\n  attr TCA_POLICE_PEAKRATE64 \
    9 u64\n  attr TCA_POLICE_PKTRATE64 10 u64\n  attr TCA_POLICE_PKTBURST64 11 u64\n\nset tc-qfq-a\
    ttrs\n  attr TCA_QFQ_WEIGHT 1 u32\n  attr TCA_QFQ_LMAX 2 u32\n\nset tc-red-attrs strict-from=\
    4\n  attr TCA_RED_PARMS 1 struct=tc_red_qopt\n  attr TCA_RED_STAB 2 bytes\n  attr TCA_RED_MAX_\
    P 3 u32\n  attr TCA_RED_FLAGS 4 bits\n  attr TCA_RED_EARLY_DROP_BLOCK 5 u32\n  attr TCA_RED_MA\
    RK_BLOCK 6 u32\n\nset tc-route-attrs\n  attr TCA_ROUTE4_CLASSID 1 u32\n  attr TCA_ROUTE4_TO 2 \
    u32\n  attr TCA_ROUTE4_FROM 3 u32\n  attr TCA_ROUTE4_IIF 4 u32\n  attr TCA_ROUTE4_POLICE 5 nes\
    t=tc-police-attrs\n  attr TCA_ROUTE4_ACT 6 nest=tc-route-attrs.act\n\nset tc-route-attrs.ac\
    t\n  each index nest=tc-act-attrs\n\nset tc-taprio-attrs\n  attr TCA_TAPRIO_ATTR_PRIOMAP 1 str\
    uct=tc_mqprio_qopt\n  attr TCA_TAPRIO_ATTR_SCHED_ENTRY_LIST 2 nest=tc-taprio-sched-entry-lis\
    t\n  attr TCA_TAPRIO_ATTR_SCHED_BASE_TIME 3 s64\n  attr TCA_TAPRIO_ATTR_SCHED_SINGLE_ENTRY 4 n\
    est=tc-taprio-sched-entry\n  attr TCA_TAPRIO_ATTR_SCHED_CLOCKID 5 s32\n  attr TCA_TAPRIO_PAD \
    6 pad\n  attr TCA_TAPRIO_ATTR_ADMIN_SCHED 7 nest=tc-taprio-attrs\n  attr TCA_TAPRIO_ATTR_SCHED\
    _CYCLE_TIME 8 s64\n  attr TCA_TAPRIO_ATTR_SCHED_CYCLE_TIME_EXTENSION 9 s64\n  attr TCA_TAPRIO_\
    ATTR_FLAGS 10 u32\n  attr TCA_TAPRIO_ATTR_TXTIME_DELAY 11 u32\n  attr TCA_TAPRIO_ATTR_TC_ENTR\
    Y 12 nest=tc-taprio-tc-entry-attrs\n\nset tc-taprio-sched-entry-list\n  attr TCA_TAPRIO_SCHED_\
    ENTRY 1 nest=tc-taprio-sched-entry multi\n\nset tc-taprio-sched-entry\n  attr TCA_TAPRIO_SCHED\
    _ENTRY_INDEX 1 u32\n  attr TCA_TAPRIO_SCHED_ENTRY_CMD 2 u8\n  attr TCA_TAPRIO_SCHED_ENTRY_GATE\
    _MASK 3 u32\n  attr TCA_TAPRIO_SCHED_ENTRY_INTERVAL 4 u32\n\nset tc-taprio-tc-entry-attrs\n  a\
    ttr TCA_TAPRIO_TC_ENTRY_INDEX 1 u32\n  attr TCA_TAPRIO_TC_ENTRY_MAX_SDU 2 u32\n  attr TCA_TAPR\
    IO_TC_ENTRY_FP 3 u32\n\nset tc-tbf-attrs\n  attr TCA_TBF_PARMS 1 struct=tc_tbf_qopt\n  attr TC\
    A_TBF_RTAB 2 u32 array\n  attr TCA_TBF_PTAB 3 u32 array\n  attr TCA_TBF_RATE64 4 u64\n  attr T\
    CA_TBF_PRATE64 5 u64\n  attr TCA_TBF_BURST 6 u32\n  attr TCA_TBF_PBURST 7 u32\n  attr TCA_TBF_\
    PAD 8 pad\n\nset tc-act-sample-attrs\n  attr TCA_SAMPLE_TM 1 struct=tcf_t\n  attr TCA_SAMPLE_P\
    ARMS 2 struct=tc_gen\n  attr TCA_SAMPLE_RATE 3 u32\n  attr TCA_SAMPLE_TRUNC_SIZE 4 u32\n  att\
    r TCA_SAMPLE_PSAMPLE_GROUP 5 u32\n  attr TCA_SAMPLE_PAD 6 pad\n\nset tc-act-gact-attrs\n  att\
    r TCA_GACT_TM 1 struct=tcf_t\n  attr TCA_GACT_PARMS 2 struct=tc_gen\n  attr TCA_GACT_PROB 3 st\
    ruct=tc_gact_p\n  attr TCA_GACT_PAD 4 pad\n\nset tca-stab-attrs\n  attr TCA_STAB_BASE 1 struct\
    =tc_sizespec\n  attr TCA_STAB_DATA 2 u16 array\n\nset tca-stats-attrs\n  attr TCA_STATS_BASIC \
    1 struct=gnet_stats_basic\n  attr TCA_STATS_RATE_EST 2 struct=gnet_stats_rate_est\n  attr TCA_\
    STATS_QUEUE 3 struct=gnet_stats_queue\n  attr TCA_STATS_APP 4 choice=tca-stats-app-msg by=TCA_\
    KIND\n  attr TCA_STATS_RATE_EST64 5 struct=gnet_stats_rate_est64\n  attr TCA_STATS_PAD 6 pa\
    d\n  attr TCA_STATS_BASIC_HW 7 struct=gnet_stats_basic\n  attr TCA_STATS_PKT64 8 u64\n\nset tc\
    -u32-attrs\n  attr TCA_U32_CLASSID 1 u32\n  attr TCA_U32_HASH 2 u32\n  attr TCA_U32_LINK 3 u3\
    2\n  attr TCA_U32_DIVISOR 4 u32\n  attr TCA_U32_SEL 5 struct=tc_u32_sel\n  attr TCA_U32_POLIC\
    E 6 nest=tc-police-attrs\n  attr TCA_U32_ACT 7 nest=tc-u32-attrs.act\n  attr TCA_U32_INDEV 8 t\
    ext\n  attr TCA_U32_PCNT 9 struct=tc_u32_pcnt\n  attr TCA_U32_MARK 10 struct=tc_u32_mark\n  at\
    tr TCA_U32_FLAGS 11 u32\n  attr TCA_U32_PAD 12 pad\n\nset tc-u32-attrs.act\n  each index nest=\
    tc-act-attrs\n\nset action-root\n  attr TCA_ROOT_TAB 1 nest=actions\n  attr TCA_ROOT_FLAGS 2 b\
    its\n  attr TCA_ROOT_COUNT 3 u32\n  attr TCA_ROOT_TIME_DELTA 4 u32\n  attr TCA_ROOT_EXT_WARN_M\
    SG 5 text\n\nset actions\n  each action nest=tc-act-attrs\n\nset tunnel-key-options strict-fro\
    m=2\n  attr TCA_TUNNEL_KEY_ENC_OPTS_GENEVE 1 nest=tunnel-key-geneve multi\n  attr TCA_TUNNEL_K\
    EY_ENC_OPTS_VXLAN 2 nest=tunnel-key-vxlan\n  attr TCA_TUNNEL_KEY_ENC_OPTS_ERSPAN 3 nest=tunnel\
    -key-erspan\n\nset tunnel-key-geneve\n  attr TCA_TUNNEL_KEY_ENC_OPT_GENEVE_CLASS 1 be16\n  att\
    r TCA_TUNNEL_KEY_ENC_OPT_GENEVE_TYPE 2 u8\n  attr TCA_TUNNEL_KEY_ENC_OPT_GENEVE_DATA 3 bytes l\
    ength=0..127\n\nset tunnel-key-vxlan\n  attr TCA_TUNNEL_KEY_ENC_OPT_VXLAN_GBP 1 u32\n\nset tun\
    nel-key-erspan\n  attr TCA_TUNNEL_KEY_ENC_OPT_ERSPAN_VER 1 u8\n  attr TCA_TUNNEL_KEY_ENC_OPT_E\
    RSPAN_INDEX 2 be32\n  attr TCA_TUNNEL_KEY_ENC_OPT_ERSPAN_DIR 3 u8\n  attr TCA_TUNNEL_KEY_ENC_O\
    PT_ERSPAN_HWID 4 u8\n\nset sfb\n  attr TCA_SFB_PARMS 1 struct=tc_sfb_qopt\n\nset mqprio\n  att\
    r TCA_MQPRIO_MODE 1 u16\n  attr TCA_MQPRIO_SHAPER 2 u16\n  attr TCA_MQPRIO_MIN_RATE64 3 nest=m\
    qprio-least-rates\n  attr TCA_MQPRIO_MAX_RATE64 4 nest=mqprio-largest-rates\n  attr TCA_MQPRIO\
    _TC_ENTRY 5 nest=mqprio-entry multi\n\nset mqprio-least-rates\n  attr TCA_MQPRIO_MIN_RATE64 3 \
    u64 multi\n\nset mqprio-largest-rates\n  attr TCA_MQPRIO_MAX_RATE64 4 u64 multi\n\nset mqprio-\
    entry\n  attr TCA_MQPRIO_TC_ENTRY_INDEX 1 u32\n  attr TCA_MQPRIO_TC_ENTRY_FP 2 u32\n\nset gate\
    -entries\n  attr TCA_GATE_ONE_ENTRY 1 nest=gate-entry multi\n\nset gate-entry\n  attr TCA_GATE\
    _ENTRY_INDEX 1 u32\n  attr TCA_GATE_ENTRY_GATE 2 flag\n  attr TCA_GATE_ENTRY_INTERVAL 3 u3\
    2\n  attr TCA_GATE_ENTRY_IPV 4 s32\n  attr TCA_GATE_ENTRY_MAX_OCTETS 5 s32\n\nset pedit-key\
    s\n  attr TCA_PEDIT_KEY_EX 6 nest=pedit-key multi\n\nset pedit-key\n  attr TCA_PEDIT_KEY_EX_HT\
    YPE 1 u16 enum=pedit-header\n  attr TCA_PEDIT_KEY_EX_CMD 2 u16 enum=pedit-command\n\nset ematc\
    hes\n  each match bytes\n\nset mpls-options\n  attr TCA_FLOWER_KEY_MPLS_OPTS_LSE 1 nest=tc-flo\
    wer-key-mpls-opt-attrs multi\n\nchoice tc-options-msg\n  case basic nest=tc-basic-attrs\n  cas\
    e bpf nest=tc-bpf-attrs\n  case bfifo struct=tc_fifo_qopt\n  case cake nest=tc-cake-attrs\n  c\
    ase cbs nest=tc-cbs-attrs\n  case cgroup nest=tc-cgroup-attrs\n  case choke nest=tc-choke-attr\
    s\n  case clsact bytes\n  case codel nest=tc-codel-attrs\n  case drr nest=tc-drr-attrs\n  cas\
    e etf nest=tc-etf-attrs\n  case ets nest=tc-ets-attrs\n  case flow nest=tc-flow-attrs\n  case \
    flower nest=tc-flower-attrs\n  case fq nest=tc-fq-attrs\n  case fq_codel nest=tc-fq-codel-attr\
    s\n  case fq_pie nest=tc-fq-pie-attrs\n  case fw nest=tc-fw-attrs\n  case gred nest=tc-gred-at\
    trs\n  case hfsc struct=tc_hfsc_qopt\n  case hhf nest=tc-hhf-attrs\n  case htb nest=tc-htb-att\
    rs\n  case ingress bytes\n  case matchall nest=tc-matchall-attrs\n  case mq bytes\n  case mqpr\
    io nest=mqprio after=tc_mqprio_qopt\n  case multiq struct=tc_multiq_qopt\n  case netem nest=tc\
    -netem-attrs after=tc_netem_qopt\n  case pfifo struct=tc_fifo_qopt\n  case pfifo_fast struct=t\
    c_prio_qopt\n  case pfifo_head_drop struct=tc_fifo_qopt\n  case pie nest=tc-pie-attrs\n  case \
    plug struct=tc_plug_qopt\n  case prio struct=tc_prio_qopt\n  case qfq nest=tc-qfq-attrs\n  cas\
    e red nest=tc-red-attrs\n  case route nest=tc-route-attrs\n  case sfb nest=sfb\n  case sfq str\
    uct=tc_sfq_qopt_v1\n  case taprio nest=tc-taprio-attrs\n  case tbf nest=tc-tbf-attrs\n  case u\
    32 nest=tc-u32-attrs\n\nchoice tc-act-options-msg\n  case bpf nest=tc-act-bpf-attrs\n  case co\
    nnmark nest=tc-act-connmark-attrs\n  case csum nest=tc-act-csum-attrs\n  case ct nest=tc-act-c\
    t-attrs\n  case ctinfo nest=tc-act-ctinfo-attrs\n  case gact nest=tc-act-gact-attrs\n  case ga\
    te nest=tc-act-gate-attrs\n  case ife nest=tc-act-ife-attrs\n  case mirred nest=tc-act-mirred-\
    attrs\n  case mpls nest=tc-act-mpls-attrs\n  case nat nest=tc-act-nat-attrs\n  case pedit nest\
    =tc-act-pedit-attrs\n  case police nest=tc-act-police-attrs\n  case sample nest=tc-act-sample-\
    attrs\n  case simple nest=tc-act-simple-attrs\n  case skbedit nest=tc-act-skbedit-attrs\n  cas\
    e skbmod nest=tc-act-skbmod-attrs\n  case tunnel_key nest=tc-act-tunnel-key-attrs\n  case vla\
    n nest=tc-act-vlan-attrs\n\nchoice tca-stats-app-msg\n  case cake nest=tc-cake-stats-attrs\n  \
    case choke struct=tc_choke_xstats\n  case codel struct=tc_codel_xstats\n  case fq struct=tc_fq\
    _qd_stats\n  case fq_codel struct=tc_fq_codel_xstats\n  case fq_pie struct=tc_fq_pie_xstat\
    s\n  case hhf struct=tc_hhf_xstats\n  case pie struct=tc_pie_xstats\n  case red struct=tc_red_\
    xstats\n  case sfb struct=tc_sfb_xstats\n  case sfq struct=tc_sfq_xstats\n  case htb struct=tc\
    _htb_xstats\n  case hfsc struct=tc_hfsc_stats\n  case drr struct=tc_drr_stats\n  case qfq stru\
    ct=tc_qfq_stats\n";

/// The text of `tables/tc.table`.
pub(crate) fn text() -> &'static [u8]
    ensures { Begins result.now (heading_of table.Tc) }
{
    TEXT
}
