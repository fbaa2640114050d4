//! The text of `tables/xfrm.table`. Written by `tables/into-crates`.

ghost use Rattle.neli_tables_system.specs.Tables.{Begins, heading_of};
ghost use Rattle.neli_tables_system.specs.declared.table.SystemTable.TheVariants as table;

/// The text.
static TEXT: &[u8] = b"\
    # Written by hand from the headers.\n\nfamily xfrm 6\n\ngroup XFRMNLGRP_ACQUIRE 1\ngroup XFRMN\
    LGRP_EXPIRE 2\ngroup XFRMNLGRP_SA 3\ngroup XFRMNLGRP_POLICY 4\ngroup XFRMNLGRP_AEVENTS 5\ngrou\
    p XFRMNLGRP_REPORT 6\ngroup XFRMNLGRP_MIGRATE 7\ngroup XFRMNLGRP_MAPPING 8\n\nmessage XFRM_MSG\
    _NEWSA 16 nest=xfrm after=xfrm_usersa_info\nmessage XFRM_MSG_DELSA 17 nest=xfrm after=xfrm_use\
    rsa_id\nmessage XFRM_MSG_GETSA 18 nest=xfrm after=xfrm_usersa_id\nmessage XFRM_MSG_NEWPOLICY 1\
    9 nest=xfrm after=xfrm_userpolicy_info\nmessage XFRM_MSG_DELPOLICY 20 nest=xfrm after=xfrm_use\
    rpolicy_id\nmessage XFRM_MSG_GETPOLICY 21 nest=xfrm after=xfrm_userpolicy_id\nmessage XFRM_MSG\
    _ALLOCSPI 22 nest=xfrm after=xfrm_userspi_info\nmessage XFRM_MSG_ACQUIRE 23 nest=xfrm after=xf\
    rm_user_acquire\nmessage XFRM_MSG_EXPIRE 24 nest=xfrm after=xfrm_user_expire\nmessage XFRM_MSG\
    _UPDPOLICY 25 nest=xfrm after=xfrm_userpolicy_info\nmessage XFRM_MSG_UPDSA 26 nest=xfrm after=\
    xfrm_usersa_info\nmessage XFRM_MSG_POLEXPIRE 27 nest=xfrm after=xfrm_user_polexpire\nmessage X\
    FRM_MSG_FLUSHSA 28 nest=xfrm after=xfrm_usersa_flush\nmessage XFRM_MSG_FLUSHPOLICY 29 nest=xfr\
    m\nmessage XFRM_MSG_NEWAE 30 nest=xfrm after=xfrm_aevent_id\nmessage XFRM_MSG_GETAE 31 nest=xf\
    rm after=xfrm_aevent_id\nmessage XFRM_MSG_REPORT 32 nest=xfrm after=xfrm_user_report\nmessage \
    XFRM_MSG_MIGRATE 33 nest=xfrm after=xfrm_userpolicy_id\nmessage XFRM_MSG_NEWSADINFO 34 nest=sa\
    d after=xfrm_flags\nmessage XFRM_MSG_GETSADINFO 35 nest=sad after=xfrm_flags\nmessage XFRM_MSG\
    _NEWSPDINFO 36 nest=spd after=xfrm_flags\nmessage XFRM_MSG_GETSPDINFO 37 nest=spd after=xfrm_f\
    lags\nmessage XFRM_MSG_MAPPING 38 nest=xfrm after=xfrm_user_mapping\nmessage XFRM_MSG_SETDEFAU\
    LT 39 nest=xfrm after=xfrm_userpolicy_default\nmessage XFRM_MSG_GETDEFAULT 40 nest=xfrm after=\
    xfrm_userpolicy_default\n\nenum mode prefix=XFRM_MODE_\n  value transport 0\n  value tunnel \
    1\n  value routeoptimization 2\n  value in-trigger 3\n  value beet 4\n\nenum direction prefix=\
    XFRM_SA_DIR_\n  value in 1\n  value out 2\n\nstruct xfrm_flags 4\n  field flags 0..4 u32\n\nst\
    ruct xfrm_address_filter 36\n  field saddr 0..16 bytes\n  field daddr 16..32 bytes\n  field fa\
    mily 32..34 u16\n  field splen 34..35 u8\n  field dplen 35..36 u8\n\nstruct xfrm_aevent_id 4\
    8\n  field sa_id.daddr 0..16 bytes\n  field sa_id.spi 16..20 be32\n  field sa_id.family 20..2\
    2 u16\n  field sa_id.proto 22..23 u8\n  field saddr 24..40 bytes\n  field flags 40..44 u32\n  \
    field reqid 44..48 u32\n\nstruct xfrm_algo 68\n  field alg_name 0..64 text\n  field alg_key_le\
    n 64..68 u32\n\nstruct xfrm_algo_aead 72\n  field alg_name 0..64 text\n  field alg_key_len 64.\
    .68 u32\n  field alg_icv_len 68..72 u32\n\nstruct xfrm_algo_auth 72\n  field alg_name 0..64 te\
    xt\n  field alg_key_len 64..68 u32\n  field alg_trunc_len 68..72 u32\n\nstruct xfrm_encap_tmp\
    l 24\n  field encap_type 0..2 u16\n  field encap_sport 2..4 be16\n  field encap_dport 4..6 be1\
    6\n  field encap_oa 8..24 bytes\n\nstruct xfrm_lifetime_cur 32\n  field bytes 0..8 u64\n  fiel\
    d packets 8..16 u64\n  field add_time 16..24 u64\n  field use_time 24..32 u64\n\nstruct xfrm_m\
    ark 8\n  field v 0..4 u32\n  field m 4..8 u32\n\nstruct xfrm_replay_state 12\n  field oseq 0..\
    4 u32\n  field seq 4..8 u32\n  field bitmap 8..12 u32\n\nstruct xfrm_replay_state_esn 24\n  fi\
    eld bmp_len 0..4 u32\n  field oseq 4..8 u32\n  field seq 8..12 u32\n  field oseq_hi 12..16 u3\
    2\n  field seq_hi 16..20 u32\n  field replay_window 20..24 u32\n\nstruct xfrm_user_acquire 28\
    0\n  field id.daddr 0..16 bytes\n  field id.spi 16..20 be32\n  field id.proto 20..21 u8\n  fie\
    ld saddr 24..40 bytes\n  field sel.daddr 40..56 bytes\n  field sel.saddr 56..72 bytes\n  fiel\
    d sel.dport 72..74 be16\n  field sel.dport_mask 74..76 be16\n  field sel.sport 76..78 be16\n  \
    field sel.sport_mask 78..80 be16\n  field sel.family 80..82 u16\n  field sel.prefixlen_d 82..8\
    3 u8\n  field sel.prefixlen_s 83..84 u8\n  field sel.proto 84..85 u8\n  field sel.ifindex 88..\
    92 s32\n  field sel.user 92..96 u32\n  field policy.sel.daddr 96..112 bytes\n  field policy.se\
    l.saddr 112..128 bytes\n  field policy.sel.dport 128..130 be16\n  field policy.sel.dport_mask \
    130..132 be16\n  field policy.sel.sport 132..134 be16\n  field policy.sel.sport_mask 134..136 \
    be16\n  field policy.sel.family 136..138 u16\n  field policy.sel.prefixlen_d 138..139 u8\n  fi\
    eld policy.sel.prefixlen_s 139..140 u8\n  field policy.sel.proto 140..141 u8\n  field policy.s\
    el.ifindex 144..148 s32\n  field policy.sel.user 148..152 u32\n  field policy.lft.soft_byte_li\
    mit 152..160 u64\n  field policy.lft.hard_byte_limit 160..168 u64\n  field policy.lft.soft_pac\
    ket_limit 168..176 u64\n  field policy.lft.hard_packet_limit 176..184 u64\n  field policy.lft.\
    soft_add_expires_seconds 184..192 u64\n  field policy.lft.hard_add_expires_seconds 192..200 u6\
    4\n  field policy.lft.soft_use_expires_seconds 200..208 u64\n  field policy.lft.hard_use_expir\
    es_seconds 208..216 u64\n  field policy.curlft.bytes 216..224 u64\n  field policy.curlft.packe\
    ts 224..232 u64\n  field policy.curlft.add_time 232..240 u64\n  field policy.curlft.use_time 2\
    40..248 u64\n  field policy.priority 248..252 u32\n  field policy.index 252..256 u32\n  field \
    policy.dir 256..257 u8\n  field policy.action 257..258 u8\n  field policy.flags 258..259 u\
    8\n  field policy.share 259..260 u8\n  field aalgos 264..268 u32\n  field ealgos 268..272 u3\
    2\n  field calgos 272..276 u32\n  field seq 276..280 u32\n\nstruct xfrm_user_expire 232\n  fie\
    ld state.sel.daddr 0..16 bytes\n  field state.sel.saddr 16..32 bytes\n  field state.sel.dport \
    32..34 be16\n  field state.sel.dport_mask 34..36 be16\n  field state.sel.sport 36..38 be16\n  \
    field state.sel.sport_mask 38..40 be16\n  field state.sel.family 40..42 u16\n  field state.sel\
    .prefixlen_d 42..43 u8\n  field state.sel.prefixlen_s 43..44 u8\n  field state.sel.proto 44..4\
    5 u8\n  field state.sel.ifindex 48..52 s32\n  field state.sel.user 52..56 u32\n  field state.i\
    d.daddr 56..72 bytes\n  field state.id.spi 72..76 be32\n  field state.id.proto 76..77 u8\n  fi\
    eld state.saddr 80..96 bytes\n  field state.lft.soft_byte_limit 96..104 u64\n  field state.lft\
    .hard_byte_limit 104..112 u64\n  field state.lft.soft_packet_limit 112..120 u64\n  field state\
    .lft.hard_packet_limit 120..128 u64\n  field state.lft.soft_add_expires_seconds 128..136 u6\
    4\n  field state.lft.hard_add_expires_seconds 136..144 u64\n  field state.lft.soft_use_expires\
    _seconds 144..152 u64\n  field state.lft.hard_use_expires_seconds 152..160 u64\n  field state.\
    curlft.bytes 160..168 u64\n  field state.curlft.packets 168..176 u64\n  field state.curlft.add\
    _time 176..184 u64\n  field state.curlft.use_time 184..192 u64\n  field state.stats.replay_win\
    dow 192..196 u32\n  field state.stats.replay 196..200 u32\n  field state.stats.integrity_faile\
    d 200..204 u32\n  field state.seq 204..208 u32\n  field state.reqid 208..212 u32\n  field stat\
    e.family 212..214 u16\n  field state.mode 214..215 u8\n  field state.replay_window 215..216 u\
    8\n  field state.flags 216..217 u8\n  field hard 224..225 u8\n\nstruct xfrm_user_kmaddress 4\
    0\n  field local 0..16 bytes\n  field remote 16..32 bytes\n  field family 36..38 u16\n\nstruc\
    t xfrm_user_mapping 64\n  field id.daddr 0..16 bytes\n  field id.spi 16..20 be32\n  field id.f\
    amily 20..22 u16\n  field id.proto 22..23 u8\n  field reqid 24..28 u32\n  field old_saddr 28..\
    44 bytes\n  field new_saddr 44..60 bytes\n  field old_sport 60..62 be16\n  field new_sport 62.\
    .64 be16\n\nstruct xfrm_user_migrate 76\n  field old_daddr 0..16 bytes\n  field old_saddr 16..\
    32 bytes\n  field new_daddr 32..48 bytes\n  field new_saddr 48..64 bytes\n  field proto 64..6\
    5 u8\n  field mode 65..66 u8\n  field reqid 68..72 u32\n  field old_family 72..74 u16\n  fiel\
    d new_family 74..76 u16\n\nstruct xfrm_user_offload 8\n  field ifindex 0..4 s32\n  field flag\
    s 4..5 u8\n\nstruct xfrm_user_polexpire 176\n  field pol.sel.daddr 0..16 bytes\n  field pol.se\
    l.saddr 16..32 bytes\n  field pol.sel.dport 32..34 be16\n  field pol.sel.dport_mask 34..36 be1\
    6\n  field pol.sel.sport 36..38 be16\n  field pol.sel.sport_mask 38..40 be16\n  field pol.sel.\
    family 40..42 u16\n  field pol.sel.prefixlen_d 42..43 u8\n  field pol.sel.prefixlen_s 43..44 u\
    8\n  field pol.sel.proto 44..45 u8\n  field pol.sel.ifindex 48..52 s32\n  field pol.sel.user 5\
    2..56 u32\n  field pol.lft.soft_byte_limit 56..64 u64\n  field pol.lft.hard_byte_limit 64..72 \
    u64\n  field pol.lft.soft_packet_limit 72..80 u64\n  field pol.lft.hard_packet_limit 80..88 u6\
    4\n  field pol.lft.soft_add_expires_seconds 88..96 u64\n  field pol.lft.hard_add_expires_secon\
    ds 96..104 u64\n  field pol.lft.soft_use_expires_seconds 104..112 u64\n  field pol.lft.hard_us\
    e_expires_seconds 112..120 u64\n  field pol.curlft.bytes 120..128 u64\n  field pol.curlft.pack\
    ets 128..136 u64\n  field pol.curlft.add_time 136..144 u64\n  field pol.curlft.use_time 144..1\
    52 u64\n  field pol.priority 152..156 u32\n  field pol.index 156..160 u32\n  field pol.dir 160\
    ..161 u8\n  field pol.action 161..162 u8\n  field pol.flags 162..163 u8\n  field pol.share 163\
    ..164 u8\n  field hard 168..169 u8\n\nstruct xfrm_user_report 60\n  field proto 0..1 u8\n  fie\
    ld sel.daddr 4..20 bytes\n  field sel.saddr 20..36 bytes\n  field sel.dport 36..38 be16\n  fie\
    ld sel.dport_mask 38..40 be16\n  field sel.sport 40..42 be16\n  field sel.sport_mask 42..44 be\
    16\n  field sel.family 44..46 u16\n  field sel.prefixlen_d 46..47 u8\n  field sel.prefixlen_s \
    47..48 u8\n  field sel.proto 48..49 u8\n  field sel.ifindex 52..56 s32\n  field sel.user 56..6\
    0 u32\n\nstruct xfrm_user_sec_ctx 8\n  field len 0..2 u16\n  field exttype 2..4 u16\n  field c\
    tx_alg 4..5 u8\n  field ctx_doi 5..6 u8\n  field ctx_len 6..8 u16\n\nstruct xfrm_user_tmpl 6\
    4\n  field id.daddr 0..16 bytes\n  field id.spi 16..20 be32\n  field id.proto 20..21 u8\n  fie\
    ld family 24..26 u16\n  field saddr 28..44 bytes\n  field reqid 44..48 u32\n  field mode 48..4\
    9 u8 enum=mode\n  field share 49..50 u8\n  field optional 50..51 u8\n  field aalgos 52..56 u3\
    2\n  field ealgos 56..60 u32\n  field calgos 60..64 u32\n\nstruct xfrm_userpolicy_default \
    3\n  field in 0..1 u8\n  field fwd 1..2 u8\n  field out 2..3 u8\n\nstruct xfrm_userpolicy_id 6\
    4\n  field sel.daddr 0..16 bytes\n  field sel.saddr 16..32 bytes\n  field sel.dport 32..34 be1\
    6\n  field sel.dport_mask 34..36 be16\n  field sel.sport 36..38 be16\n  field sel.sport_mask 3\
    8..40 be16\n  field sel.family 40..42 u16\n  field sel.prefixlen_d 42..43 u8\n  field sel.pref\
    ixlen_s 43..44 u8\n  field sel.proto 44..45 u8\n  field sel.ifindex 48..52 s32\n  field sel.us\
    er 52..56 u32\n  field index 56..60 u32\n  field dir 60..61 u8\n\nstruct xfrm_userpolicy_info \
    168\n  field sel.daddr 0..16 bytes\n  field sel.saddr 16..32 bytes\n  field sel.dport 32..34 b\
    e16\n  field sel.dport_mask 34..36 be16\n  field sel.sport 36..38 be16\n  field sel.sport_mas\
    k 38..40 be16\n  field sel.family 40..42 u16\n  field sel.prefixlen_d 42..43 u8\n  field sel.p\
    refixlen_s 43..44 u8\n  field sel.proto 44..45 u8\n  field sel.ifindex 48..52 s32\n  field sel\
    .user 52..56 u32\n  field lft.soft_byte_limit 56..64 u64\n  field lft.hard_byte_limit 64..72 u\
    64\n  field lft.soft_packet_limit 72..80 u64\n  field lft.hard_packet_limit 80..88 u64\n  fiel\
    d lft.soft_add_expires_seconds 88..96 u64\n  field lft.hard_add_expires_seconds 96..104 u6\
    4\n  field lft.soft_use_expires_seconds 104..112 u64\n  field lft.hard_use_expires_seconds 112\
    ..120 u64\n  field curlft.bytes 120..128 u64\n  field curlft.packets 128..136 u64\n  field cur\
    lft.add_time 136..144 u64\n  field curlft.use_time 144..152 u64\n  field priority 152..156 u3\
    2\n  field index 156..160 u32\n  field dir 160..161 u8\n  field action 161..162 u8\n  field fl\
    ags 162..163 u8\n  field share 163..164 u8\n\nstruct xfrm_userpolicy_type 6\n  field type 0..\
    1 u8\n  field reserved1 2..4 u16\n  field reserved2 4..5 u8\n\nstruct xfrm_usersa_flush 1\n  f\
    ield proto 0..1 u8\n\nstruct xfrm_usersa_id 24\n  field daddr 0..16 bytes\n  field spi 16..20 \
    be32\n  field family 20..22 u16\n  field proto 22..23 u8\n\nstruct xfrm_usersa_info 224\n  fie\
    ld sel.daddr 0..16 bytes\n  field sel.saddr 16..32 bytes\n  field sel.dport 32..34 be16\n  fie\
    ld sel.dport_mask 34..36 be16\n  field sel.sport 36..38 be16\n  field sel.sport_mask 38..40 be\
    16\n  field sel.family 40..42 u16\n  field sel.prefixlen_d 42..43 u8\n  field sel.prefixlen_s \
    43..44 u8\n  field sel.proto 44..45 u8\n  field sel.ifindex 48..52 s32\n  field sel.user 52..5\
    6 u32\n  field id.daddr 56..72 bytes\n  field id.spi 72..76 be32\n  field id.proto 76..77 u\
    8\n  field saddr 80..96 bytes\n  field lft.soft_byte_limit 96..104 u64\n  field lft.hard_byte_\
    limit 104..112 u64\n  field lft.soft_packet_limit 112..120 u64\n  field lft.hard_packet_limit \
    120..128 u64\n  field lft.soft_add_expires_seconds 128..136 u64\n  field lft.hard_add_expires_\
    seconds 136..144 u64\n  field lft.soft_use_expires_seconds 144..152 u64\n  field lft.hard_use_\
    expires_seconds 152..160 u64\n  field curlft.bytes 160..168 u64\n  field curlft.packets 168..1\
    76 u64\n  field curlft.add_time 176..184 u64\n  field curlft.use_time 184..192 u64\n  field st\
    ats.replay_window 192..196 u32\n  field stats.replay 196..200 u32\n  field stats.integrity_fai\
    led 200..204 u32\n  field seq 204..208 u32\n  field reqid 208..212 u32\n  field family 212..21\
    4 u16\n  field mode 214..215 u8 enum=mode\n  field replay_window 215..216 u8\n  field flags 21\
    6..217 u8\n\nstruct xfrm_userspi_info 232\n  field info.sel.daddr 0..16 bytes\n  field info.se\
    l.saddr 16..32 bytes\n  field info.sel.dport 32..34 be16\n  field info.sel.dport_mask 34..36 b\
    e16\n  field info.sel.sport 36..38 be16\n  field info.sel.sport_mask 38..40 be16\n  field info\
    .sel.family 40..42 u16\n  field info.sel.prefixlen_d 42..43 u8\n  field info.sel.prefixlen_s 4\
    3..44 u8\n  field info.sel.proto 44..45 u8\n  field info.sel.ifindex 48..52 s32\n  field info.\
    sel.user 52..56 u32\n  field info.id.daddr 56..72 bytes\n  field info.id.spi 72..76 be32\n  fi\
    eld info.id.proto 76..77 u8\n  field info.saddr 80..96 bytes\n  field info.lft.soft_byte_limi\
    t 96..104 u64\n  field info.lft.hard_byte_limit 104..112 u64\n  field info.lft.soft_packet_lim\
    it 112..120 u64\n  field info.lft.hard_packet_limit 120..128 u64\n  field info.lft.soft_add_ex\
    pires_seconds 128..136 u64\n  field info.lft.hard_add_expires_seconds 136..144 u64\n  field in\
    fo.lft.soft_use_expires_seconds 144..152 u64\n  field info.lft.hard_use_expires_seconds 152..1\
    60 u64\n  field info.curlft.bytes 160..168 u64\n  field info.curlft.packets 168..176 u64\n  fi\
    eld info.curlft.add_time 176..184 u64\n  field info.curlft.use_time 184..192 u64\n  field info\
    .stats.replay_window 192..196 u32\n  field info.stats.replay 196..200 u32\n  field info.stats.\
    integrity_failed 200..204 u32\n  field info.seq 204..208 u32\n  field info.reqid 208..212 u3\
    2\n  field info.family 212..214 u16\n  field info.mode 214..215 u8\n  field info.replay_windo\
    w 215..216 u8\n  field info.flags 216..217 u8\n  field min 224..228 u32\n  field max 228..232 \
    u32\n\nstruct xfrmu_sadhinfo 8\n  field sadhcnt 0..4 u32\n  field sadhmcnt 4..8 u32\n\nstruct \
    xfrmu_spdinfo 24\n  field incnt 0..4 u32\n  field outcnt 4..8 u32\n  field fwdcnt 8..12 u3\
    2\n  field inscnt 12..16 u32\n  field outscnt 16..20 u32\n  field fwdscnt 20..24 u32\n\nstruc\
    t xfrmu_spdhinfo 8\n  field spdhcnt 0..4 u32\n  field spdhmcnt 4..8 u32\n\nstruct xfrmu_spdhth\
    resh 2\n  field lbits 0..1 u8\n  field rbits 1..2 u8\n\nset xfrm strict-from=33\n  attr XFRMA_\
    ALG_AUTH 1 struct=xfrm_algo\n  attr XFRMA_ALG_CRYPT 2 struct=xfrm_algo\n  attr XFRMA_ALG_COMP \
    3 struct=xfrm_algo\n  attr XFRMA_ENCAP 4 struct=xfrm_encap_tmpl\n  attr XFRMA_TMPL 5 struct=xf\
    rm_user_tmpl array\n  attr XFRMA_SA 6 struct=xfrm_usersa_info\n  attr XFRMA_POLICY 7 struct=xf\
    rm_userpolicy_info\n  attr XFRMA_SEC_CTX 8 struct=xfrm_user_sec_ctx\n  attr XFRMA_LTIME_VAL 9 \
    struct=xfrm_lifetime_cur\n  attr XFRMA_REPLAY_VAL 10 struct=xfrm_replay_state\n  attr XFRMA_RE\
    PLAY_THRESH 11 u32\n  attr XFRMA_ETIMER_THRESH 12 u32\n  attr XFRMA_SRCADDR 13 bytes length=1\
    6\n  attr XFRMA_COADDR 14 bytes length=16\n  attr XFRMA_LASTUSED 15 u64\n  attr XFRMA_POLICY_T\
    YPE 16 struct=xfrm_userpolicy_type\n  attr XFRMA_MIGRATE 17 struct=xfrm_user_migrate array\n  \
    attr XFRMA_ALG_AEAD 18 struct=xfrm_algo_aead\n  attr XFRMA_KMADDRESS 19 struct=xfrm_user_kmadd\
    ress\n  attr XFRMA_ALG_AUTH_TRUNC 20 struct=xfrm_algo_auth\n  attr XFRMA_MARK 21 struct=xfrm_m\
    ark\n  attr XFRMA_TFCPAD 22 u32\n  attr XFRMA_REPLAY_ESN_VAL 23 struct=xfrm_replay_state_es\
    n\n  attr XFRMA_SA_EXTRA_FLAGS 24 u32\n  attr XFRMA_PROTO 25 u8\n  attr XFRMA_ADDRESS_FILTER 2\
    6 struct=xfrm_address_filter\n  attr XFRMA_PAD 27 pad\n  attr XFRMA_OFFLOAD_DEV 28 struct=xfrm\
    _user_offload\n  attr XFRMA_SET_MARK 29 u32\n  attr XFRMA_SET_MARK_MASK 30 u32\n  attr XFRMA_I\
    F_ID 31 u32\n  attr XFRMA_MTIMER_THRESH 32 u32\n  attr XFRMA_SA_DIR 33 u8 enum=direction\n  at\
    tr XFRMA_NAT_KEEPALIVE_INTERVAL 34 u32\n  attr XFRMA_SA_PCPU 35 u32\n\nset sad\n  attr XFRMA_S\
    AD_CNT 1 u32\n  attr XFRMA_SAD_HINFO 2 struct=xfrmu_sadhinfo\n\nset spd\n  attr XFRMA_SPD_INF\
    O 1 struct=xfrmu_spdinfo\n  attr XFRMA_SPD_HINFO 2 struct=xfrmu_spdhinfo\n  attr XFRMA_SPD_IPV\
    4_HTHRESH 3 struct=xfrmu_spdhthresh\n  attr XFRMA_SPD_IPV6_HTHRESH 4 struct=xfrmu_spdhthresh\n";

/// The text of `tables/xfrm.table`.
pub(crate) fn text() -> &'static [u8]
    ensures { Begins result.now (heading_of table.Xfrm) }
{
    TEXT
}
