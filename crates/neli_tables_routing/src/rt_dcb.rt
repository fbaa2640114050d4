//! The text of `tables/rt_dcb.table`. Written by `tables/into-crates`.

ghost use Rattle.neli_tables_routing.specs.Tables.{Begins, heading_of};
ghost use Rattle.neli_tables_routing.specs.declared.table.RoutingTable.TheVariants as table;

/// The text.
static TEXT: &[u8] = b"\
    # Written by hand from the headers (linux/dcbnl.h).\n\nfamily rt-dcb 0\n\ngroup RTNLGRP_DCB 2\
    3\n\nmessage RTM_GETDCB 78 nest=dcb after=dcbmsg\nmessage RTM_SETDCB 79 nest=dcb after=dcbms\
    g\n\nenum command prefix=DCB_CMD_\n  value gstate 1\n  value sstate 2\n  value pgtx-gcfg 3\n  \
    value pgtx-scfg 4\n  value pgrx-gcfg 5\n  value pgrx-scfg 6\n  value pfc-gcfg 7\n  value pfc-s\
    cfg 8\n  value set-all 9\n  value gperm-hwaddr 10\n  value gcap 11\n  value gnumtcs 12\n  valu\
    e snumtcs 13\n  value pfc-gstate 14\n  value pfc-sstate 15\n  value bcn-gcfg 16\n  value bcn-s\
    cfg 17\n  value gapp 18\n  value sapp 19\n  value ieee-set 20\n  value ieee-get 21\n  value gd\
    cbx 22\n  value sdcbx 23\n  value gfeatcfg 24\n  value sfeatcfg 25\n  value cee-get 26\n  valu\
    e ieee-del 27\n\nflags dcbx prefix=DCB_CAP_DCBX_\n  value host 0x1\n  value lld-managed 0x\
    2\n  value ver-cee 0x4\n  value ver-ieee 0x8\n  value static 0x10\n\nstruct dcbmsg 4\n  field \
    dcb_family 0..1 u8\n  field cmd 1..2 u8 enum=command\n\nstruct ieee_ets 59\n  field willing 0.\
    .1 u8\n  field ets_cap 1..2 u8\n  field cbs 2..3 u8\n  field tc_tx_bw 3..11 u8 array\n  field \
    tc_rx_bw 11..19 u8 array\n  field tc_tsa 19..27 u8 array\n  field prio_tc 27..35 u8 array\n  f\
    ield tc_reco_bw 35..43 u8 array\n  field tc_reco_tsa 43..51 u8 array\n  field reco_prio_tc 51.\
    .59 u8 array\n\nstruct ieee_pfc 136\n  field pfc_cap 0..1 u8\n  field pfc_en 1..2 u8\n  field \
    mbc 2..3 u8\n  field delay 4..6 u16\n  field requests 8..72 u64 array\n  field indications 72.\
    .136 u64 array\n\nstruct ieee_maxrate 64\n  field tc_maxrate 0..64 u64 array\n\nstruct ieee_qc\
    n 360\n  field rpg_enable 0..8 u8 array\n  field rppp_max_rps 8..40 u32 array\n  field rpg_tim\
    e_reset 40..72 u32 array\n  field rpg_byte_reset 72..104 u32 array\n  field rpg_threshold 104.\
    .136 u32 array\n  field rpg_max_rate 136..168 u32 array\n  field rpg_ai_rate 168..200 u32 arra\
    y\n  field rpg_hai_rate 200..232 u32 array\n  field rpg_gd 232..264 u32 array\n  field rpg_min\
    _dec_fac 264..296 u32 array\n  field rpg_min_rate 296..328 u32 array\n  field cndd_state_machi\
    ne 328..360 u32 array\n\nstruct ieee_qcn_stats 96\n  field rppp_rp_centiseconds 0..64 u64 arra\
    y\n  field rppp_created_rps 64..96 u32 array\n\nstruct dcbnl_buffer 44\n  field prio2buffer 0.\
    .8 u8 array\n  field buffer_size 8..40 u32 array\n  field total_size 40..44 u32\n\nstruct cee_\
    pg 20\n  field willing 0..1 u8\n  field error 1..2 u8\n  field pg_en 2..3 u8\n  field tcs_supp\
    orted 3..4 u8\n  field pg_bw 4..12 u8 array\n  field prio_pg 12..20 u8 array\n\nstruct cee_pf\
    c 4\n  field willing 0..1 u8\n  field error 1..2 u8\n  field pfc_en 2..3 u8\n  field tcs_suppo\
    rted 3..4 u8\n\nstruct dcb_app 4\n  field selector 0..1 u8\n  field priority 1..2 u8\n  field \
    protocol 2..4 u16\n\nstruct dcb_peer_app_info 2\n  field willing 0..1 u8\n  field error 1..2 u\
    8\n\nset dcb\n  attr DCB_ATTR_IFNAME 1 text length=1..15\n  attr DCB_ATTR_STATE 2 u8\n  attr D\
    CB_ATTR_PFC_STATE 3 u8\n  attr DCB_ATTR_PFC_CFG 4 nest=pfc\n  attr DCB_ATTR_NUM_TC 5 u8\n  att\
    r DCB_ATTR_PG_CFG 6 nest=pg\n  attr DCB_ATTR_SET_ALL 7 u8\n  attr DCB_ATTR_PERM_HWADDR 8 hardw\
    are\n  attr DCB_ATTR_CAP 9 nest=capabilities\n  attr DCB_ATTR_NUMTCS 10 nest=classes\n  attr D\
    CB_ATTR_BCN 11 nest=bcn\n  attr DCB_ATTR_APP 12 nest=app\n  attr DCB_ATTR_IEEE 13 nest=iee\
    e\n  attr DCB_ATTR_DCBX 14 u8 flags=dcbx\n  attr DCB_ATTR_FEATCFG 15 nest=features\n  attr DCB\
    _ATTR_CEE 16 nest=cee\n\nset pfc\n  attr DCB_PFC_UP_ATTR_0 1 u8\n  attr DCB_PFC_UP_ATTR_1 2 u\
    8\n  attr DCB_PFC_UP_ATTR_2 3 u8\n  attr DCB_PFC_UP_ATTR_3 4 u8\n  attr DCB_PFC_UP_ATTR_4 5 u\
    8\n  attr DCB_PFC_UP_ATTR_5 6 u8\n  attr DCB_PFC_UP_ATTR_6 7 u8\n  attr DCB_PFC_UP_ATTR_7 8 u\
    8\n  attr DCB_PFC_UP_ATTR_ALL 9 flag\n\nset pg\n  attr DCB_PG_ATTR_TC_0 1 nest=pg-class\n  att\
    r DCB_PG_ATTR_TC_1 2 nest=pg-class\n  attr DCB_PG_ATTR_TC_2 3 nest=pg-class\n  attr DCB_PG_ATT\
    R_TC_3 4 nest=pg-class\n  attr DCB_PG_ATTR_TC_4 5 nest=pg-class\n  attr DCB_PG_ATTR_TC_5 6 nes\
    t=pg-class\n  attr DCB_PG_ATTR_TC_6 7 nest=pg-class\n  attr DCB_PG_ATTR_TC_7 8 nest=pg-clas\
    s\n  attr DCB_PG_ATTR_TC_ALL 10 nest=pg-class\n  attr DCB_PG_ATTR_BW_ID_0 11 u8\n  attr DCB_PG\
    _ATTR_BW_ID_1 12 u8\n  attr DCB_PG_ATTR_BW_ID_2 13 u8\n  attr DCB_PG_ATTR_BW_ID_3 14 u8\n  att\
    r DCB_PG_ATTR_BW_ID_4 15 u8\n  attr DCB_PG_ATTR_BW_ID_5 16 u8\n  attr DCB_PG_ATTR_BW_ID_6 17 u\
    8\n  attr DCB_PG_ATTR_BW_ID_7 18 u8\n  attr DCB_PG_ATTR_BW_ID_ALL 20 flag\n\nset pg-class\n  a\
    ttr DCB_TC_ATTR_PARAM_PGID 1 u8\n  attr DCB_TC_ATTR_PARAM_UP_MAPPING 2 u8\n  attr DCB_TC_ATTR_\
    PARAM_STRICT_PRIO 3 u8\n  attr DCB_TC_ATTR_PARAM_BW_PCT 4 u8\n  attr DCB_TC_ATTR_PARAM_ALL 5 f\
    lag\n\nset capabilities\n  attr DCB_CAP_ATTR_ALL 1 flag\n  attr DCB_CAP_ATTR_PG 2 u8\n  attr D\
    CB_CAP_ATTR_PFC 3 u8\n  attr DCB_CAP_ATTR_UP2TC 4 u8\n  attr DCB_CAP_ATTR_PG_TCS 5 u8\n  attr \
    DCB_CAP_ATTR_PFC_TCS 6 u8\n  attr DCB_CAP_ATTR_GSP 7 u8\n  attr DCB_CAP_ATTR_BCN 8 u8\n  attr \
    DCB_CAP_ATTR_DCBX 9 u8\n\nset classes\n  attr DCB_NUMTCS_ATTR_ALL 1 flag\n  attr DCB_NUMTCS_AT\
    TR_PG 2 u8\n  attr DCB_NUMTCS_ATTR_PFC 3 u8\n\nset bcn\n  attr DCB_BCN_ATTR_RP_0 1 u8\n  attr \
    DCB_BCN_ATTR_RP_1 2 u8\n  attr DCB_BCN_ATTR_RP_2 3 u8\n  attr DCB_BCN_ATTR_RP_3 4 u8\n  attr D\
    CB_BCN_ATTR_RP_4 5 u8\n  attr DCB_BCN_ATTR_RP_5 6 u8\n  attr DCB_BCN_ATTR_RP_6 7 u8\n  attr DC\
    B_BCN_ATTR_RP_7 8 u8\n  attr DCB_BCN_ATTR_RP_ALL 9 flag\n  attr DCB_BCN_ATTR_BCNA_0 10 u32\n  \
    attr DCB_BCN_ATTR_BCNA_1 11 u32\n  attr DCB_BCN_ATTR_ALPHA 12 u32\n  attr DCB_BCN_ATTR_BETA 1\
    3 u32\n  attr DCB_BCN_ATTR_GD 14 u32\n  attr DCB_BCN_ATTR_GI 15 u32\n  attr DCB_BCN_ATTR_TMAX \
    16 u32\n  attr DCB_BCN_ATTR_TD 17 u32\n  attr DCB_BCN_ATTR_RMIN 18 u32\n  attr DCB_BCN_ATTR_W \
    19 u32\n  attr DCB_BCN_ATTR_RD 20 u32\n  attr DCB_BCN_ATTR_RU 21 u32\n  attr DCB_BCN_ATTR_WRT\
    T 22 u32\n  attr DCB_BCN_ATTR_RI 23 u32\n  attr DCB_BCN_ATTR_C 24 u32\n  attr DCB_BCN_ATTR_AL\
    L 25 flag\n\nset app\n  attr DCB_APP_ATTR_IDTYPE 1 u8\n  attr DCB_APP_ATTR_ID 2 u16\n  attr DC\
    B_APP_ATTR_PRIORITY 3 u8\n\nset features\n  attr DCB_FEATCFG_ATTR_ALL 1 flag\n  attr DCB_FEATC\
    FG_ATTR_PG 2 u8\n  attr DCB_FEATCFG_ATTR_PFC 3 u8\n  attr DCB_FEATCFG_ATTR_APP 4 u8\n\nset iee\
    e\n  attr DCB_ATTR_IEEE_ETS 1 struct=ieee_ets\n  attr DCB_ATTR_IEEE_PFC 2 struct=ieee_pfc\n  a\
    ttr DCB_ATTR_IEEE_APP_TABLE 3 nest=ieee-apps\n  attr DCB_ATTR_IEEE_PEER_ETS 4 struct=ieee_et\
    s\n  attr DCB_ATTR_IEEE_PEER_PFC 5 struct=ieee_pfc\n  attr DCB_ATTR_IEEE_PEER_APP 6 nest=ieee-\
    peer-apps\n  attr DCB_ATTR_IEEE_MAXRATE 7 struct=ieee_maxrate\n  attr DCB_ATTR_IEEE_QCN 8 stru\
    ct=ieee_qcn\n  attr DCB_ATTR_IEEE_QCN_STATS 9 struct=ieee_qcn_stats\n  attr DCB_ATTR_DCB_BUFFE\
    R 10 struct=dcbnl_buffer\n  attr DCB_ATTR_DCB_APP_TRUST_TABLE 11 nest=ieee-trust\n  attr DCB_A\
    TTR_DCB_REWR_TABLE 12 nest=ieee-apps\n\nset ieee-apps\n  attr DCB_ATTR_IEEE_APP 1 struct=dcb_a\
    pp multi\n  attr DCB_ATTR_DCB_APP 2 struct=dcb_app multi\n\nset ieee-peer-apps\n  attr DCB_ATT\
    R_IEEE_APP_UNSPEC 0 struct=dcb_peer_app_info\n  attr DCB_ATTR_IEEE_APP 1 struct=dcb_app mult\
    i\n\nset ieee-trust\n  attr DCB_ATTR_IEEE_APP 1 u8 multi\n  attr DCB_ATTR_DCB_APP 2 u8 mult\
    i\n\nset cee\n  attr DCB_ATTR_CEE_PEER_PG 1 struct=cee_pg\n  attr DCB_ATTR_CEE_PEER_PFC 2 stru\
    ct=cee_pfc\n  attr DCB_ATTR_CEE_PEER_APP_TABLE 3 nest=cee-peer-apps\n  attr DCB_ATTR_CEE_TX_P\
    G 4 nest=pg\n  attr DCB_ATTR_CEE_RX_PG 5 nest=pg\n  attr DCB_ATTR_CEE_PFC 6 nest=pfc\n  attr D\
    CB_ATTR_CEE_APP_TABLE 7 nest=cee-apps\n  attr DCB_ATTR_CEE_FEAT 8 nest=features\n\nset cee-pee\
    r-apps\n  attr DCB_ATTR_CEE_PEER_APP_INFO 1 struct=dcb_peer_app_info\n  attr DCB_ATTR_CEE_PEER\
    _APP 2 struct=dcb_app multi\n\nset cee-apps\n  attr DCB_ATTR_APP 12 nest=app multi\n";

/// The text of `tables/rt_dcb.table`.
pub(crate) fn text() -> &'static [u8]
    ensures { Begins result.now (heading_of table.RtDcb) }
{
    TEXT
}
