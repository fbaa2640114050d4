//! The text of `tables/ethtool.table`. Written by `tables/into-crates`.

ghost use Rattle.neli_tables_generic.specs.Tables.{Begins, heading_of};
ghost use Rattle.neli_tables_generic.specs.declared.table.GenericTable.TheVariants as table;

/// The text.
static TEXT: &[u8] = b"\
    # Written by from-specs from the specification ethtool.yaml of Linux 6.12 and own/ethtool.tabl\
    e.\n\nfamily ethtool 16 version=1\n\nmessage ETHTOOL_MSG_STRSET_GET_REPLY 1 reply nest=strse\
    t\nmessage ETHTOOL_MSG_STRSET_GET 1 request nest=strset strict\nmessage ETHTOOL_MSG_LINKINFO_G\
    ET_REPLY 2 reply nest=linkinfo\nmessage ETHTOOL_MSG_LINKINFO_GET 2 request nest=linkinfo stric\
    t\nmessage ETHTOOL_MSG_LINKINFO_NTF 3 reply nest=linkinfo\nmessage ETHTOOL_MSG_LINKINFO_SET 3 \
    request nest=linkinfo strict\nmessage ETHTOOL_MSG_LINKMODES_GET_REPLY 4 reply nest=linkmodes\n\
    message ETHTOOL_MSG_LINKMODES_GET 4 request nest=linkmodes strict\nmessage ETHTOOL_MSG_LINKMOD\
    ES_NTF 5 reply nest=linkmodes\nmessage ETHTOOL_MSG_LINKMODES_SET 5 request nest=linkmodes stri\
    ct\nmessage ETHTOOL_MSG_LINKSTATE_GET_REPLY 6 reply nest=linkstate\nmessage ETHTOOL_MSG_LINKST\
    ATE_GET 6 request nest=linkstate strict\nmessage ETHTOOL_MSG_DEBUG_GET_REPLY 7 reply nest=debu\
    g\nmessage ETHTOOL_MSG_DEBUG_GET 7 request nest=debug strict\nmessage ETHTOOL_MSG_DEBUG_NTF 8 \
    reply nest=debug\nmessage ETHTOOL_MSG_DEBUG_SET 8 request nest=debug strict\nmessage ETHTOOL_M\
    SG_WOL_GET_REPLY 9 reply nest=wol\nmessage ETHTOOL_MSG_WOL_GET 9 request nest=wol strict\nmess\
    age ETHTOOL_MSG_WOL_NTF 10 reply nest=wol\nmessage ETHTOOL_MSG_WOL_SET 10 request nest=wol str\
    ict\nmessage ETHTOOL_MSG_FEATURES_GET_REPLY 11 reply nest=features\nmessage ETHTOOL_MSG_FEATUR\
    ES_GET 11 request nest=features strict\nmessage ETHTOOL_MSG_FEATURES_SET_REPLY 12 reply nest=f\
    eatures\nmessage ETHTOOL_MSG_FEATURES_SET 12 request nest=features strict\nmessage ETHTOOL_MSG\
    _FEATURES_NTF 13 reply nest=features\nmessage ETHTOOL_MSG_PRIVFLAGS_GET 13 request nest=privfl\
    ags strict\nmessage ETHTOOL_MSG_PRIVFLAGS_GET_REPLY 14 reply nest=privflags\nmessage ETHTOOL_M\
    SG_PRIVFLAGS_SET 14 request nest=privflags strict\nmessage ETHTOOL_MSG_PRIVFLAGS_NTF 15 reply \
    nest=privflags\nmessage ETHTOOL_MSG_RINGS_GET 15 request nest=rings strict\nmessage ETHTOOL_MS\
    G_RINGS_GET_REPLY 16 reply nest=rings\nmessage ETHTOOL_MSG_RINGS_SET 16 request nest=rings str\
    ict\nmessage ETHTOOL_MSG_RINGS_NTF 17 reply nest=rings\nmessage ETHTOOL_MSG_CHANNELS_GET 17 re\
    quest nest=channels strict\nmessage ETHTOOL_MSG_CHANNELS_GET_REPLY 18 reply nest=channels\nmes\
    sage ETHTOOL_MSG_CHANNELS_SET 18 request nest=channels strict\nmessage ETHTOOL_MSG_CHANNELS_NT\
    F 19 reply nest=channels\nmessage ETHTOOL_MSG_COALESCE_GET 19 request nest=coalesce strict\nme\
    ssage ETHTOOL_MSG_COALESCE_GET_REPLY 20 reply nest=coalesce\nmessage ETHTOOL_MSG_COALESCE_SET \
    20 request nest=coalesce strict\nmessage ETHTOOL_MSG_COALESCE_NTF 21 reply nest=coalesce\nmess\
    age ETHTOOL_MSG_PAUSE_GET 21 request nest=pause strict\nmessage ETHTOOL_MSG_PAUSE_GET_REPLY 2\
    2 reply nest=pause\nmessage ETHTOOL_MSG_PAUSE_SET 22 request nest=pause strict\nmessage ETHTOO\
    L_MSG_PAUSE_NTF 23 reply nest=pause\nmessage ETHTOOL_MSG_EEE_GET 23 request nest=eee strict\nm\
    essage ETHTOOL_MSG_EEE_GET_REPLY 24 reply nest=eee\nmessage ETHTOOL_MSG_EEE_SET 24 request nes\
    t=eee strict\nmessage ETHTOOL_MSG_EEE_NTF 25 reply nest=eee\nmessage ETHTOOL_MSG_TSINFO_GET 2\
    5 request nest=tsinfo strict\nmessage ETHTOOL_MSG_TSINFO_GET_REPLY 26 reply nest=tsinfo\nmessa\
    ge ETHTOOL_MSG_CABLE_TEST_ACT 26 request nest=cable-test strict\nmessage ETHTOOL_MSG_CABLE_TES\
    T_NTF 27 reply nest=cable-test-ntf\nmessage ETHTOOL_MSG_CABLE_TEST_TDR_ACT 27 request nest=cab\
    le-test-tdr strict\nmessage ETHTOOL_MSG_CABLE_TEST_TDR_NTF 28 reply nest=cable-test-tdr-ntf\nm\
    essage ETHTOOL_MSG_TUNNEL_INFO_GET 28 request nest=tunnel-info strict\nmessage ETHTOOL_MSG_TUN\
    NEL_INFO_GET_REPLY 29 reply nest=tunnel-info\nmessage ETHTOOL_MSG_FEC_GET 29 request nest=fec \
    strict\nmessage ETHTOOL_MSG_FEC_GET_REPLY 30 reply nest=fec\nmessage ETHTOOL_MSG_FEC_SET 30 re\
    quest nest=fec strict\nmessage ETHTOOL_MSG_FEC_NTF 31 reply nest=fec\nmessage ETHTOOL_MSG_MODU\
    LE_EEPROM_GET 31 request nest=module-eeprom strict\nmessage ETHTOOL_MSG_MODULE_EEPROM_GET_REPL\
    Y 32 reply nest=module-eeprom\nmessage ETHTOOL_MSG_STATS_GET 32 request nest=stats strict\nmes\
    sage ETHTOOL_MSG_STATS_GET_REPLY 33 reply nest=stats\nmessage ETHTOOL_MSG_PHC_VCLOCKS_GET 33 r\
    equest nest=phc-vclocks strict\nmessage ETHTOOL_MSG_PHC_VCLOCKS_GET_REPLY 34 reply nest=phc-vc\
    locks\nmessage ETHTOOL_MSG_MODULE_GET 34 request nest=module strict\nmessage ETHTOOL_MSG_MODUL\
    E_GET_REPLY 35 reply nest=module\nmessage ETHTOOL_MSG_MODULE_SET 35 request nest=module stric\
    t\nmessage ETHTOOL_MSG_MODULE_NTF 36 reply nest=module\nmessage ETHTOOL_MSG_PSE_GET 36 reques\
    t nest=pse strict\nmessage ETHTOOL_MSG_PSE_GET_REPLY 37 reply nest=pse\nmessage ETHTOOL_MSG_PS\
    E_SET 37 request nest=pse strict\nmessage ETHTOOL_MSG_RSS_GET_REPLY 38 reply nest=rss\nmessag\
    e ETHTOOL_MSG_RSS_GET 38 request nest=rss strict\nmessage ETHTOOL_MSG_PLCA_GET_CFG_REPLY 39 re\
    ply nest=plca\nmessage ETHTOOL_MSG_PLCA_GET_CFG 39 request nest=plca strict\nmessage ETHTOOL_M\
    SG_PLCA_GET_STATUS_REPLY 40 reply nest=plca\nmessage ETHTOOL_MSG_PLCA_SET_CFG 40 request nest=\
    plca strict\nmessage ETHTOOL_MSG_PLCA_NTF 41 reply nest=plca\nmessage ETHTOOL_MSG_PLCA_GET_STA\
    TUS 41 request nest=plca strict\nmessage ETHTOOL_MSG_MM_GET_REPLY 42 reply nest=mm\nmessage ET\
    HTOOL_MSG_MM_GET 42 request nest=mm strict\nmessage ETHTOOL_MSG_MM_NTF 43 reply nest=mm\nmessa\
    ge ETHTOOL_MSG_MM_SET 43 request nest=mm strict\nmessage ETHTOOL_MSG_MODULE_FW_FLASH_NTF 44 re\
    ply nest=module-fw-flash\nmessage ETHTOOL_MSG_MODULE_FW_FLASH_ACT 44 request nest=module-fw-fl\
    ash strict\nmessage ETHTOOL_MSG_PHY_GET_REPLY 45 reply nest=phy\nmessage ETHTOOL_MSG_PHY_GET 4\
    5 request nest=phy strict\n\nenum udp-tunnel-type prefix=ETHTOOL_UDP_TUNNEL_TYPE_\n  value vxl\
    an 0\n  value geneve 1\n  value vxlan-gpe 2\n\nenum stringset\n\nenum module-fw-flash-status p\
    refix=ETHTOOL_MODULE_FW_FLASH_STATUS_\n  value started 1\n  value in_progress 2\n  value compl\
    eted 3\n  value error 4\n\nenum c33-pse-ext-state prefix=ETHTOOL_C33_PSE_EXT_STATE_\n  value n\
    one 0\n  value error-condition 1\n  value mr-mps-valid 2\n  value mr-pse-enable 3\n  value opt\
    ion-detect-ted 4\n  value option-vport-lim 5\n  value ovld-detected 6\n  value power-not-avail\
    able 8\n  value short-detected 9\n  value pd-dll-power-type 7\n\nenum phy-upstream-type prefix\
    =PHY_UPSTREAM_\n  value mac 0\n  value phy 1\n\nenum stats-group prefix=ETHTOOL_STATS_\n  valu\
    e eth-phy 0\n  value eth-mac 1\n  value eth-ctrl 2\n  value rmon 3\n\nflags header-flags prefi\
    x=ETHTOOL_FLAG_\n  value compact-bitsets 0x1\n  value omit-reply 0x2\n  value stats 0x4\n\nse\
    t header\n  attr ETHTOOL_A_HEADER_DEV_INDEX 1 u32\n  attr ETHTOOL_A_HEADER_DEV_NAME 2 text\n  \
    attr ETHTOOL_A_HEADER_FLAGS 3 u32 flags=header-flags\n  attr ETHTOOL_A_HEADER_PHY_INDEX 4 u3\
    2\n\nset bitset-bit\n  attr ETHTOOL_A_BITSET_BIT_INDEX 1 u32\n  attr ETHTOOL_A_BITSET_BIT_NAM\
    E 2 text\n  attr ETHTOOL_A_BITSET_BIT_VALUE 3 flag\n\nset bitset-bits\n  attr ETHTOOL_A_BITSET\
    _BITS_BIT 1 nest=bitset-bit multi\n\nset bitset\n  attr ETHTOOL_A_BITSET_NOMASK 1 flag\n  att\
    r ETHTOOL_A_BITSET_SIZE 2 u32\n  attr ETHTOOL_A_BITSET_BITS 3 nest=bitset-bits\n  attr ETHTOOL\
    _A_BITSET_VALUE 4 u32 array hex\n  attr ETHTOOL_A_BITSET_MASK 5 u32 array hex\n\nset strin\
    g\n  attr ETHTOOL_A_STRING_INDEX 1 u32\n  attr ETHTOOL_A_STRING_VALUE 2 text\n\nset string\
    s\n  attr ETHTOOL_A_STRINGS_STRING 1 nest=string multi\n\nset stringset\n  attr ETHTOOL_A_STRI\
    NGSET_ID 1 u32\n  attr ETHTOOL_A_STRINGSET_COUNT 2 u32\n  attr ETHTOOL_A_STRINGSET_STRINGS 3 n\
    est=strings multi\n\nset stringsets\n  attr ETHTOOL_A_STRINGSETS_STRINGSET 1 nest=stringset mu\
    lti\n\nset strset\n  attr ETHTOOL_A_STRSET_HEADER 1 nest=header\n  attr ETHTOOL_A_STRSET_STRIN\
    GSETS 2 nest=stringsets\n  attr ETHTOOL_A_STRSET_COUNTS_ONLY 3 flag\n\nset privflags\n  attr E\
    THTOOL_A_PRIVFLAGS_HEADER 1 nest=header\n  attr ETHTOOL_A_PRIVFLAGS_FLAGS 2 nest=bitset\n\nse\
    t rings\n  attr ETHTOOL_A_RINGS_HEADER 1 nest=header\n  attr ETHTOOL_A_RINGS_RX_MAX 2 u32\n  a\
    ttr ETHTOOL_A_RINGS_RX_MINI_MAX 3 u32\n  attr ETHTOOL_A_RINGS_RX_JUMBO_MAX 4 u32\n  attr ETHTO\
    OL_A_RINGS_TX_MAX 5 u32\n  attr ETHTOOL_A_RINGS_RX 6 u32\n  attr ETHTOOL_A_RINGS_RX_MINI 7 u3\
    2\n  attr ETHTOOL_A_RINGS_RX_JUMBO 8 u32\n  attr ETHTOOL_A_RINGS_TX 9 u32\n  attr ETHTOOL_A_RI\
    NGS_RX_BUF_LEN 10 u32\n  attr ETHTOOL_A_RINGS_TCP_DATA_SPLIT 11 u8\n  attr ETHTOOL_A_RINGS_CQE\
    _SIZE 12 u32\n  attr ETHTOOL_A_RINGS_TX_PUSH 13 u8\n  attr ETHTOOL_A_RINGS_RX_PUSH 14 u8\n  at\
    tr ETHTOOL_A_RINGS_TX_PUSH_BUF_LEN 15 u32\n  attr ETHTOOL_A_RINGS_TX_PUSH_BUF_LEN_MAX 16 u3\
    2\n\nset mm-stat\n  attr ETHTOOL_A_MM_STAT_PAD 1 pad\n  attr ETHTOOL_A_MM_STAT_REASSEMBLY_ERRO\
    RS 2 u64\n  attr ETHTOOL_A_MM_STAT_SMD_ERRORS 3 u64\n  attr ETHTOOL_A_MM_STAT_REASSEMBLY_OK 4 \
    u64\n  attr ETHTOOL_A_MM_STAT_RX_FRAG_COUNT 5 u64\n  attr ETHTOOL_A_MM_STAT_TX_FRAG_COUNT 6 u6\
    4\n  attr ETHTOOL_A_MM_STAT_HOLD_COUNT 7 u64\n\nset mm\n  attr ETHTOOL_A_MM_HEADER 1 nest=head\
    er\n  attr ETHTOOL_A_MM_PMAC_ENABLED 2 u8\n  attr ETHTOOL_A_MM_TX_ENABLED 3 u8\n  attr ETHTOOL\
    _A_MM_TX_ACTIVE 4 u8\n  attr ETHTOOL_A_MM_TX_MIN_FRAG_SIZE 5 u32\n  attr ETHTOOL_A_MM_RX_MIN_F\
    RAG_SIZE 6 u32\n  attr ETHTOOL_A_MM_VERIFY_ENABLED 7 u8\n  attr ETHTOOL_A_MM_VERIFY_STATUS 8 u\
    8\n  attr ETHTOOL_A_MM_VERIFY_TIME 9 u32\n  attr ETHTOOL_A_MM_MAX_VERIFY_TIME 10 u32\n  attr E\
    THTOOL_A_MM_STATS 11 nest=mm-stat\n\nset linkinfo\n  attr ETHTOOL_A_LINKINFO_HEADER 1 nest=hea\
    der\n  attr ETHTOOL_A_LINKINFO_PORT 2 u8\n  attr ETHTOOL_A_LINKINFO_PHYADDR 3 u8\n  attr ETHTO\
    OL_A_LINKINFO_TP_MDIX 4 u8\n  attr ETHTOOL_A_LINKINFO_TP_MDIX_CTRL 5 u8\n  attr ETHTOOL_A_LINK\
    INFO_TRANSCEIVER 6 u8\n\nset linkmodes\n  attr ETHTOOL_A_LINKMODES_HEADER 1 nest=header\n  att\
    r ETHTOOL_A_LINKMODES_AUTONEG 2 u8\n  attr ETHTOOL_A_LINKMODES_OURS 3 nest=bitset\n  attr ETHT\
    OOL_A_LINKMODES_PEER 4 nest=bitset\n  attr ETHTOOL_A_LINKMODES_SPEED 5 u32\n  attr ETHTOOL_A_L\
    INKMODES_DUPLEX 6 u8\n  attr ETHTOOL_A_LINKMODES_MASTER_SLAVE_CFG 7 u8\n  attr ETHTOOL_A_LINKM\
    ODES_MASTER_SLAVE_STATE 8 u8\n  attr ETHTOOL_A_LINKMODES_LANES 9 u32\n  attr ETHTOOL_A_LINKMOD\
    ES_RATE_MATCHING 10 u8\n\nset linkstate\n  attr ETHTOOL_A_LINKSTATE_HEADER 1 nest=header\n  at\
    tr ETHTOOL_A_LINKSTATE_LINK 2 u8\n  attr ETHTOOL_A_LINKSTATE_SQI 3 u32\n  attr ETHTOOL_A_LINKS\
    TATE_SQI_MAX 4 u32\n  attr ETHTOOL_A_LINKSTATE_EXT_STATE 5 u8\n  attr ETHTOOL_A_LINKSTATE_EXT_\
    SUBSTATE 6 u8\n  attr ETHTOOL_A_LINKSTATE_EXT_DOWN_CNT 7 u32\n\nset debug\n  attr ETHTOOL_A_DE\
    BUG_HEADER 1 nest=header\n  attr ETHTOOL_A_DEBUG_MSGMASK 2 nest=bitset\n\nset wol\n  attr ETHT\
    OOL_A_WOL_HEADER 1 nest=header\n  attr ETHTOOL_A_WOL_MODES 2 nest=bitset\n  attr ETHTOOL_A_WOL\
    _SOPASS 3 bytes\n\nset features\n  attr ETHTOOL_A_FEATURES_HEADER 1 nest=header\n  attr ETHTOO\
    L_A_FEATURES_HW 2 nest=bitset\n  attr ETHTOOL_A_FEATURES_WANTED 3 nest=bitset\n  attr ETHTOOL_\
    A_FEATURES_ACTIVE 4 nest=bitset\n  attr ETHTOOL_A_FEATURES_NOCHANGE 5 nest=bitset\n\nset chann\
    els\n  attr ETHTOOL_A_CHANNELS_HEADER 1 nest=header\n  attr ETHTOOL_A_CHANNELS_RX_MAX 2 u3\
    2\n  attr ETHTOOL_A_CHANNELS_TX_MAX 3 u32\n  attr ETHTOOL_A_CHANNELS_OTHER_MAX 4 u32\n  attr E\
    THTOOL_A_CHANNELS_COMBINED_MAX 5 u32\n  attr ETHTOOL_A_CHANNELS_RX_COUNT 6 u32\n  attr ETHTOOL\
    _A_CHANNELS_TX_COUNT 7 u32\n  attr ETHTOOL_A_CHANNELS_OTHER_COUNT 8 u32\n  attr ETHTOOL_A_CHAN\
    NELS_COMBINED_COUNT 9 u32\n\nset irq-moderation\n  attr ETHTOOL_A_IRQ_MODERATION_USEC 1 u3\
    2\n  attr ETHTOOL_A_IRQ_MODERATION_PKTS 2 u32\n  attr ETHTOOL_A_IRQ_MODERATION_COMPS 3 u32\n\n\
    set profile\n  attr ETHTOOL_A_PROFILE_IRQ_MODERATION 1 nest=irq-moderation multi\n\nset coales\
    ce\n  attr ETHTOOL_A_COALESCE_HEADER 1 nest=header\n  attr ETHTOOL_A_COALESCE_RX_USECS 2 u3\
    2\n  attr ETHTOOL_A_COALESCE_RX_MAX_FRAMES 3 u32\n  attr ETHTOOL_A_COALESCE_RX_USECS_IRQ 4 u3\
    2\n  attr ETHTOOL_A_COALESCE_RX_MAX_FRAMES_IRQ 5 u32\n  attr ETHTOOL_A_COALESCE_TX_USECS 6 u3\
    2\n  attr ETHTOOL_A_COALESCE_TX_MAX_FRAMES 7 u32\n  attr ETHTOOL_A_COALESCE_TX_USECS_IRQ 8 u3\
    2\n  attr ETHTOOL_A_COALESCE_TX_MAX_FRAMES_IRQ 9 u32\n  attr ETHTOOL_A_COALESCE_STATS_BLOCK_US\
    ECS 10 u32\n  attr ETHTOOL_A_COALESCE_USE_ADAPTIVE_RX 11 u8\n  attr ETHTOOL_A_COALESCE_USE_ADA\
    PTIVE_TX 12 u8\n  attr ETHTOOL_A_COALESCE_PKT_RATE_LOW 13 u32\n  attr ETHTOOL_A_COALESCE_RX_US\
    ECS_LOW 14 u32\n  attr ETHTOOL_A_COALESCE_RX_MAX_FRAMES_LOW 15 u32\n  attr ETHTOOL_A_COALESCE_\
    TX_USECS_LOW 16 u32\n  attr ETHTOOL_A_COALESCE_TX_MAX_FRAMES_LOW 17 u32\n  attr ETHTOOL_A_COAL\
    ESCE_PKT_RATE_HIGH 18 u32\n  attr ETHTOOL_A_COALESCE_RX_USECS_HIGH 19 u32\n  attr ETHTOOL_A_CO\
    ALESCE_RX_MAX_FRAMES_HIGH 20 u32\n  attr ETHTOOL_A_COALESCE_TX_USECS_HIGH 21 u32\n  attr ETHTO\
    OL_A_COALESCE_TX_MAX_FRAMES_HIGH 22 u32\n  attr ETHTOOL_A_COALESCE_RATE_SAMPLE_INTERVAL 23 u3\
    2\n  attr ETHTOOL_A_COALESCE_USE_CQE_MODE_TX 24 u8\n  attr ETHTOOL_A_COALESCE_USE_CQE_MODE_RX \
    25 u8\n  attr ETHTOOL_A_COALESCE_TX_AGGR_MAX_BYTES 26 u32\n  attr ETHTOOL_A_COALESCE_TX_AGGR_M\
    AX_FRAMES 27 u32\n  attr ETHTOOL_A_COALESCE_TX_AGGR_TIME_USECS 28 u32\n  attr ETHTOOL_A_COALES\
    CE_RX_PROFILE 29 nest=profile\n  attr ETHTOOL_A_COALESCE_TX_PROFILE 30 nest=profile\n\nset pau\
    se-stat\n  attr ETHTOOL_A_PAUSE_STAT_PAD 1 pad\n  attr ETHTOOL_A_PAUSE_STAT_TX_FRAMES 2 u6\
    4\n  attr ETHTOOL_A_PAUSE_STAT_RX_FRAMES 3 u64\n\nset pause\n  attr ETHTOOL_A_PAUSE_HEADER 1 n\
    est=header\n  attr ETHTOOL_A_PAUSE_AUTONEG 2 u8\n  attr ETHTOOL_A_PAUSE_RX 3 u8\n  attr ETHTOO\
    L_A_PAUSE_TX 4 u8\n  attr ETHTOOL_A_PAUSE_STATS 5 nest=pause-stat\n  attr ETHTOOL_A_PAUSE_STAT\
    S_SRC 6 u32\n\nset eee\n  attr ETHTOOL_A_EEE_HEADER 1 nest=header\n  attr ETHTOOL_A_EEE_MODES_\
    OURS 2 nest=bitset\n  attr ETHTOOL_A_EEE_MODES_PEER 3 nest=bitset\n  attr ETHTOOL_A_EEE_ACTIV\
    E 4 u8\n  attr ETHTOOL_A_EEE_ENABLED 5 u8\n  attr ETHTOOL_A_EEE_TX_LPI_ENABLED 6 u8\n  attr ET\
    HTOOL_A_EEE_TX_LPI_TIMER 7 u32\n\nset ts-stat\n  attr ETHTOOL_A_TS_STAT_TX_PKTS 1 uint\n  att\
    r ETHTOOL_A_TS_STAT_TX_LOST 2 uint\n  attr ETHTOOL_A_TS_STAT_TX_ERR 3 uint\n\nset tsinfo\n  at\
    tr ETHTOOL_A_TSINFO_HEADER 1 nest=header\n  attr ETHTOOL_A_TSINFO_TIMESTAMPING 2 nest=bitse\
    t\n  attr ETHTOOL_A_TSINFO_TX_TYPES 3 nest=bitset\n  attr ETHTOOL_A_TSINFO_RX_FILTERS 4 nest=b\
    itset\n  attr ETHTOOL_A_TSINFO_PHC_INDEX 5 u32\n  attr ETHTOOL_A_TSINFO_STATS 6 nest=ts-sta\
    t\n\nset cable-result\n  attr ETHTOOL_A_CABLE_RESULT_PAIR 1 u8\n  attr ETHTOOL_A_CABLE_RESULT_\
    CODE 2 u8\n  attr ETHTOOL_A_CABLE_RESULT_SRC 3 u32\n\nset cable-fault-length\n  attr ETHTOOL_A\
    _CABLE_FAULT_LENGTH_PAIR 1 u8\n  attr ETHTOOL_A_CABLE_FAULT_LENGTH_CM 2 u32\n  attr ETHTOOL_A_\
    CABLE_FAULT_LENGTH_SRC 3 u32\n\nset cable-nest\n  attr ETHTOOL_A_CABLE_NEST_RESULT 1 nest=cabl\
    e-result\n  attr ETHTOOL_A_CABLE_NEST_FAULT_LENGTH 2 nest=cable-fault-length\n\nset cable-tes\
    t\n  attr ETHTOOL_A_CABLE_TEST_HEADER 1 nest=header\n\nset cable-test-ntf\n  attr ETHTOOL_A_CA\
    BLE_TEST_NTF_HEADER 1 nest=header\n  attr ETHTOOL_A_CABLE_TEST_NTF_STATUS 2 u8\n  attr ETHTOOL\
    _A_CABLE_TEST_NTF_NEST 3 nest=cable-nest\n\nset cable-test-tdr-cfg\n  attr ETHTOOL_A_CABLE_TES\
    T_TDR_CFG_FIRST 1 u32\n  attr ETHTOOL_A_CABLE_TEST_TDR_CFG_LAST 2 u32\n  attr ETHTOOL_A_CABLE_\
    TEST_TDR_CFG_STEP 3 u32\n  attr ETHTOOL_A_CABLE_TEST_TDR_CFG_PAIR 4 u8\n\nset cable-test-tdr-n\
    tf\n  attr ETHTOOL_A_CABLE_TEST_TDR_NTF_HEADER 1 nest=header\n  attr ETHTOOL_A_CABLE_TEST_TDR_\
    NTF_STATUS 2 u8\n  attr ETHTOOL_A_CABLE_TEST_TDR_NTF_NEST 3 nest=cable-tdr-results\n\nset cabl\
    e-test-tdr\n  attr ETHTOOL_A_CABLE_TEST_TDR_HEADER 1 nest=header\n  attr ETHTOOL_A_CABLE_TEST_\
    TDR_CFG 2 nest=cable-test-tdr-cfg\n\nset tunnel-udp-entry\n  attr ETHTOOL_A_TUNNEL_UDP_ENTRY_P\
    ORT 1 be16\n  attr ETHTOOL_A_TUNNEL_UDP_ENTRY_TYPE 2 u32 enum=udp-tunnel-type\n\nset tunnel-ud\
    p-table\n  attr ETHTOOL_A_TUNNEL_UDP_TABLE_SIZE 1 u32\n  attr ETHTOOL_A_TUNNEL_UDP_TABLE_TYPE\
    S 2 nest=bitset\n  attr ETHTOOL_A_TUNNEL_UDP_TABLE_ENTRY 3 nest=tunnel-udp-entry multi\n\nset \
    tunnel-udp\n  attr ETHTOOL_A_TUNNEL_UDP_TABLE 1 nest=tunnel-udp-table\n\nset tunnel-info\n  at\
    tr ETHTOOL_A_TUNNEL_INFO_HEADER 1 nest=header\n  attr ETHTOOL_A_TUNNEL_INFO_UDP_PORTS 2 nest=t\
    unnel-udp\n\nset fec-stat\n  attr ETHTOOL_A_FEC_STAT_PAD 1 pad\n  attr ETHTOOL_A_FEC_STAT_CORR\
    ECTED 2 u64 array\n  attr ETHTOOL_A_FEC_STAT_UNCORR 3 u64 array\n  attr ETHTOOL_A_FEC_STAT_COR\
    R_BITS 4 u64 array\n\nset fec\n  attr ETHTOOL_A_FEC_HEADER 1 nest=header\n  attr ETHTOOL_A_FEC\
    _MODES 2 nest=bitset\n  attr ETHTOOL_A_FEC_AUTO 3 u8\n  attr ETHTOOL_A_FEC_ACTIVE 4 u32\n  att\
    r ETHTOOL_A_FEC_STATS 5 nest=fec-stat\n\nset module-eeprom\n  attr ETHTOOL_A_MODULE_EEPROM_HEA\
    DER 1 nest=header\n  attr ETHTOOL_A_MODULE_EEPROM_OFFSET 2 u32\n  attr ETHTOOL_A_MODULE_EEPROM\
    _LENGTH 3 u32\n  attr ETHTOOL_A_MODULE_EEPROM_PAGE 4 u8\n  attr ETHTOOL_A_MODULE_EEPROM_BANK \
    5 u8\n  attr ETHTOOL_A_MODULE_EEPROM_I2C_ADDRESS 6 u8\n  attr ETHTOOL_A_MODULE_EEPROM_DATA 7 b\
    ytes\n\nset stats-grp\n  attr ETHTOOL_A_STATS_GRP_PAD 1 pad\n  attr ETHTOOL_A_STATS_GRP_ID 2 u\
    32 enum=stats-group\n  attr ETHTOOL_A_STATS_GRP_SS_ID 3 u32\n  attr ETHTOOL_A_STATS_GRP_STAT \
    4 choice=statistic by=ETHTOOL_A_STATS_GRP_ID multi\n  attr ETHTOOL_A_STATS_GRP_HIST_RX 5 nest=\
    stats-grp multi\n  attr ETHTOOL_A_STATS_GRP_HIST_TX 6 nest=stats-grp multi\n  attr ETHTOOL_A_S\
    TATS_GRP_HIST_BKT_LOW 7 u32\n  attr ETHTOOL_A_STATS_GRP_HIST_BKT_HI 8 u32\n  attr ETHTOOL_A_ST\
    ATS_GRP_HIST_VAL 9 u64\n\nset stats\n  attr ETHTOOL_A_STATS_PAD 1 pad\n  attr ETHTOOL_A_STATS_\
    HEADER 2 nest=header\n  attr ETHTOOL_A_STATS_GROUPS 3 nest=bitset\n  attr ETHTOOL_A_STATS_GRP \
    4 nest=stats-grp\n  attr ETHTOOL_A_STATS_SRC 5 u32\n\nset phc-vclocks\n  attr ETHTOOL_A_PHC_VC\
    LOCKS_HEADER 1 nest=header\n  attr ETHTOOL_A_PHC_VCLOCKS_NUM 2 u32\n  attr ETHTOOL_A_PHC_VCLOC\
    KS_INDEX 3 s32 array\n\nset module\n  attr ETHTOOL_A_MODULE_HEADER 1 nest=header\n  attr ETHTO\
    OL_A_MODULE_POWER_MODE_POLICY 2 u8\n  attr ETHTOOL_A_MODULE_POWER_MODE 3 u8\n\nset c33-pse-pw-\
    limit\n  attr ETHTOOL_A_C33_PSE_PW_LIMIT_MIN 1 u32\n  attr ETHTOOL_A_C33_PSE_PW_LIMIT_MAX 2 u3\
    2\n\nset pse\n  attr ETHTOOL_A_PSE_HEADER 1 nest=header\n  attr ETHTOOL_A_PODL_PSE_ADMIN_STAT\
    E 2 u32\n  attr ETHTOOL_A_PODL_PSE_ADMIN_CONTROL 3 u32\n  attr ETHTOOL_A_PODL_PSE_PW_D_STATUS \
    4 u32\n  attr ETHTOOL_A_C33_PSE_ADMIN_STATE 5 u32\n  attr ETHTOOL_A_C33_PSE_ADMIN_CONTROL 6 u3\
    2\n  attr ETHTOOL_A_C33_PSE_PW_D_STATUS 7 u32\n  attr ETHTOOL_A_C33_PSE_PW_CLASS 8 u32\n  att\
    r ETHTOOL_A_C33_PSE_ACTUAL_PW 9 u32\n  attr ETHTOOL_A_C33_PSE_EXT_STATE 10 u32 enum=c33-pse-ex\
    t-state\n  attr ETHTOOL_A_C33_PSE_EXT_SUBSTATE 11 u32\n  attr ETHTOOL_A_C33_PSE_AVAIL_PW_LIMI\
    T 12 u32\n  attr ETHTOOL_A_C33_PSE_PW_LIMIT_RANGES 13 nest=c33-pse-pw-limit multi\n\nset rs\
    s\n  attr ETHTOOL_A_RSS_HEADER 1 nest=header\n  attr ETHTOOL_A_RSS_CONTEXT 2 u32\n  attr ETHTO\
    OL_A_RSS_HFUNC 3 u32\n  attr ETHTOOL_A_RSS_INDIR 4 u32 array\n  attr ETHTOOL_A_RSS_HKEY 5 byte\
    s\n  attr ETHTOOL_A_RSS_INPUT_XFRM 6 u32\n  attr ETHTOOL_A_RSS_START_CONTEXT 7 u32\n\nset plc\
    a\n  attr ETHTOOL_A_PLCA_HEADER 1 nest=header\n  attr ETHTOOL_A_PLCA_VERSION 2 u16\n  attr ETH\
    TOOL_A_PLCA_ENABLED 3 u8\n  attr ETHTOOL_A_PLCA_STATUS 4 u8\n  attr ETHTOOL_A_PLCA_NODE_CNT 5 \
    u32\n  attr ETHTOOL_A_PLCA_NODE_ID 6 u32\n  attr ETHTOOL_A_PLCA_TO_TMR 7 u32\n  attr ETHTOOL_A\
    _PLCA_BURST_CNT 8 u32\n  attr ETHTOOL_A_PLCA_BURST_TMR 9 u32\n\nset module-fw-flash\n  attr ET\
    HTOOL_A_MODULE_FW_FLASH_HEADER 1 nest=header\n  attr ETHTOOL_A_MODULE_FW_FLASH_FILE_NAME 2 tex\
    t\n  attr ETHTOOL_A_MODULE_FW_FLASH_PASSWORD 3 u32\n  attr ETHTOOL_A_MODULE_FW_FLASH_STATUS 4 \
    u32 enum=module-fw-flash-status\n  attr ETHTOOL_A_MODULE_FW_FLASH_STATUS_MSG 5 text\n  attr ET\
    HTOOL_A_MODULE_FW_FLASH_DONE 6 uint\n  attr ETHTOOL_A_MODULE_FW_FLASH_TOTAL 7 uint\n\nset ph\
    y\n  attr ETHTOOL_A_PHY_HEADER 1 nest=header\n  attr ETHTOOL_A_PHY_INDEX 2 u32\n  attr ETHTOOL\
    _A_PHY_DRVNAME 3 text\n  attr ETHTOOL_A_PHY_NAME 4 text\n  attr ETHTOOL_A_PHY_UPSTREAM_TYPE 5 \
    u32 enum=phy-upstream-type\n  attr ETHTOOL_A_PHY_UPSTREAM_INDEX 6 u32\n  attr ETHTOOL_A_PHY_UP\
    STREAM_SFP_NAME 7 text\n  attr ETHTOOL_A_PHY_DOWNSTREAM_SFP_NAME 8 text\n\nset eth-phy-statist\
    ic\n  attr ETHTOOL_A_STATS_ETH_PHY_5_SYM_ERR 0 u64\n\nset eth-mac-statistic\n  attr ETHTOOL_A_\
    STATS_ETH_MAC_2_TX_PKT 0 u64\n  attr ETHTOOL_A_STATS_ETH_MAC_3_SINGLE_COL 1 u64\n  attr ETHTOO\
    L_A_STATS_ETH_MAC_4_MULTI_COL 2 u64\n  attr ETHTOOL_A_STATS_ETH_MAC_5_RX_PKT 3 u64\n  attr ETH\
    TOOL_A_STATS_ETH_MAC_6_FCS_ERR 4 u64\n  attr ETHTOOL_A_STATS_ETH_MAC_7_ALIGN_ERR 5 u64\n  att\
    r ETHTOOL_A_STATS_ETH_MAC_8_TX_BYTES 6 u64\n  attr ETHTOOL_A_STATS_ETH_MAC_9_TX_DEFER 7 u6\
    4\n  attr ETHTOOL_A_STATS_ETH_MAC_10_LATE_COL 8 u64\n  attr ETHTOOL_A_STATS_ETH_MAC_11_XS_COL \
    9 u64\n  attr ETHTOOL_A_STATS_ETH_MAC_12_TX_INT_ERR 10 u64\n  attr ETHTOOL_A_STATS_ETH_MAC_13_\
    CS_ERR 11 u64\n  attr ETHTOOL_A_STATS_ETH_MAC_14_RX_BYTES 12 u64\n  attr ETHTOOL_A_STATS_ETH_M\
    AC_15_RX_INT_ERR 13 u64\n  attr ETHTOOL_A_STATS_ETH_MAC_18_TX_MCAST 14 u64\n  attr ETHTOOL_A_S\
    TATS_ETH_MAC_19_TX_BCAST 15 u64\n  attr ETHTOOL_A_STATS_ETH_MAC_20_XS_DEFER 16 u64\n  attr ETH\
    TOOL_A_STATS_ETH_MAC_21_RX_MCAST 17 u64\n  attr ETHTOOL_A_STATS_ETH_MAC_22_RX_BCAST 18 u64\n  \
    attr ETHTOOL_A_STATS_ETH_MAC_23_IR_LEN_ERR 19 u64\n  attr ETHTOOL_A_STATS_ETH_MAC_24_OOR_LEN 2\
    0 u64\n  attr ETHTOOL_A_STATS_ETH_MAC_25_TOO_LONG_ERR 21 u64\n\nset eth-ctrl-statistic\n  att\
    r ETHTOOL_A_STATS_ETH_CTRL_3_TX 0 u64\n  attr ETHTOOL_A_STATS_ETH_CTRL_4_RX 1 u64\n  attr ETHT\
    OOL_A_STATS_ETH_CTRL_5_RX_UNSUP 2 u64\n\nset rmon-statistic\n  attr ETHTOOL_A_STATS_RMON_UNDER\
    SIZE 0 u64\n  attr ETHTOOL_A_STATS_RMON_OVERSIZE 1 u64\n  attr ETHTOOL_A_STATS_RMON_FRAG 2 u6\
    4\n  attr ETHTOOL_A_STATS_RMON_JABBER 3 u64\n\nset other-statistic\n  each value u64\n\nset ca\
    ble-tdr-results\n  attr ETHTOOL_A_CABLE_TDR_NEST_STEP 1 nest=cable-step multi\n  attr ETHTOOL_\
    A_CABLE_TDR_NEST_AMPLITUDE 2 nest=cable-amplitude multi\n  attr ETHTOOL_A_CABLE_TDR_NEST_PULS\
    E 3 nest=cable-pulse multi\n\nset cable-step\n  attr ETHTOOL_A_CABLE_STEP_FIRST_DISTANCE 1 u3\
    2\n  attr ETHTOOL_A_CABLE_STEP_LAST_DISTANCE 2 u32\n  attr ETHTOOL_A_CABLE_STEP_STEP_DISTANCE \
    3 u32\n\nset cable-amplitude\n  attr ETHTOOL_A_CABLE_AMPLITUDE_PAIR 1 u8\n  attr ETHTOOL_A_CAB\
    LE_AMPLITUDE_mV 2 s16\n\nset cable-pulse\n  attr ETHTOOL_A_CABLE_PULSE_mV 1 s16\n\nchoice stat\
    istic\n  case eth-phy 0 nest=eth-phy-statistic\n  case eth-mac 1 nest=eth-mac-statistic\n  cas\
    e eth-ctrl 2 nest=eth-ctrl-statistic\n  case rmon 3 nest=rmon-statistic\n  else other nest=oth\
    er-statistic\n";

/// The text of `tables/ethtool.table`.
pub(crate) fn text() -> &'static [u8]
    ensures { Begins result.now (heading_of table.Ethtool) }
{
    TEXT
}
