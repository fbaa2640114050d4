//! The text of `tables/devlink.table`. Written by `tables/into-crates`.

ghost use Rattle.neli_tables_generic.specs.Tables.{Begins, heading_of};
ghost use Rattle.neli_tables_generic.specs.declared.table.GenericTable.TheVariants as table;

/// The text.
static TEXT: &[u8] = b"\
    # Written by from-specs from the specification devlink.yaml of Linux 6.12 and own/devlink.tabl\
    e.\n\nfamily devlink 16 version=1\n\nmessage DEVLINK_CMD_GET 1 request nest=devlink\nmessage D\
    EVLINK_CMD_NEW 3 reply nest=devlink\nmessage DEVLINK_CMD_PORT_GET 5 request nest=devlink\nmess\
    age DEVLINK_CMD_PORT_SET 6 request nest=devlink\nmessage DEVLINK_CMD_PORT_NEW 7 nest=devlink\n\
    message DEVLINK_CMD_PORT_SPLIT 9 request nest=devlink\nmessage DEVLINK_CMD_PORT_UNSPLIT 10 req\
    uest nest=devlink\nmessage DEVLINK_CMD_SB_GET 11 request nest=devlink\nmessage DEVLINK_CMD_SB_\
    NEW 13 reply nest=devlink\nmessage DEVLINK_CMD_SB_POOL_GET 15 request nest=devlink\nmessage DE\
    VLINK_CMD_SB_POOL_SET 16 request nest=devlink\nmessage DEVLINK_CMD_SB_POOL_NEW 17 reply nest=d\
    evlink\nmessage DEVLINK_CMD_SB_PORT_POOL_GET 19 request nest=devlink\nmessage DEVLINK_CMD_SB_P\
    ORT_POOL_SET 20 request nest=devlink\nmessage DEVLINK_CMD_SB_PORT_POOL_NEW 21 reply nest=devli\
    nk\nmessage DEVLINK_CMD_SB_TC_POOL_BIND_GET 23 request nest=devlink\nmessage DEVLINK_CMD_SB_TC\
    _POOL_BIND_SET 24 request nest=devlink\nmessage DEVLINK_CMD_SB_TC_POOL_BIND_NEW 25 reply nest=\
    devlink\nmessage DEVLINK_CMD_SB_OCC_SNAPSHOT 27 request nest=devlink\nmessage DEVLINK_CMD_SB_O\
    CC_MAX_CLEAR 28 request nest=devlink\nmessage DEVLINK_CMD_ESWITCH_GET 29 nest=devlink\nmessag\
    e DEVLINK_CMD_ESWITCH_SET 30 request nest=devlink\nmessage DEVLINK_CMD_DPIPE_TABLE_GET 31 nest\
    =devlink\nmessage DEVLINK_CMD_DPIPE_ENTRIES_GET 32 nest=devlink\nmessage DEVLINK_CMD_DPIPE_HEA\
    DERS_GET 33 nest=devlink\nmessage DEVLINK_CMD_DPIPE_TABLE_COUNTERS_SET 34 request nest=devlin\
    k\nmessage DEVLINK_CMD_RESOURCE_SET 35 request nest=devlink\nmessage DEVLINK_CMD_RESOURCE_DUM\
    P 36 nest=devlink\nmessage DEVLINK_CMD_RELOAD 37 nest=devlink\nmessage DEVLINK_CMD_PARAM_GET 3\
    8 nest=devlink\nmessage DEVLINK_CMD_PARAM_SET 39 request nest=devlink\nmessage DEVLINK_CMD_REG\
    ION_GET 42 nest=devlink\nmessage DEVLINK_CMD_REGION_NEW 44 nest=devlink\nmessage DEVLINK_CMD_R\
    EGION_READ 46 nest=devlink strict\nmessage DEVLINK_CMD_PORT_PARAM_GET 47 nest=devlink\nmessag\
    e DEVLINK_CMD_PORT_PARAM_SET 48 request nest=devlink\nmessage DEVLINK_CMD_INFO_GET 51 nest=dev\
    link\nmessage DEVLINK_CMD_HEALTH_REPORTER_GET 52 nest=devlink\nmessage DEVLINK_CMD_HEALTH_REPO\
    RTER_SET 53 request nest=devlink\nmessage DEVLINK_CMD_HEALTH_REPORTER_DIAGNOSE 55 request nest\
    =devlink\nmessage DEVLINK_CMD_HEALTH_REPORTER_DUMP_GET 56 nest=devlink strict\nmessage DEVLINK\
    _CMD_HEALTH_REPORTER_DUMP_CLEAR 57 request nest=devlink\nmessage DEVLINK_CMD_FLASH_UPDATE 58 r\
    equest nest=devlink\nmessage DEVLINK_CMD_TRAP_GET 61 request nest=devlink\nmessage DEVLINK_CMD\
    _TRAP_SET 62 request nest=devlink\nmessage DEVLINK_CMD_TRAP_NEW 63 reply nest=devlink\nmessag\
    e DEVLINK_CMD_TRAP_GROUP_GET 65 request nest=devlink\nmessage DEVLINK_CMD_TRAP_GROUP_SET 66 re\
    quest nest=devlink\nmessage DEVLINK_CMD_TRAP_GROUP_NEW 67 reply nest=devlink\nmessage DEVLINK_\
    CMD_TRAP_POLICER_GET 69 request nest=devlink\nmessage DEVLINK_CMD_TRAP_POLICER_SET 70 request \
    nest=devlink\nmessage DEVLINK_CMD_TRAP_POLICER_NEW 71 reply nest=devlink\nmessage DEVLINK_CMD_\
    HEALTH_REPORTER_TEST 73 request nest=devlink\nmessage DEVLINK_CMD_RATE_GET 74 request nest=dev\
    link\nmessage DEVLINK_CMD_RATE_SET 75 request nest=devlink\nmessage DEVLINK_CMD_RATE_NEW 76 ne\
    st=devlink\nmessage DEVLINK_CMD_LINECARD_GET 78 request nest=devlink\nmessage DEVLINK_CMD_LINE\
    CARD_SET 79 request nest=devlink\nmessage DEVLINK_CMD_LINECARD_NEW 80 reply nest=devlink\nmess\
    age DEVLINK_CMD_SELFTESTS_GET 82 nest=devlink\nmessage DEVLINK_CMD_SELFTESTS_RUN 83 request ne\
    st=devlink\nmessage DEVLINK_CMD_NOTIFY_FILTER_SET 84 request nest=devlink strict\nmessage DEVL\
    INK_CMD_DEL 4 reply nest=devlink\nmessage DEVLINK_CMD_PORT_DEL 8 nest=devlink\nmessage DEVLINK\
    _CMD_PARAM_NEW 40 reply nest=devlink\nmessage DEVLINK_CMD_PARAM_DEL 41 reply nest=devlink\nmes\
    sage DEVLINK_CMD_REGION_DEL 45 nest=devlink\nmessage DEVLINK_CMD_PORT_PARAM_NEW 49 reply nest=\
    devlink\nmessage DEVLINK_CMD_PORT_PARAM_DEL 50 reply nest=devlink\nmessage DEVLINK_CMD_HEALTH_\
    REPORTER_RECOVER 54 nest=devlink\nmessage DEVLINK_CMD_FLASH_UPDATE_END 59 reply nest=devlink\n\
    message DEVLINK_CMD_FLASH_UPDATE_STATUS 60 reply nest=devlink\nmessage DEVLINK_CMD_TRAP_DEL 6\
    4 reply nest=devlink\nmessage DEVLINK_CMD_TRAP_GROUP_DEL 68 reply nest=devlink\nmessage DEVLIN\
    K_CMD_TRAP_POLICER_DEL 72 reply nest=devlink\nmessage DEVLINK_CMD_RATE_DEL 77 nest=devlink\nme\
    ssage DEVLINK_CMD_LINECARD_DEL 81 reply nest=devlink\n\nenum sb-pool-type prefix=DEVLINK_SB_PO\
    OL_TYPE_\n  value ingress 0\n  value egress 1\n\nenum port-type prefix=DEVLINK_PORT_TYPE_\n  v\
    alue notset 0\n  value auto 1\n  value eth 2\n  value ib 3\n\nenum port-flavour prefix=DEVLINK\
    _PORT_FLAVOUR_\n  value physical 0\n  value cpu 1\n  value dsa 2\n  value pci_pf 3\n  value pc\
    i_vf 4\n  value virtual 5\n  value unused 6\n  value pci_sf 7\n\nenum port-fn-state prefix=DEV\
    LINK_PORT_FN_STATE_\n  value inactive 0\n  value active 1\n\nenum port-fn-opstate prefix=DEVLI\
    NK_PORT_FN_OPSTATE_\n  value detached 0\n  value attached 1\n\nenum port-fn-attr-cap prefix=DE\
    VLINK_PORT_FN_ATTR_CAP_\n  value roce-bit 0\n  value migratable-bit 1\n  value ipsec-crypto-bi\
    t 2\n  value ipsec-packet-bit 3\n\nenum rate-type prefix=DEVLINK_RATE_TYPE_\n  value leaf \
    0\n  value node 1\n\nenum sb-threshold-type prefix=DEVLINK_SB_THRESHOLD_TYPE_\n  value static \
    0\n  value dynamic 1\n\nenum eswitch-mode prefix=DEVLINK_ESWITCH_MODE_\n  value legacy 0\n  va\
    lue switchdev 1\n\nenum eswitch-inline-mode prefix=DEVLINK_ESWITCH_INLINE_MODE_\n  value none \
    0\n  value link 1\n  value network 2\n  value transport 3\n\nenum eswitch-encap-mode prefix=DE\
    VLINK_ESWITCH_ENCAP_MODE_\n  value none 0\n  value basic 1\n\nenum dpipe-header-id prefix=DEVL\
    INK_DPIPE_HEADER_\n  value ethernet 0\n  value ipv4 1\n  value ipv6 2\n\nenum dpipe-match-typ\
    e prefix=DEVLINK_DPIPE_MATCH_TYPE_\n  value field-exact 0\n\nenum dpipe-action-type prefix=DEV\
    LINK_DPIPE_ACTION_TYPE_\n  value field-modify 0\n\nenum dpipe-field-mapping-type prefix=DEVLIN\
    K_DPIPE_FIELD_MAPPING_TYPE_\n  value none 0\n  value ifindex 1\n\nenum resource-unit prefix=DE\
    VLINK_RESOURCE_UNIT_\n  value entry 0\n\nenum reload-action prefix=DEVLINK_RELOAD_ACTION_\n  v\
    alue driver-reinit 1\n  value fw-activate 2\n\nenum param-cmode prefix=DEVLINK_PARAM_CMODE\
    _\n  value runtime 0\n  value driverinit 1\n  value permanent 2\n\nenum flash-overwrite prefix\
    =DEVLINK_FLASH_OVERWRITE_\n  value settings-bit 0\n  value identifiers-bit 1\n\nenum trap-acti\
    on prefix=DEVLINK_TRAP_ACTION_\n  value drop 0\n  value trap 1\n  value mirror 2\n\nenum trap-\
    type prefix=DEVLINK_TRAP_TYPE_\n  value drop 0\n  value exception 1\n  value control 2\n\nflag\
    s flash-overwrite-bits prefix=DEVLINK_FLASH_OVERWRITE_\n  value settings-bit 0x1\n  value iden\
    tifiers-bit 0x2\n\nflags reload-action-bits prefix=DEVLINK_RELOAD_ACTION_\n  value driver-rein\
    it 0x2\n  value fw-activate 0x4\n\nflags port-fn-attr-cap-bits prefix=DEVLINK_PORT_FN_ATTR_CAP\
    _\n  value roce-bit 0x1\n  value migratable-bit 0x2\n  value ipsec-crypto-bit 0x4\n  value ips\
    ec-packet-bit 0x8\n\nflags reload-limit-bits prefix=DEVLINK_RELOAD_LIMIT_\n  value no-reset \
    2\n\nset devlink\n  attr DEVLINK_ATTR_BUS_NAME 1 text\n  attr DEVLINK_ATTR_DEV_NAME 2 text\n  \
    attr DEVLINK_ATTR_PORT_INDEX 3 u32\n  attr DEVLINK_ATTR_PORT_TYPE 4 u16 enum=port-type\n  att\
    r DEVLINK_ATTR_PORT_DESIRED_TYPE 5 u16\n  attr DEVLINK_ATTR_PORT_NETDEV_IFINDEX 6 u32\n  attr \
    DEVLINK_ATTR_PORT_NETDEV_NAME 7 text\n  attr DEVLINK_ATTR_PORT_IBDEV_NAME 8 text\n  attr DEVLI\
    NK_ATTR_PORT_SPLIT_COUNT 9 u32\n  attr DEVLINK_ATTR_PORT_SPLIT_GROUP 10 u32\n  attr DEVLINK_AT\
    TR_SB_INDEX 11 u32\n  attr DEVLINK_ATTR_SB_SIZE 12 u32\n  attr DEVLINK_ATTR_SB_INGRESS_POOL_CO\
    UNT 13 u16\n  attr DEVLINK_ATTR_SB_EGRESS_POOL_COUNT 14 u16\n  attr DEVLINK_ATTR_SB_INGRESS_TC\
    _COUNT 15 u16\n  attr DEVLINK_ATTR_SB_EGRESS_TC_COUNT 16 u16\n  attr DEVLINK_ATTR_SB_POOL_INDE\
    X 17 u16\n  attr DEVLINK_ATTR_SB_POOL_TYPE 18 u8 enum=sb-pool-type\n  attr DEVLINK_ATTR_SB_POO\
    L_SIZE 19 u32\n  attr DEVLINK_ATTR_SB_POOL_THRESHOLD_TYPE 20 u8 enum=sb-threshold-type\n  att\
    r DEVLINK_ATTR_SB_THRESHOLD 21 u32\n  attr DEVLINK_ATTR_SB_TC_INDEX 22 u16\n  attr DEVLINK_ATT\
    R_SB_OCC_CUR 23 u32\n  attr DEVLINK_ATTR_SB_OCC_MAX 24 u32\n  attr DEVLINK_ATTR_ESWITCH_MODE 2\
    5 u16 enum=eswitch-mode\n  attr DEVLINK_ATTR_ESWITCH_INLINE_MODE 26 u8 enum=eswitch-inline-mod\
    e\n  attr DEVLINK_ATTR_DPIPE_TABLES 27 nest=devlink\n  attr DEVLINK_ATTR_DPIPE_TABLE 28 nest=d\
    evlink multi\n  attr DEVLINK_ATTR_DPIPE_TABLE_NAME 29 text\n  attr DEVLINK_ATTR_DPIPE_TABLE_SI\
    ZE 30 u64\n  attr DEVLINK_ATTR_DPIPE_TABLE_MATCHES 31 nest=devlink\n  attr DEVLINK_ATTR_DPIPE_\
    TABLE_ACTIONS 32 nest=devlink\n  attr DEVLINK_ATTR_DPIPE_TABLE_COUNTERS_ENABLED 33 u8\n  attr \
    DEVLINK_ATTR_DPIPE_ENTRIES 34 nest=devlink\n  attr DEVLINK_ATTR_DPIPE_ENTRY 35 nest=devlink mu\
    lti\n  attr DEVLINK_ATTR_DPIPE_ENTRY_INDEX 36 u64\n  attr DEVLINK_ATTR_DPIPE_ENTRY_MATCH_VALUE\
    S 37 nest=devlink\n  attr DEVLINK_ATTR_DPIPE_ENTRY_ACTION_VALUES 38 nest=devlink\n  attr DEVLI\
    NK_ATTR_DPIPE_ENTRY_COUNTER 39 u64\n  attr DEVLINK_ATTR_DPIPE_MATCH 40 nest=devlink multi\n  a\
    ttr DEVLINK_ATTR_DPIPE_MATCH_VALUE 41 nest=devlink multi\n  attr DEVLINK_ATTR_DPIPE_MATCH_TYP\
    E 42 u32 enum=dpipe-match-type\n  attr DEVLINK_ATTR_DPIPE_ACTION 43 nest=devlink multi\n  att\
    r DEVLINK_ATTR_DPIPE_ACTION_VALUE 44 nest=devlink multi\n  attr DEVLINK_ATTR_DPIPE_ACTION_TYP\
    E 45 u32 enum=dpipe-action-type\n  attr DEVLINK_ATTR_DPIPE_VALUE 46 bytes\n  attr DEVLINK_ATTR\
    _DPIPE_VALUE_MASK 47 bytes\n  attr DEVLINK_ATTR_DPIPE_VALUE_MAPPING 48 u32\n  attr DEVLINK_ATT\
    R_DPIPE_HEADERS 49 nest=devlink\n  attr DEVLINK_ATTR_DPIPE_HEADER 50 nest=devlink multi\n  att\
    r DEVLINK_ATTR_DPIPE_HEADER_NAME 51 text\n  attr DEVLINK_ATTR_DPIPE_HEADER_ID 52 u32 enum=dpip\
    e-header-id\n  attr DEVLINK_ATTR_DPIPE_HEADER_FIELDS 53 nest=devlink\n  attr DEVLINK_ATTR_DPIP\
    E_HEADER_GLOBAL 54 u8\n  attr DEVLINK_ATTR_DPIPE_HEADER_INDEX 55 u32\n  attr DEVLINK_ATTR_DPIP\
    E_FIELD 56 nest=devlink multi\n  attr DEVLINK_ATTR_DPIPE_FIELD_NAME 57 text\n  attr DEVLINK_AT\
    TR_DPIPE_FIELD_ID 58 u32\n  attr DEVLINK_ATTR_DPIPE_FIELD_BITWIDTH 59 u32\n  attr DEVLINK_ATTR\
    _DPIPE_FIELD_MAPPING_TYPE 60 u32 enum=dpipe-field-mapping-type\n  attr DEVLINK_ATTR_PAD 61 pa\
    d\n  attr DEVLINK_ATTR_ESWITCH_ENCAP_MODE 62 u8 enum=eswitch-encap-mode\n  attr DEVLINK_ATTR_R\
    ESOURCE_LIST 63 nest=devlink\n  attr DEVLINK_ATTR_RESOURCE 64 nest=devlink multi\n  attr DEVLI\
    NK_ATTR_RESOURCE_NAME 65 text\n  attr DEVLINK_ATTR_RESOURCE_ID 66 u64\n  attr DEVLINK_ATTR_RES\
    OURCE_SIZE 67 u64\n  attr DEVLINK_ATTR_RESOURCE_SIZE_NEW 68 u64\n  attr DEVLINK_ATTR_RESOURCE_\
    SIZE_VALID 69 u8\n  attr DEVLINK_ATTR_RESOURCE_SIZE_MIN 70 u64\n  attr DEVLINK_ATTR_RESOURCE_S\
    IZE_MAX 71 u64\n  attr DEVLINK_ATTR_RESOURCE_SIZE_GRAN 72 u64\n  attr DEVLINK_ATTR_RESOURCE_UN\
    IT 73 u8 enum=resource-unit\n  attr DEVLINK_ATTR_RESOURCE_OCC 74 u64\n  attr DEVLINK_ATTR_DPIP\
    E_TABLE_RESOURCE_ID 75 u64\n  attr DEVLINK_ATTR_DPIPE_TABLE_RESOURCE_UNITS 76 u64\n  attr DEVL\
    INK_ATTR_PORT_FLAVOUR 77 u16 enum=port-flavour\n  attr DEVLINK_ATTR_PORT_NUMBER 78 u32\n  att\
    r DEVLINK_ATTR_PORT_SPLIT_SUBPORT_NUMBER 79 u32\n  attr DEVLINK_ATTR_PARAM 80 nest=devlink\n  \
    attr DEVLINK_ATTR_PARAM_NAME 81 text\n  attr DEVLINK_ATTR_PARAM_GENERIC 82 flag\n  attr DEVLIN\
    K_ATTR_PARAM_TYPE 83 u8\n  attr DEVLINK_ATTR_PARAM_VALUES_LIST 84 nest=devlink\n  attr DEVLINK\
    _ATTR_PARAM_VALUE 85 nest=devlink multi\n  attr DEVLINK_ATTR_PARAM_VALUE_DATA 86 choice=parame\
    ter by=DEVLINK_ATTR_PARAM_TYPE\n  attr DEVLINK_ATTR_PARAM_VALUE_CMODE 87 u8 enum=param-cmod\
    e\n  attr DEVLINK_ATTR_REGION_NAME 88 text\n  attr DEVLINK_ATTR_REGION_SIZE 89 u64\n  attr DEV\
    LINK_ATTR_REGION_SNAPSHOTS 90 nest=devlink\n  attr DEVLINK_ATTR_REGION_SNAPSHOT 91 nest=devlin\
    k\n  attr DEVLINK_ATTR_REGION_SNAPSHOT_ID 92 u32\n  attr DEVLINK_ATTR_REGION_CHUNKS 93 nest=de\
    vlink\n  attr DEVLINK_ATTR_REGION_CHUNK 94 nest=devlink\n  attr DEVLINK_ATTR_REGION_CHUNK_DAT\
    A 95 bytes\n  attr DEVLINK_ATTR_REGION_CHUNK_ADDR 96 u64\n  attr DEVLINK_ATTR_REGION_CHUNK_LE\
    N 97 u64\n  attr DEVLINK_ATTR_INFO_DRIVER_NAME 98 text\n  attr DEVLINK_ATTR_INFO_SERIAL_NUMBE\
    R 99 text\n  attr DEVLINK_ATTR_INFO_VERSION_FIXED 100 nest=devlink multi\n  attr DEVLINK_ATTR_\
    INFO_VERSION_RUNNING 101 nest=devlink multi\n  attr DEVLINK_ATTR_INFO_VERSION_STORED 102 nest=\
    devlink multi\n  attr DEVLINK_ATTR_INFO_VERSION_NAME 103 text\n  attr DEVLINK_ATTR_INFO_VERSIO\
    N_VALUE 104 text\n  attr DEVLINK_ATTR_SB_POOL_CELL_SIZE 105 u32\n  attr DEVLINK_ATTR_FMSG 106 \
    nest=devlink\n  attr DEVLINK_ATTR_FMSG_OBJ_NEST_START 107 flag\n  attr DEVLINK_ATTR_FMSG_PAIR_\
    NEST_START 108 flag\n  attr DEVLINK_ATTR_FMSG_ARR_NEST_START 109 flag\n  attr DEVLINK_ATTR_FMS\
    G_NEST_END 110 flag\n  attr DEVLINK_ATTR_FMSG_OBJ_NAME 111 text\n  attr DEVLINK_ATTR_FMSG_OBJ_\
    VALUE_TYPE 112 u8\n  attr DEVLINK_ATTR_HEALTH_REPORTER 114 nest=devlink\n  attr DEVLINK_ATTR_H\
    EALTH_REPORTER_NAME 115 text\n  attr DEVLINK_ATTR_HEALTH_REPORTER_STATE 116 u8\n  attr DEVLINK\
    _ATTR_HEALTH_REPORTER_ERR_COUNT 117 u64\n  attr DEVLINK_ATTR_HEALTH_REPORTER_RECOVER_COUNT 11\
    8 u64\n  attr DEVLINK_ATTR_HEALTH_REPORTER_DUMP_TS 119 u64\n  attr DEVLINK_ATTR_HEALTH_REPORTE\
    R_GRACEFUL_PERIOD 120 u64\n  attr DEVLINK_ATTR_HEALTH_REPORTER_AUTO_RECOVER 121 u8\n  attr DEV\
    LINK_ATTR_FLASH_UPDATE_FILE_NAME 122 text\n  attr DEVLINK_ATTR_FLASH_UPDATE_COMPONENT 123 tex\
    t\n  attr DEVLINK_ATTR_FLASH_UPDATE_STATUS_MSG 124 text\n  attr DEVLINK_ATTR_FLASH_UPDATE_STAT\
    US_DONE 125 u64\n  attr DEVLINK_ATTR_FLASH_UPDATE_STATUS_TOTAL 126 u64\n  attr DEVLINK_ATTR_PO\
    RT_PCI_PF_NUMBER 127 u16\n  attr DEVLINK_ATTR_PORT_PCI_VF_NUMBER 128 u16\n  attr DEVLINK_ATTR_\
    STATS 129 nest=dl-attr-stats\n  attr DEVLINK_ATTR_TRAP_NAME 130 text\n  attr DEVLINK_ATTR_TRAP\
    _ACTION 131 u8 enum=trap-action\n  attr DEVLINK_ATTR_TRAP_TYPE 132 u8 enum=trap-type\n  attr D\
    EVLINK_ATTR_TRAP_GENERIC 133 flag\n  attr DEVLINK_ATTR_TRAP_METADATA 134 nest=dl-trap-metadat\
    a\n  attr DEVLINK_ATTR_TRAP_GROUP_NAME 135 text\n  attr DEVLINK_ATTR_RELOAD_FAILED 136 u8\n  a\
    ttr DEVLINK_ATTR_HEALTH_REPORTER_DUMP_TS_NS 137 u64\n  attr DEVLINK_ATTR_NETNS_FD 138 u32\n  a\
    ttr DEVLINK_ATTR_NETNS_PID 139 u32\n  attr DEVLINK_ATTR_NETNS_ID 140 u32\n  attr DEVLINK_ATTR_\
    HEALTH_REPORTER_AUTO_DUMP 141 u8\n  attr DEVLINK_ATTR_TRAP_POLICER_ID 142 u32\n  attr DEVLINK_\
    ATTR_TRAP_POLICER_RATE 143 u64\n  attr DEVLINK_ATTR_TRAP_POLICER_BURST 144 u64\n  attr DEVLINK\
    _ATTR_PORT_FUNCTION 145 nest=dl-port-function\n  attr DEVLINK_ATTR_INFO_BOARD_SERIAL_NUMBER 14\
    6 text\n  attr DEVLINK_ATTR_PORT_LANES 147 u32\n  attr DEVLINK_ATTR_PORT_SPLITTABLE 148 u8\n  \
    attr DEVLINK_ATTR_PORT_EXTERNAL 149 u8\n  attr DEVLINK_ATTR_PORT_CONTROLLER_NUMBER 150 u32\n  \
    attr DEVLINK_ATTR_FLASH_UPDATE_STATUS_TIMEOUT 151 u64\n  attr DEVLINK_ATTR_FLASH_UPDATE_OVERWR\
    ITE_MASK 152 bits flags=flash-overwrite-bits\n  attr DEVLINK_ATTR_RELOAD_ACTION 153 u8 enum=re\
    load-action\n  attr DEVLINK_ATTR_RELOAD_ACTIONS_PERFORMED 154 bits flags=reload-action-bit\
    s\n  attr DEVLINK_ATTR_RELOAD_LIMITS 155 bits flags=reload-limit-bits\n  attr DEVLINK_ATTR_DEV\
    _STATS 156 nest=devlink\n  attr DEVLINK_ATTR_RELOAD_STATS 157 nest=devlink\n  attr DEVLINK_ATT\
    R_RELOAD_STATS_ENTRY 158 nest=devlink multi\n  attr DEVLINK_ATTR_RELOAD_STATS_LIMIT 159 u8\n  \
    attr DEVLINK_ATTR_RELOAD_STATS_VALUE 160 u32\n  attr DEVLINK_ATTR_REMOTE_RELOAD_STATS 161 nest\
    =devlink\n  attr DEVLINK_ATTR_RELOAD_ACTION_INFO 162 nest=devlink multi\n  attr DEVLINK_ATTR_R\
    ELOAD_ACTION_STATS 163 nest=devlink multi\n  attr DEVLINK_ATTR_PORT_PCI_SF_NUMBER 164 u32\n  a\
    ttr DEVLINK_ATTR_RATE_TYPE 165 u16 enum=rate-type\n  attr DEVLINK_ATTR_RATE_TX_SHARE 166 u6\
    4\n  attr DEVLINK_ATTR_RATE_TX_MAX 167 u64\n  attr DEVLINK_ATTR_RATE_NODE_NAME 168 text\n  att\
    r DEVLINK_ATTR_RATE_PARENT_NODE_NAME 169 text\n  attr DEVLINK_ATTR_REGION_MAX_SNAPSHOTS 170 u3\
    2\n  attr DEVLINK_ATTR_LINECARD_INDEX 171 u32\n  attr DEVLINK_ATTR_LINECARD_STATE 172 u8\n  at\
    tr DEVLINK_ATTR_LINECARD_TYPE 173 text\n  attr DEVLINK_ATTR_LINECARD_SUPPORTED_TYPES 174 nest=\
    devlink\n  attr DEVLINK_ATTR_SELFTESTS 176 nest=dl-selftest-id\n  attr DEVLINK_ATTR_RATE_TX_PR\
    IORITY 177 u32\n  attr DEVLINK_ATTR_RATE_TX_WEIGHT 178 u32\n  attr DEVLINK_ATTR_REGION_DIRECT \
    179 flag\n\nset dl-port-function\n  attr DEVLINK_PORT_FUNCTION_ATTR_HW_ADDR 1 hardware\n  att\
    r DEVLINK_PORT_FN_ATTR_STATE 2 u8 enum=port-fn-state\n  attr DEVLINK_PORT_FN_ATTR_OPSTATE 3 u\
    8 enum=port-fn-opstate\n  attr DEVLINK_PORT_FN_ATTR_CAPS 4 bits flags=port-fn-attr-cap-bit\
    s\n\nset dl-attr-stats\n  attr DEVLINK_ATTR_STATS_RX_PACKETS 0 u64\n  attr DEVLINK_ATTR_STATS_\
    RX_BYTES 1 u64\n  attr DEVLINK_ATTR_STATS_RX_DROPPED 2 u64\n\nset dl-trap-metadata\n  attr DEV\
    LINK_ATTR_TRAP_METADATA_TYPE_IN_PORT 0 flag\n  attr DEVLINK_ATTR_TRAP_METADATA_TYPE_FA_COOKIE \
    1 flag\n\nset dl-selftest-id\n  attr DEVLINK_ATTR_SELFTEST_ID_FLASH 1 flag\n\nchoice paramete\
    r\n  case u8 1 u8\n  case u16 2 u16\n  case u32 3 u32\n  case string 5 text\n  case flag 6 fla\
    g\n";

/// The text of `tables/devlink.table`.
pub(crate) fn text() -> &'static [u8]
    ensures { Begins result.now (heading_of table.Devlink) }
{
    TEXT
}
