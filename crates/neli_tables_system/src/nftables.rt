//! The text of `tables/nftables.table`. Written by `tables/into-crates`.

ghost use Rattle.neli_tables_system.specs.Tables.{Begins, heading_of};
ghost use Rattle.neli_tables_system.specs.declared.table.SystemTable.TheVariants as table;

/// The text.
static TEXT: &[u8] = b"\
    # Written by from-specs from the specification nftables.yaml of Linux 6.12 and own/nftables.ta\
    ble.\n\nfamily nftables 12\n\ngroup mgmt\n\nmessage NFT_MSG_NEWTABLE 2560 nest=table-attrs aft\
    er=nfgenmsg\nmessage NFT_MSG_GETTABLE 2561 nest=table-attrs after=nfgenmsg\nmessage NFT_MSG_DE\
    LTABLE 2562 nest=table-attrs after=nfgenmsg\nmessage NFT_MSG_NEWCHAIN 2563 nest=chain-attrs af\
    ter=nfgenmsg\nmessage NFT_MSG_GETCHAIN 2564 nest=chain-attrs after=nfgenmsg\nmessage NFT_MSG_D\
    ELCHAIN 2565 nest=chain-attrs after=nfgenmsg\nmessage NFT_MSG_NEWRULE 2566 nest=rule-attrs aft\
    er=nfgenmsg\nmessage NFT_MSG_GETRULE 2567 nest=rule-attrs after=nfgenmsg\nmessage NFT_MSG_DELR\
    ULE 2568 nest=rule-attrs after=nfgenmsg\nmessage NFT_MSG_NEWSET 2569 nest=set-attrs after=nfge\
    nmsg\nmessage NFT_MSG_GETSET 2570 nest=set-attrs after=nfgenmsg\nmessage NFT_MSG_DELSET 2571 n\
    est=set-attrs after=nfgenmsg\nmessage NFT_MSG_NEWSETELEM 2572 nest=setelem-list-attrs after=nf\
    genmsg\nmessage NFT_MSG_GETSETELEM 2573 nest=setelem-list-attrs after=nfgenmsg\nmessage NFT_MS\
    G_DELSETELEM 2574 nest=setelem-list-attrs after=nfgenmsg\nmessage NFT_MSG_NEWGEN 2575 nest=gen\
    -attrs after=nfgenmsg\nmessage NFT_MSG_GETGEN 2576 nest=gen-attrs after=nfgenmsg\nmessage NFT_\
    MSG_NEWOBJ 2578 nest=obj-attrs after=nfgenmsg\nmessage NFT_MSG_GETOBJ 2579 nest=obj-attrs afte\
    r=nfgenmsg\nmessage NFT_MSG_DELOBJ 2580 nest=obj-attrs after=nfgenmsg\nmessage NFT_MSG_NEWFLOW\
    TABLE 2582 nest=flowtable-attrs after=nfgenmsg\nmessage NFT_MSG_GETFLOWTABLE 2583 nest=flowtab\
    le-attrs after=nfgenmsg\nmessage NFT_MSG_DELFLOWTABLE 2584 nest=flowtable-attrs after=nfgenms\
    g\nmessage NFT_MSG_GETRULE_RESET 2585 nest=rule-attrs after=nfgenmsg\nmessage NFT_MSG_DESTROYT\
    ABLE 2586 nest=table-attrs after=nfgenmsg\nmessage NFT_MSG_DESTROYCHAIN 2587 nest=chain-attrs \
    after=nfgenmsg\nmessage NFT_MSG_DESTROYRULE 2588 nest=rule-attrs after=nfgenmsg\nmessage NFT_M\
    SG_DESTROYSET 2589 nest=set-attrs after=nfgenmsg\nmessage NFT_MSG_DESTROYSETELEM 2590 nest=set\
    elem-list-attrs after=nfgenmsg\nmessage NFT_MSG_DESTROYOBJ 2591 nest=obj-attrs after=nfgenms\
    g\nmessage NFT_MSG_DESTROYFLOWTABLE 2592 nest=flowtable-attrs after=nfgenmsg\nmessage NFT_MSG_\
    GETSETELEM_RESET 2593 nest=setelem-list-attrs after=nfgenmsg\nmessage NFNL_MSG_BATCH_BEGIN 16 \
    nest=batch-attrs after=nfgenmsg\nmessage NFNL_MSG_BATCH_END 17 nest=batch-attrs after=nfgenms\
    g\nmessage NFNL_MSG_COMPAT_GET 2816 nest=compat after=nfgenmsg\n\nenum meta-keys prefix=NFT_ME\
    TA_\n  value len 0\n  value protocol 1\n  value priority 2\n  value mark 3\n  value iif 4\n  v\
    alue oif 5\n  value iifname 6\n  value oifname 7\n  value iftype 8\n  value oiftype 9\n  valu\
    e skuid 10\n  value skgid 11\n  value nftrace 12\n  value rtclassid 13\n  value secmark 14\n  \
    value nfproto 15\n  value l4-proto 16\n  value bri-iifname 17\n  value bri-oifname 18\n  valu\
    e pkttype 19\n  value cpu 20\n  value iifgroup 21\n  value oifgroup 22\n  value cgroup 23\n  v\
    alue prandom 24\n  value secpath 25\n  value iifkind 26\n  value oifkind 27\n  value bri-iifpv\
    id 28\n  value bri-iifvproto 29\n  value time-ns 30\n  value time-day 31\n  value time-hour 3\
    2\n  value sdif 33\n  value sdifname 34\n  value bri-broute 35\n\nenum bitwise-ops prefix=NFT_\
    BITWISE_\n  value bool 0\n  value lshift 1\n  value rshift 2\n\nenum cmp-ops prefix=NFT_CMP\
    _\n  value eq 0\n  value neq 1\n  value lt 2\n  value lte 3\n  value gt 4\n  value gte 5\n\nen\
    um object-type prefix=NFT_OBJECT_\n  value unspec 0\n  value counter 1\n  value quota 2\n  val\
    ue ct-helper 3\n  value limit 4\n  value connlimit 5\n  value tunnel 6\n  value ct-timeout \
    7\n  value secmark 8\n  value ct-expect 9\n  value synproxy 10\n\nenum ct-keys prefix=NFT_CT\
    _\n  value state 0\n  value direction 1\n  value status 2\n  value mark 3\n  value secmark \
    4\n  value expiration 5\n  value helper 6\n  value l3protocol 7\n  value src 8\n  value dst \
    9\n  value protocol 10\n  value proto-src 11\n  value proto-dst 12\n  value labels 13\n  valu\
    e pkts 14\n  value bytes 15\n  value avgpkt 16\n  value zone 17\n  value eventmask 18\n  valu\
    e src-ip 19\n  value dst-ip 20\n  value src-ip6 21\n  value dst-ip6 22\n  value ct-id 23\n\nen\
    um ct-direction prefix=IP_CT_DIR_\n  value original 0\n  value reply 1\n\nenum verdict-cod\
    e\n  value continue 4294967295\n  value break 4294967294\n  value jump 4294967293\n  value got\
    o 4294967292\n  value return 4294967291\n  value drop 0\n  value accept 1\n  value stolen \
    2\n  value queue 3\n  value repeat 4\n\nenum fib-result prefix=NFT_FIB_RESULT_\n  value oif \
    1\n  value oifname 2\n  value addrtype 3\n\nenum reject-types prefix=NFT_REJECT_\n  value icmp\
    -unreach 0\n  value tcp-rst 1\n  value icmpx-unreach 2\n\nenum chain-policy prefix=NF_\n  valu\
    e drop 0\n  value accept 1\n\nflags nat-range-flags prefix=NF_NAT_RANGE_\n  value map-ips 0x\
    1\n  value proto-specified 0x2\n  value proto-random 0x4\n  value persistent 0x8\n  value prot\
    o-random-fully 0x10\n  value proto-offset 0x20\n  value netmap 0x40\n\nflags table-flags prefi\
    x=NFT_TABLE_F_\n  value dormant 0x1\n  value owner 0x2\n  value persist 0x4\n\nflags chain-fla\
    gs prefix=NFT_CHAIN_\n  value base 0x1\n  value hw-offload 0x2\n  value binding 0x4\n\nflags s\
    et-flags prefix=NFT_SET_\n  value anonymous 0x1\n  value constant 0x2\n  value interval 0x\
    4\n  value map 0x8\n  value timeout 0x10\n  value eval 0x20\n  value object 0x40\n  value conc\
    at 0x80\n  value expr 0x100\n\nflags lookup-flags prefix=XT_QUOTA_\n  value invert 0x1\n\nflag\
    s quota-flags\n  value invert 0x1\n  value depleted 0x2\n\nflags fib-flags prefix=NFTA_FIB_F\
    _\n  value saddr 0x1\n  value daddr 0x2\n  value mark 0x4\n  value iif 0x8\n  value oif 0x1\
    0\n  value present 0x20\n\nstruct nfgenmsg 4\n  field nfgen_family 0..1 u8\n  field version 1.\
    .2 u8\n  field res_id 2..4 be16\n\nset empty-attrs\n  attr name 1 text\n\nset batch-attrs\n  a\
    ttr NFNL_BATCH_GENID 1 be32\n\nset table-attrs\n  attr NFTA_TABLE_NAME 1 text\n  attr NFTA_TAB\
    LE_FLAGS 2 be32 flags=table-flags\n  attr NFTA_TABLE_USE 3 be32\n  attr NFTA_TABLE_HANDLE 4 be\
    64\n  attr NFTA_TABLE_PAD 5 pad\n  attr NFTA_TABLE_USERDATA 6 bytes\n  attr NFTA_TABLE_OWNER \
    7 be32\n\nset chain-attrs\n  attr NFTA_CHAIN_TABLE 1 text\n  attr NFTA_CHAIN_HANDLE 2 be64\n  \
    attr NFTA_CHAIN_NAME 3 text\n  attr NFTA_CHAIN_HOOK 4 nest=nft-hook-attrs\n  attr NFTA_CHAIN_P\
    OLICY 5 be32 enum=chain-policy\n  attr NFTA_CHAIN_USE 6 be32\n  attr NFTA_CHAIN_TYPE 7 tex\
    t\n  attr NFTA_CHAIN_COUNTERS 8 nest=nft-counter-attrs\n  attr NFTA_CHAIN_PAD 9 pad\n  attr NF\
    TA_CHAIN_FLAGS 10 be32 flags=chain-flags\n  attr NFTA_CHAIN_ID 11 be32\n  attr NFTA_CHAIN_USER\
    DATA 12 bytes\n\nset counter-attrs\n  attr NFTA_COUNTER_BYTES 1 be64\n  attr NFTA_COUNTER_PACK\
    ETS 2 be64\n  attr NFTA_COUNTER_PAD 3 pad\n\nset nft-hook-attrs\n  attr NFTA_HOOK_HOOKNUM 1 be\
    32\n  attr NFTA_HOOK_PRIORITY 2 sbe32\n  attr NFTA_HOOK_DEV 3 text\n  attr NFTA_HOOK_DEVS 4 ne\
    st=hook-dev-attrs\n\nset hook-dev-attrs\n  attr NFTA_DEVICE_NAME 1 text multi\n\nset nft-count\
    er-attrs\n  attr NFTA_COUNTER_BYTES 1 be64\n  attr NFTA_COUNTER_PACKETS 2 be64\n\nset rule-att\
    rs\n  attr NFTA_RULE_TABLE 1 text\n  attr NFTA_RULE_CHAIN 2 text\n  attr NFTA_RULE_HANDLE 3 be\
    64\n  attr NFTA_RULE_EXPRESSIONS 4 nest=expr-list-attrs\n  attr NFTA_RULE_COMPAT 5 nest=rule-c\
    ompat-attrs\n  attr NFTA_RULE_POSITION 6 be64\n  attr NFTA_RULE_USERDATA 7 bytes\n  attr NFTA_\
    RULE_PAD 8 pad\n  attr NFTA_RULE_ID 9 be32\n  attr NFTA_RULE_POSITION_ID 10 be32\n  attr NFTA_\
    RULE_CHAIN_ID 11 be32\n\nset expr-list-attrs\n  attr NFTA_LIST_ELEM 1 nest=expr-attrs mult\
    i\n\nset expr-attrs\n  attr NFTA_EXPR_NAME 1 text\n  attr NFTA_EXPR_DATA 2 choice=expr-ops by=\
    NFTA_EXPR_NAME\n\nset rule-compat-attrs\n  attr NFTA_RULE_COMPAT_PROTO 1 be32\n  attr NFTA_RUL\
    E_COMPAT_FLAGS 2 be32\n\nset set-attrs\n  attr NFTA_SET_TABLE 1 text\n  attr NFTA_SET_NAME 2 t\
    ext\n  attr NFTA_SET_FLAGS 3 be32 flags=set-flags\n  attr NFTA_SET_KEY_TYPE 4 be32\n  attr NFT\
    A_SET_KEY_LEN 5 be32\n  attr NFTA_SET_DATA_TYPE 6 be32\n  attr NFTA_SET_DATA_LEN 7 be32\n  att\
    r NFTA_SET_POLICY 8 be32\n  attr NFTA_SET_DESC 9 nest=set-desc-attrs\n  attr NFTA_SET_ID 10 be\
    32\n  attr NFTA_SET_TIMEOUT 11 be64\n  attr NFTA_SET_GC_INTERVAL 12 be32\n  attr NFTA_SET_USER\
    DATA 13 bytes\n  attr NFTA_SET_PAD 14 pad\n  attr NFTA_SET_OBJ_TYPE 15 be32\n  attr NFTA_SET_H\
    ANDLE 16 be64\n  attr NFTA_SET_EXPR 17 nest=expr-attrs multi\n  attr NFTA_SET_EXPRESSIONS 18 n\
    est=set-list-attrs\n  attr NFTA_SET_TYPE 19 text\n  attr NFTA_SET_COUNT 20 be32\n\nset set-des\
    c-attrs\n  attr NFTA_SET_DESC_SIZE 1 be32\n  attr NFTA_SET_DESC_CONCAT 2 nest=set-desc-concat-\
    attrs multi\n\nset set-desc-concat-attrs\n  attr NFTA_LIST_ELEM 1 nest=set-field-attrs\n\nset \
    set-field-attrs\n  attr NFTA_SET_FIELD_LEN 1 be32\n\nset set-list-attrs\n  attr NFTA_LIST_ELE\
    M 1 nest=expr-attrs multi\n\nset setelem-attrs\n  attr NFTA_SET_ELEM_KEY 1 nest=data-attrs\n  \
    attr NFTA_SET_ELEM_DATA 2 nest=data-attrs\n  attr NFTA_SET_ELEM_FLAGS 3 be32\n  attr NFTA_SET_\
    ELEM_TIMEOUT 4 be64\n  attr NFTA_SET_ELEM_EXPIRATION 5 be64\n  attr NFTA_SET_ELEM_USERDATA 6 b\
    ytes\n  attr NFTA_SET_ELEM_EXPR 7 nest=expr-attrs\n  attr NFTA_SET_ELEM_PAD 8 pad\n  attr NFTA\
    _SET_ELEM_OBJREF 9 text\n  attr NFTA_SET_ELEM_KEY_END 10 nest=data-attrs\n  attr NFTA_SET_ELEM\
    _EXPRESSIONS 11 nest=expr-list-attrs\n\nset setelem-list-elem-attrs\n  attr NFTA_LIST_ELEM 1 n\
    est=setelem-attrs multi\n  each element nest=setelem-attrs\n\nset setelem-list-attrs\n  attr N\
    FTA_SET_ELEM_LIST_TABLE 1 text\n  attr NFTA_SET_ELEM_LIST_SET 2 text\n  attr NFTA_SET_ELEM_LIS\
    T_ELEMENTS 3 nest=setelem-list-elem-attrs\n  attr NFTA_SET_ELEM_LIST_SET_ID 4 be32\n\nset gen-\
    attrs\n  attr NFTA_GEN_ID 1 be32\n  attr NFTA_GEN_PROC_PID 2 be32\n  attr NFTA_GEN_PROC_NAME \
    3 text\n\nset obj-attrs\n  attr NFTA_OBJ_TABLE 1 text\n  attr NFTA_OBJ_NAME 2 text\n  attr NFT\
    A_OBJ_TYPE 3 be32 enum=object-type\n  attr NFTA_OBJ_DATA 4 choice=obj-data by=NFTA_OBJ_TYP\
    E\n  attr NFTA_OBJ_USE 5 be32\n  attr NFTA_OBJ_HANDLE 6 be64\n  attr NFTA_OBJ_PAD 7 pad\n  att\
    r NFTA_OBJ_USERDATA 8 bytes\n\nset quota-attrs\n  attr NFTA_QUOTA_BYTES 1 be64\n  attr NFTA_QU\
    OTA_FLAGS 2 be32 flags=quota-flags\n  attr NFTA_QUOTA_PAD 3 pad\n  attr NFTA_QUOTA_CONSUMED 4 \
    be64\n\nset flowtable-attrs\n  attr NFTA_FLOWTABLE_TABLE 1 text\n  attr NFTA_FLOWTABLE_NAME 2 \
    text\n  attr NFTA_FLOWTABLE_HOOK 3 nest=flowtable-hook-attrs\n  attr NFTA_FLOWTABLE_USE 4 be3\
    2\n  attr NFTA_FLOWTABLE_HANDLE 5 be64\n  attr NFTA_FLOWTABLE_PAD 6 pad\n  attr NFTA_FLOWTABLE\
    _FLAGS 7 be32\n\nset flowtable-hook-attrs\n  attr NFTA_FLOWTABLE_HOOK_NUM 1 be32\n  attr NFTA_\
    FLOWTABLE_HOOK_PRIORITY 2 sbe32\n  attr NFTA_FLOWTABLE_HOOK_DEVS 3 nest=hook-dev-attrs\n\nset \
    expr-bitwise-attrs\n  attr NFTA_BITWISE_SREG 1 be32\n  attr NFTA_BITWISE_DREG 2 be32\n  attr N\
    FTA_BITWISE_LEN 3 be32\n  attr NFTA_BITWISE_MASK 4 nest=data-attrs\n  attr NFTA_BITWISE_XOR 5 \
    nest=data-attrs\n  attr NFTA_BITWISE_OP 6 be32 enum=bitwise-ops\n  attr NFTA_BITWISE_DATA 7 ne\
    st=data-attrs\n\nset expr-cmp-attrs\n  attr NFTA_CMP_SREG 1 be32\n  attr NFTA_CMP_OP 2 be32 en\
    um=cmp-ops\n  attr NFTA_CMP_DATA 3 nest=data-attrs\n\nset data-attrs\n  attr NFTA_DATA_VALUE \
    1 bytes\n  attr NFTA_DATA_VERDICT 2 nest=verdict-attrs\n\nset verdict-attrs\n  attr NFTA_VERDI\
    CT_CODE 1 be32 enum=verdict-code\n  attr NFTA_VERDICT_CHAIN 2 text\n  attr NFTA_VERDICT_CHAIN_\
    ID 3 be32\n\nset expr-counter-attrs\n  attr NFTA_COUNTER_BYTES 1 be64\n  attr NFTA_COUNTER_PAC\
    KETS 2 be64\n  attr NFTA_COUNTER_PAD 3 pad\n\nset expr-fib-attrs\n  attr NFTA_FIB_DREG 1 be3\
    2\n  attr NFTA_FIB_RESULT 2 be32 enum=fib-result\n  attr NFTA_FIB_FLAGS 3 be32 flags=fib-flag\
    s\n\nset expr-ct-attrs\n  attr NFTA_CT_DREG 1 be32\n  attr NFTA_CT_KEY 2 be32 enum=ct-keys\n  \
    attr NFTA_CT_DIRECTION 3 u8 enum=ct-direction\n  attr NFTA_CT_SREG 4 be32\n\nset expr-flow-off\
    load-attrs\n  attr NFTA_FLOW_TABLE_NAME 1 text\n\nset expr-immediate-attrs\n  attr NFTA_IMMEDI\
    ATE_DREG 1 be32\n  attr NFTA_IMMEDIATE_DATA 2 nest=data-attrs\n\nset expr-lookup-attrs\n  att\
    r NFTA_LOOKUP_SET 1 text\n  attr NFTA_LOOKUP_SREG 2 be32\n  attr NFTA_LOOKUP_DREG 3 be32\n  at\
    tr NFTA_LOOKUP_SET_ID 4 be32\n  attr NFTA_LOOKUP_FLAGS 5 be32 flags=lookup-flags\n\nset expr-m\
    eta-attrs\n  attr NFTA_META_DREG 1 be32\n  attr NFTA_META_KEY 2 be32 enum=meta-keys\n  attr NF\
    TA_META_SREG 3 be32\n\nset expr-nat-attrs\n  attr NFTA_NAT_TYPE 1 be32\n  attr NFTA_NAT_FAMIL\
    Y 2 be32\n  attr NFTA_NAT_REG_ADDR_MIN 3 be32\n  attr NFTA_NAT_REG_ADDR_MAX 4 be32\n  attr NFT\
    A_NAT_REG_PROTO_MIN 5 be32\n  attr NFTA_NAT_REG_PROTO_MAX 6 be32\n  attr NFTA_NAT_FLAGS 7 be3\
    2 flags=nat-range-flags\n\nset expr-payload-attrs\n  attr NFTA_PAYLOAD_DREG 1 be32\n  attr NFT\
    A_PAYLOAD_BASE 2 be32\n  attr NFTA_PAYLOAD_OFFSET 3 be32\n  attr NFTA_PAYLOAD_LEN 4 be32\n  at\
    tr NFTA_PAYLOAD_SREG 5 be32\n  attr NFTA_PAYLOAD_CSUM_TYPE 6 be32\n  attr NFTA_PAYLOAD_CSUM_OF\
    FSET 7 be32\n  attr NFTA_PAYLOAD_CSUM_FLAGS 8 be32\n\nset expr-reject-attrs\n  attr NFTA_REJEC\
    T_TYPE 1 be32 enum=reject-types\n  attr NFTA_REJECT_ICMP_CODE 2 u8\n\nset expr-target-attr\
    s\n  attr NFTA_TARGET_NAME 1 text\n  attr NFTA_TARGET_REV 2 be32\n  attr NFTA_TARGET_INFO 3 by\
    tes\n\nset expr-tproxy-attrs\n  attr NFTA_TPROXY_FAMILY 1 be32\n  attr NFTA_TPROXY_REG_ADDR 2 \
    be32\n  attr NFTA_TPROXY_REG_PORT 3 be32\n\nset expr-objref-attrs\n  attr NFTA_OBJREF_IMM_TYP\
    E 1 be32\n  attr NFTA_OBJREF_IMM_NAME 2 text\n  attr NFTA_OBJREF_SET_SREG 3 be32\n  attr NFTA_\
    OBJREF_SET_NAME 4 text\n  attr NFTA_OBJREF_SET_ID 5 be32\n\nset expr-log-attrs\n  attr NFTA_LO\
    G_GROUP 1 be16\n  attr NFTA_LOG_PREFIX 2 ztext\n  attr NFTA_LOG_SNAPLEN 3 be32\n  attr NFTA_LO\
    G_QTHRESHOLD 4 be16\n  attr NFTA_LOG_LEVEL 5 be32\n  attr NFTA_LOG_FLAGS 6 be32\n\nset expr-li\
    mit-attrs\n  attr NFTA_LIMIT_RATE 1 be64\n  attr NFTA_LIMIT_UNIT 2 be64\n  attr NFTA_LIMIT_BUR\
    ST 3 be32\n  attr NFTA_LIMIT_TYPE 4 be32\n  attr NFTA_LIMIT_FLAGS 5 be32\n  attr NFTA_LIMIT_PA\
    D 6 pad\n\nset expr-masq-attrs\n  attr NFTA_MASQ_FLAGS 1 be32\n  attr NFTA_MASQ_REG_PROTO_MIN \
    2 be32\n  attr NFTA_MASQ_REG_PROTO_MAX 3 be32\n\nset expr-redir-attrs\n  attr NFTA_REDIR_REG_P\
    ROTO_MIN 1 be32\n  attr NFTA_REDIR_REG_PROTO_MAX 2 be32\n  attr NFTA_REDIR_FLAGS 3 be32\n\nse\
    t expr-byteorder-attrs\n  attr NFTA_BYTEORDER_SREG 1 be32\n  attr NFTA_BYTEORDER_DREG 2 be3\
    2\n  attr NFTA_BYTEORDER_OP 3 be32\n  attr NFTA_BYTEORDER_LEN 4 be32\n  attr NFTA_BYTEORDER_SI\
    ZE 5 be32\n\nset expr-range-attrs\n  attr NFTA_RANGE_SREG 1 be32\n  attr NFTA_RANGE_OP 2 be3\
    2\n  attr NFTA_RANGE_FROM_DATA 3 nest=data-attrs\n  attr NFTA_RANGE_TO_DATA 4 nest=data-attr\
    s\n\nset expr-hash-attrs\n  attr NFTA_HASH_SREG 1 be32\n  attr NFTA_HASH_DREG 2 be32\n  attr N\
    FTA_HASH_LEN 3 be32\n  attr NFTA_HASH_MODULUS 4 be32\n  attr NFTA_HASH_SEED 5 be32\n  attr NFT\
    A_HASH_OFFSET 6 be32\n  attr NFTA_HASH_TYPE 7 be32\n  attr NFTA_HASH_SET_NAME 8 text\n  attr N\
    FTA_HASH_SET_ID 9 be32\n\nset expr-numgen-attrs\n  attr NFTA_NG_DREG 1 be32\n  attr NFTA_NG_MO\
    DULUS 2 be32\n  attr NFTA_NG_TYPE 3 be32\n  attr NFTA_NG_OFFSET 4 be32\n  attr NFTA_NG_SET_NAM\
    E 5 text\n  attr NFTA_NG_SET_ID 6 be32\n\nset expr-dynset-attrs\n  attr NFTA_DYNSET_SET_NAME \
    1 ztext\n  attr NFTA_DYNSET_SET_ID 2 be32\n  attr NFTA_DYNSET_OP 3 be32\n  attr NFTA_DYNSET_SR\
    EG_KEY 4 be32\n  attr NFTA_DYNSET_SREG_DATA 5 be32\n  attr NFTA_DYNSET_TIMEOUT 6 be64\n  attr \
    NFTA_DYNSET_EXPR 7 nest=expr-attrs\n  attr NFTA_DYNSET_PAD 8 pad\n  attr NFTA_DYNSET_FLAGS 9 b\
    e32\n  attr NFTA_DYNSET_EXPRESSIONS 10 nest=expr-list-attrs\n\nset expr-exthdr-attrs\n  attr N\
    FTA_EXTHDR_DREG 1 be32\n  attr NFTA_EXTHDR_TYPE 2 u8\n  attr NFTA_EXTHDR_OFFSET 3 be32\n  att\
    r NFTA_EXTHDR_LEN 4 be32\n  attr NFTA_EXTHDR_FLAGS 5 be32\n  attr NFTA_EXTHDR_OP 6 be32\n  att\
    r NFTA_EXTHDR_SREG 7 be32\n\nset expr-rt-attrs\n  attr NFTA_RT_DREG 1 be32\n  attr NFTA_RT_KE\
    Y 2 be32\n\nset expr-socket-attrs\n  attr NFTA_SOCKET_KEY 1 be32\n  attr NFTA_SOCKET_DREG 2 be\
    32\n  attr NFTA_SOCKET_LEVEL 3 be32\n\nset expr-osf-attrs\n  attr NFTA_OSF_DREG 1 be32\n  att\
    r NFTA_OSF_TTL 2 u8\n  attr NFTA_OSF_FLAGS 3 be32\n\nset expr-synproxy-attrs\n  attr NFTA_SYNP\
    ROXY_MSS 1 be16\n  attr NFTA_SYNPROXY_WSCALE 2 u8\n  attr NFTA_SYNPROXY_FLAGS 3 be32\n\nset ex\
    pr-queue-attrs\n  attr NFTA_QUEUE_NUM 1 be16\n  attr NFTA_QUEUE_TOTAL 2 be16\n  attr NFTA_QUEU\
    E_FLAGS 3 be16\n  attr NFTA_QUEUE_SREG_QNUM 4 be32\n\nset expr-dup-attrs\n  attr NFTA_DUP_SREG\
    _ADDR 1 be32\n  attr NFTA_DUP_SREG_DEV 2 be32\n\nset expr-fwd-attrs\n  attr NFTA_FWD_SREG_DEV \
    1 be32\n  attr NFTA_FWD_SREG_ADDR 2 be32\n  attr NFTA_FWD_NFPROTO 3 be32\n\nset expr-xfrm-attr\
    s\n  attr NFTA_XFRM_DREG 1 be32\n  attr NFTA_XFRM_KEY 2 be32\n  attr NFTA_XFRM_DIR 3 u8\n  att\
    r NFTA_XFRM_SPNUM 4 be32\n\nset expr-connlimit-attrs\n  attr NFTA_CONNLIMIT_COUNT 1 be32\n  at\
    tr NFTA_CONNLIMIT_FLAGS 2 be32\n\nset expr-last-attrs\n  attr NFTA_LAST_SET 1 be32\n  attr NFT\
    A_LAST_MSECS 2 be64\n  attr NFTA_LAST_PAD 3 pad\n\nset expr-match-attrs\n  attr NFTA_MATCH_NAM\
    E 1 ztext\n  attr NFTA_MATCH_REV 2 be32\n  attr NFTA_MATCH_INFO 3 bytes\n\nset ct-helper\n  at\
    tr NFTA_CT_HELPER_NAME 1 text\n  attr NFTA_CT_HELPER_L3PROTO 2 be16\n  attr NFTA_CT_HELPER_L4P\
    ROTO 3 u8\n\nset tunnel-address\n  attr NFTA_TUNNEL_KEY_IP_SRC 1 ipv4\n  attr NFTA_TUNNEL_KEY_\
    IP_DST 2 ipv4\n\nset tunnel-address6\n  attr NFTA_TUNNEL_KEY_IP6_SRC 1 ipv6\n  attr NFTA_TUNNE\
    L_KEY_IP6_DST 2 ipv6\n  attr NFTA_TUNNEL_KEY_IP6_FLOWLABEL 3 be32\n\nset tunnel-options strict\
    -from=3\n  attr NFTA_TUNNEL_KEY_OPTS_VXLAN 1 nest=tunnel-vxlan\n  attr NFTA_TUNNEL_KEY_OPTS_ER\
    SPAN 2 nest=tunnel-erspan\n  attr NFTA_TUNNEL_KEY_OPTS_GENEVE 3 nest=tunnel-geneve multi\n\nse\
    t tunnel-vxlan\n  attr NFTA_TUNNEL_KEY_VXLAN_GBP 1 be32\n\nset tunnel-erspan\n  attr NFTA_TUNN\
    EL_KEY_ERSPAN_VERSION 1 be32\n  attr NFTA_TUNNEL_KEY_ERSPAN_V1_INDEX 2 be32\n  attr NFTA_TUNNE\
    L_KEY_ERSPAN_V2_HWID 3 u8\n  attr NFTA_TUNNEL_KEY_ERSPAN_V2_DIR 4 u8\n\nset tunnel-geneve\n  a\
    ttr NFTA_TUNNEL_KEY_GENEVE_CLASS 1 be16\n  attr NFTA_TUNNEL_KEY_GENEVE_TYPE 2 u8\n  attr NFTA_\
    TUNNEL_KEY_GENEVE_DATA 3 bytes length=0..127\n\nset tunnel-key\n  attr NFTA_TUNNEL_KEY_ID 1 be\
    32\n  attr NFTA_TUNNEL_KEY_IP 2 nest=tunnel-address\n  attr NFTA_TUNNEL_KEY_IP6 3 nest=tunnel-\
    address6\n  attr NFTA_TUNNEL_KEY_FLAGS 4 be32\n  attr NFTA_TUNNEL_KEY_TOS 5 u8\n  attr NFTA_TU\
    NNEL_KEY_TTL 6 u8\n  attr NFTA_TUNNEL_KEY_SPORT 7 be16\n  attr NFTA_TUNNEL_KEY_DPORT 8 be1\
    6\n  attr NFTA_TUNNEL_KEY_OPTS 9 nest=tunnel-options\n\nset ct-timeout\n  attr NFTA_CT_TIMEOUT\
    _L3PROTO 1 be16\n  attr NFTA_CT_TIMEOUT_L4PROTO 2 u8\n  attr NFTA_CT_TIMEOUT_DATA 3 nest=ct-ti\
    meout-states\n\nset secmark\n  attr NFTA_SECMARK_CTX 1 text length=0..256\n\nset ct-expect\n  \
    attr NFTA_CT_EXPECT_L3PROTO 1 be16\n  attr NFTA_CT_EXPECT_L4PROTO 2 u8\n  attr NFTA_CT_EXPECT_\
    DPORT 3 be16\n  attr NFTA_CT_EXPECT_TIMEOUT 4 u32\n  attr NFTA_CT_EXPECT_SIZE 5 u8\n\nset expr\
    -inner\n  attr NFTA_INNER_NUM 1 be32\n  attr NFTA_INNER_TYPE 2 be32\n  attr NFTA_INNER_FLAGS \
    3 be32\n  attr NFTA_INNER_HDRSIZE 4 be32\n  attr NFTA_INNER_EXPR 5 nest=expr-attrs\n\nset expr\
    -tunnel\n  attr NFTA_TUNNEL_KEY 1 be32\n  attr NFTA_TUNNEL_DREG 2 be32\n  attr NFTA_TUNNEL_MOD\
    E 3 be32\n\nset ct-timeout-states\n  each seconds be32\n\nset compat\n  attr NFTA_COMPAT_NAME \
    1 text length=1..31\n  attr NFTA_COMPAT_REV 2 be32\n  attr NFTA_COMPAT_TYPE 3 be32\n\nchoice e\
    xpr-ops\n  case bitwise nest=expr-bitwise-attrs\n  case cmp nest=expr-cmp-attrs\n  case counte\
    r nest=expr-counter-attrs\n  case ct nest=expr-ct-attrs\n  case fib nest=expr-fib-attrs\n  cas\
    e flow_offload nest=expr-flow-offload-attrs\n  case immediate nest=expr-immediate-attrs\n  cas\
    e lookup nest=expr-lookup-attrs\n  case meta nest=expr-meta-attrs\n  case nat nest=expr-nat-at\
    trs\n  case objref nest=expr-objref-attrs\n  case payload nest=expr-payload-attrs\n  case quot\
    a nest=quota-attrs\n  case reject nest=expr-reject-attrs\n  case target nest=expr-target-attr\
    s\n  case tproxy nest=expr-tproxy-attrs\n  case log nest=expr-log-attrs\n  case limit nest=exp\
    r-limit-attrs\n  case masq nest=expr-masq-attrs\n  case redir nest=expr-redir-attrs\n  case by\
    teorder nest=expr-byteorder-attrs\n  case range nest=expr-range-attrs\n  case hash nest=expr-h\
    ash-attrs\n  case numgen nest=expr-numgen-attrs\n  case dynset nest=expr-dynset-attrs\n  case \
    exthdr nest=expr-exthdr-attrs\n  case rt nest=expr-rt-attrs\n  case socket nest=expr-socket-at\
    trs\n  case osf nest=expr-osf-attrs\n  case synproxy nest=expr-synproxy-attrs\n  case queue ne\
    st=expr-queue-attrs\n  case dup nest=expr-dup-attrs\n  case fwd nest=expr-fwd-attrs\n  case xf\
    rm nest=expr-xfrm-attrs\n  case connlimit nest=expr-connlimit-attrs\n  case last nest=expr-las\
    t-attrs\n  case match nest=expr-match-attrs\n  case inner nest=expr-inner\n  case tunnel nest=\
    expr-tunnel\n\nchoice obj-data\n  case counter 1 nest=counter-attrs\n  case quota 2 nest=quota\
    -attrs\n  case ct-helper 3 nest=ct-helper\n  case limit 4 nest=expr-limit-attrs\n  case connli\
    mit 5 nest=expr-connlimit-attrs\n  case tunnel 6 nest=tunnel-key\n  case ct-timeout 7 nest=ct-\
    timeout\n  case secmark 8 nest=secmark\n  case ct-expect 9 nest=ct-expect\n  case synproxy 10 \
    nest=expr-synproxy-attrs\n";

/// The text of `tables/nftables.table`.
pub(crate) fn text() -> &'static [u8]
    ensures { Begins result.now (heading_of table.Nftables) }
{
    TEXT
}
