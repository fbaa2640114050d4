//! The text of `tables/ipvs.table`. Written by `tables/into-crates`.

ghost use Rattle.neli_tables_generic.specs.Tables.{Begins, heading_of};
ghost use Rattle.neli_tables_generic.specs.declared.table.GenericTable.TheVariants as table;

/// The text.
static TEXT: &[u8] = b"\
    # Written by hand from the headers.\n\nfamily IPVS 16 version=1\n\nmessage IPVS_CMD_NEW_SERVIC\
    E 1 nest=ipvs\nmessage IPVS_CMD_SET_SERVICE 2 nest=ipvs\nmessage IPVS_CMD_DEL_SERVICE 3 nest=i\
    pvs\nmessage IPVS_CMD_GET_SERVICE 4 nest=ipvs\nmessage IPVS_CMD_NEW_DEST 5 nest=ipvs\nmessage \
    IPVS_CMD_SET_DEST 6 nest=ipvs\nmessage IPVS_CMD_DEL_DEST 7 nest=ipvs\nmessage IPVS_CMD_GET_DES\
    T 8 nest=ipvs\nmessage IPVS_CMD_NEW_DAEMON 9 nest=ipvs\nmessage IPVS_CMD_DEL_DAEMON 10 nest=ip\
    vs\nmessage IPVS_CMD_GET_DAEMON 11 nest=ipvs\nmessage IPVS_CMD_SET_CONFIG 12 nest=ipvs\nmessag\
    e IPVS_CMD_GET_CONFIG 13 nest=ipvs\nmessage IPVS_CMD_SET_INFO 14 nest=info\nmessage IPVS_CMD_G\
    ET_INFO 15 nest=info\nmessage IPVS_CMD_ZERO 16 nest=ipvs\nmessage IPVS_CMD_FLUSH 17 nest=ipv\
    s\n\nstruct ip_vs_flags 8\n  field flags 0..4 u32\n  field mask 4..8 u32\n\n# An address has 1\
    6 bytes; of IPv4 the first four count.\nstruct ipvs_address 16\n  field ip 0..4 ipv4\n\nchoic\
    e address\n  case AF_INET 2 struct=ipvs_address\n  case AF_INET6 10 ipv6\n\nchoice mask\n  cas\
    e AF_INET 2 ipv4\n  case AF_INET6 10 u32\n\nset ipvs\n  attr IPVS_CMD_ATTR_SERVICE 1 nest=serv\
    ice\n  attr IPVS_CMD_ATTR_DEST 2 nest=destination\n  attr IPVS_CMD_ATTR_DAEMON 3 nest=daemo\
    n\n  attr IPVS_CMD_ATTR_TIMEOUT_TCP 4 u32\n  attr IPVS_CMD_ATTR_TIMEOUT_TCP_FIN 5 u32\n  attr \
    IPVS_CMD_ATTR_TIMEOUT_UDP 6 u32\n\nset service\n  attr IPVS_SVC_ATTR_AF 1 u16\n  attr IPVS_SVC\
    _ATTR_PROTOCOL 2 u16\n  attr IPVS_SVC_ATTR_ADDR 3 choice=address by=IPVS_SVC_ATTR_AF\n  attr I\
    PVS_SVC_ATTR_PORT 4 be16\n  attr IPVS_SVC_ATTR_FWMARK 5 u32\n  attr IPVS_SVC_ATTR_SCHED_NAME \
    6 ztext\n  attr IPVS_SVC_ATTR_FLAGS 7 struct=ip_vs_flags\n  attr IPVS_SVC_ATTR_TIMEOUT 8 u3\
    2\n  attr IPVS_SVC_ATTR_NETMASK 9 choice=mask by=IPVS_SVC_ATTR_AF\n  attr IPVS_SVC_ATTR_STATS \
    10 nest=stats\n  attr IPVS_SVC_ATTR_PE_NAME 11 ztext\n  attr IPVS_SVC_ATTR_STATS64 12 nest=sta\
    ts64\n\nset destination\n  attr IPVS_DEST_ATTR_ADDR 1 choice=address by=IPVS_DEST_ATTR_ADDR_FA\
    MILY\n  attr IPVS_DEST_ATTR_PORT 2 be16\n  attr IPVS_DEST_ATTR_FWD_METHOD 3 u32\n  attr IPVS_D\
    EST_ATTR_WEIGHT 4 u32\n  attr IPVS_DEST_ATTR_U_THRESH 5 u32\n  attr IPVS_DEST_ATTR_L_THRESH 6 \
    u32\n  attr IPVS_DEST_ATTR_ACTIVE_CONNS 7 u32\n  attr IPVS_DEST_ATTR_INACT_CONNS 8 u32\n  att\
    r IPVS_DEST_ATTR_PERSIST_CONNS 9 u32\n  attr IPVS_DEST_ATTR_STATS 10 nest=stats\n  attr IPVS_D\
    EST_ATTR_ADDR_FAMILY 11 u16\n  attr IPVS_DEST_ATTR_STATS64 12 nest=stats64\n  attr IPVS_DEST_A\
    TTR_TUN_TYPE 13 u8\n  attr IPVS_DEST_ATTR_TUN_PORT 14 be16\n  attr IPVS_DEST_ATTR_TUN_FLAGS 1\
    5 u16\n\nset daemon\n  attr IPVS_DAEMON_ATTR_STATE 1 u32\n  attr IPVS_DAEMON_ATTR_MCAST_IFN 2 \
    ztext\n  attr IPVS_DAEMON_ATTR_SYNC_ID 3 u32\n  attr IPVS_DAEMON_ATTR_SYNC_MAXLEN 4 u16\n  att\
    r IPVS_DAEMON_ATTR_MCAST_GROUP 5 ipv4\n  attr IPVS_DAEMON_ATTR_MCAST_GROUP6 6 ipv6\n  attr IPV\
    S_DAEMON_ATTR_MCAST_PORT 7 u16\n  attr IPVS_DAEMON_ATTR_MCAST_TTL 8 u8\n\nset stats\n  attr IP\
    VS_STATS_ATTR_CONNS 1 u32\n  attr IPVS_STATS_ATTR_INPKTS 2 u32\n  attr IPVS_STATS_ATTR_OUTPKT\
    S 3 u32\n  attr IPVS_STATS_ATTR_INBYTES 4 u64\n  attr IPVS_STATS_ATTR_OUTBYTES 5 u64\n  attr I\
    PVS_STATS_ATTR_CPS 6 u32\n  attr IPVS_STATS_ATTR_INPPS 7 u32\n  attr IPVS_STATS_ATTR_OUTPPS 8 \
    u32\n  attr IPVS_STATS_ATTR_INBPS 9 u32\n  attr IPVS_STATS_ATTR_OUTBPS 10 u32\n  attr IPVS_STA\
    TS_ATTR_PAD 11 pad\n\nset stats64\n  attr IPVS_STATS_ATTR_CONNS 1 u64\n  attr IPVS_STATS_ATTR_\
    INPKTS 2 u64\n  attr IPVS_STATS_ATTR_OUTPKTS 3 u64\n  attr IPVS_STATS_ATTR_INBYTES 4 u64\n  at\
    tr IPVS_STATS_ATTR_OUTBYTES 5 u64\n  attr IPVS_STATS_ATTR_CPS 6 u64\n  attr IPVS_STATS_ATTR_IN\
    PPS 7 u64\n  attr IPVS_STATS_ATTR_OUTPPS 8 u64\n  attr IPVS_STATS_ATTR_INBPS 9 u64\n  attr IPV\
    S_STATS_ATTR_OUTBPS 10 u64\n  attr IPVS_STATS_ATTR_PAD 11 pad\n\nset info\n  attr IPVS_INFO_AT\
    TR_VERSION 1 u32\n  attr IPVS_INFO_ATTR_CONN_TAB_SIZE 2 u32\n";

/// The text of `tables/ipvs.table`.
pub(crate) fn text() -> &'static [u8]
    ensures { Begins result.now (heading_of table.Ipvs) }
{
    TEXT
}
