//! The text of `tables/mptcp_pm.table`. Written by `tables/into-crates`.

ghost use Rattle.neli_tables_generic.specs.Tables.{Begins, heading_of};
ghost use Rattle.neli_tables_generic.specs.declared.table.GenericTable.TheVariants as table;

/// The text.
static TEXT: &[u8] = b"\
    # Written by from-specs from the specification mptcp_pm.yaml of Linux 6.12 and own/mptcp_pm.ta\
    ble.\n\nfamily mptcp_pm 16 version=1\n\nmessage MPTCP_PM_CMD_GET_ADDR 3 nest=attr\nmessage MPT\
    CP_PM_CMD_FLUSH_ADDRS 4 nest=endpoint\nmessage MPTCP_PM_CMD_SET_LIMITS 5 nest=attr\nmessage MP\
    TCP_PM_CMD_GET_LIMITS 6 nest=attr\nmessage MPTCP_PM_CMD_ANNOUNCE 8 nest=attr\nmessage MPTCP_PM\
    _CMD_REMOVE 9 nest=attr\nmessage MPTCP_PM_CMD_ADD_ADDR 1 request nest=endpoint\nmessage MPTCP_\
    EVENT_CREATED 1 reply nest=event-attr\nmessage MPTCP_PM_CMD_DEL_ADDR 2 request nest=endpoint\n\
    message MPTCP_EVENT_ESTABLISHED 2 reply nest=event-attr\nmessage MPTCP_PM_CMD_SET_FLAGS 7 requ\
    est nest=attr\nmessage MPTCP_EVENT_REMOVED 7 reply nest=event-attr\nmessage MPTCP_PM_CMD_SUBFL\
    OW_CREATE 10 request nest=attr\nmessage MPTCP_EVENT_SUB_ESTABLISHED 10 reply nest=event-attr\n\
    message MPTCP_PM_CMD_SUBFLOW_DESTROY 11 request nest=attr\nmessage MPTCP_EVENT_SUB_CLOSED 11 r\
    eply nest=event-attr\nmessage MPTCP_EVENT_SUB_PRIORITY 13 reply nest=event-attr\nmessage MPTCP\
    _EVENT_LISTENER_CREATED 15 reply nest=event-attr\nmessage MPTCP_EVENT_LISTENER_CLOSED 16 repl\
    y nest=event-attr\n\nenum event-type prefix=MPTCP_EVENT_\n  value unspec 0\n  value created \
    1\n  value established 2\n  value closed 3\n  value announced 6\n  value removed 7\n  value su\
    b-established 10\n  value sub-closed 11\n  value sub-priority 13\n  value listener-created 1\
    5\n  value listener-closed 16\n\nset address\n  attr MPTCP_PM_ADDR_ATTR_UNSPEC 0 pad\n  attr M\
    PTCP_PM_ADDR_ATTR_FAMILY 1 u16\n  attr MPTCP_PM_ADDR_ATTR_ID 2 u8\n  attr MPTCP_PM_ADDR_ATTR_A\
    DDR4 3 ipv4\n  attr MPTCP_PM_ADDR_ATTR_ADDR6 4 ipv6\n  attr MPTCP_PM_ADDR_ATTR_PORT 5 u16\n  a\
    ttr MPTCP_PM_ADDR_ATTR_FLAGS 6 u32\n  attr MPTCP_PM_ADDR_ATTR_IF_IDX 7 s32\n\nset subflow-attr\
    ibute\n  attr MPTCP_SUBFLOW_ATTR_UNSPEC 0 pad\n  attr MPTCP_SUBFLOW_ATTR_TOKEN_REM 1 u32\n  at\
    tr MPTCP_SUBFLOW_ATTR_TOKEN_LOC 2 u32\n  attr MPTCP_SUBFLOW_ATTR_RELWRITE_SEQ 3 u32\n  attr MP\
    TCP_SUBFLOW_ATTR_MAP_SEQ 4 u64\n  attr MPTCP_SUBFLOW_ATTR_MAP_SFSEQ 5 u32\n  attr MPTCP_SUBFLO\
    W_ATTR_SSN_OFFSET 6 u32\n  attr MPTCP_SUBFLOW_ATTR_MAP_DATALEN 7 u16\n  attr MPTCP_SUBFLOW_ATT\
    R_FLAGS 8 u32\n  attr MPTCP_SUBFLOW_ATTR_ID_REM 9 u8\n  attr MPTCP_SUBFLOW_ATTR_ID_LOC 10 u\
    8\n  attr MPTCP_SUBFLOW_ATTR_PAD 11 pad\n\nset endpoint\n  attr MPTCP_PM_ENDPOINT_ADDR 1 nest=\
    address\n\nset attr\n  attr MPTCP_PM_ATTR_UNSPEC 0 pad\n  attr MPTCP_PM_ATTR_ADDR 1 nest=addre\
    ss\n  attr MPTCP_PM_ATTR_RCV_ADD_ADDRS 2 u32\n  attr MPTCP_PM_ATTR_SUBFLOWS 3 u32\n  attr MPTC\
    P_PM_ATTR_TOKEN 4 u32\n  attr MPTCP_PM_ATTR_LOC_ID 5 u8\n  attr MPTCP_PM_ATTR_ADDR_REMOTE 6 ne\
    st=address\n\nset event-attr\n  attr MPTCP_ATTR_UNSPEC 0 pad\n  attr MPTCP_ATTR_TOKEN 1 u3\
    2\n  attr MPTCP_ATTR_FAMILY 2 u16\n  attr MPTCP_ATTR_LOC_ID 3 u8\n  attr MPTCP_ATTR_REM_ID 4 u\
    8\n  attr MPTCP_ATTR_SADDR4 5 ipv4\n  attr MPTCP_ATTR_SADDR6 6 ipv6\n  attr MPTCP_ATTR_DADDR4 \
    7 ipv4\n  attr MPTCP_ATTR_DADDR6 8 ipv6\n  attr MPTCP_ATTR_SPORT 9 be16\n  attr MPTCP_ATTR_DPO\
    RT 10 be16\n  attr MPTCP_ATTR_BACKUP 11 u8\n  attr MPTCP_ATTR_ERROR 12 u8\n  attr MPTCP_ATTR_F\
    LAGS 13 u16\n  attr MPTCP_ATTR_TIMEOUT 14 u32\n  attr MPTCP_ATTR_IF_IDX 15 s32\n  attr MPTCP_A\
    TTR_RESET_REASON 16 u32\n  attr MPTCP_ATTR_RESET_FLAGS 17 u32\n  attr MPTCP_ATTR_SERVER_SIDE 1\
    8 u8\n";

/// The text of `tables/mptcp_pm.table`.
pub(crate) fn text() -> &'static [u8]
    ensures { Begins result.now (heading_of table.MptcpPm) }
{
    TEXT
}
