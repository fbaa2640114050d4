//! The text of `tables/tcp_metrics.table`. Written by `tables/into-crates`.

ghost use Rattle.neli_tables_generic.specs.Tables.{Begins, heading_of};
ghost use Rattle.neli_tables_generic.specs.declared.table.GenericTable.TheVariants as table;

/// The text.
static TEXT: &[u8] = b"\
    # Written by from-specs from the specification tcp_metrics.yaml of Linux 6.12.\n\nfamily tcp_m\
    etrics 16 version=1\n\nmessage TCP_METRICS_CMD_GET 1 nest=tcp-metrics\nmessage TCP_METRICS_CMD\
    _DEL 2 nest=tcp-metrics\n\nset tcp-metrics\n  attr TCP_METRICS_ATTR_ADDR_IPV4 1 ipv4\n  attr T\
    CP_METRICS_ATTR_ADDR_IPV6 2 ip length=16..65531\n  attr TCP_METRICS_ATTR_AGE 3 u64\n  attr TCP\
    _METRICS_ATTR_TW_TSVAL 4 u32\n  attr TCP_METRICS_ATTR_TW_TS_STAMP 5 s32\n  attr TCP_METRICS_AT\
    TR_VALS 6 nest=metrics\n  attr TCP_METRICS_ATTR_FOPEN_MSS 7 u16\n  attr TCP_METRICS_ATTR_FOPEN\
    _SYN_DROPS 8 u16\n  attr TCP_METRICS_ATTR_FOPEN_SYN_DROP_TS 9 u64\n  attr TCP_METRICS_ATTR_FOP\
    EN_COOKIE 10 bytes length=16..65531\n  attr TCP_METRICS_ATTR_SADDR_IPV4 11 ipv4\n  attr TCP_ME\
    TRICS_ATTR_SADDR_IPV6 12 ip length=16..65531\n  attr TCP_METRICS_ATTR_PAD 13 pad\n\nset metric\
    s\n  attr TCP_METRICS_A_METRICS_RTT 1 u32\n  attr TCP_METRICS_A_METRICS_RTTVAR 2 u32\n  attr T\
    CP_METRICS_A_METRICS_SSTHRESH 3 u32\n  attr TCP_METRICS_A_METRICS_CWND 4 u32\n  attr TCP_METRI\
    CS_A_METRICS_REODERING 5 u32\n  attr TCP_METRICS_A_METRICS_RTT_US 6 u32\n  attr TCP_METRICS_A_\
    METRICS_RTTVAR_US 7 u32\n";

/// The text of `tables/tcp_metrics.table`.
pub(crate) fn text() -> &'static [u8]
    ensures { Begins result.now (heading_of table.TcpMetrics) }
{
    TEXT
}
