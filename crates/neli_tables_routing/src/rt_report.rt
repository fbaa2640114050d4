//! The text of `tables/rt_report.table`. Written by `tables/into-crates`.

ghost use Rattle.neli_tables_routing.specs.Tables.{Begins, heading_of};
ghost use Rattle.neli_tables_routing.specs.declared.table.RoutingTable.TheVariants as table;

/// The text.
static TEXT: &[u8] = b"\
    # Written by hand from the headers (linux/mroute.h, linux/mroute6.h).\n\nfamily rt-report \
    0\n\nmessage RTM_NEWCACHEREPORT 96 family=128 nest=report after=rtgenmsg\nmessage RTM_NEWCACHE\
    REPORT 96 family=129 nest=report6 after=rtgenmsg\n\nenum report prefix=IGMPMSG_\n  value nocac\
    he 1\n  value wrongvif 2\n  value wholepkt 3\n  value wrvifwhole 4\n\nenum report6 prefix=MRT6\
    MSG_\n  value nocache 1\n  value wrongmif 2\n  value wholepkt 3\n  value wrmifwhole 4\n\nstruc\
    t rtgenmsg 1\n  field rtgen_family 0..1 u8\n\nset report\n  attr IPMRA_CREPORT_MSGTYPE 1 u8 en\
    um=report\n  attr IPMRA_CREPORT_VIF_ID 2 u32\n  attr IPMRA_CREPORT_SRC_ADDR 3 ipv4\n  attr IPM\
    RA_CREPORT_DST_ADDR 4 ipv4\n  attr IPMRA_CREPORT_PKT 5 bytes\n  attr IPMRA_CREPORT_TABLE 6 u3\
    2\n\nset report6\n  attr IP6MRA_CREPORT_MSGTYPE 1 u8 enum=report6\n  attr IP6MRA_CREPORT_MIF_I\
    D 2 u32\n  attr IP6MRA_CREPORT_SRC_ADDR 3 ipv6\n  attr IP6MRA_CREPORT_DST_ADDR 4 ipv6\n  attr \
    IP6MRA_CREPORT_PKT 5 bytes\n";

/// The text of `tables/rt_report.table`.
pub(crate) fn text() -> &'static [u8]
    ensures { Begins result.now (heading_of table.RtReport) }
{
    TEXT
}
