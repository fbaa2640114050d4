//! The text of `tables/ioam6.table`. Written by `tables/into-crates`.

ghost use Rattle.neli_tables_generic.specs.Tables.{Begins, heading_of};
ghost use Rattle.neli_tables_generic.specs.declared.table.GenericTable.TheVariants as table;

/// The text.
static TEXT: &[u8] = b"\
    # Operations, administration and maintenance in IPv6 (linux/ioam6_genl.h). Written by hand fro\
    m the headers.\n\nfamily IOAM6 16 version=1\n\ngroup ioam6_events\n\nmessage IOAM6_CMD_ADD_NAM\
    ESPACE 1 request nest=ioam6\nmessage IOAM6_EVENT_TRACE 1 reply nest=event\nmessage IOAM6_CMD_D\
    EL_NAMESPACE 2 nest=ioam6\nmessage IOAM6_CMD_DUMP_NAMESPACES 3 nest=ioam6\nmessage IOAM6_CMD_A\
    DD_SCHEMA 4 nest=ioam6\nmessage IOAM6_CMD_DEL_SCHEMA 5 nest=ioam6\nmessage IOAM6_CMD_DUMP_SCHE\
    MAS 6 nest=ioam6\nmessage IOAM6_CMD_NS_SET_SCHEMA 7 nest=ioam6\n\nset ioam6\n  attr IOAM6_ATTR\
    _NS_ID 1 u16\n  attr IOAM6_ATTR_NS_DATA 2 u32\n  attr IOAM6_ATTR_NS_DATA_WIDE 3 u64\n  attr IO\
    AM6_ATTR_SC_ID 4 u32\n  attr IOAM6_ATTR_SC_DATA 5 bytes length=0..1020\n  attr IOAM6_ATTR_SC_N\
    ONE 6 flag\n  attr IOAM6_ATTR_PAD 7 pad\n\nset event\n  attr IOAM6_EVENT_ATTR_TRACE_NAMESPACE \
    1 u16\n  attr IOAM6_EVENT_ATTR_TRACE_NODELEN 2 u8\n  attr IOAM6_EVENT_ATTR_TRACE_TYPE 3 u32 he\
    x\n  attr IOAM6_EVENT_ATTR_TRACE_DATA 4 bytes\n";

/// The text of `tables/ioam6.table`.
pub(crate) fn text() -> &'static [u8]
    ensures { Begins result.now (heading_of table.Ioam6) }
{
    TEXT
}
