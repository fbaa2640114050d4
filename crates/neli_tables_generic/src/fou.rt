//! The text of `tables/fou.table`. Written by `tables/into-crates`.

ghost use Rattle.neli_tables_generic.specs.Tables.{Begins, heading_of};
ghost use Rattle.neli_tables_generic.specs.declared.table.GenericTable.TheVariants as table;

/// The text.
static TEXT: &[u8] = b"\
    # Written by from-specs from the specification fou.yaml of Linux 6.12 and own/fou.table.\n\nfa\
    mily fou 16 version=1\n\nmessage FOU_CMD_ADD 1 nest=fou\nmessage FOU_CMD_DEL 2 nest=fou\nmessa\
    ge FOU_CMD_GET 3 nest=fou\n\nenum encap_type prefix=FOU_ENCAP_\n  value unspec 0\n  value dire\
    ct 1\n  value gue 2\n\nset fou\n  attr FOU_ATTR_UNSPEC 0 pad\n  attr FOU_ATTR_PORT 1 be16\n  a\
    ttr FOU_ATTR_AF 2 u8\n  attr FOU_ATTR_IPPROTO 3 u8 range=1..255\n  attr FOU_ATTR_TYPE 4 u8\n  \
    attr FOU_ATTR_REMCSUM_NOPARTIAL 5 flag\n  attr FOU_ATTR_LOCAL_V4 6 ipv4\n  attr FOU_ATTR_LOCAL\
    _V6 7 ipv6\n  attr FOU_ATTR_PEER_V4 8 ipv4\n  attr FOU_ATTR_PEER_V6 9 ipv6\n  attr FOU_ATTR_PE\
    ER_PORT 10 be16\n  attr FOU_ATTR_IFINDEX 11 s32\n";

/// The text of `tables/fou.table`.
pub(crate) fn text() -> &'static [u8]
    ensures { Begins result.now (heading_of table.Fou) }
{
    TEXT
}
