//! The text of `tables/rt_addrlabel.table`. Written by `tables/into-crates`.

ghost use Rattle.neli_tables_routing.specs.Tables.{Begins, heading_of};
ghost use Rattle.neli_tables_routing.specs.declared.table.RoutingTable.TheVariants as table;

/// The text.
static TEXT: &[u8] = b"\
    # Written by hand from the headers.\n\nfamily rt-addrlabel 0\n\nmessage RTM_NEWADDRLABEL 72 ne\
    st=address-label after=ifaddrlblmsg\nmessage RTM_DELADDRLABEL 73 nest=address-label after=ifad\
    drlblmsg\nmessage RTM_GETADDRLABEL 74 nest=address-label after=ifaddrlblmsg\n\nstruct ifaddrlb\
    lmsg 12\n  field ifal_family 0..1 u8\n  field ifal_prefixlen 2..3 u8\n  field ifal_flags 3..4 \
    u8\n  field ifal_index 4..8 u32\n  field ifal_seq 8..12 u32\n\nset address-label\n  attr IFAL_\
    ADDRESS 1 ipv6 length=16..65531\n  attr IFAL_LABEL 2 u32\n";

/// The text of `tables/rt_addrlabel.table`.
pub(crate) fn text() -> &'static [u8]
    ensures { Begins result.now (heading_of table.RtAddrlabel) }
{
    TEXT
}
