//! The text of `tables/seg6.table`. Written by `tables/into-crates`.

ghost use Rattle.neli_tables_generic.specs.Tables.{Begins, heading_of};
ghost use Rattle.neli_tables_generic.specs.declared.table.GenericTable.TheVariants as table;

/// The text.
static TEXT: &[u8] = b"\
    # Segments of IPv6 routing (linux/seg6_genl.h). Written by hand from the headers.\n\nfamily SE\
    G6 16 version=1\n\nmessage SEG6_CMD_SETHMAC 1 nest=seg6\nmessage SEG6_CMD_DUMPHMAC 2 nest=seg\
    6\nmessage SEG6_CMD_SET_TUNSRC 3 nest=seg6\nmessage SEG6_CMD_GET_TUNSRC 4 nest=seg6\n\nset seg\
    6\n  attr SEG6_ATTR_DST 1 ipv6\n  attr SEG6_ATTR_DSTLEN 2 s32\n  attr SEG6_ATTR_HMACKEYID 3 u3\
    2\n  attr SEG6_ATTR_SECRET 4 bytes\n  attr SEG6_ATTR_SECRETLEN 5 u8\n  attr SEG6_ATTR_ALGID 6 \
    u8\n  attr SEG6_ATTR_HMACINFO 7 nest=seg6\n";

/// The text of `tables/seg6.table`.
pub(crate) fn text() -> &'static [u8]
    ensures { Begins result.now (heading_of table.Seg6) }
{
    TEXT
}
