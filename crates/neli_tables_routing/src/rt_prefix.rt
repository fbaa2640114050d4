//! The text of `tables/rt_prefix.table`. Written by `tables/into-crates`.

ghost use Rattle.neli_tables_routing.specs.Tables.{Begins, heading_of};
ghost use Rattle.neli_tables_routing.specs.declared.table.RoutingTable.TheVariants as table;

/// The text.
static TEXT: &[u8] = b"\
    # Written by hand from the headers (linux/rtnetlink.h).\n\nfamily rt-prefix 0\n\ngroup RTNLGRP\
    _IPV6_PREFIX 18\n\nmessage RTM_NEWPREFIX 52 nest=prefix after=prefixmsg\n\nflags prefix-flags \
    prefix=IF_PREFIX_\n  value onlink 0x1\n  value autoconf 0x2\n\nstruct prefixmsg 12\n  field pr\
    efix_family 0..1 u8\n  field prefix_ifindex 4..8 s32\n  field prefix_type 8..9 u8\n  field pre\
    fix_len 9..10 u8\n  field prefix_flags 10..11 u8 flags=prefix-flags\n\nstruct prefix_cacheinf\
    o 8\n  field preferred_time 0..4 u32\n  field valid_time 4..8 u32\n\nset prefix\n  attr PREFIX\
    _ADDRESS 1 ipv6\n  attr PREFIX_CACHEINFO 2 struct=prefix_cacheinfo\n";

/// The text of `tables/rt_prefix.table`.
pub(crate) fn text() -> &'static [u8]
    ensures { Begins result.now (heading_of table.RtPrefix) }
{
    TEXT
}
