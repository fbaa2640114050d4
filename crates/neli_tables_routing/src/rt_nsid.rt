//! The text of `tables/rt_nsid.table`. Written by `tables/into-crates`.

ghost use Rattle.neli_tables_routing.specs.Tables.{Begins, heading_of};
ghost use Rattle.neli_tables_routing.specs.declared.table.RoutingTable.TheVariants as table;

/// The text.
static TEXT: &[u8] = b"\
    # Written by hand from the headers.\n\nfamily rt-nsid 0\n\ngroup RTNLGRP_NSID 28\n\nmessage RT\
    M_NEWNSID 88 nest=namespace after=rtgenmsg\nmessage RTM_DELNSID 89 nest=namespace after=rtgenm\
    sg\nmessage RTM_GETNSID 90 nest=namespace after=rtgenmsg\n\nstruct rtgenmsg 1\n  field rtgen_f\
    amily 0..1 u8\n\nset namespace\n  attr NETNSA_NSID 1 s32\n  attr NETNSA_PID 2 u32\n  attr NETN\
    SA_FD 3 u32\n  attr NETNSA_TARGET_NSID 4 s32\n  attr NETNSA_CURRENT_NSID 5 s32\n";

/// The text of `tables/rt_nsid.table`.
pub(crate) fn text() -> &'static [u8]
    ensures { Begins result.now (heading_of table.RtNsid) }
{
    TEXT
}
