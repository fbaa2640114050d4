//! The text of `tables/rt_netconf.table`. Written by `tables/into-crates`.

ghost use Rattle.neli_tables_routing.specs.Tables.{Begins, heading_of};
ghost use Rattle.neli_tables_routing.specs.declared.table.RoutingTable.TheVariants as table;

/// The text.
static TEXT: &[u8] = b"\
    # Written by hand from the headers.\n\nfamily rt-netconf 0\n\ngroup RTNLGRP_IPV4_NETCONF 24\ng\
    roup RTNLGRP_IPV6_NETCONF 25\ngroup RTNLGRP_MPLS_NETCONF 29\n\nmessage RTM_NEWNETCONF 80 nest=\
    netconf after=netconfmsg\nmessage RTM_DELNETCONF 81 nest=netconf after=netconfmsg\nmessage RTM\
    _GETNETCONF 82 nest=netconf after=netconfmsg\n\nstruct netconfmsg 1\n  field ncm_family 0..1 u\
    8\n\nset netconf\n  attr NETCONFA_IFINDEX 1 s32\n  attr NETCONFA_FORWARDING 2 s32\n  attr NETC\
    ONFA_RP_FILTER 3 s32\n  attr NETCONFA_MC_FORWARDING 4 s32\n  attr NETCONFA_PROXY_NEIGH 5 s3\
    2\n  attr NETCONFA_IGNORE_ROUTES_WITH_LINKDOWN 6 s32\n  attr NETCONFA_INPUT 7 s32\n  attr NETC\
    ONFA_BC_FORWARDING 8 s32\n  attr NETCONFA_FORCE_FORWARDING 9 s32\n";

/// The text of `tables/rt_netconf.table`.
pub(crate) fn text() -> &'static [u8]
    ensures { Begins result.now (heading_of table.RtNetconf) }
{
    TEXT
}
