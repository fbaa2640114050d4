//! The text of `tables/rt_addr.table`. Written by `tables/into-crates`.

ghost use Rattle.neli_tables_routing.specs.Tables.{Begins, heading_of};
ghost use Rattle.neli_tables_routing.specs.declared.table.RoutingTable.TheVariants as table;

/// The text.
static TEXT: &[u8] = b"\
    # Written by from-specs from the specification rt_addr.yaml of Linux 6.12 and own/rt_addr.tabl\
    e.\n\nfamily rt-addr 0\n\ngroup RTNLGRP_IPV4_IFADDR 5\ngroup RTNLGRP_IPV6_IFADDR 9\n\nmessage \
    RTM_NEWADDR 20 nest=addr-attrs after=ifaddrmsg\nmessage RTM_DELADDR 21 nest=addr-attrs after=i\
    faddrmsg\nmessage RTM_GETADDR 22 nest=addr-attrs after=ifaddrmsg\nmessage RTM_NEWMULTICAST 56 \
    nest=addr-attrs after=ifaddrmsg\nmessage RTM_DELMULTICAST 57 nest=addr-attrs after=ifaddrmsg\n\
    message RTM_GETMULTICAST 58 nest=addr-attrs after=ifaddrmsg\nmessage RTM_NEWANYCAST 60 nest=ad\
    dr-attrs after=ifaddrmsg\nmessage RTM_DELANYCAST 61 nest=addr-attrs after=ifaddrmsg\nmessage R\
    TM_GETANYCAST 62 nest=addr-attrs after=ifaddrmsg\n\nenum scope prefix=RT_SCOPE_\n  value unive\
    rse 0\n  value site 200\n  value link 253\n  value host 254\n  value nowhere 255\n\nenum ifa-p\
    roto prefix=IFAPROT_\n  value unspec 0\n  value kernel-lo 1\n  value kernel-ra 2\n  value kern\
    el-ll 3\n\nflags ifa-flags prefix=IFA_F_\n  value secondary 0x1\n  value nodad 0x2\n  value op\
    timistic 0x4\n  value dadfailed 0x8\n  value homeaddress 0x10\n  value deprecated 0x20\n  valu\
    e tentative 0x40\n  value permanent 0x80\n  value managetempaddr 0x100\n  value noprefixroute \
    0x200\n  value mcautojoin 0x400\n  value stable-privacy 0x800\n\nstruct ifaddrmsg 8\n  field i\
    fa_family 0..1 u8\n  field ifa_prefixlen 1..2 u8\n  field ifa_flags 2..3 u8 flags=ifa-flag\
    s\n  field ifa_scope 3..4 u8 enum=scope\n  field ifa_index 4..8 u32\n\nstruct ifa_cacheinfo 1\
    6\n  field ifa_prefered 0..4 u32\n  field ifa_valid 4..8 u32\n  field cstamp 8..12 u32\n  fiel\
    d tstamp 12..16 u32\n\nset addr-attrs\n  attr IFA_ADDRESS 1 address\n  attr IFA_LOCAL 2 addres\
    s\n  attr IFA_LABEL 3 text length=1..15\n  attr IFA_BROADCAST 4 address\n  attr IFA_ANYCAST 5 \
    address\n  attr IFA_CACHEINFO 6 struct=ifa_cacheinfo length=16..65531\n  attr IFA_MULTICAST 7 \
    address\n  attr IFA_FLAGS 8 u32 flags=ifa-flags\n  attr IFA_RT_PRIORITY 9 u32\n  attr IFA_TARG\
    ET_NETNSID 10 s32\n  attr IFA_PROTO 11 u8 enum=ifa-proto\n";

/// The text of `tables/rt_addr.table`.
pub(crate) fn text() -> &'static [u8]
    ensures { Begins result.now (heading_of table.RtAddr) }
{
    TEXT
}
