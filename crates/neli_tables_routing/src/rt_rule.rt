//! The text of `tables/rt_rule.table`. Written by `tables/into-crates`.

ghost use Rattle.neli_tables_routing.specs.Tables.{Begins, heading_of};
ghost use Rattle.neli_tables_routing.specs.declared.table.RoutingTable.TheVariants as table;

/// The text.
static TEXT: &[u8] = b"\
    # Written by hand from the headers.\n\nfamily rt-rule 0\n\ngroup RTNLGRP_IPV4_RULE 8\ngroup RT\
    NLGRP_IPV6_RULE 19\n\nmessage RTM_NEWRULE 32 nest=rule after=fib_rule_hdr\nmessage RTM_DELRUL\
    E 33 nest=rule after=fib_rule_hdr\nmessage RTM_GETRULE 34 nest=rule after=fib_rule_hdr\n\nenu\
    m table prefix=RT_TABLE_\n  value unspec 0\n  value compat 252\n  value default 253\n  value m\
    ain 254\n  value local 255\n\nenum protocol prefix=RTPROT_\n  value unspec 0\n  value redirec\
    t 1\n  value kernel 2\n  value boot 3\n  value static 4\n  value gated 8\n  value ra 9\n  valu\
    e mrt 10\n  value zebra 11\n  value bird 12\n  value dnrouted 13\n  value xorp 14\n  value nt\
    k 15\n  value dhcp 16\n  value mrouted 17\n  value keepalived 18\n  value babel 42\n  value op\
    enr 99\n  value bgp 186\n  value isis 187\n  value ospf 188\n  value rip 189\n  value eigrp 19\
    2\n\nenum action prefix=FR_ACT_\n  value unspec 0\n  value to-tbl 1\n  value goto 2\n  value n\
    op 3\n  value res3 4\n  value res4 5\n  value blackhole 6\n  value unreachable 7\n  value proh\
    ibit 8\n\nflags flags prefix=FIB_RULE_\n  value permanent 0x1\n  value invert 0x2\n  value unr\
    esolved 0x4\n  value iif-detached 0x8\n  value oif-detached 0x10\n  value find-saddr 0x1000\
    0\n\nstruct fib_rule_uid_range 8\n  field start 0..4 u32\n  field end 4..8 u32\n\nstruct fib_r\
    ule_port_range 4\n  field start 0..2 u16\n  field end 2..4 u16\n\nstruct fib_rule_hdr 12\n  fi\
    eld family 0..1 u8\n  field dst_len 1..2 u8\n  field src_len 2..3 u8\n  field tos 3..4 u8\n  f\
    ield table 4..5 u8 enum=table\n  field res1 5..6 u8\n  field res2 6..7 u8\n  field action 7..\
    8 u8 enum=action\n  field flags 8..12 u32 flags=flags\n\nset rule strict-from=25\n  attr FRA_D\
    ST 1 address\n  attr FRA_SRC 2 address\n  attr FRA_IIFNAME 3 text length=1..15\n  attr FRA_GOT\
    O 4 u32\n  attr FRA_UNUSED2 5 pad\n  attr FRA_PRIORITY 6 u32\n  attr FRA_UNUSED3 7 pad\n  att\
    r FRA_UNUSED4 8 pad\n  attr FRA_UNUSED5 9 pad\n  attr FRA_FWMARK 10 u32\n  attr FRA_FLOW 11 u3\
    2\n  attr FRA_TUN_ID 12 be64\n  attr FRA_SUPPRESS_IFGROUP 13 u32\n  attr FRA_SUPPRESS_PREFIXLE\
    N 14 u32\n  attr FRA_TABLE 15 u32 enum=table\n  attr FRA_FWMASK 16 u32\n  attr FRA_OIFNAME 17 \
    text length=1..15\n  attr FRA_PAD 18 pad\n  attr FRA_L3MDEV 19 u8\n  attr FRA_UID_RANGE 20 str\
    uct=fib_rule_uid_range length=8..65531\n  attr FRA_PROTOCOL 21 u8 enum=protocol\n  attr FRA_IP\
    _PROTO 22 u8\n  attr FRA_SPORT_RANGE 23 struct=fib_rule_port_range length=4..65531\n  attr FRA\
    _DPORT_RANGE 24 struct=fib_rule_port_range length=4..65531\n  attr FRA_DSCP 25 u8\n  attr FRA_\
    FLOWLABEL 26 be32\n  attr FRA_FLOWLABEL_MASK 27 be32\n  attr FRA_SPORT_MASK 28 u16\n  attr FRA\
    _DPORT_MASK 29 u16\n  attr FRA_DSCP_MASK 30 u8\n";

/// The text of `tables/rt_rule.table`.
pub(crate) fn text() -> &'static [u8]
    ensures { Begins result.now (heading_of table.RtRule) }
{
    TEXT
}
