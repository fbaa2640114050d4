//! The text of `tables/ipset.table`. Written by `tables/into-crates`.

ghost use Rattle.neli_tables_system.specs.Tables.{Begins, heading_of};
ghost use Rattle.neli_tables_system.specs.declared.table.SystemTable.TheVariants as table;

/// The text.
static TEXT: &[u8] = b"\
    # Sets of addresses (linux/netfilter/ipset/ip_set.h). Written by hand from the headers.\n\nfam\
    ily ipset 12\n\nmessage IPSET_CMD_PROTOCOL 1537 nest=set after=nfgenmsg\nmessage IPSET_CMD_CRE\
    ATE 1538 nest=set after=nfgenmsg\nmessage IPSET_CMD_DESTROY 1539 nest=set after=nfgenmsg\nmess\
    age IPSET_CMD_FLUSH 1540 nest=set after=nfgenmsg\nmessage IPSET_CMD_RENAME 1541 nest=rename af\
    ter=nfgenmsg\nmessage IPSET_CMD_SWAP 1542 nest=rename after=nfgenmsg\nmessage IPSET_CMD_LIST 1\
    543 nest=set after=nfgenmsg\nmessage IPSET_CMD_SAVE 1544 nest=set after=nfgenmsg\nmessage IPSE\
    T_CMD_ADD 1545 nest=change after=nfgenmsg\nmessage IPSET_CMD_DEL 1546 nest=change after=nfgenm\
    sg\nmessage IPSET_CMD_TEST 1547 nest=change after=nfgenmsg\nmessage IPSET_CMD_HEADER 1548 nest\
    =set after=nfgenmsg\nmessage IPSET_CMD_TYPE 1549 nest=set after=nfgenmsg\nmessage IPSET_CMD_GE\
    T_BYNAME 1550 nest=set after=nfgenmsg\nmessage IPSET_CMD_GET_BYINDEX 1551 nest=set after=nfgen\
    msg\n\nflags command-flags prefix=IPSET_FLAG_\n  value exist 0x1\n  value list-setname 0x2\n  \
    value list-header 0x4\n  value skip-counter-update 0x8\n  value skip-subcounter-update 0x1\
    0\n  value match-counters 0x20\n  value return-nomatch 0x80\n  value map-skbmark 0x100\n  valu\
    e map-skbprio 0x200\n  value map-skbqueue 0x400\n\nflags flags prefix=IPSET_FLAG_\n  value bef\
    ore 0x1\n  value physdev 0x2\n  value nomatch 0x4\n  value with-counters 0x8\n  value with-com\
    ment 0x10\n  value with-forceadd 0x20\n  value with-skbinfo 0x40\n  value iface-wildcard 0x8\
    0\n\nstruct nfgenmsg 4\n  field nfgen_family 0..1 u8\n  field version 1..2 u8\n  field res_id \
    2..4 be16\n\nset set\n  attr IPSET_ATTR_PROTOCOL 1 u8\n  attr IPSET_ATTR_SETNAME 2 text length\
    =0..31\n  attr IPSET_ATTR_TYPENAME 3 text length=0..31\n  attr IPSET_ATTR_REVISION 4 u8\n  att\
    r IPSET_ATTR_FAMILY 5 u8\n  attr IPSET_ATTR_FLAGS 6 be32 flags=command-flags\n  attr IPSET_ATT\
    R_DATA 7 nest=properties\n  attr IPSET_ATTR_ADT 8 nest=elements\n  attr IPSET_ATTR_LINENO 9 u3\
    2\n  attr IPSET_ATTR_PROTOCOL_MIN 10 u8\n  attr IPSET_ATTR_INDEX 11 be16\n\nset rename\n  att\
    r IPSET_ATTR_PROTOCOL 1 u8\n  attr IPSET_ATTR_SETNAME 2 text length=0..31\n  attr IPSET_ATTR_S\
    ETNAME2 3 text length=0..31\n\nset change\n  attr IPSET_ATTR_PROTOCOL 1 u8\n  attr IPSET_ATTR_\
    SETNAME 2 text length=0..31\n  attr IPSET_ATTR_FLAGS 6 be32 flags=command-flags\n  attr IPSET_\
    ATTR_DATA 7 nest=element\n  attr IPSET_ATTR_ADT 8 nest=elements\n  attr IPSET_ATTR_LINENO 9 u3\
    2\n\nset elements\n  each element nest=element\n\nset properties\n  attr IPSET_ATTR_IP 1 nest=\
    address\n  attr IPSET_ATTR_IP_TO 2 nest=address\n  attr IPSET_ATTR_CIDR 3 u8\n  attr IPSET_ATT\
    R_PORT 4 be16\n  attr IPSET_ATTR_PORT_TO 5 be16\n  attr IPSET_ATTR_TIMEOUT 6 be32\n  attr IPSE\
    T_ATTR_PROTO 7 u8\n  attr IPSET_ATTR_CADT_FLAGS 8 be32 flags=flags\n  attr IPSET_ATTR_CADT_LIN\
    ENO 9 u32\n  attr IPSET_ATTR_MARK 10 be32\n  attr IPSET_ATTR_MARKMASK 11 be32\n  attr IPSET_AT\
    TR_BITMASK 12 nest=address\n  attr IPSET_ATTR_INITVAL 17 be32\n  attr IPSET_ATTR_HASHSIZE 18 b\
    e32\n  attr IPSET_ATTR_MAXELEM 19 be32\n  attr IPSET_ATTR_NETMASK 20 u8\n  attr IPSET_ATTR_BUC\
    KETSIZE 21 u8\n  attr IPSET_ATTR_RESIZE 22 u8\n  attr IPSET_ATTR_SIZE 23 be32\n  attr IPSET_AT\
    TR_ELEMENTS 24 be32\n  attr IPSET_ATTR_REFERENCES 25 be32\n  attr IPSET_ATTR_MEMSIZE 26 be3\
    2\n\nset element\n  attr IPSET_ATTR_IP 1 nest=address\n  attr IPSET_ATTR_IP_TO 2 nest=addres\
    s\n  attr IPSET_ATTR_CIDR 3 u8\n  attr IPSET_ATTR_PORT 4 be16\n  attr IPSET_ATTR_PORT_TO 5 be1\
    6\n  attr IPSET_ATTR_TIMEOUT 6 be32\n  attr IPSET_ATTR_PROTO 7 u8\n  attr IPSET_ATTR_CADT_FLAG\
    S 8 be32 flags=flags\n  attr IPSET_ATTR_CADT_LINENO 9 u32\n  attr IPSET_ATTR_MARK 10 be32\n  a\
    ttr IPSET_ATTR_MARKMASK 11 be32\n  attr IPSET_ATTR_ETHER 17 hardware\n  attr IPSET_ATTR_NAME 1\
    8 text length=0..31\n  attr IPSET_ATTR_NAMEREF 19 text length=0..31\n  attr IPSET_ATTR_IP2 20 \
    nest=address\n  attr IPSET_ATTR_CIDR2 21 u8\n  attr IPSET_ATTR_IP2_TO 22 nest=address\n  attr \
    IPSET_ATTR_IFACE 23 text length=0..15\n  attr IPSET_ATTR_BYTES 24 be64\n  attr IPSET_ATTR_PACK\
    ETS 25 be64\n  attr IPSET_ATTR_COMMENT 26 text length=0..255\n  attr IPSET_ATTR_SKBMARK 27 be6\
    4\n  attr IPSET_ATTR_SKBPRIO 28 be32\n  attr IPSET_ATTR_SKBQUEUE 29 be16\n  attr IPSET_ATTR_PA\
    D 30 pad\n\nset address\n  attr IPSET_ATTR_IPADDR_IPV4 1 ipv4\n  attr IPSET_ATTR_IPADDR_IPV6 \
    2 ipv6\n";

/// The text of `tables/ipset.table`.
pub(crate) fn text() -> &'static [u8]
    ensures { Begins result.now (heading_of table.Ipset) }
{
    TEXT
}
