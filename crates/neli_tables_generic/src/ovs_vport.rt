//! The text of `tables/ovs_vport.table`. Written by `tables/into-crates`.

ghost use Rattle.neli_tables_generic.specs.Tables.{Begins, heading_of};
ghost use Rattle.neli_tables_generic.specs.declared.table.GenericTable.TheVariants as table;

/// The text.
static TEXT: &[u8] = b"\
    # Written by from-specs from the specification ovs_vport.yaml of Linux 6.12 and own/ovs_vport.\
    table.\n\nfamily ovs_vport 16 version=2\n\ngroup ovs_vport\n\nmessage OVS_VPORT_CMD_NEW 1 nest\
    =vport after=ovs_header\nmessage OVS_VPORT_CMD_DEL 2 nest=vport after=ovs_header\nmessage OVS_\
    VPORT_CMD_GET 3 nest=vport after=ovs_header\n\nenum vport-type prefix=OVS_VPORT_TYPE_\n  valu\
    e unspec 0\n  value netdev 1\n  value internal 2\n  value gre 3\n  value vxlan 4\n  value gene\
    ve 5\n\nstruct ovs_header 4\n  field dp_ifindex 0..4 u32\n\nstruct vport_stats 64\n  field rx_\
    packets 0..8 u64\n  field tx_packets 8..16 u64\n  field rx_bytes 16..24 u64\n  field tx_bytes \
    24..32 u64\n  field rx_errors 32..40 u64\n  field tx_errors 40..48 u64\n  field rx_dropped 48.\
    .56 u64\n  field tx_dropped 56..64 u64\n\nset vport-options\n  attr OVS_TUNNEL_ATTR_DST_PORT \
    1 u16\n  attr OVS_TUNNEL_ATTR_EXTENSION 2 nest=vxlan-extension\n\nset upcall-stats\n  attr OVS\
    _VPORT_UPCALL_ATTR_SUCCESS 0 u64\n  attr OVS_VPORT_UPCALL_ATTR_FAIL 1 u64\n\nset vport\n  att\
    r OVS_VPORT_ATTR_UNSPEC 0 pad\n  attr OVS_VPORT_ATTR_PORT_NO 1 u32\n  attr OVS_VPORT_ATTR_TYP\
    E 2 u32 enum=vport-type\n  attr OVS_VPORT_ATTR_NAME 3 text\n  attr OVS_VPORT_ATTR_OPTIONS 4 ne\
    st=vport-options\n  attr OVS_VPORT_ATTR_UPCALL_PID 5 u32 array\n  attr OVS_VPORT_ATTR_STATS 6 \
    struct=vport_stats\n  attr OVS_VPORT_ATTR_PAD 7 pad\n  attr OVS_VPORT_ATTR_IFINDEX 8 u32\n  at\
    tr OVS_VPORT_ATTR_NETNSID 9 u32\n  attr OVS_VPORT_ATTR_UPCALL_STATS 10 nest=upcall-stats\n\nse\
    t vxlan-extension\n  attr OVS_VXLAN_EXT_GBP 1 flag\n";

/// The text of `tables/ovs_vport.table`.
pub(crate) fn text() -> &'static [u8]
    ensures { Begins result.now (heading_of table.OvsVport) }
{
    TEXT
}
