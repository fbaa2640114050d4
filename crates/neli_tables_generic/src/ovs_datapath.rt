//! The text of `tables/ovs_datapath.table`. Written by `tables/into-crates`.

ghost use Rattle.neli_tables_generic.specs.Tables.{Begins, heading_of};
ghost use Rattle.neli_tables_generic.specs.declared.table.GenericTable.TheVariants as table;

/// The text.
static TEXT: &[u8] = b"\
    # Written by from-specs from the specification ovs_datapath.yaml of Linux 6.12.\n\nfamily ovs_\
    datapath 16 version=2\n\ngroup ovs_datapath\n\nmessage OVS_DP_CMD_NEW 1 nest=datapath after=ov\
    s_header\nmessage OVS_DP_CMD_DEL 2 nest=datapath after=ovs_header\nmessage OVS_DP_CMD_GET 3 ne\
    st=datapath after=ovs_header\n\nflags user-features prefix=OVS_DP_F_\n  value unaligned 0x\
    1\n  value vport-pids 0x2\n  value tc-recirc-sharing 0x4\n  value dispatch-upcall-per-cpu 0x\
    8\n\nstruct ovs_header 4\n  field dp_ifindex 0..4 u32\n\nstruct datapath_stats 32\n  field n_h\
    it 0..8 u64\n  field n_missed 8..16 u64\n  field n_lost 16..24 u64\n  field n_flows 24..32 u6\
    4\n\nstruct megaflow_stats 32\n  field n_mask_hit 0..8 u64\n  field n_masks 8..12 u32\n  fiel\
    d padding 12..16 u32\n  field n_cache_hit 16..24 u64\n  field pad1 24..32 u64\n\nset datapat\
    h\n  attr OVS_DP_ATTR_NAME 1 text\n  attr OVS_DP_ATTR_UPCALL_PID 2 u32\n  attr OVS_DP_ATTR_STA\
    TS 3 struct=datapath_stats\n  attr OVS_DP_ATTR_MEGAFLOW_STATS 4 struct=megaflow_stats\n  attr \
    OVS_DP_ATTR_USER_FEATURES 5 u32 flags=user-features\n  attr OVS_DP_ATTR_PAD 6 pad\n  attr OVS_\
    DP_ATTR_MASKS_CACHE_SIZE 7 u32\n  attr OVS_DP_ATTR_PER_CPU_PIDS 8 u32 array\n  attr OVS_DP_ATT\
    R_IFINDEX 9 u32\n";

/// The text of `tables/ovs_datapath.table`.
pub(crate) fn text() -> &'static [u8]
    ensures { Begins result.now (heading_of table.OvsDatapath) }
{
    TEXT
}
