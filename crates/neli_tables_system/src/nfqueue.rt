//! The text of `tables/nfqueue.table`. Written by `tables/into-crates`.

ghost use Rattle.neli_tables_system.specs.Tables.{Begins, heading_of};
ghost use Rattle.neli_tables_system.specs.declared.table.SystemTable.TheVariants as table;

/// The text.
static TEXT: &[u8] = b"\
    # Written by hand from the headers.\n\nfamily nfqueue 12\n\nmessage NFQNL_MSG_PACKET 768 nest=\
    packet after=nfgenmsg\nmessage NFQNL_MSG_VERDICT 769 nest=packet after=nfgenmsg\nmessage NFQNL\
    _MSG_CONFIG 770 nest=config after=nfgenmsg\nmessage NFQNL_MSG_VERDICT_BATCH 771 nest=packet af\
    ter=nfgenmsg\n\nflags config-flags prefix=NFQA_CFG_F_\n  value fail-open 0x1\n  value conntrac\
    k 0x2\n  value gso 0x4\n  value uid-gid 0x8\n  value secctx 0x10\n\nstruct nfgenmsg 4\n  fiel\
    d nfgen_family 0..1 u8\n  field version 1..2 u8\n  field res_id 2..4 be16\n\nstruct nfqnl_msg_\
    packet_hdr 7\n  field packet_id 0..4 be32\n  field hw_protocol 4..6 be16\n  field hook 6..7 u\
    8\n\nstruct nfqnl_msg_packet_hw 12\n  field hw_addrlen 0..2 be16\n  field hw_addr 4..12 hardwa\
    re\n\nstruct nfqnl_msg_packet_timestamp 16\n  field sec 0..8 be64\n  field usec 8..16 be64\n\n\
    struct nfqnl_msg_verdict_hdr 8\n  field verdict 0..4 be32\n  field id 4..8 be32\n\nstruct nfqn\
    l_msg_config_cmd 4\n  field command 0..1 u8\n  field pf 2..4 be16\n\nstruct nfqnl_msg_config_p\
    arams 5\n  field copy_range 0..4 be32\n  field copy_mode 4..5 u8\n\nset packet\n  attr NFQA_PA\
    CKET_HDR 1 struct=nfqnl_msg_packet_hdr\n  attr NFQA_VERDICT_HDR 2 struct=nfqnl_msg_verdict_hd\
    r\n  attr NFQA_MARK 3 be32\n  attr NFQA_TIMESTAMP 4 struct=nfqnl_msg_packet_timestamp\n  attr \
    NFQA_IFINDEX_INDEV 5 be32\n  attr NFQA_IFINDEX_OUTDEV 6 be32\n  attr NFQA_IFINDEX_PHYSINDEV 7 \
    be32\n  attr NFQA_IFINDEX_PHYSOUTDEV 8 be32\n  attr NFQA_HWADDR 9 struct=nfqnl_msg_packet_h\
    w\n  attr NFQA_PAYLOAD 10 bytes\n  attr NFQA_CT 11 bytes\n  attr NFQA_CT_INFO 12 be32\n  attr \
    NFQA_CAP_LEN 13 be32\n  attr NFQA_SKB_INFO 14 be32\n  attr NFQA_EXP 15 bytes\n  attr NFQA_UID \
    16 be32\n  attr NFQA_GID 17 be32\n  attr NFQA_SECCTX 18 text\n  attr NFQA_VLAN 19 nest=vla\
    n\n  attr NFQA_L2HDR 20 bytes\n  attr NFQA_PRIORITY 21 be32\n  attr NFQA_CGROUP_CLASSID 22 be3\
    2\n\nset vlan\n  attr NFQA_VLAN_PROTO 1 be16\n  attr NFQA_VLAN_TCI 2 be16\n\nset config\n  att\
    r NFQA_CFG_CMD 1 struct=nfqnl_msg_config_cmd\n  attr NFQA_CFG_PARAMS 2 struct=nfqnl_msg_config\
    _params\n  attr NFQA_CFG_QUEUE_MAXLEN 3 be32\n  attr NFQA_CFG_MASK 4 be32 flags=config-flag\
    s\n  attr NFQA_CFG_FLAGS 5 be32 flags=config-flags\n";

/// The text of `tables/nfqueue.table`.
pub(crate) fn text() -> &'static [u8]
    ensures { Begins result.now (heading_of table.Nfqueue) }
{
    TEXT
}
