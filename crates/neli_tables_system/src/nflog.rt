//! The text of `tables/nflog.table`. Written by `tables/into-crates`.

ghost use Rattle.neli_tables_system.specs.Tables.{Begins, heading_of};
ghost use Rattle.neli_tables_system.specs.declared.table.SystemTable.TheVariants as table;

/// The text.
static TEXT: &[u8] = b"\
    # Written by hand from the headers.\n\nfamily nflog 12\n\nmessage NFULNL_MSG_PACKET 1024 nest=\
    packet after=nfgenmsg\nmessage NFULNL_MSG_CONFIG 1025 nest=config after=nfgenmsg\n\nenum comma\
    nd prefix=NFULNL_CFG_CMD_\n  value none 0\n  value bind 1\n  value unbind 2\n  value pf-bind \
    3\n  value pf-unbind 4\n\nflags config-flags prefix=NFULNL_CFG_F_\n  value seq 0x1\n  value se\
    q-global 0x2\n  value conntrack 0x4\n\nstruct nfgenmsg 4\n  field nfgen_family 0..1 u8\n  fiel\
    d version 1..2 u8\n  field res_id 2..4 be16\n\nstruct nfulnl_msg_packet_hdr 4\n  field hw_prot\
    ocol 0..2 be16\n  field hook 2..3 u8\n\nstruct nfulnl_msg_packet_hw 12\n  field hw_addrlen 0..\
    2 be16\n  field hw_addr 4..12 hardware\n\nstruct nfulnl_msg_packet_timestamp 16\n  field sec 0\
    ..8 be64\n  field usec 8..16 be64\n\nstruct nfulnl_msg_config_mode 6\n  field copy_range 0..4 \
    be32\n  field copy_mode 4..5 u8\n\nset packet\n  attr NFULA_PACKET_HDR 1 struct=nfulnl_msg_pac\
    ket_hdr\n  attr NFULA_MARK 2 be32\n  attr NFULA_TIMESTAMP 3 struct=nfulnl_msg_packet_timestam\
    p\n  attr NFULA_IFINDEX_INDEV 4 be32\n  attr NFULA_IFINDEX_OUTDEV 5 be32\n  attr NFULA_IFINDEX\
    _PHYSINDEV 6 be32\n  attr NFULA_IFINDEX_PHYSOUTDEV 7 be32\n  attr NFULA_HWADDR 8 struct=nfulnl\
    _msg_packet_hw\n  attr NFULA_PAYLOAD 9 bytes\n  attr NFULA_PREFIX 10 text\n  attr NFULA_UID 1\
    1 be32\n  attr NFULA_SEQ 12 be32\n  attr NFULA_SEQ_GLOBAL 13 be32\n  attr NFULA_GID 14 be3\
    2\n  attr NFULA_HWTYPE 15 be16\n  attr NFULA_HWHEADER 16 bytes\n  attr NFULA_HWLEN 17 be16\n  \
    attr NFULA_CT 18 bytes\n  attr NFULA_CT_INFO 19 be32\n  attr NFULA_VLAN 20 nest=vlan\n  attr N\
    FULA_L2HDR 21 bytes\n\nset vlan\n  attr NFULA_VLAN_PROTO 1 be16\n  attr NFULA_VLAN_TCI 2 be1\
    6\n\nset config\n  attr NFULA_CFG_CMD 1 u8 enum=command\n  attr NFULA_CFG_MODE 2 struct=nfulnl\
    _msg_config_mode\n  attr NFULA_CFG_NLBUFSIZ 3 be32\n  attr NFULA_CFG_TIMEOUT 4 be32\n  attr NF\
    ULA_CFG_QTHRESH 5 be32\n  attr NFULA_CFG_FLAGS 6 be16 flags=config-flags\n";

/// The text of `tables/nflog.table`.
pub(crate) fn text() -> &'static [u8]
    ensures { Begins result.now (heading_of table.Nflog) }
{
    TEXT
}
