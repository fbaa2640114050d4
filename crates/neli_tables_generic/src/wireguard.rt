//! The text of `tables/wireguard.table`. Written by `tables/into-crates`.

ghost use Rattle.neli_tables_generic.specs.Tables.{Begins, heading_of};
ghost use Rattle.neli_tables_generic.specs.declared.table.GenericTable.TheVariants as table;

/// The text.
static TEXT: &[u8] = b"\
    # Written by hand from the headers.\n\nfamily wireguard 16 version=1\n\nmessage WG_CMD_GET_DEV\
    ICE 0 nest=device strict\nmessage WG_CMD_SET_DEVICE 1 request nest=device strict\n\nflags devi\
    ce-flags prefix=WGDEVICE_F_\n  value replace-peers 0x1\n\nflags peer-flags prefix=WGPEER_F\
    _\n  value remove-me 0x1\n  value replace-allowedips 0x2\n  value update-only 0x4\n\nstruct ti\
    mespec 16\n  field tv_sec 0..8 s64\n  field tv_nsec 8..16 s64\n\nset device\n  attr WGDEVICE_A\
    _IFINDEX 1 u32\n  attr WGDEVICE_A_IFNAME 2 ztext length=1..15\n  attr WGDEVICE_A_PRIVATE_KEY \
    3 bytes length=32\n  attr WGDEVICE_A_PUBLIC_KEY 4 bytes length=32\n  attr WGDEVICE_A_FLAGS 5 u\
    32 flags=device-flags\n  attr WGDEVICE_A_LISTEN_PORT 6 u16\n  attr WGDEVICE_A_FWMARK 7 u32\n  \
    attr WGDEVICE_A_PEERS 8 nest=peers\n\nset peers\n  each peer nest=peer\n\nset peer\n  attr WGP\
    EER_A_PUBLIC_KEY 1 bytes length=32\n  attr WGPEER_A_PRESHARED_KEY 2 bytes length=32\n  attr WG\
    PEER_A_FLAGS 3 u32 flags=peer-flags\n  attr WGPEER_A_ENDPOINT 4 sockaddr\n  attr WGPEER_A_PERS\
    ISTENT_KEEPALIVE_INTERVAL 5 u16\n  attr WGPEER_A_LAST_HANDSHAKE_TIME 6 struct=timespec\n  att\
    r WGPEER_A_RX_BYTES 7 u64\n  attr WGPEER_A_TX_BYTES 8 u64\n  attr WGPEER_A_ALLOWEDIPS 9 nest=a\
    llowed-ips\n  attr WGPEER_A_PROTOCOL_VERSION 10 u32\n\nset allowed-ips\n  each address nest=al\
    lowed-ip\n\nset allowed-ip\n  attr WGALLOWEDIP_A_FAMILY 1 u16\n  attr WGALLOWEDIP_A_IPADDR 2 i\
    p\n  attr WGALLOWEDIP_A_CIDR_MASK 3 u8\n";

/// The text of `tables/wireguard.table`.
pub(crate) fn text() -> &'static [u8]
    ensures { Begins result.now (heading_of table.Wireguard) }
{
    TEXT
}
