//! The text of `tables/nfsd.table`. Written by `tables/into-crates`.

ghost use Rattle.neli_tables_generic.specs.Tables.{Begins, heading_of};
ghost use Rattle.neli_tables_generic.specs.declared.table.GenericTable.TheVariants as table;

/// The text.
static TEXT: &[u8] = b"\
    # Written by from-specs from the specification nfsd.yaml of Linux 6.12.\n\nfamily nfsd 16 vers\
    ion=1\n\nmessage NFSD_CMD_RPC_STATUS_GET 1 nest=rpc-status strict\nmessage NFSD_CMD_THREADS_SE\
    T 2 nest=server strict\nmessage NFSD_CMD_THREADS_GET 3 nest=server strict\nmessage NFSD_CMD_VE\
    RSION_SET 4 nest=server-proto strict\nmessage NFSD_CMD_VERSION_GET 5 nest=server-proto stric\
    t\nmessage NFSD_CMD_LISTENER_SET 6 nest=server-sock strict\nmessage NFSD_CMD_LISTENER_GET 7 ne\
    st=server-sock strict\nmessage NFSD_CMD_POOL_MODE_SET 8 nest=pool-mode strict\nmessage NFSD_CM\
    D_POOL_MODE_GET 9 nest=pool-mode strict\n\nset rpc-status\n  attr NFSD_A_RPC_STATUS_XID 1 be3\
    2\n  attr NFSD_A_RPC_STATUS_FLAGS 2 u32\n  attr NFSD_A_RPC_STATUS_PROG 3 u32\n  attr NFSD_A_RP\
    C_STATUS_VERSION 4 u8\n  attr NFSD_A_RPC_STATUS_PROC 5 u32\n  attr NFSD_A_RPC_STATUS_SERVICE_T\
    IME 6 s64\n  attr NFSD_A_RPC_STATUS_PAD 7 pad\n  attr NFSD_A_RPC_STATUS_SADDR4 8 ipv4\n  attr \
    NFSD_A_RPC_STATUS_DADDR4 9 ipv4\n  attr NFSD_A_RPC_STATUS_SADDR6 10 ip\n  attr NFSD_A_RPC_STAT\
    US_DADDR6 11 ip\n  attr NFSD_A_RPC_STATUS_SPORT 12 be16\n  attr NFSD_A_RPC_STATUS_DPORT 13 be1\
    6\n  attr NFSD_A_RPC_STATUS_COMPOUND_OPS 14 u32 multi\n\nset server\n  attr NFSD_A_SERVER_THRE\
    ADS 1 u32 multi\n  attr NFSD_A_SERVER_GRACETIME 2 u32\n  attr NFSD_A_SERVER_LEASETIME 3 u3\
    2\n  attr NFSD_A_SERVER_SCOPE 4 text\n\nset version\n  attr NFSD_A_VERSION_MAJOR 1 u32\n  att\
    r NFSD_A_VERSION_MINOR 2 u32\n  attr NFSD_A_VERSION_ENABLED 3 flag\n\nset server-proto\n  att\
    r NFSD_A_SERVER_PROTO_VERSION 1 nest=version multi\n\nset sock\n  attr NFSD_A_SOCK_ADDR 1 byte\
    s\n  attr NFSD_A_SOCK_TRANSPORT_NAME 2 text\n\nset server-sock\n  attr NFSD_A_SERVER_SOCK_ADD\
    R 1 nest=sock multi\n\nset pool-mode\n  attr NFSD_A_POOL_MODE_MODE 1 text\n  attr NFSD_A_POOL_\
    MODE_NPOOLS 2 u32\n";

/// The text of `tables/nfsd.table`.
pub(crate) fn text() -> &'static [u8]
    ensures { Begins result.now (heading_of table.Nfsd) }
{
    TEXT
}
