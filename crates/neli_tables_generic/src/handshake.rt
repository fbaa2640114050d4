//! The text of `tables/handshake.table`. Written by `tables/into-crates`.

ghost use Rattle.neli_tables_generic.specs.Tables.{Begins, heading_of};
ghost use Rattle.neli_tables_generic.specs.declared.table.GenericTable.TheVariants as table;

/// The text.
static TEXT: &[u8] = b"\
    # Written by from-specs from the specification handshake.yaml of Linux 6.12.\n\nfamily handsha\
    ke 16 version=1\n\ngroup none\ngroup tlshd\n\nmessage HANDSHAKE_CMD_READY 1 reply nest=accep\
    t\nmessage HANDSHAKE_CMD_ACCEPT 2 nest=accept strict\nmessage HANDSHAKE_CMD_DONE 3 nest=done s\
    trict\n\nenum handler-class prefix=HANDSHAKE_HANDLER_CLASS_\n  value none 0\n  value tlshd \
    1\n  value max 2\n\nenum msg-type prefix=HANDSHAKE_MSG_TYPE_\n  value unspec 0\n  value client\
    hello 1\n  value serverhello 2\n\nenum auth prefix=HANDSHAKE_AUTH_\n  value unspec 0\n  value \
    unauth 1\n  value psk 2\n  value x509 3\n\nset x509\n  attr HANDSHAKE_A_X509_CERT 1 s32\n  att\
    r HANDSHAKE_A_X509_PRIVKEY 2 s32\n\nset accept\n  attr HANDSHAKE_A_ACCEPT_SOCKFD 1 s32\n  att\
    r HANDSHAKE_A_ACCEPT_HANDLER_CLASS 2 u32 enum=handler-class\n  attr HANDSHAKE_A_ACCEPT_MESSAGE\
    _TYPE 3 u32 enum=msg-type\n  attr HANDSHAKE_A_ACCEPT_TIMEOUT 4 u32\n  attr HANDSHAKE_A_ACCEPT_\
    AUTH_MODE 5 u32 enum=auth\n  attr HANDSHAKE_A_ACCEPT_PEER_IDENTITY 6 u32 multi\n  attr HANDSHA\
    KE_A_ACCEPT_CERTIFICATE 7 nest=x509 multi\n  attr HANDSHAKE_A_ACCEPT_PEERNAME 8 text\n\nset do\
    ne\n  attr HANDSHAKE_A_DONE_STATUS 1 u32 range=0..4095\n  attr HANDSHAKE_A_DONE_SOCKFD 2 s3\
    2\n  attr HANDSHAKE_A_DONE_REMOTE_AUTH 3 u32 multi\n";

/// The text of `tables/handshake.table`.
pub(crate) fn text() -> &'static [u8]
    ensures { Begins result.now (heading_of table.Handshake) }
{
    TEXT
}
