//! The text of `tables/macsec.table`. Written by `tables/into-crates`.

ghost use Rattle.neli_tables_generic.specs.Tables.{Begins, heading_of};
ghost use Rattle.neli_tables_generic.specs.declared.table.GenericTable.TheVariants as table;

/// The text.
static TEXT: &[u8] = b"\
    # Written by hand from the headers.\n\nfamily macsec 16 version=1\n\nmessage MACSEC_CMD_GET_TX\
    SC 0 nest=macsec\nmessage MACSEC_CMD_ADD_RXSC 1 nest=macsec\nmessage MACSEC_CMD_DEL_RXSC 2 nes\
    t=macsec\nmessage MACSEC_CMD_UPD_RXSC 3 nest=macsec\nmessage MACSEC_CMD_ADD_TXSA 4 nest=macse\
    c\nmessage MACSEC_CMD_DEL_TXSA 5 nest=macsec\nmessage MACSEC_CMD_UPD_TXSA 6 nest=macsec\nmessa\
    ge MACSEC_CMD_ADD_RXSA 7 nest=macsec\nmessage MACSEC_CMD_DEL_RXSA 8 nest=macsec\nmessage MACSE\
    C_CMD_UPD_RXSA 9 nest=macsec\nmessage MACSEC_CMD_UPD_OFFLOAD 10 nest=macsec\n\nset macsec\n  a\
    ttr MACSEC_ATTR_IFINDEX 1 u32\n  attr MACSEC_ATTR_RXSC_CONFIG 2 nest=rxsc-config\n  attr MACSE\
    C_ATTR_SA_CONFIG 3 nest=sa\n  attr MACSEC_ATTR_SECY 4 nest=secy\n  attr MACSEC_ATTR_TXSA_LIST \
    5 nest=txsa-list\n  attr MACSEC_ATTR_RXSC_LIST 6 nest=rxsc-list\n  attr MACSEC_ATTR_TXSC_STAT\
    S 7 nest=txsc-stats\n  attr MACSEC_ATTR_SECY_STATS 8 nest=secy-stats\n  attr MACSEC_ATTR_OFFLO\
    AD 9 nest=offload\n\nset secy\n  attr MACSEC_SECY_ATTR_SCI 1 be64\n  attr MACSEC_SECY_ATTR_ENC\
    ODING_SA 2 u8\n  attr MACSEC_SECY_ATTR_WINDOW 3 u32\n  attr MACSEC_SECY_ATTR_CIPHER_SUITE 4 u6\
    4\n  attr MACSEC_SECY_ATTR_ICV_LEN 5 u8\n  attr MACSEC_SECY_ATTR_PROTECT 6 u8\n  attr MACSEC_S\
    ECY_ATTR_REPLAY 7 u8\n  attr MACSEC_SECY_ATTR_OPER 8 u8\n  attr MACSEC_SECY_ATTR_VALIDATE 9 u\
    8\n  attr MACSEC_SECY_ATTR_ENCRYPT 10 u8\n  attr MACSEC_SECY_ATTR_INC_SCI 11 u8\n  attr MACSEC\
    _SECY_ATTR_ES 12 u8\n  attr MACSEC_SECY_ATTR_SCB 13 u8\n  attr MACSEC_SECY_ATTR_PAD 14 pad\n\n\
    set rxsc-config\n  attr MACSEC_RXSC_ATTR_SCI 1 be64\n  attr MACSEC_RXSC_ATTR_ACTIVE 2 u8\n  at\
    tr MACSEC_RXSC_ATTR_SA_LIST 3 nest=sa-list\n  attr MACSEC_RXSC_ATTR_STATS 4 nest=rxsc-stat\
    s\n  attr MACSEC_RXSC_ATTR_PAD 5 pad\n\nset sa\n  attr MACSEC_SA_ATTR_AN 1 u8\n  attr MACSEC_S\
    A_ATTR_ACTIVE 2 u8\n  attr MACSEC_SA_ATTR_PN 3 uint\n  attr MACSEC_SA_ATTR_KEY 4 bytes\n  att\
    r MACSEC_SA_ATTR_KEYID 5 bytes\n  attr MACSEC_SA_ATTR_STATS 6 nest=sa-stats\n  attr MACSEC_SA_\
    ATTR_PAD 7 pad\n  attr MACSEC_SA_ATTR_SSCI 8 be32\n  attr MACSEC_SA_ATTR_SALT 9 bytes\n\nset s\
    a-stats\n  attr MACSEC_SA_STATS_ATTR_IN_PKTS_OK 1 u32\n  attr MACSEC_SA_STATS_ATTR_IN_PKTS_INV\
    ALID 2 u32\n  attr MACSEC_SA_STATS_ATTR_IN_PKTS_NOT_VALID 3 u32\n  attr MACSEC_SA_STATS_ATTR_I\
    N_PKTS_NOT_USING_SA 4 u32\n  attr MACSEC_SA_STATS_ATTR_IN_PKTS_UNUSED_SA 5 u32\n  attr MACSEC_\
    SA_STATS_ATTR_OUT_PKTS_PROTECTED 6 u32\n  attr MACSEC_SA_STATS_ATTR_OUT_PKTS_ENCRYPTED 7 u3\
    2\n\nset rxsc-stats\n  attr MACSEC_RXSC_STATS_ATTR_IN_OCTETS_VALIDATED 1 u64\n  attr MACSEC_RX\
    SC_STATS_ATTR_IN_OCTETS_DECRYPTED 2 u64\n  attr MACSEC_RXSC_STATS_ATTR_IN_PKTS_UNCHECKED 3 u6\
    4\n  attr MACSEC_RXSC_STATS_ATTR_IN_PKTS_DELAYED 4 u64\n  attr MACSEC_RXSC_STATS_ATTR_IN_PKTS_\
    OK 5 u64\n  attr MACSEC_RXSC_STATS_ATTR_IN_PKTS_INVALID 6 u64\n  attr MACSEC_RXSC_STATS_ATTR_I\
    N_PKTS_LATE 7 u64\n  attr MACSEC_RXSC_STATS_ATTR_IN_PKTS_NOT_VALID 8 u64\n  attr MACSEC_RXSC_S\
    TATS_ATTR_IN_PKTS_NOT_USING_SA 9 u64\n  attr MACSEC_RXSC_STATS_ATTR_IN_PKTS_UNUSED_SA 10 u6\
    4\n  attr MACSEC_RXSC_STATS_ATTR_PAD 11 pad\n\nset txsc-stats\n  attr MACSEC_TXSC_STATS_ATTR_O\
    UT_PKTS_PROTECTED 1 u64\n  attr MACSEC_TXSC_STATS_ATTR_OUT_PKTS_ENCRYPTED 2 u64\n  attr MACSEC\
    _TXSC_STATS_ATTR_OUT_OCTETS_PROTECTED 3 u64\n  attr MACSEC_TXSC_STATS_ATTR_OUT_OCTETS_ENCRYPTE\
    D 4 u64\n  attr MACSEC_TXSC_STATS_ATTR_PAD 5 pad\n\nset secy-stats\n  attr MACSEC_SECY_STATS_A\
    TTR_OUT_PKTS_UNTAGGED 1 u64\n  attr MACSEC_SECY_STATS_ATTR_IN_PKTS_UNTAGGED 2 u64\n  attr MACS\
    EC_SECY_STATS_ATTR_OUT_PKTS_TOO_LONG 3 u64\n  attr MACSEC_SECY_STATS_ATTR_IN_PKTS_NO_TAG 4 u6\
    4\n  attr MACSEC_SECY_STATS_ATTR_IN_PKTS_BAD_TAG 5 u64\n  attr MACSEC_SECY_STATS_ATTR_IN_PKTS_\
    UNKNOWN_SCI 6 u64\n  attr MACSEC_SECY_STATS_ATTR_IN_PKTS_NO_SCI 7 u64\n  attr MACSEC_SECY_STAT\
    S_ATTR_IN_PKTS_OVERRUN 8 u64\n  attr MACSEC_SECY_STATS_ATTR_PAD 9 pad\n\nset offload\n  attr M\
    ACSEC_OFFLOAD_ATTR_TYPE 1 u8\n  attr MACSEC_OFFLOAD_ATTR_PAD 2 pad\n\nset txsa-list\n  each as\
    sociation nest=sa\n\nset sa-list\n  each association nest=sa\n\nset rxsc-list\n  each channel \
    nest=rxsc-config\n";

/// The text of `tables/macsec.table`.
pub(crate) fn text() -> &'static [u8]
    ensures { Begins result.now (heading_of table.Macsec) }
{
    TEXT
}
