//! The text of `tables/nlmsg.table`. Written by `tables/into-crates`.

ghost use Rattle.neli_tables_system.specs.Tables.{Begins, heading_of};
ghost use Rattle.neli_tables_system.specs.declared.table.SystemTable.TheVariants as table;

/// The text.
static TEXT: &[u8] = b"\
    # Written by hand from the headers.\n\nfamily nlmsg\n\nmessage NLMSG_ERROR 2 nest=extended-ack\
    nowledgement\nmessage NLMSG_DONE 3 nest=extended-acknowledgement\n\nenum attribute-type prefix\
    =NL_ATTR_TYPE_\n  value invalid 0\n  value flag 1\n  value u8 2\n  value u16 3\n  value u32 \
    4\n  value u64 5\n  value s8 6\n  value s16 7\n  value s32 8\n  value s64 9\n  value binary 1\
    0\n  value string 11\n  value nul-string 12\n  value nested 13\n  value nested-array 14\n  val\
    ue bitfield32 15\n  value sint 16\n  value uint 17\n\nset extended-acknowledgement\n  attr NLM\
    SGERR_ATTR_MSG 1 text\n  attr NLMSGERR_ATTR_OFFS 2 u32\n  attr NLMSGERR_ATTR_COOKIE 3 bytes le\
    ngth=0..20\n  attr NLMSGERR_ATTR_POLICY 4 nest=policy\n  attr NLMSGERR_ATTR_MISS_TYPE 5 u3\
    2\n  attr NLMSGERR_ATTR_MISS_NEST 6 u32\n\nset policy\n  attr NL_POLICY_TYPE_ATTR_TYPE 1 u32 e\
    num=attribute-type\n  attr NL_POLICY_TYPE_ATTR_MIN_VALUE_S 2 s64\n  attr NL_POLICY_TYPE_ATTR_M\
    AX_VALUE_S 3 s64\n  attr NL_POLICY_TYPE_ATTR_MIN_VALUE_U 4 u64\n  attr NL_POLICY_TYPE_ATTR_MAX\
    _VALUE_U 5 u64\n  attr NL_POLICY_TYPE_ATTR_MIN_LENGTH 6 u32\n  attr NL_POLICY_TYPE_ATTR_MAX_LE\
    NGTH 7 u32\n  attr NL_POLICY_TYPE_ATTR_POLICY_IDX 8 u32\n  attr NL_POLICY_TYPE_ATTR_POLICY_MAX\
    TYPE 9 u32\n  attr NL_POLICY_TYPE_ATTR_BITFIELD32_MASK 10 u32\n  attr NL_POLICY_TYPE_ATTR_PAD \
    11 pad\n  attr NL_POLICY_TYPE_ATTR_MASK 12 u64\n";

/// The text of `tables/nlmsg.table`.
pub(crate) fn text() -> &'static [u8]
    ensures { Begins result.now (heading_of table.Nlmsg) }
{
    TEXT
}
