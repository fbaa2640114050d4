//! The text of `tables/nlctrl.table`. Written by `tables/into-crates`.

ghost use Rattle.neli_tables_generic.specs.Tables.{Begins, heading_of};
ghost use Rattle.neli_tables_generic.specs.declared.table.GenericTable.TheVariants as table;

/// The text.
static TEXT: &[u8] = b"\
    # Written by from-specs from the specification nlctrl.yaml of Linux 6.12 and own/nlctrl.table\
    .\n\nfamily nlctrl 16 version=1 id=16\n\nmessage CTRL_CMD_NEWFAMILY 1 reply nest=ctrl-attrs\nm\
    essage CTRL_CMD_GETFAMILY 3 request nest=ctrl-attrs\nmessage CTRL_CMD_GETPOLICY 10 nest=ctrl-a\
    ttrs strict\nmessage CTRL_CMD_DELFAMILY 2 reply nest=ctrl-attrs\nmessage CTRL_CMD_NEWMCAST_GR\
    P 7 reply nest=ctrl-attrs\nmessage CTRL_CMD_DELMCAST_GRP 8 reply nest=ctrl-attrs\n\nenum attr-\
    type prefix=NL_ATTR_TYPE_\n  value invalid 0\n  value flag 1\n  value u8 2\n  value u16 3\n  v\
    alue u32 4\n  value u64 5\n  value s8 6\n  value s16 7\n  value s32 8\n  value s64 9\n  value \
    binary 10\n  value string 11\n  value nul-string 12\n  value nested 13\n  value nested-array 1\
    4\n  value bitfield32 15\n  value sint 16\n  value uint 17\n\nflags op-flags prefix=GENL_\n  v\
    alue admin-perm 0x1\n  value cmd-cap-do 0x2\n  value cmd-cap-dump 0x4\n  value cmd-cap-haspol \
    0x8\n  value uns-admin-perm 0x10\n\nset ctrl-attrs\n  attr CTRL_ATTR_FAMILY_ID 1 u16\n  attr C\
    TRL_ATTR_FAMILY_NAME 2 ztext length=1..15\n  attr CTRL_ATTR_VERSION 3 u32\n  attr CTRL_ATTR_HD\
    RSIZE 4 u32\n  attr CTRL_ATTR_MAXATTR 5 u32\n  attr CTRL_ATTR_OPS 6 nest=ctrl-attrs.ops\n  att\
    r CTRL_ATTR_MCAST_GROUPS 7 nest=ctrl-attrs.mcast-groups\n  attr CTRL_ATTR_POLICY 8 nest=ctrl-a\
    ttrs.policy\n  attr CTRL_ATTR_OP_POLICY 9 nest=ctrl-attrs.op-policy\n  attr CTRL_ATTR_OP 10 u3\
    2\n\nset ctrl-attrs.ops\n  each index nest=op-attrs\n\nset ctrl-attrs.mcast-groups\n  each ind\
    ex nest=mcast-group-attrs\n\nset ctrl-attrs.policy.policy-id\n  each attr_id nest=policy-attr\
    s\n\nset ctrl-attrs.policy\n  each policy_id nest=ctrl-attrs.policy.policy-id\n\nset ctrl-attr\
    s.op-policy\n  each op_id nest=op-policy-attrs\n\nset mcast-group-attrs\n  attr CTRL_ATTR_MCAS\
    T_GRP_NAME 1 ztext\n  attr CTRL_ATTR_MCAST_GRP_ID 2 u32\n\nset op-attrs\n  attr CTRL_ATTR_OP_I\
    D 1 u32\n  attr CTRL_ATTR_OP_FLAGS 2 u32 flags=op-flags\n\nset policy-attrs\n  attr NL_POLICY_\
    TYPE_ATTR_TYPE 1 u32 enum=attr-type\n  attr NL_POLICY_TYPE_ATTR_MIN_VALUE_S 2 s64\n  attr NL_P\
    OLICY_TYPE_ATTR_MAX_VALUE_S 3 s64\n  attr NL_POLICY_TYPE_ATTR_MIN_VALUE_U 4 u64\n  attr NL_POL\
    ICY_TYPE_ATTR_MAX_VALUE_U 5 u64\n  attr NL_POLICY_TYPE_ATTR_MIN_LENGTH 6 u32\n  attr NL_POLICY\
    _TYPE_ATTR_MAX_LENGTH 7 u32\n  attr NL_POLICY_TYPE_ATTR_POLICY_IDX 8 u32\n  attr NL_POLICY_TYP\
    E_ATTR_POLICY_MAXTYPE 9 u32\n  attr NL_POLICY_TYPE_ATTR_BITFIELD32_MASK 10 u32\n  attr NL_POLI\
    CY_TYPE_ATTR_PAD 11 pad\n  attr NL_POLICY_TYPE_ATTR_MASK 12 u64\n\nset op-policy-attrs\n  att\
    r CTRL_ATTR_POLICY_DO 1 u32\n  attr CTRL_ATTR_POLICY_DUMP 2 u32\n";

/// The text of `tables/nlctrl.table`.
pub(crate) fn text() -> &'static [u8]
    ensures { Begins result.now (heading_of table.Nlctrl) }
{
    TEXT
}
