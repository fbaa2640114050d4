//! The text of `tables/team.table`. Written by `tables/into-crates`.

ghost use Rattle.neli_tables_generic.specs.Tables.{Begins, heading_of};
ghost use Rattle.neli_tables_generic.specs.declared.table.GenericTable.TheVariants as table;

/// The text.
static TEXT: &[u8] = b"\
    # Written by from-specs from the specification team.yaml of Linux 6.12 and own/team.table.\n\n\
    family team 16 version=1\n\nmessage TEAM_CMD_NOOP 0 nest=team\nmessage TEAM_CMD_OPTIONS_SET 1 \
    nest=team\nmessage TEAM_CMD_OPTIONS_GET 2 nest=team\nmessage TEAM_CMD_PORT_LIST_GET 3 nest=tea\
    m\n\nenum option-type\n  value u32 3\n  value string 5\n  value flag 6\n  value binary 11\n  v\
    alue s32 14\n\nset team\n  attr TEAM_ATTR_UNSPEC 0 pad\n  attr TEAM_ATTR_TEAM_IFINDEX 1 u3\
    2\n  attr TEAM_ATTR_LIST_OPTION 2 nest=item-option\n  attr TEAM_ATTR_LIST_PORT 3 nest=item-por\
    t\n\nset item-option\n  attr TEAM_ATTR_ITEM_OPTION_UNSPEC 0 pad\n  attr TEAM_ATTR_ITEM_OPTION \
    1 nest=attr-option\n\nset attr-option\n  attr TEAM_ATTR_OPTION_UNSPEC 0 pad\n  attr TEAM_ATTR_\
    OPTION_NAME 1 text length=0..32\n  attr TEAM_ATTR_OPTION_CHANGED 2 flag\n  attr TEAM_ATTR_OPTI\
    ON_TYPE 3 u8 enum=option-type\n  attr TEAM_ATTR_OPTION_DATA 4 choice=option-data by=TEAM_ATTR_\
    OPTION_TYPE\n  attr TEAM_ATTR_OPTION_REMOVED 5 flag\n  attr TEAM_ATTR_OPTION_PORT_IFINDEX 6 u3\
    2\n  attr TEAM_ATTR_OPTION_ARRAY_INDEX 7 u32\n\nset item-port\n  attr TEAM_ATTR_ITEM_PORT_UNSP\
    EC 0 pad\n  attr TEAM_ATTR_ITEM_PORT 1 nest=attr-port\n\nset attr-port\n  attr TEAM_ATTR_PORT_\
    UNSPEC 0 pad\n  attr TEAM_ATTR_PORT_IFINDEX 1 u32\n  attr TEAM_ATTR_PORT_CHANGED 2 flag\n  att\
    r TEAM_ATTR_PORT_LINKUP 3 flag\n  attr TEAM_ATTR_PORT_SPEED 4 u32\n  attr TEAM_ATTR_PORT_DUPLE\
    X 5 u8\n  attr TEAM_ATTR_PORT_REMOVED 6 flag\n\nchoice option-data\n  case u32 3 u32\n  case s\
    tring 5 text\n  case flag 6 flag\n  case binary 11 bytes\n  case s32 14 s32\n";

/// The text of `tables/team.table`.
pub(crate) fn text() -> &'static [u8]
    ensures { Begins result.now (heading_of table.Team) }
{
    TEXT
}
