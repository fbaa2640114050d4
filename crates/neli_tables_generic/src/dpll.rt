//! The text of `tables/dpll.table`. Written by `tables/into-crates`.

ghost use Rattle.neli_tables_generic.specs.Tables.{Begins, heading_of};
ghost use Rattle.neli_tables_generic.specs.declared.table.GenericTable.TheVariants as table;

/// The text.
static TEXT: &[u8] = b"\
    # Written by from-specs from the specification dpll.yaml of Linux 6.12.\n\nfamily dpll 16 vers\
    ion=1\n\ngroup monitor\n\nmessage DPLL_CMD_DEVICE_ID_GET 1 nest=dpll strict\nmessage DPLL_CMD_\
    DEVICE_GET 2 nest=dpll strict\nmessage DPLL_CMD_DEVICE_SET 3 nest=dpll strict\nmessage DPLL_CM\
    D_DEVICE_CREATE_NTF 4 reply nest=dpll\nmessage DPLL_CMD_DEVICE_DELETE_NTF 5 reply nest=dpll\nm\
    essage DPLL_CMD_DEVICE_CHANGE_NTF 6 reply nest=dpll\nmessage DPLL_CMD_PIN_ID_GET 7 nest=pin st\
    rict\nmessage DPLL_CMD_PIN_GET 8 nest=pin strict\nmessage DPLL_CMD_PIN_SET 9 nest=pin strict\n\
    message DPLL_CMD_PIN_CREATE_NTF 10 reply nest=pin\nmessage DPLL_CMD_PIN_DELETE_NTF 11 reply ne\
    st=pin\nmessage DPLL_CMD_PIN_CHANGE_NTF 12 reply nest=pin\n\nenum mode prefix=DPLL_MODE_\n  va\
    lue manual 1\n  value automatic 2\n\nenum lock-status prefix=DPLL_LOCK_STATUS_\n  value unlock\
    ed 1\n  value locked 2\n  value locked-ho-acq 3\n  value holdover 4\n\nenum lock-status-error \
    prefix=DPLL_LOCK_STATUS_ERROR_\n  value none 1\n  value undefined 2\n  value media-down 3\n  v\
    alue fractional-frequency-offset-too-high 4\n\nenum clock-quality-level prefix=DPLL_CLOCK_QUAL\
    ITY_LEVEL_\n  value itu-opt1-prc 1\n  value itu-opt1-ssu-a 2\n  value itu-opt1-ssu-b 3\n  valu\
    e itu-opt1-eec1 4\n  value itu-opt1-prtc 5\n  value itu-opt1-eprtc 6\n  value itu-opt1-eeec \
    7\n  value itu-opt1-eprc 8\n\nenum type prefix=DPLL_TYPE_\n  value pps 1\n  value eec 2\n\nenu\
    m pin-type prefix=DPLL_PIN_TYPE_\n  value mux 1\n  value ext 2\n  value synce-eth-port 3\n  va\
    lue int-oscillator 4\n  value gnss 5\n\nenum pin-direction prefix=DPLL_PIN_DIRECTION_\n  valu\
    e input 1\n  value output 2\n\nenum pin-state prefix=DPLL_PIN_STATE_\n  value connected 1\n  v\
    alue disconnected 2\n  value selectable 3\n\nflags pin-capabilities prefix=DPLL_PIN_CAPABILITI\
    ES_\n  value direction-can-change 0x1\n  value priority-can-change 0x2\n  value state-can-chan\
    ge 0x4\n\nset dpll\n  attr DPLL_A_ID 1 u32\n  attr DPLL_A_MODULE_NAME 2 text\n  attr DPLL_A_PA\
    D 3 pad\n  attr DPLL_A_CLOCK_ID 4 u64\n  attr DPLL_A_MODE 5 u32 enum=mode\n  attr DPLL_A_MODE_\
    SUPPORTED 6 u32 enum=mode multi\n  attr DPLL_A_LOCK_STATUS 7 u32 enum=lock-status\n  attr DPLL\
    _A_TEMP 8 s32\n  attr DPLL_A_TYPE 9 u32 enum=type\n  attr DPLL_A_LOCK_STATUS_ERROR 10 u32 enum\
    =lock-status-error\n  attr DPLL_A_CLOCK_QUALITY_LEVEL 11 u32 enum=clock-quality-level mult\
    i\n\nset pin\n  attr DPLL_A_PIN_ID 1 u32\n  attr DPLL_A_PIN_PARENT_ID 2 u32\n  attr DPLL_A_PIN\
    _MODULE_NAME 3 text\n  attr DPLL_A_PIN_PAD 4 pad\n  attr DPLL_A_PIN_CLOCK_ID 5 u64\n  attr DPL\
    L_A_PIN_BOARD_LABEL 6 text\n  attr DPLL_A_PIN_PANEL_LABEL 7 text\n  attr DPLL_A_PIN_PACKAGE_LA\
    BEL 8 text\n  attr DPLL_A_PIN_TYPE 9 u32 enum=pin-type\n  attr DPLL_A_PIN_DIRECTION 10 u32 enu\
    m=pin-direction\n  attr DPLL_A_PIN_FREQUENCY 11 u64\n  attr DPLL_A_PIN_FREQUENCY_SUPPORTED 12 \
    nest=pin multi\n  attr DPLL_A_PIN_FREQUENCY_MIN 13 u64\n  attr DPLL_A_PIN_FREQUENCY_MAX 14 u6\
    4\n  attr DPLL_A_PIN_PRIO 15 u32\n  attr DPLL_A_PIN_STATE 16 u32 enum=pin-state\n  attr DPLL_A\
    _PIN_CAPABILITIES 17 u32 flags=pin-capabilities\n  attr DPLL_A_PIN_PARENT_DEVICE 18 nest=pin m\
    ulti\n  attr DPLL_A_PIN_PARENT_PIN 19 nest=pin multi\n  attr DPLL_A_PIN_PHASE_ADJUST_MIN 20 s3\
    2\n  attr DPLL_A_PIN_PHASE_ADJUST_MAX 21 s32\n  attr DPLL_A_PIN_PHASE_ADJUST 22 s32\n  attr DP\
    LL_A_PIN_PHASE_OFFSET 23 s64\n  attr DPLL_A_PIN_FRACTIONAL_FREQUENCY_OFFSET 24 sint\n  attr DP\
    LL_A_PIN_ESYNC_FREQUENCY 25 u64\n  attr DPLL_A_PIN_ESYNC_FREQUENCY_SUPPORTED 26 nest=pin mult\
    i\n  attr DPLL_A_PIN_ESYNC_PULSE 27 u32\n  attr DPLL_A_PIN_REFERENCE_SYNC 28 nest=pin multi\n";

/// The text of `tables/dpll.table`.
pub(crate) fn text() -> &'static [u8]
    ensures { Begins result.now (heading_of table.Dpll) }
{
    TEXT
}
