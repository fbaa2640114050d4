//! The flags of a message by name (`NLM_F_*` of `linux/netlink.h`): the meaning of the bits from
//! 0x100 on depends on the type of the message.

ghost use Rattle.std.specs.Prelude.{◌≡◌, map};
ghost use Rattle.neli_print.specs.MessageFlags.{flag_rows, flag_view};

/// A flag: its bits, and its name without `NLM_F_`.
pub(crate) type Row = (u32, &'static str);

/// The flags that every message may have (`NLM_F_*` of `linux/netlink.h`).
static COMMON: [Row; 6] = [
    (1, "REQUEST"),
    (2, "MULTI"),
    (4, "ACK"),
    (8, "ECHO"),
    (0x10, "DUMP_INTR"),
    (0x20, "DUMP_FILTERED"),
];

/// The flags of a message that makes something.
static MAKING: [Row; 10] = [
    (1, "REQUEST"),
    (2, "MULTI"),
    (4, "ACK"),
    (8, "ECHO"),
    (0x10, "DUMP_INTR"),
    (0x20, "DUMP_FILTERED"),
    (0x100, "REPLACE"),
    (0x200, "EXCL"),
    (0x400, "CREATE"),
    (0x800, "APPEND"),
];

/// The flags of a message that deletes something.
static DELETING: [Row; 8] = [
    (1, "REQUEST"),
    (2, "MULTI"),
    (4, "ACK"),
    (8, "ECHO"),
    (0x10, "DUMP_INTR"),
    (0x20, "DUMP_FILTERED"),
    (0x100, "NONREC"),
    (0x200, "BULK"),
];

/// The flags of a message that asks for something.
static ASKING: [Row; 10] = [
    (1, "REQUEST"),
    (2, "MULTI"),
    (4, "ACK"),
    (8, "ECHO"),
    (0x10, "DUMP_INTR"),
    (0x20, "DUMP_FILTERED"),
    (0x300, "DUMP"),
    (0x100, "ROOT"),
    (0x200, "MATCH"),
    (0x400, "ATOMIC"),
];

/// The flags of a message of another protocol.
static OTHER: [Row; 7] = [
    (1, "REQUEST"),
    (2, "MULTI"),
    (4, "ACK"),
    (8, "ECHO"),
    (0x10, "DUMP_INTR"),
    (0x20, "DUMP_FILTERED"),
    (0x300, "DUMP"),
];

/// The flags of an error, an acknowledgement or the end of a dump.
static ANSWERING: [Row; 8] = [
    (1, "REQUEST"),
    (2, "MULTI"),
    (4, "ACK"),
    (8, "ECHO"),
    (0x10, "DUMP_INTR"),
    (0x20, "DUMP_FILTERED"),
    (0x100, "CAPPED"),
    (0x200, "ACK_TLVS"),
];

/// The flags that a message of this type may have, in `NETLINK_ROUTE` or in another protocol. Types
/// of routing come in fours: new, delete, get and set. In other protocols a request for a dump has
/// the flag DUMP.
pub(crate) fn flag_rows(is_route: bool, number: u16) -> &'static [Row]
    ensures { map flag_view result.now ≡ flag_rows is_route number }
{
    // NLMSG_ERROR and NLMSG_DONE.
    if number == 2 || number == 3 {
        return &ANSWERING;
    }
    if number < 16 {
        return &COMMON;
    }
    if !is_route {
        return &OTHER;
    }
    match number % 4 {
        0 => &MAKING,
        1 => &DELETING,
        2 => &ASKING,
        _ => &COMMON,
    }
}
