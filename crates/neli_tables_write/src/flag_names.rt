//! The flags of messages by name.

/// The names of bits (`NLM_F_*` of `linux/netlink.h`); those from 0x100 on depend on the type of the message.
static NAMES: [(&str, u16); 18] = [
    ("REQUEST", 1),
    ("MULTI", 2),
    ("ACK", 4),
    ("ECHO", 8),
    ("DUMP_INTR", 0x10),
    ("DUMP_FILTERED", 0x20),
    ("ROOT", 0x100),
    ("MATCH", 0x200),
    ("ATOMIC", 0x400),
    ("DUMP", 0x300),
    ("REPLACE", 0x100),
    ("EXCL", 0x200),
    ("CREATE", 0x400),
    ("APPEND", 0x800),
    ("NONREC", 0x100),
    ("BULK", 0x200),
    ("CAPPED", 0x100),
    ("ACK_TLVS", 0x200),
];

/// The bits that a name means, as `NLM_F_ACK`, or `0x` and digits.
pub(crate) fn bits_of_flag(text: &str) -> Option<u16> {
    if let Some(digits) = text.strip_prefix("0x") {
        return u16::from_str_radix(digits, 16).ok();
    }
    let name = text.strip_prefix("NLM_F_")?;
    for (other, bits) in &NAMES {
        if *other == name {
            return Some(*bits);
        }
    }
    None
}
