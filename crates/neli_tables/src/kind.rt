//! The kinds of a payload, a field, a body or a case.

ghost use Rattle.std.specs.Prelude.{◌≡◌, map};
ghost use Rattle.neli_tables.specs.Rows.{row_view};
ghost use Rattle.neli_tables.specs.Kinds.{kind_named, kinds};

use crate::rows::row_named;

/// The kind of a payload, a field, a message's body or a case.
#[derive(Clone, Copy, Debug, PartialEq, Eq)]
pub enum Kind {
    /// `flag`. Nothing: the presence of the attribute is its meaning.
    Flag,
    /// `u8`. 8 bits, no sign.
    U8,
    /// `u16`. 16 bits, no sign, in the host's order.
    U16,
    /// `u32`. 32 bits, no sign, in the host's order.
    U32,
    /// `u64`. 64 bits, no sign, in the host's order.
    U64,
    /// `s8`. 8 bits with a sign.
    S8,
    /// `s16`. 16 bits with a sign, in the host's order.
    S16,
    /// `s32`. 32 bits with a sign, in the host's order.
    S32,
    /// `s64`. 64 bits with a sign, in the host's order.
    S64,
    /// `be16`. 16 bits, no sign, the highest byte first.
    Be16,
    /// `be32`. 32 bits, no sign, the highest byte first.
    Be32,
    /// `be64`. 64 bits, no sign, the highest byte first.
    Be64,
    /// `sbe32`. 32 bits with a sign, the highest byte first.
    Sbe32,
    /// `uint`. A number of 4 or 8 bytes, no sign.
    Uint,
    /// `sint`. A number of 4 or 8 bytes with a sign.
    Sint,
    /// `text`. A text; the zero at its end is optional.
    Text,
    /// `ztext`. A text with a zero at its end.
    Ztext,
    /// `hardware`. A hardware address.
    Hardware,
    /// `ipv4`. An IPv4 address.
    Ipv4,
    /// `ipv6`. An IPv6 address.
    Ipv6,
    /// `ip`. An IPv4 or IPv6 address, by its length.
    Ip,
    /// `address`. An address of the message's family.
    Address,
    /// `sockaddr`. `struct sockaddr_in` or `sockaddr_in6`, by its first two bytes.
    Sockaddr,
    /// `uuid`. 16 bytes.
    Uuid,
    /// `bits`. `struct nla_bitfield32`: bits, and the mask of those that count.
    Bits,
    /// `struct`. The fields of a structure.
    Struct,
    /// `nest`. Attributes of a set.
    Nest,
    /// `hops`. Structures that state their length, each followed by attributes of a set.
    Hops,
    /// `choice`. The kind that a choice picks.
    Choice,
    /// `bytes`. Bytes.
    Bytes,
    /// `pad`. Bytes without a meaning.
    Pad,
}

/// Each name, and its kind.
static KINDS: [(&[u8], Kind); 31] = [
    (b"flag", Kind::Flag),
    (b"u8", Kind::U8),
    (b"u16", Kind::U16),
    (b"u32", Kind::U32),
    (b"u64", Kind::U64),
    (b"s8", Kind::S8),
    (b"s16", Kind::S16),
    (b"s32", Kind::S32),
    (b"s64", Kind::S64),
    (b"be16", Kind::Be16),
    (b"be32", Kind::Be32),
    (b"be64", Kind::Be64),
    (b"sbe32", Kind::Sbe32),
    (b"uint", Kind::Uint),
    (b"sint", Kind::Sint),
    (b"text", Kind::Text),
    (b"ztext", Kind::Ztext),
    (b"hardware", Kind::Hardware),
    (b"ipv4", Kind::Ipv4),
    (b"ipv6", Kind::Ipv6),
    (b"ip", Kind::Ip),
    (b"address", Kind::Address),
    (b"sockaddr", Kind::Sockaddr),
    (b"uuid", Kind::Uuid),
    (b"bits", Kind::Bits),
    (b"struct", Kind::Struct),
    (b"nest", Kind::Nest),
    (b"hops", Kind::Hops),
    (b"choice", Kind::Choice),
    (b"bytes", Kind::Bytes),
    (b"pad", Kind::Pad),
];

/// The whole table.
#[tactic(auto, unfolding(crate::specs::Kinds::kinds))]
fn kind_rows() -> &'static [(&'static [u8], Kind)]
    ensures { map row_view result.now ≡ kinds }
{
    &KINDS
}

/// Returns the kind with this name.
pub(crate) fn kind_named(name: &[u8]) -> Option<Kind>
    ensures { result ≡ kind_named name.now }
{
    row_named(kind_rows(), name)
}
