//! The flags of a message.

ghost use Rattle.std.specs.Prelude.{⊤, ◌≡◌, ◌-◌, ◌^◌, refl};
ghost use Rattle.std.specs.Int.RustNames.{bit_and, bit_or, bit_xor};
ghost use Rattle.bitflags.specs.Sets.{known_bits, without};
ghost use Rattle.neli_consts.specs.NlmF.{nlm_f_names};

use bitflags::{Flag, Flags};
use neli_wire::Constant;
use std::ops::{
    BitAnd, BitAndAssign, BitOr, BitOrAssign, BitXor, BitXorAssign, Not, Sub, SubAssign,
};

/// The flags of a message: `NLM_F_*` of `linux/netlink.h` (RFC 3549, section 2.3.2). The bits from
/// 0x100 on mean different things in a request that asks, one that makes, and an error.
#[derive(Clone, Copy, Debug, PartialEq, Eq)]
pub struct NlmF(u16);

impl NlmF {
    /// The message is a request.
    pub const REQUEST: NlmF = NlmF(1);

    /// It is one of several; [`crate::Nlmsg::Done`] ends them.
    pub const MULTI: NlmF = NlmF(2);

    /// An acknowledgement is wanted.
    pub const ACK: NlmF = NlmF(4);

    /// The change made is to be sent back.
    pub const ECHO: NlmF = NlmF(8);

    /// The table changed during the dump, so the list may be inconsistent.
    pub const DUMP_INTR: NlmF = NlmF(0x10);

    /// The list was filtered as requested.
    pub const DUMP_FILTERED: NlmF = NlmF(0x20);

    /// Asking: the whole table.
    pub const ROOT: NlmF = NlmF(0x100);

    /// Asking: all entries that fit.
    pub const MATCH: NlmF = NlmF(0x200);

    /// Asking: the table at one moment.
    pub const ATOMIC: NlmF = NlmF(0x400);

    /// Asking: [`NlmF::ROOT`] and [`NlmF::MATCH`].
    pub const DUMP: NlmF = NlmF(0x300);

    /// Making: an existing entry is replaced.
    pub const REPLACE: NlmF = NlmF(0x100);

    /// Making: an existing entry is an error.
    pub const EXCL: NlmF = NlmF(0x200);

    /// Making: an entry that does not exist is made.
    pub const CREATE: NlmF = NlmF(0x400);

    /// Making: the entry goes to the end of the list.
    pub const APPEND: NlmF = NlmF(0x800);

    /// Answering: the request is sent back without its body.
    pub const CAPPED: NlmF = NlmF(0x100);

    /// Answering: attributes of [`crate::NlmsgerrAttr`] follow.
    pub const ACK_TLVS: NlmF = NlmF(0x200);

    /// The set without any bit.
    pub fn empty() -> NlmF
        ensures { result.0 ≡ 0 }
    {
        NlmF(0)
    }
}

impl Flags for NlmF {
    type Bits = u16;

    ghost exact = { ⊤ };

    ghost table = { nlm_f_names };

    ghost set_of = { λ flags. flags.0 };

    fn flags<'a>() -> &'a [Flag<NlmF>] {
        flag_list!(NlmF:
            REQUEST, MULTI, ACK, ECHO, DUMP_INTR, DUMP_FILTERED, ROOT, MATCH, ATOMIC, DUMP, REPLACE,
            EXCL, CREATE, APPEND, CAPPED, ACK_TLVS
        )
    }

    fn bits(&self) -> u16 {
        self.0
    }

    fn from_bits_retain(bits: u16) -> NlmF {
        NlmF(bits)
    }
}

impl BitOr for NlmF {
    type Output = NlmF;

    ghost bitor_gives = { λ a b flags. flags.0 ≡ bit_or a.0 b.0 };

    fn bitor(self, other: NlmF) -> NlmF {
        self.union(other)
    }
}

impl BitOrAssign for NlmF {
    ghost bitor_assign_gives = { λ a b flags. flags.0 ≡ bit_or a.0 b.0 };

    fn bitor_assign(&mut self, other: NlmF) {
        *self = self.union(other);
    }
}

impl BitAnd for NlmF {
    type Output = NlmF;

    ghost bitand_gives = { λ a b flags. flags.0 ≡ bit_and a.0 b.0 };

    fn bitand(self, other: NlmF) -> NlmF {
        self.intersection(other)
    }
}

impl BitAndAssign for NlmF {
    ghost bitand_assign_gives = { λ a b flags. flags.0 ≡ bit_and a.0 b.0 };

    fn bitand_assign(&mut self, other: NlmF) {
        *self = self.intersection(other);
    }
}

impl BitXor for NlmF {
    type Output = NlmF;

    ghost bitxor_gives = { λ a b flags. flags.0 ≡ bit_xor a.0 b.0 };

    fn bitxor(self, other: NlmF) -> NlmF {
        self.symmetric_difference(other)
    }
}

impl BitXorAssign for NlmF {
    ghost bitxor_assign_gives = { λ a b flags. flags.0 ≡ bit_xor a.0 b.0 };

    fn bitxor_assign(&mut self, other: NlmF) {
        *self = self.symmetric_difference(other);
    }
}

impl Sub for NlmF {
    type Output = NlmF;

    ghost sub_gives = { λ a b flags. flags.0 ≡ without 16 a.0 b.0 };

    fn sub(self, other: NlmF) -> NlmF {
        self.difference(other)
    }
}

impl SubAssign for NlmF {
    ghost sub_assign_gives = { λ a b flags. flags.0 ≡ without 16 a.0 b.0 };

    fn sub_assign(&mut self, other: NlmF) {
        *self = self.difference(other);
    }
}

impl Not for NlmF {
    type Output = NlmF;

    ghost not_gives = { λ a flags. flags.0 ≡ bit_and (2 ^ 16 - 1 - a.0) (known_bits nlm_f_names) };

    fn not(self) -> NlmF {
        self.complement()
    }
}

impl From<u16> for NlmF {
    ghost from_gives = { λ bits flags. flags.0 ≡ bit_and bits (known_bits nlm_f_names) };

    fn from(bits: u16) -> NlmF {
        NlmF::from_bits_truncate(bits)
    }
}

impl From<NlmF> for u16 {
    ghost from_gives = { λ flags bits. bits ≡ flags.0 };

    fn from(flags: NlmF) -> u16 {
        flags.0
    }
}

impl Constant for NlmF {
    type Number = u16;

    ghost wire_number = { λ flags. flags.0 };

    ghost wire_value = { λ bits. record { 0 = bits } };

    fn from_wire(number: u16) -> NlmF {
        NlmF(number)
    }

    fn to_wire(&self) -> u16 {
        self.0
    }

    ghost back_to_number = { λ _ _. refl };
}
