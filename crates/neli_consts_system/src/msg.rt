//! The flags of sending and receiving.

ghost use Rattle.std.specs.Prelude.{⊤, ◌≡◌, ◌-◌, ◌^◌, refl};
ghost use Rattle.std.specs.Int.RustNames.{bit_and, bit_or, bit_xor};
ghost use Rattle.bitflags.specs.Sets.{known_bits, without};
ghost use Rattle.neli_consts_system.specs.Msg.{msg_names};

use bitflags::{Flag, Flags};
use neli_wire::Constant;
use std::ops::{
    BitAnd, BitAndAssign, BitOr, BitOrAssign, BitXor, BitXorAssign, Not, Sub, SubAssign,
};

/// How bytes are sent to a socket or received from it: `MSG_*` of `linux/socket.h`.
#[derive(Clone, Copy, Debug, PartialEq, Eq)]
pub struct Msg(u32);

impl Msg {
    /// Bytes out of band.
    pub const OOB: Msg = Msg(1);

    /// The bytes stay in the queue.
    pub const PEEK: Msg = Msg(2);

    /// A datagram was longer than its buffer, or the caller asks for its whole length.
    pub const TRUNC: Msg = Msg(0x20);

    /// The call does not wait.
    pub const DONTWAIT: Msg = Msg(0x40);

    /// The call waits until the buffer is full.
    pub const WAITALL: Msg = Msg(0x100);

    /// The call receives from the queue of errors.
    pub const ERRQUEUE: Msg = Msg(0x2000);

    /// Descriptors received with the bytes are closed by `exec`.
    pub const CMSG_CLOEXEC: Msg = Msg(0x40000000);

    /// The set without any bit.
    pub fn empty() -> Msg
        ensures { result.0 ≡ 0 }
    {
        Msg(0)
    }
}

impl Flags for Msg {
    type Bits = u32;

    ghost exact = { ⊤ };

    ghost table = { msg_names };

    ghost set_of = { λ flags. flags.0 };

    fn flags<'a>() -> &'a [Flag<Msg>] {
        flag_list!(Msg: OOB, PEEK, TRUNC, DONTWAIT, WAITALL, ERRQUEUE, CMSG_CLOEXEC)
    }

    fn bits(&self) -> u32 {
        self.0
    }

    fn from_bits_retain(bits: u32) -> Msg {
        Msg(bits)
    }
}

impl BitOr for Msg {
    type Output = Msg;

    ghost bitor_gives = { λ a b flags. flags.0 ≡ bit_or a.0 b.0 };

    fn bitor(self, other: Msg) -> Msg {
        self.union(other)
    }
}

impl BitOrAssign for Msg {
    ghost bitor_assign_gives = { λ a b flags. flags.0 ≡ bit_or a.0 b.0 };

    fn bitor_assign(&mut self, other: Msg) {
        *self = self.union(other);
    }
}

impl BitAnd for Msg {
    type Output = Msg;

    ghost bitand_gives = { λ a b flags. flags.0 ≡ bit_and a.0 b.0 };

    fn bitand(self, other: Msg) -> Msg {
        self.intersection(other)
    }
}

impl BitAndAssign for Msg {
    ghost bitand_assign_gives = { λ a b flags. flags.0 ≡ bit_and a.0 b.0 };

    fn bitand_assign(&mut self, other: Msg) {
        *self = self.intersection(other);
    }
}

impl BitXor for Msg {
    type Output = Msg;

    ghost bitxor_gives = { λ a b flags. flags.0 ≡ bit_xor a.0 b.0 };

    fn bitxor(self, other: Msg) -> Msg {
        self.symmetric_difference(other)
    }
}

impl BitXorAssign for Msg {
    ghost bitxor_assign_gives = { λ a b flags. flags.0 ≡ bit_xor a.0 b.0 };

    fn bitxor_assign(&mut self, other: Msg) {
        *self = self.symmetric_difference(other);
    }
}

impl Sub for Msg {
    type Output = Msg;

    ghost sub_gives = { λ a b flags. flags.0 ≡ without 32 a.0 b.0 };

    fn sub(self, other: Msg) -> Msg {
        self.difference(other)
    }
}

impl SubAssign for Msg {
    ghost sub_assign_gives = { λ a b flags. flags.0 ≡ without 32 a.0 b.0 };

    fn sub_assign(&mut self, other: Msg) {
        *self = self.difference(other);
    }
}

impl Not for Msg {
    type Output = Msg;

    ghost not_gives = { λ a flags. flags.0 ≡ bit_and (2 ^ 32 - 1 - a.0) (known_bits msg_names) };

    fn not(self) -> Msg {
        self.complement()
    }
}

impl From<u32> for Msg {
    ghost from_gives = { λ bits flags. flags.0 ≡ bit_and bits (known_bits msg_names) };

    fn from(bits: u32) -> Msg {
        Msg::from_bits_truncate(bits)
    }
}

impl From<Msg> for u32 {
    ghost from_gives = { λ flags bits. bits ≡ flags.0 };

    fn from(flags: Msg) -> u32 {
        flags.0
    }
}

impl Constant for Msg {
    type Number = u32;

    ghost wire_number = { λ flags. flags.0 };

    ghost wire_value = { λ bits. record { 0 = bits } };

    fn from_wire(number: u32) -> Msg {
        Msg(number)
    }

    fn to_wire(&self) -> u32 {
        self.0
    }

    ghost back_to_number = { λ _ _. refl };
}
