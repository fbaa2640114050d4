//! A set of named bits, and what distinguishes one kind of sets from another.

ghost use Rattle.std.specs.Prelude.{⊤, ◌≡◌, ◌-◌, ◌^◌, List, map, refl};
ghost use Rattle.std.specs.Int.RustNames.{bit_and, bit_or, bit_xor};
ghost use Rattle.bitflags.specs.Sets.{Row, known_bits, without};

use bitflags::{Bits, Flag, Flags};
use neli_wire::{Constant, WireNumber};
use std::fmt::{Debug, Formatter, Write};
use std::ops::{
    BitAnd, BitAndAssign, BitOr, BitOrAssign, BitXor, BitXorAssign, Not, Sub, SubAssign,
};

/// A set of bits of a number of type `N`, whose kind gives the bits their names: [`Iff`](crate::Iff) and the other sets
/// of this crate are its instances, one for each `KIND`.
#[derive(Clone, Copy, PartialEq, Eq)]
pub struct FlagSet<N, const KIND: u8>(pub(crate) N);

/// The kind with this number, for [`Kind`].
pub struct Of<const KIND: u8>;

/// The names of the bits of a kind's sets.
pub trait Kind<N: Bits, const KIND: u8> {
    // Each name and its bits.
    ghost names: { List Row };

    /// The name of the kind's sets, as `Debug` prints it.
    fn name<'a>() -> &'a str;

    /// The named flags, in the order in which the sets print them.
    fn flags<'a>() -> &'a [Flag<FlagSet<N, KIND>>]
        ensures { map (λ f. (f.name.now, N.pattern f.value.0)) result.now ≡ names };
}

impl<N: Bits, const KIND: u8> FlagSet<N, KIND>
where
    Of<KIND>: Kind<N, KIND>,
{
    /// The set without any bit.
    pub fn empty() -> FlagSet<N, KIND>
        ensures { N.pattern result.0 ≡ 0 }
    {
        FlagSet(N::empty())
    }
}

impl<N: Bits, const KIND: u8> Flags for FlagSet<N, KIND>
where
    Of<KIND>: Kind<N, KIND>,
{
    type Bits = N;

    ghost exact = { ⊤ };

    ghost table = { ⟦<Of<KIND> as Kind<N, KIND>>⟧.names };

    ghost set_of = { λ flags. N.pattern flags.0 };

    fn flags<'a>() -> &'a [Flag<FlagSet<N, KIND>>] {
        <Of<KIND> as Kind<N, KIND>>::flags()
    }

    fn bits(&self) -> N {
        self.0
    }

    fn from_bits_retain(bits: N) -> FlagSet<N, KIND> {
        FlagSet(bits)
    }
}

impl<N: Bits, const KIND: u8> BitOr for FlagSet<N, KIND>
where
    Of<KIND>: Kind<N, KIND>,
{
    type Output = FlagSet<N, KIND>;

    ghost bitor_gives = { λ a b flags. N.pattern flags.0
        ≡ bit_or (N.pattern a.0) (N.pattern b.0) };

    fn bitor(self, other: FlagSet<N, KIND>) -> FlagSet<N, KIND> {
        self.union(other)
    }
}

impl<N: Bits, const KIND: u8> BitOrAssign for FlagSet<N, KIND>
where
    Of<KIND>: Kind<N, KIND>,
{
    ghost bitor_assign_gives = { λ a b flags. N.pattern flags.0
        ≡ bit_or (N.pattern a.0) (N.pattern b.0) };

    fn bitor_assign(&mut self, other: FlagSet<N, KIND>) {
        *self = self.union(other);
    }
}

impl<N: Bits, const KIND: u8> BitAnd for FlagSet<N, KIND>
where
    Of<KIND>: Kind<N, KIND>,
{
    type Output = FlagSet<N, KIND>;

    ghost bitand_gives = { λ a b flags. N.pattern flags.0
        ≡ bit_and (N.pattern a.0) (N.pattern b.0) };

    fn bitand(self, other: FlagSet<N, KIND>) -> FlagSet<N, KIND> {
        self.intersection(other)
    }
}

impl<N: Bits, const KIND: u8> BitAndAssign for FlagSet<N, KIND>
where
    Of<KIND>: Kind<N, KIND>,
{
    ghost bitand_assign_gives = { λ a b flags. N.pattern flags.0
        ≡ bit_and (N.pattern a.0) (N.pattern b.0) };

    fn bitand_assign(&mut self, other: FlagSet<N, KIND>) {
        *self = self.intersection(other);
    }
}

impl<N: Bits, const KIND: u8> BitXor for FlagSet<N, KIND>
where
    Of<KIND>: Kind<N, KIND>,
{
    type Output = FlagSet<N, KIND>;

    ghost bitxor_gives = { λ a b flags. N.pattern flags.0
        ≡ bit_xor (N.pattern a.0) (N.pattern b.0) };

    fn bitxor(self, other: FlagSet<N, KIND>) -> FlagSet<N, KIND> {
        self.symmetric_difference(other)
    }
}

impl<N: Bits, const KIND: u8> BitXorAssign for FlagSet<N, KIND>
where
    Of<KIND>: Kind<N, KIND>,
{
    ghost bitxor_assign_gives = { λ a b flags. N.pattern flags.0
        ≡ bit_xor (N.pattern a.0) (N.pattern b.0) };

    fn bitxor_assign(&mut self, other: FlagSet<N, KIND>) {
        *self = self.symmetric_difference(other);
    }
}

impl<N: Bits, const KIND: u8> Sub for FlagSet<N, KIND>
where
    Of<KIND>: Kind<N, KIND>,
{
    type Output = FlagSet<N, KIND>;

    ghost sub_gives = { λ a b flags. N.pattern flags.0
        ≡ without N.size (N.pattern a.0) (N.pattern b.0) };

    fn sub(self, other: FlagSet<N, KIND>) -> FlagSet<N, KIND> {
        self.difference(other)
    }
}

impl<N: Bits, const KIND: u8> SubAssign for FlagSet<N, KIND>
where
    Of<KIND>: Kind<N, KIND>,
{
    ghost sub_assign_gives = { λ a b flags. N.pattern flags.0
        ≡ without N.size (N.pattern a.0) (N.pattern b.0) };

    fn sub_assign(&mut self, other: FlagSet<N, KIND>) {
        *self = self.difference(other);
    }
}

impl<N: Bits, const KIND: u8> Not for FlagSet<N, KIND>
where
    Of<KIND>: Kind<N, KIND>,
{
    type Output = FlagSet<N, KIND>;

    ghost not_gives = { λ a flags. N.pattern flags.0
        ≡ bit_and (2 ^ N.size - 1 - N.pattern a.0)
        (known_bits ⟦<Of<KIND> as Kind<N, KIND>>⟧.names) };

    fn not(self) -> FlagSet<N, KIND> {
        self.complement()
    }
}

impl<N: Bits, const KIND: u8> From<N> for FlagSet<N, KIND>
where
    Of<KIND>: Kind<N, KIND>,
{
    ghost from_gives = { λ bits flags. N.pattern flags.0
        ≡ bit_and (N.pattern bits) (known_bits ⟦<Of<KIND> as Kind<N, KIND>>⟧.names) };

    fn from(bits: N) -> FlagSet<N, KIND> {
        FlagSet::<N, KIND>::from_bits_truncate(bits)
    }
}

impl<const KIND: u8> From<FlagSet<u8, KIND>> for u8
where
    Of<KIND>: Kind<u8, KIND>,
{
    ghost from_gives = { λ flags bits. bits ≡ flags.0 };

    fn from(flags: FlagSet<u8, KIND>) -> u8 {
        flags.0
    }
}

impl<const KIND: u8> From<FlagSet<u16, KIND>> for u16
where
    Of<KIND>: Kind<u16, KIND>,
{
    ghost from_gives = { λ flags bits. bits ≡ flags.0 };

    fn from(flags: FlagSet<u16, KIND>) -> u16 {
        flags.0
    }
}

impl<const KIND: u8> From<FlagSet<u32, KIND>> for u32
where
    Of<KIND>: Kind<u32, KIND>,
{
    ghost from_gives = { λ flags bits. bits ≡ flags.0 };

    fn from(flags: FlagSet<u32, KIND>) -> u32 {
        flags.0
    }
}

impl<N: Bits + Debug, const KIND: u8> Debug for FlagSet<N, KIND>
where
    Of<KIND>: Kind<N, KIND>,
{
    fn fmt<W: Write>(&self, f: &mut Formatter<W>) -> std::fmt::Result {
        f.debug_tuple(<Of<KIND> as Kind<N, KIND>>::name())
            .field(&self.0)
            .finish()
    }
}

impl<N: Bits + WireNumber, const KIND: u8> Constant for FlagSet<N, KIND>
where
    Of<KIND>: Kind<N, KIND>,
{
    type Number = N;

    ghost wire_number = { λ flags. flags.0 };

    ghost wire_value = { λ bits. record { 0 = bits } };

    fn from_wire(number: N) -> FlagSet<N, KIND> {
        FlagSet(number)
    }

    fn to_wire(&self) -> N {
        self.0
    }

    ghost back_to_number = { λ _ _. refl };
}
