//! Sets of flags by their names.

ghost use Rattle.std.specs.Prelude.{◌≡◌, Some};
ghost use Rattle.neli_texts.specs.FlagNames.{flag_row, names_text};

use crate::bit_names::{NamedBits, write_names};
use bitflags::{Flag, Flags};
use neli_consts_flags::{Frf, IfaF, Iff, Ntf, Nud, RtmF, VlanFlags};
use std::fmt;

/// A set of flags that [`FlagNames`] prints.
pub trait NamedFlags: Flags {
    /// The bits of the set, as a number.
    fn number(&self) -> u32
        ensures { result ≡ Self.Flags.set_of self.now };

    // Its names and bits are those of the table that its contracts cite.
    ghost is_exact: { Self.Flags.exact };
}

impl NamedFlags for Iff {
    fn number(&self) -> u32 {
        self.bits()
    }

    ghost is_exact = { tt };
}

impl NamedFlags for IfaF {
    fn number(&self) -> u32 {
        u32::from(self.bits())
    }

    ghost is_exact = { tt };
}

impl NamedFlags for RtmF {
    fn number(&self) -> u32 {
        self.bits()
    }

    ghost is_exact = { tt };
}

impl NamedFlags for Nud {
    fn number(&self) -> u32 {
        u32::from(self.bits())
    }

    ghost is_exact = { tt };
}

impl NamedFlags for Ntf {
    fn number(&self) -> u32 {
        u32::from(self.bits())
    }

    ghost is_exact = { tt };
}

impl NamedFlags for VlanFlags {
    fn number(&self) -> u32 {
        u32::from(self.bits())
    }

    ghost is_exact = { tt };
}

impl NamedFlags for Frf {
    fn number(&self) -> u32 {
        self.bits()
    }

    ghost is_exact = { tt };
}

/// A set of flags by the names of its flags, as `UP|RUNNING`.
///
/// The names stand in the order of the set's table. Of two names for the same bits the first is printed. Bits without a
/// name follow as one number, as `UP|0x80000000`; the empty set is `0x0`.
#[derive(Clone, Copy, Debug)]
pub struct FlagNames<F>(pub F);

impl<F: NamedFlags> NamedBits for Flag<F> {
    ghost row_of = { flag_row F.Flags.set_of };

    fn bits_named(&self) -> u32 {
        self.value().number()
    }

    fn name_of_bits(&self) -> &str {
        self.name()
    }
}

impl<F: NamedFlags> fmt::Display for FlagNames<F> {
    ghost output = { λ names. Some (names_text F.Flags.table (F.Flags.set_of names.0)) };

    fn fmt<W: fmt::Write>(&self, f: &mut fmt::Formatter<W>) -> fmt::Result {
        write_names(F::flags(), self.0.number(), f)
    }
}
