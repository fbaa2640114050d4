//! Attributes of queueing disciplines.

ghost use Rattle.std.proofs.Common.{rules};
ghost use Rattle.std.specs.Prelude.{◌≡◌};
ghost use Rattle.neli_consts_attrs.specs.Tca.{tca_number, tca_of, tca_is_unrecognized};
ghost use Rattle.neli_wire.specs.laws.Constants.{first_with-number};

use neli_wire::Constant;

/// Attributes of a queueing discipline, a class or a filter: `TCA_*` of `linux/rtnetlink.h`.
#[derive(Clone, Copy, Debug, PartialEq, Eq)]
pub enum Tca {
    /// No attribute: 0 stands for none.
    Unspec,
    /// The kind, by name, as `fq_codel`.
    Kind,
    /// The attributes of that kind.
    Options,
    /// The counters.
    Stats,
    /// The counters of that kind.
    Xstats,
    /// The rate estimator.
    Rate,
    Fcnt,
    /// The counters as attributes.
    Stats2,
    /// The table of packet sizes.
    Stab,
    /// A number without a name.
    UnrecognizedConst(u16),
}

impl Tca {
    /// Whether the value is a number without a name, an `UnrecognizedConst`.
    pub fn is_unrecognized(&self) -> bool
        ensures { result ≡ tca_is_unrecognized self.now }
    {
        matches!(self, Tca::UnrecognizedConst(_))
    }
}

impl From<u16> for Tca {
    ghost from_gives = { λ number value. value ≡ tca_of number };

    fn from(number: u16) -> Tca {
        match number {
            0 => Tca::Unspec,
            1 => Tca::Kind,
            2 => Tca::Options,
            3 => Tca::Stats,
            4 => Tca::Xstats,
            5 => Tca::Rate,
            6 => Tca::Fcnt,
            7 => Tca::Stats2,
            8 => Tca::Stab,
            _ => Tca::UnrecognizedConst(number),
        }
    }
}

impl From<Tca> for u16 {
    ghost from_gives = { λ value number. number ≡ tca_number value };

    fn from(value: Tca) -> u16 {
        match value {
            Tca::Unspec => 0,
            Tca::Kind => 1,
            Tca::Options => 2,
            Tca::Stats => 3,
            Tca::Xstats => 4,
            Tca::Rate => 5,
            Tca::Fcnt => 6,
            Tca::Stats2 => 7,
            Tca::Stab => 8,
            Tca::UnrecognizedConst(number) => number,
        }
    }
}

impl From<&Tca> for u16 {
    ghost from_gives = { λ value number. number ≡ tca_number value.now };

    fn from(value: &Tca) -> u16 {
        u16::from(*value)
    }
}

impl Constant for Tca {
    type Number = u16;

    ghost wire_number = { tca_number };

    ghost wire_value = { tca_of };

    fn from_wire(number: u16) -> Tca {
        Tca::from(number)
    }

    fn to_wire(&self) -> u16 {
        u16::from(self)
    }

    ghost back_to_number = { λ n _. Prim.search (first_with-number, rules) };
}
