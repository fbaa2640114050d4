//! Neighbour tables.

ghost use Rattle.std.proofs.Common.{rules};
ghost use Rattle.std.specs.Prelude.{◌≡◌};
ghost use Rattle.neli_consts_linux.specs.Ndta.{ndta_number, ndta_of, ndta_is_unrecognized};
ghost use Rattle.neli_wire.specs.laws.Constants.{first_with-number};

use neli_consts_attrs::RtaType;
use neli_wire::Constant;

/// Attributes of a neighbour table, `RTM_GETNEIGHTBL`, `RTM_NEWNEIGHTBL` and `RTM_SETNEIGHTBL`: `NDTA_*` of
/// `linux/neighbour.h`.
#[derive(Clone, Copy, Debug, PartialEq, Eq)]
pub enum Ndta {
    /// No attribute: 0 stands for none.
    Unspec,
    /// The name of the table, a text, as `arp_cache`.
    Name,
    /// Below this many entries none is removed, a `u32`.
    Thresh1,
    /// The number of entries that may be exceeded for five seconds, a `u32`.
    Thresh2,
    /// The most entries, a `u32`.
    Thresh3,
    /// The sizes and the state of the table, `struct ndt_config`, 32 bytes; only a kernel sends it.
    Config,
    /// The settings of a link, or those that a new link begins with: attributes of `NDTPA_*`.
    Parms,
    /// The counters of the table, `struct ndt_stats`, 88 bytes; only a kernel sends them.
    Stats,
    /// How often old entries are looked for, a `u64` of milliseconds.
    GcInterval,
    /// Padding that aligns the next attribute to eight bytes.
    Pad,
    /// A number without a name.
    UnrecognizedConst(u16),
}

impl Ndta {
    /// Whether the value is a number without a name, an `UnrecognizedConst`.
    pub fn is_unrecognized(&self) -> bool
        ensures { result ≡ ndta_is_unrecognized self.now }
    {
        matches!(self, Ndta::UnrecognizedConst(_))
    }
}

impl From<u16> for Ndta {
    ghost from_gives = { λ number value. value ≡ ndta_of number };

    fn from(number: u16) -> Ndta {
        match number {
            0 => Ndta::Unspec,
            1 => Ndta::Name,
            2 => Ndta::Thresh1,
            3 => Ndta::Thresh2,
            4 => Ndta::Thresh3,
            5 => Ndta::Config,
            6 => Ndta::Parms,
            7 => Ndta::Stats,
            8 => Ndta::GcInterval,
            9 => Ndta::Pad,
            _ => Ndta::UnrecognizedConst(number),
        }
    }
}

impl From<Ndta> for u16 {
    ghost from_gives = { λ value number. number ≡ ndta_number value };

    fn from(value: Ndta) -> u16 {
        match value {
            Ndta::Unspec => 0,
            Ndta::Name => 1,
            Ndta::Thresh1 => 2,
            Ndta::Thresh2 => 3,
            Ndta::Thresh3 => 4,
            Ndta::Config => 5,
            Ndta::Parms => 6,
            Ndta::Stats => 7,
            Ndta::GcInterval => 8,
            Ndta::Pad => 9,
            Ndta::UnrecognizedConst(number) => number,
        }
    }
}

impl Constant for Ndta {
    type Number = u16;

    ghost wire_number = { ndta_number };

    ghost wire_value = { ndta_of };

    fn from_wire(number: u16) -> Ndta {
        Ndta::from(number)
    }

    fn to_wire(&self) -> u16 {
        u16::from(*self)
    }

    ghost back_to_number = { λ n _. Prim.search (first_with-number, rules) };
}

impl RtaType for Ndta {}
