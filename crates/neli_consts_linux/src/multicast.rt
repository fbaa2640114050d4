//! The multicast groups of a bridge.

ghost use Rattle.std.proofs.Common.{rules};
ghost use Rattle.std.specs.Prelude.{◌≡◌};
ghost use Rattle.neli_consts_linux.specs.Mdba.{mdba_number, mdba_of, mdba_is_unrecognized};
ghost use Rattle.neli_wire.specs.laws.Constants.{first_with-number};

use neli_consts_attrs::RtaType;
use neli_wire::Constant;

/// Attributes of a bridge's multicast groups, `RTM_GETMDB` and `RTM_NEWMDB`: `MDBA_*` of `linux/if_bridge.h`. In a
/// request, the attributes 1 and 2 are `MDBA_SET_ENTRY` and `MDBA_SET_ENTRY_ATTRS`.
#[derive(Clone, Copy, Debug, PartialEq, Eq)]
pub enum Mdba {
    /// No attribute: 0 stands for none.
    Unspec,
    /// The groups: an attribute of number 1 (`MDBA_MDB_ENTRY`) for each.
    Mdb,
    /// The ports behind which routers stand: attributes of `MDBA_ROUTER_*`.
    Router,
    /// A number without a name.
    UnrecognizedConst(u16),
}

impl Mdba {
    /// Whether the value is a number without a name, an `UnrecognizedConst`.
    pub fn is_unrecognized(&self) -> bool
        ensures { result ≡ mdba_is_unrecognized self.now }
    {
        matches!(self, Mdba::UnrecognizedConst(_))
    }
}

impl From<u16> for Mdba {
    ghost from_gives = { λ number value. value ≡ mdba_of number };

    fn from(number: u16) -> Mdba {
        match number {
            0 => Mdba::Unspec,
            1 => Mdba::Mdb,
            2 => Mdba::Router,
            _ => Mdba::UnrecognizedConst(number),
        }
    }
}

impl From<Mdba> for u16 {
    ghost from_gives = { λ value number. number ≡ mdba_number value };

    fn from(value: Mdba) -> u16 {
        match value {
            Mdba::Unspec => 0,
            Mdba::Mdb => 1,
            Mdba::Router => 2,
            Mdba::UnrecognizedConst(number) => number,
        }
    }
}

impl Constant for Mdba {
    type Number = u16;

    ghost wire_number = { mdba_number };

    ghost wire_value = { mdba_of };

    fn from_wire(number: u16) -> Mdba {
        Mdba::from(number)
    }

    fn to_wire(&self) -> u16 {
        u16::from(*self)
    }

    ghost back_to_number = { λ n _. Prim.search (first_with-number, rules) };
}

impl RtaType for Mdba {}
