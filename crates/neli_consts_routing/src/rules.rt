//! Actions of routing rules.

ghost use Rattle.std.proofs.Common.{rules};
ghost use Rattle.std.specs.Prelude.{◌≡◌};
ghost use Rattle.neli_consts_routing.specs.FrAct.{fr_act_number, fr_act_of, fr_act_is_unrecognized};
ghost use Rattle.neli_wire.specs.laws.Constants.{first_with-number};

use neli_wire::Constant;

/// What a routing rule does with a packet: `FR_ACT_*` of `linux/fib_rules.h`.
#[derive(Clone, Copy, Debug, PartialEq, Eq)]
pub enum FrAct {
    /// Not specified.
    Unspec,
    /// Look it up in the rule's table.
    FrActToTbl,
    /// Go on with another rule.
    FrActGoto,
    /// Go on with the next rule.
    FrActNop,
    /// Reserved.
    FrActRes3,
    /// Reserved.
    FrActRes4,
    /// Drop it without an answer.
    FrActBlackhole,
    /// Drop it; the sender learns that the network can't be reached.
    FrActUnreachable,
    /// Drop it; the sender learns that an administrator forbids it.
    FrActProhibit,
    /// One above the last action (`__FR_ACT_MAX`).
    FrActMax,
    /// A number without a name.
    UnrecognizedConst(u8),
}

impl FrAct {
    /// Whether the value is a number without a name, an `UnrecognizedConst`.
    pub fn is_unrecognized(&self) -> bool
        ensures { result ≡ fr_act_is_unrecognized self.now }
    {
        matches!(self, FrAct::UnrecognizedConst(_))
    }
}

impl From<u8> for FrAct {
    ghost from_gives = { λ number value. value ≡ fr_act_of number };

    fn from(number: u8) -> FrAct {
        match number {
            0 => FrAct::Unspec,
            1 => FrAct::FrActToTbl,
            2 => FrAct::FrActGoto,
            3 => FrAct::FrActNop,
            4 => FrAct::FrActRes3,
            5 => FrAct::FrActRes4,
            6 => FrAct::FrActBlackhole,
            7 => FrAct::FrActUnreachable,
            8 => FrAct::FrActProhibit,
            9 => FrAct::FrActMax,
            _ => FrAct::UnrecognizedConst(number),
        }
    }
}

impl From<FrAct> for u8 {
    ghost from_gives = { λ value number. number ≡ fr_act_number value };

    fn from(value: FrAct) -> u8 {
        match value {
            FrAct::Unspec => 0,
            FrAct::FrActToTbl => 1,
            FrAct::FrActGoto => 2,
            FrAct::FrActNop => 3,
            FrAct::FrActRes3 => 4,
            FrAct::FrActRes4 => 5,
            FrAct::FrActBlackhole => 6,
            FrAct::FrActUnreachable => 7,
            FrAct::FrActProhibit => 8,
            FrAct::FrActMax => 9,
            FrAct::UnrecognizedConst(number) => number,
        }
    }
}

impl From<&FrAct> for u8 {
    ghost from_gives = { λ value number. number ≡ fr_act_number value.now };

    fn from(value: &FrAct) -> u8 {
        u8::from(*value)
    }
}

impl Constant for FrAct {
    type Number = u8;

    ghost wire_number = { fr_act_number };

    ghost wire_value = { fr_act_of };

    fn from_wire(number: u8) -> FrAct {
        FrAct::from(number)
    }

    fn to_wire(&self) -> u8 {
        u8::from(self)
    }

    ghost back_to_number = { λ n _. Prim.search (first_with-number, rules) };
}
