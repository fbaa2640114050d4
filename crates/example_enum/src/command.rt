//! Commands of wireless links.

ghost use Rattle.std.proofs.Common.{rules};
ghost use Rattle.example_enum.specs.WirelessCommand.{wireless_command_number, wireless_command_of};
ghost use Rattle.neli.specs.wire.laws.Constants.{first_with-number};

use neli::consts::Constant;
use neli::consts::genl::Cmd;

/// Commands of wireless links: `NL80211_CMD_*` of `linux/nl80211.h`, a few of them.
#[derive(Clone, Copy, Debug, PartialEq, Eq)]
pub enum WirelessCommand {
    GetInterface,
    NewInterface,
    GetScan,
    TriggerScan,
    UnrecognizedConst(u8),
}

impl Constant for WirelessCommand {
    type Number = u8;

    ghost wire_number = { wireless_command_number };

    ghost wire_value = { wireless_command_of };

    fn from_wire(number: u8) -> WirelessCommand {
        match number {
            5 => WirelessCommand::GetInterface,
            7 => WirelessCommand::NewInterface,
            32 => WirelessCommand::GetScan,
            33 => WirelessCommand::TriggerScan,
            _ => WirelessCommand::UnrecognizedConst(number),
        }
    }

    fn to_wire(&self) -> u8 {
        match self {
            WirelessCommand::GetInterface => 5,
            WirelessCommand::NewInterface => 7,
            WirelessCommand::GetScan => 32,
            WirelessCommand::TriggerScan => 33,
            WirelessCommand::UnrecognizedConst(number) => *number,
        }
    }

    ghost back_to_number = { λ n _. Prim.search (first_with-number, rules) };
}

impl Cmd for WirelessCommand {}
