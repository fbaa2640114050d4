//! The types that read the number of a command.

ghost use Rattle.std.proofs.Common.{rules};
ghost use Rattle.std.specs.Prelude.{◌≡◌};
ghost use Rattle.neli_consts.specs.declared.commands.LogCfgCmdWrapper.{LogCfgCmdWrapper};
ghost use Rattle.neli_consts.specs.LogCfgCmdWrapper.{log_cfg_cmd_wrapper_number, log_cfg_cmd_wrapper_of};
ghost use Rattle.neli_wire.specs.laws.Constants.{first_recognized-number, first_with-number};

use crate::CtrlCmd;
use neli_consts_system::LogCmd;
use neli_wire::Constant;

/// A command of a family of generic netlink: it has a value for each number of 8 bits, and each
/// value has a number. A number's value has that same number.
pub trait Cmd: PartialEq + Constant<Number = u8> {
    /// The command that a number means.
    fn from_number(number: u8) -> Self
        ensures { result ≡ Self.Constant.wire_value number }
    {
        Self::from_wire(number)
    }

    /// The number of a command.
    fn to_number(&self) -> u8
        ensures { result ≡ Self.Constant.wire_number self.now }
    {
        self.to_wire()
    }
}

impl Cmd for u8 {}

impl Cmd for CtrlCmd {}

/// A command of a logging configuration of netfilter: it has a value for each number of 8 bits, and
/// each value has a number. A number's value has that same number.
pub trait LogCfgCmd: PartialEq + Constant<Number = u8> {
    /// The command that a number means.
    fn from_number(number: u8) -> Self
        ensures { result ≡ Self.Constant.wire_value number }
    {
        Self::from_wire(number)
    }

    /// The number of a command.
    fn to_number(&self) -> u8
        ensures { result ≡ Self.Constant.wire_number self.now }
    {
        self.to_wire()
    }
}

impl LogCfgCmd for u8 {}

impl LogCfgCmd for LogCmd {}

impl LogCfgCmd for LogCfgCmdWrapper {}

/// A command of a logging configuration, by its only table.
#[derive(Clone, Copy, Debug, PartialEq, Eq)]
pub enum LogCfgCmdWrapper {
    /// A command of this table.
    LogCmd(LogCmd),
    /// A number for which it has no name.
    UnrecognizedConst(u8),
}

impl From<u8> for LogCfgCmdWrapper {
    ghost from_gives = { λ number value. value ≡ log_cfg_cmd_wrapper_of number };

    fn from(number: u8) -> LogCfgCmdWrapper {
        let log_cmd = LogCmd::from(number);
        if !log_cmd.is_unrecognized() {
            return LogCfgCmdWrapper::LogCmd(log_cmd);
        }
        LogCfgCmdWrapper::UnrecognizedConst(number)
    }
}

impl From<LogCfgCmdWrapper> for u8 {
    ghost from_gives = { λ value number. number ≡ log_cfg_cmd_wrapper_number value };

    fn from(value: LogCfgCmdWrapper) -> u8 {
        match value {
            LogCfgCmdWrapper::LogCmd(log_cmd) => log_cmd.into(),
            LogCfgCmdWrapper::UnrecognizedConst(number) => number,
        }
    }
}

impl From<&LogCfgCmdWrapper> for u8 {
    ghost from_gives = { λ value number. number ≡ log_cfg_cmd_wrapper_number value.now };

    fn from(value: &LogCfgCmdWrapper) -> u8 {
        u8::from(*value)
    }
}

impl From<LogCmd> for LogCfgCmdWrapper {
    ghost from_gives = { λ log_cmd value. value ≡ LogCfgCmdWrapper.LogCmd log_cmd };

    fn from(log_cmd: LogCmd) -> LogCfgCmdWrapper {
        LogCfgCmdWrapper::LogCmd(log_cmd)
    }
}

impl Constant for LogCfgCmdWrapper {
    type Number = u8;

    ghost wire_number = { log_cfg_cmd_wrapper_number };

    ghost wire_value = { log_cfg_cmd_wrapper_of };

    fn from_wire(number: u8) -> LogCfgCmdWrapper {
        LogCfgCmdWrapper::from(number)
    }

    fn to_wire(&self) -> u8 {
        u8::from(self)
    }

    ghost back_to_number = { λ n _. Prim.search
        (first_recognized-number, first_with-number, rules) };
}
