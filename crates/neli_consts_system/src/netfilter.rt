//! Numbers of netfilter's logging.

ghost use Rattle.std.proofs.Common.{rules};
ghost use Rattle.std.specs.Prelude.{◌≡◌};
ghost use Rattle.neli_consts_system.specs.NfLogAttr.{nf_log_attr_number, nf_log_attr_of, nf_log_attr_is_unrecognized};
ghost use Rattle.neli_consts_system.specs.NfLogCfg.{nf_log_cfg_number, nf_log_cfg_of, nf_log_cfg_is_unrecognized};
ghost use Rattle.neli_consts_system.specs.NetfilterMsg.{netfilter_msg_number, netfilter_msg_of};
ghost use Rattle.neli_consts_system.specs.NetfilterMsg.{netfilter_msg_is_unrecognized};
ghost use Rattle.neli_consts_system.specs.LogCmd.{log_cmd_number, log_cmd_of, log_cmd_is_unrecognized};
ghost use Rattle.neli_consts_system.specs.LogCopyMode.{log_copy_mode_number, log_copy_mode_of};
ghost use Rattle.neli_consts_system.specs.LogCopyMode.{log_copy_mode_is_unrecognized};
ghost use Rattle.neli_wire.specs.laws.Constants.{first_with-number};

use neli_wire::Constant;

/// Attributes of a logged packet: `NFULA_*` of `linux/netfilter/nfnetlink_log.h`.
#[derive(Clone, Copy, Debug, PartialEq, Eq)]
pub enum NfLogAttr {
    /// Its protocol, and the hook where it was logged.
    PacketHdr,
    /// Its mark.
    Mark,
    /// When it arrived.
    Timestamp,
    /// The index of its input link.
    IfindexIndev,
    /// The index of its output link.
    IfindexOutdev,
    /// The index of its input port of a bridge (`NFULA_IFINDEX_PHYSINDEV`).
    IfindexPhyindev,
    /// The index of its output port of a bridge (`NFULA_IFINDEX_PHYSOUTDEV`).
    IfindexPhyoutdev,
    /// The hardware address of its sender.
    Hwaddr,
    /// The packet's first bytes.
    Payload,
    /// The text that the logging rule puts before it.
    Prefix,
    /// The user of its socket.
    Uid,
    /// Its number among those of the group.
    Seq,
    /// Its number among those of all groups.
    SeqGlobal,
    /// The group of its socket.
    Gid,
    /// The kind of link.
    Hwtype,
    /// The header of its frame.
    Hwheader,
    /// The length of that header.
    Hwlen,
    /// Its connection.
    Ct,
    /// Its relation to its connection.
    CtInfo,
    /// A number without a name.
    UnrecognizedConst(u16),
}

impl NfLogAttr {
    /// Whether the value is a number without a name, an `UnrecognizedConst`.
    pub fn is_unrecognized(&self) -> bool
        ensures { result ≡ nf_log_attr_is_unrecognized self.now }
    {
        matches!(self, NfLogAttr::UnrecognizedConst(_))
    }
}

impl From<u16> for NfLogAttr {
    ghost from_gives = { λ number value. value ≡ nf_log_attr_of number };

    fn from(number: u16) -> NfLogAttr {
        match number {
            1 => NfLogAttr::PacketHdr,
            2 => NfLogAttr::Mark,
            3 => NfLogAttr::Timestamp,
            4 => NfLogAttr::IfindexIndev,
            5 => NfLogAttr::IfindexOutdev,
            6 => NfLogAttr::IfindexPhyindev,
            7 => NfLogAttr::IfindexPhyoutdev,
            8 => NfLogAttr::Hwaddr,
            9 => NfLogAttr::Payload,
            10 => NfLogAttr::Prefix,
            11 => NfLogAttr::Uid,
            12 => NfLogAttr::Seq,
            13 => NfLogAttr::SeqGlobal,
            14 => NfLogAttr::Gid,
            15 => NfLogAttr::Hwtype,
            16 => NfLogAttr::Hwheader,
            17 => NfLogAttr::Hwlen,
            18 => NfLogAttr::Ct,
            19 => NfLogAttr::CtInfo,
            _ => NfLogAttr::UnrecognizedConst(number),
        }
    }
}

impl From<NfLogAttr> for u16 {
    ghost from_gives = { λ value number. number ≡ nf_log_attr_number value };

    fn from(value: NfLogAttr) -> u16 {
        match value {
            NfLogAttr::PacketHdr => 1,
            NfLogAttr::Mark => 2,
            NfLogAttr::Timestamp => 3,
            NfLogAttr::IfindexIndev => 4,
            NfLogAttr::IfindexOutdev => 5,
            NfLogAttr::IfindexPhyindev => 6,
            NfLogAttr::IfindexPhyoutdev => 7,
            NfLogAttr::Hwaddr => 8,
            NfLogAttr::Payload => 9,
            NfLogAttr::Prefix => 10,
            NfLogAttr::Uid => 11,
            NfLogAttr::Seq => 12,
            NfLogAttr::SeqGlobal => 13,
            NfLogAttr::Gid => 14,
            NfLogAttr::Hwtype => 15,
            NfLogAttr::Hwheader => 16,
            NfLogAttr::Hwlen => 17,
            NfLogAttr::Ct => 18,
            NfLogAttr::CtInfo => 19,
            NfLogAttr::UnrecognizedConst(number) => number,
        }
    }
}

impl From<&NfLogAttr> for u16 {
    ghost from_gives = { λ value number. number ≡ nf_log_attr_number value.now };

    fn from(value: &NfLogAttr) -> u16 {
        u16::from(*value)
    }
}

impl Constant for NfLogAttr {
    type Number = u16;

    ghost wire_number = { nf_log_attr_number };

    ghost wire_value = { nf_log_attr_of };

    fn from_wire(number: u16) -> NfLogAttr {
        NfLogAttr::from(number)
    }

    fn to_wire(&self) -> u16 {
        u16::from(self)
    }

    ghost back_to_number = { λ n _. Prim.search (first_with-number, rules) };
}

/// Attributes of a logging configuration: `NFULA_CFG_*` of `linux/netfilter/nfnetlink_log.h`.
#[derive(Clone, Copy, Debug, PartialEq, Eq)]
pub enum NfLogCfg {
    /// A command, a [`LogCmd`].
    Cmd,
    /// How much of a packet is copied: a number of bytes and a [`LogCopyMode`].
    Mode,
    /// The size of the kernel's buffer, in bytes (`NFULA_CFG_NLBUFSIZ`).
    NlBufSize,
    /// How long the kernel collects packets, in hundredths of a second.
    Timeout,
    /// How many packets the kernel collects.
    QThresh,
    /// Flags: what else is logged of a packet.
    Flags,
    /// A number without a name.
    UnrecognizedConst(u16),
}

impl NfLogCfg {
    /// Whether the value is a number without a name, an `UnrecognizedConst`.
    pub fn is_unrecognized(&self) -> bool
        ensures { result ≡ nf_log_cfg_is_unrecognized self.now }
    {
        matches!(self, NfLogCfg::UnrecognizedConst(_))
    }
}

impl From<u16> for NfLogCfg {
    ghost from_gives = { λ number value. value ≡ nf_log_cfg_of number };

    fn from(number: u16) -> NfLogCfg {
        match number {
            1 => NfLogCfg::Cmd,
            2 => NfLogCfg::Mode,
            3 => NfLogCfg::NlBufSize,
            4 => NfLogCfg::Timeout,
            5 => NfLogCfg::QThresh,
            6 => NfLogCfg::Flags,
            _ => NfLogCfg::UnrecognizedConst(number),
        }
    }
}

impl From<NfLogCfg> for u16 {
    ghost from_gives = { λ value number. number ≡ nf_log_cfg_number value };

    fn from(value: NfLogCfg) -> u16 {
        match value {
            NfLogCfg::Cmd => 1,
            NfLogCfg::Mode => 2,
            NfLogCfg::NlBufSize => 3,
            NfLogCfg::Timeout => 4,
            NfLogCfg::QThresh => 5,
            NfLogCfg::Flags => 6,
            NfLogCfg::UnrecognizedConst(number) => number,
        }
    }
}

impl From<&NfLogCfg> for u16 {
    ghost from_gives = { λ value number. number ≡ nf_log_cfg_number value.now };

    fn from(value: &NfLogCfg) -> u16 {
        u16::from(*value)
    }
}

impl Constant for NfLogCfg {
    type Number = u16;

    ghost wire_number = { nf_log_cfg_number };

    ghost wire_value = { nf_log_cfg_of };

    fn from_wire(number: u16) -> NfLogCfg {
        NfLogCfg::from(number)
    }

    fn to_wire(&self) -> u16 {
        u16::from(self)
    }

    ghost back_to_number = { λ n _. Prim.search (first_with-number, rules) };
}

/// Types of logging messages: the subsystem `NFNL_SUBSYS_ULOG` (4) in the high byte and
/// `NFULNL_MSG_*` of `linux/netfilter/nfnetlink_log.h` in the low one.
#[derive(Clone, Copy, Debug, PartialEq, Eq)]
pub enum NetfilterMsg {
    /// A logged packet, from the kernel.
    LogPacket,
    /// A logging configuration, to the kernel.
    LogConfig,
    /// A number without a name.
    UnrecognizedConst(u16),
}

impl NetfilterMsg {
    /// Whether the value is a number without a name, an `UnrecognizedConst`.
    pub fn is_unrecognized(&self) -> bool
        ensures { result ≡ netfilter_msg_is_unrecognized self.now }
    {
        matches!(self, NetfilterMsg::UnrecognizedConst(_))
    }
}

impl From<u16> for NetfilterMsg {
    ghost from_gives = { λ number value. value ≡ netfilter_msg_of number };

    fn from(number: u16) -> NetfilterMsg {
        match number {
            1024 => NetfilterMsg::LogPacket,
            1025 => NetfilterMsg::LogConfig,
            _ => NetfilterMsg::UnrecognizedConst(number),
        }
    }
}

impl From<NetfilterMsg> for u16 {
    ghost from_gives = { λ value number. number ≡ netfilter_msg_number value };

    fn from(value: NetfilterMsg) -> u16 {
        match value {
            NetfilterMsg::LogPacket => 1024,
            NetfilterMsg::LogConfig => 1025,
            NetfilterMsg::UnrecognizedConst(number) => number,
        }
    }
}

impl From<&NetfilterMsg> for u16 {
    ghost from_gives = { λ value number. number ≡ netfilter_msg_number value.now };

    fn from(value: &NetfilterMsg) -> u16 {
        u16::from(*value)
    }
}

impl Constant for NetfilterMsg {
    type Number = u16;

    ghost wire_number = { netfilter_msg_number };

    ghost wire_value = { netfilter_msg_of };

    fn from_wire(number: u16) -> NetfilterMsg {
        NetfilterMsg::from(number)
    }

    fn to_wire(&self) -> u16 {
        u16::from(self)
    }

    ghost back_to_number = { λ n _. Prim.search (first_with-number, rules) };
}

/// Commands of a logging configuration: `NFULNL_CFG_CMD_*` of `linux/netfilter/nfnetlink_log.h`.
#[derive(Clone, Copy, Debug, PartialEq, Eq)]
pub enum LogCmd {
    /// Take the packets of a group.
    Bind,
    /// Stop taking them.
    Unbind,
    /// Log the packets of an address family.
    PfBind,
    /// Stop logging them.
    PfUnbind,
    /// A number without a name.
    UnrecognizedConst(u8),
}

impl LogCmd {
    /// Whether the value is a number without a name, an `UnrecognizedConst`.
    pub fn is_unrecognized(&self) -> bool
        ensures { result ≡ log_cmd_is_unrecognized self.now }
    {
        matches!(self, LogCmd::UnrecognizedConst(_))
    }
}

impl From<u8> for LogCmd {
    ghost from_gives = { λ number value. value ≡ log_cmd_of number };

    fn from(number: u8) -> LogCmd {
        match number {
            1 => LogCmd::Bind,
            2 => LogCmd::Unbind,
            3 => LogCmd::PfBind,
            4 => LogCmd::PfUnbind,
            _ => LogCmd::UnrecognizedConst(number),
        }
    }
}

impl From<LogCmd> for u8 {
    ghost from_gives = { λ value number. number ≡ log_cmd_number value };

    fn from(value: LogCmd) -> u8 {
        match value {
            LogCmd::Bind => 1,
            LogCmd::Unbind => 2,
            LogCmd::PfBind => 3,
            LogCmd::PfUnbind => 4,
            LogCmd::UnrecognizedConst(number) => number,
        }
    }
}

impl From<&LogCmd> for u8 {
    ghost from_gives = { λ value number. number ≡ log_cmd_number value.now };

    fn from(value: &LogCmd) -> u8 {
        u8::from(*value)
    }
}

impl Constant for LogCmd {
    type Number = u8;

    ghost wire_number = { log_cmd_number };

    ghost wire_value = { log_cmd_of };

    fn from_wire(number: u8) -> LogCmd {
        LogCmd::from(number)
    }

    fn to_wire(&self) -> u8 {
        u8::from(self)
    }

    ghost back_to_number = { λ n _. Prim.search (first_with-number, rules) };
}

/// How much of each packet is logged: `NFULNL_COPY_*` of `linux/netfilter/nfnetlink_log.h`.
#[derive(Clone, Copy, Debug, PartialEq, Eq)]
pub enum LogCopyMode {
    /// Nothing.
    None,
    /// What is known of the packet, without its bytes.
    Meta,
    /// Its bytes too.
    Packet,
    /// A number without a name.
    UnrecognizedConst(u8),
}

impl LogCopyMode {
    /// Whether the value is a number without a name, an `UnrecognizedConst`.
    pub fn is_unrecognized(&self) -> bool
        ensures { result ≡ log_copy_mode_is_unrecognized self.now }
    {
        matches!(self, LogCopyMode::UnrecognizedConst(_))
    }
}

impl From<u8> for LogCopyMode {
    ghost from_gives = { λ number value. value ≡ log_copy_mode_of number };

    fn from(number: u8) -> LogCopyMode {
        match number {
            0 => LogCopyMode::None,
            1 => LogCopyMode::Meta,
            2 => LogCopyMode::Packet,
            _ => LogCopyMode::UnrecognizedConst(number),
        }
    }
}

impl From<LogCopyMode> for u8 {
    ghost from_gives = { λ value number. number ≡ log_copy_mode_number value };

    fn from(value: LogCopyMode) -> u8 {
        match value {
            LogCopyMode::None => 0,
            LogCopyMode::Meta => 1,
            LogCopyMode::Packet => 2,
            LogCopyMode::UnrecognizedConst(number) => number,
        }
    }
}

impl From<&LogCopyMode> for u8 {
    ghost from_gives = { λ value number. number ≡ log_copy_mode_number value.now };

    fn from(value: &LogCopyMode) -> u8 {
        u8::from(*value)
    }
}

impl Constant for LogCopyMode {
    type Number = u8;

    ghost wire_number = { log_copy_mode_number };

    ghost wire_value = { log_copy_mode_of };

    fn from_wire(number: u8) -> LogCopyMode {
        LogCopyMode::from(number)
    }

    fn to_wire(&self) -> u8 {
        u8::from(self)
    }

    ghost back_to_number = { λ n _. Prim.search (first_with-number, rules) };
}
