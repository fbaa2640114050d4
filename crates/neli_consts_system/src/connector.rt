//! Numbers of the connector.

ghost use Rattle.std.proofs.Common.{rules};
ghost use Rattle.std.specs.Prelude.{◌≡◌};
ghost use Rattle.neli_consts_system.specs.CnMsgIdx.{cn_msg_idx_number, cn_msg_idx_of, cn_msg_idx_is_unrecognized};
ghost use Rattle.neli_consts_system.specs.CnMsgVal.{cn_msg_val_number, cn_msg_val_of, cn_msg_val_is_unrecognized};
ghost use Rattle.neli_consts_system.specs.ProcEventType.{proc_event_type_number, proc_event_type_of};
ghost use Rattle.neli_consts_system.specs.ProcEventType.{proc_event_type_is_unrecognized};
ghost use Rattle.neli_consts_system.specs.ProcCnMcastOp.{proc_cn_mcast_op_number, proc_cn_mcast_op_of};
ghost use Rattle.neli_consts_system.specs.ProcCnMcastOp.{proc_cn_mcast_op_is_unrecognized};
ghost use Rattle.neli_wire.specs.laws.Constants.{first_with-number};

use neli_wire::Constant;

/// The users of the connector: `CN_IDX_*`, `CN_W1_IDX` and the like of `linux/connector.h`.
#[derive(Clone, Copy, Debug, PartialEq, Eq)]
pub enum CnMsgIdx {
    /// Events of processes.
    Proc,
    /// The file system CIFS.
    Cifs,
    /// The 1-wire bus.
    W1,
    /// The helper of the frame buffer uvesafb.
    V86d,
    /// The sampling framework BlackBoard.
    Bb,
    /// Distributed storage.
    Dst,
    /// The device mapper.
    Dm,
    /// Replicated block devices.
    Drbd,
    /// Keys and values of Hyper-V.
    Kvp,
    /// Snapshots of Hyper-V.
    Vss,
    /// A number without a name.
    UnrecognizedConst(u32),
}

impl CnMsgIdx {
    /// Whether the value is a number without a name, an `UnrecognizedConst`.
    pub fn is_unrecognized(&self) -> bool
        ensures { result ≡ cn_msg_idx_is_unrecognized self.now }
    {
        matches!(self, CnMsgIdx::UnrecognizedConst(_))
    }
}

impl From<u32> for CnMsgIdx {
    ghost from_gives = { λ number value. value ≡ cn_msg_idx_of number };

    fn from(number: u32) -> CnMsgIdx {
        match number {
            1 => CnMsgIdx::Proc,
            2 => CnMsgIdx::Cifs,
            3 => CnMsgIdx::W1,
            4 => CnMsgIdx::V86d,
            5 => CnMsgIdx::Bb,
            6 => CnMsgIdx::Dst,
            7 => CnMsgIdx::Dm,
            8 => CnMsgIdx::Drbd,
            9 => CnMsgIdx::Kvp,
            10 => CnMsgIdx::Vss,
            _ => CnMsgIdx::UnrecognizedConst(number),
        }
    }
}

impl From<CnMsgIdx> for u32 {
    ghost from_gives = { λ value number. number ≡ cn_msg_idx_number value };

    fn from(value: CnMsgIdx) -> u32 {
        match value {
            CnMsgIdx::Proc => 1,
            CnMsgIdx::Cifs => 2,
            CnMsgIdx::W1 => 3,
            CnMsgIdx::V86d => 4,
            CnMsgIdx::Bb => 5,
            CnMsgIdx::Dst => 6,
            CnMsgIdx::Dm => 7,
            CnMsgIdx::Drbd => 8,
            CnMsgIdx::Kvp => 9,
            CnMsgIdx::Vss => 10,
            CnMsgIdx::UnrecognizedConst(number) => number,
        }
    }
}

impl From<&CnMsgIdx> for u32 {
    ghost from_gives = { λ value number. number ≡ cn_msg_idx_number value.now };

    fn from(value: &CnMsgIdx) -> u32 {
        u32::from(*value)
    }
}

impl Constant for CnMsgIdx {
    type Number = u32;

    ghost wire_number = { cn_msg_idx_number };

    ghost wire_value = { cn_msg_idx_of };

    fn from_wire(number: u32) -> CnMsgIdx {
        CnMsgIdx::from(number)
    }

    fn to_wire(&self) -> u32 {
        u32::from(self)
    }

    ghost back_to_number = { λ n _. Prim.search (first_with-number, rules) };
}

/// The second half of a connector user's number: `CN_VAL_*`, `CN_W1_VAL` and the like of
/// `linux/connector.h`. All of them are 1, so 1 is read as the first; the [`CnMsgIdx`] beside it
/// distinguishes them.
#[derive(Clone, Copy, Debug, PartialEq, Eq)]
pub enum CnMsgVal {
    /// Beside [`CnMsgIdx::Proc`].
    Proc,
    /// Beside [`CnMsgIdx::Cifs`].
    Cifs,
    /// Beside [`CnMsgIdx::W1`].
    W1,
    /// Beside [`CnMsgIdx::V86d`].
    V86dUvesafb,
    /// Beside [`CnMsgIdx::Dst`].
    Dst,
    /// Beside [`CnMsgIdx::Dm`].
    DmUserspaceLog,
    /// Beside [`CnMsgIdx::Drbd`].
    Drbd,
    /// Beside [`CnMsgIdx::Kvp`].
    Kvp,
    /// Beside [`CnMsgIdx::Vss`].
    Vss,
    /// A number without a name.
    UnrecognizedConst(u32),
}

impl CnMsgVal {
    /// Whether the value is a number without a name, an `UnrecognizedConst`.
    pub fn is_unrecognized(&self) -> bool
        ensures { result ≡ cn_msg_val_is_unrecognized self.now }
    {
        matches!(self, CnMsgVal::UnrecognizedConst(_))
    }
}

impl From<u32> for CnMsgVal {
    ghost from_gives = { λ number value. value ≡ cn_msg_val_of number };

    fn from(number: u32) -> CnMsgVal {
        match number {
            1 => CnMsgVal::Proc,
            _ => CnMsgVal::UnrecognizedConst(number),
        }
    }
}

impl From<CnMsgVal> for u32 {
    ghost from_gives = { λ value number. number ≡ cn_msg_val_number value };

    fn from(value: CnMsgVal) -> u32 {
        match value {
            CnMsgVal::Proc => 1,
            CnMsgVal::Cifs => 1,
            CnMsgVal::W1 => 1,
            CnMsgVal::V86dUvesafb => 1,
            CnMsgVal::Dst => 1,
            CnMsgVal::DmUserspaceLog => 1,
            CnMsgVal::Drbd => 1,
            CnMsgVal::Kvp => 1,
            CnMsgVal::Vss => 1,
            CnMsgVal::UnrecognizedConst(number) => number,
        }
    }
}

impl From<&CnMsgVal> for u32 {
    ghost from_gives = { λ value number. number ≡ cn_msg_val_number value.now };

    fn from(value: &CnMsgVal) -> u32 {
        u32::from(*value)
    }
}

impl Constant for CnMsgVal {
    type Number = u32;

    ghost wire_number = { cn_msg_val_number };

    ghost wire_value = { cn_msg_val_of };

    fn from_wire(number: u32) -> CnMsgVal {
        CnMsgVal::from(number)
    }

    fn to_wire(&self) -> u32 {
        u32::from(self)
    }

    ghost back_to_number = { λ n _. Prim.search (first_with-number, rules) };
}

/// What happened to a process: `PROC_EVENT_*` of `linux/cn_proc.h`. Each is a bit of its own, so
/// that a request can name a set of them.
#[derive(Clone, Copy, Debug, PartialEq, Eq)]
pub enum ProcEventType {
    /// Nothing: the answer to a request to listen.
    None,
    /// It made a process or a thread.
    Fork,
    /// It runs another program.
    Exec,
    /// It changed its user.
    Uid,
    /// It changed its group.
    Gid,
    /// It began a session.
    Sid,
    /// Its tracing began or ended.
    Ptrace,
    /// It changed its name.
    Comm,
    /// It ended with a status other than 0.
    NonzeroExit,
    /// It wrote its memory to a file.
    Coredump,
    /// It ended.
    Exit,
    /// A number without a name.
    UnrecognizedConst(u32),
}

impl ProcEventType {
    /// Whether the value is a number without a name, an `UnrecognizedConst`.
    pub fn is_unrecognized(&self) -> bool
        ensures { result ≡ proc_event_type_is_unrecognized self.now }
    {
        matches!(self, ProcEventType::UnrecognizedConst(_))
    }
}

impl From<u32> for ProcEventType {
    ghost from_gives = { λ number value. value ≡ proc_event_type_of number };

    fn from(number: u32) -> ProcEventType {
        match number {
            0 => ProcEventType::None,
            1 => ProcEventType::Fork,
            2 => ProcEventType::Exec,
            4 => ProcEventType::Uid,
            0x40 => ProcEventType::Gid,
            0x80 => ProcEventType::Sid,
            0x100 => ProcEventType::Ptrace,
            0x200 => ProcEventType::Comm,
            0x20000000 => ProcEventType::NonzeroExit,
            0x40000000 => ProcEventType::Coredump,
            0x80000000 => ProcEventType::Exit,
            _ => ProcEventType::UnrecognizedConst(number),
        }
    }
}

impl From<ProcEventType> for u32 {
    ghost from_gives = { λ value number. number ≡ proc_event_type_number value };

    fn from(value: ProcEventType) -> u32 {
        match value {
            ProcEventType::None => 0,
            ProcEventType::Fork => 1,
            ProcEventType::Exec => 2,
            ProcEventType::Uid => 4,
            ProcEventType::Gid => 0x40,
            ProcEventType::Sid => 0x80,
            ProcEventType::Ptrace => 0x100,
            ProcEventType::Comm => 0x200,
            ProcEventType::NonzeroExit => 0x20000000,
            ProcEventType::Coredump => 0x40000000,
            ProcEventType::Exit => 0x80000000,
            ProcEventType::UnrecognizedConst(number) => number,
        }
    }
}

impl From<&ProcEventType> for u32 {
    ghost from_gives = { λ value number. number ≡ proc_event_type_number value.now };

    fn from(value: &ProcEventType) -> u32 {
        u32::from(*value)
    }
}

impl Constant for ProcEventType {
    type Number = u32;

    ghost wire_number = { proc_event_type_number };

    ghost wire_value = { proc_event_type_of };

    fn from_wire(number: u32) -> ProcEventType {
        ProcEventType::from(number)
    }

    fn to_wire(&self) -> u32 {
        u32::from(self)
    }

    ghost back_to_number = { λ n _. Prim.search (first_with-number, rules) };
}

/// A listener's request for events of processes: `PROC_CN_MCAST_*` of `linux/cn_proc.h`.
#[derive(Clone, Copy, Debug, PartialEq, Eq)]
pub enum ProcCnMcastOp {
    /// Send them from now on.
    Listen,
    /// Send no more.
    Ignore,
    /// A number without a name.
    UnrecognizedConst(u32),
}

impl ProcCnMcastOp {
    /// Whether the value is a number without a name, an `UnrecognizedConst`.
    pub fn is_unrecognized(&self) -> bool
        ensures { result ≡ proc_cn_mcast_op_is_unrecognized self.now }
    {
        matches!(self, ProcCnMcastOp::UnrecognizedConst(_))
    }
}

impl From<u32> for ProcCnMcastOp {
    ghost from_gives = { λ number value. value ≡ proc_cn_mcast_op_of number };

    fn from(number: u32) -> ProcCnMcastOp {
        match number {
            1 => ProcCnMcastOp::Listen,
            2 => ProcCnMcastOp::Ignore,
            _ => ProcCnMcastOp::UnrecognizedConst(number),
        }
    }
}

impl From<ProcCnMcastOp> for u32 {
    ghost from_gives = { λ value number. number ≡ proc_cn_mcast_op_number value };

    fn from(value: ProcCnMcastOp) -> u32 {
        match value {
            ProcCnMcastOp::Listen => 1,
            ProcCnMcastOp::Ignore => 2,
            ProcCnMcastOp::UnrecognizedConst(number) => number,
        }
    }
}

impl From<&ProcCnMcastOp> for u32 {
    ghost from_gives = { λ value number. number ≡ proc_cn_mcast_op_number value.now };

    fn from(value: &ProcCnMcastOp) -> u32 {
        u32::from(*value)
    }
}

impl Constant for ProcCnMcastOp {
    type Number = u32;

    ghost wire_number = { proc_cn_mcast_op_number };

    ghost wire_value = { proc_cn_mcast_op_of };

    fn from_wire(number: u32) -> ProcCnMcastOp {
        ProcCnMcastOp::from(number)
    }

    fn to_wire(&self) -> u32 {
        u32::from(self)
    }

    ghost back_to_number = { λ n _. Prim.search (first_with-number, rules) };
}
