//! The commands of a script.

ghost use Rattle.std.specs.Prelude.{◌≡◌, IfOk, OnErr};
ghost use Rattle.neli_program.specs.declared.script.ScriptError.TheVariants as script;
ghost use Rattle.neli_program.specs.Script.{IsCommandOf, command_takes_memory};

use crate::entry::Entry;
use neli_attr::Buffer;
use neli_consts::NlmF;
use neli_reader::{NlPayload, SocketError};
use neli_runs::Command;
use neli_util::Groups;
use neli_wire::NoMemory;
use std::alloc::{AllocError, AllocFailed, Global};

/// Why a script is not played.
#[derive(Clone, Copy, Debug, PartialEq, Eq)]
pub(crate) enum ScriptError {
    /// The line with this number is the first bad one. Lines are counted from 1.
    BadLine(usize),
    /// Memory ran out.
    Memory,
}

impl From<AllocError> for ScriptError {
    ghost from_gives = { λ _ e. e ≡ script.Memory };

    fn from(_error: AllocError) -> ScriptError {
        ScriptError::Memory
    }
}

impl<V: Drop> From<AllocFailed<V>> for ScriptError {
    ghost from_gives = { λ _ e. e ≡ script.Memory };

    fn from(_error: AllocFailed<V>) -> ScriptError {
        ScriptError::Memory
    }
}

impl From<NoMemory> for ScriptError {
    ghost from_gives = { λ _ e. e ≡ script.Memory };

    fn from(_error: NoMemory) -> ScriptError {
        ScriptError::Memory
    }
}

/// The command of a line; none for a port.
///
/// Refused only if memory runs out; only the groups of a datagram take some.
pub(crate) fn command_of(
    alloc: Global,
    entry: Entry,
) -> Result<Option<Command<u16, Buffer>>, NoMemory>
    ensures command { IfOk result (IsCommandOf entry) }
    ensures memory { OnErr result (command_takes_memory entry) }
{
    Ok(Some(match entry {
        Entry::Port(_) => return Ok(None),
        Entry::Number(number) => Command::SetNextSeq(number),
        Entry::Request(message_type, flags, bytes) => {
            Command::Send(message_type, NlmF::from(flags), NlPayload::Payload(bytes))
        }
        Entry::Datagram(mask, bytes) => {
            Command::Datagram(Vec::from(bytes), Groups::new_bitmask(alloc, mask)?)
        }
        Entry::Fault(kind) => Command::Fault(SocketError::Io(kind)),
        Entry::Read(handle) => Command::Read(handle),
        Entry::Close(handle) => Command::Close(handle),
    }))
}
