//! Reading events by their types.

ghost use Rattle.std.specs.Prelude.{◌≡◌, ◌+◌, ◌≤◌, ◌<◌, Some, IfOk, IfErr, OnOk, length};
ghost use Rattle.neli_wire.specs.Refusals.{Refuses};
ghost use Rattle.neli_genl.specs.ProcEvents.{IsUnknown, ack_of, comm_of, coredump_of, event_of, exec_of, exit_of};
ghost use Rattle.neli_genl.specs.ProcEvents.{fork_of, gid_of, ptrace_of, sid_of, signed_in, uid_of, unknown_event};
ghost use Rattle.neli_genl.specs.ProcEvents.{unknown_text};

use crate::ProcEvent;
use neli_body::numbers::{i32_in, u32_in};
use neli_consts_system::ProcEventType;
use neli_wire::DeError;
use std::alloc::Global;
use std::fmt;

/// The number of an event type without a name, as the refusal prints it.
#[derive(Drop)]
struct UnknownEvent(u32);

impl fmt::Display for UnknownEvent {
    ghost output = { λ e. Some (unknown_text e.0) };

    fn fmt<W: fmt::Write>(&self, f: &mut fmt::Formatter<W>) -> fmt::Result {
        let number = self.0;
        write!(
            f,
            "Unrecognized Proc event type: {number} (raw value: {number})"
        )
    }
}

/// The refusal of an event type without a name.
fn unknown(alloc: Global, number: u32) -> DeError
    ensures { Refuses (unknown_event number) (Unit {0}) result }
{
    match DeError::new(alloc, &UnknownEvent(number)) {
        Ok(error) => error,
        Err(error) => DeError::from(error),
    }
}

/// Whether the bytes hold a header and an event of this size after it.
fn has_event(bytes: &[u8], size: usize) -> Result<(), DeError>
    requires { size ≤ 40 }
    ensures enough { OnOk result (16 + size ≤ length bytes.now) }
    ensures refused { IfErr result (λ e. (e ≡ DeError.InvalidInput (length bytes.now))
        × (length bytes.now < 16 + size)) }
{
    if bytes.len() < 16 + size {
        return Err(DeError::InvalidInput(bytes.len()));
    }
    Ok(())
}

/// The four signed numbers after a header.
fn four_in(bytes: &[u8]) -> (i32, i32, i32, i32)
    requires { 32 ≤ length bytes.now }
    ensures first { result.0 ≡ signed_in 16 bytes.now }
    ensures second { result.1 ≡ signed_in 20 bytes.now }
    ensures third { result.2 ≡ signed_in 24 bytes.now }
    ensures fourth { result.3 ≡ signed_in 28 bytes.now }
{
    (
        i32_in(bytes, 16),
        i32_in(bytes, 20),
        i32_in(bytes, 24),
        i32_in(bytes, 28),
    )
}

/// The event of a type, in bytes that begin with its header.
///
/// `InvalidInput` of the number of bytes if they are too few for the event; a message if the type has no name.
pub(crate) fn read_event(
    alloc: Global,
    kind: ProcEventType,
    bytes: &[u8],
) -> Result<ProcEvent, DeError>
    ensures value { IfOk result (λ event. event_of kind bytes.now ≡ Ok event) }
    ensures refused { IfErr result (Refuses (event_of kind bytes.now) (IsUnknown kind)) }
{
    match kind {
        ProcEventType::None => ack_in(bytes),
        ProcEventType::Fork => fork_in(bytes),
        ProcEventType::Exec => exec_in(bytes),
        ProcEventType::Uid => uid_in(bytes),
        ProcEventType::Gid => gid_in(bytes),
        ProcEventType::Sid => sid_in(bytes),
        ProcEventType::Ptrace => ptrace_in(bytes),
        ProcEventType::Comm => comm_in(bytes),
        ProcEventType::Coredump => coredump_in(bytes),
        ProcEventType::Exit | ProcEventType::NonzeroExit => exit_in(bytes),
        ProcEventType::UnrecognizedConst(number) => Err(unknown(alloc, number)),
    }
}

fn ack_in(bytes: &[u8]) -> Result<ProcEvent, DeError>
    ensures value { IfOk result (λ event. ack_of bytes.now ≡ Ok event) }
    ensures refused { IfErr result (Refuses (ack_of bytes.now) ⊥) }
{
    has_event(bytes, 4)?;
    Ok(ProcEvent::Ack {
        err: u32_in(bytes, 16),
    })
}

fn fork_in(bytes: &[u8]) -> Result<ProcEvent, DeError>
    ensures value { IfOk result (λ event. fork_of bytes.now ≡ Ok event) }
    ensures refused { IfErr result (Refuses (fork_of bytes.now) ⊥) }
{
    has_event(bytes, 16)?;
    let (parent_pid, parent_tgid, child_pid, child_tgid) = four_in(bytes);
    Ok(ProcEvent::Fork {
        parent_pid,
        parent_tgid,
        child_pid,
        child_tgid,
    })
}

fn exec_in(bytes: &[u8]) -> Result<ProcEvent, DeError>
    ensures value { IfOk result (λ event. exec_of bytes.now ≡ Ok event) }
    ensures refused { IfErr result (Refuses (exec_of bytes.now) ⊥) }
{
    has_event(bytes, 8)?;
    Ok(ProcEvent::Exec {
        process_pid: i32_in(bytes, 16),
        process_tgid: i32_in(bytes, 20),
    })
}

fn uid_in(bytes: &[u8]) -> Result<ProcEvent, DeError>
    ensures value { IfOk result (λ event. uid_of bytes.now ≡ Ok event) }
    ensures refused { IfErr result (Refuses (uid_of bytes.now) ⊥) }
{
    has_event(bytes, 16)?;
    Ok(ProcEvent::Uid {
        process_pid: i32_in(bytes, 16),
        process_tgid: i32_in(bytes, 20),
        ruid: u32_in(bytes, 24),
        euid: u32_in(bytes, 28),
    })
}

fn gid_in(bytes: &[u8]) -> Result<ProcEvent, DeError>
    ensures value { IfOk result (λ event. gid_of bytes.now ≡ Ok event) }
    ensures refused { IfErr result (Refuses (gid_of bytes.now) ⊥) }
{
    has_event(bytes, 16)?;
    Ok(ProcEvent::Gid {
        process_pid: i32_in(bytes, 16),
        process_tgid: i32_in(bytes, 20),
        rgid: u32_in(bytes, 24),
        egid: u32_in(bytes, 28),
    })
}

fn sid_in(bytes: &[u8]) -> Result<ProcEvent, DeError>
    ensures value { IfOk result (λ event. sid_of bytes.now ≡ Ok event) }
    ensures refused { IfErr result (Refuses (sid_of bytes.now) ⊥) }
{
    has_event(bytes, 8)?;
    Ok(ProcEvent::Sid {
        process_pid: i32_in(bytes, 16),
        process_tgid: i32_in(bytes, 20),
    })
}

fn ptrace_in(bytes: &[u8]) -> Result<ProcEvent, DeError>
    ensures value { IfOk result (λ event. ptrace_of bytes.now ≡ Ok event) }
    ensures refused { IfErr result (Refuses (ptrace_of bytes.now) ⊥) }
{
    has_event(bytes, 16)?;
    let (process_pid, process_tgid, tracer_pid, tracer_tgid) = four_in(bytes);
    Ok(ProcEvent::Ptrace {
        process_pid,
        process_tgid,
        tracer_pid,
        tracer_tgid,
    })
}

fn comm_in(bytes: &[u8]) -> Result<ProcEvent, DeError>
    ensures value { IfOk result (λ event. comm_of bytes.now ≡ Ok event) }
    ensures refused { IfErr result (Refuses (comm_of bytes.now) ⊥) }
{
    has_event(bytes, 24)?;
    let mut comm = [0; 16];
    comm.copy_from_slice(&bytes[24..40]);
    Ok(ProcEvent::Comm {
        process_pid: i32_in(bytes, 16),
        process_tgid: i32_in(bytes, 20),
        comm,
    })
}

fn coredump_in(bytes: &[u8]) -> Result<ProcEvent, DeError>
    ensures value { IfOk result (λ event. coredump_of bytes.now ≡ Ok event) }
    ensures refused { IfErr result (Refuses (coredump_of bytes.now) ⊥) }
{
    has_event(bytes, 16)?;
    let (process_pid, process_tgid, parent_pid, parent_tgid) = four_in(bytes);
    Ok(ProcEvent::Coredump {
        process_pid,
        process_tgid,
        parent_pid,
        parent_tgid,
    })
}

fn exit_in(bytes: &[u8]) -> Result<ProcEvent, DeError>
    ensures value { IfOk result (λ event. exit_of bytes.now ≡ Ok event) }
    ensures refused { IfErr result (Refuses (exit_of bytes.now) ⊥) }
{
    has_event(bytes, 24)?;
    Ok(ProcEvent::Exit {
        process_pid: i32_in(bytes, 16),
        process_tgid: i32_in(bytes, 20),
        exit_code: u32_in(bytes, 24),
        exit_signal: u32_in(bytes, 28),
        parent_pid: i32_in(bytes, 32),
        parent_tgid: i32_in(bytes, 36),
    })
}
