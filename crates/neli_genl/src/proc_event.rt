//! What happened to a process.

ghost use Rattle.std.specs.Prelude.{◌≡◌, ◌+◌, ◌≤◌, ◌++◌, length};
ghost use Rattle.std.specs.Int.{w32};
ghost use Rattle.neli_wire.specs.Numbers.{signed_bytes};
ghost use Rattle.neli_wire.specs.laws.Sizes.{unpadded-rounded};
ghost use Rattle.neli_genl.specs.ProcEvents.{event_bytes, event_kind, event_size, four_numbers};

use neli_body::HeaderBytes;
use neli_consts_system::ProcEventType;
use neli_wire::Size;

/// What happened to a process: the union in `struct proc_event` of `linux/cn_proc.h`. Process numbers
/// are those of the first namespace; a `tgid` is the number of a process, a `pid` that of its thread.
#[derive(Clone, Copy, Debug, PartialEq, Eq)]
pub enum ProcEvent {
    /// The answer to a request, with an error number or 0.
    Ack {
        /// The error number, or 0.
        err: u32,
    },
    /// A process or a thread began.
    Fork {
        /// The parent's thread.
        parent_pid: i32,
        /// The parent's process.
        parent_tgid: i32,
        /// The child's thread.
        child_pid: i32,
        /// The child's process.
        child_tgid: i32,
    },
    /// A process runs another program.
    Exec {
        /// The number of the thread.
        process_pid: i32,
        /// The number of its process, which all its threads share.
        process_tgid: i32,
    },
    /// A process changed its user numbers, the real one and the effective one.
    Uid {
        /// The number of the thread.
        process_pid: i32,
        /// The number of its process, which all its threads share.
        process_tgid: i32,
        /// The real user.
        ruid: u32,
        /// The effective user.
        euid: u32,
    },
    /// A process changed its group numbers, the real one and the effective one.
    Gid {
        /// The number of the thread.
        process_pid: i32,
        /// The number of its process, which all its threads share.
        process_tgid: i32,
        /// The real group.
        rgid: u32,
        /// The effective group.
        egid: u32,
    },
    /// A process began a session.
    Sid {
        /// The number of the thread.
        process_pid: i32,
        /// The number of its process, which all its threads share.
        process_tgid: i32,
    },
    /// A process is traced; with a tracer's numbers of 0 no longer.
    Ptrace {
        /// The number of the thread.
        process_pid: i32,
        /// The number of its process, which all its threads share.
        process_tgid: i32,
        /// The tracer's thread, or 0.
        tracer_pid: i32,
        /// The tracer's process, or 0.
        tracer_tgid: i32,
    },
    /// A thread changed its name.
    Comm {
        /// The number of the thread.
        process_pid: i32,
        /// The number of its process, which all its threads share.
        process_tgid: i32,
        /// The name, with zeros after it.
        comm: [u8; 16],
    },
    /// A process wrote its memory to a file.
    Coredump {
        /// The number of the thread.
        process_pid: i32,
        /// The number of its process, which all its threads share.
        process_tgid: i32,
        /// The parent's thread.
        parent_pid: i32,
        /// The parent's process.
        parent_tgid: i32,
    },
    /// A thread ended, with the status and the signal that its parent gets.
    Exit {
        /// The number of the thread.
        process_pid: i32,
        /// The number of its process, which all its threads share.
        process_tgid: i32,
        /// The status, as wait(2) gives it.
        exit_code: u32,
        /// The signal that the parent gets.
        exit_signal: u32,
        /// The parent's thread.
        parent_pid: i32,
        /// The parent's process.
        parent_tgid: i32,
    },
}

impl From<&ProcEvent> for ProcEventType {
    ghost from_gives = { λ event kind. kind ≡ event_kind event.now };

    /// The type that the event is written with: `NonzeroExit` for an `Exit` with a code other than 0.
    fn from(event: &ProcEvent) -> ProcEventType {
        match event {
            ProcEvent::Ack { .. } => ProcEventType::None,
            ProcEvent::Fork { .. } => ProcEventType::Fork,
            ProcEvent::Exec { .. } => ProcEventType::Exec,
            ProcEvent::Uid { .. } => ProcEventType::Uid,
            ProcEvent::Gid { .. } => ProcEventType::Gid,
            ProcEvent::Sid { .. } => ProcEventType::Sid,
            ProcEvent::Ptrace { .. } => ProcEventType::Ptrace,
            ProcEvent::Comm { .. } => ProcEventType::Comm,
            ProcEvent::Coredump { .. } => ProcEventType::Coredump,
            ProcEvent::Exit { exit_code: 0, .. } => ProcEventType::Exit,
            ProcEvent::Exit { .. } => ProcEventType::NonzeroExit,
        }
    }
}

impl Size for ProcEvent {
    ghost unpadded_length = { event_size };

    ghost wire_length = { event_size };

    ghost rounded = { unpadded-rounded event_size };

    /// The size of all the event's fields, in bytes.
    fn unpadded_size(&self) -> usize {
        match self {
            ProcEvent::Ack { .. } => 4,
            ProcEvent::Exec { .. } | ProcEvent::Sid { .. } => 8,
            ProcEvent::Comm { comm, .. } => 8 + name_size(comm),
            ProcEvent::Exit { .. } => 24,
            _ => 16,
        }
    }

    fn written_size(&self) -> usize {
        self.unpadded_size()
    }
}

/// The bytes of an event, without its header.
pub(crate) fn spell_event(event: &ProcEvent) -> HeaderBytes
    ensures bytes { result ≡ event_bytes event.now }
    ensures most { length result ≤ 24 }
{
    match *event {
        ProcEvent::Ack { err } => HeaderBytes::new().u32(err),
        ProcEvent::Fork {
            parent_pid,
            parent_tgid,
            child_pid,
            child_tgid,
        } => spell_four(parent_pid, parent_tgid, child_pid, child_tgid),
        ProcEvent::Exec {
            process_pid,
            process_tgid,
        } => spell_two(process_pid, process_tgid),
        ProcEvent::Uid {
            process_pid,
            process_tgid,
            ruid,
            euid,
        } => spell_two(process_pid, process_tgid).u32(ruid).u32(euid),
        ProcEvent::Gid {
            process_pid,
            process_tgid,
            rgid,
            egid,
        } => spell_two(process_pid, process_tgid).u32(rgid).u32(egid),
        ProcEvent::Sid {
            process_pid,
            process_tgid,
        } => spell_two(process_pid, process_tgid),
        ProcEvent::Ptrace {
            process_pid,
            process_tgid,
            tracer_pid,
            tracer_tgid,
        } => spell_four(process_pid, process_tgid, tracer_pid, tracer_tgid),
        ProcEvent::Comm {
            process_pid,
            process_tgid,
            comm,
        } => spell_named(process_pid, process_tgid, &comm),
        ProcEvent::Coredump {
            process_pid,
            process_tgid,
            parent_pid,
            parent_tgid,
        } => spell_four(process_pid, process_tgid, parent_pid, parent_tgid),
        ProcEvent::Exit {
            process_pid,
            process_tgid,
            exit_code,
            exit_signal,
            parent_pid,
            parent_tgid,
        } => spell_two(process_pid, process_tgid)
            .u32(exit_code)
            .u32(exit_signal)
            .i32(parent_pid)
            .i32(parent_tgid),
    }
}

/// The bytes of two signed numbers.
fn spell_two(a: i32, b: i32) -> HeaderBytes
    ensures { result ≡ signed_bytes w32 4 a ++ signed_bytes w32 4 b }
{
    HeaderBytes::new().i32(a).i32(b)
}

/// The bytes of four signed numbers.
fn spell_four(a: i32, b: i32, c: i32, d: i32) -> HeaderBytes
    ensures { result ≡ four_numbers a b c d }
{
    HeaderBytes::new().i32(a).i32(b).i32(c).i32(d)
}

/// The bytes of two signed numbers and a name.
fn spell_named(a: i32, b: i32, name: &[u8; 16]) -> HeaderBytes
    ensures bytes { result ≡ signed_bytes w32 4 a ++ signed_bytes w32 4 b ++ name.now }
    ensures most { length result ≤ 24 }
{
    HeaderBytes::new().i32(a).i32(b).bytes(name)
}

/// The size of a name, in bytes.
fn name_size(name: &[u8; 16]) -> usize
    ensures size { result ≡ length name.now }
    ensures bound { result ≤ 16 }
{
    name.len()
}
