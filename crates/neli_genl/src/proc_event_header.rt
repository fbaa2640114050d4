//! An event of a process, with its header.

ghost use Rattle.std.specs.Prelude.{◌≡◌, ◌+◌, Ok, IfOk, IfErr, min};
ghost use Rattle.neli_wire.specs.Refusals.{Refuses};
ghost use Rattle.neli_wire.specs.laws.Sizes.{unpadded-rounded, unpadded-zeros};
ghost use Rattle.neli_wire.specs.laws.Writing.{written-no_memory};
ghost use Rattle.neli_genl.specs.ProcEventHeader.{proc_event_bytes, proc_event_of, proc_event_size};
ghost use Rattle.neli_genl.specs.ProcEventHeader.{proc_event_takes_memory};
ghost use Rattle.neli_genl.specs.laws.ProcEvents.{proc_event_bytes-length, proc_event_of-never_short};
ghost use Rattle.neli_genl.specs.laws.ProcEvents.{proc_event_of-no_memory};

use crate::ProcEvent;
use crate::event_reading::read_event;
use crate::proc_event::spell_event;
use neli_attr::TryClone;
use neli_body::HeaderBytes;
use neli_body::numbers::{u32_in, u64_in};
use neli_consts_system::ProcEventType;
use neli_wire::{Constant, Cursor, DeError, FromBytesWithInput, NoMemory, SerError, Size, ToBytes};
use std::alloc::Global;

/// An event of a process, with its header: `struct proc_event` of `linux/cn_proc.h`. On the wire it is
/// the event's type, the processor, the time, and the event's fields from place 16 on.
#[derive(Debug, Drop, PartialEq, Eq)]
pub struct ProcEventHeader {
    /// The processor that the event was seen on.
    pub cpu: u32,
    /// The time since the system's start, in nanoseconds.
    pub timestamp_ns: u64,
    /// What happened.
    pub event: ProcEvent,
}

impl ProcEventHeader {
    /// An equal event. It takes no memory.
    pub fn try_clone(&self) -> Result<Self, NoMemory>
        ensures { result ≡ Ok self.now }
    {
        Ok(ProcEventHeader {
            cpu: self.cpu,
            timestamp_ns: self.timestamp_ns,
            event: self.event,
        })
    }
}

impl TryClone for ProcEventHeader {
    ghost copy_takes_memory = { λ _. ⊥ };

    fn try_clone(&self) -> Result<Self, NoMemory> {
        ProcEventHeader::try_clone(self)
    }
}

impl Size for ProcEventHeader {
    ghost unpadded_length = { proc_event_size };

    ghost wire_length = { proc_event_size };

    ghost rounded = { unpadded-rounded proc_event_size };

    fn unpadded_size(&self) -> usize {
        self.event.unpadded_size().saturating_add(16)
    }

    fn written_size(&self) -> usize {
        self.unpadded_size()
    }
}

/// The bytes of an event with its header.
fn spell_proc_event(event: &ProcEventHeader) -> HeaderBytes
    ensures { result ≡ proc_event_bytes event.now }
{
    HeaderBytes::new()
        .u32(ProcEventType::from(&event.event).to_wire())
        .u32(event.cpu)
        .u64(event.timestamp_ns)
        .bytes(spell_event(&event.event).as_slice())
}

impl ToBytes for ProcEventHeader {
    ghost wire = { λ h. Ok (proc_event_bytes h) };

    ghost length_is = { proc_event_bytes-length };

    ghost zeros_after = { λ h bytes e. unpadded-zeros (proc_event_size h) bytes
        (proc_event_bytes-length h bytes e) };

    ghost no_memory = { λ h. written-no_memory (proc_event_bytes h) };

    fn to_bytes(&self, buffer: &mut Vec<u8>) -> Result<(), SerError> {
        buffer.extend_from_slice(spell_proc_event(self).as_slice())?;
        Ok(())
    }
}

/// Reads the event in these bytes. Whatever follows it is skipped.
fn read_proc_event(alloc: Global, bytes: &[u8]) -> Result<ProcEventHeader, DeError>
    ensures value { IfOk result (λ h. proc_event_of bytes.now ≡ Ok h) }
    ensures refused { IfErr result
        (Refuses (proc_event_of bytes.now) (proc_event_takes_memory bytes.now)) }
{
    if bytes.len() < 16 {
        return Err(DeError::InvalidInput(bytes.len()));
    }
    let event = read_event(alloc, ProcEventType::from_wire(u32_in(bytes, 0)), bytes)?;
    Ok(ProcEventHeader {
        cpu: u32_in(bytes, 4),
        timestamp_ns: u64_in(bytes, 8),
        event,
    })
}

impl FromBytesWithInput for ProcEventHeader {
    ghost use Rattle.neli_genl.specs.declared.proc_event_header.ProcEventHeader.{ProcEventHeader as Event};

    ghost Value = { Event };

    ghost view = { λ h. h };

    ghost read = { proc_event_of };

    ghost takes_memory = { proc_event_takes_memory };

    ghost no_memory = { proc_event_of-no_memory };

    ghost never_short = { proc_event_of-never_short };

    fn from_bytes_with_input(
        alloc: Global,
        cursor: &mut Cursor<'_>,
        n: usize,
    ) -> Result<ProcEventHeader, DeError> {
        let bytes = cursor.input(n)?;
        let event = read_proc_event(alloc, bytes)?;
        cursor.advance(n);
        Ok(event)
    }
}
