//! Whole runs.

ghost use Rattle.std.specs.Prelude.{IfOk};
ghost use Rattle.neli_runs.specs.Outcomes.{Each, IsAnswered, IsSent};

use crate::{Command, Deliveries, OpenRun, Outcome};
use neli_consts::NlType;
use neli_wire::{FromBytesWithInput, NoMemory, Size, ToBytes};
use std::alloc::Global;

/// Performs these commands in their order, with a new router of this port, and returns one outcome
/// for each.
///
/// `ST` and `SP` are the types of sent messages and payloads, `RT` and `RP` those that every item
/// is read as, also those of multicast. `D` stores the deliveries of the handles.
///
/// Refused only if memory runs out.
pub fn run<D, ST, SP, RT, RP>(
    alloc: Global,
    pid: u32,
    commands: Vec<Command<ST, SP>>,
) -> Result<Vec<Outcome<ST, SP, RT, RP>>, NoMemory>
where
    D: Deliveries,
    ST: NlType,
    SP: ToBytes + Drop,
    RT: NlType,
    RP: FromBytesWithInput + Size + Drop,
    ensures sent { IfOk result
        (λ outcomes. Each (IsSent ST.wire_number SP.wire SP.Size.wire_length pid)
        commands.items outcomes.items) }
    ensures read { IfOk result
        (λ outcomes. Each (IsAnswered RT.wire_value RT.wire_number
        RP.view RP.wire_length RP.read pid) commands.items outcomes.items) }
{
    let mut open: OpenRun<D, RT, RP> = OpenRun::start::<ST, SP>(alloc, pid)?;
    let mut outcomes = Vec::new(alloc);
    for command in commands {
        let outcome = open.perform(alloc, command)?;
        outcomes.push(outcome)?;
    }
    Ok(outcomes)
}
