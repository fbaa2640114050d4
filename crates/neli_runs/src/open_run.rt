//! A run that goes on, command by command.

ghost use Rattle.std.specs.Prelude.{[], IfOk};
ghost use Rattle.neli_runs.specs.OpenRuns.{GoesOn, HasDone};

use crate::session::Session;
use crate::{Command, Deliveries, Outcome};
use neli_consts::NlType;
use neli_wire::{FromBytesWithInput, NoMemory, Size, ToBytes};
use std::alloc::Global;

/// A router with its handles, which performs one command after the other: a [`run`](crate::run) whose commands and
/// outcomes need not be kept.
#[derive(Drop)]
pub struct OpenRun<D, RT, RP> {
    session: Session<D, RT, RP>,
}

impl<D: Deliveries, RT: NlType, RP: FromBytesWithInput + Size + Drop> OpenRun<D, RT, RP> {
    /// A run with a new router of this port, which has performed nothing yet.
    ///
    /// Refused only if memory runs out.
    pub fn start<ST: NlType, SP: ToBytes + Drop>(alloc: Global, pid: u32) -> Result<Self, NoMemory>
        ensures { IfOk result (λ r. HasDone
            RT.wire_value RT.wire_number RP.view RP.wire_length RP.read
            ST.wire_number SP.wire SP.Size.wire_length pid
            (D.port_of r.session.router.deliveries) r.session.router.next_seq
            (D.pending r.session.router.deliveries) r.session.handles.items [] []) }
    {
        let session = Session::start(alloc, pid)?;
        Ok(OpenRun { session })
    }

    /// Performs one more command, and returns its outcome.
    ///
    /// Refused only if memory runs out; the run cannot go on then.
    pub fn perform<ST: NlType, SP: ToBytes + Drop>(
        &mut self,
        alloc: Global,
        command: Command<ST, SP>,
    ) -> Result<Outcome<ST, SP, RT, RP>, NoMemory>
        ensures { IfOk result (λ o. GoesOn
            RT.wire_value RT.wire_number RP.view RP.wire_length RP.read
            ST.wire_number SP.wire SP.Size.wire_length
            (D.port_of self.old.session.router.deliveries) self.old.session.router.next_seq
            (D.pending self.old.session.router.deliveries) self.old.session.handles.items
            (D.port_of self.new.session.router.deliveries) self.new.session.router.next_seq
            (D.pending self.new.session.router.deliveries) self.new.session.handles.items
            command o) }
    {
        let outcome = self.session.step(alloc, command)?;
        Ok(outcome)
    }
}
