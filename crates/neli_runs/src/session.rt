//! A router with its handles.

ghost use Rattle.std.specs.Prelude.{◌≡◌, ◌≢◌, ◌<◌, ℕ, ◌∷◌, [], Option, Some, None, IfOk, OnOk, length};
ghost use Rattle.std.specs.List.{slice_get};
ghost use Rattle.std.proofs.Math.ListN.{set};
ghost use Rattle.neli_runs.specs.Outcomes.{outcome_of};
ghost use Rattle.neli_runs.specs.laws.Kept.{IsStep, multicast};

use crate::{Command, Deliveries, NlRouter, NlRouterReceiverHandle, Outcome, Reply};
use neli_consts::{NlType, NlmF};
use neli_reader::{NlPayload, RouterError};
use neli_wire::{FromBytesWithInput, NoMemory, Size, ToBytes};
use std::alloc::Global;
use std::mem::replace;

/// A router, and its handles: that for multicast, and one for each request that was sent. The place
/// of a closed handle is empty.
#[derive(Drop)]
pub(crate) struct Session<D, RT, RP> {
    router: NlRouter<D>,
    handles: Vec<Option<NlRouterReceiverHandle<RT, RP>>>,
}

/// Removes the handle from a place, if there is one.
fn take<H: Drop>(handles: &mut Vec<Option<H>>, k: usize) -> Option<H>
    ensures none { result ≡ None → (handles.new.items ≡ handles.old.items)
        × ((x : H) → slice_get handles.old.items k ≢ Some (Some x)) }
    ensures some { (x : H) → result ≡ Some x → (slice_get handles.old.items k ≡ Some (Some x))
        × (handles.new.items ≡ set handles.old.items k None) }
{
    if k >= handles.len() {
        return None;
    }
    replace(&mut handles[k], None)
}

/// Puts a handle into a place.
fn put<H: Drop>(handles: &mut Vec<Option<H>>, k: usize, handle: H)
    requires { k < length handles.old.items }
    ensures { handles.new.items ≡ set handles.old.items k (Some handle) }
{
    handles[k] = Some(handle);
}

impl<D: Deliveries, RT: NlType, RP: FromBytesWithInput + Size + Drop> Session<D, RT, RP> {
    /// A new router, with the handle for multicast.
    pub(crate) fn start(alloc: Global, pid: u32) -> Result<Self, NoMemory>
        ensures port { IfOk result (λ s. D.port_of s.router.deliveries ≡ pid) }
        ensures next_seq { IfOk result (λ s. s.router.next_seq ≡ 0) }
        ensures multicast { IfOk result (λ s. D.pending s.router.deliveries None ≡ Some []) }
        ensures numbers { IfOk result
            (λ s. (q : ℕ) → D.pending s.router.deliveries (Some q) ≡ None) }
        ensures handles { IfOk result (λ s. s.handles.items ≡ Some multicast ∷ []) }
    {
        let (router, multicast) = NlRouter::new(alloc, pid);
        let mut handles = Vec::new(alloc);
        handles.push(Some(multicast.retyped()))?;
        Ok(Session { router, handles })
    }

    fn send<ST: NlType, SP: ToBytes + Drop>(
        &mut self,
        alloc: Global,
        nl_type: ST,
        nl_flags: NlmF,
        nl_payload: NlPayload<ST, SP>,
    ) -> Result<Outcome<ST, SP, RT, RP>, NoMemory>
        ensures port { OnOk result
            (D.port_of self.new.router.deliveries ≡ D.port_of self.old.router.deliveries) }
        ensures goes { IfOk result (λ o. IsStep
            RT.wire_value RT.wire_number RP.view RP.wire_length RP.read
            ST.wire_number SP.wire SP.Size.wire_length (D.port_of self.old.router.deliveries)
            self.old.router.next_seq (D.pending self.old.router.deliveries) self.old.handles.items
            self.new.router.next_seq (D.pending self.new.router.deliveries) self.new.handles.items
            (Command.Send nl_type nl_flags nl_payload) o) }
    {
        match self.router.send(alloc, nl_type, nl_flags, nl_payload) {
            Ok((bytes, handle)) => {
                self.handles.push(Some(handle))?;
                Ok(Outcome::Sent(bytes))
            }
            Err(error) => match error {
                RouterError::Memory => Err(NoMemory),
                error => Ok(Outcome::NotSent(error)),
            },
        }
    }

    fn read<ST: NlType, SP: ToBytes + Drop>(
        &mut self,
        alloc: Global,
        k: usize,
    ) -> Result<Outcome<ST, SP, RT, RP>, NoMemory>
        ensures port { OnOk result
            (D.port_of self.new.router.deliveries ≡ D.port_of self.old.router.deliveries) }
        ensures goes { IfOk result (λ o. IsStep
            RT.wire_value RT.wire_number RP.view RP.wire_length RP.read
            ST.wire_number SP.wire SP.Size.wire_length (D.port_of self.old.router.deliveries)
            self.old.router.next_seq (D.pending self.old.router.deliveries) self.old.handles.items
            self.new.router.next_seq (D.pending self.new.router.deliveries) self.new.handles.items
            (Command.Read k) o) }
    {
        match take(&mut self.handles, k) {
            None => Ok(Outcome::NoHandle),
            Some(found) => {
                let mut handle = found;
                let reply = self.router.next_typed(alloc, &mut handle)?;
                put(&mut self.handles, k, handle);
                Ok(outcome_of(reply))
            }
        }
    }

    fn close<ST: NlType, SP: ToBytes + Drop>(&mut self, k: usize) -> Outcome<ST, SP, RT, RP>
        ensures port { D.port_of self.new.router.deliveries ≡ D.port_of self.old.router.deliveries }
        ensures goes { IsStep
            RT.wire_value RT.wire_number RP.view RP.wire_length RP.read
            ST.wire_number SP.wire SP.Size.wire_length (D.port_of self.old.router.deliveries)
            self.old.router.next_seq (D.pending self.old.router.deliveries) self.old.handles.items
            self.new.router.next_seq (D.pending self.new.router.deliveries) self.new.handles.items
            (Command.Close k) result }
    {
        match take(&mut self.handles, k) {
            None => Outcome::NoHandle,
            Some(handle) => {
                self.router.close(handle);
                Outcome::Done
            }
        }
    }

    /// Does one command.
    pub(crate) fn step<ST: NlType, SP: ToBytes + Drop>(
        &mut self,
        alloc: Global,
        command: Command<ST, SP>,
    ) -> Result<Outcome<ST, SP, RT, RP>, NoMemory>
        ensures port { OnOk result
            (D.port_of self.new.router.deliveries ≡ D.port_of self.old.router.deliveries) }
        ensures goes { IfOk result (λ o. IsStep
            RT.wire_value RT.wire_number RP.view RP.wire_length RP.read
            ST.wire_number SP.wire SP.Size.wire_length (D.port_of self.old.router.deliveries)
            self.old.router.next_seq (D.pending self.old.router.deliveries) self.old.handles.items
            self.new.router.next_seq (D.pending self.new.router.deliveries) self.new.handles.items
            command o) }
    {
        match command {
            Command::SetNextSeq(number) => {
                self.router.set_next_seq(number);
                Ok(Outcome::Done)
            }
            Command::Send(nl_type, nl_flags, nl_payload) => {
                self.send(alloc, nl_type, nl_flags, nl_payload)
            }
            Command::Datagram(bytes, groups) => {
                self.router.processing_loop(&bytes, &groups)?;
                Ok(Outcome::Done)
            }
            Command::Fault(error) => {
                self.router.error_handling(error)?;
                Ok(Outcome::Done)
            }
            Command::Read(k) => self.read(alloc, k),
            Command::Close(k) => Ok(self.close(k)),
        }
    }
}

/// Returns the outcome of a read with this reply.
fn outcome_of<ST, SP, RT, RP>(reply: Reply<RT, RP>) -> Outcome<ST, SP, RT, RP>
    ensures { result ≡ outcome_of reply }
{
    match reply {
        Reply::Item(item) => Outcome::Item(item),
        Reply::End => Outcome::End,
        Reply::Waits => Outcome::Waits,
    }
}
