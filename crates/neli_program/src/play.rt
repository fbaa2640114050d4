//! Plays a script line by line.

ghost use Rattle.std.specs.Prelude.{◌≡◌, ◌≤◌, [], IfOk, IfErr, OnOk, vec_len};
ghost use Rattle.neli_program.specs.declared.script.ScriptError.TheVariants as script;
ghost use Rattle.neli_program.specs.Plays.{Follows, HasPlayed, Performs};
ghost use Rattle.neli_program.specs.Replays.{Answers};
ghost use Rattle.neli_program.specs.Script.{BadLineOf};

use crate::entry::{Entry, read_line};
use crate::report::{count_sent, write_line};
use crate::script::{ScriptError, command_of};
use crate::words::{LineError, parts_of};
use neli_attr::Buffer;
use neli_runs::{Command, Deliveries, OpenRun};
use std::alloc::Global;

/// A script that is being played. No command and no outcome is kept.
#[derive(Drop)]
struct Playing<D> {
    run: OpenRun<D, u16, Buffer>,
    /// The number of sent requests: handle k is that of the k-th.
    sent: usize,
    /// The lines of the outcomes.
    lines: Vec<u8>,
}

impl<D: Deliveries> Playing<D> {
    /// A new router of this port, which has performed nothing yet.
    fn start(alloc: Global, port: u32) -> Result<Self, ScriptError>
        ensures none { IfOk result (λ p. HasPlayed port
            (D.port_of p.run.session.router.deliveries) p.run.session.router.next_seq
            (D.pending p.run.session.router.deliveries) p.run.session.handles.items
            p.sent p.lines.items []) }
        ensures within { IfOk result (λ p. p.sent ≤ vec_len p.lines) }
        ensures memory { IfErr result (λ e. e ≡ script.Memory) }
    {
        let run = OpenRun::start::<u16, Buffer>(alloc, port)?;
        let lines = Vec::new(alloc);
        Ok(Playing {
            run,
            sent: 0,
            lines,
        })
    }

    /// Performs a command, and adds the line of its outcome.
    fn perform(&mut self, alloc: Global, command: Command<u16, Buffer>) -> Result<(), ScriptError>
        // A line has a byte or more.
        requires { self.old.sent ≤ vec_len self.old.lines }
        ensures performs { OnOk result (Performs command
            (D.port_of self.old.run.session.router.deliveries) self.old.run.session.router.next_seq
            (D.pending self.old.run.session.router.deliveries) self.old.run.session.handles.items
            self.old.sent self.old.lines.items
            (D.port_of self.new.run.session.router.deliveries) self.new.run.session.router.next_seq
            (D.pending self.new.run.session.router.deliveries) self.new.run.session.handles.items
            self.new.sent self.new.lines.items) }
        ensures within { OnOk result (self.new.sent ≤ vec_len self.new.lines) }
        ensures memory { IfErr result (λ e. e ≡ script.Memory) }
    {
        let outcome = self.run.perform(alloc, command)?;
        self.sent += count_sent(&outcome);
        let Ok(()) = write_line(&outcome, self.sent, &mut self.lines) else {
            return Err(ScriptError::Memory);
        };
        Ok(())
    }

    /// Follows a line. A port begins a new router, since only the first line sets one.
    fn follow(&mut self, alloc: Global, entry: Entry) -> Result<(), ScriptError>
        requires { self.old.sent ≤ vec_len self.old.lines }
        ensures follows { OnOk result (Follows entry
            (D.port_of self.old.run.session.router.deliveries) self.old.run.session.router.next_seq
            (D.pending self.old.run.session.router.deliveries) self.old.run.session.handles.items
            self.old.sent self.old.lines.items
            (D.port_of self.new.run.session.router.deliveries) self.new.run.session.router.next_seq
            (D.pending self.new.run.session.router.deliveries) self.new.run.session.handles.items
            self.new.sent self.new.lines.items) }
        ensures within { OnOk result (self.new.sent ≤ vec_len self.new.lines) }
        ensures memory { IfErr result (λ e. e ≡ script.Memory) }
    {
        match entry {
            Entry::Port(port) => {
                *self = Playing::start(alloc, port)?;
                Ok(())
            }
            entry => match command_of(alloc, entry)? {
                Some(command) => self.perform(alloc, command),
                None => Ok(()),
            },
        }
    }
}

/// Plays a script with a new router, and returns the lines of the outcomes of its commands.
///
/// Refused with the number of the first bad line, or if memory runs out.
pub(crate) fn play<D: Deliveries>(alloc: Global, script: &[u8]) -> Result<Vec<u8>, ScriptError>
    ensures text { IfOk result (λ text. Answers script.now text.items) }
    ensures bad { IfErr result (BadLineOf script.now) }
{
    let lines = parts_of(alloc, script, b'\n')?;
    let mut playing: Playing<D> = Playing::start(alloc, 0)?;
    let mut first = true;
    for (index, line) in lines.iter().enumerate() {
        if line.is_empty() {
            continue;
        }
        match read_line(alloc, line, first) {
            Ok(entry) => playing.follow(alloc, entry)?,
            Err(LineError::Bad) => return Err(ScriptError::BadLine(index + 1)),
            Err(LineError::Memory) => return Err(ScriptError::Memory),
        }
        first = false;
    }
    let Playing { lines: text, .. } = playing;
    Ok(text)
}
