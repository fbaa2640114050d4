//! A request: what comes for it, until nothing more can come.

ghost use Rattle.std.specs.Prelude.{◌≡◌, ◌≤◌, ◌<◌, ◌++◌, ◌∷◌, ◌||◌, [], None, Ok, Some, if◌then◌else◌, IfOk, OnErr, OnOk, true, false, is_some, length, option_map, take};
ghost use Rattle.neli_lent.specs.Messages.{message_view};
ghost use Rattle.neli_session.specs.Messages.{IsMessage, messages_of};
ghost use Rattle.neli_session.specs.Readiness.{is_ready};
ghost use Rattle.neli_session.specs.Noted.{noted_of};
ghost use Rattle.neli_session.specs.Waiting.{Item, lent_item};
ghost use Rattle.neli_session.specs.Requests.{answers, changed, end_verdict, ends, heard, is_awaited};
ghost use Rattle.neli_session.specs.Requests.{is_marked, is_over, left_at, lost, message_verdict, next_item, passed, verdict_with};
ghost use Rattle.neli_session.specs.Requests.{sent_at, settled, unsent, verdict_of};
ghost use Rattle.neli_session.specs.Runs.{HasRun, heard_run};
ghost use Rattle.neli_session.specs.Sends.{is_running};
ghost use Rattle.neli_session.specs.Sessions.{closed, has_ended, kept, queued};

use crate::Loss;
use crate::change::Change;
use crate::noted::Noted;
use crate::queue::Queue;
use crate::run::{Run, ends, run_of};
use bitflags::Flags;
use neli_answers::Answering;
use neli_consts::NlmF;
use neli_lent::LentMessage;
use neli_wire::NoMemory;
use std::alloc::Global;

/// How far the answer to a request has come.
#[derive(Clone, Copy, Debug, PartialEq, Eq)]
pub enum Stage {
    /// It waits to be sent.
    Queued,
    /// The link sends it, and something may come.
    Leaving,
    /// It was sent, and something may still come.
    Awaited,
    /// The message that ends it has come.
    Ended,
    /// The link was seen empty before such a message.
    Silent,
}

impl Stage {
    /// Whether something may still come.
    pub(crate) fn is_awaited(self) -> bool
        ensures { result ≡ is_awaited self }
    {
        matches!(self, Stage::Leaving | Stage::Awaited)
    }

    /// Whether nothing comes any more.
    pub(crate) fn is_over(self) -> bool
        ensures { result ≡ is_over self }
    {
        matches!(self, Stage::Ended | Stage::Silent)
    }

    /// The stage once the link sends the request.
    fn left(self) -> Stage
        ensures { result ≡ left_at self }
    {
        match self {
            Stage::Queued => Stage::Leaving,
            stage => stage,
        }
    }

    /// The stage once the link has sent it.
    fn sent(self) -> Stage
        ensures { result ≡ sent_at self }
    {
        match self {
            Stage::Leaving => Stage::Awaited,
            stage => stage,
        }
    }

    /// The stage once the link was seen empty.
    fn settled(self) -> Stage
        ensures { result ≡ settled self }
    {
        match self {
            Stage::Awaited => Stage::Silent,
            stage => stage,
        }
    }
}

/// The verdict on an answer, by what was read of it. All but [`Verdict::Pending`] are final.
#[derive(Clone, Copy, Debug, PartialEq, Eq)]
pub enum Verdict {
    /// More of it is to be read, or to come.
    Pending,
    /// All of it was read, its end too, and nothing of it was lost or marked as interrupted.
    Complete,
    /// A message of it has the flag `NLM_F_DUMP_INTR`: the listed objects changed meanwhile, so entries may be missing
    /// or repeated. Request it again.
    Interrupted,
    /// The other side answered with an error, or ended a dump with one: the code, as -19 for `ENODEV`.
    Failed(i32),
    /// Something was lost while it was awaited, or it was not sent.
    Lost(Loss),
    /// The link was seen empty before its end: nothing more comes.
    Unanswered,
}

/// A request whose number is in use.
#[derive(Drop)]
pub struct Request {
    pub(crate) answering: Answering,
    /// It has the flag ECHO: the notification of its change is part of its answer.
    pub(crate) echoes: bool,
    pub(crate) stage: Stage,
    /// Somebody reads its answer.
    pub(crate) is_open: bool,
    /// The messages that wait to be read.
    pub(crate) waiting: Queue,
    /// The first loss while its answer was awaited.
    pub(crate) loss: Option<Loss>,
    /// That loss was read.
    pub(crate) is_told: bool,
    /// The verdict by the items that were read.
    pub(crate) noted: Verdict,
    /// A message that was read is marked as filtered.
    pub(crate) is_filtered: bool,
}

/// The verdict by a message.
pub(crate) fn message_verdict(message: &LentMessage<'_, u16>) -> Verdict
    ensures { result ≡ message_verdict (message_view message.now) }
{
    let code = message.code();
    if message.nl_flags().contains(NlmF::DUMP_INTR) {
        Verdict::Interrupted
    } else if code == 0 {
        Verdict::Pending
    } else {
        Verdict::Failed(code)
    }
}

/// The verdict where all of an answer was read.
fn end_verdict(stage: Stage, answering: Answering) -> Verdict
    ensures { result ≡ end_verdict stage answering }
{
    match stage {
        Stage::Ended => Verdict::Complete,
        Stage::Silent => match answering {
            Answering::Silence => Verdict::Complete,
            _ => Verdict::Unanswered,
        },
        _ => Verdict::Pending,
    }
}

impl Request {
    /// A request that waits to be sent. It takes no memory.
    pub(crate) fn new(alloc: Global, answering: Answering, echoes: bool) -> Request
        ensures { result ≡ queued answering echoes }
    {
        Request {
            answering,
            echoes,
            stage: Stage::Queued,
            is_open: true,
            waiting: Queue::new(alloc),
            loss: None,
            is_told: false,
            noted: Verdict::Pending,
            is_filtered: false,
        }
    }

    /// Whether a message for this group, or for none, which is 0, answers it.
    pub(crate) fn answers(&self, group: u32) -> bool
        ensures { result ≡ answers group self.now }
    {
        self.stage.is_awaited() && (group == 0 || self.echoes)
    }

    /// Takes in the run of its answer at the front of bytes, whose first message is this one, of so many bytes. Refused
    /// only if memory runs out; then nothing changes.
    pub(crate) fn hear(
        &mut self,
        message: &LentMessage<'_, u16>,
        first: usize,
        bytes: &[u8],
    ) -> Result<Run, NoMemory>
        requires within { first ≤ length bytes.now }
        requires some { 0 < first }
        requires first { IsMessage (take first bytes.now) (message_view message.now) }
        ensures run { IfOk result (λ run.
            HasRun self.old.answering (message_view message.now) bytes.now run) }
        ensures heard { IfOk result (λ run. self.new
            ≡ heard_run (messages_of (take run.length bytes.now)) run.ended self.old) }
        ensures unchanged { OnErr result (self.new ≡ self.old) }
    {
        let run = run_of(self.answering, message, first, bytes);
        if self.is_open && self.loss.is_none() {
            self.waiting.add(&bytes[..run.length])?;
        }
        if run.ended {
            self.stage = Stage::Ended;
        }
        Ok(run)
    }

    /// Takes in a message of its answer, which these bytes are, and appends it to a queue too. Refused only if memory runs out; then nothing changes.
    pub(crate) fn hear_with(
        &mut self,
        queue: &mut Queue,
        message: &LentMessage<'_, u16>,
        span: &[u8],
    ) -> Result<(), NoMemory>
        requires { IsMessage span.now (message_view message.now) }
        ensures heard { OnOk result (self.new ≡ heard (message_view message.now) self.old) }
        ensures queue { OnOk result
            (queue.new ≡ queue.old ++ Ok (message_view message.now) ∷ []) }
        ensures unchanged { OnErr result ((self.new ≡ self.old) × (queue.new ≡ queue.old)) }
    {
        if self.is_open && self.loss.is_none() {
            self.waiting.add_both(queue, span)?;
        } else {
            queue.add(span)?;
        }
        self.note(message);
        Ok(())
    }

    /// Notes whether its answer ends with a message.
    fn note(&mut self, message: &LentMessage<'_, u16>)
        ensures { self.new ≡ record self.old {
          stage = if ends self.old.answering (message_view message.now) then Stage.Ended
              else self.old.stage;
        } }
    {
        if ends(self.answering, message) {
            self.stage = Stage::Ended;
        }
    }

    /// Notes a loss.
    fn lose(&mut self, loss: Loss)
        ensures { self.new ≡ lost loss self.old }
    {
        if self.stage.is_awaited() && self.loss.is_none() {
            self.loss = Some(loss);
        }
    }

    /// The next item.
    pub(crate) fn next(&self) -> Option<Result<LentMessage<'_, u16>, Loss>>
        ensures { option_map lent_item result ≡ next_item self.now }
    {
        match self.waiting.first() {
            Some(item) => Some(item),
            None => match self.loss {
                Some(loss) if !self.is_told => Some(Err(loss)),
                _ => None,
            },
        }
    }

    /// Notes what is noted of an item that is read.
    fn take_note(&mut self, noted: Noted)
        ensures { (item : Item) → noted ≡ noted_of item → self.new ≡ record self.old {
          noted = verdict_with self.old.noted item;
          is_filtered = is_marked item || self.old.is_filtered;
        } }
    {
        self.is_filtered = noted.is_filtered || self.is_filtered;
        if self.noted == Verdict::Pending {
            self.noted = noted.verdict;
        }
    }

    /// Goes past the next item, if there is one.
    pub(crate) fn pass(&mut self)
        ensures { self.new ≡ passed self.old }
    {
        if let Some(noted) = self.waiting.pass() {
            self.take_note(noted);
            return;
        }
        if let Some(loss) = self.loss {
            if !self.is_told {
                self.is_told = true;
                self.take_note(Noted::of_loss(loss));
            }
        }
    }

    /// Whether it is a dump that runs.
    pub(crate) fn is_running(&self) -> bool
        ensures { result ≡ is_running (Some self.now) }
    {
        matches!(self.answering, Answering::Dump) && self.stage.is_awaited()
    }

    /// Whether no item follows those that wait.
    pub(crate) fn has_ended(&self) -> bool
        ensures { result ≡ has_ended self.now }
    {
        self.stage.is_over() || self.loss.is_some()
    }

    /// Whether somebody reads it, and a read returns an item, a loss or the end.
    pub(crate) fn is_ready(&self) -> bool
        ensures { result ≡ is_ready self.now }
    {
        self.is_open && (self.has_ended() || !self.waiting.is_empty())
    }

    /// Whether its number is in use: somebody reads it, or something may come.
    pub(crate) fn is_kept(&self) -> bool
        ensures { result ≡ is_some (kept (Some self.now)) }
    {
        self.is_open || !self.stage.is_over()
    }

    /// Keeps nothing of its answer any more. It takes no memory.
    pub(crate) fn close(&mut self)
        ensures { self.new ≡ record self.old { is_open = false; waiting = [] } }
    {
        self.is_open = false;
        self.waiting.clear();
    }

    /// The verdict on its answer.
    pub(crate) fn verdict(&self) -> Verdict
        ensures { result ≡ verdict_of self.now }
    {
        match self.noted {
            Verdict::Pending => match self.next() {
                Some(_) => Verdict::Pending,
                None => end_verdict(self.stage, self.answering),
            },
            noted => noted,
        }
    }

    /// Notes that the link has not sent it.
    fn fail(&mut self, errno: i32)
        ensures { self.new ≡ unsent errno self.old }
    {
        if self.stage == Stage::Leaving {
            self.lose(Loss::Unsent(errno));
            self.stage = Stage::Silent;
        }
    }

    /// Notes what happens to it.
    pub(crate) fn change(&mut self, change: Change)
        ensures { self.new ≡ changed change self.old }
    {
        match change {
            Change::Leave => self.stage = self.stage.left(),
            Change::Sent => self.stage = self.stage.sent(),
            Change::Unsent(errno) => self.fail(errno),
            Change::Lose(loss) => self.lose(loss),
            Change::Settle => self.stage = self.stage.settled(),
        }
    }
}
