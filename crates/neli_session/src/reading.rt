//! What is read.

ghost use Rattle.std.specs.Prelude.{◌≡◌, ℕ, None, Some, IfSome, IsNone, false, nat_eq, option_map};
ghost use Rattle.neli_session.specs.Lines.{first_in, is_in, without};
ghost use Rattle.neli_session.specs.Readiness.{has_some, is_reader_ready, read_in, ready_at};
ghost use Rattle.neli_session.specs.Requests.{verdict_of};
ghost use Rattle.neli_session.specs.Sends.{SameSending};
ghost use Rattle.neli_session.specs.Sessions.{IsReplyOf, IsReplyOfQueue, at, closed_at, filtered_at, passed_at, without_first};

use crate::queue::Queue;
use crate::{Loss, Session, Verdict};
use neli_lent::LentMessage;

/// Whose reads these are.
#[derive(Clone, Copy, Debug, PartialEq, Eq)]
pub enum Reader {
    /// The answer to the request with this sequence number.
    Request(u32),
    /// What came for groups.
    Multicast,
    /// What came for no group, and answers no request.
    Unasked,
}

/// The result of a read.
#[derive(Clone, Copy, Debug)]
pub enum Next<'b> {
    /// The next message, lent where the session keeps its bytes.
    Message(LentMessage<'b, u16>),
    /// Something was lost here.
    Loss(Loss),
    /// No item follows.
    End,
    /// No item has come yet.
    Waits,
    /// Nobody reads here: the request is not in use or was closed.
    Closed,
}

/// The next of a queue.
fn next_in(queue: &Option<Queue>) -> Next<'_>
    ensures { IsReplyOfQueue queue.now result }
{
    match queue {
        None => Next::Closed,
        Some(queue) => match queue.first() {
            None => Next::Waits,
            Some(Ok(message)) => Next::Message(message),
            Some(Err(loss)) => Next::Loss(loss),
        },
    }
}

/// Whether something waits in a queue.
fn has_some(queue: &Option<Queue>) -> bool
    ensures { result ≡ has_some queue.now }
{
    match queue {
        None => false,
        Some(queue) => !queue.is_empty(),
    }
}

/// Goes past the first of a queue, if there is one.
fn pass_in(queue: &mut Option<Queue>)
    ensures { queue.new ≡ without_first queue.old }
{
    if let Some(queue) = queue {
        queue.pass();
    }
}

impl Session {
    /// The next item of the answer to a request.
    fn next_answer(&self, number: u32) -> Next<'_>
        ensures { IsReplyOf (at self.now.requests number) result }
    {
        let Some(request) = self.requests.get(number) else {
            return Next::Closed;
        };
        if !request.is_open {
            return Next::Closed;
        }
        match request.next() {
            Some(Ok(message)) => Next::Message(message),
            Some(Err(loss)) => Next::Loss(loss),
            None => {
                if request.has_ended() {
                    Next::End
                } else {
                    Next::Waits
                }
            }
        }
    }

    /// Lends the next item of a reader; or returns the end, or that it waits. The item stays the next one until
    /// it is passed. It takes no memory.
    pub fn next(&self, reader: Reader) -> Next<'_>
        ensures request { (q : ℕ) → reader ≡ Reader.Request q
            → IsReplyOf (at self.now.requests q) result }
        ensures multicast { reader ≡ Reader.Multicast
            → IsReplyOfQueue self.now.multicast result }
        ensures unasked { reader ≡ Reader.Unasked → IsReplyOfQueue self.now.unasked result }
    {
        match reader {
            Reader::Request(number) => self.next_answer(number),
            Reader::Multicast => next_in(&self.multicast),
            Reader::Unasked => next_in(&self.unasked),
        }
    }

    /// The number of the first request in line: of those whose [`Session::next`] returns an item, a loss or the end. A
    /// request joins the line at its end when it has something to read, goes to the end again when it was read
    /// ([`Session::pass_answer`]) and has more, and leaves when it has nothing or is closed. So who reads the first, and
    /// passes its item or closes it at the end, reads all in turn. It takes constant time, and no memory.
    pub fn next_ready(&self) -> Option<u32>
        ensures first { result ≡ first_in self.now.requests.line }
        ensures ready { (q : ℕ) → is_in q self.now.requests.line
            ≡ ready_at (at self.now.requests q) }
    {
        self.requests.first_ready()
    }

    /// Whether a read of this reader returns an item, a loss or the end. It takes constant time, and no memory.
    pub fn is_ready(&self, reader: Reader) -> bool
        ensures { result
            ≡ is_reader_ready self.now.multicast self.now.unasked (at self.now.requests) reader }
    {
        match reader {
            Reader::Request(number) => match self.requests.get(number) {
                None => false,
                Some(request) => request.is_ready(),
            },
            Reader::Multicast => has_some(&self.multicast),
            Reader::Unasked => has_some(&self.unasked),
        }
    }

    /// Goes past the next item of the answer to a request, if there is one.
    pub fn pass_answer(&mut self, number: u32)
        ensures own { at self.new.requests number ≡ passed_at (at self.old.requests number) }
        ensures others { (q : ℕ) → nat_eq number q ≡ false
            → at self.new.requests q ≡ at self.old.requests q }
        ensures line { self.new.requests.line
            ≡ read_in (ready_at (at self.new.requests number)) number self.old.requests.line }
        ensures multicast { self.new.multicast ≡ self.old.multicast }
        ensures unasked { self.new.unasked ≡ self.old.unasked }
        ensures sending { SameSending self.old self.new }
    {
        self.requests.pass(number);
    }

    /// Goes past the next message or loss of multicast, if there is one.
    pub fn pass_multicast(&mut self)
        ensures multicast { self.new.multicast ≡ without_first self.old.multicast }
        ensures requests { self.new.requests ≡ self.old.requests }
        ensures unasked { self.new.unasked ≡ self.old.unasked }
        ensures sending { SameSending self.old self.new }
    {
        pass_in(&mut self.multicast);
    }

    /// Goes past the next message or loss of what answers no request, if there is one.
    pub fn pass_unasked(&mut self)
        ensures unasked { self.new.unasked ≡ without_first self.old.unasked }
        ensures requests { self.new.requests ≡ self.old.requests }
        ensures multicast { self.new.multicast ≡ self.old.multicast }
        ensures sending { SameSending self.old self.new }
    {
        pass_in(&mut self.unasked);
    }

    /// The verdict on the answer to a request, by what was read of it; none if its number is not in use.
    pub fn verdict(&self, number: u32) -> Option<Verdict>
        ensures { result ≡ option_map verdict_of (at self.now.requests number) }
    {
        match self.requests.get(number) {
            None => None,
            Some(request) => Some(request.verdict()),
        }
    }

    /// Whether a message that was read of the answer to a request is marked as filtered (`NLM_F_DUMP_FILTERED`): the
    /// kernel left objects out, as the request wanted. False if the number is not in use.
    pub fn is_filtered(&self, number: u32) -> bool
        ensures { result ≡ filtered_at (at self.now.requests number) }
    {
        match self.requests.get(number) {
            None => false,
            Some(request) => request.is_filtered,
        }
    }

    /// Closes a request: nothing of its answer is kept any more, and its number is in use until nothing more can come
    /// for it.
    pub fn close(&mut self, number: u32)
        ensures own { at self.new.requests number ≡ closed_at (at self.old.requests number) }
        ensures others { (q : ℕ) → nat_eq number q ≡ false
            → at self.new.requests q ≡ at self.old.requests q }
        ensures line { self.new.requests.line ≡ without number self.old.requests.line }
        ensures multicast { self.new.multicast ≡ self.old.multicast }
        ensures unasked { self.new.unasked ≡ self.old.unasked }
        ensures sending { SameSending self.old self.new }
    {
        self.requests.close(number);
    }
}
