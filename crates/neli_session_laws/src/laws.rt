//! The laws. The calls do nothing: their contracts are the laws, over the definitions only.

ghost use Rattle.neli_session_laws.specs.Answered.{RequestsAreAnswered};
ghost use Rattle.neli_session_laws.specs.Busy.{NoDumpIsRefused};
ghost use Rattle.neli_session_laws.specs.Given.{DatagramsBringAnswers, SimulatedAnswersAreWhole};
ghost use Rattle.neli_session_laws.specs.Given.{SimulatedRequestsAreAnswered};
ghost use Rattle.neli_session_laws.specs.Silent.{SilentRequestsAreComplete};

use neli_kernel::laws::{answers_are_one_frame, finished_dump_is_delivered};
use neli_session::laws::{
    dumps_take_turns, reads_are_noted, reads_are_the_answer, requests_are_followed, stages_follow,
};

/// A request of a session that the other side answers by a whole answer reads that answer: each message once and in
/// order, and then the end, whatever comes for others in between, notifications and strays too, and whatever is sent,
/// read or closed. Its verdict is `Pending` until the answer decides it.
///
/// Until all of the answer has come the link has no fault, each datagram is whole messages, and the link is seen empty
/// only before the request was sent.
#[tactic(auto, using(crate::proofs::Answered::answered))]
pub fn requests_are_answered()
    ensures { RequestsAreAnswered }
{
    requests_are_followed();
    reads_are_the_answer();
    reads_are_noted();
    stages_follow();
}

/// A request that nothing answers to an end, as a change of routing without an acknowledgement, is `Complete` once the
/// link was seen empty and all was read: the notifications of its change that came, if it has ECHO, each once and in
/// order, and then the end. Before that its verdict is `Pending`.
///
/// From when it goes out until then the link has no fault.
#[tactic(auto, using(crate::proofs::Answered::silent_complete))]
pub fn silent_requests_are_complete()
    ensures { SilentRequestsAreComplete }
{
    requests_are_followed();
    reads_are_the_answer();
    reads_are_noted();
    stages_follow();
}

/// The simulator's answers are whole, and decide the verdict: an acknowledgement, after replies or none, and a reply
/// without MULTI that it is complete; a finished dump that, or that it failed with the code of its end; and an error
/// that it failed with its code. No message of them is marked as interrupted. Each has the request's number and the port
/// of its socket.
#[tactic(auto, using(crate::proofs::Given::simulated_whole))]
pub fn simulated_answers_are_whole()
    ensures { SimulatedAnswersAreWhole }
{
    answers_are_one_frame();
    finished_dump_is_delivered();
}

/// A datagram of such messages brings them to the request with their number, if it came to no group, or if the request
/// has ECHO; and nothing to another request.
#[tactic(auto, using(crate::proofs::Given::datagram_brings))]
pub fn datagrams_bring_answers()
    ensures { DatagramsBringAnswers }
{}

/// A kernel that runs one dump at a time, from when its request goes out until its last message comes, and refuses a
/// dump with EBUSY while another one runs, refuses none of a session's, whatever else happens, faults of the link too.
/// Where it answers while a request is sent, a link that was seen empty has no dump to come.
#[tactic(auto, using(crate::proofs::Busy::never_busy))]
pub fn no_dump_is_refused()
    ensures { NoDumpIsRefused }
{
    dumps_take_turns();
}

/// With the simulator's kernel each request of a session is answered, wholly: where the simulator answers it in the way
/// that the session expects, its reads return that answer, each message once and in order, and then the end; whatever
/// comes for others in between, notifications and strays too, and whatever is sent, read or closed. Once all was read its
/// verdict is `Complete`, or `Failed` with the code by which the simulator refused it or ended its dump, and before that
/// `Pending`; never another. A kernel that refuses a dump with EBUSY while another one runs answers it no otherwise.
pub fn simulated_requests_are_answered()
    ensures { SimulatedRequestsAreAnswered }
{
    requests_are_answered();
    simulated_answers_are_whole();
    no_dump_is_refused();
}
