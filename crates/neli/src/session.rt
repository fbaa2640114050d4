//! A session over one socket: what goes out next, the answers to its requests, what comes to its groups, and what
//! nobody asked for.
//!
//! It has no socket: send what [`Session::outgoing`] lends, and hand in what comes. `docs/SESSION.md` says who gets what.
//! This reads a dump to its end (a test, line by line: `suites/library/src/session/example.rs`):
//!
//! ```
//! use neli::consts::nl::NlmF;
//! use neli::consts::socket::NlFamily;
//! use neli::session::{Next, Reader, Session, Verdict};
//!
//! let mut session = Session::new(alloc, NlFamily::Route, port, false);
//! session.set_number(1012);
//! let number = session.request(30, NlmF::DUMP, &[0; 12])?;
//! while session.next_outgoing() {
//!     // Your link sends what `session.outgoing()` lends.
//!     session.sent();
//! }
//! // `datagram` comes back, and then nothing.
//! session.receive(datagram, 0, false)?;
//! session.quiet();
//! while let Next::Message(message) = session.next(Reader::Request(number)) {
//!     bytes += message.nl_payload().len();
//!     session.pass_answer(number);
//! }
//! let is_whole = session.verdict(number) == Some(Verdict::Complete);
//! session.close(number);
//! ```

pub use neli_session::{
    Answering, Freshness, Loss, Next, Reader, SendError, Session, Untaken, Verdict,
};

/// Laws: what the reads of a request return, whatever happens to it, when the verdict is `Complete`, and what holds after
/// any calls of a session; and with the simulator's kernel.
pub mod laws {
    pub use neli_session::laws::{
        answers_are_read, complete_answers_are_whole, datagrams_are_happenings,
        datagrams_go_out_in_order, dumps_take_turns, last_request_decides, multicast_is_read,
        numbers_stay_in_use, one_dump_runs, reads_are_noted, reads_are_the_answer,
        regrouping_changes_nothing, requests_are_followed, sent_numbers_were_free, stages_follow,
        unasked_are_read, unrequested_is_stale, whole_answers_are_complete,
    };
    pub use neli_session_laws::laws::{
        datagrams_bring_answers, no_dump_is_refused, requests_are_answered,
        silent_requests_are_complete, simulated_answers_are_whole, simulated_requests_are_answered,
    };
}
