//! A session: what a client of the kernel needs beside the bytes of its messages. It has no socket: the caller hands in
//! what came, and what the link reported.
//!
//! - [`Session::request`], [`Session::send`]: a request waits to be sent; [`Session::next_outgoing`] chooses the
//!   datagram to send next, [`Session::outgoing`] lends it, and [`Session::sent`] or [`Session::not_sent`] says what became of it. Dumps take turns.
//! - [`Session::receive`], [`Session::fault`], [`Session::quiet`]: a datagram came, the link failed, or was seen empty.
//! - [`Session::next`] lends a reader's next item; `pass_answer`, `pass_multicast` and `pass_unasked` go on.
//! - [`Session::verdict`]: whether all of an answer was read, and nothing of it was lost.
//! - [`Session::close`]: nobody reads an answer any more; its number is in use until nothing more can come for it.
//! - [`Freshness`]: whether a list that the program keeps is current, or to be requested again.
//!
//! A message goes to the request that it answers, to multicast, to both if it is the notification of the session's own
//! change, or else to the reader of what nobody asked for. It is kept once for each of them. Where an answer ends is
//! decided by its [`Answering`], by the table of neli_answers. What is lost is told once to each
//! request that was awaited, after the messages before it, and in its place to the other two readers.
//!
//! `specs/Requests.antt` defines what comes for a request and the verdict; `specs/Sends.antt` what waits to be sent and
//! which of it goes next; `specs/Sessions.antt` the receivers of a message, a datagram, a loss, and what a read returns;
//! `specs/Histories.antt` whole lists of calls, of which [`laws`] speak. No call takes or returns a [`Request`], with its
//! [`Stage`], an [`Entry`] or a [`Change`]: the laws speak of them.
#![tactic(auto)]

mod change;
mod chunk;
mod entry;
mod frame;
mod freshness;
pub mod laws;
mod line;
mod loss;
mod noted;
mod outbox;
mod queue;
mod reading;
mod receiving;
mod request;
mod requests;
mod run;
mod sending;
mod session;
mod spans;
pub mod steps;
mod turn;

pub use change::Change;
pub use entry::Entry;
pub use freshness::Freshness;
pub use loss::Loss;
pub use neli_answers::Answering;
pub use reading::{Next, Reader};
pub use receiving::Untaken;
pub use request::{Request, Stage, Verdict};
pub use sending::SendError;
pub use session::Session;
