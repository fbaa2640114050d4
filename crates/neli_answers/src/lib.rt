//! How Linux answers a request, and with which message its answer ends: one table, by protocol, type and flags.
//!
//! A dump sends no acknowledgement, also where one was requested, and ends with `NLMSG_DONE` or an error, also where its
//! messages lack `NLM_F_MULTI`. Which requests are dumps differs from protocol to protocol: generic netlink wants both
//! bits of `NLM_F_DUMP`, the others a get with either.
//!
//! `specs/Answers.antt` has the table, and `specs/Times.antt` when answers come, with the kernel's function beside each
//! row.
#![tactic(auto)]

mod answering;
mod time;

pub use answering::{Answering, is_dump};
pub use time::answers_at_once;
