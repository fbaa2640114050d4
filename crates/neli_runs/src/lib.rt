//! Whole runs of the router: any list of sends, datagrams, faults, reads and closes.
//!
//! - [`run`] performs a list of [`Command`]s, and returns one [`Outcome`] for each.
//! - [`OpenRun`] performs one command after the other, and keeps none of them.
//! - [`NlRouter`] is the router itself, call by call.
//!
//! Three pages define the outcomes of a run: `specs/History.antt` (which numbers are open),
//! `specs/Deliveries.antt` (who gets what) and `specs/Outcomes.antt` (what is sent, and what each
//! read returns). `specs/Regrouping.antt` and `specs/OtherReads.antt` have the words of the laws.
#![tactic(auto)]

mod command;
pub mod laws;
mod open_run;
mod session;
mod whole_run;

pub use command::{Command, Outcome};
pub use neli_router::{
    Answering, Deliveries, Delivery, GivenUp, HandleState, Heading, Heard, Loss, Missed, NlRouter,
    NlRouterReceiverHandle, Notice, Reply, Verdict, filtered_of, is_dump, verdict_of,
};
pub use open_run::OpenRun;
pub use whole_run::run;
