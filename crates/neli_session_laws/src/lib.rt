//! Laws of a session and the simulator's kernel: each request is answered, wholly, and none is refused because a dump
//! runs.
//!
//! `specs/Served.antt` defines how an answer to a request comes in a session's history, `specs/Answered.antt` what its
//! reads return then, and its verdict, `specs/Given.antt` which messages the simulator's answers are,
//! `specs/Silent.antt` a request that nothing answers to an end, and `specs/Busy.antt` a kernel that runs one dump at a
//! time.
#![tactic(auto)]

pub mod laws;
