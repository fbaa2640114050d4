//! A router's store of deliveries of your own: [`Limited`], the shared log with a limit on the bytes that it keeps.
//! `docs/EXTENDING.md` explains it.
#![tactic(auto)]

mod limited;

pub use limited::Limited;
