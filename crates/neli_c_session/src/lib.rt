//! What the exports of `neli_c` for a session stand on.
//!
//! - [`opaque`] and [`place`] are how C holds a session.
//! - [`sending`] and [`receiving`] are what is sent and what comes, [`reading`] the reads, [`outcome`] the codes of what
//!   a session returns.
//! - [`list`] is whether a list that the caller keeps is current.
#![tactic(auto)]

pub mod list;
pub mod opaque;
pub mod outcome;
pub mod place;
pub mod reading;
pub mod receiving;
pub mod sending;
