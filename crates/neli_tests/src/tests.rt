//! The tests, a file a subject.
//!
//! - [`readme`], [`tour`], [`pages`], [`nests`]: the examples of the README, of the page of `neli`, of the pages on
//!   attributes, the router and groups, and a request whose attributes have attributes, line by line.
//! - [`zeros`]: lengths past 32 bits, by a payload of a type of its own.
//! - [`support`]: what the tests share.

mod nests;
mod pages;
mod readme;
mod support;
mod tour;
mod zeros;
