//! The tests, a file a subject.
//!
//! - [`listing`], [`cuts`], [`rewriting`]: datagrams as lines, and as bytes with zeros for padding.
//! - [`scripts`]: scripts and their output, over both stores.
//! - [`values`], [`attributes`], [`bodies`], [`messages`]: values and their bytes.
//! - [`constants`], [`groups`]: numbers by their names, flags, groups and bit arrays.
//! - [`controller`]: families and groups by name. [`routers`]: kept entries, and handles of another router.
//! - [`support`]: shared parts of the tests.

mod attributes;
mod bodies;
mod constants;
mod controller;
mod cuts;
mod groups;
mod listing;
mod messages;
mod rewriting;
mod routers;
mod scripts;
mod support;
mod values;
