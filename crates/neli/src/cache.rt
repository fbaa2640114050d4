//! Tables of the kernel's objects that a program keeps current: links, addresses, neighbours, routes, rules, next hops, or
//! any others by their keys.
//!
//! A [`Cache`] takes in what a [session](crate::session) reads: a dump and the notifications. `docs/SESSION.md` says when
//! it is current, and what is left where something was lost.
//!
//! A dump is read to its end, and then what came to groups (a test: `suites/library/src/cache/example.rs`):
//!
//! ```
//! use neli::cache::{Cache, Changes, Keys};
//! use neli::session::{Next, Reader};
//!
//! let mut cache = Cache::new(alloc, Keys::next_hops());
//! let number = session.request(106, NlmF::DUMP, &[0; 8])?;
//! cache.requested(number);
//! // Your link sends it, and what comes is handed to `session.receive`.
//! while let Next::Message(message) = session.next(Reader::Request(number)) {
//!     cache.take_answer(&message)?;
//!     session.pass_answer(number);
//! }
//! if let Some(verdict) = session.verdict(number) {
//!     if let Some(before) = cache.ended(number, verdict) {
//!         for (key, change) in Changes::new(&before, cache.table()) {
//!             // What became of the object with this key.
//!         }
//!     }
//! }
//! session.close(number);
//! loop {
//!     match session.next(Reader::Multicast) {
//!         Next::Message(message) => {
//!             let change = cache.take_notification(&message)?;
//!         }
//!         Next::Loss(_) => cache.lost(),
//!         _ => break,
//!     }
//!     session.pass_multicast();
//! }
//! ```

pub use neli_cache::{Cache, Change, Changes, Entries, Keys, Part, Table};

/// Laws: what the table of a cache is, whatever calls it has.
pub mod laws {
    pub use neli_cache::laws::{
        changes_are_told_once, current_is_the_fold, fold_is_the_last, fresh_as_its_list,
    };
}
