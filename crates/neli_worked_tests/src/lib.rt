//! Worked examples of the whole library, small enough to follow by hand; so all of them are proved to end.
//!
//! - Datagrams, each with its listed lines; with the fault of every part that it is cut to; and with its bytes as they
//!   are written again with zeros for padding, or the line that reports why they are not.
//! - Scripts for a router, each with its output, over both stores: requests and their numbers, dumps, acknowledgements
//!   with and without attributes, errors that echo a request or only its header, strays, groups, faults of the link,
//!   closed handles.
//! - Values, each with its bytes or its refusal: numbers, texts, attributes and lists of them, one inside another a
//!   thousand times, bodies of routing, of generic netlink and of the connector, and their cuts.
//! - Constants by their numbers, flags as sets, lists of groups and their masks, bit arrays.
//! - Requests to the controller of generic netlink, and look-ups in its answers.
//! - The contents of the shared store after each read, and handles of another router.
//!
//! A payload whose message exceeds 32 bits, a user's own type, is in `neli_tests`.
//!
//! The layouts are those of RFC 3549 section 2.3.2 and of linux/netlink.h, linux/genetlink.h, linux/rtnetlink.h and
//! linux/cn_proc.h; expected values are worked out by hand from these.
#![tactic(auto)]

#[cfg(test)]
mod tests;
