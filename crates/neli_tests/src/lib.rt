//! Tests of the whole library by the paths of `neli`, as a program uses it.
//!
//! The layouts are those of RFC 3549 section 2.3.2, of linux/netlink.h, linux/genetlink.h, linux/rtnetlink.h and
//! linux/cn_proc.h. Expected values are worked out by hand from these, unless a comment names a recording: those are
//! from Linux 6.18 on x86-64, read by libmnl and pyroute2.
#![tactic(auto)]

#[cfg(test)]
mod tests;
