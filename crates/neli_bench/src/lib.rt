//! The walks over a dump that `bench/bench.c` times: a static library whose exports call this repository's libraries as
//! a program would.
//!
//! - [`lent`] reads each message in place, and takes no memory.
//! - [`owned`] reads each message into memory of its own.
//!
//! A walk over headers adds up the lengths that the messages state. A walk over attributes adds up the numbers of
//! their types, without the two upper bits, which libmnl leaves out, and the lengths of their payloads.
#![tactic(auto)]

ghost use Rattle.std.specs.Prelude.{◌≡◌, ◌+◌};
ghost use Rattle.neli_bench.specs.Walks.{as_u64, type_and_length};

pub mod lent;
pub mod owned;

/// Adds an attribute to a sum.
fn plus(total: u64, number: u16, payload: &[u8]) -> u64
    ensures { result ≡ as_u64 (total + type_and_length number payload.now) }
{
    total
        .saturating_add(u64::from(number & 0x3fff))
        .saturating_add(payload.len() as u64)
}
