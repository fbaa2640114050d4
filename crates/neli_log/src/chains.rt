//! Chains: the entries that go to one list only, each linked to the next.

ghost use Rattle.std.specs.Prelude.{◌≡◌, ◌+◌, ◌<◌, ◌≤◌, Some, length};
ghost use Rattle.std.specs.VecDeque.{deque_capacity, deque_len};
ghost use Rattle.neli_log.specs.Places.{extended, links_with, start, with_last, without_first};
ghost use Rattle.neli_log.specs.Routes.{lesser_of};
ghost use Rattle.neli_log.specs.declared.place.Chain.{Chain as Link};

use crate::place::{Chain, Place};
use std::collections::VecDeque;

/// The position of a chain's first entry.
pub(crate) fn start(chain: Option<Chain>) -> Option<u64>
    ensures { result ≡ start chain }
{
    chain.map(|chain| chain.first)
}

/// The chain without its first entry, which has this link.
pub(crate) fn without_first(chain: Option<Chain>, link: Option<u64>) -> Option<Chain>
    ensures { result ≡ without_first chain link }
{
    match (chain, link) {
        (Some(chain), Some(first)) => Some(Chain {
            first,
            last: chain.last,
        }),
        _ => None,
    }
}

/// The chain with one more entry, at this position.
fn with_last(chain: Option<Chain>, last: u64) -> Chain
    ensures { result ≡ with_last chain last }
{
    match chain {
        None => Chain { first: last, last },
        Some(chain) => Chain {
            first: chain.first,
            last,
        },
    }
}

/// The place whose chain has one more entry, at this position.
pub(crate) fn extended(place: Place, last: u64) -> Place
    ensures { result ≡ extended place last }
{
    Place {
        from: place.from,
        chain: Some(with_last(place.chain, last)),
        shared_passed: place.shared_passed,
    }
}

/// Links the last entry of a chain to a new one, at position `at`.
pub(crate) fn link(links: &mut VecDeque<Option<u64>>, base: u64, chain: Option<Chain>, at: u64)
    requires { (c : Link) → chain ≡ Some c
        → (base ≤ c.last) × (c.last < base + length links.old.items) }
    ensures links { links.new.items ≡ links_with base chain at links.old.items }
    ensures room { (deque_len links.new ≡ deque_len links.old)
        × (deque_capacity links.new ≡ deque_capacity links.old) }
{
    if let Some(chain) = chain {
        links[(chain.last - base) as usize] = Some(at);
    }
}

/// The lesser of two positions, if there are two.
pub(crate) fn lesser_of(a: Option<u64>, b: Option<u64>) -> Option<u64>
    ensures { result ≡ lesser_of a b }
{
    match (a, b) {
        (None, _) => b,
        (_, None) => a,
        (Some(x), Some(y)) => if x <= y { a } else { b },
    }
}
