//! The number of places at each entry for all numbers.

ghost use Rattle.std.specs.Prelude.{◌≡◌, ◌+◌, ◌^◌, ◌<◌, ◌≤◌, ◌==◌, ℕ, if◌then◌else◌, length, map};
ghost use Rattle.std.specs.VecDeque.{deque_capacity, deque_len};
ghost use Rattle.neli_log.specs.Places.{readers_at};

use crate::place::Shared;
use std::collections::VecDeque;

/// Counts one place fewer at the entry with this index, or at the next one, which has not arrived.
pub(crate) fn lower(shared: &mut VecDeque<Shared>, caught_up: &mut usize, i: usize)
    requires within { i ≤ length shared.old.items }
    requires some { 0 < readers_at shared.old.items caught_up.old i }
    ensures less { (n : ℕ) → readers_at shared.new.items caught_up.new n
        + (if n == i then 1 else 0) ≡ readers_at shared.old.items caught_up.old n }
    ensures positions { map (λ s. s.at) shared.new.items ≡ map (λ s. s.at) shared.old.items }
    ensures room { (deque_len shared.new ≡ deque_len shared.old)
        × (deque_capacity shared.new ≡ deque_capacity shared.old) }
{
    if i < shared.len() {
        shared[i].readers -= 1;
    } else {
        *caught_up -= 1;
    }
}

/// Counts one place more at the entry with this index, or at the next one, which has not arrived.
pub(crate) fn raise(shared: &mut VecDeque<Shared>, caught_up: &mut usize, i: usize)
    requires within { i ≤ length shared.old.items }
    requires few { readers_at shared.old.items caught_up.old i < 2 ^ 63 }
    ensures more { (n : ℕ) → readers_at shared.new.items caught_up.new n
        ≡ readers_at shared.old.items caught_up.old n + (if n == i then 1 else 0) }
    ensures positions { map (λ s. s.at) shared.new.items ≡ map (λ s. s.at) shared.old.items }
    ensures room { (deque_len shared.new ≡ deque_len shared.old)
        × (deque_capacity shared.new ≡ deque_capacity shared.old) }
{
    if i < shared.len() {
        shared[i].readers += 1;
    } else {
        *caught_up += 1;
    }
}
