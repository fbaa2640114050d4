//! Finds what belongs to a number without hashing, where numbers come in a row.

ghost use Rattle.std.specs.Prelude.{◌≡◌, None, Some, IfSome, IsNone, if◌then◌else◌, is_some, nat_eq};
ghost use Rattle.std.specs.Prelude.{slice_get, true};
ghost use Rattle.std.specs.Prelude.{ℕ};
ghost use Rattle.std.specs.HashMap.{get, spare};
ghost use Rattle.std.specs.Map.{set_value};

use indexmap::IndexMap;
use std::alloc::Global;

/// The fewest hints that are kept, if any.
const FEWEST: usize = 16;

/// Where numbers may be found in a table: by the low bits of a number, an index of the table.
///
/// A hint may be wrong, so each look-up compares the number that is found there with its own. It is right for numbers
/// in a row, however they were added and removed, and also where they wrap: no two of them share a hint.
#[derive(Drop)]
pub struct Hints {
    /// A power of two of them, or none.
    indices: Vec<u32>,
}

impl Hints {
    /// No hints. It takes no memory.
    pub fn new(alloc: Global) -> Hints {
        Hints {
            indices: Vec::new(alloc),
        }
    }

    /// The hint for a number.
    #[inline(always)]
    pub fn hint(&self, number: u32) -> usize {
        match self.indices.get(slot(number, self.indices.len())) {
            None => 0,
            Some(index) => *index as usize,
        }
    }

    /// Stores the hint for the number at an index of the table, if there is one. It takes no memory.
    pub fn note_at<V>(&mut self, numbers: &IndexMap<u32, V>, index: usize) {
        if let Some((number, _)) = numbers.get_index(index) {
            let slot = slot(*number, self.indices.len());
            if let Some(kept) = self.indices.get_mut(slot) {
                *kept = (index & 0xFFFF_FFFF) as u32;
            }
        }
    }

    /// Stores the hint for the last number of the table. If memory runs out, fewer hints are kept than there are
    /// numbers.
    pub fn note_last<V>(&mut self, numbers: &IndexMap<u32, V>) {
        if self.indices.len() < numbers.len() {
            self.grow(numbers);
        }
        self.note_at(numbers, numbers.len().saturating_sub(1));
    }

    /// Makes twice as many hints, and stores all of them anew; if memory runs out, none is changed.
    fn grow<V>(&mut self, numbers: &IndexMap<u32, V>) {
        let count = self.indices.len().saturating_mul(2).max(FEWEST);
        if self.indices.resize(count, 0).is_ok() {
            for index in 0..numbers.len() {
                self.note_at(numbers, index);
            }
        }
    }
}

/// Which of so many hints is a number's own.
#[inline(always)]
fn slot(number: u32, count: usize) -> usize {
    number as usize & count.wrapping_sub(1)
}

/// The index of a number in the table, looked up by its hash.
#[inline(never)]
fn hashed_index<V>(numbers: &IndexMap<u32, V>, number: u32) -> Option<usize>
    ensures found { IfSome result
        (λ i. (v : V) × (slice_get numbers.now.entries i ≡ Some (number, v))) }
    ensures none { IsNone result → get nat_eq numbers.now number ≡ None }
{
    numbers.get_index_of(&number)
}

/// The index of a number in the table, if it is there.
#[inline(always)]
fn index_of<V>(numbers: &IndexMap<u32, V>, hint: usize, number: u32) -> Option<usize>
    ensures found { IfSome result
        (λ i. (v : V) × (slice_get numbers.now.entries i ≡ Some (number, v))) }
    ensures none { IsNone result → get nat_eq numbers.now number ≡ None }
{
    if let Some((hinted, _)) = numbers.get_index(hint) {
        if *hinted == number {
            return Some(hint);
        }
    }
    hashed_index(numbers, number)
}

/// What belongs to a number in the table, looked up by its hash.
#[inline(never)]
fn hashed<V: Copy>(numbers: &IndexMap<u32, V>, number: u32) -> Option<V>
    ensures { result ≡ get nat_eq numbers.now number }
{
    numbers.get(&number).copied()
}

/// What belongs to a number in the table, if it is there.
#[inline(always)]
pub fn value_of<V: Copy>(numbers: &IndexMap<u32, V>, hint: usize, number: u32) -> Option<V>
    ensures { result ≡ get nat_eq numbers.now number }
{
    if let Some((kept, value)) = numbers.get_index(hint) {
        if *kept == number {
            return Some(*value);
        }
    }
    hashed(numbers, number)
}

/// Replaces what belongs to a number that is in the table.
#[inline(always)]
pub fn put<V: Copy>(numbers: &mut IndexMap<u32, V>, hint: usize, number: u32, value: V)
    requires { is_some (get nat_eq numbers.old number) ≡ true }
    ensures updates { (q : ℕ) → get nat_eq numbers.new q
        ≡ (if nat_eq number q then Some value else get nat_eq numbers.old q) }
    ensures entries { numbers.new.entries ≡ set_value (nat_eq number) numbers.old.entries value }
    ensures room { spare numbers.new ≡ spare numbers.old }
{
    if let Some(index) = index_of(numbers, hint, number) {
        if let Some(kept) = numbers.get_index_mut(index) {
            *kept = value;
        }
    }
}
