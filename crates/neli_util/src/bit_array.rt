//! Bit arrays.

ghost use Rattle.std.specs.Prelude.{◌≡◌, ◌↔◌, ◌<◌, ◌≤◌, ◌*◌, ◌%◌, ◌-◌, ◌++◌, [], Err, IfOk, IfErr, IsErr, IsOk, OnOk};
ghost use Rattle.std.specs.Prelude.{OnErr, length, codes, take, replicate, ◌==◌};
ghost use Rattle.std.specs.Int.{bit_at};
ghost use Rattle.std.specs.List.{All};
ghost use Rattle.std.specs.List.Sorted.{IsStrictlyIncreasing};
ghost use Rattle.neli_util.specs.Groups.{has};
ghost use Rattle.neli_util.specs.BitArrays.{words_for, AreTooMany, with_capacity, with_number};

use neli_wire::{MsgError, NoMemory, SerError};
use std::alloc::Global;
use std::marker::Model;

/// The number of bits in a word.
const WORD_BITS: usize = 32;

/// The most words of an array: each number then fits 32 bits, as does the length in bytes.
const MAX_WORDS: usize = 134217727;

/// A set of numbers from 1 to a capacity, which is a multiple of 32. Contracts see it as these two.
///
/// The kernel reports a socket's groups in this form (`NETLINK_LIST_MEMBERSHIPS`, netlink(7)): 32-bit words, of which
/// the lowest bit of the first stands for group 1.
#[derive(Drop)]
pub struct NetlinkBitArray {
    words: Vec<u32>,
}

impl Model for NetlinkBitArray {
    ghost use Rattle.std.specs.Prelude.{◌≤◌, length};
    ghost use Rattle.neli_util.specs.BitArrays.{BitArray, array_of};

    ghost Value = { BitArray };

    ghost view = { λ a. array_of a.words.items };

    ghost invariant = { λ a. length a.words.items ≤ 134217727 };
}

impl NetlinkBitArray {
    /// An array without numbers, whose capacity is `bits` rounded up to whole words of 32 bits.
    ///
    /// Refused with the text `bit array too long` if that is more than 134217727 words, and if memory runs out; a
    /// capacity of 0 takes none.
    pub fn new(alloc: Global, bits: usize) -> Result<NetlinkBitArray, SerError>
        ensures capacity { IfOk result (λ array. array.capacity ≡ 32 * words_for bits) }
        ensures numbers { IfOk result (λ array. array.numbers ≡ []) }
        ensures too_long { (result ≡ Err (SerError.Msg (codes "bit array too long")))
            ↔ AreTooMany (words_for bits) }
        ensures memory { ¬ AreTooMany (words_for bits) → IfErr result (λ e. e ≡ SerError.Memory) }
        ensures empty { bits ≡ 0 → IsOk result }
    {
        let mut words = Vec::new(alloc);
        resize_words(&mut words, bits.div_ceil(WORD_BITS))?;
        Ok(NetlinkBitArray { words })
    }

    /// Sets the capacity to `bits` rounded up to whole words of 32 bits; numbers above it are lost.
    ///
    /// Refused as [`NetlinkBitArray::new`] is; then the array is as it was. Only a larger capacity takes memory.
    pub fn resize_bits(&mut self, bits: usize) -> Result<(), SerError>
        ensures ok { OnOk result (self.new ≡ with_capacity (32 * words_for bits) self.old) }
        ensures too_long { (result ≡ Err (SerError.Msg (codes "bit array too long")))
            ↔ AreTooMany (words_for bits) }
        ensures memory { ¬ AreTooMany (words_for bits) → IfErr result (λ e. e ≡ SerError.Memory) }
        ensures no_memory { 32 * words_for bits ≤ self.old.capacity → IsOk result }
        ensures unchanged { OnErr result (self.new ≡ self.old) }
    {
        resize_words(&mut self.words, bits.div_ceil(WORD_BITS))
    }

    /// Sets the capacity to that of `bytes`, 8 bits each, rounded up to whole words of 32 bits; numbers above it are
    /// lost.
    ///
    /// Refused as [`NetlinkBitArray::resize_bits`] is.
    pub fn resize(&mut self, bytes: usize) -> Result<(), SerError>
        ensures ok { OnOk result (self.new ≡ with_capacity (32 * words_for (8 * bytes)) self.old) }
        ensures too_long { (result ≡ Err (SerError.Msg (codes "bit array too long")))
            ↔ AreTooMany (words_for (8 * bytes)) }
        ensures memory { ¬ AreTooMany (words_for (8 * bytes))
            → IfErr result (λ e. e ≡ SerError.Memory) }
        ensures no_memory { 32 * words_for (8 * bytes) ≤ self.old.capacity → IsOk result }
        ensures unchanged { OnErr result (self.new ≡ self.old) }
    {
        resize_words(&mut self.words, bytes.div_ceil(WORD_BITS / 8))
    }

    /// Whether the number, at most [`NetlinkBitArray::len_bits`], is set. 0 never is.
    pub fn is_set(&self, n: usize) -> bool
        requires { n ≤ self.now.capacity }
        ensures value { result ≡ has self.now.numbers n }
    {
        n != 0 && word_has_bit(self.words[(n - 1) / WORD_BITS], (n - 1) % WORD_BITS)
    }

    /// Sets a number, at most [`NetlinkBitArray::len_bits`]. 0 changes nothing.
    pub fn set(&mut self, n: usize)
        requires { n ≤ self.old.capacity }
        ensures value { self.new ≡ with_number n self.old }
        ensures zero { n ≡ 0 → self.new ≡ self.old }
    {
        let words = &mut self.words;
        if n == 0 {
            return;
        }
        words[(n - 1) / WORD_BITS] |= 1 << ((n - 1) % WORD_BITS);
    }

    /// The numbers that are set, lowest first.
    ///
    /// Refused only if memory runs out; without numbers it takes none.
    pub fn to_vec(&self, alloc: Global) -> Result<Vec<u32>, NoMemory>
        ensures value { IfOk result (λ list. list.items ≡ self.now.numbers) }
        ensures lowest_first { IsStrictlyIncreasing self.now.numbers }
        ensures within { All (λ n. (0 < n) × (n ≤ self.now.capacity)) self.now.numbers }
        ensures empty { self.now.numbers ≡ [] → IsOk result }
    {
        let mut numbers = Vec::new(alloc);
        for bit in 0..self.len_bits() {
            if word_has_bit(self.words[bit / WORD_BITS], bit % WORD_BITS) {
                numbers.push(bit as u32 + 1)?;
            }
        }
        Ok(numbers)
    }

    /// The capacity in bits, which is the largest number that can be set. A multiple of 32.
    pub fn len_bits(&self) -> usize
        ensures value { result ≡ self.now.capacity }
        ensures words { result % 32 ≡ 0 }
        ensures fits { ¬ AreTooMany (words_for result) }
    {
        self.words.len() * WORD_BITS
    }

    /// The capacity in bytes of 8 bits. A multiple of four.
    pub fn len(&self) -> usize
        ensures { 8 * result ≡ self.now.capacity }
    {
        self.words.len() * (WORD_BITS / 8)
    }
}

// Whether a word has the bit, counted from 0 and the lowest.
fn word_has_bit(word: u32, bit: usize) -> bool
    requires { bit < 32 }
    ensures { result ≡ (bit_at word bit == 1) }
{
    (word >> bit) & 1 == 1
}

// Resizes to this many words, with zeros for new ones.
fn resize_words(words: &mut Vec<u32>, count: usize) -> Result<(), SerError>
    ensures ok { OnOk result (words.new.items
        ≡ take count words.old.items ++ replicate (count - length words.old.items) 0) }
    ensures too_long { (result ≡ Err (SerError.Msg (codes "bit array too long")))
        ↔ AreTooMany count }
    ensures memory { ¬ AreTooMany count → IfErr result (λ e. e ≡ SerError.Memory) }
    ensures no_memory { ¬ AreTooMany count → count ≤ length words.old.items → IsOk result }
    ensures unchanged { OnErr result (words.new.items ≡ words.old.items) }
{
    if count > MAX_WORDS {
        return Err(SerError::Msg(MsgError::from_static("bit array too long")));
    }
    words.resize(count, 0)?;
    Ok(())
}
