//! The words of a line: numbers and bytes.

ghost use Rattle.std.specs.Prelude.{◌≡◌, ◌==◌, true, false, map, IfOk, MatchOption};
ghost use Rattle.std.specs.List.{list_all, slice_split};
ghost use Rattle.std.specs.Char.{is_ascii_digit};
ghost use Rattle.neli_program.specs.Words.{Reads, bytes_of, bytes_take_memory, is_numeral, number};

use hex::FromHexError;
use neli_attr::Buffer;
use std::alloc::{AllocError, Global};
use std::str;

/// Why a line is not read.
#[derive(Clone, Copy, Debug, PartialEq, Eq)]
pub(crate) enum LineError {
    /// It is no line of a script.
    Bad,
    /// Memory ran out.
    Memory,
}

impl From<AllocError> for LineError {
    ghost use Rattle.std.specs.Prelude.{◌≡◌};
    ghost use Rattle.neli_program.specs.declared.words.LineError.TheVariants.{Memory};

    ghost from_gives = { λ _ e. e ≡ Memory };

    fn from(_error: AllocError) -> LineError {
        LineError::Memory
    }
}

/// The parts between the bytes of this value, which are lent.
pub(crate) fn parts_of<'t>(
    alloc: Global,
    text: &'t [u8],
    mark: u8,
) -> Result<Vec<&'t [u8]>, AllocError>
    ensures { IfOk result (λ parts. map (λ part. part.now) parts.items
        ≡ slice_split (λ b. b == mark) text.now) }
{
    text.split(|byte| *byte == mark).collect(alloc)
}

/// Whether these are only decimal digits.
fn are_digits(bytes: &[u8]) -> bool
    ensures { result ≡ list_all is_ascii_digit bytes.now }
{
    bytes.iter().all(|byte| byte.is_ascii_digit())
}

/// The text of a word of one or more decimal digits; none for any other.
fn numeral(word: &[u8]) -> Option<&str>
    ensures { MatchOption result (is_numeral word.now ≡ false)
        (λ text. (text.now ≡ word.now) × (is_numeral word.now ≡ true)) }
{
    if word.is_empty() || !are_digits(word) {
        return None;
    }
    str::from_utf8(word).ok()
}

/// The number in a word, if it has 16 bits at most.
pub(crate) fn number_u16(word: &[u8]) -> Option<u16>
    ensures { result ≡ number 16 word.now }
{
    numeral(word)?.parse().ok()
}

/// The number in a word, if it has 32 bits at most.
pub(crate) fn number_u32(word: &[u8]) -> Option<u32>
    ensures { result ≡ number 32 word.now }
{
    numeral(word)?.parse().ok()
}

/// The number in a word, if it has 64 bits at most.
pub(crate) fn number_usize(word: &[u8]) -> Option<usize>
    ensures { result ≡ number 64 word.now }
{
    numeral(word)?.parse().ok()
}

/// The bytes of a word: pairs of hexadecimal digits, or `-` for no byte. Only pairs take memory.
pub(crate) fn read_bytes(alloc: Global, word: &[u8]) -> Result<Buffer, LineError>
    ensures { Reads (bytes_of word.now) (bytes_take_memory word.now) result }
{
    if word == b"-".as_slice() {
        return Ok(Buffer::new(alloc));
    }
    if word.is_empty() {
        return Err(LineError::Bad);
    }
    match hex::decode(alloc, word) {
        Ok(bytes) => Ok(Buffer::from(bytes)),
        Err(FromHexError::OutOfMemory) => Err(LineError::Memory),
        Err(_) => Err(LineError::Bad),
    }
}
