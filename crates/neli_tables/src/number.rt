//! Numbers, and ranges of them.

ghost use Rattle.std.specs.Prelude.{◌≡◌, ◌==◌, ◌<◌, length, IfSome};
ghost use Rattle.std.specs.List.{position};
ghost use Rattle.neli_tables.specs.Numbers.{digit_of, digits_in, number_of, ordered, span_of, with_digit};

/// From one number to another, both included.
#[derive(Clone, Copy, Debug, PartialEq, Eq)]
pub struct Span {
    /// The least.
    pub first: u64,
    /// The largest.
    pub last: u64,
}

/// The value of a digit of a base up to 16.
fn digit_of(byte: u8) -> Option<u64>
    ensures { result ≡ digit_of byte }
{
    match byte {
        b'0'..=b'9' => Some((byte - b'0') as u64),
        b'a'..=b'f' => Some((byte - b'a') as u64 + 10),
        _ => None,
    }
}

/// A number with one digit more, if it has at most 64 bits.
fn with_digit(base: u64, number: Option<u64>, byte: u8) -> Option<u64>
    ensures { result ≡ with_digit base number byte }
{
    let digit = digit_of(byte)?;
    if digit < base {
        number?.checked_mul(base)?.checked_add(digit)
    } else {
        None
    }
}

/// The number in digits of this base.
fn digits_in(base: u64, digits: &[u8]) -> Option<u64>
    ensures { result ≡ digits_in base digits.now }
{
    if digits.is_empty() {
        return None;
    }
    let mut number = Some(0);
    for byte in digits {
        number = with_digit(base, number, *byte);
    }
    number
}

/// The number of a word: decimal, or hexadecimal after `0x`.
pub(crate) fn number_of(word: &[u8]) -> Option<u64>
    ensures { result ≡ number_of word.now }
{
    if word.len() >= 2 && word[0] == b'0' && word[1] == b'x' {
        digits_in(16, &word[2..])
    } else {
        digits_in(10, word)
    }
}

/// The range between two numbers, if they are in order.
fn ordered(first: Option<u64>, last: Option<u64>) -> Option<Span>
    ensures { result ≡ ordered first last }
{
    let first = first?;
    let last = last?;
    if first <= last {
        Some(Span { first, last })
    } else {
        None
    }
}

/// The index of the first dot.
fn dot_in(word: &[u8]) -> Option<usize>
    ensures value { result ≡ position (λ b. b == 46) word.now }
    ensures within { IfSome result (λ dot. dot < length word.now) }
{
    word.iter().position(|byte| *byte == b'.')
}

/// The numbers of a word: one, or from one to another with `..` between them.
pub(crate) fn span_of(word: &[u8]) -> Option<Span>
    ensures { result ≡ span_of word.now }
{
    let Some(dot) = dot_in(word) else {
        let number = number_of(word);
        return ordered(number, number);
    };
    if dot + 1 < word.len() && word[dot + 1] == b'.' {
        ordered(number_of(&word[..dot]), number_of(&word[dot + 2..]))
    } else {
        None
    }
}
