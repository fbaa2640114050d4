//! Hardware addresses read from text.

ghost use Rattle.std.specs.Prelude.{◌≡◌, ◌<◌, ◌≤◌, IfSome, IsNone, None, Some, codes, drop, option_map, take};
ghost use Rattle.std.specs.Result.{result_ok};
ghost use Rattle.neli_payloads.specs.HardwareText.{byte_before, bytes_of_text, digit_value, hardware_parsed};

use crate::HardwareAddress;
use std::error::Error;
use std::fmt;
use std::str::FromStr;

/// The text is no hardware address.
#[derive(Clone, Copy, Debug, PartialEq, Eq)]
pub struct HardwareAddressError;

impl fmt::Display for HardwareAddressError {
    ghost output = { λ _. Some (codes "no hardware address") };

    fn fmt<W: fmt::Write>(&self, f: &mut fmt::Formatter<W>) -> fmt::Result {
        write!(f, "no hardware address")
    }
}

impl Error for HardwareAddressError {}

/// The value of a hexadecimal digit, in either case.
fn digit_value(digit: u8) -> Option<u8>
    ensures value { result ≡ digit_value digit }
    ensures small { IfSome result (λ v. v < 16) }
{
    match digit {
        b'0'..=b'9' => Some(digit - b'0'),
        b'a'..=b'f' => Some(digit - b'a' + 10),
        b'A'..=b'F' => Some(digit - b'A' + 10),
        _ => None,
    }
}

/// The byte that the first two characters spell, and what follows them.
fn byte_before(text: &[u8]) -> Option<(u8, &[u8])>
    ensures value { IfSome result (λ p. byte_before text.now ≡ Some p.0) }
    ensures rest { IfSome result (λ p. p.1.now ≡ drop 2 text.now) }
    ensures none { IsNone result → byte_before text.now ≡ None }
{
    let [high, low, rest @ ..] = text else {
        return None;
    };
    let high = digit_value(*high)?;
    let low = digit_value(*low)?;
    Some((high * 16 + low, rest))
}

/// Puts the bytes of a text that is not empty into `held`, and returns their number; `None` if it is no address.
fn hold_bytes(text: &[u8], held: &mut [u8; 32]) -> Option<usize>
    ensures value { option_map (λ n. take n held.new) result ≡ bytes_of_text 32 text.now }
    ensures most { IfSome result (λ n. n ≤ 32) }
{
    let mut rest = text;
    for count in 0..32 {
        let Some((byte, after)) = byte_before(rest) else {
            return None;
        };
        held[count] = byte;
        if after.is_empty() {
            return Some(count + 1);
        }
        if after[0] != b':' {
            return None;
        }
        rest = &after[1..];
    }
    None
}

impl FromStr for HardwareAddress {
    type Err = HardwareAddressError;

    ghost from_str_gives = { λ text r. result_ok r ≡ hardware_parsed text };

    /// The address that a text spells as `Display` prints it, with letters in either case: two hexadecimal digits for
    /// each byte, a colon between two bytes, at most 32 bytes, and none for the empty text. Any other text is refused.
    fn from_str(text: &str) -> Result<HardwareAddress, HardwareAddressError> {
        let text = text.as_bytes();
        let mut held = [0; 32];
        let mut count = 0;
        if !text.is_empty() {
            count = hold_bytes(text, &mut held).ok_or(HardwareAddressError)?;
        }
        HardwareAddress::from_bytes(&held[..count]).ok_or(HardwareAddressError)
    }
}
