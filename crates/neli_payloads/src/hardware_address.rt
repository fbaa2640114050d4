//! Addresses of devices on their links.

ghost use Rattle.std.specs.Prelude.{◌≡◌, ◌≤◌, ◌<◌, ◌↔◌, ℕ, List, [], Ok, Some, IfSome, IsSome, IsTrue, length, nat_eq};
ghost use Rattle.std.specs.Char.{digit_char};
ghost use Rattle.std.specs.Cmp.{partial_equiv_from_equiv};
ghost use Rattle.std.specs.Cmp.Lexicographic.{pointwise};
ghost use Rattle.std.proofs.lemmas.Cmp.{nat_list_eq_equiv};
ghost use Rattle.neli_wire.specs.laws.Sizes.{unpadded-rounded, unpadded-zeros};
ghost use Rattle.neli_wire.specs.laws.Writing.{own-length, written-no_memory};
ghost use Rattle.neli_payloads.specs.HardwareAddress.{byte_text, hardware_address, hardware_text};
ghost use Rattle.neli_payloads.specs.laws.HardwareAddress.{hardware_address-never_short, hardware_address-no_memory};

use neli_wire::{Cursor, DeError, FromBytesWithInput, SerError, Size, ToBytes};
use std::alloc::Global;
use std::fmt;
use std::marker::Model;

/// The most bytes of a device's address (`MAX_ADDR_LEN` of `linux/netdevice.h`).
const MOST: usize = 32;

/// The address of a device on its link, such as a MAC address: at most 32 bytes, and empty where the link has no
/// addresses. Contracts see it as the list of its bytes.
///
/// It is the payload of `Ifla::Address`, `Ifla::Broadcast` and `Nda::Lladdr`. It prints in the usual form:
/// `02:42:ac:11:00:02`, and nothing if it is empty.
#[derive(Clone, Copy)]
pub struct HardwareAddress {
    bytes: [u8; 32],
    count: usize,
}

impl Model for HardwareAddress {
    ghost use Rattle.std.specs.Prelude.{◌≡◌, ℕ, ◌-◌, ◌≤◌, List, ◌++◌, length, replicate, take};
    ghost use Rattle.neli_payloads.specs.laws.Inline.{fields-back};

    ghost Value = { List ℕ };

    ghost view = { λ a. take a.count a.bytes };

    // The rest of the array is zeros.
    ghost invariant = { λ a. (a.count ≤ 32) × (length a.bytes ≡ 32)
        × (a.bytes ≡ take a.count a.bytes ++ replicate (32 - a.count) 0) };

    ghost inverse = { λ xs.
        record { bytes = xs ++ replicate (32 - length xs) 0; count = length xs } };

    ghost inverse_ok = { λ a h. fields-back (λ bytes count. record { bytes = bytes; count = count })
        a.count a.bytes h.0 h.1 h.2 };
}

impl HardwareAddress {
    /// The address of these bytes; `None` if they are more than 32.
    pub fn from_bytes(bytes: &[u8]) -> Option<HardwareAddress>
        ensures value { IfSome result (λ a. a ≡ bytes.now) }
        ensures fits { IsSome result ↔ (length bytes.now ≤ 32) }
    {
        let count = bytes.len();
        if count > MOST {
            return None;
        }
        let mut held = [0; 32];
        held[..count].copy_from_slice(bytes);
        Some(HardwareAddress { bytes: held, count })
    }

    /// The bytes, lent.
    pub fn as_slice(&self) -> &[u8]
        ensures { result.now ≡ self.now }
    {
        &self.bytes[..self.count]
    }

    /// The number of bytes, at most 32.
    pub fn len(&self) -> usize
        ensures value { result ≡ length self.now }
        ensures most { result ≤ 32 }
    {
        self.count
    }

    /// Whether it has no byte.
    pub fn is_empty(&self) -> bool
        ensures { IsTrue result ↔ (self.now ≡ []) }
    {
        self.as_slice().is_empty()
    }
}

/// A byte as two lower-case hexadecimal digits.
#[derive(Clone, Copy)]
struct TwoDigits(u8);

/// The hexadecimal digit of a number below 16, in lower case.
fn digit(number: u8) -> char
    requires { number < 16 }
    ensures { result ≡ digit_char number }
{
    char::from(if number < 10 {
        b'0' + number
    } else {
        b'a' + (number - 10)
    })
}

impl fmt::Display for TwoDigits {
    ghost output = { λ b. Some (byte_text b.0) };

    fn fmt<W: fmt::Write>(&self, f: &mut fmt::Formatter<W>) -> fmt::Result {
        f.write_char(digit(self.0 / 16))?;
        f.write_char(digit(self.0 % 16))
    }
}

impl fmt::Display for HardwareAddress {
    ghost output = { λ a. Some (hardware_text a) };

    fn fmt<W: fmt::Write>(&self, f: &mut fmt::Formatter<W>) -> fmt::Result {
        if let [first, rest @ ..] = self.as_slice() {
            f.write(TwoDigits(*first))?;
            for byte in rest {
                write!(f, ":{}", TwoDigits(*byte))?;
            }
        }
        Ok(())
    }
}

impl fmt::Debug for HardwareAddress {
    ghost debug_output = { λ a. Some (hardware_text a) };

    fn fmt<W: fmt::Write>(&self, f: &mut fmt::Formatter<W>) -> fmt::Result {
        <HardwareAddress as fmt::Display>::fmt(self, f)
    }
}

impl PartialEq for HardwareAddress {
    ghost eq = { pointwise nat_eq };

    ghost laws = { partial_equiv_from_equiv nat_list_eq_equiv };

    fn eq(&self, other: &HardwareAddress) -> bool {
        self.as_slice() == other.as_slice()
    }
}

impl Eq for HardwareAddress {
    ghost laws = { nat_list_eq_equiv };
}

impl Size for HardwareAddress {
    ghost unpadded_length = { length };

    ghost wire_length = { length };

    ghost rounded = { unpadded-rounded length };

    fn unpadded_size(&self) -> usize {
        self.len()
    }

    fn written_size(&self) -> usize {
        self.len()
    }
}

impl ToBytes for HardwareAddress {
    ghost wire = { λ a. Ok a };

    ghost length_is = { λ a bytes e. own-length a bytes e };

    ghost zeros_after = { λ a bytes e. unpadded-zeros (length a) bytes (own-length a bytes e) };

    ghost no_memory = { λ a. written-no_memory a };

    fn to_bytes(&self, buffer: &mut Vec<u8>) -> Result<(), SerError> {
        buffer.extend_from_slice(self.as_slice())?;
        Ok(())
    }
}

impl FromBytesWithInput for HardwareAddress {
    ghost Value = { List ℕ };

    ghost view = { λ a. a };

    ghost read = { hardware_address };

    ghost takes_memory = { λ _. ⊥ };

    ghost no_memory = { hardware_address-no_memory };

    ghost never_short = { hardware_address-never_short };

    /// Takes the next `n` bytes as they are; `InvalidInput(n)` if they are more than 32. It takes no memory.
    fn from_bytes_with_input(
        _alloc: Global,
        cursor: &mut Cursor<'_>,
        n: usize,
    ) -> Result<HardwareAddress, DeError> {
        let bytes = cursor.input(n)?;
        let Some(address) = HardwareAddress::from_bytes(bytes) else {
            return Err(DeError::InvalidInput(n));
        };
        cursor.advance(n);
        Ok(address)
    }
}
