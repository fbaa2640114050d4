//! Headers of fixed size: fields of fixed sizes, one after the other.

ghost use Rattle.std.specs.Prelude.{◌≡◌, ◌≤◌, ℕ, List, Ok, IfOk, IfErr, OnOk, OnErr, length};
ghost use Rattle.neli_wire.specs.Place.{whole};
ghost use Rattle.neli_wire.specs.Refusals.{Refuses};
ghost use Rattle.neli_wire.specs.Numbers.{AreBytes};
ghost use Rattle.neli_wire.specs.Reading.{value_at};
ghost use Rattle.neli_wire.specs.Writing.{RefusesWrite, append_wire};

use crate::HeaderBytes;
use neli_wire::{Cursor, DeError, SerError};
use std::fmt::Debug;

/// A header: fields of fixed sizes, one after the other, each at its place.
pub trait FixedHeader: Debug + Drop {
    // How many bytes each header has.
    ghost width: { ℕ };

    // The bytes of a header.
    ghost bytes_of: { Self → List ℕ };

    // The header that this many bytes spell.
    ghost header_of: { List ℕ → Self };

    // Each field has a number of its type, and is read from that number.
    ghost IsPlain: { Self → Type 0 };

    /// How many bytes each header has.
    fn size() -> usize
        ensures { result ≡ width };

    /// The bytes of the header.
    fn spell(&self) -> HeaderBytes
        ensures { result ≡ bytes_of self.now };

    /// The header that these bytes spell; their number is the header's size.
    fn from_spelling(bytes: &[u8]) -> Self
        requires { length bytes.now ≡ width }
        ensures { result ≡ header_of bytes.now };

    ghost width_is: { (h : Self) → length (bytes_of h) ≡ width };

    // A header that is written is read back.
    ghost reads_back: { (h : Self) → IsPlain h → header_of (bytes_of h) ≡ h };

    // Bytes that are read as a header are that header's bytes.
    ghost writes_back: { (s : List ℕ) → length s ≡ width → AreBytes s
        → bytes_of (header_of s) ≡ s };
}

/// Reads the header at the cursor, and moves past it. `Io(UnexpectedEof)` if there are too few bytes; then the cursor
/// stays. It takes no memory.
pub fn read_fixed<H: FixedHeader>(cursor: &mut Cursor<'_>) -> Result<H, DeError>
    ensures value { IfOk result (λ h. value_at H.width H.header_of cursor.old.rest
        ≡ Ok (h, cursor.new.rest)) }
    ensures moved { OnOk result (whole cursor.new ≡ whole cursor.old) }
    ensures refused { IfErr result (Refuses (value_at H.width H.header_of cursor.old.rest) ⊥) }
    ensures unchanged { OnErr result (cursor.new ≡ cursor.old) }
{
    let bytes = cursor.bytes(H::size())?;
    Ok(H::from_spelling(bytes))
}

/// Appends the bytes of a header. A refusal leaves the buffer as it was.
pub fn write_fixed<H: FixedHeader>(header: &H, buffer: &mut Vec<u8>) -> Result<(), SerError>
    ensures appended { OnOk result (append_wire buffer.old.items (Ok (H.bytes_of header.now))
        ≡ Ok buffer.new.items) }
    ensures refused { IfErr result (RefusesWrite (Ok (H.bytes_of header.now))) }
    ensures unchanged { OnErr result (buffer.new.items ≡ buffer.old.items) }
{
    buffer.extend_from_slice(header.spell().as_slice())?;
    Ok(())
}
