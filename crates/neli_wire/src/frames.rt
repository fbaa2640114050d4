//! Frames: a header that states the length of the whole, the payload, and padding to four bytes.

ghost use Rattle.std.specs.Prelude.{◌≡◌, ◌≤◌, ◌<◌, ◌*◌, ℕ, Ok, IfOk, IfErr, OnOk, OnErr, length};
ghost use Rattle.neli_wire.specs.laws.Steps.{padded_payload_at, padded_payload_takes_memory};
ghost use Rattle.neli_wire.specs.Place.{whole};
ghost use Rattle.neli_wire.specs.Refusals.{Refuses};
ghost use Rattle.neli_wire.specs.Sizes.{align};
ghost use Rattle.neli_wire.specs.Counts.{AreCounted};

use crate::{Cursor, DeError, FromBytesWithInput, alignto};
use byteorder::{ByteOrder, LittleEndian};
use std::alloc::Global;

/// Reads what follows a header of `size` bytes that states `len` for the whole frame: the payload and the padding to
/// four bytes, whose values do not matter. `len`, rounded up to four, fits a usize.
///
/// A length below the header's own is `InvalidInput(len)`; one past the bytes `InvalidInput(len - size)`; next is the
/// payload's refusal, last `Io(UnexpectedEof)` for missing padding. A refusal leaves the cursor where it was.
pub fn read_padded_payload<P: FromBytesWithInput>(
    alloc: Global,
    cursor: &mut Cursor<'_>,
    size: usize,
    len: usize,
) -> Result<P, DeError>
    requires { align len ≤ usize.MAX }
    ensures value { IfOk result (λ p. padded_payload_at P.read size len cursor.old.rest
        ≡ Ok (P.view p, cursor.new.rest)) }
    ensures moved { OnOk result (whole cursor.new ≡ whole cursor.old) }
    ensures refused { IfErr result
        (Refuses (padded_payload_at P.read size len cursor.old.rest)
        (padded_payload_takes_memory P.takes_memory size len cursor.old.rest)) }
    ensures unchanged { OnErr result (cursor.new ≡ cursor.old) }
{
    if len < size {
        return Err(DeError::InvalidInput(len));
    }
    let mut ahead = cursor.ahead();
    let payload = P::from_bytes_with_input(alloc, &mut ahead, len - size)?;
    ahead.bytes(alignto(len) - len)?;
    *cursor = ahead;
    Ok(payload)
}

/// The fewest bytes of a frame that states its length in its first two bytes, the header of an attribute.
const LEAST: usize = 4;

/// How many frames the bytes are, one after the other, by the lengths that these state in their first two bytes; 0 where
/// the bytes are not such frames. Attributes are, and messages below 65536 bytes.
pub(crate) fn frames_in(bytes: &[u8]) -> usize
    ensures frames { 0 < result → AreCounted result bytes.now }
    ensures all { (n : ℕ) → AreCounted n bytes.now → result ≡ n }
    ensures few { 4 * result ≤ length bytes.now }
{
    let mut cursor = Cursor::new(bytes);
    let mut count = 0;
    while LEAST <= cursor.rest().len() {
        let rest = cursor.rest();
        let len = LittleEndian::read_u16(rest) as usize;
        if len < LEAST {
            return 0;
        }
        let end = alignto(len);
        if rest.len() < end {
            return 0;
        }
        cursor.advance(end);
        count += 1;
    }
    if cursor.rest().len() > 0 {
        return 0;
    }
    count
}
