//! Bodies: a header of fixed size, and what follows it to the body's end.

ghost use Rattle.std.specs.Prelude.{◌≡◌, ◌+◌, Ok, IfOk, IfErr, OnOk, OnErr, length, min, take};
ghost use Rattle.neli_wire.specs.Place.{whole};
ghost use Rattle.neli_wire.specs.Refusals.{Refuses};
ghost use Rattle.neli_wire.specs.Reading.{exact_reading, exact_takes_memory};
ghost use Rattle.neli_wire.specs.Writing.{RefusesWrite, append_wire};
ghost use Rattle.neli_body.specs.Bodies.{body_of, body_takes_memory, body_wire};

use crate::FixedHeader;
use neli_wire::implementing::undo_on_refusal;
use neli_wire::{Cursor, DeError, FromBytesWithInput, SerError, Size, ToBytes};
use std::alloc::Global;

/// Reads a body from exactly the next `n` bytes: its header, and the rest from all the others.
///
/// `InvalidInput(n)` if there are fewer, or `n` is below the header's size; then the refusal of
/// what follows the header. A refusal leaves the cursor where it was.
pub fn read_body<H: FixedHeader, R: FromBytesWithInput>(
    alloc: Global,
    cursor: &mut Cursor<'_>,
    n: usize,
) -> Result<(H, R), DeError>
    ensures value { IfOk result
        (λ b. exact_reading (body_of H.width H.header_of R.read) n cursor.old.rest
        ≡ Ok ((b.0, R.view b.1), cursor.new.rest)) }
    ensures moved { OnOk result (whole cursor.new ≡ whole cursor.old) }
    ensures refused { IfErr result
        (Refuses (exact_reading (body_of H.width H.header_of R.read) n cursor.old.rest)
        (exact_takes_memory (body_takes_memory H.width R.takes_memory) n cursor.old.rest)) }
    ensures unchanged { OnErr result (cursor.new ≡ cursor.old) }
{
    let bytes = cursor.input(n)?;
    let size = H::size();
    if n < size {
        return Err(DeError::InvalidInput(n));
    }
    let header = H::from_spelling(&bytes[..size]);
    let rest = R::from_bytes_with_input(alloc, &mut Cursor::new(&bytes[size..]), n - size)?;
    cursor.advance(n);
    Ok((header, rest))
}

/// Appends a header and what follows it. A refusal leaves the buffer as it was.
pub fn write_body<H: FixedHeader, R: ToBytes>(
    header: &H,
    rest: &R,
    buffer: &mut Vec<u8>,
) -> Result<(), SerError>
    ensures appended { OnOk result
        (append_wire buffer.old.items (body_wire (H.bytes_of header.now) (R.wire rest.now))
        ≡ Ok buffer.new.items) }
    ensures refused { IfErr result
        (RefusesWrite (body_wire (H.bytes_of header.now) (R.wire rest.now))) }
    ensures unchanged { OnErr result (buffer.new.items ≡ buffer.old.items) }
{
    let start = buffer.len();
    buffer.extend_from_slice(header.spell().as_slice())?;
    let outcome = rest.to_bytes(buffer);
    undo_on_refusal(buffer, start, outcome)
}

/// The size of a header and what follows it, in bytes, capped at `usize::MAX`.
pub fn size_of_body<H: FixedHeader, R: Size>(rest: &R) -> usize
    ensures { result ≡ min (H.width + R.wire_length rest.now) usize.MAX }
{
    rest.written_size().saturating_add(H::size())
}
