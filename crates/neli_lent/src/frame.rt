//! The frame of messages, attributes and hops, whose payload stays in place.

ghost use Rattle.std.specs.Prelude.{◌≡◌, ◌≤◌, Ok, Err, IfOk, IfErr, OnOk, OnErr};
ghost use Rattle.neli_wire.specs.Frames.{frame_after};
ghost use Rattle.neli_wire.specs.Place.{whole};
ghost use Rattle.neli_wire.specs.Sizes.{align};
ghost use Rattle.neli_lent.specs.Frames.{headed};

use neli_wire::{Cursor, DeError, alignto};
use std::io::ErrorKind;

/// Takes the frame at the cursor, whose header of `size` bytes states `len` bytes for the whole, and returns its
/// payload, in place. It takes no memory. `len`, rounded up to four, fits a usize.
///
/// Refused as `InvalidInput(len)` if `len` is below `size`, `InvalidInput(len - size)` if it exceeds the bytes, and
/// `Io(UnexpectedEof)` if padding to four bytes is missing. A refusal leaves the cursor where it was.
#[inline]
pub fn lend_payload<'b>(
    cursor: &mut Cursor<'b>,
    size: usize,
    len: usize,
) -> Result<&'b [u8], DeError>
    requires { align len ≤ usize.MAX }
    ensures value { IfOk result (λ payload. frame_after (headed size) len cursor.old.rest
        ≡ Ok ((len, payload.now), cursor.new.rest)) }
    ensures moved { OnOk result (whole cursor.new ≡ whole cursor.old) }
    ensures refused { IfErr result (λ e. frame_after (headed size) len cursor.old.rest ≡ Err e) }
    ensures unchanged { OnErr result (cursor.new ≡ cursor.old) }
{
    let rest = cursor.rest();
    if len < size {
        return Err(DeError::InvalidInput(len));
    }
    if rest.len() < len {
        return Err(DeError::InvalidInput(len - size));
    }
    let end = alignto(len);
    if rest.len() < end {
        return Err(DeError::Io(ErrorKind::UnexpectedEof));
    }
    cursor.advance(end);
    Ok(&rest[size..len])
}
