//! Values that are read from the bytes of a payload.

ghost use Rattle.std.specs.Prelude.{◌≡◌, ℕ, List, Ok, IfOk, IfErr};
ghost use Rattle.neli_wire.specs.Refusals.{Refuses};
ghost use Rattle.neli_list.specs.Payloads.{ReadsFirst, RefusesAs};

use neli_wire::{Cursor, DeError, FromBytes, FromBytesWithInput, FromBytesWithInputBorrowed};
use std::alloc::Global;

/// The value at the front of the payload, whatever follows it.
///
/// Refused as the type's own read refuses these bytes.
pub fn read_first<R: FromBytes>(alloc: Global, payload: &[u8]) -> Result<R, DeError>
    ensures value { IfOk result (λ v. ReadsFirst (R.read payload.now) (R.view v)) }
    ensures refused { IfErr result (Refuses (R.read payload.now) (R.takes_memory payload.now)) }
{
    R::from_bytes(alloc, &mut Cursor::new(payload))
}

/// The value that the whole payload spells.
///
/// Refused as the type's own read refuses these bytes.
pub fn read_whole<R: FromBytesWithInput>(alloc: Global, payload: &[u8]) -> Result<R, DeError>
    ensures value { IfOk result (λ v. R.read payload.now ≡ Ok (R.view v)) }
    ensures refused { IfErr result (Refuses (R.read payload.now) (R.takes_memory payload.now)) }
{
    R::from_bytes_with_input(alloc, &mut Cursor::new(payload), payload.len())
}

/// The value that the whole payload spells, borrowed from the payload. It takes no memory.
///
/// Refused as the type's own read refuses these bytes.
pub fn read_borrowed<'a, R>(payload: &'a [u8]) -> Result<R, R::Error>
where
    R: FromBytesWithInputBorrowed<'a>,
    ensures value { IfOk result (λ v. R.read payload.now ≡ Ok (R.view v)) }
    ensures refused { IfErr result (RefusesAs R.Error.from_gives (R.read payload.now)) }
{
    let value = R::from_bytes_with_input(&mut Cursor::new(payload), payload.len())?;
    Ok(value)
}
