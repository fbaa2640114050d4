//! Payloads that list attributes.

ghost use Rattle.std.specs.Prelude.{◌≡◌, ◌<◌, Ok, IfErr, IfOk, length, map};
ghost use Rattle.neli_wire.specs.Refusals.{Refuses};
ghost use Rattle.neli_wire.specs.laws.Elements.{elements};
ghost use Rattle.neli_list.specs.Handles.{attrs_in};

use crate::{AttrHandle, FrameList, read_whole};
use neli_wire::{DeError, FromBytes};
use std::alloc::Global;

/// A handle that owns the values listed by a whole payload.
///
/// Refused as the list refuses the payload.
pub fn handle_of_payload<'a, I: FromBytes>(
    alloc: Global,
    payload: &[u8],
) -> Result<AttrHandle<'a, FrameList<I>, I>, DeError>
    ensures value { IfOk result (λ h. elements I.read payload.now ≡ Ok (map I.view (attrs_in h))) }
    ensures refused { IfErr result
        (Refuses (elements I.read payload.now) (0 < length payload.now)) }
{
    let attrs: FrameList<I> = read_whole(alloc, payload)?;
    Ok(AttrHandle::new(attrs))
}
