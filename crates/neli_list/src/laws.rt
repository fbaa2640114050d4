//! What lists state about themselves, by their values. The functions do nothing: their contracts are the laws.

ghost use Rattle.std.specs.Prelude.{◌≡◌, ◌<◌, length, map, sum_by};
ghost use Rattle.std.specs.Vec.Iter.{into_iter_items};
ghost use Rattle.neli_wire.specs.Writing.{wire_all};
ghost use Rattle.neli_wire.specs.laws.Elements.{elements};
ghost use Rattle.neli_wire.specs.laws.Values.{AreSame, GivesOnly, OnlyWhere};

use crate::{AttrSlice, FrameList, TryClone};
use neli_wire::{FromBytes, FromBytesWithInput, Size, ToBytes};

/// A list made of values, or turned into them, has them in their order, and lends all of them.
pub fn list_is_its_values<I: Drop>()
    ensures made { GivesOnly ⟦<FrameList<I> as From<Vec<I>>>⟧.from_gives
        (λ items list. list ≡ items.items) }
    ensures given_up { GivesOnly ⟦<Vec<I> as From<FrameList<I>>>⟧.from_gives
        (λ list items. items.items ≡ list) }
    ensures iterated { GivesOnly ⟦<FrameList<I> as IntoIterator>⟧.into_iter_gives
        (λ list it. into_iter_items it ≡ list) }
    ensures lent { AreSame ⟦<FrameList<I> as AttrSlice<I>>⟧.attrs_of (λ list. list) }
{}

/// A copy takes memory only if a list has a value; a copy of `()` takes none.
pub fn copies_of_nothing_take_no_memory<I: TryClone>()
    ensures list { OnlyWhere ⟦<FrameList<I> as TryClone>⟧.copy_takes_memory (λ list. 0 < length list) }
    ensures unit { OnlyWhere ⟦<() as TryClone>⟧.copy_takes_memory (λ v. ⊥) }
{}

/// A list is written as its values, one after the other, and read as values; this takes memory if there is a byte.
pub fn list_is_written_and_read<W: ToBytes, R: FromBytes>()
    ensures written { AreSame ⟦<FrameList<W> as ToBytes>⟧.wire (wire_all W.wire) }
    ensures size { AreSame ⟦<FrameList<W> as Size>⟧.unpadded_length (sum_by W.Size.wire_length) }
    ensures read { AreSame ⟦<FrameList<R> as FromBytesWithInput>⟧.read (elements R.read) }
    ensures seen { AreSame ⟦<FrameList<R> as FromBytesWithInput>⟧.view (map R.view) }
    ensures memory { OnlyWhere ⟦<FrameList<R> as FromBytesWithInput>⟧.takes_memory (λ s. 0 < length s) }
{}
