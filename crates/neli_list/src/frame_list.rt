//! Lists that are written and read one value after the other.

ghost use Rattle.std.specs.Prelude.{◌≡◌, ◌++◌, ◌∷◌, ◌↔◌, ◌<◌, List, [], IfErr, IfOk};
ghost use Rattle.std.specs.Prelude.{OnOk, OnErr, IsTrue, IsSome, length, map, option_to_list, sum_by, take};
ghost use Rattle.std.specs.Borrow.{sem};
ghost use Rattle.std.specs.Cmp.Lexicographic.{lists_equiv, lists_per, pointwise};
ghost use Rattle.std.specs.Slice.Iter.{iter_rest, iter_mut_rest};
ghost use Rattle.neli_wire.specs.laws.Lists.{elements-no_memory, elements-never_short};
ghost use Rattle.neli_wire.specs.laws.Lists.{wire_all-length, wire_all-no_memory};
ghost use Rattle.neli_wire.specs.laws.Elements.{elements};
ghost use Rattle.neli_wire.specs.laws.Sizes.{unpadded-rounded, unpadded-zeros};
ghost use Rattle.neli_wire.specs.Writing.{wire_all};
ghost use Rattle.neli_list.specs.Lends.{LendsList, LendsIter};

use crate::TryClone;
use neli_wire::{
    Cursor, DeError, FromBytes, FromBytesWithInput, NoMemory, SerError, Size, ToBytes,
};
use std::alloc::Global;
use std::marker::Model;
use std::slice::{Iter, IterMut};
use std::vec::IntoIter;

/// A list of values, written one after the other, each with its own padding. Contracts see it as the list of its
/// values.
#[derive(Debug, Drop)]
pub struct FrameList<I> {
    items: Vec<I>,
}

impl<I> Model for FrameList<I> {
    ghost use Rattle.std.specs.Prelude.{List};

    ghost Value = { List I };

    ghost view = { λ list. list.items.items };
}

impl<I> FrameList<I> {
    /// A list without values. It takes no memory.
    pub fn new(alloc: Global) -> Self
        ensures { result ≡ [] }
    {
        FrameList {
            items: Vec::new(alloc),
        }
    }

    /// The list with these values, which it takes over. It takes no memory.
    pub fn from_list(items: Vec<I>) -> Self
        ensures { result ≡ items.items }
    {
        FrameList { items }
    }

    /// Appends a value.
    ///
    /// Refused only if memory runs out: then the list is as it was, and the value is dropped.
    pub fn push(&mut self, item: I) -> Result<(), NoMemory>
    where
        I: Drop,
        ensures ok { OnOk result (self.new ≡ self.old ++ item ∷ []) }
        ensures unchanged { OnErr result (self.new ≡ self.old) }
    {
        self.items.push(item)?;
        Ok(())
    }

    /// Removes and returns the last value; `None` for an empty list.
    pub fn pop(&mut self) -> Option<I>
        ensures last { self.old ≡ self.new ++ option_to_list result }
        ensures found { IsSome result ↔ (0 < length self.old) }
    {
        self.items.pop()
    }

    /// The values in their order.
    pub fn iter(&self) -> Iter<'_, I>
        ensures { iter_rest result ≡ self.now }
    {
        self.items.iter()
    }

    /// The values in their order, mutable.
    pub fn iter_mut(&mut self) -> IterMut<'_, I>
        ensures* writes_back { sem 𝓛 (LendsIter I.row self.entry result) }
        ensures rest { iter_mut_rest result ≡ self.old }
    {
        self.items.iter_mut()
    }

    /// The number of values.
    pub fn len(&self) -> usize
        ensures { result ≡ length self.now }
    {
        self.items.len()
    }

    /// Whether there is no value.
    pub fn is_empty(&self) -> bool
        ensures { IsTrue result ↔ (self.now ≡ []) }
    {
        self.items.is_empty()
    }

    /// The values, lent.
    pub fn as_ref(&self) -> &[I]
        ensures { result.now ≡ self.now }
    {
        self.items.as_slice()
    }

    /// The values, lent mutably.
    pub fn as_mut(&mut self) -> &mut [I]
        ensures* writes_back { sem 𝓛 (LendsList I.row self.entry result) }
        ensures value { result.now ≡ self.old }
    {
        self.items.as_mut_slice()
    }
}

impl<I: TryClone> FrameList<I> {
    /// A list of equal values.
    ///
    /// Refused only if memory runs out; a list without values takes none.
    pub fn try_clone(&self) -> Result<Self, NoMemory>
        ensures value { IfOk result (λ list. list ≡ self.now) }
        ensures memory { OnErr result (0 < length self.now) }
    {
        let mut items = Vec::with_capacity(*self.items.allocator(), self.len())?;
        for item in &self.items {
            items.push(item.try_clone()?)?;
        }
        Ok(FrameList { items })
    }
}

impl<I> From<Vec<I>> for FrameList<I> {
    ghost from_gives = { λ items list. list ≡ items.items };

    fn from(items: Vec<I>) -> Self {
        FrameList::from_list(items)
    }
}

impl<I> From<FrameList<I>> for Vec<I> {
    ghost from_gives = { λ list items. items.items ≡ list };

    fn from(list: FrameList<I>) -> Self {
        let FrameList { items } = list;
        items
    }
}

impl<I: Drop> IntoIterator for FrameList<I> {
    type Item = I;

    type IntoIter = IntoIter<I>;

    ghost use Rattle.std.specs.Prelude.{◌≡◌, ◌<◌, ◌^◌};
    ghost use Rattle.std.specs.Vec.Iter.{into_iter_items};

    ghost into_iter_gives = { λ list it. into_iter_items it ≡ list };

    fn into_iter(self) -> IntoIter<I> {
        let FrameList { items } = self;
        items.into_iter()
    }
}

impl<I: PartialEq> PartialEq for FrameList<I> {
    ghost eq = { pointwise I.eq };

    ghost laws = { lists_per I.PartialEq.laws };

    fn eq(&self, other: &Self) -> bool {
        self.items == other.items
    }
}

impl<I: Eq> Eq for FrameList<I> {
    ghost laws = { lists_equiv I.Eq.laws };
}

impl<I: Size> Size for FrameList<I> {
    ghost unpadded_length = { sum_by I.wire_length };

    ghost wire_length = { sum_by I.wire_length };

    ghost rounded = { unpadded-rounded (sum_by I.wire_length) };

    fn unpadded_size(&self) -> usize {
        self.items.unpadded_size()
    }

    fn written_size(&self) -> usize {
        self.items.written_size()
    }
}

impl<I: ToBytes> ToBytes for FrameList<I> {
    ghost wire = { wire_all I.wire };

    ghost length_is = { wire_all-length I.wire I.Size.wire_length I.length_is };

    ghost zeros_after = { λ list bytes e. unpadded-zeros (sum_by I.Size.wire_length list) bytes
        (wire_all-length I.wire I.Size.wire_length I.length_is list bytes e) };

    ghost no_memory = { wire_all-no_memory I.wire I.no_memory };

    fn to_bytes(&self, buffer: &mut Vec<u8>) -> Result<(), SerError> {
        self.items.to_bytes(buffer)
    }
}

impl<I: FromBytes> FromBytesWithInput for FrameList<I> {
    ghost Value = { List I.Value };

    ghost view = { map I.view };

    ghost read = { elements I.read };

    ghost takes_memory = { λ bytes. 0 < length bytes };

    ghost no_memory = { elements-no_memory I.read I.no_memory };

    ghost never_short = { elements-never_short I.read };

    fn from_bytes_with_input(
        alloc: Global,
        cursor: &mut Cursor<'_>,
        n: usize,
    ) -> Result<Self, DeError> {
        let items = <Vec<I> as FromBytesWithInput>::from_bytes_with_input(alloc, cursor, n)?;
        Ok(FrameList { items })
    }
}
