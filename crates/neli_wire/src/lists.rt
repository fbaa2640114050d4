//! Lists of values, one after the other.

ghost use Rattle.std.specs.Prelude.{◌≡◌, ◌≤◌, ◌<◌, ◌+◌, ℕ, List, Ok, Err, IfOk};
ghost use Rattle.std.specs.Prelude.{IfErr, OnOk, OnErr, length, min, map, take, drop, sum_by};
ghost use Rattle.neli_wire.specs.laws.Lists.{wire_all-length, wire_all-no_memory};
ghost use Rattle.neli_wire.specs.laws.Lists.{elements-no_memory, elements-never_short};
ghost use Rattle.neli_wire.specs.Refusals.{Refuses};
ghost use Rattle.neli_wire.specs.laws.Elements.{elements};
ghost use Rattle.neli_wire.specs.Reading.{refusal_within};
ghost use Rattle.neli_wire.specs.laws.Sizes.{unpadded-rounded, unpadded-zeros};
ghost use Rattle.neli_wire.specs.Writing.{RefusesWrite, append_wire, wire_all};

use crate::frames::frames_in;
use crate::implementing::{undo_on_refusal, within_input};
use crate::{Cursor, DeError, FromBytes, FromBytesWithInput, SerError, Size, ToBytes};
use std::alloc::Global;

/// How many bytes the values take together, capped at `usize::MAX`.
pub fn size_of_all<T: Size>(items: &[T]) -> usize
    ensures { result ≡ min (sum_by T.wire_length items.now) usize.MAX }
{
    let mut total: usize = 0;
    for item in items {
        total = total.saturating_add(item.written_size());
    }
    total
}

/// Appends the bytes of the values. A refusal leaves some of them appended.
fn write_each<T: ToBytes>(items: &[T], buffer: &mut Vec<u8>) -> Result<(), SerError>
    ensures appended { OnOk result (append_wire buffer.old.items (wire_all T.wire items.now)
        ≡ Ok buffer.new.items) }
    ensures refused { IfErr result (RefusesWrite (wire_all T.wire items.now)) }
    ensures front { OnErr result (take (length buffer.old.items) buffer.new.items
        ≡ buffer.old.items) }
{
    for item in items {
        item.to_bytes(buffer)?;
    }
    Ok(())
}

/// Appends the bytes of all the values, or leaves the buffer as it was.
pub fn write_all<T: ToBytes>(items: &[T], buffer: &mut Vec<u8>) -> Result<(), SerError>
    ensures appended { OnOk result (append_wire buffer.old.items (wire_all T.wire items.now)
        ≡ Ok buffer.new.items) }
    ensures refused { IfErr result (RefusesWrite (wire_all T.wire items.now)) }
    ensures unchanged { OnErr result (buffer.new.items ≡ buffer.old.items) }
{
    let start = buffer.len();
    let room = size_of_all(items);
    if room > 0 {
        buffer.reserve(room)?;
    }
    let outcome = write_each(items, buffer);
    undo_on_refusal(buffer, start, outcome)
}

/// The most values whose room is requested at once. A list of more attributes takes a kilobyte or more, for which the
/// heap of glibc first puts all of its small free pieces together: it grows as it is read, which is faster.
const ROOM: usize = 31;

/// Reads all of the bytes as values, one after the other. Where the bytes are few frames, room for all of them is
/// requested at once.
///
/// An element that takes no byte while bytes are left is `InvalidInput` of the whole number of
/// bytes.
pub fn read_all<T: FromBytes>(alloc: Global, bytes: &[u8]) -> Result<Vec<T>, DeError>
    ensures value { IfOk result (λ v. elements T.read bytes.now ≡ Ok (map T.view v.items)) }
    ensures refused { IfErr result (Refuses (elements T.read bytes.now) (0 < length bytes.now)) }
{
    let count = frames_in(bytes);
    let mut items = Vec::with_capacity(alloc, if count <= ROOM { count } else { 0 })?;
    let mut cursor = Cursor::new(bytes);
    while cursor.position() < bytes.len() {
        let start = cursor.position();
        let item = match T::from_bytes(alloc, &mut cursor) {
            Ok(item) => item,
            Err(error) => return Err(within_input(error, bytes.len())),
        };
        if cursor.position() == start {
            return Err(DeError::InvalidInput(bytes.len()));
        }
        items.push(item)?;
    }
    Ok(items)
}

impl<T: Size> Size for Vec<T> {
    ghost unpadded_length = { λ v. sum_by T.wire_length v.items };

    ghost wire_length = { λ v. sum_by T.wire_length v.items };

    ghost rounded = { unpadded-rounded (λ v. sum_by T.wire_length v.items) };

    fn unpadded_size(&self) -> usize {
        size_of_all(self)
    }

    fn written_size(&self) -> usize {
        size_of_all(self)
    }
}

impl<T: ToBytes> ToBytes for Vec<T> {
    ghost wire = { λ v. wire_all T.wire v.items };

    ghost length_is = { λ v bytes e.
        wire_all-length T.wire T.Size.wire_length T.length_is v.items bytes e };

    ghost zeros_after = { λ v bytes e. unpadded-zeros (sum_by T.Size.wire_length v.items) bytes
        (wire_all-length T.wire T.Size.wire_length T.length_is v.items bytes e) };

    ghost no_memory = { λ v e. wire_all-no_memory T.wire T.no_memory v.items e };

    fn to_bytes(&self, buffer: &mut Vec<u8>) -> Result<(), SerError> {
        write_all(self, buffer)
    }
}

impl<T: FromBytes> FromBytesWithInput for Vec<T> {
    ghost Value = { List T.Value };

    ghost view = { λ v. map T.view v.items };

    ghost read = { elements T.read };

    ghost takes_memory = { λ s. 0 < length s };

    ghost no_memory = { λ s e. elements-no_memory T.read T.no_memory s e };

    ghost never_short = { λ s e. elements-never_short T.read s e };

    fn from_bytes_with_input(
        alloc: Global,
        cursor: &mut Cursor<'_>,
        n: usize,
    ) -> Result<Self, DeError> {
        let bytes = cursor.input(n)?;
        let items = read_all(alloc, bytes)?;
        cursor.advance(n);
        Ok(items)
    }
}
