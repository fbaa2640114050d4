//! What a choice picks.

ghost use Rattle.std.specs.Prelude.{◌≡◌, ◌<◌, ◌∷◌, [], IfSome, None, Some, find, if◌then◌else◌};
ghost use Rattle.std.specs.Prelude.{slice_get};
ghost use Rattle.std.specs.Option.{option_map};
ghost use Rattle.neli_tables_walk.specs.Shapes.{beside, chosen, context_view, has_row};
ghost use Rattle.neli_tables_walk.specs.Shapes.{kind_at, listed_view, number_by};
ghost use Rattle.neli_tables_walk.specs.Shapes.{number_in, numbered, onto, picked_as, picker};
ghost use Rattle.byteorder.specs.Endian.{big_number, little_number};

use crate::level::{Level, Listed};
use crate::{Context, without_zero};
use byteorder::{BigEndian, ByteOrder, LittleEndian};
use neli_lent::LentNlattr;
use neli_tables::{Kind, Options};
use neli_wire::Cursor;

/// Among how many attributes at the front of a list that which picks a case is sought.
const NEIGHBOURS: usize = 64;

impl<'w, 't> Context<'w, 't> {
    /// The place of the case that a choice picks.
    pub(crate) fn chosen(
        &self,
        list: &Listed<'_>,
        around: &[Level<'_>],
        options: &Options,
    ) -> Option<usize>
        ensures { result ≡ chosen (context_view self.now)
            (listed_view list.now ∷ onto around.now []) options.now }
    {
        let choice = options.of?;
        if options.by_family {
            return self.table.row(choice, self.family as u64);
        }
        let by = options.by?;
        match self.picker(list, around, by) {
            Some(bytes) => self.picked(choice, by, bytes),
            None => self.table.rest(choice),
        }
    }

    /// The payload of the attribute that picks a case: in this list or one around it, the first
    /// whose set has the attribute's row.
    fn picker<'b>(&self, list: &Listed<'b>, around: &[Level<'b>], by: usize) -> Option<&'b [u8]>
        ensures { option_map (λ bytes. bytes.now) result
            ≡ picker self.now.table.now (listed_view list.now ∷ onto around.now []) by }
    {
        let number = self.number_of(by)?;
        let found = self.listed_with(list, around, by, number)?;
        beside(found.bytes, number as u16)
    }

    /// The number of the attribute at this place, where it is one of 14 bits.
    fn number_of(&self, place: usize) -> Option<u64>
        ensures number { result ≡ number_in (slice_get self.now.table.now place) }
        ensures few { IfSome result (λ number. number < 16384) }
    {
        let number = self.table.line(place)?.span?.first;
        if number < 16384 { Some(number) } else { None }
    }

    /// The first of these lists, from the innermost out, in which this number means the row at this
    /// place.
    fn listed_with<'b>(
        &self,
        list: &Listed<'b>,
        around: &[Level<'b>],
        by: usize,
        number: u64,
    ) -> Option<Listed<'b>>
        ensures { option_map listed_view result
            ≡ find (has_row self.now.table.now by number)
            (listed_view list.now ∷ onto around.now []) }
    {
        match self.listed_here(list, by, number) {
            Some(found) => Some(found),
            None => self.listed_around(around, by, number),
        }
    }

    /// The innermost of these lists in which this number means the row at this place.
    fn listed_around<'b>(&self, around: &[Level<'b>], by: usize, number: u64) -> Option<Listed<'b>>
        ensures { option_map listed_view result
            ≡ find (has_row self.now.table.now by number) (onto around.now []) }
    {
        let mut left = around.len();
        while 0 < left {
            left -= 1;
            if let Some(found) = self.listed_here(&around[left].list, by, number) {
                return Some(found);
            }
        }
        None
    }

    /// This list, where this number means the row at this place in it.
    fn listed_here<'b>(&self, list: &Listed<'b>, by: usize, number: u64) -> Option<Listed<'b>>
        ensures { option_map listed_view result
            ≡ if has_row self.now.table.now by number (listed_view list.now)
            then Some (listed_view list.now) else None }
    {
        if self.has_row(list, by, number) {
            Some(*list)
        } else {
            None
        }
    }

    /// Whether a number means the row at this place in a list.
    fn has_row(&self, list: &Listed<'_>, by: usize, number: u64) -> bool
        ensures { result ≡ has_row self.now.table.now by number (listed_view list.now) }
    {
        match self.table.row(list.sort.nest.set, number) {
            Some(row) => !list.sort.is_hops && row == by,
            None => false,
        }
    }

    /// The place of the case of the choice at a place that these bytes pick, by the kind that the line at another place,
    /// that of the attribute that has them, says.
    pub fn picked(&self, choice: usize, by: usize, bytes: &[u8]) -> Option<usize>
        ensures { result
            ≡ picked_as self.now.table.now choice (kind_at self.now.table.now by) bytes.now }
    {
        match self.kind_of(by) {
            Some(Kind::Text | Kind::Ztext) => self.table.case(choice, without_zero(bytes)),
            Some(Kind::Be16 | Kind::Be32 | Kind::Be64 | Kind::Sbe32) => self.numbered(
                choice,
                big_number(bytes),
            ),
            _ => self.numbered(choice, little_number(bytes)),
        }
    }

    /// The kind that the line at this place says.
    fn kind_of(&self, place: usize) -> Option<Kind>
        ensures { result ≡ kind_at self.now.table.now place }
    {
        self.line_options(place)?.kind
    }

    /// The place of the case that a number picks.
    fn numbered(&self, choice: usize, number: Option<u64>) -> Option<usize>
        ensures { result ≡ numbered self.now.table.now choice number }
    {
        match number {
            Some(number) => self.table.row(choice, number),
            None => self.table.rest(choice),
        }
    }
}

/// The number that at most eight bytes are, the lowest first.
fn little_number(bytes: &[u8]) -> Option<u64>
    ensures { result ≡ number_by little_number bytes.now }
{
    let size = bytes.len();
    if 0 < size && size < 9 {
        Some(LittleEndian::read_uint(bytes, size))
    } else {
        None
    }
}

/// The number that at most eight bytes are, the highest first.
fn big_number(bytes: &[u8]) -> Option<u64>
    ensures { result ≡ number_by big_number bytes.now }
{
    let size = bytes.len();
    if 0 < size && size < 9 {
        Some(BigEndian::read_uint(bytes, size))
    } else {
        None
    }
}

/// The payload of the first attribute of this number in a list, if it is among the first 64.
fn beside(list: &[u8], number: u16) -> Option<&[u8]>
    ensures { option_map (λ p. p.now) result ≡ beside list.now number }
{
    let mut cursor = Cursor::new(list);
    let mut left = NEIGHBOURS;
    while 0 < left {
        let Ok(attr) = LentNlattr::<u16>::lend(&mut cursor) else {
            return None;
        };
        if *attr.attr_type().nla_type() == number {
            return Some(attr.attr_payload());
        }
        left -= 1;
    }
    None
}
