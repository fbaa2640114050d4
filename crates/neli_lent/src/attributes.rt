//! Walks over attributes with lent payloads.

ghost use Rattle.std.specs.Prelude.{◌≡◌, ◌+◌, ◌≤◌, [], None, IfSome, IsNone, OnErr, OnOk, length};
ghost use Rattle.std.specs.Iterator.{YieldsFirstBy, item_count};
ghost use Rattle.neli_wire.specs.Place.{Place, whole};
ghost use Rattle.neli_attr.specs.Lookup.{is_masked};
ghost use Rattle.neli_lent.specs.Walks.{count_of, cut_with, find_in, items_of, map_found, map_item, map_ok};
ghost use Rattle.neli_lent.specs.Attributes.{attribute_view, attributes_at};

use crate::selector::Masked;
use crate::{AttrSelector, LentAttr};
use neli_attr::AttrType;
use neli_consts_attrs::RtaType;
use neli_wire::implementing::within_input;
use neli_wire::{Constant, Cursor, DeError};
use std::marker::{Model, PhantomData};

/// The attributes that bytes list, one after the other, each with a lent payload.
///
/// An iterator of results: after the attributes it returns the fault of the rest, if there is one, which is also an
/// owned list's refusal of these bytes; then nothing. It takes no memory. Contracts see it as a place in the bytes.
#[derive(Drop)]
pub struct LentAttrs<'b, K> {
    cursor: Cursor<'b>,
    of: PhantomData<K>,
}

/// Generic attributes with lent payloads.
pub type LentNlattrs<'b, T> = LentAttrs<'b, AttrType<T>>;

/// Routing attributes with lent payloads.
pub type LentRtattrs<'b, T> = LentAttrs<'b, T>;

impl<'b, K> Model for LentAttrs<'b, K> {
    ghost Value = { Place };

    ghost view = { λ i. i.cursor };
}

impl<'b, K: Constant<Number = u16>> LentAttrs<'b, K> {
    /// The attributes that these bytes list.
    pub fn new(bytes: &'b [u8]) -> Self
        ensures before { result.before ≡ [] }
        ensures rest { result.rest ≡ bytes.now }
    {
        LentAttrs {
            cursor: Cursor::new(bytes),
            of: PhantomData,
        }
    }

    /// The next attribute, or the fault of the rest, or the end.
    #[inline]
    fn step(&mut self) -> Option<Result<LentAttr<'b, K>, DeError>>
        ensures cut { attributes_at K.wire_value self.old
            ≡ cut_with (map_item attribute_view result) (attributes_at K.wire_value self.new) }
        ensures end { IsNone result → attributes_at K.wire_value self.new ≡ ([], None) }
        ensures fault { IfSome result
            (λ item. OnErr item (attributes_at K.wire_value self.new ≡ ([], None))) }
        ensures moved { whole self.new ≡ whole self.old }
        // An attribute takes at least the four bytes of its header.
        ensures shorter { IfSome result
            (λ item. OnOk item (length self.new.rest + 4 ≤ length self.old.rest)) }
    {
        if self.cursor.rest().is_empty() {
            return None;
        }
        match LentAttr::lend(&mut self.cursor) {
            Ok(attr) => Some(Ok(attr)),
            Err(error) => {
                let end = self.cursor.get_ref().len();
                self.cursor.set_position(end);
                Some(Err(within_input(error, end)))
            }
        }
    }

    /// A second walk from the same place.
    pub fn ahead(&self) -> Self
        ensures { result ≡ self.now }
    {
        LentAttrs {
            cursor: self.cursor.ahead(),
            of: PhantomData,
        }
    }

    /// The first of the remaining attributes with this type; the walk stays where it is.
    ///
    /// Refused with the fault of the rest, if no such attribute stands before it.
    pub fn get_attribute<S: AttrSelector<K>>(
        &self,
        t: S,
    ) -> Result<Option<LentAttr<'b, K>>, DeError>
        ensures { map_found attribute_view result
            ≡ find_in (λ a. S.selects t a.0.kind) (attributes_at K.wire_value self.now) }
    {
        let mut attrs = self.ahead();
        while let Some(item) = attrs.step() {
            let attr = item?;
            if t.selects(attr.attr_type()) {
                return Ok(Some(attr));
            }
        }
        Ok(None)
    }

    /// The number of remaining attributes; the walk stays where it is.
    ///
    /// Refused with the fault of the rest, if there is one.
    pub fn try_count(&self) -> Result<usize, DeError>
        ensures { result ≡ count_of (attributes_at K.wire_value self.now) }
    {
        let mut attrs = self.ahead();
        let mut count = 0;
        while let Some(item) = attrs.step() {
            let _attr = item?;
            let place = attrs.cursor.position();
            prove!(count < place);
            count += 1;
        }
        Ok(count)
    }
}

impl<'b, T: RtaType> LentAttrs<'b, T> {
    /// The first of the remaining attributes with the number of this type, whatever its two highest bits are; the walk
    /// stays where it is. These are the flags `NLA_F_NESTED` and `NLA_F_NET_BYTEORDER`; a routing attribute has them in
    /// its type, and some kernels set them.
    ///
    /// A type with a number of 16384 or more is never found. Refused with the fault of the rest, if no such attribute
    /// stands before it.
    pub fn get_attribute_masked(&self, t: T) -> Result<Option<LentAttr<'b, T>>, DeError>
        ensures { map_found attribute_view result
            ≡ find_in (λ a. is_masked T.wire_number t a.0.kind)
            (attributes_at T.wire_value self.now) }
    {
        self.get_attribute(Masked(t))
    }
}

impl<'b, K: Constant<Number = u16>> Iterator for LentAttrs<'b, K> {
    type Item = Result<LentAttr<'b, K>, DeError>;

    ghost next_gives = { YieldsFirstBy (map_ok attribute_view)
        (λ place. items_of (attributes_at K.wire_value place)) };

    ghost remaining = { item_count (λ place. items_of (attributes_at K.wire_value place)) };

    #[inline]
    fn next(&mut self) -> Option<Result<LentAttr<'b, K>, DeError>> {
        self.step()
    }
}
