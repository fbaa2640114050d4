//! Attributes that are looked up and read in one call, lent ones. No call takes memory.

ghost use Rattle.std.specs.Prelude.{◌≡◌, ℕ};
ghost use Rattle.neli_wire.specs.Place.{Place};
ghost use Rattle.neli_wire.specs.Strings.{owned_text};
ghost use Rattle.neli_attr.specs.Lookup.{is_masked};
ghost use Rattle.neli_lent.specs.Attributes.{attributes_at};
ghost use Rattle.neli_short.specs.Look.{at_lent_path, constant_front, last_number};
ghost use Rattle.neli_short.specs.Look.{lent_payload, map_there, read_found};

use crate::AttrError;
use crate::found::{below, is_masked, last_number, payload_in, read_number, read_text};
use neli_lent::{AttrSelector, LentAttrs};
use neli_wire::Constant;

/// A number by which attributes are looked up, whatever the two flags above it are.
#[derive(Clone, Copy)]
struct Numbered(u16);

impl<K: Constant<Number = u16>> AttrSelector<K> for Numbered {
    ghost selects = { λ t field. is_masked (λ n. n) t.0 (K.wire_number field) };

    fn selects(&self, field: &K) -> bool {
        is_masked(self.0, field.to_wire())
    }
}

/// Lent attributes of which one is looked up and read; the walk stays where it is.
///
/// A missing attribute is `None`; one that is there and can't be read is an [`AttrError`], which names it, and so is a
/// fault of the bytes before which no such attribute stands. A type is looked up as `get_attribute` does. A path is of
/// numbers, the outermost first: each is looked up without regard to the two flags, in what the payload before lists.
/// No path leads nowhere.
pub trait LentLookup<'b, K: Constant<Number = u16>> {
    // Where the attributes begin.
    ghost place: { Self → Place };

    /// The payload of the first attribute of this type.
    fn payload_of<S: AttrSelector<K> + Constant<Number = u16>>(
        &self,
        kind: S,
    ) -> Result<Option<&'b [u8]>, AttrError>
        ensures { map_there (λ payload. payload.now) result
            ≡ lent_payload (S.wire_number kind) (S.selects kind)
            (attributes_at K.wire_value (place self.now)) };

    /// The number that the payload of the first attribute of this type begins with, or what that number means.
    fn get<C: Constant, S: AttrSelector<K> + Constant<Number = u16>>(
        &self,
        kind: S,
    ) -> Result<Option<C>, AttrError>
        ensures { let found = lent_payload (S.wire_number kind) (S.selects kind)
            (attributes_at K.wire_value (place self.now)) in
            let read = constant_front C.Number.byte_count C.Number.number_of C.wire_value in
            result ≡ read_found (S.wire_number kind) read found };

    /// The text that the payload of the first attribute of this type is, without the zero at its end.
    ///
    /// Refused with `InvalidInput(0)` where the payload has no byte, and with `Utf8` where these are not UTF-8.
    fn get_str<S: AttrSelector<K> + Constant<Number = u16>>(
        &self,
        kind: S,
    ) -> Result<Option<&'b str>, AttrError>
        ensures { let found = lent_payload (S.wire_number kind) (S.selects kind)
            (attributes_at K.wire_value (place self.now)) in
            map_there (λ text. text.now) result
            ≡ read_found (S.wire_number kind) owned_text found };

    /// The payload at the end of a path.
    fn payload_at(&self, path: &[u16]) -> Result<Option<&'b [u8]>, AttrError>
        ensures { map_there (λ payload. payload.now) result
            ≡ at_lent_path K.wire_number path.now (attributes_at K.wire_value (place self.now)) };

    /// The number that the payload at the end of a path begins with, or what that number means.
    fn get_path<C: Constant>(&self, path: &[u16]) -> Result<Option<C>, AttrError>
        ensures { let found = at_lent_path K.wire_number path.now
            (attributes_at K.wire_value (place self.now)) in
            let read = constant_front C.Number.byte_count C.Number.number_of C.wire_value in
            result ≡ read_found (last_number path.now) read found };
}

impl<'b, K: Constant<Number = u16>> LentLookup<'b, K> for LentAttrs<'b, K> {
    ghost place = { λ walk. walk };

    fn payload_of<S: AttrSelector<K> + Constant<Number = u16>>(
        &self,
        kind: S,
    ) -> Result<Option<&'b [u8]>, AttrError> {
        payload_in(kind.to_wire(), self.get_attribute(kind))
    }

    fn payload_at(&self, path: &[u16]) -> Result<Option<&'b [u8]>, AttrError> {
        let Some((number, rest)) = path.split_first() else {
            return Ok(None);
        };
        match payload_in(*number, self.get_attribute(Numbered(*number)))? {
            Some(payload) => below(rest, payload),
            None => Ok(None),
        }
    }

    fn get<C: Constant, S: AttrSelector<K> + Constant<Number = u16>>(
        &self,
        kind: S,
    ) -> Result<Option<C>, AttrError> {
        read_number(kind.to_wire(), self.payload_of(kind)?)
    }

    fn get_str<S: AttrSelector<K> + Constant<Number = u16>>(
        &self,
        kind: S,
    ) -> Result<Option<&'b str>, AttrError> {
        read_text(kind.to_wire(), self.payload_of(kind)?)
    }

    fn get_path<C: Constant>(&self, path: &[u16]) -> Result<Option<C>, AttrError> {
        read_number(last_number(path), self.payload_at(path)?)
    }
}
