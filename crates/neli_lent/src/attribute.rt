//! An attribute with a lent payload.

ghost use Rattle.std.specs.Prelude.{◌≡◌, [], Ok, Err, IfOk, IfErr, OnOk, OnErr};
ghost use Rattle.neli_wire.specs.Frames.{frame_at};
ghost use Rattle.neli_wire.specs.Place.{whole};
ghost use Rattle.neli_wire.specs.Refusals.{Refuses};
ghost use Rattle.neli_attr.specs.Payloads.{ReadsFirst, RefusesAs};
ghost use Rattle.neli_lent.specs.Attributes.{attribute_view, lent_attribute};

use crate::{LentAttrs, lend_payload};
use byteorder::{ByteOrder, LittleEndian};
use neli_attr::AttrType;
use neli_consts::ATTRIBUTE_HEADER_SIZE;
use neli_list::{read_borrowed, read_first, read_whole};
use neli_wire::{
    Constant, Cursor, DeError, FromBytes, FromBytesWithInput, FromBytesWithInputBorrowed,
};
use std::alloc::Global;
use std::io::ErrorKind;

/// An attribute with a type field of type `K`, whose payload is the bytes that it was read from: a header of 4 bytes,
/// `struct nlattr` of linux/netlink.h or `struct rtattr` of linux/rtnetlink.h, and the payload.
#[derive(Clone, Copy, Debug)]
pub struct LentAttr<'b, K> {
    len: u16,
    kind: K,
    payload: &'b [u8],
}

/// A generic attribute with a lent payload: its type field has two flags beside the type.
pub type LentNlattr<'b, T> = LentAttr<'b, AttrType<T>>;

/// A routing attribute with a lent payload: its type field is the type.
pub type LentRtattr<'b, T> = LentAttr<'b, T>;

impl<'b, K> LentAttr<'b, K> {
    /// The length in bytes of the header and the payload, without padding.
    pub fn attr_len(&self) -> &u16
        ensures { result.now ≡ self.now.len }
    {
        &self.len
    }

    /// The type field: of a generic attribute the type with its flags, of a routing one the type.
    pub fn attr_type(&self) -> &K
        ensures { result.now ≡ self.now.kind }
    {
        &self.kind
    }

    /// The payload. It lives as long as the bytes that it was read from.
    pub fn attr_payload(&self) -> &'b [u8]
        ensures { result.now ≡ self.now.payload.now }
    {
        self.payload
    }
}

impl<'b, K: Constant<Number = u16>> LentAttr<'b, K> {
    /// Reads the attribute at the cursor; its payload stays in place. It takes no memory.
    ///
    /// Refused as an owned attribute with a payload of bytes is: `Io(UnexpectedEof)` if there is no whole header,
    /// `InvalidInput(length)` if the stated length is below 4, `InvalidInput(length - 4)` if it exceeds the bytes, and
    /// `Io(UnexpectedEof)` if padding is missing. A refusal leaves the cursor where it was.
    #[inline]
    #[tactic(auto, unfolding(neli_wire::specs::Frames::frame_at))]
    pub fn lend(cursor: &mut Cursor<'b>) -> Result<Self, DeError>
        ensures value { IfOk result (λ a. frame_at (lent_attribute K.wire_value) cursor.old.rest
            ≡ Ok (attribute_view a, cursor.new.rest)) }
        ensures moved { OnOk result (whole cursor.new ≡ whole cursor.old) }
        ensures refused { IfErr result
            (λ e. frame_at (lent_attribute K.wire_value) cursor.old.rest ≡ Err e) }
        ensures unchanged { OnErr result (cursor.new ≡ cursor.old) }
    {
        let rest = cursor.rest();
        if rest.len() < ATTRIBUTE_HEADER_SIZE {
            return Err(DeError::Io(ErrorKind::UnexpectedEof));
        }
        let len = LittleEndian::read_u16(rest);
        let kind = K::from_wire(LittleEndian::read_u16(&rest[2..]));
        let payload = lend_payload(cursor, ATTRIBUTE_HEADER_SIZE, len as usize)?;
        Ok(LentAttr { len, kind, payload })
    }

    /// The attributes that the payload lists, lent in the same way.
    pub fn get_attrs<S: Constant<Number = u16>>(&self) -> LentAttrs<'b, S>
        ensures before { result.before ≡ [] }
        ensures rest { result.rest ≡ self.now.payload.now }
    {
        LentAttrs::new(self.payload)
    }

    /// The value at the front of the payload, whatever follows it.
    ///
    /// Refused as the type's own read refuses these bytes.
    pub fn get_payload_as<R: FromBytes>(&self, alloc: Global) -> Result<R, DeError>
        ensures value { let payload = self.now.payload.now in
            IfOk result (λ v. ReadsFirst (R.read payload) (R.view v)) }
        ensures refused { let payload = self.now.payload.now in
            IfErr result (Refuses (R.read payload) (R.takes_memory payload)) }
    {
        read_first(alloc, self.payload)
    }

    /// The value that the whole payload spells.
    ///
    /// Refused as the type's own read refuses these bytes.
    pub fn get_payload_as_with_len<R: FromBytesWithInput>(
        &self,
        alloc: Global,
    ) -> Result<R, DeError>
        ensures value { IfOk result (λ v. R.read self.now.payload.now ≡ Ok (R.view v)) }
        ensures refused { let payload = self.now.payload.now in
            IfErr result (Refuses (R.read payload) (R.takes_memory payload)) }
    {
        read_whole(alloc, self.payload)
    }

    /// The value that the whole payload spells. It borrows the payload's bytes, and lives as long as they do. It takes
    /// no memory.
    ///
    /// Refused as the type's own read refuses these bytes.
    pub fn get_payload_as_with_len_borrowed<R>(&self) -> Result<R, R::Error>
    where
        R: FromBytesWithInputBorrowed<'b>,
        ensures value { IfOk result (λ v. R.read self.now.payload.now ≡ Ok (R.view v)) }
        ensures refused { IfErr result
            (RefusesAs R.Error.from_gives (R.read self.now.payload.now)) }
    {
        read_borrowed(self.payload)
    }
}
