//! Routing attributes, lists of them, and handles that find them.

ghost use Rattle.std.specs.Prelude.{◌≡◌, ◌+◌, ◌<◌, ℕ, List, Some, None, Ok, IfOk, IfErr, OnErr, length, map};
ghost use Rattle.neli_wire.specs.Frames.{frame_at, frame_takes_memory};
ghost use Rattle.neli_wire.specs.Refusals.{Refuses};
ghost use Rattle.neli_wire.specs.Sizes.{align};
ghost use Rattle.neli_wire.specs.Writing.{RefusesWrite};
ghost use Rattle.neli_wire.specs.laws.Sizes.{padded-rounded};
ghost use Rattle.neli_attr.specs.Handles.{attrs_in};
ghost use Rattle.neli_attr.specs.Payloads.{RefusesAs};
ghost use Rattle.neli_attr.specs.Attributes.{Attr, attr, attribute, attributes_in, nested_payload};
ghost use Rattle.neli_attr.specs.Builders.{IsWhyNot};
ghost use Rattle.neli_attr.specs.laws.Attributes.{attribute-local, attribute-no_memory};
ghost use Rattle.neli_attr.specs.Rtattr.{built_rtattr, rtattr_view, rtattr_wire, with_bytes};
ghost use Rattle.neli_attr.specs.laws.Rtattr.{rtattr_wire-length, rtattr_wire-no_memory, rtattr_wire-zeros};

use crate::{Attribute, Buffer, BuildError, of};
use neli_attr_parts::frame::{
    frame_length, nested_bytes, payload_bytes, read_attribute, size_with, write_attribute, written,
};
use neli_consts::ATTRIBUTE_HEADER_SIZE;
use neli_consts_attrs::RtaType;
use neli_list::{
    AttrHandle, FrameList, Retyped, TryClone, TypedPayload, handle_of_payload, read_borrowed,
};
use neli_wire::implementing::{length_refusal, padded_length};
use neli_wire::{
    Cursor, DeError, FromBytes, FromBytesWithInput, FromBytesWithInputBorrowed, Header, NoMemory,
    SerError, Size, ToBytes, UninitializedFieldError,
};
use std::alloc::Global;

/// A list of routing attributes, one after the other, each with its padding.
pub type RtBuffer<T, P> = FrameList<Rtattr<T, P>>;

/// A list of routing attributes, owned or lent, with look-ups by type.
pub type RtAttrHandle<'a, T> = AttrHandle<'a, RtBuffer<T, Buffer>, Rtattr<T, Buffer>>;

/// An attribute of routing netlink: all 16 bits of its type are the number.
///
/// On the wire it is a length of two bytes, which counts the header of four bytes and the payload but no padding, a
/// type of two bytes, the payload, and zeros up to a multiple of four (`linux/rtnetlink.h`, `struct rtattr`).
#[derive(Debug, Drop, PartialEq, Eq)]
pub struct Rtattr<T, P> {
    rta_len: u16,
    rta_type: T,
    rta_payload: P,
}

impl<T, P> Rtattr<T, P> {
    /// The length in bytes of the header and the payload, as it was read or computed.
    pub fn rta_len(&self) -> &u16
        ensures { result.now ≡ self.now.rta_len }
    {
        &self.rta_len
    }

    /// The type.
    pub fn rta_type(&self) -> &T
        ensures { result.now ≡ self.now.rta_type }
    {
        &self.rta_type
    }

    /// The payload.
    pub fn rta_payload(&self) -> &P
        ensures { result.now ≡ self.now.rta_payload }
    {
        &self.rta_payload
    }
}

impl<T: RtaType> Rtattr<T, Buffer> {
    /// Appends another attribute to the payload, and computes the length anew.
    ///
    /// Refused first with the refusal of the nested attribute; then with a `SerError::Msg` if the length exceeds 65535.
    /// `Memory` may replace either. A refusal drops the attribute.
    pub fn nest<S: RtaType, P: ToBytes>(self, attr: &Rtattr<S, P>) -> Result<Self, SerError>
        ensures payload { let inner = rtattr_wire S.wire_number P.wire attr.now in
            IfOk result (λ a. nested_payload self.rta_payload inner ≡ Ok a.rta_payload) }
        ensures nested { IfOk result (λ a. a ≡ with_bytes self a.rta_payload) }
        ensures refused { let inner = rtattr_wire S.wire_number P.wire attr.now in
            IfErr result (RefusesWrite (nested_payload self.rta_payload inner)) }
    {
        let (rta_len, rta_payload) = nested_bytes(self.rta_payload, attr)?;
        Ok(Rtattr {
            rta_len,
            rta_type: self.rta_type,
            rta_payload,
        })
    }

    /// The attributes that the payload lists.
    ///
    /// Refused as the list refuses the payload.
    pub fn get_attr_handle<R: RtaType>(&self, alloc: Global) -> Result<RtAttrHandle<'_, R>, DeError>
        ensures value { let attrs = attributes_in R.wire_value self.now.rta_payload in
            IfOk result (λ h. attrs ≡ Ok (map rtattr_view (attrs_in h))) }
        ensures refused { let attrs = attributes_in R.wire_value self.now.rta_payload in
            IfErr result (Refuses attrs (0 < length self.now.rta_payload)) }
    {
        handle_of_payload(alloc, self.rta_payload.as_ref())
    }

    /// The value that the whole payload spells. It borrows the payload, so it lives as long as this borrow of the
    /// attribute. It takes no memory.
    ///
    /// Refused as the type's own read refuses these bytes.
    pub fn get_payload_as_with_len_borrowed<'a, R>(&'a self) -> Result<R, R::Error>
    where
        R: FromBytesWithInputBorrowed<'a>,
        ensures value { IfOk result (λ v. R.read self.now.rta_payload ≡ Ok (R.view v)) }
        ensures refused { let reading = R.read self.now.rta_payload in
            IfErr result (RefusesAs R.Error.from_gives reading) }
    {
        read_borrowed(self.rta_payload.as_ref())
    }

    /// An equal attribute.
    ///
    /// Refused only if memory runs out, and never where its payload is empty.
    pub fn try_clone(&self) -> Result<Self, NoMemory>
        ensures value { IfOk result (λ a. a ≡ self.now) }
        ensures memory { OnErr result (0 < length self.now.rta_payload) }
    {
        Ok(Rtattr {
            rta_len: self.rta_len,
            rta_type: self.rta_type,
            rta_payload: self.rta_payload.try_clone()?,
        })
    }
}

impl<T: RtaType> TryClone for Rtattr<T, Buffer> {
    ghost copy_takes_memory = { λ a. 0 < length a.rta_payload };

    fn try_clone(&self) -> Result<Self, NoMemory> {
        Rtattr::try_clone(self)
    }
}

impl<T: RtaType> TypedPayload for Rtattr<T, Buffer> {
    type Kind = T;

    ghost type_of = { λ a. a.rta_type };

    ghost bytes_of = { λ a. a.rta_payload };

    fn own_type(&self) -> &T {
        &self.rta_type
    }

    fn own_payload(&self) -> &[u8] {
        self.rta_payload.as_ref()
    }
}

impl<T: RtaType, S: RtaType> Retyped<S> for Rtattr<T, Buffer> {
    type Attr = Rtattr<S, Buffer>;
}

impl<T: RtaType> Attribute<T> for Rtattr<T, Buffer> {
    ghost payload_of = { λ a. a.rta_payload };

    ghost with_payload = { with_bytes };

    fn payload(&self) -> &Buffer {
        &self.rta_payload
    }

    fn set_payload<P: ToBytes>(&mut self, alloc: Global, payload: &P) -> Result<(), SerError> {
        let (rta_len, rta_payload) = payload_bytes(alloc, payload)?;
        self.rta_len = rta_len;
        self.rta_payload = rta_payload;
        Ok(())
    }
}

impl<T: RtaType, P: Size> Size for Rtattr<T, P> {
    ghost unpadded_length = { λ a. 4 + P.wire_length a.rta_payload };

    ghost wire_length = { λ a. align (4 + P.wire_length a.rta_payload) };

    ghost rounded = { padded-rounded (λ a. 4 + P.wire_length a.rta_payload) };

    fn unpadded_size(&self) -> usize {
        size_with(&self.rta_payload)
    }

    fn written_size(&self) -> usize {
        padded_length(self.unpadded_size())
    }
}

impl<T: RtaType, P: ToBytes> ToBytes for Rtattr<T, P> {
    ghost wire = { rtattr_wire T.wire_number P.wire };

    ghost length_is = { rtattr_wire-length T.wire_number P.wire P.Size.wire_length P.length_is };

    ghost zeros_after = { rtattr_wire-zeros T.wire_number P.wire P.Size.wire_length P.length_is };

    ghost no_memory = { rtattr_wire-no_memory T.wire_number P.wire P.no_memory };

    fn to_bytes(&self, buffer: &mut Vec<u8>) -> Result<(), SerError> {
        write_attribute(self.rta_len, &self.rta_type, &self.rta_payload, buffer)
    }
}

impl<T: RtaType, P: FromBytesWithInput> FromBytes for Rtattr<T, P> {
    ghost Value = { Attr T P.Value };

    ghost view = { λ a. attr a.rta_len a.rta_type (P.view a.rta_payload) };

    ghost read = { frame_at (attribute T.wire_value P.read) };

    ghost takes_memory = { frame_takes_memory (attribute T.wire_value P.read)
        (λ _. P.takes_memory) };

    ghost local = { attribute-local T.wire_value P.read };

    ghost no_memory = { attribute-no_memory T.wire_value P.read P.no_memory };

    fn from_bytes(alloc: Global, cursor: &mut Cursor<'_>) -> Result<Self, DeError> {
        let (rta_len, rta_type, rta_payload) = read_attribute(alloc, cursor)?;
        Ok(Rtattr {
            rta_len,
            rta_type,
            rta_payload,
        })
    }
}

impl<T: RtaType, P> Header for Rtattr<T, P> {
    ghost header = { 4 };

    fn header_size() -> usize {
        ATTRIBUTE_HEADER_SIZE
    }
}

/// Why no routing attribute was built.
pub type RtattrBuilderError = BuildError<{ of::RTATTR }>;

/// A builder of routing attributes. The payload's wire bytes become the attribute's payload.
#[derive(Debug, Drop)]
pub struct RtattrBuilder<T, P> {
    rta_type: Option<T>,
    rta_payload: Option<P>,
}

impl<T, P> Default for RtattrBuilder<T, P> {
    ghost is_default = { λ b. b ≡ record { rta_type = None; rta_payload = None } };

    fn default() -> Self {
        RtattrBuilder {
            rta_type: None,
            rta_payload: None,
        }
    }
}

impl<T: RtaType, P: ToBytes + Drop> RtattrBuilder<T, P> {
    /// The type.
    pub fn rta_type(mut self, value: T) -> Self
        ensures { result ≡ record self { rta_type = Some value } }
    {
        self.rta_type = Some(value);
        self
    }

    /// The value whose wire bytes are the payload.
    pub fn rta_payload(mut self, value: P) -> Self
        ensures { result ≡ record self { rta_payload = Some value } }
    {
        self.rta_payload = Some(value);
        self
    }

    /// Builds the attribute, with the length of its header and payload.
    ///
    /// Refused first with the name of the first missing field; then if the payload has no wire bytes; then if the
    /// length exceeds 65535. `Memory` may replace the last two.
    pub fn build(self, alloc: Global) -> Result<Rtattr<T, Buffer>, RtattrBuilderError>
        ensures built { IfOk result (λ a. built_rtattr P.wire self ≡ Ok a) }
        ensures refused { IfErr result (IsWhyNot (built_rtattr P.wire self)) }
    {
        let rta_type = self
            .rta_type
            .ok_or(UninitializedFieldError::new("rta_type"))?;
        let payload = self
            .rta_payload
            .ok_or(UninitializedFieldError::new("rta_payload"))?;
        let rta_payload = written(alloc, &payload)?;
        let rta_len = frame_length(&rta_payload).ok_or(BuildError::ValidationError(
            length_refusal(),
        ))?;
        Ok(Rtattr {
            rta_len,
            rta_type,
            rta_payload,
        })
    }
}
