//! Generic attributes, lists of them, and handles that find them.

ghost use Rattle.std.specs.Prelude.{◌≡◌, ◌+◌, ◌<◌, ℕ, List, Some, None, Ok, IfOk, IfErr, OnErr, length, map};
ghost use Rattle.neli_wire.specs.Frames.{frame_at, frame_takes_memory};
ghost use Rattle.neli_wire.specs.Refusals.{Refuses};
ghost use Rattle.neli_wire.specs.Sizes.{align};
ghost use Rattle.neli_wire.specs.Writing.{RefusesWrite};
ghost use Rattle.neli_wire.specs.laws.Sizes.{padded-rounded};
ghost use Rattle.neli_attr.specs.Handles.{attrs_in};
ghost use Rattle.neli_attr.specs.Payloads.{RefusesAs};
ghost use Rattle.neli_attr.specs.TypeField.{number_of, type_of};
ghost use Rattle.neli_attr.specs.AttrType.{AttrType as Field};
ghost use Rattle.neli_attr.specs.Attributes.{Attr, attr, attribute, attributes_in, nested_payload};
ghost use Rattle.neli_attr.specs.Builders.{IsWhyNot};
ghost use Rattle.neli_attr.specs.laws.Attributes.{attribute-local, attribute-no_memory};
ghost use Rattle.neli_attr.specs.Nlattr.{built_nlattr, nlattr_view, nlattr_wire, with_bytes};
ghost use Rattle.neli_attr.specs.Nlattr.{nested_with, nlattr_eq, typed_attribute};
ghost use Rattle.neli_attr.specs.laws.Nlattr.{nlattr_wire-length, nlattr_wire-no_memory, nlattr_wire-zeros};
ghost use Rattle.neli_attr.specs.laws.Nlattr.{nlattr_equiv, nlattr_per};

use crate::{AttrType, Attribute, Buffer, BuildError, of};
use neli_attr_parts::frame::{
    frame_length, nested_bytes, payload_bytes, read_attribute, size_with, write_attribute, written,
};
use neli_consts::{ATTRIBUTE_HEADER_SIZE, NlAttrType};
use neli_list::{
    AttrHandle, FrameList, Retyped, ToTyped, TryClone, TypedPayload, handle_of_payload,
    read_borrowed,
};
use neli_wire::implementing::{length_refusal, padded_length};
use neli_wire::{
    Cursor, DeError, FromBytes, FromBytesWithInput, FromBytesWithInputBorrowed, Header, NoMemory,
    SerError, Size, ToBytes, UninitializedFieldError,
};
use std::alloc::Global;

/// A list of generic attributes, one after the other, each with its padding.
pub type GenlBuffer<T, P> = FrameList<Nlattr<T, P>>;

/// A list of generic attributes, owned or lent, with look-ups by type.
pub type GenlAttrHandle<'a, T> = AttrHandle<'a, GenlBuffer<T, Buffer>, Nlattr<T, Buffer>>;

/// An attribute of generic netlink: its type is two flags and a number.
///
/// On the wire it is a length of two bytes, which counts the header of four bytes and the payload but no padding, a
/// type of two bytes, the payload, and zeros up to a multiple of four (`linux/netlink.h`, `struct nlattr`).
#[derive(Debug, Drop)]
pub struct Nlattr<T, P> {
    nla_len: u16,
    nla_type: AttrType<T>,
    nla_payload: P,
}

impl<T, P> Nlattr<T, P> {
    /// The length in bytes of the header and the payload, as it was read or computed.
    pub fn nla_len(&self) -> &u16
        ensures { result.now ≡ self.now.nla_len }
    {
        &self.nla_len
    }

    /// The type, with its flags.
    pub fn nla_type(&self) -> &AttrType<T>
        ensures { result.now ≡ self.now.nla_type }
    {
        &self.nla_type
    }

    /// The payload.
    pub fn nla_payload(&self) -> &P
        ensures { result.now ≡ self.now.nla_payload }
    {
        &self.nla_payload
    }
}

impl<T: NlAttrType> Nlattr<T, Buffer> {
    /// Appends another attribute to the payload, marks this one as nested, and computes its length anew.
    ///
    /// Refused first with the refusal of the nested attribute; then with a `SerError::Msg` if the length exceeds 65535.
    /// `Memory` may replace either. A refusal drops the attribute.
    pub fn nest<S: NlAttrType, P: ToBytes>(self, attr: &Nlattr<S, P>) -> Result<Self, SerError>
        ensures payload { let inner = nlattr_wire S.wire_number P.wire attr.now in
            IfOk result (λ a. nested_payload self.nla_payload inner ≡ Ok a.nla_payload) }
        ensures nested { IfOk result (λ a. a ≡ nested_with self a.nla_payload) }
        ensures refused { let inner = nlattr_wire S.wire_number P.wire attr.now in
            IfErr result (RefusesWrite (nested_payload self.nla_payload inner)) }
    {
        let (nla_len, nla_payload) = nested_bytes(self.nla_payload, attr)?;
        Ok(Nlattr {
            nla_len,
            nla_type: self.nla_type.as_nested(),
            nla_payload,
        })
    }

    /// The attributes that the payload lists.
    ///
    /// Refused as the list refuses the payload.
    pub fn get_attr_handle<R: NlAttrType>(
        &self,
        alloc: Global,
    ) -> Result<GenlAttrHandle<'_, R>, DeError>
        ensures value { let attrs = attributes_in (type_of R.wire_value) self.now.nla_payload in
            IfOk result (λ h. attrs ≡ Ok (map nlattr_view (attrs_in h))) }
        ensures refused { let attrs = attributes_in (type_of R.wire_value) self.now.nla_payload in
            IfErr result (Refuses attrs (0 < length self.now.nla_payload)) }
    {
        handle_of_payload(alloc, self.nla_payload.as_ref())
    }

    /// The value that the whole payload spells. It borrows the payload, so it lives as long as this borrow of the
    /// attribute. It takes no memory.
    ///
    /// Refused as the type's own read refuses these bytes.
    pub fn get_payload_as_with_len_borrowed<'a, R>(&'a self) -> Result<R, R::Error>
    where
        R: FromBytesWithInputBorrowed<'a>,
        ensures value { IfOk result (λ v. R.read self.now.nla_payload ≡ Ok (R.view v)) }
        ensures refused { let reading = R.read self.now.nla_payload in
            IfErr result (RefusesAs R.Error.from_gives reading) }
    {
        read_borrowed(self.nla_payload.as_ref())
    }

    /// An equal attribute.
    ///
    /// Refused only if memory runs out, and never where its payload is empty.
    pub fn try_clone(&self) -> Result<Self, NoMemory>
        ensures value { IfOk result (λ a. a ≡ self.now) }
        ensures memory { OnErr result (0 < length self.now.nla_payload) }
    {
        Ok(Nlattr {
            nla_len: self.nla_len,
            nla_type: self.nla_type,
            nla_payload: self.nla_payload.try_clone()?,
        })
    }
}

impl<T: NlAttrType> ToTyped<T> for Nlattr<u16, Buffer> {
    type Typed = Nlattr<T, Buffer>;

    ghost typed = { typed_attribute T.wire_value };

    ghost typing_takes_memory = { λ a. 0 < length a.nla_payload };

    fn to_typed(&self) -> Result<Nlattr<T, Buffer>, NoMemory> {
        Ok(Nlattr {
            nla_len: self.nla_len,
            nla_type: self.nla_type.to_typed(),
            nla_payload: self.nla_payload.try_clone()?,
        })
    }
}

impl<T: PartialEq, P: PartialEq> PartialEq for Nlattr<T, P> {
    ghost eq = { nlattr_eq T.eq P.eq };

    ghost laws = { nlattr_per T.PartialEq.laws P.PartialEq.laws };

    fn eq(&self, other: &Self) -> bool {
        self.nla_len == other.nla_len
            && self.nla_type == other.nla_type
            && self.nla_payload == other.nla_payload
    }
}

impl<T: Eq, P: Eq> Eq for Nlattr<T, P> {
    ghost laws = { nlattr_equiv T.Eq.laws P.Eq.laws };
}

impl<T: NlAttrType> TryClone for Nlattr<T, Buffer> {
    ghost copy_takes_memory = { λ a. 0 < length a.nla_payload };

    fn try_clone(&self) -> Result<Self, NoMemory> {
        Nlattr::try_clone(self)
    }
}

impl<T: NlAttrType> TypedPayload for Nlattr<T, Buffer> {
    type Kind = T;

    ghost type_of = { λ a. a.nla_type.nla_type };

    ghost bytes_of = { λ a. a.nla_payload };

    fn own_type(&self) -> &T {
        self.nla_type.nla_type()
    }

    fn own_payload(&self) -> &[u8] {
        self.nla_payload.as_ref()
    }
}

impl<T: NlAttrType, S: NlAttrType> Retyped<S> for Nlattr<T, Buffer> {
    type Attr = Nlattr<S, Buffer>;
}

impl<T: NlAttrType> Attribute<T> for Nlattr<T, Buffer> {
    ghost payload_of = { λ a. a.nla_payload };

    ghost with_payload = { with_bytes };

    fn payload(&self) -> &Buffer {
        &self.nla_payload
    }

    fn set_payload<P: ToBytes>(&mut self, alloc: Global, payload: &P) -> Result<(), SerError> {
        let (nla_len, nla_payload) = payload_bytes(alloc, payload)?;
        self.nla_len = nla_len;
        self.nla_payload = nla_payload;
        Ok(())
    }
}

impl<T: NlAttrType, P: Size> Size for Nlattr<T, P> {
    ghost unpadded_length = { λ a. 4 + P.wire_length a.nla_payload };

    ghost wire_length = { λ a. align (4 + P.wire_length a.nla_payload) };

    ghost rounded = { padded-rounded (λ a. 4 + P.wire_length a.nla_payload) };

    fn unpadded_size(&self) -> usize {
        size_with(&self.nla_payload)
    }

    fn written_size(&self) -> usize {
        padded_length(self.unpadded_size())
    }
}

impl<T: NlAttrType, P: ToBytes> ToBytes for Nlattr<T, P> {
    ghost wire = { nlattr_wire T.wire_number P.wire };

    ghost length_is = { nlattr_wire-length T.wire_number P.wire P.Size.wire_length P.length_is };

    ghost zeros_after = { nlattr_wire-zeros T.wire_number P.wire P.Size.wire_length P.length_is };

    ghost no_memory = { nlattr_wire-no_memory T.wire_number P.wire P.no_memory };

    fn to_bytes(&self, buffer: &mut Vec<u8>) -> Result<(), SerError> {
        write_attribute(self.nla_len, &self.nla_type, &self.nla_payload, buffer)
    }
}

impl<T: NlAttrType, P: FromBytesWithInput> FromBytes for Nlattr<T, P> {
    ghost Value = { Attr (Field T) P.Value };

    ghost view = { λ a. attr a.nla_len a.nla_type (P.view a.nla_payload) };

    ghost read = { frame_at (attribute (type_of T.wire_value) P.read) };

    ghost takes_memory = { frame_takes_memory (attribute (type_of T.wire_value) P.read)
        (λ _. P.takes_memory) };

    ghost local = { attribute-local (type_of T.wire_value) P.read };

    ghost no_memory = { attribute-no_memory (type_of T.wire_value) P.read P.no_memory };

    fn from_bytes(alloc: Global, cursor: &mut Cursor<'_>) -> Result<Self, DeError> {
        let (nla_len, nla_type, nla_payload) = read_attribute(alloc, cursor)?;
        Ok(Nlattr {
            nla_len,
            nla_type,
            nla_payload,
        })
    }
}

impl<T: NlAttrType, P> Header for Nlattr<T, P> {
    ghost header = { 4 };

    fn header_size() -> usize {
        ATTRIBUTE_HEADER_SIZE
    }
}

/// Why no generic attribute was built.
pub type NlattrBuilderError = BuildError<{ of::NLATTR }>;

/// A builder of generic attributes. The payload's wire bytes become the attribute's payload.
#[derive(Debug, Drop)]
pub struct NlattrBuilder<T, P> {
    nla_type: Option<AttrType<T>>,
    nla_payload: Option<P>,
}

impl<T, P> Default for NlattrBuilder<T, P> {
    ghost is_default = { λ b. b ≡ record { nla_type = None; nla_payload = None } };

    fn default() -> Self {
        NlattrBuilder {
            nla_type: None,
            nla_payload: None,
        }
    }
}

impl<T: NlAttrType, P: ToBytes + Drop> NlattrBuilder<T, P> {
    /// The type, with its flags.
    pub fn nla_type(mut self, value: AttrType<T>) -> Self
        ensures { result ≡ record self { nla_type = Some value } }
    {
        self.nla_type = Some(value);
        self
    }

    /// The value whose wire bytes are the payload.
    pub fn nla_payload(mut self, value: P) -> Self
        ensures { result ≡ record self { nla_payload = Some value } }
    {
        self.nla_payload = Some(value);
        self
    }

    /// Builds the attribute, with the length of its header and payload.
    ///
    /// Refused first with the name of the first missing field; then if the payload has no wire bytes; then if the
    /// length exceeds 65535. `Memory` may replace the last two.
    pub fn build(self, alloc: Global) -> Result<Nlattr<T, Buffer>, NlattrBuilderError>
        ensures built { IfOk result (λ a. built_nlattr P.wire self ≡ Ok a) }
        ensures refused { IfErr result (IsWhyNot (built_nlattr P.wire self)) }
    {
        let nla_type = self
            .nla_type
            .ok_or(UninitializedFieldError::new("nla_type"))?;
        let payload = self
            .nla_payload
            .ok_or(UninitializedFieldError::new("nla_payload"))?;
        let nla_payload = written(alloc, &payload)?;
        let nla_len = frame_length(&nla_payload).ok_or(BuildError::ValidationError(
            length_refusal(),
        ))?;
        Ok(Nlattr {
            nla_len,
            nla_type,
            nla_payload,
        })
    }
}
