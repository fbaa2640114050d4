//! Handles: attributes for look-ups, owned or lent.

ghost use Rattle.std.specs.Prelude.{◌≡◌, ◌<◌, ℕ, List, Ok, IfErr, IfOk, OnErr, length, map};
ghost use Rattle.std.specs.Option.{option_copied};
ghost use Rattle.std.specs.Slice.Iter.{iter_rest};
ghost use Rattle.neli_wire.specs.Refusals.{Refuses};
ghost use Rattle.neli_wire.specs.declared.errors.DeError.TheVariants.{Memory};
ghost use Rattle.neli_wire.specs.laws.Elements.{elements};
ghost use Rattle.neli_list.specs.Payloads.{ReadsFirst, RefusesAs};
ghost use Rattle.neli_list.specs.Lookup.{first_masked, first_of_type, list_found, list_found_takes_memory};
ghost use Rattle.neli_list.specs.Lookup.{payload_of_type, read_found, read_found_takes_memory};

use crate::{FrameList, handle_of_payload, read_borrowed, read_first, read_whole};
use neli_wire::{
    Constant, DeError, FromBytes, FromBytesWithInput, FromBytesWithInputBorrowed, MsgError,
    NoMemory,
};
use std::alloc::Global;
use std::slice::Iter;

/// The bits of a type field that are the type itself (`NLA_TYPE_MASK` of `linux/netlink.h`). The other two are the
/// flags `NLA_F_NESTED` and `NLA_F_NET_BYTEORDER`.
const TYPE_MASK: u16 = 0x3fff;

/// An attribute as handles see it: a type, by which it is found, and a payload of bytes.
pub trait TypedPayload {
    /// The type of its types.
    type Kind: PartialEq + Copy;

    // The type.
    ghost type_of: { Self → Self.Kind };

    // The payload's bytes.
    ghost bytes_of: { Self → List ℕ };

    /// The type by which the attribute is found.
    fn own_type(&self) -> &Self::Kind
        ensures { result.now ≡ type_of self.now };

    /// The payload's bytes, lent.
    fn own_payload(&self) -> &[u8]
        ensures { result.now ≡ bytes_of self.now };
}

/// Attributes whose payloads can hold attributes of the same kind with types `S`.
pub trait Retyped<S> {
    /// The same kind of attribute with a type of type `S`.
    type Attr: FromBytes;
}

/// Attributes whose type is a number, and that become attributes with the number's meaning.
pub trait ToTyped<T> {
    /// The same kind of attribute with a type of type `T`.
    type Typed;

    // The attribute with the meaning of its type's number.
    ghost typed: { Self → Self.Typed };

    // Where typing takes memory: that of the copied payload.
    ghost typing_takes_memory: { Self → Type 0 };

    /// The same attribute with the meaning of its type's number.
    ///
    /// Refused only if memory runs out, and only where typing takes some.
    fn to_typed(&self) -> Result<Self::Typed, NoMemory>
        ensures value { IfOk result (λ a. a ≡ typed self.now) }
        ensures memory { OnErr result (typing_takes_memory self.now) };
}

/// A list that lends its attributes.
pub trait AttrSlice<I> {
    // The attributes.
    ghost attrs_of: { Self → List I };

    /// The attributes in their order.
    fn attr_slice(&self) -> &[I]
        ensures { result.now ≡ attrs_of self.now };
}

impl<I> AttrSlice<I> for FrameList<I> {
    ghost attrs_of = { λ list. list };

    fn attr_slice(&self) -> &[I] {
        self.as_ref()
    }
}

/// Attributes for look-ups: an owned list, or lent attributes.
#[derive(Drop)]
pub enum AttrHandle<'a, O, I> {
    /// An owned list.
    Owned(O),
    /// Lent attributes.
    Borrowed(&'a [I]),
}

impl<'a, O: AttrSlice<I>, I> AttrHandle<'a, O, I> {
    ghost use Rattle.neli_list.specs.Handles.{IsLent, IsOwner, attrs_by};

    /// A handle that owns the list.
    pub fn new(owned: O) -> Self
        ensures owner { IsOwner owned result }
        ensures attrs { attrs_by O.attrs_of result ≡ O.attrs_of owned }
    {
        AttrHandle::Owned(owned)
    }

    /// A handle to lent attributes.
    pub fn new_borrowed(borrowed: &'a [I]) -> Self
        ensures lent { IsLent borrowed.now result }
        ensures attrs { attrs_by O.attrs_of result ≡ borrowed.now }
    {
        AttrHandle::Borrowed(borrowed)
    }

    /// The attributes in their order.
    pub fn get_attrs(&self) -> &[I]
        ensures { result.now ≡ attrs_by O.attrs_of self.now }
    {
        match self {
            AttrHandle::Owned(owned) => owned.attr_slice(),
            AttrHandle::Borrowed(borrowed) => borrowed,
        }
    }

    /// The attributes, one by one.
    pub fn iter(&self) -> Iter<'_, I>
        ensures { iter_rest result ≡ attrs_by O.attrs_of self.now }
    {
        self.get_attrs().iter()
    }
}

impl<'a, O: AttrSlice<I>, I: TypedPayload> AttrHandle<'a, O, I> {
    ghost use Rattle.neli_list.specs.Handles.{attrs_by, attrs_in};

    /// The first attribute of this type, by the `==` of types.
    pub fn get_attribute(&self, t: I::Kind) -> Option<&I>
        ensures { option_copied result
            ≡ first_of_type I.type_of I.Kind.eq t (attrs_by O.attrs_of self.now) }
    {
        self.get_attrs().iter().find(|attr| *attr.own_type() == t)
    }

    /// The first attribute with the number of this type, whatever its two highest bits are. These are the flags
    /// `NLA_F_NESTED` and `NLA_F_NET_BYTEORDER`; a routing attribute has them in its type, and some kernels set them.
    ///
    /// A type with a number of 16384 or more is never found.
    pub fn get_attribute_masked(&self, t: I::Kind) -> Option<&I>
    where
        I::Kind: Constant<Number = u16>,
        ensures { option_copied result
            ≡ first_masked I.type_of I.Kind.wire_number t (attrs_by O.attrs_of self.now) }
    {
        let number = t.to_wire();
        self.get_attrs()
            .iter()
            .find(|attr| attr.own_type().to_wire() & TYPE_MASK == number)
    }

    /// The attributes that the payload of the first attribute of this type lists.
    ///
    /// Refused with a `DeError::Msg` if no attribute has this type; otherwise as the list refuses the payload.
    pub fn get_nested_attributes<S>(
        &self,
        alloc: Global,
        subattr: I::Kind,
    ) -> Result<AttrHandle<'_, FrameList<I::Attr>, I::Attr>, DeError>
    where
        I: Retyped<S>,
        ensures value { let attrs = attrs_by O.attrs_of self.now in
            let payload = payload_of_type I.type_of I.Kind.eq I.bytes_of subattr attrs in
            IfOk result (λ h. list_found payload I.Attr.read ≡ Ok (map I.Attr.view (attrs_in h))) }
        ensures refused { let attrs = attrs_by O.attrs_of self.now in
            let payload = payload_of_type I.type_of I.Kind.eq I.bytes_of subattr attrs in
            IfErr result (Refuses (list_found payload I.Attr.read) (list_found_takes_memory payload)) }
    {
        match self.get_attribute(subattr) {
            Some(attr) => handle_of_payload(alloc, attr.own_payload()),
            None => Err(DeError::Msg(MsgError::from_static("Couldn't find specified attribute"))),
        }
    }

    /// The value at the front of the payload of the first attribute of this type.
    ///
    /// Refused with a `DeError::Msg` if no attribute has this type; otherwise as the value's read refuses the payload.
    pub fn get_attr_payload_as<R: FromBytes>(
        &self,
        alloc: Global,
        attr: I::Kind,
    ) -> Result<R, DeError>
        ensures value { let attrs = attrs_by O.attrs_of self.now in
            let payload = payload_of_type I.type_of I.Kind.eq I.bytes_of attr attrs in
            IfOk result (λ v. ReadsFirst (read_found payload R.read) (R.view v)) }
        ensures refused { let attrs = attrs_by O.attrs_of self.now in
            let payload = payload_of_type I.type_of I.Kind.eq I.bytes_of attr attrs in
            IfErr result (Refuses (read_found payload R.read)
            (read_found_takes_memory payload R.takes_memory)) }
    {
        match self.get_attribute(attr) {
            Some(attr) => read_first(alloc, attr.own_payload()),
            None => Err(DeError::Msg(MsgError::from_static("Failed to find specified attribute"))),
        }
    }

    /// The value that the whole payload of the first attribute of this type spells.
    ///
    /// Refused with a `DeError::Msg` if no attribute has this type; otherwise as the value's read refuses the payload.
    pub fn get_attr_payload_as_with_len<R: FromBytesWithInput>(
        &self,
        alloc: Global,
        attr: I::Kind,
    ) -> Result<R, DeError>
        ensures value { let attrs = attrs_by O.attrs_of self.now in
            let payload = payload_of_type I.type_of I.Kind.eq I.bytes_of attr attrs in
            IfOk result (λ v. read_found payload R.read ≡ Ok (R.view v)) }
        ensures refused { let attrs = attrs_by O.attrs_of self.now in
            let payload = payload_of_type I.type_of I.Kind.eq I.bytes_of attr attrs in
            IfErr result (Refuses (read_found payload R.read)
            (read_found_takes_memory payload R.takes_memory)) }
    {
        match self.get_attribute(attr) {
            Some(attr) => read_whole(alloc, attr.own_payload()),
            None => Err(DeError::Msg(MsgError::from_static("Failed to find specified attribute"))),
        }
    }

    /// The value that the whole payload of the first attribute of this type spells. It borrows the payload, so it lives
    /// as long as this borrow of the handle. It takes no memory.
    ///
    /// Refused with a `DeError::Msg` if no attribute has this type; otherwise as the value's read refuses the payload.
    pub fn get_attr_payload_as_with_len_borrowed<'b, R>(
        &'b self,
        attr: I::Kind,
    ) -> Result<R, R::Error>
    where
        R: FromBytesWithInputBorrowed<'b>,
        ensures value { let attrs = attrs_by O.attrs_of self.now in
            let payload = payload_of_type I.type_of I.Kind.eq I.bytes_of attr attrs in
            IfOk result (λ v. read_found payload R.read ≡ Ok (R.view v)) }
        ensures refused { let attrs = attrs_by O.attrs_of self.now in
            let payload = payload_of_type I.type_of I.Kind.eq I.bytes_of attr attrs in
            IfErr result (RefusesAs R.Error.from_gives (read_found payload R.read)) }
    {
        match self.get_attribute(attr) {
            Some(attr) => read_borrowed(attr.own_payload()),
            None => Err(R::Error::from(DeError::Msg(MsgError::from_static(
                "Failed to find specified attribute",
            )))),
        }
    }
}

impl<I: TypedPayload> FrameList<I> {
    ghost use Rattle.neli_list.specs.Handles.{IsLent};

    /// A handle that borrows these attributes. It takes no memory.
    pub fn get_attr_handle(&self) -> AttrHandle<'_, FrameList<I>, I>
        ensures { IsLent self.now result }
    {
        AttrHandle::new_borrowed(self.as_ref())
    }
}

impl<I> FrameList<I> {
    ghost use Rattle.neli_list.specs.Handles.{IsOwner};

    /// A handle with copies of these attributes, each type by its number's meaning.
    ///
    /// Refused only if memory runs out, and never where there are no attributes.
    pub fn get_typed_attr_handle<T>(
        &self,
        alloc: Global,
    ) -> Result<AttrHandle<'_, FrameList<I::Typed>, I::Typed>, DeError>
    where
        I: ToTyped<T>,
        I::Typed: Drop,
        ensures value { IfOk result (λ h. IsOwner (map I.typed self.now) h) }
        ensures refused { IfErr result (λ e. e ≡ Memory) }
        ensures memory { OnErr result (0 < length self.now) }
    {
        let items = self.as_ref();
        let mut attrs = Vec::with_capacity(alloc, items.len())?;
        for attr in items {
            attrs.push(attr.to_typed()?)?;
        }
        Ok(AttrHandle::new(FrameList::from_list(attrs)))
    }
}
