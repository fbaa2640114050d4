//! Attributes that are looked up and read in one call, owned ones.

ghost use Rattle.std.specs.Prelude.{◌≡◌, List, Ok, IfOk, IfErr};
ghost use Rattle.std.specs.Option.{option_copied, option_map};
ghost use Rattle.neli_wire.specs.Strings.{owned_text};
ghost use Rattle.neli_list.specs.Handles.{attrs_by};
ghost use Rattle.neli_list.specs.Lookup.{payload_of_type};
ghost use Rattle.neli_short.specs.Errors.{RefusesRead};
ghost use Rattle.neli_short.specs.Look.{payload_numbered};
ghost use Rattle.neli_short.specs.Look.{at_path, front, last_number, map_there, read_found, read_takes_memory};

use crate::AttrError;
use crate::found::{below, is_masked, last_number, read_all, read_front, read_text};
use neli_list::{AttrHandle, AttrSlice, FrameList, TypedPayload};
use neli_wire::{Constant, FromBytes, FromBytesWithInput};
use std::alloc::Global;

/// Attributes of which one is looked up and read: a list, or a handle.
///
/// A missing attribute is `None`; one that is there and can't be read is an [`AttrError`], which names it. A type is
/// looked up as `get_attribute` does. A path is of numbers, the outermost first: each is looked up as
/// `get_attribute_masked` does, in what the payload before lists, so it leads through nests that a kernel marks and
/// through those that it does not. No path leads nowhere.
pub trait Lookup<I: TypedPayload> {
    // The attributes.
    ghost attrs: { Self → List I };

    /// The payload of the first attribute of this type. It takes no memory.
    fn payload_of(&self, kind: I::Kind) -> Option<&[u8]>
        ensures { option_copied result
            ≡ payload_of_type I.type_of I.Kind.eq I.bytes_of kind (attrs self.now) };

    /// The value that the payload of the first attribute of this type begins with, as a number.
    ///
    /// Refused as the type's own read refuses the payload.
    fn get<R: FromBytes>(&self, alloc: Global, kind: I::Kind) -> Result<Option<R>, AttrError>
    where
        I::Kind: Constant<Number = u16>,
        ensures value { let all = attrs self.now in
            let found = Ok (payload_of_type I.type_of I.Kind.eq I.bytes_of kind all) in
            let read = read_found (I.Kind.wire_number kind) (front R.read) found in
            IfOk result (λ value. read ≡ Ok (option_map R.view value)) }
        ensures refused { let all = attrs self.now in
            let found = Ok (payload_of_type I.type_of I.Kind.eq I.bytes_of kind all) in
            let read = read_found (I.Kind.wire_number kind) (front R.read) found in
            IfErr result (RefusesRead (I.Kind.wire_number kind) read
            (read_takes_memory R.takes_memory found)) };

    /// The value that the whole payload of the first attribute of this type spells, as a text, a list or a body.
    ///
    /// Refused as the type's own read refuses the payload.
    fn get_with_len<R: FromBytesWithInput>(
        &self,
        alloc: Global,
        kind: I::Kind,
    ) -> Result<Option<R>, AttrError>
    where
        I::Kind: Constant<Number = u16>,
        ensures value { let all = attrs self.now in
            let found = Ok (payload_of_type I.type_of I.Kind.eq I.bytes_of kind all) in
            let read = read_found (I.Kind.wire_number kind) R.read found in
            IfOk result (λ value. read ≡ Ok (option_map R.view value)) }
        ensures refused { let all = attrs self.now in
            let found = Ok (payload_of_type I.type_of I.Kind.eq I.bytes_of kind all) in
            let read = read_found (I.Kind.wire_number kind) R.read found in
            IfErr result (RefusesRead (I.Kind.wire_number kind) read
            (read_takes_memory R.takes_memory found)) };

    /// The text that the payload of the first attribute of this type is, without the zero at its end: the payload's own
    /// bytes, as [`String`] reads them. It takes no memory.
    ///
    /// Refused with `InvalidInput(0)` where the payload has no byte, and with `Utf8` where these are not UTF-8.
    fn get_str(&self, kind: I::Kind) -> Result<Option<&str>, AttrError>
    where
        I::Kind: Constant<Number = u16>,
        ensures { let all = attrs self.now in
            let found = Ok (payload_of_type I.type_of I.Kind.eq I.bytes_of kind all) in
            map_there (λ text. text.now) result
            ≡ read_found (I.Kind.wire_number kind) owned_text found };

    /// The payload at the end of a path. It takes no memory.
    ///
    /// Refused with the fault of a payload that is no list, where the next attribute of the path does not stand before
    /// it; that attribute is named.
    fn payload_at(&self, path: &[u16]) -> Result<Option<&[u8]>, AttrError>
    where
        I::Kind: Constant<Number = u16>,
        ensures { map_there (λ payload. payload.now) result
            ≡ at_path I.type_of I.Kind.wire_number I.bytes_of path.now (attrs self.now) };

    /// The value that the payload at the end of a path begins with.
    ///
    /// Refused as [`payload_at`](Lookup::payload_at) is, or as the type's own read refuses the payload.
    fn get_path<R: FromBytes>(&self, alloc: Global, path: &[u16]) -> Result<Option<R>, AttrError>
    where
        I::Kind: Constant<Number = u16>,
        ensures value { let all = attrs self.now in
            let found = at_path I.type_of I.Kind.wire_number I.bytes_of path.now all in
            let read = read_found (last_number path.now) (front R.read) found in
            IfOk result (λ value. read ≡ Ok (option_map R.view value)) }
        ensures refused { let all = attrs self.now in
            let found = at_path I.type_of I.Kind.wire_number I.bytes_of path.now all in
            let read = read_found (last_number path.now) (front R.read) found in
            IfErr result (RefusesRead (last_number path.now) read
            (read_takes_memory R.takes_memory found)) };

    /// The value that the whole payload at the end of a path spells.
    ///
    /// Refused as [`payload_at`](Lookup::payload_at) is, or as the type's own read refuses the payload.
    fn get_path_with_len<R: FromBytesWithInput>(
        &self,
        alloc: Global,
        path: &[u16],
    ) -> Result<Option<R>, AttrError>
    where
        I::Kind: Constant<Number = u16>,
        ensures value { let all = attrs self.now in
            let found = at_path I.type_of I.Kind.wire_number I.bytes_of path.now all in
            let read = read_found (last_number path.now) R.read found in
            IfOk result (λ value. read ≡ Ok (option_map R.view value)) }
        ensures refused { let all = attrs self.now in
            let found = at_path I.type_of I.Kind.wire_number I.bytes_of path.now all in
            let read = read_found (last_number path.now) R.read found in
            IfErr result (RefusesRead (last_number path.now) read
            (read_takes_memory R.takes_memory found)) };
}

/// The payload of the first of these attributes with this type.
fn payload_of<'b, I: TypedPayload>(attrs: &'b [I], kind: I::Kind) -> Option<&'b [u8]>
    ensures { option_copied result
        ≡ payload_of_type I.type_of I.Kind.eq I.bytes_of kind attrs.now }
{
    let attr = attrs.iter().find(|attr| *attr.own_type() == kind)?;
    Some(attr.own_payload())
}

/// The payload of the first of these attributes with this number, whatever the two flags are.
fn payload_numbered<'b, I: TypedPayload>(attrs: &'b [I], number: u16) -> Option<&'b [u8]>
where
    I::Kind: Constant<Number = u16>,
    ensures { option_copied result
        ≡ payload_numbered I.type_of I.Kind.wire_number I.bytes_of number attrs.now }
{
    let attr = attrs
        .iter()
        .find(|attr| is_masked(number, attr.own_type().to_wire()))?;
    Some(attr.own_payload())
}

/// The payload at the end of a path from these attributes.
fn payload_at<'b, I: TypedPayload>(
    attrs: &'b [I],
    path: &[u16],
) -> Result<Option<&'b [u8]>, AttrError>
where
    I::Kind: Constant<Number = u16>,
    ensures { map_there (λ payload. payload.now) result
        ≡ at_path I.type_of I.Kind.wire_number I.bytes_of path.now attrs.now }
{
    let Some((number, rest)) = path.split_first() else {
        return Ok(None);
    };
    match payload_numbered(attrs, *number) {
        Some(payload) => below(rest, payload),
        None => Ok(None),
    }
}

impl<I: TypedPayload> Lookup<I> for FrameList<I> {
    ghost attrs = { λ list. list };

    fn payload_of(&self, kind: I::Kind) -> Option<&[u8]> {
        payload_of(self.as_ref(), kind)
    }

    fn get<R: FromBytes>(&self, alloc: Global, kind: I::Kind) -> Result<Option<R>, AttrError>
    where
        I::Kind: Constant<Number = u16>,
    {
        read_front(alloc, kind.to_wire(), payload_of(self.as_ref(), kind))
    }

    fn get_with_len<R: FromBytesWithInput>(
        &self,
        alloc: Global,
        kind: I::Kind,
    ) -> Result<Option<R>, AttrError>
    where
        I::Kind: Constant<Number = u16>,
    {
        read_all(alloc, kind.to_wire(), payload_of(self.as_ref(), kind))
    }

    fn get_str(&self, kind: I::Kind) -> Result<Option<&str>, AttrError>
    where
        I::Kind: Constant<Number = u16>,
    {
        read_text(kind.to_wire(), payload_of(self.as_ref(), kind))
    }

    fn payload_at(&self, path: &[u16]) -> Result<Option<&[u8]>, AttrError>
    where
        I::Kind: Constant<Number = u16>,
    {
        payload_at(self.as_ref(), path)
    }

    fn get_path<R: FromBytes>(&self, alloc: Global, path: &[u16]) -> Result<Option<R>, AttrError>
    where
        I::Kind: Constant<Number = u16>,
    {
        read_front(alloc, last_number(path), payload_at(self.as_ref(), path)?)
    }

    fn get_path_with_len<R: FromBytesWithInput>(
        &self,
        alloc: Global,
        path: &[u16],
    ) -> Result<Option<R>, AttrError>
    where
        I::Kind: Constant<Number = u16>,
    {
        read_all(alloc, last_number(path), payload_at(self.as_ref(), path)?)
    }
}

impl<'a, O: AttrSlice<I>, I: TypedPayload> Lookup<I> for AttrHandle<'a, O, I> {
    ghost attrs = { attrs_by O.attrs_of };

    fn payload_of(&self, kind: I::Kind) -> Option<&[u8]> {
        payload_of(self.get_attrs(), kind)
    }

    fn get<R: FromBytes>(&self, alloc: Global, kind: I::Kind) -> Result<Option<R>, AttrError>
    where
        I::Kind: Constant<Number = u16>,
    {
        read_front(alloc, kind.to_wire(), payload_of(self.get_attrs(), kind))
    }

    fn get_with_len<R: FromBytesWithInput>(
        &self,
        alloc: Global,
        kind: I::Kind,
    ) -> Result<Option<R>, AttrError>
    where
        I::Kind: Constant<Number = u16>,
    {
        read_all(alloc, kind.to_wire(), payload_of(self.get_attrs(), kind))
    }

    fn get_str(&self, kind: I::Kind) -> Result<Option<&str>, AttrError>
    where
        I::Kind: Constant<Number = u16>,
    {
        read_text(kind.to_wire(), payload_of(self.get_attrs(), kind))
    }

    fn payload_at(&self, path: &[u16]) -> Result<Option<&[u8]>, AttrError>
    where
        I::Kind: Constant<Number = u16>,
    {
        payload_at(self.get_attrs(), path)
    }

    fn get_path<R: FromBytes>(&self, alloc: Global, path: &[u16]) -> Result<Option<R>, AttrError>
    where
        I::Kind: Constant<Number = u16>,
    {
        let found = payload_at(self.get_attrs(), path)?;
        read_front(alloc, last_number(path), found)
    }

    fn get_path_with_len<R: FromBytesWithInput>(
        &self,
        alloc: Global,
        path: &[u16],
    ) -> Result<Option<R>, AttrError>
    where
        I::Kind: Constant<Number = u16>,
    {
        let found = payload_at(self.get_attrs(), path)?;
        read_all(alloc, last_number(path), found)
    }
}
