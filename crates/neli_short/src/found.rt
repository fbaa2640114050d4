//! What is read of a payload that was looked up, and what lies at the end of a path.

ghost use Rattle.std.specs.Prelude.{◌≡◌, Ok, Err, IfOk, IfErr};
ghost use Rattle.std.specs.Option.{option_copied, option_map};
ghost use Rattle.neli_wire.specs.Strings.{owned_text};
ghost use Rattle.neli_attr.specs.Lookup.{is_masked};
ghost use Rattle.neli_lent.specs.Attributes.{attribute_view};
ghost use Rattle.neli_lent.specs.Walks.{map_found};
ghost use Rattle.neli_short.specs.Errors.{RefusesRead};
ghost use Rattle.neli_short.specs.Look.{read_takes_memory};
ghost use Rattle.neli_short.specs.Look.{below, constant_front, front, in_found, last_number, map_there, nested};
ghost use Rattle.neli_short.specs.Look.{read_as, read_found};

use crate::AttrError;
use neli_attr::AttrType;
use neli_lent::{LentAttr, LentAttrs};
use neli_list::{read_first, read_whole};
use neli_wire::{Constant, DeError, FromBytes, FromBytesWithInput, Utf8, WireNumber};
use std::alloc::Global;
use std::io::ErrorKind;
use std::str;

/// A reading of the attribute of this number.
fn read_as<R>(number: u16, reading: Result<R, DeError>) -> Result<Option<R>, AttrError>
    ensures { result ≡ read_as number reading }
{
    match reading {
        Ok(value) => Ok(Some(value)),
        Err(cause) => Err(AttrError::new(number, cause)),
    }
}

/// The value that the payload begins with.
pub(crate) fn read_front<R: FromBytes>(
    alloc: Global,
    number: u16,
    payload: Option<&[u8]>,
) -> Result<Option<R>, AttrError>
    ensures value { IfOk result (λ value.
        read_found number (front R.read) (Ok (option_copied payload.entry))
        ≡ Ok (option_map R.view value)) }
    ensures refused { IfErr result
        (RefusesRead number (read_found number (front R.read) (Ok (option_copied payload.entry)))
        (read_takes_memory R.takes_memory (Ok (option_copied payload.entry)))) }
{
    let Some(bytes) = payload else {
        return Ok(None);
    };
    read_as(number, read_first(alloc, bytes))
}

/// The value that the whole payload spells.
pub(crate) fn read_all<R: FromBytesWithInput>(
    alloc: Global,
    number: u16,
    payload: Option<&[u8]>,
) -> Result<Option<R>, AttrError>
    ensures value { IfOk result (λ value.
        read_found number R.read (Ok (option_copied payload.entry))
        ≡ Ok (option_map R.view value)) }
    ensures refused { IfErr result
        (RefusesRead number (read_found number R.read (Ok (option_copied payload.entry)))
        (read_takes_memory R.takes_memory (Ok (option_copied payload.entry)))) }
{
    let Some(bytes) = payload else {
        return Ok(None);
    };
    read_as(number, read_whole(alloc, bytes))
}

/// The text of a payload: all of its bytes but the last, which have to be UTF-8.
pub(crate) fn text_of(payload: &[u8]) -> Result<&str, DeError>
    ensures value { IfOk result (λ t. owned_text payload.now ≡ Ok t.now) }
    ensures refused { IfErr result (λ e. owned_text payload.now ≡ Err e) }
{
    let count = payload.len();
    if count < 1 {
        return Err(DeError::InvalidInput(count));
    }
    match str::from_utf8(&payload[..count - 1]) {
        Ok(text) => Ok(text),
        Err(error) => Err(DeError::Utf8(Utf8::String(error))),
    }
}

/// The text that the whole payload is, without the zero at its end.
pub(crate) fn read_text(number: u16, payload: Option<&[u8]>) -> Result<Option<&str>, AttrError>
    ensures { map_there (λ text. text.now) result
        ≡ read_found number owned_text (Ok (option_copied payload.entry)) }
{
    let Some(bytes) = payload else {
        return Ok(None);
    };
    read_as(number, text_of(bytes))
}

/// Whether the number of a type field is this one, whatever the two flags above it are.
pub(crate) fn is_masked(number: u16, field: u16) -> bool
    ensures { result ≡ is_masked (λ n. n) number field }
{
    *AttrType::<u16>::from(field).nla_type() == number
}

/// The number with which a path ends.
pub(crate) fn last_number(path: &[u16]) -> u16
    ensures { result ≡ last_number path.now }
{
    match path.last() {
        Some(number) => *number,
        None => 0,
    }
}

/// The payload of what a look-up of the attribute of this number finds.
pub(crate) fn payload_in<'b, K: Copy>(
    number: u16,
    found: Result<Option<LentAttr<'b, K>>, DeError>,
) -> Result<Option<&'b [u8]>, AttrError>
    ensures { map_there (λ payload. payload.now) result
        ≡ in_found number (λ a. Ok (Some a.1)) (map_found attribute_view found.entry) }
{
    match found {
        Ok(Some(attr)) => Ok(Some(attr.attr_payload())),
        Ok(None) => Ok(None),
        Err(fault) => Err(AttrError::new(number, fault)),
    }
}

/// The payload of the first attribute with this number in the list that a payload is.
fn nested<'b>(number: u16, payload: &'b [u8]) -> Result<Option<&'b [u8]>, AttrError>
    ensures { map_there (λ bytes. bytes.now) result ≡ nested number payload.now }
{
    let attrs: LentAttrs<'b, u16> = LentAttrs::new(payload);
    payload_in(number, attrs.get_attribute_masked(number))
}

/// The payload at the end of the path from a payload.
pub(crate) fn below<'b>(path: &[u16], payload: &'b [u8]) -> Result<Option<&'b [u8]>, AttrError>
    ensures { map_there (λ bytes. bytes.now) result ≡ below path.now payload.now }
{
    let mut rest = path;
    let mut place = payload;
    while let Some((number, tail)) = rest.split_first() {
        match nested(*number, place)? {
            Some(bytes) => place = bytes,
            None => return Ok(None),
        }
        rest = tail;
    }
    Ok(Some(place))
}

/// The number that the payload begins with, or what that number means.
pub(crate) fn read_number<C: Constant>(
    number: u16,
    payload: Option<&[u8]>,
) -> Result<Option<C>, AttrError>
    ensures { let read = constant_front C.Number.byte_count C.Number.number_of C.wire_value in
        result ≡ read_found number read (Ok (option_copied payload.entry)) }
{
    let Some(bytes) = payload else {
        return Ok(None);
    };
    let count = C::Number::count();
    if bytes.len() < count {
        return read_as(number, Err(DeError::Io(ErrorKind::UnexpectedEof)));
    }
    Ok(Some(C::from_wire(C::Number::number(&bytes[..count]))))
}
