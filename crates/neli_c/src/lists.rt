//! Lists of attributes in the caller's bytes: their places, and look-up by number. They take no memory.

ghost use Rattle.std.specs.Prelude.{◌≡◌, ◌≢◌, None};
ghost use Rattle.neli_c_parts.specs.Codes.{item, ok, place};
ghost use Rattle.neli_c.specs.Lists.{FindsNone, IsFound, attributes_code, list_code, walk_after, walk_over};
ghost use Rattle.neli_c_parts.specs.Walks.{bytes_left};

use crate::lent::neli_c_next_attribute;
use neli_c_parts::code::{ITEM, OK, PLACE, SHORT};
use neli_c_parts::message::{NeliAttribute, NeliMessage, NeliWalk};
use neli_wire::alignto;
use std::cmp::min;

/// The maximum number of bytes in one piece of memory.
const MAX_SIZE: usize = isize::MAX as usize;

/// An attribute without a payload.
const NO_ATTRIBUTE: NeliAttribute = NeliAttribute {
    length: 0,
    field: 0,
    number: 0,
    flags: 0,
    payload: 0,
    payload_length: 0,
};

/// Makes a walk over the attributes of a message, after a body's header of this size in bytes, rounded up to four.
///
/// Returns `OK`; `PLACE` if the payload ends past what memory can have, `SHORT` if it is shorter than the header; then
/// `walk` is unchanged.
#[unsafe(no_mangle)]
pub extern "C" fn neli_c_attributes_of(
    message: &NeliMessage,
    header_size: usize,
    walk: &mut NeliWalk,
) -> i32
    ensures code { result ≡ attributes_code message.now header_size }
    ensures walk { result ≡ ok → walk.new ≡ walk_after message.now header_size }
    ensures unchanged { result ≢ ok → walk.new ≡ walk.old }
{
    let NeliMessage {
        payload,
        payload_length,
        ..
    } = *message;
    if MAX_SIZE < payload_length || MAX_SIZE - payload_length < payload {
        return PLACE;
    }
    if payload_length < header_size {
        return SHORT;
    }
    *walk = NeliWalk {
        place: payload + min(alignto(header_size), payload_length),
        end: payload + payload_length,
    };
    OK
}

/// Makes a walk over the attributes in an attribute's payload.
///
/// Returns `OK`; `PLACE` if the payload ends past what memory can have; then `walk` is unchanged.
#[unsafe(no_mangle)]
pub extern "C" fn neli_c_attributes_in(attribute: &NeliAttribute, walk: &mut NeliWalk) -> i32
    ensures code { result ≡ list_code attribute.now }
    ensures walk { result ≡ ok → walk.new ≡ walk_over attribute.now }
    ensures unchanged { result ≢ ok → walk.new ≡ walk.old }
{
    let NeliAttribute {
        payload,
        payload_length,
        ..
    } = *attribute;
    if MAX_SIZE < payload_length || MAX_SIZE - payload_length < payload {
        return PLACE;
    }
    *walk = NeliWalk {
        place: payload,
        end: payload + payload_length,
    };
    OK
}

/// Stores the first attribute with this number, without its flags, in the rest of a walk, which is unchanged.
///
/// Returns `ITEM`, or `OK` if there is none; if a fault comes first, the code that `neli_c_next_attribute` returns for
/// it. Without an attribute `attribute` is unchanged.
#[unsafe(no_mangle)]
pub extern "C" fn neli_c_find_attribute(
    bytes: &[u8],
    walk: &NeliWalk,
    number: u16,
    attribute: &mut NeliAttribute,
) -> i32
    ensures found { result ≡ item → IsFound bytes.now walk.now number attribute.new }
    ensures none { result ≢ item → FindsNone bytes.now walk.now number result }
    ensures unchanged { result ≢ item → attribute.new ≡ attribute.old }
    // A walk that is not within the bytes finds nothing.
    ensures place { bytes_left bytes.now walk.now ≡ None → result ≡ place }
{
    let mut ahead = *walk;
    let mut next = NO_ATTRIBUTE;
    loop {
        let code = neli_c_next_attribute(bytes, &mut ahead, &mut next);
        if code != ITEM {
            return code;
        }
        if next.number == number {
            *attribute = next;
            return ITEM;
        }
    }
}
