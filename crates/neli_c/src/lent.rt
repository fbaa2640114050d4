//! Walks over messages and attributes in the caller's bytes. They take no memory.

ghost use Rattle.std.specs.Prelude.{◌≡◌, ◌≢◌, ◌≤◌, ◌-◌, IfSome, IsNone, Some, None, length};
ghost use Rattle.neli_c_parts.specs.Codes.{item};
ghost use Rattle.neli_c_parts.specs.Walks.{GivesAttribute, GivesMessage, IsInParts, attribute_layout};
ghost use Rattle.neli_c_parts.specs.Walks.{bytes_from, bytes_left};
ghost use Rattle.neli_c_parts.specs.Walks.{message_layout, walk_code};

use neli_c_parts::code::{ITEM, OK, PLACE};
use neli_c_parts::message::{NeliAttribute, NeliMessage, NeliWalk, code_of, message_at};
use neli_lent::{LentAttr, LentMessage};
use neli_wire::{Cursor, alignto};

/// The remaining bytes of a walk, if its places are in order and within the bytes.
fn left<'b>(bytes: &'b [u8], walk: NeliWalk) -> Option<&'b [u8]>
    ensures some { IfSome result (λ rest. bytes_left bytes.now walk ≡ Some rest.now) }
    ensures places { IfSome result (λ rest. (walk.place ≤ walk.end) × (walk.end ≤ length bytes.now)
        × (rest.now ≡ bytes_from walk.place (walk.end - walk.place) bytes.now)) }
    ensures none { IsNone result → bytes_left bytes.now walk ≡ None }
{
    if walk.end < walk.place || bytes.len() < walk.end {
        return None;
    }
    Some(&bytes[walk.place..walk.end])
}

/// The fields of an attribute whose payload lies at this place.
fn attribute_at(lent: &LentAttr<'_, u16>, payload: usize) -> NeliAttribute
    ensures length { result.length ≡ lent.now.len }
    ensures field { result.field ≡ lent.now.kind }
    ensures parts { IsInParts result }
    ensures payload { result.payload ≡ payload }
    ensures payload_length { result.payload_length ≡ length lent.now.payload.now }
{
    let field = *lent.attr_type();
    NeliAttribute {
        length: *lent.attr_len(),
        field,
        number: field & 0x3fff,
        flags: field & 0xc000,
        payload,
        payload_length: lent.attr_payload().len(),
    }
}

/// Stores the next message of a walk, which moves past it and its padding.
///
/// Returns `ITEM`, or `OK` at the end; `PLACE` if the walk's places are not in order or past the bytes; `SHORT` if the
/// header or the padding is cut off, `LENGTH` if the stated length is below 16 or past the end. Without a message the
/// walk and `message` are unchanged.
#[unsafe(no_mangle)]
pub extern "C" fn neli_c_next_message(
    bytes: &[u8],
    walk: &mut NeliWalk,
    message: &mut NeliMessage,
) -> i32
    ensures code { result ≡ walk_code message_layout (bytes_left bytes.now walk.old) }
    ensures message { result ≡ item → GivesMessage bytes.now walk.old walk.new message.new }
    ensures unchanged { result ≢ item → (walk.new ≡ walk.old) × (message.new ≡ message.old) }
{
    let NeliWalk { place, end } = *walk;
    let Some(rest) = left(bytes, *walk) else {
        return PLACE;
    };
    if rest.is_empty() {
        return OK;
    }
    let mut cursor = Cursor::new(rest);
    match LentMessage::<u16>::lend(&mut cursor) {
        Ok(lent) => {
            *message = message_at(&lent, place + 16);
            *walk = NeliWalk {
                place: place + alignto(message.length as usize),
                end,
            };
            ITEM
        }
        Err(error) => code_of(&error),
    }
}

/// Stores the next attribute of a walk, which moves past it and its padding.
///
/// Returns `ITEM`, or `OK` at the end; `PLACE` if the walk's places are not in order or past the bytes; `SHORT` if the
/// header or the padding is cut off, `LENGTH` if the stated length is below 4 or past the end. Without an attribute the
/// walk and `attribute` are unchanged.
#[unsafe(no_mangle)]
pub extern "C" fn neli_c_next_attribute(
    bytes: &[u8],
    walk: &mut NeliWalk,
    attribute: &mut NeliAttribute,
) -> i32
    ensures code { result ≡ walk_code attribute_layout (bytes_left bytes.now walk.old) }
    ensures attribute { result ≡ item → GivesAttribute bytes.now walk.old walk.new attribute.new }
    ensures unchanged { result ≢ item → (walk.new ≡ walk.old) × (attribute.new ≡ attribute.old) }
{
    let NeliWalk { place, end } = *walk;
    let Some(rest) = left(bytes, *walk) else {
        return PLACE;
    };
    if rest.is_empty() {
        return OK;
    }
    let mut cursor = Cursor::new(rest);
    match LentAttr::<u16>::lend(&mut cursor) {
        Ok(lent) => {
            *attribute = attribute_at(&lent, place + 4);
            *walk = NeliWalk {
                place: place + alignto(attribute.length as usize),
                end,
            };
            ITEM
        }
        Err(error) => code_of(&error),
    }
}
