//! Attributes, as they are appended to a list.

ghost use Rattle.std.specs.Prelude.{◌≡◌, ◌≤◌, [], ◌∷◌, ◌++◌, None, OnErr, OnOk, length};
ghost use Rattle.neli_tables_walk.specs.Elements.{elements_of};
ghost use Rattle.neli_tables_write.specs.Lists.{any_sort, attribute_bytes, attribute_element, read_of};

use neli_attr_parts::frame::write_attribute;
use std::alloc::AllocError;

/// The most bytes that the payload of an attribute has: its length, of 16 bits, counts a header of four.
pub const MAX_PAYLOAD: usize = 65531;

/// The flag of a type that says that attributes stand in the payload (`NLA_F_NESTED` of `linux/netlink.h`).
pub(crate) const NESTED: u16 = 0x8000;

/// The flag of a type that says that the payload has the highest byte first (`NLA_F_NET_BYTEORDER`).
pub(crate) const NET_BYTEORDER: u16 = 0x4000;

/// The bits of a type that are its number (`NLA_TYPE_MASK`).
pub(crate) const NUMBER: u16 = 0x3fff;

/// Appends an attribute with its padding. Refused where memory runs out; then nothing is appended.
#[tactic(auto, using(crate::specs::laws::Lists::wire_is))]
fn append_bytes(bytes: &mut Vec<u8>, field: u16, payload: &[u8]) -> Result<(), AllocError>
    requires { length payload.now ≤ 65531 }
    ensures ok { OnOk result (bytes.new.items ≡ bytes.old.items ++ attribute_bytes field payload.now) }
    ensures unchanged { OnErr result (bytes.new.items ≡ bytes.old.items) }
{
    let len = (payload.len() + 4) as u16;
    match write_attribute(len, &field, &payload, bytes) {
        Ok(()) => Ok(()),
        Err(_) => Err(AllocError),
    }
}

/// Appends an attribute to a list: its type field, which is a number of 14 bits below two flags, its payload, and
/// zeros up to a multiple of four. Where the walk reads bytes without a rest, it reads this attribute after theirs.
///
/// Refused where memory runs out; then nothing is appended.
#[tactic(auto, using(crate::specs::laws::Lists::read_more))]
pub fn append_attribute(bytes: &mut Vec<u8>, field: u16, payload: &[u8]) -> Result<(), AllocError>
    requires { length payload.now ≤ 65531 }
    ensures ok { OnOk result (bytes.new.items ≡ bytes.old.items ++ attribute_bytes field payload.now) }
    ensures read { OnOk result ((elements_of any_sort bytes.old.items).1 ≡ None
        → elements_of any_sort bytes.new.items
        ≡ (read_of bytes.old.items ++ attribute_element field payload.now ∷ [], None)) }
    ensures unchanged { OnErr result (bytes.new.items ≡ bytes.old.items) }
{
    append_bytes(bytes, field, payload)
}
