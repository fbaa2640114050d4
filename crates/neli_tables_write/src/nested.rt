//! Lists of attributes in lists, as bytes.

ghost use Rattle.std.specs.Prelude.{◌≡◌, ◌≤◌, ◌++◌, IfOk, length};
ghost use Rattle.neli_wire.specs.Writing.{zeros_for};

use crate::Why;
use crate::asked::{Asked, Part};
use crate::attributes::{MAX_PAYLOAD, append_attribute};
use neli_wire::implementing::pad_from;
use std::alloc::{AllocError, Global};

/// A structure with its padding, and the attributes after it.
pub(crate) fn headed(alloc: Global, header: &[u8], attributes: &[u8]) -> Result<Vec<u8>, AllocError>
    ensures { IfOk result (λ bytes. bytes.items
        ≡ (header.now ++ zeros_for (length header.now)) ++ attributes.now) }
{
    let mut bytes = Vec::from_slice(alloc, header)?;
    pad_from(&mut bytes, 0)?;
    bytes.extend_from_slice(attributes)?;
    Ok(bytes)
}

/// Appends an attribute, where its length can be stated.
fn push_attribute(bytes: &mut Vec<u8>, field: u16, payload: &[u8]) -> Result<(), Why> {
    if payload.len() > MAX_PAYLOAD {
        return Err(Why::TooLong);
    }
    Ok(append_attribute(bytes, field, payload)?)
}

/// Appends a hop, which states its length in its first two bytes, and its padding.
fn push_hop(
    alloc: Global,
    bytes: &mut Vec<u8>,
    header: &[u8],
    attributes: &[u8],
) -> Result<(), Why> {
    let mut hop = headed(alloc, header, attributes)?;
    if hop.len() < 2 || hop.len() > MAX_PAYLOAD {
        return Err(Why::TooLong);
    }
    let length = (hop.len() as u16).to_le_bytes();
    hop[0] = length[0];
    hop[1] = length[1];
    pad_from(&mut hop, 0)?;
    Ok(bytes.extend_from_slice(&hop)?)
}

/// What is asked for from an index on in so many lists, and in those in them, as bytes; and the index of what follows.
pub(crate) fn list_of(
    alloc: Global,
    asked: &[Asked],
    start: usize,
    lists: usize,
) -> Result<(Vec<u8>, usize), Why>
    requires { start ≤ length asked.now }
    ensures { IfOk result (λ r. (start ≤ r.1) × (r.1 ≤ length asked.now)) }
{
    let mut bytes = Vec::new(alloc);
    let mut index = start;
    while index < asked.len() && asked[index].lists == lists {
        let one = &asked[index];
        let (inner, next) = list_of(alloc, asked, index + 1, lists.saturating_add(1))?;
        match one.part {
            Part::Attribute(field) => push_attribute(&mut bytes, field, &one.bytes)?,
            Part::Nest(field) => {
                let payload = headed(alloc, &one.bytes, &inner)?;
                push_attribute(&mut bytes, field, &payload)?;
            }
            Part::Hops(field) => push_attribute(&mut bytes, field, &inner)?,
            Part::Hop => push_hop(alloc, &mut bytes, &one.bytes, &inner)?,
            Part::Rest => bytes.extend_from_slice(&one.bytes)?,
        }
        index = next;
    }
    Ok((bytes, index))
}
