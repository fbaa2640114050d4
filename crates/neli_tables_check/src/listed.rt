//! A list that a parser goes through.

ghost use Rattle.std.specs.Prelude.{◌≡◌, ◌≤◌, false, drop};
ghost use Rattle.neli_tables_check.specs.Violations.{front_of, inner_of, inner_view, listed_view};
ghost use Rattle.std.specs.Option.{option_map};
ghost use Rattle.neli_wire.specs.Sizes.{align};

use crate::Validation;
use neli_consts::ATTRIBUTE_HEADER_SIZE;
use neli_tables_walk::{Nest, Shape};
use neli_wire::alignto;

/// A list of attributes or of hops.
#[derive(Clone, Copy)]
pub struct Listed<'b> {
    /// What the attributes are, or those of the hops.
    pub nest: Nest,
    /// Whether it has hops.
    pub is_hops: bool,
    /// Its bytes.
    pub bytes: &'b [u8],
}

impl Listed<'_> {
    /// How many bytes stand at the front of each entry: the header of an attribute, or the structure of a hop.
    pub fn front(&self) -> usize
        ensures front { result ≡ front_of (listed_view self.now) }
        ensures least { 4 ≤ result }
    {
        if self.is_hops && ATTRIBUTE_HEADER_SIZE < self.nest.header {
            self.nest.header
        } else {
            ATTRIBUTE_HEADER_SIZE
        }
    }
}

/// The attributes of a nest, behind its structure.
pub fn attributes_of<'b>(nest: Nest, payload: &'b [u8]) -> Listed<'b>
    ensures { listed_view result ≡ (nest, false, drop (align nest.header) payload.now) }
{
    Listed {
        nest,
        is_hops: false,
        bytes: after_structure(nest.header, payload),
    }
}

/// What follows a structure of this size, padded to four.
fn after_structure(header: usize, payload: &[u8]) -> &[u8]
    ensures { result.now ≡ drop (align header) payload.now }
{
    if payload.len() < header {
        return &[];
    }
    payload.get(alignto(header)..).unwrap_or(&[])
}

/// The list that a payload of this shape is, and the parser that goes through it.
pub fn inner_of(
    validation: Validation,
    shape: Shape,
    payload: &[u8],
) -> Option<(Validation, Listed<'_>)>
    ensures { option_map inner_view result ≡ inner_of validation shape payload.now }
{
    match shape {
        Shape::Nest(nest) => Some((validation, attributes_of(nest, payload))),
        Shape::Hops(nest) => {
            let list = Listed {
                nest,
                is_hops: true,
                bytes: payload,
            };
            Some((validation, list))
        }
        _ => None,
    }
}
