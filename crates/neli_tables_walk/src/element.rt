//! Attributes and hops, as the frames that lists are made of.

ghost use Rattle.std.specs.Prelude.{◌≡◌, Ok, Err, IfErr, IfOk};
ghost use Rattle.neli_wire.specs.Frames.{frame_at};
ghost use Rattle.neli_tables_walk.specs.Elements.{attribute_layout, attribute_read, element_at};
ghost use Rattle.neli_tables_walk.specs.Elements.{element_view};
ghost use Rattle.neli_tables_walk.specs.Elements.{hop_layout, hop_read, hop_size};

use crate::level::Sort;
use byteorder::{ByteOrder, LittleEndian};
use neli_attr::AttrType;
use neli_lent::{LentNlattr, lend_payload};
use neli_wire::{Cursor, DeError};
use std::io::ErrorKind;

/// The least size in bytes of a hop: it states its length in two bytes, and is padded to four.
const HOP: usize = 4;

/// An attribute or a hop.
#[derive(Clone, Copy, Debug)]
pub struct Element<'b> {
    /// The type field of an attribute; `None` of a hop.
    pub kind: Option<AttrType<u16>>,
    /// Its payload: of a hop the whole.
    pub payload: &'b [u8],
}

/// The element that these bytes begin with, and what follows it and its padding.
#[inline(always)]
pub fn take_element<'b>(sort: &Sort, bytes: &'b [u8]) -> Result<(Element<'b>, &'b [u8]), DeError>
    ensures value { IfOk result (λ r. element_at sort.now bytes.now
        ≡ Ok (element_view r.0, r.1.now)) }
    ensures refused { IfErr result (λ e. element_at sort.now bytes.now ≡ Err e) }
{
    if sort.is_hops {
        take_hop(sort.nest.header, bytes)
    } else {
        take_attribute(bytes)
    }
}

/// The attribute that these bytes begin with, and what follows it.
#[inline(always)]
fn take_attribute(bytes: &[u8]) -> Result<(Element<'_>, &[u8]), DeError>
    ensures value { IfOk result (λ r. attribute_read (frame_at attribute_layout bytes.now)
        ≡ Ok (element_view r.0, r.1.now)) }
    ensures refused { IfErr result (λ e. attribute_read (frame_at attribute_layout bytes.now)
        ≡ Err e) }
{
    let mut cursor = Cursor::new(bytes);
    match LentNlattr::<u16>::lend(&mut cursor) {
        Ok(attr) => {
            let element = Element {
                kind: Some(*attr.attr_type()),
                payload: attr.attr_payload(),
            };
            Ok((element, cursor.rest()))
        }
        Err(error) => Err(error),
    }
}

/// The least size in bytes of a hop with a structure of this size.
fn hop_size(header: usize) -> usize
    ensures { result ≡ hop_size header }
{
    if header < HOP { HOP } else { header }
}

/// The hop that these bytes begin with, and what follows it.
#[tactic(auto, unfolding(neli_wire::specs::Frames::frame_at))]
fn take_hop(header: usize, bytes: &[u8]) -> Result<(Element<'_>, &[u8]), DeError>
    ensures value { IfOk result (λ r. hop_read bytes.now (frame_at (hop_layout header) bytes.now)
        ≡ Ok (element_view r.0, r.1.now)) }
    ensures refused { IfErr result (λ e. hop_read bytes.now (frame_at (hop_layout header) bytes.now)
        ≡ Err e) }
{
    let least = hop_size(header);
    if bytes.len() < least {
        return Err(DeError::Io(ErrorKind::UnexpectedEof));
    }
    let size = LittleEndian::read_u16(bytes) as usize;
    let mut cursor = Cursor::new(bytes);
    lend_payload(&mut cursor, least, size)?;
    let element = Element {
        kind: None,
        payload: &bytes[..size],
    };
    Ok((element, cursor.rest()))
}
