//! What the bodies with attributes have in common: fields, and then the attributes.

ghost use Rattle.std.specs.Prelude.{◌≡◌, ◌+◌, ◌<◌, IfOk, OnErr, length};
ghost use Rattle.neli_wire.specs.laws.Sizes.{unpadded-rounded};
ghost use Rattle.neli_body.specs.Attributes.{AttributesRead, attrs_of, attrs_view, attrs_size, attrs_wire};
ghost use Rattle.neli_body.specs.Bodies.{body_of, body_takes_memory, body_wire};
ghost use Rattle.neli_body.specs.laws.Attributes.{with_attributes-length, with_attributes-zeros};
ghost use Rattle.neli_body.specs.laws.Attributes.{with_attributes-no_memory, with_attributes_of-never_short};
ghost use Rattle.neli_body.specs.laws.Attributes.{with_attributes_of-no_memory};

use neli_attr::{Buffer, RtBuffer, TryClone};
use neli_body::{FixedHeader, read_body, size_of_body, write_body};
use neli_consts_attrs::RtaType;
use neli_wire::{Cursor, DeError, FromBytesWithInput, Header, NoMemory, SerError, Size, ToBytes};
use std::alloc::Global;
use std::fmt::{self, Debug, Formatter, Write};

/// The fields of a body before its attributes, as [`Body`] has them.
pub trait Fields: FixedHeader + Copy {
    /// The name of the body in `Debug`.
    fn name() -> &'static str;
}

/// Fields of type `H`, and then attributes with types of `A`: [`Rtmsg`](crate::Rtmsg) and the others are its instances,
/// and so can be a body of your own, by a type of fields that implements [`FixedHeader`] and [`Fields`].
#[derive(Drop, PartialEq, Eq)]
pub struct Body<H, A> {
    pub(crate) header: H,
    pub(crate) rtattrs: RtBuffer<A, Buffer>,
}

impl<H, A> Body<H, A> {
    /// These fields and these attributes.
    pub fn new(header: H, rtattrs: RtBuffer<A, Buffer>) -> Body<H, A>
        ensures header { result.header ≡ header }
        ensures rtattrs { result.rtattrs ≡ rtattrs }
    {
        Body { header, rtattrs }
    }

    /// The fields.
    pub fn header(&self) -> &H
        ensures { result.now ≡ self.now.header }
    {
        &self.header
    }

    /// The attributes.
    pub fn rtattrs(&self) -> &RtBuffer<A, Buffer>
        ensures { result.now ≡ self.now.rtattrs }
    {
        &self.rtattrs
    }
}

impl<H: Fields, A: RtaType> Body<H, A> {
    /// An equal body.
    ///
    /// Refused only if memory runs out, and never where it has no attributes.
    pub fn try_clone(&self) -> Result<Self, NoMemory>
        ensures value { IfOk result (λ m. m ≡ self.now) }
        ensures memory { OnErr result (0 < length self.now.rtattrs) }
    {
        Ok(Body {
            header: self.header,
            rtattrs: self.rtattrs.try_clone()?,
        })
    }
}

impl<H: Fields, A: RtaType> TryClone for Body<H, A> {
    ghost copy_takes_memory = { λ m. 0 < length m.rtattrs };

    fn try_clone(&self) -> Result<Self, NoMemory> {
        Body::try_clone(self)
    }
}

impl<H: Fields, A: RtaType> Debug for Body<H, A> {
    fn fmt<W: Write>(&self, f: &mut Formatter<W>) -> fmt::Result {
        f.debug_struct(H::name())
            .field("header", &self.header)
            .field("rtattrs", &self.rtattrs)
            .finish()
    }
}

impl<H: Fields, A> Header for Body<H, A> {
    ghost header = { H.width };

    fn header_size() -> usize {
        H::size()
    }
}

impl<H: Fields, A: RtaType> Size for Body<H, A> {
    ghost unpadded_length = { λ m. H.width + attrs_size m.rtattrs };

    ghost wire_length = { λ m. H.width + attrs_size m.rtattrs };

    ghost rounded = { unpadded-rounded (λ m. H.width + attrs_size m.rtattrs) };

    fn unpadded_size(&self) -> usize {
        size_of_body::<H, RtBuffer<A, Buffer>>(&self.rtattrs)
    }

    fn written_size(&self) -> usize {
        self.unpadded_size()
    }
}

impl<H: Fields, A: RtaType> ToBytes for Body<H, A> {
    ghost wire = { λ m. body_wire (H.bytes_of m.header) (attrs_wire A.wire_number m.rtattrs) };

    ghost length_is = { λ m. with_attributes-length H.width A.wire_number
        (H.bytes_of m.header) m.rtattrs (H.width_is m.header) };

    ghost zeros_after = { λ m. with_attributes-zeros H.width A.wire_number
        (H.bytes_of m.header) m.rtattrs (H.width_is m.header) };

    ghost no_memory = { λ m. with_attributes-no_memory H.width A.wire_number
        (H.bytes_of m.header) m.rtattrs };

    fn to_bytes(&self, buffer: &mut Vec<u8>) -> Result<(), SerError> {
        write_body(&self.header, &self.rtattrs, buffer)
    }
}

impl<H: Fields, A: RtaType> FromBytesWithInput for Body<H, A> {
    ghost Value = { H × AttributesRead A };

    ghost view = { λ m. (m.header, attrs_view m.rtattrs) };

    ghost read = { body_of H.width H.header_of (attrs_of A.wire_value) };

    ghost takes_memory = { body_takes_memory H.width (λ s. 0 < length s) };

    ghost no_memory = { with_attributes_of-no_memory H.width H.header_of A.wire_value };

    ghost never_short = { with_attributes_of-never_short H.width H.header_of A.wire_value };

    fn from_bytes_with_input(
        alloc: Global,
        cursor: &mut Cursor<'_>,
        n: usize,
    ) -> Result<Self, DeError> {
        let (header, rtattrs) = read_body(alloc, cursor, n)?;
        Ok(Body { header, rtattrs })
    }
}
