//! Neighbours of links.

ghost use Rattle.std.specs.Prelude.{◌≡◌, Some, None, Ok, IfOk, IfErr};
ghost use Rattle.neli_attr.specs.Builders.{IsWhyNot};
ghost use Rattle.neli_rtnl.specs.Ndmsg.{IsPlainNdmsg, ndmsg_built, ndmsg_bytes, ndmsg_header};
ghost use Rattle.neli_rtnl.specs.laws.Ndmsg.{ndmsg-reads_back, ndmsg-width, ndmsg-writes_back};

use crate::body::{Body, Fields};
use neli_attr::{Buffer, BuildError, RtBuffer, of};
use neli_body::numbers::{i32_in, u8_in, u16_in};
use neli_body::{FixedHeader, HeaderBytes};
use neli_consts_attrs::Nda;
use neli_consts_flags::{Ntf, Nud};
use neli_consts_routing::{RtAddrFamily, Rtn};
use neli_wire::{Constant, UninitializedFieldError};
use std::alloc::Global;

/// The fields of a neighbour before its attributes.
#[derive(Clone, Copy, Debug, PartialEq, Eq)]
pub struct NdmsgHeader {
    ndm_family: RtAddrFamily,
    pad1: u8,
    pad2: u16,
    ndm_index: i32,
    ndm_state: Nud,
    ndm_flags: Ntf,
    ndm_type: Rtn,
}

/// A neighbour of a link: `struct ndmsg` of `linux/neighbour.h`, 12 bytes, and the neighbour's attributes.
pub type Ndmsg = Body<NdmsgHeader, Nda>;

impl Ndmsg {
    /// The family of the neighbour's address.
    pub fn ndm_family(&self) -> &RtAddrFamily
        ensures { result.now ≡ self.now.header.ndm_family }
    {
        &self.header.ndm_family
    }

    /// The index of the link.
    pub fn ndm_index(&self) -> &i32
        ensures { result.now ≡ self.now.header.ndm_index }
    {
        &self.header.ndm_index
    }

    /// The state of the neighbour, with all the bits that were read.
    pub fn ndm_state(&self) -> &Nud
        ensures { result.now ≡ self.now.header.ndm_state }
    {
        &self.header.ndm_state
    }

    /// The flags, with all the bits that were read.
    pub fn ndm_flags(&self) -> &Ntf
        ensures { result.now ≡ self.now.header.ndm_flags }
    {
        &self.header.ndm_flags
    }

    /// The type of the address, as that of a route.
    pub fn ndm_type(&self) -> &Rtn
        ensures { result.now ≡ self.now.header.ndm_type }
    {
        &self.header.ndm_type
    }
}

impl FixedHeader for NdmsgHeader {
    ghost width = { 12 };

    ghost bytes_of = { ndmsg_bytes };

    ghost header_of = { ndmsg_header };

    ghost IsPlain = { IsPlainNdmsg };

    ghost width_is = { ndmsg-width };

    ghost reads_back = { ndmsg-reads_back };

    ghost writes_back = { ndmsg-writes_back };

    fn size() -> usize {
        12
    }

    fn spell(&self) -> HeaderBytes {
        HeaderBytes::new()
            .u8(self.ndm_family.to_wire())
            .u8(self.pad1)
            .u16(self.pad2)
            .i32(self.ndm_index)
            .u16(self.ndm_state.to_wire())
            .u8(self.ndm_flags.to_wire())
            .u8(self.ndm_type.to_wire())
    }

    fn from_spelling(bytes: &[u8]) -> NdmsgHeader {
        NdmsgHeader {
            ndm_family: RtAddrFamily::from_wire(u8_in(bytes, 0)),
            pad1: u8_in(bytes, 1),
            pad2: u16_in(bytes, 2),
            ndm_index: i32_in(bytes, 4),
            ndm_state: Nud::from_wire(u16_in(bytes, 8)),
            ndm_flags: Ntf::from_wire(u8_in(bytes, 10)),
            ndm_type: Rtn::from_wire(u8_in(bytes, 11)),
        }
    }
}

impl Fields for NdmsgHeader {
    fn name() -> &'static str {
        "Ndmsg"
    }
}

/// Why no neighbour was built.
pub type NdmsgBuilderError = BuildError<{ of::NDMSG }>;

/// A builder of neighbours.
#[derive(Debug, Drop)]
pub struct NdmsgBuilder {
    ndm_family: Option<RtAddrFamily>,
    ndm_index: Option<i32>,
    ndm_state: Option<Nud>,
    ndm_flags: Option<Ntf>,
    ndm_type: Option<Rtn>,
    rtattrs: Option<RtBuffer<Nda, Buffer>>,
}

impl Default for NdmsgBuilder {
    ghost is_default = { λ b.
        b ≡ record {
          ndm_family = None;
          ndm_index = None;
          ndm_state = None;
          ndm_flags = None;
          ndm_type = None;
          rtattrs = None;
        } };

    fn default() -> Self {
        NdmsgBuilder {
            ndm_family: None,
            ndm_index: None,
            ndm_state: None,
            ndm_flags: None,
            ndm_type: None,
            rtattrs: None,
        }
    }
}

impl NdmsgBuilder {
    /// The family of the neighbour's address.
    pub fn ndm_family(mut self, value: RtAddrFamily) -> Self
        ensures { result ≡ record self { ndm_family = Some value } }
    {
        self.ndm_family = Some(value);
        self
    }

    /// The index of the link.
    pub fn ndm_index(mut self, value: i32) -> Self
        ensures { result ≡ record self { ndm_index = Some value } }
    {
        self.ndm_index = Some(value);
        self
    }

    /// The state of the neighbour.
    pub fn ndm_state(mut self, value: Nud) -> Self
        ensures { result ≡ record self { ndm_state = Some value } }
    {
        self.ndm_state = Some(value);
        self
    }

    /// The flags. None of them by default.
    pub fn ndm_flags(mut self, value: Ntf) -> Self
        ensures { result ≡ record self { ndm_flags = Some value } }
    {
        self.ndm_flags = Some(value);
        self
    }

    /// The type of the address, as that of a route.
    pub fn ndm_type(mut self, value: Rtn) -> Self
        ensures { result ≡ record self { ndm_type = Some value } }
    {
        self.ndm_type = Some(value);
        self
    }

    /// The attributes. None by default.
    pub fn rtattrs(mut self, value: RtBuffer<Nda, Buffer>) -> Self
        ensures { result ≡ record self { rtattrs = Some value } }
    {
        self.rtattrs = Some(value);
        self
    }

    /// Builds the neighbour. It takes no memory.
    ///
    /// Refused if a field without a default is missing; the error names the first such field.
    pub fn build(self, alloc: Global) -> Result<Ndmsg, NdmsgBuilderError>
        ensures built { IfOk result (λ m. ndmsg_built self ≡ Ok m) }
        ensures refused { IfErr result (λ e. (e ≡ BuildError.Memory → ⊥)
            × IsWhyNot (ndmsg_built self) e) }
    {
        let ndm_family = self
            .ndm_family
            .ok_or(UninitializedFieldError::new("ndm_family"))?;
        let ndm_index = self
            .ndm_index
            .ok_or(UninitializedFieldError::new("ndm_index"))?;
        let ndm_state = self
            .ndm_state
            .ok_or(UninitializedFieldError::new("ndm_state"))?;
        let ndm_type = self
            .ndm_type
            .ok_or(UninitializedFieldError::new("ndm_type"))?;
        let header = NdmsgHeader {
            ndm_family,
            pad1: 0,
            pad2: 0,
            ndm_index,
            ndm_state,
            ndm_flags: self.ndm_flags.unwrap_or(Ntf::empty()),
            ndm_type,
        };
        let rtattrs = self.rtattrs.unwrap_or(RtBuffer::new(alloc));
        Ok(Body { header, rtattrs })
    }
}
