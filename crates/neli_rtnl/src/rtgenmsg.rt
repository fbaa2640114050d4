//! Requests by family only.

ghost use Rattle.std.specs.Prelude.{◌≡◌, Some, None, Ok, IfOk, IfErr};
ghost use Rattle.neli_attr.specs.Builders.{IsWhyNot};
ghost use Rattle.neli_rtnl.specs.Rtgenmsg.{IsPlainRtgenmsg, rtgenmsg_built, rtgenmsg_bytes, rtgenmsg_header};
ghost use Rattle.neli_rtnl.specs.laws.Rtgenmsg.{rtgenmsg-reads_back, rtgenmsg-width, rtgenmsg-writes_back};

use crate::body::{Body, Fields};
use neli_attr::{Buffer, BuildError, RtBuffer, of};
use neli_body::numbers::{u8_in, u16_in};
use neli_body::{FixedHeader, HeaderBytes};
use neli_consts_attrs::Ifa;
use neli_consts_routing::RtAddrFamily;
use neli_wire::{Constant, UninitializedFieldError};
use std::alloc::Global;

/// The fields of a request by family before its attributes.
#[derive(Clone, Copy, Debug, PartialEq, Eq)]
pub struct RtgenmsgHeader {
    rtgen_family: RtAddrFamily,
    pad1: u8,
    pad2: u16,
}

/// A request by family only: `struct rtgenmsg` of `linux/rtnetlink.h` and three bytes of padding, 4 bytes, and
/// attributes.
pub type Rtgenmsg = Body<RtgenmsgHeader, Ifa>;

impl Rtgenmsg {
    /// The requested family.
    pub fn rtgen_family(&self) -> &RtAddrFamily
        ensures { result.now ≡ self.now.header.rtgen_family }
    {
        &self.header.rtgen_family
    }
}

impl FixedHeader for RtgenmsgHeader {
    ghost width = { 4 };

    ghost bytes_of = { rtgenmsg_bytes };

    ghost header_of = { rtgenmsg_header };

    ghost IsPlain = { IsPlainRtgenmsg };

    ghost width_is = { rtgenmsg-width };

    ghost reads_back = { rtgenmsg-reads_back };

    ghost writes_back = { rtgenmsg-writes_back };

    fn size() -> usize {
        4
    }

    fn spell(&self) -> HeaderBytes {
        HeaderBytes::new()
            .u8(self.rtgen_family.to_wire())
            .u8(self.pad1)
            .u16(self.pad2)
    }

    fn from_spelling(bytes: &[u8]) -> RtgenmsgHeader {
        RtgenmsgHeader {
            rtgen_family: RtAddrFamily::from_wire(u8_in(bytes, 0)),
            pad1: u8_in(bytes, 1),
            pad2: u16_in(bytes, 2),
        }
    }
}

impl Fields for RtgenmsgHeader {
    fn name() -> &'static str {
        "Rtgenmsg"
    }
}

/// Why no request by family was built.
pub type RtgenmsgBuilderError = BuildError<{ of::RTGENMSG }>;

/// A builder of requests by family.
#[derive(Debug, Drop)]
pub struct RtgenmsgBuilder {
    rtgen_family: Option<RtAddrFamily>,
    rtattrs: Option<RtBuffer<Ifa, Buffer>>,
}

impl Default for RtgenmsgBuilder {
    ghost is_default = { λ b. b ≡ record { rtgen_family = None; rtattrs = None } };

    fn default() -> Self {
        RtgenmsgBuilder {
            rtgen_family: None,
            rtattrs: None,
        }
    }
}

impl RtgenmsgBuilder {
    /// The requested family.
    pub fn rtgen_family(mut self, value: RtAddrFamily) -> Self
        ensures { result ≡ record self { rtgen_family = Some value } }
    {
        self.rtgen_family = Some(value);
        self
    }

    /// The attributes. None by default.
    pub fn rtattrs(mut self, value: RtBuffer<Ifa, Buffer>) -> Self
        ensures { result ≡ record self { rtattrs = Some value } }
    {
        self.rtattrs = Some(value);
        self
    }

    /// Builds the request by family. It takes no memory.
    ///
    /// Refused if a field without a default is missing; the error names the first such field.
    pub fn build(self, alloc: Global) -> Result<Rtgenmsg, RtgenmsgBuilderError>
        ensures built { IfOk result (λ m. rtgenmsg_built self ≡ Ok m) }
        ensures refused { IfErr result (λ e. (e ≡ BuildError.Memory → ⊥)
            × IsWhyNot (rtgenmsg_built self) e) }
    {
        let rtgen_family = self
            .rtgen_family
            .ok_or(UninitializedFieldError::new("rtgen_family"))?;
        let header = RtgenmsgHeader {
            rtgen_family,
            pad1: 0,
            pad2: 0,
        };
        let rtattrs = self.rtattrs.unwrap_or(RtBuffer::new(alloc));
        Ok(Body { header, rtattrs })
    }
}
