//! Routes.

ghost use Rattle.std.specs.Prelude.{◌≡◌, Some, None, Ok, IfOk, IfErr};
ghost use Rattle.neli_attr.specs.Builders.{IsWhyNot};
ghost use Rattle.neli_rtnl.specs.Rtmsg.{IsPlainRtmsg, rtmsg_built, rtmsg_bytes, rtmsg_header};
ghost use Rattle.neli_rtnl.specs.laws.Rtmsg.{rtmsg-reads_back, rtmsg-width, rtmsg-writes_back};

use crate::body::{Body, Fields};
use neli_attr::{Buffer, BuildError, RtBuffer, of};
use neli_body::numbers::{u8_in, u32_in};
use neli_body::{FixedHeader, HeaderBytes};
use neli_consts_attrs::Rta;
use neli_consts_flags::RtmF;
use neli_consts_routing::{RtAddrFamily, RtScope, RtTable, Rtn, Rtprot};
use neli_wire::{Constant, UninitializedFieldError};
use std::alloc::Global;

/// The fields of a route before its attributes.
#[derive(Clone, Copy, Debug, PartialEq, Eq)]
pub struct RtmsgHeader {
    rtm_family: RtAddrFamily,
    rtm_dst_len: u8,
    rtm_src_len: u8,
    rtm_tos: u8,
    rtm_table: RtTable,
    rtm_protocol: Rtprot,
    rtm_scope: RtScope,
    rtm_type: Rtn,
    rtm_flags: RtmF,
}

/// A route: `struct rtmsg` of `linux/rtnetlink.h`, 12 bytes, and the route's attributes.
pub type Rtmsg = Body<RtmsgHeader, Rta>;

impl Rtmsg {
    /// The family of the route's addresses.
    pub fn rtm_family(&self) -> &RtAddrFamily
        ensures { result.now ≡ self.now.header.rtm_family }
    {
        &self.header.rtm_family
    }

    /// The prefix length of the destination, in bits; 0 is the default route.
    pub fn rtm_dst_len(&self) -> &u8
        ensures { result.now ≡ self.now.header.rtm_dst_len }
    {
        &self.header.rtm_dst_len
    }

    /// The prefix length of the source, in bits.
    pub fn rtm_src_len(&self) -> &u8
        ensures { result.now ≡ self.now.header.rtm_src_len }
    {
        &self.header.rtm_src_len
    }

    /// The type of service that packets must have; 0 is any.
    pub fn rtm_tos(&self) -> &u8
        ensures { result.now ≡ self.now.header.rtm_tos }
    {
        &self.header.rtm_tos
    }

    /// The routing table. `Rta::Table` has numbers above 255.
    pub fn rtm_table(&self) -> &RtTable
        ensures { result.now ≡ self.now.header.rtm_table }
    {
        &self.header.rtm_table
    }

    /// Who made the route.
    pub fn rtm_protocol(&self) -> &Rtprot
        ensures { result.now ≡ self.now.header.rtm_protocol }
    {
        &self.header.rtm_protocol
    }

    /// How far away the destination is.
    pub fn rtm_scope(&self) -> &RtScope
        ensures { result.now ≡ self.now.header.rtm_scope }
    {
        &self.header.rtm_scope
    }

    /// What the route does with a packet.
    pub fn rtm_type(&self) -> &Rtn
        ensures { result.now ≡ self.now.header.rtm_type }
    {
        &self.header.rtm_type
    }

    /// The flags, with all the bits that were read.
    pub fn rtm_flags(&self) -> &RtmF
        ensures { result.now ≡ self.now.header.rtm_flags }
    {
        &self.header.rtm_flags
    }
}

impl FixedHeader for RtmsgHeader {
    ghost width = { 12 };

    ghost bytes_of = { rtmsg_bytes };

    ghost header_of = { rtmsg_header };

    ghost IsPlain = { IsPlainRtmsg };

    ghost width_is = { rtmsg-width };

    ghost reads_back = { rtmsg-reads_back };

    ghost writes_back = { rtmsg-writes_back };

    fn size() -> usize {
        12
    }

    fn spell(&self) -> HeaderBytes {
        HeaderBytes::new()
            .u8(self.rtm_family.to_wire())
            .u8(self.rtm_dst_len)
            .u8(self.rtm_src_len)
            .u8(self.rtm_tos)
            .u8(self.rtm_table.to_wire())
            .u8(self.rtm_protocol.to_wire())
            .u8(self.rtm_scope.to_wire())
            .u8(self.rtm_type.to_wire())
            .u32(self.rtm_flags.to_wire())
    }

    fn from_spelling(bytes: &[u8]) -> RtmsgHeader {
        RtmsgHeader {
            rtm_family: RtAddrFamily::from_wire(u8_in(bytes, 0)),
            rtm_dst_len: u8_in(bytes, 1),
            rtm_src_len: u8_in(bytes, 2),
            rtm_tos: u8_in(bytes, 3),
            rtm_table: RtTable::from_wire(u8_in(bytes, 4)),
            rtm_protocol: Rtprot::from_wire(u8_in(bytes, 5)),
            rtm_scope: RtScope::from_wire(u8_in(bytes, 6)),
            rtm_type: Rtn::from_wire(u8_in(bytes, 7)),
            rtm_flags: RtmF::from_wire(u32_in(bytes, 8)),
        }
    }
}

impl Fields for RtmsgHeader {
    fn name() -> &'static str {
        "Rtmsg"
    }
}

/// Why no route was built.
pub type RtmsgBuilderError = BuildError<{ of::RTMSG }>;

/// A builder of routes.
#[derive(Debug, Drop)]
pub struct RtmsgBuilder {
    rtm_family: Option<RtAddrFamily>,
    rtm_dst_len: Option<u8>,
    rtm_src_len: Option<u8>,
    rtm_tos: Option<u8>,
    rtm_table: Option<RtTable>,
    rtm_protocol: Option<Rtprot>,
    rtm_scope: Option<RtScope>,
    rtm_type: Option<Rtn>,
    rtm_flags: Option<RtmF>,
    rtattrs: Option<RtBuffer<Rta, Buffer>>,
}

impl Default for RtmsgBuilder {
    ghost is_default = { λ b.
        b ≡ record {
          rtm_family = None;
          rtm_dst_len = None;
          rtm_src_len = None;
          rtm_tos = None;
          rtm_table = None;
          rtm_protocol = None;
          rtm_scope = None;
          rtm_type = None;
          rtm_flags = None;
          rtattrs = None;
        } };

    fn default() -> Self {
        RtmsgBuilder {
            rtm_family: None,
            rtm_dst_len: None,
            rtm_src_len: None,
            rtm_tos: None,
            rtm_table: None,
            rtm_protocol: None,
            rtm_scope: None,
            rtm_type: None,
            rtm_flags: None,
            rtattrs: None,
        }
    }
}

impl RtmsgBuilder {
    /// The family of the route's addresses.
    pub fn rtm_family(mut self, value: RtAddrFamily) -> Self
        ensures { result ≡ record self { rtm_family = Some value } }
    {
        self.rtm_family = Some(value);
        self
    }

    /// The prefix length of the destination, in bits; 0 is the default route.
    pub fn rtm_dst_len(mut self, value: u8) -> Self
        ensures { result ≡ record self { rtm_dst_len = Some value } }
    {
        self.rtm_dst_len = Some(value);
        self
    }

    /// The prefix length of the source, in bits.
    pub fn rtm_src_len(mut self, value: u8) -> Self
        ensures { result ≡ record self { rtm_src_len = Some value } }
    {
        self.rtm_src_len = Some(value);
        self
    }

    /// The type of service that packets must have; 0 is any.
    pub fn rtm_tos(mut self, value: u8) -> Self
        ensures { result ≡ record self { rtm_tos = Some value } }
    {
        self.rtm_tos = Some(value);
        self
    }

    /// The routing table. `Rta::Table` has numbers above 255.
    pub fn rtm_table(mut self, value: RtTable) -> Self
        ensures { result ≡ record self { rtm_table = Some value } }
    {
        self.rtm_table = Some(value);
        self
    }

    /// Who made the route.
    pub fn rtm_protocol(mut self, value: Rtprot) -> Self
        ensures { result ≡ record self { rtm_protocol = Some value } }
    {
        self.rtm_protocol = Some(value);
        self
    }

    /// How far away the destination is.
    pub fn rtm_scope(mut self, value: RtScope) -> Self
        ensures { result ≡ record self { rtm_scope = Some value } }
    {
        self.rtm_scope = Some(value);
        self
    }

    /// What the route does with a packet.
    pub fn rtm_type(mut self, value: Rtn) -> Self
        ensures { result ≡ record self { rtm_type = Some value } }
    {
        self.rtm_type = Some(value);
        self
    }

    /// The flags. None of them by default.
    pub fn rtm_flags(mut self, value: RtmF) -> Self
        ensures { result ≡ record self { rtm_flags = Some value } }
    {
        self.rtm_flags = Some(value);
        self
    }

    /// The attributes. None by default.
    pub fn rtattrs(mut self, value: RtBuffer<Rta, Buffer>) -> Self
        ensures { result ≡ record self { rtattrs = Some value } }
    {
        self.rtattrs = Some(value);
        self
    }

    /// Builds the route. It takes no memory.
    ///
    /// Refused if a field without a default is missing; the error names the first such field.
    pub fn build(self, alloc: Global) -> Result<Rtmsg, RtmsgBuilderError>
        ensures built { IfOk result (λ m. rtmsg_built self ≡ Ok m) }
        ensures refused { IfErr result (λ e. (e ≡ BuildError.Memory → ⊥)
            × IsWhyNot (rtmsg_built self) e) }
    {
        let rtm_family = self
            .rtm_family
            .ok_or(UninitializedFieldError::new("rtm_family"))?;
        let rtm_dst_len = self
            .rtm_dst_len
            .ok_or(UninitializedFieldError::new("rtm_dst_len"))?;
        let rtm_src_len = self
            .rtm_src_len
            .ok_or(UninitializedFieldError::new("rtm_src_len"))?;
        let rtm_tos = self.rtm_tos.ok_or(UninitializedFieldError::new("rtm_tos"))?;
        let rtm_table = self
            .rtm_table
            .ok_or(UninitializedFieldError::new("rtm_table"))?;
        let rtm_protocol = self
            .rtm_protocol
            .ok_or(UninitializedFieldError::new("rtm_protocol"))?;
        let rtm_scope = self
            .rtm_scope
            .ok_or(UninitializedFieldError::new("rtm_scope"))?;
        let rtm_type = self
            .rtm_type
            .ok_or(UninitializedFieldError::new("rtm_type"))?;
        let header = RtmsgHeader {
            rtm_family,
            rtm_dst_len,
            rtm_src_len,
            rtm_tos,
            rtm_table,
            rtm_protocol,
            rtm_scope,
            rtm_type,
            rtm_flags: self.rtm_flags.unwrap_or(RtmF::empty()),
        };
        let rtattrs = self.rtattrs.unwrap_or(RtBuffer::new(alloc));
        Ok(Body { header, rtattrs })
    }
}
