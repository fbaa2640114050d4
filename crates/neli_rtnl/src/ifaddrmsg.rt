//! Addresses of links.

ghost use Rattle.std.specs.Prelude.{◌≡◌, Some, None, Ok, IfOk, IfErr};
ghost use Rattle.neli_attr.specs.Builders.{IsWhyNot};
ghost use Rattle.neli_rtnl.specs.Ifaddrmsg.{IsPlainIfaddrmsg, ifaddrmsg_built, ifaddrmsg_bytes, ifaddrmsg_header};
ghost use Rattle.neli_rtnl.specs.laws.Ifaddrmsg.{ifaddrmsg-reads_back, ifaddrmsg-width, ifaddrmsg-writes_back};

use crate::body::{Body, Fields};
use neli_attr::{Buffer, BuildError, RtBuffer, of};
use neli_body::numbers::{u8_in, u32_in};
use neli_body::{FixedHeader, HeaderBytes};
use neli_consts_attrs::Ifa;
use neli_consts_flags::IfaF;
use neli_consts_routing::{RtAddrFamily, RtScope};
use neli_wire::{Constant, UninitializedFieldError};
use std::alloc::Global;

/// The fields of an address before its attributes.
#[derive(Clone, Copy, Debug, PartialEq, Eq)]
pub struct IfaddrmsgHeader {
    ifa_family: RtAddrFamily,
    ifa_prefixlen: u8,
    ifa_flags: IfaF,
    ifa_scope: RtScope,
    ifa_index: u32,
}

/// An address of a link: `struct ifaddrmsg` of `linux/if_addr.h`, 8 bytes, and the address's attributes.
pub type Ifaddrmsg = Body<IfaddrmsgHeader, Ifa>;

impl Ifaddrmsg {
    /// The family of the address.
    pub fn ifa_family(&self) -> &RtAddrFamily
        ensures { result.now ≡ self.now.header.ifa_family }
    {
        &self.header.ifa_family
    }

    /// The length of the network prefix, in bits.
    pub fn ifa_prefixlen(&self) -> &u8
        ensures { result.now ≡ self.now.header.ifa_prefixlen }
    {
        &self.header.ifa_prefixlen
    }

    /// The flags, with all the bits that were read. `Ifa::Flags` has those above 0x80.
    pub fn ifa_flags(&self) -> &IfaF
        ensures { result.now ≡ self.now.header.ifa_flags }
    {
        &self.header.ifa_flags
    }

    /// The scope in which the address is valid.
    pub fn ifa_scope(&self) -> &RtScope
        ensures { result.now ≡ self.now.header.ifa_scope }
    {
        &self.header.ifa_scope
    }

    /// The index of the link.
    pub fn ifa_index(&self) -> &u32
        ensures { result.now ≡ self.now.header.ifa_index }
    {
        &self.header.ifa_index
    }
}

impl FixedHeader for IfaddrmsgHeader {
    ghost width = { 8 };

    ghost bytes_of = { ifaddrmsg_bytes };

    ghost header_of = { ifaddrmsg_header };

    ghost IsPlain = { IsPlainIfaddrmsg };

    ghost width_is = { ifaddrmsg-width };

    ghost reads_back = { ifaddrmsg-reads_back };

    ghost writes_back = { ifaddrmsg-writes_back };

    fn size() -> usize {
        8
    }

    fn spell(&self) -> HeaderBytes {
        HeaderBytes::new()
            .u8(self.ifa_family.to_wire())
            .u8(self.ifa_prefixlen)
            .u8(self.ifa_flags.to_wire())
            .u8(self.ifa_scope.to_wire())
            .u32(self.ifa_index)
    }

    fn from_spelling(bytes: &[u8]) -> IfaddrmsgHeader {
        IfaddrmsgHeader {
            ifa_family: RtAddrFamily::from_wire(u8_in(bytes, 0)),
            ifa_prefixlen: u8_in(bytes, 1),
            ifa_flags: IfaF::from_wire(u8_in(bytes, 2)),
            ifa_scope: RtScope::from_wire(u8_in(bytes, 3)),
            ifa_index: u32_in(bytes, 4),
        }
    }
}

impl Fields for IfaddrmsgHeader {
    fn name() -> &'static str {
        "Ifaddrmsg"
    }
}

/// Why no address was built.
pub type IfaddrmsgBuilderError = BuildError<{ of::IFADDRMSG }>;

/// A builder of addresses.
#[derive(Debug, Drop)]
pub struct IfaddrmsgBuilder {
    ifa_family: Option<RtAddrFamily>,
    ifa_prefixlen: Option<u8>,
    ifa_flags: Option<IfaF>,
    ifa_scope: Option<RtScope>,
    ifa_index: Option<u32>,
    rtattrs: Option<RtBuffer<Ifa, Buffer>>,
}

impl Default for IfaddrmsgBuilder {
    ghost is_default = { λ b.
        b ≡ record {
          ifa_family = None;
          ifa_prefixlen = None;
          ifa_flags = None;
          ifa_scope = None;
          ifa_index = None;
          rtattrs = None;
        } };

    fn default() -> Self {
        IfaddrmsgBuilder {
            ifa_family: None,
            ifa_prefixlen: None,
            ifa_flags: None,
            ifa_scope: None,
            ifa_index: None,
            rtattrs: None,
        }
    }
}

impl IfaddrmsgBuilder {
    /// The family of the address.
    pub fn ifa_family(mut self, value: RtAddrFamily) -> Self
        ensures { result ≡ record self { ifa_family = Some value } }
    {
        self.ifa_family = Some(value);
        self
    }

    /// The length of the network prefix, in bits.
    pub fn ifa_prefixlen(mut self, value: u8) -> Self
        ensures { result ≡ record self { ifa_prefixlen = Some value } }
    {
        self.ifa_prefixlen = Some(value);
        self
    }

    /// The flags. `Ifa::Flags` has those above 0x80. None of them by default.
    pub fn ifa_flags(mut self, value: IfaF) -> Self
        ensures { result ≡ record self { ifa_flags = Some value } }
    {
        self.ifa_flags = Some(value);
        self
    }

    /// The scope in which the address is valid.
    pub fn ifa_scope(mut self, value: RtScope) -> Self
        ensures { result ≡ record self { ifa_scope = Some value } }
    {
        self.ifa_scope = Some(value);
        self
    }

    /// The index of the link.
    pub fn ifa_index(mut self, value: u32) -> Self
        ensures { result ≡ record self { ifa_index = Some value } }
    {
        self.ifa_index = Some(value);
        self
    }

    /// The attributes. None by default.
    pub fn rtattrs(mut self, value: RtBuffer<Ifa, Buffer>) -> Self
        ensures { result ≡ record self { rtattrs = Some value } }
    {
        self.rtattrs = Some(value);
        self
    }

    /// Builds the address. It takes no memory.
    ///
    /// Refused if a field without a default is missing; the error names the first such field.
    pub fn build(self, alloc: Global) -> Result<Ifaddrmsg, IfaddrmsgBuilderError>
        ensures built { IfOk result (λ m. ifaddrmsg_built self ≡ Ok m) }
        ensures refused { IfErr result (λ e. (e ≡ BuildError.Memory → ⊥)
            × IsWhyNot (ifaddrmsg_built self) e) }
    {
        let ifa_family = self
            .ifa_family
            .ok_or(UninitializedFieldError::new("ifa_family"))?;
        let ifa_prefixlen = self
            .ifa_prefixlen
            .ok_or(UninitializedFieldError::new("ifa_prefixlen"))?;
        let ifa_scope = self
            .ifa_scope
            .ok_or(UninitializedFieldError::new("ifa_scope"))?;
        let ifa_index = self
            .ifa_index
            .ok_or(UninitializedFieldError::new("ifa_index"))?;
        let header = IfaddrmsgHeader {
            ifa_family,
            ifa_prefixlen,
            ifa_flags: self.ifa_flags.unwrap_or(IfaF::empty()),
            ifa_scope,
            ifa_index,
        };
        let rtattrs = self.rtattrs.unwrap_or(RtBuffer::new(alloc));
        Ok(Body { header, rtattrs })
    }
}
