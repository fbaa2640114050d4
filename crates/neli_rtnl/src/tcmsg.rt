//! Queueing disciplines, their classes and their filters.

ghost use Rattle.std.specs.Prelude.{◌≡◌, Some, None, Ok, IfOk, IfErr};
ghost use Rattle.neli_attr.specs.Builders.{IsWhyNot};
ghost use Rattle.neli_rtnl.specs.Tcmsg.{IsPlainTcmsg, tcmsg_built, tcmsg_bytes, tcmsg_header};
ghost use Rattle.neli_rtnl.specs.laws.Tcmsg.{tcmsg-reads_back, tcmsg-width, tcmsg-writes_back};

use crate::body::{Body, Fields};
use neli_attr::{Buffer, BuildError, RtBuffer, of};
use neli_body::numbers::{i32_in, u8_in, u16_in, u32_in};
use neli_body::{FixedHeader, HeaderBytes};
use neli_consts_attrs::Tca;
use neli_wire::UninitializedFieldError;
use std::alloc::Global;

/// The fields of a queueing discipline before its attributes.
#[derive(Clone, Copy, Debug, PartialEq, Eq)]
pub struct TcmsgHeader {
    tcm_family: u8,
    padding_char: u8,
    padding_short: u16,
    tcm_ifindex: i32,
    tcm_handle: u32,
    tcm_parent: u32,
    tcm_info: u32,
}

/// A queueing discipline, a class or a filter: `struct tcmsg` of `linux/rtnetlink.h`, 20 bytes, and its
/// attributes.
pub type Tcmsg = Body<TcmsgHeader, Tca>;

impl Tcmsg {
    /// The family; 0 is any.
    pub fn tcm_family(&self) -> &u8
        ensures { result.now ≡ self.now.header.tcm_family }
    {
        &self.header.tcm_family
    }

    /// The index of the link.
    pub fn tcm_ifindex(&self) -> &i32
        ensures { result.now ≡ self.now.header.tcm_ifindex }
    {
        &self.header.tcm_ifindex
    }

    /// The handle, its major number in the upper 16 bits and its minor number in the lower.
    pub fn tcm_handle(&self) -> &u32
        ensures { result.now ≡ self.now.header.tcm_handle }
    {
        &self.header.tcm_handle
    }

    /// The handle of the parent; `TC_H_ROOT` is 0xffffffff.
    pub fn tcm_parent(&self) -> &u32
        ensures { result.now ≡ self.now.header.tcm_parent }
    {
        &self.header.tcm_parent
    }

    /// Further data: of a filter its priority and its protocol.
    pub fn tcm_info(&self) -> &u32
        ensures { result.now ≡ self.now.header.tcm_info }
    {
        &self.header.tcm_info
    }
}

impl FixedHeader for TcmsgHeader {
    ghost width = { 20 };

    ghost bytes_of = { tcmsg_bytes };

    ghost header_of = { tcmsg_header };

    ghost IsPlain = { IsPlainTcmsg };

    ghost width_is = { tcmsg-width };

    ghost reads_back = { tcmsg-reads_back };

    ghost writes_back = { tcmsg-writes_back };

    fn size() -> usize {
        20
    }

    fn spell(&self) -> HeaderBytes {
        HeaderBytes::new()
            .u8(self.tcm_family)
            .u8(self.padding_char)
            .u16(self.padding_short)
            .i32(self.tcm_ifindex)
            .u32(self.tcm_handle)
            .u32(self.tcm_parent)
            .u32(self.tcm_info)
    }

    fn from_spelling(bytes: &[u8]) -> TcmsgHeader {
        TcmsgHeader {
            tcm_family: u8_in(bytes, 0),
            padding_char: u8_in(bytes, 1),
            padding_short: u16_in(bytes, 2),
            tcm_ifindex: i32_in(bytes, 4),
            tcm_handle: u32_in(bytes, 8),
            tcm_parent: u32_in(bytes, 12),
            tcm_info: u32_in(bytes, 16),
        }
    }
}

impl Fields for TcmsgHeader {
    fn name() -> &'static str {
        "Tcmsg"
    }
}

/// Why no queueing discipline was built.
pub type TcmsgBuilderError = BuildError<{ of::TCMSG }>;

/// A builder of queueing disciplines.
#[derive(Debug, Drop)]
pub struct TcmsgBuilder {
    tcm_family: Option<u8>,
    tcm_ifindex: Option<i32>,
    tcm_handle: Option<u32>,
    tcm_parent: Option<u32>,
    tcm_info: Option<u32>,
    rtattrs: Option<RtBuffer<Tca, Buffer>>,
}

impl Default for TcmsgBuilder {
    ghost is_default = { λ b.
        b ≡ record {
          tcm_family = None;
          tcm_ifindex = None;
          tcm_handle = None;
          tcm_parent = None;
          tcm_info = None;
          rtattrs = None;
        } };

    fn default() -> Self {
        TcmsgBuilder {
            tcm_family: None,
            tcm_ifindex: None,
            tcm_handle: None,
            tcm_parent: None,
            tcm_info: None,
            rtattrs: None,
        }
    }
}

impl TcmsgBuilder {
    /// The family; 0 is any.
    pub fn tcm_family(mut self, value: u8) -> Self
        ensures { result ≡ record self { tcm_family = Some value } }
    {
        self.tcm_family = Some(value);
        self
    }

    /// The index of the link.
    pub fn tcm_ifindex(mut self, value: i32) -> Self
        ensures { result ≡ record self { tcm_ifindex = Some value } }
    {
        self.tcm_ifindex = Some(value);
        self
    }

    /// The handle, its major number in the upper 16 bits and its minor number in the lower.
    pub fn tcm_handle(mut self, value: u32) -> Self
        ensures { result ≡ record self { tcm_handle = Some value } }
    {
        self.tcm_handle = Some(value);
        self
    }

    /// The handle of the parent; `TC_H_ROOT` is 0xffffffff.
    pub fn tcm_parent(mut self, value: u32) -> Self
        ensures { result ≡ record self { tcm_parent = Some value } }
    {
        self.tcm_parent = Some(value);
        self
    }

    /// Further data: of a filter its priority and its protocol.
    pub fn tcm_info(mut self, value: u32) -> Self
        ensures { result ≡ record self { tcm_info = Some value } }
    {
        self.tcm_info = Some(value);
        self
    }

    /// The attributes. None by default.
    pub fn rtattrs(mut self, value: RtBuffer<Tca, Buffer>) -> Self
        ensures { result ≡ record self { rtattrs = Some value } }
    {
        self.rtattrs = Some(value);
        self
    }

    /// Builds the queueing discipline. It takes no memory.
    ///
    /// Refused if a field without a default is missing; the error names the first such field.
    pub fn build(self, alloc: Global) -> Result<Tcmsg, TcmsgBuilderError>
        ensures built { IfOk result (λ m. tcmsg_built self ≡ Ok m) }
        ensures refused { IfErr result (λ e. (e ≡ BuildError.Memory → ⊥)
            × IsWhyNot (tcmsg_built self) e) }
    {
        let tcm_family = self
            .tcm_family
            .ok_or(UninitializedFieldError::new("tcm_family"))?;
        let tcm_ifindex = self
            .tcm_ifindex
            .ok_or(UninitializedFieldError::new("tcm_ifindex"))?;
        let tcm_handle = self
            .tcm_handle
            .ok_or(UninitializedFieldError::new("tcm_handle"))?;
        let tcm_parent = self
            .tcm_parent
            .ok_or(UninitializedFieldError::new("tcm_parent"))?;
        let tcm_info = self
            .tcm_info
            .ok_or(UninitializedFieldError::new("tcm_info"))?;
        let header = TcmsgHeader {
            tcm_family,
            padding_char: 0,
            padding_short: 0,
            tcm_ifindex,
            tcm_handle,
            tcm_parent,
            tcm_info,
        };
        let rtattrs = self.rtattrs.unwrap_or(RtBuffer::new(alloc));
        Ok(Body { header, rtattrs })
    }
}
