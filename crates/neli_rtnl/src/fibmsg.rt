//! Rules of routing.

ghost use Rattle.std.specs.Prelude.{◌≡◌, Some, None, Ok, IfOk, IfErr};
ghost use Rattle.neli_attr.specs.Builders.{IsWhyNot};
ghost use Rattle.neli_rtnl.specs.Fibmsg.{IsPlainFibmsg, fibmsg_built, fibmsg_bytes, fibmsg_header};
ghost use Rattle.neli_rtnl.specs.laws.Fibmsg.{fibmsg-reads_back, fibmsg-width, fibmsg-writes_back};

use crate::body::{Body, Fields};
use neli_attr::{Buffer, BuildError, RtBuffer, of};
use neli_body::numbers::{u8_in, u32_in};
use neli_body::{FixedHeader, HeaderBytes};
use neli_consts_attrs::Frattr;
use neli_consts_flags::Frf;
use neli_consts_routing::{FrAct, RtAddrFamily, RtTable};
use neli_wire::{Constant, UninitializedFieldError};
use std::alloc::Global;

/// The fields of a rule before its attributes.
#[derive(Clone, Copy, Debug, PartialEq, Eq)]
pub struct FibmsgHeader {
    fib_family: RtAddrFamily,
    fib_dst_len: u8,
    fib_src_len: u8,
    fib_tos: u8,
    fib_table: RtTable,
    pad1: u8,
    pad2: u8,
    fib_action: FrAct,
    fib_flags: Frf,
}

/// A rule of routing: `struct fib_rule_hdr` of `linux/fib_rules.h`, 12 bytes, and the rule's attributes.
pub type Fibmsg = Body<FibmsgHeader, Frattr>;

impl Fibmsg {
    /// The family of the rule's addresses.
    pub fn fib_family(&self) -> &RtAddrFamily
        ensures { result.now ≡ self.now.header.fib_family }
    {
        &self.header.fib_family
    }

    /// The prefix length of the destination, in bits.
    pub fn fib_dst_len(&self) -> &u8
        ensures { result.now ≡ self.now.header.fib_dst_len }
    {
        &self.header.fib_dst_len
    }

    /// The prefix length of the source, in bits.
    pub fn fib_src_len(&self) -> &u8
        ensures { result.now ≡ self.now.header.fib_src_len }
    {
        &self.header.fib_src_len
    }

    /// The type of service that packets must have; 0 is any.
    pub fn fib_tos(&self) -> &u8
        ensures { result.now ≡ self.now.header.fib_tos }
    {
        &self.header.fib_tos
    }

    /// The routing table to look in. `Frattr::Table` has numbers above 255.
    pub fn fib_table(&self) -> &RtTable
        ensures { result.now ≡ self.now.header.fib_table }
    {
        &self.header.fib_table
    }

    /// What the rule does with a packet.
    pub fn fib_action(&self) -> &FrAct
        ensures { result.now ≡ self.now.header.fib_action }
    {
        &self.header.fib_action
    }

    /// The flags, with all the bits that were read.
    pub fn fib_flags(&self) -> &Frf
        ensures { result.now ≡ self.now.header.fib_flags }
    {
        &self.header.fib_flags
    }
}

impl FixedHeader for FibmsgHeader {
    ghost width = { 12 };

    ghost bytes_of = { fibmsg_bytes };

    ghost header_of = { fibmsg_header };

    ghost IsPlain = { IsPlainFibmsg };

    ghost width_is = { fibmsg-width };

    ghost reads_back = { fibmsg-reads_back };

    ghost writes_back = { fibmsg-writes_back };

    fn size() -> usize {
        12
    }

    fn spell(&self) -> HeaderBytes {
        HeaderBytes::new()
            .u8(self.fib_family.to_wire())
            .u8(self.fib_dst_len)
            .u8(self.fib_src_len)
            .u8(self.fib_tos)
            .u8(self.fib_table.to_wire())
            .u8(self.pad1)
            .u8(self.pad2)
            .u8(self.fib_action.to_wire())
            .u32(self.fib_flags.to_wire())
    }

    fn from_spelling(bytes: &[u8]) -> FibmsgHeader {
        FibmsgHeader {
            fib_family: RtAddrFamily::from_wire(u8_in(bytes, 0)),
            fib_dst_len: u8_in(bytes, 1),
            fib_src_len: u8_in(bytes, 2),
            fib_tos: u8_in(bytes, 3),
            fib_table: RtTable::from_wire(u8_in(bytes, 4)),
            pad1: u8_in(bytes, 5),
            pad2: u8_in(bytes, 6),
            fib_action: FrAct::from_wire(u8_in(bytes, 7)),
            fib_flags: Frf::from_wire(u32_in(bytes, 8)),
        }
    }
}

impl Fields for FibmsgHeader {
    fn name() -> &'static str {
        "Fibmsg"
    }
}

/// Why no rule was built.
pub type FibmsgBuilderError = BuildError<{ of::FIBMSG }>;

/// A builder of rules.
#[derive(Debug, Drop)]
pub struct FibmsgBuilder {
    fib_family: Option<RtAddrFamily>,
    fib_dst_len: Option<u8>,
    fib_src_len: Option<u8>,
    fib_tos: Option<u8>,
    fib_table: Option<RtTable>,
    fib_action: Option<FrAct>,
    fib_flags: Option<Frf>,
    rtattrs: Option<RtBuffer<Frattr, Buffer>>,
}

impl Default for FibmsgBuilder {
    ghost is_default = { λ b.
        b ≡ record {
          fib_family = None;
          fib_dst_len = None;
          fib_src_len = None;
          fib_tos = None;
          fib_table = None;
          fib_action = None;
          fib_flags = None;
          rtattrs = None;
        } };

    fn default() -> Self {
        FibmsgBuilder {
            fib_family: None,
            fib_dst_len: None,
            fib_src_len: None,
            fib_tos: None,
            fib_table: None,
            fib_action: None,
            fib_flags: None,
            rtattrs: None,
        }
    }
}

impl FibmsgBuilder {
    /// The family of the rule's addresses.
    pub fn fib_family(mut self, value: RtAddrFamily) -> Self
        ensures { result ≡ record self { fib_family = Some value } }
    {
        self.fib_family = Some(value);
        self
    }

    /// The prefix length of the destination, in bits.
    pub fn fib_dst_len(mut self, value: u8) -> Self
        ensures { result ≡ record self { fib_dst_len = Some value } }
    {
        self.fib_dst_len = Some(value);
        self
    }

    /// The prefix length of the source, in bits.
    pub fn fib_src_len(mut self, value: u8) -> Self
        ensures { result ≡ record self { fib_src_len = Some value } }
    {
        self.fib_src_len = Some(value);
        self
    }

    /// The type of service that packets must have; 0 is any.
    pub fn fib_tos(mut self, value: u8) -> Self
        ensures { result ≡ record self { fib_tos = Some value } }
    {
        self.fib_tos = Some(value);
        self
    }

    /// The routing table to look in. `Frattr::Table` has numbers above 255.
    pub fn fib_table(mut self, value: RtTable) -> Self
        ensures { result ≡ record self { fib_table = Some value } }
    {
        self.fib_table = Some(value);
        self
    }

    /// What the rule does with a packet.
    pub fn fib_action(mut self, value: FrAct) -> Self
        ensures { result ≡ record self { fib_action = Some value } }
    {
        self.fib_action = Some(value);
        self
    }

    /// The flags. None of them by default.
    pub fn fib_flags(mut self, value: Frf) -> Self
        ensures { result ≡ record self { fib_flags = Some value } }
    {
        self.fib_flags = Some(value);
        self
    }

    /// The attributes. None by default.
    pub fn rtattrs(mut self, value: RtBuffer<Frattr, Buffer>) -> Self
        ensures { result ≡ record self { rtattrs = Some value } }
    {
        self.rtattrs = Some(value);
        self
    }

    /// Builds the rule. It takes no memory.
    ///
    /// Refused if a field without a default is missing; the error names the first such field.
    pub fn build(self, alloc: Global) -> Result<Fibmsg, FibmsgBuilderError>
        ensures built { IfOk result (λ m. fibmsg_built self ≡ Ok m) }
        ensures refused { IfErr result (λ e. (e ≡ BuildError.Memory → ⊥)
            × IsWhyNot (fibmsg_built self) e) }
    {
        let fib_family = self
            .fib_family
            .ok_or(UninitializedFieldError::new("fib_family"))?;
        let fib_dst_len = self
            .fib_dst_len
            .ok_or(UninitializedFieldError::new("fib_dst_len"))?;
        let fib_src_len = self
            .fib_src_len
            .ok_or(UninitializedFieldError::new("fib_src_len"))?;
        let fib_tos = self.fib_tos.ok_or(UninitializedFieldError::new("fib_tos"))?;
        let fib_table = self
            .fib_table
            .ok_or(UninitializedFieldError::new("fib_table"))?;
        let fib_action = self
            .fib_action
            .ok_or(UninitializedFieldError::new("fib_action"))?;
        let header = FibmsgHeader {
            fib_family,
            fib_dst_len,
            fib_src_len,
            fib_tos,
            fib_table,
            pad1: 0,
            pad2: 0,
            fib_action,
            fib_flags: self.fib_flags.unwrap_or(Frf::empty()),
        };
        let rtattrs = self.rtattrs.unwrap_or(RtBuffer::new(alloc));
        Ok(Body { header, rtattrs })
    }
}
