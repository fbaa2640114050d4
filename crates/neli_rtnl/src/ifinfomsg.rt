//! Links.

ghost use Rattle.std.specs.Prelude.{◌≡◌, Some, None, Ok, IfOk, IfErr};
ghost use Rattle.neli_attr.specs.Builders.{IsWhyNot};
ghost use Rattle.neli_rtnl.specs.Ifinfomsg.{IsPlainIfinfomsg, ifinfomsg_built, ifinfomsg_bytes, ifinfomsg_down, ifinfomsg_header, ifinfomsg_up};
ghost use Rattle.neli_rtnl.specs.laws.Ifinfomsg.{ifinfomsg-reads_back, ifinfomsg-width, ifinfomsg-writes_back};

use crate::body::{Body, Fields};
use neli_attr::{Buffer, BuildError, RtBuffer, of};
use neli_body::numbers::{i32_in, u8_in, u16_in, u32_in};
use neli_body::{FixedHeader, HeaderBytes};
use neli_consts_attrs::Ifla;
use neli_consts_flags::Iff;
use neli_consts_routing::{Arphrd, RtAddrFamily};
use neli_wire::{Constant, UninitializedFieldError};
use std::alloc::Global;

/// The fields of a link before its attributes.
#[derive(Clone, Copy, Debug, PartialEq, Eq)]
pub struct IfinfomsgHeader {
    ifi_family: RtAddrFamily,
    padding: u8,
    ifi_type: Arphrd,
    ifi_index: i32,
    ifi_flags: Iff,
    ifi_change: Iff,
}

/// A link: `struct ifinfomsg` of `linux/rtnetlink.h`, 16 bytes, and the link's attributes.
pub type Ifinfomsg = Body<IfinfomsgHeader, Ifla>;

impl Ifinfomsg {
    /// The family; `Unspecified` for most requests.
    pub fn ifi_family(&self) -> &RtAddrFamily
        ensures { result.now ≡ self.now.header.ifi_family }
    {
        &self.header.ifi_family
    }

    /// The kind of device.
    pub fn ifi_type(&self) -> &Arphrd
        ensures { result.now ≡ self.now.header.ifi_type }
    {
        &self.header.ifi_type
    }

    /// The index of the link; 0 is any.
    pub fn ifi_index(&self) -> &i32
        ensures { result.now ≡ self.now.header.ifi_index }
    {
        &self.header.ifi_index
    }

    /// The flags of the device, with all the bits that were read.
    pub fn ifi_flags(&self) -> &Iff
        ensures { result.now ≡ self.now.header.ifi_flags }
    {
        &self.header.ifi_flags
    }

    /// The flags that a request changes.
    pub fn ifi_change(&self) -> &Iff
        ensures { result.now ≡ self.now.header.ifi_change }
    {
        &self.header.ifi_change
    }
}

impl FixedHeader for IfinfomsgHeader {
    ghost width = { 16 };

    ghost bytes_of = { ifinfomsg_bytes };

    ghost header_of = { ifinfomsg_header };

    ghost IsPlain = { IsPlainIfinfomsg };

    ghost width_is = { ifinfomsg-width };

    ghost reads_back = { ifinfomsg-reads_back };

    ghost writes_back = { ifinfomsg-writes_back };

    fn size() -> usize {
        16
    }

    fn spell(&self) -> HeaderBytes {
        HeaderBytes::new()
            .u8(self.ifi_family.to_wire())
            .u8(self.padding)
            .u16(self.ifi_type.to_wire())
            .i32(self.ifi_index)
            .u32(self.ifi_flags.to_wire())
            .u32(self.ifi_change.to_wire())
    }

    fn from_spelling(bytes: &[u8]) -> IfinfomsgHeader {
        IfinfomsgHeader {
            ifi_family: RtAddrFamily::from_wire(u8_in(bytes, 0)),
            padding: u8_in(bytes, 1),
            ifi_type: Arphrd::from_wire(u16_in(bytes, 2)),
            ifi_index: i32_in(bytes, 4),
            ifi_flags: Iff::from_wire(u32_in(bytes, 8)),
            ifi_change: Iff::from_wire(u32_in(bytes, 12)),
        }
    }
}

impl Fields for IfinfomsgHeader {
    fn name() -> &'static str {
        "Ifinfomsg"
    }
}

/// Why no link was built.
pub type IfinfomsgBuilderError = BuildError<{ of::IFINFOMSG }>;

/// A builder of links.
#[derive(Debug, Drop)]
pub struct IfinfomsgBuilder {
    ifi_family: Option<RtAddrFamily>,
    ifi_type: Option<Arphrd>,
    ifi_index: Option<i32>,
    ifi_flags: Option<Iff>,
    ifi_change: Option<Iff>,
    rtattrs: Option<RtBuffer<Ifla, Buffer>>,
}

impl Default for IfinfomsgBuilder {
    ghost is_default = { λ b.
        b ≡ record {
          ifi_family = None;
          ifi_type = None;
          ifi_index = None;
          ifi_flags = None;
          ifi_change = None;
          rtattrs = None;
        } };

    fn default() -> Self {
        IfinfomsgBuilder {
            ifi_family: None,
            ifi_type: None,
            ifi_index: None,
            ifi_flags: None,
            ifi_change: None,
            rtattrs: None,
        }
    }
}

impl IfinfomsgBuilder {
    /// The family; `Unspecified` for most requests.
    pub fn ifi_family(mut self, value: RtAddrFamily) -> Self
        ensures { result ≡ record self { ifi_family = Some value } }
    {
        self.ifi_family = Some(value);
        self
    }

    /// The kind of device. `Netrom` by default.
    pub fn ifi_type(mut self, value: Arphrd) -> Self
        ensures { result ≡ record self { ifi_type = Some value } }
    {
        self.ifi_type = Some(value);
        self
    }

    /// The index of the link; 0 is any. 0 by default.
    pub fn ifi_index(mut self, value: i32) -> Self
        ensures { result ≡ record self { ifi_index = Some value } }
    {
        self.ifi_index = Some(value);
        self
    }

    /// The flags of the device. None of them by default.
    pub fn ifi_flags(mut self, value: Iff) -> Self
        ensures { result ≡ record self { ifi_flags = Some value } }
    {
        self.ifi_flags = Some(value);
        self
    }

    /// The flags that a request changes. None of them by default.
    pub fn ifi_change(mut self, value: Iff) -> Self
        ensures { result ≡ record self { ifi_change = Some value } }
    {
        self.ifi_change = Some(value);
        self
    }

    /// The attributes. None by default.
    pub fn rtattrs(mut self, value: RtBuffer<Ifla, Buffer>) -> Self
        ensures { result ≡ record self { rtattrs = Some value } }
    {
        self.rtattrs = Some(value);
        self
    }

    /// Sets `UP` in the flags, and in those to be changed.
    pub fn up(mut self) -> Self
        ensures { result ≡ ifinfomsg_up self }
    {
        let flags = self.ifi_flags.unwrap_or(Iff::empty());
        let change = self.ifi_change.unwrap_or(Iff::empty());
        self.ifi_flags = Some(flags | Iff::UP);
        self.ifi_change = Some(change | Iff::UP);
        self
    }

    /// Clears `UP` and the bits without a name in the flags, and sets `UP` in those to be changed.
    pub fn down(mut self) -> Self
        ensures { result ≡ ifinfomsg_down self }
    {
        let flags = self.ifi_flags.unwrap_or(Iff::empty());
        let change = self.ifi_change.unwrap_or(Iff::empty());
        self.ifi_flags = Some(flags & !Iff::UP);
        self.ifi_change = Some(change | Iff::UP);
        self
    }

    /// Builds the link. It takes no memory.
    ///
    /// Refused if a field without a default is missing; the error names the first such field.
    pub fn build(self, alloc: Global) -> Result<Ifinfomsg, IfinfomsgBuilderError>
        ensures built { IfOk result (λ m. ifinfomsg_built self ≡ Ok m) }
        ensures refused { IfErr result (λ e. (e ≡ BuildError.Memory → ⊥)
            × IsWhyNot (ifinfomsg_built self) e) }
    {
        let ifi_family = self
            .ifi_family
            .ok_or(UninitializedFieldError::new("ifi_family"))?;
        let header = IfinfomsgHeader {
            ifi_family,
            padding: 0,
            ifi_type: self.ifi_type.unwrap_or(Arphrd::Netrom),
            ifi_index: self.ifi_index.unwrap_or(0),
            ifi_flags: self.ifi_flags.unwrap_or(Iff::empty()),
            ifi_change: self.ifi_change.unwrap_or(Iff::empty()),
        };
        let rtattrs = self.rtattrs.unwrap_or(RtBuffer::new(alloc));
        Ok(Body { header, rtattrs })
    }
}
