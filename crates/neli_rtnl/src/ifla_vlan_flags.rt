//! The flags of a virtual LAN.

ghost use Rattle.std.specs.Prelude.{◌≡◌, ◌+◌, Some, None, Ok, IfOk, IfErr};
ghost use Rattle.neli_wire.specs.Reading.{value_at};
ghost use Rattle.neli_wire.specs.laws.Reading.{value_at-local, value_at-no_memory};
ghost use Rattle.neli_wire.specs.laws.Sizes.{unpadded-rounded, unpadded-zeros};
ghost use Rattle.neli_wire.specs.laws.Writing.{written-length, written-no_memory};
ghost use Rattle.neli_attr.specs.Builders.{IsWhyNot};
ghost use Rattle.neli_rtnl.specs.IflaVlanFlags.{IsPlainIflaVlanFlags, ifla_vlan_flags_built, ifla_vlan_flags_bytes, ifla_vlan_flags_header};
ghost use Rattle.neli_rtnl.specs.laws.IflaVlanFlags.{ifla_vlan_flags-reads_back, ifla_vlan_flags-width, ifla_vlan_flags-writes_back};

use neli_attr::{BuildError, TryClone, of};
use neli_body::numbers::u8_in;
use neli_body::{FixedHeader, HeaderBytes, read_fixed, write_fixed};
use neli_consts_flags::VlanFlags;
use neli_wire::{
    Constant, Cursor, DeError, FromBytes, NoMemory, SerError, Size, ToBytes,
    UninitializedFieldError,
};
use std::alloc::Global;

/// The flags of a virtual LAN, after `struct ifla_vlan_flags` of `linux/if_link.h`, 2 bytes: one for each field.
#[derive(Debug, Drop, PartialEq, Eq)]
pub struct IflaVlanFlags {
    flags: VlanFlags,
    mask: VlanFlags,
}

impl IflaVlanFlags {
    /// The flags, with all the bits that were read.
    pub fn flags(&self) -> &VlanFlags
        ensures { result.now ≡ self.now.flags }
    {
        &self.flags
    }

    /// The mask: which flags count.
    pub fn mask(&self) -> &VlanFlags
        ensures { result.now ≡ self.now.mask }
    {
        &self.mask
    }

    /// An equal pair. It takes no memory.
    pub fn try_clone(&self) -> Result<Self, NoMemory>
        ensures { result ≡ Ok self.now }
    {
        Ok(IflaVlanFlags {
            flags: self.flags,
            mask: self.mask,
        })
    }
}

impl TryClone for IflaVlanFlags {
    ghost copy_takes_memory = { λ _. ⊥ };

    fn try_clone(&self) -> Result<Self, NoMemory> {
        IflaVlanFlags::try_clone(self)
    }
}

impl FixedHeader for IflaVlanFlags {
    ghost width = { 2 };

    ghost bytes_of = { ifla_vlan_flags_bytes };

    ghost header_of = { ifla_vlan_flags_header };

    ghost IsPlain = { IsPlainIflaVlanFlags };

    ghost width_is = { ifla_vlan_flags-width };

    ghost reads_back = { ifla_vlan_flags-reads_back };

    ghost writes_back = { ifla_vlan_flags-writes_back };

    fn size() -> usize {
        2
    }

    fn spell(&self) -> HeaderBytes {
        HeaderBytes::new()
            .u8(self.flags.to_wire())
            .u8(self.mask.to_wire())
    }

    fn from_spelling(bytes: &[u8]) -> IflaVlanFlags {
        IflaVlanFlags {
            flags: VlanFlags::from_wire(u8_in(bytes, 0)),
            mask: VlanFlags::from_wire(u8_in(bytes, 1)),
        }
    }
}

impl Size for IflaVlanFlags {
    ghost unpadded_length = { λ _. 2 };

    ghost wire_length = { λ _. 2 };

    ghost rounded = { unpadded-rounded (λ _. 2) };

    fn unpadded_size(&self) -> usize {
        <IflaVlanFlags as FixedHeader>::size()
    }

    fn written_size(&self) -> usize {
        <IflaVlanFlags as FixedHeader>::size()
    }
}

impl ToBytes for IflaVlanFlags {
    ghost wire = { λ v. Ok (ifla_vlan_flags_bytes v) };

    ghost length_is = { λ v bytes e.
        written-length (ifla_vlan_flags_bytes v) bytes 2 (ifla_vlan_flags-width v) e };

    ghost zeros_after = { λ v bytes e. unpadded-zeros 2 bytes
        (written-length (ifla_vlan_flags_bytes v) bytes 2 (ifla_vlan_flags-width v) e) };

    ghost no_memory = { λ v. written-no_memory (ifla_vlan_flags_bytes v) };

    fn to_bytes(&self, buffer: &mut Vec<u8>) -> Result<(), SerError> {
        write_fixed(self, buffer)
    }
}

impl FromBytes for IflaVlanFlags {
    ghost use Rattle.neli_rtnl.specs.declared.ifla_vlan_flags.IflaVlanFlags.{IflaVlanFlags as Fields};

    ghost Value = { Fields };

    ghost view = { λ v. v };

    ghost read = { value_at 2 ifla_vlan_flags_header };

    ghost takes_memory = { λ _. ⊥ };

    ghost local = { value_at-local 2 ifla_vlan_flags_header };

    ghost no_memory = { value_at-no_memory 2 ifla_vlan_flags_header };

    fn from_bytes(_alloc: Global, cursor: &mut Cursor<'_>) -> Result<IflaVlanFlags, DeError> {
        read_fixed(cursor)
    }
}

/// Why no pair of flags was built.
pub type IflaVlanFlagsBuilderError = BuildError<{ of::IFLA_VLAN_FLAGS }>;

/// A builder of flags of virtual LANs.
#[derive(Debug, Drop)]
pub struct IflaVlanFlagsBuilder {
    flags: Option<VlanFlags>,
    mask: Option<VlanFlags>,
}

impl Default for IflaVlanFlagsBuilder {
    ghost is_default = { λ b. b ≡ record { flags = None; mask = None } };

    fn default() -> Self {
        IflaVlanFlagsBuilder {
            flags: None,
            mask: None,
        }
    }
}

impl IflaVlanFlagsBuilder {
    /// The flags.
    pub fn flags(mut self, value: VlanFlags) -> Self
        ensures { result ≡ record self { flags = Some value } }
    {
        self.flags = Some(value);
        self
    }

    /// The mask: which flags count.
    pub fn mask(mut self, value: VlanFlags) -> Self
        ensures { result ≡ record self { mask = Some value } }
    {
        self.mask = Some(value);
        self
    }

    /// Builds the pair of flags. It takes no memory.
    ///
    /// Refused if a field is missing; the error names the first such field.
    pub fn build(self) -> Result<IflaVlanFlags, IflaVlanFlagsBuilderError>
        ensures built { IfOk result (λ m. ifla_vlan_flags_built self ≡ Ok m) }
        ensures refused { IfErr result (λ e. (e ≡ BuildError.Memory → ⊥)
            × IsWhyNot (ifla_vlan_flags_built self) e) }
    {
        Ok(IflaVlanFlags {
            flags: self.flags.ok_or(UninitializedFieldError::new("flags"))?,
            mask: self.mask.ok_or(UninitializedFieldError::new("mask"))?,
        })
    }
}
