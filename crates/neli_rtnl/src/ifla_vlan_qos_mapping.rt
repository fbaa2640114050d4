//! How a virtual LAN maps priorities.

ghost use Rattle.std.specs.Prelude.{◌≡◌, ◌+◌, Some, None, Ok, IfOk, IfErr};
ghost use Rattle.neli_wire.specs.Reading.{value_at};
ghost use Rattle.neli_wire.specs.laws.Reading.{value_at-local, value_at-no_memory};
ghost use Rattle.neli_wire.specs.laws.Sizes.{unpadded-rounded, unpadded-zeros};
ghost use Rattle.neli_wire.specs.laws.Writing.{written-length, written-no_memory};
ghost use Rattle.neli_attr.specs.Builders.{IsWhyNot};
ghost use Rattle.neli_rtnl.specs.IflaVlanQosMapping.{IsPlainIflaVlanQosMapping, ifla_vlan_qos_mapping_built, ifla_vlan_qos_mapping_bytes, ifla_vlan_qos_mapping_header};
ghost use Rattle.neli_rtnl.specs.laws.IflaVlanQosMapping.{ifla_vlan_qos_mapping-reads_back, ifla_vlan_qos_mapping-width, ifla_vlan_qos_mapping-writes_back};

use neli_attr::{BuildError, TryClone, of};
use neli_body::numbers::u32_in;
use neli_body::{FixedHeader, HeaderBytes, read_fixed, write_fixed};
use neli_wire::{
    Cursor, DeError, FromBytes, NoMemory, SerError, Size, ToBytes, UninitializedFieldError,
};
use std::alloc::Global;

/// How a virtual LAN maps a priority: `struct ifla_vlan_qos_mapping` of `linux/if_link.h`, 8 bytes, the payload of
/// `IflaVlanQos::Mapping`.
#[derive(Debug, Drop, PartialEq, Eq)]
pub struct IflaVlanQosMapping {
    from: u32,
    to: u32,
}

impl IflaVlanQosMapping {
    /// The priority that is mapped.
    pub fn from(&self) -> &u32
        ensures { result.now ≡ self.now.from }
    {
        &self.from
    }

    /// The priority that it becomes.
    pub fn to(&self) -> &u32
        ensures { result.now ≡ self.now.to }
    {
        &self.to
    }

    /// An equal mapping. It takes no memory.
    pub fn try_clone(&self) -> Result<Self, NoMemory>
        ensures { result ≡ Ok self.now }
    {
        Ok(IflaVlanQosMapping {
            from: self.from,
            to: self.to,
        })
    }
}

impl TryClone for IflaVlanQosMapping {
    ghost copy_takes_memory = { λ _. ⊥ };

    fn try_clone(&self) -> Result<Self, NoMemory> {
        IflaVlanQosMapping::try_clone(self)
    }
}

impl FixedHeader for IflaVlanQosMapping {
    ghost width = { 8 };

    ghost bytes_of = { ifla_vlan_qos_mapping_bytes };

    ghost header_of = { ifla_vlan_qos_mapping_header };

    ghost IsPlain = { IsPlainIflaVlanQosMapping };

    ghost width_is = { ifla_vlan_qos_mapping-width };

    ghost reads_back = { ifla_vlan_qos_mapping-reads_back };

    ghost writes_back = { ifla_vlan_qos_mapping-writes_back };

    fn size() -> usize {
        8
    }

    fn spell(&self) -> HeaderBytes {
        HeaderBytes::new().u32(self.from).u32(self.to)
    }

    fn from_spelling(bytes: &[u8]) -> IflaVlanQosMapping {
        IflaVlanQosMapping {
            from: u32_in(bytes, 0),
            to: u32_in(bytes, 4),
        }
    }
}

impl Size for IflaVlanQosMapping {
    ghost unpadded_length = { λ _. 8 };

    ghost wire_length = { λ _. 8 };

    ghost rounded = { unpadded-rounded (λ _. 8) };

    fn unpadded_size(&self) -> usize {
        <IflaVlanQosMapping as FixedHeader>::size()
    }

    fn written_size(&self) -> usize {
        <IflaVlanQosMapping as FixedHeader>::size()
    }
}

impl ToBytes for IflaVlanQosMapping {
    ghost wire = { λ v. Ok (ifla_vlan_qos_mapping_bytes v) };

    ghost length_is = { λ v bytes e.
        written-length (ifla_vlan_qos_mapping_bytes v) bytes 8 (ifla_vlan_qos_mapping-width v) e };

    ghost zeros_after = { λ v bytes e. unpadded-zeros 8 bytes
        (written-length (ifla_vlan_qos_mapping_bytes v) bytes 8
        (ifla_vlan_qos_mapping-width v) e) };

    ghost no_memory = { λ v. written-no_memory (ifla_vlan_qos_mapping_bytes v) };

    fn to_bytes(&self, buffer: &mut Vec<u8>) -> Result<(), SerError> {
        write_fixed(self, buffer)
    }
}

impl FromBytes for IflaVlanQosMapping {
    ghost use Rattle.neli_rtnl.specs.declared.ifla_vlan_qos_mapping.IflaVlanQosMapping.{IflaVlanQosMapping as Fields};

    ghost Value = { Fields };

    ghost view = { λ v. v };

    ghost read = { value_at 8 ifla_vlan_qos_mapping_header };

    ghost takes_memory = { λ _. ⊥ };

    ghost local = { value_at-local 8 ifla_vlan_qos_mapping_header };

    ghost no_memory = { value_at-no_memory 8 ifla_vlan_qos_mapping_header };

    fn from_bytes(_alloc: Global, cursor: &mut Cursor<'_>) -> Result<IflaVlanQosMapping, DeError> {
        read_fixed(cursor)
    }
}

/// Why no mapping of priorities was built.
pub type IflaVlanQosMappingBuilderError = BuildError<{ of::IFLA_VLAN_QOS_MAPPING }>;

/// A builder of mappings of priorities.
#[derive(Debug, Drop)]
pub struct IflaVlanQosMappingBuilder {
    from: Option<u32>,
    to: Option<u32>,
}

impl Default for IflaVlanQosMappingBuilder {
    ghost is_default = { λ b. b ≡ record { from = None; to = None } };

    fn default() -> Self {
        IflaVlanQosMappingBuilder {
            from: None,
            to: None,
        }
    }
}

impl IflaVlanQosMappingBuilder {
    /// The priority that is mapped.
    pub fn from(mut self, value: u32) -> Self
        ensures { result ≡ record self { from = Some value } }
    {
        self.from = Some(value);
        self
    }

    /// The priority that it becomes.
    pub fn to(mut self, value: u32) -> Self
        ensures { result ≡ record self { to = Some value } }
    {
        self.to = Some(value);
        self
    }

    /// Builds the mapping of priorities. It takes no memory.
    ///
    /// Refused if a field is missing; the error names the first such field.
    pub fn build(self) -> Result<IflaVlanQosMapping, IflaVlanQosMappingBuilderError>
        ensures built { IfOk result (λ m. ifla_vlan_qos_mapping_built self ≡ Ok m) }
        ensures refused { IfErr result (λ e. (e ≡ BuildError.Memory → ⊥)
            × IsWhyNot (ifla_vlan_qos_mapping_built self) e) }
    {
        Ok(IflaVlanQosMapping {
            from: self.from.ok_or(UninitializedFieldError::new("from"))?,
            to: self.to.ok_or(UninitializedFieldError::new("to"))?,
        })
    }
}
