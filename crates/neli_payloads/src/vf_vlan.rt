//! The VLAN of a virtual function.

ghost use Rattle.std.specs.Prelude.{◌≡◌, Ok};
ghost use Rattle.neli_wire.specs.Reading.{value_at};
ghost use Rattle.neli_wire.specs.laws.Reading.{value_at-local, value_at-no_memory};
ghost use Rattle.neli_wire.specs.laws.Sizes.{unpadded-rounded, unpadded-zeros};
ghost use Rattle.neli_wire.specs.laws.Writing.{written-length, written-no_memory};
ghost use Rattle.neli_payloads.specs.VfVlan.{IsPlainVfVlan, vf_vlan_bytes, vf_vlan_header};
ghost use Rattle.neli_payloads.specs.laws.VfVlan.{vf_vlan-reads_back, vf_vlan-width, vf_vlan-writes_back};

use neli_body::numbers::u32_in;
use neli_body::{FixedHeader, HeaderBytes, read_fixed, write_fixed};
use neli_wire::{Cursor, DeError, FromBytes, SerError, Size, ToBytes};
use std::alloc::Global;

/// The VLAN of a virtual function: `struct ifla_vf_vlan` of `linux/if_link.h`, 12 bytes, the payload of
/// `IflaVf::Vlan`.
#[derive(Clone, Copy, Debug, PartialEq, Eq)]
pub struct VfVlan {
    /// The number of the virtual function.
    pub vf: u32,
    /// The number of the VLAN, up to 4095; 0 is none.
    pub vlan: u32,
    /// The priority in the tag, up to 7.
    pub qos: u32,
}

impl FixedHeader for VfVlan {
    ghost width = { 12 };

    ghost bytes_of = { vf_vlan_bytes };

    ghost header_of = { vf_vlan_header };

    ghost IsPlain = { IsPlainVfVlan };

    ghost width_is = { vf_vlan-width };

    ghost reads_back = { vf_vlan-reads_back };

    ghost writes_back = { vf_vlan-writes_back };

    fn size() -> usize {
        12
    }

    fn spell(&self) -> HeaderBytes {
        HeaderBytes::new().u32(self.vf).u32(self.vlan).u32(self.qos)
    }

    fn from_spelling(bytes: &[u8]) -> VfVlan {
        VfVlan {
            vf: u32_in(bytes, 0),
            vlan: u32_in(bytes, 4),
            qos: u32_in(bytes, 8),
        }
    }
}

impl Size for VfVlan {
    ghost unpadded_length = { λ _. 12 };

    ghost wire_length = { λ _. 12 };

    ghost rounded = { unpadded-rounded (λ _. 12) };

    fn unpadded_size(&self) -> usize {
        <VfVlan as FixedHeader>::size()
    }

    fn written_size(&self) -> usize {
        <VfVlan as FixedHeader>::size()
    }
}

impl ToBytes for VfVlan {
    ghost wire = { λ v. Ok (vf_vlan_bytes v) };

    ghost length_is = { λ v bytes e.
        written-length (vf_vlan_bytes v) bytes 12 (vf_vlan-width v) e };

    ghost zeros_after = { λ v bytes e. unpadded-zeros 12 bytes
        (written-length (vf_vlan_bytes v) bytes 12 (vf_vlan-width v) e) };

    ghost no_memory = { λ v. written-no_memory (vf_vlan_bytes v) };

    fn to_bytes(&self, buffer: &mut Vec<u8>) -> Result<(), SerError> {
        write_fixed(self, buffer)
    }
}

impl FromBytes for VfVlan {
    ghost use Rattle.neli_payloads.specs.declared.vf_vlan.VfVlan.{VfVlan as Fields};

    ghost Value = { Fields };

    ghost view = { λ v. v };

    ghost read = { value_at 12 vf_vlan_header };

    ghost takes_memory = { λ _. ⊥ };

    ghost local = { value_at-local 12 vf_vlan_header };

    ghost no_memory = { value_at-no_memory 12 vf_vlan_header };

    fn from_bytes(_alloc: Global, cursor: &mut Cursor<'_>) -> Result<VfVlan, DeError> {
        read_fixed(cursor)
    }
}
