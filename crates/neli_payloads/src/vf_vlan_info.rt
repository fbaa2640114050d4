//! The VLAN of a virtual function, with its protocol.

ghost use Rattle.std.specs.Prelude.{◌≡◌, Ok};
ghost use Rattle.neli_wire.specs.Reading.{value_at};
ghost use Rattle.neli_wire.specs.laws.Reading.{value_at-local, value_at-no_memory};
ghost use Rattle.neli_wire.specs.laws.Sizes.{unpadded-rounded, unpadded-zeros};
ghost use Rattle.neli_wire.specs.laws.Writing.{written-length, written-no_memory};
ghost use Rattle.neli_payloads.specs.VfVlanInfo.{IsPlainVfVlanInfo, vf_vlan_info_bytes, vf_vlan_info_header};
ghost use Rattle.neli_payloads.specs.laws.VfVlanInfo.{vf_vlan_info-reads_back, vf_vlan_info-width};
ghost use Rattle.neli_payloads.specs.laws.VfVlanInfo.{vf_vlan_info-writes_back};

use byteorder::{BigEndian, ByteOrder};
use neli_body::numbers::{u16_in, u32_in};
use neli_body::{FixedHeader, HeaderBytes, read_fixed, write_fixed};
use neli_wire::{Cursor, DeError, FromBytes, SerError, Size, ToBytes};
use std::alloc::Global;

/// The VLAN of a virtual function, with its protocol: `struct ifla_vf_vlan_info` of `linux/if_link.h`, 16 bytes, the
/// payload of the attributes in `IflaVf::VlanList`. The last two bytes have no meaning and are kept as they were read.
#[derive(Clone, Copy, Debug, PartialEq, Eq)]
pub struct VfVlanInfo {
    /// The number of the virtual function.
    pub vf: u32,
    /// The number of the VLAN, up to 4095; 0 is none.
    pub vlan: u32,
    /// The priority in the tag, up to 7.
    pub qos: u32,
    /// The type of Ethernet frame that carries the tag: 0x8100 is 802.1Q, 0x88a8 is 802.1ad. Its highest byte stands
    /// first in the bytes.
    pub vlan_proto: u16,
    padding: u16,
}

impl VfVlanInfo {
    /// The VLAN of a virtual function; the bytes without a meaning are 0.
    pub fn new(vf: u32, vlan: u32, qos: u32, vlan_proto: u16) -> VfVlanInfo
        ensures vf { result.vf ≡ vf }
        ensures vlan { result.vlan ≡ vlan }
        ensures qos { result.qos ≡ qos }
        ensures vlan_proto { result.vlan_proto ≡ vlan_proto }
        ensures padding { result.padding ≡ 0 }
    {
        VfVlanInfo {
            vf,
            vlan,
            qos,
            vlan_proto,
            padding: 0,
        }
    }
}

impl FixedHeader for VfVlanInfo {
    ghost width = { 16 };

    ghost bytes_of = { vf_vlan_info_bytes };

    ghost header_of = { vf_vlan_info_header };

    ghost IsPlain = { IsPlainVfVlanInfo };

    ghost width_is = { vf_vlan_info-width };

    ghost reads_back = { vf_vlan_info-reads_back };

    ghost writes_back = { vf_vlan_info-writes_back };

    fn size() -> usize {
        16
    }

    fn spell(&self) -> HeaderBytes {
        HeaderBytes::new()
            .u32(self.vf)
            .u32(self.vlan)
            .u32(self.qos)
            .bytes(&self.vlan_proto.to_be_bytes())
            .u16(self.padding)
    }

    fn from_spelling(bytes: &[u8]) -> VfVlanInfo {
        VfVlanInfo {
            vf: u32_in(bytes, 0),
            vlan: u32_in(bytes, 4),
            qos: u32_in(bytes, 8),
            vlan_proto: BigEndian::read_u16(&bytes[12..]),
            padding: u16_in(bytes, 14),
        }
    }
}

impl Size for VfVlanInfo {
    ghost unpadded_length = { λ _. 16 };

    ghost wire_length = { λ _. 16 };

    ghost rounded = { unpadded-rounded (λ _. 16) };

    fn unpadded_size(&self) -> usize {
        <VfVlanInfo as FixedHeader>::size()
    }

    fn written_size(&self) -> usize {
        <VfVlanInfo as FixedHeader>::size()
    }
}

impl ToBytes for VfVlanInfo {
    ghost wire = { λ v. Ok (vf_vlan_info_bytes v) };

    ghost length_is = { λ v bytes e.
        written-length (vf_vlan_info_bytes v) bytes 16 (vf_vlan_info-width v) e };

    ghost zeros_after = { λ v bytes e. unpadded-zeros 16 bytes
        (written-length (vf_vlan_info_bytes v) bytes 16 (vf_vlan_info-width v) e) };

    ghost no_memory = { λ v. written-no_memory (vf_vlan_info_bytes v) };

    fn to_bytes(&self, buffer: &mut Vec<u8>) -> Result<(), SerError> {
        write_fixed(self, buffer)
    }
}

impl FromBytes for VfVlanInfo {
    ghost use Rattle.neli_payloads.specs.declared.vf_vlan_info.VfVlanInfo.{VfVlanInfo as Fields};

    ghost Value = { Fields };

    ghost view = { λ v. v };

    ghost read = { value_at 16 vf_vlan_info_header };

    ghost takes_memory = { λ _. ⊥ };

    ghost local = { value_at-local 16 vf_vlan_info_header };

    ghost no_memory = { value_at-no_memory 16 vf_vlan_info_header };

    fn from_bytes(_alloc: Global, cursor: &mut Cursor<'_>) -> Result<VfVlanInfo, DeError> {
        read_fixed(cursor)
    }
}
