//! An InfiniBand identity of a virtual function.

ghost use Rattle.std.specs.Prelude.{◌≡◌, Ok};
ghost use Rattle.neli_wire.specs.Reading.{value_at};
ghost use Rattle.neli_wire.specs.laws.Reading.{value_at-local, value_at-no_memory};
ghost use Rattle.neli_wire.specs.laws.Sizes.{unpadded-rounded, unpadded-zeros};
ghost use Rattle.neli_wire.specs.laws.Writing.{written-length, written-no_memory};
ghost use Rattle.neli_payloads.specs.VfGuid.{IsPlainVfGuid, vf_guid_bytes, vf_guid_header};
ghost use Rattle.neli_payloads.specs.laws.VfGuid.{vf_guid-reads_back, vf_guid-width, vf_guid-writes_back};

use neli_body::numbers::{u32_in, u64_in};
use neli_body::{FixedHeader, HeaderBytes, read_fixed, write_fixed};
use neli_wire::{Cursor, DeError, FromBytes, SerError, Size, ToBytes};
use std::alloc::Global;

/// An InfiniBand identity of a virtual function: `struct ifla_vf_guid` of `linux/if_link.h`, 16 bytes, the payload of
/// `IflaVf::IbNodeGuid` and `IflaVf::IbPortGuid`. The four bytes before the identity have no meaning, since a number of
/// 64 bits is aligned to 8; they are kept as they were read.
#[derive(Clone, Copy, Debug, PartialEq, Eq)]
pub struct VfGuid {
    /// The number of the virtual function.
    pub vf: u32,
    padding: u32,
    /// The identity of the node or of the port.
    pub guid: u64,
}

impl VfGuid {
    /// The identity of a virtual function; the bytes without a meaning are 0.
    pub fn new(vf: u32, guid: u64) -> VfGuid
        ensures vf { result.vf ≡ vf }
        ensures guid { result.guid ≡ guid }
        ensures padding { result.padding ≡ 0 }
    {
        VfGuid {
            vf,
            padding: 0,
            guid,
        }
    }
}

impl FixedHeader for VfGuid {
    ghost width = { 16 };

    ghost bytes_of = { vf_guid_bytes };

    ghost header_of = { vf_guid_header };

    ghost IsPlain = { IsPlainVfGuid };

    ghost width_is = { vf_guid-width };

    ghost reads_back = { vf_guid-reads_back };

    ghost writes_back = { vf_guid-writes_back };

    fn size() -> usize {
        16
    }

    fn spell(&self) -> HeaderBytes {
        HeaderBytes::new()
            .u32(self.vf)
            .u32(self.padding)
            .u64(self.guid)
    }

    fn from_spelling(bytes: &[u8]) -> VfGuid {
        VfGuid {
            vf: u32_in(bytes, 0),
            padding: u32_in(bytes, 4),
            guid: u64_in(bytes, 8),
        }
    }
}

impl Size for VfGuid {
    ghost unpadded_length = { λ _. 16 };

    ghost wire_length = { λ _. 16 };

    ghost rounded = { unpadded-rounded (λ _. 16) };

    fn unpadded_size(&self) -> usize {
        <VfGuid as FixedHeader>::size()
    }

    fn written_size(&self) -> usize {
        <VfGuid as FixedHeader>::size()
    }
}

impl ToBytes for VfGuid {
    ghost wire = { λ v. Ok (vf_guid_bytes v) };

    ghost length_is = { λ v bytes e.
        written-length (vf_guid_bytes v) bytes 16 (vf_guid-width v) e };

    ghost zeros_after = { λ v bytes e. unpadded-zeros 16 bytes
        (written-length (vf_guid_bytes v) bytes 16 (vf_guid-width v) e) };

    ghost no_memory = { λ v. written-no_memory (vf_guid_bytes v) };

    fn to_bytes(&self, buffer: &mut Vec<u8>) -> Result<(), SerError> {
        write_fixed(self, buffer)
    }
}

impl FromBytes for VfGuid {
    ghost use Rattle.neli_payloads.specs.declared.vf_guid.VfGuid.{VfGuid as Fields};

    ghost Value = { Fields };

    ghost view = { λ v. v };

    ghost read = { value_at 16 vf_guid_header };

    ghost takes_memory = { λ _. ⊥ };

    ghost local = { value_at-local 16 vf_guid_header };

    ghost no_memory = { value_at-no_memory 16 vf_guid_header };

    fn from_bytes(_alloc: Global, cursor: &mut Cursor<'_>) -> Result<VfGuid, DeError> {
        read_fixed(cursor)
    }
}
