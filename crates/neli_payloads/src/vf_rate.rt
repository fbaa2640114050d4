//! The rates of a virtual function.

ghost use Rattle.std.specs.Prelude.{◌≡◌, Ok};
ghost use Rattle.neli_wire.specs.Reading.{value_at};
ghost use Rattle.neli_wire.specs.laws.Reading.{value_at-local, value_at-no_memory};
ghost use Rattle.neli_wire.specs.laws.Sizes.{unpadded-rounded, unpadded-zeros};
ghost use Rattle.neli_wire.specs.laws.Writing.{written-length, written-no_memory};
ghost use Rattle.neli_payloads.specs.VfRate.{IsPlainVfRate, vf_rate_bytes, vf_rate_header};
ghost use Rattle.neli_payloads.specs.laws.VfRate.{vf_rate-reads_back, vf_rate-width, vf_rate-writes_back};

use neli_body::numbers::u32_in;
use neli_body::{FixedHeader, HeaderBytes, read_fixed, write_fixed};
use neli_wire::{Cursor, DeError, FromBytes, SerError, Size, ToBytes};
use std::alloc::Global;

/// The rates of a virtual function: `struct ifla_vf_rate` of `linux/if_link.h`, 12 bytes, the payload of
/// `IflaVf::Rate`.
#[derive(Clone, Copy, Debug, PartialEq, Eq)]
pub struct VfRate {
    /// The number of the virtual function.
    pub vf: u32,
    /// The rate that it is guaranteed, in Mbit/s; 0 is no guarantee.
    pub min_tx_rate: u32,
    /// The greatest rate that it may send at, in Mbit/s; 0 is no limit.
    pub max_tx_rate: u32,
}

impl FixedHeader for VfRate {
    ghost width = { 12 };

    ghost bytes_of = { vf_rate_bytes };

    ghost header_of = { vf_rate_header };

    ghost IsPlain = { IsPlainVfRate };

    ghost width_is = { vf_rate-width };

    ghost reads_back = { vf_rate-reads_back };

    ghost writes_back = { vf_rate-writes_back };

    fn size() -> usize {
        12
    }

    fn spell(&self) -> HeaderBytes {
        HeaderBytes::new()
            .u32(self.vf)
            .u32(self.min_tx_rate)
            .u32(self.max_tx_rate)
    }

    fn from_spelling(bytes: &[u8]) -> VfRate {
        VfRate {
            vf: u32_in(bytes, 0),
            min_tx_rate: u32_in(bytes, 4),
            max_tx_rate: u32_in(bytes, 8),
        }
    }
}

impl Size for VfRate {
    ghost unpadded_length = { λ _. 12 };

    ghost wire_length = { λ _. 12 };

    ghost rounded = { unpadded-rounded (λ _. 12) };

    fn unpadded_size(&self) -> usize {
        <VfRate as FixedHeader>::size()
    }

    fn written_size(&self) -> usize {
        <VfRate as FixedHeader>::size()
    }
}

impl ToBytes for VfRate {
    ghost wire = { λ v. Ok (vf_rate_bytes v) };

    ghost length_is = { λ v bytes e.
        written-length (vf_rate_bytes v) bytes 12 (vf_rate-width v) e };

    ghost zeros_after = { λ v bytes e. unpadded-zeros 12 bytes
        (written-length (vf_rate_bytes v) bytes 12 (vf_rate-width v) e) };

    ghost no_memory = { λ v. written-no_memory (vf_rate_bytes v) };

    fn to_bytes(&self, buffer: &mut Vec<u8>) -> Result<(), SerError> {
        write_fixed(self, buffer)
    }
}

impl FromBytes for VfRate {
    ghost use Rattle.neli_payloads.specs.declared.vf_rate.VfRate.{VfRate as Fields};

    ghost Value = { Fields };

    ghost view = { λ v. v };

    ghost read = { value_at 12 vf_rate_header };

    ghost takes_memory = { λ _. ⊥ };

    ghost local = { value_at-local 12 vf_rate_header };

    ghost no_memory = { value_at-no_memory 12 vf_rate_header };

    fn from_bytes(_alloc: Global, cursor: &mut Cursor<'_>) -> Result<VfRate, DeError> {
        read_fixed(cursor)
    }
}
