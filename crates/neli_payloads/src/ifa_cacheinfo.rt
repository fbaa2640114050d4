//! The lifetimes of an address.

ghost use Rattle.std.specs.Prelude.{◌≡◌, Ok};
ghost use Rattle.neli_wire.specs.Reading.{value_at};
ghost use Rattle.neli_wire.specs.laws.Reading.{value_at-local, value_at-no_memory};
ghost use Rattle.neli_wire.specs.laws.Sizes.{unpadded-rounded, unpadded-zeros};
ghost use Rattle.neli_wire.specs.laws.Writing.{written-length, written-no_memory};
ghost use Rattle.neli_payloads.specs.IfaCacheinfo.{IsPlainIfaCacheinfo, ifa_cacheinfo_bytes, ifa_cacheinfo_header};
ghost use Rattle.neli_payloads.specs.laws.IfaCacheinfo.{ifa_cacheinfo-reads_back, ifa_cacheinfo-width};
ghost use Rattle.neli_payloads.specs.laws.IfaCacheinfo.{ifa_cacheinfo-writes_back};

use neli_body::numbers::u32_in;
use neli_body::{FixedHeader, HeaderBytes, read_fixed, write_fixed};
use neli_wire::{Cursor, DeError, FromBytes, SerError, Size, ToBytes};
use std::alloc::Global;

/// The lifetimes of an address: `struct ifa_cacheinfo` of `linux/if_addr.h`, 16 bytes, the payload of `Ifa::Cacheinfo`.
/// A lifetime of `u32::MAX` has no end.
#[derive(Clone, Copy, Debug, PartialEq, Eq)]
pub struct IfaCacheinfo {
    /// How many seconds longer it is preferred.
    pub ifa_prefered: u32,
    /// How many seconds longer it is valid.
    pub ifa_valid: u32,
    /// When it was made, in hundredths of a second since the machine started.
    pub cstamp: u32,
    /// When it was last changed, in hundredths of a second since the machine started.
    pub tstamp: u32,
}

impl FixedHeader for IfaCacheinfo {
    ghost width = { 16 };

    ghost bytes_of = { ifa_cacheinfo_bytes };

    ghost header_of = { ifa_cacheinfo_header };

    ghost IsPlain = { IsPlainIfaCacheinfo };

    ghost width_is = { ifa_cacheinfo-width };

    ghost reads_back = { ifa_cacheinfo-reads_back };

    ghost writes_back = { ifa_cacheinfo-writes_back };

    fn size() -> usize {
        16
    }

    fn spell(&self) -> HeaderBytes {
        HeaderBytes::new()
            .u32(self.ifa_prefered)
            .u32(self.ifa_valid)
            .u32(self.cstamp)
            .u32(self.tstamp)
    }

    fn from_spelling(bytes: &[u8]) -> IfaCacheinfo {
        IfaCacheinfo {
            ifa_prefered: u32_in(bytes, 0),
            ifa_valid: u32_in(bytes, 4),
            cstamp: u32_in(bytes, 8),
            tstamp: u32_in(bytes, 12),
        }
    }
}

impl Size for IfaCacheinfo {
    ghost unpadded_length = { λ _. 16 };

    ghost wire_length = { λ _. 16 };

    ghost rounded = { unpadded-rounded (λ _. 16) };

    fn unpadded_size(&self) -> usize {
        <IfaCacheinfo as FixedHeader>::size()
    }

    fn written_size(&self) -> usize {
        <IfaCacheinfo as FixedHeader>::size()
    }
}

impl ToBytes for IfaCacheinfo {
    ghost wire = { λ v. Ok (ifa_cacheinfo_bytes v) };

    ghost length_is = { λ v bytes e.
        written-length (ifa_cacheinfo_bytes v) bytes 16 (ifa_cacheinfo-width v) e };

    ghost zeros_after = { λ v bytes e. unpadded-zeros 16 bytes
        (written-length (ifa_cacheinfo_bytes v) bytes 16 (ifa_cacheinfo-width v) e) };

    ghost no_memory = { λ v. written-no_memory (ifa_cacheinfo_bytes v) };

    fn to_bytes(&self, buffer: &mut Vec<u8>) -> Result<(), SerError> {
        write_fixed(self, buffer)
    }
}

impl FromBytes for IfaCacheinfo {
    ghost use Rattle.neli_payloads.specs.declared.ifa_cacheinfo.IfaCacheinfo.{IfaCacheinfo as Fields};

    ghost Value = { Fields };

    ghost view = { λ v. v };

    ghost read = { value_at 16 ifa_cacheinfo_header };

    ghost takes_memory = { λ _. ⊥ };

    ghost local = { value_at-local 16 ifa_cacheinfo_header };

    ghost no_memory = { value_at-no_memory 16 ifa_cacheinfo_header };

    fn from_bytes(_alloc: Global, cursor: &mut Cursor<'_>) -> Result<IfaCacheinfo, DeError> {
        read_fixed(cursor)
    }
}
