//! The cache entry of a route.

ghost use Rattle.std.specs.Prelude.{◌≡◌, Ok};
ghost use Rattle.neli_wire.specs.Reading.{value_at};
ghost use Rattle.neli_wire.specs.laws.Reading.{value_at-local, value_at-no_memory};
ghost use Rattle.neli_wire.specs.laws.Sizes.{unpadded-rounded, unpadded-zeros};
ghost use Rattle.neli_wire.specs.laws.Writing.{written-length, written-no_memory};
ghost use Rattle.neli_payloads.specs.RtaCacheinfo.{IsPlainRtaCacheinfo, rta_cacheinfo_bytes, rta_cacheinfo_header};
ghost use Rattle.neli_payloads.specs.laws.RtaCacheinfo.{rta_cacheinfo-reads_back, rta_cacheinfo-width};
ghost use Rattle.neli_payloads.specs.laws.RtaCacheinfo.{rta_cacheinfo-writes_back};

use neli_body::numbers::{i32_in, u32_in};
use neli_body::{FixedHeader, HeaderBytes, read_fixed, write_fixed};
use neli_wire::{Cursor, DeError, FromBytes, SerError, Size, ToBytes};
use std::alloc::Global;

/// The cache entry of a route: `struct rta_cacheinfo` of `linux/rtnetlink.h`, 32 bytes, the payload of
/// `Rta::Cacheinfo`.
#[derive(Clone, Copy, Debug, PartialEq, Eq)]
pub struct RtaCacheinfo {
    /// The number of references to it.
    pub rta_clntref: u32,
    /// How long ago it was last used, in ticks of the clock that `sysconf(_SC_CLK_TCK)` counts.
    pub rta_lastuse: u32,
    /// The number of such ticks until it expires; 0 if it does not expire, and negative if it has.
    pub rta_expires: i32,
    /// The error that refuses its packets, or 0: a kernel writes the negated number, in two's complement.
    pub rta_error: u32,
    /// How often it was used.
    pub rta_used: u32,
    /// A number of IPv4 that kernels no longer set.
    pub rta_id: u32,
    /// A time stamp of TCP that kernels no longer set.
    pub rta_ts: u32,
    /// The age of that time stamp, no longer set either.
    pub rta_tsage: u32,
}

impl FixedHeader for RtaCacheinfo {
    ghost width = { 32 };

    ghost bytes_of = { rta_cacheinfo_bytes };

    ghost header_of = { rta_cacheinfo_header };

    ghost IsPlain = { IsPlainRtaCacheinfo };

    ghost width_is = { rta_cacheinfo-width };

    ghost reads_back = { rta_cacheinfo-reads_back };

    ghost writes_back = { rta_cacheinfo-writes_back };

    fn size() -> usize {
        32
    }

    fn spell(&self) -> HeaderBytes {
        HeaderBytes::new()
            .u32(self.rta_clntref)
            .u32(self.rta_lastuse)
            .i32(self.rta_expires)
            .u32(self.rta_error)
            .u32(self.rta_used)
            .u32(self.rta_id)
            .u32(self.rta_ts)
            .u32(self.rta_tsage)
    }

    fn from_spelling(bytes: &[u8]) -> RtaCacheinfo {
        RtaCacheinfo {
            rta_clntref: u32_in(bytes, 0),
            rta_lastuse: u32_in(bytes, 4),
            rta_expires: i32_in(bytes, 8),
            rta_error: u32_in(bytes, 12),
            rta_used: u32_in(bytes, 16),
            rta_id: u32_in(bytes, 20),
            rta_ts: u32_in(bytes, 24),
            rta_tsage: u32_in(bytes, 28),
        }
    }
}

impl Size for RtaCacheinfo {
    ghost unpadded_length = { λ _. 32 };

    ghost wire_length = { λ _. 32 };

    ghost rounded = { unpadded-rounded (λ _. 32) };

    fn unpadded_size(&self) -> usize {
        <RtaCacheinfo as FixedHeader>::size()
    }

    fn written_size(&self) -> usize {
        <RtaCacheinfo as FixedHeader>::size()
    }
}

impl ToBytes for RtaCacheinfo {
    ghost wire = { λ v. Ok (rta_cacheinfo_bytes v) };

    ghost length_is = { λ v bytes e.
        written-length (rta_cacheinfo_bytes v) bytes 32 (rta_cacheinfo-width v) e };

    ghost zeros_after = { λ v bytes e. unpadded-zeros 32 bytes
        (written-length (rta_cacheinfo_bytes v) bytes 32 (rta_cacheinfo-width v) e) };

    ghost no_memory = { λ v. written-no_memory (rta_cacheinfo_bytes v) };

    fn to_bytes(&self, buffer: &mut Vec<u8>) -> Result<(), SerError> {
        write_fixed(self, buffer)
    }
}

impl FromBytes for RtaCacheinfo {
    ghost use Rattle.neli_payloads.specs.declared.rta_cacheinfo.RtaCacheinfo.{RtaCacheinfo as Fields};

    ghost Value = { Fields };

    ghost view = { λ v. v };

    ghost read = { value_at 32 rta_cacheinfo_header };

    ghost takes_memory = { λ _. ⊥ };

    ghost local = { value_at-local 32 rta_cacheinfo_header };

    ghost no_memory = { value_at-no_memory 32 rta_cacheinfo_header };

    fn from_bytes(_alloc: Global, cursor: &mut Cursor<'_>) -> Result<RtaCacheinfo, DeError> {
        read_fixed(cursor)
    }
}
