//! How much was sent.

ghost use Rattle.std.specs.Prelude.{◌≡◌, Ok};
ghost use Rattle.neli_wire.specs.Reading.{value_at};
ghost use Rattle.neli_wire.specs.laws.Reading.{value_at-local, value_at-no_memory};
ghost use Rattle.neli_wire.specs.laws.Sizes.{unpadded-rounded, unpadded-zeros};
ghost use Rattle.neli_wire.specs.laws.Writing.{written-length, written-no_memory};
ghost use Rattle.neli_rtnl_linux.specs.GnetStatsBasic.{IsPlainGnetStatsBasic, gnet_stats_basic_bytes};
ghost use Rattle.neli_rtnl_linux.specs.GnetStatsBasic.{gnet_stats_basic_header};
ghost use Rattle.neli_rtnl_linux.specs.laws.GnetStatsBasic.{gnet_stats_basic-reads_back, gnet_stats_basic-width};
ghost use Rattle.neli_rtnl_linux.specs.laws.GnetStatsBasic.{gnet_stats_basic-writes_back};

use neli_body::numbers::{u32_in, u64_in};
use neli_body::{FixedHeader, HeaderBytes, read_fixed, write_fixed};
use neli_wire::{Cursor, DeError, FromBytes, SerError, Size, ToBytes};
use std::alloc::Global;

/// Bytes and packets that were sent: `struct gnet_stats_basic` of `linux/gen_stats.h`, 16 bytes, the payload of
/// `TcaStats::Basic`. The last four bytes pad the structure; they have no meaning and are kept as they were read.
#[derive(Clone, Copy, Debug, PartialEq, Eq)]
pub struct GnetStatsBasic {
    /// The bytes.
    pub bytes: u64,
    /// The packets.
    pub packets: u32,
    padding: u32,
}

impl GnetStatsBasic {
    /// So many bytes and packets; the padding is 0.
    pub fn new(bytes: u64, packets: u32) -> GnetStatsBasic
        ensures bytes { result.bytes ≡ bytes }
        ensures packets { result.packets ≡ packets }
        ensures padding { result.padding ≡ 0 }
    {
        GnetStatsBasic {
            bytes,
            packets,
            padding: 0,
        }
    }
}

impl FixedHeader for GnetStatsBasic {
    ghost width = { 16 };

    ghost bytes_of = { gnet_stats_basic_bytes };

    ghost header_of = { gnet_stats_basic_header };

    ghost IsPlain = { IsPlainGnetStatsBasic };

    ghost width_is = { gnet_stats_basic-width };

    ghost reads_back = { gnet_stats_basic-reads_back };

    ghost writes_back = { gnet_stats_basic-writes_back };

    fn size() -> usize {
        16
    }

    fn spell(&self) -> HeaderBytes {
        HeaderBytes::new()
            .u64(self.bytes)
            .u32(self.packets)
            .u32(self.padding)
    }

    fn from_spelling(bytes: &[u8]) -> GnetStatsBasic {
        GnetStatsBasic {
            bytes: u64_in(bytes, 0),
            packets: u32_in(bytes, 8),
            padding: u32_in(bytes, 12),
        }
    }
}

impl Size for GnetStatsBasic {
    ghost unpadded_length = { λ _. 16 };

    ghost wire_length = { λ _. 16 };

    ghost rounded = { unpadded-rounded (λ _. 16) };

    fn unpadded_size(&self) -> usize {
        <GnetStatsBasic as FixedHeader>::size()
    }

    fn written_size(&self) -> usize {
        <GnetStatsBasic as FixedHeader>::size()
    }
}

impl ToBytes for GnetStatsBasic {
    ghost wire = { λ v. Ok (gnet_stats_basic_bytes v) };

    ghost length_is = { λ v bytes e.
        written-length (gnet_stats_basic_bytes v) bytes 16 (gnet_stats_basic-width v) e };

    ghost zeros_after = { λ v bytes e. unpadded-zeros 16 bytes
        (written-length (gnet_stats_basic_bytes v) bytes 16 (gnet_stats_basic-width v) e) };

    ghost no_memory = { λ v. written-no_memory (gnet_stats_basic_bytes v) };

    fn to_bytes(&self, buffer: &mut Vec<u8>) -> Result<(), SerError> {
        write_fixed(self, buffer)
    }
}

impl FromBytes for GnetStatsBasic {
    ghost use Rattle.neli_rtnl_linux.specs.declared.gnet_stats_basic.GnetStatsBasic.{GnetStatsBasic as Fields};

    ghost Value = { Fields };

    ghost view = { λ v. v };

    ghost read = { value_at 16 gnet_stats_basic_header };

    ghost takes_memory = { λ _. ⊥ };

    ghost local = { value_at-local 16 gnet_stats_basic_header };

    ghost no_memory = { value_at-no_memory 16 gnet_stats_basic_header };

    fn from_bytes(_alloc: Global, cursor: &mut Cursor<'_>) -> Result<GnetStatsBasic, DeError> {
        read_fixed(cursor)
    }
}
