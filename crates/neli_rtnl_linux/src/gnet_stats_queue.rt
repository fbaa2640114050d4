//! The state of a queue.

ghost use Rattle.std.specs.Prelude.{◌≡◌, Ok};
ghost use Rattle.neli_wire.specs.Reading.{value_at};
ghost use Rattle.neli_wire.specs.laws.Reading.{value_at-local, value_at-no_memory};
ghost use Rattle.neli_wire.specs.laws.Sizes.{unpadded-rounded, unpadded-zeros};
ghost use Rattle.neli_wire.specs.laws.Writing.{written-length, written-no_memory};
ghost use Rattle.neli_rtnl_linux.specs.GnetStatsQueue.{IsPlainGnetStatsQueue, gnet_stats_queue_bytes};
ghost use Rattle.neli_rtnl_linux.specs.GnetStatsQueue.{gnet_stats_queue_header};
ghost use Rattle.neli_rtnl_linux.specs.laws.GnetStatsQueue.{gnet_stats_queue-reads_back, gnet_stats_queue-width};
ghost use Rattle.neli_rtnl_linux.specs.laws.GnetStatsQueue.{gnet_stats_queue-writes_back};

use neli_body::numbers::u32_in;
use neli_body::{FixedHeader, HeaderBytes, read_fixed, write_fixed};
use neli_wire::{Cursor, DeError, FromBytes, SerError, Size, ToBytes};
use std::alloc::Global;

/// A queue: `struct gnet_stats_queue` of `linux/gen_stats.h`, 20 bytes, the payload of `TcaStats::Queue`.
#[derive(Clone, Copy, Debug, PartialEq, Eq)]
pub struct GnetStatsQueue {
    /// The packets that wait.
    pub qlen: u32,
    /// The bytes that wait.
    pub backlog: u32,
    /// The packets that were dropped.
    pub drops: u32,
    /// The packets that were put back.
    pub requeues: u32,
    /// How often a packet came when the limit was reached.
    pub overlimits: u32,
}

impl FixedHeader for GnetStatsQueue {
    ghost width = { 20 };

    ghost bytes_of = { gnet_stats_queue_bytes };

    ghost header_of = { gnet_stats_queue_header };

    ghost IsPlain = { IsPlainGnetStatsQueue };

    ghost width_is = { gnet_stats_queue-width };

    ghost reads_back = { gnet_stats_queue-reads_back };

    ghost writes_back = { gnet_stats_queue-writes_back };

    fn size() -> usize {
        20
    }

    fn spell(&self) -> HeaderBytes {
        HeaderBytes::new()
            .u32(self.qlen)
            .u32(self.backlog)
            .u32(self.drops)
            .u32(self.requeues)
            .u32(self.overlimits)
    }

    fn from_spelling(bytes: &[u8]) -> GnetStatsQueue {
        GnetStatsQueue {
            qlen: u32_in(bytes, 0),
            backlog: u32_in(bytes, 4),
            drops: u32_in(bytes, 8),
            requeues: u32_in(bytes, 12),
            overlimits: u32_in(bytes, 16),
        }
    }
}

impl Size for GnetStatsQueue {
    ghost unpadded_length = { λ _. 20 };

    ghost wire_length = { λ _. 20 };

    ghost rounded = { unpadded-rounded (λ _. 20) };

    fn unpadded_size(&self) -> usize {
        <GnetStatsQueue as FixedHeader>::size()
    }

    fn written_size(&self) -> usize {
        <GnetStatsQueue as FixedHeader>::size()
    }
}

impl ToBytes for GnetStatsQueue {
    ghost wire = { λ v. Ok (gnet_stats_queue_bytes v) };

    ghost length_is = { λ v bytes e.
        written-length (gnet_stats_queue_bytes v) bytes 20 (gnet_stats_queue-width v) e };

    ghost zeros_after = { λ v bytes e. unpadded-zeros 20 bytes
        (written-length (gnet_stats_queue_bytes v) bytes 20 (gnet_stats_queue-width v) e) };

    ghost no_memory = { λ v. written-no_memory (gnet_stats_queue_bytes v) };

    fn to_bytes(&self, buffer: &mut Vec<u8>) -> Result<(), SerError> {
        write_fixed(self, buffer)
    }
}

impl FromBytes for GnetStatsQueue {
    ghost use Rattle.neli_rtnl_linux.specs.declared.gnet_stats_queue.GnetStatsQueue.{GnetStatsQueue as Fields};

    ghost Value = { Fields };

    ghost view = { λ v. v };

    ghost read = { value_at 20 gnet_stats_queue_header };

    ghost takes_memory = { λ _. ⊥ };

    ghost local = { value_at-local 20 gnet_stats_queue_header };

    ghost no_memory = { value_at-no_memory 20 gnet_stats_queue_header };

    fn from_bytes(_alloc: Global, cursor: &mut Cursor<'_>) -> Result<GnetStatsQueue, DeError> {
        read_fixed(cursor)
    }
}
