//! The counters of a link.

ghost use Rattle.std.specs.Prelude.{◌≡◌, ◌≤◌, ◌+◌, Ok};
ghost use Rattle.neli_payloads.specs.LinkStats64.{count_at, link_stats64_of};
ghost use Rattle.neli_payloads.specs.laws.LinkStats64.{link_stats64-never_short, link_stats64-no_memory};

use neli_body::numbers::u64_in;
use neli_wire::{Cursor, DeError, FromBytesWithInput};
use std::alloc::Global;

/// The counters of a link: `struct rtnl_link_stats64` of `linux/if_link.h`, the payload of `Ifla::Stats64`. It is 25
/// numbers of 64 bits, 200 bytes, in Linux 6.1; older kernels send fewer, and newer ones may send more.
///
/// It is read and not written. A field whose eight bytes are not all there is 0, and bytes after the 25 numbers are
/// skipped.
#[derive(Clone, Copy, Debug, PartialEq, Eq)]
pub struct LinkStats64 {
    /// Packets received without an error.
    pub rx_packets: u64,
    /// Packets sent without an error.
    pub tx_packets: u64,
    /// Bytes of the packets received.
    pub rx_bytes: u64,
    /// Bytes of the packets sent.
    pub tx_bytes: u64,
    /// Bad packets received.
    pub rx_errors: u64,
    /// Packets that were not sent because of an error.
    pub tx_errors: u64,
    /// Packets received and not processed, for lack of room or of a protocol.
    pub rx_dropped: u64,
    /// Packets dropped on their way out for lack of room.
    pub tx_dropped: u64,
    /// Multicast packets received.
    pub multicast: u64,
    /// Collisions while packets were sent.
    pub collisions: u64,
    /// Packets received with a wrong length.
    pub rx_length_errors: u64,
    /// Packets lost because the receiver's buffer was full.
    pub rx_over_errors: u64,
    /// Packets received with a wrong checksum.
    pub rx_crc_errors: u64,
    /// Packets received that do not end at a byte.
    pub rx_frame_errors: u64,
    /// Packets lost because the receiver's queue was full.
    pub rx_fifo_errors: u64,
    /// Packets that the host had no room for.
    pub rx_missed_errors: u64,
    /// Packets whose sending was given up.
    pub tx_aborted_errors: u64,
    /// Packets not sent for lack of a carrier.
    pub tx_carrier_errors: u64,
    /// Packets not sent because the sender's queue ran empty.
    pub tx_fifo_errors: u64,
    /// Packets sent without a heartbeat from an old transceiver.
    pub tx_heartbeat_errors: u64,
    /// Packets not sent because of late collisions.
    pub tx_window_errors: u64,
    /// Compressed packets received.
    pub rx_compressed: u64,
    /// Compressed packets sent.
    pub tx_compressed: u64,
    /// Packets dropped because the link is inactive.
    pub rx_nohandler: u64,
    /// Packets dropped because they were for another host.
    pub rx_otherhost_dropped: u64,
}

/// The number of eight bytes from this place on, the lowest first; 0 if they are not all there.
fn count_at(bytes: &[u8], place: usize) -> u64
    requires { place + 8 ≤ usize.MAX }
    ensures { result ≡ count_at place bytes.now }
{
    if place + 8 <= bytes.len() {
        u64_in(bytes, place)
    } else {
        0
    }
}

impl LinkStats64 {
    /// The counters in these bytes, however many there are.
    pub fn from_bytes(bytes: &[u8]) -> LinkStats64
        ensures { result ≡ link_stats64_of bytes.now }
    {
        LinkStats64 {
            rx_packets: count_at(bytes, 0),
            tx_packets: count_at(bytes, 8),
            rx_bytes: count_at(bytes, 16),
            tx_bytes: count_at(bytes, 24),
            rx_errors: count_at(bytes, 32),
            tx_errors: count_at(bytes, 40),
            rx_dropped: count_at(bytes, 48),
            tx_dropped: count_at(bytes, 56),
            multicast: count_at(bytes, 64),
            collisions: count_at(bytes, 72),
            rx_length_errors: count_at(bytes, 80),
            rx_over_errors: count_at(bytes, 88),
            rx_crc_errors: count_at(bytes, 96),
            rx_frame_errors: count_at(bytes, 104),
            rx_fifo_errors: count_at(bytes, 112),
            rx_missed_errors: count_at(bytes, 120),
            tx_aborted_errors: count_at(bytes, 128),
            tx_carrier_errors: count_at(bytes, 136),
            tx_fifo_errors: count_at(bytes, 144),
            tx_heartbeat_errors: count_at(bytes, 152),
            tx_window_errors: count_at(bytes, 160),
            rx_compressed: count_at(bytes, 168),
            tx_compressed: count_at(bytes, 176),
            rx_nohandler: count_at(bytes, 184),
            rx_otherhost_dropped: count_at(bytes, 192),
        }
    }
}

impl FromBytesWithInput for LinkStats64 {
    ghost use Rattle.neli_payloads.specs.declared.link_stats64.LinkStats64.{LinkStats64 as Fields};

    ghost Value = { Fields };

    ghost view = { λ v. v };

    ghost read = { λ s. Ok (link_stats64_of s) };

    ghost takes_memory = { λ _. ⊥ };

    ghost no_memory = { link_stats64-no_memory };

    ghost never_short = { link_stats64-never_short };

    /// Takes the next `n` bytes, whatever their number. It takes no memory.
    fn from_bytes_with_input(
        _alloc: Global,
        cursor: &mut Cursor<'_>,
        n: usize,
    ) -> Result<LinkStats64, DeError> {
        let stats = LinkStats64::from_bytes(cursor.input(n)?);
        cursor.advance(n);
        Ok(stats)
    }
}
