//! A pcap file.
//!
//! ```text
//!  0       4       8       12      16      20      24
//!  +-------+-------+-------+-------+-------+-------+
//!  | magic | version       | zone  | snap  | link  |          the file's header
//!  +-------+-------+-------+-------+-------+-------+
//!  | seconds       | fraction | kept  | length |             a record's header
//!  +---------------+----------+-------+--------+
//!  | cooked header | datagram - - - - - - - - |              as many bytes as were kept
//! ```
//!
//! The magic number shows the byte order of the numbers, and whether the fraction counts microseconds or nanoseconds.

ghost use Rattle.std.specs.Prelude.{◌≡◌, ◌≤◌, ◌<◌, ◌+◌, ◌^◌, [], ◌∷◌, length, IfOk};
ghost use Rattle.neli_inputs.specs.Pcap.{ArePcapItems, AreRecords, end_in, nanoseconds_of, order_of, packet_in};
ghost use Rattle.neli_inputs.specs.Pcap.{record_end, time_in};

use crate::cooked::{cooked_by, is_read};
use crate::item::{Item, Packet, Refusal};
pub use crate::order::Order;
use crate::order::number_in;
use byteorder::{ByteOrder, LittleEndian};
use std::alloc::{AllocError, Global};

/// The size of the file's header in bytes.
const FILE_HEADER: usize = 24;

/// The size of a record's header in bytes.
const RECORD_HEADER: usize = 16;

/// How the records of a file are read.
#[derive(Clone, Copy, Debug, PartialEq, Eq)]
pub(crate) struct Records {
    /// The byte order of their numbers.
    pub order: Order,
    /// Whether the fractions of their times are nanoseconds, and not microseconds.
    pub has_nanoseconds: bool,
    /// Their link type.
    pub link: u32,
}

/// The order of a pcap file's numbers, if these bytes begin with one of the four magic numbers.
pub fn order_of(file: &[u8]) -> Option<Order>
    ensures { result ≡ order_of file.now }
{
    if file.len() < 4 {
        return None;
    }
    match LittleEndian::read_u32(file) {
        0xa1b2_c3d4 | 0xa1b2_3c4d => Some(Order::Little),
        0xd4c3_b2a1 | 0x4d3c_b2a1 => Some(Order::Big),
        _ => None,
    }
}

/// A fraction of a second, in nanoseconds.
fn nanoseconds_of(has_nanoseconds: bool, fraction: u32) -> u64
    ensures value { result ≡ nanoseconds_of has_nanoseconds fraction }
    ensures within { result < 2 ^ 43 }
{
    if has_nanoseconds {
        u64::from(fraction)
    } else {
        u64::from(fraction) * 1000
    }
}

/// The size of the record at the front in bytes, or why it is incomplete.
fn record_end(order: Order, bytes: &[u8]) -> Result<usize, Refusal>
    ensures value { result ≡ record_end order bytes.now }
    ensures within { IfOk result (λ end. (16 ≤ end) × (end ≤ length bytes.now)) }
{
    if bytes.len() < RECORD_HEADER {
        return Err(Refusal::RecordHeader);
    }
    let kept = number_in(order, bytes, 8) as usize;
    let there = bytes.len() - RECORD_HEADER;
    if there < kept {
        return Err(Refusal::RecordBytes(there));
    }
    Ok(RECORD_HEADER + kept)
}

/// When the record at the front was recorded, in nanoseconds.
fn time_in(records: Records, bytes: &[u8]) -> u64
    requires { 16 ≤ length bytes.now }
    ensures { result ≡ time_in records bytes.now }
{
    let seconds = u64::from(number_in(records.order, bytes, 0));
    let fraction = number_in(records.order, bytes, 4);
    seconds * 1_000_000_000 + nanoseconds_of(records.has_nanoseconds, fraction)
}

/// The packet of the record at the front of a file's bytes from `place` on.
fn packet_in(records: Records, bytes: &[u8], place: usize) -> Result<Packet, Refusal>
    requires { place + length bytes.now < 2 ^ 63 }
    ensures { result ≡ packet_in records bytes.now place }
{
    let end = record_end(records.order, bytes)?;
    let length = number_in(records.order, bytes, 12);
    if end - RECORD_HEADER < length as usize {
        return Err(Refusal::Snapped(length));
    }
    let Some(cooked) = cooked_by(records.link, &bytes[RECORD_HEADER..end]) else {
        return Err(Refusal::NotNetlink);
    };
    Ok(Packet {
        family: Some(cooked.family),
        kind: Some(cooked.kind),
        time: Some(time_in(records, bytes)),
        interface: None,
        start: place + RECORD_HEADER + cooked.size,
        end: place + end,
    })
}

/// The size of the record at the front in bytes: all of them if it is incomplete.
fn end_in(order: Order, bytes: &[u8]) -> usize
    ensures value { result ≡ end_in order bytes.now }
    ensures within { result ≤ length bytes.now }
    ensures more { 0 < length bytes.now → 0 < result }
{
    match record_end(order, bytes) {
        Ok(end) => end,
        Err(_) => bytes.len(),
    }
}

/// The items of a file with only this refusal.
fn refused(alloc: Global, place: usize, refusal: Refusal) -> Result<Vec<Item>, AllocError>
    ensures { IfOk result
        (λ items. items.items ≡ record { place = place; packet = Err refusal } ∷ []) }
{
    let mut items = Vec::new(alloc);
    items.push(Item {
        place,
        packet: Err(refusal),
    })?;
    Ok(items)
}

/// The items of the records of a file.
fn read_records(alloc: Global, records: Records, file: &[u8]) -> Result<Vec<Item>, AllocError>
    requires { 24 ≤ length file.now }
    ensures { IfOk result (λ items. AreRecords records file.now 24 items.items (length file.now)) }
{
    let mut items = Vec::new(alloc);
    let mut place = FILE_HEADER;
    while place < file.len() {
        let bytes = &file[place..];
        let packet = packet_in(records, bytes, place);
        items.push(Item { place, packet })?;
        place += end_in(records.order, bytes);
    }
    Ok(items)
}

/// Returns the packets of a pcap file whose numbers are in this order, each a datagram or refused.
///
/// A file that ends inside a record has a refusal last. A file with an incomplete header, or of a link type without
/// netlink packets, has one refusal and nothing else.
pub fn read_pcap(alloc: Global, order: Order, file: &[u8]) -> Result<Vec<Item>, AllocError>
    ensures { IfOk result (λ items. ArePcapItems order file.now items.items) }
{
    if file.len() < FILE_HEADER {
        return refused(alloc, 0, Refusal::FileHeader);
    }
    let link = number_in(order, file, 20);
    if !is_read(link) {
        return refused(alloc, 20, Refusal::LinkType(link));
    }
    let has_nanoseconds = number_in(order, file, 0) == 0xa1b2_3c4d;
    let records = Records {
        order,
        has_nanoseconds,
        link,
    };
    read_records(alloc, records, file)
}
