//! A pcapng file (draft-ietf-opsawg-pcapng), as Wireshark and `dumpcap` write it.
//!
//! ```text
//!  0      4      8                           size - 4  size
//!  +------+------+------ - - - - - - - ------+------+
//!  | kind | size | body                      | size |           a block
//!  +------+------+------ - - - - - - - ------+------+
//!
//!  kind         body
//!  0x0a0d0d0a   byte order 0x1a2b3c4d, version, length           a section begins
//!  1            link type 2, unused 2, longest 4, options        an interface of the section
//!  6            interface 4, time 8, kept 4, length 4, packet    a packet
//!  2            interface 2, drops 2, time 8, kept 4, length 4, packet
//!  3            length 4, packet                                 a packet of the first interface, without a time
//! ```
//!
//! All numbers have the byte order of their section, in which interfaces are counted from 0. Other blocks are passed
//! over. After a block whose size is not possible nothing is read, since no other block can be found.

ghost use Rattle.std.specs.Prelude.{◌≡◌, ◌≢◌, ◌≤◌, ◌<◌, ◌+◌, ◌^◌, ◌++◌, length, slice_get, IfOk, OnOk};
ghost use Rattle.neli_inputs.specs.Orders.{number_in};
ghost use Rattle.neli_inputs.specs.Pcapng.{described, front, interface_in, interface_number, is_pcapng, items_by};
ghost use Rattle.neli_inputs.specs.Pcapng.{kept_in, least_size, limited, order_at, order_by, packet_by, packet_on};
ghost use Rattle.neli_inputs.specs.Pcapng.{padded, pcapng_items, resolution_from, size_in};

use crate::cooked::cooked_by;
use crate::item::{Item, Packet, Refusal};
use crate::order::{Order, half_in, number_in};
use crate::time::time_of;
use byteorder::{BigEndian, ByteOrder};
use std::alloc::{AllocError, Global};

/// The kind of a block that begins a section; its bytes are the same in both orders.
const SECTION: u32 = 0x0a0d_0d0a;

/// The kind of a block that describes an interface.
const INTERFACE: u32 = 1;

/// The kind of a block with a packet, as it was before 2004.
const OLD_PACKET: u32 = 2;

/// The kind of a block with a packet of the first interface.
const SIMPLE_PACKET: u32 = 3;

/// The kind of a block with a packet.
const ENHANCED_PACKET: u32 = 6;

/// An interface of a section.
#[derive(Clone, Copy, Debug, PartialEq, Eq)]
pub(crate) struct Interface {
    /// The link type of its packets.
    pub link: u16,
    /// The bytes of a packet that were kept at most; 0 if there is no such limit.
    pub longest: u32,
    /// The resolution of its times (`if_tsresol`).
    pub resolution: u8,
}

/// What a block says of the bytes of a packet.
#[derive(Clone, Copy, Debug, PartialEq, Eq)]
pub(crate) struct Kept {
    /// When it was recorded, in nanoseconds.
    pub time: Option<u64>,
    /// How many bytes were kept.
    pub count: u32,
    /// How many bytes it had.
    pub length: u32,
    /// Where they begin in the block.
    pub start: usize,
}

/// The order that a section states.
fn order_by(mark: u32) -> Option<Order>
    ensures { result ≡ order_by mark }
{
    match mark {
        0x1a2b_3c4d => Some(Order::Big),
        0x4d3c_2b1a => Some(Order::Little),
        _ => None,
    }
}

/// Whether the file begins with a section of pcapng.
pub fn is_pcapng(file: &[u8]) -> bool
    ensures { result ≡ is_pcapng file.now }
{
    file.len() >= 12
        && BigEndian::read_u32(file) == SECTION
        && order_by(BigEndian::read_u32(&file[8..])).is_some()
}

/// The order of the block at the front, after a section of this order.
fn order_at(order: Order, bytes: &[u8]) -> Option<Order>
    requires { 12 ≤ length bytes.now }
    ensures { result ≡ order_at order bytes.now }
{
    if BigEndian::read_u32(bytes) == SECTION {
        return order_by(BigEndian::read_u32(&bytes[8..]));
    }
    Some(order)
}

/// The size in bytes of a block of this kind without options and without bytes of a packet.
fn least_size(kind: u32) -> u32
    ensures value { result ≡ least_size kind }
    ensures within { 12 ≤ result }
{
    match kind {
        SECTION => 28,
        INTERFACE => 20,
        SIMPLE_PACKET => 16,
        ENHANCED_PACKET | OLD_PACKET => 32,
        _ => 12,
    }
}

/// The size of the block at the front in bytes, or why it is incomplete or wrong.
fn size_in(order: Order, bytes: &[u8]) -> Result<usize, Refusal>
    requires { 12 ≤ length bytes.now }
    ensures value { result ≡ size_in order bytes.now }
    ensures within { IfOk result (λ size. (least_size (number_in order bytes.now 0) ≤ size)
        × (size ≤ length bytes.now)) }
    ensures some { IfOk result (λ size. 12 ≤ size) }
{
    let stated = number_in(order, bytes, 4);
    if stated < least_size(number_in(order, bytes, 0)) || stated % 4 != 0 {
        return Err(Refusal::BlockSize(stated));
    }
    let size = stated as usize;
    if bytes.len() < size {
        return Err(Refusal::RecordBytes(bytes.len()));
    }
    if number_in(order, bytes, size - 4) != stated {
        return Err(Refusal::BlockSize(stated));
    }
    Ok(size)
}

/// The order and the size of the block at the front, after a section of this order.
fn front(order: Order, bytes: &[u8]) -> Result<(Order, usize), Refusal>
    ensures value { result ≡ front order bytes.now }
    ensures within { IfOk result (λ found. (least_size (number_in found.0 bytes.now 0) ≤ found.1)
        × (found.1 ≤ length bytes.now)) }
    ensures some { IfOk result (λ found. 12 ≤ found.1) }
{
    if bytes.len() < 12 {
        return Err(Refusal::RecordHeader);
    }
    let Some(order) = order_at(order, bytes) else {
        return Err(Refusal::ByteOrder);
    };
    let size = size_in(order, bytes)?;
    Ok((order, size))
}

/// The resolution of times in the options of an interface.
fn resolution_in(order: Order, options: &[u8]) -> u8
    ensures { result ≡ resolution_from order 0 options.now }
{
    let mut place = 0;
    while place < options.len() {
        let rest = &options[place..];
        if rest.len() < 5 || half_in(order, rest, 0) == 0 {
            return 6;
        }
        if half_in(order, rest, 0) == 9 {
            return rest[4];
        }
        let size = 4 + padded(half_in(order, rest, 2));
        if rest.len() < size {
            return 6;
        }
        place += size;
    }
    6
}

/// A length, padded to four bytes.
fn padded(length: u16) -> usize
    ensures value { result ≡ padded length }
    ensures within { result < 65540 }
{
    (usize::from(length) + 3) / 4 * 4
}

/// The interface that a block describes.
fn interface_in(order: Order, block: &[u8]) -> Interface
    requires { 20 ≤ length block.now }
    ensures { result ≡ interface_in order block.now }
{
    Interface {
        link: half_in(order, block, 8),
        longest: number_in(order, block, 12),
        resolution: resolution_in(order, &block[16..]),
    }
}

/// Adds the interface that a block describes; a block that begins a section has none.
fn describe(interfaces: &mut Vec<Interface>, order: Order, block: &[u8]) -> Result<(), AllocError>
    requires header { 12 ≤ length block.now }
    requires least { least_size (number_in order block.now 0) ≤ length block.now }
    ensures { OnOk result (interfaces.new.items ≡ described order interfaces.old.items block.now) }
{
    match number_in(order, block, 0) {
        SECTION => interfaces.clear(),
        INTERFACE => interfaces.push(interface_in(order, block))?,
        _ => {}
    }
    Ok(())
}

/// The number of the interface of the packet in a block, if there is one.
fn interface_number(order: Order, block: &[u8]) -> Option<u32>
    requires { 12 ≤ length block.now }
    ensures value { result ≡ interface_number order block.now }
{
    match number_in(order, block, 0) {
        ENHANCED_PACKET => Some(number_in(order, block, 8)),
        OLD_PACKET => Some(u32::from(half_in(order, block, 8))),
        SIMPLE_PACKET => Some(0),
        _ => None,
    }
}

/// How many bytes of a packet are kept, where there is a longest.
fn limited(longest: u32, length: u32) -> u32
    ensures { result ≡ limited longest length }
{
    if 0 < longest && longest < length {
        longest
    } else {
        length
    }
}

/// What a block says of the bytes of its packet, which was recorded on this interface.
fn kept_in(order: Order, interface: &Interface, block: &[u8]) -> Kept
    requires header { 16 ≤ length block.now }
    requires least { number_in order block.now 0 ≢ 3 → 32 ≤ length block.now }
    ensures value { result ≡ kept_in order interface.now block.now }
    ensures within { result.start + 4 ≤ length block.now }
{
    if number_in(order, block, 0) == SIMPLE_PACKET {
        let length = number_in(order, block, 8);
        return Kept {
            time: None,
            count: limited(interface.longest, length),
            length,
            start: 12,
        };
    }
    let high = u64::from(number_in(order, block, 12));
    let low = u64::from(number_in(order, block, 16));
    Kept {
        time: time_of(high * 0x1_0000_0000 + low, interface.resolution),
        count: number_in(order, block, 20),
        length: number_in(order, block, 24),
        start: 28,
    }
}

/// The packet in the block at `place`.
fn packet_by(
    number: u32,
    interface: &Interface,
    kept: Kept,
    block: &[u8],
    place: usize,
) -> Result<Packet, Refusal>
    requires within { kept.start + 4 ≤ length block.now }
    requires bounded { place + length block.now < 2 ^ 63 }
    ensures { result ≡ packet_by number interface.now kept block.now place }
{
    let count = kept.count as usize;
    if block.len() - 4 < kept.start + count {
        return Err(Refusal::PacketSize(kept.count));
    }
    if kept.count < kept.length {
        return Err(Refusal::Snapped(kept.length));
    }
    let packet = &block[kept.start..kept.start + count];
    let Some(cooked) = cooked_by(u32::from(interface.link), packet) else {
        return Err(Refusal::NotNetlink);
    };
    Ok(Packet {
        family: Some(cooked.family),
        kind: Some(cooked.kind),
        time: kept.time,
        interface: Some(number),
        start: place + kept.start + cooked.size,
        end: place + kept.start + count,
    })
}

/// The packet on this interface in the block at `place`.
fn packet_on(
    order: Order,
    interfaces: &[Interface],
    number: u32,
    block: &[u8],
    place: usize,
) -> Result<Packet, Refusal>
    requires header { 16 ≤ length block.now }
    requires least { number_in order block.now 0 ≢ 3 → 32 ≤ length block.now }
    requires bounded { place + length block.now < 2 ^ 63 }
    ensures { result ≡ packet_on order number (slice_get interfaces.now number) block.now place }
{
    let Some(interface) = interfaces.get(number as usize) else {
        return Err(Refusal::NoInterface(number));
    };
    packet_by(
        number,
        interface,
        kept_in(order, interface, block),
        block,
        place,
    )
}

/// Appends the item of the block at `place`, if it has a packet.
fn take_packet(
    items: &mut Vec<Item>,
    order: Order,
    interfaces: &[Interface],
    block: &[u8],
    place: usize,
) -> Result<(), AllocError>
    requires header { 12 ≤ length block.now }
    requires least { least_size (number_in order block.now 0) ≤ length block.now }
    requires bounded { place + length block.now < 2 ^ 63 }
    ensures { OnOk result (items.new.items ≡ items.old.items
        ++ items_by order interfaces.now (interface_number order block.now) block.now place) }
{
    let Some(number) = interface_number(order, block) else {
        return Ok(());
    };
    let packet = packet_on(order, interfaces, number, block, place);
    items.push(Item { place, packet })?;
    Ok(())
}

/// Returns the packets of a pcapng file, each a datagram or refused.
///
/// A file that ends inside a block, or has a block whose size is not possible, has a refusal last.
pub fn read_pcapng(alloc: Global, file: &[u8]) -> Result<Vec<Item>, AllocError>
    ensures { IfOk result (λ items. items.items ≡ pcapng_items file.now) }
{
    let mut items = Vec::new(alloc);
    let mut interfaces = Vec::new(alloc);
    let mut order = Order::Little;
    let mut place = 0;
    while place < file.len() {
        let bytes = &file[place..];
        match front(order, bytes) {
            Ok((here, size)) => {
                let block = &bytes[..size];
                describe(&mut interfaces, here, block)?;
                take_packet(&mut items, here, &interfaces, block, place)?;
                order = here;
                place += size;
            }
            Err(refusal) => {
                let packet = Err(refusal);
                items.push(Item { place, packet })?;
                return Ok(items);
            }
        }
    }
    Ok(items)
}
