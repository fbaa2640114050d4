//! The parts of an input.

ghost use Rattle.std.specs.Prelude.{◌≡◌, Some};
ghost use Rattle.neli_inputs.specs.Items.{bare_item};
ghost use Rattle.neli_inputs.specs.Refusals.{refusal_text};

use std::fmt;

/// The place of a datagram among the bytes that were read, and what its recording states of it.
#[derive(Clone, Copy, Debug, PartialEq, Eq)]
pub struct Packet {
    /// The netlink family (`NETLINK_ROUTE` is 0; `linux/netlink.h`), if the input states it.
    pub family: Option<u16>,
    /// The kind of the packet, as who sent it (`PACKET_OUTGOING` is 4; `linux/if_packet.h`), if the input states it.
    pub kind: Option<u16>,
    /// When it was recorded, in nanoseconds since 1970, if the input states it in 64 bits of them.
    pub time: Option<u64>,
    /// The interface it was recorded on, by its number in a section of a pcapng file, counted from 0.
    pub interface: Option<u32>,
    /// The index of its first byte.
    pub start: usize,
    /// The index past its last byte.
    pub end: usize,
}

/// Why a part of an input is not a datagram.
#[derive(Clone, Copy, Debug, PartialEq, Eq)]
pub enum Refusal {
    /// The input ends inside the 24 bytes of a pcap file's header.
    FileHeader,
    /// The pcap file has this link type, not 253 (`LINKTYPE_NETLINK`).
    LinkType(u32),
    /// The input ends inside the header of a record (16 bytes) or of a block (12 bytes).
    RecordHeader,
    /// The input ends inside a record or a block, after so many bytes of it.
    RecordBytes(usize),
    /// The section of a pcapng file does not state the order of its bytes.
    ByteOrder,
    /// A block of a pcapng file cannot have this size, or states another at its end.
    BlockSize(u32),
    /// A packet names this interface, which the section of the pcapng file has not described.
    NoInterface(u32),
    /// A packet states that so many of its bytes were kept, more than there are in its block.
    PacketSize(u32),
    /// The capture kept only a part of the packet, which had this many bytes.
    Snapped(u32),
    /// The packet does not begin with the cooked header of a netlink packet.
    NotNetlink,
    /// The offset of this line of a dump is not the number of bytes before it.
    Gap,
    /// The line stands for bytes that are left out, as `*` for lines like the one before.
    LeftOut,
    /// The line is not hexadecimal.
    NotHex,
}

impl fmt::Display for Refusal {
    ghost output = { λ r. Some (refusal_text r) };

    fn fmt<W: fmt::Write>(&self, f: &mut fmt::Formatter<W>) -> fmt::Result {
        match self {
            Refusal::FileHeader => write!(f, "the input ends inside a file's header"),
            Refusal::LinkType(link) => write!(f, "a file of link type {link}"),
            Refusal::RecordHeader => write!(f, "the input ends inside a record's header"),
            Refusal::RecordBytes(count) => write!(
                f,
                "the input ends after {count} bytes of a record"
            ),
            Refusal::ByteOrder => write!(f, "a section without the order of its bytes"),
            Refusal::BlockSize(size) => write!(f, "a block that states {size} bytes"),
            Refusal::NoInterface(number) => write!(
                f,
                "a packet of interface {number}, which is not described"
            ),
            Refusal::PacketSize(size) => write!(
                f,
                "a packet that states {size} bytes, more than there are"
            ),
            Refusal::Snapped(length) => write!(f, "a packet cut short from {length} bytes"),
            Refusal::NotNetlink => write!(f, "a packet that is not of netlink"),
            Refusal::Gap => write!(f, "an offset that is not the number of bytes before it"),
            Refusal::LeftOut => write!(f, "bytes that are left out, as by a line *"),
            Refusal::NotHex => write!(f, "a line that is not hexadecimal"),
        }
    }
}

/// A part of an input: a datagram, or a refusal.
#[derive(Clone, Copy, Debug, PartialEq, Eq)]
pub struct Item {
    /// Where the part begins: an index in the bytes of a file, or the number of a text's line, counted from 1.
    pub place: usize,
    /// The datagram, or why it is not one.
    pub packet: Result<Packet, Refusal>,
}

/// The datagram from one place up to another, of which nothing else is stated, as a part at this place.
pub(crate) fn bare_item(place: usize, start: usize, end: usize) -> Item
    ensures { result ≡ bare_item place start end }
{
    Item {
        place,
        packet: Ok(Packet {
            family: None,
            kind: None,
            time: None,
            interface: None,
            start,
            end,
        }),
    }
}

/// An input that was read.
#[derive(Drop)]
pub struct Input {
    /// The bytes that hold the datagrams: those of the input, or those that its text spells.
    pub bytes: Vec<u8>,
    /// Its parts, in order.
    pub items: Vec<Item>,
}
