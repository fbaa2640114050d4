//! Hexadecimal text, as pasted from a terminal.
//!
//! A text has lines of these kinds, with spaces, tabs and carriage returns anywhere in them:
//!
//! ```text
//!  14000000 1200 05 03                                   bytes alone
//!  00000000: 1400 0000 1200 0103  ........               a line of xxd
//!         0x0010:  0000 0000                             a line of tcpdump -x
//!  00000010  00 00 00 00 12 00 01 03  00 00  |..........|  a row of hexdump -C, od -Ax -tx1, tshark -x or strace
//!  *                                                     bytes that are left out
//!  12:00:00.000000 [|netlink]                            something else, as a heading
//! ```
//!
//! Bytes on adjacent lines are one datagram. It ends at an empty line, at a heading, and where a dump begins again with
//! offset 0. The words of a dump's line end at two adjacent blanks, but for the gap in the middle of a row; the part to
//! their right is not read. A row of digits alone is one where the first line of bytes is a row with offset 0.

ghost use Rattle.std.specs.Prelude.{◌≡◌, ◌≤◌, ◌<◌, ◌+◌, ◌^◌, ◌++◌, length, map, sum_by, IfOk, IfSome, OnOk};
ghost use Rattle.std.specs.List.{flat_map, list_any};
ghost use Rattle.neli_inputs.specs.Lines.{count_in, is_addressed, line_of};
ghost use Rattle.neli_inputs.specs.Text.{IsText, closed, continues, cooked_in, ends, is_dump, items_in, lines_in};
ghost use Rattle.neli_inputs.specs.Text.{begun_after, refusal_of, refused, uncooked};

use crate::cooked::{Cooked, cooked_by_first};
use crate::item::{Input, Item, Packet, Refusal, bare_item};
use crate::line::{Line, begins_addressed, read_line};
use std::alloc::{AllocError, Global};

/// A datagram that further lines may continue: the number of its first line, and the index of its first byte.
#[derive(Clone, Copy, Debug, PartialEq, Eq)]
pub(crate) struct Begun {
    pub line: usize,
    pub start: usize,
}

/// The lines of a text, read: the kind of each, and all their bytes, one after the other.
#[derive(Drop)]
struct Lines {
    lines: Vec<Line>,
    bytes: Vec<u8>,
}

/// The lines of a text. They are lent.
fn lines_of<'t>(alloc: Global, text: &'t [u8]) -> Result<Vec<&'t [u8]>, AllocError>
    ensures { IfOk result (λ lines. map (λ line. line.now) lines.items ≡ lines_in text.now) }
{
    text.split(|byte| *byte == b'\n').collect(alloc)
}

/// Whether lines begin with an offset, as the first of them with bytes shows.
fn is_addressed(alloc: Global, texts: &[&[u8]]) -> Result<bool, AllocError>
    ensures { IfOk result (λ is. is ≡ is_addressed (map (λ t. t.now) texts.now)) }
{
    for text in texts {
        if let Some(begins) = begins_addressed(alloc, text)? {
            return Ok(begins);
        }
    }
    Ok(false)
}

/// Reads these lines.
fn read_lines(alloc: Global, addressed: bool, texts: &[&[u8]]) -> Result<Lines, AllocError>
    ensures lines { IfOk result
        (λ read. read.lines.items ≡ map (λ t. (line_of addressed t.now).0) texts.now) }
    ensures bytes { IfOk result
        (λ read. read.bytes.items ≡ flat_map (λ t. (line_of addressed t.now).1) texts.now) }
    ensures counted { IfOk result
        (λ read. sum_by count_in read.lines.items ≡ length read.bytes.items) }
{
    let mut lines = Vec::new(alloc);
    let mut bytes = Vec::new(alloc);
    for text in texts {
        let read = read_line(alloc, addressed, text)?;
        bytes.extend_from_slice(&read.bytes)?;
        lines.push(read.line)?;
    }
    Ok(Lines { lines, bytes })
}

/// The number of bytes on a line.
pub(crate) fn count_in(line: Line) -> usize
    ensures { result ≡ count_in line }
{
    match line {
        Line::Bytes(count) | Line::Dump(_, count) => count,
        Line::Empty | Line::LeftOut | Line::Other => 0,
    }
}

/// Whether the line is one of a dump.
fn is_dump(line: Line) -> bool
    ensures { result ≡ is_dump line }
{
    matches!(line, Line::Dump(_, _))
}

/// Whether a line of a dump with this offset continues the open datagram, which has so many bytes.
fn continues(begun: Option<Begun>, place: usize, offset: u64) -> bool
    ensures { result ≡ continues begun place offset }
{
    match begun {
        Some(begun) => begun.start < place && offset == (place - begun.start) as u64,
        None => false,
    }
}

/// Whether a line ends the open datagram.
fn ends(begun: Option<Begun>, place: usize, line: Line) -> bool
    ensures { result ≡ ends begun place line }
{
    match line {
        Line::Bytes(_) => false,
        Line::Dump(offset, _) => !continues(begun, place, offset),
        Line::Empty | Line::LeftOut | Line::Other => true,
    }
}

/// Why the bytes of a line have no place. Headings may stand among the lines of dumps.
fn refusal_of(dumps: bool, begun: Option<Begun>, place: usize, line: Line) -> Option<Refusal>
    ensures { result ≡ refusal_of dumps begun place line }
{
    match line {
        Line::Dump(0, _) | Line::Bytes(_) | Line::Empty => None,
        Line::Dump(offset, _) if continues(begun, place, offset) => None,
        Line::Dump(_, _) => Some(Refusal::Gap),
        Line::LeftOut => Some(Refusal::LeftOut),
        Line::Other if dumps => None,
        Line::Other => Some(Refusal::NotHex),
    }
}

/// The open datagram after this line.
fn begun_after(begun: Option<Begun>, number: usize, place: usize, line: Line) -> Option<Begun>
    ensures { result ≡ begun_after begun number place line }
{
    let new = Begun {
        line: number,
        start: place,
    };
    match line {
        Line::Bytes(_) => Some(begun.unwrap_or(new)),
        Line::Dump(0, _) => Some(new),
        Line::Dump(offset, _) if continues(begun, place, offset) => begun,
        Line::Dump(_, _) | Line::Empty | Line::LeftOut | Line::Other => None,
    }
}

/// Appends the open datagram, which ends here.
fn close(items: &mut Vec<Item>, begun: Option<Begun>, place: usize) -> Result<(), AllocError>
    ensures { OnOk result (items.new.items ≡ items.old.items ++ closed begun place) }
{
    let Some(begun) = begun else {
        return Ok(());
    };
    items.push(bare_item(begun.line, begun.start, place))?;
    Ok(())
}

/// Appends the refusal of a line.
fn refuse(items: &mut Vec<Item>, number: usize, refusal: Option<Refusal>) -> Result<(), AllocError>
    ensures { OnOk result (items.new.items ≡ items.old.items ++ refused number refusal) }
{
    let Some(refusal) = refusal else {
        return Ok(());
    };
    items.push(Item {
        place: number,
        packet: Err(refusal),
    })?;
    Ok(())
}

/// Whether one of these lines is one of a dump.
fn has_dumps(lines: &[Line]) -> bool
    ensures { result ≡ list_any is_dump lines.now }
{
    lines.iter().any(|line| is_dump(*line))
}

/// The items of these lines.
fn items_of(alloc: Global, lines: &[Line]) -> Result<Vec<Item>, AllocError>
    requires { sum_by count_in lines.now < 2 ^ 64 }
    ensures { IfOk result (λ items. items.items ≡ items_in lines.now) }
{
    let dumps = has_dumps(lines);
    let mut items = Vec::new(alloc);
    let mut place = 0;
    let mut begun = None;
    for (index, line) in lines.iter().enumerate() {
        if ends(begun, place, *line) {
            close(&mut items, begun, place)?;
        }
        refuse(
            &mut items,
            index + 1,
            refusal_of(dumps, begun, place, *line),
        )?;
        begun = begun_after(begun, index + 1, place, *line);
        place += count_in(*line);
    }
    close(&mut items, begun, place)?;
    Ok(items)
}

/// The cooked header at the front of a datagram, as `tcpdump -xx` prints it.
fn cooked_in(bytes: &[u8], packet: Packet) -> Option<Cooked>
    ensures value { result ≡ cooked_in bytes.now packet }
    ensures within { IfSome result (λ cooked. packet.start + cooked.size ≤ length bytes.now) }
{
    if packet.start <= packet.end && packet.end <= bytes.len() {
        cooked_by_first(&bytes[packet.start..packet.end])
    } else {
        None
    }
}

/// An item without the cooked header that may stand before its datagram.
fn uncooked(bytes: &[u8], item: Item) -> Item
    requires { length bytes.now < 2 ^ 63 }
    ensures { result ≡ uncooked bytes.now item }
{
    let Ok(packet) = item.packet else {
        return item;
    };
    let Some(cooked) = cooked_in(bytes, packet) else {
        return item;
    };
    Item {
        place: item.place,
        packet: Ok(Packet {
            family: Some(cooked.family),
            kind: Some(cooked.kind),
            time: packet.time,
            interface: packet.interface,
            start: packet.start + cooked.size,
            end: packet.end,
        }),
    }
}

/// The items without the cooked headers of their datagrams.
fn without_headers(alloc: Global, bytes: &[u8], items: &[Item]) -> Result<Vec<Item>, AllocError>
    requires { length bytes.now < 2 ^ 63 }
    ensures { IfOk result (λ bare. bare.items ≡ map (uncooked bytes.now) items.now) }
{
    items
        .iter()
        .map(|item| uncooked(bytes, *item))
        .collect(alloc)
}

/// Returns the datagrams of a hexadecimal text, and the lines that are refused.
///
/// A line of a dump is refused if its offset is not the number of bytes before it ([`Refusal::Gap`]). A line that is
/// not hexadecimal is skipped as a heading if the text has lines of dumps, and else refused ([`Refusal::NotHex`]).
pub fn read_text(alloc: Global, text: &[u8]) -> Result<Input, AllocError>
    ensures { IfOk result (λ read. IsText text.now read.bytes.items read.items.items) }
{
    let lines = lines_of(alloc, text)?;
    let addressed = is_addressed(alloc, &lines)?;
    let read = read_lines(alloc, addressed, &lines)?;
    let cooked = items_of(alloc, &read.lines)?;
    let items = without_headers(alloc, &read.bytes, &cooked)?;
    let bytes = read.bytes;
    Ok(Input { bytes, items })
}
