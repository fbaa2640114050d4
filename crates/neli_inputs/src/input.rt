//! Any input.

ghost use Rattle.std.specs.Prelude.{◌≡◌, [], ◌∷◌, IfOk};
ghost use Rattle.neli_inputs.specs.Inputs.{IsInput, raw_item};

use crate::item::{Input, Item, bare_item};
use crate::pcap::{order_of, read_pcap};
use crate::pcapng::{is_pcapng, read_pcapng};
use crate::text::read_text;
use std::alloc::{AllocError, Global};

/// Returns the one item of raw bytes.
fn raw(alloc: Global, length: usize) -> Result<Vec<Item>, AllocError>
    ensures { IfOk result (λ items. items.items ≡ raw_item length ∷ []) }
{
    let mut items = Vec::new(alloc);
    items.push(bare_item(0, 0, length))?;
    Ok(items)
}

/// Returns the datagrams of an input: of a pcap file if it begins with a pcap file's magic number, of a pcapng file if it
/// begins with a section, of raw bytes if a byte of it is 0, and else of hexadecimal text.
///
/// Raw bytes are read as one datagram; several without a gap have the same messages. The length before a message of
/// less than 16 MiB has a zero byte, which no such text has. The bytes of a file and raw ones are kept, not
/// copied.
pub fn read_input(alloc: Global, bytes: Vec<u8>) -> Result<Input, AllocError>
    ensures { IfOk result (λ input. IsInput bytes.items input.bytes.items input.items.items) }
{
    if let Some(order) = order_of(&bytes) {
        let items = read_pcap(alloc, order, &bytes)?;
        return Ok(Input { bytes, items });
    }
    if is_pcapng(&bytes) {
        let items = read_pcapng(alloc, &bytes)?;
        return Ok(Input { bytes, items });
    }
    if bytes.contains(&0) {
        let items = raw(alloc, bytes.len())?;
        return Ok(Input { bytes, items });
    }
    read_text(alloc, &bytes)
}
