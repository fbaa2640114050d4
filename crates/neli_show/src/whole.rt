//! Whether an input is messages alone.

ghost use Rattle.std.specs.Prelude.{◌≡◌};
ghost use Rattle.neli_show.specs.Lines.{is_whole_datagram, is_whole_input, is_whole_packet};

use crate::part::packet_bytes;
use neli_inputs::{Input, Item};
use neli_lent::LentMessages;

/// Whether no fault follows the messages of a datagram.
fn is_whole_datagram(bytes: &[u8]) -> bool
    ensures { result ≡ is_whole_datagram bytes.now }
{
    for message in LentMessages::<u16>::new(bytes) {
        match message {
            Ok(_) => {}
            Err(_) => return false,
        }
    }
    true
}

/// Whether a part of an input is a datagram of messages alone.
fn is_whole_part(bytes: &[u8], part: &Item) -> bool
    ensures { result ≡ is_whole_packet bytes.now part.now.packet }
{
    match part.packet {
        Ok(packet) => is_whole_datagram(packet_bytes(bytes, &packet)),
        Err(_) => false,
    }
}

/// Whether all parts of an input are.
pub fn is_whole_input(input: &Input) -> bool
    ensures { result ≡ is_whole_input input.now.bytes.items input.now.items.items }
{
    for part in &input.items {
        if !is_whole_part(&input.bytes, part) {
            return false;
        }
    }
    true
}
