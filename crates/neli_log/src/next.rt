//! The next message of a datagram.

ghost use Rattle.std.specs.Prelude.{◌≡◌, ◌+◌, ◌≤◌, Ok, Err, IfErr, IfOk, OnErr, OnOk, length};
ghost use Rattle.neli_wire.specs.Frames.{frame_at};
ghost use Rattle.neli_wire.specs.Place.{whole};
ghost use Rattle.neli_reader.specs.Agreement.{untyped_layout};
ghost use Rattle.neli_log.specs.Next.{IsAddressOf};

use neli_attr::Buffer;
use neli_lent::LentMessage;
use neli_reader::Nlmsghdr;
use neli_wire::{Cursor, DeError, FromBytes, NoMemory};
use std::alloc::Global;

/// The sequence number and the port of a message, which identify its handle.
#[derive(Clone, Copy)]
pub(crate) struct Address {
    pub(crate) number: u32,
    pub(crate) port: u32,
}

/// Returns the number and port of the message at the front of the cursor's rest, if it can be read untyped, or its
/// fault. The cursor moves past a message, and stays at a fault.
///
/// Refused only if memory runs out: error messages and the like take some, to see whether they can be read.
pub(crate) fn next_message(
    alloc: Global,
    cursor: &mut Cursor<'_>,
) -> Result<Result<Address, DeError>, NoMemory>
    ensures message { IfOk result (λ item. IfOk item
        (λ a. IsAddressOf (frame_at untyped_layout cursor.old.rest) a cursor.new.rest)) }
    ensures moved { IfOk result (λ item. OnOk item (whole cursor.new ≡ whole cursor.old)) }
    ensures shorter { IfOk result (λ item. OnOk item
        (length cursor.new.rest + 16 ≤ length cursor.old.rest)) }
    ensures fault { IfOk result (λ item. IfErr item
        (λ e. frame_at untyped_layout cursor.old.rest ≡ Err e)) }
    ensures stays { IfOk result (λ item. OnErr item (cursor.new ≡ cursor.old)) }
{
    let mut ahead = cursor.ahead();
    if let Ok(message) = LentMessage::<u16>::lend(&mut ahead) {
        if message.has_plain_body() {
            *cursor = ahead;
            return Ok(Ok(Address {
                number: *message.nl_seq(),
                port: *message.nl_pid(),
            }));
        }
    }
    match Nlmsghdr::<u16, Buffer>::from_bytes(alloc, cursor) {
        Ok(message) => Ok(Ok(Address {
            number: *message.nl_seq(),
            port: *message.nl_pid(),
        })),
        Err(error) => match error {
            DeError::Memory => Err(NoMemory),
            fault => Ok(Err(fault)),
        },
    }
}
