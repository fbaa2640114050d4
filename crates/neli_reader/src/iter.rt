//! The reader of a datagram.

ghost use Rattle.std.specs.Prelude.{◌≡◌, ◌≢◌, ◌+◌, ◌≤◌, ℕ, List, Err, IfOk, IfSome, OnErr, OnOk, length, map};
ghost use Rattle.neli_wire.specs.Frames.{frame_at, frame_takes_memory};
ghost use Rattle.neli_msg.specs.Messages.{message_layout, message_of, message_takes_memory};
ghost use Rattle.neli_reader.specs.Cuts.{IsNext, cut_of, cut_with, item_of};

use neli_consts::NlType;
use neli_list::FrameList;
use neli_msg::{Nlmsghdr, SocketError};
use neli_wire::{Cursor, DeError, FromBytes, FromBytesWithInput, NoMemory};
use std::alloc::Global;
use std::marker::{Model, PhantomData};

/// A list of messages, one after the other, each with its padding.
pub type NlBuffer<T, P> = FrameList<Nlmsghdr<T, P>>;

/// The messages of a datagram, one after the other, read as `Nlmsghdr<T, P>`.
///
/// Contracts see it as the bytes still to be read.
#[derive(Drop)]
pub struct NlBufferIter<'b, T, P> {
    cursor: Cursor<'b>,
    of: PhantomData<(T, P)>,
}

impl<'b, T, P> Model for NlBufferIter<'b, T, P> {
    ghost Value = { List ℕ };

    ghost view = { λ i. i.cursor.rest };
}

impl<'b, T: NlType, P: FromBytesWithInput> NlBufferIter<'b, T, P> {
    /// The messages of these bytes.
    pub fn new(bytes: &'b [u8]) -> NlBufferIter<'b, T, P>
        ensures { result ≡ bytes.now }
    {
        NlBufferIter {
            cursor: Cursor::new(bytes),
            of: PhantomData,
        }
    }

    /// Returns the next message, or the fault of the rest. After a fault, and after the last message, it returns
    /// `None`. If memory runs out nothing is taken, and the call can be repeated.
    pub fn next(&mut self, alloc: Global) -> Option<Result<Nlmsghdr<T, P>, SocketError>>
        ensures next { IsNext (message_layout T.wire_value T.wire_number P.read)
            (frame_takes_memory (message_layout T.wire_value T.wire_number P.read)
            (message_takes_memory T.wire_number P.read P.takes_memory) self.old) self.old self.new
            (item_of P.view result) }
        // A message takes at least the 16 bytes of its header.
        ensures shorter { IfSome result
            (λ item. OnOk item (length self.new + 16 ≤ length self.old)) }
        ensures cut { cut_of (message_layout T.wire_value T.wire_number P.read) self.old
            ≡ cut_with (item_of P.view result)
            (cut_of (message_layout T.wire_value T.wire_number P.read) self.new) }
    {
        self.next_typed(alloc)
    }

    /// The bytes still to be read. Call it before `next` to find where that message or fault begins: as many bytes
    /// before the datagram's end as it returns.
    pub fn rest(&self) -> &'b [u8]
        ensures { result.now ≡ self.now }
    {
        self.cursor.rest()
    }

    /// The same as `next`, read as other types.
    pub fn next_typed<T2: NlType, P2: FromBytesWithInput>(
        &mut self,
        alloc: Global,
    ) -> Option<Result<Nlmsghdr<T2, P2>, SocketError>>
        ensures next { IsNext (message_layout T2.wire_value T2.wire_number P2.read)
            (frame_takes_memory (message_layout T2.wire_value T2.wire_number P2.read)
            (message_takes_memory T2.wire_number P2.read P2.takes_memory) self.old) self.old self.new
            (item_of P2.view result) }
        // A message takes at least the 16 bytes of its header.
        ensures shorter { IfSome result
            (λ item. OnOk item (length self.new + 16 ≤ length self.old)) }
        ensures cut { cut_of (message_layout T2.wire_value T2.wire_number P2.read) self.old
            ≡ cut_with (item_of P2.view result)
            (cut_of (message_layout T2.wire_value T2.wire_number P2.read) self.new) }
    {
        if self.cursor.rest().is_empty() {
            return None;
        }
        match Nlmsghdr::from_bytes(alloc, &mut self.cursor) {
            Ok(message) => Some(Ok(message)),
            Err(error) => match error {
                DeError::Memory => Some(Err(SocketError::Memory)),
                error => {
                    let end = self.cursor.get_ref().len();
                    self.cursor.set_position(end);
                    Some(Err(SocketError::De(error)))
                }
            },
        }
    }
}

/// The fault that a reader returned; its only other error is that memory ran out.
fn fault_of(error: SocketError) -> Result<DeError, NoMemory>
    ensures fault { IfOk result (λ fault. error ≡ SocketError.De fault) }
    ensures memory { OnErr result ((fault : DeError) → error ≢ SocketError.De fault) }
{
    match error {
        SocketError::De(fault) => Ok(fault),
        _ => Err(NoMemory),
    }
}

/// All the messages of a datagram, and the fault after them, if there is one.
///
/// Refused only if memory runs out. A datagram of fewer bytes than the 16 of a header takes no memory; if its first
/// message is refused, only reading that message may take some.
pub fn cut<T: NlType, P: FromBytesWithInput>(
    alloc: Global,
    bytes: &[u8],
) -> Result<(Vec<Nlmsghdr<T, P>>, Option<DeError>), NoMemory>
    ensures cut { IfOk result (λ c. cut_of
        (message_layout T.wire_value T.wire_number P.read) bytes.now
        ≡ (map (message_of P.view) c.0.items, c.1)) }
    ensures memory { OnErr result (16 ≤ length bytes.now) }
    ensures first { OnErr result ((e : DeError)
        → frame_at (message_layout T.wire_value T.wire_number P.read) bytes.now ≡ Err e
        → frame_takes_memory (message_layout T.wire_value T.wire_number P.read)
        (message_takes_memory T.wire_number P.read P.takes_memory) bytes.now) }
{
    let mut messages = Vec::new(alloc);
    let mut iter: NlBufferIter<'_, T, P> = NlBufferIter::new(bytes);
    while let Some(item) = iter.next(alloc) {
        match item {
            Ok(message) => messages.push(message)?,
            Err(error) => return Ok((messages, Some(fault_of(error)?))),
        }
    }
    Ok((messages, None))
}
