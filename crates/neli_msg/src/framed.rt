//! A header and its payload: the form of all messages.

ghost use Rattle.std.specs.Prelude.{◌≡◌, ◌+◌, ◌≤◌, ℕ, List, Result, Ok, Err, Some, IfOk, IfErr, OnOk, OnErr, length, min};
ghost use Rattle.neli_wire.specs.declared.errors.DeError.{DeError as Refusal};
ghost use Rattle.neli_wire.specs.declared.errors.DeError.TheVariants as de;
ghost use Rattle.neli_wire.specs.Frames.{frame_at, frame_takes_memory};
ghost use Rattle.neli_wire.specs.Refusals.{Refuses};
ghost use Rattle.neli_wire.specs.Sizes.{align};
ghost use Rattle.neli_wire.specs.laws.Sizes.{padded-rounded};
ghost use Rattle.neli_msg.specs.Headers.{Header as Head};
ghost use Rattle.neli_msg.specs.Messages.{layout_with};
ghost use Rattle.neli_msg.specs.Wires.{framed_size, framed_wire};
ghost use Rattle.neli_msg.specs.laws.Messages.{layout_with-local, layout_with-no_memory};
ghost use Rattle.neli_msg.specs.laws.Wires.{framed_wire-length, framed_wire-no_memory, framed_wire-zeros};

use crate::frame::write_framed;
use crate::header::header_of;
use crate::{NlmsghdrAck, NlmsghdrAckBuilder};
use neli_consts::{MESSAGE_HEADER_SIZE, NlType, NlmF};
use neli_list::TryClone;
use neli_wire::implementing::padded_length;
use neli_wire::{Cursor, DeError, FromBytes, Header, NoMemory, SerError, Size, ToBytes, alignto};
use std::alloc::Global;
use std::fmt::Debug;
use std::io::ErrorKind;

/// A message: `struct nlmsghdr` of linux/netlink.h, 16 bytes, and its payload (RFC 3549 section 2.3.2).
/// [`Nlmsghdr`](crate::Nlmsghdr) and [`NlmsghdrErr`](crate::NlmsghdrErr) are names for it with different payloads.
#[derive(Debug, Drop, PartialEq, Eq)]
pub struct Framed<T, X> {
    pub(crate) header: NlmsghdrAck<T>,
    pub(crate) payload: X,
}

impl<T, X> Framed<T, X> {
    /// The length that the message states, in bytes: header and payload; rounded up to four if it was computed here.
    pub fn nl_len(&self) -> &u32
        ensures { result.now ≡ self.now.header.len }
    {
        &self.header.len
    }

    /// The type of the message, which says what its payload means.
    pub fn nl_type(&self) -> &T
        ensures { result.now ≡ self.now.header.message_type }
    {
        &self.header.message_type
    }

    /// The flags, with all the bits that were read, also those without a name.
    pub fn nl_flags(&self) -> &NlmF
        ensures { result.now ≡ self.now.header.flags }
    {
        &self.header.flags
    }

    /// The sequence number: a reply has that of its request.
    pub fn nl_seq(&self) -> &u32
        ensures { result.now ≡ self.now.header.sequence_number }
    {
        &self.header.sequence_number
    }

    /// The port of the socket that the message belongs to; 0 is the kernel's.
    pub fn nl_pid(&self) -> &u32
        ensures { result.now ≡ self.now.header.port }
    {
        &self.header.port
    }
}

impl<T, X> Header for Framed<T, X> {
    ghost header = { 16 };

    fn header_size() -> usize {
        MESSAGE_HEADER_SIZE
    }
}

impl<T: NlType, X: Size> Size for Framed<T, X> {
    ghost unpadded_length = { framed_size X.wire_length };

    ghost wire_length = { λ m. align (framed_size X.wire_length m) };

    ghost rounded = { padded-rounded (framed_size X.wire_length) };

    fn unpadded_size(&self) -> usize {
        self.payload
            .written_size()
            .saturating_add(MESSAGE_HEADER_SIZE)
    }

    fn written_size(&self) -> usize {
        padded_length(self.unpadded_size())
    }
}

impl<T: NlType, X: ToBytes> ToBytes for Framed<T, X> {
    ghost wire = { framed_wire T.wire_number X.wire };

    ghost length_is = { framed_wire-length T.wire_number X.wire X.Size.wire_length X.length_is };

    ghost zeros_after = { framed_wire-zeros T.wire_number X.wire X.Size.wire_length X.length_is };

    ghost no_memory = { framed_wire-no_memory T.wire_number X.wire X.no_memory };

    fn to_bytes(&self, buffer: &mut Vec<u8>) -> Result<(), SerError> {
        write_framed(&self.header, &self.payload, buffer)
    }
}

/// The payload of a message, which is read by the header before it.
pub trait Carried<T>: Sized + Debug + Drop {
    // What contracts see of it.
    ghost Value: { Type 0 };

    ghost view: { Self → Value };

    // The value of a whole byte list after this header, or a refusal.
    ghost read: { Head T → List ℕ → Result Value Refusal };

    // Where a read takes memory.
    ghost takes_memory: { Head T → List ℕ → Type 0 };

    /// Reads all of these bytes, after this header.
    fn read_after(alloc: Global, header: &NlmsghdrAck<T>, bytes: &[u8]) -> Result<Self, DeError>
        ensures value { IfOk result (λ x. read header.now bytes.now ≡ Ok (view x)) }
        ensures refused { IfErr result
            (Refuses (read header.now bytes.now) (takes_memory header.now bytes.now)) };

    // The definition never refuses for lack of memory.
    ghost no_memory: { (h : Head T) (s : List ℕ) → read h s ≡ Err de.Memory → ⊥ };
}

impl<T: NlType, X: Carried<T>> FromBytes for Framed<T, X> {
    ghost Value = { Head T × X.Value };

    ghost view = { λ m. (m.header, X.view m.payload) };

    ghost read = { frame_at (layout_with T.wire_value X.read) };

    ghost takes_memory = { frame_takes_memory (layout_with T.wire_value X.read) X.takes_memory };

    ghost local = { layout_with-local T.wire_value X.read };

    ghost no_memory = { layout_with-no_memory T.wire_value X.read X.no_memory };

    /// Reads the message at the cursor. An echoed message is read in this way alone, outside an error.
    ///
    /// The first fault refuses it: `Io(UnexpectedEof)` if there is no whole header, `InvalidInput(length)` if the
    /// stated length is below 16, `InvalidInput(length - 16)` if it exceeds the bytes; then the payload's refusal; then
    /// `Io(UnexpectedEof)` if padding is missing.
    #[tactic(auto, using(neli_wire::specs::laws::Reading::refused_first), unfolding(neli_wire::specs::Frames::frame_at))]
    fn from_bytes(alloc: Global, cursor: &mut Cursor<'_>) -> Result<Self, DeError> {
        let rest = cursor.rest();
        if rest.len() < MESSAGE_HEADER_SIZE {
            return Err(DeError::Io(ErrorKind::UnexpectedEof));
        }
        let header: NlmsghdrAck<T> = header_of(rest);
        let len = *header.nl_len() as usize;
        if len < MESSAGE_HEADER_SIZE {
            return Err(DeError::InvalidInput(len));
        }
        if rest.len() < len {
            return Err(DeError::InvalidInput(len - MESSAGE_HEADER_SIZE));
        }
        let payload = X::read_after(alloc, &header, &rest[MESSAGE_HEADER_SIZE..len])?;
        let end = alignto(len);
        if rest.len() < end {
            return Err(DeError::Io(ErrorKind::UnexpectedEof));
        }
        cursor.advance(end);
        Ok(Framed { header, payload })
    }
}

impl<T: NlType, X: TryClone> Framed<T, X> {
    /// An equal message.
    ///
    /// Refused only if memory runs out, and only where a copy of the payload takes some.
    pub fn try_clone(&self) -> Result<Self, NoMemory>
        ensures value { IfOk result (λ m. m ≡ self.now) }
        ensures memory { OnErr result (X.copy_takes_memory self.now.payload) }
    {
        let payload = self.payload.try_clone()?;
        Ok(Framed {
            header: self.header,
            payload,
        })
    }
}

impl<T: NlType, X: TryClone> TryClone for Framed<T, X> {
    ghost copy_takes_memory = { λ m. X.copy_takes_memory m.payload };

    fn try_clone(&self) -> Result<Self, NoMemory> {
        Framed::try_clone(self)
    }
}

/// A builder of messages: of their header, and of their payload. The length is computed.
/// [`NlmsghdrBuilder`](crate::NlmsghdrBuilder) and [`NlmsghdrErrBuilder`](crate::NlmsghdrErrBuilder) are names for it
/// with different payloads.
#[derive(Debug, Drop)]
pub struct FramedBuilder<T, X> {
    pub(crate) header: NlmsghdrAckBuilder<T>,
    pub(crate) payload: Option<X>,
}

impl<T, X> Default for FramedBuilder<T, X> {
    ghost use Rattle.std.specs.Prelude.{◌≡◌, None};

    ghost is_default = { λ b.
        b ≡ record {
          header = record {
            nl_len = None;
            nl_type = None;
            nl_flags = None;
            nl_seq = None;
            nl_pid = None;
          };
          payload = None;
        } };

    fn default() -> Self {
        FramedBuilder {
            header: NlmsghdrAckBuilder::default(),
            payload: None,
        }
    }
}

impl<T: Drop, X: Drop> FramedBuilder<T, X> {
    /// The type of the message.
    pub fn nl_type(mut self, value: T) -> Self
        ensures { result ≡ record self { header = record self.header { nl_type = Some value } } }
    {
        self.header = self.header.nl_type(value);
        self
    }

    /// The flags of the message. An echoed message has none by default.
    pub fn nl_flags(mut self, value: NlmF) -> Self
        ensures { result ≡ record self { header = record self.header { nl_flags = Some value } } }
    {
        self.header = self.header.nl_flags(value);
        self
    }

    /// The sequence number. 0 by default.
    pub fn nl_seq(mut self, value: u32) -> Self
        ensures { result ≡ record self { header = record self.header { nl_seq = Some value } } }
    {
        self.header = self.header.nl_seq(value);
        self
    }

    /// The port. 0 by default.
    pub fn nl_pid(mut self, value: u32) -> Self
        ensures { result ≡ record self { header = record self.header { nl_pid = Some value } } }
    {
        self.header = self.header.nl_pid(value);
        self
    }
}
