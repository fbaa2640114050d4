//! A message with a lent payload.

ghost use Rattle.std.specs.Prelude.{◌≡◌, ◌≢◌, ◌↔◌, [], Ok, Err, IfOk, IfErr, IsTrue, OnOk, OnErr};
ghost use Rattle.neli_wire.specs.Frames.{frame_at};
ghost use Rattle.neli_wire.specs.Place.{whole};
ghost use Rattle.neli_wire.specs.Refusals.{Refuses};
ghost use Rattle.neli_reader.specs.Answers.{after};
ghost use Rattle.neli_reader.specs.Messages.{message_of};
ghost use Rattle.neli_reader.specs.NlPayload.TheVariants as payload;
ghost use Rattle.neli_reader.specs.Retyping.{typed_header};
ghost use Rattle.neli_lent.specs.Messages.{as_owned, as_owned_takes_memory, code_of, code_or_zero, lent_kind};
ghost use Rattle.neli_lent.specs.Messages.{lent_message, message_view};

use crate::{LentAttrs, lend_payload};
use byteorder::{ByteOrder, LittleEndian};
use neli_consts::{MESSAGE_HEADER_SIZE, NLMSG_DONE, NLMSG_ERROR, NlType, NlmF};
use neli_reader::{Kind, NlPayload, Nlmsghdr, NlmsghdrAck};
use neli_wire::{Constant, Cursor, DeError, FromBytesWithInput, Header};
use std::alloc::Global;
use std::io::ErrorKind;

/// A message whose payload is the bytes that it was read from, whatever its kind: `struct nlmsghdr` of linux/netlink.h,
/// 16 bytes, and the payload.
#[derive(Clone, Copy, Debug)]
pub struct LentMessage<'b, T> {
    header: NlmsghdrAck<T>,
    payload: &'b [u8],
}

/// The code at the front of these bytes; 0 if they are too few.
fn code_or_zero(payload: &[u8]) -> i32
    ensures { result ≡ code_or_zero payload.now }
{
    if payload.len() < 4 {
        return 0;
    }
    LittleEndian::read_i32(payload)
}

impl<'b, T> LentMessage<'b, T> {
    /// The header as it was read, 16 bytes; it can be copied, and takes no memory.
    pub fn header(&self) -> &NlmsghdrAck<T>
        ensures { result.now ≡ self.now.header }
    {
        &self.header
    }

    /// The length that the message states, in bytes: header and payload.
    pub fn nl_len(&self) -> &u32
        ensures { result.now ≡ self.now.header.len }
    {
        self.header.nl_len()
    }

    /// The type of the message, which says what its payload means.
    pub fn nl_type(&self) -> &T
        ensures { result.now ≡ self.now.header.message_type }
    {
        self.header.nl_type()
    }

    /// The flags, with all the bits that were read, also those without a name.
    pub fn nl_flags(&self) -> &NlmF
        ensures { result.now ≡ self.now.header.flags }
    {
        self.header.nl_flags()
    }

    /// The sequence number: a reply has that of its request.
    pub fn nl_seq(&self) -> &u32
        ensures { result.now ≡ self.now.header.sequence_number }
    {
        self.header.nl_seq()
    }

    /// The port of the socket that the message belongs to; 0 is the kernel's.
    pub fn nl_pid(&self) -> &u32
        ensures { result.now ≡ self.now.header.port }
    {
        self.header.nl_pid()
    }

    /// The payload, whatever its kind. It lives as long as the bytes that it was read from.
    pub fn nl_payload(&self) -> &'b [u8]
        ensures { result.now ≡ self.now.payload.now }
    {
        self.payload
    }

    /// The attributes after a body's fixed header, as those of a link after its `Ifinfomsg`: `B` is the body, whose
    /// header's size is used.
    ///
    /// Refused as `InvalidInput` of the payload's length if that is shorter than the header.
    pub fn get_attrs<B: Header, K: Constant<Number = u16>>(
        &self,
    ) -> Result<LentAttrs<'b, K>, DeError>
        ensures value { IfOk result (λ attrs. (attrs.before ≡ [])
            × (after B.header self.now.payload.now ≡ Ok attrs.rest)) }
        ensures refused { IfErr result (λ e. after B.header self.now.payload.now ≡ Err e) }
    {
        let size = B::header_size();
        if self.payload.len() < size {
            return Err(DeError::InvalidInput(self.payload.len()));
        }
        Ok(LentAttrs::new(&self.payload[size..]))
    }
}

impl<'b, T: NlType> LentMessage<'b, T> {
    /// Reads the message at the cursor; its payload stays in place. It takes no memory.
    ///
    /// The first fault refuses it: `Io(UnexpectedEof)` if there is no whole header, `InvalidInput(length)` if the
    /// stated length is below 16, `InvalidInput(length - 16)` if it exceeds the bytes; then `Io(UnexpectedEof)` if
    /// padding is missing. A refusal leaves the cursor where it was.
    #[inline]
    #[tactic(auto, unfolding(neli_wire::specs::Frames::frame_at))]
    pub fn lend(cursor: &mut Cursor<'b>) -> Result<Self, DeError>
        ensures value { IfOk result (λ m. frame_at (lent_message T.wire_value) cursor.old.rest
            ≡ Ok (message_view m, cursor.new.rest)) }
        ensures moved { OnOk result (whole cursor.new ≡ whole cursor.old) }
        ensures refused { IfErr result
            (λ e. frame_at (lent_message T.wire_value) cursor.old.rest ≡ Err e) }
        ensures unchanged { OnErr result (cursor.new ≡ cursor.old) }
    {
        let rest = cursor.rest();
        let Some(header) = NlmsghdrAck::of_bytes(rest) else {
            return Err(DeError::Io(ErrorKind::UnexpectedEof));
        };
        let len = *header.nl_len() as usize;
        let payload = lend_payload(cursor, MESSAGE_HEADER_SIZE, len)?;
        Ok(LentMessage { header, payload })
    }

    /// What the payload is, by the type, the flags and the payload's bytes. It takes no memory.
    pub fn kind(&self) -> Kind
        ensures { result ≡ lent_kind T.wire_number (message_view self.now) }
    {
        Kind::of(
            self.header.nl_type().to_number(),
            *self.nl_flags(),
            self.payload,
        )
    }

    /// The message as an owned one, its payload read by its kind: the same as reading a `Nlmsghdr<T, P>` directly.
    ///
    /// Refused as that payload is refused.
    pub fn to_nlmsghdr<P: FromBytesWithInput>(
        &self,
        alloc: Global,
    ) -> Result<Nlmsghdr<T, P>, DeError>
        ensures value { IfOk result
            (λ m. as_owned T.wire_value T.wire_number P.read (message_view self.now)
            ≡ Ok (message_of P.view m)) }
        ensures refused { IfErr result
            (Refuses (as_owned T.wire_value T.wire_number P.read (message_view self.now))
            (as_owned_takes_memory T.wire_number P.read P.takes_memory (message_view self.now))) }
    {
        let number = self.header.nl_type().to_number();
        let flags = *self.header.nl_flags();
        let mut cursor = Cursor::new(self.payload);
        let payload = NlPayload::from_parts(alloc, &mut cursor, number, flags, self.payload.len())?;
        Ok(Nlmsghdr::from_header(self.header, payload))
    }
}

impl<'b> LentMessage<'b, u16> {
    /// Whether the type alone makes the payload a body: true for all types but 2 (`NLMSG_ERROR`) and 3 (`NLMSG_DONE`).
    /// It takes no memory.
    pub fn has_plain_body(&self) -> bool
        ensures body { IsTrue result
            → as_owned (λ n. n) (λ n. n) (λ bytes. Ok bytes) (message_view self.now)
            ≡ Ok (self.now.header, payload.Payload self.now.payload.now) }
        ensures types { IsTrue result
            ↔ (self.now.header.message_type ≢ 2) × (self.now.header.message_type ≢ 3) }
    {
        let number = *self.nl_type();
        number != NLMSG_ERROR && number != NLMSG_DONE
    }

    /// The code of an error, of an acknowledgement (`NLMSG_ERROR`) or of the end of a dump (`NLMSG_DONE`), the first 4
    /// bytes of its payload: 0, or the negated number of an error, as -19 for `ENODEV`. 0 of another message, and where
    /// the payload has less than 4 bytes. It takes no memory.
    pub fn code(&self) -> i32
        ensures { result ≡ code_of (message_view self.now) }
    {
        match *self.nl_type() {
            NLMSG_ERROR | NLMSG_DONE => code_or_zero(self.nl_payload()),
            _ => 0,
        }
    }

    /// The same message with the meaning of its type's number. It takes no memory.
    pub fn to_typed<T: NlType>(&self) -> LentMessage<'b, T>
        ensures header { result.header ≡ typed_header T.wire_value self.now.header }
        ensures payload { result.payload.now ≡ self.now.payload.now }
    {
        LentMessage {
            header: self.header.to_typed(),
            payload: self.payload,
        }
    }
}
