//! The header of a message.

ghost use Rattle.std.specs.Prelude.{◌≡◌, ◌≤◌, ◌<◌, MatchOption, Ok, Some, None, IfOk, OnOk, OnErr, IfErr, length, take};
ghost use Rattle.neli_attr.specs.Builders.{IsWhyNot};
ghost use Rattle.neli_msg.specs.Builders.{built_header};
ghost use Rattle.neli_msg.specs.Retyping.{typed_header, with_len};
ghost use Rattle.neli_wire.specs.Reading.{value_at};
ghost use Rattle.neli_wire.specs.laws.Reading.{value_at-local, value_at-no_memory};
ghost use Rattle.neli_wire.specs.laws.Sizes.{unpadded-rounded};
ghost use Rattle.neli_wire.specs.laws.Writing.{written-length, written-no_memory};
ghost use Rattle.neli_wire.specs.Writing.{RefusesWrite, append_wire};
ghost use Rattle.neli_msg.specs.Headers.{Header, header_in, header_wire};
ghost use Rattle.neli_msg.specs.laws.Headers.{header_wire-length, header_wire-no_memory, header_wire-zeros};

use byteorder::{ByteOrder, LittleEndian};
use neli_attr::{BuildError, of};
use neli_consts::{MESSAGE_HEADER_SIZE, NlType, NlmF};
use neli_list::TryClone;
use neli_wire::implementing::undo_on_refusal;
use neli_wire::{
    Constant, Cursor, DeError, FromBytes, NoMemory, SerError, Size, ToBytes,
    UninitializedFieldError,
};
use std::alloc::Global;

/// The header of a message: `struct nlmsghdr` of linux/netlink.h, 16 bytes. An acknowledgement carries that of the
/// message that it answers.
#[derive(Clone, Copy, Debug, PartialEq, Eq)]
pub struct NlmsghdrAck<T> {
    pub(crate) len: u32,
    pub(crate) message_type: T,
    pub(crate) flags: NlmF,
    pub(crate) sequence_number: u32,
    pub(crate) port: u32,
}

impl<T> NlmsghdrAck<T> {
    /// The length that the message states, in bytes: header and payload; rounded up to four if it was computed here.
    pub fn nl_len(&self) -> &u32
        ensures { result.now ≡ self.now.len }
    {
        &self.len
    }

    /// The type of the message, which says what its payload means.
    pub fn nl_type(&self) -> &T
        ensures { result.now ≡ self.now.message_type }
    {
        &self.message_type
    }

    /// The flags, with all the bits that were read, also those without a name.
    pub fn nl_flags(&self) -> &NlmF
        ensures { result.now ≡ self.now.flags }
    {
        &self.flags
    }

    /// The sequence number: a reply has that of its request.
    pub fn nl_seq(&self) -> &u32
        ensures { result.now ≡ self.now.sequence_number }
    {
        &self.sequence_number
    }

    /// The port of the socket that the message belongs to; 0 is the kernel's.
    pub fn nl_pid(&self) -> &u32
        ensures { result.now ≡ self.now.port }
    {
        &self.port
    }
}

/// The header at the front of these bytes.
pub(crate) fn header_of<T: Constant<Number = u16>>(bytes: &[u8]) -> NlmsghdrAck<T>
    requires { 16 ≤ length bytes.now }
    ensures { result ≡ header_in T.wire_value bytes.now }
{
    NlmsghdrAck {
        len: LittleEndian::read_u32(bytes),
        message_type: T::from_wire(LittleEndian::read_u16(&bytes[4..])),
        flags: NlmF::from_wire(LittleEndian::read_u16(&bytes[6..])),
        sequence_number: LittleEndian::read_u32(&bytes[8..]),
        port: LittleEndian::read_u32(&bytes[12..]),
    }
}

impl<T: NlType> NlmsghdrAck<T> {
    /// The header at the front of these bytes; `None` if there are fewer than 16. It takes no memory.
    pub fn of_bytes(bytes: &[u8]) -> Option<Self>
        ensures { MatchOption result (length bytes.now < 16)
            (λ h. (16 ≤ length bytes.now) × (h ≡ header_in T.wire_value bytes.now)) }
    {
        if bytes.len() < MESSAGE_HEADER_SIZE {
            return None;
        }
        Some(header_of(bytes))
    }
}

impl<T: NlType> TryClone for NlmsghdrAck<T> {
    ghost copy_takes_memory = { λ _. ⊥ };

    fn try_clone(&self) -> Result<Self, NoMemory> {
        Ok(*self)
    }
}

impl<T: NlType> FromBytes for NlmsghdrAck<T> {
    ghost Value = { Header T };

    ghost view = { λ h. h };

    ghost read = { value_at 16 (header_in T.wire_value) };

    ghost takes_memory = { λ _. ⊥ };

    ghost local = { value_at-local 16 (header_in T.wire_value) };

    ghost no_memory = { value_at-no_memory 16 (header_in T.wire_value) };

    fn from_bytes(_alloc: Global, cursor: &mut Cursor<'_>) -> Result<Self, DeError> {
        let bytes = cursor.bytes(MESSAGE_HEADER_SIZE)?;
        Ok(header_of(bytes))
    }
}

impl<T: NlType> Size for NlmsghdrAck<T> {
    ghost unpadded_length = { λ _. 16 };

    ghost wire_length = { λ _. 16 };

    ghost rounded = { unpadded-rounded (λ _. 16) };

    fn unpadded_size(&self) -> usize {
        MESSAGE_HEADER_SIZE
    }

    fn written_size(&self) -> usize {
        MESSAGE_HEADER_SIZE
    }
}

/// Appends a header. A refusal leaves some of it appended.
#[tactic(auto, using(neli_wire::specs::laws::Writing::append_wire_both))]
fn write_fields<T: Constant<Number = u16>>(
    header: &NlmsghdrAck<T>,
    buffer: &mut Vec<u8>,
) -> Result<(), SerError>
    ensures appended { OnOk result
        (append_wire buffer.old.items (header_wire T.wire_number header.now)
        ≡ Ok buffer.new.items) }
    ensures refused { IfErr result (RefusesWrite (header_wire T.wire_number header.now)) }
    ensures front { OnErr result
        (take (length buffer.old.items) buffer.new.items ≡ buffer.old.items) }
{
    header.len.to_bytes(buffer)?;
    header.message_type.to_bytes(buffer)?;
    header.flags.to_bytes(buffer)?;
    header.sequence_number.to_bytes(buffer)?;
    header.port.to_bytes(buffer)?;
    Ok(())
}

impl<T: NlType> ToBytes for NlmsghdrAck<T> {
    ghost wire = { header_wire T.wire_number };

    ghost length_is = { header_wire-length T.wire_number };

    ghost zeros_after = { header_wire-zeros T.wire_number };

    ghost no_memory = { header_wire-no_memory T.wire_number };

    fn to_bytes(&self, buffer: &mut Vec<u8>) -> Result<(), SerError> {
        let start = buffer.len();
        let outcome = write_fields(self, buffer);
        undo_on_refusal(buffer, start, outcome)
    }
}

/// Why no header was built.
pub type NlmsghdrAckBuilderError = BuildError<{ of::NLMSGHDR_ACK }>;

/// A builder of headers. Each field is required.
#[derive(Debug, Drop)]
pub struct NlmsghdrAckBuilder<T> {
    pub(crate) nl_len: Option<u32>,
    pub(crate) nl_type: Option<T>,
    pub(crate) nl_flags: Option<NlmF>,
    pub(crate) nl_seq: Option<u32>,
    pub(crate) nl_pid: Option<u32>,
}

impl<T> Default for NlmsghdrAckBuilder<T> {
    ghost use Rattle.std.specs.Prelude.{◌≡◌, None};

    ghost is_default = { λ b.
        b ≡ record {
          nl_len = None;
          nl_type = None;
          nl_flags = None;
          nl_seq = None;
          nl_pid = None;
        } };

    fn default() -> Self {
        NlmsghdrAckBuilder {
            nl_len: None,
            nl_type: None,
            nl_flags: None,
            nl_seq: None,
            nl_pid: None,
        }
    }
}

impl<T: Drop> NlmsghdrAckBuilder<T> {
    /// The length that the message states, in bytes.
    pub fn nl_len(mut self, value: u32) -> Self
        ensures { result ≡ record self { nl_len = Some value } }
    {
        self.nl_len = Some(value);
        self
    }

    /// The type of the message.
    pub fn nl_type(mut self, value: T) -> Self
        ensures { result ≡ record self { nl_type = Some value } }
    {
        self.nl_type = Some(value);
        self
    }

    /// The flags of the message.
    pub fn nl_flags(mut self, value: NlmF) -> Self
        ensures { result ≡ record self { nl_flags = Some value } }
    {
        self.nl_flags = Some(value);
        self
    }

    /// The sequence number of the message.
    pub fn nl_seq(mut self, value: u32) -> Self
        ensures { result ≡ record self { nl_seq = Some value } }
    {
        self.nl_seq = Some(value);
        self
    }

    /// The port of the socket that the message belongs to; 0 is the kernel's.
    pub fn nl_pid(mut self, value: u32) -> Self
        ensures { result ≡ record self { nl_pid = Some value } }
    {
        self.nl_pid = Some(value);
        self
    }
}

impl<T: Drop> NlmsghdrAckBuilder<T> {
    /// Builds the header. It takes no memory.
    ///
    /// Refused if a field is missing; the error names the first one.
    pub fn build(self) -> Result<NlmsghdrAck<T>, NlmsghdrAckBuilderError>
        ensures built { IfOk result (λ h. built_header self ≡ Ok h) }
        ensures refused { IfErr result
            (λ e. (e ≡ BuildError.Memory → ⊥) × IsWhyNot (built_header self) e) }
    {
        let len = self.nl_len.ok_or(UninitializedFieldError::new("nl_len"))?;
        let message_type = self.nl_type.ok_or(UninitializedFieldError::new("nl_type"))?;
        let flags = self
            .nl_flags
            .ok_or(UninitializedFieldError::new("nl_flags"))?;
        let sequence_number = self.nl_seq.ok_or(UninitializedFieldError::new("nl_seq"))?;
        let port = self.nl_pid.ok_or(UninitializedFieldError::new("nl_pid"))?;
        Ok(NlmsghdrAck {
            len,
            message_type,
            flags,
            sequence_number,
            port,
        })
    }
}

impl NlmsghdrAck<u16> {
    /// The same header with the meaning of its type's number.
    pub fn to_typed<T: NlType>(&self) -> NlmsghdrAck<T>
        ensures { result ≡ typed_header T.wire_value self.now }
    {
        NlmsghdrAck {
            len: self.len,
            message_type: T::from_number(self.message_type),
            flags: self.flags,
            sequence_number: self.sequence_number,
            port: self.port,
        }
    }
}

impl<T: Copy> NlmsghdrAck<T> {
    /// The same header with another length.
    pub(crate) fn with_len(&self, len: u32) -> NlmsghdrAck<T>
        ensures { result ≡ with_len self.now len }
    {
        NlmsghdrAck {
            len,
            message_type: self.message_type,
            flags: self.flags,
            sequence_number: self.sequence_number,
            port: self.port,
        }
    }
}
