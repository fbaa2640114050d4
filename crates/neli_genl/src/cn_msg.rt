//! Messages of the connector.

ghost use Rattle.std.specs.Prelude.{◌≡◌, ◌+◌, Some, None, Ok, IfOk, IfErr, OnErr};
ghost use Rattle.neli_wire.specs.laws.Sizes.{unpadded-rounded};
ghost use Rattle.neli_attr.specs.Builders.{IsWhyNot};
ghost use Rattle.neli_body.specs.Bodies.{body_of, body_takes_memory, body_wire};
ghost use Rattle.neli_body.specs.laws.Bodies.{body_of-never_short, body_of-no_memory, body_wire-length};
ghost use Rattle.neli_body.specs.laws.Bodies.{body_wire-no_memory, body_wire-zeros};
ghost use Rattle.neli_genl.specs.CnMsg.{IsPlainCnMsg, cn_msg_built, cn_msg_bytes, cn_msg_header};
ghost use Rattle.neli_genl.specs.laws.CnMsg.{cn_msg-reads_back, cn_msg-width, cn_msg-writes_back};

use neli_attr::{BuildError, TryClone, of};
use neli_body::numbers::{u16_in, u32_in};
use neli_body::{FixedHeader, HeaderBytes, read_body, size_of_body, write_body};
use neli_consts_system::{CnMsgIdx, CnMsgVal};
use neli_wire::implementing::length_refusal;
use neli_wire::{
    Constant, Cursor, DeError, FromBytesWithInput, Header, NoMemory, SerError, Size, ToBytes,
    UninitializedFieldError,
};
use std::alloc::Global;

/// The fields of a connector message before its payload.
#[derive(Clone, Copy, Debug, PartialEq, Eq)]
struct CnMsgHeader {
    idx: CnMsgIdx,
    val: CnMsgVal,
    seq: u32,
    ack: u32,
    len: u16,
    flags: u16,
}

/// A message of the connector: `struct cn_msg` of `linux/connector.h`, 20 bytes, and a payload to the end.
#[derive(Debug, Drop, PartialEq, Eq)]
pub struct CnMsg<P> {
    header: CnMsgHeader,
    payload: P,
}

impl<P> CnMsg<P> {
    /// The part of the kernel that the message belongs to.
    pub fn idx(&self) -> &CnMsgIdx
        ensures { result.now ≡ self.now.header.idx }
    {
        &self.header.idx
    }

    /// The channel of that part.
    pub fn val(&self) -> &CnMsgVal
        ensures { result.now ≡ self.now.header.val }
    {
        &self.header.val
    }

    /// The sequence number of the message.
    pub fn seq(&self) -> &u32
        ensures { result.now ≡ self.now.header.seq }
    {
        &self.header.seq
    }

    /// The sequence number that this message acknowledges.
    pub fn ack(&self) -> &u32
        ensures { result.now ≡ self.now.header.ack }
    {
        &self.header.ack
    }

    /// The number of bytes of the payload, as it was read or computed.
    pub fn len(&self) -> &u16
        ensures { result.now ≡ self.now.header.len }
    {
        &self.header.len
    }

    /// Flags; none has a name.
    pub fn flags(&self) -> &u16
        ensures { result.now ≡ self.now.header.flags }
    {
        &self.header.flags
    }

    /// The payload.
    pub fn payload(&self) -> &P
        ensures { result.now ≡ self.now.payload }
    {
        &self.payload
    }
}

impl<P: TryClone> CnMsg<P> {
    /// An equal message.
    ///
    /// Refused only if memory runs out, and only where a copy of the payload takes some.
    pub fn try_clone(&self) -> Result<Self, NoMemory>
        ensures value { IfOk result (λ m. m ≡ self.now) }
        ensures memory { OnErr result (P.copy_takes_memory self.now.payload) }
    {
        Ok(CnMsg {
            header: self.header,
            payload: self.payload.try_clone()?,
        })
    }
}

impl<P: TryClone> TryClone for CnMsg<P> {
    ghost copy_takes_memory = { λ m. P.copy_takes_memory m.payload };

    fn try_clone(&self) -> Result<Self, NoMemory> {
        CnMsg::try_clone(self)
    }
}

impl FixedHeader for CnMsgHeader {
    ghost width = { 20 };

    ghost bytes_of = { cn_msg_bytes };

    ghost header_of = { cn_msg_header };

    ghost IsPlain = { IsPlainCnMsg };

    ghost width_is = { cn_msg-width };

    ghost reads_back = { cn_msg-reads_back };

    ghost writes_back = { cn_msg-writes_back };

    fn size() -> usize {
        20
    }

    fn spell(&self) -> HeaderBytes {
        HeaderBytes::new()
            .u32(self.idx.to_wire())
            .u32(self.val.to_wire())
            .u32(self.seq)
            .u32(self.ack)
            .u16(self.len)
            .u16(self.flags)
    }

    fn from_spelling(bytes: &[u8]) -> CnMsgHeader {
        CnMsgHeader {
            idx: CnMsgIdx::from_wire(u32_in(bytes, 0)),
            val: CnMsgVal::from_wire(u32_in(bytes, 4)),
            seq: u32_in(bytes, 8),
            ack: u32_in(bytes, 12),
            len: u16_in(bytes, 16),
            flags: u16_in(bytes, 18),
        }
    }
}

impl<P> Header for CnMsg<P> {
    ghost header = { 20 };

    fn header_size() -> usize {
        CnMsgHeader::size()
    }
}

impl<P: Size> Size for CnMsg<P> {
    ghost unpadded_length = { λ m. 20 + P.wire_length m.payload };

    ghost wire_length = { λ m. 20 + P.wire_length m.payload };

    ghost rounded = { unpadded-rounded (λ m. 20 + P.wire_length m.payload) };

    fn unpadded_size(&self) -> usize {
        size_of_body::<CnMsgHeader, P>(&self.payload)
    }

    fn written_size(&self) -> usize {
        self.unpadded_size()
    }
}

impl<P: ToBytes> ToBytes for CnMsg<P> {
    ghost wire = { λ m. body_wire (cn_msg_bytes m.header) (P.wire m.payload) };

    ghost length_is = { λ m. body_wire-length 20 (cn_msg_bytes m.header) (cn_msg-width m.header)
        (P.wire m.payload) (P.Size.wire_length m.payload) (P.length_is m.payload) };

    ghost zeros_after = { λ m. body_wire-zeros 20 (cn_msg_bytes m.header) (cn_msg-width m.header)
        (P.wire m.payload) (P.Size.wire_length m.payload) (P.length_is m.payload) };

    ghost no_memory = { λ m. body_wire-no_memory (cn_msg_bytes m.header) (P.wire m.payload)
        (P.no_memory m.payload) };

    fn to_bytes(&self, buffer: &mut Vec<u8>) -> Result<(), SerError> {
        write_body(&self.header, &self.payload, buffer)
    }
}

impl<P: FromBytesWithInput> FromBytesWithInput for CnMsg<P> {
    ghost use Rattle.neli_genl.specs.declared.cn_msg.CnMsgHeader.{CnMsgHeader as Fields};

    ghost Value = { Fields × P.Value };

    ghost view = { λ m. (m.header, P.view m.payload) };

    ghost read = { body_of 20 cn_msg_header P.read };

    ghost takes_memory = { body_takes_memory 20 P.takes_memory };

    ghost no_memory = { body_of-no_memory 20 cn_msg_header P.read P.no_memory };

    ghost never_short = { body_of-never_short 20 cn_msg_header P.read P.never_short };

    /// Reads a header and its payload. The header's `len` is kept as read, and not checked.
    fn from_bytes_with_input(
        alloc: Global,
        cursor: &mut Cursor<'_>,
        n: usize,
    ) -> Result<CnMsg<P>, DeError> {
        let (header, payload) = read_body(alloc, cursor, n)?;
        Ok(CnMsg { header, payload })
    }
}

/// Why no connector message was built.
pub type CnMsgBuilderError = BuildError<{ of::CN_MSG }>;

/// A builder of connector messages. The length is that of the payload.
#[derive(Debug, Drop)]
pub struct CnMsgBuilder<P> {
    idx: Option<CnMsgIdx>,
    val: Option<CnMsgVal>,
    seq: Option<u32>,
    ack: Option<u32>,
    flags: Option<u16>,
    payload: Option<P>,
}

impl<P> Default for CnMsgBuilder<P> {
    ghost is_default = { λ b.
        b ≡ record {
          idx = None;
          val = None;
          seq = None;
          ack = None;
          flags = None;
          payload = None;
        } };

    fn default() -> Self {
        CnMsgBuilder {
            idx: None,
            val: None,
            seq: None,
            ack: None,
            flags: None,
            payload: None,
        }
    }
}

impl<P: Size + Drop> CnMsgBuilder<P> {
    /// The part of the kernel that the message belongs to.
    pub fn idx(mut self, value: CnMsgIdx) -> Self
        ensures { result ≡ record self { idx = Some value } }
    {
        self.idx = Some(value);
        self
    }

    /// The channel of that part.
    pub fn val(mut self, value: CnMsgVal) -> Self
        ensures { result ≡ record self { val = Some value } }
    {
        self.val = Some(value);
        self
    }

    /// The sequence number of the message. 0 by default.
    pub fn seq(mut self, value: u32) -> Self
        ensures { result ≡ record self { seq = Some value } }
    {
        self.seq = Some(value);
        self
    }

    /// The sequence number that this message acknowledges. 0 by default.
    pub fn ack(mut self, value: u32) -> Self
        ensures { result ≡ record self { ack = Some value } }
    {
        self.ack = Some(value);
        self
    }

    /// Flags; none has a name. 0 by default.
    pub fn flags(mut self, value: u16) -> Self
        ensures { result ≡ record self { flags = Some value } }
    {
        self.flags = Some(value);
        self
    }

    /// The payload.
    pub fn payload(mut self, value: P) -> Self
        ensures { result ≡ record self { payload = Some value } }
    {
        self.payload = Some(value);
        self
    }

    /// Builds the message, with the length of the payload. It takes no memory.
    ///
    /// Refused first if `idx`, `val` or the payload is missing, with the name of the first one; then if the payload is
    /// written as more than 65535 bytes.
    pub fn build(self) -> Result<CnMsg<P>, CnMsgBuilderError>
        ensures built { IfOk result (λ m. cn_msg_built P.wire_length self ≡ Ok m) }
        ensures refused { IfErr result (λ e. (e ≡ BuildError.Memory → ⊥)
            × IsWhyNot (cn_msg_built P.wire_length self) e) }
    {
        let idx = self.idx.ok_or(UninitializedFieldError::new("idx"))?;
        let val = self.val.ok_or(UninitializedFieldError::new("val"))?;
        let payload = self.payload.ok_or(UninitializedFieldError::new("payload"))?;
        let len = u16::try_from(payload.written_size())
            .ok()
            .ok_or(BuildError::ValidationError(length_refusal()))?;
        let header = CnMsgHeader {
            idx,
            val,
            seq: self.seq.unwrap_or(0),
            ack: self.ack.unwrap_or(0),
            len,
            flags: self.flags.unwrap_or(0),
        };
        Ok(CnMsg { header, payload })
    }
}
