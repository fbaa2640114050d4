//! Answers: errors, acknowledgements and ends of dumps.

ghost use Rattle.std.specs.Prelude.{◌≡◌, ◌<◌, ◌≤◌, ◌+◌, ◌^◌, ℕ, Ok, Err, Some};
ghost use Rattle.std.specs.Prelude.{None, IfOk, IfErr, OnOk, OnErr, length, drop, min};
ghost use Rattle.neli_attr.specs.Builders.{IsWhyNot};
ghost use Rattle.neli_wire.specs.laws.Sizes.{unpadded-rounded};
ghost use Rattle.neli_wire.specs.Refusals.{Refuses};
ghost use Rattle.neli_msg.specs.Headers.{Header};
ghost use Rattle.neli_msg.specs.Answers.{acknowledgement_in, after, after_echo, answer, answer_text};
ghost use Rattle.neli_msg.specs.Answers.{code_in, dump_end_in, echoed_count, echoed_in, failure_in};
ghost use Rattle.neli_msg.specs.Answers.{failure_takes_memory, failure_view, headed_in, tail_in, tail_takes_memory};
ghost use Rattle.neli_msg.specs.Builders.{built_answer};
ghost use Rattle.neli_msg.specs.Copies.{answer_copy_takes_memory};
ghost use Rattle.neli_msg.specs.Retyping.{HasOwnLength, IsTooLong, RefusesTyping};
ghost use Rattle.neli_msg.specs.Retyping.{failure_stating, failure_typing_takes_memory, typed_acknowledgement};
ghost use Rattle.neli_msg.specs.Retyping.{typed_failure};
ghost use Rattle.neli_msg.specs.Wires.{answer_size, answer_wire};
ghost use Rattle.neli_msg.specs.laws.Wires.{answer_wire-length, answer_wire-no_memory, answer_wire-zeros};
ghost use Rattle.neli_msg.specs.laws.Answers.{acknowledgement_in-never_short, acknowledgement_in-no_memory};
ghost use Rattle.neli_msg.specs.laws.Answers.{dump_end_in-never_short, dump_end_in-no_memory};
ghost use Rattle.neli_msg.specs.laws.Answers.{failure_in-never_short, failure_in-no_memory};

use crate::frame::{from_place, read_attributes, write_three};
use crate::framed::Framed;
use crate::header::header_of;
use crate::{Echoed, NlmsghdrAck, NlmsghdrErr, RouterError, Tail};
use byteorder::{ByteOrder, LittleEndian};
use neli_attr::{Buffer, BuildError, GenlBuffer, of};
use neli_consts::{MESSAGE_HEADER_SIZE, NlType, NlmsgerrAttr};
use neli_list::{TryClone, read_whole};
use neli_wire::{
    Constant, Cursor, DeError, FromBytesWithInput, NoMemory, SerError, Size, ToBytes,
    UninitializedFieldError, alignto,
};
use std::alloc::Global;
use std::error::Error;
use std::fmt;

/// The size of a code and the header of the answered message, in bytes: the kernel's `struct nlmsgerr`
/// (linux/netlink.h).
const ANSWER_SIZE: usize = 20;

/// An answer: a code of four bytes, what it answers, and attributes with details (`struct nlmsgerr` of linux/netlink.h;
/// RFC 3549 section 2.3.2.2).
#[derive(Debug, Drop, PartialEq, Eq)]
pub struct Nlmsgerr<M> {
    error: i32,
    nlmsg: M,
    ext_ack: GenlBuffer<NlmsgerrAttr, Buffer>,
}

impl<M> Nlmsgerr<M> {
    /// The code: 0, or the negated number of an error, as -22 for `EINVAL`.
    pub fn error(&self) -> &i32
        ensures { result.now ≡ self.now.error }
    {
        &self.error
    }

    /// What is answered: the whole message, its header, or nothing.
    pub fn nlmsg(&self) -> &M
        ensures { result.now ≡ self.now.nlmsg }
    {
        &self.nlmsg
    }

    /// The attributes with details, such as a text and the place of the fault.
    pub fn ext_ack(&self) -> &GenlBuffer<NlmsgerrAttr, Buffer>
        ensures { result.now ≡ self.now.ext_ack }
    {
        &self.ext_ack
    }
}

/// The bytes after the first `n`, which must exist.
fn after(bytes: &[u8], n: usize) -> Result<&[u8], DeError>
    ensures value { IfOk result (λ b. after n bytes.now ≡ Ok b.now) }
    ensures long { OnOk result (n ≤ length bytes.now) }
    ensures refused { IfErr result (Refuses (after n bytes.now) ⊥) }
{
    if bytes.len() < n {
        return Err(DeError::InvalidInput(bytes.len()));
    }
    Ok(&bytes[n..])
}

/// An answer with the code at the front of these bytes.
fn answer_of<M>(bytes: &[u8], nlmsg: M, ext_ack: GenlBuffer<NlmsgerrAttr, Buffer>) -> Nlmsgerr<M>
    requires { 4 ≤ length bytes.now }
    ensures { result ≡ answer (code_in bytes.now) nlmsg ext_ack }
{
    let error = LittleEndian::read_i32(bytes);
    Nlmsgerr {
        error,
        nlmsg,
        ext_ack,
    }
}

/// Reads the end of a dump.
#[tactic(auto, using(neli_wire::specs::laws::Reading::refused_first))]
pub(crate) fn read_dump_end(alloc: Global, bytes: &[u8]) -> Result<Nlmsgerr<()>, DeError>
    ensures value { IfOk result (λ e. dump_end_in bytes.now ≡ Ok e) }
    ensures refused { IfErr result
        (Refuses (dump_end_in bytes.now) (0 < length (drop 4 bytes.now))) }
{
    let rest = after(bytes, 4)?;
    let ext_ack = read_attributes(alloc, rest)?;
    Ok(answer_of(bytes, (), ext_ack))
}

/// The attributes of a tail; none if it is not read.
fn read_tail(
    alloc: Global,
    tail: Tail,
    bytes: &[u8],
) -> Result<GenlBuffer<NlmsgerrAttr, Buffer>, DeError>
    ensures value { IfOk result (λ list. tail_in tail bytes.now ≡ Ok list) }
    ensures refused { IfErr result (Refuses (tail_in tail bytes.now)
        (tail_takes_memory tail bytes.now)) }
{
    match tail {
        Tail::Unread => Ok(GenlBuffer::new(alloc)),
        Tail::Attributes => read_attributes(alloc, bytes),
    }
}

/// Reads an answer that echoes only a header: an acknowledgement or a capped error.
#[tactic(auto, using(neli_wire::specs::laws::Reading::refused_first))]
pub(crate) fn read_headed<T: Constant<Number = u16>>(
    alloc: Global,
    tail: Tail,
    bytes: &[u8],
) -> Result<Nlmsgerr<NlmsghdrAck<T>>, DeError>
    ensures value { IfOk result (λ e. headed_in T.wire_value tail bytes.now ≡ Ok e) }
    ensures refused { IfErr result
        (Refuses (headed_in T.wire_value tail bytes.now) (tail_takes_memory tail (drop 20 bytes.now))) }
{
    let rest = after(bytes, ANSWER_SIZE)?;
    let ext_ack = read_tail(alloc, tail, rest)?;
    let header = header_of(&bytes[4..]);
    Ok(answer_of(bytes, header, ext_ack))
}

/// The number of payload bytes that the echoed message states; 0 if its length is below the header's.
fn echoed_count(bytes: &[u8]) -> usize
    requires { 20 ≤ length bytes.now }
    ensures count { result ≡ echoed_count bytes.now }
    ensures fits { result < 2 ^ 32 }
{
    let len = LittleEndian::read_u32(&bytes[4..]);
    (len as usize).saturating_sub(MESSAGE_HEADER_SIZE)
}

/// The payload of the echoed message.
fn echoed(bytes: &[u8]) -> Result<&[u8], DeError>
    requires { 20 ≤ length bytes.now }
    ensures value { IfOk result (λ b. echoed_in bytes.now ≡ Ok b.now) }
    ensures refused { IfErr result (Refuses (echoed_in bytes.now) ⊥) }
{
    let len = LittleEndian::read_u32(&bytes[4..]) as usize;
    if len < MESSAGE_HEADER_SIZE {
        return Err(DeError::InvalidInput(len));
    }
    let count = len - MESSAGE_HEADER_SIZE;
    if bytes.len() - ANSWER_SIZE < count {
        return Err(DeError::InvalidInput(count));
    }
    Ok(&bytes[ANSWER_SIZE..ANSWER_SIZE + count])
}

/// What follows the echoed message and its padding.
fn after_echo(bytes: &[u8]) -> &[u8]
    requires { 20 ≤ length bytes.now }
    ensures { result.now ≡ after_echo bytes.now }
{
    from_place(bytes, ANSWER_SIZE + alignto(echoed_count(bytes)))
}

/// Reads an error.
#[tactic(auto, using(neli_wire::specs::laws::Reading::refused_first))]
pub(crate) fn read_failure<T: Constant<Number = u16>, P: FromBytesWithInput>(
    alloc: Global,
    bytes: &[u8],
) -> Result<Nlmsgerr<NlmsghdrErr<T, P>>, DeError>
    ensures value { IfOk result
        (λ e. failure_in T.wire_value P.read bytes.now ≡ Ok (failure_view P.view e)) }
    ensures refused { IfErr result
        (Refuses (failure_in T.wire_value P.read bytes.now)
        (failure_takes_memory P.read P.takes_memory bytes.now)) }
{
    after(bytes, ANSWER_SIZE)?;
    let body = echoed(bytes)?;
    let payload = Echoed(read_whole(alloc, body)?);
    let ext_ack = read_attributes(alloc, after_echo(bytes))?;
    let header = header_of(&bytes[4..]);
    Ok(answer_of(bytes, Framed { header, payload }, ext_ack))
}

impl FromBytesWithInput for Nlmsgerr<()> {
    ghost use Rattle.neli_msg.specs.declared.answer.Nlmsgerr.{Nlmsgerr as Answer};

    ghost Value = { Answer (Unit {0}) };

    ghost view = { λ e. e };

    ghost read = { dump_end_in };

    ghost takes_memory = { λ s. 0 < length (drop 4 s) };

    ghost no_memory = { dump_end_in-no_memory };

    ghost never_short = { dump_end_in-never_short };

    fn from_bytes_with_input(
        alloc: Global,
        cursor: &mut Cursor<'_>,
        n: usize,
    ) -> Result<Self, DeError> {
        let bytes = cursor.input(n)?;
        let answer = read_dump_end(alloc, bytes)?;
        cursor.advance(n);
        Ok(answer)
    }
}

impl<T: NlType> FromBytesWithInput for Nlmsgerr<NlmsghdrAck<T>> {
    ghost use Rattle.neli_msg.specs.declared.answer.Nlmsgerr.{Nlmsgerr as Answer};

    ghost Value = { Answer (Header T) };

    ghost view = { λ e. e };

    ghost read = { acknowledgement_in T.wire_value };

    ghost takes_memory = { λ _. ⊥ };

    ghost no_memory = { acknowledgement_in-no_memory T.wire_value };

    ghost never_short = { acknowledgement_in-never_short T.wire_value };

    /// Reads a code and a header; whatever follows them is skipped.
    fn from_bytes_with_input(
        alloc: Global,
        cursor: &mut Cursor<'_>,
        n: usize,
    ) -> Result<Self, DeError> {
        let bytes = cursor.input(n)?;
        let answer = read_headed(alloc, Tail::Unread, bytes)?;
        cursor.advance(n);
        Ok(answer)
    }
}

impl<T: NlType, P: FromBytesWithInput> FromBytesWithInput for Nlmsgerr<NlmsghdrErr<T, P>> {
    ghost use Rattle.neli_msg.specs.Framed.{NlmsghdrErr as Echo};
    ghost use Rattle.neli_msg.specs.declared.answer.Nlmsgerr.{Nlmsgerr as Answer};

    ghost Value = { Answer (Echo T P.Value) };

    ghost view = { failure_view P.view };

    ghost read = { failure_in T.wire_value P.read };

    ghost takes_memory = { failure_takes_memory P.read P.takes_memory };

    ghost no_memory = { failure_in-no_memory T.wire_value P.read P.no_memory };

    ghost never_short = { failure_in-never_short T.wire_value P.read P.never_short };

    fn from_bytes_with_input(
        alloc: Global,
        cursor: &mut Cursor<'_>,
        n: usize,
    ) -> Result<Self, DeError> {
        let bytes = cursor.input(n)?;
        let answer = read_failure(alloc, bytes)?;
        cursor.advance(n);
        Ok(answer)
    }
}

impl<M: Size> Size for Nlmsgerr<M> {
    ghost unpadded_length = { answer_size M.wire_length };

    ghost wire_length = { answer_size M.wire_length };

    ghost rounded = { unpadded-rounded (answer_size M.wire_length) };

    fn unpadded_size(&self) -> usize {
        self.nlmsg
            .written_size()
            .saturating_add(4)
            .saturating_add(self.ext_ack.written_size())
    }

    fn written_size(&self) -> usize {
        self.unpadded_size()
    }
}

impl<M: ToBytes> ToBytes for Nlmsgerr<M> {
    ghost wire = { answer_wire M.wire };

    ghost length_is = { answer_wire-length M.wire M.Size.wire_length M.length_is };

    ghost zeros_after = { answer_wire-zeros M.wire M.Size.wire_length M.length_is };

    ghost no_memory = { answer_wire-no_memory M.wire M.no_memory };

    fn to_bytes(&self, buffer: &mut Vec<u8>) -> Result<(), SerError> {
        write_three(&self.error, &self.nlmsg, &self.ext_ack, buffer)
    }
}

impl<M> fmt::Display for Nlmsgerr<M> {
    ghost output = { λ e. Some (answer_text e) };

    fn fmt<W: fmt::Write>(&self, f: &mut fmt::Formatter<W>) -> fmt::Result {
        let error = self.error;
        write!(f, "netlink error {error}")
    }
}

impl<M: fmt::Debug + Drop> Error for Nlmsgerr<M> {}

/// Why no answer was built.
pub type NlmsgerrBuilderError = BuildError<{ of::NLMSGERR }>;

/// A builder of answers.
#[derive(Debug, Drop)]
pub struct NlmsgerrBuilder<M> {
    error: Option<i32>,
    nlmsg: Option<M>,
    ext_ack: Option<GenlBuffer<NlmsgerrAttr, Buffer>>,
}

impl<M> Default for NlmsgerrBuilder<M> {
    ghost use Rattle.std.specs.Prelude.{◌≡◌, None};

    ghost is_default = { λ b. b ≡ record { error = None; nlmsg = None; ext_ack = None } };

    fn default() -> Self {
        NlmsgerrBuilder {
            error: None,
            nlmsg: None,
            ext_ack: None,
        }
    }
}

impl<M: Drop> NlmsgerrBuilder<M> {
    /// The code. 0 by default.
    pub fn error(mut self, value: i32) -> Self
        ensures { result ≡ record self { error = Some value } }
    {
        self.error = Some(value);
        self
    }

    /// What is answered.
    pub fn nlmsg(mut self, value: M) -> Self
        ensures { result ≡ record self { nlmsg = Some value } }
    {
        self.nlmsg = Some(value);
        self
    }

    /// The attributes. None by default.
    pub fn ext_ack(mut self, value: GenlBuffer<NlmsgerrAttr, Buffer>) -> Self
        ensures { result ≡ record self { ext_ack = Some value } }
    {
        self.ext_ack = Some(value);
        self
    }
}

impl<M: Drop> NlmsgerrBuilder<M> {
    /// Builds the answer. Only what is answered can be missing. It takes no memory; `alloc` is for an empty list of
    /// attributes.
    pub fn build(self, alloc: Global) -> Result<Nlmsgerr<M>, NlmsgerrBuilderError>
        ensures built { IfOk result (λ e. built_answer self ≡ Ok e) }
        ensures refused { IfErr result
            (λ e. (e ≡ BuildError.Memory → ⊥) × IsWhyNot (built_answer self) e) }
    {
        Ok(Nlmsgerr {
            error: self.error.unwrap_or(0),
            nlmsg: self.nlmsg.ok_or(UninitializedFieldError::new("nlmsg"))?,
            ext_ack: self.ext_ack.unwrap_or(GenlBuffer::new(alloc)),
        })
    }
}

/// An answer of these parts.
fn answer_with<M>(error: i32, nlmsg: M, ext_ack: GenlBuffer<NlmsgerrAttr, Buffer>) -> Nlmsgerr<M>
    ensures { result ≡ answer error nlmsg ext_ack }
{
    Nlmsgerr {
        error,
        nlmsg,
        ext_ack,
    }
}

impl<M: TryClone> Nlmsgerr<M> {
    /// An equal answer.
    ///
    /// Refused only if memory runs out: a copy takes some where that of the message does, or for attributes.
    pub fn try_clone(&self) -> Result<Self, NoMemory>
        ensures value { IfOk result (λ e. e ≡ self.now) }
        ensures memory { OnErr result (answer_copy_takes_memory M.copy_takes_memory self.now) }
    {
        let nlmsg = self.nlmsg.try_clone()?;
        let ext_ack = self.ext_ack.try_clone()?;
        Ok(answer_with(self.error, nlmsg, ext_ack))
    }
}

impl<M: TryClone> TryClone for Nlmsgerr<M> {
    ghost copy_takes_memory = { answer_copy_takes_memory M.copy_takes_memory };

    fn try_clone(&self) -> Result<Self, NoMemory> {
        Nlmsgerr::try_clone(self)
    }
}

impl Nlmsgerr<NlmsghdrAck<u16>> {
    /// The same acknowledgement with the meaning of its header's type number.
    ///
    /// Refused only if memory runs out, and never where there are no attributes.
    pub fn to_typed<T: NlType>(&self) -> Result<Nlmsgerr<NlmsghdrAck<T>>, NoMemory>
        ensures value { IfOk result (λ e. e ≡ typed_acknowledgement T.wire_value self.now) }
        ensures memory { OnErr result (0 < length self.now.ext_ack) }
    {
        let ext_ack = self.ext_ack.try_clone()?;
        Ok(answer_with(self.error, self.nlmsg.to_typed(), ext_ack))
    }
}

impl Nlmsgerr<NlmsghdrErr<u16, Buffer>> {
    /// The same error with the echoed message typed; its code and its attributes stay.
    ///
    /// Refused as the echoed message is, or if memory runs out while attributes are copied.
    pub fn to_typed<T: NlType, P: FromBytesWithInput + Size>(
        &self,
        alloc: Global,
    ) -> Result<Nlmsgerr<NlmsghdrErr<T, P>>, RouterError<T, P>>
        ensures value { IfOk result
            (λ e. typed_failure T.wire_value P.read self.now
            ≡ Ok (failure_stating self.now.nlmsg.header.len P.view e)) }
        ensures length { IfOk result (λ e. HasOwnLength P.wire_length e.nlmsg) }
        ensures refused { IfErr result (RefusesTyping (typed_failure T.wire_value P.read self.now)
            (IsTooLong P.view P.wire_length P.read self.now.nlmsg.payload.0)) }
        ensures memory { result ≡ Err RouterError.Memory
            → failure_typing_takes_memory P.read P.takes_memory self.now }
    {
        let typed = self.nlmsg.to_typed(alloc)?;
        let ext_ack = self.ext_ack.try_clone()?;
        Ok(answer_with(self.error, typed, ext_ack))
    }
}
