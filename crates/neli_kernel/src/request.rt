//! A request, and the kernel's answers to it.

ghost use Rattle.std.specs.Prelude.{◌≡◌, ◌<◌, [], Ok, IfOk, IfErr, length};
ghost use Rattle.neli_wire.specs.Refusals.{Refuses};
ghost use Rattle.neli_answers.specs.Answers.{is_dump};
ghost use Rattle.neli_reader.specs.Answers.{ext_ack_in};
ghost use Rattle.neli_reader.specs.NlPayload.TheVariants as payload;
ghost use Rattle.neli_kernel.specs.Answers.{RefusesMessage, acknowledgement, answer_flags, capped_error};
ghost use Rattle.neli_kernel.specs.Answers.{control, error, message_or_refusal, reply};
ghost use Rattle.neli_kernel.specs.Dumps.{dump_end, packed_in};
ghost use Rattle.neli_kernel.specs.Requests.{answering_in, has_flags, is_handled, wants_dump, wants_routing_dump};

use crate::Dump;
use crate::message::message;
use bitflags::Flags;
use neli_answers::{Answering, is_dump};
use neli_attr::{Buffer, GenlBuffer};
use neli_consts::{NlType, NlmF, NlmsgerrAttr};
use neli_consts_system::NlFamily;
use neli_lent::LentMessage;
use neli_list::read_whole;
use neli_reader::{NlPayload, Nlmsgerr, NlmsgerrBuilder, Nlmsghdr, NlmsghdrAck};
use neli_wire::{DeError, SerError, ToBytes};
use std::alloc::Global;

/// The attributes of an extended acknowledgement, for a socket that requested them (`NETLINK_EXT_ACK`).
pub type ExtAck = GenlBuffer<NlmsgerrAttr, Buffer>;

/// A request as the kernel receives it: its sender, its header, and its payload's bytes.
///
/// Answers go to the port of the socket that sent the request. The request's own header may have another one: many
/// clients leave it 0. An echo has the header as it arrived.
#[derive(Clone, Copy, Debug)]
pub struct Request<'b> {
    port: u32,
    header: NlmsghdrAck<u16>,
    payload: &'b [u8],
}

/// The attributes of an extended acknowledgement that all of these bytes list.
///
/// Refused as the first attribute that cannot be read is, or as `Memory`.
pub fn read_ext_ack(alloc: Global, bytes: &[u8]) -> Result<ExtAck, DeError>
    ensures value { IfOk result (λ attrs. ext_ack_in bytes.now ≡ Ok attrs) }
    ensures refused { IfErr result (Refuses (ext_ack_in bytes.now) (0 < length bytes.now)) }
{
    read_whole(alloc, bytes)
}

/// The flags of an acknowledgement or an error with these attributes.
fn answer_flags(echo: NlmF, ext_ack: &ExtAck) -> NlmF
    ensures { result ≡ answer_flags echo ext_ack.now }
{
    if ext_ack.is_empty() {
        echo
    } else {
        echo | NlmF::ACK_TLVS
    }
}

/// An answer of this code.
fn answer<M: Drop>(alloc: Global, code: i32, answered: M, ext_ack: ExtAck) -> Nlmsgerr<M>
    ensures { result ≡ record { error = code; nlmsg = answered; ext_ack = ext_ack } }
{
    let built = NlmsgerrBuilder::default()
        .error(code)
        .nlmsg(answered)
        .ext_ack(ext_ack)
        .build(alloc);
    match built {
        Ok(answer) => answer,
        Err(_) => unreachable!(),
    }
}

impl<'b> Request<'b> {
    /// The request that this message is, from the socket of this port.
    pub fn new(port: u32, message: &LentMessage<'b, u16>) -> Self
        ensures port { result.port ≡ port }
        ensures header { result.header ≡ message.now.header }
        ensures payload { result.payload.now ≡ message.now.payload.now }
    {
        Request {
            port,
            header: *message.header(),
            payload: message.nl_payload(),
        }
    }

    /// The request of these parts: the port of the socket that sent it, its header, and its payload's bytes.
    pub fn from_parts(port: u32, header: NlmsghdrAck<u16>, payload: &'b [u8]) -> Self
        ensures port { result.port ≡ port }
        ensures header { result.header ≡ header }
        ensures payload { result.payload.now ≡ payload.now }
    {
        Request {
            port,
            header,
            payload,
        }
    }

    /// The port of the socket that sent it.
    pub fn port(&self) -> u32
        ensures { result ≡ self.now.port }
    {
        self.port
    }

    /// Its header, as it arrived.
    pub fn header(&self) -> &NlmsghdrAck<u16>
        ensures { result.now ≡ self.now.header }
    {
        &self.header
    }

    /// Its payload, as it arrived, lent from the bytes that it was read from.
    pub fn payload(&self) -> &'b [u8]
        ensures { result.now ≡ self.now.payload.now }
    {
        self.payload
    }

    /// Whether the kernel acts on it: it has the flag REQUEST, and its type is no control message's: those are below 16
    /// (`NLMSG_MIN_TYPE`). The kernel skips any other message, but acknowledges it if requested.
    pub fn is_handled(&self) -> bool
        ensures { result ≡ is_handled self.now }
    {
        self.header.nl_flags().contains(NlmF::REQUEST) && *self.header.nl_type() >= 16
    }

    /// Whether it requests an acknowledgement. An error is sent in any case, and in place of one.
    pub fn wants_acknowledgement(&self) -> bool
        ensures { result ≡ has_flags self.now 4 }
    {
        self.header.nl_flags().contains(NlmF::ACK)
    }

    /// How the kernel answers it on a socket of this protocol, if it has the flag REQUEST and is not refused.
    pub fn answering(&self, protocol: NlFamily) -> Answering
        ensures { result ≡ answering_in protocol self.now }
    {
        Answering::of(
            protocol,
            *self.header.nl_type(),
            *self.header.nl_flags(),
            self.payload.len(),
        )
    }

    /// Whether it requests a dump, as generic netlink reads it: both bits of `NLM_F_DUMP` are set. They have this
    /// meaning only in get requests.
    pub fn wants_dump(&self) -> bool
        ensures { result ≡ wants_dump self.now }
    {
        self.is_dump_of(NlFamily::Generic)
    }

    /// Whether it requests a dump, as routing netlink reads it: its type is that of a get, which is 2 modulo 4, as
    /// `RTM_GETLINK`, 18, and a bit of `NLM_F_DUMP` is set, both or one of them. In other types these bits have other
    /// meanings, as EXCL (0x200) in a request that creates an object.
    pub fn wants_routing_dump(&self) -> bool
        ensures { result ≡ wants_routing_dump self.now }
    {
        self.is_dump_of(NlFamily::Route)
    }

    /// Whether it requests an echo: the notification of its change, as groups get it.
    pub fn wants_echo(&self) -> bool
        ensures { result ≡ has_flags self.now 8 }
    {
        self.header.nl_flags().contains(NlmF::ECHO)
    }

    /// Returns the acknowledgement: code 0, and of the request only its header, with these attributes.
    ///
    /// Refused as `Msg` if the length exceeds 32 bits, or as `Memory`.
    pub fn acknowledgement(&self, alloc: Global, ext_ack: ExtAck) -> Result<Vec<u8>, SerError>
        ensures bytes { IfOk result (λ bytes. message_or_refusal (λ n. n) (λ b. Ok b)
            (acknowledgement self.now ext_ack) ≡ Ok bytes.items) }
        ensures refused { IfErr result (RefusesMessage (λ n. n) (λ b. Ok b)
            (acknowledgement self.now ext_ack)) }
    {
        let flags = answer_flags(NlmF::CAPPED, &ext_ack);
        let payload: NlPayload<u16, Buffer> = NlPayload::Ack(answer(
            alloc,
            0,
            self.header,
            ext_ack,
        ));
        message(alloc, 2, flags, self.number(), self.port, payload)
    }

    /// Returns the error with this code, as -22 for `EINVAL`, for a socket that requests capped errors
    /// (`NETLINK_CAP_ACK`): of the request only its header, with the length of the whole, and these attributes.
    ///
    /// Refused as `Msg` if the length exceeds 32 bits, or as `Memory`.
    pub fn capped_error(
        &self,
        alloc: Global,
        code: i32,
        ext_ack: ExtAck,
    ) -> Result<Vec<u8>, SerError>
        ensures bytes { IfOk result (λ bytes. message_or_refusal (λ n. n) (λ b. Ok b)
            (capped_error self.now code ext_ack) ≡ Ok bytes.items) }
        ensures refused { IfErr result (RefusesMessage (λ n. n) (λ b. Ok b)
            (capped_error self.now code ext_ack)) }
    {
        let flags = answer_flags(NlmF::CAPPED, &ext_ack);
        let payload: NlPayload<u16, Buffer> = NlPayload::Capped(answer(
            alloc,
            code,
            self.header,
            ext_ack,
        ));
        message(alloc, 2, flags, self.number(), self.port, payload)
    }

    /// Returns the error with this code, as -22 for `EINVAL`: the whole request, with zeros up to a multiple of four,
    /// and these attributes.
    ///
    /// Refused as `Msg` if the length exceeds 32 bits, or as `Memory`.
    pub fn error(&self, alloc: Global, code: i32, ext_ack: ExtAck) -> Result<Vec<u8>, SerError>
        ensures bytes { IfOk result (λ bytes. message_or_refusal (λ n. n) (λ b. Ok b)
            (error self.now code ext_ack) ≡ Ok bytes.items) }
        ensures refused { IfErr result (RefusesMessage (λ n. n) (λ b. Ok b)
            (error self.now code ext_ack)) }
    {
        let flags = answer_flags(NlmF::empty(), &ext_ack);
        let echo = Nlmsghdr::from_header(self.header, NlPayload::Payload(self.payload));
        let payload = NlPayload::Payload(answer(alloc, code, echo, ext_ack));
        message(alloc, 2u16, flags, self.number(), self.port, payload)
    }

    /// Returns one reply, with the request's sequence number. The echo of a change is such a reply too.
    ///
    /// Refused as `Msg` if the length exceeds 32 bits, then as the body is refused, or as `Memory`.
    pub fn reply<T: NlType + Drop, P: ToBytes + Drop>(
        &self,
        alloc: Global,
        nl_type: T,
        nl_flags: NlmF,
        body: P,
    ) -> Result<Vec<u8>, SerError>
        ensures bytes { IfOk result (λ bytes. message_or_refusal T.wire_number P.wire
            (reply P.Size.wire_length self.now nl_type nl_flags body) ≡ Ok bytes.items) }
        ensures refused { IfErr result (RefusesMessage T.wire_number P.wire
            (reply P.Size.wire_length self.now nl_type nl_flags body)) }
    {
        message(
            alloc,
            nl_type,
            nl_flags,
            self.number(),
            self.port,
            NlPayload::Payload(body),
        )
    }

    /// Returns a message of type 1 (`NLMSG_NOOP`), which has no meaning: without a flag and without a body.
    ///
    /// Refused only as `Memory`.
    pub fn no_operation(&self, alloc: Global) -> Result<Vec<u8>, SerError>
        ensures bytes { IfOk result (λ bytes. message_or_refusal (λ n. n) (λ b. Ok b)
            (control self.now 1) ≡ Ok bytes.items) }
        ensures refused { IfErr result (RefusesMessage (λ n. n) (λ b. Ok b) (control self.now 1)) }
    {
        self.reply(alloc, 1u16, NlmF::empty(), Buffer::new(alloc))
    }

    /// Returns a message of type 4 (`NLMSG_OVERRUN`), which reports lost data: without a flag and without a body.
    ///
    /// Refused only as `Memory`.
    pub fn overrun(&self, alloc: Global) -> Result<Vec<u8>, SerError>
        ensures bytes { IfOk result (λ bytes. message_or_refusal (λ n. n) (λ b. Ok b)
            (control self.now 4) ≡ Ok bytes.items) }
        ensures refused { IfErr result (RefusesMessage (λ n. n) (λ b. Ok b) (control self.now 4)) }
    {
        self.reply(alloc, 4u16, NlmF::empty(), Buffer::new(alloc))
    }

    /// A dump, whose datagrams have at most `limit` bytes. It takes no memory.
    pub fn dump(&self, alloc: Global, limit: usize) -> Dump<'b>
        ensures request { result.request ≡ self.now }
        ensures limit { result.limit ≡ limit }
        ensures packed { packed_in result ≡ ([], []) }
    {
        Dump::new(alloc, *self, limit)
    }

    /// The end of a dump.
    pub(crate) fn dump_end(
        &self,
        alloc: Global,
        nl_flags: NlmF,
        code: i32,
        ext_ack: ExtAck,
    ) -> Result<Vec<u8>, SerError>
        ensures bytes { IfOk result (λ bytes. message_or_refusal (λ n. n) (λ b. Ok b)
            (dump_end self.now nl_flags code ext_ack) ≡ Ok bytes.items) }
        ensures refused { IfErr result (RefusesMessage (λ n. n) (λ b. Ok b)
            (dump_end self.now nl_flags code ext_ack)) }
    {
        let flags = answer_flags(nl_flags | NlmF::MULTI, &ext_ack);
        let answer = answer(alloc, code, (), ext_ack);
        let payload: NlPayload<u16, Buffer> = NlPayload::DumpExtAck(answer);
        message(alloc, 3, flags, self.number(), self.port, payload)
    }

    /// Whether this protocol answers it by a dump.
    fn is_dump_of(&self, protocol: NlFamily) -> bool
        ensures { result ≡ is_dump protocol self.now.header.message_type self.now.header.flags }
    {
        is_dump(protocol, *self.header.nl_type(), *self.header.nl_flags())
    }

    /// Its sequence number, which each answer has.
    fn number(&self) -> u32
        ensures { result ≡ self.now.header.sequence_number }
    {
        *self.header.nl_seq()
    }
}
