//! The table.

ghost use Rattle.std.specs.Prelude.{◌≡◌};
ghost use Rattle.neli_answers.specs.Answers.{answering_by_flags, answering_by_type, answering_of, ends_answer};
ghost use Rattle.neli_answers.specs.Answers.{has_dump_bit, is_among, is_dump, is_routing_get, least_body, unacknowledged};

use bitflags::Flags;
use neli_consts::{NLMSG_DONE, NLMSG_ERROR, NlmF};
use neli_consts_system::NlFamily;

/// How the kernel answers a request that it does not refuse. An error in place of it ends any answer.
#[derive(Clone, Copy, Debug, PartialEq, Eq)]
pub enum Answering {
    /// By a dump: messages until `NLMSG_DONE`, and no acknowledgement, also where one was requested.
    Dump,
    /// By messages, if any, and then the acknowledgement.
    Acknowledgement,
    /// By one message, or by several up to `NLMSG_DONE`.
    Reply,
    /// By nothing, or by the notifications of its change if it has the flag `NLM_F_ECHO`: no message ends it.
    Silence,
}

/// Types of control messages are below this (`NLMSG_MIN_TYPE` of `linux/netlink.h`).
const MIN_TYPE: u16 = 16;

/// The code of an error after which a dump goes on: `ENOBUFS` of `asm-generic/errno.h`, negated.
const NO_BUFFER_SPACE: i32 = -105;

/// Types of netfilter that a bit of `NLM_F_DUMP` makes a dump, as the subsystem times 256 and its message.
const NETFILTER_DUMPS: [u16; 22] = [
    0x101, 0x103, 0x104, 0x106, 0x107, 0x201, 0x203, 0x701, 0x702, 0x801, 0x901, 0xa01, 0xa04,
    0xa07, 0xa0a, 0xa0d, 0xa13, 0xa15, 0xa17, 0xa19, 0xa21, 0xc00,
];

/// Types of netfilter that are a dump whatever their flags: `IPSET_CMD_LIST` and `IPSET_CMD_SAVE`.
const NETFILTER_LISTS: [u16; 2] = [0x607, 0x608];

/// Whether a type is one of these.
fn is_among(types: &[u16], nl_type: u16) -> bool
    ensures { result ≡ is_among types.now nl_type }
{
    types.iter().any(|it| *it == nl_type)
}

/// Whether a bit of `NLM_F_DUMP` is set, or both.
fn has_dump_bit(flags: NlmF) -> bool
    ensures { result ≡ has_dump_bit flags }
{
    flags.intersects(NlmF::DUMP)
}

/// Whether a type of routing is that of a get, as `RTM_GETLINK`, 18.
fn is_routing_get(nl_type: u16) -> bool
    ensures { result ≡ is_routing_get nl_type }
{
    nl_type % 4 == 2
}

/// Whether a request of this protocol with this type and these flags is answered by a dump, if it is not refused.
///
/// A protocol that the table lacks is judged as generic netlink: by both bits of `NLM_F_DUMP`.
pub fn is_dump(protocol: NlFamily, nl_type: u16, flags: NlmF) -> bool
    ensures { result ≡ is_dump protocol nl_type flags }
{
    match protocol {
        NlFamily::Route => is_routing_get(nl_type) && has_dump_bit(flags),
        NlFamily::Netfilter => {
            (is_among(&NETFILTER_DUMPS, nl_type) && has_dump_bit(flags))
                || is_among(&NETFILTER_LISTS, nl_type)
        }
        NlFamily::SockOrInetDiag => {
            (nl_type == 18 || nl_type == 19 || nl_type == 20) && has_dump_bit(flags)
        }
        NlFamily::Xfrm => (nl_type == 18 || nl_type == 21) && has_dump_bit(flags),
        NlFamily::Connector => false,
        _ => flags.contains(NlmF::DUMP),
    }
}

/// The length of the shortest body that is looked at.
fn least_body(protocol: NlFamily) -> usize
    ensures { result ≡ least_body protocol }
{
    match protocol {
        NlFamily::Route => 1,
        NlFamily::Netfilter => 4,
        _ => 0,
    }
}

/// How a request without an acknowledgement is answered, which is no dump.
fn unacknowledged(protocol: NlFamily, nl_type: u16, flags: NlmF) -> Answering
    ensures { result ≡ unacknowledged protocol nl_type flags }
{
    let is_change = match protocol {
        NlFamily::Route => !is_routing_get(nl_type),
        _ => false,
    };
    if is_change || flags.contains(NlmF::ECHO) {
        Answering::Silence
    } else {
        Answering::Reply
    }
}

/// How a request is answered, by the rules of a protocol that the table has.
fn by_type(protocol: NlFamily, nl_type: u16, flags: NlmF, body_length: usize) -> Answering
    ensures { result ≡ answering_by_type protocol nl_type flags body_length }
{
    let is_skipped = body_length < least_body(protocol) || nl_type < MIN_TYPE;
    if !is_skipped && is_dump(protocol, nl_type, flags) {
        Answering::Dump
    } else if flags.contains(NlmF::ACK) {
        Answering::Acknowledgement
    } else if is_skipped {
        Answering::Silence
    } else {
        unacknowledged(protocol, nl_type, flags)
    }
}

impl Answering {
    /// How a request is answered: one of this protocol, with this type, these flags, and a body of this length in bytes.
    ///
    /// A protocol that the table lacks is judged [by the flags](Answering::by_flags).
    pub fn of(protocol: NlFamily, nl_type: u16, flags: NlmF, body_length: usize) -> Answering
        ensures { result ≡ answering_of protocol nl_type flags body_length }
    {
        match protocol {
            NlFamily::Route
            | NlFamily::Generic
            | NlFamily::Netfilter
            | NlFamily::SockOrInetDiag
            | NlFamily::Xfrm => by_type(protocol, nl_type, flags, body_length),
            NlFamily::Connector => Answering::Silence,
            _ => Answering::by_flags(flags),
        }
    }

    /// How a request with these flags is answered where its protocol is not known: by a dump with both bits of
    /// `NLM_F_DUMP`, else by an acknowledgement with `NLM_F_ACK`, else by a reply.
    pub fn by_flags(flags: NlmF) -> Answering
        ensures { result ≡ answering_by_flags flags }
    {
        if flags.contains(NlmF::DUMP) {
            Answering::Dump
        } else if flags.contains(NlmF::ACK) {
            Answering::Acknowledgement
        } else {
            Answering::Reply
        }
    }

    /// Whether the answer ends with a message of this type, with these flags, and with this code if it is an error: 0 in
    /// an acknowledgement, else the negated number of the error. A dump goes on after `ENOBUFS`, -105, with which Linux
    /// says that the socket's buffer was full as it began.
    pub fn ends_with(self, nl_type: u16, flags: NlmF, code: i32) -> bool
        ensures { result ≡ ends_answer self nl_type flags code }
    {
        let is_error = nl_type == NLMSG_ERROR;
        let is_done = nl_type == NLMSG_DONE;
        match self {
            Answering::Dump => (code != NO_BUFFER_SPACE && is_error) || is_done,
            Answering::Acknowledgement | Answering::Silence => is_error,
            Answering::Reply => is_error || is_done || !flags.contains(NlmF::MULTI),
        }
    }
}
