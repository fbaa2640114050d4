//! What an answer has: an error, an acknowledgement, or the end of a dump.

ghost use Rattle.std.specs.Prelude.{◌≡◌, ◌≤◌, length};
ghost use Rattle.neli_print.specs.Answers.{answer_parts, bare, echoed_size, headed, listed, parts_view};
ghost use Rattle.neli_print.specs.Answers.{request_parts, whole};

use crate::head::Header;
use crate::item::front_of;
use crate::rests::bytes_from;
use neli_msg::{Kind, Tail};
use neli_tables_walk::Head;
use neli_wire::implementing::padded_length;

/// The size of a message's header.
const HEADER_SIZE: usize = 16;

/// What an answer has behind its code.
#[derive(Clone, Copy)]
pub(crate) struct Parts<'b> {
    /// The header of the request that it is for.
    pub request: Option<Header>,
    /// The body of that request, where it is echoed.
    pub body: Option<&'b [u8]>,
    /// Its attributes, where it has a list of them.
    pub attributes: Option<&'b [u8]>,
    /// Bytes of unknown meaning.
    pub rest: &'b [u8],
}

impl<'b> Parts<'b> {
    /// Bytes of unknown meaning.
    fn bare(rest: &'b [u8]) -> Parts<'b>
        ensures { parts_view result ≡ bare rest.now }
    {
        Parts {
            request: None,
            body: None,
            attributes: None,
            rest,
        }
    }

    /// Attributes.
    fn listed(attributes: &'b [u8]) -> Parts<'b>
        ensures { parts_view result ≡ listed attributes.now }
    {
        Parts {
            request: None,
            body: None,
            attributes: Some(attributes),
            rest: &[],
        }
    }

    /// A request's header, and the tail behind it.
    fn headed(request: Header, tail: Tail, behind: &'b [u8]) -> Parts<'b>
        ensures { parts_view result ≡ headed request tail behind.now }
    {
        let parts = match tail {
            Tail::Attributes => Parts::listed(behind),
            Tail::Unread => Parts::bare(behind),
        };
        Parts {
            request: Some(request),
            ..parts
        }
    }

    /// A whole request, and attributes behind it.
    fn whole(request: Header, echoed: &'b [u8]) -> Parts<'b>
        ensures { parts_view result ≡ whole request echoed.now }
    {
        let size = echoed_size(request.length, echoed);
        Parts {
            request: Some(request),
            body: Some(front_of(echoed, size)),
            ..Parts::listed(bytes_from(echoed, padded_length(size)))
        }
    }
}

/// How many bytes of a request's body are echoed: as many as it states, at most all.
fn echoed_size(stated: u32, echoed: &[u8]) -> usize
    ensures { result ≡ echoed_size stated echoed.now }
{
    (stated as usize)
        .saturating_sub(HEADER_SIZE)
        .min(echoed.len())
}

/// What an error or an acknowledgement has: the header of a request with this tail, or all of it.
fn request_parts<'b>(protocol: u16, tail: Option<Tail>, behind: &'b [u8]) -> Parts<'b>
    ensures { parts_view result ≡ request_parts protocol tail behind.now }
{
    let Some(request) = Header::read(protocol, behind) else {
        return Parts::bare(behind);
    };
    let echoed = bytes_from(behind, HEADER_SIZE);
    match tail {
        Some(tail) => Parts::headed(request, tail, echoed),
        None => Parts::whole(request, echoed),
    }
}

/// What an answer has behind its code.
pub(crate) fn answer_parts<'b>(head: Head, payload: &'b [u8]) -> Parts<'b>
    requires { 4 ≤ length payload.now }
    ensures { parts_view result ≡ answer_parts head payload.now }
{
    let behind = &payload[4..];
    match Kind::of(head.message_type, head.flags, payload) {
        Kind::Acknowledgement(tail) => request_parts(head.protocol, Some(tail), behind),
        Kind::Capped(tail) => request_parts(head.protocol, Some(tail), behind),
        Kind::Failure => request_parts(head.protocol, None, behind),
        Kind::DumpEnd => Parts::listed(behind),
        Kind::Body | Kind::Nothing => Parts::bare(behind),
    }
}
