//! A kernel to test against: requests as it takes them, and its answers as bytes, by neli_kernel.
//!
//! What is made here takes memory, and leaves none behind.

ghost use Rattle.std.specs.Prelude.{◌≡◌, ◌≢◌, []};
ghost use Rattle.neli_c_parts.specs.AnswersShown.{payload_view};
ghost use Rattle.neli_c_parts.specs.Asked.{Answers, AnswersWhole, IsAsked, SaysWants, WritesAnswer};
ghost use Rattle.neli_c_parts.specs.Asked.{acknowledgement_wire};
ghost use Rattle.neli_c_parts.specs.Asked.{capped_wire, error_wire, notification_wire, reply_wire};
ghost use Rattle.neli_c_parts.specs.Codes.{item};
ghost use Rattle.neli_c_parts.specs.Walks.{GivesMessage, bytes_left, message_layout, walk_code};
ghost use Rattle.neli_kernel.specs.declared.request.Request.{Request as Asked};

use crate::lent::neli_c_next_message;
use neli_attr::Buffer;
use neli_c_parts::asking::{NeliRequest, asked_by, give, notify, request_of};
use neli_c_parts::bytes::payload_of;
use neli_c_parts::code::{ITEM, MEMORY, PLACE};
use neli_c_parts::message::{NeliWalk, code_of};
use neli_consts::NlmF;
use neli_kernel::read_ext_ack;
use neli_wire::Constant;
use std::alloc::Global;

/// The next message of a walk as a request from the socket of this port; the walk goes past it and its padding.
///
/// Returns what `neli_c_next_message` returns. Without a message the walk and `request` stay.
#[unsafe(no_mangle)]
pub extern "C" fn neli_c_next_request(
    bytes: &[u8],
    walk: &mut NeliWalk,
    port: u32,
    request: &mut NeliRequest,
) -> i32
    ensures code { result ≡ walk_code message_layout (bytes_left bytes.now walk.old) }
    ensures message { result ≡ item
        → GivesMessage bytes.now walk.old walk.new request.new.message }
    ensures port { result ≡ item → request.new.port ≡ port }
    ensures wants { result ≡ item → SaysWants request.new }
    ensures unchanged { result ≢ item → (walk.new ≡ walk.old) × (request.new ≡ request.old) }
{
    let mut message = request.message;
    let code = neli_c_next_message(bytes, walk, &mut message);
    if code == ITEM {
        *request = request_of(message, port);
    }
    code
}

/// The acknowledgement of a request: code 0, and its header. `ext_ack` lists the attributes of the extended
/// acknowledgement, as a message has them; `size` is how many bytes it has, also if there is no room for them.
///
/// Returns `OK`; `ROOM`; `LENGTH` if its length passes 32 bits; `SHORT`, `LENGTH` or `BYTES` if the attributes cannot
/// be read; or `MEMORY`. Without `OK` nothing is written.
#[unsafe(no_mangle)]
pub extern "C" fn neli_c_kernel_ack(
    alloc: Global,
    request: &NeliRequest,
    ext_ack: &[u8],
    out: &mut [u8],
    size: &mut usize,
) -> i32
    ensures { Answers result request.now [] acknowledgement_wire ext_ack.now out.old out.new
        size.old size.new }
{
    let asked = asked_by(request, &[]);
    match read_ext_ack(alloc, ext_ack) {
        Ok(attrs) => give(asked.acknowledgement(alloc, attrs), out, size),
        Err(error) => code_of(&error),
    }
}

/// The error with this code, as -22 for `EINVAL`, to a socket that wants errors capped: the header of the request
/// alone.
///
/// Returns what `neli_c_kernel_ack` returns.
#[unsafe(no_mangle)]
pub extern "C" fn neli_c_kernel_capped_error(
    alloc: Global,
    request: &NeliRequest,
    code: i32,
    ext_ack: &[u8],
    out: &mut [u8],
    size: &mut usize,
) -> i32
    ensures { Answers result request.now [] (capped_wire code) ext_ack.now out.old out.new
        size.old size.new }
{
    let asked = asked_by(request, &[]);
    match read_ext_ack(alloc, ext_ack) {
        Ok(attrs) => give(asked.capped_error(alloc, code, attrs), out, size),
        Err(error) => code_of(&error),
    }
}

/// The error with this code, as -22 for `EINVAL`: the request whole, as it lies in `sent`.
///
/// Returns what `neli_c_kernel_ack` returns; `PLACE` if the payload lies past the bytes.
#[unsafe(no_mangle)]
pub extern "C" fn neli_c_kernel_error(
    alloc: Global,
    sent: &[u8],
    request: &NeliRequest,
    code: i32,
    ext_ack: &[u8],
    out: &mut [u8],
    size: &mut usize,
) -> i32
    ensures { AnswersWhole result request.now (payload_view sent.now request.now.message)
        (error_wire code) ext_ack.now out.old out.new size.old size.new }
{
    let Some(payload) = payload_of(sent, &request.message) else {
        return PLACE;
    };
    let asked = asked_by(request, payload);
    match read_ext_ack(alloc, ext_ack) {
        Ok(attrs) => give(asked.error(alloc, code, attrs), out, size),
        Err(error) => code_of(&error),
    }
}

/// One reply: of this type, with these flags and this body, with the request's number, to the port of its socket.
///
/// Returns `OK`; `ROOM`; `LENGTH` if its length passes 32 bits; or `MEMORY`. Without `OK` nothing is written.
#[unsafe(no_mangle)]
pub extern "C" fn neli_c_kernel_reply(
    alloc: Global,
    request: &NeliRequest,
    nl_type: u16,
    flags: u16,
    body: &[u8],
    out: &mut [u8],
    size: &mut usize,
) -> i32
    ensures { (asked : Asked) × IsAsked request.now [] asked
        × WritesAnswer result (reply_wire nl_type flags body.now asked) out.old out.new
        size.old size.new }
{
    let asked = asked_by(request, &[]);
    let Ok(body) = Buffer::from_slice(alloc, body) else {
        return MEMORY;
    };
    let made = asked.reply(alloc, nl_type, NlmF::from_wire(flags), body);
    give(made, out, size)
}

/// What groups get: a message of this type, with these flags, this number, this port and this body. Number and port are
/// those of the request that caused it, or 0.
///
/// Returns `OK`; `ROOM`; `LENGTH` if its length passes 32 bits; or `MEMORY`. Without `OK` nothing is written.
#[unsafe(no_mangle)]
pub extern "C" fn neli_c_kernel_notification(
    alloc: Global,
    nl_type: u16,
    flags: u16,
    number: u32,
    port: u32,
    body: &[u8],
    out: &mut [u8],
    size: &mut usize,
) -> i32
    ensures { WritesAnswer result (notification_wire nl_type flags number port body.now) out.old
        out.new size.old size.new }
{
    notify(alloc, nl_type, flags, number, port, body, out, size)
}
