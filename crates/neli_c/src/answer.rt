//! Reads an error, an acknowledgement or the end of a dump. It takes no memory.

ghost use Rattle.std.specs.Prelude.{◌≡◌, ◌≢◌, IfSome};
ghost use Rattle.neli_c_parts.specs.Codes.{ok};
ghost use Rattle.neli_c_parts.specs.AnswersShown.{IsShown, payload_code, payload_view};

use neli_c_parts::answering::{NeliAnswer, attributes_begin, shown};
use neli_c_parts::bytes::payload_of;
use neli_c_parts::code::{OK, PLACE};
use neli_c_parts::message::{NeliMessage, NeliWalk};
use neli_consts::NLMSG_ERROR;

/// Stores the fields of an error, an acknowledgement or the end of a dump.
///
/// Returns `OK`; `PLACE` if its payload is past the bytes; `KIND` if the message is of another kind, `SHORT` if the
/// payload is shorter than the code and the header, `LENGTH` if an error without the flag CAPPED echoes a request whose
/// length is below 16 or exceeds the payload. On a refusal `answer` is unchanged.
#[unsafe(no_mangle)]
pub extern "C" fn neli_c_get_answer(
    bytes: &[u8],
    message: &NeliMessage,
    answer: &mut NeliAnswer,
) -> i32
    ensures code { result ≡ payload_code message.now (payload_view bytes.now message.now) }
    ensures answer { result ≡ ok
        → IfSome (payload_view bytes.now message.now) (IsShown message.now answer.new) }
    ensures unchanged { result ≢ ok → answer.new ≡ answer.old }
{
    let Some(payload) = payload_of(bytes, message) else {
        return PLACE;
    };
    match attributes_begin(message.message_type, message.flags, payload) {
        Ok(begin) => {
            let attributes = NeliWalk {
                place: message.payload + begin,
                end: message.payload + payload.len(),
            };
            *answer = shown(payload, message.message_type == NLMSG_ERROR, attributes);
            OK
        }
        Err(code) => code,
    }
}
