//! The caller's bytes: a message's payload in them, and bytes copied into them. They take no memory.

ghost use Rattle.std.specs.Prelude.{◌≡◌, ◌≢◌, Some, None, IfSome, IsNone};
ghost use Rattle.std.specs.Prelude.{if◌then◌else◌, length, nat_le};
ghost use Rattle.neli_c_parts.specs.AnswersShown.{payload_view};
ghost use Rattle.neli_c_parts.specs.Codes.{ok, room};
ghost use Rattle.neli_c_parts.specs.Writes.{put_first};

use crate::code::{OK, ROOM};
use crate::message::NeliMessage;

/// The payload of a message, where it lies within the bytes.
pub fn payload_of<'b>(bytes: &'b [u8], message: &NeliMessage) -> Option<&'b [u8]>
    ensures some { IfSome result (λ s. payload_view bytes.now message.now ≡ Some s.now) }
    ensures none { IsNone result → payload_view bytes.now message.now ≡ None }
{
    let size = message.payload_length;
    if bytes.len() < size || bytes.len() - size < message.payload {
        return None;
    }
    Some(&bytes[message.payload..message.payload + size])
}

/// Copies bytes where there is room for all; `size` is how many there are.
pub fn copy(bytes: &[u8], out: &mut [u8], size: &mut usize) -> i32
    ensures code { result ≡ (if nat_le (length bytes.now) (length out.old) then ok else room) }
    ensures size { size.new ≡ length bytes.now }
    ensures copied { result ≡ ok → out.new ≡ put_first bytes.now out.old }
    ensures unchanged { result ≢ ok → out.new ≡ out.old }
{
    *size = bytes.len();
    if out.len() < bytes.len() {
        return ROOM;
    }
    out[..bytes.len()].copy_from_slice(bytes);
    OK
}
