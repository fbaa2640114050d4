//! The texts of codes.

ghost use Rattle.std.specs.Prelude.{◌≡◌, ◌≢◌, ◌+◌, ℕ, List, drop, length, nat_le, slice_index, take};
ghost use Rattle.std.specs.Prelude.{if◌then◌else◌};
ghost use Rattle.neli_c_parts.specs.Codes.{ok, room};
ghost use Rattle.neli_c.specs.Texts.{IsTextOf};

use neli_c_parts::code::{OK, ROOM};

/// The text of a code.
fn text_of(code: i32) -> &'static str
    ensures { IsTextOf code result.now }
{
    match code {
        0 => "done, or nothing more comes",
        1 => "an item was given",
        2 => "no item is here yet",
        3 => "the kernel answered with an error",
        4 => "what was listed changed meanwhile",
        5 => "the socket's buffer ran over",
        6 => "an attribute is not as its row says",
        -1 => "the bytes end too early",
        -2 => "a length does not fit",
        -3 => "memory ran out",
        -4 => "the room is too small",
        -5 => "the router is closed, or is open already",
        -6 => "there is no such handle, or nothing was read",
        -7 => "the sequence number is in use",
        -8 => "a message came that no request has asked for",
        -9 => "something came in place of an acknowledgement",
        -10 => "an acknowledgement came that was not asked for",
        -11 => "the link failed",
        -12 => "bytes cannot be read",
        -13 => "a pointer is null, or a length is too large",
        -14 => "a place is past the bytes",
        -15 => "the message is of another kind",
        -16 => "no zero byte ends the text",
        -17 => "a line of a table is bad",
        -18 => "the reads ended before the answer did",
        _ => "not a code of this library",
    }
}

/// Writes the text of a code, and a zero byte; `text_length` is the text's length in bytes.
///
/// Returns `OK`, or `ROOM` if `out` is too small; then nothing is written.
#[unsafe(no_mangle)]
pub extern "C" fn neli_c_error_text(code: i32, out: &mut [u8], text_length: &mut usize) -> i32
    ensures code { result ≡ (if nat_le (text_length.new + 1) (length out.old) then ok else room) }
    ensures length { (t : List ℕ) × IsTextOf code t × (text_length.new ≡ length t) }
    ensures text { result ≡ ok → IsTextOf code (take text_length.new out.new) }
    ensures zero { result ≡ ok → slice_index out.new text_length.new ≡ 0 }
    ensures rest { result ≡ ok
        → drop (text_length.new + 1) out.new ≡ drop (text_length.new + 1) out.old }
    ensures unchanged { result ≢ ok → out.new ≡ out.old }
{
    let text = text_of(code).as_bytes();
    let end = text.len();
    *text_length = end;
    if out.len() <= end {
        return ROOM;
    }
    out[..end].copy_from_slice(text);
    out[end] = 0;
    OK
}
