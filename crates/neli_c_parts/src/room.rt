//! Text that is written into bytes which may be too few for it.

ghost use Rattle.std.specs.Prelude.{◌≡◌, ◌+◌, ◌<◌, IfOk, IfSome, IsOk, OnErr, length};
ghost use Rattle.neli_c_parts.specs.Rooms.{Writes, beginning, put_at};

use std::cmp::min;
use std::fmt;
use std::fmt::{Display, Write};

/// Why a text has no length: it has more bytes than memory can have, or a part of it failed.
#[derive(Clone, Copy, Debug, PartialEq, Eq)]
pub struct TooLong;

/// Bytes that a text is written into, and how many the text has so far. What has no room in them is counted alone.
#[derive(Drop)]
struct Room<'a> {
    out: &'a mut [u8],
    size: usize,
}

impl<'a> fmt::Write for Room<'a> {
    ghost write_str_gives = { Writes };

    fn write_str(&mut self, text: &str) -> fmt::Result
        ensures ok { IsOk result → Writes self.old text.now self.new }
        ensures refused { OnErr result (usize.MAX < self.old.size + length text.now) }
    {
        let bytes = text.as_bytes();
        let Some(size) = self.size.checked_add(bytes.len()) else {
            return Err(fmt::Error);
        };
        put_at(self.out, self.size, bytes);
        self.size = size;
        Ok(())
    }
}

/// Writes bytes from a place on, as many as there is room for.
pub fn put_at(out: &mut [u8], place: usize, bytes: &[u8])
    ensures { out.new ≡ put_at place bytes.now out.old }
{
    if place < out.len() {
        let count = min(bytes.len(), out.len() - place);
        out[place..place + count].copy_from_slice(&bytes[..count]);
    }
}

/// Writes the text of a value into bytes, as much of its beginning as they have room for, and returns how long it is.
pub fn write_text<D: Display + Drop>(value: D, out: &mut [u8]) -> Result<usize, TooLong>
    ensures size { IfOk result (λ size. IfSome (D.output value) (λ text. size ≡ length text)) }
    ensures text { IfOk result
        (λ _. IfSome (D.output value) (λ text. out.new ≡ beginning text out.old)) }
{
    write_text_at(value, out, 0)
}

/// Writes the text of a value into bytes from a place on, as much of its beginning as there is room
/// for, and returns where the whole ends.
pub fn write_text_at<D: Display + Drop>(
    value: D,
    out: &mut [u8],
    place: usize,
) -> Result<usize, TooLong>
    ensures end { IfOk result
        (λ end. IfSome (D.output value) (λ text. end ≡ place + length text)) }
    ensures text { IfOk result
        (λ _. IfSome (D.output value) (λ text. out.new ≡ put_at place text out.old)) }
{
    let mut room = Room { out, size: place };
    match room.write(value) {
        Ok(()) => Ok(room.size),
        Err(_) => Err(TooLong),
    }
}
