//! Numbers and texts.

use super::support::{Read, assert_is_at, assert_read, assert_written};
use neli::{BeU64, Cursor, FromBytesWithInputBorrowed};

// The highest byte first, and a number below zero.
#[test]
fn numbers_written(rt: HostRuntime) {
    let alloc = rt.alloc();
    let number = BeU64::new(571987654);
    assert_written(&rt, alloc, "the highest first", &number, "000000002217d6c6");
    assert_written(&rt, alloc, "below zero", &-600000i32, "40d8f6ff");
}

/// Five letters and a zero as an owned text, which is read without its last byte and written with a zero.
const TEXTS: [Read; 3] = [
    ("a text", "414141414100", 6, Ok("414141414100")),
    ("no byte for the zero", "414141414100", 0, Err(0)),
    ("a byte too many", "414141414100", 7, Err(7)),
];

#[test]
fn owned_texts(rt: HostRuntime) {
    for row in &TEXTS {
        assert_read::<String>(&rt, rt.alloc(), row);
    }
}

// With its zero, and the cursor stays.
#[test]
fn a_lent_text(rt: HostRuntime) {
    let mut cursor = Cursor::new(b"AAAAA\0");
    let text: Option<&str> = FromBytesWithInputBorrowed::from_bytes_with_input(&mut cursor, 6).ok();
    let lent = (text, cursor.position());
    assert_is_at(&rt, "a lent text", lent, (Some("AAAAA\0"), 0));
}
