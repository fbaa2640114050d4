//! Shared parts of the tests: the one comparison, bytes as hexadecimal digits, written values, and refusals.

use neli::err::DeError;
use neli::{Cursor, FromBytesWithInput, ToBytes};
use std::alloc::Global;
use std::fmt::{Debug, Display};
use std::io::ErrorKind;
use std::process::Abort;

/// Asserts that this is the expected value, in the row of a table that has this name.
pub fn assert_is_at<T: Copy + PartialEq + Debug>(rt: &impl Abort, row: &str, got: T, want: T) {
    assert_eq!(rt; (row, got), (row, want));
}

/// The bytes in hexadecimal digits.
pub fn decoded(rt: &impl Abort, alloc: Global, digits: &str) -> Vec<u8> {
    hex::decode(alloc, digits).expect(rt, "hexadecimal digits")
}

/// Asserts that the value is written as the bytes in these digits.
pub fn assert_written<V: ToBytes>(
    rt: &impl Abort,
    alloc: Global,
    row: &str,
    value: &V,
    digits: &str,
) {
    let want = decoded(rt, alloc, digits);
    let mut bytes = Vec::new(alloc);
    value.to_bytes(&mut bytes).expect(rt, row);
    let written = (bytes.as_slice(), value.written_size());
    assert_is_at(rt, row, written, (want.as_slice(), want.len()));
}

/// Asserts that the value prints this text.
pub fn assert_prints<D: Display>(rt: &impl Abort, alloc: Global, row: &str, value: &D, want: &str) {
    let text = value.to_string(alloc).expect(rt, row);
    assert_is_at(rt, row, text.as_str(), want);
}

/// Asserts that this is refused, and that the refusal prints this text.
pub fn assert_refused<V: Drop, E: Display + Drop>(
    rt: &impl Abort,
    alloc: Global,
    row: &str,
    tried: Result<V, E>,
    want: &str,
) {
    let error = tried.err().expect(rt, row);
    assert_prints(rt, alloc, row, &error, want);
}

/// Why bytes are not read.
#[derive(Clone, Copy, Debug, PartialEq, Eq)]
pub enum Refusal {
    /// The bytes end too early.
    Short,
    /// A count of bytes that does not fit.
    Input(usize),
    /// Any other, which no row expects.
    Other,
}

/// The refusal of a read, or None if there is a value.
pub fn refusal_in<V: Drop>(read: Result<V, DeError>) -> Option<Refusal> {
    match read {
        Ok(_) => None,
        Err(DeError::InvalidInput(count)) => Some(Refusal::Input(count)),
        Err(DeError::Io(ErrorKind::UnexpectedEof)) => Some(Refusal::Short),
        Err(_) => Some(Refusal::Other),
    }
}

/// A read with an input: the name, the bytes as hexadecimal digits, the input, and the bytes that the value is written
/// as, or the count in the refusal.
pub type Read = (
    &'static str,
    &'static str,
    usize,
    Result<&'static str, usize>,
);

/// Asserts that the row's bytes are read as a value of this type that is written as the row states, past all of its
/// input; or that they are refused, and that the cursor stays.
pub fn assert_read<V: FromBytesWithInput + ToBytes + Drop>(
    rt: &impl Abort,
    alloc: Global,
    row: &Read,
) {
    let (name, digits, input, want) = *row;
    let bytes = decoded(rt, alloc, digits);
    let mut cursor = Cursor::new(&bytes);
    let read = V::from_bytes_with_input(alloc, &mut cursor, input);
    match want {
        Ok(written) => {
            let value = read.expect(rt, name);
            assert_is_at(rt, name, cursor.position(), input);
            assert_written(rt, alloc, name, &value, written);
        }
        Err(count) => {
            let refused = (refusal_in(read), cursor.position());
            assert_is_at(rt, name, refused, (Some(Refusal::Input(count)), 0));
        }
    }
}
