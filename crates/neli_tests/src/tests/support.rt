//! Shared parts of the tests: comparison, bytes as hexadecimal digits, written and printed values, a bare request.

use neli::ToBytes;
use neli::consts::nl::NlmF;
use neli::nl::NlPayload;
use neli::router::synchronous::{NlRouter, NlRouterReceiverHandle};
use neli::types::Buffer;
use std::alloc::Global;
use std::fmt::{Debug, Display};
use std::process::Abort;

/// Asserts that this is the expected value.
pub fn assert_is<T: Copy + PartialEq + Debug>(rt: &impl Abort, got: T, want: T) {
    assert_eq!(rt; got, want);
}

/// The bytes in hexadecimal digits.
pub fn bytes_of(rt: &impl Abort, alloc: Global, digits: &str) -> Vec<u8> {
    hex::decode(alloc, digits).expect(rt, "hexadecimal digits")
}

/// Asserts that these are the bytes in the digits.
pub fn assert_spelled(rt: &impl Abort, alloc: Global, bytes: &[u8], digits: &str) {
    let want = bytes_of(rt, alloc, digits);
    assert_is(rt, bytes, want.as_slice());
}

/// Asserts that the value is written as the bytes in these digits.
pub fn assert_written<V: ToBytes>(rt: &impl Abort, alloc: Global, value: &V, digits: &str) {
    let mut bytes = Vec::new(alloc);
    value.to_bytes(&mut bytes).expect(rt, digits);
    assert_spelled(rt, alloc, &bytes, digits);
    assert_is(rt, value.written_size(), bytes.len());
}

/// Asserts that the value prints this text.
pub fn assert_prints<D: Display>(rt: &impl Abort, alloc: Global, value: &D, want: &str) {
    let text = value.to_string(alloc).expect(rt, want);
    assert_is(rt, text.as_str(), want);
}

/// The handle of a request without a body.
pub fn asked<R: Abort>(
    rt: &R,
    alloc: Global,
    router: &mut NlRouter,
) -> NlRouterReceiverHandle<u16, Buffer> {
    let body: NlPayload<u16, Buffer> = NlPayload::Empty;
    match router.send(alloc, 16, NlmF::empty(), body) {
        Ok((_request, handle)) => handle,
        Err(_) => rt.panic("not sent"),
    }
}
