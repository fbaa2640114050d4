//! Datagrams that are written again, with zeros for their padding.

use super::listing::{ERROR, ONE};
use super::support::{assert_is_at, assert_written, decoded};
use neli::iter::cut;
use neli::types::Buffer;
use neli_program::rewriting::list_zero;
use neli_program::status::Status;
use std::alloc::Global;
use std::process::Abort;

/// Datagrams, each with its name, and the bytes written.
const WRITTEN: [(&str, &str, &str); 9] = [
    (
        "padding after a payload of one byte",
        ONE,
        "1100000000040000000000000000000061000000",
    ),
    (
        "padding after an echo",
        "34000000020000020000000000000000eaffffff1500000000040500000000000000000061626364\
            65ffffff0800010062616400",
        ERROR,
    ),
    ("zeros after an echo", ERROR, ERROR),
    (
        "an attribute of three bytes, and a byte of padding",
        "34000000020000020000000000000000eaffffff1500000000040500000000000000000061626364\
            6500000007000100626164ff",
        "34000000020000020000000000000000eaffffff1500000000040500000000000000000061626364\
            650000000700010062616400",
    ),
    (
        "an acknowledgement with an attribute",
        "2c000000020000030000000000000000000000002000000010000500000000000000000008000100\
            62616400",
        "2c000000020000030000000000000000000000002000000010000500000000000000000008000100\
            62616400",
    ),
    (
        "a capped error with an attribute",
        "2c000000020000030000000000000000eaffffff2000000010000500000000000000000008000100\
            62616400",
        "2c000000020000030000000000000000eaffffff2000000010000500000000000000000008000100\
            62616400",
    ),
    (
        "a request for a family by its name",
        "20000000100005000000000000000000030200000b0002006e6c6374726c0000",
        "20000000100005000000000000000000030200000b0002006e6c6374726c0000",
    ),
    (
        "the family's number, and an acknowledgement",
        "1c000000100000000000000000000000010200000600010010000000\
            240000000200000100000000000000000000000020000000100005000000000000000000",
        "1c000000100000000000000000000000010200000600010010000000\
            240000000200000100000000000000000000000020000000100005000000000000000000",
    ),
    (
        "an end of a dump, and an end without a code",
        "1400000003000200000000000000000000000000\
            10000000030000000000000000000000",
        "1400000003000200000000000000000000000000\
            10000000030000000000000000000000",
    ),
];

/// Asserts the bytes written for the datagram, and for its messages as owned ones.
fn assert_rewritten(rt: &impl Abort, alloc: Global, row: &str, datagram: &str, want: &str) {
    let bytes = decoded(rt, alloc, datagram);
    let zeroed = decoded(rt, alloc, want);
    let mut output = Vec::new(alloc);
    let status = list_zero(alloc, &mut bytes.as_slice(), &mut output);
    let written = (output.as_slice(), status);
    assert_is_at(rt, row, written, (zeroed.as_slice(), Status::Whole));
    let (messages, _fault) = cut::<u16, Buffer>(alloc, &bytes).expect(rt, row);
    assert_written(rt, alloc, row, &messages, want);
}

#[test]
fn padding_is_written_as_zeros(rt: HostRuntime) {
    for (row, datagram, want) in WRITTEN {
        assert_rewritten(&rt, rt.alloc(), row, datagram, want);
    }
}

/// Datagrams with bytes that belong to no message.
const TAILS: [(&str, &str); 3] = [
    (
        "bytes after the header that an acknowledgement answers",
        "28000000020000000000000000000000000000001000000010000500000000000000000001020304",
    ),
    (
        "bytes after an acknowledgement's, whose flags name no attributes",
        "2c000000020000010000000000000000000000002000000010000500000000000000000008000100\
            62616400",
    ),
    (
        "bytes after the header that a capped error echoes",
        "2c000000020000010000000000000000eaffffff2000000010000500000000000000000008000100\
            62616400",
    ),
];

#[test]
fn bytes_that_no_message_keeps_are_named(rt: HostRuntime) {
    let alloc = rt.alloc();
    for (row, datagram) in TAILS {
        let bytes = decoded(&rt, alloc, datagram);
        let mut output = Vec::new(alloc);
        let status = list_zero(alloc, &mut bytes.as_slice(), &mut output);
        let want = (b"fault: tail\n".as_slice(), Status::Fault);
        assert_is_at(&rt, row, (output.as_slice(), status), want);
    }
}
