//! Datagrams, and the listed lines of each.

use super::support::{assert_is_at, decoded};
use neli_program::listing::list;
use neli_program::status::Status;
use std::alloc::Global;
use std::process::Abort;

/// A datagram with its name, its listed lines, and its end.
type Row = (&'static str, &'static str, &'static str, Status);

/// A payload of one byte, and padding of any value.
pub const ONE: &str = "1100000000040000000000000000000061ffffff";

/// An error, its code -22, that echoes a request of five bytes, with the text `bad`.
pub const ERROR: &str = "34000000020000020000000000000000eaffffff\
    150000000004050000000000000000006162636465000000\
    0800010062616400";

/// Datagrams of messages.
const MESSAGES: [Row; 7] = [
    ("nothing", "", "", Status::Whole),
    (
        "a message without a payload",
        "10000000100000000000000000000000",
        "type 16 flags 0x0000 number 0 port 0 payload 0\n",
        Status::Whole,
    ),
    (
        "a payload of one byte",
        ONE,
        "type 1024 flags 0x0000 number 0 port 0 payload 1\n",
        Status::Whole,
    ),
    (
        "a request of five bytes, whose length counts three zeros",
        "180000000004010000000000000000006162636465000000",
        "type 1024 flags 0x0001 number 0 port 0 payload 8\n",
        Status::Whole,
    ),
    (
        "flags without a name, and a second message",
        "10000000100002f00500000007000000\
            1100000000040000000000000000000061ffffff",
        "type 16 flags 0xf002 number 5 port 7 payload 0\n\
            type 1024 flags 0x0000 number 0 port 0 payload 1\n",
        Status::Whole,
    ),
    (
        "five zeros after a message",
        "1100000000040000000000000000000061ffffff0000000000",
        "type 1024 flags 0x0000 number 0 port 0 payload 1\nfault: short\n",
        Status::Fault,
    ),
    (
        "an end without a code",
        "10000000030000000000000000000000",
        "type 3 flags 0x0000 number 0 port 0 empty\n",
        Status::Whole,
    ),
];

/// Datagrams of errors, acknowledgements and ends of dumps.
const ANSWERS: [Row; 9] = [
    (
        "an error with its echo and an attribute",
        ERROR,
        "type 2 flags 0x0200 number 0 port 0 error -22 attributes 1\n",
        Status::Whole,
    ),
    (
        "an acknowledgement",
        "240000000200000100000000000000000000000020000000100005000000000000000000",
        "type 2 flags 0x0100 number 0 port 0 ack\n",
        Status::Whole,
    ),
    (
        "an acknowledgement, and bytes after the header that it answers",
        "28000000020000000000000000000000000000001000000010000500000000000000000001020304",
        "type 2 flags 0x0000 number 0 port 0 ack\n",
        Status::Whole,
    ),
    (
        "an acknowledgement with an attribute",
        "2c000000020000030000000000000000000000002000000010000500000000000000000008000100\
            62616400",
        "type 2 flags 0x0300 number 0 port 0 ack attributes 1\n",
        Status::Whole,
    ),
    (
        "an acknowledgement whose flags name no attributes",
        "2c000000020000010000000000000000000000002000000010000500000000000000000008000100\
            62616400",
        "type 2 flags 0x0100 number 0 port 0 ack\n",
        Status::Whole,
    ),
    (
        "the end of a dump",
        "1400000003000200000000000000000000000000",
        "type 3 flags 0x0002 number 0 port 0 done 0 attributes 0\n",
        Status::Whole,
    ),
    (
        "a capped error",
        "24000000020000010000000000000000eaffffff20000000100005000000000000000000",
        "type 2 flags 0x0100 number 0 port 0 capped -22 attributes 0\n",
        Status::Whole,
    ),
    (
        "a capped error with an attribute",
        "2c000000020000030000000000000000eaffffff2000000010000500000000000000000008000100\
            62616400",
        "type 2 flags 0x0300 number 0 port 0 capped -22 attributes 1\n",
        Status::Whole,
    ),
    (
        "a capped error whose flags name no attributes",
        "2c000000020000010000000000000000eaffffff2000000010000500000000000000000008000100\
            62616400",
        "type 2 flags 0x0100 number 0 port 0 capped -22 attributes 0\n",
        Status::Whole,
    ),
];

/// Asserts that these lines are listed, and this end.
fn assert_listed(rt: &impl Abort, alloc: Global, row: Row) {
    let (name, digits, lines, status) = row;
    let bytes = decoded(rt, alloc, digits);
    let mut output = Vec::new(alloc);
    let ended = list(alloc, &mut bytes.as_slice(), &mut output);
    let listed = (output.as_slice(), ended);
    assert_is_at(rt, name, listed, (lines.as_bytes(), status));
}

#[test]
fn datagrams_are_listed(rt: HostRuntime) {
    for row in MESSAGES {
        assert_listed(&rt, rt.alloc(), row);
    }
    for row in ANSWERS {
        assert_listed(&rt, rt.alloc(), row);
    }
}
