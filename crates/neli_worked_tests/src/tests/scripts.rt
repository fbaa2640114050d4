//! Scripts and their output, over both stores.

use super::support::assert_is_at;
use neli::router::synchronous::{Deliveries, Log, Queues};
use neli_program::replay::replay;
use neli_program::status::Status;
use std::alloc::Global;
use std::process::Abort;

/// A script with its name, and its output.
type Row = (&'static str, &'static str, &'static str);

/// Requests, their numbers, and whether they are acknowledged.
const REQUESTS: [Row; 7] = [
    (
        "a body of five bytes, whose length is rounded up",
        "send 1024 0 6162636465\n",
        "sent 1 180000000004010000000000000000006162636465000000\n",
    ),
    (
        "one answer, and its end",
        "send 1024 0 616263646A\n\
            read 1\n\
            data 0 10000000000400000000000000000000\n\
            read 1\n\
            read 1\n\
            read 2\n",
        "sent 1 18000000000401000000000000000000616263646a000000\n\
            waits\n\
            ok\n\
            item type 1024 flags 0x0000 number 0 port 0 payload 0\n\
            end\n\
            no handle\n",
    ),
    (
        "numbers that wrap, and one in use until it is closed",
        "seq 4294967295\nsend 16 0 -\nsend 16 0 -\nsend 16 0 -\n\
            seq 0\nsend 16 0 -\nclose 2\nsend 16 0 -\n",
        "ok\nsent 1 1000000010000100ffffffff00000000\n\
            sent 2 10000000100001000000000000000000\n\
            sent 3 10000000100001000100000000000000\n\
            ok\nrefused in use 0\nok\nsent 4 10000000100001000000000000000000\n",
    ),
    (
        "a family by its name: a reply, and its acknowledgement",
        "send 16 4 030200000b0002006e6c6374726c0000\n\
            data 0 1c000000100000000000000000000000010200000600010010000000\n\
            data 0 240000000200000100000000000000000000000020000000100005000000000000000000\n\
            read 1\nread 1\nread 1\n",
        "sent 1 20000000100005000000000000000000030200000b0002006e6c6374726c0000\nok\nok\n\
            item type 16 flags 0x0000 number 0 port 0 payload 12\n\
            item type 2 flags 0x0100 number 0 port 0 ack\nend\n",
    ),
    (
        "the same in one datagram",
        "send 16 4 030200000b0002006e6c6374726c0000\n\
            data 0 1c0000001000000000000000000000000102000006000100100000002400000002000001\
                00000000000000000000000020000000100005000000000000000000\n\
            read 1\nread 1\nread 1\n",
        "sent 1 20000000100005000000000000000000030200000b0002006e6c6374726c0000\nok\n\
            item type 16 flags 0x0000 number 0 port 0 payload 12\n\
            item type 2 flags 0x0100 number 0 port 0 ack\nend\n",
    ),
    (
        "two replies where an acknowledgement is due, a closed handle, and multicast",
        "send 16 4 -\n\
            read 1\n\
            data 0 1000000010000000000000000000000010000000100000000000000000000000\n\
            read 1\nread 1\nread 1\n\
            close 1\nclose 1\n\
            data 1 10000000100000000000000000000000\n\
            read 0\nread 0\n",
        "sent 1 10000000100005000000000000000000\n\
            waits\nok\n\
            item type 16 flags 0x0000 number 0 port 0 payload 0\n\
            error noack\nend\n\
            ok\nno handle\nok\n\
            item type 16 flags 0x0000 number 0 port 0 payload 0\n\
            waits\n",
    ),
    (
        "an acknowledgement that was not asked for",
        "send 16 772 -\n\
            data 0 240000000200000100000000000000000000000020000000100005000000000000000000\n\
            read 1\nread 1\n",
        "sent 1 10000000100005030000000000000000\nok\nerror unexpectedack\nend\n",
    ),
];

/// Dumps, errors, acknowledgements with attributes: how a handle ends.
const ENDS: [Row; 8] = [
    (
        "a dump of two messages, and its end",
        "send 16 768 -\n\
            data 0 10000000100002000000000000000000100000001000020000000000000000001400000003000200\
                000000000000000000000000\n\
            read 1\nread 1\nread 1\nread 1\n",
        "sent 1 10000000100001030000000000000000\nok\n\
            item type 16 flags 0x0002 number 0 port 0 payload 0\n\
            item type 16 flags 0x0002 number 0 port 0 payload 0\n\
            item type 3 flags 0x0002 number 0 port 0 done 0 attributes 0\nend\n",
    ),
    (
        "a dump that ends with a code",
        "send 16 768 -\n\
            data 0 10000000100002000000000000000000100000001000020000000000000000001400000003000200\
                0000000000000000eaffffff\n\
            read 1\nread 1\nread 1\nread 1\n",
        "sent 1 10000000100001030000000000000000\nok\n\
            item type 16 flags 0x0002 number 0 port 0 payload 0\n\
            item type 16 flags 0x0002 number 0 port 0 payload 0\n\
            item type 3 flags 0x0002 number 0 port 0 done -22 attributes 0\nend\n",
    ),
    (
        "an error with its echo",
        "send 1024 4 6162636465\n\
            data 0 34000000020000020000000000000000eaffffff150000000004050000000000000000006162\
                6364650000000800010062616400\n\
            read 1\nread 1\n",
        "sent 1 180000000004050000000000000000006162636465000000\nok\nerror netlink -22\nend\n",
    ),
    (
        "a capped error",
        "send 16 4 -\n\
            data 0 24000000020000010000000000000000eaffffff20000000100005000000000000000000\n\
            read 1\nread 1\n",
        "sent 1 10000000100005000000000000000000\nok\nerror capped -22\nend\n",
    ),
    (
        "a capped error after a reply",
        "send 16 4 -\n\
            data 0 10000000100000000000000000000000\n\
            data 0 24000000020000010000000000000000eaffffff20000000100005000000000000000000\n\
            read 1\nread 1\nread 1\n",
        "sent 1 10000000100005000000000000000000\nok\nok\n\
            item type 16 flags 0x0000 number 0 port 0 payload 0\nerror noack\nend\n",
    ),
    (
        "an acknowledgement with an attribute",
        "send 16 4 -\n\
            data 0 2c0000000200000300000000000000000000000020000000100005000000000000000000\
                0800010062616400\n\
            read 1\nread 1\n",
        "sent 1 10000000100005000000000000000000\nok\n\
            item type 2 flags 0x0300 number 0 port 0 ack attributes 1\nend\n",
    ),
    (
        "an acknowledgement whose attribute has a length of 3, with two numbers open",
        "send 16 4 -\nsend 16 4 -\n\
            data 0 2c0000000200000300000000000000000000000020000000100005000000000000000000\
                0300010062616400\n\
            read 1\nread 1\nread 2\nread 2\nread 0\n",
        "sent 1 10000000100005000000000000000000\nsent 2 10000000100005000100000000000000\nok\n\
            error input 3\nend\nerror input 3\nend\nwaits\n",
    ),
    (
        "a link that would block, and one that is reset",
        "send 16 0 -\nread 1\nfault wouldblock\nread 1\nfault reset\nread 1\nread 1\nread 0\n",
        "sent 1 10000000100001000000000000000000\nwaits\nok\nwaits\nok\nerror link reset\nend\nwaits\n",
    ),
];

/// Datagrams, and their receivers.
const RECEIVERS: [Row; 8] = [
    (
        "an empty datagram, and one of 15 bytes",
        "send 16 0 -\nsend 16 0 -\ndata 0 -\nread 1\n\
            data 0 000000000000000000000000000000\nread 1\nread 2\nread 0\nread 1\n",
        "sent 1 10000000100001000000000000000000\nsent 2 10000000100001000100000000000000\nok\nwaits\n\
            ok\nerror short\nerror short\nwaits\nend\n",
    ),
    (
        "15 bytes that came to a group",
        "send 16 0 -\ndata 1 000000000000000000000000000000\nread 1\nread 0\n",
        "sent 1 10000000100001000000000000000000\nok\nerror short\nwaits\n",
    ),
    (
        "a message with a number that nobody has",
        "send 16 0 -\nsend 16 0 -\ndata 0 10000000100000000900000000000000\n\
            read 1\nread 1\nread 2\nread 2\nread 0\n",
        "sent 1 10000000100001000000000000000000\nsent 2 10000000100001000100000000000000\nok\n\
            error stray number 9 port 0\nend\nerror stray number 9 port 0\nend\nwaits\n",
    ),
    (
        "the same, where a handle is closed",
        "send 16 0 -\nsend 16 0 -\nclose 1\ndata 0 10000000100000000900000000000000\n\
            read 1\nread 2\nread 2\n",
        "sent 1 10000000100001000000000000000000\nsent 2 10000000100001000100000000000000\nok\nok\n\
            no handle\nerror stray number 9 port 0\nend\n",
    ),
    (
        "a message with the number of a closed handle",
        "send 16 0 -\nsend 16 0 -\nclose 1\ndata 0 10000000100000000000000000000000\n\
            read 1\nread 2\nread 2\n",
        "sent 1 10000000100001000000000000000000\nsent 2 10000000100001000100000000000000\nok\nok\n\
            no handle\nerror stray number 0 port 0\nend\n",
    ),
    (
        "a message that came to group 32",
        "send 16 0 -\ndata 2147483648 10000000100000000000000000000000\nread 1\nread 0\nread 0\n",
        "sent 1 10000000100001000000000000000000\nok\nwaits\n\
            item type 16 flags 0x0000 number 0 port 0 payload 0\nwaits\n",
    ),
    (
        "two numbers of three messages, a stray for both, and multicast that is closed",
        "send 16 0 -\nsend 16 0 -\n\
            data 0 10000000100002000000000000000000100000001000020001000000000000001000000010000000\
                0900000000000000\n\
            read 1\nread 1\nread 2\nread 2\n\
            data 1 10000000100000000000000000000000\nclose 0\n\
            data 1 10000000100000000000000000000000\nread 0\n",
        "sent 1 10000000100001000000000000000000\nsent 2 10000000100001000100000000000000\nok\n\
            item type 16 flags 0x0002 number 0 port 0 payload 0\nerror stray number 9 port 0\n\
            item type 16 flags 0x0002 number 1 port 0 payload 0\nerror stray number 9 port 0\n\
            ok\nok\nok\nno handle\n",
    ),
    (
        "a port, a stray, and a number that is used again",
        "pid 7\nsend 16 0 -\nsend 16 0 -\n\
            data 0 1000000010000200000000000700000010000000100000000100000000000000\n\
            read 1\nclose 1\nread 2\nread 2\nread 1\nseq 0\nsend 16 0 -\nread 3\nsend 16 0 -\n\
            data 0 10000000100000000000000007000000\nread 3\nread 3\n\
            close 0\ndata 1 10000000100000000000000007000000\nread 0\n",
        "sent 1 10000000100001000000000007000000\nsent 2 10000000100001000100000007000000\nok\n\
            item type 16 flags 0x0002 number 0 port 7 payload 0\nok\n\
            error stray number 1 port 0\nend\nno handle\nok\n\
            sent 3 10000000100001000000000007000000\nwaits\nrefused in use 1\nok\n\
            item type 16 flags 0x0000 number 0 port 7 payload 0\nend\nok\nok\nno handle\n",
    ),
];

/// A script with a bad line, its twelfth.
const BAD: &str = "send 16 4 -\n\
    read 1\n\
    data 0 1000000010000000000000000000000010000000100000000000000000000000\n\
    read 1\nread 1\nread 1\n\
    close 1\nclose 1\n\
    data 1 10000000100000000000000000000000\n\
    read 0\nread 0\nread x\n";

/// Asserts that this script has this output over deliveries in a `D`, and this end.
fn answers<D: Deliveries>(rt: &impl Abort, alloc: Global, row: Row, status: Status) {
    let mut output = Vec::new(alloc);
    let ended = replay::<D, _, _>(alloc, &mut row.1.as_bytes(), &mut output);
    let answered = (output.as_slice(), ended);
    assert_is_at(rt, row.0, answered, (row.2.as_bytes(), status));
}

/// Asserts the output of the scripts over deliveries in a `D`.
fn all_answered<D: Deliveries>(rt: &impl Abort, alloc: Global) {
    for row in REQUESTS {
        answers::<D>(rt, alloc, row, Status::Whole);
    }
    for row in ENDS {
        answers::<D>(rt, alloc, row, Status::Whole);
    }
    for row in RECEIVERS {
        answers::<D>(rt, alloc, row, Status::Whole);
    }
    let row = ("a bad line", BAD, "bad line 12\n");
    answers::<D>(rt, alloc, row, Status::BadLine);
}

#[test]
fn scripts_are_answered(rt: HostRuntime) {
    all_answered::<Log>(&rt, rt.alloc());
    all_answered::<Queues>(&rt, rt.alloc());
}
