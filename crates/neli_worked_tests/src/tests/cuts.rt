//! Datagrams that are cut, and wrong lengths: the fault, as it is listed, as a reader of owned messages returns it, and
//! where the datagram is written again.

use super::listing::ERROR;
use super::support::{assert_is_at, assert_prints, decoded};
use neli::err::SocketError;
use neli::iter::NlBufferIter;
use neli::types::Buffer;
use neli_program::line::Ending;
use neli_program::listing::{fault_ending, list};
use neli_program::rewriting::list_zero;
use neli_program::status::Status;
use std::alloc::Global;
use std::process::Abort;

/// A datagram with its name, the first and the last length that it is cut to, and the line of its fault.
type Row = (&'static str, &'static str, (usize, usize), &'static str);

/// Cuts.
const CUTS: [Row; 4] = [
    (
        "an error, cut in its header",
        ERROR,
        (1, 15),
        "fault: short\n",
    ),
    (
        "an error, cut behind its header",
        ERROR,
        (16, 51),
        "fault: input 36\n",
    ),
    (
        "a request for a family, cut behind its header",
        "20000000100005000000000000000000030200000b0002006e6c6374726c0000",
        (16, 31),
        "fault: input 16\n",
    ),
    (
        "a payload of one byte, cut in its padding",
        "1100000000040000000000000000000061ffffff",
        (17, 19),
        "fault: short\n",
    ),
];

/// Wrong lengths.
const LENGTHS: [Row; 11] = [
    (
        "a length below the header",
        "0f000000000400000000000000000000",
        (16, 16),
        "fault: input 15\n",
    ),
    (
        "a length past the bytes",
        "ffffffff00040000000000000000000000000000",
        (20, 20),
        "fault: input 4294967279\n",
    ),
    (
        "an end of a dump with two bytes of a code",
        "1200000003000200000000000000000000000000",
        (20, 20),
        "fault: input 2\n",
    ),
    (
        "an error with a code alone",
        "1400000002000000000000000000000000000000",
        (20, 20),
        "fault: input 4\n",
    ),
    (
        "an echo with a length below its header",
        "34000000020000020000000000000000eaffffff0f00000000040500000000000000000061626364\
            650000000800010062616400",
        (52, 52),
        "fault: input 15\n",
    ),
    (
        "an echo with a length past the bytes",
        "34000000020000020000000000000000eaffffffffffffff00040500000000000000000061626364\
            650000000800010062616400",
        (52, 52),
        "fault: input 4294967279\n",
    ),
    (
        "an error whose attribute has a length below its header",
        "34000000020000020000000000000000eaffffff1500000000040500000000000000000061626364\
            650000000300010062616400",
        (52, 52),
        "fault: input 3\n",
    ),
    (
        "an error whose attribute has a length past the bytes",
        "34000000020000020000000000000000eaffffff1500000000040500000000000000000061626364\
            650000000900010062616400",
        (52, 52),
        "fault: input 5\n",
    ),
    (
        "an error whose attribute is empty, and its text the next one",
        "34000000020000020000000000000000eaffffff1500000000040500000000000000000061626364\
            650000000400010062616400",
        (52, 52),
        "fault: input 24926\n",
    ),
    (
        "a capped error whose attribute has a length below its header",
        "2c000000020000030000000000000000eaffffff2000000010000500000000000000000003000100\
            62616400",
        (44, 44),
        "fault: input 3\n",
    ),
    (
        "an acknowledgement whose attribute has a length below its header",
        "2c000000020000030000000000000000000000002000000010000500000000000000000003000100\
            62616400",
        (44, 44),
        "fault: input 3\n",
    ),
];

/// How a reading of owned messages ends at the first message of the bytes.
fn owned_ending(alloc: Global, bytes: &[u8]) -> Ending {
    match NlBufferIter::<'_, u16, Buffer>::new(bytes).next(alloc) {
        Some(Err(SocketError::De(fault))) => fault_ending(&fault),
        _ => Ending::Whole,
    }
}

/// Asserts that the bytes give only this line, on each way.
fn assert_fault(rt: &impl Abort, alloc: Global, row: &str, bytes: &[u8], line: &str) {
    let mut listed = Vec::new(alloc);
    let status = list(alloc, &mut &*bytes, &mut listed);
    let want = (line.as_bytes(), Status::Fault);
    assert_is_at(rt, row, (listed.as_slice(), status), want);
    let mut written = Vec::new(alloc);
    let status = list_zero(alloc, &mut &*bytes, &mut written);
    assert_is_at(rt, row, (written.as_slice(), status), want);
    assert_prints(rt, alloc, row, &owned_ending(alloc, bytes), line);
}

/// Cuts the datagram to each of its lengths, and asserts the fault.
fn assert_cut(rt: &impl Abort, alloc: Global, row: Row) {
    let (name, digits, (first, last), line) = row;
    let bytes = decoded(rt, alloc, digits);
    for length in first..=last {
        let part = bytes.get(..length).expect(rt, name);
        assert_fault(rt, alloc, name, part, line);
    }
}

#[test]
fn faults_of_datagrams(rt: HostRuntime) {
    for row in CUTS {
        assert_cut(&rt, rt.alloc(), row);
    }
    for row in LENGTHS {
        assert_cut(&rt, rt.alloc(), row);
    }
}
