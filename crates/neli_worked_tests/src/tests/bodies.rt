//! Bodies of routing, of generic netlink and of the connector.

use super::support::{
    Read, Refusal, assert_is_at, assert_read, assert_refused, assert_written, decoded, refusal_in,
};
use neli::connector::{CnMsg, CnMsgBuilder, CnMsgBuilderError, ProcEvent, ProcEventHeader};
use neli::consts::connector::{CnMsgIdx, CnMsgVal};
use neli::consts::genl::CtrlCmd;
use neli::consts::rtnl::{Iff, RtAddrFamily};
use neli::err::DeError;
use neli::genl::{Genlmsghdr, GenlmsghdrBuilder};
use neli::rtnl::{IfinfomsgBuilder, Rtgenmsg, RtgenmsgBuilder};
use neli::{Cursor, FromBytesWithInput};
use std::alloc::Global;
use std::process::Abort;

/// Link 3 of no family.
fn link() -> IfinfomsgBuilder {
    IfinfomsgBuilder::default()
        .ifi_family(RtAddrFamily::Unspecified)
        .ifi_index(3)
}

#[test]
fn a_link_set_up_and_down(rt: HostRuntime) {
    let alloc = rt.alloc();
    let up = link().up().build(alloc).expect(&rt, "a link");
    assert_written(&rt, alloc, "up", &up, "00000000030000000100000001000000");
    let down = link()
        .ifi_flags(Iff::UP | Iff::MULTICAST)
        .down()
        .build(alloc)
        .expect(&rt, "a link");
    assert_written(
        &rt,
        alloc,
        "down",
        &down,
        "00000000030000000010000001000000",
    );
}

#[test]
fn a_request_by_family(rt: HostRuntime) {
    let alloc = rt.alloc();
    let request = RtgenmsgBuilder::default()
        .rtgen_family(RtAddrFamily::Inet)
        .build(alloc)
        .expect(&rt, "a request");
    assert_written(&rt, alloc, "a family", &request, "02000000");
    let row = ("three of its bytes", "020000", 3, Err(3));
    assert_read::<Rtgenmsg>(&rt, alloc, &row);
}

/// The reply of a controller, with a header of its own.
fn command<H: Drop>(header: H) -> GenlmsghdrBuilder<CtrlCmd, u16, H> {
    GenlmsghdrBuilder::default()
        .cmd(CtrlCmd::Newfamily)
        .version(1)
        .header(header)
}

#[test]
fn generic_messages_with_a_header(rt: HostRuntime) {
    let alloc = rt.alloc();
    let built = command(7u32)
        .build_with_header(alloc)
        .expect(&rt, "a message");
    assert_written(&rt, alloc, "four bytes", &built, "0101000007000000");
    let refused = command(7u16).build_with_header(alloc);
    let want = "Header size is not a multiple of four";
    assert_refused(&rt, alloc, "two bytes", refused, want);
    let row = ("two bytes", "010100000700", 6, Err(6));
    assert_read::<Genlmsghdr<CtrlCmd, u16, u16>>(&rt, alloc, &row);
}

/// A process runs a program, as the connector reports it.
const EXEC: &str = "01000000010000008302000000000000280000000200000001000000b834541947020000\
    7f1600007f160000";

/// The event, whole, and without its last two bytes.
const EVENTS: [Read; 2] = [
    ("an event", EXEC, 44, Ok(EXEC)),
    (
        "without its last two bytes",
        "01000000010000008302000000000000280000000200000001000000b834541947020000\
            7f1600007f16",
        42,
        Err(22),
    ),
];

#[test]
fn process_events(rt: HostRuntime) {
    for row in &EVENTS {
        assert_read::<CnMsg<ProcEventHeader>>(&rt, rt.alloc(), row);
    }
    let row = ("bytes", EXEC, 44, Ok(EXEC));
    assert_read::<CnMsg<Vec<u8>>>(&rt, rt.alloc(), &row);
}

/// Reads a message of the connector from all of the bytes.
fn connector_message<P: FromBytesWithInput>(
    alloc: Global,
    bytes: &[u8],
) -> Result<CnMsg<P>, DeError> {
    CnMsg::from_bytes_with_input(alloc, &mut Cursor::new(bytes), bytes.len())
}

/// The processes of an exec event.
fn program_of(event: &ProcEvent) -> Option<(i32, i32)> {
    match event {
        ProcEvent::Exec {
            process_pid,
            process_tgid,
        } => Some((*process_pid, *process_tgid)),
        _ => None,
    }
}

#[test]
fn the_fields_of_a_process_event(rt: HostRuntime) {
    let bytes = decoded(&rt, rt.alloc(), EXEC);
    let m: CnMsg<ProcEventHeader> = connector_message(rt.alloc(), &bytes).expect(&rt, "an event");
    let header = (*m.idx(), *m.val(), *m.seq(), *m.len());
    let want = (CnMsgIdx::Proc, CnMsgVal::Proc, 643, 40);
    assert_is_at(&rt, "its message", header, want);
    let event = m.payload();
    let fields = (event.cpu, event.timestamp_ns, program_of(&event.event));
    let want = (1, 2504390882488, Some((5759, 5759)));
    assert_is_at(&rt, "its fields", fields, want);
    let m: CnMsg<Vec<u8>> = connector_message(rt.alloc(), &bytes).expect(&rt, "bytes");
    assert_is_at(&rt, "bytes", m.payload().len(), 24);
}

// Below 20 bytes the message is cut, then the event.
#[test]
fn a_process_event_that_is_cut(rt: HostRuntime) {
    let bytes = decoded(&rt, rt.alloc(), EXEC);
    for k in 0..44usize {
        let part = bytes.get(..k).expect(&rt, "a part");
        let refused = refusal_in(connector_message::<ProcEventHeader>(rt.alloc(), part));
        let count = if k < 20 { k } else { k - 20 };
        assert_is_at(
            &rt,
            "a part",
            (k, refused),
            (k, Some(Refusal::Input(count))),
        );
    }
}

#[test]
fn an_event_of_no_known_kind(rt: HostRuntime) {
    let alloc = rt.alloc();
    let bytes = decoded(&rt, alloc, "03000000000000000000000000000000");
    let read = ProcEventHeader::from_bytes_with_input(alloc, &mut Cursor::new(&bytes), 16);
    let want = "Unrecognized Proc event type: 3 (raw value: 3)";
    assert_refused(&rt, alloc, "an event", read, want);
}

// An exit with a code has a type of its own.
#[test]
fn an_exit_with_a_code(rt: HostRuntime) {
    let header = ProcEventHeader {
        cpu: 0,
        timestamp_ns: 0,
        event: ProcEvent::Exit {
            process_pid: 1,
            process_tgid: 1,
            exit_code: 256,
            exit_signal: 17,
            parent_pid: 2,
            parent_tgid: 2,
        },
    };
    let digits = "00000020000000000000000000000000\
        010000000100000000010000110000000200000002000000";
    assert_written(&rt, rt.alloc(), "an exit", &header, digits);
}

/// A message of the connector with so many zeros.
fn zeros(
    rt: &impl Abort,
    alloc: Global,
    count: usize,
) -> Result<CnMsg<Vec<u8>>, CnMsgBuilderError> {
    CnMsgBuilder::default()
        .idx(CnMsgIdx::Proc)
        .val(CnMsgVal::Proc)
        .payload(vec![in alloc; 0u8; count].expect(rt, "memory"))
        .build()
}

#[test]
fn the_longest_message_of_the_connector(rt: HostRuntime) {
    let alloc = rt.alloc();
    let longest = zeros(&rt, alloc, 65535).expect(&rt, "a message");
    assert_is_at(&rt, "the longest", *longest.len(), 65535);
    let long = zeros(&rt, alloc, 65536);
    let want = "Length does not fit its field";
    assert_refused(&rt, alloc, "one byte more", long, want);
}
