//! The contents of the shared store after each read, an error that a router returns with the echoed header, and handles
//! of another router.

use super::support::{assert_is_at, decoded};
use neli::consts::nl::NlmF;
use neli::err::RouterError;
use neli::nl::NlPayload;
use neli::router::synchronous::{Deliveries, Log, NlRouter, NlRouterReceiverHandle, Queues, Reply};
use neli::types::Buffer;
use neli::utils::Groups;
use std::alloc::Global;
use std::process::Abort;

/// A handle of these tests.
type Handle = NlRouterReceiverHandle<u16, Buffer>;

/// Messages with the numbers 0, 1 and 9; the first two have the flag MULTI.
const THREE: &str = "10000000100002000000000000000000\
    10000000100002000100000000000000\
    10000000100000000900000000000000";

/// A message for a group.
const NEWS: &str = "10000000100000000000000000000000";

/// Sends a request without a body, of type 16, with these flags.
fn sent<D: Deliveries>(
    rt: &impl Abort,
    alloc: Global,
    router: &mut NlRouter<D>,
    flags: NlmF,
) -> Handle {
    let body: NlPayload<u16, Buffer> = NlPayload::Empty;
    match router.send(alloc, 16, flags, body) {
        Ok((_request, handle)) => handle,
        Err(_) => rt.panic("not sent"),
    }
}

/// Hands in a datagram that arrived for the groups of a mask.
fn come<D: Deliveries>(
    rt: &impl Abort,
    alloc: Global,
    router: &mut NlRouter<D>,
    digits: &str,
    mask: u32,
) {
    let datagram = decoded(rt, alloc, digits);
    let groups = Groups::new_bitmask(alloc, mask).expect(rt, "memory");
    router
        .processing_loop(&datagram, &groups)
        .expect(rt, "memory");
}

/// The result of a read, as far as the tests compare it.
#[derive(Clone, Copy, Debug, PartialEq, Eq)]
enum Given {
    /// A message.
    Message,
    /// A message for no handle here.
    Stray,
    /// A capped error: its code, and the length of the request whose header it echoes.
    Capped(i32, u32),
    /// The handle's number is not open here.
    Closed,
    /// Any other error.
    Other,
    End,
    Waits,
}

/// The kind of an error.
fn error_given(error: &RouterError<u16, Buffer>) -> Given {
    match error {
        RouterError::BadSeqOrPid(_) => Given::Stray,
        RouterError::Capped(answer) => Given::Capped(*answer.error(), *answer.nlmsg().nl_len()),
        RouterError::ClosedChannel => Given::Closed,
        _ => Given::Other,
    }
}

/// The kind of a reply.
fn given_by(reply: Reply<u16, Buffer>) -> Given {
    match &reply {
        Reply::Item(Ok(_)) => Given::Message,
        Reply::Item(Err(error)) => error_given(error),
        Reply::End => Given::End,
        Reply::Waits => Given::Waits,
    }
}

/// Reads the next item of a handle.
fn read<D: Deliveries>(
    rt: &impl Abort,
    alloc: Global,
    router: &mut NlRouter<D>,
    handle: &mut Handle,
) -> Given {
    given_by(router.next_typed(alloc, handle).expect(rt, "memory"))
}

/// Asserts the number of kept entries, and of kept bytes of datagrams.
fn assert_kept(rt: &impl Abort, row: &str, router: &NlRouter<Log>, want: (usize, usize)) {
    let log = router.deliveries();
    assert_is_at(rt, row, (log.kept(), log.kept_bytes()), want);
}

/// Asserts the result of a read, and the kept entries and bytes then.
fn assert_read_kept(
    rt: &impl Abort,
    alloc: Global,
    router: &mut NlRouter<Log>,
    handle: &mut Handle,
    want: (Given, (usize, usize)),
) {
    assert_is_at(rt, "a read", read(rt, alloc, router, handle), want.0);
    assert_kept(rt, "a read", router, want.1);
}

#[test]
fn an_entry_goes_with_its_last_reader(rt: HostRuntime) {
    let alloc = rt.alloc();
    let (mut router, _multicast) = NlRouter::<Log>::new(alloc, 0);
    let mut first = sent(&rt, alloc, &mut router, NlmF::empty());
    let mut second = sent(&rt, alloc, &mut router, NlmF::empty());
    come(&rt, alloc, &mut router, THREE, 0);
    assert_kept(&rt, "three messages", &router, (3, 48));
    for want in [(Given::Message, (2, 48)), (Given::Stray, (2, 48))] {
        assert_read_kept(&rt, alloc, &mut router, &mut first, want);
    }
    for want in [(Given::Message, (1, 48)), (Given::Stray, (0, 0))] {
        assert_read_kept(&rt, alloc, &mut router, &mut second, want);
    }
}

#[test]
fn an_entry_for_multicast_goes_with_its_handle(rt: HostRuntime) {
    let alloc = rt.alloc();
    let (mut router, multicast) = NlRouter::<Log>::new(alloc, 0);
    come(&rt, alloc, &mut router, NEWS, 1);
    assert_kept(&rt, "for a group", &router, (1, 16));
    router.close(multicast);
    assert_kept(&rt, "closed", &router, (0, 0));
    come(&rt, alloc, &mut router, NEWS, 1);
    assert_kept(&rt, "for nobody", &router, (0, 0));
}

#[test]
fn a_fault_is_one_entry_without_bytes(rt: HostRuntime) {
    let alloc = rt.alloc();
    let (mut router, _multicast) = NlRouter::<Log>::new(alloc, 0);
    let _first = sent(&rt, alloc, &mut router, NlmF::empty());
    let _second = sent(&rt, alloc, &mut router, NlmF::empty());
    come(&rt, alloc, &mut router, "100000001000000000000000000000", 0);
    assert_kept(&rt, "15 bytes", &router, (1, 0));
}

/// An error, its code -22, that echoes the header of a request of 32 bytes.
const CAPPED: &str = "24000000020000010000000000000000eaffffff20000000100005000000000000000000";

/// Reads a capped error over this store.
fn read_capped<D: Deliveries>(rt: &impl Abort, alloc: Global) {
    let (mut router, _multicast) = NlRouter::<D>::new(alloc, 0);
    let mut handle = sent(rt, alloc, &mut router, NlmF::ACK);
    come(rt, alloc, &mut router, CAPPED, 0);
    let item = read(rt, alloc, &mut router, &mut handle);
    let end = read(rt, alloc, &mut router, &mut handle);
    let want = (Given::Capped(-22, 32), Given::End);
    assert_is_at(rt, "capped", (item, end), want);
}

#[test]
fn a_capped_error_has_its_echo(rt: HostRuntime) {
    read_capped::<Log>(&rt, rt.alloc());
    read_capped::<Queues>(&rt, rt.alloc());
}

/// Reads a handle of another router over this store: the number is not open here, and the handle ends in both.
fn read_foreign<D: Deliveries>(rt: &impl Abort, alloc: Global) {
    let (mut router, _multicast) = NlRouter::<D>::new(alloc, 7);
    let (mut other, _multicast) = NlRouter::<D>::new(alloc, 7);
    let mut handle = sent(rt, alloc, &mut router, NlmF::empty());
    let first = read(rt, alloc, &mut other, &mut handle);
    let second = read(rt, alloc, &mut other, &mut handle);
    let back = read(rt, alloc, &mut router, &mut handle);
    let want = (Given::Closed, Given::End, Given::End);
    assert_is_at(rt, "read", (first, second, back), want);
}

/// Closes a handle of another router over this store, which changes nothing here.
fn close_foreign<D: Deliveries>(rt: &impl Abort, alloc: Global) {
    let (mut router, _multicast) = NlRouter::<D>::new(alloc, 7);
    let (mut other, _multicast) = NlRouter::<D>::new(alloc, 7);
    let mut own = sent(rt, alloc, &mut other, NlmF::empty());
    let _first = sent(rt, alloc, &mut router, NlmF::empty());
    other.close(sent(rt, alloc, &mut router, NlmF::empty()));
    come(rt, alloc, &mut other, "10000000100000000000000007000000", 0);
    let item = read(rt, alloc, &mut other, &mut own);
    let end = read(rt, alloc, &mut other, &mut own);
    assert_is_at(rt, "closed", (item, end), (Given::Message, Given::End));
}

#[test]
fn a_handle_belongs_to_its_router(rt: HostRuntime) {
    read_foreign::<Log>(&rt, rt.alloc());
    read_foreign::<Queues>(&rt, rt.alloc());
    close_foreign::<Log>(&rt, rt.alloc());
    close_foreign::<Queues>(&rt, rt.alloc());
}
