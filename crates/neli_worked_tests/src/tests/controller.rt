//! Requests to the controller of generic netlink, and look-ups in its answers.

use super::support::{assert_is_at, assert_prints, assert_refused, decoded};
use neli::consts::genl::{CtrlAttr, CtrlCmd};
use neli::consts::nl::GenlId;
use neli::genl::Genlmsghdr;
use neli::nl::{NlPayload, Nlmsghdr};
use neli::router::synchronous::{
    CtrlError, CtrlItem, Deliveries, Log, NlRouter, NlRouterReceiverHandle, Queues, Reply,
    lookup_id, resolve_genl_family, resolve_nl_mcast_group,
};
use neli::utils::Groups;
use neli::{Cursor, FromBytes};
use std::alloc::Global;
use std::fmt::Display;
use std::process::Abort;

/// A handle for the controller's answers.
type Handle = NlRouterReceiverHandle<GenlId, Genlmsghdr<CtrlCmd, CtrlAttr>>;

/// The first request of a router with port 0 for the family `nlctrl`.
const FAMILY: &str = "20000000100005000000000000000000030200000b0002006e6c6374726c0000";

/// The first request of a router with port 0 for all families.
const FAMILIES: &str = "1400000010000103000000000000000003020000";

/// The number of the family `nlctrl` in an answer, and the acknowledgement of the request.
const NUMBER: &str = "1c000000100000000000000000000000010200000600010010000000";

const ACK: &str = "240000000200000100000000000000000000000020000000100005000000000000000000";

/// Both in one datagram.
const BOTH: &str = "1c000000100000000000000000000000010200000600010010000000\
    240000000200000100000000000000000000000020000000100005000000000000000000";

/// The items of a handle, which end after two.
fn items<D: Deliveries>(
    rt: &impl Abort,
    alloc: Global,
    router: &mut NlRouter<D>,
    handle: &mut Handle,
) -> Vec<CtrlItem> {
    let mut list = Vec::new(alloc);
    for _ in 0..3 {
        match router.next_typed(alloc, handle).expect(rt, "memory") {
            Reply::Item(item) => list.push(item).expect(rt, "memory"),
            Reply::End => return list,
            Reply::Waits => rt.panic("an item is missing"),
        }
    }
    rt.panic("too many items")
}

/// Whether an item is a message with a body, and whether it is an acknowledgement.
fn kind(item: Option<&CtrlItem>) -> (bool, bool) {
    match item {
        Some(Ok(message)) => (
            message.get_payload().is_some(),
            matches!(message.nl_payload(), NlPayload::Ack(_)),
        ),
        _ => (false, false),
    }
}

/// Requests the family `nlctrl` from a new router's controller, and returns the items of these datagrams.
fn asked<D: Deliveries>(rt: &impl Abort, alloc: Global, datagrams: &[&str]) -> Vec<CtrlItem> {
    let (mut router, _multicast) = NlRouter::<D>::new(alloc, 0);
    let (request, mut handle) = router
        .request_genl_family(alloc, "nlctrl")
        .expect(rt, "a request");
    let want = decoded(rt, alloc, FAMILY);
    assert_is_at(rt, "a request", request.as_slice(), want.as_slice());
    let no_groups = Groups::empty(alloc);
    for digits in datagrams {
        let datagram = decoded(rt, alloc, digits);
        router
            .processing_loop(&datagram, &no_groups)
            .expect(rt, "memory");
    }
    items(rt, alloc, &mut router, &mut handle)
}

/// Asserts that these datagrams are a reply with the number 16, and its acknowledgement.
fn assert_answered<D: Deliveries>(rt: &impl Abort, alloc: Global, datagrams: &[&str]) {
    let list = asked::<D>(rt, alloc, datagrams);
    let kinds = (list.len(), kind(list.first()), kind(list.last()));
    assert_is_at(rt, "items", kinds, (2, (true, false), (false, true)));
    let found = resolve_genl_family(alloc, "nlctrl", list);
    assert_found(rt, alloc, "nlctrl", found, "16");
}

#[test]
fn a_family_is_asked_for(rt: HostRuntime) {
    assert_answered::<Log>(&rt, rt.alloc(), &[NUMBER, ACK]);
    assert_answered::<Queues>(&rt, rt.alloc(), &[NUMBER, ACK]);
    assert_answered::<Log>(&rt, rt.alloc(), &[BOTH]);
    assert_answered::<Queues>(&rt, rt.alloc(), &[BOTH]);
}

#[test]
fn all_families_are_asked_for(rt: HostRuntime) {
    let (mut router, _multicast) = NlRouter::<Log>::new(rt.alloc(), 0);
    let asked = router.request_families(rt.alloc());
    let (request, _handle) = asked.expect(&rt, "a request");
    let want = decoded(&rt, rt.alloc(), FAMILIES);
    assert_is_at(&rt, "families", request.as_slice(), want.as_slice());
}

/// The controller's answer for the family `nlctrl`: its number is 16, and its group 1 is `notify`, with the number 5.
const NLCTRL: &str = "44000000100000000000000000000000\
    01020000\
    0b0002006e6c6374726c0000\
    0600010010000000\
    1c000780\
    18000180\
    0b0001006e6f746966790000\
    0800020005000000";

/// The only item: this message.
fn only(rt: &impl Abort, alloc: Global, digits: &str) -> Vec<CtrlItem> {
    let bytes = decoded(rt, alloc, digits);
    let read: Nlmsghdr<GenlId, Genlmsghdr<CtrlCmd, CtrlAttr>> = Nlmsghdr::from_bytes(
        alloc,
        &mut Cursor::new(&bytes),
    ).expect(rt, "a message");
    vec![in alloc; Ok(read)].expect(rt, "memory")
}

/// Asserts that this is the result.
fn assert_found<T: Display + Drop>(
    rt: &impl Abort,
    alloc: Global,
    row: &str,
    outcome: Result<T, CtrlError>,
    want: &str,
) {
    let found = outcome.ok().expect(rt, row);
    assert_prints(rt, alloc, row, &found, want);
}

#[test]
fn numbers_are_found(rt: HostRuntime) {
    let alloc = rt.alloc();
    let family = resolve_genl_family(alloc, "nlctrl", only(&rt, alloc, NLCTRL));
    assert_found(&rt, alloc, "a family", family, "16");
    let group = resolve_nl_mcast_group(alloc, "nlctrl", "notify", only(&rt, alloc, NLCTRL));
    assert_found(&rt, alloc, "a group", group, "5");
}

#[test]
fn names_are_found(rt: HostRuntime) {
    let found = lookup_id(rt.alloc(), 5, only(&rt, rt.alloc(), NLCTRL));
    let (family, group) = found.ok().expect(&rt, "names");
    let names = (family.as_str(), group.as_str());
    assert_is_at(&rt, "names", names, ("nlctrl", "notify"));
}

#[test]
fn what_is_not_there_is_named(rt: HostRuntime) {
    let alloc = rt.alloc();
    let group = resolve_nl_mcast_group(alloc, "nlctrl", "x", only(&rt, alloc, NLCTRL));
    let want =
        "Failed to resolve multicast group ID for family name nlctrl, multicast group name x";
    assert_refused(&rt, alloc, "a group", group, want);
    let names = lookup_id(alloc, 6, only(&rt, alloc, NLCTRL));
    let want = "ID does not correspond to a multicast group";
    assert_refused(&rt, alloc, "names", names, want);
    let family = resolve_genl_family(alloc, "nlctrl", Vec::new(alloc));
    let want = "Generic netlink family nlctrl was not found";
    assert_refused(&rt, alloc, "a family", family, want);
}

#[test]
fn an_answer_without_groups_is_named(rt: HostRuntime) {
    let alloc = rt.alloc();
    let items = asked::<Log>(&rt, alloc, &[NUMBER, ACK]);
    let group = resolve_nl_mcast_group(alloc, "nlctrl", "notify", items);
    let want = "Deserialization failed: Couldn't find specified attribute";
    assert_refused(&rt, alloc, "a group", group, want);
}
