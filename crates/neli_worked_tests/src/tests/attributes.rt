//! Attributes: their frames, lists of them, lookup by type, and one inside another.

use super::support::{
    Read, Refusal, assert_is_at, assert_read, assert_refused, assert_written, refusal_in,
};
use neli::attr::AttrHandle;
use neli::consts::genl::{CtrlAttr, CtrlAttrMcastGrp, Index, NlAttrType};
use neli::consts::rtnl::{Frattr, Ifa, Rta, RtaType};
use neli::err::DeError;
use neli::genl::{AttrType, GenlAttrHandle, Nlattr, NlattrBuilder, NlattrBuilderError};
use neli::rtnl::{Rtattr, RtattrBuilder};
use neli::types::{Buffer, FrameList, GenlBuffer, RtBuffer};
use neli::{Cursor, FromBytes, FromBytesWithInput, Size, ToBytes};
use std::alloc::Global;
use std::process::Abort;

/// A generic attribute without flags.
fn generic<T: NlAttrType, P: ToBytes + Drop>(
    rt: &impl Abort,
    alloc: Global,
    kind: T,
    payload: P,
) -> Nlattr<T, Buffer> {
    NlattrBuilder::default()
        .nla_type(AttrType::from(kind.to_number()))
        .nla_payload(payload)
        .build(alloc)
        .expect(rt, "a generic attribute")
}

/// A routing attribute.
fn routing<T: RtaType, P: ToBytes + Drop>(
    rt: &impl Abort,
    alloc: Global,
    kind: T,
    payload: P,
) -> Rtattr<T, Buffer> {
    RtattrBuilder::default()
        .rta_type(kind)
        .rta_payload(payload)
        .build(alloc)
        .expect(rt, "a routing attribute")
}

/// Reads a routing attribute.
fn read_routing(alloc: Global, bytes: &[u8]) -> Result<Rtattr<Rta, Buffer>, DeError> {
    Rtattr::from_bytes(alloc, &mut Cursor::new(bytes))
}

#[test]
fn routing_attributes(rt: HostRuntime) {
    let alloc = rt.alloc();
    let read = read_routing(alloc, &[4, 0, 0, 0]).expect(&rt, "an attribute");
    assert_written(&rt, alloc, "an empty one", &read, "04000000");
    let refused = refusal_in(read_routing(alloc, &[3, 0, 0, 0]));
    assert_is_at(&rt, "a short one", refused, Some(Refusal::Input(3)));
    let built = routing(&rt, alloc, Rta::Unspec, 0u8);
    assert_written(&rt, alloc, "one byte", &built, "0500000000000000");
}

/// So many zeros as the payload of a generic attribute.
fn zeros(
    rt: &impl Abort,
    alloc: Global,
    count: usize,
) -> Result<Nlattr<u16, Buffer>, NlattrBuilderError> {
    let bytes = vec![in alloc; 0u8; count].expect(rt, "memory");
    NlattrBuilder::default()
        .nla_type(AttrType::from(1))
        .nla_payload(Buffer::from(bytes))
        .build(alloc)
}

/// The refusal of a length above its field.
const TOO_LONG: &str = "Length does not fit its field";

#[test]
fn the_longest_attribute(rt: HostRuntime) {
    let alloc = rt.alloc();
    let longest = zeros(&rt, alloc, 65531).expect(&rt, "an attribute");
    assert_is_at(&rt, "the longest", *longest.nla_len(), 65535);
    let long = zeros(&rt, alloc, 65532);
    assert_refused(&rt, alloc, "one byte more", long, TOO_LONG);
}

#[test]
fn the_longest_nest(rt: HostRuntime) {
    let alloc = rt.alloc();
    let outer = zeros(&rt, alloc, 65528).expect(&rt, "an attribute");
    let nested = outer.nest(&generic(&rt, alloc, 2u16, 4u32));
    assert_refused(&rt, alloc, "a nest", nested, TOO_LONG);
}

/// The size of a list of these.
fn size_of<I: Size + Drop>(rt: &impl Abort, alloc: Global, attrs: (I, I, I)) -> usize {
    let mut list = FrameList::new(alloc);
    list.push(attrs.0).expect(rt, "memory");
    list.push(attrs.1).expect(rt, "memory");
    list.push(attrs.2).expect(rt, "memory");
    list.unpadded_size()
}

#[test]
fn lists_of_three(rt: HostRuntime) {
    let alloc = rt.alloc();
    let first = generic(&rt, alloc, Index::from(0), 0u8);
    let second = generic(&rt, alloc, Index::from(1), 1u8);
    let third = generic(&rt, alloc, Index::from(2), 2u8);
    let size = size_of(&rt, alloc, (first, second, third));
    assert_is_at(&rt, "generic ones", size, 24);
    let first = routing(&rt, alloc, Ifa::Unspec, 0u8);
    let second = routing(&rt, alloc, Ifa::Address, 1u8);
    let third = routing(&rt, alloc, Ifa::Local, 2u8);
    let size = size_of(&rt, alloc, (first, second, third));
    assert_is_at(&rt, "routing ones", size, 24);
}

/// Lists of generic attributes.
const LISTS: [Read; 6] = [
    ("no bytes", "", 0, Ok("")),
    ("half a header", "0800", 2, Err(2)),
    ("a length below the header", "03000100", 4, Err(3)),
    ("a length past the bytes", "0800010061", 5, Err(4)),
    ("no padding", "0500010061", 5, Err(5)),
    (
        "padding of any value",
        "0500010061ffffff",
        8,
        Ok("0500010061000000"),
    ),
];

#[test]
fn lists_from_bytes(rt: HostRuntime) {
    for row in &LISTS {
        assert_read::<GenlBuffer<u16, Buffer>>(&rt, rt.alloc(), row);
    }
}

// Number 3 has two names; the value read has the first.
#[test]
fn lookup_by_type(rt: HostRuntime) {
    let mut cursor = Cursor::new(&[5, 0, 3, 0, 9, 0, 0, 0]);
    let read: Result<RtBuffer<Frattr, Buffer>, DeError> = FrameList::from_bytes_with_input(
        rt.alloc(),
        &mut cursor,
        8,
    );
    let list = read.expect(&rt, "a list");
    let handle = list.get_attr_handle();
    let found = handle.get_attribute(Frattr::Iifname).is_some();
    let older = handle.get_attribute(Frattr::Ifname).is_some();
    assert_is_at(&rt, "two names", (found, older), (true, false));
}

/// A generic attribute with another one nested in it, after its other contents.
fn with<T: NlAttrType, S: NlAttrType>(
    rt: &impl Abort,
    outer: Nlattr<T, Buffer>,
    inner: Nlattr<S, Buffer>,
) -> Nlattr<T, Buffer> {
    outer.nest(&inner).expect(rt, "a nested attribute")
}

/// A group of a generic family, with its name and its number.
fn group(rt: &impl Abort, alloc: Global) -> Nlattr<Index, Buffer> {
    let group = generic(rt, alloc, Index::from(1), ());
    let name = generic(rt, alloc, CtrlAttrMcastGrp::Name, "notify");
    let id = generic(rt, alloc, CtrlAttrMcastGrp::Id, 5u32);
    with(rt, with(rt, group, name), id)
}

/// The groups of a generic family, made from the inside out.
fn groups(rt: &impl Abort, alloc: Global) -> Nlattr<CtrlAttr, Buffer> {
    let groups = generic(rt, alloc, CtrlAttr::McastGroups, ());
    with(rt, groups, group(rt, alloc))
}

#[test]
fn groups_inside_an_attribute(rt: HostRuntime) {
    let alloc = rt.alloc();
    let groups = groups(&rt, alloc);
    let digits = "1c00078018000180\
        0b0001006e6f746966790000\
        0800020005000000";
    assert_written(&rt, alloc, "groups", &groups, digits);
}

/// Asserts the name and the number of a group.
fn assert_group(rt: &impl Abort, alloc: Global, group: &Nlattr<Index, Buffer>) {
    let attrs = group
        .get_attr_handle::<CtrlAttrMcastGrp>(alloc)
        .expect(rt, "attributes");
    let name: String = attrs
        .get_attr_payload_as_with_len(alloc, CtrlAttrMcastGrp::Name)
        .expect(rt, "a text");
    let lent: &str = attrs
        .get_attr_payload_as_with_len_borrowed(CtrlAttrMcastGrp::Name)
        .expect(rt, "a text");
    assert_is_at(rt, "a name", (name.as_str(), lent), ("notify", "notify\0"));
    let id: u32 = attrs
        .get_attr_payload_as(alloc, CtrlAttrMcastGrp::Id)
        .expect(rt, "a number");
    assert_is_at(rt, "a number", id, 5);
}

#[test]
fn groups_looked_up(rt: HostRuntime) {
    let alloc = rt.alloc();
    let list = vec![in alloc; groups(&rt, alloc)].expect(&rt, "memory");
    let handle: GenlAttrHandle<'_, CtrlAttr> = AttrHandle::new_borrowed(list.as_slice());
    let found = handle
        .get_nested_attributes::<Index>(alloc, CtrlAttr::McastGroups)
        .expect(&rt, "groups");
    let first = found.get_attribute(Index::from(1)).expect(&rt, "a group");
    assert_group(&rt, alloc, first);
}

/// The attribute of type 1 inside another.
fn inner_of(rt: &impl Abort, alloc: Global, attr: Nlattr<u16, Buffer>) -> Nlattr<u16, Buffer> {
    attr.get_attr_handle::<u16>(alloc)
        .expect(rt, "attributes")
        .get_attribute(1)
        .expect(rt, "a level")
        .try_clone()
        .expect(rt, "memory")
}

#[test]
fn a_thousand_levels(rt: HostRuntime) {
    let alloc = rt.alloc();
    let mut attr = generic(&rt, alloc, 1u16, ());
    for _ in 0..1000 {
        attr = with(&rt, generic(&rt, alloc, 1u16, ()), attr);
    }
    assert_is_at(&rt, "all levels", *attr.nla_len(), 4004);
    for _ in 0..1000 {
        attr = inner_of(&rt, alloc, attr);
    }
    let bare = (*attr.nla_len(), attr.nla_payload().len());
    assert_is_at(&rt, "the innermost", bare, (4, 0));
}
