//! The examples of the pages of docs on attributes, the router and groups, line by line.

use super::support::{assert_is, assert_spelled, assert_written, bytes_of};
use neli::consts::genl::{CtrlAttr, CtrlAttrMcastGrp, Index};
use neli::consts::nl::GenlId;
use neli::consts::rtnl::Ifla;
use neli::genl::Nlattr;
use neli::lent::LentRtattrs;
use neli::nl::Nlmsghdr;
use neli::rtnl::Ifinfomsg;
use neli::short::Made;
use neli::types::Buffer;
use neli::utils::Groups;
use neli::{Cursor, FromBytesWithInput};
use std::alloc::Global;
use std::test::Fail;

/// A group of a family, made from the inside out.
fn group_of_a_family(alloc: Global) -> Result<Nlattr<Index, Buffer>, Fail> {
    let group = Nlattr::of(alloc, Index::from(1), ())?
        .nest(&Nlattr::of(alloc, CtrlAttrMcastGrp::Name, "notify")?)?
        .nest(&Nlattr::of(alloc, CtrlAttrMcastGrp::Id, 5u32)?)?;
    Ok(group)
}

/// The groups of a family: this one.
fn groups_of_a_family(
    alloc: Global,
    group: Nlattr<Index, Buffer>,
) -> Result<Nlattr<CtrlAttr, Buffer>, Fail> {
    let groups = Nlattr::of(alloc, CtrlAttr::McastGroups, ())?.nest(&group)?;
    Ok(groups)
}

#[test]
fn nested_attributes(rt: HostRuntime) -> Result<(), Fail> {
    let groups = groups_of_a_family(rt.alloc(), group_of_a_family(rt.alloc())?)?;
    let want = "1c000780180001800b0001006e6f7469667900000800020005000000";
    assert_written(&rt, rt.alloc(), &groups, want);
    Ok(())
}

/// The state of a bridge's port, if the link has it.
fn state_of_a_port(alloc: Global, link: &Ifinfomsg) -> Result<Option<u8>, Fail> {
    let attrs = link.rtattrs().get_attr_handle();
    if let Some(port) = attrs.get_attribute_masked(Ifla::Protinfo) {
        let state: u8 = port
            .get_attr_handle::<u16>(alloc)?
            .get_attr_payload_as(alloc, 1)?;
        return Ok(Some(state));
    }
    Ok(None)
}

/// The number of a bridge port's attributes, if the link has them.
fn attributes_of_a_port(attrs: &LentRtattrs<'_, Ifla>) -> Result<Option<usize>, Fail> {
    if let Some(port) = attrs.get_attribute_masked(Ifla::Protinfo)? {
        let inner = port.get_attrs::<u16>();
        return Ok(Some(inner.try_count()?));
    }
    Ok(None)
}

/// A link's fields, 16 bytes, and the start of the list that a port of a bridge has as `IFLA_PROTINFO`, marked as
/// nested: its state, 3, and its priority, 32.
const PORT: &str = "0700000005000000000000000000000014000c8005000100030000000600020020000000";

#[test]
fn a_list_that_is_marked_as_nested(rt: HostRuntime) -> Result<(), Fail> {
    let bytes = bytes_of(&rt, rt.alloc(), PORT);
    let mut cursor = Cursor::new(&bytes);
    let link = Ifinfomsg::from_bytes_with_input(rt.alloc(), &mut cursor, bytes.len())?;
    assert!(rt; state_of_a_port(rt.alloc(), &link)? == Some(3));
    let list = bytes.get(16..).expect(&rt, "attributes");
    let attrs = LentRtattrs::<'_, Ifla>::new(list);
    assert!(rt; attributes_of_a_port(&attrs)? == Some(2));
    Ok(())
}

/// A request to the controller of generic netlink, and the first reply of a datagram.
fn first_reply(
    alloc: Global,
    port: u32,
    payload: Buffer,
    datagram: &[u8],
) -> Result<(Vec<u8>, Option<Nlmsghdr<GenlId, Buffer>>), Fail> {
    use neli::consts::nl::{GenlId, NlmF};
    use neli::router::synchronous::{Log, NlRouter};
    use neli::short::{Client, Next};

    let (mut router, _multicast) = NlRouter::<Log>::new(alloc, port);
    let mut request = router.request(alloc, GenlId::Ctrl, NlmF::ACK, payload)?;
    // Your link sends `request.bytes`, and `datagram` comes back.
    router.receive_for(alloc, datagram, &[])?;
    // An error of the kernel, a stray or a fault is returned as the error.
    let reply = match router.next(alloc, &mut request.handle)? {
        Next::Message(message) => Some(message), // the next reply
        Next::End => None, // no item comes any more
        Next::Waits => None, // none is here yet
    };
    router.close(request.handle);
    Ok((request.bytes, reply))
}

// The controller receives a request for `nlctrl`, and returns the number 16.
#[test]
fn the_first_reply_of_a_datagram(rt: HostRuntime) -> Result<(), Fail> {
    let alloc = rt.alloc();
    let payload = bytes_of(&rt, alloc, "030200000b0002006e6c6374726c0000");
    let datagram = bytes_of(
        &rt,
        alloc,
        "1c000000100000000000000000000000010200000600010010000000",
    );
    let (request, reply) = first_reply(alloc, 0, Buffer::from(payload), &datagram)?;
    let want = "20000000100005000000000000000000030200000b0002006e6c6374726c0000";
    assert_spelled(&rt, alloc, &request, want);
    let reply = reply.expect(&rt, "a reply");
    let body = reply.get_payload().map(|body| body.as_ref());
    assert_is(&rt, body, datagram.get(16..));
    Ok(())
}

/// Groups that are added and removed.
fn groups(alloc: Global) -> Result<Groups, Fail> {
    use neli::utils::Groups;

    let mut groups = Groups::new_bitmask(alloc, 0x8000_0001)?; // 1, 32
    groups.add_groups(&[40, 1])?; // 1, 32, 40
    groups.remove_bitmask(1); // 32, 40
    Ok(groups)
}

#[test]
fn groups_come_and_go(rt: HostRuntime) -> Result<(), Fail> {
    let groups = groups(rt.alloc())?.into_groups();
    assert_is(&rt, groups.as_slice(), [32, 40].as_slice());
    Ok(())
}
