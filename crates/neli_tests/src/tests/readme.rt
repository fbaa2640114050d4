//! The examples of the README, of docs/ATTRIBUTES.md (the first) and of docs/FRAMES.md (reading without a copy).

use super::support::{assert_is, assert_spelled, assert_written, bytes_of};
use neli::consts::nl::NlmF;
use neli::consts::rtnl::{Ifa, RtAddrFamily, RtScope, Rta, Rtm};
use neli::router::synchronous::{Log, NlRouter};
use neli::rtnl::IfaddrmsgBuilder;
use neli::short::{Client, Lookup, Next};
use neli::types::{Buffer, RtBuffer};
use std::alloc::Global;
use std::net::Ipv4Addr;
use std::test::Fail;

/// A request for the addresses of a link, and the first of them in the kernel's answer.
fn first_address(
    alloc: Global,
    port: u32,
    datagram: &[u8],
) -> Result<(Vec<u8>, Option<Ipv4Addr>), Fail> {
    let (mut router, _multicast) = NlRouter::<Log>::new(alloc, port);
    let of_link = IfaddrmsgBuilder::default()
        .ifa_family(RtAddrFamily::Inet)
        .ifa_prefixlen(0)
        .ifa_scope(RtScope::Universe)
        .ifa_index(3)
        .build(alloc)?;
    let mut request = router.request(alloc, Rtm::Getaddr, NlmF::DUMP, of_link)?;
    // Your socket, with NETLINK_GET_STRICT_CHK set, sends `request.bytes`, and `datagram` comes back.
    router.receive_for(alloc, datagram, &[])?;
    let mut address: Option<Ipv4Addr> = None;
    if let Next::Message(message) = router.next(alloc, &mut request.handle)? {
        if let Some(body) = message.get_payload() {
            address = body.rtattrs().get(alloc, Ifa::Local)?; // 192.0.2.1
        }
    }
    Ok((request.bytes, address))
}

// Recorded from Linux 6.18, but for the number, which was 1179: one of the addresses of veth0.
#[test]
fn addresses_of_a_link(rt: HostRuntime) -> Result<(), Fail> {
    let alloc = rt.alloc();
    let datagram = bytes_of(
        &rt,
        alloc,
        "58000000140022000000000085958cf6021880000300000008000100c000020108000200c000020108000400c00002ff\
        0a0003007665746830000000080008008000000014000600ffffffffffffffff4473030044730300",
    );
    let (request, address) = first_address(alloc, 4136408453, &datagram)?;
    let want = "18000000160001030000000085958cf60200000003000000";
    assert_spelled(&rt, alloc, &request, want);
    assert_is(&rt, address, Some(Ipv4Addr::new(192, 0, 2, 1)));
    Ok(())
}

/// A gateway of a route: its bytes, and the address that they are read as.
fn gateway(alloc: Global) -> Result<(Vec<u8>, Option<[u8; 4]>), Fail> {
    use neli::consts::rtnl::Rta;
    use neli::short::{Lookup, Put};
    use neli::types::{Buffer, RtBuffer};
    use neli::{Cursor, FromBytesWithInput, ToBytes};

    let mut attrs: RtBuffer<Rta, Buffer> = RtBuffer::new(alloc);
    attrs.put(alloc, Rta::Gateway, [192u8, 0, 2, 1])?;

    let mut bytes = Vec::new(alloc);
    attrs.to_bytes(&mut bytes)?; // 08 00 05 00 c0 00 02 01

    let mut cursor = Cursor::new(&bytes);
    let read: RtBuffer<Rta, Buffer> = RtBuffer::from_bytes_with_input(
        alloc,
        &mut cursor,
        bytes.len(),
    )?;
    let address: Option<[u8; 4]> = read.get(alloc, Rta::Gateway)?;
    Ok((bytes, address))
}

#[test]
fn gateway_of_a_route(rt: HostRuntime) -> Result<(), Fail> {
    let (bytes, address) = gateway(rt.alloc())?;
    assert_spelled(&rt, rt.alloc(), &bytes, "08000500c0000201");
    assert_is(&rt, address, Some([192, 0, 2, 1]));
    Ok(())
}

/// The same gateway by the Rust crate's own calls: its list, and the address in it.
fn gateway_by_its_builder(alloc: Global) -> Result<(RtBuffer<Rta, Buffer>, [u8; 4]), Fail> {
    use neli::consts::rtnl::Rta;
    use neli::rtnl::RtattrBuilder;
    use neli::types::RtBuffer;

    let gateway = RtattrBuilder::default()
        .rta_type(Rta::Gateway)
        .rta_payload([192u8, 0, 2, 1])
        .build(alloc)?;
    let mut attrs = RtBuffer::new(alloc);
    attrs.push(gateway)?;
    let address: [u8; 4] = attrs
        .get_attr_handle()
        .get_attr_payload_as(alloc, Rta::Gateway)?;
    Ok((attrs, address))
}

#[test]
fn gateway_that_is_built(rt: HostRuntime) -> Result<(), Fail> {
    let (attrs, address) = gateway_by_its_builder(rt.alloc())?;
    assert_written(&rt, rt.alloc(), &attrs, "08000500c0000201");
    assert_is(&rt, address, [192, 0, 2, 1]);
    Ok(())
}

/// The names of the links in a datagram. Each is lent from the datagram, so it outlives the message and the attribute
/// that it was read from.
fn names_of<'a>(alloc: Global, datagram: &'a [u8]) -> Result<Vec<&'a str>, Fail> {
    use neli::consts::rtnl::Ifla;
    use neli::lent::LentMessages;
    use neli::rtnl::Ifinfomsg;
    use neli::short::LentLookup;

    let mut names = Vec::new(alloc);
    for message in LentMessages::<u16>::new(datagram) {
        let attrs = message?.get_attrs::<Ifinfomsg, Ifla>()?;
        if let Some(name) = attrs.get_str(Ifla::Ifname)? {
            names.push(name)?;
        }
    }
    Ok(names)
}

/// Two links, each a message with the header, `struct ifinfomsg` and the name.
const LINKS: &str =
    "2800000010000200010000000000000000000403010000004900000000000000070003006c6f00002c00000010000200\
    0100000000000000000001000300000043100100000000000a0003007665746830000000";

#[test]
fn names_of_links(rt: HostRuntime) -> Result<(), Fail> {
    let datagram = bytes_of(&rt, rt.alloc(), LINKS);
    let names = names_of(rt.alloc(), &datagram)?;
    assert_is(&rt, names.as_slice(), ["lo", "veth0"].as_slice());
    Ok(())
}
