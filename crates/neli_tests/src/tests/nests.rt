//! A request with nested attributes: it creates a bridge with settings of its own.
//!
//! Its bytes are those that iproute2 sends to the kernel, as 1090 of suites/README.md has them, for `ip link add br0
//! type bridge mcast_snooping 1 stp_state 1 priority 5`.

use super::support::assert_spelled;
use neli::consts::linux::IflaBr;
use neli::consts::nl::NlmF;
use neli::consts::rtnl::{Ifla, IflaInfo, RtAddrFamily, Rtm};
use neli::router::synchronous::{Log, NlRouter};
use neli::rtnl::{Ifinfomsg, IfinfomsgBuilder, Rtattr};
use neli::short::{Client, Made, Put};
use neli::types::{Buffer, RtBuffer};
use std::alloc::Global;
use std::test::Fail;

/// The settings of the bridge.
fn settings(alloc: Global) -> Result<RtBuffer<IflaBr, Buffer>, Fail> {
    let mut settings = RtBuffer::new(alloc);
    settings.put(alloc, IflaBr::McastSnooping, 1u8)?;
    settings.put(alloc, IflaBr::StpState, 1u32)?;
    settings.put(alloc, IflaBr::Priority, 5u16)?;
    Ok(settings)
}

/// The link's kind: a bridge with these settings.
fn bridge(alloc: Global) -> Result<RtBuffer<IflaInfo, Buffer>, Fail> {
    let mut info = RtBuffer::new(alloc);
    info.put(alloc, IflaInfo::Kind, *b"bridge")?;
    info.push(Rtattr::nest_of(alloc, IflaInfo::Data, settings(alloc)?)?)?;
    Ok(info)
}

/// The attributes of the link to create.
fn attributes(alloc: Global, name: &str) -> Result<RtBuffer<Ifla, Buffer>, Fail> {
    let mut attrs = RtBuffer::new(alloc);
    attrs.put(alloc, Ifla::Ifname, name)?;
    attrs.push(Rtattr::nest_of(alloc, Ifla::Linkinfo, bridge(alloc)?)?)?;
    Ok(attrs)
}

/// The link to create.
fn link(alloc: Global, name: &str) -> Result<Ifinfomsg, Fail> {
    let link = IfinfomsgBuilder::default()
        .ifi_family(RtAddrFamily::Unspecified)
        .rtattrs(attributes(alloc, name)?)
        .build(alloc)?;
    Ok(link)
}

/// The request.
fn request(alloc: Global, router: &mut NlRouter) -> Result<Vec<u8>, Fail> {
    let flags = NlmF::CREATE | NlmF::EXCL | NlmF::ACK;
    let request = router.request(alloc, Rtm::Newlink, flags, link(alloc, "br0")?)?;
    Ok(request.bytes)
}

#[test]
fn a_bridge_is_made(rt: HostRuntime) -> Result<(), Fail> {
    let (mut router, _multicast) = NlRouter::<Log>::new(rt.alloc(), 0);
    router.set_next_seq(1795332459);
    let request = request(rt.alloc(), &mut router)?;
    let want = "54000000100005066b99026b00000000000000000000000000000000000000000800030062723000\
        2c0012000a00010062726964676500001c000200050017000100000008000500010000000600060005000000";
    assert_spelled(&rt, rt.alloc(), &request, want);
    Ok(())
}
