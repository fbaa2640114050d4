//! The tour of the page of `neli`, which has the code of each of its sections, line by line.

use super::support::{assert_is, assert_spelled, assert_written, bytes_of};
use neli::connector::CnMsg;
use neli::consts::connector::ProcCnMcastOp;
use neli::consts::rtnl::{RtAddrFamily, Rtm};
use neli::nl::Nlmsghdr;
use neli::router::synchronous::{Log, NlRouter};
use neli::rtnl::{Ifinfomsg, IfinfomsgBuilder};
use std::alloc::Global;
use std::test::Fail;

/// Sets a link up: the request, and whether the kernel did it.
fn set_up(alloc: Global, router: &mut NlRouter, datagram: &[u8]) -> Result<(Vec<u8>, bool), Fail> {
    use neli::consts::nl::NlmF;
    use neli::consts::rtnl::{RtAddrFamily, Rtm};
    use neli::rtnl::IfinfomsgBuilder;
    use neli::short::{Client, Next};

    let up = IfinfomsgBuilder::default()
        .ifi_family(RtAddrFamily::Unspecified)
        .ifi_index(3)
        .up()
        .build(alloc)?;
    let mut request = router.request(alloc, Rtm::Setlink, NlmF::ACK, up)?;
    // Your link sends `request.bytes`, and `datagram` comes back.
    router.receive_for(alloc, datagram, &[])?;
    let answer = router.next(alloc, &mut request.handle)?;
    let is_up = matches!(answer, Next::Message(_)); // what the kernel refused is an error
    Ok((request.bytes, is_up))
}

// Recorded from Linux 6.18: veth0 is set up, acknowledged.
#[test]
fn a_link_tool(rt: HostRuntime) -> Result<(), Fail> {
    let alloc = rt.alloc();
    let (mut router, _multicast) = NlRouter::<Log>::new(alloc, 12587);
    router.set_next_seq(1054);
    let acknowledgement = bytes_of(
        &rt,
        alloc,
        "24000000020000011e0400002b3100000000000020000000130005001e04000000000000",
    );
    let (request, is_up) = set_up(alloc, &mut router, &acknowledgement)?;
    let want = "20000000130005001e0400002b31000000000000030000000100000001000000";
    assert_spelled(&rt, alloc, &request, want);
    assert_is(&rt, is_up, true);
    Ok(())
}

/// Resolves a family: its number, and a request to it.
fn resolve(alloc: Global, router: &mut NlRouter, datagram: &[u8]) -> Result<(u16, Vec<u8>), Fail> {
    use neli::consts::nl::NlmF;
    use neli::genl::GenlmsghdrBuilder;
    use neli::router::synchronous::resolve_genl_family;
    use neli::short::Client;

    let (_request, mut handle) = router.request_genl_family(alloc, "tcp_metrics")?;
    // Your link sends the request, and `datagram` comes back.
    router.receive_for(alloc, datagram, &[])?;
    let items = router.read_dump(alloc, &mut handle)?.items;
    let family = resolve_genl_family(alloc, "tcp_metrics", items)?;
    // Command 1 of the family, whose number is the type of the message.
    let command = GenlmsghdrBuilder::<u8, u16>::default()
        .cmd(1)
        .version(1)
        .build(alloc)?;
    let request = router.request(alloc, family, NlmF::DUMP, command)?;
    Ok((family, request.bytes))
}

// Recorded from Linux 6.18: the controller returns the number of `tcp_metrics`, 27.
#[test]
fn a_generic_client(rt: HostRuntime) -> Result<(), Fail> {
    let alloc = rt.alloc();
    let (mut router, _multicast) = NlRouter::<Log>::new(alloc, 17225);
    router.set_next_seq(1009);
    let found = bytes_of(
        &rt,
        alloc,
        "7000000010000000f10300004943000001020000100002007463705f6d65747269637300060001001b000000080003000100000008000400000000000800\
        05000d0000002c000600140001000800010001000000080002000e000000140002000800010002000000080002000b000000",
    );
    let (family, request) = resolve(alloc, &mut router, &found)?;
    assert_spelled(
        &rt,
        alloc,
        &request,
        "140000001b000103f20300004943000001010000",
    );
    assert_is(&rt, family, 27);
    Ok(())
}

/// Listens to processes: the request to send, and the ended processes in a datagram, with their codes.
fn listen(alloc: Global, datagram: &[u8]) -> Result<(CnMsg<ProcCnMcastOp>, Vec<(i32, u32)>), Fail> {
    use neli::connector::{CnMsg, CnMsgBuilder, ProcEvent, ProcEventHeader};
    use neli::consts::connector::{CnMsgIdx, CnMsgVal, ProcCnMcastOp};
    use neli::iter::cut;

    let request = CnMsgBuilder::default()
        .idx(CnMsgIdx::Proc)
        .val(CnMsgVal::Proc)
        .payload(ProcCnMcastOp::Listen)
        .build()?;
    let mut ended = Vec::new(alloc);
    let (messages, _fault) = cut::<u16, CnMsg<ProcEventHeader>>(alloc, datagram)?;
    for body in messages.iter().filter_map(|message| message.get_payload()) {
        let event = body.payload().event;
        if let ProcEvent::Exit {
            process_pid,
            exit_code,
            ..
        } = event
        {
            ended.push((process_pid, exit_code))?;
        }
    }
    Ok((request, ended))
}

// Recorded from Linux 6.18: a child ends with 3.
#[test]
fn process_events(rt: HostRuntime) -> Result<(), Fail> {
    let alloc = rt.alloc();
    let datagram = bytes_of(
        &rt,
        alloc,
        "4c000000030000003300000000000000010000000100000033000000000000002800000000000080010000006b5778f637020000\
        894300008943000000030000110000004b4300004b430000",
    );
    let (request, ended) = listen(alloc, &datagram)?;
    let want = "010000000100000000000000000000000400000001000000";
    assert_written(&rt, alloc, &request, want);
    assert_is(&rt, ended.as_slice(), [(17289, 768u32)].as_slice());
    Ok(())
}

/// Plays the kernel: answers a request for a link with that link.
fn answer(alloc: Global, asked: &[u8], link: Ifinfomsg) -> Result<Vec<u8>, Fail> {
    use neli::consts::nl::NlmF;
    use neli::consts::rtnl::Rtm;
    use neli::nl::{NlPayload, Nlmsghdr, NlmsghdrBuilder};
    use neli::rtnl::Ifinfomsg;
    use neli::{Cursor, FromBytes, ToBytes};

    let request = Nlmsghdr::<Rtm, Ifinfomsg>::from_bytes(alloc, &mut Cursor::new(asked))?;
    reply_with(alloc, &request, link)
}

/// The link, as the answer to a request: the last lines of the example.
fn reply_with(
    alloc: Global,
    request: &Nlmsghdr<Rtm, Ifinfomsg>,
    link: Ifinfomsg,
) -> Result<Vec<u8>, Fail> {
    use neli::consts::nl::NlmF;
    use neli::nl::{NlPayload, NlmsghdrBuilder};
    use neli::ToBytes;

    let reply = NlmsghdrBuilder::default()
        .nl_type(Rtm::Newlink)
        .nl_flags(NlmF::empty())
        .nl_seq(*request.nl_seq())
        .nl_pid(*request.nl_pid())
        .nl_payload(NlPayload::Payload(link))
        .build()?;
    let mut datagram = Vec::new(alloc);
    reply.to_bytes(&mut datagram)?;
    Ok(datagram)
}

#[test]
fn a_simulator(rt: HostRuntime) -> Result<(), Fail> {
    let alloc = rt.alloc();
    let asked = bytes_of(
        &rt,
        alloc,
        "2000000012000100070000000900000000000000030000000000000000000000",
    );
    let link = IfinfomsgBuilder::default()
        .ifi_family(RtAddrFamily::Unspecified)
        .ifi_index(3)
        .build(alloc)?;
    let datagram = answer(alloc, &asked, link)?;
    let want = "2000000010000000070000000900000000000000030000000000000000000000";
    assert_spelled(&rt, alloc, &datagram, want);
    Ok(())
}
