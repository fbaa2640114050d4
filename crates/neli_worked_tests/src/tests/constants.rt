//! Constants by their numbers, and flags as sets.

use super::support::assert_is_at;
use neli::consts::Flags;
use neli::consts::connector::CnMsgVal;
use neli::consts::genl::{CtrlAttr, Index, NlAttrTypeWrapper};
use neli::consts::netfilter::{NetfilterMsg, NfLogAttr};
use neli::consts::nl::{GenlId, NlTypeWrapper, NlmF, Nlmsg};
use neli::consts::rtnl::{Arphrd, Frattr, Ifla, Ntf, RtaTypeWrapper, Rtm};
use neli::genl::AttrType;
use neli::{Cursor, FromBytes};

#[test]
fn types_of_messages(rt: HostRuntime) {
    let rows: [(u16, NlTypeWrapper); 6] = [
        (3, NlTypeWrapper::Nlmsg(Nlmsg::Done)),
        (16, NlTypeWrapper::GenlId(GenlId::Ctrl)),
        (17, NlTypeWrapper::GenlId(GenlId::VfsDquot)),
        (19, NlTypeWrapper::Rtm(Rtm::Setlink)),
        (1024, NlTypeWrapper::NetfilterMsg(NetfilterMsg::LogPacket)),
        (1026, NlTypeWrapper::UnrecognizedConst(1026)),
    ];
    for (number, want) in rows {
        assert_is_at(&rt, "a type", NlTypeWrapper::from(number), want);
    }
}

#[test]
fn types_of_attributes(rt: HostRuntime) {
    let rows: [(u16, NlAttrTypeWrapper); 3] = [
        (7, NlAttrTypeWrapper::CtrlAttr(CtrlAttr::McastGroups)),
        (8, NlAttrTypeWrapper::NfLogAttr(NfLogAttr::Hwaddr)),
        (20, NlAttrTypeWrapper::Index(Index::from(20))),
    ];
    for (number, want) in rows {
        assert_is_at(&rt, "generic", NlAttrTypeWrapper::from(number), want);
    }
    let routing = (RtaTypeWrapper::from(9), RtaTypeWrapper::from(56));
    let want = (
        RtaTypeWrapper::Ifla(Ifla::Priority),
        RtaTypeWrapper::UnrecognizedConst(56),
    );
    assert_is_at(&rt, "routing", routing, want);
}

// The first of two names of a number.
#[test]
fn numbers_with_two_names(rt: HostRuntime) {
    let first = (Frattr::from(3), Arphrd::from(8), CnMsgVal::from(1));
    let want = (Frattr::Iifname, Arphrd::Appletlk, CnMsgVal::Proc);
    assert_is_at(&rt, "two names", first, want);
}

// 0x8000 is `NLA_F_NESTED`.
#[test]
fn a_type_with_a_flag(rt: HostRuntime) {
    let field = AttrType::<CtrlAttr>::from(0x8002);
    let parts = (*field.nla_nested(), *field.nla_type());
    assert_is_at(&rt, "nested", parts, (true, CtrlAttr::FamilyName));
}

// Bits without a name are read, and `From` leaves them out.
#[test]
fn sets_of_flags(rt: HostRuntime) {
    let read = Ntf::from_bytes(rt.alloc(), &mut Cursor::new(b"\xff"));
    let read = read.expect(&rt, "flags").bits();
    let bits = (Ntf::from(0xff).bits(), read);
    assert_is_at(&rt, "of a neighbour", bits, (0xbf, 0xff));
    let bits = ((NlmF::DUMP - NlmF::ROOT).bits(), (!NlmF::empty()).bits());
    assert_is_at(&rt, "of a message", bits, (0x200, 0xf3f));
}
