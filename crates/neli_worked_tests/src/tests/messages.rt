//! Messages: an error with its echo, retyped, taken out of its message, and another payload put in.

use super::listing::ERROR;
use super::support::{assert_is_at, decoded};
use neli::consts::netfilter::NetfilterMsg;
use neli::consts::nl::{NlType, NlTypeWrapper, NlmsgerrAttr};
use neli::err::{Nlmsgerr, NlmsghdrErr};
use neli::nl::{NlPayload, Nlmsghdr};
use neli::types::Buffer;
use neli::{Cursor, FromBytes};
use std::alloc::Global;
use std::process::Abort;

/// A message without a type of its own, and one with known types.
type Raw = Nlmsghdr<u16, Buffer>;

type Typed = Nlmsghdr<NlTypeWrapper, Vec<u8>>;

/// The message of these digits.
fn raw_message(rt: &impl Abort, alloc: Global, digits: &str) -> Raw {
    let bytes = decoded(rt, alloc, digits);
    Nlmsghdr::from_bytes(alloc, &mut Cursor::new(&bytes)).expect(rt, "a message")
}

/// The message, with known types.
fn typed_message(rt: &impl Abort, alloc: Global, digits: &str) -> Typed {
    let typed = raw_message(rt, alloc, digits).to_typed(alloc);
    typed.ok().expect(rt, "a typed message")
}

/// The error in the message.
fn error_in<'a, T, P>(
    rt: &impl Abort,
    message: &'a Nlmsghdr<T, P>,
) -> &'a Nlmsgerr<NlmsghdrErr<T, P>> {
    match message.nl_payload() {
        NlPayload::Err(answer) => answer,
        _ => rt.panic("no error"),
    }
}

/// Asserts the code of an error, and the text `bad` of its one attribute.
fn assert_bad<T: NlType, P>(
    rt: &impl Abort,
    alloc: Global,
    row: &str,
    answer: &Nlmsgerr<NlmsghdrErr<T, P>>,
) {
    let attrs = answer.ext_ack().get_attr_handle();
    let text: String = attrs
        .get_attr_payload_as_with_len(alloc, NlmsgerrAttr::Msg)
        .expect(rt, row);
    let said = (*answer.error(), answer.ext_ack().len(), text.as_str());
    assert_is_at(rt, row, said, (-22, 1, "bad"));
}

#[test]
fn an_error_with_its_echo(rt: HostRuntime) {
    let message = raw_message(&rt, rt.alloc(), ERROR);
    let answer = error_in(&rt, &message);
    assert_bad(&rt, rt.alloc(), "an error", answer);
    let echo = (*answer.nlmsg().nl_type(), answer.nlmsg().nl_payload().len());
    assert_is_at(&rt, "its echo", echo, (1024, 5));
}

// The echo's length is computed anew, and rounded up.
#[test]
fn a_retyped_error(rt: HostRuntime) {
    let message = typed_message(&rt, rt.alloc(), ERROR);
    let answer = error_in(&rt, &message);
    assert_bad(&rt, rt.alloc(), "an error", answer);
    let echo = answer.nlmsg();
    let log = NlTypeWrapper::NetfilterMsg(NetfilterMsg::LogPacket);
    assert_is_at(&rt, "its echo", *echo.nl_type(), log);
    let body = echo.nl_payload().as_slice();
    assert_is_at(&rt, "its body", body, b"abcde".as_slice());
    let lengths = (*echo.nl_len(), *message.nl_len());
    assert_is_at(&rt, "lengths", lengths, (24, 52));
}

#[test]
fn an_error_taken_out_once(rt: HostRuntime) {
    let mut message = typed_message(&rt, rt.alloc(), ERROR);
    let taken = message.get_err().expect(&rt, "an error");
    assert_bad(&rt, rt.alloc(), "an error", &taken);
    let is_empty = matches!(message.nl_payload(), NlPayload::Empty);
    assert_is_at(
        &rt,
        "what is left",
        (is_empty, *message.nl_len()),
        (true, 16),
    );
    let is_none = message.get_err().is_none();
    assert_is_at(&rt, "once more", is_none, true);
}

#[test]
fn another_payload_put_in(rt: HostRuntime) {
    let mut message = typed_message(&rt, rt.alloc(), ERROR);
    let body = b"12345".to_vec(rt.alloc()).expect(&rt, "memory");
    let put = message.set_payload(NlPayload::Payload(body));
    assert_is_at(
        &rt,
        "five bytes",
        (put.is_ok(), *message.nl_len()),
        (true, 24),
    );
}
