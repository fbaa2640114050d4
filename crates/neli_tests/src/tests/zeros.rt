//! Payloads whose message exceeds 32 bits: a user's own type, which writes zeros and takes no memory itself.

use super::support::{asked, assert_is, assert_prints};
use neli::consts::nl::NlmF;
use neli::err::{RouterError, SerError};
use neli::nl::{NlPayload, Nlmsghdr, NlmsghdrBuilder};
use neli::router::synchronous::{Log, NlRouter, NlRouterReceiverHandle};
use neli::types::Buffer;
use neli::{Size, ToBytes};
use std::alloc::Global;
use std::process::Abort;

/// So many bytes of 0.
#[derive(Debug, Drop)]
struct Zeros {
    count: usize,
}

impl Size for Zeros {
    ghost use Rattle.neli.specs.wire.laws.Sizes.{unpadded-rounded};

    ghost unpadded_length = { λ z. z.count };

    ghost wire_length = { λ z. z.count };

    ghost rounded = { unpadded-rounded (λ z. z.count) };

    fn unpadded_size(&self) -> usize {
        self.count
    }

    fn written_size(&self) -> usize {
        self.count
    }
}

impl ToBytes for Zeros {
    ghost use Rattle.neli_tests.specs.Zeros.{zeros, zeros-count, zeros-again, zeros-written};

    ghost wire = { λ z. zeros z.count };

    ghost length_is = { λ z bytes e. zeros-count z.count bytes e };

    ghost zeros_after = { λ z bytes e. zeros-again z.count bytes e };

    ghost no_memory = { λ z. zeros-written z.count };

    fn to_bytes(&self, buffer: &mut Vec<u8>) -> Result<(), SerError> {
        let size = buffer.len().saturating_add(self.count);
        buffer.resize(size, 0)?;
        Ok(())
    }
}

/// The first count at which a header and this payload exceed 32 bits.
const PAST: usize = 4294967277;

/// The number of the handle that an empty request gets.
fn next_number(rt: &impl Abort, alloc: Global, router: &mut NlRouter<Log>) -> Option<u32> {
    asked(rt, alloc, router).state().number
}

#[test]
fn a_request_past_32_bits_takes_no_number(rt: HostRuntime) {
    let alloc = rt.alloc();
    let (mut router, _multicast) = NlRouter::<Log>::new(alloc, 0);
    let long: NlPayload<u16, Zeros> = NlPayload::Payload(Zeros { count: PAST });
    let sent: Result<(Vec<u8>, NlRouterReceiverHandle<u16, Buffer>), RouterError<u16, Zeros>> =
        router.send(alloc, 16u16, NlmF::empty(), long);
    let error = sent.err().expect(&rt, "a refusal");
    assert_is(&rt, matches!(&error, RouterError::Msg(_)), true);
    assert_prints(&rt, alloc, &error, "Length does not fit its field");
    assert_is(&rt, next_number(&rt, alloc, &mut router), Some(0));
}

/// A message with three zeros.
fn three(rt: &impl Abort) -> Nlmsghdr<u16, Zeros> {
    NlmsghdrBuilder::default()
        .nl_type(16)
        .nl_flags(NlmF::empty())
        .nl_payload(NlPayload::Payload(Zeros { count: 3 }))
        .build()
        .ok()
        .expect(rt, "a message")
}

#[test]
fn a_payload_past_32_bits_is_not_put_in(rt: HostRuntime) {
    let mut message = three(&rt);
    let refused = message.set_payload(NlPayload::Payload(Zeros { count: PAST }));
    let error = refused.err().expect(&rt, "a refusal");
    assert_prints(&rt, rt.alloc(), &error, "Length does not fit its field");
    let kept = message.get_payload().map(|zeros| zeros.count);
    assert_is(&rt, (*message.nl_len(), kept), (20, Some(3)));
}

// The length is rounded up to four, and the largest such length in 32 bits is 4294967292.
#[test]
fn a_payload_up_to_32_bits_is_put_in(rt: HostRuntime) {
    for (count, length) in [
        (PAST - 5, 4294967288),
        (PAST - 4, 4294967292),
        (PAST - 1, 4294967292),
    ] {
        let mut message = three(&rt);
        let put = message.set_payload(NlPayload::Payload(Zeros { count }));
        put.expect(&rt, "a payload");
        assert_is(&rt, *message.nl_len(), length);
    }
}
