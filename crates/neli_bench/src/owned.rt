//! Walks that read each message into memory of its own.
//!
//! Each returns false, and leaves `total` unchanged, if the bytes have a fault or memory runs out.

ghost use Rattle.std.specs.Prelude.{◌≡◌, IsTrue, false, sum_by};
ghost use Rattle.neli_body.specs.Attributes.{attrs_view};
ghost use Rattle.neli_reader.specs.Messages.{message_of};
ghost use Rattle.neli_bench.specs.Walks.{IsSum, as_u64, link_adds, link_cut, raw_cut, route_adds, route_cut};
ghost use Rattle.neli_bench.specs.Walks.{stated_length, type_and_length};

use crate::plus;
use neli_attr::{Buffer, RtBuffer};
use neli_consts_attrs::RtaType;
use neli_reader::{NlBufferIter, Nlmsghdr};
use neli_rtnl::{Ifinfomsg, Rtmsg};
use std::alloc::Global;

/// The sum over the attributes.
fn attributes_add<T: RtaType>(attributes: &RtBuffer<T, Buffer>) -> u64
    ensures { result ≡ as_u64 (sum_by
        (λ a. type_and_length (T.wire_number a.rta_type) a.rta_payload) attributes.now) }
{
    let mut total: u64 = 0;
    for attribute in attributes.as_ref() {
        let number = attribute.rta_type().to_number();
        total = plus(total, number, attribute.rta_payload().as_ref());
    }
    total
}

/// The sum over the attributes of a link.
fn link_adds(message: &Nlmsghdr<u16, Ifinfomsg>) -> u64
    ensures { result ≡ as_u64 (link_adds
        (message_of (λ link. (link.header, attrs_view link.rtattrs)) message.now)) }
{
    match message.get_payload() {
        Some(link) => attributes_add(link.rtattrs()),
        None => 0,
    }
}

/// The sum over the attributes of a route.
fn route_adds(message: &Nlmsghdr<u16, Rtmsg>) -> u64
    ensures { result ≡ as_u64 (route_adds
        (message_of (λ route. (route.header, attrs_view route.rtattrs)) message.now)) }
{
    match message.get_payload() {
        Some(route) => attributes_add(route.rtattrs()),
        None => 0,
    }
}

/// The sum of the lengths that the messages state, each message read with its payload as bytes.
#[unsafe(no_mangle)]
pub extern "C" fn neli_bench_owned_headers(alloc: Global, bytes: &[u8], total: &mut u64) -> bool
    ensures sum { IsTrue result → IsSum stated_length (raw_cut bytes.now) total.new }
    ensures unchanged { result ≡ false → total.new ≡ total.old }
{
    let mut sum: u64 = 0;
    let mut messages: NlBufferIter<'_, u16, Buffer> = NlBufferIter::new(bytes);
    while let Some(item) = messages.next(alloc) {
        let Ok(message) = item else {
            return false;
        };
        sum = sum.saturating_add(u64::from(*message.nl_len()));
    }
    *total = sum;
    true
}

/// The sum over the attributes, each message read as a link.
#[unsafe(no_mangle)]
pub extern "C" fn neli_bench_owned_link_attributes(
    alloc: Global,
    bytes: &[u8],
    total: &mut u64,
) -> bool
    ensures sum { IsTrue result → IsSum link_adds (link_cut bytes.now) total.new }
    ensures unchanged { result ≡ false → total.new ≡ total.old }
{
    let mut sum: u64 = 0;
    let mut messages: NlBufferIter<'_, u16, Ifinfomsg> = NlBufferIter::new(bytes);
    while let Some(item) = messages.next(alloc) {
        let Ok(message) = item else {
            return false;
        };
        sum = sum.saturating_add(link_adds(&message));
    }
    *total = sum;
    true
}

/// The sum over the attributes, each message read as a route.
#[unsafe(no_mangle)]
pub extern "C" fn neli_bench_owned_route_attributes(
    alloc: Global,
    bytes: &[u8],
    total: &mut u64,
) -> bool
    ensures sum { IsTrue result → IsSum route_adds (route_cut bytes.now) total.new }
    ensures unchanged { result ≡ false → total.new ≡ total.old }
{
    let mut sum: u64 = 0;
    let mut messages: NlBufferIter<'_, u16, Rtmsg> = NlBufferIter::new(bytes);
    while let Some(item) = messages.next(alloc) {
        let Ok(message) = item else {
            return false;
        };
        sum = sum.saturating_add(route_adds(&message));
    }
    *total = sum;
    true
}
