//! Walks that read each message in place. They take no memory.
//!
//! Each returns false, and leaves `total` unchanged, if the bytes have a fault.

ghost use Rattle.std.specs.Prelude.{◌≡◌, IfSome, IsSome, IsTrue, false};
ghost use Rattle.neli_lent.specs.Attributes.{attributes_at};
ghost use Rattle.neli_lent.specs.Messages.{message_view};
ghost use Rattle.neli_bench.specs.Walks.{IsSum, as_u64, lent_adds, lent_cut, lent_stated_length, type_and_length};

use crate::plus;
use neli_lent::{LentAttrs, LentMessage, LentMessages};
use neli_rtnl::{Ifinfomsg, Rtmsg};
use neli_wire::Header;

/// The sum over the attributes; none if they have a fault.
fn attributes_add(mut attributes: LentAttrs<'_, u16>) -> Option<u64>
    ensures { IfSome result (IsSum (λ a. type_and_length a.0.kind a.1)
        (attributes_at (λ n. n) attributes.entry)) }
{
    let mut total: u64 = 0;
    while let Some(item) = attributes.next() {
        let Ok(attribute) = item else {
            return None;
        };
        total = plus(total, *attribute.attr_type(), attribute.attr_payload());
    }
    Some(total)
}

/// The sum over the attributes after a message's body `B`.
fn message_adds<'b, B: Header>(message: &LentMessage<'b, u16>) -> Option<u64>
    ensures { IfSome result
        (λ n. n ≡ as_u64 (lent_adds B.header (message_view message.now))) }
{
    let Ok(attributes) = message.get_attrs::<B, u16>() else {
        return None;
    };
    attributes_add(attributes)
}

/// The sum over the attributes of all messages.
fn messages_add<B: Header>(bytes: &[u8]) -> Option<u64>
    ensures { IfSome result (IsSum (lent_adds B.header) (lent_cut bytes.now)) }
{
    let mut sum: u64 = 0;
    let mut messages: LentMessages<'_, u16> = LentMessages::new(bytes);
    while let Some(item) = messages.next() {
        let Ok(message) = item else {
            return None;
        };
        sum = sum.saturating_add(message_adds::<B>(&message)?);
    }
    Some(sum)
}

/// The sum of the lengths that the messages state.
#[unsafe(no_mangle)]
pub extern "C" fn neli_bench_lent_headers(bytes: &[u8], total: &mut u64) -> bool
    ensures sum { IsTrue result → IsSum lent_stated_length (lent_cut bytes.now) total.new }
    ensures fault { result ≡ false → IsSome (lent_cut bytes.now).1 }
    ensures unchanged { result ≡ false → total.new ≡ total.old }
{
    let mut sum: u64 = 0;
    let mut messages: LentMessages<'_, u16> = LentMessages::new(bytes);
    while let Some(item) = messages.next() {
        let Ok(message) = item else {
            return false;
        };
        sum = sum.saturating_add(u64::from(*message.nl_len()));
    }
    *total = sum;
    true
}

/// The sum over the attributes, each message read as a link.
#[unsafe(no_mangle)]
pub extern "C" fn neli_bench_lent_link_attributes(bytes: &[u8], total: &mut u64) -> bool
    ensures sum { IsTrue result → IsSum (lent_adds 16) (lent_cut bytes.now) total.new }
    ensures unchanged { result ≡ false → total.new ≡ total.old }
{
    let Some(sum) = messages_add::<Ifinfomsg>(bytes) else {
        return false;
    };
    *total = sum;
    true
}

/// The sum over the attributes, each message read as a route.
#[unsafe(no_mangle)]
pub extern "C" fn neli_bench_lent_route_attributes(bytes: &[u8], total: &mut u64) -> bool
    ensures sum { IsTrue result → IsSum (lent_adds 12) (lent_cut bytes.now) total.new }
    ensures unchanged { result ≡ false → total.new ≡ total.old }
{
    let Some(sum) = messages_add::<Rtmsg>(bytes) else {
        return false;
    };
    *total = sum;
    true
}
