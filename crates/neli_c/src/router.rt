//! A router for C. C holds a `struct neli_router`, which is closed if all its bytes are 0.
//!
//! Each call but those that open and free it returns `STATE` if the router is closed, and changes nothing then.

ghost use Rattle.std.specs.Prelude.{◌≡◌, ◌≢◌, ◌⊎◌, IfSome, IsSome, None};
ghost use Rattle.neli_c_parts.specs.Codes.{memory, ok, state};
ghost use Rattle.neli_c_parts.specs.Sessions.{ClosesHandle, IsNew, ReadsPlace, RefusesRequest, SaysNeeded};
ghost use Rattle.neli_c_parts.specs.Sessions.{SendsNothing};
ghost use Rattle.neli_c_parts.specs.Sessions.{SendsRequest, SetsNumber, TakesDatagram, TakesFault, WritesItem};
ghost use Rattle.neli_c_parts.specs.Verdicts.{GivesUpHandle, HearsHandle, TellsVerdict};
ghost use Rattle.neli_c_parts.specs.Ahead.{LendsItems, PassesItems};
ghost use Rattle.neli_c_parts.specs.Lending.{LendsPlace, PassesPlace};
ghost use Rattle.neli_c_parts.specs.Places.{IsLeft};
ghost use Rattle.std.specs.Borrow.{sem};
ghost use Rattle.neli_c_parts.specs.Listens.{Listens, Misses, MissesSame};
ghost use Rattle.neli_c_parts.specs.Slots.{handle_at};

use crate::lending::Lending;
use neli_c_parts::code::{MEMORY, OK, STATE};
use neli_c_parts::lending::NeliLent;
use neli_c_parts::router_opaque::NeliRouter;
use neli_c_parts::session::{NeliItem, NeliSent, NeliVerdict, Session};
use std::alloc::Global;

/// Opens a router for the port of the caller's socket.
///
/// Returns `OK`; `STATE` if it is open, or `MEMORY`; then it is unchanged.
#[unsafe(no_mangle)]
pub extern "C" fn neli_c_router_new(alloc: Global, router: &mut NeliRouter, port: u32) -> i32
    ensures new { result ≡ ok
        → IsSome router.new.place.value × IfSome router.new.place.value (IsNew port) }
    ensures open { IsSome router.old.place.value → result ≡ state }
    ensures closed { router.old.place.value ≡ None → (result ≡ ok) ⊎ (result ≡ memory) }
    ensures unchanged { result ≢ ok → router.new.place.value ≡ router.old.place.value }
{
    if let Some(session) = router.take(alloc) {
        router.put(session);
        return STATE;
    }
    let Some(session) = Session::new(alloc, port) else {
        return MEMORY;
    };
    match Box::new(alloc, session) {
        Ok(session) => {
            router.put(session);
            OK
        }
        Err(_) => MEMORY,
    }
}

/// Frees a router's memory, and closes it; does nothing to a closed one. Returns `OK`.
#[unsafe(no_mangle)]
pub extern "C" fn neli_c_router_free(alloc: Global, router: &mut NeliRouter) -> i32
    ensures code { result ≡ ok }
    ensures closed { router.new.place.value ≡ None }
{
    drop(router.take(alloc));
    OK
}

/// Sets the sequence number of the next request. Returns `OK`.
#[unsafe(no_mangle)]
pub extern "C" fn neli_c_router_set_number(
    alloc: Global,
    router: &mut NeliRouter,
    number: u32,
) -> i32
    ensures closed { router.old.place.value ≡ None
        → (result ≡ state) × (router.new.place.value ≡ None) }
    ensures open { IfSome router.old.place.value (λ s. (result ≡ ok) × IsSome router.new.place.value
        × IfSome router.new.place.value (SetsNumber number s)) }
{
    let Some(mut session) = router.take(alloc) else {
        return STATE;
    };
    session.set_number(number);
    router.put(session);
    OK
}

/// Writes a request of this type, with these flags and REQUEST, as bytes to send, and the handle for its replies. The
/// body is its payload.
///
/// Returns `OK`; `LENGTH` if the length exceeds 32 bits, `ROOM` if the request has more bytes than `out`, and then
/// `sent` has their number; `IN_USE` if the number belongs to a request that is not closed; or `MEMORY`.
#[unsafe(no_mangle)]
pub extern "C" fn neli_c_router_send(
    alloc: Global,
    router: &mut NeliRouter,
    nl_type: u16,
    flags: u16,
    body: &[u8],
    out: &mut [u8],
    sent: &mut NeliSent,
) -> i32
    ensures closed { router.old.place.value ≡ None
        → (result ≡ state) × (router.new.place.value ≡ None) × (out.new ≡ out.old)
        × (sent.new ≡ sent.old) }
    ensures open { IfSome router.old.place.value (λ s. IsSome router.new.place.value
        × IfSome router.new.place.value (λ t. (result ≢ ok → SendsNothing s t
        × RefusesRequest result body.now s out.old × SaysNeeded result body.now sent.old sent.new)
        × (result ≡ ok → SendsRequest nl_type flags body.now s t out.old out.new sent.new))) }
    ensures unwritten { result ≢ ok → out.new ≡ out.old }
    ensures missed { IfSome router.old.place.value
        (λ s. IfSome router.new.place.value (MissesSame s)) }
{
    let Some(mut session) = router.take(alloc) else {
        return STATE;
    };
    let code = session.send(alloc, nl_type, flags, body, out, sent);
    router.put(session);
    code
}

/// Takes in a datagram that arrived for these groups; zeros among them are left out.
///
/// Returns `OK`, or `MEMORY`; then nothing is delivered.
#[unsafe(no_mangle)]
pub extern "C" fn neli_c_router_datagram(
    alloc: Global,
    router: &mut NeliRouter,
    bytes: &[u8],
    groups: &[u32],
) -> i32
    ensures closed { router.old.place.value ≡ None
        → (result ≡ state) × (router.new.place.value ≡ None) }
    ensures open { IfSome router.old.place.value (λ s. IsSome router.new.place.value
        × IfSome router.new.place.value (TakesDatagram result bytes.now groups.now s)) }
    ensures missed { IfSome router.old.place.value
        (λ s. IfSome router.new.place.value (MissesSame s)) }
{
    let Some(mut session) = router.take(alloc) else {
        return STATE;
    };
    let code = session.datagram(alloc, bytes, groups);
    router.put(session);
    code
}

/// Takes in a fault of the link, by its number in `errno.h`: 11 (`EAGAIN`) delivers nothing, and 105 (`ENOBUFS`) means
/// that the socket's buffer ran over, which listeners get by its name.
///
/// Returns `OK`, or `MEMORY`; then nothing is delivered.
#[unsafe(no_mangle)]
pub extern "C" fn neli_c_router_fault(alloc: Global, router: &mut NeliRouter, errno: i32) -> i32
    ensures closed { router.old.place.value ≡ None
        → (result ≡ state) × (router.new.place.value ≡ None) }
    ensures open { IfSome router.old.place.value (λ s. IsSome router.new.place.value
        × IfSome router.new.place.value (TakesFault result errno s)) }
    ensures missed { IfSome router.old.place.value (λ s. IsSome router.new.place.value
        × IfSome router.new.place.value (Misses result errno s)) }
{
    let Some(mut session) = router.take(alloc) else {
        return STATE;
    };
    let code = session.fault(errno);
    router.put(session);
    code
}

/// Reads the next item of a handle; 0 is the handle of multicast.
///
/// Returns `ITEM`, `KERNEL_ERROR`, `OK` at the end of the handle, or `WAITS`; `STRAY`, `NO_ACK`, `UNEXPECTED_ACK`,
/// `LINK`, `SHORT`, `LENGTH` or `BYTES` for an error in place of an item; `HANDLE` if the handle is not open, or
/// `MEMORY`; then the router is unchanged.
#[unsafe(no_mangle)]
pub extern "C" fn neli_c_router_read(
    alloc: Global,
    router: &mut NeliRouter,
    handle: usize,
    item: &mut NeliItem,
) -> i32
    ensures closed { router.old.place.value ≡ None
        → (result ≡ state) × (router.new.place.value ≡ None) × (item.new ≡ item.old) }
    ensures open { IfSome router.old.place.value (λ s. IsSome router.new.place.value
        × IfSome router.new.place.value (λ t. ReadsPlace result handle s t item.old item.new)) }
    ensures heard { IfSome router.old.place.value (λ s. IfSome router.new.place.value
        (λ t. IfSome (handle_at handle s.handles.items) (λ h. HearsHandle h s t))) }
    ensures missed { IfSome router.old.place.value
        (λ s. IfSome router.new.place.value (MissesSame s)) }
{
    let Some(mut session) = router.take(alloc) else {
        return STATE;
    };
    let code = session.read(alloc, handle, item);
    router.put(session);
    code
}

/// Reads the next message for groups, for a listener that continues after any item. No handle reads it, and no message
/// ends it.
///
/// Returns `ITEM`; `OVERRUN` if the socket's buffer ran over since the last call, or `LINK` if the link had another
/// fault, each reported once, before the messages that wait: messages may be lost; `WAITS`; `SHORT`, `LENGTH` or
/// `BYTES` for a message that cannot be read; `HANDLE` if the handle of multicast is closed, or `MEMORY`; then the
/// router is unchanged.
#[unsafe(no_mangle)]
pub extern "C" fn neli_c_router_listen(
    alloc: Global,
    router: &mut NeliRouter,
    item: &mut NeliItem,
) -> i32
    ensures closed { router.old.place.value ≡ None
        → (result ≡ state) × (router.new.place.value ≡ None) × (item.new ≡ item.old) }
    ensures open { IfSome router.old.place.value (λ s. IsSome router.new.place.value
        × IfSome router.new.place.value (λ t. Listens result s t item.old item.new)) }
{
    let Some(mut session) = router.take(alloc) else {
        return STATE;
    };
    let code = session.listen(alloc, item);
    router.put(session);
    code
}

/// Copies the bytes of the message that was read last, of whatever handle.
///
/// Returns `OK`; `HANDLE` if nothing was read, or an item without a message; `ROOM` if it has more bytes than `out`,
/// and then `size` is their number; or `MEMORY`. The router is unchanged.
#[unsafe(no_mangle)]
pub extern "C" fn neli_c_router_item(
    alloc: Global,
    router: &mut NeliRouter,
    out: &mut [u8],
    size: &mut usize,
) -> i32
    ensures closed { router.old.place.value ≡ None
        → (result ≡ state) × (out.new ≡ out.old) × (size.new ≡ size.old) }
    ensures same { router.new.place.value ≡ router.old.place.value }
    ensures open { IfSome router.old.place.value
        (λ s. WritesItem result s out.old out.new size.old size.new) }
{
    let Some(session) = router.take(alloc) else {
        return STATE;
    };
    let code = session.item(alloc, out, size);
    router.put(session);
    code
}

/// Lends the next item of a handle.
fn lend<'r>(router: &'r mut NeliRouter, handle: usize, lent: &mut NeliLent<'r>) -> Lending<'r>
    ensures* same { sem 𝓛 (IsLeft router.entry) }
    ensures closed { router.old.place.value ≡ None
        → (result.code ≡ state) × (lent.new ≡ lent.old) }
    ensures open { IfSome router.old.place.value
        (λ s. LendsPlace result.code handle s lent.old lent.new) }
{
    let code = match router.lend() {
        Some(session) => session.lend(handle, lent),
        None => STATE,
    };
    Lending {
        code,
        bytes: lent.bytes,
    }
}

/// Lends the next item of a handle, where the router keeps it, until the next call that changes the router; 0 is the
/// handle of multicast. It takes no memory, and the router is unchanged: the item stays the next one until
/// `neli_c_router_pass`.
///
/// Returns what `neli_c_router_read` returns, but never `MEMORY`; without `ITEM` or `KERNEL_ERROR` `lent` is unchanged.
#[unsafe(no_mangle)]
pub extern "C" fn neli_c_router_lend<'r>(
    router: &'r mut NeliRouter,
    handle: usize,
    lent: &mut NeliLent<'r>,
) -> i32
    ensures* same { sem 𝓛 (IsLeft router.entry) }
    ensures closed { router.old.place.value ≡ None → (result ≡ state) × (lent.new ≡ lent.old) }
    ensures open { IfSome router.old.place.value
        (λ s. LendsPlace result handle s lent.old lent.new) }
{
    lend(router, handle, lent).code
}

/// Lends the next items of a handle.
fn lend_items<'r>(
    router: &'r mut NeliRouter,
    handle: usize,
    items: &mut [NeliLent<'r>],
    count: &mut usize,
) -> Lending<'r>
    ensures* same { sem 𝓛 (IsLeft router.entry) }
    ensures closed { router.old.place.value ≡ None
        → (result.code ≡ state) × (items.new ≡ items.old) × (count.new ≡ 0) }
    ensures open { IfSome router.old.place.value
        (λ s. LendsItems result.code handle s items.old items.new count.new) }
{
    let code = match router.lend() {
        Some(session) => session.lend_items(handle, items, count),
        None => {
            *count = 0;
            STATE
        }
    };
    Lending { code, bytes: &[] }
}

/// Lends the messages that wait for a handle, one after the other, as many as there is room for, and `count` is their
/// number: each is the one that `neli_c_router_lend` lends once those before it are passed. The router is unchanged:
/// they stay the next ones until `neli_c_router_pass_items`, and what is lent until the next call that changes the
/// router. It takes no memory.
///
/// Returns `ITEM`. Where no message comes next `count` is 0, and it returns what `neli_c_router_lend` into the first
/// place does; or `ROOM` if there is room for none.
#[unsafe(no_mangle)]
pub extern "C" fn neli_c_router_lend_items<'r>(
    router: &'r mut NeliRouter,
    handle: usize,
    items: &mut [NeliLent<'r>],
    count: &mut usize,
) -> i32
    ensures* same { sem 𝓛 (IsLeft router.entry) }
    ensures closed { router.old.place.value ≡ None
        → (result ≡ state) × (items.new ≡ items.old) × (count.new ≡ 0) }
    ensures open { IfSome router.old.place.value
        (λ s. LendsItems result handle s items.old items.new count.new) }
{
    lend_items(router, handle, items, count).code
}

/// Goes on to a handle's next item, as `neli_c_router_read` does, but reads nothing and takes no memory; where none
/// waits nothing changes.
///
/// Returns `OK`, or `HANDLE` if the handle is not open.
#[unsafe(no_mangle)]
pub extern "C" fn neli_c_router_pass(alloc: Global, router: &mut NeliRouter, handle: usize) -> i32
    ensures closed { router.old.place.value ≡ None
        → (result ≡ state) × (router.new.place.value ≡ None) }
    ensures open { IfSome router.old.place.value (λ s. IsSome router.new.place.value
        × IfSome router.new.place.value (PassesPlace result handle s)) }
    ensures missed { IfSome router.old.place.value
        (λ s. IfSome router.new.place.value (MissesSame s)) }
{
    let Some(mut session) = router.take(alloc) else {
        return STATE;
    };
    let code = session.pass(handle);
    router.put(session);
    code
}

/// Goes on past so many of a handle's items: as so many calls of `neli_c_router_pass`.
///
/// Returns `OK`, or `HANDLE` if the handle is not open.
#[unsafe(no_mangle)]
pub extern "C" fn neli_c_router_pass_items(
    alloc: Global,
    router: &mut NeliRouter,
    handle: usize,
    count: usize,
) -> i32
    ensures closed { router.old.place.value ≡ None
        → (result ≡ state) × (router.new.place.value ≡ None) }
    ensures open { IfSome router.old.place.value (λ s. IsSome router.new.place.value
        × IfSome router.new.place.value (PassesItems result handle count s)) }
    ensures missed { IfSome router.old.place.value
        (λ s. IfSome router.new.place.value (MissesSame s)) }
{
    let Some(mut session) = router.take(alloc) else {
        return STATE;
    };
    let code = session.pass_items(handle, count);
    router.put(session);
    code
}

/// Reports the verdict on the answer to a handle's request, by the items read from it; all but `WAITS` are final.
///
/// Returns `WAITS` until it has ended; `OK` if it is complete; `INTERRUPTED` if a message of it, its end included, is
/// marked with `NLM_F_DUMP_INTR`, as soon as it is read; `KERNEL_ERROR` if the kernel answered with an error, or ended
/// a dump with one, whose code is in `verdict`; `UNENDED` if the reads ended before the answer did; `LINK`, `BYTES`,
/// `STRAY`, `NO_ACK` or `UNEXPECTED_ACK` for any other end; `HANDLE` if the handle is not open, and then `verdict` is
/// unchanged. The router is unchanged.
#[unsafe(no_mangle)]
pub extern "C" fn neli_c_router_verdict(
    alloc: Global,
    router: &mut NeliRouter,
    handle: usize,
    verdict: &mut NeliVerdict,
) -> i32
    ensures closed { router.old.place.value ≡ None
        → (result ≡ state) × (router.new.place.value ≡ None) × (verdict.new ≡ verdict.old) }
    ensures same { router.new.place.value ≡ router.old.place.value }
    ensures open { IfSome router.old.place.value
        (λ s. TellsVerdict result handle s verdict.old verdict.new) }
{
    let Some(session) = router.take(alloc) else {
        return STATE;
    };
    let code = session.verdict(handle, verdict);
    router.put(session);
    code
}

/// Gives a handle up: its number stays in use until the last message of its answer has arrived, and nothing that waits
/// or still arrives for it is kept, so this is no other request's stray. Its place may be used for a later request.
///
/// Returns `OK`; `HANDLE` if the handle is not open; `MEMORY`, and then the handle is closed, as by
/// `neli_c_router_close`.
#[unsafe(no_mangle)]
pub extern "C" fn neli_c_router_give_up(
    alloc: Global,
    router: &mut NeliRouter,
    handle: usize,
) -> i32
    ensures closed { router.old.place.value ≡ None
        → (result ≡ state) × (router.new.place.value ≡ None) }
    ensures open { IfSome router.old.place.value (λ s. IsSome router.new.place.value
        × IfSome router.new.place.value (GivesUpHandle result handle s)) }
    ensures missed { IfSome router.old.place.value
        (λ s. IfSome router.new.place.value (MissesSame s)) }
{
    let Some(mut session) = router.take(alloc) else {
        return STATE;
    };
    let code = session.give_up(alloc, handle);
    router.put(session);
    code
}

/// Closes a handle: its deliveries are removed, and its place may be used for a later request.
///
/// Returns `OK`, or `HANDLE` if the handle is not open.
#[unsafe(no_mangle)]
pub extern "C" fn neli_c_router_close(alloc: Global, router: &mut NeliRouter, handle: usize) -> i32
    ensures closed { router.old.place.value ≡ None
        → (result ≡ state) × (router.new.place.value ≡ None) }
    ensures open { IfSome router.old.place.value (λ s. IsSome router.new.place.value
        × IfSome router.new.place.value (ClosesHandle result handle s)) }
    ensures missed { IfSome router.old.place.value
        (λ s. IfSome router.new.place.value (MissesSame s)) }
{
    let Some(mut session) = router.take(alloc) else {
        return STATE;
    };
    let code = session.close(handle);
    router.put(session);
    code
}
