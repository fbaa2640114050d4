//! A dump for C: an answer in several messages, as it grows and as its datagrams are handed out. C holds a
//! `struct neli_kernel_dump`, which is closed if all its bytes are 0.
//!
//! Each call but those that open and free it returns `STATE` if the dump is closed, and changes nothing then.

ghost use Rattle.std.specs.Prelude.{◌≡◌, ◌≢◌, ◌⊎◌, IfSome, IsSome, None};
ghost use Rattle.neli_c_parts.specs.Asked.{reply_wire};
ghost use Rattle.neli_c_parts.specs.Codes.{memory, ok, state};
ghost use Rattle.neli_c.specs.Opens.{StaysClosed, StaysOpen};
ghost use Rattle.neli_c_parts.specs.DumpsHeld.{BeginsDatagram, Finishes, HandsOut, IsNewDump, PutsMessage};
ghost use Rattle.neli_c_parts.specs.DumpsHeld.{dump_wire, end_wire};

use neli_c_parts::asking::{NeliRequest, asked_by};
use neli_c_parts::code::{MEMORY, OK, STATE};
use neli_c_parts::dump_opaque::NeliKernelDump;
use neli_c_parts::dumping::Dumping;
use std::alloc::Global;

/// Opens a dump that answers a request, whose datagrams have at most `limit` bytes.
///
/// Returns `OK`; `STATE` if it is open, or `MEMORY`, and then it is as it was.
#[unsafe(no_mangle)]
pub extern "C" fn neli_c_kernel_dump_new(
    alloc: Global,
    dump: &mut NeliKernelDump,
    request: &NeliRequest,
    limit: usize,
) -> i32
    ensures new { result ≡ ok → IsSome dump.new.place.value
        × IfSome dump.new.place.value (IsNewDump request.now limit) }
    ensures open { IsSome dump.old.place.value → result ≡ state }
    ensures closed { dump.old.place.value ≡ None → (result ≡ ok) ⊎ (result ≡ memory) }
    ensures unchanged { result ≢ ok → dump.new.place.value ≡ dump.old.place.value }
{
    if let Some(dumping) = dump.take(alloc) {
        dump.put(dumping);
        return STATE;
    }
    match Box::new(alloc, Dumping::new(alloc, asked_by(request, &[]), limit)) {
        Ok(dumping) => {
            dump.put(dumping);
            OK
        }
        Err(_) => MEMORY,
    }
}

/// Frees what a dump has, and closes it; of a closed one, nothing. Returns `OK`.
#[unsafe(no_mangle)]
pub extern "C" fn neli_c_kernel_dump_free(alloc: Global, dump: &mut NeliKernelDump) -> i32
    ensures code { result ≡ ok }
    ensures closed { dump.new.place.value ≡ None }
{
    drop(dump.take(alloc));
    OK
}

/// One message more, of this type, with this body, and with these flags and MULTI.
///
/// Returns `OK`; `STATE` if the end was put in; `LENGTH` if the message's length passes 32 bits, or it alone is
/// longer than a datagram may be; or `MEMORY`. Without `OK` the dump is as it was.
#[unsafe(no_mangle)]
pub extern "C" fn neli_c_kernel_dump_push(
    alloc: Global,
    dump: &mut NeliKernelDump,
    nl_type: u16,
    flags: u16,
    body: &[u8],
) -> i32
    ensures closed { StaysClosed result dump.old.place.value dump.new.place.value }
    ensures open { StaysOpen (PutsMessage result (dump_wire nl_type flags body.now))
        dump.old.place.value dump.new.place.value }
{
    let Some(mut dumping) = dump.take(alloc) else {
        return STATE;
    };
    let code = dumping.push(alloc, nl_type, flags, body);
    dump.put(dumping);
    code
}

/// One message more, of this type, with this body, and with these flags alone: some families leave MULTI out.
///
/// Returns what `neli_c_kernel_dump_push` returns.
#[unsafe(no_mangle)]
pub extern "C" fn neli_c_kernel_dump_push_reply(
    alloc: Global,
    dump: &mut NeliKernelDump,
    nl_type: u16,
    flags: u16,
    body: &[u8],
) -> i32
    ensures closed { StaysClosed result dump.old.place.value dump.new.place.value }
    ensures open { StaysOpen (PutsMessage result (reply_wire nl_type flags body.now))
        dump.old.place.value dump.new.place.value }
{
    let Some(mut dumping) = dump.take(alloc) else {
        return STATE;
    };
    let code = dumping.push_reply(alloc, nl_type, flags, body);
    dump.put(dumping);
    code
}

/// Begins a datagram, unless the last one is empty.
///
/// Returns `OK`; `STATE` if the end was put in; or `MEMORY`. Without `OK` the dump is as it was.
#[unsafe(no_mangle)]
pub extern "C" fn neli_c_kernel_dump_begin_datagram(alloc: Global, dump: &mut NeliKernelDump) -> i32
    ensures closed { StaysClosed result dump.old.place.value dump.new.place.value }
    ensures open { StaysOpen (BeginsDatagram result)
        dump.old.place.value dump.new.place.value }
{
    let Some(mut dumping) = dump.take(alloc) else {
        return STATE;
    };
    let code = dumping.begin_datagram(alloc);
    dump.put(dumping);
    code
}

/// Puts the end in: of type 3 (`NLMSG_DONE`), with these flags and MULTI, this code, which is 0 if all went well, and
/// the attributes that `ext_ack` lists. From then on the datagrams are handed out.
///
/// Returns what `neli_c_kernel_dump_push` returns; `SHORT`, `LENGTH` or `BYTES` if the attributes cannot be read.
#[unsafe(no_mangle)]
pub extern "C" fn neli_c_kernel_dump_finish(
    alloc: Global,
    dump: &mut NeliKernelDump,
    flags: u16,
    error: i32,
    ext_ack: &[u8],
) -> i32
    ensures closed { StaysClosed result dump.old.place.value dump.new.place.value }
    ensures open { StaysOpen (Finishes result (end_wire flags error) ext_ack.now)
        dump.old.place.value dump.new.place.value }
{
    let Some(mut dumping) = dump.take(alloc) else {
        return STATE;
    };
    let code = dumping.finish(alloc, flags, error, ext_ack);
    dump.put(dumping);
    code
}

/// Hands out the next datagram: copies it, and `size` is how many bytes it has.
///
/// Returns `ITEM`; `OK` if all were handed out; `WAITS` if the end is not put in; `ROOM` if the datagram has more
/// bytes than `out`, and then `size` is how many, and the next call gives the same one.
#[unsafe(no_mangle)]
pub extern "C" fn neli_c_kernel_dump_next(
    alloc: Global,
    dump: &mut NeliKernelDump,
    out: &mut [u8],
    size: &mut usize,
) -> i32
    ensures closed { dump.old.place.value ≡ None → (result ≡ state)
        × (dump.new.place.value ≡ None) × (out.new ≡ out.old) × (size.new ≡ size.old) }
    ensures open { StaysOpen
        (λ s t. HandsOut result s t out.old out.new size.old size.new)
        dump.old.place.value dump.new.place.value }
{
    let Some(mut dumping) = dump.take(alloc) else {
        return STATE;
    };
    let code = dumping.next(out, size);
    dump.put(dumping);
    code
}
