//! Lists of the kernel's objects that a program keeps: whether each is current. These calls take no memory.

ghost use Rattle.std.specs.Prelude.{◌≡◌, pos};
ghost use Rattle.neli_session.specs.Freshness.{Ended, Lost, Requested, is_passing};
ghost use Rattle.neli_c_parts.specs.Asked.{byte_of};
ghost use Rattle.neli_c_parts.specs.Codes.{ok};
ghost use Rattle.neli_c_session.specs.Lists.{Follows, verdict_by};

use neli_c_parts::code::OK;
use neli_c_session::list::{NeliList, is_passing};

/// A list was requested with this sequence number. Returns `OK`.
#[unsafe(no_mangle)]
pub extern "C" fn neli_c_list_requested(list: &mut NeliList, number: u32) -> i32
    ensures code { result ≡ ok }
    ensures list { Follows (Requested number) list.old list.new }
{
    *list = list.requested(number);
    OK
}

/// The answer to the request with this sequence number has ended: the list that it reads is current if `code`, which
/// `neli_c_session_verdict` returned, is `OK`, and else it is stale. Another list is unchanged. Returns `OK`.
#[unsafe(no_mangle)]
pub extern "C" fn neli_c_list_ended(list: &mut NeliList, number: u32, code: i32) -> i32
    ensures code { result ≡ ok }
    ensures list { Follows (Ended number (verdict_by code (pos 0))) list.old list.new }
{
    *list = list.ended(number, code);
    OK
}

/// Something was lost of what came to groups: the list is stale, also while it is read. Returns `OK`.
#[unsafe(no_mangle)]
pub extern "C" fn neli_c_list_lost(list: &mut NeliList) -> i32
    ensures code { result ≡ ok }
    ensures list { Follows Lost list.old list.new }
{
    *list = list.lost();
    OK
}

/// Returns 1 if a list whose verdict has this code and this error, as `neli_c_session_verdict` returned and stored them,
/// may be complete when it is requested again; else 0.
#[unsafe(no_mangle)]
pub extern "C" fn neli_c_is_passing(code: i32, error: i32) -> i32
    ensures { result ≡ pos (byte_of (is_passing (verdict_by code error))) }
{
    if is_passing(code, error) { 1 } else { 0 }
}
