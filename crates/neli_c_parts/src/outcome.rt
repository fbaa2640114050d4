//! The codes of outcomes: of faults, errors and verdicts.

ghost use Rattle.std.specs.Prelude.{◌≡◌, ◌≢◌, nat_eq, unsigned_abs};
ghost use Rattle.neli_c_parts.specs.Codes.{ok};
ghost use Rattle.neli_c_parts.specs.Sessions.{error_code, fault_kind, socket_code};
ghost use Rattle.neli_c_parts.specs.Verdicts.{filtered_byte, verdict_code, verdict_error};

use crate::code::{
    BYTES, HANDLE, IN_USE, INTERRUPTED, KERNEL_ERROR, LENGTH, LINK, MEMORY, NO_ACK, OK, STRAY,
    UNENDED, UNEXPECTED_ACK, WAITS,
};
use crate::message::code_of;
use neli_reader::{RouterError, SocketError};
use neli_router::{Heard, Loss, Verdict};
use std::io::ErrorKind;

/// The link's fault for a number of `errno.h`, negated or not: `EAGAIN`, `ECONNRESET`, or another one.
pub fn kind_of(errno: i32) -> ErrorKind
    ensures { result ≡ fault_kind errno }
{
    match errno.unsigned_abs() {
        11 => ErrorKind::WouldBlock,
        104 => ErrorKind::ConnectionReset,
        _ => ErrorKind::Other,
    }
}

/// Whether a number of `errno.h`, negated or not, means that the socket's buffer ran over: `ENOBUFS`.
pub fn is_overrun(errno: i32) -> bool
    ensures { result ≡ nat_eq (unsigned_abs errno) 105 }
{
    errno.unsigned_abs() == 105
}

/// The code of a link's or a datagram's fault.
pub fn of_socket(error: &SocketError) -> i32
    ensures code { result ≡ socket_code error.now }
    ensures refused { result ≢ ok }
{
    match error {
        SocketError::De(error) => code_of(error),
        SocketError::Io(_) => LINK,
        SocketError::Memory => MEMORY,
        _ => BYTES,
    }
}

/// The code of the error in place of a message, or of why nothing is sent.
pub fn of_error<T, P>(error: &RouterError<T, P>) -> i32
    ensures code { result ≡ error_code error.now }
    ensures refused { result ≢ ok }
{
    match error {
        RouterError::De(error) => code_of(error),
        RouterError::Socket(error) => of_socket(error),
        RouterError::Nlmsgerr(_) => KERNEL_ERROR,
        RouterError::Capped(_) => KERNEL_ERROR,
        RouterError::BadSeqOrPid(_) => STRAY,
        RouterError::NoAck => NO_ACK,
        RouterError::UnexpectedAck => UNEXPECTED_ACK,
        RouterError::ClosedChannel => HANDLE,
        RouterError::SeqInUse(_) => IN_USE,
        RouterError::Memory => MEMORY,
        RouterError::Io(_) => LINK,
        RouterError::Msg(_) => LENGTH,
    }
}

/// The code of a verdict.
pub fn of_verdict(verdict: Verdict) -> i32
    ensures { result ≡ verdict_code verdict }
{
    match verdict {
        Verdict::Pending => WAITS,
        Verdict::Complete => OK,
        Verdict::Interrupted => INTERRUPTED,
        Verdict::Failed(_) => KERNEL_ERROR,
        Verdict::Lost(Loss::Link) => LINK,
        Verdict::Lost(Loss::Datagram) => BYTES,
        Verdict::Lost(Loss::Stray) => STRAY,
        Verdict::Lost(Loss::Unreadable) => BYTES,
        Verdict::Lost(Loss::NoAck) => NO_ACK,
        Verdict::Lost(Loss::UnexpectedAck) => UNEXPECTED_ACK,
        Verdict::Lost(Loss::Unended) => UNENDED,
        Verdict::Lost(Loss::Closed) => HANDLE,
    }
}

/// The kernel's code if it failed; 0 elsewhere.
pub fn verdict_error(verdict: Verdict) -> i32
    ensures { result ≡ verdict_error verdict }
{
    match verdict {
        Verdict::Failed(code) => code,
        _ => 0,
    }
}

/// 1 if the kernel filtered the answer, else 0.
pub fn filtered_byte(heard: Option<Heard>) -> u8
    ensures { result ≡ filtered_byte heard }
{
    match heard {
        None => 0,
        Some(heard) => { if heard.filtered { 1 } else { 0 } }
    }
}
