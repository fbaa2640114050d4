//! An item of a handle where the router keeps it. It takes no memory, and no byte is copied.

ghost use Rattle.std.specs.Prelude.{◌≡◌};
ghost use Rattle.neli_c_parts.specs.Lending.{Gives, IsStored, Stores, given_code, lent_code};

use crate::code::{HANDLE, ITEM, KERNEL_ERROR, NO_ACK, OK, STRAY, UNEXPECTED_ACK, WAITS};
use crate::message::{NeliMessage, message_at};
use crate::outcome::of_socket;
use neli_lent::LentMessage;
use neli_router::{LentError, LentReply};

/// A message that is lent: its header, and the bytes of its payload where the router keeps them.
#[repr(C)]
#[derive(Clone, Copy)]
pub struct NeliLent<'r> {
    /// The message; its payload is all of the bytes.
    pub message: NeliMessage,
    pub bytes: &'r [u8],
    /// The code of an error; 0 elsewhere.
    pub error: i32,
}

/// A message, with the code of the error that it is.
pub fn stored<'r>(message: &LentMessage<'r, u16>, error: i32) -> NeliLent<'r>
    ensures { IsStored message.now error result }
{
    NeliLent {
        message: message_at(message, 0),
        bytes: message.nl_payload(),
        error,
    }
}

/// Stores the message of an item, if it has one, and returns the item's code.
fn store<'r>(item: Result<LentMessage<'r, u16>, LentError<'r>>, lent: &mut NeliLent<'r>) -> i32
    ensures code { result ≡ lent_code item.entry }
    ensures stored { Stores item.entry lent.old lent.new }
{
    match item {
        Ok(message) => {
            *lent = stored(&message, 0);
            ITEM
        }
        Err(LentError::Answer(code, message)) => {
            *lent = stored(&message, code);
            KERNEL_ERROR
        }
        Err(LentError::NoAck) => NO_ACK,
        Err(LentError::UnexpectedAck) => UNEXPECTED_ACK,
        Err(LentError::BadSeqOrPid(_)) => STRAY,
        Err(LentError::Socket(fault)) => of_socket(fault),
        Err(LentError::ClosedChannel) => HANDLE,
    }
}

/// Stores the message of the router's reply, if it has one, and returns the reply's code.
pub fn give<'r>(reply: LentReply<'r>, lent: &mut NeliLent<'r>) -> i32
    ensures code { result ≡ given_code reply.entry }
    ensures stored { Gives reply.entry lent.old lent.new }
{
    match reply {
        LentReply::Item(item) => store(item, lent),
        LentReply::End => OK,
        LentReply::Waits => WAITS,
    }
}
