//! The messages that wait for a handle, stored one after the other. They take no memory, and no byte is copied.

ghost use Rattle.std.specs.Prelude.{◌≡◌, IfSome, IsNone, ◌∷◌, [], pos};
ghost use Rattle.neli_lent.specs.Messages.{message_view};
ghost use Rattle.neli_log.specs.Lending.{Lends};
ghost use Rattle.neli_c_parts.specs.Ahead.{Message, StoresAhead, is_rest, message_in, messages_in};

use crate::lending::{NeliLent, stored};
use neli_lent::LentMessage;
use neli_router::{ItemsAhead, LentReply};

/// The message that is lent, if it is one.
fn message_in<'r>(reply: LentReply<'r>) -> Option<LentMessage<'r, u16>>
    ensures { result ≡ message_in reply.entry }
{
    match reply {
        LentReply::Item(Ok(message)) => Some(message),
        _ => None,
    }
}

/// Whether nothing comes next: the handle has ended, or nothing has arrived yet.
pub fn is_rest(reply: &LentReply<'_>) -> bool
    ensures { result ≡ is_rest reply.now }
{
    matches!(reply, LentReply::End | LentReply::Waits)
}

/// Lends the next message, if one comes next.
fn next_message<'r>(ahead: &mut ItemsAhead<'r>) -> Option<LentMessage<'r, u16>>
    ensures some { IfSome result (λ m. (u : Message) × Lends (message_view m) u
        × (messages_in ahead.old ≡ u ∷ messages_in ahead.new)) }
    ensures none { IsNone result → messages_in ahead.old ≡ [] }
{
    message_in(ahead.lend_next())
}

/// Stores messages, as many as there is room for or as come next: returns their number.
pub fn fill<'r>(ahead: &mut ItemsAhead<'r>, items: &mut [NeliLent<'r>]) -> usize
    ensures { StoresAhead result (messages_in ahead.old) items.old items.new }
{
    let mut given = 0;
    while given < items.len() {
        let Some(message) = next_message(ahead) else {
            return given;
        };
        items[given] = stored(&message, 0);
        given += 1;
    }
    given
}
