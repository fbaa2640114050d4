//! The messages of a datagram, each with its bytes.

ghost use Rattle.std.specs.Prelude.{◌≡◌, ◌≤◌, ◌<◌, ◌+◌, ◌++◌, ℕ, [], Some, IfErr, IfOk, drop, length};
ghost use Rattle.neli_lent.specs.Messages.{message_view, messages_in};
ghost use Rattle.neli_session.specs.Messages.{IsMessage};

use neli_lent::LentMessage;
use neli_wire::{Cursor, DeError};

/// The message at a place of a datagram, and its bytes, from its header to the end of its padding; or why none is there.
pub(crate) fn span_at(bytes: &[u8], place: usize) -> Result<(LentMessage<'_, u16>, &[u8]), DeError>
    requires { place < length bytes.now }
    ensures message { IfOk result (λ r. IsMessage r.1.now (message_view r.0)) }
    ensures span { IfOk result (λ r. drop place bytes.now
        ≡ r.1.now ++ drop (place + length r.1.now) bytes.now) }
    ensures long { IfOk result (λ r. 0 < length r.1.now) }
    ensures within { IfOk result (λ r. place + length r.1.now ≤ length bytes.now) }
    ensures fault { IfErr result (λ e. messages_in {K = ℕ} (λ n. n) (drop place bytes.now)
        ≡ ([], Some e)) }
{
    let mut cursor = Cursor::new(bytes);
    cursor.set_position(place);
    match LentMessage::lend(&mut cursor) {
        Ok(message) => Ok((message, &bytes[place..cursor.position()])),
        Err(error) => Err(error),
    }
}
