//! Laws of datagrams, over the definitions alone. The calls do nothing: their contracts are the laws.

ghost use Rattle.std.specs.Prelude.{◌≡◌, ◌*◌, ◌/◌, ◌≤◌, ◌↔◌, ℕ, List, None, Option, Ok, Err, IsErr, IsOk, length};
ghost use Rattle.std.specs.List.{All};
ghost use Rattle.neli_wire.specs.declared.errors.DeError.{DeError as Refusal};
ghost use Rattle.neli_wire.specs.Frames.{frame_at};
ghost use Rattle.neli_wire.specs.Constants.{IsEquality};
ghost use Rattle.neli_wire.specs.Numbers.{AreBytes};
ghost use Rattle.neli_msg.specs.Messages.{Message, message_layout};
ghost use Rattle.neli_msg.specs.Retyping.{typed_message};
ghost use Rattle.neli_reader.specs.Cuts.{Cuts, cut_of};
ghost use Rattle.neli_reader.specs.Agreement.{AreRead, typed_reading, untyped_layout};
ghost use Rattle.neli_msg.specs.Zeroed.{HasNoTail, untyped_wires, datagram_zeroed};

use neli_consts::NlType;
use neli_msg::{NlPayload, Nlmsgerr, Nlmsghdr, NlmsghdrAck, NlmsghdrErr};
use neli_wire::FromBytesWithInput;

/// Each byte list is the frames of messages, one after the other, and then nothing or a rest that has a fault.
pub fn has_a_cut<T: NlType, P: FromBytesWithInput>()
    ensures { (b : List ℕ) → Cuts (message_layout T.wire_value T.wire_number P.read) b
        (cut_of (message_layout T.wire_value T.wire_number P.read) b).0
        (cut_of (message_layout T.wire_value T.wire_number P.read) b).1 }
{}

/// No byte list is cut in two ways.
pub fn has_one_cut<T: NlType, P: FromBytesWithInput>()
    ensures { (b : List ℕ) (ms ns : List (Message T P.Value)) (f g : Option Refusal)
        → Cuts (message_layout T.wire_value T.wire_number P.read) b ms f
        → Cuts (message_layout T.wire_value T.wire_number P.read) b ns g → (ms ≡ ns) × (f ≡ g) }
{}

/// A message takes at least 16 bytes, so a datagram of n bytes has at most n / 16 messages.
pub fn has_few_messages<T: NlType, P: FromBytesWithInput>()
    ensures { (b : List ℕ) (ms : List (Message T P.Value)) (f : Option Refusal)
        → Cuts (message_layout T.wire_value T.wire_number P.read) b ms f
        → length ms ≤ length b / 16 }
{}

/// A message that is read untyped, wherever it stands in a datagram, is read as other types exactly as retyping states:
/// with the same header but for its type, the same codes and attributes, and the body's or the echoed bytes as `P`
/// reads them, with `P`'s refusal. If it is refused untyped, it is refused typed.
pub fn typed_reading_agrees<T: NlType, P: FromBytesWithInput>()
    ensures typed { (s r : List ℕ) (m : Message ℕ (List ℕ)) → AreBytes s
        → frame_at untyped_layout s ≡ Ok (m, r)
        → frame_at (message_layout T.wire_value T.wire_number P.read) s
        ≡ typed_reading T.wire_value P.read m r }
    ensures refused { (s : List ℕ) (e : Refusal) → AreBytes s → frame_at untyped_layout s ≡ Err e
        → IsErr (frame_at (message_layout T.wire_value T.wire_number P.read) s) }
    ensures exactly { (m : Message ℕ (List ℕ))
        → IsOk (typed_message T.wire_value P.read m) ↔ AreRead P.read m }
{}

/// If a datagram has no fault, and no message in it has an unread tail, its messages are written as the same bytes,
/// with zeros for the padding: after each message, after each attribute of an error, an acknowledgement or the end of a
/// dump, and after an echoed payload. An acknowledgement or a capped error has an unread tail if bytes follow the
/// echoed header and its flags are not both CAPPED and ACK_TLVS. The bytes so written are as many as before, and are
/// read as the same messages.
pub fn rewritten_datagram_is_zeroed()
    ensures written { (b : List ℕ) (ms : List (Message ℕ (List ℕ))) → AreBytes b
        → Cuts untyped_layout b ms None → All HasNoTail ms
        → untyped_wires ms ≡ Ok (datagram_zeroed b) }
    ensures read_again { (b : List ℕ) (ms : List (Message ℕ (List ℕ)))
        → Cuts untyped_layout b ms None → Cuts untyped_layout (datagram_zeroed b) ms None }
    ensures as_long { (b : List ℕ) (ms : List (Message ℕ (List ℕ)))
        → Cuts untyped_layout b ms None → length (datagram_zeroed b) ≡ length b }
{}

/// `==` of messages and their parts is true exactly where the two values are equal, field by field, if the types and
/// bodies in them have such an `==`.
pub fn equality<T: PartialEq, P: PartialEq>()
    ensures header { IsEquality T.eq → IsEquality ⟦<NlmsghdrAck<T> as PartialEq>⟧.eq }
    ensures answer { IsEquality P.eq → IsEquality ⟦<Nlmsgerr<P> as PartialEq>⟧.eq }
    ensures echo { IsEquality T.eq → IsEquality P.eq
        → IsEquality ⟦<NlmsghdrErr<T, P> as PartialEq>⟧.eq }
    ensures payload { IsEquality T.eq → IsEquality P.eq
        → IsEquality ⟦<NlPayload<T, P> as PartialEq>⟧.eq }
    ensures message { IsEquality T.eq → IsEquality P.eq
        → IsEquality ⟦<Nlmsghdr<T, P> as PartialEq>⟧.eq }
{
    neli_consts::laws::equality();
}
