//! Laws of handles and of what they read. The functions do nothing: their contracts are the laws.

ghost use Rattle.std.specs.Prelude.{◌≡◌, ◌<◌, ℕ, Bool, List, Ok};
ghost use Rattle.neli_wire.specs.Constants.{IsEquality};
ghost use Rattle.neli_reader.specs.Framed.{Nlmsghdr as Message};
ghost use Rattle.neli_reader.specs.Retyping.{IsTyped, payload_stating, stated_echo, typed_header};
ghost use Rattle.neli_lent.specs.Messages.{Lent, as_owned};
ghost use Rattle.neli_deliveries.specs.declared.delivery.Delivery.{Delivery as Waiting};
ghost use Rattle.neli_deliveries.specs.Readings.{IsReading, Item as Given};
ghost use Rattle.neli_log.specs.Lending.{Lends};
ghost use Rattle.neli_router.specs.Lending.{HasType, IsReadable, IsTypedItem, untyped};
ghost use Rattle.neli_router.specs.Rule.{ends_at, is_single, item_of};
ghost use Rattle.neli_router.specs.Verdicts.{heard_with};
ghost use Rattle.neli_router.specs.declared.verdict.Heard.{Heard as Known};

use crate::HandleState;
use neli_consts::NlType;
use neli_wire::{FromBytesWithInput, Size};

/// `==` of handles' states is true exactly if the two are equal, field by field.
pub fn equality()
    ensures { IsEquality ⟦<HandleState as PartialEq>⟧.eq }
{}

/// A lent read is an owned one of any types. Where a delivery can be read as these types, the item that `lend_next`
/// lends of it is, in these types and with its lengths computed anew, the item that `next_typed` returns; `pass`
/// changes the handle, and what is known of the answer, as `next_typed` does; and a lent message, read as these types,
/// has the payload of the message that `next_typed` returns, and its header but for the length.
pub fn lent_items_are_read<T: NlType, P: FromBytesWithInput + Size>()
    ensures item { (needs numbered single : Bool) (d : Waiting) (x : Given T P) → HasType d
        → IsReading T.wire_value P.view P.wire_length P.read d x → IsReadable d x
        → IsTypedItem T.wire_value P.view P.wire_length P.read
        (item_of (λ n. n) needs numbered single (untyped d))
        (item_of T.wire_number needs numbered single x) }
    ensures handle { (needs numbered single : Bool) (d : Waiting) (x : Given T P) → HasType d
        → IsReading T.wire_value P.view P.wire_length P.read d x → IsReadable d x
        → (is_single (λ n. n) numbered (untyped d) ≡ is_single T.wire_number numbered x)
        × (ends_at (λ n. n) needs numbered single (untyped d)
        ≡ ends_at T.wire_number needs numbered single x) }
    ensures heard { (needs numbered single : Bool) (d : Waiting) (x : Given T P) (h : Known)
        → HasType d → IsReading T.wire_value P.view P.wire_length P.read d x → IsReadable d x
        → heard_with (λ n. n) needs numbered single d (untyped d) h
        ≡ heard_with T.wire_number needs numbered single d x h }
    ensures message { (m : Lent ℕ) (u : Message ℕ (List ℕ)) (x : Message T P) → Lends m u
        → u.header.message_type < 65536 → IsTyped T.wire_value P.view P.wire_length P.read u x
        → as_owned T.wire_value T.wire_number P.read (typed_header T.wire_value m.0, m.1)
        ≡ Ok (
          typed_header T.wire_value u.header,
          payload_stating (stated_echo u.payload) P.view x.payload,
        ) }
{}
