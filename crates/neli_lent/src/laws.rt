//! Laws of lent values, over the definitions, and what walks and selectors state about themselves. The calls do
//! nothing: their contracts are the laws.

ghost use Rattle.std.specs.Iterator.{YieldsFirstBy};
ghost use Rattle.std.specs.Prelude.{◌≡◌, ◌+◌, ℕ, List, [], None, Some, Ok, Err, IsErr, length};
ghost use Rattle.neli_wire.specs.declared.errors.DeError.{DeError as Refusal};
ghost use Rattle.neli_wire.specs.Frames.{frame_at};
ghost use Rattle.neli_attr.specs.AttrType.{AttrType as Field};
ghost use Rattle.neli_attr.specs.Attributes.{Attr, attributes_in};
ghost use Rattle.neli_wire.specs.Sizes.{align};
ghost use Rattle.neli_reader.specs.Messages.{message_layout};
ghost use Rattle.neli_reader.specs.Framed.{Nlmsghdr as Message};
ghost use Rattle.neli_reader.specs.Wires.{message_wire, payload_size};
ghost use Rattle.neli_lent.specs.Attributes.{attribute_view, attributes_at};
ghost use Rattle.neli_lent.specs.Messages.{Lent, lent_message, message_view, messages_in, owned_reading};
ghost use Rattle.neli_lent.specs.Walks.{items_of, map_ok};
ghost use Rattle.neli_lent.specs.Written.{HeaderFits, IsWalked, header_numbered};
ghost use Rattle.neli_lent.specs.laws.Walks.{StepsOnly};

use crate::{AttrSelector, LentAttrs, LentMessages};
use neli_attr::AttrType;
use neli_consts::{NlAttrType, NlType};
use neli_consts_attrs::RtaType;
use neli_wire::{Constant, FromBytesWithInput, ToBytes};

/// If a message is lent, reading the same bytes as an owned message gives what the lent one becomes, or its refusal,
/// and leaves the same bytes. If lending is refused, so is reading.
pub fn lent_message_becomes_what_is_read<T: NlType, P: FromBytesWithInput>()
    ensures read { (s r : List ℕ) (m : Lent T) → frame_at (lent_message T.wire_value) s ≡ Ok (m, r)
        → frame_at (message_layout T.wire_value T.wire_number P.read) s
        ≡ owned_reading T.wire_value T.wire_number P.read m r }
    ensures refused { (s : List ℕ) (e : Refusal) → frame_at (lent_message T.wire_value) s ≡ Err e
        → IsErr (frame_at (message_layout T.wire_value T.wire_number P.read) s) }
{}

/// A message is written as one frame: if the numbers of its header fit their fields, and it states its own length
/// rounded up to four, a walk over the written bytes gives one message, with that header and the payload's bytes and
/// zeros up to a multiple of four, and no fault.
pub fn written_message_is_walked<T: NlType, P: ToBytes>()
    ensures { (m : Message T P) (bytes : List ℕ)
        → HeaderFits (header_numbered T.wire_number m.header)
        → m.header.len ≡ align (16 + payload_size P.Size.wire_length m.payload)
        → message_wire T.wire_number P.wire m ≡ Ok bytes
        → IsWalked T.wire_number P.wire m bytes }
{}

/// The attributes lent one by one are those of the owned list of the same bytes; a fault after them refuses that list.
pub fn lent_attributes_are_the_list<K: Constant<Number = u16>>()
    ensures read { (s : List ℕ) (attrs : List (Attr K (List ℕ)))
        → attributes_at K.wire_value (record { before = []; rest = s }) ≡ (attrs, None)
        → attributes_in K.wire_value s ≡ Ok attrs }
    ensures refused { (s : List ℕ) (attrs : List (Attr K (List ℕ))) (e : Refusal)
        → attributes_at K.wire_value (record { before = []; rest = s }) ≡ (attrs, Some e)
        → attributes_in K.wire_value s ≡ Err e }
{}

/// A step of a walk gives the first item of the rest, an attribute or a message or else the fault, and leaves what
/// follows it; it gives the end if nothing is left.
pub fn walks_give_what_is_left<K: Constant<Number = u16>, T: NlType>()
    ensures attributes { StepsOnly ⟦<LentAttrs<'static, K> as Iterator>⟧.next_gives
        (YieldsFirstBy (map_ok attribute_view) (λ place. items_of (attributes_at K.wire_value place))) }
    ensures messages { StepsOnly ⟦<LentMessages<'static, T> as Iterator>⟧.next_gives
        (YieldsFirstBy (map_ok message_view) (λ s. items_of (messages_in T.wire_value s))) }
{}

/// A generic attribute is found by its type without the flags, a routing one by its whole type.
pub fn attributes_are_looked_up_by_type<T: NlAttrType, R: RtaType>()
    ensures generic { (t : T) (field : Field T) → ⟦<T as AttrSelector<AttrType<T>>>⟧.selects t field
        ≡ T.eq field.nla_type t }
    ensures routing { (t field : R) → ⟦<R as AttrSelector<R>>⟧.selects t field ≡ R.eq field t }
{}
