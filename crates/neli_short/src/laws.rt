//! What short calls say of the types that they stand on. The functions do nothing: their contracts are the laws.

ghost use Rattle.std.specs.Prelude.{◌≡◌, ℕ, List, None, Some, Ok, false, true};
ghost use Rattle.neli_wire.specs.laws.Values.{AreSame, GivesOnly, OnlyWhere};
ghost use Rattle.neli_attr.specs.Handles.{attrs_by};
ghost use Rattle.neli_attr.specs.Nlattr.{with_length as generic};
ghost use Rattle.neli_attr.specs.Rtattr.{with_length as routing};
ghost use Rattle.neli_lent.specs.Messages.{message_view};
ghost use Rattle.neli_reader.specs.Retyping.{body_of};
ghost use Rattle.neli_short.specs.Bodies.{lent_body};
ghost use Rattle.neli_short.specs.Errors.{attr_text};
ghost use Rattle.neli_short.specs.ExtAcks.{PolicyAttributes, policy_wire};
ghost use Rattle.neli_short.specs.Made.{field};

use crate::{AttrError, ExtAck, ExtAckBuilder, LentLookup, Lookup, Made, ReadBody};
use neli_attr::{AttrHandle, AttrSlice, Buffer, FrameList, GenlBuffer, Nlattr, Rtattr};
use neli_consts::{NlAttrType, NlType, NlmsgerrAttr};
use neli_consts_attrs::RtaType;
use neli_lent::{LentAttrs, LentMessage};
use neli_list::TypedPayload;
use neli_reader::{Nlmsgerr, Nlmsghdr};
use neli_wire::{Constant, DeError};
use std::fmt::Display;

/// An attribute that is made has its type, its bytes and the length that goes with these; a generic one is marked as nested
/// where it is a nest, and has no flag else.
pub fn made_attributes_are_their_parts<R: RtaType, T: NlAttrType>()
    ensures routing { (kind : R) (bytes : List ℕ)
        → ⟦<Rtattr<R, Buffer> as Made>⟧.made kind bytes ≡ routing kind bytes }
    ensures routing_nest { (kind : R) (bytes : List ℕ)
        → ⟦<Rtattr<R, Buffer> as Made>⟧.nest kind bytes ≡ routing kind bytes }
    ensures generic { (kind : T) (bytes : List ℕ)
        → ⟦<Nlattr<T, Buffer> as Made>⟧.made kind bytes ≡ generic (field false kind) bytes }
    ensures generic_nest { (kind : T) (bytes : List ℕ)
        → ⟦<Nlattr<T, Buffer> as Made>⟧.nest kind bytes ≡ generic (field true kind) bytes }
{}

/// What is looked up is looked up among all attributes: of a list, of a handle, and what is left of a walk.
pub fn all_attributes_are_looked_up<
    O: AttrSlice<I>,
    I: TypedPayload + 'static,
    K: Constant<Number = u16>,
>()
    ensures list { AreSame ⟦<FrameList<I> as Lookup<I>>⟧.attrs (λ list. list) }
    ensures handle { AreSame ⟦<AttrHandle<'static, O, I> as Lookup<I>>⟧.attrs (attrs_by O.attrs_of) }
    ensures walk { AreSame ⟦<LentAttrs<'static, K> as LentLookup<'static, K>>⟧.place (λ walk. walk) }
{}

/// An answer says what its attributes say, and a message's body is that of its payload.
pub fn answers_and_bodies_are_their_parts<M, T>()
    ensures answer { AreSame ⟦<Nlmsgerr<M> as ExtAck>⟧.said (λ e. e.ext_ack) }
    ensures attributes { AreSame ⟦<GenlBuffer<NlmsgerrAttr, Buffer> as ExtAck>⟧.said (λ attrs. attrs) }
    ensures body { AreSame ⟦<Nlmsghdr<T, Buffer> as ReadBody>⟧.body_in (λ m. body_of m.payload) }
{}

/// A lent message has the body of the owned message that it becomes.
pub fn lent_bodies_are_those_of_owned_messages<T: NlType>()
    ensures { AreSame ⟦<LentMessage<'static, T> as ReadBody>⟧.body_in
        (λ m. lent_body T.wire_value T.wire_number (message_view m)) }
{}

/// A builder begins with nothing given; a refusal prints its number and its cause, and becomes its cause.
pub fn refusals_are_their_parts()
    ensures builder { OnlyWhere ⟦<ExtAckBuilder<'static> as Default>⟧.is_default (λ b. b ≡ record {
      text = None;
      offset = None;
      policy = None;
      missing_type = None;
      missing_nest = None;
    }) }
    ensures printed { AreSame ⟦<AttrError as Display>⟧.output attr_text }
    ensures cause { GivesOnly ⟦<DeError as From<AttrError>>⟧.from_gives (λ error e. e ≡ error.cause) }
{}

/// Attributes with payloads of bytes always have wire bytes, so a policy that a builder is given is never left out.
pub fn policies_have_wire_bytes()
    ensures written { (attrs : PolicyAttributes) → (bytes : List ℕ) × (policy_wire (Some attrs) ≡ Ok bytes) }
{}
