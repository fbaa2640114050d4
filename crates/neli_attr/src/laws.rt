//! Laws over the definitions, and what attributes state about themselves. The functions do nothing: their contracts are
//! the laws.
//!
//! A type field is any [`Constant`] of 16 bits: [`crate::AttrType`] for generic attributes, the type itself for
//! routing ones.

ghost use Rattle.std.specs.Prelude.{◌≡◌, ◌+◌, ◌<◌, ◌++◌, ◌∷◌, ℕ, List, [], None, Ok, Err, length};
ghost use Rattle.neli_wire.specs.Constants.{IsEquality};
ghost use Rattle.neli_wire.specs.declared.errors.DeError.{DeError as Refusal};
ghost use Rattle.neli_wire.specs.Frames.{AreFrames, frame_at, frame_takes_memory};
ghost use Rattle.neli_wire.specs.Reading.{refusal_within};
ghost use Rattle.neli_wire.specs.laws.Elements.{elements};
ghost use Rattle.neli_wire.specs.laws.Values.{AreSame, OnlyWhere};
ghost use Rattle.neli_attr.specs.AttrType.{AttrType as Field};
ghost use Rattle.neli_attr.specs.declared.nlattr.Nlattr.{Nlattr as Generic};
ghost use Rattle.neli_attr.specs.declared.nlattr.NlattrBuilder.{NlattrBuilder as GenericBuilder};
ghost use Rattle.neli_attr.specs.declared.rtattr.Rtattr.{Rtattr as Routing};
ghost use Rattle.neli_attr.specs.declared.rtattr.RtattrBuilder.{RtattrBuilder as RoutingBuilder};
ghost use Rattle.neli_attr.specs.TypeField.{number_of, type_of};
ghost use Rattle.neli_attr.specs.Attributes.{Attr, attr, attribute, attribute_wire, attributes_in, nested_payload};
ghost use Rattle.neli_attr.specs.Nlattr.{built_nlattr, nlattr_wire, typed_attribute, with_bytes};
ghost use Rattle.neli_attr.specs.Rtattr.{built_rtattr, rtattr_wire, with_bytes as with_routing_bytes};
ghost use Rattle.neli_attr.specs.RoundTrips.{IsReadBack, KeepsField};

use crate::{AttrType, Attribute, Buffer, Nlattr, NlattrBuilder, Rtattr, RtattrBuilder};
pub use neli_attr_parts::laws::{
    buffer_is_its_bytes, errors_of_builders_say_why, errors_of_reading_say_why,
    errors_of_writing_say_why, messages_print_their_texts, type_field_is_its_number,
};
use neli_consts::NlAttrType;
use neli_consts_attrs::RtaType;
pub use neli_list::laws::{
    copies_of_nothing_take_no_memory, list_is_its_values, list_is_written_and_read,
};
use neli_list::{FrameList, ToTyped, TryClone, TypedPayload};
use neli_wire::{Constant, FromBytes, FromBytesWithInput, Header, Size, ToBytes};

/// A list of attributes that is read is the frames of its attributes, one after the other, and every such byte list is
/// read as that list. After frames, the first refusal is that of the list.
pub fn list_is_its_frames<K: Constant<Number = u16>, P: FromBytesWithInput>()
    ensures read { let layout = attribute K.wire_value P.read in
        (s : List ℕ) (attrs : List (Attr K P.Value)) → elements (frame_at layout) s ≡ Ok attrs
        → AreFrames layout s attrs }
    ensures spelled { let layout = attribute K.wire_value P.read in
        (s : List ℕ) (attrs : List (Attr K P.Value)) → AreFrames layout s attrs
        → elements (frame_at layout) s ≡ Ok attrs }
    ensures refused { let layout = attribute K.wire_value P.read in
        (front rest : List ℕ) (attrs : List (Attr K P.Value)) (e : Refusal)
        → AreFrames layout front attrs → 0 < length rest → frame_at layout rest ≡ Err e
        → elements (frame_at layout) (front ++ rest)
        ≡ Err (refusal_within (length (front ++ rest)) e) }
{}

/// A generic attribute that was built is written, and read again as one with its length and its payload's bytes, and
/// with the meaning of its field's number. That has the field's flags and number, if the number leaves the bits of the
/// two flags alone.
pub fn built_generic_attribute_reads_back<T: NlAttrType, P: ToBytes>()
    ensures read { (b : GenericBuilder T P) (a : Generic T (List ℕ)) → built_nlattr P.wire b ≡ Ok a
        → T.wire_number a.nla_type.nla_type < 65536
        → let field = number_of T.wire_number a.nla_type in
        IsReadBack (type_of T.wire_value) a.nla_len field a.nla_payload }
    ensures field { (t : Field T) → T.wire_number t.nla_type < 16384
        → KeepsField T.wire_number t (type_of T.wire_value (number_of T.wire_number t)) }
{}

/// A routing attribute that was built is written, and read again as one with its length and its payload's bytes, and
/// with the meaning of its type's number. That has the same number.
pub fn built_routing_attribute_reads_back<T: RtaType, P: ToBytes>()
    ensures read { (b : RoutingBuilder T P) (a : Routing T (List ℕ)) → built_rtattr P.wire b ≡ Ok a
        → T.wire_number a.rta_type < 65536
        → IsReadBack T.wire_value a.rta_len (T.wire_number a.rta_type) a.rta_payload }
    ensures number { (t : T) → T.wire_number t < 65536
        → T.wire_number (T.wire_value (T.wire_number t)) ≡ T.wire_number t }
{}

/// Where a payload lists attributes, a further one appended to it is the last in that list. The nested attribute's
/// length must be that of its header and payload, as in each attribute that was built or read with a payload of bytes.
pub fn nested_attribute_comes_last<
    K: Constant<Number = u16>,
    S: Constant<Number = u16>,
    P: ToBytes,
>()
    ensures { (len : ℕ) (kind : S) (inner : P) (old bytes payload : List ℕ)
        (attrs : List (Attr K (List ℕ))) → P.wire inner ≡ Ok bytes
        → len ≡ 4 + length bytes → S.wire_number kind < 65536
        → nested_payload old (attribute_wire len (S.wire_number kind) (P.wire inner)) ≡ Ok payload
        → attributes_in K.wire_value old ≡ Ok attrs
        → attributes_in K.wire_value payload
        ≡ Ok (attrs ++ attr len (K.wire_value (S.wire_number kind)) bytes ∷ []) }
{}

/// `==` of attributes, of lists and of their parts is true exactly where the two values are equal, field by field, if
/// the types and payloads in them have such an `==`.
pub fn equality<T: PartialEq, P: PartialEq>()
    ensures buffer { IsEquality ⟦<Buffer as PartialEq>⟧.eq }
    ensures type_field { IsEquality T.eq → IsEquality ⟦<AttrType<T> as PartialEq>⟧.eq }
    ensures attribute { IsEquality T.eq → IsEquality P.eq
        → IsEquality ⟦<Nlattr<T, P> as PartialEq>⟧.eq }
    ensures routing { IsEquality T.eq → IsEquality P.eq
        → IsEquality ⟦<Rtattr<T, P> as PartialEq>⟧.eq }
    ensures list { IsEquality P.eq → IsEquality ⟦<FrameList<P> as PartialEq>⟧.eq }
{}

/// A generic attribute is found by its type without the flags, and its payload is its bytes. A copy takes memory only
/// if there is a byte, a typed one too.
pub fn generic_attribute_is_its_fields<T: NlAttrType>()
    ensures kind { AreSame ⟦<Nlattr<T, Buffer> as TypedPayload>⟧.type_of (λ a. a.nla_type.nla_type) }
    ensures bytes { AreSame ⟦<Nlattr<T, Buffer> as TypedPayload>⟧.bytes_of (λ a. a.nla_payload) }
    ensures payload { AreSame ⟦<Nlattr<T, Buffer> as Attribute<T>>⟧.payload_of (λ a. a.nla_payload) }
    ensures set { AreSame ⟦<Nlattr<T, Buffer> as Attribute<T>>⟧.with_payload with_bytes }
    ensures typed { AreSame ⟦<Nlattr<u16, Buffer> as ToTyped<T>>⟧.typed (typed_attribute T.wire_value) }
    ensures typing { OnlyWhere ⟦<Nlattr<u16, Buffer> as ToTyped<T>>⟧.typing_takes_memory
        (λ a. 0 < length a.nla_payload) }
    ensures copy { OnlyWhere ⟦<Nlattr<T, Buffer> as TryClone>⟧.copy_takes_memory
        (λ a. 0 < length a.nla_payload) }
{}

/// A routing attribute is found by its type, and its payload is its bytes. A copy takes memory only if there is a byte.
pub fn routing_attribute_is_its_fields<T: RtaType>()
    ensures kind { AreSame ⟦<Rtattr<T, Buffer> as TypedPayload>⟧.type_of (λ a. a.rta_type) }
    ensures bytes { AreSame ⟦<Rtattr<T, Buffer> as TypedPayload>⟧.bytes_of (λ a. a.rta_payload) }
    ensures payload { AreSame ⟦<Rtattr<T, Buffer> as Attribute<T>>⟧.payload_of (λ a. a.rta_payload) }
    ensures set { AreSame ⟦<Rtattr<T, Buffer> as Attribute<T>>⟧.with_payload with_routing_bytes }
    ensures copy { OnlyWhere ⟦<Rtattr<T, Buffer> as TryClone>⟧.copy_takes_memory
        (λ a. 0 < length a.rta_payload) }
{}

/// A generic attribute is written and read as a frame with a header of four bytes, and a builder begins with no field.
pub fn generic_attribute_is_its_frame<T: NlAttrType, W: ToBytes, R: FromBytesWithInput>()
    ensures written { AreSame ⟦<Nlattr<T, W> as ToBytes>⟧.wire (nlattr_wire T.wire_number W.wire) }
    ensures size { AreSame ⟦<Nlattr<T, W> as Size>⟧.unpadded_length
        (λ a. 4 + W.Size.wire_length a.nla_payload) }
    ensures read { AreSame ⟦<Nlattr<T, R> as FromBytes>⟧.read
        (frame_at (attribute (type_of T.wire_value) R.read)) }
    ensures seen { AreSame ⟦<Nlattr<T, R> as FromBytes>⟧.view
        (λ a. attr a.nla_len a.nla_type (R.view a.nla_payload)) }
    ensures memory { OnlyWhere ⟦<Nlattr<T, R> as FromBytes>⟧.takes_memory
        (frame_takes_memory (attribute (type_of T.wire_value) R.read) (λ _. R.takes_memory)) }
    ensures header { ⟦<Nlattr<T, W> as Header>⟧.header ≡ 4 }
    ensures builder { OnlyWhere ⟦<NlattrBuilder<T, W> as Default>⟧.is_default
        (λ b. b ≡ record { nla_type = None; nla_payload = None }) }
{}

/// A routing attribute is written and read as a frame with a header of four bytes, and a builder begins with no field.
pub fn routing_attribute_is_its_frame<T: RtaType, W: ToBytes, R: FromBytesWithInput>()
    ensures written { AreSame ⟦<Rtattr<T, W> as ToBytes>⟧.wire (rtattr_wire T.wire_number W.wire) }
    ensures size { AreSame ⟦<Rtattr<T, W> as Size>⟧.unpadded_length
        (λ a. 4 + W.Size.wire_length a.rta_payload) }
    ensures read { AreSame ⟦<Rtattr<T, R> as FromBytes>⟧.read (frame_at (attribute T.wire_value R.read)) }
    ensures seen { AreSame ⟦<Rtattr<T, R> as FromBytes>⟧.view
        (λ a. attr a.rta_len a.rta_type (R.view a.rta_payload)) }
    ensures memory { OnlyWhere ⟦<Rtattr<T, R> as FromBytes>⟧.takes_memory
        (frame_takes_memory (attribute T.wire_value R.read) (λ _. R.takes_memory)) }
    ensures header { ⟦<Rtattr<T, W> as Header>⟧.header ≡ 4 }
    ensures builder { OnlyWhere ⟦<RtattrBuilder<T, W> as Default>⟧.is_default
        (λ b. b ≡ record { rta_type = None; rta_payload = None }) }
{}
