//! What generic and routing attributes have in common for a caller: a payload of bytes.
//!
//! Both have one more call, `get_payload_as_with_len_borrowed`, which no trait can hold because its bound names its
//! lifetime.

ghost use Rattle.std.specs.Prelude.{◌≡◌, ℕ, List, Ok, IfOk, IfErr, OnOk, OnErr, length};
ghost use Rattle.neli_wire.specs.Refusals.{Refuses};
ghost use Rattle.neli_wire.specs.Writing.{RefusesWrite};
ghost use Rattle.neli_list.specs.Payloads.{ReadsFirst};
ghost use Rattle.neli_attr_parts.specs.Attributes.{attribute_payload};

use crate::Buffer;
use neli_list::{read_first, read_whole};
use neli_wire::{DeError, FromBytes, FromBytesWithInput, SerError, ToBytes};
use std::alloc::Global;

/// An attribute with a type of type `T` and a payload of bytes.
pub trait Attribute<T> {
    // The payload's bytes.
    ghost payload_of: { Self → List ℕ };

    // The attribute with another payload, and the length that goes with it.
    ghost with_payload: { Self → List ℕ → Self };

    /// The payload.
    fn payload(&self) -> &Buffer
        ensures { result.now ≡ payload_of self.now };

    /// Replaces the payload with the wire bytes of `payload`, and computes the length anew.
    ///
    /// Refused first with the payload's own refusal; then with a `SerError::Msg` if four bytes and the wire bytes
    /// exceed the 65535 of the length field. `Memory` may replace either. A refusal leaves the attribute as it was.
    fn set_payload<P: ToBytes>(&mut self, alloc: Global, payload: &P) -> Result<(), SerError>
        ensures bytes { OnOk result
            (attribute_payload (P.wire payload.now) ≡ Ok (payload_of self.new)) }
        ensures set { OnOk result (self.new ≡ with_payload self.old (payload_of self.new)) }
        ensures refused { IfErr result (RefusesWrite (attribute_payload (P.wire payload.now))) }
        ensures unchanged { OnErr result (self.new ≡ self.old) };

    /// The value at the front of the payload, whatever follows it.
    ///
    /// Refused as the type's own read refuses these bytes.
    fn get_payload_as<R: FromBytes>(&self, alloc: Global) -> Result<R, DeError>
        ensures value { IfOk result (λ v. ReadsFirst (R.read (payload_of self.now)) (R.view v)) }
        ensures refused { let payload = payload_of self.now in
            IfErr result (Refuses (R.read payload) (R.takes_memory payload)) }
    {
        read_first(alloc, self.payload().as_ref())
    }

    /// The value that the whole payload spells.
    ///
    /// Refused as the type's own read refuses these bytes.
    fn get_payload_as_with_len<R: FromBytesWithInput>(&self, alloc: Global) -> Result<R, DeError>
        ensures value { IfOk result (λ v. R.read (payload_of self.now) ≡ Ok (R.view v)) }
        ensures refused { let payload = payload_of self.now in
            IfErr result (Refuses (R.read payload) (R.takes_memory payload)) }
    {
        read_whole(alloc, self.payload().as_ref())
    }
}
