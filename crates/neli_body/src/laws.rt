//! Laws over the definitions alone. The functions do nothing: their contracts are the laws.

ghost use Rattle.std.specs.Prelude.{◌≡◌, List, ℕ, length};
ghost use Rattle.neli_wire.specs.Numbers.{AreBytes};
ghost use Rattle.neli_body.specs.Attributes.{Attrs};
ghost use Rattle.neli_body.specs.RoundTrips.{ArePlainAttrs, AreReadBack, ReadsBack, ReadsBackWhole};

use crate::FixedHeader;
use neli_consts_attrs::RtaType;
use neli_wire::{FromBytesWithInput, ToBytes};

/// A body's wire bytes are read as its header, and the bytes after it as they are read alone, if each field of the
/// header is read from its number. Bytes that are read as a header are written back as the same bytes.
pub fn body_is_read_back<H: FixedHeader, R: ToBytes + FromBytesWithInput>()
    ensures back { (h : H) (rest : R) → H.IsPlain h
        → ReadsBack H.width H.bytes_of H.header_of R.read h (R.wire rest) }
    ensures bytes { (s : List ℕ) → length s ≡ H.width → AreBytes s
        → H.bytes_of (H.header_of s) ≡ s }
{}

/// A list of routing attributes is read back, if each attribute's length is that of its header and payload, as in each
/// one that was built, and its type is read from its number. So is a header with such a list after it, if each field of
/// the header is read from its number.
pub fn attributes_are_read_back<H: FixedHeader, T: RtaType>()
    ensures back { (attrs : Attrs T) → ArePlainAttrs T.wire_number T.wire_value attrs
        → AreReadBack T.wire_number T.wire_value attrs }
    ensures whole { (h : H) (attrs : Attrs T) → H.IsPlain h
        → ArePlainAttrs T.wire_number T.wire_value attrs
        → ReadsBackWhole H.width H.bytes_of H.header_of T.wire_number T.wire_value h attrs }
{}
