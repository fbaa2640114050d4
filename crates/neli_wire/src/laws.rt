//! Laws over the definitions, and what the types state about their own bytes, by the values. The functions do nothing:
//! their contracts are the laws.

ghost use Rattle.std.specs.Int.{w8, w16, w32, w64, w128};
ghost use Rattle.std.specs.Net.Addr.{ipv4_octets, ipv6_octets, ipv6_segments, segments_of};
ghost use Rattle.std.specs.Prelude.{◌≡◌, ◌≤◌, ◌<◌, ◌++◌, ◌∷◌, [], ℕ, List, Ok, Err, false, length, map, string_bytes};
ghost use Rattle.std.specs.Prelude.{sum_by, take, true};
ghost use Rattle.byteorder.specs.Endian.{big_bytes, big_number, little_bytes, little_number};
ghost use Rattle.neli_wire.specs.Constants.{IsEquality};
ghost use Rattle.neli_wire.specs.Numbers.{AreBytes, signed_bytes, signed_number};
ghost use Rattle.neli_wire.specs.Reading.{AreElements, value_at, refusal_within};
ghost use Rattle.neli_wire.specs.Strings.{borrowed_text, nothing, owned_text};
ghost use Rattle.neli_wire.specs.Writing.{wire_all};
ghost use Rattle.neli_wire.specs.laws.Elements.{elements};
ghost use Rattle.neli_wire.specs.laws.Values.{AreNumbers, AreReadAs, AreSame, AreWrittenAs};
ghost use Rattle.neli_wire.specs.declared.errors.DeError.{DeError as Refusal};
ghost use Rattle.neli_wire.specs.declared.errors.DeError.TheVariants as de;

use crate::{
    BeU16, BeU32, BeU64, Constant, FromBytes, FromBytesWithInput, FromBytesWithInputBorrowed, Size,
    ToBytes,
};
use std::marker::PhantomData;
use std::net::{Ipv4Addr, Ipv6Addr};

/// Bytes that are read as a number are the bytes of that number, in either order.
pub fn bytes_of_number()
    ensures lowest_first { (n : ℕ) (s : List ℕ) → n ≤ length s → AreBytes s
        → little_bytes n (little_number n s) ≡ take n s }
    ensures highest_first { (n : ℕ) (s : List ℕ) → n ≤ length s → AreBytes s
        → big_bytes n (big_number n s) ≡ take n s }
{}

/// A written constant is read, whatever follows, as the value of its number.
pub fn constant_is_read_back<T: Constant>()
    ensures { (v : T) (rest : List ℕ) → T.Number.IsInRange (T.wire_number v)
        → value_at T.Number.byte_count (λ bytes. T.wire_value (T.Number.number_of bytes))
        (T.Number.bytes_of (T.wire_number v) ++ rest)
        ≡ Ok (T.wire_value (T.wire_number v), rest) }
{}

/// A list that is read is the bytes of its elements, one after the other, and every such byte list is read as that
/// list. After elements that can be read, the first refusal is that of the whole list; an element that takes no byte
/// refuses it with `InvalidInput`.
pub fn list_is_its_elements<T: FromBytes>()
    ensures read { (s : List ℕ) (vs : List T.Value) → elements T.read s ≡ Ok vs
        → AreElements T.read s vs }
    ensures spelled { (s : List ℕ) (vs : List T.Value) → AreElements T.read s vs
        → elements T.read s ≡ Ok vs }
    ensures refused { (front rest : List ℕ) (vs : List T.Value) (e : Refusal)
        → AreElements T.read front vs
        → 0 < length rest → T.read rest ≡ Err e → elements T.read (front ++ rest)
        ≡ Err (refusal_within (length (front ++ rest)) e) }
    ensures stuck { (front rest r : List ℕ) (vs : List T.Value) (v : T.Value)
        → AreElements T.read front vs
        → 0 < length rest → T.read rest ≡ Ok (v, r) → length rest ≤ length r
        → elements T.read (front ++ rest) ≡ Err (de.InvalidInput (length (front ++ rest))) }
{}

/// `==` of numbers written with their highest byte first is true exactly where the two are equal.
pub fn equality()
    ensures two_bytes { IsEquality ⟦<BeU16 as PartialEq>⟧.eq }
    ensures four_bytes { IsEquality ⟦<BeU32 as PartialEq>⟧.eq }
    ensures eight_bytes { IsEquality ⟦<BeU64 as PartialEq>⟧.eq }
{}

/// An unsigned number is written as its bytes, the lowest first, and read as the number that they spell.
pub fn unsigned_numbers()
    ensures one_byte { AreNumbers ⟦<u8 as ToBytes>⟧.wire ⟦<u8 as FromBytes>⟧.read 1
        (little_bytes 1) (little_number 1) }
    ensures two_bytes { AreNumbers ⟦<u16 as ToBytes>⟧.wire ⟦<u16 as FromBytes>⟧.read 2
        (little_bytes 2) (little_number 2) }
    ensures four_bytes { AreNumbers ⟦<u32 as ToBytes>⟧.wire ⟦<u32 as FromBytes>⟧.read 4
        (little_bytes 4) (little_number 4) }
    ensures eight_bytes { AreNumbers ⟦<u64 as ToBytes>⟧.wire ⟦<u64 as FromBytes>⟧.read 8
        (little_bytes 8) (little_number 8) }
    ensures sixteen_bytes { AreNumbers ⟦<u128 as ToBytes>⟧.wire ⟦<u128 as FromBytes>⟧.read 16
        (little_bytes 16) (little_number 16) }
{}

/// A signed number is written in two's complement, the lowest byte first, and read the same way.
pub fn signed_numbers()
    ensures one_byte { AreNumbers ⟦<i8 as ToBytes>⟧.wire ⟦<i8 as FromBytes>⟧.read 1
        (signed_bytes w8 1) (signed_number w8 1) }
    ensures two_bytes { AreNumbers ⟦<i16 as ToBytes>⟧.wire ⟦<i16 as FromBytes>⟧.read 2
        (signed_bytes w16 2) (signed_number w16 2) }
    ensures four_bytes { AreNumbers ⟦<i32 as ToBytes>⟧.wire ⟦<i32 as FromBytes>⟧.read 4
        (signed_bytes w32 4) (signed_number w32 4) }
    ensures eight_bytes { AreNumbers ⟦<i64 as ToBytes>⟧.wire ⟦<i64 as FromBytes>⟧.read 8
        (signed_bytes w64 8) (signed_number w64 8) }
    ensures sixteen_bytes { AreNumbers ⟦<i128 as ToBytes>⟧.wire ⟦<i128 as FromBytes>⟧.read 16
        (signed_bytes w128 16) (signed_number w128 16) }
{}

/// A number in network order is written as its bytes, the highest first, and read as the number that they spell.
pub fn big_endian_numbers()
    ensures two_bytes { AreNumbers ⟦<BeU16 as ToBytes>⟧.wire ⟦<BeU16 as FromBytes>⟧.read 2
        (big_bytes 2) (big_number 2) }
    ensures four_bytes { AreNumbers ⟦<BeU32 as ToBytes>⟧.wire ⟦<BeU32 as FromBytes>⟧.read 4
        (big_bytes 4) (big_number 4) }
    ensures eight_bytes { AreNumbers ⟦<BeU64 as ToBytes>⟧.wire ⟦<BeU64 as FromBytes>⟧.read 8
        (big_bytes 8) (big_number 8) }
{}

/// A constant is written as the bytes of its number, and read by the number's meaning, without memory.
pub fn constant_is_its_number<T: Constant>()
    ensures written { AreWrittenAs ⟦<T as ToBytes>⟧.wire ⟦<T as Size>⟧.unpadded_length
        (λ v. T.Number.bytes_of (T.wire_number v)) }
    ensures read { AreReadAs ⟦<T as FromBytes>⟧.read ⟦<T as FromBytes>⟧.takes_memory
        T.Number.byte_count (λ bytes. T.wire_value (T.Number.number_of bytes)) }
    ensures seen { AreSame ⟦<T as FromBytes>⟧.view (λ v. v) }
{}

/// True is written as the byte 1 and false as 0; 0 is read as false and every other byte as true, without memory.
pub fn booleans()
    ensures written_true { ⟦<bool as ToBytes>⟧.wire true ≡ Ok (1 ∷ []) }
    ensures written_false { ⟦<bool as ToBytes>⟧.wire false ≡ Ok (0 ∷ []) }
    ensures read_true { (n : ℕ) (rest : List ℕ) → 0 < n
        → ⟦<bool as FromBytes>⟧.read (n ∷ rest) ≡ Ok (true, rest) }
    ensures read_false { (rest : List ℕ) → ⟦<bool as FromBytes>⟧.read (0 ∷ rest) ≡ Ok (false, rest) }
    ensures memory { (s : List ℕ) → ⟦<bool as FromBytes>⟧.takes_memory s → ⊥ }
    ensures seen { ⟦<bool as FromBytes>⟧.view true ≡ true }
{}

/// An address is written as its octets, the highest first, and read as what they spell, without memory.
pub fn addresses()
    ensures written { AreWrittenAs ⟦<Ipv4Addr as ToBytes>⟧.wire ⟦<Ipv4Addr as Size>⟧.unpadded_length
        ipv4_octets }
    ensures read { AreReadAs ⟦<Ipv4Addr as FromBytes>⟧.read ⟦<Ipv4Addr as FromBytes>⟧.takes_memory
        4 (λ octets. octets) }
    ensures seen { AreSame ⟦<Ipv4Addr as FromBytes>⟧.view ipv4_octets }
    ensures written_long { AreWrittenAs ⟦<Ipv6Addr as ToBytes>⟧.wire
        ⟦<Ipv6Addr as Size>⟧.unpadded_length ipv6_octets }
    ensures read_long { AreReadAs ⟦<Ipv6Addr as FromBytes>⟧.read
        ⟦<Ipv6Addr as FromBytes>⟧.takes_memory 16 segments_of }
    ensures seen_long { AreSame ⟦<Ipv6Addr as FromBytes>⟧.view ipv6_segments }
{}

/// A text is written as its bytes and a zero. An owned one is read from all bytes but the last, and takes memory if
/// there is a byte; a borrowed one is all of its bytes.
pub fn texts()
    ensures borrowed_written { AreWrittenAs ⟦<&'static str as ToBytes>⟧.wire
        ⟦<&'static str as Size>⟧.unpadded_length (λ t. t.now ++ 0 ∷ []) }
    ensures written { AreWrittenAs ⟦<String as ToBytes>⟧.wire
        ⟦<String as Size>⟧.unpadded_length (λ t. string_bytes t ++ 0 ∷ []) }
    ensures borrowed_seen { AreSame
        ⟦<&'static str as FromBytesWithInputBorrowed<'static>>⟧.view (λ t. t.now) }
    ensures borrowed_read { AreSame
        ⟦<&'static str as FromBytesWithInputBorrowed<'static>>⟧.read borrowed_text }
    ensures seen { AreSame ⟦<String as FromBytesWithInput>⟧.view string_bytes }
    ensures read { AreSame ⟦<String as FromBytesWithInput>⟧.read owned_text }
    ensures memory { (s : List ℕ) → ⟦<String as FromBytesWithInput>⟧.takes_memory s → 0 < length s }
{}

/// Bytes are written and read as they are. An array takes no memory.
pub fn bytes_as_they_are<const N: usize>()
    ensures borrowed_written { AreWrittenAs ⟦<&'static [u8] as ToBytes>⟧.wire
        ⟦<&'static [u8] as Size>⟧.unpadded_length (λ b. b.now) }
    ensures borrowed_seen { AreSame
        ⟦<&'static [u8] as FromBytesWithInputBorrowed<'static>>⟧.view (λ b. b.now) }
    ensures borrowed_read { AreSame
        ⟦<&'static [u8] as FromBytesWithInputBorrowed<'static>>⟧.read (λ s. Ok s) }
    ensures written { AreWrittenAs ⟦<[u8; N] as ToBytes>⟧.wire ⟦<[u8; N] as Size>⟧.unpadded_length
        (λ b. b) }
    ensures read { AreReadAs ⟦<[u8; N] as FromBytes>⟧.read ⟦<[u8; N] as FromBytes>⟧.takes_memory
        N (λ bytes. bytes) }
    ensures seen { AreSame ⟦<[u8; N] as FromBytes>⟧.view (λ b. b) }
{}

/// `()` and a marker of a type take no bytes, and no memory.
pub fn values_without_bytes<T>()
    ensures written { AreWrittenAs ⟦<() as ToBytes>⟧.wire ⟦<() as Size>⟧.unpadded_length (λ v. []) }
    ensures read { AreSame ⟦<() as FromBytes>⟧.read (λ s. Ok (tt, s)) }
    ensures memory { (s : List ℕ) → ⟦<() as FromBytes>⟧.takes_memory s → ⊥ }
    ensures whole { AreSame ⟦<() as FromBytesWithInput>⟧.read nothing }
    ensures whole_memory { (s : List ℕ) → ⟦<() as FromBytesWithInput>⟧.takes_memory s → ⊥ }
    ensures marker_written { AreWrittenAs ⟦<PhantomData<T> as ToBytes>⟧.wire
        ⟦<PhantomData<T> as Size>⟧.unpadded_length (λ v. []) }
    ensures marker_read { AreSame ⟦<PhantomData<T> as FromBytes>⟧.read (λ s. Ok (tt, s)) }
    ensures marker_memory { (s : List ℕ) → ⟦<PhantomData<T> as FromBytes>⟧.takes_memory s → ⊥ }
{}

/// A list is written as its values, one after the other, and read as values; this takes memory if there is a byte.
pub fn lists<W: ToBytes, R: FromBytes>()
    ensures written { AreSame ⟦<Vec<W> as ToBytes>⟧.wire (λ v. wire_all W.wire v.items) }
    ensures size { AreSame ⟦<Vec<W> as Size>⟧.unpadded_length
        (λ v. sum_by W.Size.wire_length v.items) }
    ensures read { AreSame ⟦<Vec<R> as FromBytesWithInput>⟧.read (elements R.read) }
    ensures seen { AreSame ⟦<Vec<R> as FromBytesWithInput>⟧.view (λ v. map R.view v.items) }
    ensures memory { (s : List ℕ) → ⟦<Vec<R> as FromBytesWithInput>⟧.takes_memory s → 0 < length s }
{}
