//! Values that are one number each: numbers, and types that name them.
//!
//! A type of constants implements [`Constant`] alone, which gives it the four wire traits [`Size`],
//! [`TypeSize`], [`ToBytes`] and [`FromBytes`].

ghost use Rattle.std.specs.Prelude.{◌≡◌, ◌<◌, ◌++◌, ℕ, List, Ok, OnOk, OnErr, length};
ghost use Rattle.neli_wire.specs.Numbers.{AreBytes};
ghost use Rattle.neli_wire.specs.Reading.{value_at};
ghost use Rattle.neli_wire.specs.laws.Reading.{value_at-local, value_at-no_memory, value_at-wide};
ghost use Rattle.neli_wire.specs.laws.Sizes.{unpadded-rounded, unpadded-zeros};
ghost use Rattle.neli_wire.specs.laws.Writing.{written-length, written-no_memory};

use crate::{Cursor, DeError, FromBytes, SerError, Size, ToBytes, TypeSize};
use std::alloc::{AllocError, Global};
use std::fmt::Debug;

/// An integer type, with its bytes on the wire.
pub trait WireNumber: Copy + Debug {
    // How many bytes each number has.
    ghost byte_count: { ℕ };

    // The type's range: a contract's numbers have no bounds.
    ghost IsInRange: { Self → Type 0 };

    // The bytes of a number.
    ghost bytes_of: { Self → List ℕ };

    // The number that this many bytes spell.
    ghost number_of: { List ℕ → Self };

    /// How many bytes each number takes.
    fn count() -> usize
        ensures { result ≡ byte_count };

    /// Appends the bytes of the number. A refusal leaves the buffer as it was.
    fn append(self, buffer: &mut Vec<u8>) -> Result<(), AllocError>
        ensures ok { OnOk result (buffer.new.items ≡ buffer.old.items ++ bytes_of self) }
        ensures unchanged { OnErr result (buffer.new.items ≡ buffer.old.items) }
        ensures memory { OnErr result (0 < byte_count) };

    /// The number of these bytes.
    fn number(bytes: &[u8]) -> Self
        requires { length bytes.now ≡ byte_count }
        ensures { result ≡ number_of bytes.now };

    ghost count_is: { (n : Self) → length (bytes_of n) ≡ byte_count };

    // A number that is written is read back.
    ghost reads_back: { (n : Self) → IsInRange n → number_of (bytes_of n) ≡ n };

    // Bytes that are read as a number are that number's bytes, and the number is in the type's
    // range.
    ghost writes_back: { (bytes : List ℕ) → length bytes ≡ byte_count → AreBytes bytes
        → bytes_of (number_of bytes) ≡ bytes };

    ghost in_range: { (bytes : List ℕ) → length bytes ≡ byte_count → AreBytes bytes
        → IsInRange (number_of bytes) };
}

/// A value that is written as one number, and read by that number's meaning.
pub trait Constant: Copy + Debug {
    /// The integer that it is written as.
    type Number: WireNumber;

    // The number that a value is written as.
    ghost wire_number: { Self → Self.Number };

    // The value that a number is read as.
    ghost wire_value: { Self.Number → Self };

    /// The value that the number is read as.
    fn from_wire(number: Self::Number) -> Self
        ensures { result ≡ wire_value number };

    /// The number that the value is written as.
    fn to_wire(&self) -> Self::Number
        ensures { result ≡ wire_number self.now };

    // No number is lost: its value is written as the same number.
    ghost back_to_number: { (n : Self.Number) → Self.Number.IsInRange n
        → wire_number (wire_value n) ≡ n };
}

impl<T: Constant> Size for T {
    ghost unpadded_length = { λ _. T.Number.byte_count };

    ghost wire_length = { λ _. T.Number.byte_count };

    ghost rounded = { unpadded-rounded (λ _. T.Number.byte_count) };

    fn unpadded_size(&self) -> usize {
        T::Number::count()
    }

    fn written_size(&self) -> usize {
        T::Number::count()
    }
}

impl<T: Constant> ToBytes for T {
    ghost wire = { λ v. Ok (T.Number.bytes_of (T.wire_number v)) };

    ghost length_is = { λ v bytes e. written-length
        (T.Number.bytes_of (T.wire_number v)) bytes T.Number.byte_count
        (T.Number.count_is (T.wire_number v)) e };

    ghost zeros_after = { λ v bytes e. unpadded-zeros T.Number.byte_count bytes
        (written-length (T.Number.bytes_of (T.wire_number v)) bytes T.Number.byte_count
        (T.Number.count_is (T.wire_number v)) e) };

    ghost no_memory = { λ v. written-no_memory (T.Number.bytes_of (T.wire_number v)) };

    fn to_bytes(&self, buffer: &mut Vec<u8>) -> Result<(), SerError> {
        self.to_wire().append(buffer)?;
        Ok(())
    }
}

impl<T: Constant> FromBytes for T {
    ghost Value = { T };

    ghost view = { λ v. v };

    ghost read = { value_at T.Number.byte_count
        (λ bytes. T.wire_value (T.Number.number_of bytes)) };

    ghost takes_memory = { λ _. ⊥ };

    ghost local = { value_at-local T.Number.byte_count
        (λ bytes. T.wire_value (T.Number.number_of bytes)) };

    ghost no_memory = { value_at-no_memory T.Number.byte_count
        (λ bytes. T.wire_value (T.Number.number_of bytes)) };

    fn from_bytes(_alloc: Global, cursor: &mut Cursor<'_>) -> Result<T, DeError> {
        let bytes = cursor.bytes(T::Number::count())?;
        Ok(T::from_wire(T::Number::number(bytes)))
    }
}

impl<T: Constant> TypeSize for T {
    ghost width = { T.Number.byte_count };

    ghost wire_is_wide = { λ v bytes e. written-length
        (T.Number.bytes_of (T.wire_number v)) bytes T.Number.byte_count
        (T.Number.count_is (T.wire_number v)) e };

    ghost read_is_wide = { λ s r v e. value_at-wide T.Number.byte_count
        (λ bytes. T.wire_value (T.Number.number_of bytes)) s r v e };

    fn type_size() -> usize {
        T::Number::count()
    }
}
