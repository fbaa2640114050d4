//! Values that are read from bytes.

ghost use Rattle.std.specs.Prelude.{◌≡◌, ℕ, ◌+◌, ◌-◌, ◌≤◌, ◌<◌, List, Result};
ghost use Rattle.std.specs.Prelude.{Ok, Err, IfOk, IfErr, OnOk, OnErr, length, drop};
ghost use Rattle.neli_wire.specs.Place.{whole, place_after};
ghost use Rattle.neli_wire.specs.Bytes.{Reading, short};
ghost use Rattle.neli_wire.specs.Refusals.{Refuses};
ghost use Rattle.neli_wire.specs.Reading.{IsLocal, LacksPadding, StripsTo};
ghost use Rattle.neli_wire.specs.Reading.{exact_reading, exact_takes_memory, refusal_within};
ghost use Rattle.neli_wire.specs.Sizes.{gap};
ghost use Rattle.neli_wire.specs.declared.errors.DeError.{DeError as Refusal};
ghost use Rattle.neli_wire.specs.declared.errors.DeError.TheVariants as de;

use crate::{Cursor, DeError, ToBytes, alignto};
use std::alloc::Global;
use std::fmt::Debug;
use std::io::ErrorKind;

/// A value that is read from the bytes at a cursor, as many as it takes.
pub trait FromBytes: Sized + Debug + Drop {
    // What contracts see of a value.
    ghost Value: { Type 0 };

    ghost view: { Self → Value };

    // The value at the front of a byte list and the bytes after it, or a refusal.
    ghost read: { List ℕ → Reading Value };

    // Where a read takes memory.
    ghost takes_memory: { List ℕ → Type 0 };

    /// Reads the value at the cursor, and moves past it. A refusal leaves the cursor where it was.
    fn from_bytes(alloc: Global, cursor: &mut Cursor<'_>) -> Result<Self, DeError>
        ensures value { IfOk result (λ v. read cursor.old.rest ≡ Ok (view v, cursor.new.rest)) }
        ensures moved { OnOk result (whole cursor.new ≡ whole cursor.old) }
        ensures refused { IfErr result
            (Refuses (read cursor.old.rest) (takes_memory cursor.old.rest)) }
        ensures unchanged { OnErr result (cursor.new ≡ cursor.old) };

    /// Moves to the next position that is a multiple of four, over bytes of any value. `Io(UnexpectedEof)` if the bytes
    /// end before it; then the cursor stays.
    fn strip(cursor: &mut Cursor<'_>) -> Result<(), DeError>
        ensures stripped { OnOk result (StripsTo cursor.old cursor.new) }
        ensures short { IfErr result (LacksPadding cursor.old) }
        ensures unchanged { OnErr result (cursor.new ≡ cursor.old) }
    {
        strip_to_four(cursor)
    }

    // What is read depends only on its own bytes, whatever follows.
    ghost local: { IsLocal read };

    // The definition never refuses for lack of memory.
    ghost no_memory: { (s : List ℕ) → read s ≡ Err de.Memory → ⊥ };
}

/// A value that is read from exactly the next `n` bytes.
pub trait FromBytesWithInput: Sized + Debug + Drop {
    // What contracts see of a value.
    ghost Value: { Type 0 };

    ghost view: { Self → Value };

    // The value that a whole byte list spells, or a refusal.
    ghost read: { List ℕ → Result Value Refusal };

    // Where a read takes memory.
    ghost takes_memory: { List ℕ → Type 0 };

    /// Reads the next `n` bytes as one value and moves past them. `InvalidInput(n)` if there are fewer; each type
    /// states its other refusals. A refusal leaves the cursor where it was.
    fn from_bytes_with_input(
        alloc: Global,
        cursor: &mut Cursor<'_>,
        n: usize,
    ) -> Result<Self, DeError>
        ensures value { IfOk result (λ v. exact_reading read n cursor.old.rest
            ≡ Ok (view v, cursor.new.rest)) }
        ensures moved { OnOk result (whole cursor.new ≡ whole cursor.old) }
        ensures refused { IfErr result
            (Refuses (exact_reading read n cursor.old.rest)
            (exact_takes_memory takes_memory n cursor.old.rest)) }
        ensures unchanged { OnErr result (cursor.new ≡ cursor.old) };

    /// Moves to the next position that is a multiple of four, as `FromBytes::strip` does.
    fn strip(cursor: &mut Cursor<'_>) -> Result<(), DeError>
        ensures stripped { OnOk result (StripsTo cursor.old cursor.new) }
        ensures short { IfErr result (LacksPadding cursor.old) }
        ensures unchanged { OnErr result (cursor.new ≡ cursor.old) }
    {
        strip_to_four(cursor)
    }

    // The definition never refuses for lack of memory.
    ghost no_memory: { (s : List ℕ) → read s ≡ Err de.Memory → ⊥ };

    // Bytes missing inside are never refused as `Io(UnexpectedEof)`.
    ghost never_short: { (s : List ℕ) → read s ≡ Err short → ⊥ };
}

/// A value that borrows exactly the next `n` bytes. The cursor stays where it is.
pub trait FromBytesWithInputBorrowed<'a>: Sized + Debug {
    /// The error of calls that are generic in the type that they read: [`DeError`].
    type Error: From<DeError> + Into<DeError> + Drop;

    // What contracts see of a value.
    ghost Value: { Type 0 };

    ghost view: { Self → Value };

    // The value that a whole byte list spells, or a refusal.
    ghost read: { List ℕ → Result Value Refusal };

    /// Reads the next `n` bytes as one value that borrows them. `InvalidInput(n)` if there are fewer. It takes no
    /// memory.
    fn from_bytes_with_input(cursor: &mut Cursor<'a>, n: usize) -> Result<Self, DeError>
        ensures value { IfOk result (λ v. exact_reading read n cursor.old.rest
            ≡ Ok (view v, drop n cursor.old.rest)) }
        ensures refused { IfErr result (Refuses (exact_reading read n cursor.old.rest) ⊥) }
        ensures unchanged { cursor.new ≡ cursor.old };

    /// Moves to the next position that is a multiple of four, as `FromBytes::strip` does. An
    /// implementation calls [`strip_to_four`].
    fn strip(cursor: &mut Cursor<'a>) -> Result<(), DeError>
        ensures stripped { OnOk result (StripsTo cursor.old cursor.new) }
        ensures short { IfErr result (LacksPadding cursor.old) }
        ensures unchanged { OnErr result (cursor.new ≡ cursor.old) };

    // Bytes missing inside are never refused as `Io(UnexpectedEof)`.
    ghost never_short: { (s : List ℕ) → read s ≡ Err short → ⊥ };
}

/// A type whose values all take the same number of bytes.
pub trait TypeSize: ToBytes + FromBytes {
    ghost width: { ℕ };

    /// How many bytes each value takes.
    fn type_size() -> usize
        ensures { result ≡ width };

    ghost wire_is_wide: { (v : Self) (bytes : List ℕ) → Self.wire v ≡ Ok bytes
        → length bytes ≡ width };

    ghost read_is_wide: { (s r : List ℕ) (v : Self.Value) → Self.read s ≡ Ok (v, r)
        → length s ≡ width + length r };
}

/// A struct that begins with a header of a fixed size.
pub trait Header {
    ghost header: { ℕ };

    /// The size of all the fields but the last, in bytes.
    fn header_size() -> usize
        ensures { result ≡ header };
}

/// Moves to the next position that is a multiple of four. `Io(UnexpectedEof)` if the bytes end before it; then the
/// cursor stays.
pub fn strip_to_four(cursor: &mut Cursor<'_>) -> Result<(), DeError>
    ensures stripped { OnOk result (StripsTo cursor.old cursor.new) }
    ensures short { IfErr result (LacksPadding cursor.old) }
    ensures unchanged { OnErr result (cursor.new ≡ cursor.old) }
{
    let position = cursor.position();
    let gap = alignto(position) - position;
    if cursor.rest().len() < gap {
        return Err(DeError::Io(ErrorKind::UnexpectedEof));
    }
    cursor.advance(gap);
    Ok(())
}

/// A refusal as a read with input `n` returns it: missing bytes make the input invalid.
pub fn within_input(error: DeError, n: usize) -> DeError
    ensures { result ≡ refusal_within n error }
{
    match error {
        DeError::Io(ErrorKind::UnexpectedEof) => DeError::InvalidInput(n),
        error => error,
    }
}
