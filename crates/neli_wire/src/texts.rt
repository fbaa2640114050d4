//! Text: written as its UTF-8 bytes and a zero.

ghost use Rattle.std.specs.Prelude.{◌≡◌, ◌+◌, ◌<◌, ◌++◌, ◌∷◌, [], ℕ, List};
ghost use Rattle.std.specs.Prelude.{Ok, Err, OnOk, OnErr, IfOk, IfErr, length, string_bytes};
ghost use Rattle.neli_wire.specs.Refusals.{Refuses};
ghost use Rattle.neli_wire.specs.laws.Sizes.{unpadded-rounded, unpadded-zeros};
ghost use Rattle.neli_wire.specs.laws.Strings.{text_and_zero-length, borrowed_text-never_short};
ghost use Rattle.neli_wire.specs.laws.Strings.{owned_text-never_short, owned_text-no_memory};
ghost use Rattle.neli_wire.specs.Strings.{text_and_zero, borrowed_text, owned_text};
ghost use Rattle.neli_wire.specs.laws.Writing.{written-no_memory};

use crate::implementing::strip_to_four;
use crate::{
    Cursor, DeError, FromBytesWithInput, FromBytesWithInputBorrowed, SerError, Size, ToBytes, Utf8,
};
use std::alloc::{AllocError, Global};

/// Appends the text and a zero, or leaves the buffer as it was.
fn write_text(text: &str, buffer: &mut Vec<u8>) -> Result<(), AllocError>
    ensures ok { OnOk result (buffer.new.items ≡ buffer.old.items ++ (text.now ++ 0 ∷ [])) }
    ensures unchanged { OnErr result (buffer.new.items ≡ buffer.old.items) }
{
    let start = buffer.len();
    buffer.extend_from_slice(text.as_bytes())?;
    if let Err(error) = buffer.extend_from_slice(&[0]) {
        buffer.truncate(start);
        return Err(error);
    }
    Ok(())
}

/// The text that all of the bytes but the last spell. `InvalidInput(0)` if there is no byte.
fn read_text(alloc: Global, bytes: &[u8]) -> Result<String, DeError>
    ensures value { IfOk result (λ t. owned_text bytes.now ≡ Ok (string_bytes t)) }
    ensures refused { IfErr result (Refuses (owned_text bytes.now) (0 < length bytes.now)) }
{
    let n = bytes.len();
    if n < 1 {
        return Err(DeError::InvalidInput(n));
    }
    match str::from_utf8(&bytes[..n - 1]) {
        Ok(text) => Ok(String::from_str(alloc, text)?),
        Err(error) => Err(DeError::Utf8(Utf8::String(error))),
    }
}

impl<'a> Size for &'a str {
    ghost unpadded_length = { λ t. length t.now + 1 };

    ghost wire_length = { λ t. length t.now + 1 };

    ghost rounded = { unpadded-rounded (λ t. length t.now + 1) };

    fn unpadded_size(&self) -> usize {
        self.len().saturating_add(1)
    }

    fn written_size(&self) -> usize {
        self.len().saturating_add(1)
    }
}

impl<'a> ToBytes for &'a str {
    ghost wire = { λ t. text_and_zero t.now };

    ghost length_is = { λ t bytes e. text_and_zero-length t.now bytes e };

    ghost zeros_after = { λ t bytes e. unpadded-zeros (length t.now + 1) bytes
        (text_and_zero-length t.now bytes e) };

    ghost no_memory = { λ t. written-no_memory (t.now ++ 0 ∷ []) };

    fn to_bytes(&self, buffer: &mut Vec<u8>) -> Result<(), SerError> {
        write_text(self, buffer)?;
        Ok(())
    }
}

impl<'a> FromBytesWithInputBorrowed<'a> for &'a str {
    type Error = DeError;

    ghost Value = { List ℕ };

    ghost view = { λ t. t.now };

    ghost read = { borrowed_text };

    ghost never_short = { borrowed_text-never_short };

    fn from_bytes_with_input(cursor: &mut Cursor<'a>, n: usize) -> Result<Self, DeError> {
        let bytes = cursor.input(n)?;
        match str::from_utf8(bytes) {
            Ok(text) => Ok(text),
            Err(error) => Err(DeError::Utf8(Utf8::Str(error))),
        }
    }

    fn strip(cursor: &mut Cursor<'a>) -> Result<(), DeError> {
        strip_to_four(cursor)
    }
}

impl Size for String {
    ghost unpadded_length = { λ t. length (string_bytes t) + 1 };

    ghost wire_length = { λ t. length (string_bytes t) + 1 };

    ghost rounded = { unpadded-rounded (λ t. length (string_bytes t) + 1) };

    fn unpadded_size(&self) -> usize {
        self.len().saturating_add(1)
    }

    fn written_size(&self) -> usize {
        self.len().saturating_add(1)
    }
}

impl ToBytes for String {
    ghost wire = { λ t. text_and_zero (string_bytes t) };

    ghost length_is = { λ t bytes e. text_and_zero-length (string_bytes t) bytes e };

    ghost zeros_after = { λ t bytes e. unpadded-zeros (length (string_bytes t) + 1) bytes
        (text_and_zero-length (string_bytes t) bytes e) };

    ghost no_memory = { λ t. written-no_memory (string_bytes t ++ 0 ∷ []) };

    fn to_bytes(&self, buffer: &mut Vec<u8>) -> Result<(), SerError> {
        write_text(self.as_str(), buffer)?;
        Ok(())
    }
}

impl FromBytesWithInput for String {
    ghost Value = { List ℕ };

    ghost view = { string_bytes };

    ghost read = { owned_text };

    ghost takes_memory = { λ s. 0 < length s };

    ghost no_memory = { owned_text-no_memory };

    ghost never_short = { owned_text-never_short };

    fn from_bytes_with_input(
        alloc: Global,
        cursor: &mut Cursor<'_>,
        n: usize,
    ) -> Result<Self, DeError> {
        let bytes = cursor.input(n)?;
        let text = read_text(alloc, bytes)?;
        cursor.advance(n);
        Ok(text)
    }
}
