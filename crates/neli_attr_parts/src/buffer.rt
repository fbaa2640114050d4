//! Bytes that a value owns.

ghost use Rattle.std.specs.Prelude.{◌≡◌, ◌<◌, ◌++◌, ◌↔◌, ℕ, List, [], Ok, Err};
ghost use Rattle.std.specs.Prelude.{Some, IfOk, OnOk, OnErr, IsTrue, codes, length, nat_eq, refl};
ghost use Rattle.std.specs.Borrow.{sem};
ghost use Rattle.std.specs.Cmp.{partial_equiv_from_equiv};
ghost use Rattle.std.specs.Cmp.Lexicographic.{pointwise};
ghost use Rattle.std.proofs.lemmas.Cmp.{nat_list_eq_equiv};
ghost use Rattle.neli_wire.specs.laws.Reading.{read-never_short};
ghost use Rattle.neli_wire.specs.laws.Sizes.{unpadded-rounded, unpadded-zeros};
ghost use Rattle.neli_wire.specs.laws.Writing.{written-length, written-no_memory};
ghost use Rattle.neli_attr_parts.specs.Buffers.{LendsBytes};

use neli_list::TryClone;
use neli_wire::{Cursor, DeError, FromBytesWithInput, NoMemory, SerError, Size, ToBytes};
use std::alloc::Global;
use std::fmt;
use std::marker::Model;

/// Bytes that a value owns, such as the payload of an attribute. Contracts see them as a list.
#[derive(Drop)]
pub struct Buffer {
    bytes: Vec<u8>,
}

impl Model for Buffer {
    ghost use Rattle.std.specs.Prelude.{ℕ, List};

    ghost Value = { List ℕ };

    ghost view = { λ b. b.bytes.items };
}

impl Buffer {
    /// A buffer without bytes. It takes no memory.
    pub fn new(alloc: Global) -> Buffer
        ensures { result ≡ [] }
    {
        Buffer {
            bytes: Vec::new(alloc),
        }
    }

    /// A buffer that holds a copy of these bytes.
    ///
    /// Refused only if memory runs out, and never where there are no bytes.
    pub fn from_slice(alloc: Global, bytes: &[u8]) -> Result<Buffer, NoMemory>
        ensures value { IfOk result (λ b. b ≡ bytes.now) }
        ensures memory { OnErr result (0 < length bytes.now) }
    {
        if bytes.is_empty() {
            return Ok(Buffer::new(alloc));
        }
        Ok(Buffer {
            bytes: Vec::from_slice(alloc, bytes)?,
        })
    }

    /// Appends bytes.
    ///
    /// Refused only if memory runs out, and never where there are no bytes; then the buffer is as it was.
    pub fn extend_from_slice(&mut self, bytes: &[u8]) -> Result<(), NoMemory>
        ensures ok { OnOk result (self.new ≡ self.old ++ bytes.now) }
        ensures unchanged { OnErr result (self.new ≡ self.old) }
        ensures memory { OnErr result (0 < length bytes.now) }
    {
        if !bytes.is_empty() {
            self.bytes.extend_from_slice(bytes)?;
        }
        Ok(())
    }

    /// The number of bytes.
    pub fn len(&self) -> usize
        ensures { result ≡ length self.now }
    {
        self.bytes.len()
    }

    /// Whether the buffer holds no byte.
    pub fn is_empty(&self) -> bool
        ensures { IsTrue result ↔ (self.now ≡ []) }
    {
        self.bytes.is_empty()
    }

    /// The bytes, lent.
    pub fn as_ref(&self) -> &[u8]
        ensures { result.now ≡ self.now }
    {
        self.bytes.as_slice()
    }

    /// The bytes, lent mutably.
    pub fn as_mut(&mut self) -> &mut [u8]
        ensures* writes_back { sem 𝓛 (LendsBytes self.entry result) }
        ensures value { result.now ≡ self.old }
    {
        self.bytes.as_mut_slice()
    }

    /// A buffer that holds the same bytes.
    ///
    /// Refused only if memory runs out, and never where the buffer is empty.
    pub fn try_clone(&self) -> Result<Buffer, NoMemory>
        ensures value { IfOk result (λ b. b ≡ self.now) }
        ensures memory { OnErr result (0 < length self.now) }
    {
        Buffer::from_slice(*self.bytes.allocator(), self.as_ref())
    }
}

impl TryClone for Buffer {
    ghost copy_takes_memory = { λ bytes. 0 < length bytes };

    fn try_clone(&self) -> Result<Buffer, NoMemory> {
        Buffer::try_clone(self)
    }
}

impl From<Vec<u8>> for Buffer {
    ghost from_gives = { λ bytes buffer. buffer ≡ bytes.items };

    /// The buffer takes over the bytes, without memory.
    fn from(bytes: Vec<u8>) -> Buffer {
        Buffer { bytes }
    }
}

impl From<Buffer> for Vec<u8> {
    ghost from_gives = { λ buffer bytes. bytes.items ≡ buffer };

    /// The list takes over the bytes, without memory.
    fn from(buffer: Buffer) -> Vec<u8> {
        let Buffer { bytes } = buffer;
        bytes
    }
}

impl fmt::Debug for Buffer {
    ghost debug_output = { λ _. Some (codes "Buffer") };

    fn fmt<W: fmt::Write>(&self, f: &mut fmt::Formatter<W>) -> fmt::Result {
        write!(f, "Buffer")
    }
}

impl PartialEq for Buffer {
    ghost eq = { pointwise nat_eq };

    ghost laws = { partial_equiv_from_equiv nat_list_eq_equiv };

    fn eq(&self, other: &Buffer) -> bool {
        self.bytes == other.bytes
    }
}

impl Eq for Buffer {
    ghost laws = { nat_list_eq_equiv };
}

impl Size for Buffer {
    ghost unpadded_length = { length };

    ghost wire_length = { length };

    ghost rounded = { unpadded-rounded length };

    fn unpadded_size(&self) -> usize {
        self.len()
    }

    fn written_size(&self) -> usize {
        self.len()
    }
}

impl ToBytes for Buffer {
    ghost wire = { λ bytes. Ok bytes };

    ghost length_is = { λ held bytes e. written-length held bytes (length held) refl e };

    ghost zeros_after = { λ held bytes e. unpadded-zeros (length held) bytes
        (written-length held bytes (length held) refl e) };

    ghost no_memory = { written-no_memory };

    fn to_bytes(&self, buffer: &mut Vec<u8>) -> Result<(), SerError> {
        buffer.extend_from_slice(self.as_ref())?;
        Ok(())
    }
}

impl FromBytesWithInput for Buffer {
    ghost Value = { List ℕ };

    ghost view = { λ bytes. bytes };

    ghost read = { λ bytes. Ok bytes };

    ghost takes_memory = { λ bytes. 0 < length bytes };

    ghost no_memory = { λ bytes e. Prim.cc };

    ghost never_short = { read-never_short };

    /// Takes the next `n` bytes as they are. It takes memory only if `n` is above 0.
    fn from_bytes_with_input(
        alloc: Global,
        cursor: &mut Cursor<'_>,
        n: usize,
    ) -> Result<Buffer, DeError> {
        if n == 0 {
            return Ok(Buffer::new(alloc));
        }
        let bytes = Vec::from_slice(alloc, cursor.input(n)?)?;
        cursor.advance(n);
        Ok(Buffer { bytes })
    }
}
