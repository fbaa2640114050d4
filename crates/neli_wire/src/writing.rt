//! Values that are written as bytes.

ghost use Rattle.std.specs.Prelude.{◌≡◌, ℕ, ◌++◌, ◌-◌, ◌<◌, ◌≤◌, List, Ok, Err, IfErr, OnOk, OnErr, length, take};
ghost use Rattle.neli_wire.specs.Sizes.{EndsInZeros, gap};
ghost use Rattle.neli_wire.specs.Writing.{Wire, RefusesWrite, append_wire, zeros_for};
ghost use Rattle.neli_wire.specs.declared.errors.SerError.TheVariants as ser;

use crate::{SerError, Size, alignto};
use std::alloc::AllocError;
use std::fmt::Debug;

/// A value that is written as bytes, called its wire bytes.
pub trait ToBytes: Size + Debug {
    // The bytes of a value, or why it has none.
    ghost wire: { Self → Wire };

    /// Appends the wire bytes of the value. A refusal leaves the buffer as it was.
    fn to_bytes(&self, buffer: &mut Vec<u8>) -> Result<(), SerError>
        ensures appended { OnOk result (append_wire buffer.old.items (wire self.now)
            ≡ Ok buffer.new.items) }
        ensures refused { IfErr result (RefusesWrite (wire self.now)) }
        ensures unchanged { OnErr result (buffer.new.items ≡ buffer.old.items) };

    /// Appends zeros until the length of the whole buffer is a multiple of four. Refused only if memory runs out; then
    /// the buffer is as it was.
    fn pad(&self, buffer: &mut Vec<u8>) -> Result<(), SerError>
        ensures padded { OnOk result (buffer.new.items
            ≡ buffer.old.items ++ zeros_for (length buffer.old.items)) }
        ensures memory { IfErr result (λ e. (e ≡ ser.Memory)
            × (0 < gap (length buffer.old.items))) }
        ensures unchanged { OnErr result (buffer.new.items ≡ buffer.old.items) }
    {
        pad_from(buffer, 0)?;
        Ok(())
    }

    // Wire bytes are as long as the written size says.
    ghost length_is: { (v : Self) (bytes : List ℕ) → wire v ≡ Ok bytes
        → length bytes ≡ Self.wire_length v };

    // After the unpadded size there are only zeros.
    ghost zeros_after: { (v : Self) (bytes : List ℕ) → wire v ≡ Ok bytes
        → EndsInZeros (Self.unpadded_length v) bytes };

    // The definition never refuses for lack of memory.
    ghost no_memory: { (v : Self) → wire v ≡ Err ser.Memory → ⊥ };
}

/// Appends zeros until the bytes from `start` on are a multiple of four; `start` is at most the buffer's length. A
/// refusal leaves the buffer as it was.
pub fn pad_from(buffer: &mut Vec<u8>, start: usize) -> Result<(), AllocError>
    requires { start ≤ length buffer.old.items }
    ensures ok { OnOk result (buffer.new.items
        ≡ buffer.old.items ++ zeros_for (length buffer.old.items - start)) }
    ensures unchanged { OnErr result (buffer.new.items ≡ buffer.old.items) }
    ensures memory { OnErr result (0 < gap (length buffer.old.items - start)) }
{
    let size = buffer.len() - start;
    let gap = alignto(size) - size;
    if gap == 0 {
        return Ok(());
    }
    buffer.extend_from_slice(&[0; 3][..gap])
}

/// Returns `outcome`; if it is a refusal, first removes what was appended from `start` on.
pub fn undo_on_refusal(
    buffer: &mut Vec<u8>,
    start: usize,
    outcome: Result<(), SerError>,
) -> Result<(), SerError>
    ensures outcome { result ≡ outcome }
    ensures ok { OnOk result (buffer.new.items ≡ buffer.old.items) }
    ensures undone { OnErr result (buffer.new.items ≡ take start buffer.old.items) }
{
    if outcome.is_err() {
        buffer.truncate(start);
    }
    outcome
}
