//! Values that can be copied.

ghost use Rattle.std.specs.Prelude.{◌≡◌, ◌<◌, IfOk, OnErr, length};

use crate::FrameList;
use neli_wire::NoMemory;

/// A value that can be copied if memory allows.
pub trait TryClone: Sized + Drop {
    // Where a copy takes memory.
    ghost copy_takes_memory: { Self → Type 0 };

    /// An equal value.
    ///
    /// Refused only if memory runs out, and only where a copy of the value takes some.
    fn try_clone(&self) -> Result<Self, NoMemory>
        ensures value { IfOk result (λ v. v ≡ self.now) }
        ensures memory { OnErr result (copy_takes_memory self.now) };
}

impl TryClone for () {
    ghost copy_takes_memory = { λ _. ⊥ };

    fn try_clone(&self) -> Result<(), NoMemory> {
        Ok(())
    }
}

impl<I: TryClone> TryClone for FrameList<I> {
    ghost copy_takes_memory = { λ list. 0 < length list };

    fn try_clone(&self) -> Result<Self, NoMemory> {
        FrameList::try_clone(self)
    }
}
