//! Laws of reads, over the definitions only. The calls do nothing: their contracts are the laws.

ghost use Rattle.std.specs.Prelude.{◌≡◌, ◌++◌, ℕ, Bool, true, false, [], List, Some, length, drop};
ghost use Rattle.neli_answers.specs.declared.answering.Answering.{Answering as How};
ghost use Rattle.neli_deliveries.specs.declared.delivery.Delivery.{Delivery as Waiting};
ghost use Rattle.neli_deliveries.specs.Readings.{Item as Given};
ghost use Rattle.neli_router.specs.Rule.{has_number};
ghost use Rattle.neli_router.specs.Verdicts.{begun};
ghost use Rattle.neli_short_router.specs.Answers.{HasRead, IsAnswer};
ghost use Rattle.neli_short_router.specs.Reads.{AreReads, Stand};

use neli_consts::NlType;
use neli_wire::{FromBytesWithInput, Size};

/// The items that reads of an open handle return, one after another, are those of the reply rule: of the deliveries
/// that wait, read as the caller's types, all up to the answer's end, each once and in order; and the verdict is the
/// one on them, with whether the other side's last message is among those deliveries. So it is from any read on, where
/// some were before; and before the first read of a request it is.
pub fn reads_are_the_answer<T: NlType, P: FromBytesWithInput + Size>()
    ensures goes_on { (s t : Stand) (before given : List (Given T P)) (ds : List Waiting)
        → HasRead T.wire_number before s → s.waits ≡ Some ds
        → AreReads T.wire_value T.wire_number P.view P.wire_length P.read s given t
        → IsAnswer T.wire_value T.wire_number P.view P.wire_length P.read
        s.handle.needs_ack (has_number s.handle.number) s.heard before ds given t }
    ensures begins { (s : Stand) (answering : How) → s.handle.single_given ≡ false
        → s.handle.ended ≡ false → s.heard ≡ Some (begun answering) → HasRead {P = P} T.wire_number [] s }
{}
