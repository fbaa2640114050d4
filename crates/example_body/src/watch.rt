//! A port and its watched levels.

ghost use Rattle.std.specs.Prelude.{◌≡◌, ◌+◌, ◌<◌, ℕ, List, Ok, Err, IfOk, IfErr, OnOk, OnErr, length, take};
ghost use Rattle.neli.specs.wire.Place.{whole};
ghost use Rattle.neli.specs.wire.Refusals.{Refuses};
ghost use Rattle.neli.specs.wire.Writing.{RefusesWrite, append_wire};
ghost use Rattle.example_body.specs.Watch.{Seen, seen, watch_wire, watch_size};
ghost use Rattle.example_body.specs.Watch.{watch_fields, watch_takes_memory, watch_of};
ghost use Rattle.example_body.specs.laws.Watch.{watch_wire-length, watch_wire-no_memory};
ghost use Rattle.example_body.specs.laws.Watch.{watch_of-no_memory, watch_of-never_short};

use neli::err::{DeError, SerError};
use neli::implementing::{read_all, undo_on_refusal, within_input};
use neli::{Cursor, FromBytes, FromBytesWithInput, Size, ToBytes};
use std::alloc::Global;

/// A port and its watched levels: 2 bytes, and then 4 for each level.
#[derive(Debug, Drop)]
pub struct Watch {
    pub port: u16,
    pub levels: Vec<u32>,
}

impl Size for Watch {
    ghost use Rattle.example_body.specs.Watch.{watch_size};
    ghost use Rattle.neli.specs.wire.laws.Sizes.{unpadded-rounded};

    ghost unpadded_length = { watch_size };

    ghost wire_length = { watch_size };

    ghost rounded = { unpadded-rounded watch_size };

    fn unpadded_size(&self) -> usize {
        self.port
            .written_size()
            .saturating_add(self.levels.written_size())
    }

    fn written_size(&self) -> usize {
        self.unpadded_size()
    }
}

/// Appends the port and the levels. A refusal leaves some of them after what was there.
#[tactic(auto, using(neli::specs::laws::Writing::append_wire_both))]
fn write_fields(watch: &Watch, buffer: &mut Vec<u8>) -> Result<(), SerError>
    ensures appended { OnOk result (append_wire buffer.old.items (watch_wire watch.now)
        ≡ Ok buffer.new.items) }
    ensures refused { IfErr result (RefusesWrite (watch_wire watch.now)) }
    ensures front { OnErr result (take (length buffer.old.items) buffer.new.items
        ≡ buffer.old.items) }
{
    watch.port.to_bytes(buffer)?;
    watch.levels.to_bytes(buffer)
}

impl ToBytes for Watch {
    ghost use Rattle.neli.specs.wire.laws.Sizes.{unpadded-zeros};

    ghost wire = { watch_wire };

    ghost length_is = { watch_wire-length };

    ghost zeros_after = { λ w bytes e.
        unpadded-zeros (watch_size w) bytes (watch_wire-length w bytes e) };

    ghost no_memory = { watch_wire-no_memory };

    fn to_bytes(&self, buffer: &mut Vec<u8>) -> Result<(), SerError> {
        let start = buffer.len();
        let outcome = write_fields(self, buffer);
        undo_on_refusal(buffer, start, outcome)
    }
}

/// Reads the port and the levels from all of the bytes.
#[tactic(auto, using(neli::specs::laws::Reading::refused_first), unfolding(crate::specs::Watch::watch_fields, crate::specs::Watch::watch_takes_memory))]
fn read_fields(alloc: Global, bytes: &[u8]) -> Result<Watch, DeError>
    ensures value { IfOk result (λ w. watch_fields bytes.now ≡ Ok (seen w)) }
    ensures refused { IfErr result
        (Refuses (watch_fields bytes.now) (watch_takes_memory bytes.now)) }
{
    let mut cursor = Cursor::new(bytes);
    let port = u16::from_bytes(alloc, &mut cursor)?;
    let levels = read_all(alloc, cursor.rest())?;
    Ok(Watch { port, levels })
}

impl FromBytesWithInput for Watch {
    ghost Value = { Seen };

    ghost view = { seen };

    ghost read = { watch_of };

    ghost takes_memory = { watch_takes_memory };

    ghost no_memory = { watch_of-no_memory };

    ghost never_short = { watch_of-never_short };

    fn from_bytes_with_input(
        alloc: Global,
        cursor: &mut Cursor<'_>,
        n: usize,
    ) -> Result<Watch, DeError> {
        let bytes = cursor.input(n)?;
        match read_fields(alloc, bytes) {
            Ok(watch) => {
                cursor.advance(n);
                Ok(watch)
            }
            Err(error) => Err(within_input(error, n)),
        }
    }
}
