//! Messages that JSON asks for, written into the caller's bytes.

ghost use Rattle.std.specs.Prelude.{◌≡◌, IfSome, None};
ghost use Rattle.neli_c_parts.specs.Codes.{state};
ghost use Rattle.neli_c_parts.specs.JsonWritten.{WritesJson};

use neli_c_parts::code::STATE;
use neli_c_parts::tables_opaque::NeliTables;
use neli_c_parts::writing::write_json;
use std::alloc::Global;

/// Writes the message of this protocol that an object of JSON is (docs/WRITING.md), as one frame: its header, its
/// payload, and padding. The memory that it takes is freed again, and the tables are unchanged.
///
/// Returns `OK`, and `size` is how many bytes it has; `ROOM` if there is no room for all of them, and `size` is the
/// same; `VIOLATION` if it is refused, and then `out` has why, as much as there is room for, and `size` is how long
/// that is; `STATE` if the tables are closed; `LENGTH` if the length of the message passes 32 bits, or that text has
/// more bytes than a `usize` counts; or `MEMORY`. Without `OK` no message is written, and but at `OK`, `ROOM` and
/// `VIOLATION` `size` is as it was.
#[unsafe(no_mangle)]
pub extern "C" fn neli_c_write_json(
    alloc: Global,
    tables: &mut NeliTables,
    protocol: u16,
    json: &[u8],
    out: &mut [u8],
    size: &mut usize,
) -> i32
    ensures closed { tables.old.place.value ≡ None
        → (result ≡ state) × (out.new ≡ out.old) × (size.new ≡ size.old) }
    ensures open { IfSome tables.old.place.value (λ s. WritesJson result protocol json.now s
        out.old out.new size.old size.new) }
    ensures same { tables.new.place.value ≡ tables.old.place.value }
{
    let Some(families) = tables.take(alloc) else {
        return STATE;
    };
    let code = write_json(alloc, &families, protocol, json, out, size);
    tables.put(families);
    code
}
