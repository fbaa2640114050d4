//! Structures, before their fields are set.

ghost use Rattle.std.specs.Prelude.{◌≡◌, ◌≤◌, IfOk, length};

use crate::MAX_PAYLOAD;
use neli_tables::Table;
use std::alloc::{AllocError, Global};

/// The size in bytes of the structure at this place, at most 65531; 0 where there is none.
pub(crate) fn size_of(table: &Table<'_>, structure: Option<usize>) -> usize
    ensures { result ≤ 65531 }
{
    let Some(place) = structure else {
        return 0;
    };
    match table.line(place) {
        Some(line) => match line.span {
            Some(span) => (span.first as usize).min(MAX_PAYLOAD),
            None => 0,
        },
        None => 0,
    }
}

/// So many zeros.
pub(crate) fn zeros(alloc: Global, size: usize) -> Result<Vec<u8>, AllocError>
    ensures { IfOk result (λ bytes. length bytes.items ≡ size) }
{
    let mut bytes = Vec::new(alloc);
    bytes.resize(size, 0)?;
    Ok(bytes)
}
