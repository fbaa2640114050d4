//! The case that a choice picks.

use neli_tables::{Kind, Table};
use neli_tables_walk::{Width, number_in, without_zero};

/// The number that one to eight bytes are.
fn number_of(bytes: &[u8], is_big: bool) -> Option<u64> {
    let width = Width {
        size: bytes.len(),
        is_big,
        is_signed: false,
    };
    Some(number_in(width, bytes)?.bits)
}

/// The place of the case of a choice that the payload of an attribute of this kind picks.
pub(crate) fn case_of(
    table: &Table<'_>,
    choice: usize,
    kind: Option<Kind>,
    bytes: &[u8],
) -> Option<usize> {
    let number = match kind {
        Some(Kind::Text | Kind::Ztext) => return table.case(choice, without_zero(bytes)),
        Some(Kind::Be16 | Kind::Be32 | Kind::Be64 | Kind::Sbe32) => number_of(bytes, true),
        _ => number_of(bytes, false),
    };
    match number {
        Some(number) => table.row(choice, number),
        None => table.rest(choice),
    }
}
