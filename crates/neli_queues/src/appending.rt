//! Appends pieces to the lists.

ghost use Rattle.std.specs.Prelude.{◌≡◌, ◌+◌, ◌<◌, ◌^◌, ◌++◌, ℕ, List, Some, IsTrue, length, nat_eq, option_map};
ghost use Rattle.std.specs.HashMap.{get};
ghost use Rattle.neli_deliveries.specs.declared.delivery.Delivery.{Delivery as Waiting};
ghost use Rattle.neli_queues.specs.Pieces.{HaveRoom, deliveries_for, share};

use crate::piece::Piece;
use neli_deliveries::Delivery;
use std::collections::{HashMap, LinkedList};

/// The deliveries that wait for each open number.
pub(crate) type Numbers = HashMap<u32, LinkedList<Delivery>>;

/// No list can be this long.
const LIMIT: usize = 0x8000_0000_0000_0000;

/// Whether each list has room for all the pieces that go to it.
pub(crate) fn have_room(numbers: &Numbers, pieces: &[Piece]) -> bool
    ensures { IsTrue result → HaveRoom (get nat_eq numbers.now) pieces.now }
{
    for piece in pieces {
        if let Some(list) = numbers.get(&piece.number) {
            if LIMIT <= list.len().saturating_add(pieces.len()) {
                return false;
            }
        }
    }
    true
}

/// Appends a piece to the list of its number, if that is open.
fn append_piece(numbers: &mut Numbers, piece: Piece)
    requires { (ds : List Waiting) → get nat_eq numbers.old piece.number ≡ Some ds
        → 0 < length piece.list → length ds + length piece.list < 2 ^ 63 }
    ensures { (q : ℕ) → get nat_eq numbers.new q
        ≡ option_map (λ ds. ds ++ share q piece) (get nat_eq numbers.old q) }
{
    let Piece { number, mut list } = piece;
    if let Some(waiting) = numbers.get_mut(&number) {
        let _ = waiting.append(&mut list);
    }
}

/// Appends all pieces to the lists of their numbers, in order.
pub(crate) fn append_all(numbers: &mut Numbers, pieces: Vec<Piece>)
    requires { HaveRoom (get nat_eq numbers.old) pieces.items }
    ensures { (q : ℕ) → get nat_eq numbers.new q
        ≡ option_map (λ ds. ds ++ deliveries_for q pieces.items) (get nat_eq numbers.old q) }
{
    for piece in pieces {
        append_piece(numbers, piece);
    }
}
