//! A delivery on its way to a list.

ghost use Rattle.std.specs.Prelude.{◌≤◌, length};

use neli_deliveries::Delivery;
use std::collections::LinkedList;

/// A delivery for a number, in a list of its own.
#[derive(Drop)]
pub(crate) struct Piece {
    pub(crate) number: u32,
    pub(crate) list: LinkedList<Delivery>,
    ghost single: { length list ≤ 1 },
}
