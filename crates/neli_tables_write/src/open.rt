//! The lists of a message that is being written: which one is open, and what options say that it has.

use crate::structure::size_of;
use neli_tables::{Kind, Options, Table};
use neli_tables_walk::Nest;

/// A list that is open.
#[derive(Clone, Copy, Debug)]
pub(crate) struct Open {
    /// What it has.
    pub(crate) nest: Nest,
    /// The place of the row of the nest, where it was opened by its name.
    pub(crate) row: Option<usize>,
    /// The index of the first that was asked for in it.
    pub(crate) first: usize,
}

impl Default for Open {
    fn default() -> Open {
        Open {
            nest: Nest::NONE,
            row: None,
            first: 0,
        }
    }
}

/// The list of attributes that options mean.
pub(crate) fn nest_of(table: &Table<'_>, options: &Options) -> Option<Nest> {
    match options.kind {
        Some(Kind::Nest | Kind::Hops) => Some(Nest {
            set: options.of?,
            after: options.after,
            header: size_of(table, options.after),
        }),
        _ => None,
    }
}
