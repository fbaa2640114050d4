//! Places among entries.

/// The positions of the first and the last of some entries.
#[derive(Clone, Copy)]
pub(crate) struct Chain {
    pub(crate) first: u64,
    pub(crate) last: u64,
}

/// The place of a list: it waits for the entries from the position `from` on.
///
/// `chain` are the entries there that go to this list only, and `shared_passed` counts the entries for all numbers
/// before it, including removed ones.
#[derive(Clone, Copy)]
pub(crate) struct Place {
    pub(crate) from: u64,
    pub(crate) chain: Option<Chain>,
    pub(crate) shared_passed: u64,
}

/// An entry for all numbers: its position, and the number of places that wait for it before any other such entry.
#[derive(Clone, Copy)]
pub(crate) struct Shared {
    pub(crate) at: u64,
    pub(crate) readers: usize,
}
