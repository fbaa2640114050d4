//! Lines that are the first with their keys.

ghost use Rattle.std.specs.Prelude.{◌≡◌, IfOk, IfSome, Some, map};
ghost use Rattle.neli_tables.specs.Lines.{line_view};
ghost use Rattle.neli_tables.specs.Index.{AreFirsts, Indexes, finds, is_first};

use crate::Line;
use crate::index::Index;
use crate::way::{Key, key_of, section_after};
use std::alloc::{AllocError, Global};

/// Of each line of a table its key, where it is the first with this key.
///
/// So a line that is looked for where it most likely stands is found without a search.
#[derive(Drop)]
pub struct Firsts {
    keys: Vec<Option<Key>>,
}

/// The key of a line that stands here, where it is the first with it.
fn first_key(index: &Index, place: usize, key: Option<Key>) -> Option<Key>
    ensures { IfSome result (λ key. finds index.now key ≡ Some place) }
{
    let key = key?;
    match index.find(key) {
        Some(first) if first == place => Some(key),
        _ => None,
    }
}

impl Firsts {
    /// The first lines among these, which an index has.
    pub fn of(alloc: Global, lines: &[Line<'_>], index: &Index) -> Result<Firsts, AllocError>
        requires { Indexes index.now (map line_view lines.now) }
        ensures { IfOk result (λ firsts. AreFirsts firsts (map line_view lines.now)) }
    {
        let mut keys = Vec::with_capacity(alloc, lines.len())?;
        let mut section = 0;
        for (place, line) in lines.iter().enumerate() {
            section = section_after(section, place, line.word);
            keys.push(first_key(index, place, key_of(section, line)))?;
        }
        Ok(Firsts { keys })
    }

    /// Whether the line at this place is the first with this key.
    pub fn has(&self, place: usize, key: Key) -> bool
        ensures { result ≡ is_first self.now place key }
    {
        match self.keys.get(place) {
            Some(Some(first)) => *first == key,
            _ => false,
        }
    }
}
