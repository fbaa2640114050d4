//! Where the lines of a table stand, by their keys.

ghost use Rattle.std.specs.Prelude.{◌≡◌, map, IfOk, OnOk, OnErr};
ghost use Rattle.neli_tables.specs.Lines.{line_view};
ghost use Rattle.neli_tables.specs.Index.{Indexes, finds, first_found};
ghost use Rattle.neli_tables.specs.RowKeys.{Key};

use crate::Line;
use crate::way::{Key, key_of, section_after};
use std::alloc::{AllocError, Global};
use std::collections::HashMap;

/// The first line with each key, by its place.
#[derive(Drop)]
pub struct Index {
    map: HashMap<Key, usize>,
}

impl Index {
    /// Where these lines stand.
    pub fn of(alloc: Global, lines: &[Line<'_>]) -> Result<Index, AllocError>
        ensures { IfOk result (λ index. Indexes index (map line_view lines.now)) }
    {
        let mut index = Index {
            map: HashMap::new(alloc),
        };
        let mut section = 0;
        for (place, line) in lines.iter().enumerate() {
            section = section_after(section, place, line.word);
            index.note(key_of(section, line), place)?;
        }
        Ok(index)
    }

    /// Notes that a line with this key, if it has one, stands here.
    fn note(&mut self, key: Option<Key>, place: usize) -> Result<(), AllocError>
        ensures { OnOk result ((k : Key) → finds self.new k
            ≡ first_found (finds self.old k) k key place) }
    {
        match key {
            Some(key) => self.note_key(key, place),
            None => Ok(()),
        }
    }

    /// Notes that a line with this key stands here, where none before has it.
    fn note_key(&mut self, key: Key, place: usize) -> Result<(), AllocError>
        ensures { OnOk result ((k : Key) → finds self.new k
            ≡ first_found (finds self.old k) k (Some key) place) }
    {
        if let Some(_first) = self.find(key) {
            return Ok(());
        }
        self.map.insert(key, place)?;
        Ok(())
    }

    /// The place of the first line with this key.
    pub fn find(&self, key: Key) -> Option<usize>
        ensures { result ≡ finds self.now key }
    {
        self.map.get(&key).copied()
    }
}
