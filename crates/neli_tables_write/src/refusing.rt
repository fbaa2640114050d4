//! Refusals of a message that is being written: the path, and the nearest name.

use crate::names::nearest_row;
use crate::{Message, Refusal, Why};
use arrayvec::ArrayVec;
use neli_tables_walk::LineName;
use std::alloc::AllocError;

impl<'t> Message<'_, 't> {
    /// The refusal of a path, of which this name stands in this section of the table.
    pub(crate) fn refusal(
        &self,
        path: &str,
        section: Option<usize>,
        name: &str,
        why: Why,
    ) -> Refusal<'t> {
        match self.refusal_in(path, section, name, why) {
            Ok(refusal) => refusal,
            Err(AllocError) => Refusal::bare(self.alloc, Why::Memory),
        }
    }

    /// The same, where memory may run out.
    fn refusal_in(
        &self,
        path: &str,
        section: Option<usize>,
        name: &str,
        why: Why,
    ) -> Result<Refusal<'t>, AllocError> {
        let path = String::from_str(self.alloc, path)?;
        let nearest = match (why, section) {
            (Why::NoName, Some(section)) => {
                nearest_row(self.alloc, self.table, &[section], name.as_bytes())?
            }
            _ => None,
        };
        Ok(Refusal {
            path,
            why,
            nearest: nearest.map(|row| row.name),
        })
    }

    /// The refusal of this name in the innermost open list.
    pub(crate) fn refusal_here(&self, name: &str, why: Why) -> Refusal<'t> {
        match self.path_to(name) {
            Ok(path) => {
                let nearest = self.nearest_here(name, why);
                Refusal { path, why, nearest }
            }
            Err(AllocError) => Refusal::bare(self.alloc, Why::Memory),
        }
    }

    /// Where nothing here has this name, the nearest that an attribute or a field has; `None` too where memory runs out.
    fn nearest_here(&self, name: &str, why: Why) -> Option<&'t [u8]> {
        if why != Why::NoName {
            return None;
        }
        let mut sections = ArrayVec::<usize, 2>::new();
        if let Some(open) = self.levels.last() {
            sections.push(open.nest.set);
        }
        if let Some(structure) = self.innermost_structure() {
            sections.push(structure);
        }
        match nearest_row(self.alloc, self.table, &sections, name.as_bytes()) {
            Ok(nearest) => Some(nearest?.name),
            Err(AllocError) => None,
        }
    }

    /// The names of the open nests, from the outside in, and this name, with dots between them.
    fn path_to(&self, name: &str) -> Result<String, AllocError> {
        let mut path = String::new(self.alloc);
        for open in self.levels.iter() {
            let Some(row) = open.row else {
                continue;
            };
            let text = LineName {
                table: self.table,
                place: row,
            };
            path = if path.is_empty() {
                format!(in self.alloc; "{text}")?
            } else {
                format!(in self.alloc; "{path}.{text}")?
            };
        }
        if path.is_empty() {
            return String::from_str(self.alloc, name);
        }
        if name.is_empty() {
            return Ok(path);
        }
        format!(in self.alloc; "{path}.{name}")
    }
}
