//! Where the rows of a section most likely stand, by their numbers.

use crate::Line;
use crate::bits::mask_of;
use crate::way::is_row;
use std::alloc::{AllocError, Global};

/// Rows with numbers below this are noted.
const MOST: u64 = 512;

/// For each section the places of its rows with small numbers, so that a row is found without a search.
///
/// A place may be wrong, so whoever looks one up compares the row that is there.
#[derive(Drop)]
pub struct Likely {
    /// For each line, where the places of its section begin.
    starts: Vec<usize>,
    /// The places, each by its row's number from the start of its section on; 0 where no row has that number.
    places: Vec<usize>,
}

impl Likely {
    /// The places of the rows among these lines. Refused where memory runs out.
    pub fn of(alloc: Global, lines: &[Line<'_>]) -> Result<Likely, AllocError> {
        let mut likely = Likely {
            starts: Vec::with_capacity(alloc, lines.len())?,
            places: Vec::new(alloc),
        };
        let mut start = 0;
        for (place, line) in lines.iter().enumerate() {
            if is_row(line.word) {
                likely.note(start, mask_of(line), place)?;
            } else {
                start = likely.places.len();
            }
            likely.starts.push(start)?;
        }
        Ok(likely)
    }

    /// Notes the place of a row with this number, where none before it has the number.
    fn note(&mut self, start: usize, number: u64, place: usize) -> Result<(), AllocError> {
        if number >= MOST {
            return Ok(());
        }
        let at = start.saturating_add(number as usize);
        if self.places.len() <= at {
            self.places.resize(at.saturating_add(1), 0)?;
        }
        if let Some(kept) = self.places.get_mut(at) {
            if *kept == 0 {
                *kept = place;
            }
        }
        Ok(())
    }

    /// Where the row of the section at this place that has this number most likely stands.
    #[inline(always)]
    pub fn place(&self, section: usize, number: u64) -> usize {
        let start = match self.starts.get(section) {
            Some(start) => *start,
            None => 0,
        };
        match self.places.get(start.saturating_add(number as usize)) {
            Some(place) => *place,
            None => 0,
        }
    }
}
