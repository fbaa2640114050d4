//! The form in which C holds tables.

ghost use Rattle.std.specs.Prelude.{◌≡◌, Option, Some, None, true, false, is_some, option_map};

use crate::families::Families;
use crate::tables_place::TablesPlace;
use neli_loose::loose::Loose;
use std::alloc::Global;
use std::mem::replace;

/// Tables of families, or none. All its bytes 0 is none.
#[repr(C)]
#[derive(Drop)]
pub struct NeliTables {
    is_open: bool,
    pub place: TablesPlace,
    ghost has: { is_open ≡ is_some place.value },
}

impl NeliTables {
    fn closed(alloc: Global) -> NeliTables
        ensures { result.place.value ≡ None }
    {
        NeliTables {
            is_open: false,
            place: TablesPlace::empty(alloc),
        }
    }

    /// Removes the tables, if there are some.
    pub fn take(&mut self, alloc: Global) -> Option<Box<Families, Global>>
        ensures taken { option_map (λ b. b.value) result ≡ self.old.place.value }
        ensures left { self.new.place.value ≡ None }
    {
        let NeliTables { is_open, place } = replace(self, NeliTables::closed(alloc));
        if is_open {
            Some(place.into_loose().into_box())
        } else {
            None
        }
    }

    /// Puts tables in.
    pub fn put(&mut self, families: Box<Families, Global>)
        requires { self.old.place.value ≡ None }
        ensures { self.new.place.value ≡ Some families.value }
    {
        *self = NeliTables {
            is_open: true,
            place: TablesPlace::of(Loose::of(families)),
        };
    }
}
