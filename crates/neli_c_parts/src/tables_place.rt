//! A place for tables that C can hold: a pointer whose type names nothing that C may not see.

ghost use Rattle.std.specs.Prelude.{◌≡◌, Option, Some, None, IsSome};
ghost use Rattle.neli_c_parts.specs.declared.families.Families.{Families};
ghost use Rattle.std.specs.Coded.{coded_option};
ghost use Rattle.neli_c_parts.specs.contracts.families.Families.{the_row};
ghost use Rattle.neli_loose.specs.Places.{owned};

use crate::families::Families;
use neli_loose::loose::Loose;
use std::alloc::Global;
use std::marker::Model;

/// Tables on the heap, or none.
///
/// Dropping one that has tables leaks their memory: take them out first.
#[repr(C)]
#[derive(Drop)]
pub struct TablesPlace {
    at: *mut (),
    alloc: Global,
    pub ghost value: { Option Families } by { coded_option the_row.coded },
}

impl Model for TablesPlace {
    ghost also_owns = { λ p. owned the_row p.alloc p.at p.value };
}

impl TablesPlace {
    /// No tables.
    pub(crate) fn empty(alloc: Global) -> TablesPlace
        ensures { result.value ≡ None }
    {
        let at: *mut Families = std::ptr::null_mut();
        TablesPlace {
            at: at as *mut (),
            alloc,
        }
    }

    /// These tables.
    pub(crate) fn of(loose: Loose<Families, Global>) -> TablesPlace
        ensures { result.value ≡ Some loose.value }
    {
        let Loose { at, alloc } = loose;
        TablesPlace {
            at: at as *mut (),
            alloc,
        }
    }

    /// The tables that are here.
    pub(crate) fn into_loose(self) -> Loose<Families, Global>
        requires { IsSome self.value }
        ensures { self.value ≡ Some result.value }
    {
        let TablesPlace { at, alloc } = self;
        Loose {
            at: at as *mut Families,
            alloc,
        }
    }
}
