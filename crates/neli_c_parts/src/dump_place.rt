//! A place for a dump that C can hold: a pointer whose type names nothing that C may not see.

ghost use Rattle.std.specs.Prelude.{◌≡◌, Option, Some, None, IsSome};
ghost use Rattle.neli_c_parts.specs.declared.dumping.Dumping.{Dumping};
ghost use Rattle.std.specs.Coded.{coded_option};
ghost use Rattle.neli_c_parts.specs.contracts.dumping.Dumping.{the_row};
ghost use Rattle.neli_loose.specs.Places.{owned};

use crate::dumping::Dumping;
use neli_loose::loose::Loose;
use std::alloc::Global;
use std::marker::Model;

/// A dump on the heap, or none.
///
/// Letting one go that has a dump forgets the dump's memory: take it out first.
#[repr(C)]
#[derive(Drop)]
pub struct DumpPlace {
    at: *mut (),
    alloc: Global,
    pub ghost value: { Option Dumping } by { coded_option the_row.coded },
}

impl Model for DumpPlace {
    ghost also_owns = { λ p. owned the_row p.alloc p.at p.value };
}

impl DumpPlace {
    /// No dump.
    pub fn empty(alloc: Global) -> DumpPlace
        ensures { result.value ≡ None }
    {
        let at: *mut Dumping = std::ptr::null_mut();
        DumpPlace {
            at: at as *mut (),
            alloc,
        }
    }

    /// This dump.
    pub fn of(loose: Loose<Dumping, Global>) -> DumpPlace
        ensures { result.value ≡ Some loose.value }
    {
        let Loose { at, alloc } = loose;
        DumpPlace {
            at: at as *mut (),
            alloc,
        }
    }

    /// The dump that is here.
    pub fn into_loose(self) -> Loose<Dumping, Global>
        requires { IsSome self.value }
        ensures { self.value ≡ Some result.value }
    {
        let DumpPlace { at, alloc } = self;
        Loose {
            at: at as *mut Dumping,
            alloc,
        }
    }
}
