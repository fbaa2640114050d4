//! A place for a session that C can hold: a pointer whose type names nothing that C may not see.

ghost use Rattle.std.specs.Prelude.{◌≡◌, Option, Some, None, IsSome};
ghost use Rattle.neli_session.specs.declared.session.Session.{Session};
ghost use Rattle.std.specs.Coded.{coded_option};
ghost use Rattle.neli_session.specs.contracts.session.Session.{the_row};
ghost use Rattle.neli_loose.specs.Places.{owned};
ghost use Rattle.std.specs.Borrow.{sem};

use neli_loose::loose::Loose;
use neli_session::Session;
use std::alloc::Global;
use std::marker::Model;

/// A session on the heap, or none.
///
/// Dropping one that has a session leaks the session's memory: take it out first.
#[repr(C)]
#[derive(Drop)]
pub struct Place {
    at: *mut (),
    alloc: Global,
    pub ghost value: { Option Session } by { coded_option the_row.coded },
}

impl Model for Place {
    ghost also_owns = { λ p. owned the_row p.alloc p.at p.value };
}

impl Place {
    ghost use Rattle.neli_c_session.specs.Places.{LendsSession};

    /// No session.
    pub fn empty(alloc: Global) -> Place
        ensures { result.value ≡ None }
    {
        let at: *mut Session = std::ptr::null_mut();
        Place {
            at: at as *mut (),
            alloc,
        }
    }

    /// This session.
    pub fn of(loose: Loose<Session, Global>) -> Place
        ensures { result.value ≡ Some loose.value }
    {
        let Loose { at, alloc } = loose;
        Place {
            at: at as *mut (),
            alloc,
        }
    }

    /// The session that is here.
    pub fn into_loose(self) -> Loose<Session, Global>
        requires { IsSome self.value }
        ensures { self.value ≡ Some result.value }
    {
        let Place { at, alloc } = self;
        Loose {
            at: at as *mut Session,
            alloc,
        }
    }

    /// The session that is here, where it is.
    pub fn lend(&mut self) -> &mut Session
        requires { IsSome self.old.value }
        ensures* writes_back { sem 𝓛 (LendsSession self.entry result) }
        ensures value { self.old.value ≡ Some result.now }
    {
        unsafe { &mut *(self.at as *mut Session) }
    }
}
