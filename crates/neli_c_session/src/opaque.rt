//! The form in which C holds a session.

ghost use Rattle.std.specs.Prelude.{◌≡◌, Option, Some, None, true, false, is_some, option_map};
ghost use Rattle.std.specs.Borrow.{sem};

use crate::place::Place;
use neli_loose::loose::Loose;
use neli_session::Session;
use std::alloc::Global;
use std::mem::replace;

/// A session, or none. All its bytes 0 is none.
#[repr(C)]
#[derive(Drop)]
pub struct NeliSession {
    is_open: bool,
    pub place: Place,
    ghost has: { is_open ≡ is_some place.value },
}

impl NeliSession {
    ghost use Rattle.neli_c_session.specs.Places.{IsLeft};

    fn closed(alloc: Global) -> NeliSession
        ensures { result.place.value ≡ None }
    {
        NeliSession {
            is_open: false,
            place: Place::empty(alloc),
        }
    }

    /// Removes the session, if there is one.
    pub fn take(&mut self, alloc: Global) -> Option<Box<Session, Global>>
        ensures taken { option_map (λ b. b.value) result ≡ self.old.place.value }
        ensures left { self.new.place.value ≡ None }
    {
        let NeliSession { is_open, place } = replace(self, NeliSession::closed(alloc));
        if is_open {
            Some(place.into_loose().into_box())
        } else {
            None
        }
    }

    /// Puts a session in.
    pub fn put(&mut self, session: Box<Session, Global>)
        requires { self.old.place.value ≡ None }
        ensures { self.new.place.value ≡ Some session.value }
    {
        *self = NeliSession {
            is_open: true,
            place: Place::of(Loose::of(session)),
        };
    }

    /// The session where it is, if there is one; it stays as it is.
    pub fn lend<'r>(&'r mut self) -> Option<&'r Session>
        ensures* same { sem 𝓛 (IsLeft self.entry) }
        ensures lent { option_map (λ s. s.now) result ≡ self.old.place.value }
    {
        if self.is_open {
            Some(self.place.lend())
        } else {
            None
        }
    }
}
