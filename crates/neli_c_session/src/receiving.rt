//! What comes from the link.

ghost use Rattle.std.specs.Prelude.{◌≡◌};
ghost use Rattle.neli_c_session.specs.Calls.{FallsQuiet, TakesFault, TakesIn};

use neli_c_parts::code::{MEMORY, OK};
use neli_session::Session;

/// Takes in a datagram of a group, or of none; `taken` is how many of its bytes were taken in.
pub fn receive(
    session: &mut Session,
    bytes: &[u8],
    group: u32,
    is_joined: bool,
    taken: &mut usize,
) -> i32
    ensures { TakesIn result bytes.now group is_joined session.old session.new taken.new }
{
    match session.receive(bytes, group, is_joined) {
        Ok(()) => {
            *taken = bytes.len();
            OK
        }
        Err(untaken) => {
            *taken = untaken.taken;
            MEMORY
        }
    }
}

/// Notes a fault of the link.
pub fn fault(session: &mut Session, errno: i32) -> i32
    ensures { TakesFault result errno session.old session.new }
{
    match session.fault(errno) {
        Ok(()) => OK,
        Err(_) => MEMORY,
    }
}

/// Notes that the link was seen empty.
pub fn quiet(session: &mut Session)
    ensures { FallsQuiet session.old session.new }
{
    session.quiet();
}
