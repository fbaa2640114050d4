//! Laws over the definitions alone. The function does nothing: its contract is the laws.

ghost use Rattle.neli_wire.specs.Constants.{IsEquality};

use crate::ExitStatus;

/// `==` of exit statuses is true exactly where the two are equal.
pub fn equality()
    ensures exit_status { IsEquality ⟦<ExitStatus as PartialEq>⟧.eq }
{}
