//! Laws: what the table of a cache is, whatever calls it has.

ghost use Rattle.neli_cache.specs.Differences.{ChangesAreToldOnce};
ghost use Rattle.neli_cache.specs.Histories.{CurrentIsTheFold, FoldIsTheLast, FreshAsItsList};

/// Messages that are folded leave of each object what the last one about it says: its payload, or that it is gone.
pub fn fold_is_the_last()
    ensures { FoldIsTheLast }
{}

/// Whatever calls a cache has, in any order, refused ones too: where it is current, its table has at each key what the
/// dump that was requested last says of it, and then what the notifications since that request say.
pub fn current_is_the_fold()
    ensures { CurrentIsTheFold }
{}

/// A cache is current, stale or being read as the list that it reads is, by what happened to it
/// ([`neli_session::laws::last_request_decides`]).
pub fn fresh_as_its_list()
    ensures { FreshAsItsList }
{}

/// From one table to the next, of each object what became of it is told once, and nothing where it is the same.
pub fn changes_are_told_once()
    ensures { ChangesAreToldOnce }
{}
