//! What became of an object.

ghost use Rattle.std.specs.Prelude.{◌≡◌};
ghost use Rattle.std.specs.Option.{option_copied};
ghost use Rattle.neli_cache.specs.Changes.{change_of};

/// What became of an object.
#[derive(Clone, Copy, Debug, PartialEq, Eq)]
pub enum Change {
    /// It was not there before.
    New,
    /// It was there before with other bytes.
    Changed,
    /// It is not there any more.
    Gone,
}

impl Change {
    /// What became of an object that was these bytes, and now is those; none where they are the same.
    pub fn between(before: Option<&[u8]>, now: Option<&[u8]>) -> Option<Change>
        ensures { result ≡ change_of (option_copied before.entry) (option_copied now.entry) }
    {
        match before {
            None => match now {
                None => None,
                Some(_) => Some(Change::New),
            },
            Some(before) => match now {
                None => Some(Change::Gone),
                Some(now) if now == before => None,
                Some(_) => Some(Change::Changed),
            },
        }
    }
}
