//! The resolvers' texts if nothing was found.

ghost use Rattle.std.specs.Prelude.{Some};
ghost use Rattle.neli_resolvers.specs.Resolvers.{no_family, no_group};

use std::fmt;

/// No family has this name.
#[derive(Clone, Copy)]
pub(crate) struct NoFamily<'a> {
    pub(crate) family: &'a str,
}

impl<'a> fmt::Display for NoFamily<'a> {
    ghost output = { λ t. Some (no_family t.family.now) };

    fn fmt<W: fmt::Write>(&self, f: &mut fmt::Formatter<W>) -> fmt::Result {
        let family = self.family;
        write!(f, "Generic netlink family {family} was not found")
    }
}

/// The family with this name has no group with that name.
#[derive(Clone, Copy)]
pub(crate) struct NoGroup<'a> {
    pub(crate) family: &'a str,
    pub(crate) group: &'a str,
}

impl<'a> fmt::Display for NoGroup<'a> {
    ghost output = { λ t. Some (no_group t.family.now t.group.now) };

    fn fmt<W: fmt::Write>(&self, f: &mut fmt::Formatter<W>) -> fmt::Result {
        let family = self.family;
        let group = self.group;
        write!(
            f,
            "Failed to resolve multicast group ID for family name {family}, multicast group name {group}"
        )
    }
}
