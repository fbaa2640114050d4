//! Reads the answers of the controller of generic netlink: the number of a family, the number of a multicast group, and
//! the names for the number of a group.
//!
//! - [`resolve_genl_family`], [`resolve_nl_mcast_group`], [`lookup_id`]: each takes the items of a request to the
//!   controller, as a router returns them.
//! - [`find_genl_family`], [`find_nl_mcast_group`]: the same for items that stay with the caller;
//!   [`find_genl_family_and_group`] returns both numbers of one reply.
//!
//! These calls send nothing and wait for nothing. The kernel's message has the family's name and number as attributes,
//! and a list of its groups, each of them again a list of attributes:
//!
//! ```text
//! FamilyName "nlctrl"
//! FamilyId   16
//! McastGroups
//!   1
//!     Name "notify"
//!     Id   5
//! ```
//!
//! `specs/Resolvers.antt` defines the result of each call, `specs/Attributes.antt` the reading of an attribute, and
//! `specs/Items.antt` the items.
#![tactic(auto)]

mod attributes;
mod groups;
mod items;
mod resolvers;
mod texts;

pub use items::{CtrlError, CtrlItem};
pub use resolvers::{
    find_genl_family, find_genl_family_and_group, find_nl_mcast_group, lookup_id,
    resolve_genl_family, resolve_nl_mcast_group,
};
