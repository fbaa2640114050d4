//! A message's attributes against its family's table, and the attribute at an offset.
//!
//! - [`check_as`]: the first attribute of a body that a parser of the kernel, the strict or the liberal one
//!   ([`Validation`]), does not allow, as before a request is sent; [`check`] by the one that reads such a message.
//! - [`find`]: the path to the attribute at an offset of a message, as an extended acknowledgement
//!   states it.
//! - [`Place`], [`PathText`]: a path that is printed by the names of the table, as
//!   `IFLA_LINKINFO.IFLA_INFO_DATA.IFLA_VLAN_ID`.
//! - [`Diagnosis`]: an error of the kernel by the request that it refused: also the value as it was sent, what the policy
//!   allows, and an attribute that is missing.
//! - [`Policies`]: what the running kernel states of its own policies, and a request against them.
//! - [`Refusal`]: an error of the kernel in one line: its name, the kernel's text, and the
//!   attribute of the request that it is about.
#![tactic(auto)]

mod cut;
mod diagnosis;
mod found;
mod listed;
mod offset;
mod place;
mod policies;
mod refusal;
mod row;
mod validation;
mod values;
mod violation;
mod wrong;

pub use diagnosis::Diagnosis;
pub use offset::find;
pub use place::{PathText, Place};
pub use policies::{Policies, Unmet};
pub use refusal::Refusal;
pub use validation::Validation;
pub use violation::{Violation, check, check_as, validation_of};
pub use wrong::Wrong;
