//! Bodies of routing netlink: links, their addresses and their neighbours; routes, queueing disciplines, rules, and
//! requests by family only.
//!
//! Each is a header of fixed size and a list of attributes ([`neli_attr::RtBuffer`]):
//!
//! ```text
//!  0                     size           n
//!  +---------------------+---- - - - - -+
//!  | fields of the header| attributes   |
//!  +---------------------+---- - - - - -+
//! ```
//!
//! - [`Ifinfomsg`], 16 bytes: a link. [`Ifaddrmsg`], 8 bytes: an address. [`Ndmsg`], 12 bytes: a neighbour.
//! - [`Rtmsg`], 12 bytes: a route. [`Tcmsg`], 20 bytes: a queueing discipline, a class or a filter.
//! - [`Fibmsg`], 12 bytes: a rule. [`Rtgenmsg`], 4 bytes: a request by family only.
//! - [`NdaCacheinfo`], [`IflaVlanFlags`], [`IflaVlanQosMapping`]: payloads of fixed size, without attributes.
//!
//! Those with attributes are one type, [`Body`], over a header and a type of attributes. `body.rt` has copying,
//! comparing, printing, reading and writing; each body's own file has its fields, their getters and its builder. A body
//! of your own is the same type over [`Fields`] of your own.
//!
//! A read takes the number of the body's bytes: `InvalidInput` of it if they are fewer than the header's, then the
//! refusal of the attributes. Bytes without a meaning are kept, whatever their value, and written as they were.
//! `specs/` has a page for each type, with its fields by their places.
#![tactic(auto)]

mod body;
mod fibmsg;
mod ifaddrmsg;
mod ifinfomsg;
mod ifla_vlan_flags;
mod ifla_vlan_qos_mapping;
pub mod laws;
mod nda_cacheinfo;
mod ndmsg;
mod rtgenmsg;
mod rtmsg;
mod tcmsg;

pub use body::{Body, Fields};
pub use fibmsg::{Fibmsg, FibmsgBuilder, FibmsgBuilderError};
pub use ifaddrmsg::{Ifaddrmsg, IfaddrmsgBuilder, IfaddrmsgBuilderError};
pub use ifinfomsg::{Ifinfomsg, IfinfomsgBuilder, IfinfomsgBuilderError};
pub use ifla_vlan_flags::{IflaVlanFlags, IflaVlanFlagsBuilder, IflaVlanFlagsBuilderError};
pub use ifla_vlan_qos_mapping::{
    IflaVlanQosMapping, IflaVlanQosMappingBuilder, IflaVlanQosMappingBuilderError,
};
pub use nda_cacheinfo::{NdaCacheinfo, NdaCacheinfoBuilder, NdaCacheinfoBuilderError};
pub use ndmsg::{Ndmsg, NdmsgBuilder, NdmsgBuilderError};
pub use rtgenmsg::{Rtgenmsg, RtgenmsgBuilder, RtgenmsgBuilderError};
pub use rtmsg::{Rtmsg, RtmsgBuilder, RtmsgBuilderError};
pub use tcmsg::{Tcmsg, TcmsgBuilder, TcmsgBuilderError};
