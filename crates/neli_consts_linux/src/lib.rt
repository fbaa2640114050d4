//! Numbers of today's kernels that the Rust crate's tables do not have, by name.
//!
//! Each table is an enum with a variant for each name and `UnrecognizedConst` for every other number. A number is read
//! as the first variant that has it, and written from there as the same number, so none is lost. Two values are equal
//! where they are the same variant; a hand-made `UnrecognizedConst` with a named number is equal to no named variant.
//!
//! `From` goes both ways. By [`neli_wire::Constant`] each table is written as its number, and read
//! from it. A table of attributes has [`neli_consts_attrs::RtaType`] or [`neli_consts::NlAttrType`],
//! one of commands [`neli_consts::Cmd`], so attributes are looked up by it.
//!
//! The kernel's header and the prefix of its names stand with each table; a variant is spelled like the rest of the
//! kernel's name. The tables are those of Linux 6.1 with later names; an older kernel has fewer. [`CtrlCmd`] and
//! [`CtrlAttr`] are tables of the Rust crate with the names that it lacks.
//!
//! - `acknowledgements`: errors and acknowledgements
//! - `bonds`: bonds and the links in them
//! - `bridges`: bridges and their ports
//! - `controller`: the controller of generic netlink
//! - `families`: address families
//! - `groups`: multicast groups of routing
//! - `macvlans`: `macvlan` and `macvtap`
//! - `messages`: types of messages of routing
//! - `metrics`: metrics of routes
//! - `multicast`: multicast groups of bridges
//! - `neighbours`: neighbour tables
//! - `next_hops`: next hops of routes
//! - `policies`: the kernel's policies for the attributes that it takes
//! - `statistics`: statistics of links and of queueing disciplines
//! - `virtual_functions`: virtual functions of a link
//! - `vxlans`: VXLAN tunnels
#![tactic(auto)]

mod acknowledgements;
mod bonds;
mod bridges;
mod controller;
mod families;
mod groups;
pub mod laws;
mod macvlans;
mod messages;
mod metrics;
mod multicast;
mod neighbours;
mod next_hops;
mod policies;
mod statistics;
mod virtual_functions;
mod vxlans;

pub use acknowledgements::{NLMSGERR_ATTR_MISS_NEST, NLMSGERR_ATTR_MISS_TYPE};
pub use bonds::{IflaBond, IflaBondAdInfo, IflaBondSlave};
pub use bridges::{IflaBr, IflaBrport};
pub use controller::{CtrlAttr, CtrlAttrOp, CtrlAttrPolicy, CtrlCmd};
pub use families::{AF_BRIDGE, AF_MPLS};
pub use groups::Rtnlgrp;
pub use macvlans::IflaMacvlan;
pub use messages::{
    RTM_DELANYCAST, RTM_DELCHAIN, RTM_DELLINKPROP, RTM_DELMULTICAST, RTM_DELNETCONF,
    RTM_DELNEXTHOP, RTM_DELNEXTHOPBUCKET, RTM_DELTUNNEL, RTM_DELVLAN, RTM_GETCHAIN,
    RTM_GETLINKPROP, RTM_GETNEXTHOP, RTM_GETNEXTHOPBUCKET, RTM_GETSTATS, RTM_GETTUNNEL,
    RTM_GETVLAN, RTM_NEWANYCAST, RTM_NEWCACHEREPORT, RTM_NEWCHAIN, RTM_NEWLINKPROP,
    RTM_NEWMULTICAST, RTM_NEWNEXTHOP, RTM_NEWNEXTHOPBUCKET, RTM_NEWSTATS, RTM_NEWTUNNEL,
    RTM_NEWVLAN, RTM_SETSTATS,
};
pub use metrics::Rtax;
pub use multicast::Mdba;
pub use neighbours::Ndta;
pub use next_hops::{
    NexthopGrpType, Nha, NhaGroupStats, NhaGroupStatsEntry, NhaResBucket, NhaResGroup,
};
pub use policies::{NetlinkAttributeType, NlPolicyTypeAttr};
pub use statistics::{IflaStats, TcaStats};
pub use virtual_functions::IflaVf;
pub use vxlans::IflaVxlan;
