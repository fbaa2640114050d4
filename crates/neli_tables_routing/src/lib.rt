//! Tables of routing and traffic control, as texts.
//!
//! Written by `tables/into-crates`.
//! [`RoutingTable`] names them. `read_table` of `neli_tables` reads them (docs/TABLES.md).
#![tactic(auto)]

mod rt_addr;
mod rt_addrlabel;
mod rt_bridge;
mod rt_dcb;
mod rt_link;
mod rt_neigh;
mod rt_netconf;
mod rt_nsid;
mod rt_prefix;
mod rt_report;
mod rt_route;
mod rt_rule;
mod rt_tunnel;
mod table;
mod tc;

pub use table::RoutingTable;
