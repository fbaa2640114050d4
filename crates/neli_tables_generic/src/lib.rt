//! Tables of families of generic netlink, as texts.
//!
//! Written by `tables/into-crates`.
//! [`GenericTable`] names them. `read_table` of `neli_tables` reads them (docs/TABLES.md).
#![tactic(auto)]

mod devlink;
mod dpll;
mod ethtool;
mod fou;
mod handshake;
mod ioam6;
mod ipvs;
mod l2tp;
mod macsec;
mod mptcp_pm;
mod netdev;
mod nfsd;
mod nl80211;
mod nlctrl;
mod ovs_datapath;
mod ovs_flow;
mod ovs_vport;
mod seg6;
mod table;
mod tcp_metrics;
mod team;
mod wireguard;

pub use table::GenericTable;
