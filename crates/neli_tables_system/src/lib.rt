//! Tables of filters, sockets, IPsec, processes and every protocol, as texts.
//!
//! Written by `tables/into-crates`.
//! [`SystemTable`] names them. `read_table` of `neli_tables` reads them (docs/TABLES.md).
#![tactic(auto)]

mod conntrack;
mod ipset;
mod nflog;
mod nfqueue;
mod nftables;
mod nlmsg;
mod proc_event;
mod sock_diag;
mod table;
mod xfrm;

pub use table::SystemTable;
