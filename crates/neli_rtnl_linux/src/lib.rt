//! Bodies and payloads of routing netlink that the Rust crate lacks: next hops, the multicast groups of bridges, the
//! statistics of links, neighbour tables, the counters of queueing disciplines, and their handles.
//!
//! A body is a header of fixed size and a list of attributes ([`neli_attr::RtBuffer`]): [`neli_rtnl::Body`] over both.
//!
//! - [`Nhmsg`], 8 bytes: a next hop. [`BrPortMsg`], 8 bytes: the multicast groups of a bridge. [`IfStatsMsg`], 12
//!   bytes: the statistics of a link. [`Ndtmsg`], 4 bytes: a neighbour table.
//! - [`GnetStatsBasic`] and [`GnetStatsQueue`]: payloads in `Tca::Stats2`, the counters of a queueing discipline.
//! - [`TcHandle`]: a handle of traffic control, which prints as `tc` prints it.
//! - [`laws`]: what is written is read back, and where two values are equal.
//!
//! A read of a body takes the number of its bytes: `InvalidInput` of it if they are fewer than the header's, then the
//! refusal of the attributes. Bytes without a meaning are kept, whatever their value, and written as they were.
//! `specs/` has a page for each type, with its fields by their places.
#![tactic(auto)]

mod br_port_msg;
mod gnet_stats_basic;
mod gnet_stats_queue;
mod if_stats_msg;
pub mod laws;
mod ndtmsg;
mod nhmsg;
mod tc_handle;

pub use br_port_msg::{BrPortMsg, BrPortMsgHeader};
pub use gnet_stats_basic::GnetStatsBasic;
pub use gnet_stats_queue::GnetStatsQueue;
pub use if_stats_msg::{IfStatsMsg, IfStatsMsgHeader};
pub use ndtmsg::{Ndtmsg, NdtmsgHeader};
pub use nhmsg::{Nhmsg, NhmsgHeader};
pub use tc_handle::TcHandle;
