//! Payloads of attributes of links, addresses and routes: hardware addresses, counters, cache entries, next hops and
//! the settings of virtual functions.
//!
//! - [`HardwareAddress`]: the payload of `Ifla::Address`, `Ifla::Broadcast` and `Nda::Lladdr`, also printed and read as
//!   text.
//! - [`LinkStats64`]: the counters of a link, the payload of `Ifla::Stats64`.
//! - [`IfaCacheinfo`] and [`RtaCacheinfo`]: the lifetimes of an address, and the cache entry of a route.
//! - [`NextHops`]: a walk over the next hops of a route that has several, the payload of `Rta::Multipath`.
//! - [`VfSetting`], [`VfRate`], [`VfVlan`], [`VfVlanInfo`], [`VfMac`] and [`VfGuid`]: the settings of a virtual
//!   function of a link, the payloads of `IflaVf`. That of `IflaVf::Broadcast` is a [`HardwareAddress`].
//! - [`laws`]: what is written is read back, and where two values are equal.
//!
//! `specs/` has a page for each type, with its bytes.
#![tactic(auto)]

mod hardware_address;
mod hardware_text;
mod ifa_cacheinfo;
pub mod laws;
mod link_stats64;
mod next_hops;
mod rta_cacheinfo;
mod vf_guid;
mod vf_mac;
mod vf_rate;
mod vf_setting;
mod vf_vlan;
mod vf_vlan_info;

pub use hardware_address::HardwareAddress;
pub use hardware_text::HardwareAddressError;
pub use ifa_cacheinfo::IfaCacheinfo;
pub use link_stats64::LinkStats64;
pub use next_hops::{NextHop, NextHops};
pub use rta_cacheinfo::RtaCacheinfo;
pub use vf_guid::VfGuid;
pub use vf_mac::VfMac;
pub use vf_rate::VfRate;
pub use vf_setting::VfSetting;
pub use vf_vlan::VfVlan;
pub use vf_vlan_info::VfVlanInfo;
