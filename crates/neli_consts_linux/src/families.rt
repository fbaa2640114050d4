//! Address families that the tables of routing have no name for.

use neli_consts_routing::RtAddrFamily;

/// Bridges, their ports and their forwarding tables: `AF_BRIDGE` of `linux/socket.h`.
pub const AF_BRIDGE: RtAddrFamily = RtAddrFamily::UnrecognizedConst(7);

/// Labels of multiprotocol label switching: `AF_MPLS` of `linux/socket.h`.
pub const AF_MPLS: RtAddrFamily = RtAddrFamily::UnrecognizedConst(28);
