//! Types of messages of routing, `RTM_*` of `linux/rtnetlink.h`, that the port's table has no name for.
//!
//! `NEW` makes or reports something, `DEL` removes it or reports that it is gone, `GET` is a request for it or for all.
//! Each constant is the value that its number is read as, so it serves in a message that is sent and in a comparison.

use neli_consts_routing::Rtm;

/// `RTM_NEWMULTICAST`: a multicast group that a link listens to.
pub const RTM_NEWMULTICAST: Rtm = Rtm::UnrecognizedConst(56);

/// `RTM_DELMULTICAST`: a multicast group that a link listens to.
pub const RTM_DELMULTICAST: Rtm = Rtm::UnrecognizedConst(57);

/// `RTM_NEWANYCAST`: an anycast address of a link.
pub const RTM_NEWANYCAST: Rtm = Rtm::UnrecognizedConst(60);

/// `RTM_DELANYCAST`: an anycast address of a link.
pub const RTM_DELANYCAST: Rtm = Rtm::UnrecognizedConst(61);

/// `RTM_DELNETCONF`: the settings of a link's addresses.
pub const RTM_DELNETCONF: Rtm = Rtm::UnrecognizedConst(81);

/// `RTM_NEWSTATS`: the statistics of a link.
pub const RTM_NEWSTATS: Rtm = Rtm::UnrecognizedConst(92);

/// `RTM_GETSTATS`: the statistics of a link.
pub const RTM_GETSTATS: Rtm = Rtm::UnrecognizedConst(94);

/// `RTM_SETSTATS`: which statistics a link keeps.
pub const RTM_SETSTATS: Rtm = Rtm::UnrecognizedConst(95);

/// `RTM_NEWCACHEREPORT`: a packet for which multicast routing has no route.
pub const RTM_NEWCACHEREPORT: Rtm = Rtm::UnrecognizedConst(96);

/// `RTM_NEWCHAIN`: a chain of filters.
pub const RTM_NEWCHAIN: Rtm = Rtm::UnrecognizedConst(100);

/// `RTM_DELCHAIN`: a chain of filters.
pub const RTM_DELCHAIN: Rtm = Rtm::UnrecognizedConst(101);

/// `RTM_GETCHAIN`: a chain of filters.
pub const RTM_GETCHAIN: Rtm = Rtm::UnrecognizedConst(102);

/// `RTM_NEWNEXTHOP`: a next hop.
pub const RTM_NEWNEXTHOP: Rtm = Rtm::UnrecognizedConst(104);

/// `RTM_DELNEXTHOP`: a next hop.
pub const RTM_DELNEXTHOP: Rtm = Rtm::UnrecognizedConst(105);

/// `RTM_GETNEXTHOP`: a next hop.
pub const RTM_GETNEXTHOP: Rtm = Rtm::UnrecognizedConst(106);

/// `RTM_NEWLINKPROP`: another name of a link.
pub const RTM_NEWLINKPROP: Rtm = Rtm::UnrecognizedConst(108);

/// `RTM_DELLINKPROP`: another name of a link.
pub const RTM_DELLINKPROP: Rtm = Rtm::UnrecognizedConst(109);

/// `RTM_GETLINKPROP`: another name of a link.
pub const RTM_GETLINKPROP: Rtm = Rtm::UnrecognizedConst(110);

/// `RTM_NEWVLAN`: a VLAN of a bridge.
pub const RTM_NEWVLAN: Rtm = Rtm::UnrecognizedConst(112);

/// `RTM_DELVLAN`: a VLAN of a bridge.
pub const RTM_DELVLAN: Rtm = Rtm::UnrecognizedConst(113);

/// `RTM_GETVLAN`: a VLAN of a bridge.
pub const RTM_GETVLAN: Rtm = Rtm::UnrecognizedConst(114);

/// `RTM_NEWNEXTHOPBUCKET`: a bucket of a resilient group of next hops.
pub const RTM_NEWNEXTHOPBUCKET: Rtm = Rtm::UnrecognizedConst(116);

/// `RTM_DELNEXTHOPBUCKET`: a bucket of a resilient group of next hops.
pub const RTM_DELNEXTHOPBUCKET: Rtm = Rtm::UnrecognizedConst(117);

/// `RTM_GETNEXTHOPBUCKET`: a bucket of a resilient group of next hops.
pub const RTM_GETNEXTHOPBUCKET: Rtm = Rtm::UnrecognizedConst(118);

/// `RTM_NEWTUNNEL`: an entry of a VXLAN tunnel's filter of network numbers.
pub const RTM_NEWTUNNEL: Rtm = Rtm::UnrecognizedConst(120);

/// `RTM_DELTUNNEL`: an entry of a VXLAN tunnel's filter of network numbers.
pub const RTM_DELTUNNEL: Rtm = Rtm::UnrecognizedConst(121);

/// `RTM_GETTUNNEL`: an entry of a VXLAN tunnel's filter of network numbers.
pub const RTM_GETTUNNEL: Rtm = Rtm::UnrecognizedConst(122);
