//! Numbers of today's kernels that the Rust crate's tables do not have: types of messages, multicast groups and metrics
//! of routing, next hops, neighbour tables, bridges, bonds, tunnels, virtual functions, statistics, policies. `CtrlCmd`
//! and `CtrlAttr` are the tables of [`super::genl`] with the names that came later.

pub use neli_consts_linux::{
    AF_BRIDGE, AF_MPLS, CtrlAttr, CtrlAttrOp, CtrlAttrPolicy, CtrlCmd, IflaBond, IflaBondAdInfo,
    IflaBondSlave, IflaBr, IflaBrport, IflaMacvlan, IflaStats, IflaVf, IflaVxlan, Mdba,
    NLMSGERR_ATTR_MISS_NEST, NLMSGERR_ATTR_MISS_TYPE, Ndta, NetlinkAttributeType, NexthopGrpType,
    Nha, NhaGroupStats, NhaGroupStatsEntry, NhaResBucket, NhaResGroup, NlPolicyTypeAttr,
    RTM_DELANYCAST, RTM_DELCHAIN, RTM_DELLINKPROP, RTM_DELMULTICAST, RTM_DELNETCONF,
    RTM_DELNEXTHOP, RTM_DELNEXTHOPBUCKET, RTM_DELTUNNEL, RTM_DELVLAN, RTM_GETCHAIN,
    RTM_GETLINKPROP, RTM_GETNEXTHOP, RTM_GETNEXTHOPBUCKET, RTM_GETSTATS, RTM_GETTUNNEL,
    RTM_GETVLAN, RTM_NEWANYCAST, RTM_NEWCACHEREPORT, RTM_NEWCHAIN, RTM_NEWLINKPROP,
    RTM_NEWMULTICAST, RTM_NEWNEXTHOP, RTM_NEWNEXTHOPBUCKET, RTM_NEWSTATS, RTM_NEWTUNNEL,
    RTM_NEWVLAN, RTM_SETSTATS, Rtax, Rtnlgrp, TcaStats,
};
