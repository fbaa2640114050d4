//! Laws over the definitions alone. The functions do nothing: their contracts are the laws.

ghost use Rattle.neli_wire.specs.Constants.{IsEquality};

use crate::{
    CtrlAttr, CtrlAttrOp, CtrlAttrPolicy, CtrlCmd, IflaBond, IflaBondAdInfo, IflaBondSlave, IflaBr,
    IflaBrport, IflaMacvlan, IflaStats, IflaVf, IflaVxlan, Mdba, Ndta, NetlinkAttributeType,
    NexthopGrpType, Nha, NhaGroupStats, NhaGroupStatsEntry, NhaResBucket, NhaResGroup,
    NlPolicyTypeAttr, Rtax, Rtnlgrp, TcaStats,
};

/// `==` is true exactly where the two values are the same: the same variant, with the same number
/// where it has none of its own.
pub fn equality()
    ensures rtnlgrp { IsEquality ⟦<Rtnlgrp as PartialEq>⟧.eq }
    ensures rtax { IsEquality ⟦<Rtax as PartialEq>⟧.eq }
    ensures nha { IsEquality ⟦<Nha as PartialEq>⟧.eq }
    ensures nha_res_group { IsEquality ⟦<NhaResGroup as PartialEq>⟧.eq }
    ensures nha_res_bucket { IsEquality ⟦<NhaResBucket as PartialEq>⟧.eq }
    ensures nha_group_stats { IsEquality ⟦<NhaGroupStats as PartialEq>⟧.eq }
    ensures nha_group_stats_entry { IsEquality ⟦<NhaGroupStatsEntry as PartialEq>⟧.eq }
    ensures nexthop_grp_type { IsEquality ⟦<NexthopGrpType as PartialEq>⟧.eq }
    ensures ifla_br { IsEquality ⟦<IflaBr as PartialEq>⟧.eq }
    ensures ifla_brport { IsEquality ⟦<IflaBrport as PartialEq>⟧.eq }
    ensures ifla_macvlan { IsEquality ⟦<IflaMacvlan as PartialEq>⟧.eq }
    ensures ifla_vxlan { IsEquality ⟦<IflaVxlan as PartialEq>⟧.eq }
    ensures ifla_vf { IsEquality ⟦<IflaVf as PartialEq>⟧.eq }
    ensures ifla_bond { IsEquality ⟦<IflaBond as PartialEq>⟧.eq }
    ensures ifla_bond_ad_info { IsEquality ⟦<IflaBondAdInfo as PartialEq>⟧.eq }
    ensures ifla_bond_slave { IsEquality ⟦<IflaBondSlave as PartialEq>⟧.eq }
    ensures ctrl_cmd { IsEquality ⟦<CtrlCmd as PartialEq>⟧.eq }
    ensures ctrl_attr { IsEquality ⟦<CtrlAttr as PartialEq>⟧.eq }
    ensures ctrl_attr_op { IsEquality ⟦<CtrlAttrOp as PartialEq>⟧.eq }
    ensures ctrl_attr_policy { IsEquality ⟦<CtrlAttrPolicy as PartialEq>⟧.eq }
    ensures nl_policy_type_attr { IsEquality ⟦<NlPolicyTypeAttr as PartialEq>⟧.eq }
    ensures netlink_attribute_type { IsEquality ⟦<NetlinkAttributeType as PartialEq>⟧.eq }
    ensures ifla_stats { IsEquality ⟦<IflaStats as PartialEq>⟧.eq }
    ensures tca_stats { IsEquality ⟦<TcaStats as PartialEq>⟧.eq }
    ensures mdba { IsEquality ⟦<Mdba as PartialEq>⟧.eq }
    ensures ndta { IsEquality ⟦<Ndta as PartialEq>⟧.eq }
{}
