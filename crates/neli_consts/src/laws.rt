//! Laws over the definitions alone. The functions do nothing: their contracts are the laws.

ghost use Rattle.neli_wire.specs.Constants.{IsEquality};

use crate::{
    CtrlAttr, CtrlAttrMcastGrp, CtrlCmd, GenlId, Index, LogCfgCmdWrapper, NlAttrTypeWrapper,
    NlTypeWrapper, NlmF, Nlmsg, NlmsgerrAttr,
};

/// `==` is true exactly where the two values are the same: the same variant, with the same number
/// where it has none of its own; or the same bits.
pub fn equality()
    ensures nlmsg { IsEquality ⟦<Nlmsg as PartialEq>⟧.eq }
    ensures nlmsgerr_attr { IsEquality ⟦<NlmsgerrAttr as PartialEq>⟧.eq }
    ensures genl_id { IsEquality ⟦<GenlId as PartialEq>⟧.eq }
    ensures ctrl_cmd { IsEquality ⟦<CtrlCmd as PartialEq>⟧.eq }
    ensures ctrl_attr { IsEquality ⟦<CtrlAttr as PartialEq>⟧.eq }
    ensures ctrl_attr_mcast_grp { IsEquality ⟦<CtrlAttrMcastGrp as PartialEq>⟧.eq }
    ensures index { IsEquality ⟦<Index as PartialEq>⟧.eq }
    ensures nlm_f { IsEquality ⟦<NlmF as PartialEq>⟧.eq }
    ensures nl_type_wrapper { IsEquality ⟦<NlTypeWrapper as PartialEq>⟧.eq }
    ensures nl_attr_type_wrapper { IsEquality ⟦<NlAttrTypeWrapper as PartialEq>⟧.eq }
    ensures log_cfg_cmd_wrapper { IsEquality ⟦<LogCfgCmdWrapper as PartialEq>⟧.eq }
{}
