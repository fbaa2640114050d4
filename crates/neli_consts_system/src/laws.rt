//! Laws over the definitions alone. The functions do nothing: their contracts are the laws.

ghost use Rattle.neli_wire.specs.Constants.{IsEquality};

use crate::{
    AddrFamily, CnMsgIdx, CnMsgVal, LogCmd, LogCopyMode, Msg, NetfilterMsg, NfLogAttr, NfLogCfg,
    NlFamily, ProcCnMcastOp, ProcEventType,
};

/// `==` is true exactly where the two values are the same: the same variant, with the same number
/// where it has none of its own; or the same bits.
pub fn equality()
    ensures cn_msg_idx { IsEquality ⟦<CnMsgIdx as PartialEq>⟧.eq }
    ensures cn_msg_val { IsEquality ⟦<CnMsgVal as PartialEq>⟧.eq }
    ensures proc_event_type { IsEquality ⟦<ProcEventType as PartialEq>⟧.eq }
    ensures proc_cn_mcast_op { IsEquality ⟦<ProcCnMcastOp as PartialEq>⟧.eq }
    ensures nf_log_attr { IsEquality ⟦<NfLogAttr as PartialEq>⟧.eq }
    ensures nf_log_cfg { IsEquality ⟦<NfLogCfg as PartialEq>⟧.eq }
    ensures netfilter_msg { IsEquality ⟦<NetfilterMsg as PartialEq>⟧.eq }
    ensures log_cmd { IsEquality ⟦<LogCmd as PartialEq>⟧.eq }
    ensures log_copy_mode { IsEquality ⟦<LogCopyMode as PartialEq>⟧.eq }
    ensures addr_family { IsEquality ⟦<AddrFamily as PartialEq>⟧.eq }
    ensures nl_family { IsEquality ⟦<NlFamily as PartialEq>⟧.eq }
    ensures msg { IsEquality ⟦<Msg as PartialEq>⟧.eq }
{}
