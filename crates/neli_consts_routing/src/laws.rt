//! Laws over the definitions alone. The functions do nothing: their contracts are the laws.

ghost use Rattle.neli_wire.specs.Constants.{IsEquality};

use crate::{Af, Arphrd, FrAct, RtAddrFamily, RtScope, RtTable, Rtm, Rtn, Rtprot};

/// `==` is true exactly where the two values are the same: the same variant, with the same number
/// where it has none of its own.
pub fn equality()
    ensures af { IsEquality ⟦<Af as PartialEq>⟧.eq }
    ensures rt_addr_family { IsEquality ⟦<RtAddrFamily as PartialEq>⟧.eq }
    ensures rtn { IsEquality ⟦<Rtn as PartialEq>⟧.eq }
    ensures rtprot { IsEquality ⟦<Rtprot as PartialEq>⟧.eq }
    ensures rt_scope { IsEquality ⟦<RtScope as PartialEq>⟧.eq }
    ensures rt_table { IsEquality ⟦<RtTable as PartialEq>⟧.eq }
    ensures arphrd { IsEquality ⟦<Arphrd as PartialEq>⟧.eq }
    ensures fr_act { IsEquality ⟦<FrAct as PartialEq>⟧.eq }
    ensures rtm { IsEquality ⟦<Rtm as PartialEq>⟧.eq }
{}
