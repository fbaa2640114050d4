//! Laws over the definitions alone. The functions do nothing: their contracts are the laws.

ghost use Rattle.neli_wire.specs.Constants.{IsEquality};

use crate::{Frf, IfaF, Iff, Ntf, Nud, RtmF, VlanFlags};

/// `==` is true exactly where the two sets have the same bits.
pub fn equality()
    ensures iff { IsEquality ⟦<Iff as PartialEq>⟧.eq }
    ensures ifa_f { IsEquality ⟦<IfaF as PartialEq>⟧.eq }
    ensures rtm_f { IsEquality ⟦<RtmF as PartialEq>⟧.eq }
    ensures nud { IsEquality ⟦<Nud as PartialEq>⟧.eq }
    ensures ntf { IsEquality ⟦<Ntf as PartialEq>⟧.eq }
    ensures vlan_flags { IsEquality ⟦<VlanFlags as PartialEq>⟧.eq }
    ensures frf { IsEquality ⟦<Frf as PartialEq>⟧.eq }
{}
