//! Laws over the definitions alone. The functions do nothing: their contracts are the laws.

ghost use Rattle.std.specs.Prelude.{◌≡◌, ℕ, false};
ghost use Rattle.neli_consts_attrs.specs.Frattr.{frattr_of};
ghost use Rattle.neli_consts_attrs.specs.declared.rules.Frattr.TheVariants as frattr;
ghost use Rattle.neli_wire.specs.Constants.{IsEquality};

use crate::{Frattr, Ifa, Ifla, IflaInfo, IflaVlan, IflaVlanQos, Nda, Rta, RtaTypeWrapper, Tca};

/// `==` is true exactly where the two values are the same: the same variant, with the same number
/// where it has none of its own.
pub fn equality()
    ensures ifla { IsEquality ⟦<Ifla as PartialEq>⟧.eq }
    ensures ifla_info { IsEquality ⟦<IflaInfo as PartialEq>⟧.eq }
    ensures ifla_vlan { IsEquality ⟦<IflaVlan as PartialEq>⟧.eq }
    ensures ifla_vlan_qos { IsEquality ⟦<IflaVlanQos as PartialEq>⟧.eq }
    ensures rta { IsEquality ⟦<Rta as PartialEq>⟧.eq }
    ensures tca { IsEquality ⟦<Tca as PartialEq>⟧.eq }
    ensures nda { IsEquality ⟦<Nda as PartialEq>⟧.eq }
    ensures ifa { IsEquality ⟦<Ifa as PartialEq>⟧.eq }
    ensures frattr { IsEquality ⟦<Frattr as PartialEq>⟧.eq }
    ensures rta_type_wrapper { IsEquality ⟦<RtaTypeWrapper as PartialEq>⟧.eq }
{}

/// [`Frattr::Ifname`] is only written: no number is read as it, so it equals no value that was
/// read.
pub fn ifname_is_never_read()
    ensures { (number : ℕ) → ⟦<Frattr as PartialEq>⟧.eq frattr.Ifname (frattr_of number) ≡ false }
{}
