//! The types that read the number of an attribute in a routing message.

ghost use Rattle.std.proofs.Common.{rules};
ghost use Rattle.std.specs.Prelude.{◌≡◌};
ghost use Rattle.neli_consts_attrs.specs.declared.rta_type.RtaTypeWrapper.{RtaTypeWrapper};
ghost use Rattle.neli_consts_attrs.specs.RtaTypeWrapper.{rta_type_wrapper_number, rta_type_wrapper_of};
ghost use Rattle.neli_wire.specs.laws.Constants.{first_recognized-number, first_with-number};

use crate::{Frattr, Ifa, Ifla, IflaInfo, IflaVlan, IflaVlanQos, Nda, Rta, Tca};
use neli_wire::Constant;

/// A type of attributes in routing messages: it has a value for each number of 16 bits, and each
/// value has a number. A number's value has that same number.
pub trait RtaType: PartialEq + Constant<Number = u16> {
    /// The type that a number means.
    fn from_number(number: u16) -> Self
        ensures { result ≡ Self.Constant.wire_value number }
    {
        Self::from_wire(number)
    }

    /// The number of a type.
    fn to_number(&self) -> u16
        ensures { result ≡ Self.Constant.wire_number self.now }
    {
        self.to_wire()
    }
}

impl RtaType for u16 {}

impl RtaType for Ifla {}

impl RtaType for Ifa {}

impl RtaType for Rta {}

impl RtaType for Tca {}

impl RtaType for Nda {}

impl RtaType for IflaInfo {}

impl RtaType for IflaVlan {}

impl RtaType for IflaVlanQos {}

impl RtaType for Frattr {}

impl RtaType for RtaTypeWrapper {}

/// A type of attributes in routing messages, by the first of these tables that has a name for its
/// number. The same number stands in several tables; the attribute's context decides which one is
/// meant, so read a later table by its own type.
#[derive(Clone, Copy, Debug, PartialEq, Eq)]
pub enum RtaTypeWrapper {
    /// An attribute of a link.
    Ifla(Ifla),
    /// An attribute of an address.
    Ifa(Ifa),
    /// An attribute of a route.
    Rta(Rta),
    /// An attribute of a queueing discipline, a class or a filter.
    Tca(Tca),
    /// An attribute of a neighbour.
    Nda(Nda),
    /// An attribute of a kind of link.
    IflaInfo(IflaInfo),
    /// An attribute of a virtual LAN.
    IflaVlan(IflaVlan),
    /// An attribute of a virtual LAN's priorities.
    IflaVlanQos(IflaVlanQos),
    /// An attribute of a routing rule.
    Frattr(Frattr),
    /// A number for which none of these has a name.
    UnrecognizedConst(u16),
}

impl From<u16> for RtaTypeWrapper {
    ghost from_gives = { λ number value. value ≡ rta_type_wrapper_of number };

    fn from(number: u16) -> RtaTypeWrapper {
        let ifla = Ifla::from(number);
        if !ifla.is_unrecognized() {
            return RtaTypeWrapper::Ifla(ifla);
        }
        let ifa = Ifa::from(number);
        if !ifa.is_unrecognized() {
            return RtaTypeWrapper::Ifa(ifa);
        }
        let rta = Rta::from(number);
        if !rta.is_unrecognized() {
            return RtaTypeWrapper::Rta(rta);
        }
        let tca = Tca::from(number);
        if !tca.is_unrecognized() {
            return RtaTypeWrapper::Tca(tca);
        }
        let nda = Nda::from(number);
        if !nda.is_unrecognized() {
            return RtaTypeWrapper::Nda(nda);
        }
        let ifla_info = IflaInfo::from(number);
        if !ifla_info.is_unrecognized() {
            return RtaTypeWrapper::IflaInfo(ifla_info);
        }
        let ifla_vlan = IflaVlan::from(number);
        if !ifla_vlan.is_unrecognized() {
            return RtaTypeWrapper::IflaVlan(ifla_vlan);
        }
        let ifla_vlan_qos = IflaVlanQos::from(number);
        if !ifla_vlan_qos.is_unrecognized() {
            return RtaTypeWrapper::IflaVlanQos(ifla_vlan_qos);
        }
        let frattr = Frattr::from(number);
        if !frattr.is_unrecognized() {
            return RtaTypeWrapper::Frattr(frattr);
        }
        RtaTypeWrapper::UnrecognizedConst(number)
    }
}

impl From<RtaTypeWrapper> for u16 {
    ghost from_gives = { λ value number. number ≡ rta_type_wrapper_number value };

    fn from(value: RtaTypeWrapper) -> u16 {
        match value {
            RtaTypeWrapper::Ifla(ifla) => ifla.into(),
            RtaTypeWrapper::Ifa(ifa) => ifa.into(),
            RtaTypeWrapper::Rta(rta) => rta.into(),
            RtaTypeWrapper::Tca(tca) => tca.into(),
            RtaTypeWrapper::Nda(nda) => nda.into(),
            RtaTypeWrapper::IflaInfo(ifla_info) => ifla_info.into(),
            RtaTypeWrapper::IflaVlan(ifla_vlan) => ifla_vlan.into(),
            RtaTypeWrapper::IflaVlanQos(ifla_vlan_qos) => ifla_vlan_qos.into(),
            RtaTypeWrapper::Frattr(frattr) => frattr.into(),
            RtaTypeWrapper::UnrecognizedConst(number) => number,
        }
    }
}

impl From<&RtaTypeWrapper> for u16 {
    ghost from_gives = { λ value number. number ≡ rta_type_wrapper_number value.now };

    fn from(value: &RtaTypeWrapper) -> u16 {
        u16::from(*value)
    }
}

impl From<Ifla> for RtaTypeWrapper {
    ghost from_gives = { λ ifla value. value ≡ RtaTypeWrapper.Ifla ifla };

    fn from(ifla: Ifla) -> RtaTypeWrapper {
        RtaTypeWrapper::Ifla(ifla)
    }
}

impl From<Ifa> for RtaTypeWrapper {
    ghost from_gives = { λ ifa value. value ≡ RtaTypeWrapper.Ifa ifa };

    fn from(ifa: Ifa) -> RtaTypeWrapper {
        RtaTypeWrapper::Ifa(ifa)
    }
}

impl From<Rta> for RtaTypeWrapper {
    ghost from_gives = { λ rta value. value ≡ RtaTypeWrapper.Rta rta };

    fn from(rta: Rta) -> RtaTypeWrapper {
        RtaTypeWrapper::Rta(rta)
    }
}

impl From<Tca> for RtaTypeWrapper {
    ghost from_gives = { λ tca value. value ≡ RtaTypeWrapper.Tca tca };

    fn from(tca: Tca) -> RtaTypeWrapper {
        RtaTypeWrapper::Tca(tca)
    }
}

impl From<Nda> for RtaTypeWrapper {
    ghost from_gives = { λ nda value. value ≡ RtaTypeWrapper.Nda nda };

    fn from(nda: Nda) -> RtaTypeWrapper {
        RtaTypeWrapper::Nda(nda)
    }
}

impl From<IflaInfo> for RtaTypeWrapper {
    ghost from_gives = { λ ifla_info value. value ≡ RtaTypeWrapper.IflaInfo ifla_info };

    fn from(ifla_info: IflaInfo) -> RtaTypeWrapper {
        RtaTypeWrapper::IflaInfo(ifla_info)
    }
}

impl From<IflaVlan> for RtaTypeWrapper {
    ghost from_gives = { λ ifla_vlan value. value ≡ RtaTypeWrapper.IflaVlan ifla_vlan };

    fn from(ifla_vlan: IflaVlan) -> RtaTypeWrapper {
        RtaTypeWrapper::IflaVlan(ifla_vlan)
    }
}

impl From<IflaVlanQos> for RtaTypeWrapper {
    ghost from_gives = { λ ifla_vlan_qos value. value ≡ RtaTypeWrapper.IflaVlanQos ifla_vlan_qos };

    fn from(ifla_vlan_qos: IflaVlanQos) -> RtaTypeWrapper {
        RtaTypeWrapper::IflaVlanQos(ifla_vlan_qos)
    }
}

impl From<Frattr> for RtaTypeWrapper {
    ghost from_gives = { λ frattr value. value ≡ RtaTypeWrapper.Frattr frattr };

    fn from(frattr: Frattr) -> RtaTypeWrapper {
        RtaTypeWrapper::Frattr(frattr)
    }
}

impl Constant for RtaTypeWrapper {
    type Number = u16;

    ghost wire_number = { rta_type_wrapper_number };

    ghost wire_value = { rta_type_wrapper_of };

    fn from_wire(number: u16) -> RtaTypeWrapper {
        RtaTypeWrapper::from(number)
    }

    fn to_wire(&self) -> u16 {
        u16::from(self)
    }

    ghost back_to_number = { λ n _. Prim.search
        (first_recognized-number, first_with-number, rules) };
}
