//! The types that read the number of an attribute's type.

ghost use Rattle.std.proofs.Common.{rules};
ghost use Rattle.std.specs.Prelude.{◌≡◌};
ghost use Rattle.neli_consts.specs.declared.nl_attr_type.NlAttrTypeWrapper.{NlAttrTypeWrapper};
ghost use Rattle.neli_consts.specs.NlAttrTypeWrapper.{nl_attr_type_wrapper_number, nl_attr_type_wrapper_of};
ghost use Rattle.neli_wire.specs.laws.Constants.{first_recognized-number, first_with-number};

use crate::{CtrlAttr, CtrlAttrMcastGrp, Index, NlmsgerrAttr};
use neli_consts_system::{NfLogAttr, NfLogCfg};
use neli_wire::Constant;

/// A type of attributes: it has a value for each number of 16 bits, and each value has a number. A
/// number's value has that same number. An attribute keeps the lower 14 bits for it.
pub trait NlAttrType: PartialEq + Constant<Number = u16> {
    /// The type that a number means.
    fn from_number(number: u16) -> Self
        ensures { result ≡ Self.Constant.wire_value number }
    {
        Self::from_wire(number)
    }

    /// The number of a type.
    fn to_number(&self) -> u16
        ensures { result ≡ Self.Constant.wire_number self.now }
    {
        self.to_wire()
    }
}

impl NlAttrType for u16 {}

impl NlAttrType for CtrlAttr {}

impl NlAttrType for CtrlAttrMcastGrp {}

impl NlAttrType for NfLogAttr {}

impl NlAttrType for NfLogCfg {}

impl NlAttrType for Index {}

impl NlAttrType for NlmsgerrAttr {}

impl NlAttrType for NlAttrTypeWrapper {}

/// A type of attributes, by the first of these tables that has a name for its number. The
/// attribute's context decides which table is meant, so read a later one by its own type. Every
/// number is an [`Index`]: only a program makes a `NlmsgerrAttr` or an `UnrecognizedConst`.
#[derive(Clone, Copy, Debug, PartialEq, Eq)]
pub enum NlAttrTypeWrapper {
    /// An attribute of a family.
    CtrlAttr(CtrlAttr),
    /// An attribute of a multicast group.
    CtrlAttrMcastGrp(CtrlAttrMcastGrp),
    /// An attribute of a logged packet.
    NfLogAttr(NfLogAttr),
    /// An attribute of a logging configuration.
    NfLogCfg(NfLogCfg),
    /// The place of an attribute in a list.
    Index(Index),
    /// An attribute of an error or an acknowledgement.
    NlmsgerrAttr(NlmsgerrAttr),
    /// A number for which none of these has a name.
    UnrecognizedConst(u16),
}

impl From<u16> for NlAttrTypeWrapper {
    ghost from_gives = { λ number value. value ≡ nl_attr_type_wrapper_of number };

    fn from(number: u16) -> NlAttrTypeWrapper {
        let ctrl_attr = CtrlAttr::from(number);
        if !ctrl_attr.is_unrecognized() {
            return NlAttrTypeWrapper::CtrlAttr(ctrl_attr);
        }
        let ctrl_attr_mcast_grp = CtrlAttrMcastGrp::from(number);
        if !ctrl_attr_mcast_grp.is_unrecognized() {
            return NlAttrTypeWrapper::CtrlAttrMcastGrp(ctrl_attr_mcast_grp);
        }
        let nf_log_attr = NfLogAttr::from(number);
        if !nf_log_attr.is_unrecognized() {
            return NlAttrTypeWrapper::NfLogAttr(nf_log_attr);
        }
        let nf_log_cfg = NfLogCfg::from(number);
        if !nf_log_cfg.is_unrecognized() {
            return NlAttrTypeWrapper::NfLogCfg(nf_log_cfg);
        }
        // Every number is an index, so no later table is searched.
        NlAttrTypeWrapper::Index(Index::from(number))
    }
}

impl From<NlAttrTypeWrapper> for u16 {
    ghost from_gives = { λ value number. number ≡ nl_attr_type_wrapper_number value };

    fn from(value: NlAttrTypeWrapper) -> u16 {
        match value {
            NlAttrTypeWrapper::CtrlAttr(ctrl_attr) => ctrl_attr.into(),
            NlAttrTypeWrapper::CtrlAttrMcastGrp(ctrl_attr_mcast_grp) => ctrl_attr_mcast_grp.into(),
            NlAttrTypeWrapper::NfLogAttr(nf_log_attr) => nf_log_attr.into(),
            NlAttrTypeWrapper::NfLogCfg(nf_log_cfg) => nf_log_cfg.into(),
            NlAttrTypeWrapper::Index(index) => index.into(),
            NlAttrTypeWrapper::NlmsgerrAttr(nlmsgerr_attr) => nlmsgerr_attr.into(),
            NlAttrTypeWrapper::UnrecognizedConst(number) => number,
        }
    }
}

impl From<&NlAttrTypeWrapper> for u16 {
    ghost from_gives = { λ value number. number ≡ nl_attr_type_wrapper_number value.now };

    fn from(value: &NlAttrTypeWrapper) -> u16 {
        u16::from(*value)
    }
}

impl From<CtrlAttr> for NlAttrTypeWrapper {
    ghost from_gives = { λ ctrl_attr value. value ≡ NlAttrTypeWrapper.CtrlAttr ctrl_attr };

    fn from(ctrl_attr: CtrlAttr) -> NlAttrTypeWrapper {
        NlAttrTypeWrapper::CtrlAttr(ctrl_attr)
    }
}

impl From<CtrlAttrMcastGrp> for NlAttrTypeWrapper {
    ghost from_gives = { λ ctrl_attr_mcast_grp value. value
        ≡ NlAttrTypeWrapper.CtrlAttrMcastGrp ctrl_attr_mcast_grp };

    fn from(ctrl_attr_mcast_grp: CtrlAttrMcastGrp) -> NlAttrTypeWrapper {
        NlAttrTypeWrapper::CtrlAttrMcastGrp(ctrl_attr_mcast_grp)
    }
}

impl From<NfLogAttr> for NlAttrTypeWrapper {
    ghost from_gives = { λ nf_log_attr value. value ≡ NlAttrTypeWrapper.NfLogAttr nf_log_attr };

    fn from(nf_log_attr: NfLogAttr) -> NlAttrTypeWrapper {
        NlAttrTypeWrapper::NfLogAttr(nf_log_attr)
    }
}

impl From<NfLogCfg> for NlAttrTypeWrapper {
    ghost from_gives = { λ nf_log_cfg value. value ≡ NlAttrTypeWrapper.NfLogCfg nf_log_cfg };

    fn from(nf_log_cfg: NfLogCfg) -> NlAttrTypeWrapper {
        NlAttrTypeWrapper::NfLogCfg(nf_log_cfg)
    }
}

impl From<Index> for NlAttrTypeWrapper {
    ghost from_gives = { λ index value. value ≡ NlAttrTypeWrapper.Index index };

    fn from(index: Index) -> NlAttrTypeWrapper {
        NlAttrTypeWrapper::Index(index)
    }
}

impl From<NlmsgerrAttr> for NlAttrTypeWrapper {
    ghost from_gives = { λ nlmsgerr_attr value. value
        ≡ NlAttrTypeWrapper.NlmsgerrAttr nlmsgerr_attr };

    fn from(nlmsgerr_attr: NlmsgerrAttr) -> NlAttrTypeWrapper {
        NlAttrTypeWrapper::NlmsgerrAttr(nlmsgerr_attr)
    }
}

impl Constant for NlAttrTypeWrapper {
    type Number = u16;

    ghost wire_number = { nl_attr_type_wrapper_number };

    ghost wire_value = { nl_attr_type_wrapper_of };

    fn from_wire(number: u16) -> NlAttrTypeWrapper {
        NlAttrTypeWrapper::from(number)
    }

    fn to_wire(&self) -> u16 {
        u16::from(self)
    }

    ghost back_to_number = { λ n _. Prim.search
        (first_recognized-number, first_with-number, rules) };
}
