//! Routing: message types, fields of the bodies, flag sets, types of attributes.

pub use neli_consts_attrs::{
    Frattr, Ifa, Ifla, IflaInfo, IflaVlan, IflaVlanQos, Nda, Rta, RtaType, RtaTypeWrapper, Tca,
};
pub use neli_consts_flags::{FlagSet, Frf, IfaF, Iff, Ntf, Nud, RtmF, VlanFlags};
pub use neli_consts_routing::{
    Af, Arphrd, FrAct, RtAddrFamily, RtScope, RtTable, Rtm, Rtn, Rtprot,
};
