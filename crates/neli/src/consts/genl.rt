//! Generic netlink: commands, types of attributes, and those of its controller.

pub use neli_consts::{
    Cmd, CtrlAttr, CtrlAttrMcastGrp, CtrlCmd, Index, NlAttrType, NlAttrTypeWrapper,
};
