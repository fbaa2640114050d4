//! Types and flags of every message.

pub use neli_consts::{GenlId, NlType, NlTypeWrapper, NlmF, Nlmsg, NlmsgerrAttr};
