//! Attributes of errors and acknowledgements, `NLMSGERR_ATTR_*` of `linux/netlink.h`, that the port's table has no name
//! for.
//!
//! Each constant is the value that its number is read as, so it serves in a message that is made and in a comparison.

use neli_consts::NlmsgerrAttr;

/// `NLMSGERR_ATTR_MISS_TYPE`: the number of a missing attribute.
pub const NLMSGERR_ATTR_MISS_TYPE: NlmsgerrAttr = NlmsgerrAttr::UnrecognizedConst(5);

/// `NLMSGERR_ATTR_MISS_NEST`: the place in the request of the nest that lacks the attribute; absent where the message
/// itself lacks it.
pub const NLMSGERR_ATTR_MISS_NEST: NlmsgerrAttr = NlmsgerrAttr::UnrecognizedConst(6);
