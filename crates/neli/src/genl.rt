//! Generic netlink: its body and its attributes.

pub use neli_attr::{
    AttrType, AttrTypeBuilder, AttrTypeBuilderError, GenlAttrHandle, Nlattr, NlattrBuilder,
    NlattrBuilderError,
};
pub use neli_genl::{Genlmsghdr, GenlmsghdrBuilder, GenlmsghdrBuilderError, NoUserHeader};

/// Laws: written values are read back, values are their fields, and `==` is equality.
pub mod laws {
    pub use neli_genl::laws::{
        equality, genlmsghdr_is_its_fields, genlmsghdr_is_read_back, no_user_header_has_no_bytes,
    };
}
