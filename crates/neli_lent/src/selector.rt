//! The types that find attributes.

ghost use Rattle.std.specs.Prelude.{◌≡◌, Bool};
ghost use Rattle.neli_attr.specs.Lookup.{is_masked};

use neli_attr::AttrType;
use neli_consts::NlAttrType;
use neli_consts_attrs::RtaType;
use neli_wire::Constant;

/// The bits of a type field that are the type itself (`NLA_TYPE_MASK` of `linux/netlink.h`).
const TYPE_MASK: u16 = 0x3fff;

/// A type that finds attributes whose type field is a `K`.
///
/// A generic attribute is found by its type without the flags, a routing one by its whole type.
pub trait AttrSelector<K>: Copy {
    // Whether an attribute with this type field is selected.
    ghost selects: { Self → K → Bool };

    /// Whether an attribute with this type field is selected.
    fn selects(&self, field: &K) -> bool
        ensures { result ≡ selects self.now field.now };
}

impl<T: NlAttrType> AttrSelector<AttrType<T>> for T {
    ghost selects = { λ t field. T.eq field.nla_type t };

    fn selects(&self, field: &AttrType<T>) -> bool {
        field.nla_type() == self
    }
}

impl<T: RtaType> AttrSelector<T> for T {
    ghost selects = { λ t field. T.eq field t };

    fn selects(&self, field: &T) -> bool {
        field == self
    }
}

/// A routing type that finds attributes by its number, whatever the two flags above it are.
#[derive(Clone, Copy)]
pub(crate) struct Masked<T>(pub(crate) T);

impl<T: RtaType> AttrSelector<T> for Masked<T> {
    ghost selects = { λ t field. is_masked T.wire_number t.0 field };

    fn selects(&self, field: &T) -> bool {
        field.to_wire() & TYPE_MASK == self.0.to_wire()
    }
}
