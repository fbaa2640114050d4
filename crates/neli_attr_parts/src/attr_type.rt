//! The type of a generic attribute, with its two flags.

ghost use Rattle.std.specs.Prelude.{◌≡◌, Ok, IfOk, IfErr, None, Some, true};
ghost use Rattle.neli_attr_parts.specs.TypeField.{built_attr_type, attr_type_eq, number_of, type_of, typed_field};
ghost use Rattle.neli_attr_parts.specs.Builders.{IsWhyNot};
ghost use Rattle.neli_attr_parts.specs.laws.TypeField.{attr_type_equiv, attr_type_per, number_of-type_of};

use crate::{BuildError, of};
use neli_consts::NlAttrType;
use neli_wire::{Constant, UninitializedFieldError};

/// Set where the payload is a list of attributes (`NLA_F_NESTED` of `linux/netlink.h`).
const NESTED: u16 = 0x8000;

/// Set where the payload is in network byte order (`NLA_F_NET_BYTEORDER`).
const NETWORK_ORDER: u16 = 0x4000;

/// The bits of the type itself (`NLA_TYPE_MASK`).
const TYPE: u16 = 0x3fff;

/// The type of a generic attribute, `nla_type` of `struct nlattr` (`linux/netlink.h`): two flags and a number of 14
/// bits, in two bytes.
///
/// A type with a number of 16384 or more sets the bits of the flags when it is written, and is not read back as itself.
#[derive(Clone, Copy, Debug)]
pub struct AttrType<T> {
    nla_nested: bool,
    nla_network_order: bool,
    nla_type: T,
}

impl<T> AttrType<T> {
    /// Whether the payload is a list of attributes.
    pub fn nla_nested(&self) -> &bool
        ensures { result.now ≡ self.now.nla_nested }
    {
        &self.nla_nested
    }

    /// Whether the payload is in network byte order.
    pub fn nla_network_order(&self) -> &bool
        ensures { result.now ≡ self.now.nla_network_order }
    {
        &self.nla_network_order
    }

    /// The type without its flags.
    pub fn nla_type(&self) -> &T
        ensures { result.now ≡ self.now.nla_type }
    {
        &self.nla_type
    }

    /// The same type, marked as that of a list of attributes.
    pub fn as_nested(self) -> AttrType<T>
        ensures { result ≡ record self { nla_nested = true } }
    {
        AttrType {
            nla_nested: true,
            nla_network_order: self.nla_network_order,
            nla_type: self.nla_type,
        }
    }
}

impl AttrType<u16> {
    /// The same flags with the number's meaning.
    pub fn to_typed<T: NlAttrType>(self) -> AttrType<T>
        ensures { result ≡ typed_field T.wire_value self }
    {
        AttrType {
            nla_nested: self.nla_nested,
            nla_network_order: self.nla_network_order,
            nla_type: T::from_number(self.nla_type),
        }
    }
}

impl<T: PartialEq> PartialEq for AttrType<T> {
    ghost eq = { attr_type_eq T.eq };

    ghost laws = { attr_type_per T.PartialEq.laws };

    fn eq(&self, other: &Self) -> bool {
        self.nla_nested == other.nla_nested
            && self.nla_network_order == other.nla_network_order
            && self.nla_type == other.nla_type
    }
}

impl<T: Eq> Eq for AttrType<T> {
    ghost laws = { attr_type_equiv T.Eq.laws };
}

impl<T: NlAttrType> From<u16> for AttrType<T> {
    ghost from_gives = { λ number field. field ≡ type_of T.wire_value number };

    fn from(number: u16) -> AttrType<T> {
        AttrType {
            nla_nested: number & NESTED != 0,
            nla_network_order: number & NETWORK_ORDER != 0,
            nla_type: T::from_number(number & TYPE),
        }
    }
}

impl<T: NlAttrType> From<&AttrType<T>> for u16 {
    ghost from_gives = { λ field number. number ≡ number_of T.wire_number field.now };

    fn from(field: &AttrType<T>) -> u16 {
        let nested = if field.nla_nested { NESTED } else { 0 };
        let network_order = if field.nla_network_order {
            NETWORK_ORDER
        } else {
            0
        };
        field.nla_type.to_number() | nested | network_order
    }
}

impl<T: NlAttrType> From<AttrType<T>> for u16 {
    ghost from_gives = { λ field number. number ≡ number_of T.wire_number field };

    fn from(field: AttrType<T>) -> u16 {
        u16::from(&field)
    }
}

impl<T: NlAttrType> Constant for AttrType<T> {
    type Number = u16;

    ghost wire_number = { number_of T.wire_number };

    ghost wire_value = { type_of T.wire_value };

    fn from_wire(number: u16) -> AttrType<T> {
        AttrType::from(number)
    }

    fn to_wire(&self) -> u16 {
        u16::from(self)
    }

    ghost back_to_number = { number_of-type_of T.wire_number T.wire_value T.back_to_number };
}

/// Why no type field was built.
pub type AttrTypeBuilderError = BuildError<{ of::ATTR_TYPE }>;

/// A builder of type fields. By default neither flag is set.
#[derive(Debug, Drop)]
pub struct AttrTypeBuilder<T> {
    nla_nested: Option<bool>,
    nla_network_order: Option<bool>,
    nla_type: Option<T>,
}

impl<T> Default for AttrTypeBuilder<T> {
    ghost use Rattle.std.specs.Prelude.{◌≡◌, None};

    ghost is_default = { λ b. b ≡ record {
      nla_nested = None;
      nla_network_order = None;
      nla_type = None;
    } };

    fn default() -> AttrTypeBuilder<T> {
        AttrTypeBuilder {
            nla_nested: None,
            nla_network_order: None,
            nla_type: None,
        }
    }
}

impl<T: Drop> AttrTypeBuilder<T> {
    /// Whether the payload is a list of attributes; false by default.
    pub fn nla_nested(mut self, value: bool) -> Self
        ensures { result ≡ record self { nla_nested = Some value } }
    {
        self.nla_nested = Some(value);
        self
    }

    /// Whether the payload is in network byte order; false by default.
    pub fn nla_network_order(mut self, value: bool) -> Self
        ensures { result ≡ record self { nla_network_order = Some value } }
    {
        self.nla_network_order = Some(value);
        self
    }

    /// The type without its flags.
    pub fn nla_type(mut self, value: T) -> Self
        ensures { result ≡ record self { nla_type = Some value } }
    {
        self.nla_type = Some(value);
        self
    }

    /// Builds the type field. Only the type itself can be missing. It takes no memory.
    pub fn build(self) -> Result<AttrType<T>, AttrTypeBuilderError>
        ensures built { IfOk result (λ t. built_attr_type self ≡ Ok t) }
        ensures refused { IfErr result (IsWhyNot (built_attr_type self)) }
        ensures no_memory { IfErr result (λ e. e ≡ BuildError.Memory → ⊥) }
    {
        Ok(AttrType {
            nla_nested: self.nla_nested.unwrap_or(false),
            nla_network_order: self.nla_network_order.unwrap_or(false),
            nla_type: self
                .nla_type
                .ok_or(UninitializedFieldError::new("nla_type"))?,
        })
    }
}
