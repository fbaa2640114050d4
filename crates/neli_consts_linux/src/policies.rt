//! The kernel's policies for the attributes that it takes.

ghost use Rattle.std.proofs.Common.{rules};
ghost use Rattle.std.specs.Prelude.{◌≡◌};
ghost use Rattle.neli_consts_linux.specs.NlPolicyTypeAttr.{nl_policy_type_attr_number, nl_policy_type_attr_of};
ghost use Rattle.neli_consts_linux.specs.NlPolicyTypeAttr.{nl_policy_type_attr_is_unrecognized};
ghost use Rattle.neli_consts_linux.specs.NetlinkAttributeType.{netlink_attribute_type_number};
ghost use Rattle.neli_consts_linux.specs.NetlinkAttributeType.{netlink_attribute_type_of};
ghost use Rattle.neli_consts_linux.specs.NetlinkAttributeType.{netlink_attribute_type_is_unrecognized};
ghost use Rattle.neli_wire.specs.laws.Constants.{first_with-number};

use neli_consts::NlAttrType;
use neli_wire::Constant;

/// Attributes of a policy for one attribute: `NL_POLICY_TYPE_ATTR_*` of `linux/netlink.h`. They
/// stand in [`CtrlAttr::Policy`](crate::CtrlAttr::Policy) and in
/// [`NlmsgerrAttr::Policy`](neli_consts::NlmsgerrAttr::Policy).
#[derive(Clone, Copy, Debug, PartialEq, Eq)]
pub enum NlPolicyTypeAttr {
    /// No attribute: 0 stands for none.
    Unspec,
    /// The type of its value, a [`NetlinkAttributeType`].
    Type,
    /// The least signed value, in eight bytes.
    MinValueS,
    /// The largest signed value, in eight bytes.
    MaxValueS,
    /// The least unsigned value, in eight bytes.
    MinValueU,
    /// The largest unsigned value, in eight bytes.
    MaxValueU,
    /// The least length, in bytes.
    MinLength,
    /// The largest length, in bytes.
    MaxLength,
    /// The number of the policy for the attributes nested in it.
    PolicyIdx,
    /// The highest number of the attributes nested in it.
    PolicyMaxtype,
    /// The bits that may be set, of 32.
    Bitfield32Mask,
    /// Padding that aligns the next attribute to eight bytes.
    Pad,
    /// The bits that may be set, of an unsigned number, in eight bytes.
    Mask,
    /// A number without a name.
    UnrecognizedConst(u16),
}

impl NlPolicyTypeAttr {
    /// Whether the value is a number without a name, an `UnrecognizedConst`.
    pub fn is_unrecognized(&self) -> bool
        ensures { result ≡ nl_policy_type_attr_is_unrecognized self.now }
    {
        matches!(self, NlPolicyTypeAttr::UnrecognizedConst(_))
    }
}

impl From<u16> for NlPolicyTypeAttr {
    ghost from_gives = { λ number value. value ≡ nl_policy_type_attr_of number };

    fn from(number: u16) -> NlPolicyTypeAttr {
        match number {
            0 => NlPolicyTypeAttr::Unspec,
            1 => NlPolicyTypeAttr::Type,
            2 => NlPolicyTypeAttr::MinValueS,
            3 => NlPolicyTypeAttr::MaxValueS,
            4 => NlPolicyTypeAttr::MinValueU,
            5 => NlPolicyTypeAttr::MaxValueU,
            6 => NlPolicyTypeAttr::MinLength,
            7 => NlPolicyTypeAttr::MaxLength,
            8 => NlPolicyTypeAttr::PolicyIdx,
            9 => NlPolicyTypeAttr::PolicyMaxtype,
            10 => NlPolicyTypeAttr::Bitfield32Mask,
            11 => NlPolicyTypeAttr::Pad,
            12 => NlPolicyTypeAttr::Mask,
            _ => NlPolicyTypeAttr::UnrecognizedConst(number),
        }
    }
}

impl From<NlPolicyTypeAttr> for u16 {
    ghost from_gives = { λ value number. number ≡ nl_policy_type_attr_number value };

    fn from(value: NlPolicyTypeAttr) -> u16 {
        match value {
            NlPolicyTypeAttr::Unspec => 0,
            NlPolicyTypeAttr::Type => 1,
            NlPolicyTypeAttr::MinValueS => 2,
            NlPolicyTypeAttr::MaxValueS => 3,
            NlPolicyTypeAttr::MinValueU => 4,
            NlPolicyTypeAttr::MaxValueU => 5,
            NlPolicyTypeAttr::MinLength => 6,
            NlPolicyTypeAttr::MaxLength => 7,
            NlPolicyTypeAttr::PolicyIdx => 8,
            NlPolicyTypeAttr::PolicyMaxtype => 9,
            NlPolicyTypeAttr::Bitfield32Mask => 10,
            NlPolicyTypeAttr::Pad => 11,
            NlPolicyTypeAttr::Mask => 12,
            NlPolicyTypeAttr::UnrecognizedConst(number) => number,
        }
    }
}

impl Constant for NlPolicyTypeAttr {
    type Number = u16;

    ghost wire_number = { nl_policy_type_attr_number };

    ghost wire_value = { nl_policy_type_attr_of };

    fn from_wire(number: u16) -> NlPolicyTypeAttr {
        NlPolicyTypeAttr::from(number)
    }

    fn to_wire(&self) -> u16 {
        u16::from(*self)
    }

    ghost back_to_number = { λ n _. Prim.search (first_with-number, rules) };
}

impl NlAttrType for NlPolicyTypeAttr {}

/// The value of [`NlPolicyTypeAttr::Type`], the type of an attribute's value: `enum
/// netlink_attribute_type`, `NL_ATTR_TYPE_*`, of `linux/netlink.h`.
#[derive(Clone, Copy, Debug, PartialEq, Eq)]
pub enum NetlinkAttributeType {
    /// Not used.
    Invalid,
    /// No value: the attribute is present or absent.
    Flag,
    /// An unsigned number of 8 bits.
    U8,
    /// An unsigned number of 16 bits.
    U16,
    /// An unsigned number of 32 bits.
    U32,
    /// An unsigned number of 64 bits.
    U64,
    /// A signed number of 8 bits.
    S8,
    /// A signed number of 16 bits.
    S16,
    /// A signed number of 32 bits.
    S32,
    /// A signed number of 64 bits.
    S64,
    /// Bytes.
    Binary,
    /// A text.
    String,
    /// A text with a zero at its end.
    NulString,
    /// Attributes.
    Nested,
    /// Attributes whose numbers mean nothing, with attributes in each.
    NestedArray,
    /// 32 bits, and which of them are set.
    Bitfield32,
    /// A signed number of 32 or 64 bits.
    Sint,
    /// An unsigned number of 32 or 64 bits.
    Uint,
    /// A number without a name.
    UnrecognizedConst(u32),
}

impl NetlinkAttributeType {
    /// Whether the value is a number without a name, an `UnrecognizedConst`.
    pub fn is_unrecognized(&self) -> bool
        ensures { result ≡ netlink_attribute_type_is_unrecognized self.now }
    {
        matches!(self, NetlinkAttributeType::UnrecognizedConst(_))
    }
}

impl From<u32> for NetlinkAttributeType {
    ghost from_gives = { λ number value. value ≡ netlink_attribute_type_of number };

    fn from(number: u32) -> NetlinkAttributeType {
        match number {
            0 => NetlinkAttributeType::Invalid,
            1 => NetlinkAttributeType::Flag,
            2 => NetlinkAttributeType::U8,
            3 => NetlinkAttributeType::U16,
            4 => NetlinkAttributeType::U32,
            5 => NetlinkAttributeType::U64,
            6 => NetlinkAttributeType::S8,
            7 => NetlinkAttributeType::S16,
            8 => NetlinkAttributeType::S32,
            9 => NetlinkAttributeType::S64,
            10 => NetlinkAttributeType::Binary,
            11 => NetlinkAttributeType::String,
            12 => NetlinkAttributeType::NulString,
            13 => NetlinkAttributeType::Nested,
            14 => NetlinkAttributeType::NestedArray,
            15 => NetlinkAttributeType::Bitfield32,
            16 => NetlinkAttributeType::Sint,
            17 => NetlinkAttributeType::Uint,
            _ => NetlinkAttributeType::UnrecognizedConst(number),
        }
    }
}

impl From<NetlinkAttributeType> for u32 {
    ghost from_gives = { λ value number. number ≡ netlink_attribute_type_number value };

    fn from(value: NetlinkAttributeType) -> u32 {
        match value {
            NetlinkAttributeType::Invalid => 0,
            NetlinkAttributeType::Flag => 1,
            NetlinkAttributeType::U8 => 2,
            NetlinkAttributeType::U16 => 3,
            NetlinkAttributeType::U32 => 4,
            NetlinkAttributeType::U64 => 5,
            NetlinkAttributeType::S8 => 6,
            NetlinkAttributeType::S16 => 7,
            NetlinkAttributeType::S32 => 8,
            NetlinkAttributeType::S64 => 9,
            NetlinkAttributeType::Binary => 10,
            NetlinkAttributeType::String => 11,
            NetlinkAttributeType::NulString => 12,
            NetlinkAttributeType::Nested => 13,
            NetlinkAttributeType::NestedArray => 14,
            NetlinkAttributeType::Bitfield32 => 15,
            NetlinkAttributeType::Sint => 16,
            NetlinkAttributeType::Uint => 17,
            NetlinkAttributeType::UnrecognizedConst(number) => number,
        }
    }
}

impl Constant for NetlinkAttributeType {
    type Number = u32;

    ghost wire_number = { netlink_attribute_type_number };

    ghost wire_value = { netlink_attribute_type_of };

    fn from_wire(number: u32) -> NetlinkAttributeType {
        NetlinkAttributeType::from(number)
    }

    fn to_wire(&self) -> u32 {
        u32::from(*self)
    }

    ghost back_to_number = { λ n _. Prim.search (first_with-number, rules) };
}
