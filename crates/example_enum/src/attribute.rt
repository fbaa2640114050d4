//! Attributes of wireless links.

ghost use Rattle.std.proofs.Common.{rules};
ghost use Rattle.example_enum.specs.WirelessAttribute.{wireless_attribute_number, wireless_attribute_of};
ghost use Rattle.neli.specs.wire.laws.Constants.{first_with-number};

use neli::consts::Constant;
use neli::consts::genl::NlAttrType;

/// Attributes of wireless links: `NL80211_ATTR_*` of `linux/nl80211.h`, a few of them.
#[derive(Clone, Copy, Debug, PartialEq, Eq)]
pub enum WirelessAttribute {
    /// The index of the link, in four bytes.
    Ifindex,
    /// The name of the link, with a zero at its end.
    Ifname,
    /// The hardware address.
    Mac,
    UnrecognizedConst(u16),
}

impl Constant for WirelessAttribute {
    type Number = u16;

    ghost wire_number = { wireless_attribute_number };

    ghost wire_value = { wireless_attribute_of };

    fn from_wire(number: u16) -> WirelessAttribute {
        match number {
            3 => WirelessAttribute::Ifindex,
            4 => WirelessAttribute::Ifname,
            6 => WirelessAttribute::Mac,
            _ => WirelessAttribute::UnrecognizedConst(number),
        }
    }

    fn to_wire(&self) -> u16 {
        match self {
            WirelessAttribute::Ifindex => 3,
            WirelessAttribute::Ifname => 4,
            WirelessAttribute::Mac => 6,
            WirelessAttribute::UnrecognizedConst(number) => *number,
        }
    }

    ghost back_to_number = { λ n _. Prim.search (first_with-number, rules) };
}

impl NlAttrType for WirelessAttribute {}
