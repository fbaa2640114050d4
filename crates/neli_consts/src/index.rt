//! Attributes that are numbered instead of named.

ghost use Rattle.std.specs.Prelude.{◌≡◌, refl};
ghost use Rattle.neli_consts.specs.Index.{index_number, index_of};

use neli_wire::Constant;

/// The place of an attribute in a list whose elements have no names, as the groups inside
/// [`crate::CtrlAttr::McastGroups`]. Every number is a place.
#[derive(Clone, Copy, Debug, PartialEq, Eq)]
pub struct Index(u16);

impl From<u16> for Index {
    ghost from_gives = { λ number value. value ≡ index_of number };

    fn from(number: u16) -> Index {
        Index(number)
    }
}

impl From<Index> for u16 {
    ghost from_gives = { λ value number. number ≡ index_number value };

    fn from(value: Index) -> u16 {
        value.0
    }
}

impl From<&Index> for u16 {
    ghost from_gives = { λ value number. number ≡ index_number value.now };

    fn from(value: &Index) -> u16 {
        value.0
    }
}

impl Constant for Index {
    type Number = u16;

    ghost wire_number = { index_number };

    ghost wire_value = { index_of };

    fn from_wire(number: u16) -> Index {
        Index::from(number)
    }

    fn to_wire(&self) -> u16 {
        u16::from(self)
    }

    ghost back_to_number = { λ _ _. refl };
}
