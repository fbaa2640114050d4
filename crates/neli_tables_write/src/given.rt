//! Values, as they are given.

ghost use Rattle.std.specs.Prelude.{◌≡◌};
ghost use Rattle.neli_tables_write.specs.Integers.{integer_value};

use crate::Integer;

/// A value, as it is given.
#[derive(Clone, Copy, Debug)]
pub enum Given<'v> {
    /// Nothing, of an attribute that is a flag.
    Nothing,
    /// A number.
    Number(Integer),
    /// A text, of a text; or what its kind prints as one: an address, the name of a number or of bits.
    Text(&'v str),
    /// Bytes as they are, of any kind.
    Bytes(&'v [u8]),
}

impl From<()> for Given<'_> {
    ghost use Rattle.neli_tables_write.specs.declared.given.Given.TheVariants.{Nothing};

    ghost from_gives = { λ _ given. given ≡ Nothing };

    fn from(_: ()) -> Self {
        Given::Nothing
    }
}

impl<'v> From<&'v str> for Given<'v> {
    ghost use Rattle.neli_tables_write.specs.declared.given.Given.TheVariants.{Text};

    ghost from_gives = { λ text given. given ≡ Text text };

    fn from(text: &'v str) -> Self {
        Given::Text(text)
    }
}

impl<'v> From<&'v [u8]> for Given<'v> {
    ghost use Rattle.neli_tables_write.specs.declared.given.Given.TheVariants.{Bytes};

    ghost from_gives = { λ bytes given. given ≡ Bytes bytes };

    fn from(bytes: &'v [u8]) -> Self {
        Given::Bytes(bytes)
    }
}

impl From<u8> for Given<'_> {
    ghost use Rattle.neli_tables_write.specs.declared.given.Given.TheVariants.{Number};
    ghost use Rattle.neli_tables_write.specs.declared.integer.Integer.TheVariants.{Unsigned};

    ghost from_gives = { λ number given. given ≡ Number (Unsigned number) };

    fn from(number: u8) -> Self {
        Given::Number(Integer::Unsigned(number as u64))
    }
}

impl From<u16> for Given<'_> {
    ghost use Rattle.neli_tables_write.specs.declared.given.Given.TheVariants.{Number};
    ghost use Rattle.neli_tables_write.specs.declared.integer.Integer.TheVariants.{Unsigned};

    ghost from_gives = { λ number given. given ≡ Number (Unsigned number) };

    fn from(number: u16) -> Self {
        Given::Number(Integer::Unsigned(number as u64))
    }
}

impl From<u32> for Given<'_> {
    ghost use Rattle.neli_tables_write.specs.declared.given.Given.TheVariants.{Number};
    ghost use Rattle.neli_tables_write.specs.declared.integer.Integer.TheVariants.{Unsigned};

    ghost from_gives = { λ number given. given ≡ Number (Unsigned number) };

    fn from(number: u32) -> Self {
        Given::Number(Integer::Unsigned(number as u64))
    }
}

impl From<u64> for Given<'_> {
    ghost use Rattle.neli_tables_write.specs.declared.given.Given.TheVariants.{Number};
    ghost use Rattle.neli_tables_write.specs.declared.integer.Integer.TheVariants.{Unsigned};

    ghost from_gives = { λ number given. given ≡ Number (Unsigned number) };

    fn from(number: u64) -> Self {
        Given::Number(Integer::Unsigned(number))
    }
}

impl From<i32> for Given<'_> {
    ghost use Rattle.neli_tables_write.specs.declared.given.Given.TheVariants.{Number};
    ghost use Rattle.neli_tables_write.specs.declared.integer.Integer.TheVariants.{Signed};

    ghost from_gives = { λ number given. given ≡ Number (Signed number) };

    fn from(number: i32) -> Self {
        Given::Number(Integer::Signed(number as i64))
    }
}

impl From<i64> for Given<'_> {
    ghost use Rattle.neli_tables_write.specs.declared.given.Given.TheVariants.{Number};
    ghost use Rattle.neli_tables_write.specs.declared.integer.Integer.TheVariants.{Signed};

    ghost from_gives = { λ number given. given ≡ Number (Signed number) };

    fn from(number: i64) -> Self {
        Given::Number(Integer::Signed(number))
    }
}
