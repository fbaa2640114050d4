//! Numbers in decimal digits, written by pieces of two, and of one where the first stands alone.

ghost use Rattle.std.specs.Prelude.{◌≡◌, ◌<◌, Some};
ghost use Rattle.std.specs.Fmt.{WritesOnOk, decimal, signed_decimal};
ghost use Rattle.neli_tables_walk.specs.Digits.{two_digits};

use std::fmt;
use std::fmt::Display;

/// Two digits for each number from 0 to 99, one after the other.
const PAIRS: &str = "\
0001020304050607080910111213141516171819202122232425262728293031323334353637383940414243444546474849\
5051525354555657585960616263646566676869707172737475767778798081828384858687888990919293949596979899";

/// The digit of a number below 10.
#[inline(always)]
fn digit(number: u64) -> &'static str
    requires { number < 10 }
    ensures { result.now ≡ decimal number }
{
    let at = number as usize * 2 + 1;
    &PAIRS[at..at + 1]
}

/// The two digits of a number below 100.
#[inline(always)]
fn two_digits(number: u64) -> &'static str
    requires { number < 100 }
    ensures { result.now ≡ two_digits number }
{
    let at = number as usize * 2;
    &PAIRS[at..at + 2]
}

/// Prints a number in decimal digits: its hundreds, and then the two digits behind them.
#[tactic(auto, using(crate::proofs::Pairs::decimal_two, crate::proofs::Pairs::written_more))]
fn write_decimal<W: fmt::Write>(number: u64, f: &mut fmt::Formatter<W>) -> fmt::Result
    ensures { WritesOnOk W.Write.write_str_gives f.old result (decimal number) f.new }
{
    if number < 10 {
        f.write_str(digit(number))
    } else if number < 100 {
        f.write_str(two_digits(number))
    } else {
        write_decimal(number / 100, f)?;
        f.write_str(two_digits(number % 100))
    }
}

/// A number in decimal digits.
#[derive(Clone, Copy)]
pub struct Decimal(pub u64);

impl fmt::Display for Decimal {
    ghost output = { λ d. Some (decimal d.0) };

    #[inline(always)]
    #[tactic(auto, using(crate::proofs::Pairs::decimal_two, crate::proofs::Pairs::written_more))]
    fn fmt<W: fmt::Write>(&self, f: &mut fmt::Formatter<W>) -> fmt::Result {
        if self.0 < 10 {
            return f.write_str(digit(self.0));
        }
        write_decimal(self.0, f)
    }
}

/// A number with a sign in decimal digits.
#[derive(Clone, Copy)]
pub struct SignedDecimal(pub i64);

impl fmt::Display for SignedDecimal {
    ghost output = { λ d. Some (signed_decimal d.0) };

    fn fmt<W: fmt::Write>(&self, f: &mut fmt::Formatter<W>) -> fmt::Result {
        if self.0 < 0 {
            f.write_str("-")?;
        }
        Display::fmt(&Decimal(self.0.unsigned_abs()), f)
    }
}
