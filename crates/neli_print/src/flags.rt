//! The flags of a message by name.

ghost use Rattle.std.specs.Prelude.{◌≡◌, Some, map};
ghost use Rattle.neli_print.specs.Flags.{after_flag, all_left, closing, flag_text, flags_from};
ghost use Rattle.neli_print.specs.Flags.{is_named, mark, rest_text};
ghost use Rattle.neli_print.specs.MessageFlags.{flag_view};

use crate::flag_rows::Row;
use crate::pieces::When;
use neli_tables_walk::Name;
use std::fmt;

/// The form of printed flags.
#[derive(Clone, Copy, Debug, PartialEq, Eq)]
pub(crate) enum FlagForm {
    /// Names with bars between them, and 0 without a flag.
    Bars,
    /// Strings of JSON with commas between them.
    Strings,
}

/// The flags that are left to be printed.
#[derive(Clone, Copy)]
struct Left {
    /// Their bits.
    bits: u32,
    /// Whether none is printed yet.
    is_first: bool,
}

impl FlagForm {
    /// What stands before a flag.
    fn mark(self, is_first: bool) -> &'static str
        ensures { result.now ≡ mark self is_first }
    {
        match self {
            FlagForm::Bars if is_first => "",
            FlagForm::Bars => "|",
            FlagForm::Strings if is_first => "\"",
            FlagForm::Strings => ",\"",
        }
    }

    /// What stands after a flag.
    fn closing(self) -> &'static str
        ensures { result.now ≡ closing self }
    {
        match self {
            FlagForm::Bars => "",
            FlagForm::Strings => "\"",
        }
    }
}

/// Whether a row is printed: the set has all of its bits, and some of them are left.
fn is_named(row: &Row, set: u32, left: u32) -> bool
    ensures { result ≡ is_named (flag_view row.now) set left }
{
    set & row.0 == row.0 && left & row.0 != 0
}

impl Left {
    /// What is left after a row.
    fn after(self, row: &Row, set: u32) -> Left
        ensures { result ≡ after_flag (flag_view row.now) set self }
    {
        if is_named(row, set, self.bits) {
            Left {
                bits: self.bits & !row.0,
                is_first: false,
            }
        } else {
            self
        }
    }
}

/// A row, where it is printed.
#[derive(Clone, Copy)]
struct Flag<'r> {
    form: FlagForm,
    set: u32,
    left: Left,
    row: &'r Row,
}

impl fmt::Display for Flag<'_> {
    ghost output = { λ r. Some (flag_text r.form r.set r.left (flag_view r.row.now)) };

    fn fmt<W: fmt::Write>(&self, f: &mut fmt::Formatter<W>) -> fmt::Result {
        if is_named(self.row, self.set, self.left.bits) {
            let mark = self.form.mark(self.left.is_first);
            let name = Name(self.row.1.as_bytes());
            let closing = self.form.closing();
            write!(f, "{mark}NLM_F_{name}{closing}")
        } else {
            Ok(())
        }
    }
}

/// The bits that no row names.
#[derive(Clone, Copy)]
struct Rest {
    form: FlagForm,
    left: Left,
}

impl fmt::Display for Rest {
    ghost output = { λ r. Some (rest_text r.form r.left) };

    fn fmt<W: fmt::Write>(&self, f: &mut fmt::Formatter<W>) -> fmt::Result {
        let bits = self.left.bits;
        if bits != 0 {
            let mark = self.form.mark(self.left.is_first);
            let closing = self.form.closing();
            return write!(f, "{mark}0x{bits:x}{closing}");
        }
        let zero = When {
            holds: self.left.is_first && matches!(self.form, FlagForm::Bars),
            text: "0",
        };
        write!(f, "{zero}")
    }
}

/// The flags of a set by the names of these rows, and the bits without a name as one number.
#[derive(Clone, Copy)]
pub(crate) struct Flags {
    pub form: FlagForm,
    pub rows: &'static [Row],
    pub set: u32,
}

impl fmt::Display for Flags {
    ghost output = { λ s. Some (flags_from s.form s.set (all_left s.set)
        (map flag_view s.rows.now)) };

    fn fmt<W: fmt::Write>(&self, f: &mut fmt::Formatter<W>) -> fmt::Result {
        let mut left = Left {
            bits: self.set,
            is_first: true,
        };
        for row in self.rows {
            let flag = Flag {
                form: self.form,
                set: self.set,
                left,
                row,
            };
            write!(f, "{flag}")?;
            left = left.after(row, self.set);
        }
        let rest = Rest {
            form: self.form,
            left,
        };
        write!(f, "{rest}")
    }
}
