//! The names of the bits of a number.

ghost use Rattle.std.specs.Prelude.{Some};
ghost use Rattle.neli_tables_walk.specs.Flags.{bit_texts, flags_json, flags_text, in_quotes};
ghost use Rattle.neli_tables_walk.specs.Lists.{joined};

use crate::name::Name;
use neli_tables::{Table, is_set, unnamed_bits};
use std::fmt;

/// The names of the bits that are set, by a flag set's rows; last those without a name, as one
/// number.
#[derive(Clone, Copy)]
pub struct Flags<'w, 't> {
    /// The table.
    pub table: &'w Table<'t>,
    /// The place of the flag set.
    pub place: usize,
    /// The bits.
    pub bits: u64,
}

/// These names with a text between them, each between two quotes.
#[derive(Clone, Copy)]
struct Names<'w, 't, 's> {
    flags: Flags<'w, 't>,
    between: &'s str,
    quote: &'s str,
}

impl fmt::Display for Names<'_, '_, '_> {
    ghost output = { λ n. Some (joined n.between.now (in_quotes n.quote.now
        (bit_texts n.flags.table.now n.flags.place n.flags.bits))) };

    fn fmt<W: fmt::Write>(&self, f: &mut fmt::Formatter<W>) -> fmt::Result {
        let Flags { table, place, bits } = self.flags;
        let (between, quote) = (self.between, self.quote);
        let rows = table.rows(place);
        let mut before = "";
        for row in rows {
            if is_set(row, bits) {
                let name = Name(row.name);
                write!(f, "{before}{quote}{name}{quote}")?;
                before = between;
            }
        }
        let left = unnamed_bits(rows, bits);
        if left == 0 {
            return Ok(());
        }
        write!(f, "{before}{quote}0x{left:x}{quote}")
    }
}

/// The names of bits with bars between them; `0` where none is set.
#[derive(Clone, Copy)]
pub struct FlagsText<'w, 't>(pub Flags<'w, 't>);

impl fmt::Display for FlagsText<'_, '_> {
    ghost output = { λ t. Some (flags_text t.0.table.now t.0.place t.0.bits) };

    fn fmt<W: fmt::Write>(&self, f: &mut fmt::Formatter<W>) -> fmt::Result {
        if self.0.bits == 0 {
            return write!(f, "0");
        }
        let names = Names {
            flags: self.0,
            between: "|",
            quote: "",
        };
        write!(f, "{names}")
    }
}

/// The names of bits as an array of JSON's strings.
#[derive(Clone, Copy)]
pub struct FlagsJson<'w, 't>(pub Flags<'w, 't>);

impl fmt::Display for FlagsJson<'_, '_> {
    ghost output = { λ t. Some (flags_json t.0.table.now t.0.place t.0.bits) };

    fn fmt<W: fmt::Write>(&self, f: &mut fmt::Formatter<W>) -> fmt::Result {
        let names = Names {
            flags: self.0,
            between: ",",
            quote: "\"",
        };
        write!(f, "[{names}]")
    }
}
