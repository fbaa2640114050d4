//! Numbers by the names that a table has for them.

ghost use Rattle.std.specs.Prelude.{◌≡◌, Some};
ghost use Rattle.std.specs.Option.{option_map};
ghost use Rattle.neli_tables_walk.specs.Named.{name_of, number_json, number_text, part_json, part_text};

use crate::flags::{Flags, FlagsJson, FlagsText};
use crate::hex::{Bytes, BytesJson};
use crate::name::{Name, NameJson};
use crate::number::{Number, NumberJson, NumberText, Width, number_in};
use neli_tables::{Options, Table};
use std::fmt;
use std::fmt::Display;

/// A number, and the options that say its names.
#[derive(Clone, Copy)]
pub struct Named<'w, 't> {
    /// The table.
    pub table: &'w Table<'t>,
    /// The options of the line.
    pub options: &'w Options,
    /// The number.
    pub number: Number,
}

impl<'w, 't> Named<'w, 't> {
    /// The name of the number by the enum that the options mean.
    fn name(&self) -> Option<&'t [u8]>
        ensures { option_map (λ name. name.now) result
            ≡ name_of self.now.table.now self.now.options.now.values self.now.number.bits }
    {
        let place = self.table.row(self.options.values?, self.number.bits)?;
        Some(self.table.line(place)?.name)
    }

    /// The bits of the number, and the flag set that the options mean.
    fn flags(&self, place: usize) -> Flags<'w, 't>
        ensures { result ≡ record {
          table = self.now.table;
          place = place;
          bits = self.now.number.bits;
        } }
    {
        Flags {
            table: self.table,
            place,
            bits: self.number.bits,
        }
    }
}

/// A number as text: by the names of its bits, by its name, or in digits.
#[derive(Clone, Copy)]
pub struct NamedText<'w, 't>(pub Named<'w, 't>);

impl fmt::Display for NamedText<'_, '_> {
    ghost output = { λ n. Some (number_text n.0.table.now n.0.options.now n.0.number) };

    fn fmt<W: fmt::Write>(&self, f: &mut fmt::Formatter<W>) -> fmt::Result {
        if let Some(place) = self.0.options.flags {
            let flags = FlagsText(self.0.flags(place));
            return Display::fmt(&flags, f);
        }
        match self.0.name() {
            Some(name) => {
                let name = Name(name);
                Display::fmt(&name, f)
            }
            None => {
                let number = NumberText {
                    number: self.0.number,
                    is_hex: self.0.options.hex,
                };
                Display::fmt(&number, f)
            }
        }
    }
}

/// A number in JSON: an array of the names of its bits, its name, or a number.
#[derive(Clone, Copy)]
pub struct NamedJson<'w, 't>(pub Named<'w, 't>);

impl fmt::Display for NamedJson<'_, '_> {
    ghost output = { λ n. Some (number_json n.0.table.now n.0.options.now n.0.number) };

    fn fmt<W: fmt::Write>(&self, f: &mut fmt::Formatter<W>) -> fmt::Result {
        if let Some(place) = self.0.options.flags {
            let flags = FlagsJson(self.0.flags(place));
            return Display::fmt(&flags, f);
        }
        match self.0.name() {
            Some(name) => {
                let name = NameJson(name);
                Display::fmt(&name, f)
            }
            None => {
                let number = NumberJson(self.0.number);
                Display::fmt(&number, f)
            }
        }
    }
}

/// Bytes that are to be a number, and the options that say its names.
#[derive(Clone, Copy)]
pub struct Part<'b, 'w, 't> {
    /// The table.
    pub table: &'w Table<'t>,
    /// The options of the line.
    pub options: &'w Options,
    /// How the number lies in its bytes.
    pub width: Width,
    /// The bytes.
    pub bytes: &'b [u8],
}

/// A number in bytes as text; bytes where they are more or fewer than it has.
#[derive(Clone, Copy)]
pub struct PartText<'b, 'w, 't>(pub Part<'b, 'w, 't>);

impl fmt::Display for PartText<'_, '_, '_> {
    ghost output = { λ p. Some (part_text p.0.table.now p.0.options.now p.0.width p.0.bytes.now) };

    fn fmt<W: fmt::Write>(&self, f: &mut fmt::Formatter<W>) -> fmt::Result {
        let Part {
            table,
            options,
            width,
            bytes,
        } = self.0;
        match number_in(width, bytes) {
            Some(number) => {
                let number = NamedText(Named {
                    table,
                    options,
                    number,
                });
                Display::fmt(&number, f)
            }
            None => {
                let bytes = Bytes(bytes);
                Display::fmt(&bytes, f)
            }
        }
    }
}

/// A number in bytes in JSON; bytes where they are more or fewer than it has.
#[derive(Clone, Copy)]
pub struct PartJson<'b, 'w, 't>(pub Part<'b, 'w, 't>);

impl fmt::Display for PartJson<'_, '_, '_> {
    ghost output = { λ p. Some (part_json p.0.table.now p.0.options.now p.0.width p.0.bytes.now) };

    fn fmt<W: fmt::Write>(&self, f: &mut fmt::Formatter<W>) -> fmt::Result {
        let Part {
            table,
            options,
            width,
            bytes,
        } = self.0;
        match number_in(width, bytes) {
            Some(number) => {
                let number = NamedJson(Named {
                    table,
                    options,
                    number,
                });
                Display::fmt(&number, f)
            }
            None => {
                let bytes = BytesJson(bytes);
                Display::fmt(&bytes, f)
            }
        }
    }
}
