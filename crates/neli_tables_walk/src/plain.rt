//! Payloads and fields that are no structures.

ghost use Rattle.std.specs.Prelude.{◌≡◌, Some, drop, take};
ghost use Rattle.neli_tables_walk.specs.Plains.{bits_json, bits_text, kept_plain, numbers_json};
ghost use Rattle.neli_tables_walk.specs.Plains.{numbers_text, plain_json, plain_text};
ghost use Rattle.neli_tables_walk.specs.Plains.{text_json, text_text};

use crate::breach::{plain_breach, without_zero};
use crate::form::{Plain, plain_of};
use crate::hex::{Bytes, BytesJson, Hardware, HardwareText, Uuid};
use crate::named::{Part, PartJson, PartText};
use crate::number::Width;
use crate::quoted::{Quoted, text_in};
use crate::socket::{AddressJson, AddressText, SocketJson, SocketText};
use neli_tables::{Options, Table};
use std::fmt;
use std::fmt::Display;

/// Bytes, what they are, and the options that say the names of their values.
#[derive(Clone, Copy)]
pub struct Item<'b, 'w, 't> {
    /// The table.
    pub table: &'w Table<'t>,
    /// The options of the line.
    pub options: &'w Options,
    /// What the bytes are.
    pub plain: Plain,
    /// The bytes.
    pub bytes: &'b [u8],
}

/// Each half of `struct nla_bitfield32`: a number of four bytes.
const BITS: Width = Width {
    size: 4,
    is_big: false,
    is_signed: false,
};

/// The first four bytes, and the others.
fn halves(bytes: &[u8]) -> (&[u8], &[u8])
    ensures first { result.0.now ≡ take 4 bytes.now }
    ensures second { result.1.now ≡ drop 4 bytes.now }
{
    bytes.split_at(bytes.len().min(4))
}

/// What bytes are by these options, where that is no structure; bytes that cannot be so are bytes.
fn kept_plain(options: &Options, bytes: &[u8]) -> Plain
    ensures { result ≡ kept_plain options.now bytes.now }
{
    let plain = plain_of(options, bytes.len());
    match plain_breach(plain, bytes) {
        Some(_) => Plain::Bytes,
        None => plain,
    }
}

impl<'b, 'w, 't> Item<'b, 'w, 't> {
    /// Bytes, as what they are by these options.
    pub fn of(table: &'w Table<'t>, options: &'w Options, bytes: &'b [u8]) -> Item<'b, 'w, 't>
        ensures { result ≡ record {
          table = table.entry;
          options = options.entry;
          plain = kept_plain options.now bytes.now;
          bytes = bytes.entry;
        } }
    {
        let plain = kept_plain(options, bytes);
        Item {
            table,
            options,
            plain,
            bytes,
        }
    }

    /// These of its bytes, which are to be a number.
    fn part(&self, width: Width, bytes: &'b [u8]) -> Part<'b, 'w, 't>
        ensures { result ≡ record {
          table = self.now.table;
          options = self.now.options;
          width = width;
          bytes = bytes.entry;
        } }
    {
        Part {
            table: self.table,
            options: self.options,
            width,
            bytes,
        }
    }
}

/// A text in quotes; bytes that are no text as these.
#[derive(Clone, Copy)]
struct TextText<'b>(&'b [u8]);

impl fmt::Display for TextText<'_> {
    ghost output = { λ t. Some (text_text t.0.now) };

    fn fmt<W: fmt::Write>(&self, f: &mut fmt::Formatter<W>) -> fmt::Result {
        match text_in(self.0) {
            Some(text) => {
                let text = Quoted(text);
                Display::fmt(&text, f)
            }
            None => {
                let bytes = Bytes(self.0);
                Display::fmt(&bytes, f)
            }
        }
    }
}

/// The same in JSON.
#[derive(Clone, Copy)]
struct TextJson<'b>(&'b [u8]);

impl fmt::Display for TextJson<'_> {
    ghost output = { λ t. Some (text_json t.0.now) };

    fn fmt<W: fmt::Write>(&self, f: &mut fmt::Formatter<W>) -> fmt::Result {
        match text_in(self.0) {
            Some(text) => {
                let text = Quoted(text);
                Display::fmt(&text, f)
            }
            None => {
                let bytes = BytesJson(self.0);
                Display::fmt(&bytes, f)
            }
        }
    }
}

/// Numbers, each after a blank.
#[derive(Clone, Copy)]
struct NumbersText<'b, 'w, 't> {
    item: Item<'b, 'w, 't>,
    width: Width,
}

impl fmt::Display for NumbersText<'_, '_, '_> {
    ghost output = { λ n. Some
        (numbers_text n.item.table.now n.item.options.now n.width n.item.bytes.now) };

    fn fmt<W: fmt::Write>(&self, f: &mut fmt::Formatter<W>) -> fmt::Result {
        for bytes in self.item.bytes.chunks(self.width.size.max(1)) {
            let part = PartText(self.item.part(self.width, bytes));
            write!(f, " {part}")?;
        }
        Ok(())
    }
}

/// Numbers with commas between them.
#[derive(Clone, Copy)]
struct NumbersJson<'b, 'w, 't> {
    item: Item<'b, 'w, 't>,
    width: Width,
}

impl fmt::Display for NumbersJson<'_, '_, '_> {
    ghost output = { λ n. Some
        (numbers_json n.item.table.now n.item.options.now n.width n.item.bytes.now) };

    fn fmt<W: fmt::Write>(&self, f: &mut fmt::Formatter<W>) -> fmt::Result {
        let mut comma = "";
        for bytes in self.item.bytes.chunks(self.width.size.max(1)) {
            let part = PartJson(self.item.part(self.width, bytes));
            write!(f, "{comma}{part}")?;
            comma = ",";
        }
        Ok(())
    }
}

/// Bits, and which of them count.
#[derive(Clone, Copy)]
struct BitsText<'b, 'w, 't>(Item<'b, 'w, 't>);

impl fmt::Display for BitsText<'_, '_, '_> {
    ghost output = { λ b. Some (bits_text b.0.table.now b.0.options.now b.0.bytes.now) };

    fn fmt<W: fmt::Write>(&self, f: &mut fmt::Formatter<W>) -> fmt::Result {
        let (bits, mask) = halves(self.0.bytes);
        let bits = PartText(self.0.part(BITS, bits));
        let mask = PartText(self.0.part(BITS, mask));
        write!(f, "value {bits} selector {mask}")
    }
}

/// The same in JSON: an object.
#[derive(Clone, Copy)]
struct BitsJson<'b, 'w, 't>(Item<'b, 'w, 't>);

impl fmt::Display for BitsJson<'_, '_, '_> {
    ghost output = { λ b. Some (bits_json b.0.table.now b.0.options.now b.0.bytes.now) };

    fn fmt<W: fmt::Write>(&self, f: &mut fmt::Formatter<W>) -> fmt::Result {
        let (bits, mask) = halves(self.0.bytes);
        let bits = PartJson(self.0.part(BITS, bits));
        let mask = PartJson(self.0.part(BITS, mask));
        write!(f, "{{\"value\":{bits},\"selector\":{mask}}}")
    }
}

/// What bytes are, as text: each value after a blank; of a flag nothing.
#[derive(Clone, Copy)]
pub struct ItemText<'b, 'w, 't>(pub Item<'b, 'w, 't>);

impl fmt::Display for ItemText<'_, '_, '_> {
    ghost output = { λ i. Some (plain_text i.0.table.now i.0.options.now i.0.plain i.0.bytes.now) };

    fn fmt<W: fmt::Write>(&self, f: &mut fmt::Formatter<W>) -> fmt::Result {
        let bytes = self.0.bytes;
        match self.0.plain {
            Plain::Flag => Ok(()),
            Plain::Number(width) => write!(f, " {}", PartText(self.0.part(width, bytes))),
            Plain::Numbers(width) => write!(
                f,
                "{}",
                NumbersText {
                    item: self.0,
                    width
                }
            ),
            Plain::Bits => write!(f, " {}", BitsText(self.0)),
            Plain::Text | Plain::ZeroText => write!(f, " {}", TextText(without_zero(bytes))),
            Plain::Hardware => write!(f, " {}", HardwareText(bytes)),
            Plain::Ipv4 | Plain::Ipv6 | Plain::Ip => write!(f, " {}", AddressText(bytes)),
            Plain::Socket => write!(f, " {}", SocketText(bytes)),
            Plain::Uuid => write!(f, " {}", Uuid(bytes)),
            Plain::Bytes => write!(f, " {}", Bytes(bytes)),
        }
    }
}

/// What bytes are, as a value of JSON.
#[derive(Clone, Copy)]
pub struct ItemJson<'b, 'w, 't>(pub Item<'b, 'w, 't>);

impl fmt::Display for ItemJson<'_, '_, '_> {
    ghost output = { λ i. Some (plain_json i.0.table.now i.0.options.now i.0.plain i.0.bytes.now) };

    fn fmt<W: fmt::Write>(&self, f: &mut fmt::Formatter<W>) -> fmt::Result {
        let bytes = self.0.bytes;
        match self.0.plain {
            Plain::Flag => write!(f, "true"),
            Plain::Number(width) => Display::fmt(&PartJson(self.0.part(width, bytes)), f),
            Plain::Numbers(width) => write!(
                f,
                "[{}]",
                NumbersJson {
                    item: self.0,
                    width
                }
            ),
            Plain::Bits => Display::fmt(&BitsJson(self.0), f),
            Plain::Text | Plain::ZeroText => Display::fmt(&TextJson(without_zero(bytes)), f),
            Plain::Hardware => write!(f, "\"{}\"", Hardware(bytes)),
            Plain::Ipv4 | Plain::Ipv6 | Plain::Ip => Display::fmt(&AddressJson(bytes), f),
            Plain::Socket => Display::fmt(&SocketJson(bytes), f),
            Plain::Uuid => write!(f, "\"{}\"", Uuid(bytes)),
            Plain::Bytes => Display::fmt(&BytesJson(bytes), f),
        }
    }
}
