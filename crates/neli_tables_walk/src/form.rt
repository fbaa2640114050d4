//! What a payload is, by the options of its line.

ghost use Rattle.std.specs.Prelude.{◌≡◌};
ghost use Rattle.neli_tables_walk.specs.Forms.{cell_of, form_of, other_plain, plain_of, size_at};
ghost use Rattle.neli_tables_walk.specs.Forms.{struct_form};

use crate::number::{Width, width_of};
use neli_tables::{Kind, Options, Table};

/// What bytes are, where they are no structure.
#[derive(Clone, Copy, Debug, PartialEq, Eq)]
pub enum Plain {
    /// Nothing: that they are there says all.
    Flag,
    /// A number.
    Number(Width),
    /// Numbers, one after the other.
    Numbers(Width),
    /// `struct nla_bitfield32` of `linux/netlink.h`: bits, and which of them count.
    Bits,
    /// A text, at whose end a zero may be left out.
    Text,
    /// A text with a zero at its end.
    ZeroText,
    /// A hardware address.
    Hardware,
    /// An address of IP of four bytes.
    Ipv4,
    /// An address of IP of sixteen bytes.
    Ipv6,
    /// An address of IP of four or sixteen bytes.
    Ip,
    /// An address of a socket.
    Socket,
    /// Sixteen bytes in the form of RFC 4122.
    Uuid,
    /// Bytes.
    Bytes,
}

/// What bytes are, where they are not one structure.
#[derive(Clone, Copy, Debug, PartialEq, Eq)]
pub enum Cell {
    /// No structure.
    Plain(Plain),
    /// Structures, one after the other: that at this place, of so many bytes.
    Structures(usize, usize),
}

/// What bytes are.
#[derive(Clone, Copy, Debug, PartialEq, Eq)]
pub enum Form {
    /// Not one structure.
    Cell(Cell),
    /// The fields of the structure at this place.
    Fields(usize),
}

/// What bytes are by a kind that is no number's and no structure's.
fn other_plain(kind: Kind) -> Plain
    ensures { result ≡ other_plain kind }
{
    match kind {
        Kind::Flag => Plain::Flag,
        Kind::Text => Plain::Text,
        Kind::Ztext => Plain::ZeroText,
        Kind::Hardware => Plain::Hardware,
        Kind::Ipv4 => Plain::Ipv4,
        Kind::Ipv6 => Plain::Ipv6,
        Kind::Ip | Kind::Address => Plain::Ip,
        Kind::Sockaddr => Plain::Socket,
        Kind::Uuid => Plain::Uuid,
        Kind::Bits => Plain::Bits,
        _ => Plain::Bytes,
    }
}

/// What so many bytes are by these options, where they are no structure. What only a walk enters is
/// bytes.
pub fn plain_of(options: &Options, length: usize) -> Plain
    ensures { result ≡ plain_of options.now length }
{
    let Some(kind) = options.kind else {
        return Plain::Bytes;
    };
    match width_of(kind, if options.array { 0 } else { length }) {
        Some(width) if options.array => Plain::Numbers(width),
        Some(width) => Plain::Number(width),
        None => other_plain(kind),
    }
}

/// The size in bytes of the structure at this place; 0 where there is none.
pub fn size_at(table: &Table<'_>, place: usize) -> usize
    ensures { result ≡ size_at table.now place }
{
    match table.line(place) {
        Some(line) => match line.span {
            Some(span) => span.first as usize,
            None => 0,
        },
        None => 0,
    }
}

/// What bytes are by the options of a structure.
fn struct_form(table: &Table<'_>, options: &Options) -> Form
    ensures { result ≡ struct_form table.now options.now }
{
    match options.of {
        Some(place) if options.array => {
            Form::Cell(Cell::Structures(place, size_at(table, place)))
        }
        Some(place) => Form::Fields(place),
        None => Form::Cell(Cell::Plain(Plain::Bytes)),
    }
}

/// What so many bytes are by these options.
pub fn form_of(table: &Table<'_>, options: &Options, length: usize) -> Form
    ensures { result ≡ form_of table.now options.now length }
{
    match options.kind {
        Some(Kind::Struct) => struct_form(table, options),
        _ => Form::Cell(Cell::Plain(plain_of(options, length))),
    }
}

/// What so many bytes are by the options of a field. One structure in another one is bytes.
pub fn cell_of(table: &Table<'_>, options: &Options, length: usize) -> Cell
    ensures { result ≡ cell_of table.now options.now length }
{
    match form_of(table, options, length) {
        Form::Cell(cell) => cell,
        Form::Fields(_) => Cell::Plain(Plain::Bytes),
    }
}
