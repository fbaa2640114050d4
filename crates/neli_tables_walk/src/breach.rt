//! How a payload cannot be of its kind.

ghost use Rattle.std.specs.Prelude.{◌≡◌, Some};
ghost use Rattle.neli_tables_walk.specs.Breaches.{breach_text, cell_breach, ends_in_zero, form_breach};
ghost use Rattle.neli_tables_walk.specs.Breaches.{parts_breach};
ghost use Rattle.neli_tables_walk.specs.Breaches.{plain_breach, size_breach, text_breach, without_zero};
ghost use Rattle.neli_tables_walk.specs.Breaches.{zero_text_breach, address_breach, socket_breach};

use crate::form::{Cell, Form, Plain};
use crate::quoted::text_in;
use crate::socket::{is_v4, is_v6};
use std::fmt;

/// How a payload cannot be of its kind.
#[derive(Clone, Copy, Debug, PartialEq, Eq)]
pub enum Breach {
    /// It is shorter than so many bytes.
    Shorter(usize),
    /// It is longer than so many bytes.
    Longer(usize),
    /// It is no whole number of parts of so many bytes.
    Uneven(usize),
    /// It is a text that is not UTF-8.
    NotText,
    /// It is a text without the zero at its end.
    NoZero,
    /// It is an address of IP of neither 4 nor 16 bytes.
    NoAddress,
    /// It is neither a `struct sockaddr_in` nor a `struct sockaddr_in6`.
    NoSocket,
}

impl fmt::Display for Breach {
    ghost output = { λ b. Some (breach_text b) };

    fn fmt<W: fmt::Write>(&self, f: &mut fmt::Formatter<W>) -> fmt::Result {
        match self {
            Breach::Shorter(size) => write!(f, "shorter than {size} bytes"),
            Breach::Longer(size) => write!(f, "longer than {size} bytes"),
            Breach::Uneven(size) => write!(f, "no whole parts of {size} bytes"),
            Breach::NotText => write!(f, "not UTF-8"),
            Breach::NoZero => write!(f, "no zero at the end"),
            Breach::NoAddress => write!(f, "no address of 4 or 16 bytes"),
            Breach::NoSocket => write!(f, "no address of a socket"),
        }
    }
}

/// Whether the last byte is a zero.
fn ends_in_zero(bytes: &[u8]) -> bool
    ensures { result ≡ ends_in_zero bytes.now }
{
    let size = bytes.len();
    0 < size && bytes[size - 1] == 0
}

/// The bytes before a zero at the end.
pub fn without_zero(bytes: &[u8]) -> &[u8]
    ensures { result.now ≡ without_zero bytes.now }
{
    if ends_in_zero(bytes) {
        &bytes[..bytes.len() - 1]
    } else {
        bytes
    }
}

/// How bytes are not of this size.
fn size_breach(size: usize, bytes: &[u8]) -> Option<Breach>
    ensures { result ≡ size_breach size bytes.now }
{
    if bytes.len() < size {
        Some(Breach::Shorter(size))
    } else if size < bytes.len() {
        Some(Breach::Longer(size))
    } else {
        None
    }
}

/// How bytes are no parts of this size.
fn parts_breach(size: usize, bytes: &[u8]) -> Option<Breach>
    ensures { result ≡ parts_breach size bytes.now }
{
    if size == 0 || bytes.len() % size != 0 {
        Some(Breach::Uneven(size))
    } else {
        None
    }
}

/// How bytes are no text.
fn text_breach(bytes: &[u8]) -> Option<Breach>
    ensures { result ≡ text_breach bytes.now }
{
    match text_in(without_zero(bytes)) {
        Some(_) => None,
        None => Some(Breach::NotText),
    }
}

/// How bytes are no text with a zero at its end.
fn zero_text_breach(bytes: &[u8]) -> Option<Breach>
    ensures { result ≡ zero_text_breach bytes.now }
{
    if ends_in_zero(bytes) {
        text_breach(bytes)
    } else {
        Some(Breach::NoZero)
    }
}

/// How bytes are no address of IP.
fn address_breach(bytes: &[u8]) -> Option<Breach>
    ensures { result ≡ address_breach bytes.now }
{
    if bytes.len() == 4 || bytes.len() == 16 {
        None
    } else {
        Some(Breach::NoAddress)
    }
}

/// How bytes are no address of a socket.
fn socket_breach(bytes: &[u8]) -> Option<Breach>
    ensures { result ≡ socket_breach bytes.now }
{
    if is_v4(bytes) || is_v6(bytes) {
        None
    } else {
        Some(Breach::NoSocket)
    }
}

/// How bytes are not what they are to be, where that is no structure.
pub fn plain_breach(plain: Plain, bytes: &[u8]) -> Option<Breach>
    ensures { result ≡ plain_breach plain bytes.now }
{
    match plain {
        Plain::Flag => size_breach(0, bytes),
        Plain::Number(width) => size_breach(width.size, bytes),
        Plain::Numbers(width) => parts_breach(width.size, bytes),
        Plain::Bits => size_breach(8, bytes),
        Plain::Text => text_breach(bytes),
        Plain::ZeroText => zero_text_breach(bytes),
        Plain::Ipv4 => size_breach(4, bytes),
        Plain::Ipv6 | Plain::Uuid => size_breach(16, bytes),
        Plain::Ip => address_breach(bytes),
        Plain::Socket => socket_breach(bytes),
        Plain::Hardware | Plain::Bytes => None,
    }
}

/// The same of structures, one after the other.
pub fn cell_breach(cell: Cell, bytes: &[u8]) -> Option<Breach>
    ensures { result ≡ cell_breach cell bytes.now }
{
    match cell {
        Cell::Plain(plain) => plain_breach(plain, bytes),
        Cell::Structures(_, size) => parts_breach(size, bytes),
    }
}

/// The same of all. One structure may be short, and longer than it was.
pub fn form_breach(form: Form, bytes: &[u8]) -> Option<Breach>
    ensures { result ≡ form_breach form bytes.now }
{
    match form {
        Form::Cell(cell) => cell_breach(cell, bytes),
        Form::Fields(_) => None,
    }
}
