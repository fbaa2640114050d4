//! A datagram: messages, and the fault after them.

ghost use Rattle.std.specs.Prelude.{◌≡◌, Some};
ghost use Rattle.neli_lent.specs.Messages.{message_view};
ghost use Rattle.neli_print.specs.Messages.{datagram_json, datagram_text, fault_json, fault_line};
ghost use Rattle.neli_print.specs.Messages.{place_behind};

use crate::fault::Fault;
use crate::message::{Message, MessageJson, MessageText};
use crate::pieces::{Colour, escape};
use neli_lent::{LentMessage, LentMessages};
use neli_tables::Tables;
use neli_wire::DeError;
use neli_wire::implementing::padded_length;
use std::fmt;

/// A datagram of a protocol (`NETLINK_*` of `linux/netlink.h`), and the tables that it is read by.
#[derive(Clone, Copy)]
pub struct Datagram<'b, 'w, 't> {
    /// The tables.
    pub tables: &'w Tables<'t>,
    /// The protocol.
    pub protocol: u16,
    /// Its bytes.
    pub bytes: &'b [u8],
}

/// The place behind a message that begins at this one, at most the largest `u64`.
fn place_behind(place: u64, message: &LentMessage<'_, u16>) -> u64
    ensures { result ≡ place_behind place (message_view message.now) }
{
    let length = padded_length(*message.nl_len() as usize);
    place.saturating_add(length as u64)
}

/// A fault and its place, as a line.
#[derive(Clone, Copy)]
struct FaultLine<'e> {
    is_coloured: bool,
    place: u64,
    error: &'e DeError,
}

impl fmt::Display for FaultLine<'_> {
    ghost output = { λ l. Some (fault_line l.is_coloured l.place l.error.now) };

    fn fmt<W: fmt::Write>(&self, f: &mut fmt::Formatter<W>) -> fmt::Result {
        let start = escape(self.is_coloured, Colour::Error);
        let end = escape(self.is_coloured, Colour::End);
        let place = self.place;
        let fault = Fault(self.error);
        write!(f, "{start}fault{end}: at {place}: {fault}\n")
    }
}

/// A fault and its place, as an object on a line.
#[derive(Clone, Copy)]
struct FaultJson<'e> {
    place: u64,
    error: &'e DeError,
}

impl fmt::Display for FaultJson<'_> {
    ghost output = { λ l. Some (fault_json l.place l.error.now) };

    fn fmt<W: fmt::Write>(&self, f: &mut fmt::Formatter<W>) -> fmt::Result {
        let place = self.place;
        let fault = Fault(self.error);
        write!(f, "{{\"fault\":\"{fault}\",\"at\":{place}}}\n")
    }
}

/// A datagram as lines of text: its messages, and the fault after them, if there is one.
#[derive(Clone, Copy)]
pub struct DatagramText<'b, 'w, 't> {
    /// Whether names are in colours, by the escapes of a terminal.
    pub is_coloured: bool,
    /// The datagram.
    pub datagram: Datagram<'b, 'w, 't>,
}

impl fmt::Display for DatagramText<'_, '_, '_> {
    ghost output = { λ d. Some (datagram_text d.is_coloured d.datagram.tables.now
        d.datagram.protocol d.datagram.bytes.now) };

    fn fmt<W: fmt::Write>(&self, f: &mut fmt::Formatter<W>) -> fmt::Result {
        let is_coloured = self.is_coloured;
        let Datagram {
            tables,
            protocol,
            bytes,
        } = self.datagram;
        let mut place = 0;
        for message in LentMessages::<u16>::new(bytes) {
            match message {
                Ok(lent) => {
                    let text = MessageText {
                        is_coloured,
                        message: Message::new(tables, protocol, &lent),
                    };
                    write!(f, "{text}")?;
                    place = place_behind(place, &lent);
                }
                Err(error) => {
                    let line = FaultLine {
                        is_coloured,
                        place,
                        error: &error,
                    };
                    return write!(f, "{line}");
                }
            }
        }
        Ok(())
    }
}

/// A datagram as lines of JSON: an object for each of its messages, and one for the fault after
/// them, if there is one.
#[derive(Clone, Copy)]
pub struct DatagramJson<'b, 'w, 't>(pub Datagram<'b, 'w, 't>);

impl fmt::Display for DatagramJson<'_, '_, '_> {
    ghost output = { λ d. Some (datagram_json d.0.tables.now d.0.protocol d.0.bytes.now) };

    fn fmt<W: fmt::Write>(&self, f: &mut fmt::Formatter<W>) -> fmt::Result {
        let Datagram {
            tables,
            protocol,
            bytes,
        } = self.0;
        let mut place = 0;
        for message in LentMessages::<u16>::new(bytes) {
            match message {
                Ok(lent) => {
                    let json = MessageJson(Message::new(tables, protocol, &lent));
                    writeln!(f, "{json}")?;
                    place = place_behind(place, &lent);
                }
                Err(error) => {
                    let line = FaultJson {
                        place,
                        error: &error,
                    };
                    return write!(f, "{line}");
                }
            }
        }
        Ok(())
    }
}
