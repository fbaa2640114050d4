//! A part of an input, as it is printed.

ghost use Rattle.std.specs.Prelude.{◌≡◌, Some};
ghost use Rattle.neli_show.specs.Parts.{datagram_by, input_by, packet_bytes, part_by, refusal_by};

use crate::request::Output;
use neli_inputs::{Input, Item, Packet, Refusal};
use neli_print::{Colour, Datagram, DatagramJson, DatagramText, escape};
use neli_tables::Tables;
use std::fmt;
use std::fmt::Display;

/// The bytes of a datagram of an input.
pub fn packet_bytes<'a>(bytes: &'a [u8], packet: &Packet) -> &'a [u8]
    ensures { result.now ≡ packet_bytes bytes.now packet.now }
{
    bytes.get(packet.start..packet.end).unwrap_or(&[])
}

/// A datagram in this form.
#[derive(Clone, Copy)]
struct Printed<'b, 'w, 't> {
    output: Output,
    datagram: Datagram<'b, 'w, 't>,
}

impl fmt::Display for Printed<'_, '_, '_> {
    ghost output = { λ p. Some (datagram_by p.output p.datagram.tables.now p.datagram.protocol
        p.datagram.bytes.now) };

    fn fmt<W: fmt::Write>(&self, f: &mut fmt::Formatter<W>) -> fmt::Result {
        let datagram = self.datagram;
        match self.output {
            Output::Json => {
                let json = DatagramJson(datagram);
                Display::fmt(&json, f)
            }
            Output::Text => {
                let text = DatagramText {
                    is_coloured: false,
                    datagram,
                };
                Display::fmt(&text, f)
            }
            Output::Colour => {
                let text = DatagramText {
                    is_coloured: true,
                    datagram,
                };
                Display::fmt(&text, f)
            }
        }
    }
}

/// Why a part of an input is no datagram, and its place.
#[derive(Clone, Copy)]
struct Refused {
    output: Output,
    place: usize,
    refusal: Refusal,
}

impl fmt::Display for Refused {
    ghost output = { λ r. Some (refusal_by r.output r.place r.refusal) };

    fn fmt<W: fmt::Write>(&self, f: &mut fmt::Formatter<W>) -> fmt::Result {
        let (place, refusal) = (self.place, self.refusal);
        match self.output {
            Output::Json => write!(f, "{{\"fault\":\"{refusal}\",\"input\":{place}}}\n"),
            Output::Text => write!(f, "fault: input {place}: {refusal}\n"),
            Output::Colour => {
                let (start, end) = (escape(true, Colour::Error), escape(true, Colour::End));
                write!(f, "{start}fault{end}: input {place}: {refusal}\n")
            }
        }
    }
}

/// A part of an input, the bytes that it lies in, and how it is printed.
#[derive(Clone, Copy)]
pub struct Part<'i, 'w, 't> {
    /// The form.
    pub output: Output,
    /// The tables that it is read by.
    pub tables: &'w Tables<'t>,
    /// The protocol of a datagram for which the input states none.
    pub protocol: u16,
    /// The bytes of the input.
    pub bytes: &'i [u8],
    /// The part.
    pub item: &'i Item,
}

impl fmt::Display for Part<'_, '_, '_> {
    ghost output = { λ p. Some (part_by p.output p.tables.now p.protocol p.bytes.now p.item.now) };

    fn fmt<W: fmt::Write>(&self, f: &mut fmt::Formatter<W>) -> fmt::Result {
        let output = self.output;
        match self.item.packet {
            Ok(packet) => {
                let datagram = Datagram {
                    tables: self.tables,
                    protocol: packet.family.unwrap_or(self.protocol),
                    bytes: packet_bytes(self.bytes, &packet),
                };
                let printed = Printed { output, datagram };
                Display::fmt(&printed, f)
            }
            Err(refusal) => {
                let place = self.item.place;
                let refused = Refused {
                    output,
                    place,
                    refusal,
                };
                Display::fmt(&refused, f)
            }
        }
    }
}

/// The parts of an input, in order.
#[derive(Clone, Copy)]
pub struct Parts<'i, 'w, 't> {
    /// The form.
    pub output: Output,
    /// The tables that they are read by.
    pub tables: &'w Tables<'t>,
    /// The protocol of datagrams for which the input states none.
    pub protocol: u16,
    /// The input.
    pub input: &'i Input,
}

impl fmt::Display for Parts<'_, '_, '_> {
    ghost output = { λ p. Some (input_by p.output p.tables.now p.protocol
        p.input.now.bytes.items p.input.now.items.items) };

    fn fmt<W: fmt::Write>(&self, f: &mut fmt::Formatter<W>) -> fmt::Result {
        for item in &self.input.items {
            let part = Part {
                output: self.output,
                tables: self.tables,
                protocol: self.protocol,
                bytes: &self.input.bytes,
                item,
            };
            Display::fmt(&part, f)?;
        }
        Ok(())
    }
}
