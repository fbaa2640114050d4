//! The body of a message.

ghost use Rattle.std.specs.Prelude.{◌≡◌, Some};
ghost use Rattle.std.specs.Option.{option_map};
ghost use Rattle.neli_tables_walk.specs.Bodies.{body_view};
ghost use Rattle.neli_tables_walk.specs.Shapes.{context_view};
ghost use Rattle.neli_print.specs.Bodies.{body_members, body_name, body_text, bytes_line};
ghost use Rattle.neli_print.specs.Bodies.{bytes_member, generic_line, generic_members};
ghost use Rattle.neli_print.specs.Bodies.{known_members, known_text, reserved, row_line};
ghost use Rattle.neli_print.specs.Bodies.{row_members, structure_line};

use crate::item::front_of;
use crate::list::{List, ListMember, ListText};
use crate::names::{Structure, StructureMembers, StructureText, line_name};
use crate::pieces::indent;
use crate::rests::{RestMember, RestWords, rest_of, struct_in};
use neli_tables_walk::{
    Body, Bytes, BytesJson, Context, GenericHeader, Payload, PayloadJson, PayloadText, Shape,
};
use std::fmt;

/// The name of a body's message, if a table has it.
pub(crate) fn body_name<'t>(body: &Body<'_, '_, 't>) -> Option<&'t [u8]>
    ensures { option_map (λ name. name.now) result ≡ body_name (body_view body.now) }
{
    Some(line_name(body.table?, body.line?))
}

// ---- JSON

/// The members of the header of generic netlink, after others; nothing without one.
#[derive(Clone, Copy)]
struct GenericMembers(Option<GenericHeader>);

impl fmt::Display for GenericMembers {
    ghost output = { λ g. Some (generic_members g.0) };

    fn fmt<W: fmt::Write>(&self, f: &mut fmt::Formatter<W>) -> fmt::Result {
        match self.0 {
            Some(header) => {
                let (command, version) = (header.command, header.version);
                let reserved = Reserved {
                    text: ",\"reserved\":",
                    number: header.reserved,
                };
                write!(f, ",\"command\":{command},\"version\":{version}{reserved}")
            }
            None => Ok(()),
        }
    }
}

/// The number in two bytes that mean nothing, after this text; nothing where it is 0.
#[derive(Clone, Copy)]
struct Reserved {
    text: &'static str,
    number: u16,
}

impl fmt::Display for Reserved {
    ghost output = { λ r. Some (reserved r.text.now r.number) };

    fn fmt<W: fmt::Write>(&self, f: &mut fmt::Formatter<W>) -> fmt::Result {
        let (text, number) = (self.text, self.number);
        if number == 0 {
            Ok(())
        } else {
            write!(f, "{text}{number}")
        }
    }
}

/// The member of bytes of unknown meaning, after others; nothing where there are none.
#[derive(Clone, Copy)]
pub(crate) struct BytesMember<'b>(pub &'b [u8]);

impl fmt::Display for BytesMember<'_> {
    ghost output = { λ b. Some (bytes_member b.0.now) };

    fn fmt<W: fmt::Write>(&self, f: &mut fmt::Formatter<W>) -> fmt::Result {
        match self.0 {
            [] => Ok(()),
            bytes => {
                let bytes = BytesJson(bytes);
                write!(f, ",\"payload\":{bytes}")
            }
        }
    }
}

/// The members of a body that is no list, by the line at this place.
#[derive(Clone, Copy)]
struct RowMembers<'b, 'w, 't>(Payload<'b, 'w, 't>);

impl fmt::Display for RowMembers<'_, '_, '_> {
    ghost output = { λ r. Some (row_members r.0.table.now r.0.place r.0.bytes.now) };

    fn fmt<W: fmt::Write>(&self, f: &mut fmt::Formatter<W>) -> fmt::Result {
        let Payload {
            table,
            place,
            bytes,
        } = self.0;
        if let Some(of) = struct_in(table, place) {
            let structure = StructureMembers(Structure {
                table,
                place: Some(of),
                bytes,
            });
            let rest = RestMember(rest_of(table, place, bytes));
            return write!(f, "{structure}{rest}");
        }
        if bytes.is_empty() {
            return Ok(());
        }
        let value = PayloadJson(self.0);
        write!(f, ",\"payload\":{value}")
    }
}

/// The members of a body of this shape.
#[derive(Clone, Copy)]
struct KnownMembers<'b, 'w, 't> {
    context: Context<'w, 't>,
    shape: Shape,
    bytes: &'b [u8],
}

impl fmt::Display for KnownMembers<'_, '_, '_> {
    ghost output = { λ k. Some (known_members (context_view k.context) k.shape k.bytes.now) };

    fn fmt<W: fmt::Write>(&self, f: &mut fmt::Formatter<W>) -> fmt::Result {
        let (context, bytes) = (self.context, self.bytes);
        let table = context.table;
        match self.shape {
            Shape::Nest(nest) => {
                let structure = StructureMembers(Structure::of_nest(table, &nest, bytes));
                let list = ListMember(List {
                    context,
                    nest,
                    bytes,
                });
                write!(f, "{structure}{list}")
            }
            Shape::Short(nest) => {
                let structure = StructureMembers(Structure {
                    table,
                    place: nest.after,
                    bytes,
                });
                write!(f, "{structure}")
            }
            Shape::Row(place) => {
                let row = RowMembers(Payload {
                    table,
                    place,
                    bytes,
                });
                write!(f, "{row}")
            }
            Shape::Hops(_) | Shape::Bytes | Shape::Deep(_) => {
                let bytes = BytesMember(bytes);
                write!(f, "{bytes}")
            }
        }
    }
}

/// The members of a body, after others.
#[derive(Clone, Copy)]
pub(crate) struct BodyMembers<'b, 'w, 't>(pub Body<'b, 'w, 't>);

impl fmt::Display for BodyMembers<'_, '_, '_> {
    ghost output = { λ b. Some (body_members (body_view b.0)) };

    fn fmt<W: fmt::Write>(&self, f: &mut fmt::Formatter<W>) -> fmt::Result {
        let generic = GenericMembers(self.0.generic);
        match self.0.context() {
            Some(context) => {
                let known = KnownMembers {
                    context,
                    shape: self.0.shape(),
                    bytes: self.0.bytes,
                };
                write!(f, "{generic}{known}")
            }
            None => {
                let bytes = BytesMember(self.0.bytes);
                write!(f, "{generic}{bytes}")
            }
        }
    }
}

// ---- text

/// A line with the header of generic netlink; nothing without one.
#[derive(Clone, Copy)]
struct GenericLine {
    level: usize,
    generic: Option<GenericHeader>,
}

impl fmt::Display for GenericLine {
    ghost output = { λ g. Some (generic_line g.level g.generic) };

    fn fmt<W: fmt::Write>(&self, f: &mut fmt::Formatter<W>) -> fmt::Result {
        match self.generic {
            Some(header) => {
                let around = indent(self.level);
                let (command, version) = (header.command, header.version);
                let reserved = Reserved {
                    text: " reserved ",
                    number: header.reserved,
                };
                write!(f, "{around}command {command} version {version}{reserved}\n")
            }
            None => Ok(()),
        }
    }
}

/// A line with a structure; nothing without one.
#[derive(Clone, Copy)]
struct StructureLine<'b, 'w, 't> {
    is_coloured: bool,
    level: usize,
    structure: Structure<'b, 'w, 't>,
}

impl fmt::Display for StructureLine<'_, '_, '_> {
    ghost output = { λ s. Some (structure_line s.is_coloured s.level s.structure.table.now
        s.structure.place s.structure.bytes.now) };

    fn fmt<W: fmt::Write>(&self, f: &mut fmt::Formatter<W>) -> fmt::Result {
        if self.structure.place.is_none() {
            return Ok(());
        }
        let around = indent(self.level);
        let structure = StructureText {
            is_coloured: self.is_coloured,
            structure: self.structure,
        };
        write!(f, "{around}{structure}\n")
    }
}

/// A line with bytes of unknown meaning; nothing where there are none.
#[derive(Clone, Copy)]
pub(crate) struct BytesLine<'b> {
    pub level: usize,
    pub bytes: &'b [u8],
}

impl fmt::Display for BytesLine<'_> {
    ghost output = { λ b. Some (bytes_line b.level b.bytes.now) };

    fn fmt<W: fmt::Write>(&self, f: &mut fmt::Formatter<W>) -> fmt::Result {
        match self.bytes {
            [] => Ok(()),
            bytes => {
                let around = indent(self.level);
                let bytes = Bytes(bytes);
                write!(f, "{around}payload {bytes}\n")
            }
        }
    }
}

/// The lines of a body that is no list, by the line of the table at this place.
#[derive(Clone, Copy)]
struct RowLine<'b, 'w, 't> {
    is_coloured: bool,
    level: usize,
    payload: Payload<'b, 'w, 't>,
}

impl fmt::Display for RowLine<'_, '_, '_> {
    ghost output = { λ r. Some (row_line r.is_coloured r.level r.payload.table.now r.payload.place
        r.payload.bytes.now) };

    fn fmt<W: fmt::Write>(&self, f: &mut fmt::Formatter<W>) -> fmt::Result {
        let Payload {
            table,
            place,
            bytes,
        } = self.payload;
        let around = indent(self.level);
        if let Some(of) = struct_in(table, place) {
            let structure = StructureText {
                is_coloured: self.is_coloured,
                structure: Structure {
                    table,
                    place: Some(of),
                    bytes,
                },
            };
            let rest = RestWords(rest_of(table, place, bytes));
            return write!(f, "{around}{structure}{rest}\n");
        }
        if bytes.is_empty() {
            return Ok(());
        }
        let value = PayloadText(self.payload);
        write!(f, "{around}payload{value}\n")
    }
}

/// The lines of a body of this shape.
#[derive(Clone, Copy)]
struct KnownText<'b, 'w, 't> {
    is_coloured: bool,
    level: usize,
    context: Context<'w, 't>,
    shape: Shape,
    bytes: &'b [u8],
}

impl<'b, 'w, 't> KnownText<'b, 'w, 't> {
    /// The line of a structure at the front of these bytes.
    fn structure_line(&self, place: Option<usize>, bytes: &'b [u8]) -> StructureLine<'b, 'w, 't>
        ensures coloured { result.is_coloured ≡ self.now.is_coloured }
        ensures level { result.level ≡ self.now.level }
        ensures table { result.structure.table.now ≡ self.now.context.table.now }
        ensures place { result.structure.place ≡ place }
        ensures bytes { result.structure.bytes.now ≡ bytes.now }
    {
        StructureLine {
            is_coloured: self.is_coloured,
            level: self.level,
            structure: Structure {
                table: self.context.table,
                place,
                bytes,
            },
        }
    }
}

impl fmt::Display for KnownText<'_, '_, '_> {
    ghost output = { λ k. Some (known_text k.is_coloured k.level (context_view k.context) k.shape
        k.bytes.now) };

    fn fmt<W: fmt::Write>(&self, f: &mut fmt::Formatter<W>) -> fmt::Result {
        match self.shape {
            Shape::Nest(nest) => {
                let structure = self.structure_line(nest.after, front_of(self.bytes, nest.header));
                let list = ListText {
                    is_coloured: self.is_coloured,
                    level: self.level,
                    list: List {
                        context: self.context,
                        nest,
                        bytes: self.bytes,
                    },
                };
                write!(f, "{structure}{list}")
            }
            Shape::Short(nest) => {
                let structure = self.structure_line(nest.after, self.bytes);
                write!(f, "{structure}")
            }
            Shape::Row(place) => {
                let row = RowLine {
                    is_coloured: self.is_coloured,
                    level: self.level,
                    payload: Payload {
                        table: self.context.table,
                        place,
                        bytes: self.bytes,
                    },
                };
                write!(f, "{row}")
            }
            Shape::Hops(_) | Shape::Bytes | Shape::Deep(_) => {
                let bytes = BytesLine {
                    level: self.level,
                    bytes: self.bytes,
                };
                write!(f, "{bytes}")
            }
        }
    }
}

/// The lines of a body, at this level.
#[derive(Clone, Copy)]
pub(crate) struct BodyText<'b, 'w, 't> {
    pub is_coloured: bool,
    pub level: usize,
    pub body: Body<'b, 'w, 't>,
}

impl fmt::Display for BodyText<'_, '_, '_> {
    ghost output = { λ b. Some (body_text b.is_coloured b.level (body_view b.body)) };

    fn fmt<W: fmt::Write>(&self, f: &mut fmt::Formatter<W>) -> fmt::Result {
        let level = self.level;
        let generic = GenericLine {
            level,
            generic: self.body.generic,
        };
        match self.body.context() {
            Some(context) => {
                let known = KnownText {
                    is_coloured: self.is_coloured,
                    level,
                    context,
                    shape: self.body.shape(),
                    bytes: self.body.bytes,
                };
                write!(f, "{generic}{known}")
            }
            None => {
                let bytes = BytesLine {
                    level,
                    bytes: self.body.bytes,
                };
                write!(f, "{generic}{bytes}")
            }
        }
    }
}
