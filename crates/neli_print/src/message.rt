//! A message.

ghost use Rattle.std.specs.Prelude.{◌≡◌, Some};
ghost use Rattle.neli_lent.specs.Messages.{message_view};
ghost use Rattle.neli_tables_walk.specs.Bodies.{body_view};
ghost use Rattle.neli_print.specs.Heads.{header_of};
ghost use Rattle.neli_print.specs.Messages.{lines_with, members_with, message_json};
ghost use Rattle.neli_print.specs.Messages.{message_text};

use crate::body::{BodyMembers, BodyText};
use crate::head::{Header, HeaderMembers, HeaderText};
use crate::message_name::name_by;
use crate::reply::{ReplyLines, ReplyMembers};
use neli_lent::LentMessage;
use neli_tables::Tables;
use neli_tables_walk::{Body, body_of, is_answer};
use std::fmt;

/// A message, and the tables that it is read by.
#[derive(Clone, Copy)]
pub struct Message<'b, 'w, 't> {
    /// The tables.
    pub tables: &'w Tables<'t>,
    /// Its header.
    pub header: Header,
    /// Its payload.
    pub payload: &'b [u8],
}

impl<'b, 'w, 't> Message<'b, 'w, 't> {
    /// A message of this protocol (`NETLINK_*` of `linux/netlink.h`).
    pub fn new(
        tables: &'w Tables<'t>,
        protocol: u16,
        message: &LentMessage<'b, u16>,
    ) -> Message<'b, 'w, 't>
        ensures tables { result.tables.now ≡ tables.now }
        ensures header { result.header ≡ header_of protocol (message_view message.now).0 }
        ensures payload { result.payload.now ≡ (message_view message.now).1 }
    {
        Message {
            tables,
            header: Header::of(protocol, message),
            payload: message.nl_payload(),
        }
    }
}

/// The members of a message behind those of its header.
#[derive(Clone, Copy)]
struct ContentMembers<'b, 'w, 't> {
    message: Message<'b, 'w, 't>,
    body: Body<'b, 'w, 't>,
}

impl fmt::Display for ContentMembers<'_, '_, '_> {
    ghost output = { λ c. Some (members_with c.message.tables.now c.message.header.head
        c.message.payload.now (body_view c.body)) };

    fn fmt<W: fmt::Write>(&self, f: &mut fmt::Formatter<W>) -> fmt::Result {
        let Message {
            tables,
            header,
            payload,
        } = self.message;
        let head = header.head;
        if is_answer(tables, head) {
            let reply = ReplyMembers {
                tables,
                head,
                payload,
            };
            write!(f, "{reply}")
        } else {
            let body = BodyMembers(self.body);
            write!(f, "{body}")
        }
    }
}

/// A message as one object of JSON, without a line feed.
#[derive(Clone, Copy)]
pub struct MessageJson<'b, 'w, 't>(pub Message<'b, 'w, 't>);

impl fmt::Display for MessageJson<'_, '_, '_> {
    ghost output = { λ m. Some (message_json m.0.tables.now m.0.header m.0.payload.now) };

    fn fmt<W: fmt::Write>(&self, f: &mut fmt::Formatter<W>) -> fmt::Result {
        let Message {
            tables,
            header,
            payload,
        } = self.0;
        let protocol = header.head.protocol;
        let body = body_of(tables, header.head, payload);
        let members = HeaderMembers {
            header,
            name: name_by(&body, header.head.message_type),
        };
        let content = ContentMembers {
            message: self.0,
            body,
        };
        write!(f, "{{\"protocol\":{protocol},{members}{content}}}")
    }
}

/// The lines of a message behind that of its header.
#[derive(Clone, Copy)]
struct ContentLines<'b, 'w, 't> {
    is_coloured: bool,
    message: Message<'b, 'w, 't>,
    body: Body<'b, 'w, 't>,
}

impl fmt::Display for ContentLines<'_, '_, '_> {
    ghost output = { λ c. Some (lines_with c.is_coloured c.message.tables.now
        c.message.header.head c.message.payload.now (body_view c.body)) };

    fn fmt<W: fmt::Write>(&self, f: &mut fmt::Formatter<W>) -> fmt::Result {
        let is_coloured = self.is_coloured;
        let Message {
            tables,
            header,
            payload,
        } = self.message;
        let head = header.head;
        if is_answer(tables, head) {
            let reply = ReplyLines {
                is_coloured,
                tables,
                head,
                payload,
            };
            write!(f, "{reply}")
        } else {
            let body = BodyText {
                is_coloured,
                level: 1,
                body: self.body,
            };
            write!(f, "{body}")
        }
    }
}

/// A message as lines of text: its header, and then what its payload is, further in.
#[derive(Clone, Copy)]
pub struct MessageText<'b, 'w, 't> {
    /// Whether names are in colours, by the escapes of a terminal.
    pub is_coloured: bool,
    /// The message.
    pub message: Message<'b, 'w, 't>,
}

impl fmt::Display for MessageText<'_, '_, '_> {
    ghost output = { λ m. Some (message_text m.is_coloured m.message.tables.now m.message.header
        m.message.payload.now) };

    fn fmt<W: fmt::Write>(&self, f: &mut fmt::Formatter<W>) -> fmt::Result {
        let Message {
            tables,
            header,
            payload,
        } = self.message;
        let body = body_of(tables, header.head, payload);
        let first = HeaderText {
            is_coloured: self.is_coloured,
            header,
            name: name_by(&body, header.head.message_type),
        };
        let content = ContentLines {
            is_coloured: self.is_coloured,
            message: self.message,
            body,
        };
        write!(f, "{first}{content}")
    }
}
