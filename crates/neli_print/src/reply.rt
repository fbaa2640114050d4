//! An answer, printed: its code, the request that it is for, and its attributes.

ghost use Rattle.std.specs.Prelude.{◌≡◌, Some};
ghost use Rattle.std.specs.Option.{option_map};
ghost use Rattle.neli_errno.specs.Errnos.{errno_view};
ghost use Rattle.neli_print.specs.Answers.{bytes_view};
ghost use Rattle.neli_print.specs.Replies.{attributes_lines, attributes_members, code_line};
ghost use Rattle.neli_print.specs.Replies.{code_members, echo_lines, echo_members, errno_in};
ghost use Rattle.neli_print.specs.Replies.{reply_lines, reply_members, request_lines};
ghost use Rattle.neli_print.specs.Replies.{request_member, rest_line};

use crate::answer::{Parts, answer_parts};
use crate::body::{BodyMembers, BodyText, BytesLine, BytesMember};
use crate::head::{HeaderMembers, HeaderText};
use crate::message_name::message_name;
use crate::pieces::{Colour, escape, indent};
use crate::rests::RestMember;
use byteorder::{ByteOrder, LittleEndian};
use neli_errno::Errno;
use neli_tables::Tables;
use neli_tables_walk::{Bytes, Head, Quoted, answer_of, body_of};
use std::fmt;

/// The error of a code below 0, if it has a name.
fn errno_in(code: i32) -> Option<Errno>
    ensures { option_map errno_view result ≡ errno_in code }
{
    if code < 0 {
        Errno::from_number(code.unsigned_abs())
    } else {
        None
    }
}

// ---- JSON

/// The members of a code, after others: the code, and an error's name and its meaning.
#[derive(Clone, Copy)]
struct CodeMembers(i32);

impl fmt::Display for CodeMembers {
    ghost output = { λ c. Some (code_members c.0) };

    fn fmt<W: fmt::Write>(&self, f: &mut fmt::Formatter<W>) -> fmt::Result {
        let code = self.0;
        match errno_in(code) {
            Some(errno) => {
                let (name, meaning) = (Quoted(errno.name()), Quoted(errno.meaning()));
                write!(f, ",\"code\":{code},\"error\":{name},\"meaning\":{meaning}")
            }
            None => write!(f, ",\"code\":{code}"),
        }
    }
}

/// The members of the body of a request, after those of its header; none where it is not echoed.
#[derive(Clone, Copy)]
struct EchoMembers<'b, 'w, 't> {
    tables: &'w Tables<'t>,
    head: Head,
    body: Option<&'b [u8]>,
}

impl fmt::Display for EchoMembers<'_, '_, '_> {
    ghost output = { λ e. Some (echo_members e.tables.now e.head (bytes_view e.body)) };

    fn fmt<W: fmt::Write>(&self, f: &mut fmt::Formatter<W>) -> fmt::Result {
        match self.body {
            Some(body) => {
                let body = BodyMembers(body_of(self.tables, self.head, body));
                write!(f, "{body}")
            }
            None => Ok(()),
        }
    }
}

/// The member of the request that an answer is for, after others; nothing where there is none.
#[derive(Clone, Copy)]
struct RequestMember<'b, 'w, 't> {
    tables: &'w Tables<'t>,
    parts: Parts<'b>,
}

impl fmt::Display for RequestMember<'_, '_, '_> {
    ghost output = { λ r. Some (request_member r.tables.now r.parts.request
        (bytes_view r.parts.body)) };

    fn fmt<W: fmt::Write>(&self, f: &mut fmt::Formatter<W>) -> fmt::Result {
        let Some(header) = self.parts.request else {
            return Ok(());
        };
        let head = header.head;
        let payload = self.parts.body.unwrap_or(&[]);
        let header = HeaderMembers {
            header,
            name: message_name(self.tables, head, payload),
        };
        let body = EchoMembers {
            tables: self.tables,
            head,
            body: self.parts.body,
        };
        write!(f, ",\"request\":{{{header}{body}}}")
    }
}

/// The members of the attributes of an answer, after others; none where it has no list of them.
#[derive(Clone, Copy)]
struct AttributesMembers<'b, 'w, 't> {
    tables: &'w Tables<'t>,
    head: Head,
    attributes: Option<&'b [u8]>,
}

impl fmt::Display for AttributesMembers<'_, '_, '_> {
    ghost output = { λ a. Some (attributes_members a.tables.now a.head (bytes_view a.attributes)) };

    fn fmt<W: fmt::Write>(&self, f: &mut fmt::Formatter<W>) -> fmt::Result {
        match self.attributes {
            Some(attributes) => {
                let body = BodyMembers(answer_of(self.tables, self.head, attributes));
                write!(f, "{body}")
            }
            None => Ok(()),
        }
    }
}

/// The members of an answer with this payload, after others.
#[derive(Clone, Copy)]
pub(crate) struct ReplyMembers<'b, 'w, 't> {
    pub tables: &'w Tables<'t>,
    pub head: Head,
    pub payload: &'b [u8],
}

impl fmt::Display for ReplyMembers<'_, '_, '_> {
    ghost output = { λ r. Some (reply_members r.tables.now r.head r.payload.now) };

    fn fmt<W: fmt::Write>(&self, f: &mut fmt::Formatter<W>) -> fmt::Result {
        let (tables, head) = (self.tables, self.head);
        if self.payload.len() < 4 {
            let bytes = BytesMember(self.payload);
            return write!(f, "{bytes}");
        }
        let code = CodeMembers(LittleEndian::read_i32(self.payload));
        let parts = answer_parts(head, self.payload);
        let request = RequestMember { tables, parts };
        let attributes = AttributesMembers {
            tables,
            head,
            attributes: parts.attributes,
        };
        let rest = RestMember(parts.rest);
        write!(f, "{code}{request}{attributes}{rest}")
    }
}

// ---- text

/// A line with a code, and an error's name and its meaning.
#[derive(Clone, Copy)]
struct CodeLine {
    is_coloured: bool,
    code: i32,
}

impl fmt::Display for CodeLine {
    ghost output = { λ c. Some (code_line c.is_coloured c.code) };

    fn fmt<W: fmt::Write>(&self, f: &mut fmt::Formatter<W>) -> fmt::Result {
        let code = self.code;
        match errno_in(code) {
            Some(errno) => {
                let start = escape(self.is_coloured, Colour::Error);
                let (name, meaning) = (errno.name(), errno.meaning());
                let end = escape(self.is_coloured, Colour::End);
                write!(f, "  error {code} {start}{name}{end} {meaning}\n")
            }
            None => write!(f, "  code {code}\n"),
        }
    }
}

/// The lines of the body of a request; none where it is not echoed.
#[derive(Clone, Copy)]
struct EchoLines<'b, 'w, 't> {
    is_coloured: bool,
    tables: &'w Tables<'t>,
    head: Head,
    body: Option<&'b [u8]>,
}

impl fmt::Display for EchoLines<'_, '_, '_> {
    ghost output = { λ e. Some (echo_lines e.is_coloured e.tables.now e.head (bytes_view e.body)) };

    fn fmt<W: fmt::Write>(&self, f: &mut fmt::Formatter<W>) -> fmt::Result {
        match self.body {
            Some(body) => {
                let body = BodyText {
                    is_coloured: self.is_coloured,
                    level: 2,
                    body: body_of(self.tables, self.head, body),
                };
                write!(f, "{body}")
            }
            None => Ok(()),
        }
    }
}

/// The lines of the request that an answer is for; none where there is none.
#[derive(Clone, Copy)]
struct RequestLines<'b, 'w, 't> {
    is_coloured: bool,
    tables: &'w Tables<'t>,
    parts: Parts<'b>,
}

impl fmt::Display for RequestLines<'_, '_, '_> {
    ghost output = { λ r. Some (request_lines r.is_coloured r.tables.now r.parts.request
        (bytes_view r.parts.body)) };

    fn fmt<W: fmt::Write>(&self, f: &mut fmt::Formatter<W>) -> fmt::Result {
        let Some(header) = self.parts.request else {
            return Ok(());
        };
        let head = header.head;
        let payload = self.parts.body.unwrap_or(&[]);
        let header = HeaderText {
            is_coloured: self.is_coloured,
            header,
            name: message_name(self.tables, head, payload),
        };
        let body = EchoLines {
            is_coloured: self.is_coloured,
            tables: self.tables,
            head,
            body: self.parts.body,
        };
        write!(f, "  of {header}{body}")
    }
}

/// The lines of the attributes of an answer; none where it has no list of them.
#[derive(Clone, Copy)]
struct AttributesLines<'b, 'w, 't> {
    is_coloured: bool,
    tables: &'w Tables<'t>,
    head: Head,
    attributes: Option<&'b [u8]>,
}

impl fmt::Display for AttributesLines<'_, '_, '_> {
    ghost output = { λ a. Some (attributes_lines a.is_coloured a.tables.now a.head
        (bytes_view a.attributes)) };

    fn fmt<W: fmt::Write>(&self, f: &mut fmt::Formatter<W>) -> fmt::Result {
        match self.attributes {
            Some(attributes) => {
                let body = BodyText {
                    is_coloured: self.is_coloured,
                    level: 1,
                    body: answer_of(self.tables, self.head, attributes),
                };
                write!(f, "{body}")
            }
            None => Ok(()),
        }
    }
}

/// A line with the bytes of unknown meaning behind a code; nothing where there are none.
#[derive(Clone, Copy)]
struct RestLine<'b>(&'b [u8]);

impl fmt::Display for RestLine<'_> {
    ghost output = { λ r. Some (rest_line r.0.now) };

    fn fmt<W: fmt::Write>(&self, f: &mut fmt::Formatter<W>) -> fmt::Result {
        match self.0 {
            [] => Ok(()),
            bytes => {
                let bytes = Bytes(bytes);
                write!(f, "  rest {bytes}\n")
            }
        }
    }
}

/// The lines of an answer with this payload, behind that of its header.
#[derive(Clone, Copy)]
pub(crate) struct ReplyLines<'b, 'w, 't> {
    pub is_coloured: bool,
    pub tables: &'w Tables<'t>,
    pub head: Head,
    pub payload: &'b [u8],
}

impl fmt::Display for ReplyLines<'_, '_, '_> {
    ghost output = { λ r. Some (reply_lines r.is_coloured r.tables.now r.head r.payload.now) };

    fn fmt<W: fmt::Write>(&self, f: &mut fmt::Formatter<W>) -> fmt::Result {
        let (is_coloured, tables, head) = (self.is_coloured, self.tables, self.head);
        if self.payload.len() < 4 {
            let bytes = BytesLine {
                level: 1,
                bytes: self.payload,
            };
            return write!(f, "{bytes}");
        }
        let code = CodeLine {
            is_coloured,
            code: LittleEndian::read_i32(self.payload),
        };
        let parts = answer_parts(head, self.payload);
        let request = RequestLines {
            is_coloured,
            tables,
            parts,
        };
        let attributes = AttributesLines {
            is_coloured,
            tables,
            head,
            attributes: parts.attributes,
        };
        let rest = RestLine(parts.rest);
        write!(f, "{code}{request}{attributes}{rest}")
    }
}
