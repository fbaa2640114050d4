//! The lines of a listing.

ghost use Rattle.std.specs.Prelude.{◌≡◌, Some};
ghost use Rattle.neli_reader.specs.Kinds.{payload_view};
ghost use Rattle.neli_reader.specs.Messages.{message_of};
ghost use Rattle.neli_reader.specs.NlPayload.TheVariants as payload;
ghost use Rattle.neli_program.specs.Listing.{kind_in, line_in};
ghost use Rattle.neli_program.specs.Lines.{ending};

use neli_attr::Buffer;
use neli_lent::LentMessage;
use neli_reader::{NlPayload, Nlmsghdr};
use std::fmt;

/// A message whose type is a number and whose payload is bytes.
pub type RawMessage = Nlmsghdr<u16, Buffer>;

/// A number as four lower-case hexadecimal digits.
#[derive(Clone, Copy)]
struct FourDigits(u16);

impl fmt::Display for FourDigits {
    ghost use Rattle.std.specs.Prelude.{Some};
    ghost use Rattle.neli_program.specs.Lines.{hex4};

    ghost output = { λ n. Some (hex4 n.0) };

    fn fmt<W: fmt::Write>(&self, f: &mut fmt::Formatter<W>) -> fmt::Result {
        let number = self.0;
        write!(f, "{number:04x}")
    }
}

/// The kind of a payload, with its code and the number of its bytes or attributes.
#[derive(Clone, Copy)]
enum Kind {
    Payload(usize),
    Ack(usize),
    Capped(i32, usize),
    Error(i32, usize),
    Done(i32, usize),
    Empty,
}

impl fmt::Display for Kind {
    ghost use Rattle.std.specs.Prelude.{Some};
    ghost use Rattle.neli_program.specs.Listing.{kind_text};

    ghost output = { λ k. Some (kind_text k) };

    fn fmt<W: fmt::Write>(&self, f: &mut fmt::Formatter<W>) -> fmt::Result {
        match self {
            Kind::Payload(count) => write!(f, "payload {count}"),
            Kind::Ack(0) => write!(f, "ack"),
            Kind::Ack(count) => write!(f, "ack attributes {count}"),
            Kind::Capped(code, count) => write!(f, "capped {code} attributes {count}"),
            Kind::Error(code, count) => write!(f, "error {code} attributes {count}"),
            Kind::Done(code, count) => write!(f, "done {code} attributes {count}"),
            Kind::Empty => write!(f, "empty"),
        }
    }
}

/// The kind of a payload.
fn kind_in(payload: &NlPayload<u16, Buffer>) -> Kind
    ensures { result ≡ kind_in (payload_view (λ b. b) payload.now) }
{
    match payload {
        NlPayload::Payload(bytes) => Kind::Payload(bytes.len()),
        NlPayload::Ack(answer) => Kind::Ack(answer.ext_ack().len()),
        NlPayload::Capped(answer) => Kind::Capped(*answer.error(), answer.ext_ack().len()),
        NlPayload::Err(answer) => Kind::Error(*answer.error(), answer.ext_ack().len()),
        NlPayload::DumpExtAck(answer) => Kind::Done(*answer.error(), answer.ext_ack().len()),
        NlPayload::Empty => Kind::Empty,
    }
}

/// The printed part of a header: its type, flags, sequence number and port.
#[derive(Clone, Copy)]
struct Heading {
    message_type: u16,
    flags: u16,
    number: u32,
    port: u32,
}

impl fmt::Display for Heading {
    ghost use Rattle.std.specs.Prelude.{Some};
    ghost use Rattle.neli_program.specs.Listing.{heading_text};

    ghost output = { λ h. Some (heading_text h) };

    fn fmt<W: fmt::Write>(&self, f: &mut fmt::Formatter<W>) -> fmt::Result {
        let message_type = self.message_type;
        let flags = FourDigits(self.flags);
        let number = self.number;
        let port = self.port;
        write!(
            f,
            "type {message_type} flags 0x{flags} number {number} port {port}"
        )
    }
}

/// The line of a message: its header and the kind of its payload.
#[derive(Clone, Copy)]
pub struct Line {
    heading: Heading,
    kind: Kind,
}

impl Line {
    /// The line of an owned message.
    pub fn of(message: &RawMessage) -> Line
        ensures { result ≡ line_in (message_of (λ b. b) message.now) }
    {
        Line {
            heading: Heading {
                message_type: *message.nl_type(),
                flags: u16::from(*message.nl_flags()),
                number: *message.nl_seq(),
                port: *message.nl_pid(),
            },
            kind: kind_in(message.nl_payload()),
        }
    }

    /// The line of a lent message with a body.
    pub fn of_body(message: &LentMessage<'_, u16>) -> Line
        ensures { result ≡ line_in (message.now.header, payload.Payload message.now.payload.now) }
    {
        Line {
            heading: Heading {
                message_type: *message.nl_type(),
                flags: u16::from(*message.nl_flags()),
                number: *message.nl_seq(),
                port: *message.nl_pid(),
            },
            kind: Kind::Payload(message.nl_payload().len()),
        }
    }
}

impl fmt::Display for Line {
    ghost use Rattle.std.specs.Prelude.{Some};
    ghost use Rattle.neli_program.specs.Listing.{line_text};

    ghost output = { λ l. Some (line_text l) };

    fn fmt<W: fmt::Write>(&self, f: &mut fmt::Formatter<W>) -> fmt::Result {
        let heading = self.heading;
        let kind = self.kind;
        write!(f, "{heading} {kind}")
    }
}

/// How a listing or a rewriting ends.
#[derive(Clone, Copy, Debug, PartialEq, Eq)]
pub enum Ending {
    /// After the last message nothing is left.
    Whole,
    /// A length is wrong; this is the number in the fault.
    Input(usize),
    /// Bytes are missing.
    Short,
    /// Another refusal, which plain bytes never cause.
    Other,
    /// An acknowledgement or a capped error has bytes after the echoed header that are not read.
    Tail,
    /// Memory ran out.
    Memory,
}

impl fmt::Display for Ending {
    ghost output = { λ e. Some (ending e) };

    fn fmt<W: fmt::Write>(&self, f: &mut fmt::Formatter<W>) -> fmt::Result {
        match self {
            Ending::Whole => Ok(()),
            Ending::Input(n) => writeln!(f, "fault: input {n}"),
            Ending::Short => writeln!(f, "fault: short"),
            Ending::Other => writeln!(f, "fault: other"),
            Ending::Tail => writeln!(f, "fault: tail"),
            Ending::Memory => writeln!(f, "fault: memory"),
        }
    }
}
