//! The header of a message.

ghost use Rattle.std.specs.Prelude.{◌≡◌, Some, map};
ghost use Rattle.std.specs.Option.{option_map};
ghost use Rattle.neli_print.specs.Heads.{common_name, header_in, header_members, header_of};
ghost use Rattle.neli_print.specs.Heads.{header_text, rows_of, type_words};
ghost use Rattle.neli_print.specs.MessageFlags.{flag_view};

use crate::flag_rows::flag_rows;
use crate::flags::{FlagForm, Flags};
use crate::names::NameMember;
use crate::pieces::{Colour, escape};
use neli_consts::{NLMSG_DONE, NLMSG_ERROR, NLMSG_NOOP, NLMSG_OVERRUN};
use neli_lent::LentMessage;
use neli_msg::NlmsghdrAck;
use neli_tables_walk::{Head, Name};
use std::fmt;

/// `NETLINK_ROUTE` of `linux/netlink.h`.
const ROUTE: u16 = 0;

/// The header of a message (`struct nlmsghdr` of `linux/netlink.h`), and its protocol.
#[derive(Clone, Copy, Debug, PartialEq, Eq)]
pub struct Header {
    /// The protocol, the type and the flags, with all their bits.
    pub head: Head,
    /// The length that the message states, in bytes.
    pub length: u32,
    /// The sequence number.
    pub sequence: u32,
    /// The port of the socket that the message belongs to; 0 is the kernel's.
    pub port: u32,
}

impl Header {
    /// The header of a message of this protocol.
    pub fn of(protocol: u16, message: &LentMessage<'_, u16>) -> Header
        ensures { result ≡ header_of protocol message.now.header }
    {
        Header {
            head: Head {
                protocol,
                message_type: *message.nl_type(),
                flags: *message.nl_flags(),
            },
            length: *message.nl_len(),
            sequence: *message.nl_seq(),
            port: *message.nl_pid(),
        }
    }

    /// A header of this protocol.
    fn of_header(protocol: u16, header: &NlmsghdrAck<u16>) -> Header
        ensures { result ≡ header_of protocol header.now }
    {
        Header {
            head: Head {
                protocol,
                message_type: *header.nl_type(),
                flags: *header.nl_flags(),
            },
            length: *header.nl_len(),
            sequence: *header.nl_seq(),
            port: *header.nl_pid(),
        }
    }

    /// The header at the front of these bytes, if they have its 16.
    pub(crate) fn read(protocol: u16, bytes: &[u8]) -> Option<Header>
        ensures { result ≡ header_in protocol bytes.now }
    {
        match NlmsghdrAck::<u16>::of_bytes(bytes) {
            Some(header) => Some(Header::of_header(protocol, &header)),
            None => None,
        }
    }

    /// Its flags by their names.
    fn flags(&self, form: FlagForm) -> Flags
        ensures form { result.form ≡ form }
        ensures rows { map flag_view result.rows.now ≡ rows_of self.now.head }
        ensures set { result.set ≡ self.now.head.flags.0 }
    {
        Flags {
            form,
            rows: flag_rows(self.head.protocol == ROUTE, self.head.message_type),
            set: u32::from(u16::from(self.head.flags)),
        }
    }
}

/// The name of a type that all protocols have.
pub(crate) fn common_name(message_type: u16) -> Option<&'static [u8]>
    ensures { option_map (λ name. name.now) result ≡ common_name message_type }
{
    match message_type {
        NLMSG_NOOP => Some(b"NLMSG_NOOP"),
        NLMSG_ERROR => Some(b"NLMSG_ERROR"),
        NLMSG_DONE => Some(b"NLMSG_DONE"),
        NLMSG_OVERRUN => Some(b"NLMSG_OVERRUN"),
        _ => None,
    }
}

/// A type of messages by its name, or by its number, in its colour.
#[derive(Clone, Copy)]
struct TypeText<'t> {
    is_coloured: bool,
    name: Option<&'t [u8]>,
    number: u16,
}

impl fmt::Display for TypeText<'_> {
    ghost output = { λ t. Some (type_words t.is_coloured (option_map (λ name. name.now) t.name)
        t.number) };

    #[tactic(auto, unfolding(crate::specs::Heads::type_words))]
    fn fmt<W: fmt::Write>(&self, f: &mut fmt::Formatter<W>) -> fmt::Result {
        let start = escape(self.is_coloured, Colour::Type);
        let end = escape(self.is_coloured, Colour::End);
        match self.name {
            Some(name) => {
                let name = Name(name);
                write!(f, "{start}{name}{end}")
            }
            None => {
                let number = self.number;
                write!(f, "{start}type {number}{end}")
            }
        }
    }
}

/// A header on a line.
#[derive(Clone, Copy)]
pub(crate) struct HeaderText<'t> {
    pub is_coloured: bool,
    pub header: Header,
    pub name: Option<&'t [u8]>,
}

impl fmt::Display for HeaderText<'_> {
    ghost output = { λ h. Some (header_text h.is_coloured h.header
        (option_map (λ name. name.now) h.name)) };

    fn fmt<W: fmt::Write>(&self, f: &mut fmt::Formatter<W>) -> fmt::Result {
        let name = TypeText {
            is_coloured: self.is_coloured,
            name: self.name,
            number: self.header.head.message_type,
        };
        let flags = self.header.flags(FlagForm::Bars);
        let (length, sequence, port) = (self.header.length, self.header.sequence, self.header.port);
        write!(f, "{name} length {length} flags {flags}")?;
        write!(f, " seq {sequence} port {port}\n")
    }
}

/// The members of a header, the first without a comma.
#[derive(Clone, Copy)]
pub(crate) struct HeaderMembers<'t> {
    pub header: Header,
    pub name: Option<&'t [u8]>,
}

impl fmt::Display for HeaderMembers<'_> {
    ghost output = { λ h. Some (header_members h.header (option_map (λ name. name.now) h.name)) };

    fn fmt<W: fmt::Write>(&self, f: &mut fmt::Formatter<W>) -> fmt::Result {
        let number = self.header.head.message_type;
        let name = NameMember(self.name);
        let flags = self.header.flags(FlagForm::Strings);
        let (length, sequence, port) = (self.header.length, self.header.sequence, self.header.port);
        write!(f, "\"type\":{number}{name},\"length\":{length}")?;
        write!(f, ",\"flags\":[{flags}],\"seq\":{sequence},\"port\":{port}")
    }
}
