//! Answers in a form for people.

ghost use Rattle.std.specs.Prelude.{◌≡◌, Err, IfErr, IfOk, Ok, Some, find, nat_eq};
ghost use Rattle.std.specs.Option.{option_and_then, option_copied, option_map};
ghost use Rattle.neli_consts.specs.NlmsgerrAttr.{nlmsgerr_attr_number};
ghost use Rattle.neli_consts.specs.declared.nlmsg.NlmsgerrAttr.TheVariants as kind;
ghost use Rattle.neli_errno.specs.Errnos.{errno_view};
ghost use Rattle.neli_wire.specs.Strings.{owned_text};
ghost use Rattle.neli_msg.specs.Explained.{errno_in, explained_text, explanation, named_text, payload_in};
ghost use Rattle.neli_msg.specs.Explained.{place_in, place_text, words_in, words_text};

use crate::Nlmsgerr;
use byteorder::{ByteOrder, LittleEndian};
use neli_attr::{Buffer, GenlBuffer, Nlattr};
use neli_consts::NlmsgerrAttr;
use neli_errno::Errno;
use neli_wire::{DeError, Utf8};
use std::{fmt, str};

/// An answer in a form for people, made by [`Nlmsgerr::explained`].
///
/// It prints the code; the name and the meaning of the error with that number, if Linux has one; and the text and the
/// place of an extended acknowledgement, if the answer has them: as `-22 EINVAL: Invalid argument; Unknown attribute
/// type; offset 44`.
#[derive(Clone, Copy, Debug)]
pub struct Explained<'a> {
    code: i32,
    errno: Option<Errno>,
    words: Option<&'a str>,
    place: Option<u32>,
}

impl<M> Nlmsgerr<M> {
    /// The answer in a form for people: its code, with the name and the meaning of the error, and of its attributes the
    /// first text (`NLMSGERR_ATTR_MSG`) and the first offset (`NLMSGERR_ATTR_OFFS`, in bytes from the request's
    /// header). A text that is not UTF-8, and an offset that has not four bytes, are left out. It takes no memory.
    pub fn explained(&self) -> Explained<'_>
        ensures { explained_text result ≡ explanation self.now.error self.now.ext_ack }
    {
        let attrs = self.ext_ack();
        Explained {
            code: *self.error(),
            errno: errno_of(*self.error()),
            words: words_of(attrs),
            place: place_of(attrs),
        }
    }
}

/// The error with the code's number, which a kernel sends negated.
fn errno_of(code: i32) -> Option<Errno>
    ensures { option_map errno_view result ≡ errno_in code }
{
    if code < 0 {
        Errno::from_number(code.unsigned_abs())
    } else {
        None
    }
}

/// The first attribute with this number.
fn first_of(
    attrs: &[Nlattr<NlmsgerrAttr, Buffer>],
    number: u16,
) -> Option<&Nlattr<NlmsgerrAttr, Buffer>>
    ensures { option_copied result
        ≡ find (λ a. nat_eq (nlmsgerr_attr_number a.nla_type.nla_type) number) attrs.now }
{
    attrs
        .iter()
        .find(|attr| u16::from(attr.nla_type().nla_type()) == number)
}

/// The payload of the first attribute of this kind.
fn payload_of(attrs: &GenlBuffer<NlmsgerrAttr, Buffer>, kind: NlmsgerrAttr) -> Option<&[u8]>
    ensures { option_copied result ≡ payload_in kind attrs.now }
{
    Some(
        first_of(attrs.as_ref(), u16::from(kind))?
            .nla_payload()
            .as_ref(),
    )
}

/// The text of a payload: all of its bytes but the last, which must be UTF-8.
fn read_text(payload: &[u8]) -> Result<&str, DeError>
    ensures value { IfOk result (λ t. owned_text payload.now ≡ Ok t.now) }
    ensures refused { IfErr result (λ e. owned_text payload.now ≡ Err e) }
{
    let count = payload.len();
    if count < 1 {
        return Err(DeError::InvalidInput(count));
    }
    match str::from_utf8(&payload[..count - 1]) {
        Ok(text) => Ok(text),
        Err(error) => Err(DeError::Utf8(Utf8::String(error))),
    }
}

/// The text of a payload, if it has one.
#[tactic(auto, using(crate::proofs::Words::some_words, crate::proofs::Words::no_words))]
fn text_in(payload: &[u8]) -> Option<&str>
    ensures { option_map (λ t. t.now) result ≡ words_in payload.now }
{
    match read_text(payload) {
        Ok(text) => Some(text),
        Err(_) => None,
    }
}

/// The number of a payload.
fn number_in(payload: &[u8]) -> Option<u32>
    ensures { result ≡ place_in payload.now }
{
    if payload.len() == 4 {
        Some(LittleEndian::read_u32(payload))
    } else {
        None
    }
}

/// The text of the attributes.
fn words_of(attrs: &GenlBuffer<NlmsgerrAttr, Buffer>) -> Option<&str>
    ensures { option_map (λ t. t.now) result
        ≡ option_and_then words_in (payload_in kind.Msg attrs.now) }
{
    text_in(payload_of(attrs, NlmsgerrAttr::Msg)?)
}

/// The place that the attributes state.
fn place_of(attrs: &GenlBuffer<NlmsgerrAttr, Buffer>) -> Option<u32>
    ensures { result ≡ option_and_then place_in (payload_in kind.Offset attrs.now) }
{
    number_in(payload_of(attrs, NlmsgerrAttr::Offset)?)
}

/// The name and the meaning of an error, after a space.
#[derive(Clone, Copy)]
struct Named(Option<Errno>);

impl fmt::Display for Named {
    ghost output = { λ n. Some (named_text (option_map errno_view n.0)) };

    fn fmt<W: fmt::Write>(&self, f: &mut fmt::Formatter<W>) -> fmt::Result {
        match &self.0 {
            Some(errno) => write!(f, " {errno}"),
            None => Ok(()),
        }
    }
}

/// A text, after a semicolon.
#[derive(Clone, Copy)]
struct Words<'a>(Option<&'a str>);

impl<'a> fmt::Display for Words<'a> {
    ghost output = { λ w. Some (words_text (option_map (λ t. t.now) w.0)) };

    fn fmt<W: fmt::Write>(&self, f: &mut fmt::Formatter<W>) -> fmt::Result {
        match self.0 {
            Some(words) => write!(f, "; {words}"),
            None => Ok(()),
        }
    }
}

/// A place, after a semicolon.
#[derive(Clone, Copy)]
struct Place(Option<u32>);

impl fmt::Display for Place {
    ghost output = { λ p. Some (place_text p.0) };

    fn fmt<W: fmt::Write>(&self, f: &mut fmt::Formatter<W>) -> fmt::Result {
        match self.0 {
            Some(offset) => write!(f, "; offset {offset}"),
            None => Ok(()),
        }
    }
}

impl<'a> fmt::Display for Explained<'a> {
    ghost output = { λ e. Some (explained_text e) };

    fn fmt<W: fmt::Write>(&self, f: &mut fmt::Formatter<W>) -> fmt::Result {
        let code = self.code;
        let named = Named(self.errno);
        let words = Words(self.words);
        let place = Place(self.place);
        write!(f, "{code}{named}{words}{place}")
    }
}
