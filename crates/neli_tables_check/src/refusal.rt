//! Refusals of the kernel.

ghost use Rattle.std.specs.Prelude.{◌≡◌, Some};
ghost use Rattle.std.specs.Option.{option_map};
ghost use Rattle.neli_tables_walk.specs.Bodies.{body_view};
ghost use Rattle.neli_tables_check.specs.Refusals.{error_text, offset_in, place_of, place_text};
ghost use Rattle.neli_tables_check.specs.Refusals.{refusal_text, said_text, text_of};

use crate::{Place, find};
use byteorder::{ByteOrder, LittleEndian};
use neli_consts::NlmsgerrAttr;
use neli_errno::Errno;
use neli_tables_walk::{Body, Name, first_payload, without_zero};
use std::fmt;

/// An error of the kernel and what its acknowledgement says: in one line, as
/// `ERANGE: Numerical result out of range: Attribute failed policy validation: IFLA_MTU`.
#[derive(Drop)]
pub struct Refusal<'b, 'w, 't> {
    /// The number of the error, as 34 for `ERANGE`.
    pub number: u32,
    /// The kernel's text (`NLMSGERR_ATTR_MSG`), without a zero at its end.
    pub text: Option<&'b [u8]>,
    /// The attribute of the request that it is about (`NLMSGERR_ATTR_OFFS`).
    pub place: Option<Place<'w, 't>>,
}

impl<'b, 'w, 't> Refusal<'b, 'w, 't> {
    /// The error with this number and these attributes of its acknowledgement, by which a request
    /// with this body was refused.
    pub fn of(request: &Body<'_, 'w, 't>, number: u32, attributes: &'b [u8]) -> Refusal<'b, 'w, 't>
        ensures number { result.number ≡ number }
        ensures text { option_map (λ text. text.now) result.text ≡ text_of attributes.now }
        ensures place { option_map (λ place. place.path.steps.items) result.place
            ≡ place_of (body_view request.now) attributes.now }
    {
        Refusal {
            number,
            text: text_of(attributes),
            place: place_of(request, attributes),
        }
    }
}

/// The text among the attributes of an acknowledgement.
fn text_of(attributes: &[u8]) -> Option<&[u8]>
    ensures { option_map (λ text. text.now) result ≡ text_of attributes.now }
{
    let text = first_payload(attributes, u16::from(NlmsgerrAttr::Msg))?;
    Some(without_zero(text))
}

/// The attribute that is at the offset among the attributes of an acknowledgement.
fn place_of<'w, 't>(request: &Body<'_, 'w, 't>, attributes: &[u8]) -> Option<Place<'w, 't>>
    ensures { option_map (λ place. place.path.steps.items) result
        ≡ place_of (body_view request.now) attributes.now }
{
    let bytes = first_payload(attributes, u16::from(NlmsgerrAttr::Offset))?;
    find(request, offset_in(bytes)?)
}

/// The offset that four bytes are.
pub(crate) fn offset_in(bytes: &[u8]) -> Option<usize>
    ensures { result ≡ offset_in bytes.now }
{
    if bytes.len() == 4 {
        Some(LittleEndian::read_u32(bytes) as usize)
    } else {
        None
    }
}

/// An error by its name and its meaning, or by its number.
#[derive(Clone, Copy)]
struct ErrorText(u32);

impl fmt::Display for ErrorText {
    ghost output = { λ e. Some (error_text e.0) };

    fn fmt<W: fmt::Write>(&self, f: &mut fmt::Formatter<W>) -> fmt::Result {
        let number = self.0;
        match Errno::from_number(number) {
            Some(errno) => write!(f, "{errno}"),
            None => write!(f, "error {number}"),
        }
    }
}

/// What the kernel said, after a colon.
#[derive(Clone, Copy)]
struct SaidText<'b>(Option<&'b [u8]>);

impl fmt::Display for SaidText<'_> {
    ghost output = { λ s. Some (said_text (option_map (λ text. text.now) s.0)) };

    fn fmt<W: fmt::Write>(&self, f: &mut fmt::Formatter<W>) -> fmt::Result {
        match self.0 {
            Some(text) => {
                let text = Name(text);
                write!(f, ": {text}")
            }
            None => Ok(()),
        }
    }
}

impl fmt::Display for Refusal<'_, '_, '_> {
    ghost output = { λ r. Some (refusal_text r.number (option_map (λ text. text.now) r.text)
        (option_map place_text r.place)) };

    fn fmt<W: fmt::Write>(&self, f: &mut fmt::Formatter<W>) -> fmt::Result {
        let (error, said) = (ErrorText(self.number), SaidText(self.text));
        match &self.place {
            Some(place) => write!(f, "{error}{said}: {place}"),
            None => write!(f, "{error}{said}"),
        }
    }
}
