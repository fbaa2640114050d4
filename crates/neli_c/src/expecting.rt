//! How Linux answers a request, and where its answer ends, by the table of `neli_answers`. These calls take no memory.

ghost use Rattle.std.specs.Prelude.{◌≡◌, pos};
ghost use Rattle.neli_consts_system.specs.NlFamily.{nl_family_of};
ghost use Rattle.neli_answers.specs.Answers.{answering_of, ends_answer};
ghost use Rattle.neli_reader.specs.Headers.{flags_of};
ghost use Rattle.neli_c_parts.specs.Asked.{byte_of};
ghost use Rattle.neli_c_parts.specs.Expecting.{answering_number, answering_of_number};

use neli_answers::Answering;
use neli_c_parts::expecting::{number_of, of_number};
use neli_consts::NlmF;
use neli_consts_system::NlFamily;
use neli_wire::Constant;

/// The number of how a request of this family is answered.
fn answering_in(family: NlFamily, nl_type: u16, flags: u16, body_length: usize) -> u32
    ensures { result ≡ answering_number
        (answering_of family nl_type (flags_of flags) body_length) }
{
    let flags = NlmF::from_wire(flags);
    number_of(Answering::of(family, nl_type, flags, body_length))
}

/// Returns how a request is answered, as a number of `enum neli_answering`: one of this protocol, with this type, these
/// flags, and a body of this length in bytes.
#[unsafe(no_mangle)]
pub extern "C" fn neli_c_answering(
    protocol: i32,
    nl_type: u16,
    flags: u16,
    body_length: usize,
) -> u32
    ensures { result ≡ answering_number
        (answering_of (nl_family_of protocol) nl_type (flags_of flags) body_length) }
{
    answering_in(NlFamily::from(protocol), nl_type, flags, body_length)
}

/// Returns 1 if an answer of this kind ends with a message of this type, with these flags, and with this code if it is
/// an error: 0 in an acknowledgement, else the negated number of the error. Else 0.
///
/// A number that is none of `enum neli_answering` is taken for that of an acknowledgement.
#[unsafe(no_mangle)]
pub extern "C" fn neli_c_ends_answer(answering: u32, nl_type: u16, flags: u16, code: i32) -> i32
    ensures { result ≡ pos
        (byte_of (ends_answer (answering_of_number answering) nl_type (flags_of flags) code)) }
{
    if of_number(answering).ends_with(nl_type, NlmF::from_wire(flags), code) {
        1
    } else {
        0
    }
}
