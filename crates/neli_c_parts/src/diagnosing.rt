//! Why the kernel refused a request, by its acknowledgement, with the codes of the call that prints it.

ghost use Rattle.std.specs.Prelude.{◌≡◌, unsigned_abs};
ghost use Rattle.std.specs.Option.{option_map};
ghost use Rattle.neli_tables_walk.specs.Bodies.{body_view};
ghost use Rattle.neli_tables_check.specs.Diagnoses.{allowed_of, missing_of, payload_view, value_of};
ghost use Rattle.neli_tables_check.specs.Refusals.{place_of, text_of};
ghost use Rattle.neli_c_parts.specs.AnswersShown.{payload_view as message_payload};
ghost use Rattle.neli_c_parts.specs.Diagnosed.{Diagnoses, at_of, diagnosis_text};
ghost use Rattle.neli_c_parts.specs.Named.{at_with, place_view};
ghost use Rattle.neli_c_parts.specs.Printed.{IsPrinted};

use crate::code::PLACE;
use crate::families::Families;
use crate::message::NeliMessage;
use crate::naming::body_in;
use crate::printing::print;
use neli_tables::Table;
use neli_tables_check::{Diagnosis, Place, Refusal};
use neli_tables_walk::Body;

/// A place by a table.
fn placed<'w>(
    table: Option<&'w Table<'static>>,
    place: Option<Place<'w, 'static>>,
) -> Option<Place<'w, 'static>>
    ensures { place_view result ≡ at_with (option_map (λ table. table.now) table.entry)
        (option_map (λ place. place.path.steps.items) place.entry) }
{
    match (table, place) {
        (Some(table), Some(place)) => Some(Place {
            table,
            path: place.path,
        }),
        _ => None,
    }
}

/// The diagnosis of a request with this body, whose place and whose names are those of the body's table.
fn diagnosis_of<'b, 'r, 'w>(
    body: &Body<'r, 'w, 'static>,
    error: i32,
    ext_ack: &'b [u8],
) -> Diagnosis<'b, 'r, 'w, 'static>
    ensures number { result.refusal.number ≡ unsigned_abs error }
    ensures text { option_map (λ text. text.now) result.refusal.text ≡ text_of ext_ack.now }
    ensures place { place_view result.refusal.place ≡ at_of (body_view body.now) ext_ack.now }
    ensures table { option_map (λ table. table.now) result.table ≡ (body_view body.now).0 }
    ensures value { option_map payload_view result.value ≡ value_of (body_view body.now) ext_ack.now }
    ensures allowed { result.allowed ≡ allowed_of ext_ack.now }
    ensures missing { result.missing ≡ missing_of (body_view body.now) ext_ack.now }
{
    let said = Diagnosis::of(body, error.unsigned_abs(), ext_ack);
    Diagnosis {
        refusal: Refusal {
            number: said.refusal.number,
            text: said.refusal.text,
            place: placed(body.table, said.refusal.place),
        },
        table: body.table,
        value: said.value,
        allowed: said.allowed,
        missing: said.missing,
    }
}

/// Prints the diagnosis of a request with this body.
fn print_diagnosis(
    body: &Body<'_, '_, 'static>,
    error: i32,
    ext_ack: &[u8],
    out: &mut [u8],
    size: &mut usize,
) -> i32
    ensures { IsPrinted result (diagnosis_text (body_view body.now) error ext_ack.now)
        out.old out.new size.old size.new }
{
    print(diagnosis_of(body, error, ext_ack), out, size)
}

/// Prints why the kernel refused a request: the number of the error by name and meaning, and what the attributes of its
/// acknowledgement say.
pub fn diagnosis(
    families: &Families,
    protocol: u16,
    bytes: &[u8],
    message: &NeliMessage,
    error: i32,
    ext_ack: &[u8],
    out: &mut [u8],
    size: &mut usize,
) -> i32
    ensures { Diagnoses result protocol message.now (message_payload bytes.now message.now) error
        ext_ack.now families.now out.old out.new size.old size.new }
{
    match body_in(families, protocol, bytes, message) {
        Some(body) => print_diagnosis(&body, error, ext_ack, out, size),
        None => PLACE,
    }
}
