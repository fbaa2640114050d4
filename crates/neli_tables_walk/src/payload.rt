//! Payloads by the lines of a table.

ghost use Rattle.std.specs.Prelude.{◌≡◌, ◌++◌, IfSome, IsSome, None, Some, codes};
ghost use Rattle.neli_tables_walk.specs.Numbers.{plain_number_json};
ghost use Rattle.neli_tables_walk.specs.Values.{form_json, form_text, kept_form, payload_breach};
ghost use Rattle.neli_tables_walk.specs.Values.{payload_digits, payload_json, payload_text, struct_in};

use crate::breach::{Breach, form_breach};
use crate::cell::{Value, ValueJson, ValueText};
use crate::fields::{Fields, FieldsJson, FieldsText};
use crate::form::{Cell, Form, Plain, form_of};
use crate::hex::{Bytes, BytesJson};
use crate::named::{NamedJson, NamedText};
use crate::number::{Number, NumberJson};
use crate::numbered::{digits_by, number_by};
use neli_tables::{Options, Table};
use std::fmt;
use std::fmt::Display;

/// The bytes of an attribute or a body, and the line that says what they are.
#[derive(Clone, Copy)]
pub struct Payload<'b, 'w, 't> {
    /// The table.
    pub table: &'w Table<'t>,
    /// The place of the line whose options apply, counted from 0. Without such a line the payload
    /// is bytes.
    pub place: usize,
    /// The bytes.
    pub bytes: &'b [u8],
}

impl Payload<'_, '_, '_> {
    /// The number that it is, where only its decimal digits are printed: of the kinds u8, u16, u32, u64
    /// and s32, which most numbers have; of any other, `None`.
    #[inline(always)]
    pub fn digits(&self) -> Option<Number>
        ensures breach { IsSome result
            → payload_breach self.now.table.now self.now.place self.now.bytes.now ≡ None }
        ensures text { IfSome result (λ n. payload_text self.now.table.now self.now.place
            self.now.bytes.now ≡ codes " " ++ plain_number_json n) }
        ensures json { IfSome result (λ n. payload_json self.now.table.now self.now.place
            self.now.bytes.now ≡ plain_number_json n) }
        ensures fields { IsSome result → struct_in self.now.table.now self.now.place ≡ None }
        ensures number { result
            ≡ payload_digits self.now.table.now self.now.place self.now.bytes.now }
    {
        digits_by(self.table.options(self.place)?, self.bytes)
    }
}

/// How a payload cannot be of its kind; `None` where it can. What its line says of lengths, ranges
/// and masks is not looked at.
pub fn breach_of(payload: &Payload<'_, '_, '_>) -> Option<Breach>
    ensures { result
        ≡ payload_breach payload.now.table.now payload.now.place payload.now.bytes.now }
{
    let options = payload.table.options(payload.place)?;
    form_breach(
        form_of(payload.table, options, payload.bytes.len()),
        payload.bytes,
    )
}

/// What bytes are by these options; those that cannot be so are bytes.
fn kept_form(table: &Table<'_>, options: &Options, bytes: &[u8]) -> Form
    ensures { result ≡ kept_form table.now options.now bytes.now }
{
    let form = form_of(table, options, bytes.len());
    match form_breach(form, bytes) {
        Some(_) => Form::Cell(Cell::Plain(Plain::Bytes)),
        None => form,
    }
}

/// A payload, the options of its line, and what it is.
#[derive(Clone, Copy)]
struct Shown<'b, 'w, 't> {
    table: &'w Table<'t>,
    options: &'w Options,
    form: Form,
    bytes: &'b [u8],
}

impl<'b, 'w, 't> Shown<'b, 'w, 't> {
    /// A payload, as what it is by these options.
    fn of(payload: &Payload<'b, 'w, 't>, options: &'w Options) -> Shown<'b, 'w, 't>
        ensures { result ≡ record {
          table = payload.now.table;
          options = options.entry;
          form = kept_form payload.now.table.now options.now payload.now.bytes.now;
          bytes = payload.now.bytes;
        } }
    {
        Shown {
            table: payload.table,
            options,
            form: kept_form(payload.table, options, payload.bytes),
            bytes: payload.bytes,
        }
    }

    /// The bytes as this.
    fn value(&self, cell: Cell) -> Value<'b, 'w, 't>
        ensures { result ≡ record {
          table = self.now.table;
          options = self.now.options;
          cell = cell;
          bytes = self.now.bytes;
        } }
    {
        Value {
            table: self.table,
            options: self.options,
            cell,
            bytes: self.bytes,
        }
    }

    /// The fields of the structure at this place.
    fn fields(&self, place: usize) -> Fields<'b, 'w, 't>
        ensures { result ≡ record {
          table = self.now.table;
          place = place;
          bytes = self.now.bytes;
        } }
    {
        Fields {
            table: self.table,
            place,
            bytes: self.bytes,
        }
    }
}

/// A payload as text.
#[derive(Clone, Copy)]
struct FormText<'b, 'w, 't>(Shown<'b, 'w, 't>);

impl fmt::Display for FormText<'_, '_, '_> {
    ghost output = { λ v. Some (form_text v.0.table.now v.0.options.now v.0.form v.0.bytes.now) };

    fn fmt<W: fmt::Write>(&self, f: &mut fmt::Formatter<W>) -> fmt::Result {
        match self.0.form {
            Form::Cell(cell) => {
                let value = ValueText(self.0.value(cell));
                Display::fmt(&value, f)
            }
            Form::Fields(place) => {
                let fields = FieldsText(self.0.fields(place));
                Display::fmt(&fields, f)
            }
        }
    }
}

/// A payload in JSON.
#[derive(Clone, Copy)]
struct FormJson<'b, 'w, 't>(Shown<'b, 'w, 't>);

impl fmt::Display for FormJson<'_, '_, '_> {
    ghost output = { λ v. Some (form_json v.0.table.now v.0.options.now v.0.form v.0.bytes.now) };

    fn fmt<W: fmt::Write>(&self, f: &mut fmt::Formatter<W>) -> fmt::Result {
        match self.0.form {
            Form::Cell(cell) => {
                let value = ValueJson(self.0.value(cell));
                Display::fmt(&value, f)
            }
            Form::Fields(place) => {
                let fields = FieldsJson(self.0.fields(place));
                Display::fmt(&fields, f)
            }
        }
    }
}

/// A payload as text: each value after a blank. Of a flag nothing is printed.
#[derive(Clone, Copy)]
pub struct PayloadText<'b, 'w, 't>(pub Payload<'b, 'w, 't>);

impl fmt::Display for PayloadText<'_, '_, '_> {
    ghost output = { λ p. Some (payload_text p.0.table.now p.0.place p.0.bytes.now) };

    fn fmt<W: fmt::Write>(&self, f: &mut fmt::Formatter<W>) -> fmt::Result {
        if let Some(number) = self.0.digits() {
            f.write_str(" ")?;
            return Display::fmt(&NumberJson(number), f);
        }
        match self.0.table.options(self.0.place) {
            Some(options) => {
                if let Some(number) = number_by(self.0.table, options, self.0.bytes) {
                    f.write_str(" ")?;
                    return Display::fmt(&NamedText(number), f);
                }
                let value = FormText(Shown::of(&self.0, options));
                Display::fmt(&value, f)
            }
            None => {
                let bytes = Bytes(self.0.bytes);
                write!(f, " {bytes}")
            }
        }
    }
}

/// A payload as one value of JSON.
#[derive(Clone, Copy)]
pub struct PayloadJson<'b, 'w, 't>(pub Payload<'b, 'w, 't>);

impl fmt::Display for PayloadJson<'_, '_, '_> {
    ghost output = { λ p. Some (payload_json p.0.table.now p.0.place p.0.bytes.now) };

    fn fmt<W: fmt::Write>(&self, f: &mut fmt::Formatter<W>) -> fmt::Result {
        if let Some(number) = self.0.digits() {
            return Display::fmt(&NumberJson(number), f);
        }
        match self.0.table.options(self.0.place) {
            Some(options) => {
                if let Some(number) = number_by(self.0.table, options, self.0.bytes) {
                    return Display::fmt(&NamedJson(number), f);
                }
                let value = FormJson(Shown::of(&self.0, options));
                Display::fmt(&value, f)
            }
            None => {
                let bytes = BytesJson(self.0.bytes);
                Display::fmt(&bytes, f)
            }
        }
    }
}
