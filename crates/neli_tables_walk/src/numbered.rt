//! Payloads and fields that are one number.

ghost use Rattle.std.specs.Prelude.{◌≡◌, ◌++◌, IfSome, IsSome, None, Some, codes, false, length};
ghost use Rattle.neli_tables.specs.Families.{Lines};
ghost use Rattle.neli_tables_walk.specs.Cells.{value_json, value_text};
ghost use Rattle.neli_tables_walk.specs.FieldBytes.{before_zero};
ghost use Rattle.neli_tables_walk.specs.Named.{number_json, number_text};
ghost use Rattle.neli_tables_walk.specs.Numbers.{digits_by, number_of, plain_number_json};
ghost use Rattle.neli_tables_walk.specs.Breaches.{form_breach};
ghost use Rattle.neli_tables_walk.specs.Forms.{form_of};
ghost use Rattle.neli_tables_walk.specs.Values.{form_json, form_text, kept_form, struct_by};

use crate::form::{Cell, Form, Plain, form_of};
use crate::named::Named;
use crate::number::{Number, number_in};
use byteorder::{ByteOrder, LittleEndian};
use neli_tables::{Kind, Options, Table, plain_kind};

/// The number that bytes are by these options, if they are one. As which it is printed needs no
/// further look at its kind.
pub fn number_by<'w, 't>(
    table: &'w Table<'t>,
    options: &'w Options,
    bytes: &[u8],
) -> Option<Named<'w, 't>>
    ensures table { IfSome result (λ n. n.table ≡ table.entry) }
    ensures options { IfSome result (λ n. n.options ≡ options.entry) }
    ensures text { IfSome result (λ n. value_text table.now options.now bytes.now
        ≡ codes " " ++ number_text table.now options.now n.number) }
    ensures json { IfSome result (λ n. value_json table.now options.now bytes.now
        ≡ number_json table.now options.now n.number) }
    ensures payload_text { IfSome result (λ n. form_text table.now options.now
        (kept_form table.now options.now bytes.now) bytes.now
        ≡ codes " " ++ number_text table.now options.now n.number) }
    ensures payload_json { IfSome result (λ n. form_json table.now options.now
        (kept_form table.now options.now bytes.now) bytes.now
        ≡ number_json table.now options.now n.number) }
{
    let Form::Cell(Cell::Plain(Plain::Number(width))) = form_of(table, options, bytes.len()) else {
        return None;
    };
    Some(Named {
        table,
        options,
        number: number_in(width, bytes)?,
    })
}

/// A number without a sign.
fn unsigned(bits: u64) -> Number
    ensures { result ≡ record { bits = bits; signed = None } }
{
    Number { bits, signed: None }
}

/// The number that bytes are by these options, if no value has a name and it is printed in decimal
/// digits; of a kind that numbers seldom have, `None`.
#[inline(always)]
pub fn digits_by(options: &Options, bytes: &[u8]) -> Option<Number>
    ensures text { IfSome result (λ n. (table : Lines) → value_text table options.now bytes.now
        ≡ codes " " ++ plain_number_json n) }
    ensures json { IfSome result (λ n. (table : Lines) → value_json table options.now bytes.now
        ≡ plain_number_json n) }
    ensures payload_text { IfSome result (λ n. (table : Lines) → form_text table options.now
        (kept_form table options.now bytes.now) bytes.now ≡ codes " " ++ plain_number_json n) }
    ensures payload_json { IfSome result (λ n. (table : Lines) → form_json table options.now
        (kept_form table options.now bytes.now) bytes.now ≡ plain_number_json n) }
    ensures breach { IsSome result → (table : Lines)
        → form_breach (form_of table options.now (length bytes.now)) bytes.now ≡ None }
    ensures fields { IsSome result
        → struct_by options.now.kind options.now.array options.now.of ≡ None }
    ensures number { result ≡ digits_by options.now bytes.now }
{
    digits_as(options, plain_kind(options)?, bytes)
}

/// The number that bytes of this kind are, that of these options, by which no value has a name; of
/// a kind that numbers seldom have, `None`. The options themselves are not looked at.
#[inline(always)]
pub fn digits_as(_options: &Options, kind: Kind, bytes: &[u8]) -> Option<Number>
    requires array { _options.now.array ≡ false }
    requires hex { _options.now.hex ≡ false }
    requires values { _options.now.values ≡ None }
    requires flags { _options.now.flags ≡ None }
    requires kind { _options.now.kind ≡ Some kind }
    ensures text { IfSome result (λ n. (table : Lines) → value_text table _options.now bytes.now
        ≡ codes " " ++ plain_number_json n) }
    ensures json { IfSome result (λ n. (table : Lines) → value_json table _options.now bytes.now
        ≡ plain_number_json n) }
    ensures payload_text { IfSome result (λ n. (table : Lines) → form_text table _options.now
        (kept_form table _options.now bytes.now) bytes.now ≡ codes " " ++ plain_number_json n) }
    ensures payload_json { IfSome result (λ n. (table : Lines) → form_json table _options.now
        (kept_form table _options.now bytes.now) bytes.now ≡ plain_number_json n) }
    ensures breach { IsSome result → (table : Lines)
        → form_breach (form_of table _options.now (length bytes.now)) bytes.now ≡ None }
    ensures fields { IsSome result
        → struct_by _options.now.kind _options.now.array _options.now.of ≡ None }
    ensures whole { IsSome result → before_zero (Some kind) bytes.now ≡ bytes.now }
    ensures number { result ≡ number_of kind bytes.now }
{
    Some(match (kind, bytes.len()) {
        (Kind::U8, 1) => unsigned(bytes[0] as u64),
        (Kind::U16, 2) => unsigned(LittleEndian::read_u16(bytes) as u64),
        (Kind::U32, 4) => unsigned(LittleEndian::read_u32(bytes) as u64),
        (Kind::U64, 8) => unsigned(LittleEndian::read_u64(bytes)),
        (Kind::S32, 4) => Number {
            bits: LittleEndian::read_u32(bytes) as u64,
            signed: Some(LittleEndian::read_i32(bytes) as i64),
        },
        _ => return None,
    })
}
