//! The bytes of a field.

ghost use Rattle.std.specs.Prelude.{◌≡◌, ◌<◌, ◌==◌, IfSome, length, position};
ghost use Rattle.std.specs.Option.{option_map};
ghost use Rattle.neli_tables.specs.Lines.{line_view};
ghost use Rattle.neli_tables_walk.specs.FieldBytes.{before_zero, bytes_at, field_bytes_by, is_open};
ghost use Rattle.neli_tables_walk.specs.FieldBytes.{keeps_part};

use neli_tables::{Kind, Line, Options};

/// Whether a field of this kind, where it is cut off, has the bytes that are left.
fn is_open(kind: Option<Kind>) -> bool
    ensures { result ≡ is_open kind }
{
    matches!(
        kind,
        Some(Kind::Bytes | Kind::Pad | Kind::Text | Kind::Hardware | Kind::Ip)
    )
}

/// Whether a field, where it is cut off, has the bytes that are left.
fn keeps_part(options: &Options) -> bool
    ensures { result ≡ keeps_part options.now }
{
    options.array || is_open(options.kind)
}

/// The bytes from one place up to another, where they are there; else those that are left, where
/// a part is to be kept.
fn bytes_at<'b>(options: &Options, start: usize, end: usize, bytes: &'b [u8]) -> Option<&'b [u8]>
    ensures { option_map (λ part. part.now) result
        ≡ bytes_at (keeps_part options.now) start end bytes.now }
{
    if start <= end && end <= bytes.len() {
        Some(&bytes[start..end])
    } else if keeps_part(options) && start < bytes.len() {
        Some(&bytes[start..])
    } else {
        None
    }
}

/// The index of the first zero.
fn first_zero(bytes: &[u8]) -> Option<usize>
    ensures value { result ≡ position (λ b. b == 0) bytes.now }
    ensures within { IfSome result (λ place. place < length bytes.now) }
{
    bytes.iter().position(|byte| *byte == 0)
}

/// The bytes before the first zero of a text in a structure, of others all.
fn before_zero(kind: Option<Kind>, bytes: &[u8]) -> &[u8]
    ensures { result.now ≡ before_zero kind bytes.now }
{
    if !matches!(kind, Some(Kind::Text)) {
        return bytes;
    }
    match first_zero(bytes) {
        Some(end) => &bytes[..end],
        None => bytes,
    }
}

/// The bytes of a field, if it has some in those of its structure.
pub fn field_bytes<'b>(row: &Line<'_>, options: &Options, bytes: &'b [u8]) -> Option<&'b [u8]>
    ensures { option_map (λ part. part.now) result
        ≡ field_bytes_by (line_view row.now) options.now bytes.now }
{
    let span = row.span?;
    let (start, end) = (span.first as usize, span.last as usize);
    let part = bytes_at(options, start, end, bytes)?;
    Some(before_zero(options.kind, part))
}
