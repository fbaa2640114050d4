//! Names that are printed as they stand.

ghost use Rattle.std.specs.Prelude.{◌≡◌, map, IfOk};
ghost use Rattle.std.specs.List.{list_all};
ghost use Rattle.std.specs.Option.{option_map};
ghost use Rattle.neli_tables.specs.Lines.{line_view};
ghost use Rattle.neli_tables.specs.Plain.{is_plain, name_view, plain_name};

use crate::Line;
use std::alloc::{AllocError, Global};
use std::str;

/// Whether a byte is a printing character of ASCII that needs no escape in a text in quotes.
fn is_plain(byte: u8) -> bool
    ensures { result ≡ is_plain byte }
{
    0x1f < byte && byte < 0x7f && byte != b'"' && byte != b'\\'
}

/// Whether all bytes are such characters, as those of most texts are.
pub fn are_plain(bytes: &[u8]) -> bool
    ensures { result ≡ list_all is_plain bytes.now }
{
    bytes.iter().all(|byte| is_plain(*byte))
}

/// The name of a line as text, where it needs no escape.
pub(crate) fn plain_name<'t>(line: &Line<'t>) -> Option<&'t str>
    ensures { name_view result ≡ plain_name (line_view line.now) }
{
    if !are_plain(line.name) {
        return None;
    }
    match str::from_utf8(line.name) {
        Ok(text) => Some(text),
        Err(_) => None,
    }
}

/// These names of all lines, in order. Refused where memory runs out.
pub(crate) fn plain_names<'t>(
    alloc: Global,
    lines: &[Line<'t>],
) -> Result<Vec<Option<&'t str>>, AllocError>
    ensures { IfOk result (λ names. map name_view names.items
        ≡ map plain_name (map line_view lines.now)) }
{
    let mut names = Vec::with_capacity(alloc, lines.len())?;
    for line in lines {
        names.push(plain_name(line))?;
    }
    Ok(names)
}
