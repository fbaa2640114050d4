//! Rows that have a name.

ghost use Rattle.std.specs.Prelude.{◌≡◌, find, map};
ghost use Rattle.std.specs.Option.{option_copied, option_map};
ghost use Rattle.std.specs.Str.{bytes_eq};
ghost use Rattle.neli_tables.specs.Rows.{named, row_view};

/// The first row with this name.
fn find_row<'r, 'n, V: Copy>(rows: &'r [(&'n [u8], V)], name: &[u8]) -> Option<&'r (&'n [u8], V)>
    ensures { option_copied result ≡ find (λ row. bytes_eq row.0.now name.now) rows.now }
{
    rows.iter().find(|row| row.0 == name)
}

/// The first row with this name, if there is one.
fn row_of<'n, V: Copy>(rows: &[(&'n [u8], V)], name: &[u8]) -> Option<(&'n [u8], V)>
    ensures { option_map row_view result
        ≡ find (λ row. bytes_eq row.0 name.now) (map row_view rows.now) }
{
    find_row(rows, name).copied()
}

/// The value of the first row with this name.
pub(crate) fn row_named<V: Copy>(rows: &[(&[u8], V)], name: &[u8]) -> Option<V>
    ensures { result ≡ named (map row_view rows.now) name.now }
{
    let (_, said) = row_of(rows, name)?;
    Some(said)
}
