//! Rows of comma-separated values.

ghost use Rattle.std.specs.Prelude.{◌∷◌, ◌++◌, [], map, IfOk};
ghost use Rattle.std.specs.Io.KnownBytes.{Appends};
ghost use Rattle.bites_filter.specs.Csv.{row};

use std::io::{self, Write};

/// Writes the fields on one line, each between quotes, with commas between them.
///
/// A quote in a field isn't doubled.
pub fn write_row<W: Write>(fields: &[&str], out: &mut W) -> io::Result<()>
    ensures { IfOk result (λ _. Appends (W.contents out.old) (W.contents out.new)
        (row (map (λ field. field.now) fields.now))) }
{
    let mut separator = b"".as_slice();
    for field in fields {
        write_field(separator, field, out)?;
        separator = b",";
    }
    out.write_all(b"\n")
}

// Writes the separator, and a field between quotes.
fn write_field<W: Write>(separator: &[u8], field: &str, out: &mut W) -> io::Result<()>
    ensures { IfOk result (λ _. Appends (W.contents out.old) (W.contents out.new)
        (separator.now ++ (34 ∷ field.now ++ (34 ∷ [])))) }
{
    out.write_all(separator)?;
    out.write_all(b"\"")?;
    out.write_all(field.as_bytes())?;
    out.write_all(b"\"")
}
