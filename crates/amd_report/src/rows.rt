// The text of a permutation: the number of a row in each line, from 1 on.

ghost use Rattle.std.specs.Prelude.{OnOk};
ghost use Rattle.std.specs.Io.KnownBytes.{Appends};
ghost use Rattle.amd_report.specs.Texts.{row_lines};

use std::io;
use std::io::Write;

/// Writes the row that stands at each place, a line for each, rows counted from 1.
///
/// # Errors
///
/// The writer's, of the first write that fails. What was written before stays written.
pub fn write_rows<W: Write>(p: &[usize], out: &mut W) -> io::Result<()>
    ensures { OnOk result (Appends (W.contents out.old) (W.contents out.new) (row_lines p.now)) }
{
    'places: for &row in p {
        let number = row as u128 + 1;
        writeln!(out, "{number}")?;
    }
    Ok(())
}
