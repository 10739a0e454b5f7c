// The listing of a matrix, column by column, after the Rust crate's demos.

ghost use Rattle.std.specs.Prelude.{OnOk};
ghost use Rattle.amd_texts.specs.Writers.{HasTold};

use crate::matrix::DemoMatrix;
use crate::numbers::write_each;
use std::io;
use std::io::Write;

/// Writes where column `j` stands and how many entries it has, and then its rows; nothing where there is no such
/// column.
fn write_column<W: Write>(matrix: &DemoMatrix, j: i32, out: &mut W) -> io::Result<()>
    ensures { OnOk result (HasTold (W.contents out.old) (W.contents out.new)) }
{
    let (Some((begin, end)), Some(rows)) = (matrix.ends(j), matrix.column(j)) else {
        return Ok(());
    };
    let count = rows.len();
    let last = end.saturating_sub(1);
    writeln!(
        out,
        "\nColumn: {j}, number of entries: {count}, with row indices in"
    )?;
    writeln!(out, " Ai [{begin} ... {last}]:")?;
    out.write_all(b"    row indices:")?;
    write_each(" ", rows, out)?;
    out.write_all(b"\n")?;
    Ok(())
}

/// Writes each column of a matrix.
pub fn write_listing<W: Write>(matrix: &DemoMatrix, out: &mut W) -> io::Result<()>
    ensures { OnOk result (HasTold (W.contents out.old) (W.contents out.new)) }
{
    for j in 0..matrix.n {
        write_column(matrix, j, out)?;
    }
    Ok(())
}
