// The pattern of a matrix: the rows of a column, and its text, a file of the Matrix Market with every entry, the rows
// of each column as they stand.

ghost use Rattle.std.specs.Prelude.{◌≡◌, flat_map, OnOk};
ghost use Rattle.std.specs.Io.KnownBytes.{Appends};
ghost use Rattle.amd_report.specs.Patterns.{column_rows, entry_line, matrix_entries, matrix_text, size_line};

use amd_market::reader::Matrix;
use std::alloc::Allocator;
use std::io;
use std::io::Write;

/// The rows of column `j`, as far as the list has them.
pub fn rows_between<'a>(a_p: &[usize], a_i: &'a [usize], j: usize) -> &'a [usize]
    ensures { result.now ≡ column_rows a_p.now a_i.now j }
{
    let begin = a_p.get(j).copied().unwrap_or(0).min(a_i.len());
    let next = a_p.get(j.saturating_add(1)).copied().unwrap_or(0);
    let end = next.min(a_i.len()).max(begin);
    &a_i[begin..end]
}

/// The rows of column `j` of a matrix.
pub fn rows_of<A: Allocator>(matrix: &Matrix<A>, j: usize) -> &[usize]
    ensures { result.now ≡ column_rows matrix.now.a_p.items matrix.now.a_i.items j }
{
    rows_between(&matrix.a_p, &matrix.a_i, j)
}

/// Writes a line for each of some rows of a column: the two numbers, from 1 on.
fn write_column<W: Write>(column: usize, rows: &[usize], out: &mut W) -> io::Result<()>
    ensures { OnOk result (Appends (W.contents out.old) (W.contents out.new) (flat_map (entry_line column) rows.now)) }
{
    let right = column as u128 + 1;
    'rows: for &row in rows {
        let left = row as u128 + 1;
        writeln!(out, "{left} {right}")?;
    }
    Ok(())
}

/// Writes the lines of the entries.
fn write_entries<W: Write, A: Allocator>(matrix: &Matrix<A>, out: &mut W) -> io::Result<()>
    ensures { OnOk result (Appends (W.contents out.old) (W.contents out.new)
        (matrix_entries matrix.now.a_p.items matrix.now.a_i.items matrix.now.n)) }
{
    'columns: for j in 0..matrix.n {
        let rows = rows_of(matrix, j);
        write_column(j, rows, out)?;
    }
    Ok(())
}

/// Writes the line of a size.
fn write_size<W: Write>(n: usize, entries: usize, out: &mut W) -> io::Result<()>
    ensures { OnOk result (Appends (W.contents out.old) (W.contents out.new) (size_line n entries)) }
{
    writeln!(out, "{n} {n} {entries}")?;
    Ok(())
}

/// Writes the pattern of a matrix as a file of the Matrix Market, with every entry.
///
/// # Errors
///
/// The writer's, of the first write that fails. What was written before stays written.
pub fn write_matrix<W: Write, A: Allocator>(matrix: &Matrix<A>, out: &mut W) -> io::Result<()>
    ensures { OnOk result (Appends (W.contents out.old) (W.contents out.new)
        (matrix_text matrix.now.n matrix.now.a_p.items matrix.now.a_i.items)) }
{
    let entries = matrix.a_i.len();
    out.write_all(b"%%MatrixMarket matrix coordinate pattern general\n")?;
    write_size(matrix.n, entries, out)?;
    write_entries(matrix, out)?;
    Ok(())
}
