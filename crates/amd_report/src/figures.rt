// The table of what an ordering tells, a label and a value a line.

ghost use Rattle.std.specs.Prelude.{◌≡◌, OnOk};
ghost use Rattle.std.specs.Io.KnownBytes.{Appends};
ghost use Rattle.amd_report.specs.Texts.{status_phrase, matrix_figures, factor_figures, figures_text};

use amd_texts::write_labelled;
use amd_types::amd::{Info, Status};
use std::io;
use std::io::Write;

/// What is said of an input: the status of its ordering, and whether the file had duplicates, which were dropped.
pub fn status_phrase(status: &Status, duplicates: usize) -> &'static str
    ensures { result.now ≡ status_phrase status.now duplicates }
{
    match status {
        Status::OK if duplicates > 0 => "OK, but with duplicates",
        Status::OK => "OK",
        Status::OkButJumbled => "OK, but jumbled",
        Status::Invalid => "invalid",
        Status::OutOfMemory => "out of memory",
    }
}

/// Writes the lines on the matrix, from whose file so many duplicates were dropped.
///
/// # Errors
///
/// The writer's, of the first write that fails. What was written before stays written.
pub fn write_matrix_figures<W: Write>(info: &Info, duplicates: usize, out: &mut W) -> io::Result<()>
    ensures { OnOk result (Appends (W.contents out.old) (W.contents out.new) (matrix_figures info.now duplicates)) }
{
    let status = status_phrase(&info.status, duplicates);
    write_labelled("rows", &info.n, out)?;
    write_labelled("entries", &info.nz, out)?;
    write_labelled("duplicates dropped", &duplicates, out)?;
    write_labelled("status", &status, out)?;
    write_labelled("rows placed last (dense or held)", &info.n_dense, out)?;
    write_labelled("workspace compactions", &info.n_cmp_a, out)?;
    Ok(())
}

/// Writes the lines on the factor.
fn write_factor_figures<W: Write>(info: &Info, out: &mut W) -> io::Result<()>
    ensures { OnOk result (Appends (W.contents out.old) (W.contents out.new) (factor_figures info.now)) }
{
    write_labelled("entries of L below the diagonal, at most", &info.lnz, out)?;
    write_labelled("divisions, at most", &info.n_div, out)?;
    write_labelled(
        "multiply-subtracts for LDL', at most",
        &info.n_mult_subs_ldl,
        out,
    )?;
    write_labelled(
        "multiply-subtracts for LU, at most",
        &info.n_mult_subs_lu,
        out,
    )?;
    write_labelled(
        "largest column, with its diagonal, at most",
        &info.d_max,
        out,
    )?;
    Ok(())
}

/// Writes the table of what an ordering tells, and how many duplicates were dropped from the file.
///
/// # Errors
///
/// The writer's, of the first write that fails. What was written before stays written.
pub fn write_figures<W: Write>(info: &Info, duplicates: usize, out: &mut W) -> io::Result<()>
    ensures { OnOk result (Appends (W.contents out.old) (W.contents out.new) (figures_text info.now duplicates)) }
{
    write_matrix_figures(info, duplicates, out)?;
    write_factor_figures(info, out)?;
    Ok(())
}
