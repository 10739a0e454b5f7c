// The text of what the ordering tells, after the AMD user guide. It goes to the writer in pieces, and no memory is
// asked.

ghost use Rattle.std.specs.Prelude.{◌≡◌, OnOk, IfSome, IsTrue};
ghost use Rattle.std.specs.Char.{is_ascii};
ghost use Rattle.std.specs.List.{list_all};
ghost use Rattle.std.specs.Io.KnownBytes.{Appends};
ghost use Rattle.amd_texts.specs.Texts.{factor_lines, info_text, labelled, matrix_lines, note_lines, status_word};
ghost use Rattle.amd_texts.specs.Texts.{total_lines};

use amd_types::amd::{Info, Status};
use std::fmt::Display;
use std::io;
use std::io::Write;

/// Writes a line of a label of ASCII characters and a value, which begins in a column of its own.
pub fn write_labelled<W: Write, D: Display>(label: &str, value: &D, out: &mut W) -> io::Result<()>
    requires { IsTrue (list_all is_ascii label.now) }
    ensures { OnOk result (IfSome (D.output value.now)
        (λ text. Appends (W.contents out.old) (W.contents out.new) (labelled label.now text))) }
{
    writeln!(out, "    {label:<52}{value}")?;
    Ok(())
}

/// The word for a status.
fn status_word(status: &Status) -> &'static str
    ensures { result.now ≡ status_word status.now }
{
    match status {
        Status::OK => "OK",
        Status::Invalid => "invalid matrix",
        Status::OkButJumbled => "OK, but jumbled",
        Status::OutOfMemory => "unknown",
    }
}

/// Writes the lines on the matrix.
fn write_matrix<W: Write>(info: &Info, out: &mut W) -> io::Result<()>
    ensures { OnOk result (Appends (W.contents out.old) (W.contents out.new) (matrix_lines info.now)) }
{
    let status = status_word(&info.status);
    write_labelled("status:", &status, out)?;
    write_labelled("n, dimension of A:", &info.n, out)?;
    write_labelled("nz, number of nonzeros in A:", &info.nz, out)?;
    write_labelled("symmetry of A:", &info.symmetry, out)?;
    write_labelled("number of nonzeros on diagonal:", &info.nz_diag, out)?;
    write_labelled(
        "nonzeros in pattern of A+A' (excl. diagonal):",
        &info.nz_a_plus_at,
        out,
    )?;
    write_labelled("# dense rows/columns of A+A':", &info.n_dense, out)?;
    write_labelled("# of memory compactions:", &info.n_cmp_a, out)?;
    Ok(())
}

/// Writes what the lines after it mean.
fn write_note<W: Write>(out: &mut W) -> io::Result<()>
    ensures { OnOk result (Appends (W.contents out.old) (W.contents out.new) note_lines) }
{
    out.write_all(b"    The following approximate statistics are for a subsequent\n")?;
    out.write_all(b"    factorization of A(P,P) + A(P,P)'.  They are slight upper\n")?;
    out.write_all(b"    bounds if there are no dense rows/columns in A+A', and become\n")?;
    out.write_all(b"    looser if dense rows/columns exist.\n")?;
    Ok(())
}

/// Writes the lines on the factor.
fn write_factor<W: Write>(info: &Info, out: &mut W) -> io::Result<()>
    ensures { OnOk result (Appends (W.contents out.old) (W.contents out.new) (factor_lines info.now)) }
{
    let with_diagonal = info.n as u128 + info.lnz as u128;
    write_labelled("nonzeros in L (excluding diagonal):", &info.lnz, out)?;
    write_labelled("nonzeros in L (including diagonal):", &with_diagonal, out)?;
    write_labelled("# divide operations for LDL' or LU:", &info.n_div, out)?;
    write_labelled(
        "# multiply-subtract operations for LDL':",
        &info.n_mult_subs_ldl,
        out,
    )?;
    write_labelled(
        "# multiply-subtract operations for LU:",
        &info.n_mult_subs_lu,
        out,
    )?;
    write_labelled(
        "max nz. in any column of L (incl. diagonal):",
        &info.d_max,
        out,
    )?;
    Ok(())
}

/// Writes the lines on the steps of whole factorizations. The sums have 128 bits, so that none is cut.
fn write_totals<W: Write>(info: &Info, out: &mut W) -> io::Result<()>
    ensures { OnOk result (Appends (W.contents out.old) (W.contents out.new) (total_lines info.now)) }
{
    let n = info.n as u128;
    let n_div = info.n_div as u128;
    let ldl = info.n_mult_subs_ldl as u128;
    let lu = info.n_mult_subs_lu as u128;
    let chol_real = n + n_div + 2 * ldl;
    let ldl_real = n_div + 2 * ldl;
    let ldl_complex = 9 * n_div + 8 * ldl;
    let lu_real = n_div + 2 * lu;
    let lu_complex = 9 * n_div + 8 * lu;
    write_labelled(
        "chol flop count for real A, sqrt counted as 1 flop:",
        &chol_real,
        out,
    )?;
    write_labelled("LDL' flop count for real A:", &ldl_real, out)?;
    write_labelled("LDL' flop count for complex A:", &ldl_complex, out)?;
    write_labelled(
        "LU flop count for real A (with no pivoting):",
        &lu_real,
        out,
    )?;
    write_labelled(
        "LU flop count for complex A (with no pivoting):",
        &lu_complex,
        out,
    )?;
    Ok(())
}

/// Writes what the ordering tells, as lines of a label and a value: on the matrix, on the factor, and the steps of
/// whole factorizations. Any record is written as it is, `unknown` for the status `OutOfMemory`; the sums are never
/// cut.
///
/// # Errors
///
/// The writer's, of the first write that fails. What was written before stays written.
///
/// Source: AMD user guide.
pub fn info<W: Write>(info: &Info, out: &mut W) -> io::Result<()>
    ensures { OnOk result (Appends (W.contents out.old) (W.contents out.new) (info_text info.now)) }
{
    out.write_all(b"\nAMD results:\n")?;
    write_matrix(info, out)?;
    out.write_all(b"\n")?;
    write_note(out)?;
    out.write_all(b"\n")?;
    write_factor(info, out)?;
    out.write_all(b"\n")?;
    write_totals(info, out)?;
    out.write_all(b"\n")?;
    Ok(())
}
