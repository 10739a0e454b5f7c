// The exact factor of a matrix under its ordering, beside the bounds that the ordering told. The figures are those of
// the AMD user guide.

ghost use Rattle.std.specs.Prelude.{◌≡◌, ℕ, List, ◌++◌, codes, true, false, IfOk, OnOk};
ghost use Rattle.std.specs.Io.KnownBytes.{Appends};
ghost use Rattle.amd_demos.specs.Exact.{exact_line, column_counts, exact_lines, figure_lines, HasExact};
ghost use Rattle.amd_demos.specs.Lines.{failure_line};
ghost use Rattle.amd_factor.specs.Needs.{IsNeed, TellSizes};

use crate::matrix::DemoMatrix;
use crate::outcome::write_failure;
use amd::Info;
use amd_factor::columns;
use amd_factor::needs::{Need, column_size, need_of};
use std::alloc::Allocator;
use std::io;
use std::io::Write;

/// Writes a line with how many entries each column has.
fn write_counts<W: Write>(ptr: &[usize], out: &mut W) -> io::Result<()>
    requires { (columns : List (List ℕ)) × TellSizes columns ptr.now }
    ensures { OnOk result ((columns : List (List ℕ)) → TellSizes columns ptr.now →
        Appends (W.contents out.old) (W.contents out.new) (column_counts columns ++ codes "\n")) }
{
    'columns: for k in 0..ptr.len() - 1 {
        let size = column_size(ptr, k);
        write!(out, " {size}")?;
    }
    out.write_all(b"\n")?;
    Ok(())
}

/// Writes a line of a figure: what the factor needs, and the bound.
fn write_beside<W: Write>(name: &str, exact: u128, bound: usize, out: &mut W) -> io::Result<()>
    ensures { OnOk result (Appends (W.contents out.old) (W.contents out.new) (exact_line name.now exact bound)) }
{
    writeln!(out, "{name}: exact {exact}, bound {bound}")
}

/// Writes the lines of the figures.
fn write_figures<W: Write>(need: &Need, told: &Info, out: &mut W) -> io::Result<()>
    ensures { OnOk result ((columns : List (List ℕ)) → IsNeed columns need.now →
        Appends (W.contents out.old) (W.contents out.new) (figure_lines columns told.now)) }
{
    write_beside(
        "nonzeros in L (excluding diagonal)",
        need.lnz,
        told.lnz,
        out,
    )?;
    write_beside(
        "multiply-subtract operations for LDL'",
        need.n_mult_subs_ldl,
        told.n_mult_subs_ldl,
        out,
    )?;
    write_beside(
        "multiply-subtract operations for LU",
        need.n_mult_subs_lu,
        told.n_mult_subs_lu,
        out,
    )?;
    write_beside(
        "max nz. in any column of L (incl. diagonal)",
        need.d_max,
        told.d_max,
        out,
    )?;
    Ok(())
}

/// Writes a factor, by where its columns begin and end, beside the bounds in a record.
fn write_exact<W: Write>(ptr: &[usize], told: &Info, out: &mut W) -> io::Result<()>
    requires { (columns : List (List ℕ)) × TellSizes columns ptr.now }
    ensures { OnOk result ((columns : List (List ℕ)) → TellSizes columns ptr.now →
        Appends (W.contents out.old) (W.contents out.new) (exact_lines columns told.now)) }
{
    out.write_all(b"\nExact column counts of the factor:\n")?;
    write_counts(ptr, out)?;
    write_figures(&need_of(ptr), told, out)?;
    Ok(())
}

/// Works out the factor of a matrix under an ordering, and writes it beside the bounds in the ordering's record; or the
/// line of failure where there is no factor. Returns whether it was the former.
pub fn print_exact<W: Write, A: Allocator + Copy>(
    alloc: A,
    matrix: &DemoMatrix,
    p: &[i32],
    told: &Info,
    out: &mut W,
) -> io::Result<bool>
    ensures exact { IfOk result (λ exact. exact ≡ true →
        HasExact matrix.now.n matrix.now.a_p.now matrix.now.a_i.now p.now told.now (W.contents out.old)
        (W.contents out.new)) }
    ensures failure { IfOk result (λ exact. exact ≡ false →
        Appends (W.contents out.old) (W.contents out.new) failure_line) }
{
    match columns(alloc, matrix.n, matrix.a_p, matrix.a_i, p, told.lnz) {
        Ok(factor) => {
            write_exact(&factor.ptr, told, out)?;
            Ok(true)
        }
        Err(_) => {
            write_failure(out)?;
            Ok(false)
        }
    }
}
