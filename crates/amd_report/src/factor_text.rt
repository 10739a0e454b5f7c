// The texts on a factor: a line for each column, and what the factor needs beside the bounds that the ordering tells.

ghost use Rattle.std.specs.Prelude.{◌≡◌, ◌+◌, None, length, slice_index, slice_index_or, IsTrue, OnOk};
ghost use Rattle.std.specs.Char.{is_ascii};
ghost use Rattle.std.specs.List.{list_all};
ghost use Rattle.std.specs.Io.KnownBytes.{Appends};
ghost use Rattle.amd_report.specs.FactorTexts.{bound_line, column_lines, comparison_text, need_figures, row_at_parent};

use crate::figures::write_matrix_figures;
use amd_factor::needs::Need;
use amd_types::amd::Info;
use std::io;
use std::io::Write;

/// The number of the row at a place, from 1 on.
fn number_at(p: &[usize], place: usize) -> u128
    ensures { result ≡ slice_index p.now place + 1 }
{
    p.get(place).copied().unwrap_or(0) as u128 + 1
}

/// The number of the row of a parent, from 1 on; 0 where there is none.
fn row_at_parent(p: &[usize], parent: Option<usize>) -> u128
    ensures { result ≡ row_at_parent p.now parent }
{
    match parent {
        Some(place) => number_at(p, place),
        None => 0,
    }
}

/// The parent of column, or supernode, `k`.
pub fn parent_at(parents: &[Option<usize>], k: usize) -> Option<usize>
    ensures { result ≡ slice_index_or parents.now k None }
{
    parents.get(k).copied().unwrap_or(None)
}

/// How many entries column `k` has.
fn size_at(sizes: &[usize], k: usize) -> usize
    ensures { result ≡ slice_index sizes.now k }
{
    sizes.get(k).copied().unwrap_or(0)
}

/// Writes a line for each column of a factor: the row of the column, the row of its parent in the elimination tree, or
/// 0 where it has none, and the number of its entries below the diagonal. Rows count from 1.
///
/// # Errors
///
/// The writer's, of the first write that fails. What was written before stays written.
pub fn write_columns<W: Write>(
    p: &[usize],
    parents: &[Option<usize>],
    sizes: &[usize],
    out: &mut W,
) -> io::Result<()>
    ensures { OnOk result (Appends (W.contents out.old) (W.contents out.new)
        (column_lines p.now sizes.now parents.now (length p.now))) }
{
    'columns: for k in 0..p.len() {
        let row = number_at(p, k);
        let parent = parent_at(parents, k);
        let above = row_at_parent(p, parent);
        let size = size_at(sizes, k);
        writeln!(out, "{row} {above} {size}")?;
    }
    Ok(())
}

/// Writes a line with what a factor needs, and the bound. The label is of ASCII characters.
fn write_beside<W: Write>(label: &str, exact: u128, bound: usize, out: &mut W) -> io::Result<()>
    requires { IsTrue (list_all is_ascii label.now) }
    ensures { OnOk result (Appends (W.contents out.old) (W.contents out.new) (bound_line label.now exact bound)) }
{
    writeln!(out, "    {label:<52}{exact}, at most {bound}")?;
    Ok(())
}

/// Writes the lines on the factor.
fn write_need<W: Write>(need: &Need, info: &Info, out: &mut W) -> io::Result<()>
    ensures { OnOk result (Appends (W.contents out.old) (W.contents out.new) (need_figures need.now info.now)) }
{
    write_beside("entries of L below the diagonal", need.lnz, info.lnz, out)?;
    write_beside("divisions", need.lnz, info.n_div, out)?;
    write_beside(
        "multiply-subtracts for LDL'",
        need.n_mult_subs_ldl,
        info.n_mult_subs_ldl,
        out,
    )?;
    write_beside(
        "multiply-subtracts for LU",
        need.n_mult_subs_lu,
        info.n_mult_subs_lu,
        out,
    )?;
    write_beside(
        "largest column, with its diagonal",
        need.d_max,
        info.d_max,
        out,
    )?;
    Ok(())
}

/// Writes the table of what an ordering tells, how many duplicates were dropped from the file, and what the factor
/// needs beside each bound.
///
/// # Errors
///
/// The writer's, of the first write that fails. What was written before stays written.
pub fn write_comparison<W: Write>(
    need: &Need,
    info: &Info,
    duplicates: usize,
    out: &mut W,
) -> io::Result<()>
    ensures { OnOk result (Appends (W.contents out.old) (W.contents out.new)
        (comparison_text need.now info.now duplicates)) }
{
    write_matrix_figures(info, duplicates, out)?;
    write_need(need, info, out)?;
    Ok(())
}
