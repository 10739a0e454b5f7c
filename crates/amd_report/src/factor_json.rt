// The factor under an ordering as JSON: the bounds and what the factor needs, and a list of three numbers for each
// column, as the lines of `analyze` have them.

ghost use Rattle.std.specs.Prelude.{◌≡◌, length, slice_index, OnOk};
ghost use Rattle.std.specs.Io.KnownBytes.{Appends};
ghost use Rattle.amd_report.specs.FactorJson.{analysis_json, column_item, column_items, comma, row_of_parent};

use crate::json::{write_bounds, write_matrix_members, write_need};
use amd_factor::needs::Need;
use amd_types::amd::Info;
use std::io;
use std::io::Write;

/// What stands before an item of a list.
fn comma(k: usize) -> &'static str
    ensures { result.now ≡ comma k }
{
    if k == 0 { "" } else { "," }
}

/// The row of the parent of column `k`, from 1 on; 0 where it has none.
fn row_of_parent(p: &[usize], parents: &[Option<usize>], k: usize) -> u128
    ensures { result ≡ row_of_parent p.now parents.now k }
{
    match parents.get(k).copied().unwrap_or(None) {
        Some(place) => number_at(p, place) as u128 + 1,
        None => 0,
    }
}

/// The number at a place; 0 past the end.
fn number_at(numbers: &[usize], place: usize) -> usize
    ensures { result ≡ slice_index numbers.now place }
{
    numbers.get(place).copied().unwrap_or(0)
}

/// Writes the item of column `k`.
fn write_item<W: Write>(
    k: usize,
    row: usize,
    above: u128,
    size: usize,
    out: &mut W,
) -> io::Result<()>
    ensures { OnOk result (Appends (W.contents out.old) (W.contents out.new) (column_item k row above size)) }
{
    let before = comma(k);
    let number = row as u128 + 1;
    write!(out, "{before}[{number},{above},{size}]")?;
    Ok(())
}

/// Writes the items of the columns.
fn write_items<W: Write>(
    p: &[usize],
    parents: &[Option<usize>],
    sizes: &[usize],
    out: &mut W,
) -> io::Result<()>
    ensures { OnOk result (Appends (W.contents out.old) (W.contents out.new)
        (column_items p.now parents.now sizes.now (length p.now))) }
{
    'columns: for k in 0..p.len() {
        let row = number_at(p, k);
        let above = row_of_parent(p, parents, k);
        let size = number_at(sizes, k);
        write_item(k, row, above, size, out)?;
    }
    Ok(())
}

/// Writes what an ordering tells, how many duplicates were dropped from the file, what the factor needs under it, and
/// its columns: the row of each, that of its parent, or 0 where it has none, and the number of its entries below the
/// diagonal. Rows count from 1.
///
/// # Errors
///
/// The writer's, of the first write that fails. What was written before stays written.
pub fn write_analysis_json<W: Write>(
    info: &Info,
    duplicates: usize,
    need: &Need,
    p: &[usize],
    parents: &[Option<usize>],
    sizes: &[usize],
    out: &mut W,
) -> io::Result<()>
    ensures { OnOk result (Appends (W.contents out.old) (W.contents out.new)
        (analysis_json info.now duplicates need.now p.now parents.now sizes.now)) }
{
    write_matrix_members(info, duplicates, out)?;
    write_bounds(info, out)?;
    write_need("ordered", info.n, info.nz_a_plus_at / 2, need, out)?;
    out.write_all(b",\"columns\":[")?;
    write_items(p, parents, sizes, out)?;
    out.write_all(b"]}\n")?;
    Ok(())
}
