// The permuted matrix: row `p[k]` and column `p[k]` of the matrix stand at place `k`; as a pattern, and its text, made
// from that of the matrix with the values, or as a pattern.

ghost use Rattle.std.specs.Prelude.{◌≡◌, ◌++◌, slice_index, IfOk, MatchOption, OnOk};
ghost use Rattle.amd_cli.specs.Valued.{ListsNothing};
ghost use Rattle.amd_command.specs.Permuted.{IsPatternText, IsPermuted, IsValuedText, pairs_up_to, placed_pairs};

use amd_cli::causes::Cause;
use amd_cli::valued::text_at_places;
use amd_factor::places::places;
use amd_market::columns::columns_of;
use amd_market::reader::Matrix;
use amd_report::pattern::{rows_of, write_matrix};
use std::alloc::{Allocator, Global};

/// The place of a row.
fn place_of(places: &[usize], row: usize) -> usize
    ensures { result ≡ slice_index places.now row }
{
    places.get(row).copied().unwrap_or(0)
}

/// Adds a pair for each of some rows of a column: the place of the row, and that of the column.
fn add_column<A: Allocator>(
    rows: &[usize],
    column: usize,
    places: &[usize],
    pairs: &mut Vec<(usize, usize), A>,
) -> Result<(), Cause>
    ensures { OnOk result (pairs.new.items ≡ pairs.old.items ++ placed_pairs places.now column rows.now) }
{
    'rows: for &row in rows {
        let place = place_of(places, row);
        pairs.push((place, column))?;
    }
    Ok(())
}

/// The places of the entries.
fn placed_entries<A: Allocator + Copy>(
    alloc: A,
    matrix: &Matrix<A>,
    places: &[usize],
) -> Result<Vec<(usize, usize), A>, Cause>
    ensures { IfOk result (λ v. v.items ≡
        pairs_up_to places.now matrix.now.a_p.items matrix.now.a_i.items matrix.now.n) }
{
    let mut pairs = Vec::new(alloc);
    'columns: for j in 0..matrix.n {
        let rows = rows_of(matrix, j);
        let column = place_of(places, j);
        add_column(rows, column, places, &mut pairs)?;
    }
    Ok(pairs)
}

/// The matrix with its rows and columns in an order: row `p[k]` stands at place `k`.
///
/// # Errors
///
/// `Form` where `p` is no permutation of the rows, or the matrix no column form; `Memory` where memory was refused.
pub fn permuted<A: Allocator + Copy>(
    alloc: A,
    matrix: &Matrix<A>,
    p: &[usize],
) -> Result<Matrix<A>, Cause>
    ensures { IfOk result (λ m. IsPermuted matrix.now.n matrix.now.a_p.items matrix.now.a_i.items p.now m.n
        m.a_p.items m.a_i.items) }
{
    let n = matrix.n;
    let Some(places) = places(alloc, n, p)? else {
        return Err(Cause::Form);
    };
    let pairs = placed_entries(alloc, matrix, &places)?;
    if !pairs.iter().all(|pair| pair.0 < n && pair.1 < n) {
        return Err(Cause::Form);
    }
    let (a_p, a_i) = columns_of(alloc, n, pairs)?;
    Ok(Matrix {
        n,
        a_p,
        a_i,
        source: matrix.source,
        repeats: 0,
    })
}

/// The text of the matrix with its rows and columns in an order, as a pattern with every entry.
///
/// # Errors
///
/// Those of `permuted`.
pub fn pattern_text(alloc: Global, matrix: &Matrix<Global>, p: &[usize]) -> Result<Vec<u8>, Cause>
    ensures { IfOk result (λ text. IsPatternText matrix.now.n matrix.now.a_p.items matrix.now.a_i.items p.now
        text.items) }
{
    let made = permuted(alloc, matrix, p)?;
    let mut text = Vec::new(alloc);
    write_matrix(&made, &mut text)?;
    Ok(text)
}

/// The text of a matrix with its `n` rows and columns in an order, with the entries and the values of its text, if
/// that lists entries.
///
/// # Errors
///
/// `Form` where `p` is no permutation of the rows, or the text none of such a matrix; `Memory` where memory was
/// refused.
pub fn valued_text(
    alloc: Global,
    text: &[u8],
    n: usize,
    p: &[usize],
) -> Result<Option<Vec<u8>>, Cause>
    ensures { IfOk result (λ o. MatchOption o (ListsNothing text.now)
        (λ made. IsValuedText n p.now text.now made.items)) }
{
    let Some(found) = places(alloc, n, p)? else {
        return Err(Cause::Form);
    };
    let made = text_at_places(alloc, text, &found)?;
    match made {
        Some(made) => Ok(Some(made)),
        None => Ok(None),
    }
}
