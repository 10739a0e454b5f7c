// The lists of a pattern that has no entry above the diagonal, where the rows of a column stand far apart. All columns
// are written first, and then the earlier neighbours, band by band: of each column in turn only those of one band of
// rows, so that the words that are written are close together. Our own.

ghost use Rattle.std.specs.Prelude.{◌≡◌, ◌<◌, ◌≤◌, ◌+◌, ◌-◌, ℕ, map, length, pos, ◌/◌, ◌^◌};
ghost use Rattle.std.specs.Vec.{vec_capacity};
ghost use Rattle.amd_model.specs.Input.Columns.{IsColumnForm};
ghost use Rattle.amd_words.specs.Words.{num};
ghost use Rattle.amd_workspace.specs.Lower.{IsLowerForm, AreNeighbourCounts, Matrix, HoldsOwn, HoldsLists, own_start};
ghost use Rattle.amd_workspace.specs.Lower.{SpreadsColumns, HasColumns};
ghost use Rattle.amd_workspace.specs.Bands.{IsReadyForPart, band_part, banded, own_from};
ghost use Rattle.amd_workspace.specs.Bands.{HasHeads, IsReadyForBand, spread_to};

use crate::laying::append;
use crate::lower::{own_first, push_rows, push_until};
use amd_types::index::Index;
use amd_types::internal::count_at;
use amd_words::{Cell, Signed, Unsigned, Word, cell_at, cell_of, put_cell, row_at};
use std::alloc::Allocator;

/// The most bands of rows in which the lists of a large matrix are written whose rows stand in any order.
const BANDS: usize = 8;

/// The lists of a band have so many words, where that makes no more bands.
const BAND_WORDS: usize = 1 << 20;

/// Writes row `j` after the earlier neighbours of the next rows of its own column below the diagonal, those before row
/// `hi`. They stand in `iw` from the word `place` on, and the column ends before the word `end`. Returns where the
/// rows stand that are left.
fn spread_until<S: Signed, U: Unsigned>(
    next: &mut [Cell<U>],
    iw: &mut [Word<S>],
    j: usize,
    place: usize,
    end: usize,
    hi: usize,
) -> usize
    requires ready { (m : Matrix) × (lo : ℕ) × IsReadyForPart m (band_part lo hi j place end) S.MOST U.MOST next.old
        iw.old }
    ensures long { length iw.new ≡ length iw.old }
    ensures after { (m : Matrix) (lo : ℕ) → IsReadyForPart m (band_part lo hi j place end) S.MOST U.MOST next.old
        iw.old → SpreadsColumns m.n m.ap m.ai (banded m.n m.ap m.ai lo hi j hi) next.new iw.new ×
        (result ≡ own_from m.n m.ap m.ai j hi) }
{
    let mut place = place;
    'words: while place < end {
        let i = row_at(iw, place);
        if hi <= i {
            return place;
        }
        append(next, iw, i, j);
        place += 1;
    }
    place
}

/// Writes the earlier neighbours of the rows before `hi` that have none yet. The rows of each column that are left
/// stand from the word `heads[j]` on.
fn spread_band<S: Signed, U: Unsigned>(
    next: &mut [Cell<U>],
    iw: &mut [Word<S>],
    heads: &mut [Cell<U>],
    degrees: &[Cell<U>],
    hi: usize,
)
    requires laid { (m : Matrix) × (lo : ℕ) × IsReadyForBand m lo hi degrees.now S.MOST U.MOST next.old iw.old
        heads.old }
    ensures long { length iw.new ≡ length iw.old }
    ensures after { (m : Matrix) (lo : ℕ) → IsReadyForBand m lo hi degrees.now S.MOST U.MOST next.old iw.old heads.old →
        SpreadsColumns m.n m.ap m.ai (spread_to m.n m.ap m.ai hi) next.new iw.new × HasHeads m (λ j. hi) heads.new }
{
    let mut end = 0;
    'columns: for j in 0..hi {
        end += cell_at(degrees, j);
        let place = cell_at(heads, j);
        let left = spread_until(next, iw, j, place, end, hi);
        put_cell(heads, j, left);
    }
}

/// In how many bands the lists are written that have so many words: two or more. Each band begins all columns anew.
fn band_count(words: usize) -> usize
    ensures { 0 < result }
{
    (words / BAND_WORDS).max(2).min(BANDS)
}

/// Writes the earlier neighbours of all rows as `spread_lists`, but of each column in turn only those of one band of
/// rows, so that the words that are written are close together. The rows of each column below the diagonal stand from
/// the word `heads[j]` on; what `heads` holds afterwards is not said.
fn spread_bands<S: Signed, U: Unsigned>(
    next: &mut [Cell<U>],
    iw: &mut [Word<S>],
    heads: &mut [Cell<U>],
    degrees: &[Cell<U>],
)
    requires laid { (m : Matrix) × HasColumns m degrees.now S.MOST U.MOST next.old iw.old ×
        HasHeads m (λ j. 0) heads.old }
    ensures long { length iw.new ≡ length iw.old }
    ensures lists { (m : Matrix) → HasColumns m degrees.now S.MOST U.MOST next.old iw.old →
        HasHeads m (λ j. 0) heads.old →
        HoldsLists m.n m.ap m.ai degrees.now iw.new }
{
    let n = degrees.len();
    let width = n.div_ceil(band_count(iw.len())).max(1);
    let mut lo = 0;
    'bands: while lo < n {
        let hi = if n - lo < width { n } else { lo + width };
        spread_band(next, iw, heads, degrees, hi);
        lo = hi;
    }
}

/// Appends, for each of `size` columns, where its rows below the diagonal stand in the lists of `push_until`.
fn push_heads<I: Index, U: Unsigned, A: Allocator>(
    size: usize,
    a_p: &[I],
    a_i: &[I],
    degrees: &[Cell<U>],
    heads: &mut Vec<Cell<U>, A>,
)
    requires input { IsLowerForm size (map I.value a_p.now) (map I.value a_i.now) }
    requires degrees { AreNeighbourCounts size (map I.value a_p.now) (map I.value a_i.now) degrees.now }
    requires total { own_start size (map I.value a_p.now) (map I.value a_i.now) size ≤ U.MOST }
    requires empty { length heads.old.items ≡ 0 }
    requires room { size ≤ vec_capacity heads.old }
    ensures capacity { vec_capacity heads.new ≡ vec_capacity heads.old }
    ensures heads { HasHeads (record { n = size; ap = map I.value a_p.now; ai = map I.value a_i.now }) (λ j. 0)
        heads.new.items }
{
    let mut end = 0;
    'columns: for j in 0..size {
        end += cell_at(degrees, j);
        let own = count_at(a_p, j + 1) - own_first(size, a_p, a_i, j);
        heads.push_reserved(cell_of(end - own));
    }
}

/// Lays the lists of `size` rows, and behind them `size` words that name rows, and writes the earlier neighbours band
/// by band. `heads` has room for a number of each column.
pub fn lay_bands<I: Index, S: Signed, U: Unsigned, A: Allocator>(
    size: usize,
    a_p: &[I],
    a_i: &[I],
    degrees: &[Cell<U>],
    next: &mut [Cell<U>],
    iw: &mut Vec<Word<S>, A>,
    heads: &mut Vec<Cell<U>, A>,
)
    requires input { IsLowerForm size (map I.value a_p.now) (map I.value a_i.now) }
    requires some { 0 < size }
    requires degrees { AreNeighbourCounts size (map I.value a_p.now) (map I.value a_i.now) degrees.now }
    requires room { own_start size (map I.value a_p.now) (map I.value a_i.now) size + size ≤ vec_capacity iw.old }
    requires wide { size ≤ vec_capacity heads.old }
    requires empty { (length iw.old.items ≡ 0) × (length heads.old.items ≡ 0) }
    requires fits { (size ≤ S.MOST) ×
        (own_start size (map I.value a_p.now) (map I.value a_i.now) size + size ≤ U.MOST) }
    requires next { length next.old ≡ size }
    requires starts { (i : ℕ) → i < size →
        num next.old i ≡ own_start size (map I.value a_p.now) (map I.value a_i.now) i }
    ensures long { length iw.new.items ≡ own_start size (map I.value a_p.now) (map I.value a_i.now) size + size }
    ensures capacity { vec_capacity iw.old ≤ vec_capacity iw.new }
    ensures heads { vec_capacity heads.old ≤ vec_capacity heads.new }
    ensures lists { HoldsLists size (map I.value a_p.now) (map I.value a_i.now) degrees.now iw.new.items }
{
    push_until(size, a_p, a_i, degrees, 0, size, iw);
    push_rows(iw, size - 1, size);
    push_heads(size, a_p, a_i, degrees, heads);
    spread_bands(next, iw, heads, degrees);
}
