// Long lists of a pattern that has no entry above the diagonal, row by row. There the list of a row is its earlier
// neighbours, rising, and then its column below the diagonal. No pass searches for a place. One writes the columns,
// each behind the room for the earlier neighbours of its row. Another one reads each column back, and adds its row to
// the earlier neighbours of each row that it names; it follows the first one as soon as it can. Source: Amestoy, Davis
// and Duff 2004 (the forming of A + A').

ghost use Rattle.std.specs.Prelude.{◌≡◌, ◌<◌, ◌≤◌, ◌+◌, ◌-◌, ◌++◌, ◌/◌, ℕ, List, true, map, length, pos, replicate};
ghost use Rattle.std.specs.Prelude.{slice_index, slice_range};
ghost use Rattle.std.specs.Vec.{vec_capacity};
ghost use Rattle.amd_model.specs.Input.Columns.{IsColumnForm, IsSorted};
ghost use Rattle.amd_model.specs.Input.Pattern.{is_pair};
ghost use Rattle.amd_types.specs.Naturals.{naturals};
ghost use Rattle.amd_words.specs.Words.{num};
ghost use Rattle.amd_workspace.specs.Lower.{IsLower, IsLowerForm, AreNeighbourCounts, Matrix, HoldsLists, LaysRows};
ghost use Rattle.amd_workspace.specs.Lower.{IsReadyForLists};
ghost use Rattle.amd_workspace.specs.Lists.{KeepsWords};
ghost use Rattle.amd_workspace.specs.Lower.{own_start, own_of, earlier_below, SpreadsFirst, IsReadyForColumn};

use crate::bands::lay_bands;
use crate::laying::append;
use crate::lists::Words;
use crate::sampling::is_scattered;
use amd_edges::walk::lower_first;
use amd_types::index::Index;
use amd_types::internal::count_at;
use amd_words::{Cell, Signed, Unsigned, Word, cell_at, row_at, word_of};
use std::alloc::Allocator;
use std::mem::replace;

/// Whether no row of column `j`, one of `size`, stands above the diagonal.
fn is_low<I: Index>(size: usize, a_p: &[I], a_i: &[I], j: usize) -> bool
    requires form { IsColumnForm (pos size) size (map I.value a_p.now) (map I.value a_i.now) }
    requires sorted { IsSorted size (map I.value a_p.now) (map I.value a_i.now) }
    requires row { j < size }
    ensures yes { result ≡ true → (i : ℕ) → is_pair size (map I.value a_p.now) (map I.value a_i.now) i j ≡ true →
        j ≤ i }
    ensures no { ((i : ℕ) → is_pair size (map I.value a_p.now) (map I.value a_i.now) i j ≡ true → j ≤ i) →
        result ≡ true }
{
    let first = count_at(a_p, j);
    if first == count_at(a_p, j + 1) {
        return true;
    }
    count_at(a_i, first) >= j
}

/// Whether no row of any of `size` columns stands above the diagonal.
pub fn is_lower<I: Index>(size: usize, a_p: &[I], a_i: &[I]) -> bool
    requires form { IsColumnForm (pos size) size (map I.value a_p.now) (map I.value a_i.now) }
    requires sorted { IsSorted size (map I.value a_p.now) (map I.value a_i.now) }
    ensures yes { result ≡ true → IsLower size (map I.value a_p.now) (map I.value a_i.now) }
    ensures no { IsLower size (map I.value a_p.now) (map I.value a_i.now) → result ≡ true }
{
    'columns: for j in 0..size {
        if !is_low(size, a_p, a_i, j) {
            return false;
        }
    }
    true
}

/// The place in `a_i` of the first row of column `j` below the diagonal, or the end of the column. No row is above the
/// diagonal.
pub fn own_first<I: Index>(size: usize, a_p: &[I], a_i: &[I], j: usize) -> usize
    requires input { IsLowerForm size (map I.value a_p.now) (map I.value a_i.now) }
    requires row { j < size }
    ensures from { slice_index (naturals (map I.value a_p.now)) j ≤ result }
    ensures to { result ≤ slice_index (naturals (map I.value a_p.now)) (j + 1) }
    ensures rows { own_of size (map I.value a_p.now) (map I.value a_i.now) j ≡
        slice_range (naturals (map I.value a_i.now)) result (slice_index (naturals (map I.value a_p.now)) (j + 1)) }
{
    lower_first(size, j, a_p, a_i)
}

/// Appends a row to the words, `count` times.
pub fn push_rows<S: Signed, A: Allocator>(iw: &mut Vec<Word<S>, A>, row: usize, count: usize)
    requires room { length iw.old.items + count ≤ vec_capacity iw.old }
    requires small { row ≤ S.MOST }
    ensures items { iw.new.items ≡ iw.old.items ++ replicate count (pos row) }
    ensures capacity { vec_capacity iw.old ≤ vec_capacity iw.new }
{
    'words: for _ in 0..count {
        iw.push_reserved(word_of(row as isize));
    }
}

/// Appends the rows of column `j`, one of `size`, from the place `first` of `a_i` on.
pub fn push_column<I: Index, S: Signed, A: Allocator>(
    size: usize,
    a_p: &[I],
    a_i: &[I],
    j: usize,
    first: usize,
    iw: &mut Vec<Word<S>, A>,
)
    requires form { IsColumnForm (pos size) size (map I.value a_p.now) (map I.value a_i.now) }
    requires sorted { IsSorted size (map I.value a_p.now) (map I.value a_i.now) }
    requires row { j < size }
    requires from { slice_index (naturals (map I.value a_p.now)) j ≤ first }
    requires to { first ≤ slice_index (naturals (map I.value a_p.now)) (j + 1) }
    requires room { length iw.old.items + (slice_index (naturals (map I.value a_p.now)) (j + 1) - first) ≤
        vec_capacity iw.old }
    requires fits { size ≤ S.MOST }
    ensures items { iw.new.items ≡ iw.old.items ++ map pos (slice_range (naturals (map I.value a_i.now)) first
        (slice_index (naturals (map I.value a_p.now)) (j + 1))) }
    ensures capacity { vec_capacity iw.old ≤ vec_capacity iw.new }
{
    let stop = count_at(a_p, j + 1);
    'places: for place in first..stop {
        iw.push_reserved(word_of(count_at(a_i, place) as isize));
    }
}

/// Appends the list of row `j`, one of `size`: its own number, once for each earlier neighbour, to hold their room, and
/// then its column below the diagonal.
fn push_list<I: Index, S: Signed, A: Allocator>(
    size: usize,
    a_p: &[I],
    a_i: &[I],
    j: usize,
    degree: usize,
    iw: &mut Vec<Word<S>, A>,
)
    requires input { IsLowerForm size (map I.value a_p.now) (map I.value a_i.now) }
    requires row { j < size }
    requires degree { length (own_of size (map I.value a_p.now) (map I.value a_i.now) j) ≤ degree }
    requires room { length iw.old.items + degree ≤ vec_capacity iw.old }
    requires fits { size ≤ S.MOST }
    ensures items { iw.new.items ≡
        (iw.old.items ++
        replicate (degree - length (own_of size (map I.value a_p.now) (map I.value a_i.now) j)) (pos j)) ++
        map pos (own_of size (map I.value a_p.now) (map I.value a_i.now) j) }
    ensures capacity { vec_capacity iw.old ≤ vec_capacity iw.new }
{
    let first = own_first(size, a_p, a_i, j);
    let own = count_at(a_p, j + 1) - first;
    push_rows(iw, j, degree - own);
    push_column(size, a_p, a_i, j, first, iw);
}

/// One more than the last row of column `j`, one of `size`, and more than `j`.
fn past_column<I: Index>(size: usize, a_p: &[I], a_i: &[I], j: usize) -> usize
    requires input { IsLowerForm size (map I.value a_p.now) (map I.value a_i.now) }
    requires row { j < size }
    ensures past { j < result }
    ensures few { result ≤ size }
    ensures all { (i : ℕ) → is_pair size (map I.value a_p.now) (map I.value a_i.now) i j ≡ true → i < result }
{
    let stop = count_at(a_p, j + 1);
    if count_at(a_p, j) == stop {
        return j + 1;
    }
    count_at(a_i, stop - 1) + 1
}

/// Appends the lists of the rows from `laid` to `past`, as `push_list`.
pub fn push_until<I: Index, S: Signed, U: Unsigned, A: Allocator>(
    size: usize,
    a_p: &[I],
    a_i: &[I],
    degrees: &[Cell<U>],
    laid: usize,
    past: usize,
    iw: &mut Vec<Word<S>, A>,
)
    requires input { IsLowerForm size (map I.value a_p.now) (map I.value a_i.now) }
    requires degrees { AreNeighbourCounts size (map I.value a_p.now) (map I.value a_i.now) degrees.now }
    requires rows { (laid ≤ past) × (past ≤ size) }
    requires laid { (early : ℕ → List ℕ) × (next : List ℕ) ×
        LaysRows size (map I.value a_p.now) (map I.value a_i.now) laid early next iw.old.items }
    requires room { own_start size (map I.value a_p.now) (map I.value a_i.now) size ≤ vec_capacity iw.old }
    requires fits { size ≤ S.MOST }
    ensures laid { (early : ℕ → List ℕ) (next : List ℕ) →
        LaysRows size (map I.value a_p.now) (map I.value a_i.now) laid early next iw.old.items →
        LaysRows size (map I.value a_p.now) (map I.value a_i.now) past early next iw.new.items }
    ensures capacity { vec_capacity iw.old ≤ vec_capacity iw.new }
{
    'rows: for row in laid..past {
        push_list(size, a_p, a_i, row, cell_at(degrees, row), iw);
    }
}

/// Writes row `j` after the earlier neighbours of each row of its own column below the diagonal. That column is in
/// `iw`, after the earlier neighbours of row `j`, up to the word `end`.
fn spread<S: Signed, U: Unsigned>(next: &mut [Cell<U>], iw: &mut [Word<S>], j: usize, end: usize)
    requires ready { (x : Matrix) × (m : ℕ) × IsReadyForColumn x m j end S.MOST U.MOST next.old iw.old }
    ensures long { length iw.new ≡ length iw.old }
    ensures after { (x : Matrix) (m : ℕ) → IsReadyForColumn x m j end S.MOST U.MOST next.old iw.old →
        SpreadsFirst x.n x.ap x.ai m (earlier_below x.n x.ap x.ai (j + 1)) next.new iw.new }
{
    let from = cell_at(next, j);
    'words: for place in from..end {
        let i = row_at(iw, place);
        append(next, iw, i, j);
    }
}

/// As `spread`, in a vector.
fn spread_in<S: Signed, U: Unsigned, A: Allocator>(
    next: &mut [Cell<U>],
    iw: &mut Vec<Word<S>, A>,
    j: usize,
    end: usize,
)
    requires ready { (x : Matrix) × (m : ℕ) × IsReadyForColumn x m j end S.MOST U.MOST next.old iw.old.items }
    ensures long { length iw.new.items ≡ length iw.old.items }
    ensures after { (x : Matrix) (m : ℕ) → IsReadyForColumn x m j end S.MOST U.MOST next.old iw.old.items →
        SpreadsFirst x.n x.ap x.ai m (earlier_below x.n x.ap x.ai (j + 1)) next.new iw.new.items }
    ensures capacity { vec_capacity iw.old ≤ vec_capacity iw.new }
{
    spread(next, iw, j, end);
}

/// Lays the lists of `size` rows, and behind them `size` words that name rows. A column is spread as soon as the lists
/// of its rows are laid, so that where its rows are close together the words that are written are too.
fn lay_rows<I: Index, S: Signed, U: Unsigned, A: Allocator>(
    size: usize,
    a_p: &[I],
    a_i: &[I],
    degrees: &[Cell<U>],
    next: &mut [Cell<U>],
    iw: &mut Vec<Word<S>, A>,
)
    requires input { IsLowerForm size (map I.value a_p.now) (map I.value a_i.now) }
    requires some { 0 < size }
    requires degrees { AreNeighbourCounts size (map I.value a_p.now) (map I.value a_i.now) degrees.now }
    requires room { own_start size (map I.value a_p.now) (map I.value a_i.now) size + size ≤ vec_capacity iw.old }
    requires empty { length iw.old.items ≡ 0 }
    requires fits { (size ≤ S.MOST) ×
        (own_start size (map I.value a_p.now) (map I.value a_i.now) size + size ≤ U.MOST) }
    requires next { length next.old ≡ size }
    requires starts { (i : ℕ) → i < size →
        num next.old i ≡ own_start size (map I.value a_p.now) (map I.value a_i.now) i }
    ensures long { length iw.new.items ≡ own_start size (map I.value a_p.now) (map I.value a_i.now) size + size }
    ensures capacity { vec_capacity iw.old ≤ vec_capacity iw.new }
    ensures lists { HoldsLists size (map I.value a_p.now) (map I.value a_i.now) degrees.now iw.new.items }
{
    let mut laid = 0;
    let mut end = 0;
    'columns: for j in 0..size {
        let past = past_column(size, a_p, a_i, j).max(laid);
        push_until(size, a_p, a_i, degrees, laid, past, iw);
        laid = past;
        end += cell_at(degrees, j);
        spread_in(next, iw, j, end);
    }
    push_rows(iw, size - 1, size);
}

/// Lays the lists of a pattern of `size` rows that has no entry above the diagonal, row by row, in `room` words at
/// most. What `next` is afterwards is not said. `heads` is empty and has room for a number of each column. Behind the
/// lists stand `size` words that name rows; the rest of the room is not written. Where there is room for many words and
/// the rows stand in any order, the earlier neighbours are written band by band.
pub fn row_lists<I: Index, S: Signed, U: Unsigned, A: Allocator + Copy>(
    size: usize,
    a_p: &[I],
    a_i: &[I],
    degrees: &[Cell<U>],
    room: usize,
    words: &mut Words<S, U, A>,
    heads: &mut Vec<Cell<U>, A>,
)
    requires ready { IsReadyForLists size (map I.value a_p.now) (map I.value a_i.now) room S.MOST U.MOST
        (vec_capacity words.old.iw) words.old.next.items words.old.iw.items }
    requires degrees { AreNeighbourCounts size (map I.value a_p.now) (map I.value a_i.now) degrees.now }
    requires heads { (length heads.old.items ≡ 0) × (size ≤ vec_capacity heads.old) }
    ensures long { length words.new.iw.items ≡
        own_start size (map I.value a_p.now) (map I.value a_i.now) size + size }
    ensures capacity { KeepsWords words.old words.new }
    ensures heads { vec_capacity heads.old ≤ vec_capacity heads.new }
    ensures lists { HoldsLists size (map I.value a_p.now) (map I.value a_i.now) degrees.now words.new.iw.items }
{
    // The words are taken out of their place while they are written, as in `filling`.
    let alloc = *words.iw.allocator();
    let mut iw = replace(&mut words.iw, Vec::new(alloc));
    let next = &mut words.next;
    if is_scattered(size, a_p, a_i, room) {
        lay_bands(size, a_p, a_i, degrees, next, &mut iw, heads);
    } else {
        lay_rows(size, a_p, a_i, degrees, next, &mut iw);
    }
    words.iw = iw;
}
