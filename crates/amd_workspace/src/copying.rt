// The lists of a symmetric pattern. In the order in which the walk over the edges meets its neighbours, the list of a
// row is its column in ascending order without the diagonal entry, so all lists can be appended one after another. The
// degrees say whether a pattern is symmetric: it is where no row has more neighbours than its column says. Source:
// Amestoy, Davis and Duff 2004 (the forming of A + A').

ghost use Rattle.std.specs.Prelude.{◌≡◌, ◌<◌, ◌≤◌, ◌+◌, ◌++◌, ℕ, true, map, length, pos, slice_index};
ghost use Rattle.std.specs.Vec.{vec_capacity};
ghost use Rattle.amd_model.specs.Below.{count_below, list_below};
ghost use Rattle.amd_model.specs.Input.Columns.{IsColumnForm, IsSorted};
ghost use Rattle.amd_model.specs.Input.Pattern.{graph_of, is_pair, IsSymmetric};
ghost use Rattle.amd_model.specs.Quotient.{starting_list};
ghost use Rattle.amd_types.specs.Naturals.{naturals};
ghost use Rattle.amd_edges.specs.Visits.{AreCounts, start_of};
ghost use Rattle.amd_words.specs.Words.{num, rows};
ghost use Rattle.amd_workspace.specs.Copying.{is_other, HoldRows};

use crate::lower::push_column;
use amd_types::index::Index;
use amd_types::internal::count_at;
use amd_words::{Cell, Signed, Unsigned, Word, cell_at, word_of};
use std::alloc::Allocator;

/// Appends the rows of column `i`, one of `size`, that are before `i`. Returns the place in `a_i` of the first row of
/// that column that is not, or the end of the column.
fn push_before<I: Index, S: Signed, A: Allocator>(
    size: usize,
    i: usize,
    a_p: &[I],
    a_i: &[I],
    iw: &mut Vec<Word<S>, A>,
) -> usize
    requires form { IsColumnForm (pos size) size (map I.value a_p.now) (map I.value a_i.now) }
    requires sorted { IsSorted size (map I.value a_p.now) (map I.value a_i.now) }
    requires row { i < size }
    requires room { length iw.old.items + count_below size (is_other size (map I.value a_p.now) (map I.value a_i.now) i)
        ≤ vec_capacity iw.old }
    requires fits { size ≤ S.MOST }
    ensures from { slice_index (naturals (map I.value a_p.now)) i ≤ result }
    ensures to { result ≤ slice_index (naturals (map I.value a_p.now)) (i + 1) }
    ensures before { (r : ℕ) → slice_index (naturals (map I.value a_p.now)) i ≤ r → r < result →
        slice_index (naturals (map I.value a_i.now)) r < i }
    ensures behind { (r : ℕ) → result ≤ r → r < slice_index (naturals (map I.value a_p.now)) (i + 1) →
        i ≤ slice_index (naturals (map I.value a_i.now)) r }
    ensures items { iw.new.items ≡
        iw.old.items ++ map pos (list_below i (is_other size (map I.value a_p.now) (map I.value a_i.now) i)) }
    ensures capacity { vec_capacity iw.old ≤ vec_capacity iw.new }
{
    let stop = count_at(a_p, i + 1);
    let mut place = count_at(a_p, i);
    'rows: while place < stop && count_at(a_i, place) < i {
        iw.push_reserved(word_of(count_at(a_i, place) as isize));
        place += 1;
    }
    place
}

/// Appends the rows of column `i`, one of `size`, but `i` itself.
fn push_others<I: Index, S: Signed, A: Allocator>(
    size: usize,
    i: usize,
    a_p: &[I],
    a_i: &[I],
    iw: &mut Vec<Word<S>, A>,
)
    requires row { i < size }
    requires fits { size ≤ S.MOST }
    requires form { IsColumnForm (pos size) size (map I.value a_p.now) (map I.value a_i.now) }
    requires sorted { IsSorted size (map I.value a_p.now) (map I.value a_i.now) }
    requires room { length iw.old.items + count_below size (is_other size (map I.value a_p.now) (map I.value a_i.now) i)
        ≤ vec_capacity iw.old }
    ensures items { iw.new.items ≡
        iw.old.items ++ map pos (list_below size (is_other size (map I.value a_p.now) (map I.value a_i.now) i)) }
    ensures capacity { vec_capacity iw.old ≤ vec_capacity iw.new }
{
    let place = push_before(size, i, a_p, a_i, iw);
    let stop = count_at(a_p, i + 1);
    let mut first = place;
    if place < stop && count_at(a_i, place) == i {
        first += 1;
    }
    push_column(size, a_p, a_i, i, first, iw);
}

/// Appends the columns of a symmetric pattern of `size` rows to an empty list of words, each without its diagonal
/// entry, and says whether the pattern is symmetric. If it is not, the words name some rows.
pub fn copy_symmetric<I: Index, S: Signed, U: Unsigned, A: Allocator>(
    size: usize,
    a_p: &[I],
    a_i: &[I],
    degrees: &[Cell<U>],
    iw: &mut Vec<Word<S>, A>,
) -> bool
    requires form { IsColumnForm (pos size) size (map I.value a_p.now) (map I.value a_i.now) }
    requires sorted { IsSorted size (map I.value a_p.now) (map I.value a_i.now) }
    requires degrees { AreCounts (graph_of size (map I.value a_p.now) (map I.value a_i.now))
        ((graph_of size (map I.value a_p.now) (map I.value a_i.now)).edge) degrees.now }
    requires empty { length iw.old.items ≡ 0 }
    requires room { start_of (graph_of size (map I.value a_p.now) (map I.value a_i.now)) size ≤ vec_capacity iw.old }
    requires fits { size ≤ S.MOST }
    ensures long { length iw.new.items ≤ start_of (graph_of size (map I.value a_p.now) (map I.value a_i.now)) size }
    ensures words { HoldRows size iw.old.items → HoldRows size iw.new.items }
    ensures capacity { vec_capacity iw.old ≤ vec_capacity iw.new }
    ensures symmetric { (result ≡ true → IsSymmetric size (map I.value a_p.now) (map I.value a_i.now)) ×
        (IsSymmetric size (map I.value a_p.now) (map I.value a_i.now) → result ≡ true) }
    ensures all { result ≡ true →
        start_of (graph_of size (map I.value a_p.now) (map I.value a_i.now)) size ≤ length iw.new.items }
    ensures lists { result ≡ true → (i : ℕ) → i < size →
        rows iw.new.items (start_of (graph_of size (map I.value a_p.now) (map I.value a_i.now)) i) (num degrees.now i) ≡
        starting_list size (is_pair size (map I.value a_p.now) (map I.value a_i.now)) i }
{
    let mut free = 0;
    'columns: for i in 0..size {
        push_others(size, i, a_p, a_i, iw);
        let end = iw.len();
        if end - free != cell_at(degrees, i) {
            return false;
        }
        free = end;
    }
    true
}
