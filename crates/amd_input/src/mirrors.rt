// The degrees of a symmetric pattern, in one pass over its entries above the diagonal: where each entry has its mirror,
// a row has as many neighbours as its column has other rows. The columns are read in turn, so the mirrors of the upper
// entries come in the order in which the lower ones stand, and a pointer of each column says which one is next. Source:
// Amestoy, Davis and Duff 2004 (the forming of A + A').

ghost use Rattle.std.specs.Prelude.{◌≡◌, ◌<◌, ◌≤◌, ◌+◌, ◌⊎◌, ℕ, true, false, map, length, pos, slice_index};
ghost use Rattle.std.specs.Prelude.{slice_index_or, IfNone, IfSome, ◌≢◌};
ghost use Rattle.std.specs.Vec.{vec_capacity};
ghost use Rattle.amd_model.specs.Input.Columns.{IsColumnForm};
ghost use Rattle.amd_types.specs.Naturals.{naturals};
ghost use Rattle.amd_edges.specs.Walk.{entry_read};
ghost use Rattle.amd_input.specs.Degrees.{CountDegrees, IsEmptyFor, IsRisingForm};
ghost use Rattle.amd_input.specs.Mirrors.{HaveMirrorsIn, CountOthers, EndsUpper, HasMirrors, HasNoMirror};
ghost use Rattle.amd_input.specs.Mirrors.{IsLastHigh, IsLastLow};

use amd_types::index::Index;
use amd_types::internal::count_at;
use amd_words::{Cell, Unsigned, cell_at, cell_of, number_of};
use std::alloc::Allocator;

/// Reads the rows of column `k`, one of `size`, above the diagonal. Each must have its mirror, which is the next row of
/// its own column. Returns the place where they end, or `None`, only where an entry has no mirror.
fn uppers<I: Index, U: Unsigned, A: Allocator>(
    size: usize,
    k: usize,
    a_p: &[I],
    a_i: &[I],
    next: &mut Vec<Cell<U>, A>,
) -> Option<usize>
    requires input { IsRisingForm size (map I.value a_p.now) (map I.value a_i.now) }
    requires fits { slice_index (naturals (map I.value a_p.now)) size ≤ U.MOST }
    requires k_in { k < size }
    requires read { HaveMirrorsIn size (map I.value a_p.now) (map I.value a_i.now) next.old.items k 0 }
    ensures read { IfSome result (λ place. HaveMirrorsIn size (map I.value a_p.now) (map I.value a_i.now)
        next.new.items k k) }
    ensures ends { IfSome result (EndsUpper (naturals (map I.value a_p.now)) (naturals (map I.value a_i.now)) k) }
    ensures lacks { IfNone result (HasNoMirror size (naturals (map I.value a_p.now)) (naturals (map I.value a_i.now))) }
    ensures room { vec_capacity next.new ≡ vec_capacity next.old }
{
    let end = count_at(a_p, k + 1);
    let mut place = count_at(a_p, k);
    'uppers: while place < end && count_at(a_i, place) < k {
        let j = count_at(a_i, place);
        let mirror = number_of(&next[j]);
        if mirror >= count_at(a_p, j + 1) || count_at(a_i, mirror) != k {
            return None;
        }
        next[j] = cell_of(mirror + 1);
        place += 1;
    }
    Some(place)
}

/// Reads column `k`, one of `size`: its upper rows, its diagonal entry, and how many other rows it has. Says whether it
/// has a diagonal entry, or `None`, only where an entry has no mirror.
fn column<I: Index, U: Unsigned, A: Allocator>(
    size: usize,
    k: usize,
    a_p: &[I],
    a_i: &[I],
    next: &mut Vec<Cell<U>, A>,
    degrees: &mut Vec<Cell<U>, A>,
) -> Option<bool>
    requires input { IsRisingForm size (map I.value a_p.now) (map I.value a_i.now) }
    requires fits { slice_index (naturals (map I.value a_p.now)) size ≤ U.MOST }
    requires k_in { k < size }
    requires room { (size ≤ vec_capacity next.old) × (size ≤ vec_capacity degrees.old) }
    requires read { HaveMirrorsIn size (map I.value a_p.now) (map I.value a_i.now) next.old.items k 0 }
    requires others { CountOthers size (naturals (map I.value a_p.now)) (naturals (map I.value a_i.now)) k
        degrees.old.items }
    ensures read { IfSome result (λ diagonal. HaveMirrorsIn size (map I.value a_p.now) (map I.value a_i.now)
        next.new.items (k + 1) 0) }
    ensures others { IfSome result (λ diagonal. CountOthers size (naturals (map I.value a_p.now))
        (naturals (map I.value a_i.now)) (k + 1) degrees.new.items) }
    ensures diagonal { IfSome result (λ diagonal. diagonal ≡ entry_read size (map I.value a_p.now)
        (map I.value a_i.now) k k) }
    ensures lacks { IfNone result (HasNoMirror size (naturals (map I.value a_p.now)) (naturals (map I.value a_i.now))) }
    ensures room { (vec_capacity next.new ≡ vec_capacity next.old) ×
        (vec_capacity degrees.new ≡ vec_capacity degrees.old) }
{
    let start = count_at(a_p, k);
    let end = count_at(a_p, k + 1);
    let Some(mut place) = uppers(size, k, a_p, a_i, next) else {
        return None;
    };
    let mut others = end - start;
    let diagonal = place < end && count_at(a_i, place) == k;
    if diagonal {
        place += 1;
        others -= 1;
    }
    next.push_reserved(cell_of(place));
    degrees.push_reserved(cell_of(others));
    Some(diagonal)
}

/// Whether each of `size` columns was read to its end.
fn all_read<I: Index, U: Unsigned>(size: usize, a_p: &[I], a_i: &[I], next: &[Cell<U>]) -> bool
    requires form { IsColumnForm (pos size) size (map I.value a_p.now) (map I.value a_i.now) }
    requires long { length next.now ≡ size }
    ensures all { result ≡ true → (j : ℕ) → j < size →
        slice_index_or next.now j 0 ≡ slice_index (naturals (map I.value a_p.now)) (j + 1) }
    ensures some { result ≡ false → (j : ℕ) × (j < size) ×
        (slice_index_or next.now j 0 ≢ slice_index (naturals (map I.value a_p.now)) (j + 1)) }
{
    'columns: for j in 0..size {
        if cell_at(next, j) != count_at(a_p, j + 1) {
            return false;
        }
    }
    true
}

/// Whether the last of `size` columns has a row above the diagonal, as mostly where each entry has its mirror.
fn ends_upper<I: Index>(size: usize, a_p: &[I], a_i: &[I]) -> bool
    requires input { IsRisingForm size (map I.value a_p.now) (map I.value a_i.now) }
    ensures high { result ≡ true → IsLastHigh size (naturals (map I.value a_p.now)) (naturals (map I.value a_i.now)) }
    ensures low { result ≡ false → IsLastLow size (naturals (map I.value a_p.now)) (naturals (map I.value a_i.now)) }
{
    if size == 0 {
        return false;
    }
    let first = count_at(a_p, size - 1);
    first < count_at(a_p, size) && count_at(a_i, first) < size - 1
}

/// Appends the degree of each of `size` rows of a symmetric pattern to an empty list, and returns the number of
/// diagonal entries; or `None`, exactly where an entry has no mirror, or the last column no row above the diagonal.
pub fn mirrored_degrees<I: Index, U: Unsigned, A: Allocator>(
    size: usize,
    a_p: &[I],
    a_i: &[I],
    next: &mut Vec<Cell<U>, A>,
    degrees: &mut Vec<Cell<U>, A>,
) -> Option<usize>
    requires input { IsRisingForm size (map I.value a_p.now) (map I.value a_i.now) }
    requires fits { slice_index (naturals (map I.value a_p.now)) size ≤ U.MOST }
    requires next { IsEmptyFor size (vec_capacity next.old) next.old.items }
    requires degrees { IsEmptyFor size (vec_capacity degrees.old) degrees.old.items }
    ensures counted { IfSome result (CountDegrees size (map I.value a_p.now) (map I.value a_i.now) degrees.new.items) }
    ensures mirrored { IfSome result (λ diagonals. HasMirrors size (naturals (map I.value a_p.now))
        (naturals (map I.value a_i.now)) × IsLastHigh size (naturals (map I.value a_p.now))
        (naturals (map I.value a_i.now))) }
    ensures lacks { IfNone result (HasNoMirror size (naturals (map I.value a_p.now)) (naturals (map I.value a_i.now)) ⊎
        IsLastLow size (naturals (map I.value a_p.now)) (naturals (map I.value a_i.now))) }
    ensures room { (vec_capacity next.new ≡ vec_capacity next.old) ×
        (vec_capacity degrees.new ≡ vec_capacity degrees.old) }
{
    if !ends_upper(size, a_p, a_i) {
        return None;
    }
    let mut diagonals = 0;
    'columns: for k in 0..size {
        let Some(diagonal) = column(size, k, a_p, a_i, next, degrees) else {
            return None;
        };
        if diagonal {
            diagonals += 1;
        }
    }
    if all_read(size, a_p, a_i, next) {
        return Some(diagonals);
    }
    None
}
