// How the lists of a pattern that has no entry above the diagonal are laid fastest, by the length of the lists and by
// what a sample of the columns shows. Nothing but time rests on it. Our own.

ghost use Rattle.std.specs.Prelude.{◌<◌, ◌+◌, pos, map};
ghost use Rattle.amd_model.specs.Input.Columns.{IsColumnForm};

use amd_types::index::Index;
use amd_types::internal::count_at;

/// A workspace with so many words is large: its rows are written band by band where they stand in any order.
const LARGE: usize = 1 << 21;

/// So many words stay in a cache while they are written twice.
const CACHED: usize = 1 << 19;

/// So many columns are looked at.
const SAMPLES: usize = 64;

/// What a sample of columns shows: how many of them are wide, and how many have another length than the next one.
#[derive(Drop)]
struct Sample {
    wide: usize,
    uneven: usize,
}

/// Whether the first and the last row of column `j`, one of `size`, are far apart.
fn is_wide<I: Index>(size: usize, a_p: &[I], a_i: &[I], j: usize) -> bool
    requires form { IsColumnForm (pos size) size (map I.value a_p.now) (map I.value a_i.now) }
    requires row { j < size }
{
    let first = count_at(a_p, j);
    let stop = count_at(a_p, j + 1);
    first < stop && count_at(a_i, stop - 1) > count_at(a_i, first).saturating_add(size / 8)
}

/// Whether column `j`, one of `size` and not the last one, has another number of entries than the next one.
fn is_uneven<I: Index>(size: usize, a_p: &[I], a_i: &[I], j: usize) -> bool
    requires form { IsColumnForm (pos size) size (map I.value a_p.now) (map I.value a_i.now) }
    requires row { j + 1 < size }
{
    let middle = count_at(a_p, j + 1);
    middle - count_at(a_p, j) != count_at(a_p, j + 2) - middle
}

/// Looks at some of `size` columns, at most 64 of them.
fn look_at<I: Index>(size: usize, a_p: &[I], a_i: &[I]) -> Sample
    requires form { IsColumnForm (pos size) size (map I.value a_p.now) (map I.value a_i.now) }
{
    let step = size / SAMPLES + 1;
    let mut wide = 0usize;
    let mut uneven = 0usize;
    let mut j = 0;
    'columns: while j < size {
        if is_wide(size, a_p, a_i, j) {
            wide = wide.saturating_add(1);
        }
        if j + 1 < size && is_uneven(size, a_p, a_i, j) {
            uneven = uneven.saturating_add(1);
        }
        j = j.saturating_add(step);
    }
    Sample { wide, uneven }
}

/// Whether `room` words are many, and of the columns that are looked at many are wide, so that their rows stand in any
/// order.
pub fn is_scattered<I: Index>(size: usize, a_p: &[I], a_i: &[I], room: usize) -> bool
    requires form { IsColumnForm (pos size) size (map I.value a_p.now) (map I.value a_i.now) }
{
    room >= LARGE && look_at(size, a_p, a_i).wide >= SAMPLES / 4
}

/// Whether the lists of `size` rows, `free` words in all, are written entry by entry over words that are filled before,
/// with one loop for each column: where they are so short that loops for parts of them would cost more. They may be
/// longer where they stay in a cache, or where the columns have different lengths, so that the ends of loops are hard
/// to foresee.
pub fn are_short<I: Index>(size: usize, a_p: &[I], a_i: &[I], free: usize) -> bool
    requires form { IsColumnForm (pos size) size (map I.value a_p.now) (map I.value a_i.now) }
{
    if free / 8 <= size {
        return true;
    }
    if free / 32 > size || free >= LARGE {
        return false;
    }
    free < CACHED || look_at(size, a_p, a_i).uneven >= SAMPLES / 4
}
