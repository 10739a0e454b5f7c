// Whether an input is a column form, and whether its columns are sorted. The rule is that of the AMD user guide; a
// fault in a later column wins over a jumbled earlier one.

ghost use Rattle.std.specs.Prelude.{◌≡◌, ◌+◌, ◌^◌, ◌<◌, ◌≤◌, true, false, length, map, pos};
ghost use Rattle.amd_model.specs.Input.Columns.{at, IsColumnForm, IsSorted};
ghost use Rattle.amd_types.specs.Statuses.{IsStatusOf};
ghost use Rattle.amd_input.specs.Scans.{AreRowNumbers, HaveDescent, HaveNoRow, IsColumnClass, Rise};
ghost use Rattle.amd_input.specs.Scans.{is_descent, descents_below};

use amd_types::amd::Status;
use amd_types::index::Index;
use amd_types::internal::{is_below, is_negative, to_count, value_at};
use num_traits::PrimInt;

/// Whether the rows at the places from `from` on, before `to`, are strictly ascending.
fn rises<I: Index>(a_i: &[I], from: usize, to: usize) -> bool
    requires some { from < to }
    requires within { to ≤ length a_i.now }
    ensures rise { result ≡ true → Rise (map I.value a_i.now) from to }
    ensures descend { result ≡ false → HaveDescent (map I.value a_i.now) from to }
{
    // All rows are read, even after a descent: without an early end a processor compares several at once.
    let mut rising = true;
    'rows: for k in from + 1..to {
        if !is_below(value_at(a_i, k - 1), value_at(a_i, k)) {
            rising = false;
        }
    }
    rising
}

/// Whether the rows at the places from `from` on, before `to`, all lie in `0..n_row`.
fn are_rows<I: Index>(n_row: I, a_i: &[I], from: usize, to: usize) -> bool
    requires ordered { from ≤ to }
    requires within { to ≤ length a_i.now }
    ensures are { result ≡ true → AreRowNumbers (I.value n_row) (map I.value a_i.now) from to }
    ensures are_not { result ≡ false → HaveNoRow (I.value n_row) (map I.value a_i.now) from to }
{
    'rows: for k in from..to {
        let row = value_at(a_i, k);
        if is_negative(row) || !is_below(row, n_row) {
            return false;
        }
    }
    true
}

/// The status of the rows at the places from `from` on, before `to`: those of one column. Ascending rows lie in range
/// where the first and the last of them do.
fn column_status<I: Index>(n_row: I, a_i: &[I], from: usize, to: usize) -> Status
    requires ordered { from ≤ to }
    requires within { to ≤ length a_i.now }
    ensures { IsColumnClass (I.value n_row) (map I.value a_i.now) from to result }
{
    if from == to {
        return Status::OK;
    }
    if rises(a_i, from, to) {
        let last = value_at(a_i, to - 1);
        if is_negative(value_at(a_i, from)) || !is_below(last, n_row) {
            return Status::Invalid;
        }
        return Status::OK;
    }
    if are_rows(n_row, a_i, from, to) {
        Status::OkButJumbled
    } else {
        Status::Invalid
    }
}

/// Whether the row at a place does not exceed the one before it.
#[inline]
fn descends<I: Index>(a_i: &[I], place: usize) -> bool
    requires after { 0 < place }
    requires within { place < length a_i.now }
    ensures { result ≡ is_descent (map I.value a_i.now) place }
{
    !is_below(value_at(a_i, place - 1), value_at(a_i, place))
}

/// How many rows at the places from `from` on, before `to`, do not exceed the one before them.
fn descents<I: Index>(a_i: &[I], from: usize, to: usize) -> usize
    requires ordered { from ≤ to }
    requires within { to ≤ length a_i.now }
    requires few { to < 2 ^ 32 }
    ensures { descents_below (map I.value a_i.now) from + result ≡ descents_below (map I.value a_i.now) to }
{
    // Without a branch or an early end a processor compares several at once, and more of them for a narrow count.
    let mut found: u32 = 0;
    'places: for k in from.max(1)..to {
        found += u32::from(descends(a_i, k));
    }
    found as usize
}

/// Whether the columns before `end` are a column form and sorted, where those before `first` are.
///
/// All columns rise where descents stand only at their first places, so one pass over the rows of all can tell. No
/// column has a loop of its own here: a processor mispredicts where such a loop ends. It is compiled apart from its
/// callers, so that no other loop takes its registers.
#[inline(never)]
fn are_sorted<I: Index>(n_row: I, a_p: &[I], a_i: &[I], first: usize, end: usize) -> bool
    requires few { length a_i.now < 2 ^ 32 }
    requires ordered { first ≤ end }
    requires pointers { end < length a_p.now }
    requires form { IsColumnForm (I.value n_row) first (map I.value a_p.now) (map I.value a_i.now) }
    requires sorted { IsSorted first (map I.value a_p.now) (map I.value a_i.now) }
    ensures form { result ≡ true → IsColumnForm (I.value n_row) end (map I.value a_p.now) (map I.value a_i.now) }
    ensures sorted { result ≡ true → IsSorted end (map I.value a_p.now) (map I.value a_i.now) }
{
    let Some(start) = to_count(value_at(a_p, first)) else {
        return false;
    };
    let mut firsts = 0;
    let mut from = start;
    'columns: for j in first..end {
        let Some(to) = to_count(value_at(a_p, j + 1)) else {
            return false;
        };
        if to < from || to > a_i.len() {
            return false;
        }
        if from < to {
            let last = value_at(a_i, to - 1);
            if is_negative(value_at(a_i, from)) || !is_below(last, n_row) {
                return false;
            }
            firsts += usize::from(from > 0 && descends(a_i, from));
        }
        from = to;
    }
    firsts == descents(a_i, start, from)
}

/// Columns are short where they have fewer entries than this on average.
const SHORT: usize = 16;

/// So many columns are tested at once. Where they are short, the nearest cache still has their rows when these are read
/// again.
const GROUP: usize = 256;

/// Whether the columns are short and the input is a column form whose columns are all sorted. It is `false` where `a_i`
/// has 2^32 places or more, as descents are counted by 32 bits.
fn are_short_and_sorted<I: Index>(n_row: I, columns: usize, a_p: &[I], a_i: &[I]) -> bool
    requires pointers { columns < length a_p.now }
    requires first { at (map I.value a_p.now) 0 ≡ pos 0 }
    ensures form { result ≡ true → IsColumnForm (I.value n_row) columns (map I.value a_p.now) (map I.value a_i.now) }
    ensures sorted { result ≡ true → IsSorted columns (map I.value a_p.now) (map I.value a_i.now) }
{
    let Some(entries) = to_count(value_at(a_p, columns)) else {
        return false;
    };
    if entries / SHORT >= columns || a_i.len() > u32::MAX as usize {
        return false;
    }
    let mut first = 0;
    'groups: while first < columns {
        let end = first + GROUP.min(columns - first);
        if !are_sorted(n_row, a_p, a_i, first, end) {
            return false;
        }
        first = end;
    }
    true
}

/// As `valid`, for the calls of inner functions.
pub fn status_of<I: Index>(n_row: I, n_col: I, a_p: &[I], a_i: &[I]) -> Status
    ensures { IsStatusOf (I.value n_row) (I.value n_col) (map I.value a_p.now) (map I.value a_i.now) result }
{
    let Some(columns) = to_count(n_col) else {
        return Status::Invalid;
    };
    if columns >= a_p.len() {
        return Status::Invalid;
    }
    let Some(first) = to_count(value_at(a_p, 0)) else {
        return Status::Invalid;
    };
    if first != 0 {
        return Status::Invalid;
    }
    if are_short_and_sorted(n_row, columns, a_p, a_i) {
        return Status::OK;
    }
    let mut status = Status::OK;
    let mut from = 0;
    'columns: for j in 0..columns {
        let Some(to) = to_count(value_at(a_p, j + 1)) else {
            return Status::Invalid;
        };
        if to < from || to > a_i.len() {
            return Status::Invalid;
        }
        match column_status(n_row, a_i, from, to) {
            Status::OK => {}
            Status::OkButJumbled => status = Status::OkButJumbled,
            Status::Invalid => return Status::Invalid,
            Status::OutOfMemory => unreachable!(),
        }
        from = to;
    }
    status
}

/// The status of an input with `n_col` columns and rows in `0..n_row`: whether it is a column form, and sorted.
///
/// It is `Invalid` where the input is no column form, else `OkButJumbled` where some column is out of order or has a
/// duplicate, else `OK`; never `OutOfMemory`. For `n_col = 0` one pointer, 0, is needed. Any arguments are allowed, and
/// no memory is taken.
///
/// The input is a column form where `n_col` is not negative, `a_p` has at least `n_col + 1` pointers, of which the
/// first is 0, up to `a_p[n_col]`, which is at most the length of `a_i`, they never descend, and the row indices before
/// place `a_p[n_col]` lie in `0..n_row`. What follows is ignored.
///
/// Source: AMD user guide.
pub fn valid<I: PrimInt>(n_row: I, n_col: I, a_p: &[I], a_i: &[I]) -> Status
    ensures { IsStatusOf (I.value n_row) (I.value n_col) (map I.value a_p.now) (map I.value a_i.now) result }
{
    status_of(n_row, n_col, a_p, a_i)
}
