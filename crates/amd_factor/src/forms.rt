// Whether an input is a column form, for calls to which it is one whether or not its columns are sorted. The pointers
// and the rows are each looked through from the first to the last, whatever column a row is in: a call of `valid` would
// find out more, column by column.

ghost use Rattle.std.specs.Prelude.{◌≡◌, ◌<◌, ◌≤◌, ◌+◌, ◌≤ℤ◌, ◌<ℤ◌, ℕ, pos, true, false, length, map};
ghost use Rattle.amd_model.specs.Input.Columns.{IsColumnForm, IsRow, at};

use amd_types::index::Index;
use amd_types::internal::{is_below, is_negative, to_count, value_at};

/// Whether the pointers up to that at place `size` never descend.
fn ascend<I: Index>(a_p: &[I], size: usize) -> bool
    requires within { size < length a_p.now }
    ensures ascend { result ≡ true → (j : ℕ) → j < size →
        at (map I.value a_p.now) j ≤ℤ at (map I.value a_p.now) (j + 1) }
    ensures descend { result ≡ false → (j : ℕ) × (j < size) ×
        (at (map I.value a_p.now) (j + 1) <ℤ at (map I.value a_p.now) j) }
{
    // All are read, even after a descent: without an early end a processor compares several at once.
    let mut ascending = true;
    'pointers: for j in 0..size {
        if is_below(value_at(a_p, j + 1), value_at(a_p, j)) {
            ascending = false;
        }
    }
    ascending
}

/// Whether the first `count` numbers are rows of a matrix with `n` rows.
fn are_rows<I: Index>(n: I, a_i: &[I], count: usize) -> bool
    requires within { count ≤ length a_i.now }
    ensures are { result ≡ true → (k : ℕ) → k < count → IsRow (I.value n) (at (map I.value a_i.now) k) }
    ensures are_not { result ≡ false → (k : ℕ) × (k < count) × (¬ (IsRow (I.value n) (at (map I.value a_i.now) k))) }
{
    // All are read, as the pointers are.
    let mut rows = true;
    'rows: for k in 0..count {
        let row = value_at(a_i, k);
        if is_negative(row) || !is_below(row, n) {
            rows = false;
        }
    }
    rows
}

/// Whether an input with `n` rows and columns is a column form, as that of `amd::order`; `size` is `n`.
pub fn is_form<I: Index>(n: I, size: usize, a_p: &[I], a_i: &[I]) -> bool
    requires size { I.value n ≡ pos size }
    ensures form { result ≡ true → IsColumnForm (pos size) size (map I.value a_p.now) (map I.value a_i.now) }
    ensures none { result ≡ false → ¬ (IsColumnForm (pos size) size (map I.value a_p.now) (map I.value a_i.now)) }
{
    if size >= a_p.len() {
        return false;
    }
    let Some(first) = to_count(value_at(a_p, 0)) else {
        return false;
    };
    if first != 0 {
        return false;
    }
    let Some(count) = to_count(value_at(a_p, size)) else {
        return false;
    };
    if count > a_i.len() {
        return false;
    }
    if !ascend(a_p, size) {
        return false;
    }
    are_rows(n, a_i, count)
}
