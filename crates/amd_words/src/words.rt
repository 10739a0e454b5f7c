// The words of the workspace: places, rows and marks, and the sizes of classes, whose sign marks the classes of a
// front. All signed numbers are read and written by these short functions alone. Source: Amestoy, Davis and Duff 1996
// and 2004 (the arrays `pe` and `nv`).

ghost use Rattle.std.specs.Prelude.{◌≡◌, ◌<◌, ◌≤◌, ◌+◌, ◌^◌, ◌||◌, ◌&&◌, ◌==◌, not, pos, ℕ, true, false, nat_lt};
ghost use Rattle.std.specs.Prelude.{length, slice_set};
ghost use Rattle.amd_words.specs.Words.{is_place, place, flip_of, word, size_of, in_front};

use crate::{Signed, Word, put_word, row_at, word_at};

/// The row or the place that a word names.
pub fn named<S: Signed>(words: &[Word<S>], k: usize) -> usize
    requires inside { k < length words.now }
    requires is_one { is_place (word words.now k) ≡ true }
    ensures { result ≡ place (word words.now k) }
{
    row_at(words, k)
}

/// Whether a row is a class outside the front.
pub fn is_open<S: Signed>(nv: &[Word<S>], j: usize) -> bool
    requires { j < length nv.now }
    ensures is { result ≡ (nat_lt 0 (size_of nv.now j) && not (in_front nv.now j)) }
    ensures small { size_of nv.now j ≤ S.MOST }
{
    word_at(nv, j) > 0
}

/// Puts a class into the front, and returns its number of rows.
pub fn enter<S: Signed>(nv: &mut [Word<S>], j: usize) -> usize
    requires inside { j < length nv.old }
    requires class { 0 < size_of nv.old j }
    requires fresh { in_front nv.old j ≡ false }
    ensures rows { result ≡ size_of nv.old j }
    ensures long { length nv.new ≡ length nv.old }
    ensures sizes { (i : ℕ) → size_of nv.new i ≡ size_of nv.old i }
    ensures front { (i : ℕ) → in_front nv.new i ≡ (in_front nv.old i || j == i) }
{
    let rows = word_at(nv, j);
    put_word(nv, j, -rows);
    rows as usize
}

/// Takes a class out of the front, and returns its number of rows.
pub fn leave<S: Signed>(nv: &mut [Word<S>], j: usize) -> usize
    requires inside { j < length nv.old }
    requires marked { in_front nv.old j ≡ true }
    ensures rows { result ≡ size_of nv.old j }
    ensures long { length nv.new ≡ length nv.old }
    ensures sizes { (i : ℕ) → size_of nv.new i ≡ size_of nv.old i }
    ensures front { (i : ℕ) → in_front nv.new i ≡ (in_front nv.old i && not (j == i)) }
{
    let rows = -word_at(nv, j);
    put_word(nv, j, rows);
    rows as usize
}

/// The number of rows of a class of the front.
pub fn size_inside<S: Signed>(nv: &[Word<S>], j: usize) -> usize
    requires inside { j < length nv.now }
    requires marked { in_front nv.now j ≡ true }
    ensures { result ≡ size_of nv.now j }
{
    -word_at(nv, j) as usize
}

/// The number of rows of a class outside the front.
pub fn size_outside<S: Signed>(nv: &[Word<S>], j: usize) -> usize
    requires inside { j < length nv.now }
    requires fresh { in_front nv.now j ≡ false }
    ensures { result ≡ size_of nv.now j }
{
    row_at(nv, j)
}

/// Writes a row or a place.
pub fn put_row<S: Signed>(words: &mut [Word<S>], k: usize, row: usize)
    requires inside { k < length words.old }
    requires small { row ≤ S.MOST }
    ensures { words.new ≡ slice_set words.old k (pos row) }
{
    put_word(words, k, row as isize);
}

/// Writes the mark that names a parent or an owner.
pub fn put_flip<S: Signed>(words: &mut [Word<S>], k: usize, row: usize)
    requires inside { k < length words.old }
    requires small { row + 2 ≤ S.MOST }
    ensures { words.new ≡ slice_set words.old k (flip_of row) }
{
    put_word(words, k, -(row as isize) - 2);
}

/// Whether a word names a row or a place, and is no mark.
pub fn names_one<S: Signed>(words: &[Word<S>], k: usize) -> bool
    requires { k < length words.now }
    ensures { result ≡ is_place (word words.now k) }
{
    word_at(words, k) >= 0
}

/// The parent or owner that a mark names.
pub fn flipped<S: Signed>(words: &[Word<S>], k: usize) -> usize
    requires inside { k < length words.now }
    requires marked { (row : ℕ) × (word words.now k ≡ flip_of row) }
    ensures { word words.now k ≡ flip_of result }
{
    (-(word_at(words, k) + 2)) as usize
}

/// Whether a row is a class of the front.
pub fn is_marked<S: Signed>(nv: &[Word<S>], j: usize) -> bool
    requires { j < length nv.now }
    ensures { result ≡ in_front nv.now j }
{
    word_at(nv, j) < 0
}
