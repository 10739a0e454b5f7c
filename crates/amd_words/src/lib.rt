//! The cells of a workspace, each in one of two widths: words, which have a sign, and other cells, which have none. A
//! contract sees a word as an integer and another cell as a number, so that it reads the same in each width. The two
//! sides of a row in its list stand together (`sides`).
#![tactic(auto)]

pub mod sides;
pub mod words;

ghost use Rattle.std.specs.Prelude.{ℕ, ℤ, pos, ◌≡◌, ◌<◌, ◌≤◌, ◌+◌, ◌^◌, unsigned_abs, length, slice_index_or};
ghost use Rattle.std.specs.Prelude.{slice_set};

use std::marker::Model;

/// A signed number of some width.
pub trait Signed: Copy + Drop {
    // The integer.
    ghost value: { Self → ℤ };

    /// The greatest number; the least one is its opposite.
    const MOST: usize;

    ghost MOST: { ℕ };

    /// The number.
    fn number(self) -> isize
        ensures { result ≡ value self };

    /// The number, which has no sign.
    fn row(self) -> usize
        requires { value self ≡ pos (unsigned_abs (value self)) }
        ensures { value self ≡ pos result };

    /// The word of a number.
    fn of(number: isize) -> Self
        requires { unsigned_abs number ≤ MOST }
        ensures { value result ≡ number };

    ghost narrow: { MOST < 2 ^ 63 };
}

impl Signed for isize {
    ghost value = { λ x. x };

    const MOST: usize = isize::MAX as usize;

    ghost MOST = { 9223372036854775807 };

    #[inline]
    fn number(self) -> isize {
        self
    }

    #[inline]
    fn row(self) -> usize {
        self as usize
    }

    #[inline]
    fn of(number: isize) -> isize {
        number
    }

    ghost use Rattle.std.proofs.Common.{rules};

    ghost narrow = { Prim.search rules };
}

impl Signed for i32 {
    ghost value = { λ x. x };

    const MOST: usize = i32::MAX as usize;

    ghost MOST = { 2147483647 };

    #[inline]
    fn number(self) -> isize {
        self as isize
    }

    #[inline]
    fn row(self) -> usize {
        self as u32 as usize
    }

    #[inline]
    fn of(number: isize) -> i32 {
        number as i32
    }

    ghost use Rattle.std.proofs.Common.{rules};

    ghost narrow = { Prim.search rules };
}

/// A number without a sign of some width.
pub trait Unsigned: Copy + Drop {
    // The number.
    ghost value: { Self → ℕ };

    /// The greatest number.
    const MOST: usize;

    ghost MOST: { ℕ };

    /// The number.
    fn number(self) -> usize
        ensures { result ≡ value self };

    /// The cell of a number.
    fn of(number: usize) -> Self
        requires { number ≤ MOST }
        ensures { value result ≡ number };

    ghost narrow: { MOST < 2 ^ 64 };
}

impl Unsigned for usize {
    ghost value = { λ x. x };

    const MOST: usize = usize::MAX;

    ghost MOST = { 18446744073709551615 };

    #[inline]
    fn number(self) -> usize {
        self
    }

    #[inline]
    fn of(number: usize) -> usize {
        number
    }

    ghost use Rattle.std.proofs.Common.{rules};

    ghost narrow = { Prim.search rules };
}

impl Unsigned for u32 {
    ghost value = { λ x. x };

    const MOST: usize = u32::MAX as usize;

    ghost MOST = { 4294967295 };

    #[inline]
    fn number(self) -> usize {
        self as usize
    }

    #[inline]
    fn of(number: usize) -> u32 {
        number as u32
    }

    ghost use Rattle.std.proofs.Common.{rules};

    ghost narrow = { Prim.search rules };
}

/// A word of a workspace: contracts see an integer. It lies in memory as its number does, so that `amd_lending` can
/// lend a slice of numbers as one of words.
#[derive(Drop)]
#[repr(transparent)]
pub struct Word<S: Signed> {
    inner: S,
}

impl<S: Signed> Model for Word<S> {
    ghost Value = { ℤ };

    ghost view = { λ a. S.value a.inner };

    ghost invariant = { λ a. unsigned_abs (S.value a.inner) ≤ S.MOST };
}

/// A cell of a row: contracts see a number. It lies in memory as its number does.
#[derive(Drop)]
#[repr(transparent)]
pub struct Cell<U: Unsigned> {
    inner: U,
}

impl<U: Unsigned> Model for Cell<U> {
    ghost Value = { ℕ };

    ghost view = { λ a. U.value a.inner };

    ghost invariant = { λ a. U.value a.inner ≤ U.MOST };
}

/// The word of a number.
#[inline]
pub fn word_of<S: Signed>(number: isize) -> Word<S>
    requires { unsigned_abs number ≤ S.MOST }
    ensures { result ≡ number }
{
    Word {
        inner: S::of(number),
    }
}

/// The cell of a number.
#[inline]
pub fn cell_of<U: Unsigned>(number: usize) -> Cell<U>
    requires { number ≤ U.MOST }
    ensures { result ≡ number }
{
    Cell {
        inner: U::of(number),
    }
}

/// The number of a cell.
#[inline]
pub fn number_of<U: Unsigned>(cell: &Cell<U>) -> usize
    ensures is { result ≡ cell.now }
    ensures small { result ≤ U.MOST }
{
    cell.inner.number()
}

/// The number at a place.
#[inline]
pub fn word_at<S: Signed>(words: &[Word<S>], k: usize) -> isize
    requires { k < length words.now }
    ensures is { result ≡ slice_index_or words.now k (pos 0) }
    ensures small { unsigned_abs result ≤ S.MOST }
{
    let word = &words[k];
    word.inner.number()
}

/// The number at a place, which has no sign.
#[inline]
pub fn row_at<S: Signed>(words: &[Word<S>], k: usize) -> usize
    requires inside { k < length words.now }
    requires plain { slice_index_or words.now k (pos 0) ≡ pos (unsigned_abs (slice_index_or words.now k (pos 0))) }
    ensures { slice_index_or words.now k (pos 0) ≡ pos result }
{
    let word = &words[k];
    word.inner.row()
}

/// Writes a number at a place.
#[inline]
pub fn put_word<S: Signed>(words: &mut [Word<S>], k: usize, number: isize)
    requires inside { k < length words.old }
    requires fits { unsigned_abs number ≤ S.MOST }
    ensures { words.new ≡ slice_set words.old k number }
{
    let word = &mut words[k];
    word.inner = S::of(number);
}

/// Copies one word.
#[inline]
pub fn copy_word<S: Signed>(words: &mut [Word<S>], from: usize, to: usize)
    requires from { from < length words.old }
    requires to { to < length words.old }
    ensures { words.new ≡ slice_set words.old to (slice_index_or words.old from (pos 0)) }
{
    let source = &words[from];
    let inner = source.inner;
    let word = &mut words[to];
    word.inner = inner;
}

/// The number at a place.
#[inline]
pub fn cell_at<U: Unsigned>(cells: &[Cell<U>], k: usize) -> usize
    requires { k < length cells.now }
    ensures is { result ≡ slice_index_or cells.now k 0 }
    ensures small { result ≤ U.MOST }
{
    let cell = &cells[k];
    cell.inner.number()
}

/// Writes a number at a place.
#[inline]
pub fn put_cell<U: Unsigned>(cells: &mut [Cell<U>], k: usize, number: usize)
    requires inside { k < length cells.old }
    requires fits { number ≤ U.MOST }
    ensures { cells.new ≡ slice_set cells.old k number }
{
    let cell = &mut cells[k];
    cell.inner = U::of(number);
}
