// What stands on both sides of each row in a list that is linked both ways. The two numbers of a row stand together,
// since what reads one of them mostly reads or writes the other one soon. A contract sees two lists, one for each side.
// Source: Amestoy, Davis and Duff 1996 (degree lists).

ghost use Rattle.std.specs.Prelude.{◌≡◌, ◌<◌, ◌≤◌, ℕ, length, slice_index_or, slice_set};
ghost use Rattle.amd_words.specs.Sides.{nexts, lasts};

use crate::{Cell, Unsigned, cell_of, number_of};
use std::marker::Model;

/// What stands on both sides of a row in its list, mostly rows: contracts see two numbers.
#[derive(Drop)]
pub struct Sides<U: Unsigned> {
    /// The row behind it.
    next: Cell<U>,
    /// The row before it.
    last: Cell<U>,
}

impl<U: Unsigned> Model for Sides<U> {
    ghost Value = { ℕ × ℕ };

    ghost view = { λ a. (a.next, a.last) };
}

/// The sides of a row, with these numbers behind and before it.
#[inline]
pub fn sides_of<U: Unsigned>(next: usize, last: usize) -> Sides<U>
    requires fits { (next ≤ U.MOST) × (last ≤ U.MOST) }
    ensures { result ≡ (next, last) }
{
    Sides {
        next: cell_of(next),
        last: cell_of(last),
    }
}

/// The number of rows.
#[tactic(auto, using(crate::proofs::SideLists::nexts_long))]
#[inline]
pub fn row_count<U: Unsigned>(sides: &[Sides<U>]) -> usize
    ensures { result ≡ length (nexts sides.now) }
{
    sides.len()
}

/// The number behind a row.
#[tactic(auto, using(crate::proofs::SideLists::nexts_long))]
#[inline]
pub fn next_at<U: Unsigned>(sides: &[Sides<U>], i: usize) -> usize
    requires { i < length (nexts sides.now) }
    ensures is { result ≡ slice_index_or (nexts sides.now) i 0 }
    ensures small { result ≤ U.MOST }
{
    let row = &sides[i];
    number_of(&row.next)
}

/// The number before a row: a row of its list, or in a round its key.
#[tactic(auto, using(crate::proofs::SideLists::nexts_long))]
#[inline]
pub fn last_at<U: Unsigned>(sides: &[Sides<U>], i: usize) -> usize
    requires { i < length (nexts sides.now) }
    ensures is { result ≡ slice_index_or (lasts sides.now) i 0 }
    ensures small { result ≤ U.MOST }
{
    let row = &sides[i];
    number_of(&row.last)
}

/// Writes the number behind a row.
#[tactic(auto, using(crate::proofs::SideLists::nexts_long))]
#[inline]
pub fn put_next<U: Unsigned>(sides: &mut [Sides<U>], i: usize, next: usize)
    requires inside { i < length (nexts sides.old) }
    requires fits { next ≤ U.MOST }
    ensures nexts { nexts sides.new ≡ slice_set (nexts sides.old) i next }
    ensures lasts { lasts sides.new ≡ lasts sides.old }
{
    let row = &mut sides[i];
    row.next = cell_of(next);
}

/// Writes the number before a row.
#[tactic(auto, using(crate::proofs::SideLists::nexts_long))]
#[inline]
pub fn put_last<U: Unsigned>(sides: &mut [Sides<U>], i: usize, last: usize)
    requires inside { i < length (nexts sides.old) }
    requires fits { last ≤ U.MOST }
    ensures nexts { nexts sides.new ≡ nexts sides.old }
    ensures lasts { lasts sides.new ≡ slice_set (lasts sides.old) i last }
{
    let row = &mut sides[i];
    row.last = cell_of(last);
}
