// The classes by bound: a list for each bound, linked both ways, with the class that was put in last at its head. The
// number of rows stands for no row. Source: Amestoy, Davis and Duff 1996 (degree lists).

ghost use Rattle.std.specs.Prelude.{ℕ, ◌<◌, ◌≡◌, ◌≤◌, length};
ghost use Rattle.amd_words.specs.Sides.{lasts, nexts};
ghost use Rattle.amd_words.specs.Words.{num};
ghost use Rattle.amd_lists.specs.Lengths.{HasSides, row_count};
ghost use Rattle.amd_lists.specs.Chains.{CanPutHead, ChoosesRow, IsBounded, PutsHead, Relinks, SomeFrom, TakesOut};
ghost use Rattle.amd_lists.specs.Chains.{Unlinks};

use amd_words::sides::{Sides, last_at, next_at, put_last, put_next, row_count};
use amd_words::{Cell, Unsigned, cell_at, put_cell};

/// Links what stands before and behind a row of the bound `d` to each other.
fn unlink<U: Unsigned>(head: &mut [Cell<U>], sides: &mut [Sides<U>], i: usize, d: usize)
    requires long { length head.old ≡ row_count sides.old }
    requires row { (i < row_count sides.old) × (d < row_count sides.old) }
    ensures unlinks { Unlinks (row_count sides.old) i d head.old (nexts sides.old) (lasts sides.old) head.new
        (nexts sides.new) (lasts sides.new) }
    ensures lengths { HasSides (row_count sides.old) head.new sides.new }
{
    let n = row_count(sides);
    let before = last_at(sides, i);
    let after = next_at(sides, i);
    if after < n {
        put_last(sides, after, before);
    }
    if before < n {
        put_next(sides, before, after);
    } else {
        put_cell(head, d, after);
    }
}

/// Takes a row out of the list of its bound.
pub fn take_out<U: Unsigned>(
    head: &mut [Cell<U>],
    sides: &mut [Sides<U>],
    degree: &[Cell<U>],
    i: usize,
)
    requires { IsBounded i head.old degree.now sides.old }
    ensures { TakesOut i degree.now head.old sides.old head.new sides.new }
{
    unlink(head, sides, i, cell_at(degree, i));
}

/// Links a row in front of the first one of the bound `d`.
fn link<U: Unsigned>(head: &mut [Cell<U>], sides: &mut [Sides<U>], i: usize, d: usize)
    requires long { length head.old ≡ row_count sides.old }
    requires short { row_count sides.old ≤ U.MOST }
    requires row { (i < row_count sides.old) × (d < row_count sides.old) }
    ensures relinks { Relinks (row_count sides.old) i d head.old (nexts sides.old) (lasts sides.old) head.new
        (nexts sides.new) (lasts sides.new) }
    ensures lengths { HasSides (row_count sides.old) head.new sides.new }
{
    let n = row_count(sides);
    let after = cell_at(head, d);
    if after < n {
        put_last(sides, after, i);
    }
    put_next(sides, i, after);
    put_last(sides, i, n);
    put_cell(head, d, i);
}

/// Puts a row at the head of the list of a bound.
pub fn put_head<U: Unsigned>(
    head: &mut [Cell<U>],
    sides: &mut [Sides<U>],
    degree: &mut [Cell<U>],
    i: usize,
    d: usize,
)
    requires { CanPutHead U.MOST i d head.old degree.old sides.old }
    ensures { PutsHead i d head.old sides.old degree.old head.new sides.new degree.new }
{
    link(head, sides, i, d);
    put_cell(degree, i, d);
}

/// The least bound, from `least` on, that has a row.
fn least_bound<U: Unsigned>(head: &[Cell<U>], least: usize) -> usize
    requires some { SomeFrom (length head.now) head.now least }
    ensures from { least ≤ result }
    ensures inside { result < length head.now }
    ensures found { num head.now result < length head.now }
    ensures below { (b : ℕ) → least ≤ b → b < result → length head.now ≤ num head.now b }
{
    let n = head.len();
    let mut bound = least;
    'bounds: while cell_at(head, bound) >= n {
        bound += 1;
    }
    bound
}

/// Chooses the pivot, the first row of the least bound that has one, and takes it out of its list. No bound below
/// `least` has a row. Returns the pivot and its bound.
pub fn choose<U: Unsigned>(
    head: &mut [Cell<U>],
    sides: &mut [Sides<U>],
    least: usize,
) -> (usize, usize)
    requires long { length head.old ≡ row_count sides.old }
    requires some { SomeFrom (row_count sides.old) head.old least }
    ensures { ChoosesRow least head.old sides.old head.new sides.new result.0 result.1 }
{
    let bound = least_bound(head, least);
    let me = cell_at(head, bound);
    unlink(head, sides, me, bound);
    (me, bound)
}
