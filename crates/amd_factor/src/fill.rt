// The columns of a factor under an order of the rows, made in that order, each one behind those before it: in a list
// that grows, or in numbers that a caller has. Source: George and Liu 1981; Liu 1990.

ghost use Rattle.std.specs.Prelude.{ℕ, ◌≡◌, ◌≤◌, ◌+◌, ◌++◌, drop, length, map, pos, slice_index, MatchOption};
ghost use Rattle.std.specs.Prelude.{List, replicate, take};
ghost use Rattle.std.specs.Vec.{vec_capacity};
ghost use Rattle.amd_factor.specs.Columns.{FactorSizes, HoldFactor, PassesRoom};
ghost use Rattle.amd_factor.specs.Gathering.{LinkChildren, MarksTell};
ghost use Rattle.amd_factor.specs.Orders.{Order};
ghost use Rattle.amd_factor.specs.Numbers.{FillsFront, KeepsLoans};
ghost use Rattle.amd_factor.specs.Planning.{CanAdd, CanAddBehind};
ghost use Rattle.amd_factor.specs.Premises.{CanFill, CanWriteFactor};

use crate::column::{ColumnLists, Marked, finish_column, plan_behind};
use crate::neighbours::Neighbours;
use amd_types::index::Index;
use core::mem::replace_with;
use std::alloc::Allocator;

/// Appends so many zeros to numbers that have the capacity for them, and keep it. They are moved in and out, so that
/// their length is stored once, and not at each zero.
pub fn with_zeros<N: Index, A: Allocator>(mut rows: Vec<N, A>, size: usize) -> (Vec<N, A>, ())
    requires room { length rows.items + size ≤ vec_capacity rows }
    ensures zeros { (zero : N) × (N.value zero ≡ pos 0) × (result.0.items ≡ rows.items ++ replicate size zero) }
    ensures capacity { vec_capacity result.0 ≡ vec_capacity rows }
{
    let zero = N::zero();
    'zeros: for _ in 0..size {
        rows.push_reserved(zero);
    }
    (rows, ())
}

/// Writes column `k` behind those before it, and returns the column that the marks then tell; none, exactly where it
/// does not fit.
fn add_column<N: Index, A: Allocator>(
    k: usize,
    neighbours: &[usize],
    marked: Marked,
    room: usize,
    lists: &mut ColumnLists<'_>,
    rows: &mut Vec<N, A>,
    mark: &mut [usize],
    fresh: &mut [usize],
) -> Option<Marked>
    ghost o: { Order }
    requires { CanAddBehind N.value N.fits o k (record {
      neighbours = neighbours.now;
      marked = marked;
      mark = mark.old;
      fresh = fresh.old;
    }) lists.old rows.old.items room (vec_capacity rows.old) }
    ensures filled { MatchOption result (PassesRoom o.graph o.rows room)
        (λ now. FillsFront N.value o (k + 1) lists.new rows.new.items now mark.new) }
    ensures full { MatchOption result (Unit {0})
        (λ now. slice_index lists.new.ptr.now (k + 1) ≡ length rows.new.items) }
    ensures within { length rows.new.items ≤ room }
    ensures capacity { vec_capacity rows.new ≡ vec_capacity rows.old }
    ensures loans { KeepsLoans lists.old lists.new }
{
    let plan = plan_behind(k, neighbours, marked, lists, rows, mark, fresh);
    let begin = rows.len();
    let size = plan.to - plan.from + plan.count;
    if room - begin < size {
        return None;
    }
    // The zeros of a column are still at hand when it is written over them.
    replace_with(rows, size, with_zeros);
    let new = &fresh[..plan.count];
    finish_column(k, plan, new, lists.ptr, rows, lists.parent, lists.link);
    Some(plan.marked)
}

/// Sets the lists as they are before the first column, and returns what the marks then tell: no column.
fn clear_lists(ptr: &mut [usize], mark: &mut [usize], link: &mut [Option<usize>]) -> Marked
    ghost o: { Order }
    requires pointers { length ptr.old ≡ length o.rows + 1 }
    requires marks { length mark.old ≡ length o.rows }
    requires links { length link.old ≡ length o.rows }
    ensures first { slice_index ptr.new 0 ≡ 0 }
    ensures links { LinkChildren o 0 link.new }
    ensures marks { MarksTell o 0 result.column result.stamp mark.new }
{
    mark.fill(0);
    link.fill(None);
    ptr[0] = 0;
    Marked {
        column: None,
        stamp: 0,
    }
}

/// Writes the columns of the factor of a graph under an order of its rows, and returns the number of their entries;
/// none, exactly where there are more entries than `room`, for which `rows` has the capacity.
///
/// `later` names the places after each place whose rows an edge joins with that there. The entries of column `k` are
/// then `rows[ptr[k]..ptr[k + 1]]`, rising, and its parent is the first of them. `ptr` has a place more than there are
/// rows, and `parent`, `mark`, `link` and `fresh`, of which the last three are for the work alone, have as many.
///
/// No memory is asked for: the capacity of `rows` stays as it is. The steps are as many as there are later neighbours,
/// entries and rows, times at most the logarithm of the number of rows that are new in a column: those that it does not
/// take over from its greatest child. Each place is a number of the type.
pub fn fill<N: Index, A: Allocator>(
    later: &Neighbours<'_>,
    room: usize,
    ptr: &mut [usize],
    rows: &mut Vec<N, A>,
    parent: &mut [Option<usize>],
    mark: &mut [usize],
    link: &mut [Option<usize>],
    fresh: &mut [usize],
) -> Option<usize>
    ghost o: { Order }
    requires { CanFill N.fits o later.now (record {
      ptr = ptr.old;
      parent = parent.old;
      mark = mark.old;
      link = link.old;
      fresh = fresh.old;
    }) rows.old.items room (vec_capacity rows.old) }
    ensures factor { MatchOption result (PassesRoom o.graph o.rows room)
        (λ total. (total ≡ length rows.new.items) × (entries : List ℕ) ×
        (map N.value rows.new.items ≡ map pos entries) × HoldFactor o.graph o.rows ptr.new entries parent.new) }
    ensures within { length rows.new.items ≤ room }
    ensures capacity { vec_capacity rows.new ≡ vec_capacity rows.old }
{
    let mut marked = clear_lists(ptr, mark, link);
    let mut lists = ColumnLists { ptr, parent, link };
    'columns: for k in 0..lists.parent.len() {
        let neighbours = &later.places[later.starts[k]..later.starts[k + 1]];
        let Some(now) = add_column(k, neighbours, marked, room, &mut lists, rows, mark, fresh)
        else {
            return None;
        };
        marked = now;
    }
    Some(lists.ptr[lists.parent.len()])
}

/// Writes column `k` behind those before it, as `add_column`, into numbers of a caller; what is behind it stays.
fn add_column_into<N: Index>(
    k: usize,
    neighbours: &[usize],
    marked: Marked,
    lists: &mut ColumnLists<'_>,
    rows: &mut [N],
    mark: &mut [usize],
    fresh: &mut [usize],
) -> Option<Marked>
    ghost o: { Order }
    requires column { CanAdd N.fits o k neighbours.now fresh.old }
    requires filled { FillsFront N.value o k lists.old rows.old marked mark.old }
    ensures filled { MatchOption result (PassesRoom o.graph o.rows (length rows.old))
        (λ now. FillsFront N.value o (k + 1) lists.new rows.new now mark.new) }
    ensures rest { MatchOption result (Unit {0})
        (λ now. (slice_index lists.old.ptr.now k ≤ slice_index lists.new.ptr.now (k + 1)) ×
        (drop (slice_index lists.new.ptr.now (k + 1)) rows.new
        ≡ drop (slice_index lists.new.ptr.now (k + 1)) rows.old)) }
    ensures loans { KeepsLoans lists.old lists.new }
{
    let begin = lists.ptr[k];
    let plan = plan_behind(k, neighbours, marked, lists, &rows[..begin], mark, fresh);
    let size = plan.to - plan.from + plan.count;
    if rows.len() - begin < size {
        return None;
    }
    finish_column(
        k,
        plan,
        &fresh[..plan.count],
        lists.ptr,
        &mut rows[..begin + size],
        lists.parent,
        lists.link,
    );
    Some(plan.marked)
}

/// Writes the columns of the factor as `fill`, into numbers of a caller, and returns how many; none, exactly where
/// there are more entries than `rows` has places. Each place is a number of the type.
pub fn fill_into<N: Index>(
    later: &Neighbours<'_>,
    ptr: &mut [usize],
    rows: &mut [N],
    parent: &mut [Option<usize>],
    mark: &mut [usize],
    link: &mut [Option<usize>],
    fresh: &mut [usize],
) -> Option<usize>
    ghost o: { Order }
    requires sizes { FactorSizes o ptr.old parent.old mark.old link.old fresh.old }
    requires lists { CanWriteFactor o N.fits later.now.starts.now later.now.places.now }
    ensures factor { MatchOption result (PassesRoom o.graph o.rows (length rows.old))
        (λ total. (entries : List ℕ) × (total ≡ length entries) ×
        (map N.value rows.new ≡ map pos entries ++ drop total (map N.value rows.old)) ×
        HoldFactor o.graph o.rows ptr.new entries parent.new) }
{
    let mut marked = clear_lists(ptr, mark, link);
    let mut lists = ColumnLists { ptr, parent, link };
    'columns: for k in 0..lists.parent.len() {
        let neighbours = &later.places[later.starts[k]..later.starts[k + 1]];
        let Some(now) = add_column_into(k, neighbours, marked, &mut lists, rows, mark, fresh) else {
            return None;
        };
        marked = now;
    }
    Some(lists.ptr[lists.parent.len()])
}
