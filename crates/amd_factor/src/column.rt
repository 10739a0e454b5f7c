// One column of a factor, from its later neighbours and the columns of its children: the greatest child hands on its
// entries behind the first one, and what it lacks is found by marks, sorted and merged in. It is planned first, so that
// there is room for it before it is written. Source: George and Liu 1981; Liu 1990.

ghost use Rattle.std.specs.Prelude.{ℕ, List, ◌≡◌, ◌<◌, ◌≤◌, ◌+◌, [], true, Some, length, slice_index};
ghost use Rattle.std.specs.Prelude.{MatchOption, map, pos, take};
ghost use Rattle.amd_factor.specs.Orders.{Order};
ghost use Rattle.amd_factor.specs.Gathering.{Column, Completes, HoldBefore, IsChild, LinkChildren};
ghost use Rattle.amd_factor.specs.Gathering.{Marks, MarksTell, StandAt, TellFirst};
ghost use Rattle.amd_factor.specs.Numbers.{AreNonNegative, Plans};
ghost use Rattle.amd_factor.specs.Planning.{AreColumns, AreColumnsBehind, CanClose, CanFindNew, CanFinish, CanGather};
ghost use Rattle.amd_factor.specs.Planning.{CanMarkBase, CanPlan, TakesOver};
ghost use Rattle.amd_factor.specs.Trees.{Entry};
ghost use Rattle.amd_types.specs.Naturals.{naturals};

use crate::children::{greatest_child, has_only_child, link_child};
use crate::gathering::{gather, gather_places, mark_rows};
use crate::merge::write_merged;
use crate::numbers::place_at;
use amd_types::index::Index;

/// The columns before one that is planned.
#[derive(Clone, Copy)]
pub struct Columns<'a, N: Index> {
    /// Where the entries of each begin in `rows`.
    pub starts: &'a [usize],
    /// And where they end.
    pub ends: &'a [usize],
    pub rows: &'a [N],
    /// The children of each in a list: a column to come is linked to the last of its children, and a child to the one
    /// before it.
    pub link: &'a [Option<usize>],
}

/// What is written of the columns that stand one behind the other, where it is lent, with a place for each column.
#[derive(Drop)]
pub struct ColumnLists<'a> {
    /// Where each column begins, and, in a place more, the end of the last one.
    pub ptr: &'a mut [usize],
    /// The parent of each column: its first entry.
    pub parent: &'a mut [Option<usize>],
    /// The children of each in a list, as in [`Columns`].
    pub link: &'a mut [Option<usize>],
}

/// A column, if there is one, and the mark of its entries: those of the rows behind it that have the mark.
#[derive(Clone, Copy)]
pub struct Marked {
    pub column: Option<usize>,
    pub stamp: usize,
}

/// What a column takes over: the rows from place `from` on, before `to`, of a child, if there is one.
#[derive(Clone, Copy)]
pub struct Taken {
    pub base: Option<usize>,
    pub from: usize,
    pub to: usize,
}

/// A column that is planned: it takes over the rows from place `from` on, before `to`, and `count` are new in it. The
/// marks then tell a column.
#[derive(Clone, Copy)]
pub struct Plan {
    pub from: usize,
    pub to: usize,
    pub count: usize,
    pub marked: Marked,
}

/// Where the rows begin and end that a column takes over from the child `base`: all but the first of its entries.
pub fn inherited(base: Option<usize>, starts: &[usize], ends: &[usize]) -> (usize, usize)
    requires stands { (c : Column) × (rows : List ℕ) × StandAt c.order c.place starts.now ends.now rows ×
        MatchOption base (Unit {0}) (λ child. IsChild c child) }
    ensures range { result.0 ≤ result.1 }
    ensures takes { (c : Column) (rows : List ℕ) → StandAt c.order c.place starts.now ends.now rows →
        MatchOption base (Unit {0}) (λ child. IsChild c child) → TakesOver c rows base result.0 result.1 }
{
    match base {
        Some(child) => (starts[child] + 1, ends[child]),
        None => (0, 0),
    }
}

/// Lists the rows of the children of column `k` but `base` that have no mark, marks them, and returns how many.
pub fn gather_children<N: Index>(
    k: usize,
    base: usize,
    stamp: usize,
    columns: Columns<'_, N>,
    mark: &mut [usize],
    fresh: &mut [usize],
) -> usize
    ghost c: { Column }
    requires { CanGather N.value c k base stamp columns mark.old fresh.old }
    ensures count { result ≤ length fresh.new }
    ensures marks { Marks c stamp (take result fresh.new) mark.new }
    ensures children { (m j : ℕ) → IsChild c m → c.place < j → Entry c.order.graph c.order.rows m j →
        slice_index mark.new j ≡ stamp }
{
    let mut count = 0;
    let mut next = columns.link[k];
    'children: while let Some(child) = next {
        if child != base {
            let (from, to) = inherited(Some(child), columns.starts, columns.ends);
            count = gather(&columns.rows[from..to], stamp, count, mark, fresh);
        }
        next = columns.link[child];
    }
    count
}

/// Whether the marks tell the column of the child that a column takes over from.
fn tells(marked: Marked, base: Option<usize>) -> bool
    ensures { result ≡ true → (child : ℕ) × (base ≡ Some child) × (marked.column ≡ Some child) }
{
    match (marked.column, base) {
        (Some(column), Some(child)) => column == child,
        _ => false,
    }
}

/// Gives the rows that column `k` takes over a mark, where they have none yet, and returns it.
fn mark_base<N: Index>(
    k: usize,
    base: Option<usize>,
    rows: &[N],
    marked: Marked,
    mark: &mut [usize],
) -> usize
    ghost c: { Column }
    requires { CanMarkBase N.value c k base rows.now marked mark.old }
    ensures { Marks c result [] mark.new }
{
    if tells(marked, base) {
        return marked.stamp;
    }
    mark_rows(rows, k + 1, mark);
    k + 1
}

/// Lists the rows of column `k` that it does not take over from a child, rising; returns how many, and the column that
/// the marks then tell.
///
/// Where it has one child alone and there is no later neighbour, nothing is new, and no mark is written for it.
pub fn new_rows<N: Index>(
    k: usize,
    taken: Taken,
    neighbours: &[usize],
    marked: Marked,
    columns: Columns<'_, N>,
    mark: &mut [usize],
    fresh: &mut [usize],
) -> (usize, Marked)
    ghost c: { Column }
    requires { CanFindNew N.value c k taken neighbours.now marked columns mark.old fresh.old }
    ensures count { result.0 ≤ length fresh.new }
    ensures completes { Completes c (take result.0 fresh.new) }
    ensures marks { MarksTell c.order (c.place + 1) result.1.column result.1.stamp mark.new }
{
    let base = taken.base;
    if neighbours.is_empty() && has_only_child(k, columns.link) && !tells(marked, base) {
        return (0, marked);
    }
    let stamp = mark_base(k, base, &columns.rows[taken.from..taken.to], marked, mark);
    let count = gather_children(k, base.unwrap_or(k), stamp, columns, mark, fresh);
    let count = gather_places(neighbours, stamp, count, mark, fresh);
    fresh[..count].sort_unstable();
    let column = Some(k);
    (count, Marked { column, stamp })
}

/// Plans column `k`: lists its new rows, rising, in `fresh`.
pub fn plan_column<N: Index>(
    k: usize,
    neighbours: &[usize],
    marked: Marked,
    columns: Columns<'_, N>,
    mark: &mut [usize],
    fresh: &mut [usize],
) -> Plan
    ghost o: { Order }
    requires place { CanPlan o k neighbours.now marked mark.old fresh.old }
    requires columns { AreColumns N.value o k columns }
    ensures count { result.count ≤ length fresh.new }
    ensures plans { Plans o k (naturals (map N.value columns.entry.rows.now)) result.from result.to
        (take result.count fresh.new) }
    ensures marks { MarksTell o (k + 1) result.marked.column result.marked.stamp mark.new }
{
    let base = greatest_child(k, columns.link, columns.starts, columns.ends);
    let (from, to) = inherited(base, columns.starts, columns.ends);
    let taken = Taken { base, from, to };
    let (count, marked) = new_rows(k, taken, neighbours, marked, columns, mark, fresh);
    Plan {
        from,
        to,
        count,
        marked,
    }
}

/// Plans column `k` as `plan_column`, where the columns before it stand one behind the other.
pub fn plan_behind<N: Index>(
    k: usize,
    neighbours: &[usize],
    marked: Marked,
    lists: &ColumnLists<'_>,
    rows: &[N],
    mark: &mut [usize],
    fresh: &mut [usize],
) -> Plan
    ghost o: { Order }
    requires place { CanPlan o k neighbours.now marked mark.old fresh.old }
    requires columns { AreColumnsBehind N.value o k lists.now.ptr.now rows.now lists.now.link.now }
    ensures count { result.count ≤ length fresh.new }
    ensures plans { Plans o k (naturals (map N.value rows.now)) result.from result.to (take result.count fresh.new) }
    ensures marks { MarksTell o (k + 1) result.marked.column result.marked.stamp mark.new }
{
    let columns = Columns {
        starts: lists.ptr,
        ends: &lists.ptr[1..],
        rows,
        link: lists.link,
    };
    plan_column(k, neighbours, marked, columns, mark, fresh)
}

/// Closes column `k`, whose entries end before place `end`: its pointer, its parent, and its link as a child.
fn close_column<N: Index>(
    k: usize,
    end: usize,
    ptr: &mut [usize],
    rows: &[N],
    parent: &mut [Option<usize>],
    link: &mut [Option<usize>],
)
    ghost o: { Order }
    requires { CanClose N.value o k end ptr.old rows.now parent.old link.old }
    ensures columns { HoldBefore o (k + 1) ptr.new (naturals (map N.value rows.now)) }
    ensures parents { TellFirst o (k + 1) ptr.new (naturals (map N.value rows.now)) parent.new }
    ensures links { LinkChildren o (k + 1) link.new }
    ensures end { slice_index ptr.new (k + 1) ≡ end }
{
    let begin = ptr[k];
    ptr[k + 1] = end;
    if begin == end {
        parent[k] = None;
        return;
    }
    let first = place_at(rows, begin);
    parent[k] = Some(first);
    link_child(k, first, link);
}

/// Writes column `k`, as it is planned, behind those before it and up to the end of `rows`, and closes it. Its new rows
/// are `fresh`.
pub fn finish_column<N: Index>(
    k: usize,
    plan: Plan,
    fresh: &[usize],
    ptr: &mut [usize],
    rows: &mut [N],
    parent: &mut [Option<usize>],
    link: &mut [Option<usize>],
)
    ghost o: { Order }
    requires fits { (j : ℕ) → j < length o.rows → N.fits (pos j) }
    requires planned { CanFinish N.value o k plan fresh.now ptr.old rows.old parent.old link.old }
    ensures numbers { AreNonNegative (map N.value rows.new) }
    ensures columns { HoldBefore o (k + 1) ptr.new (naturals (map N.value rows.new)) }
    ensures parents { TellFirst o (k + 1) ptr.new (naturals (map N.value rows.new)) parent.new }
    ensures links { LinkChildren o (k + 1) link.new }
    ensures end { slice_index ptr.new (k + 1) ≡ length rows.new }
{
    let (done, free) = rows.split_at_mut(ptr[k]);
    write_merged(&done[plan.from..plan.to], fresh, free);
    close_column(k, rows.len(), ptr, rows, parent, link);
}
