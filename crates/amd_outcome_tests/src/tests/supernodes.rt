// The columns by supernodes: on worked matrices, with each request refused in turn, and where the input or the order is
// none. And whether supernodes are those of columns that searches for paths find.

use crate::tests::orders::no_orders;
use crate::tests::refusals::no_forms;
use crate::tests::worked::{FactorCase, four_cycle, worked};
use amd_symbolic::{Fault, Supernodes, supernodes};
use amd_testing::check;
use amd_testing::refusing::{Refusing, each_refused};
use std::alloc::{AllocError, Allocator, Global};
use std::process::Abort;

/// Whether the first entry of column `k` is the next place, and it has one entry more than the next column.
fn joins<A: Allocator>(columns: &[Vec<usize, A>], k: usize) -> bool {
    let next = k.saturating_add(1);
    match (columns.get(k), columns.get(next)) {
        (Some(here), Some(there)) => {
            here.first() == Some(&next) && here.len() == there.len().saturating_add(1)
        }
        _ => false,
    }
}

/// Whether a column has the places behind `k` that are before `end`, and then these rows.
fn is_column(column: &[usize], k: usize, end: usize, rows: &[usize]) -> bool {
    let mut at = 0usize;
    for place in k.saturating_add(1)..end {
        if column.get(at) != Some(&place) {
            return false;
        }
        at = at.saturating_add(1);
    }
    for row in rows {
        if column.get(at) != Some(row) {
            return false;
        }
        at = at.saturating_add(1);
    }
    column.len() == at
}

/// The rows of supernode `s`; none where there are no pointers for it.
fn rows_of<A: Allocator>(made: &Supernodes<A>, s: usize) -> Option<&[usize]> {
    let from = *made.ptr.get(s)?;
    let to = *made.ptr.get(s.saturating_add(1))?;
    if from <= to && to <= made.rows.len() {
        return Some(&made.rows[from..to]);
    }
    None
}

/// Whether the parent of supernode `s` is that in which its first row lies.
fn has_parent<A: Allocator>(made: &Supernodes<A>, s: usize, rows: &[usize]) -> bool {
    match (rows.first(), made.parent.get(s)) {
        (None, Some(None)) => true,
        (Some(row), Some(Some(q))) => {
            match (made.first.get(*q), made.first.get(q.saturating_add(1))) {
                (Some(begin), Some(end)) => begin <= row && row < end,
                _ => false,
            }
        }
        _ => false,
    }
}

/// Whether supernodes are those of these columns.
pub fn are_supernodes<A: Allocator, B: Allocator>(
    made: &Supernodes<A>,
    columns: &[Vec<usize, B>],
) -> bool {
    let mut s = 0usize;
    for (k, column) in columns.iter().enumerate() {
        let Some(rows) = rows_of(made, s) else {
            return false;
        };
        let Some(&end) = made.first.get(s.saturating_add(1)) else {
            return false;
        };
        let is_last = k.saturating_add(1) == end;
        if !is_column(column, k, end, rows) || joins(columns, k) == is_last {
            return false;
        }
        if is_last {
            if !has_parent(made, s, rows) {
                return false;
            }
            s = s.saturating_add(1);
        }
    }
    made.first.first() == Some(&0)
        && made.ptr.first() == Some(&0)
        && made.first.len() == s.saturating_add(1)
        && made.ptr.len() == s.saturating_add(1)
        && made.parent.len() == s
        && made.first.last() == Some(&columns.len())
        && made.ptr.last() == Some(&made.rows.len())
}

/// Whether supernodes are those of the columns of a case.
fn are_those_of<A: Allocator>(
    alloc: Global,
    made: &Supernodes<A>,
    case: &FactorCase,
) -> Result<bool, AllocError> {
    let mut columns = Vec::new(alloc);
    for (k, &from) in case.ptr.iter().enumerate() {
        let Some(&to) = case.ptr.get(k.saturating_add(1)) else {
            break;
        };
        if from <= to && to <= case.rows.len() {
            columns.push(case.rows[from..to].to_vec(alloc)?)?;
        }
    }
    Ok(are_supernodes(made, &columns))
}

/// Asks for the supernodes of a case, and says whether there was an answer.
fn asks(rt: &impl Abort, alloc: Global, heap: &Refusing<Global>, case: &FactorCase) -> bool {
    match supernodes(heap, case.n, case.a_p, case.a_i, case.p) {
        Ok(made) => {
            check!(rt; are_those_of(alloc, &made, case) == Ok(true), case.what);
            true
        }
        Err(fault) => {
            check!(rt; fault == Fault::OutOfMemory);
            false
        }
    }
}

#[test]
fn each_request_of_supernodes(rt: HostRuntime) {
    for case in worked() {
        match each_refused(rt.alloc(), |heap| asks(&rt, rt.alloc(), heap, case)) {
            Ok(count) => check!(&rt; 0 < count, case.what),
            Err(_) => panic!(&rt; "{}", case.what),
        }
    }
}

/// Inputs that are no column form make no request, and neither do no rows.
#[test]
fn inputs_that_have_no_supernodes(rt: HostRuntime) {
    let heap = Refusing::new(rt.alloc(), 1);
    for &(n, a_p, a_i) in no_forms() {
        let fault = supernodes(&heap, n, a_p, a_i, &[0, 1]).err();
        check!(&rt; fault == Some(Fault::NotColumnForm));
    }
    let fault = supernodes(&heap, 0i64, &[], &[], &[0]).err();
    check!(&rt; fault == Some(Fault::NotPermutation));
    check!(&rt; heap.requests() == 0);
}

/// Orders that do not list each row once are told as such.
#[test]
fn orders_that_have_no_supernodes(rt: HostRuntime) {
    let case = four_cycle();
    for &p in no_orders() {
        let fault = supernodes(rt.alloc(), case.n, case.a_p, case.a_i, p).err();
        check!(&rt; fault == Some(Fault::NotPermutation));
    }
}
