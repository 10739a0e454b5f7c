// Families of graphs of several sizes, and matrices drawn from seeds: the factor of an analysis with each choice of a
// caller, and under orders by other rules the columns, their counts and their supernodes, each beside the factor that
// searches for paths find, which is slow. No room is smaller than that, and no figure of the ordering is below what it
// needs.

use crate::checks::{check_chosen, check_matrix, check_under};
use crate::tests::counts::are_counts;
use crate::tests::orders::other_orders;
use crate::tests::supernodes::are_supernodes;
use amd::{Control, Info};
use amd_symbolic::{
    Factor, Fault, analyze, analyze_counts, columns, columns_into, counts, supernodes,
};
use amd_testing::check;
use amd_testing::choices::CHOICES;
use amd_testing::factors::{SearchedFactor, SearchedNeed, factor_of, need_of};
use amd_testing::families::{Family, each_member};
use std::alloc::{AllocError, Global};
use std::process::Abort;
use std::test::Fail;

/// Whether a factor is the slow one: its columns, where they begin, and their first entries.
fn is_same(factor: &Factor<Global>, slow: &SearchedFactor) -> bool {
    let count = slow.columns.len();
    if factor.ptr.len() != count.saturating_add(1) || factor.parent.len() != count {
        return false;
    }
    let mut end = 0usize;
    for (k, column) in slow.columns.iter().enumerate() {
        let begin = end;
        end = end.saturating_add(column.len());
        if factor.ptr.get(k) != Some(&begin)
            || factor.rows.get(begin..end) != Some(column.as_slice())
            || factor.parent.get(k) != Some(&column.first().copied())
        {
            return false;
        }
    }
    factor.ptr.last() == Some(&end) && factor.rows.len() == end
}

/// What stands in numbers before columns are written into them.
pub const UNTOUCHED: i64 = -5;

/// Whether rows were written into numbers, and what stands behind them stayed.
pub fn are_written(numbers: &[i64], rows: &[usize]) -> bool {
    for (k, &number) in numbers.iter().enumerate() {
        let wanted = match rows.get(k) {
            Some(&row) => i64::try_from(row).unwrap_or(UNTOUCHED),
            None => UNTOUCHED,
        };
        if number != wanted {
            return false;
        }
    }
    rows.len() <= numbers.len()
}

/// Asserts that the columns written into numbers under an order are those of a factor; and that there is no room for
/// them where there is no number.
fn check_into(
    rt: &impl Abort,
    alloc: Global,
    n: i64,
    a_p: &[i64],
    a_i: &[i64],
    p: &[i64],
    factor: &Factor<Global>,
) -> Result<(), AllocError> {
    let mut rows = vec![in alloc; UNTOUCHED; factor.rows.len().saturating_add(1)]?;
    let Ok(frame) = columns_into(alloc, n, a_p, a_i, p, &mut rows) else {
        panic!(rt; "no columns");
    };
    let is_frame = frame.ptr.as_slice() == factor.ptr.as_slice()
        && frame.parent.as_slice() == factor.parent.as_slice();
    check_under(
        rt,
        is_frame && are_written(&rows, &factor.rows),
        p,
        a_p,
        a_i,
    );
    let fault = columns_into(alloc, n, a_p, a_i, p, &mut []).err();
    check!(rt; fault.is_none() == factor.rows.is_empty());
    Ok(())
}

/// Asserts that the columns under an order are the slow ones, in exactly the room that they need, and that with one
/// place less there is no room.
fn check_columns(
    rt: &impl Abort,
    alloc: Global,
    n: i64,
    a_p: &[i64],
    a_i: &[i64],
    p: &[i64],
    slow: &SearchedFactor,
) -> Result<(), AllocError> {
    let room = need_of(&slow.columns).lnz;
    let Ok(factor) = columns(alloc, n, a_p, a_i, p, room) else {
        panic!(rt; "no factor");
    };
    check_under(rt, is_same(&factor, slow), p, a_p, a_i);
    if 0 < room {
        let fault = columns(alloc, n, a_p, a_i, p, room - 1).err();
        check!(rt; fault == Some(Fault::RoomTooSmall));
    }
    check_into(rt, alloc, n, a_p, a_i, p, &factor)
}

/// Asserts that the counts under an order are those of the slow factor.
fn check_counted(
    rt: &impl Abort,
    alloc: Global,
    n: i64,
    a_p: &[i64],
    a_i: &[i64],
    p: &[i64],
    slow: &SearchedFactor,
) {
    let Ok(counted) = counts(alloc, n, a_p, a_i, p) else {
        panic!(rt; "no counts");
    };
    check_under(rt, are_counts(&counted, slow), p, a_p, a_i);
}

/// Asserts that the supernodes under an order are those of the slow factor.
fn check_supernodes(
    rt: &impl Abort,
    alloc: Global,
    n: i64,
    a_p: &[i64],
    a_i: &[i64],
    p: &[i64],
    slow: &SearchedFactor,
) {
    let Ok(made) = supernodes(alloc, n, a_p, a_i, p) else {
        panic!(rt; "no supernodes");
    };
    check_under(rt, are_supernodes(&made, &slow.columns), p, a_p, a_i);
}

/// Asserts that under an order the columns, the counts and the supernodes are those of the slow factor.
fn check_order(
    rt: &impl Abort,
    alloc: Global,
    n: i64,
    a_p: &[i64],
    a_i: &[i64],
    p: &[i64],
) -> Result<(), AllocError> {
    let slow = factor_of(alloc, a_p, a_i, p)?;
    check_columns(rt, alloc, n, a_p, a_i, p, &slow)?;
    check_counted(rt, alloc, n, a_p, a_i, p, &slow);
    check_supernodes(rt, alloc, n, a_p, a_i, p, &slow);
    Ok(())
}

/// Whether no figure of a record is below what the factor needs.
fn is_bounded(info: &Info, need: &SearchedNeed) -> bool {
    need.lnz <= info.lnz
        && need.n_mult_subs_ldl <= info.n_mult_subs_ldl
        && need.n_mult_subs_lu <= info.n_mult_subs_lu
        && need.d_max <= info.d_max
}

/// Analyzes a matrix with a choice.
fn check_choice(
    rt: &impl Abort,
    alloc: Global,
    n: i64,
    a_p: &[i64],
    a_i: &[i64],
    control: &Control,
) -> Result<(), AllocError> {
    let Ok((p, _, info, factor)) = analyze(alloc, n, a_p, a_i, control) else {
        panic!(rt; "no answer");
    };
    let slow = factor_of(alloc, a_p, a_i, &p)?;
    let holds = is_bounded(&info, &need_of(&slow.columns)) && is_same(&factor, &slow);
    check_chosen(rt, holds, control, a_p, a_i);
    Ok(())
}

/// Asks for the counts under the order of an ordering, and for all under that order, the rows as they stand, reversed,
/// and as they are drawn.
fn check_orders(
    rt: &impl Abort,
    alloc: Global,
    n: i64,
    a_p: &[i64],
    a_i: &[i64],
) -> Result<(), AllocError> {
    let Ok((p, _, _, counted)) = analyze_counts(alloc, n, a_p, a_i, &Control::default()) else {
        panic!(rt; "no answer");
    };
    check_matrix(
        rt,
        are_counts(&counted, &factor_of(alloc, a_p, a_i, &p)?),
        a_p,
        a_i,
    );
    check_order(rt, alloc, n, a_p, a_i, &p)?;
    for rows in &other_orders(alloc, n, 3)? {
        check_order(rt, alloc, n, a_p, a_i, rows)?;
    }
    Ok(())
}

/// Analyzes a matrix with each choice, and asks for its factor under other orders.
fn check_factors(
    rt: &impl Abort,
    alloc: Global,
    n: i64,
    a_p: &[i64],
    a_i: &[i64],
) -> Result<(), AllocError> {
    for control in &CHOICES {
        check_choice(rt, alloc, n, a_p, a_i, control)?;
    }
    check_orders(rt, alloc, n, a_p, a_i)
}

/// Families of graphs, with the first and the last of their sizes: rows without edges; paths; cycles; stars, of which
/// the first of each two is eliminated from its centre under the rows as they stand; complete graphs by the entries
/// below the diagonal alone, and by both mirrors; and grids.
static GRAPHS: [(Family, i64, i64); 8] = [
    (Family::Empty, 40, 40),
    (Family::Path, 1, 30),
    (Family::Cycle, 3, 40),
    (Family::Star, 2, 20),
    (Family::StarToLast, 2, 20),
    (Family::CompleteBelow, 1, 20),
    (Family::Complete, 1, 20),
    (Family::Grid, 1, 12),
];

#[test]
fn factors_of_families(rt: HostRuntime) -> Result<(), Fail> {
    let alloc = rt.alloc();
    for &(family, first, last) in &GRAPHS {
        each_member(
            alloc,
            family,
            first,
            last,
            |n, a_p, a_i| check_factors(&rt, alloc, n, a_p, a_i),
        )?;
    }
    Ok(())
}

/// Most of these are jumbled, with repeats, and none is symmetric but by chance.
#[test]
fn factors_of_drawn_matrices(rt: HostRuntime) -> Result<(), Fail> {
    let alloc = rt.alloc();
    for family in [Family::Drawn, Family::DrawnWithHub] {
        each_member(
            alloc,
            family,
            1,
            64,
            |n, a_p, a_i| check_factors(&rt, alloc, n, a_p, a_i),
        )?;
    }
    Ok(())
}
