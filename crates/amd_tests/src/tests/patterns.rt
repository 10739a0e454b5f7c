// Families of graphs of several sizes and matrices drawn from seeds, each with every choice of a caller: no figure is
// below what the factor needs, nothing fills in where the graph is a forest without dense rows, and with nothing held
// the answer is the same. For cycles and for complete graphs the bound on the entries is known, and compared.

use crate::checks::check_chosen;
use crate::tests::comparison::is_ordered;
use crate::tests::factors::{check_bounds, check_forest};
use crate::tests::holding::check_nothing_held;
use amd::{Control, Info, order};
use amd_testing::choices::CHOICES;
use amd_testing::factors::SearchedFactor;
use amd_testing::families::{Family, each_member};
use amd_testing::inputs::complete_below;
use amd_testing::records::numbers_of;
use amd_testing::{check, plain};
use std::alloc::{AllocError, AllocFailed, Global};
use std::process::Abort;
use std::test::Fail;

/// Orders a matrix, and asserts that the two lists are inverse permutations with the dense rows last, and that the
/// figures bound what the factor needs. Returns the factor and the record.
fn check_choice(
    rt: &impl Abort,
    alloc: Global,
    n: i64,
    a_p: &[i64],
    a_i: &[i64],
    control: &Control,
) -> Result<(SearchedFactor, Info), AllocError> {
    let Ok((p, p_inv, info)) = order(alloc, n, a_p, a_i, control) else {
        panic!(rt; "no answer");
    };
    let size = usize::try_from(n).unwrap_or(0);
    let dense = plain::dense_rows(alloc, control.dense, size, a_p, a_i)?;
    let holds = is_ordered(size, &dense, info.n_dense, &p, &p_inv);
    check_chosen(rt, holds, control, a_p, a_i);
    check_nothing_held(rt, alloc, n, a_p, a_i, control)?;
    let factor = check_bounds(rt, alloc, a_p, a_i, &p, &info)?;
    Ok((factor, info))
}

/// The bound on the entries of a factor that is known for a family. A cycle of `n` rows has `2 n - 3` entries in its
/// factor: each of the first `n - 2` columns has two, and the next one has one. A complete graph has all
/// `n (n - 1) / 2` entries below the diagonal, also where all its rows are dense.
fn entries_of(family: Family, n: i64) -> Option<i64> {
    match family {
        Family::Cycle => Some(n.saturating_mul(2).saturating_sub(3)),
        Family::CompleteBelow => Some(n.saturating_mul(n.saturating_sub(1)) / 2),
        _ => None,
    }
}

/// Whether the graphs of a family are forests.
fn are_forests(family: Family) -> bool {
    matches!(
        family,
        Family::Empty | Family::Path | Family::Star | Family::StarToLast
    )
}

/// Asserts that a record bounds the entries of the factor by exactly what is known for the family, and that nothing
/// fills in where the graph is a forest without dense rows.
fn check_known(rt: &impl Abort, family: Family, n: i64, factor: &SearchedFactor, info: &Info) {
    if let Some(entries) = entries_of(family, n) {
        check!(rt; info.lnz == usize::try_from(entries).unwrap_or(0));
    }
    if are_forests(family) && info.n_dense == 0 {
        check_forest(rt, factor, info);
    }
}

/// Orders a matrix of a family with each choice.
fn check_choices(
    rt: &impl Abort,
    alloc: Global,
    family: Family,
    n: i64,
    a_p: &[i64],
    a_i: &[i64],
) -> Result<(), AllocError> {
    for control in &CHOICES {
        let (factor, info) = check_choice(rt, alloc, n, a_p, a_i, control)?;
        check_known(rt, family, n, &factor, &info);
    }
    Ok(())
}

/// Families of graphs and of drawn matrices, with the first and the last of their sizes or seeds.
static FAMILIES: [(Family, i64, i64); 9] = [
    (Family::Empty, 255, 255),
    (Family::Path, 1, 30),
    (Family::Cycle, 3, 40),
    (Family::Star, 2, 20),
    (Family::StarToLast, 2, 20),
    (Family::CompleteBelow, 1, 20),
    (Family::Grid, 1, 12),
    (Family::Drawn, 1, 64),
    (Family::DrawnWithHub, 1, 64),
];

#[test]
fn orderings_of_families(rt: HostRuntime) -> Result<(), Fail> {
    let alloc = rt.alloc();
    for &(family, first, last) in &FAMILIES {
        each_member(alloc, family, first, last, |n, a_p, a_i| {
            check_choices(&rt, alloc, family, n, a_p, a_i)
        })?;
    }
    Ok(())
}

/// A complete graph with more entries than 16 bits count. One step eliminates all rows, and the figures are sums over
/// columns of 0 to 362 entries.
#[test]
fn a_complete_graph_with_many_entries(rt: HostRuntime) -> Result<(), Fail> {
    let heap = rt.alloc();
    let (a_p, a_i) = complete_below(heap, 363)?;
    let control = Control {
        dense: i32::MAX,
        aggressive: true,
    };
    let Ok((p, _, info)) = order(heap, 363, &a_p, &a_i, &control) else {
        panic!(rt; "no answer");
    };
    for place in 0..363 {
        check!(&rt; plain::count_at(&p, place) == place);
    }
    let numbers = [
        363, 65703, 0, 131406, 0, 0, 65703, 65703, 7971964, 15878225, 363,
    ];
    check!(&rt; numbers_of(&info) == numbers);
    Ok(())
}

/// Adds the rows after `j` of its complete graph: those of `n` rows whose numbers differ by a multiple of `count`.
fn push_joined(n: i64, count: i64, j: i64, a_i: &mut Vec<i64>) -> Result<(), AllocFailed<i64>> {
    let apart = count.max(1);
    for k in 0..n / apart {
        let i = k.saturating_mul(apart).saturating_add(j % apart);
        if i > j {
            a_i.push(i)?;
        }
    }
    Ok(())
}

/// The entries below the diagonal of `count` complete graphs, whose rows are as far apart as they can be.
fn complete_graphs(alloc: Global, n: i64, count: i64) -> Result<(Vec<i64>, Vec<i64>), AllocError> {
    let mut a_p = Vec::new(alloc);
    let mut a_i = Vec::new(alloc);
    a_p.push(0)?;
    for j in 0..n {
        push_joined(n, count, j, &mut a_i)?;
        a_p.push(i64::try_from(a_i.len()).unwrap_or(i64::MAX))?;
    }
    Ok((a_p, a_i))
}

/// A workspace of more than a million words, and rows of each column that are far apart: their lists are written band
/// by band. Each graph of 44 rows is eliminated at once, the graphs and the rows of each in their order.
#[test]
fn complete_graphs_far_apart(rt: HostRuntime) -> Result<(), Fail> {
    let heap = rt.alloc();
    let (a_p, a_i) = complete_graphs(heap, 22000, 500)?;
    let Ok((p, _, info)) = order(heap, 22000, &a_p, &a_i, &Control::default()) else {
        panic!(rt; "no answer");
    };
    for place in 0..22000 {
        check!(&rt; plain::count_at(&p, place) == place / 44 + place % 44 * 500);
    }
    let numbers = [
        22000, 473000, 0, 946000, 0, 0, 473000, 473000, 7095000, 13717000, 44,
    ];
    check!(&rt; numbers_of(&info) == numbers);
    Ok(())
}
