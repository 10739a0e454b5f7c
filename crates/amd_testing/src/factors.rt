// The factor of a matrix whose rows stand in a given order, as the path theorem says it, found slowly: from each row a
// search through the rows before it alone. No elimination occurs. Rows are named by their places.

use crate::plain::{count_at, is_edge};
use std::alloc::{AllocError, AllocFailed, Global};

/// The pattern of a factor.
#[derive(Drop)]
pub struct SearchedFactor {
    /// For each place the places of the rows that an edge joins with its row, rising.
    pub edges: Vec<Vec<usize>>,
    /// For each place the entries of its column, without the diagonal, rising.
    pub columns: Vec<Vec<usize>>,
}

/// What a factor needs: the sums of `c`, of `c (c + 1) / 2` and of `c^2` over the sizes `c` of its columns, and the
/// size of the largest column with its diagonal, 0 where there is no column.
#[derive(Clone, Copy, PartialEq, Drop)]
pub struct SearchedNeed {
    /// The entries, and the divisions.
    pub lnz: usize,
    /// The products and differences of a factorization `LDL'`.
    pub n_mult_subs_ldl: usize,
    /// The products and differences of a factorization `LU`.
    pub n_mult_subs_lu: usize,
    /// The entries of the largest column, that on the diagonal among them.
    pub d_max: usize,
}

/// The places of the rows that an edge joins with the row at place `k`, rising.
fn edges_of(
    alloc: Global,
    a_p: &[i64],
    a_i: &[i64],
    p: &[i64],
    k: usize,
) -> Result<Vec<usize>, AllocFailed<usize>> {
    let mut places = Vec::new(alloc);
    for j in 0..p.len() {
        if is_edge(a_p, a_i, count_at(p, k), count_at(p, j)) {
            places.push(j)?;
        }
    }
    Ok(places)
}

/// For each place the places of the rows that an edge joins with its row, rising.
fn edges_by_place(
    alloc: Global,
    a_p: &[i64],
    a_i: &[i64],
    p: &[i64],
) -> Result<Vec<Vec<usize>>, AllocError> {
    let mut edges = Vec::new(alloc);
    for k in 0..p.len() {
        let places = edges_of(alloc, a_p, a_i, p, k)?;
        edges.push(places)?;
    }
    Ok(edges)
}

/// Marks places as reached. The search goes on through those of them that come before place `k`, each once.
fn reach(
    places: &[usize],
    k: usize,
    reached: &mut [bool],
    through: &mut Vec<usize>,
) -> Result<(), AllocFailed<usize>> {
    for &place in places {
        let Some(is_reached) = reached.get_mut(place) else {
            continue;
        };
        if !*is_reached && place < k {
            through.push(place)?;
        }
        *is_reached = true;
    }
    Ok(())
}

/// For each place whether a path of edges leads to it from place `k`, all of whose inner places come before `k`.
fn reached_from(alloc: Global, edges: &[Vec<usize>], k: usize) -> Result<Vec<bool>, AllocError> {
    let mut reached = vec![in alloc; false; edges.len()]?;
    let mut through = Vec::new(alloc);
    through.push(k)?;
    for step in 0..edges.len() {
        let Some(&place) = through.get(step) else {
            break;
        };
        if let Some(places) = edges.get(place) {
            reach(places, k, &mut reached, &mut through)?;
        }
    }
    Ok(reached)
}

/// The column of place `k`: the places after it that are reached through places before it, rising.
fn column_of(alloc: Global, edges: &[Vec<usize>], k: usize) -> Result<Vec<usize>, AllocError> {
    let reached = reached_from(alloc, edges, k)?;
    let mut column = Vec::new(alloc);
    for (place, &is_reached) in reached.iter().enumerate() {
        if k < place && is_reached {
            column.push(place)?;
        }
    }
    Ok(column)
}

/// The factor of a matrix whose row `p[k]` stands at place `k`.
pub fn factor_of(
    alloc: Global,
    a_p: &[i64],
    a_i: &[i64],
    p: &[i64],
) -> Result<SearchedFactor, AllocError> {
    let edges = edges_by_place(alloc, a_p, a_i, p)?;
    let mut columns = Vec::new(alloc);
    for k in 0..p.len() {
        let column = column_of(alloc, &edges, k)?;
        columns.push(column)?;
    }
    Ok(SearchedFactor { edges, columns })
}

/// What a factor with these columns needs.
pub fn need_of(columns: &[Vec<usize>]) -> SearchedNeed {
    let mut need = SearchedNeed {
        lnz: 0,
        n_mult_subs_ldl: 0,
        n_mult_subs_lu: 0,
        d_max: 0,
    };
    for column in columns {
        let size = column.len();
        let with_diagonal = size.saturating_add(1);
        let pairs = size.saturating_mul(with_diagonal) / 2;
        let squares = size.saturating_mul(size);
        need.lnz = need.lnz.saturating_add(size);
        need.n_mult_subs_ldl = need.n_mult_subs_ldl.saturating_add(pairs);
        need.n_mult_subs_lu = need.n_mult_subs_lu.saturating_add(squares);
        need.d_max = need.d_max.max(with_diagonal);
    }
    need
}

/// Whether each of the places is among the others.
fn are_among(places: &[usize], others: &[usize]) -> bool {
    for place in places {
        if !others.contains(place) {
            return false;
        }
    }
    true
}

/// Whether each entry of a factor is an edge, so that nothing fills in.
pub fn fills_nothing(factor: &SearchedFactor) -> bool {
    for (column, places) in factor.columns.iter().zip(&factor.edges) {
        if !are_among(column, places) {
            return false;
        }
    }
    true
}
