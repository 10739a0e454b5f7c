// What is counted of the columns of a factor: the number of entries of each, the parents, and the figures of the AMD
// user guide, summed over the columns. Source: Liu 1986 and 1990; AMD user guide (the figures of `Info`).

ghost use Rattle.std.specs.Prelude.{◌≡◌, ◌≤◌, ◌+◌, ◌*◌, ◌/◌, [], length, map, max, List, ℕ, IfOk, MatchOption};
ghost use Rattle.amd_model.specs.Graph.{IsGraph};
ghost use Rattle.amd_factor.specs.Neighbours.{HasEarlier};
ghost use Rattle.amd_factor.specs.Orders.{Order};
ghost use Rattle.amd_factor.specs.Counted.{IsCutNeed, SumUp, TellCounts, wide_cut};
ghost use Rattle.amd_factor.specs.Sizes.{HoldSizes};
ghost use Rattle.amd_factor.specs.Thinning.{HasThinned, Thins};
ghost use Rattle.amd_factor.specs.Walks.{TellParents};

use crate::needs::Need;
use crate::neighbours::turned_lists;
use crate::sizes::count_by_tree;
use crate::thinning::thin_lists;
use crate::tree::elimination_tree;
use std::alloc::{AllocError, Allocator};

/// How many entries the columns of a factor have below its diagonal, and what the factor needs.
///
/// A place is that of a row in the order, from 0 on. In the fields, `n` is the number of columns.
#[derive(Drop)]
pub struct Counts<A: Allocator> {
    /// The number of entries of each of the `n` columns.
    pub sizes: Vec<usize, A>,
    /// The parent of each of the `n` columns in the elimination tree: the place of its first entry, or `None` where it
    /// has none.
    pub parent: Vec<Option<usize>, A>,
    /// What the factor needs: exact sums over its columns, each cut at `u128::MAX`.
    pub need: Need,
}

/// What a factor with one column more needs.
fn with_size(need: Need, size: usize) -> Need
    ensures lnz { result.lnz ≡ wide_cut (need.lnz + size) }
    ensures ldl { result.n_mult_subs_ldl ≡ wide_cut (need.n_mult_subs_ldl + size * (size + 1) / 2) }
    ensures lu { result.n_mult_subs_lu ≡ wide_cut (need.n_mult_subs_lu + size * size) }
    ensures greatest { result.d_max ≡ max need.d_max (size + 1) }
{
    let size = size as u128;
    Need {
        lnz: need.lnz.saturating_add(size),
        n_mult_subs_ldl: need.n_mult_subs_ldl.saturating_add(size * (size + 1) / 2),
        n_mult_subs_lu: need.n_mult_subs_lu.saturating_add(size * size),
        d_max: need.d_max.max(size + 1),
    }
}

/// What a factor needs, by how many entries each of its columns has, where 64 bits may not tell how many there are.
fn wide_need(sizes: &[usize]) -> Need
    ensures { (columns : List (List ℕ)) → sizes.now ≡ map length columns → IsCutNeed columns result }
{
    let mut need = Need {
        lnz: 0,
        n_mult_subs_ldl: 0,
        n_mult_subs_lu: 0,
        d_max: 0,
    };
    'columns: for &size in sizes {
        need = with_size(need, size);
    }
    need
}

/// Sums over the columns of a factor. That of the entries has 64 bits, so that of their squares does not pass 128.
#[derive(Clone, Copy)]
struct Sums {
    /// Of their entries, and of the squares of these.
    entries: usize,
    squares: u128,
    /// The entries of the largest column, with that on the diagonal; 0 where there are no columns.
    greatest: usize,
}

/// The sums with one column more; none where there are more entries than 64 bits tell.
fn next_sums(sums: Sums, size: usize) -> Option<Sums>
    requires { sums.squares ≤ sums.entries * sums.entries }
    ensures { MatchOption result (Unit {0}) (λ next. (next.entries ≡ sums.entries + size) ×
        (next.squares ≡ sums.squares + size * size) × (next.greatest ≡ max sums.greatest (size + 1))) }
{
    let entries = sums.entries.checked_add(size)?;
    let greatest = sums.greatest.max(size.checked_add(1)?);
    let size = size as u128;
    Some(Sums {
        entries,
        squares: sums.squares + size * size,
        greatest,
    })
}

/// The sums over all columns, by how many entries each has; none where there are more than 64 bits tell.
fn sums_of(sizes: &[usize]) -> Option<Sums>
    ensures sums { MatchOption result (Unit {0}) (λ sums. (columns : List (List ℕ)) → sizes.now ≡ map length columns →
        SumUp columns sums) }
    ensures few { MatchOption result (Unit {0}) (λ sums. sums.squares ≤ sums.entries * sums.entries) }
{
    let mut sums = Sums {
        entries: 0,
        squares: 0,
        greatest: 0,
    };
    'columns: for &size in sizes {
        sums = next_sums(sums, size)?;
    }
    Some(sums)
}

/// What a factor needs by these sums: a column of `s` entries takes `s * (s + 1) / 2` steps of a factorization `LDL'`,
/// half of `s * s + s`.
fn need_of_sums(sums: Sums) -> Need
    requires { sums.squares ≤ sums.entries * sums.entries }
    ensures { (columns : List (List ℕ)) → SumUp columns sums → IsCutNeed columns result }
{
    let entries = sums.entries as u128;
    Need {
        lnz: entries,
        n_mult_subs_ldl: (sums.squares + entries) / 2,
        n_mult_subs_lu: sums.squares,
        d_max: sums.greatest as u128,
    }
}

/// What a factor needs, by how many entries each of its columns has. Each sum is cut at `u128::MAX`; none reaches that
/// where there are fewer than `2^42` columns.
///
/// Source: AMD user guide (the figures of `Info`).
pub fn need_of_sizes(sizes: &[usize]) -> Need
    ensures { (columns : List (List ℕ)) → sizes.now ≡ map length columns → IsCutNeed columns result }
{
    match sums_of(sizes) {
        Some(sums) => need_of_sums(sums),
        None => wide_need(sizes),
    }
}

/// The counts of a matrix without rows.
pub fn empty_counts<A: Allocator + Copy>(alloc: A) -> Counts<A>
    ensures sizes { result.sizes.items ≡ [] }
    ensures parents { result.parent.items ≡ [] }
    ensures needs { IsCutNeed [] result.need }
{
    let sizes = Vec::new(alloc);
    let need = need_of_sizes(&sizes);
    Counts {
        sizes,
        parent: Vec::new(alloc),
        need,
    }
}

/// How many entries the columns of a factor have, and the parents.
#[derive(Drop)]
pub struct Sized<A: Allocator> {
    pub sizes: Vec<usize, A>,
    pub parent: Vec<Option<usize>, A>,
}

/// How many numbers the work of a count takes, where that is a number of 64 bits.
fn work_words(columns: usize) -> Option<usize>
    ensures { MatchOption result (Unit {0}) (λ words. words ≡ 8 * columns + 5) }
{
    columns.checked_mul(8)?.checked_add(5)
}

/// The number of entries of each column, by lists of earlier neighbours and the parents. `work` is for the work alone.
///
/// # Errors
///
/// A refused request for memory.
fn tree_sizes<A: Allocator + Copy>(
    alloc: A,
    starts: &[usize],
    earlier: &[usize],
    parent: &[Option<usize>],
    work: &mut [usize],
) -> Result<Vec<usize, A>, AllocError>
    ghost at: { Order × Order }
    requires laws { IsGraph at.0.graph }
    requires thins { Thins at.0 at.1 }
    requires earlier { HasEarlier at.1 starts.now earlier.now }
    requires parents { TellParents at.0 (length at.0.rows) parent.now }
    requires work { length work.old ≡ 8 * length at.0.rows + 5 }
    ensures { IfOk result (λ sizes. HoldSizes at.0.graph at.0.rows sizes.items parent.now) }
{
    let later = turned_lists(alloc, starts, earlier)?;
    let mut sizes = vec![in alloc; 0; parent.len()]?;
    count_by_tree(&later.starts, &later.neighbours, parent, &mut sizes, work);
    Ok(sizes)
}

/// Takes all memory, and counts by the lists of earlier neighbours, which are thinned out first. They stay so.
///
/// # Errors
///
/// A refused request for memory.
pub fn thinned_sizes<A: Allocator + Copy>(
    alloc: A,
    starts: &mut [usize],
    earlier: &mut [usize],
) -> Result<Sized<A>, AllocError>
    ghost o: { Order }
    requires laws { IsGraph o.graph }
    requires earlier { HasEarlier o starts.old earlier.old }
    ensures sizes { IfOk result (λ c. HoldSizes o.graph o.rows c.sizes.items c.parent.items) }
    ensures lists { IfOk result (λ c. HasThinned o starts.new earlier.new) }
{
    let columns = starts.len() - 1;
    let mut parent = vec![in alloc; None; columns]?;
    let Some(words) = work_words(columns) else {
        return Err(AllocError);
    };
    let mut work = vec![in alloc; 0; words]?;
    elimination_tree(starts, earlier, &mut parent, &mut work[..columns]);
    thin_lists(starts, earlier, &parent, &mut work[..columns]);
    let sizes = tree_sizes(alloc, starts, earlier, &parent, &mut work)?;
    Ok(Sized { sizes, parent })
}

/// Takes all memory, counts by the lists of earlier neighbours, which are thinned out, and sums up what a factor needs.
///
/// # Errors
///
/// A refused request for memory.
pub fn written_counts<A: Allocator + Copy>(
    alloc: A,
    starts: &mut [usize],
    earlier: &mut [usize],
) -> Result<Counts<A>, AllocError>
    ghost o: { Order }
    requires laws { IsGraph o.graph }
    requires earlier { HasEarlier o starts.old earlier.old }
    ensures { IfOk result (λ c. TellCounts o.graph o.rows c.sizes.items c.parent.items c.need) }
{
    let sized = thinned_sizes(alloc, starts, earlier)?;
    let need = need_of_sizes(&sized.sizes);
    Ok(Counts {
        sizes: sized.sizes,
        parent: sized.parent,
        need,
    })
}
