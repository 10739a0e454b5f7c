// Forests for tests, drawn from a seed, and their listing in postorder as it is said: by recursion, with a search for
// the children of each node.

use crate::inputs::draw;
use std::alloc::{AllocError, AllocFailed, Global};

/// Elements with their parents. A place with `nv` above 0 holds an element; the rank of its parent is greater than its
/// own.
#[derive(Drop)]
pub struct Forest {
    /// The parent of each element, -1 where it has none.
    pub parent: Vec<isize>,
    /// Above 0 for an element.
    pub nv: Vec<isize>,
    /// The size of each element.
    pub f_size: Vec<isize>,
    /// The rank of each element.
    pub rank: Vec<usize>,
}

/// A number from -1 on, below `n - 1`.
fn draw_number(state: &mut u64, n: u64) -> isize {
    isize::try_from(draw(state, n))
        .unwrap_or(0)
        .saturating_sub(1)
}

/// The number at a place, -1 where there is none.
fn number_at(numbers: &[isize], place: usize) -> isize {
    match numbers.get(place) {
        Some(&number) => number,
        None => -1,
    }
}

/// The rank at a place, 0 where there is none.
fn rank_at(ranks: &[usize], place: usize) -> usize {
    match ranks.get(place) {
        Some(&rank) => rank,
        None => 0,
    }
}

/// A place that is drawn as the parent of `e`, -1 where it cannot be that.
fn draw_parent(state: &mut u64, n: u64, e: usize, nv: &[isize], rank: &[usize]) -> isize {
    let number = draw_number(state, n.saturating_add(1));
    match usize::try_from(number) {
        Ok(p) if number_at(nv, p) > 0 && rank_at(rank, e) < rank_at(rank, p) => number,
        _ => -1,
    }
}

/// Draws the number, the size and the rank of a place more.
fn push_place(state: &mut u64, forest: &mut Forest) -> Result<(), AllocError> {
    forest.nv.push(draw_number(state, 5))?;
    forest.f_size.push(draw_number(state, 4).max(0))?;
    let rank = usize::try_from(draw(state, 30)).unwrap_or(0);
    forest.rank.push(rank)?;
    Ok(())
}

/// Draws the parent of each place.
fn push_parents(state: &mut u64, n: u64, forest: &mut Forest) -> Result<(), AllocFailed<isize>> {
    for e in 0..forest.nv.len() {
        let first = draw_parent(state, n, e, &forest.nv, &forest.rank);
        let second = draw_parent(state, n, e, &forest.nv, &forest.rank);
        forest.parent.push(first.max(second))?;
    }
    Ok(())
}

/// A forest with up to 12 places, drawn from a seed. Many elements have the same size, and many places hold none.
pub fn drawn_forest(alloc: Global, seed: u64) -> Result<Forest, AllocError> {
    let n = seed % 13;
    let mut state = seed;
    let mut forest = Forest {
        parent: Vec::new(alloc),
        nv: Vec::new(alloc),
        f_size: Vec::new(alloc),
        rank: Vec::new(alloc),
    };
    for _ in 0..n {
        push_place(&mut state, &mut forest)?;
    }
    push_parents(&mut state, n, &mut forest)?;
    Ok(forest)
}

/// The elements with a given parent, rising; those without a parent are the roots.
fn rising(
    alloc: Global,
    parent: isize,
    parents: &[isize],
    nv: &[isize],
) -> Result<Vec<usize>, AllocFailed<usize>> {
    let mut children = Vec::new(alloc);
    for e in 0..nv.len() {
        if number_at(nv, e) > 0 && number_at(parents, e) == parent {
            children.push(e)?;
        }
    }
    Ok(children)
}

/// The place in the list of the last one of those of largest size.
fn largest(elements: &[usize], f_size: &[isize]) -> usize {
    let mut best = 0;
    let mut size = -1;
    for (k, &e) in elements.iter().enumerate() {
        if number_at(f_size, e) >= size {
            best = k;
            size = number_at(f_size, e);
        }
    }
    best
}

/// Moves the last one of the elements of largest size to the end.
fn largest_last(elements: &mut Vec<usize>, f_size: &[isize]) -> Result<(), AllocFailed<usize>> {
    let place = largest(elements, f_size);
    if place < elements.len() {
        let element = elements.remove(place);
        elements.push(element)?;
    }
    Ok(())
}

/// Lists the subtrees of the elements, down to a depth, each node after those below it.
fn list_trees(
    alloc: Global,
    depth: usize,
    elements: &[usize],
    parents: &[isize],
    nv: &[isize],
    f_size: &[isize],
    listing: &mut Vec<usize>,
) -> Result<(), AllocFailed<usize>> {
    if depth == 0 {
        return Ok(());
    }
    for &e in elements {
        let mut children = rising(alloc, isize::try_from(e).unwrap_or(-1), parents, nv)?;
        largest_last(&mut children, f_size)?;
        list_trees(alloc, depth - 1, &children, parents, nv, f_size, listing)?;
        listing.push(e)?;
    }
    Ok(())
}

/// The elements in postorder: children rising, but the last one of those of largest size at the end; roots rising.
pub fn listing_of(
    alloc: Global,
    parents: &[isize],
    nv: &[isize],
    f_size: &[isize],
) -> Result<Vec<usize>, AllocFailed<usize>> {
    let mut listing = Vec::new(alloc);
    let roots = rising(alloc, -1, parents, nv)?;
    list_trees(alloc, nv.len(), &roots, parents, nv, f_size, &mut listing)?;
    Ok(listing)
}
