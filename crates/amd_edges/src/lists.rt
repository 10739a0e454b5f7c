// The lists of the neighbours of each row, in a vector for each row, in the order in which the walk over the edges
// meets those of its row. Source: Amestoy, Davis and Duff 2004.

ghost use Rattle.std.specs.Prelude.{◌≡◌, ◌<◌, ◌≤◌, ℕ, [], pos, map, length, slice_index, slice_index_or, IfOk};
ghost use Rattle.std.specs.Vec.{vec_capacity};
ghost use Rattle.amd_model.specs.Input.Columns.{IsColumnForm, IsSorted};
ghost use Rattle.amd_model.specs.Input.Pattern.{graph_of, is_pair};
ghost use Rattle.amd_model.specs.Quotient.{starting_list};
ghost use Rattle.amd_edges.specs.Visits.{AreCounts, AreRows};

use crate::walk::{Visitor, walk};
use amd_types::index::Index;
use amd_words::Cell;
use std::alloc::{AllocError, Allocator};

/// The lists of the rows, each in a vector with room for all neighbours of its row.
#[derive(Drop)]
struct RowLists<A: Allocator> {
    rows: Vec<Vec<usize, A>, A>,
}

impl<A: Allocator> Visitor for RowLists<A> {
    ghost holds = { λ g seen arcs l. AreRows g seen arcs (map (λ v. v.items) l.rows.items)
        (map vec_capacity l.rows.items) };

    ghost runs = { λ g seen arcs j mark l. AreRows g seen arcs (map (λ v. v.items) l.rows.items)
        (map vec_capacity l.rows.items) };

    ghost room = { λ l. [] };

    fn arc(&mut self, i: usize, j: usize) {
        self.rows[i].push_reserved(j);
    }

    fn begin(&self, j: usize) -> usize {
        0
    }

    fn edge(&mut self, i: usize, j: usize, mark: usize) -> usize {
        self.arc(i, j);
        self.arc(j, i);
        mark
    }

    fn end(&mut self, j: usize, mark: usize) {}
}

/// An empty list for each row, with room for as many entries as its degree.
fn empty_lists<A: Allocator + Copy>(
    alloc: A,
    degrees: &[usize],
) -> Result<Vec<Vec<usize, A>, A>, AllocError>
    ensures size { IfOk result (λ rows. length rows.items ≡ length degrees.now) }
    ensures empty { IfOk result (λ rows. (i : ℕ) → i < length degrees.now →
        slice_index_or (map (λ v. v.items) rows.items) i [] ≡ []) }
    ensures room { IfOk result (λ rows. (i : ℕ) → i < length degrees.now →
        slice_index degrees.now i ≤ slice_index (map vec_capacity rows.items) i) }
{
    let mut rows = Vec::with_capacity(alloc, degrees.len())?;
    'rows: for &degree in degrees {
        let list = Vec::with_capacity(alloc, degree)?;
        rows.push_reserved(list);
    }
    Ok(rows)
}

/// The list of the neighbours of each of `size` rows, whose degrees are known, in a vector for each row.
///
/// The entries of a list stand in the order in which the walk meets the edges.
///
/// # Errors
///
/// A refused request for memory.
pub fn starting_lists<I: Index, A: Allocator + Copy>(
    alloc: A,
    size: usize,
    a_p: &[I],
    a_i: &[I],
    degrees: &[usize],
) -> Result<Vec<Vec<usize, A>, A>, AllocError>
    requires form { IsColumnForm (pos size) size (map I.value a_p.now) (map I.value a_i.now) }
    requires sorted { IsSorted size (map I.value a_p.now) (map I.value a_i.now) }
    requires degrees { AreCounts (graph_of size (map I.value a_p.now) (map I.value a_i.now))
        ((graph_of size (map I.value a_p.now) (map I.value a_i.now)).edge) degrees.now }
    ensures size { IfOk result (λ rows. length rows.items ≡ size) }
    ensures lists { IfOk result (λ rows. (i : ℕ) → i < size →
        slice_index_or (map (λ v. v.items) rows.items) i [] ≡ starting_list size
        (is_pair size (map I.value a_p.now) (map I.value a_i.now)) i) }
{
    let mut pointers: Vec<Cell<usize>, A> = Vec::with_capacity(alloc, size)?;
    let mut lists = RowLists {
        rows: empty_lists(alloc, degrees)?,
    };
    let _ = walk(size, a_p, a_i, &mut pointers, &mut lists);
    Ok(lists.rows)
}
