// The plain engine: an elimination that keeps the lists of the quotient graph (for each class its elements and its
// variables, for each element its members), and one list of classes for each bound. It is the second engine. Source:
// Amestoy, Davis and Duff 1996 and 2004.

ghost use Rattle.std.specs.Prelude.{◌≡◌, ◌<◌, pos, map, length, IfOk, IfErr, OnOk};
ghost use Rattle.std.specs.Option.{option_copied};
ghost use Rattle.amd_model.specs.Input.Columns.{IsColumnForm, IsSorted};
ghost use Rattle.amd_model.specs.Input.Held.{HasMarks};
ghost use Rattle.amd_model.specs.Input.Pattern.{graph_of};
ghost use Rattle.amd_edges.specs.Visits.{AreCounts};
ghost use Rattle.amd_engine_law.specs.Engine.{IsEngineAnswer};
ghost use Rattle.amd_plain.specs.Plain.{IsPlainBegun};

use crate::held::rows_held_last;
use crate::listed::listing;
use crate::rounds::eliminate;
use crate::start::start;
use crate::work::PlainWork;
use amd_edges::lists::starting_lists;
use amd_types::amd::{Control, Info, Status};
use amd_types::dense::dense_threshold;
use amd_types::index::Index;
use amd_types::permutations::inverse_pair;
use std::alloc::{AllocError, Allocator};

/// The record of an elimination before its first round: each row has the list of its neighbours, and the rows marked in
/// `hold` and those of a degree above the threshold are held last.
fn begun<I: Index, A: Allocator + Copy>(
    alloc: A,
    a_p: &[I],
    a_i: &[I],
    len: &[usize],
    threshold: usize,
    hold: Option<&[bool]>,
) -> Result<PlainWork<A>, AllocError>
    requires form { IsColumnForm (pos (length len.now)) (length len.now) (map I.value a_p.now) (map I.value a_i.now) }
    requires sorted { IsSorted (length len.now) (map I.value a_p.now) (map I.value a_i.now) }
    requires degrees { AreCounts (graph_of (length len.now) (map I.value a_p.now) (map I.value a_i.now))
        ((graph_of (length len.now) (map I.value a_p.now) (map I.value a_i.now)).edge) len.now }
    requires marks { HasMarks (option_copied hold) (length len.now) }
    ensures { IfOk result (λ w. IsPlainBegun (map I.value a_p.now) (map I.value a_i.now) len.now
        (option_copied hold.entry) threshold w) }
{
    let rows = starting_lists(alloc, len.len(), a_p, a_i, len)?;
    let last = rows_held_last(alloc, len, threshold, hold)?;
    let work = start(alloc, rows, len, &last)?;
    Ok(work)
}

/// Orders the rows of a matrix with at least one row and sorted columns, whose rows have the degrees `len`, by
/// elimination. The rows marked in `hold`, which has a mark for each row where it is given, are held last beside the
/// dense ones. Writes of `info` the number of rows held last and the figures of the fronts; there is no compaction.
///
/// # Errors
///
/// `OutOfMemory` for a refused request. What `info` then holds is not said.
pub fn plain_1<I: Index, A: Allocator + Copy>(
    alloc: A,
    n: I,
    a_p: &[I],
    a_i: &[I],
    len: &[usize],
    control: &Control,
    hold: Option<&[bool]>,
    info: &mut Info,
) -> Result<(Vec<I, A>, Vec<I, A>), Status>
    requires some { 0 < length len.now }
    requires size { I.value n ≡ pos (length len.now) }
    requires fits { I.fits (I.value n) }
    requires marks { HasMarks (option_copied hold) (length len.now) }
    requires form { IsColumnForm (pos (length len.now)) (length len.now) (map I.value a_p.now) (map I.value a_i.now) }
    requires sorted { IsSorted (length len.now) (map I.value a_p.now) (map I.value a_i.now) }
    requires degrees { AreCounts (graph_of (length len.now) (map I.value a_p.now) (map I.value a_i.now))
        ((graph_of (length len.now) (map I.value a_p.now) (map I.value a_i.now)).edge) len.now }
    ensures orders { IfOk result (λ a. IsEngineAnswer (option_copied hold.entry) (length len.now) control.now
        (map I.value a_p.now) (map I.value a_i.now) (map I.value a.0.items) (map I.value a.1.items) info.old info.new) }
    ensures compactions { OnOk result (info.new.n_cmp_a ≡ 0) }
    ensures refused { IfErr result (λ e. e ≡ Status.OutOfMemory) }
{
    let threshold = dense_threshold(len.len(), control);
    let mut work = begun(alloc, a_p, a_i, len, threshold, hold)?;
    eliminate(&mut work, control)?;
    info.n_dense = work.n_dense;
    info.n_cmp_a = 0;
    work.figures.write_figures(info);
    let order = listing(&mut work)?;
    Ok(inverse_pair(alloc, n, &order)?)
}
