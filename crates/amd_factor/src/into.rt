// The columns of a factor, with the entries written into numbers that a caller has: as `factor`, with no list of them.

ghost use Rattle.std.specs.Prelude.{ℕ, List, ◌≡◌, ◌≢◌, ◌<◌, ◌∷◌, ◌++◌, [], pos, drop, length, map};
ghost use Rattle.std.specs.Prelude.{IfOk, IfErr, MatchOption};
ghost use Rattle.amd_factor.specs.Columns.{HoldFactor, PassesRoom};
ghost use Rattle.amd_factor.specs.Orders.{Order};
ghost use Rattle.amd_factor.specs.Premises.{CanWriteFactor, IsFitOrder};
ghost use Rattle.amd_factor.specs.Factors.{IsFault, WritesFactor};
ghost use Rattle.amd_factor.specs.declared.factor.Fault.TheVariants.{OutOfMemory, RoomTooSmall};

use crate::entrance::rows_of;
use crate::factor::{Fault, factor_lists, fault_for};
use crate::fill::fill_into;
use crate::neighbours::{Neighbours, later_lists};
use crate::places::places;
use amd_types::index::Index;
use num_traits::PrimInt;
use std::alloc::{AllocError, Allocator};

/// The columns of a factor but for their entries.
#[derive(Drop)]
pub struct Frame<A: Allocator> {
    /// Where each column begins among the entries, and after them the end of the last one, as in `Factor`.
    pub ptr: Vec<usize, A>,
    /// The parent of each column in the elimination tree, as in `Factor`.
    pub parent: Vec<Option<usize>, A>,
}

/// The frame of a matrix without rows: no columns.
fn empty_frame<A: Allocator + Copy>(alloc: A) -> Result<Frame<A>, Fault>
    ensures pointers { IfOk result (λ f. f.ptr.items ≡ 0 ∷ []) }
    ensures parents { IfOk result (λ f. f.parent.items ≡ []) }
    ensures fault { IfErr result (λ e. e ≡ OutOfMemory) }
{
    let ptr = vec![in alloc; 0; 1]?;
    Ok(Frame {
        ptr,
        parent: Vec::new(alloc),
    })
}

/// Takes all memory and writes the factor that the lists of later neighbours give; none, exactly where it has more
/// entries than `rows` has places.
///
/// # Errors
///
/// A refused request for memory; `rows` stays as it was.
fn written_into<I: Index, A: Allocator + Copy>(
    alloc: A,
    later: &Neighbours<'_>,
    rows: &mut [I],
) -> Result<Option<Frame<A>>, AllocError>
    ghost o: { Order }
    requires lists { CanWriteFactor o I.fits later.now.starts.now later.now.places.now }
    ensures factor { IfOk result (λ r. MatchOption r (PassesRoom o.graph o.rows (length rows.old))
        (λ f. (entries : List ℕ) ×
        (map I.value rows.new ≡ map pos entries ++ drop (length entries) (map I.value rows.old)) ×
        HoldFactor o.graph o.rows f.ptr.items entries f.parent.items)) }
    ensures kept { IfErr result (λ e. rows.new ≡ rows.old) }
{
    let mut lists = factor_lists(alloc, later.starts.len())?;
    let Some(_) = fill_into(
        later,
        &mut lists.ptr,
        rows,
        &mut lists.parent,
        &mut lists.mark,
        &mut lists.link,
        &mut lists.fresh,
    ) else {
        return Ok(None);
    };
    Ok(Some(Frame {
        ptr: lists.ptr,
        parent: lists.parent,
    }))
}

/// The factor of a column form with `size` rows and columns.
fn form_columns_into<I: Index, A: Allocator + Copy>(
    alloc: A,
    size: usize,
    a_p: &[I],
    a_i: &[I],
    p: &[I],
    rows: &mut [I],
) -> Result<Frame<A>, Fault>
    ghost o: { Order }
    requires { IsFitOrder I.fits o size (map I.value a_p.now) (map I.value a_i.now) (map I.value p.now) }
    ensures factor { IfOk result (λ f. WritesFactor (pos size) (map I.value a_p.now) (map I.value a_i.now)
        (map I.value p.now) (map I.value rows.old) (map I.value rows.new) f.ptr.items f.parent.items) }
    ensures fault { IfErr result (λ e. IsFault (pos size) (map I.value a_p.now) (map I.value a_i.now)
        (map I.value p.now) (length rows.old) e) }
    ensures kept { IfErr result (λ e. e ≢ RoomTooSmall → rows.new ≡ rows.old) }
{
    let Some(places) = places(alloc, size, p)? else {
        return Err(Fault::NotPermutation);
    };
    let lists = later_lists(alloc, size, a_p, a_i, &places)?;
    let later = Neighbours {
        starts: &lists.starts,
        places: &lists.neighbours,
    };
    match written_into(alloc, &later, rows)? {
        Some(frame) => Ok(frame),
        None => Err(Fault::RoomTooSmall),
    }
}

/// The columns of the factor of a square matrix under an order of its rows, by the pattern of `A + A'`, as `columns`;
/// the entries are written into `rows`, whose length is the room, and what stands behind them there stays.
///
/// The result has `n + 1` pointers and `n` parents. Memory is asked for lists of `n` numbers and the pattern alone, and
/// all of it before the first entry is written.
///
/// # Errors
///
/// Those of `columns`. After `RoomTooSmall` some of the entries may stand in `rows`; after any other it is as it was.
///
/// Source: Rose, Tarjan and Lueker 1976; Liu 1990; Davis 2005.
pub fn columns_into<I: PrimInt, A: Allocator + Copy>(
    alloc: A,
    n: I,
    a_p: &[I],
    a_i: &[I],
    p: &[I],
    rows: &mut [I],
) -> Result<Frame<A>, Fault>
    // A number of a primitive type is always in range.
    requires fits { I.fits (I.value n) }
    ensures factor { IfOk result (λ f. WritesFactor (I.value n) (map I.value a_p.now) (map I.value a_i.now)
        (map I.value p.now) (map I.value rows.old) (map I.value rows.new) f.ptr.items f.parent.items) }
    ensures fault { IfErr result (λ e. IsFault (I.value n) (map I.value a_p.now) (map I.value a_i.now)
        (map I.value p.now) (length rows.old) e) }
    ensures kept { IfErr result (λ e. e ≢ RoomTooSmall → rows.new ≡ rows.old) }
{
    let size = match rows_of(n, a_p, a_i, p) {
        Ok(size) => size,
        Err(unfit) => return Err(fault_for(unfit)),
    };
    if size == 0 {
        return empty_frame(alloc);
    }
    form_columns_into(alloc, size, a_p, a_i, p, rows)
}
