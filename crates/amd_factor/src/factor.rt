// The columns of a factor under an order that a caller hands in: the input is tested, the lists of later neighbours are
// made, all memory is taken, and then the columns are written without any. Source: the path theorem of sparse
// factorization (Rose, Tarjan and Lueker 1976); Liu 1990.

ghost use Rattle.std.specs.Prelude.{◌≡◌, ◌≤◌, ◌+◌, ◌∷◌, [], pos, length, map, IfOk, IfErr, MatchOption};
ghost use Rattle.amd_model.specs.Graph.{IsGraph};
ghost use Rattle.amd_factor.specs.Columns.{FactorSizes, HoldFactor, PassesRoom};
ghost use Rattle.amd_factor.specs.Orders.{Order};
ghost use Rattle.amd_factor.specs.Neighbours.{HasLater};
ghost use Rattle.amd_factor.specs.Factors.{IsFactorOf, IsFault};
ghost use Rattle.amd_factor.specs.Unfit.{fault_of};
ghost use Rattle.amd_factor.specs.Within.{IsPosed};
ghost use Rattle.amd_factor.specs.declared.factor.Fault.TheVariants.{OutOfMemory};

use crate::entrance::{Unfit, rows_of};
use crate::fill::fill;
use crate::neighbours::{Neighbours, later_lists};
use crate::places::places;
use amd_types::index::Index;
use num_traits::PrimInt;
use std::alloc::{AllocError, AllocFailed, Allocator};
use thiserror::Error;

/// The columns of a factor below its diagonal, one after another.
///
/// A place is that of a row in the order, from 0 on. In the fields, `n` is the number of columns.
#[derive(Drop)]
pub struct Factor<A: Allocator> {
    /// Where each column begins, and after them the end of the last one: `n + 1` pointers, ascending from 0. Two
    /// neighbours are equal where a column is empty, and the last pointer is the length of `rows`.
    pub ptr: Vec<usize, A>,
    /// The entries: those of column `k` are `rows[ptr[k]..ptr[k + 1]]`, which are places above `k` and below `n`, in
    /// ascending order.
    pub rows: Vec<usize, A>,
    /// The parent of each of the `n` columns in the elimination tree: its first entry, or `None` where it is empty.
    pub parent: Vec<Option<usize>, A>,
}

/// Why there is no factor.
#[derive(PartialEq, Clone, Debug, Drop, Error)]
pub enum Fault {
    /// The input is no column form; `amd::order` tells what that is. `analyze_holding` returns it also where there is
    /// not one mark for each row.
    #[error("the input is no column form, or has not one mark for each row")]
    NotColumnForm,
    /// The order does not list each row, once.
    #[error("the order does not list each row, once")]
    NotPermutation,
    /// The factor has more entries than the room that the caller allows.
    #[error("the factor has more entries than the room that is allowed")]
    RoomTooSmall,
    /// Memory was refused; `analyze` and `analyze_holding` return it also where `amd::order` does, and where its bound
    /// on the entries is `usize::MAX`.
    #[error("memory was refused")]
    OutOfMemory,
}

impl From<AllocError> for Fault {
    ghost from_gives = { λ _ r. r ≡ OutOfMemory };

    fn from(_: AllocError) -> Fault {
        Fault::OutOfMemory
    }
}

// What a refused `vec!` gives; the value that was not stored is dropped.
impl<T: Drop> From<AllocFailed<T>> for Fault {
    ghost from_gives = { λ _ r. r ≡ OutOfMemory };

    fn from(_: AllocFailed<T>) -> Fault {
        Fault::from(AllocError)
    }
}

/// The fault of a matrix and an order that are not fit for a factor.
pub fn fault_for(unfit: Unfit) -> Fault
    ensures { result ≡ fault_of unfit }
{
    match unfit {
        Unfit::NotColumnForm => Fault::NotColumnForm,
        Unfit::NotPermutation => Fault::NotPermutation,
    }
}

/// The factor of a matrix without rows: no columns.
fn empty_factor<A: Allocator + Copy>(alloc: A) -> Result<Factor<A>, Fault>
    ensures pointers { IfOk result (λ f. f.ptr.items ≡ 0 ∷ []) }
    ensures rows { IfOk result (λ f. f.rows.items ≡ []) }
    ensures parents { IfOk result (λ f. f.parent.items ≡ []) }
    ensures fault { IfErr result (λ e. e ≡ Fault.OutOfMemory) }
{
    let ptr = vec![in alloc; 0; 1]?;
    Ok(Factor {
        ptr,
        rows: Vec::new(alloc),
        parent: Vec::new(alloc),
    })
}

/// The lists in which a factor is made, but for its entries.
#[derive(Drop)]
pub struct FactorLists<A: Allocator> {
    /// Where each column begins and the last one ends, and the parent of each, as in [`Factor`].
    pub ptr: Vec<usize, A>,
    pub parent: Vec<Option<usize>, A>,
    /// For the work alone: three lists with a place for each column.
    pub mark: Vec<usize, A>,
    pub link: Vec<Option<usize>, A>,
    pub fresh: Vec<usize, A>,
}

/// Takes the memory for these lists, for as many columns as there are `ends`, but one.
///
/// # Errors
///
/// A refused request for memory.
pub fn factor_lists<A: Allocator + Copy>(
    alloc: A,
    ends: usize,
) -> Result<FactorLists<A>, AllocError>
    ghost o: { Order }
    requires { ends ≡ length o.rows + 1 }
    ensures { IfOk result (λ l. FactorSizes o l.ptr.items l.parent.items l.mark.items l.link.items l.fresh.items) }
{
    let columns = ends - 1;
    let ptr = vec![in alloc; 0; ends]?;
    let parent = vec![in alloc; None; columns]?;
    let mark = vec![in alloc; 0; columns]?;
    let link = vec![in alloc; None; columns]?;
    let fresh = vec![in alloc; 0; columns]?;
    Ok(FactorLists {
        ptr,
        parent,
        mark,
        link,
        fresh,
    })
}

/// Takes all memory, for at most `room` entries, and writes the factor that the lists of later neighbours give; none,
/// exactly where it has more entries.
///
/// # Errors
///
/// A refused request for memory.
fn written_factor<A: Allocator + Copy>(
    alloc: A,
    later: &Neighbours<'_>,
    room: usize,
) -> Result<Option<Factor<A>>, AllocError>
    ghost o: { Order }
    requires laws { IsGraph o.graph }
    requires later { HasLater o later.now.starts.now later.now.places.now }
    ensures factor { IfOk result (λ r. MatchOption r (PassesRoom o.graph o.rows room)
        (λ f. HoldFactor o.graph o.rows f.ptr.items f.rows.items f.parent.items)) }
    ensures room { IfOk result (λ r. MatchOption r (Unit {0}) (λ f. length f.rows.items ≤ room)) }
{
    let mut lists = factor_lists(alloc, later.starts.len())?;
    let mut rows = Vec::with_capacity(alloc, room)?;
    let Some(_) = fill(
        later,
        room,
        &mut lists.ptr,
        &mut rows,
        &mut lists.parent,
        &mut lists.mark,
        &mut lists.link,
        &mut lists.fresh,
    ) else {
        return Ok(None);
    };
    Ok(Some(Factor {
        ptr: lists.ptr,
        rows,
        parent: lists.parent,
    }))
}

/// The factor of a column form with `size` rows and columns.
fn form_columns<I: Index, A: Allocator + Copy>(
    alloc: A,
    size: usize,
    a_p: &[I],
    a_i: &[I],
    p: &[I],
    room: usize,
) -> Result<Factor<A>, Fault>
    ghost o: { Order }
    requires posed { IsPosed o size (map I.value a_p.now) (map I.value a_i.now) (map I.value p.now) }
    ensures factor { IfOk result (λ f. IsFactorOf (pos size) (map I.value a_p.now) (map I.value a_i.now)
        (map I.value p.now) f.ptr.items f.rows.items f.parent.items) }
    ensures room { IfOk result (λ f. length f.rows.items ≤ room) }
    ensures fault { IfErr result (λ e. IsFault (pos size) (map I.value a_p.now) (map I.value a_i.now)
        (map I.value p.now) room e) }
{
    let Some(places) = places(alloc, size, p)? else {
        return Err(Fault::NotPermutation);
    };
    let lists = later_lists(alloc, size, a_p, a_i, &places)?;
    let later = Neighbours {
        starts: &lists.starts,
        places: &lists.neighbours,
    };
    match written_factor(alloc, &later, room)? {
        Some(factor) => Ok(factor),
        None => Err(Fault::RoomTooSmall),
    }
}

/// The factor of a matrix with `n` rows, as [`columns`].
pub fn matrix_columns<I: Index, A: Allocator + Copy>(
    alloc: A,
    n: I,
    a_p: &[I],
    a_i: &[I],
    p: &[I],
    room: usize,
) -> Result<Factor<A>, Fault>
    ensures factor { IfOk result (λ f. IsFactorOf (I.value n) (map I.value a_p.now) (map I.value a_i.now)
        (map I.value p.now) f.ptr.items f.rows.items f.parent.items) }
    ensures room { IfOk result (λ f. length f.rows.items ≤ room) }
    ensures fault { IfErr result (λ e. IsFault (I.value n) (map I.value a_p.now) (map I.value a_i.now)
        (map I.value p.now) room e) }
{
    let size = match rows_of(n, a_p, a_i, p) {
        Ok(size) => size,
        Err(unfit) => return Err(fault_for(unfit)),
    };
    if size == 0 {
        return empty_factor(alloc);
    }
    form_columns(alloc, size, a_p, a_i, p, room)
}

/// The columns of the factor of a square matrix under an order of its rows, by the pattern of `A + A'`.
///
/// The matrix has `n` columns, and column `j` holds the rows `a_i[a_p[j]..a_p[j + 1]]`. The order is `p`: row `p[k]` is
/// at place `k`. Column `k` of the factor has the entry `j` where `k < j`, and a path of edges leads from row `p[k]` to
/// row `p[j]` through rows whose places are before `k`.
///
/// The result has exactly these entries. It has `n + 1` pointers, `ptr[n]` entries, at most `room`, and `n` parents.
///
/// The input is a column form as that of `amd::order`, and is taken as it is: columns may be out of order and have
/// duplicates. `p` is any permutation of the rows: `n` numbers. For `n = 0` the pointers and row indices are not looked
/// at, `p` must be empty, and `ptr` is `[0]`.
///
/// Memory is asked for `room` entries, whatever the factor needs, and all of it before the first entry is written. The
/// steps are as many as there are rows, entries of the matrix and entries of the factor, times at most the logarithm of
/// the number of rows that are new in a column: those that it does not take over from its greatest child.
///
/// # Errors
///
/// The first of these:
///
/// * `NotColumnForm` exactly where `n` is not 0 and the input is no column form; no memory is asked before.
/// * `NotPermutation` where `p` does not list each number below `n`, once.
/// * `RoomTooSmall` where the factor has more than `room` entries.
///
/// `OutOfMemory` where an allocation was refused. It may come in place of the second and the third.
///
/// Source: Rose, Tarjan and Lueker 1976; Liu 1990; Davis 2005.
pub fn columns<I: PrimInt, A: Allocator + Copy>(
    alloc: A,
    n: I,
    a_p: &[I],
    a_i: &[I],
    p: &[I],
    room: usize,
) -> Result<Factor<A>, Fault>
    // A number of a primitive type is always in range.
    requires fits { I.fits (I.value n) }
    ensures factor { IfOk result (λ f. IsFactorOf (I.value n) (map I.value a_p.now) (map I.value a_i.now)
        (map I.value p.now) f.ptr.items f.rows.items f.parent.items) }
    ensures room { IfOk result (λ f. length f.rows.items ≤ room) }
    ensures fault { IfErr result (λ e. IsFault (I.value n) (map I.value a_p.now) (map I.value a_i.now)
        (map I.value p.now) room e) }
{
    matrix_columns(alloc, n, a_p, a_i, p, room)
}
