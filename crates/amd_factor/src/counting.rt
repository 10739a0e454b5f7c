// How many entries each column of a factor has, and what the factor needs: the input is tested as for `columns`, and
// columns are made that share entries (`sharing`). Where these take too much room, the lists of earlier and of later
// neighbours are made, and `counted` counts. Source: Sherman 1975; Liu 1986; Gilbert, Ng and Peyton 1994; AMD user
// guide (the figures of `Info`).

ghost use Rattle.std.specs.Prelude.{pos, map, IfOk, IfErr, MatchOption};
ghost use Rattle.amd_factor.specs.Orders.{Order};
ghost use Rattle.amd_factor.specs.Within.{IsPosed};
ghost use Rattle.amd_factor.specs.Counted.{IsCountsFault, IsCountsOf};

use crate::counted::{Counts, empty_counts, written_counts};
use crate::entrance::rows_of;
use crate::factor::{Fault, fault_for};
use crate::neighbours::later_lists;
use crate::ordering::ordered_lists;
use crate::places::places;
use crate::sharing::shared_counts;
use amd_types::index::Index;
use num_traits::PrimInt;
use std::alloc::Allocator;

/// The counts of a column form with `size` rows and columns, whose columns share entries; none where they take more
/// room than they are given. The lists and the room are given back.
fn form_shared<I: Index, A: Allocator + Copy>(
    alloc: A,
    size: usize,
    a_p: &[I],
    a_i: &[I],
    p: &[I],
) -> Result<Option<Counts<A>>, Fault>
    ghost o: { Order }
    requires posed { IsPosed o size (map I.value a_p.now) (map I.value a_i.now) (map I.value p.now) }
    ensures counts { IfOk result (λ r. MatchOption r (Unit {0}) (λ c. IsCountsOf (pos size) (map I.value a_p.now)
        (map I.value a_i.now) (map I.value p.now) c.sizes.items c.parent.items c.need)) }
    ensures fault { IfErr result (λ e. IsCountsFault (pos size) (map I.value a_p.now) (map I.value a_i.now)
        (map I.value p.now) e) }
{
    let Some(places) = places(alloc, size, p)? else {
        return Err(Fault::NotPermutation);
    };
    let mut lists = later_lists(alloc, size, a_p, a_i, &places)?;
    let later = &lists.neighbours;
    Ok(shared_counts(alloc, &mut lists.starts, later, places)?)
}

/// The counts of a column form with `size` rows and columns: by columns that share entries, or where these would take
/// too much room, by the elimination tree and the meetings of arcs.
fn form_counts<I: Index, A: Allocator + Copy>(
    alloc: A,
    size: usize,
    a_p: &[I],
    a_i: &[I],
    p: &[I],
) -> Result<Counts<A>, Fault>
    ghost o: { Order }
    requires posed { IsPosed o size (map I.value a_p.now) (map I.value a_i.now) (map I.value p.now) }
    ensures counts { IfOk result (λ c. IsCountsOf (pos size) (map I.value a_p.now) (map I.value a_i.now)
        (map I.value p.now) c.sizes.items c.parent.items c.need) }
    ensures fault { IfErr result (λ e. IsCountsFault (pos size) (map I.value a_p.now) (map I.value a_i.now)
        (map I.value p.now) e) }
{
    if let Some(counts) = form_shared(alloc, size, a_p, a_i, p)? {
        return Ok(counts);
    }
    let mut lists = ordered_lists(alloc, size, a_p, a_i, p)?;
    Ok(written_counts(alloc, &mut lists.starts, &mut lists.neighbours)?)
}

/// The counts of a matrix with `n` rows, as [`counts`].
pub fn matrix_counts<I: Index, A: Allocator + Copy>(
    alloc: A,
    n: I,
    a_p: &[I],
    a_i: &[I],
    p: &[I],
) -> Result<Counts<A>, Fault>
    ensures counts { IfOk result (λ c. IsCountsOf (I.value n) (map I.value a_p.now) (map I.value a_i.now)
        (map I.value p.now) c.sizes.items c.parent.items c.need) }
    ensures fault { IfErr result (λ e. IsCountsFault (I.value n) (map I.value a_p.now) (map I.value a_i.now)
        (map I.value p.now) e) }
{
    let size = match rows_of(n, a_p, a_i, p) {
        Ok(size) => size,
        Err(unfit) => return Err(fault_for(unfit)),
    };
    if size == 0 {
        return Ok(empty_counts(alloc));
    }
    form_counts(alloc, size, a_p, a_i, p)
}

/// How many entries each column of the factor of a square matrix has under an order of its rows, by the pattern of
/// `A + A'`; the parents, and what the factor needs.
///
/// The columns are those of [`crate::columns`], and so are the input and the order. The result has `n` sizes and `n`
/// parents; the sum of the sizes is the room that `columns` needs. For `n = 0` the pointers and row indices are not
/// looked at, and `p` must be empty.
///
/// A column with nothing new has the entries of a child where they stand; only another one is written. There is room
/// for eight numbers of 32 bits for each arc, that is, for each pair of rows that an entry off the diagonal joins, and
/// for each row. Memory for a quarter of it is asked for before the first column, and more where this does not suffice,
/// twice as much each time. Where all that room is not enough, where more rows than that have to be marked again, or
/// where there are 2^31 rows, it is given back. Then the arcs are counted by their meetings in the elimination tree: no
/// entry is written, and beside the lists of neighbours a few numbers a row are taken. So the steps are as many as
/// there are rows and entries of the matrix, times at most the logarithm of the number of rows.
///
/// # Errors
///
/// The first of these:
///
/// * `NotColumnForm` exactly where `n` is not 0 and the input is no column form; no memory is asked before.
/// * `NotPermutation` where `p` does not list each number below `n`, once.
///
/// `OutOfMemory` where an allocation was refused. It may come in place of the second. No other fault.
///
/// Source: Rose, Tarjan and Lueker 1976; Sherman 1975; Liu 1986; Gilbert, Ng and Peyton 1994.
pub fn counts<I: PrimInt, A: Allocator + Copy>(
    alloc: A,
    n: I,
    a_p: &[I],
    a_i: &[I],
    p: &[I],
) -> Result<Counts<A>, Fault>
    // A number of a primitive type is always in range.
    requires fits { I.fits (I.value n) }
    ensures counts { IfOk result (λ c. IsCountsOf (I.value n) (map I.value a_p.now) (map I.value a_i.now)
        (map I.value p.now) c.sizes.items c.parent.items c.need) }
    ensures fault { IfErr result (λ e. IsCountsFault (I.value n) (map I.value a_p.now) (map I.value a_i.now)
        (map I.value p.now) e) }
{
    matrix_counts(alloc, n, a_p, a_i, p)
}
