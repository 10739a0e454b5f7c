// The columns of a factor by supernodes: the input is tested as for `columns`, the columns are counted, and what the
// counts tell is written. Source: Rose, Tarjan and Lueker 1976; Liu, Ng and Peyton 1993.

ghost use Rattle.std.specs.Prelude.{◌≡◌, ◌+◌, ◌∷◌, [], length, pos, map, IfOk, IfErr};
ghost use Rattle.amd_factor.specs.Counted.{IsCountsFault};
ghost use Rattle.amd_factor.specs.Orders.{Order};
ghost use Rattle.amd_factor.specs.Partitions.{IsPartitionOf, OrderedMatrix, ordered_matrix};
ghost use Rattle.amd_factor.specs.Premises.{IsFitMatrix};
ghost use Rattle.amd_factor.specs.Supernodes.{IsSupernodesOf};
ghost use Rattle.amd_factor.specs.Within.{IsPosed};

use crate::counted::thinned_sizes;
use crate::entrance::rows_of;
use crate::factor::{Fault, fault_for};
use crate::neighbours::NeighbourLists;
use crate::ordering::ordered_lists;
use crate::partition::{Cut, cut_places};
use crate::rows_below::{Partitioned, Supernodes, write_rows};
use amd_types::index::Index;
use num_traits::PrimInt;
use std::alloc::{AllocError, Allocator};

/// The supernodes of a column form with `size` rows and columns, but for the rows below the blocks.
fn form_partition<I: Index, A: Allocator + Copy>(
    alloc: A,
    size: usize,
    a_p: &[I],
    a_i: &[I],
    p: &[I],
) -> Result<Partitioned<A>, Fault>
    ghost o: { Order }
    requires posed { IsPosed o size (map I.value a_p.now) (map I.value a_i.now) (map I.value p.now) }
    ensures partition { IfOk result (λ b. IsPartitionOf (ordered_matrix (pos size) (map I.value a_p.now)
        (map I.value a_i.now) (map I.value p.now)) b.cut.first.items b.cut.owner.items b.cut.ptr.items
        b.cut.parent.items b.lists.starts.items b.lists.neighbours.items) }
    ensures next { IfOk result (λ b. length b.next.items + 1 ≡ length b.cut.first.items) }
    ensures mark { IfOk result (λ b. length b.mark.items + 1 ≡ length b.cut.first.items) }
    ensures fault { IfErr result (λ e. IsCountsFault (pos size) (map I.value a_p.now) (map I.value a_i.now)
        (map I.value p.now) e) }
{
    let mut lists = ordered_lists(alloc, size, a_p, a_i, p)?;
    let cut = {
        let sized = thinned_sizes(alloc, &mut lists.starts, &mut lists.neighbours)?;
        cut_places(alloc, &sized.sizes, &sized.parent)?
    };
    let next = vec![in alloc; 0; cut.parent.len()]?;
    let mark = vec![in alloc; 0; cut.parent.len()]?;
    Ok(Partitioned {
        cut,
        lists,
        next,
        mark,
    })
}

/// The supernodes of a matrix without rows: none.
fn no_partition<A: Allocator + Copy>(alloc: A) -> Result<Partitioned<A>, AllocError>
    ensures first { IfOk result (λ b. b.cut.first.items ≡ 0 ∷ []) }
    ensures owner { IfOk result (λ b. b.cut.owner.items ≡ []) }
    ensures pointers { IfOk result (λ b. b.cut.ptr.items ≡ 0 ∷ []) }
    ensures parents { IfOk result (λ b. b.cut.parent.items ≡ []) }
    ensures starts { IfOk result (λ b. b.lists.starts.items ≡ 0 ∷ []) }
    ensures neighbours { IfOk result (λ b. b.lists.neighbours.items ≡ []) }
    ensures next { IfOk result (λ b. b.next.items ≡ []) }
    ensures mark { IfOk result (λ b. b.mark.items ≡ []) }
{
    let first = vec![in alloc; 0; 1]?;
    let ptr = vec![in alloc; 0; 1]?;
    let starts = vec![in alloc; 0; 1]?;
    let cut = Cut {
        first,
        owner: Vec::new(alloc),
        ptr,
        parent: Vec::new(alloc),
    };
    let lists = NeighbourLists {
        starts,
        neighbours: Vec::new(alloc),
    };
    Ok(Partitioned {
        cut,
        lists,
        next: Vec::new(alloc),
        mark: Vec::new(alloc),
    })
}

/// The supernodes of the factor of a square matrix under an order of its rows, but for the rows below the blocks; these
/// are written by [`crate::rows_below::write_rows`], which asks for no memory, when the caller has a place for them.
///
/// The input, the order and the supernodes are those of [`supernodes`].
///
/// # Errors
///
/// Those of [`supernodes`], in its order.
///
/// Source: Rose, Tarjan and Lueker 1976; Liu 1986; Liu, Ng and Peyton 1993.
pub fn supernode_partition<I: Index, A: Allocator + Copy>(
    alloc: A,
    n: I,
    a_p: &[I],
    a_i: &[I],
    p: &[I],
) -> Result<Partitioned<A>, Fault>
    requires fits { I.fits (I.value n) }
    ensures partition { IfOk result (λ b. IsPartitionOf (ordered_matrix (I.value n) (map I.value a_p.now)
        (map I.value a_i.now) (map I.value p.now)) b.cut.first.items b.cut.owner.items b.cut.ptr.items
        b.cut.parent.items b.lists.starts.items b.lists.neighbours.items) }
    ensures next { IfOk result (λ b. length b.next.items + 1 ≡ length b.cut.first.items) }
    ensures mark { IfOk result (λ b. length b.mark.items + 1 ≡ length b.cut.first.items) }
    ensures fault { IfErr result (λ e. IsCountsFault (I.value n) (map I.value a_p.now) (map I.value a_i.now)
        (map I.value p.now) e) }
{
    let size = match rows_of(n, a_p, a_i, p) {
        Ok(size) => size,
        Err(unfit) => return Err(fault_for(unfit)),
    };
    if size == 0 {
        return Ok(no_partition(alloc)?);
    }
    form_partition(alloc, size, a_p, a_i, p)
}

/// The supernodes of the matrix `m`, which has `n` rows.
fn matrix_supernodes<I: Index, A: Allocator + Copy>(
    alloc: A,
    n: I,
    a_p: &[I],
    a_i: &[I],
    p: &[I],
) -> Result<Supernodes<A>, Fault>
    ghost m: { OrderedMatrix }
    requires { IsFitMatrix I.fits m (I.value n) (map I.value a_p.now) (map I.value a_i.now) (map I.value p.now) }
    ensures supernodes { IfOk result (λ s. IsSupernodesOf m.size m.pointers m.indices m.list s.first.items s.ptr.items
        s.rows.items s.parent.items) }
    ensures fault { IfErr result (λ e. IsCountsFault m.size m.pointers m.indices m.list e) }
{
    let found = supernode_partition(alloc, n, a_p, a_i, p)?;
    let mut rows = vec![in alloc; 0; found.cut.ptr[found.cut.parent.len()]]?;
    let cut = write_rows(found, &mut rows);
    Ok(Supernodes {
        first: cut.first,
        ptr: cut.ptr,
        rows,
        parent: cut.parent,
    })
}

/// The columns of the factor of a square matrix under an order of its rows, by supernodes, by the pattern of `A + A'`.
///
/// The columns are those of [`crate::columns`], and so are the input and the order. Column `k` of supernode `s` has the
/// places behind `k` before `first[s + 1]`, and then the rows `rows[ptr[s]..ptr[s + 1]]`. The supernodes are the
/// longest runs of places of which each but the last has the next one as its parent, and one entry more than that has;
/// the next one may have other children too. For `n = 0` the pointers and row indices are not looked at, `p` must be
/// empty, and `first` and `ptr` are `[0]`.
///
/// No room is asked for: the entries are counted first. Then all memory is taken, and as much for `rows` as the rows
/// need, before the first of them is written. The steps are as many as there are rows and entries of the matrix, times
/// at most the logarithm of the number of rows, and rows below the blocks.
///
/// # Errors
///
/// The first of these:
///
/// * `NotColumnForm` exactly where `n` is not 0 and the input is no column form; no memory is asked before.
/// * `NotPermutation` where `p` does not list each number below `n`, once.
///
/// `OutOfMemory` where an allocation was refused, or there are more rows below the blocks than `usize::MAX`. It may
/// come in place of the second. No other fault.
///
/// Source: Rose, Tarjan and Lueker 1976; Liu 1986 and 1990; Liu, Ng and Peyton 1993.
pub fn supernodes<I: PrimInt, A: Allocator + Copy>(
    alloc: A,
    n: I,
    a_p: &[I],
    a_i: &[I],
    p: &[I],
) -> Result<Supernodes<A>, Fault>
    // A number of a primitive type is always in range.
    requires fits { I.fits (I.value n) }
    ensures supernodes { IfOk result (λ s. IsSupernodesOf (I.value n) (map I.value a_p.now) (map I.value a_i.now)
        (map I.value p.now) s.first.items s.ptr.items s.rows.items s.parent.items) }
    ensures fault { IfErr result (λ e. IsCountsFault (I.value n) (map I.value a_p.now) (map I.value a_i.now)
        (map I.value p.now) e) }
{
    matrix_supernodes(alloc, n, a_p, a_i, p)
}
