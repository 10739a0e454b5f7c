// The columns of a factor, written out from its supernodes: the column of a place has the places behind it in its
// supernode, and then the rows below the block. Source: Liu, Ng and Peyton 1993.

ghost use Rattle.std.specs.Prelude.{ℕ, ℤ, List, [], ◌≡◌, ◌≤◌, ◌<◌, ◌+◌, ◌-◌, ◌++◌, length, take, OnOk, IfOk};
ghost use Rattle.std.specs.Prelude.{slice_index, slice_index_or};
ghost use Rattle.std.specs.List.{range_with_len};
ghost use Rattle.amd_factor.specs.Columns.{HoldColumns, first_of};
ghost use Rattle.amd_factor.specs.Factors.{IsFactorOf};
ghost use Rattle.amd_factor.specs.SupernodeLaws.{AreBlocksOf, HaveBlock};
ghost use Rattle.amd_factor.specs.Supernodes.{IsSupernodesOf, rows_below};

use crate::factor::Factor;
use crate::rows_below::Supernodes;
use std::alloc::{AllocError, Allocator};

/// Appends the entries of the column of place `k`: the places behind it before `end`, and then the rows `below`.
fn push_entries<A: Allocator>(
    k: usize,
    end: usize,
    below: &[usize],
    rows: &mut Vec<usize, A>,
) -> Result<(), AllocError>
    requires { k < end }
    ensures { OnOk result (rows.new.items ≡ rows.old.items ++ (range_with_len (k + 1) (end - (k + 1)) ++ below.now)) }
{
    'block: for j in k + 1..end {
        rows.push(j)?;
    }
    rows.extend_from_slice(below)
}

/// The first entry of the column of place `k`, or none.
fn first_entry(k: usize, end: usize, below: &[usize]) -> Option<usize>
    requires { k < end }
    ensures { result ≡ first_of (range_with_len (k + 1) (end - (k + 1)) ++ below.now) }
{
    if k + 1 < end {
        Some(k + 1)
    } else {
        below.first().copied()
    }
}

/// Appends the column of place `k`, whose supernode ends before `end` and has the rows `below`.
fn push_column<A: Allocator>(
    k: usize,
    end: usize,
    below: &[usize],
    ptr: &mut Vec<usize, A>,
    rows: &mut Vec<usize, A>,
    parent: &mut Vec<Option<usize>, A>,
) -> Result<(), AllocError>
    requires { k < end }
    ensures { OnOk result ((columns : List (List ℕ)) → k < length columns →
        slice_index_or columns k [] ≡ range_with_len (k + 1) (end - (k + 1)) ++ below.now →
        HoldColumns (take k columns) ptr.old.items rows.old.items parent.old.items →
        HoldColumns (take (k + 1) columns) ptr.new.items rows.new.items parent.new.items) }
{
    push_entries(k, end, below, rows)?;
    ptr.push(rows.len())?;
    parent.push(first_entry(k, end, below))?;
    Ok(())
}

/// Appends the columns of the places from `from` on, before `end`: those of a supernode that has the rows `below`.
fn push_block<A: Allocator>(
    from: usize,
    end: usize,
    below: &[usize],
    ptr: &mut Vec<usize, A>,
    rows: &mut Vec<usize, A>,
    parent: &mut Vec<Option<usize>, A>,
) -> Result<(), AllocError>
    requires { from ≤ end }
    ensures { OnOk result ((columns : List (List ℕ)) → end ≤ length columns → HaveBlock columns from end below.now →
        HoldColumns (take from columns) ptr.old.items rows.old.items parent.old.items →
        HoldColumns (take end columns) ptr.new.items rows.new.items parent.new.items) }
{
    'places: for k in from..end {
        push_column(k, end, below, ptr, rows, parent)?;
    }
    Ok(())
}

/// The rows below the block of supernode `s`.
fn rows_of<'a>(s: usize, ptr: &[usize], below: &'a [usize]) -> &'a [usize]
    requires inside { s + 1 < length ptr.now }
    requires ascending { slice_index ptr.now s ≤ slice_index ptr.now (s + 1) }
    requires within { slice_index ptr.now (s + 1) ≤ length below.now }
    ensures { result.now ≡ rows_below ptr.now below.now s }
{
    &below[ptr[s]..ptr[s + 1]]
}

/// The columns that the supernodes stand for.
fn expanded<A: Allocator + Copy>(
    alloc: A,
    first: &[usize],
    ptr: &[usize],
    below: &[usize],
    over: &[Option<usize>],
) -> Result<Factor<A>, AllocError>
    requires blocks { (columns : List (List ℕ)) × AreBlocksOf columns first.now ptr.now below.now over.now }
    ensures { IfOk result (λ f. (columns : List (List ℕ)) → AreBlocksOf columns first.now ptr.now below.now over.now →
        HoldColumns columns f.ptr.items f.rows.items f.parent.items) }
{
    let mut pointers = vec![in alloc; 0; 1]?;
    let mut rows = Vec::new(alloc);
    let mut parent = Vec::new(alloc);
    'supernodes: for s in 0..over.len() {
        let block = rows_of(s, ptr, below);
        push_block(
            first[s],
            first[s + 1],
            block,
            &mut pointers,
            &mut rows,
            &mut parent,
        )?;
    }
    Ok(Factor {
        ptr: pointers,
        rows,
        parent,
    })
}

/// The columns of a factor, from its supernodes: exactly those that [`crate::columns`] gives for the same matrix and
/// the same order.
///
/// The supernodes are those of some matrix and order, as [`crate::supernodes`] returns them. The vectors grow as the
/// columns are written, so up to twice the memory of the columns is taken.
///
/// # Errors
///
/// A refused request for memory.
///
/// Source: Liu, Ng and Peyton 1993.
pub fn expand<A: Allocator + Copy>(
    alloc: A,
    supernodes: &Supernodes<A>,
) -> Result<Factor<A>, AllocError>
    requires { (n : ℤ) × (a_p : List ℤ) × (a_i : List ℤ) × (p : List ℤ) × IsSupernodesOf n a_p a_i p
        supernodes.now.first.items supernodes.now.ptr.items supernodes.now.rows.items supernodes.now.parent.items }
    ensures { IfOk result (λ f. (n : ℤ) (a_p a_i p : List ℤ) → IsSupernodesOf n a_p a_i p supernodes.now.first.items
        supernodes.now.ptr.items supernodes.now.rows.items supernodes.now.parent.items →
        IsFactorOf n a_p a_i p f.ptr.items f.rows.items f.parent.items) }
{
    expanded(
        alloc,
        &supernodes.first,
        &supernodes.ptr,
        &supernodes.rows,
        &supernodes.parent,
    )
}
