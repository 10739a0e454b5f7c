// Marks of rows or elements: a test of numbers that a round sets and clears, and the lists that it gathers with them,
// each number at its first occurrence. Source: Amestoy, Davis and Duff 1996.

ghost use Rattle.std.specs.Prelude.{◌≡◌, ◌<◌, ◌||◌, ◌&&◌, ◌==◌, ◌++◌, not, ℕ, true, false, fold, flat_map, length};
ghost use Rattle.std.specs.Prelude.{OnOk, IfOk};
ghost use Rattle.amd_model.specs.Quotient.{add_new, has};
ghost use Rattle.amd_plain.specs.Views.{mark_at, plain_live, list_at, Below, ListsBelow, Clear};
ghost use Rattle.amd_plain.specs.Rounds.{firsts};

use crate::work::PlainLists;
use std::alloc::{AllocError, Allocator};

/// Marks each number of a list.
pub fn mark_all<A: Allocator>(marks: &mut Vec<bool, A>, list: &[usize])
    requires range { Below (length marks.old.items) list.now }
    ensures size { length marks.new.items ≡ length marks.old.items }
    ensures marked { (j : ℕ) → mark_at marks.new.items j ≡ (mark_at marks.old.items j || has list.now j) }
{
    for j in list {
        marks[*j] = true;
    }
}

/// Clears the mark of each number of a list.
pub fn clear_all<A: Allocator>(marks: &mut Vec<bool, A>, list: &[usize])
    requires range { Below (length marks.old.items) list.now }
    ensures size { length marks.new.items ≡ length marks.old.items }
    ensures cleared { (j : ℕ) → mark_at marks.new.items j ≡ (mark_at marks.old.items j && not (has list.now j)) }
{
    for j in list {
        marks[*j] = false;
    }
}

/// Adds each number of a list that is not marked, and marks it.
fn add_unmarked<A: Allocator>(
    marks: &mut Vec<bool, A>,
    out: &mut Vec<usize, A>,
    list: &[usize],
) -> Result<(), AllocError>
    requires range { Below (length marks.old.items) list.now }
    requires known { (j : ℕ) → has out.old.items j ≡ true → mark_at marks.old.items j ≡ true }
    ensures size { length marks.new.items ≡ length marks.old.items }
    ensures list { OnOk result (out.new.items ≡ fold (add_new (mark_at marks.old.items)) out.old.items list.now) }
    ensures marked { OnOk result ((j : ℕ) → mark_at marks.new.items j ≡ (mark_at marks.old.items j || has list.now j)) }
{
    for j in list {
        if !marks[*j] {
            marks[*j] = true;
            out.push(*j)?;
        }
    }
    Ok(())
}

/// Adds each class of a list that is not marked, and marks it. A row of size 0 is not a class, and is passed over.
fn add_classes<A: Allocator>(
    marks: &mut Vec<bool, A>,
    out: &mut Vec<usize, A>,
    list: &[usize],
    size: &[usize],
) -> Result<(), AllocError>
    requires lengths { length size.now ≡ length marks.old.items }
    requires range { Below (length marks.old.items) list.now }
    requires known { (j : ℕ) → has out.old.items j ≡ true → mark_at marks.old.items j ≡ true }
    ensures size { length marks.new.items ≡ length marks.old.items }
    ensures list { OnOk result (out.new.items ≡ fold (add_new (mark_at marks.old.items)) out.old.items
        (plain_live size.now list.now)) }
    ensures marked { OnOk result ((j : ℕ) → mark_at marks.new.items
        j ≡ (mark_at marks.old.items j || has (plain_live size.now list.now) j)) }
{
    for j in list {
        if size[*j] > 0 && !marks[*j] {
            marks[*j] = true;
            out.push(*j)?;
        }
    }
    Ok(())
}

/// The list of a new element: the classes of the pivot's elements, element after element, and then those of its
/// variables, each at its first occurrence and without the pivot. They and the pivot are marked.
pub fn front_of<A: Allocator + Copy>(
    alloc: A,
    pivot: usize,
    lists: &PlainLists<A>,
    size: &[usize],
    marks: &mut Vec<bool, A>,
) -> Result<Vec<usize, A>, AllocError>
    requires size { length marks.old.items ≡ length size.now }
    requires pivot { pivot < length size.now }
    requires variables { ListsBelow (length size.now) lists.now.variables.items }
    requires elements { ListsBelow (length size.now) lists.now.elements.items }
    requires members { ListsBelow (length size.now) lists.now.members.items }
    requires clear { Clear marks.old.items }
    ensures size { length marks.new.items ≡ length marks.old.items }
    ensures list { IfOk result (λ front. front.items ≡ firsts (λ x. x == pivot)
        (flat_map (λ e. plain_live size.now (list_at lists.now.members.items e))
        (list_at lists.now.elements.items pivot)
        ++ plain_live size.now (list_at lists.now.variables.items pivot))) }
    ensures marked { IfOk result (λ front. (j : ℕ) → mark_at marks.new.items j ≡ (j == pivot || has front.items j)) }
{
    let mut front = Vec::new(alloc);
    marks[pivot] = true;
    'elements: for e in &lists.elements[pivot] {
        add_classes(marks, &mut front, &lists.members[*e], size)?;
    }
    add_classes(marks, &mut front, &lists.variables[pivot], size)?;
    Ok(front)
}

/// The elements that hold a class of a list and not the pivot, each at its first occurrence. They and those of the
/// pivot are marked.
pub fn touched_by<A: Allocator + Copy>(
    alloc: A,
    pivot: usize,
    front: &[usize],
    elements: &Vec<Vec<usize, A>, A>,
    marks: &mut Vec<bool, A>,
) -> Result<Vec<usize, A>, AllocError>
    requires elements { ListsBelow (length marks.old.items) elements.now.items }
    requires pivot { pivot < length marks.old.items }
    requires range { Below (length marks.old.items) front.now }
    requires clear { Clear marks.old.items }
    ensures size { length marks.new.items ≡ length marks.old.items }
    ensures list { IfOk result (λ out. out.items ≡ firsts (has (list_at elements.now.items pivot))
        (flat_map (list_at elements.now.items) front.now)) }
    ensures marked { IfOk result (λ out. (j : ℕ) →
        mark_at marks.new.items j ≡ (has (list_at elements.now.items pivot) j || has out.items j)) }
{
    let mut out = Vec::new(alloc);
    mark_all(marks, &elements[pivot]);
    'front: for i in front {
        add_unmarked(marks, &mut out, &elements[*i])?;
    }
    Ok(out)
}
