// What the classes of a new element keep: the rows outside of the elements that they also stand in are counted, and the
// elements that the new one absorbs and the variables that lie in the new element are left out of their lists. A class
// that then keeps nothing is mass-eliminated. Source: Amestoy, Davis and Duff 1996 (element absorption, aggressive
// absorption, mass elimination).

ghost use Rattle.std.specs.Prelude.{◌≡◌, ◌<◌, ◌^◌, ◌&&◌, ◌-◌, not, cond, nat_eq, nat_lt, ℕ, Some, true};
ghost use Rattle.std.specs.Prelude.{false, filter, length, sum_by, OnOk, IfOk};
ghost use Rattle.amd_model.specs.Quotient.{has, Once};
ghost use Rattle.amd_plain.specs.Views.{num, mark_at, some_at, list_at, Below, ListsBelow};
ghost use Rattle.amd_plain.specs.Rounds.{plain_counts, plain_mass, less, plain_rows_left, PlainAbsorbed};
ghost use Rattle.amd_plain.specs.Keeps.{AreSized, IsIdle, IsMarked};

use crate::marks::{clear_all, touched_by};
use crate::work::{PlainLists, RowCounts, Scratch};
use std::alloc::{AllocError, Allocator};

/// Writes, for each element of a list, the number of rows of its border: that of block and border less that of its
/// block. In the rounds it never goes below 0; saturating spares a condition.
fn count_borders<A: Allocator>(
    touched: &[usize],
    block: &[usize],
    whole: &[usize],
    beyond: &mut Vec<usize, A>,
)
    requires lengths { (length whole.now ≡ length block.now) × (length beyond.old.items ≡ length block.now) }
    requires range { Below (length block.now) touched.now }
    ensures size { length beyond.new.items ≡ length beyond.old.items }
    ensures counted { (e : ℕ) → num beyond.new.items e ≡ cond (has touched.now e) (num whole.now e - num block.now e)
        (num beyond.old.items e) }
{
    for e in touched {
        beyond[*e] = whole[*e].saturating_sub(block[*e]);
    }
}

/// Takes the number of rows of a class off the numbers of the elements in its list. In the rounds no number goes below
/// 0; saturating spares a condition.
fn take_off<A: Allocator>(rows: usize, elements: &[usize], beyond: &mut Vec<usize, A>)
    requires range { Below (length beyond.old.items) elements.now }
    ensures size { length beyond.new.items ≡ length beyond.old.items }
    ensures taken { (e : ℕ) → num beyond.new.items e ≡ less e rows (num beyond.old.items e) elements.now }
{
    for e in elements {
        beyond[*e] = beyond[*e].saturating_sub(rows);
    }
}

/// Writes, for each element of a list, the number of rows of its border in no class of the front: the rows of each
/// class are taken off the elements that it lists, so no list of members is gone through.
fn count_beyond<A: Allocator>(
    touched: &[usize],
    front: &[usize],
    elements: &Vec<Vec<usize, A>, A>,
    size: &[usize],
    block: &[usize],
    whole: &[usize],
    beyond: &mut Vec<usize, A>,
)
    requires lengths { (length block.now ≡ length size.now) × (length whole.now ≡ length size.now) ×
        (length beyond.old.items ≡ length size.now) }
    requires elements { ListsBelow (length size.now) elements.now.items }
    requires range { Below (length size.now) touched.now }
    requires front { Below (length size.now) front.now }
    ensures size { length beyond.new.items ≡ length beyond.old.items }
    ensures counted { (e : ℕ) → has touched.now e ≡ true →
        num beyond.new.items e ≡ plain_rows_left block.now whole.now size.now elements.now.items front.now e }
{
    count_borders(touched, block, whole, beyond);
    for i in front {
        take_off(size[*i], &elements[*i], beyond);
    }
}

/// Clears the mark of each element of a list that is not absorbed: without `aggressive` all of them, and else those
/// with a row outside the new one.
fn spare<A: Allocator>(
    touched: &[usize],
    beyond: &[usize],
    aggressive: bool,
    taken: &mut Vec<bool, A>,
)
    requires length { length beyond.now ≡ length taken.old.items }
    requires range { Below (length beyond.now) touched.now }
    ensures size { length taken.new.items ≡ length taken.old.items }
    ensures spared { (e : ℕ) → mark_at taken.new.items e ≡ (mark_at taken.old.items e &&
        not (has touched.now e && not (aggressive && nat_eq (num beyond.now e) 0))) }
{
    for e in touched {
        if !(aggressive && beyond[*e] == 0) {
            taken[*e] = false;
        }
    }
}

/// Makes the pivot the parent of each marked element of a list.
fn adopt<A: Allocator>(
    pivot: usize,
    list: &[usize],
    taken: &[bool],
    parent: &mut Vec<Option<usize>, A>,
)
    requires length { length parent.old.items ≡ length taken.now }
    requires range { Below (length taken.now) list.now }
    ensures size { length parent.new.items ≡ length parent.old.items }
    ensures adopted { (e : ℕ) → some_at parent.new.items e ≡ cond (has list.now e && mark_at taken.now e) (Some pivot)
        (some_at parent.old.items e) }
{
    for e in list {
        if taken[*e] {
            parent[*e] = Some(pivot);
        }
    }
}

/// Whether a number is marked.
fn is_marked(marks: &[bool], j: usize) -> bool
    ensures { result ≡ mark_at marks.now j }
{
    match marks.get(j) {
        Some(mark) => *mark,
        None => false,
    }
}

/// Whether a number names a class that is not marked.
fn is_outside(size: &[usize], marks: &[bool], j: usize) -> bool
    ensures { result ≡ (nat_lt 0 (num size.now j) && not (mark_at marks.now j)) }
{
    match size.get(j) {
        Some(rows) => *rows > 0 && !is_marked(marks, j),
        None => false,
    }
}

/// Leaves in a list the elements that are not absorbed.
fn keep_elements<A: Allocator>(taken: &[bool], list: &mut Vec<usize, A>)
    ensures { list.new.items ≡ filter (λ e. not (mark_at taken.now e)) list.old.items }
{
    list.retain(|e| !is_marked(taken, *e));
}

/// Leaves in a list the classes that are not marked.
fn keep_variables<A: Allocator>(size: &[usize], marks: &[bool], list: &mut Vec<usize, A>)
    ensures { list.new.items ≡ filter (λ j. nat_lt 0 (num size.now j) && not (mark_at marks.now j)) list.old.items }
{
    list.retain(|j| is_outside(size, marks, *j));
}

/// Leaves in the lists of each class of the front the elements that are not absorbed, and the classes that are not
/// marked.
fn shorten<A: Allocator>(
    front: &[usize],
    size: &[usize],
    marks: &[bool],
    taken: &[bool],
    lists: &mut PlainLists<A>,
)
    requires lengths { (length marks.now ≡ length size.now) × (length taken.now ≡ length size.now) }
    requires elements { ListsBelow (length size.now) lists.old.elements.items }
    requires variables { ListsBelow (length size.now) lists.old.variables.items }
    requires range { Below (length size.now) front.now }
    requires once { Once front.now }
    ensures kept_elements { (i : ℕ) → list_at lists.new.elements.items i ≡ cond (has front.now i)
        (filter (λ e. not (mark_at taken.now e)) (list_at lists.old.elements.items i))
        (list_at lists.old.elements.items i) }
    ensures kept_variables { (i : ℕ) → list_at lists.new.variables.items i ≡ cond (has front.now i)
        (filter (λ j. nat_lt 0 (num size.now j) && not (mark_at marks.now j)) (list_at lists.old.variables.items i))
        (list_at lists.old.variables.items i) }
    ensures members { lists.new.members ≡ lists.old.members }
    ensures elements { ListsBelow (length size.now) lists.new.elements.items }
    ensures variables { ListsBelow (length size.now) lists.new.variables.items }
{
    for i in front {
        keep_elements(taken, &mut lists.elements[*i]);
        keep_variables(size, marks, &mut lists.variables[*i]);
    }
}

/// The new element of the pivot absorbs elements, and the classes of its front keep what is left. The front and the
/// pivot are marked before; nothing is after. `beyond` gets, for each element that holds a class of the front and not
/// the pivot, the rows of block and border less those of the block and of each class of the front that lists it, 0 at
/// least: in the rounds that is the number of rows of its border in no class of the front. What `into` and the other
/// places of `beyond` then hold is left open.
pub fn absorb<A: Allocator + Copy>(
    alloc: A,
    pivot: usize,
    front: &[usize],
    aggressive: bool,
    counts: &RowCounts<'_, '_, '_>,
    lists: &mut PlainLists<A>,
    parent: &mut Vec<Option<usize>, A>,
    scratch: &mut Scratch<A>,
) -> Result<(), AllocError>
    requires fronts { (length counts.now.block.now ≡ length counts.now.size.now) ×
        (length counts.now.whole.now ≡ length counts.now.size.now) }
    requires lists { AreSized (length counts.now.size.now) lists.old }
    requires pivot { (pivot < length counts.now.size.now) × (has front.now pivot ≡ false) }
    requires range { Below (length counts.now.size.now) front.now }
    requires once { Once front.now }
    requires parent { length parent.old.items ≡ length counts.now.size.now }
    requires marked { IsMarked (length counts.now.size.now) pivot front.now scratch.old }
    ensures absorbed { OnOk result (PlainAbsorbed aggressive pivot front.now
        (plain_counts counts.now.size.now counts.now.block.now counts.now.whole.now) lists.old lists.new
        parent.old.items parent.new.items scratch.new.beyond.items) }
    ensures lists { OnOk result (AreSized (length counts.now.size.now) lists.new) }
    ensures parent { OnOk result (length parent.new.items ≡ length counts.now.size.now) }
    ensures idle { OnOk result (IsIdle (length counts.now.size.now) scratch.new) }
{
    let touched = touched_by(alloc, pivot, front, &lists.elements, &mut scratch.elements)?;
    count_beyond(
        &touched,
        front,
        &lists.elements,
        counts.size,
        counts.block,
        counts.whole,
        &mut scratch.beyond,
    );
    spare(&touched, &scratch.beyond, aggressive, &mut scratch.elements);
    adopt(pivot, &lists.elements[pivot], &scratch.elements, parent);
    adopt(pivot, &touched, &scratch.elements, parent);
    shorten(front, counts.size, &scratch.rows, &scratch.elements, lists);
    clear_all(&mut scratch.elements, &lists.elements[pivot]);
    clear_all(&mut scratch.elements, &touched);
    clear_all(&mut scratch.rows, front);
    scratch.rows[pivot] = false;
    Ok(())
}

/// Whether a class keeps neither an element nor a variable.
fn keeps_nothing<A: Allocator>(lists: &PlainLists<A>, i: usize) -> bool
    requires elements { i < length lists.now.elements.items }
    requires variables { i < length lists.now.variables.items }
    ensures { result ≡ plain_mass lists.now.elements.items lists.now.variables.items i }
{
    lists.elements[i].is_empty() && lists.variables[i].is_empty()
}

/// The classes of a list that keep an element or a variable.
pub fn others_left<A: Allocator + Copy>(
    alloc: A,
    front: &[usize],
    lists: &PlainLists<A>,
) -> Result<Vec<usize, A>, AllocError>
    requires elements { Below (length lists.now.elements.items) front.now }
    requires variables { Below (length lists.now.variables.items) front.now }
    ensures { IfOk result (λ rest. rest.items ≡ filter
        (λ i. not (plain_mass lists.now.elements.items lists.now.variables.items i)) front.now) }
{
    let mut rest = Vec::with_capacity(alloc, front.len())?;
    for i in front {
        if !keeps_nothing(lists, *i) {
            rest.push(*i)?;
        }
    }
    Ok(rest)
}

/// Mass elimination: each class of a list that keeps nothing is one no longer, and its row is linked to the pivot.
pub fn retire<A: Allocator>(
    pivot: usize,
    front: &[usize],
    lists: &PlainLists<A>,
    size: &mut Vec<usize, A>,
    link: &mut Vec<Option<usize>, A>,
)
    requires lengths { (length lists.now.elements.items ≡ length size.old.items) ×
        (length lists.now.variables.items ≡ length size.old.items) × (length link.old.items ≡ length size.old.items) }
    requires range { Below (length size.old.items) front.now }
    ensures sizes { (x : ℕ) → num size.new.items x ≡ cond
        (has front.now x && plain_mass lists.now.elements.items lists.now.variables.items x) 0 (num size.old.items x) }
    ensures links { (x : ℕ) → some_at link.new.items x ≡ cond
        (has front.now x && plain_mass lists.now.elements.items lists.now.variables.items x) (Some pivot)
        (some_at link.old.items x) }
    ensures lengths { (length size.new.items ≡ length size.old.items) ×
        (length link.new.items ≡ length link.old.items) }
{
    for i in front {
        if keeps_nothing(lists, *i) {
            size[*i] = 0;
            link[*i] = Some(pivot);
        }
    }
}

/// The number of rows of the classes of a list.
pub fn rows_of(list: &[usize], size: &[usize]) -> usize
    requires range { Below (length size.now) list.now }
    requires fits { sum_by (num size.now) list.now < 2 ^ 64 }
    ensures { result ≡ sum_by (num size.now) list.now }
{
    let mut total = 0;
    for i in list {
        total += size[*i];
    }
    total
}
