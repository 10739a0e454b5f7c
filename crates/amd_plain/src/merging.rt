// Merging: classes of a new element that keep the same elements and the same variables become one, which the last of
// them represents. Only classes of one group are compared: groups are made by the sum of the two lists modulo the
// number of rows. Of two lists the lengths are compared before the entries. A *group* is a hash bucket; the lists of
// `by_bound` are the lists by bound (degree lists). Source: Amestoy, Davis and Duff 1996 (supervariables, found by a
// hash function).

ghost use Rattle.std.specs.Prelude.{[], ◌≡◌, ◌≢◌, ◌<◌, ◌^◌, ◌&&◌, ◌==◌, not, cond, ℕ, Some, true, filter, length};
ghost use Rattle.std.specs.Prelude.{sum_by, OnOk, IfOk};
ghost use Rattle.amd_model.specs.Quotient.{has, each, Once, last_that};
ghost use Rattle.amd_plain.specs.Views.{num, mark_at, some_at, list_at, Below, ListsBelow, Clear};
ghost use Rattle.amd_plain.specs.Rounds.{plain_alike};
ghost use Rattle.amd_plain.specs.Keeps.{IsIdle};
ghost use Rattle.amd_plain.specs.Groups.{wrapped_sum, group_in, FoundIn, AreComparable, AreGrouped};
ghost use Rattle.amd_plain.specs.Groups.{IsClearScratch, Looked};

use crate::marks::{clear_all, mark_all};
use crate::work::{PlainLists, Scratch};
use std::alloc::{AllocError, Allocator};

/// The sum of a list, modulo 2^64.
fn sum_of(list: &[usize]) -> usize
    ensures { result ≡ wrapped_sum list.now }
{
    let mut total: usize = 0;
    for j in list {
        total = total.wrapping_add(*j);
    }
    total
}

/// Whether each number of a list is marked.
fn all_marked(list: &[usize], marks: &[bool]) -> bool
    requires range { Below (length marks.now) list.now }
    ensures { result ≡ each (mark_at marks.now) list.now }
{
    for j in list {
        if !marks[*j] {
            return false;
        }
    }
    true
}

/// The group in which a class is looked for, one of as many as there are rows.
fn group_of<A: Allocator>(i: usize, lists: &PlainLists<A>) -> usize
    requires row { (i < length lists.now.elements.items) × (i < length lists.now.variables.items) }
    ensures group { result ≡ group_in lists.now.elements.items lists.now.variables.items i }
    ensures range { result < length lists.now.elements.items }
{
    sum_of(&lists.elements[i]).wrapping_add(sum_of(&lists.variables[i])) % lists.elements.len()
}

/// Whether two lists that name each number once name the same ones; exactly those of the second are marked.
fn same_list(list: &[usize], other: &[usize], marks: &[bool]) -> bool
    requires range { Below (length marks.now) list.now }
    requires once { Once list.now × Once other.now }
    requires marked { (j : ℕ) → mark_at marks.now j ≡ has other.now j }
    ensures { result ≡ (each (has other.now) list.now && each (has list.now) other.now) }
{
    list.len() == other.len() && all_marked(list, marks)
}

/// A class of a group that keeps the same elements and the same variables as the class `i`, whose lists are marked.
fn first_alike<A: Allocator>(
    i: usize,
    group: &[usize],
    lists: &PlainLists<A>,
    elements: &[bool],
    rows: &[bool],
) -> Option<usize>
    requires comparable { AreComparable lists.now.elements.items lists.now.variables.items i group.now }
    requires elements { (length elements.now ≡ length lists.now.elements.items) ×
        ((j : ℕ) → mark_at elements.now j ≡ has (list_at lists.now.elements.items i) j) }
    requires rows { (length rows.now ≡ length lists.now.elements.items) ×
        ((j : ℕ) → mark_at rows.now j ≡ has (list_at lists.now.variables.items i) j) }
    ensures { FoundIn lists.now.elements.items lists.now.variables.items i group.now result }
{
    for r in group {
        if same_list(&lists.elements[*r], &lists.elements[i], elements)
            && same_list(&lists.variables[*r], &lists.variables[i], rows)
        {
            return Some(*r);
        }
    }
    None
}

/// The class of a group that keeps the same elements and the same variables as the class `i`, if there is one. The
/// marks are clear before and after.
fn representative_in<A: Allocator>(
    i: usize,
    group: &[usize],
    lists: &PlainLists<A>,
    elements: &mut Vec<bool, A>,
    rows: &mut Vec<bool, A>,
) -> Option<usize>
    requires comparable { AreComparable lists.now.elements.items lists.now.variables.items i group.now }
    requires elements { (length elements.old.items ≡ length lists.now.elements.items) × Clear elements.old.items }
    requires rows { (length rows.old.items ≡ length lists.now.elements.items) × Clear rows.old.items }
    ensures found { FoundIn lists.now.elements.items lists.now.variables.items i group.now result }
    ensures elements { (length elements.new.items ≡ length lists.now.elements.items) × Clear elements.new.items }
    ensures rows { (length rows.new.items ≡ length lists.now.elements.items) × Clear rows.new.items }
{
    if group.is_empty() {
        return None;
    }
    mark_all(elements, &lists.elements[i]);
    mark_all(rows, &lists.variables[i]);
    let found = first_alike(i, group, lists, elements, rows);
    clear_all(elements, &lists.elements[i]);
    clear_all(rows, &lists.variables[i]);
    found
}

/// Finds the representative of a class: a class alike that was met before, or itself, and then others may find it.
fn represent<A: Allocator>(
    i: usize,
    lists: &PlainLists<A>,
    scratch: &mut Scratch<A>,
) -> Result<(), AllocError>
    requires row { i < length lists.now.elements.items }
    requires elements { ListsBelow (length lists.now.elements.items) lists.now.elements.items }
    requires variables { ListsBelow (length lists.now.elements.items) lists.now.variables.items }
    requires once { Once (list_at lists.now.elements.items i) × Once (list_at lists.now.variables.items i) }
    requires ready { IsClearScratch (length lists.now.elements.items) scratch.old }
    requires group_once { (b : ℕ) (r : ℕ) → has (list_at scratch.old.groups.items b) r ≡ true →
        Once (list_at lists.now.elements.items r) × Once (list_at lists.now.variables.items r) }
    ensures looked { OnOk result (Looked lists.now.elements.items lists.now.variables.items i
        (list_at scratch.old.groups.items) (list_at scratch.new.groups.items) (num scratch.new.into.items i)) }
    ensures others { OnOk result ((x : ℕ) → x ≢ i → num scratch.new.into.items x ≡ num scratch.old.into.items x) }
    ensures ready { OnOk result (IsClearScratch (length lists.now.elements.items) scratch.new) }
    ensures beyond { OnOk result (scratch.new.beyond ≡ scratch.old.beyond) }
{
    let group = group_of(i, lists);
    let found = representative_in(
        i,
        &scratch.groups[group],
        lists,
        &mut scratch.elements,
        &mut scratch.rows,
    );
    match found {
        Some(r) => scratch.into[i] = r,
        None => {
            scratch.groups[group].push(i)?;
            scratch.into[i] = i;
        }
    }
    Ok(())
}

/// Empties the groups of the classes of a list, which hold no others.
fn empty_groups<A: Allocator>(
    rest: &[usize],
    lists: &PlainLists<A>,
    groups: &mut Vec<Vec<usize, A>, A>,
)
    requires variables { length lists.now.variables.items ≡ length lists.now.elements.items }
    requires range { Below (length lists.now.elements.items) rest.now }
    requires groups { length groups.old.items ≡ length lists.now.elements.items }
    requires grouped { AreGrouped lists.now.elements.items lists.now.variables.items rest.now
        (list_at groups.old.items) }
    ensures size { length groups.new.items ≡ length groups.old.items }
    ensures empty { (b : ℕ) → list_at groups.new.items b ≡ [] }
{
    for i in rest {
        let group = group_of(*i, lists);
        groups[group].clear();
    }
}

/// Finds the representative of each class of a list: the last one of the list that keeps the same elements and
/// variables. The list is gone through from its end. Other places of `into` are left open.
pub fn representatives<A: Allocator>(
    rest: &[usize],
    lists: &PlainLists<A>,
    scratch: &mut Scratch<A>,
) -> Result<(), AllocError>
    requires idle { IsIdle (length lists.now.elements.items) scratch.old }
    requires elements { ListsBelow (length lists.now.elements.items) lists.now.elements.items }
    requires variables { ListsBelow (length lists.now.elements.items) lists.now.variables.items }
    requires range { Below (length lists.now.elements.items) rest.now }
    requires once { Once rest.now }
    requires lists_once { (i : ℕ) → has rest.now i ≡ true → Once (list_at lists.now.elements.items i) ×
        Once (list_at lists.now.variables.items i) }
    ensures into { OnOk result ((i : ℕ) → has rest.now i ≡ true →
        num scratch.new.into.items i ≡ last_that (plain_alike lists.now.elements.items lists.now.variables.items i) i
        rest.now) }
    ensures idle { OnOk result (IsIdle (length lists.now.elements.items) scratch.new) }
    ensures beyond { OnOk result (scratch.new.beyond ≡ scratch.old.beyond) }
{
    let mut left = rest.len();
    'classes: while left > 0 {
        left -= 1;
        represent(rest[left], lists, scratch)?;
    }
    empty_groups(rest, lists, &mut scratch.groups);
    Ok(())
}

/// Merges each class of a list into its representative.
pub fn join<A: Allocator>(
    rest: &[usize],
    into: &[usize],
    size: &mut Vec<usize, A>,
    link: &mut Vec<Option<usize>, A>,
)
    requires lengths { (length into.now ≡ length size.old.items) × (length link.old.items ≡ length size.old.items) }
    requires range { Below (length size.old.items) rest.now }
    requires once { Once rest.now }
    requires into { (i : ℕ) → has rest.now i ≡ true → (has rest.now (num into.now i) ≡ true) ×
        (num into.now (num into.now i) ≡ num into.now i) }
    requires fits { sum_by (num size.old.items) rest.now < 2 ^ 64 }
    ensures sizes { (x : ℕ) → num size.new.items x ≡ cond (has rest.now x)
        (cond (num into.now x == x) (sum_by (num size.old.items) (filter (λ j. num into.now j == x) rest.now)) 0)
        (num size.old.items x) }
    ensures links { (x : ℕ) → some_at link.new.items x ≡ cond (has rest.now x && not (num into.now x == x))
        (Some (num into.now x)) (some_at link.old.items x) }
    ensures lengths { (length size.new.items ≡ length size.old.items) ×
        (length link.new.items ≡ length link.old.items) }
{
    for i in rest {
        let r = into[*i];
        if r != *i {
            size[r] += size[*i];
            size[*i] = 0;
            link[*i] = Some(r);
        }
    }
}

/// The classes of a list that represent themselves.
pub fn made_of<A: Allocator + Copy>(
    alloc: A,
    rest: &[usize],
    into: &[usize],
) -> Result<Vec<usize, A>, AllocError>
    requires range { Below (length into.now) rest.now }
    ensures { IfOk result (λ made. made.items ≡ filter (λ i. num into.now i == i) rest.now) }
{
    let mut made = Vec::with_capacity(alloc, rest.len())?;
    for i in rest {
        if into[*i] == *i {
            made.push_reserved(*i);
        }
    }
    Ok(made)
}
