// The new bounds and lists of the classes of a new element. Source: Amestoy, Davis and Duff 1996 (approximate external
// degree).

ghost use Rattle.std.specs.Prelude.{◌≡◌, ◌<◌, ◌^◌, ◌≤◌, ◌+◌, ◌∷◌, cond, ℕ, true, length, sum_by, OnOk};
ghost use Rattle.amd_model.specs.Figures.{cut};
ghost use Rattle.amd_model.specs.Quotient.{has, turned, Once};
ghost use Rattle.amd_plain.specs.Views.{num, list_at, Below, ListsBelow};
ghost use Rattle.amd_plain.specs.Rounds.{plain_bound};

use crate::work::PlainLists;
use std::alloc::{AllocError, Allocator};

/// The sum of the numbers at the places of a list, on top of a first number; at most the greatest `usize`.
fn sum_at(first: usize, list: &[usize], numbers: &[usize]) -> usize
    requires range { Below (length numbers.now) list.now }
    ensures { result ≡ cut (first + sum_by (num numbers.now) list.now) }
{
    let mut total = first;
    for j in list {
        total = total.saturating_add(numbers[*j]);
    }
    total
}

/// Gives each class of a list its new bound.
pub fn renew_bounds<A: Allocator>(
    made: &[usize],
    border: usize,
    live: usize,
    lists: &PlainLists<A>,
    beyond: &[usize],
    size: &[usize],
    bound: &mut Vec<usize, A>,
)
    requires lengths { (length beyond.now ≡ length size.now) × (length bound.old.items ≡ length size.now) }
    requires elements { ListsBelow (length size.now) lists.now.elements.items }
    requires variables { ListsBelow (length size.now) lists.now.variables.items }
    requires range { Below (length size.now) made.now }
    requires once { Once made.now }
    requires sizes { (i : ℕ) → has made.now i ≡ true → (num size.now i ≤ border) × (num size.now i ≤ live) }
    requires fits { (i : ℕ) → has made.now i ≡ true → num bound.old.items i + border < 2 ^ 64 }
    ensures bounds { (i : ℕ) → num bound.new.items i ≡ cond (has made.now i)
        (plain_bound border live lists.now beyond.now size.now bound.old.items i) (num bound.old.items i) }
    ensures length { length bound.new.items ≡ length bound.old.items }
{
    for i in made {
        let outside = sum_at(
            sum_at(0, &lists.elements[*i], beyond),
            &lists.variables[*i],
            size,
        );
        let near = bound[*i].min(outside) + (border - size[*i]);
        bound[*i] = near.min(live - size[*i]);
    }
}

/// Moves the first number of a list behind the others.
fn turn<A: Allocator>(list: &mut Vec<usize, A>)
    ensures { list.new.items ≡ turned list.old.items }
{
    if !list.is_empty() {
        list.rotate_left(1);
    }
}

/// Gives each class of a list its new lists: the new element, and then the elements that it keeps, of which the first
/// goes behind the others; and the variables that it keeps, of which the first goes behind the others.
pub fn renew_lists<A: Allocator>(
    pivot: usize,
    made: &[usize],
    lists: &mut PlainLists<A>,
) -> Result<(), AllocError>
    requires lengths { length lists.old.variables.items ≡ length lists.old.elements.items }
    requires pivot { pivot < length lists.old.elements.items }
    requires elements { ListsBelow (length lists.old.elements.items) lists.old.elements.items }
    requires variables { ListsBelow (length lists.old.elements.items) lists.old.variables.items }
    requires range { Below (length lists.old.elements.items) made.now }
    requires once { Once made.now }
    ensures new_elements { OnOk result ((i : ℕ) → list_at lists.new.elements.items i ≡ cond (has made.now i)
        (pivot ∷ turned (list_at lists.old.elements.items i)) (list_at lists.old.elements.items i)) }
    ensures new_variables { OnOk result ((i : ℕ) →
        list_at lists.new.variables.items i ≡ cond (has made.now i) (turned (list_at lists.old.variables.items i))
        (list_at lists.old.variables.items i)) }
    ensures members { OnOk result (lists.new.members ≡ lists.old.members) }
    ensures elements { OnOk result (ListsBelow (length lists.old.elements.items) lists.new.elements.items) }
    ensures variables { OnOk result (ListsBelow (length lists.old.elements.items) lists.new.variables.items) }
{
    for i in made {
        turn(&mut lists.elements[*i]);
        lists.elements[*i].insert(0, pivot)?;
        turn(&mut lists.variables[*i]);
    }
    Ok(())
}
