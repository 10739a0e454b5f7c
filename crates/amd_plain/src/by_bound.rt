// The classes by bound: a list for each bound, in which a class stands behind those that were placed before it. What
// has got another bound, or is a class no longer, is passed over when it is met. Source: Amestoy, Davis and Duff 1996
// (degree lists).

ghost use Rattle.std.specs.Prelude.{◌≡◌, ◌<◌, ◌≤◌, ◌⊎◌, ◌++◌, ◌==◌, ℕ, true, filter, length, OnOk};
ghost use Rattle.amd_model.specs.Quotient.{has};
ghost use Rattle.amd_plain.specs.Views.{num, list_at, Below, ListsBelow};
ghost use Rattle.amd_plain.specs.ListsByBound.{live_in, Popped, Chosen};

use std::alloc::{AllocError, Allocator};

/// Takes from the end of the list of a bound the rows that are not classes of that bound, and then the last class, if
/// there is one.
fn last_placed<A: Allocator>(
    list: &mut Vec<usize, A>,
    least: usize,
    size: &[usize],
    bound: &[usize],
) -> Option<usize>
    requires lengths { length bound.now ≡ length size.now }
    requires range { Below (length size.now) list.old.items }
    ensures popped { Popped size.now bound.now least list.old.items list.new.items result }
{
    while let Some(i) = list.pop() {
        if size[i] > 0 && bound[i] == least {
            return Some(i);
        }
    }
    None
}

/// The pivot: of the classes of least bound the one that was placed last. It is taken out of its list.
pub fn choose<A: Allocator>(
    lists: &mut Vec<Vec<usize, A>, A>,
    least: &mut usize,
    size: &[usize],
    bound: &[usize],
) -> usize
    requires lengths { length bound.now ≡ length size.now }
    requires range { ListsBelow (length size.now) lists.old.items }
    requires some { (b : ℕ) × (i : ℕ) × (least.old ≤ b) ×
        (has (live_in size.now bound.now b (list_at lists.old.items b)) i ≡ true) }
    ensures chosen { Chosen size.now bound.now lists.old.items lists.new.items least.old least.new result }
    ensures range { ListsBelow (length size.now) lists.new.items }
{
    'bounds: loop {
        if let Some(i) = last_placed(&mut lists[*least], *least, size, bound) {
            return i;
        }
        *least += 1;
    }
}

/// Places each class of a list behind the others of its bound.
pub fn place_all<A: Allocator>(
    lists: &mut Vec<Vec<usize, A>, A>,
    least: &mut usize,
    made: &[usize],
    bound: &[usize],
) -> Result<(), AllocError>
    requires range { ListsBelow (length bound.now) lists.old.items }
    requires made { Below (length bound.now) made.now }
    requires small { (i : ℕ) → has made.now i ≡ true → num bound.now i < length bound.now }
    ensures placed { OnOk result ((b : ℕ) → list_at lists.new.items b ≡ list_at lists.old.items b ++ filter
        (λ i. num bound.now i == b) made.now) }
    ensures range { OnOk result (ListsBelow (length bound.now) lists.new.items) }
    ensures least { OnOk result ((least.new ≤ least.old) ×
        ((i : ℕ) → has made.now i ≡ true → least.new ≤ num bound.now i)) }
    ensures one { OnOk result ((least.new ≡ least.old) ⊎
        ((i : ℕ) × (has made.now i ≡ true) × (least.new ≡ num bound.now i))) }
{
    for i in made {
        let b = bound[*i];
        lists[b].push(*i)?;
        if b < *least {
            *least = b;
        }
    }
    Ok(())
}
