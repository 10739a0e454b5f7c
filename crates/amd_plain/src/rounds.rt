// The rounds of an elimination that keeps the lists of the quotient graph (for each class its elements and its
// variables, for each element its members), and one list of classes for each bound. Source: Amestoy, Davis and Duff
// 1996 and 2004. The goals of the functions that call many parts are proved by hand (`tactic(none)`): a search through
// all that the parts say takes minutes.

ghost use Rattle.std.specs.Prelude.{◌≡◌, ◌<◌, ◌≤◌, ◌+◌, ◌^◌, ℕ, Bool, true, length, sum_by, IfOk, OnOk};
ghost use Rattle.amd_model.specs.Graph.{Graph};
ghost use Rattle.amd_model.specs.State.{State};
ghost use Rattle.amd_model.specs.Quotient.{QuotientGraph, has, Once};
ghost use Rattle.amd_plain.specs.Views.{num, list_at, Below};
ghost use Rattle.amd_plain.specs.ListsByBound.{live_in};
ghost use Rattle.amd_plain.specs.Parts.{MakesPlainElement, MergesPlainClasses, RenewsClasses};
ghost use Rattle.amd_plain.specs.Keeps.{IsPlainSized, PlainStands, IsPlainRound, ArePlainRounds, NoPlainRowIsLive};

use crate::absorption::{absorb, others_left, retire, rows_of};
use crate::bounds::{renew_bounds, renew_lists};
use crate::by_bound::{choose, place_all};
use crate::marks::front_of;
use crate::merging::{join, made_of, representatives};
use crate::work::{PlainWork, RowCounts};
use amd_types::amd::Control;
use std::alloc::{AllocError, Allocator};

/// Chooses a pivot and makes its element: it absorbs what it may, and the classes of its front keep what is left.
/// Returns the pivot and the front.
#[tactic(none)]
fn make_element<A: Allocator + Copy>(
    work: &mut PlainWork<A>,
    aggressive: bool,
) -> Result<(usize, Vec<usize, A>), AllocError>
    requires sized { IsPlainSized (length work.old.size.items) work.old }
    requires some { (b : ℕ) × (i : ℕ) × (work.old.least ≤ b) ×
        (has (live_in work.old.size.items work.old.bound.items b (list_at work.old.placed.items b)) i ≡ true) }
    ensures makes { IfOk result (λ r. MakesPlainElement aggressive r.0 r.1.items work.old work.new) }
{
    let pivot = choose(&mut work.placed, &mut work.least, &work.size, &work.bound);
    let front = front_of(
        work.alloc,
        pivot,
        &work.lists,
        &work.size,
        &mut work.scratch.rows,
    )?;
    absorb(
        work.alloc,
        pivot,
        &front,
        aggressive,
        &RowCounts {
            size: &work.size,
            block: &work.block,
            whole: &work.front,
        },
        &mut work.lists,
        &mut work.parent,
        &mut work.scratch,
    )?;
    Ok((pivot, front))
}

/// Eliminates the pivot and the classes of its front that keep nothing, and merges others that are alike. Returns the
/// classes that are left, and the numbers of rows of the border and of the block.
#[tactic(none)]
fn merge_classes<A: Allocator + Copy>(
    work: &mut PlainWork<A>,
    pivot: usize,
    front: &[usize],
) -> Result<(Vec<usize, A>, usize, usize), AllocError>
    requires sized { IsPlainSized (length work.old.size.items) work.old }
    requires pivot { pivot < length work.old.size.items }
    requires range { Below (length work.old.size.items) front.now }
    requires once { Once front.now }
    requires lists_once { (i : ℕ) → has front.now i ≡ true → Once (list_at work.old.lists.elements.items i) ×
        Once (list_at work.old.lists.variables.items i) }
    requires live { num work.old.size.items pivot + sum_by (num work.old.size.items) front.now ≤ work.old.live }
    ensures merges { IfOk result (λ r. MergesPlainClasses pivot front.now r.0.items r.1 r.2 work.old work.new) }
{
    let live = work.live;
    let rest = others_left(work.alloc, front, &work.lists)?;
    let border = rows_of(&rest, &work.size);
    let block = work.size[pivot] + (rows_of(front, &work.size) - border);
    retire(pivot, front, &work.lists, &mut work.size, &mut work.link);
    representatives(&rest, &work.lists, &mut work.scratch)?;
    join(&rest, &work.scratch.into, &mut work.size, &mut work.link);
    let made = made_of(work.alloc, &rest, &work.scratch.into)?;
    work.size[pivot] = 0;
    work.live = live - block;
    Ok((made, border, block))
}

/// Gives the classes of the new element their new bounds and lists, places them, and keeps the numbers of the element.
fn renew_classes<A: Allocator + Copy>(
    work: &mut PlainWork<A>,
    pivot: usize,
    made: Vec<usize, A>,
    border: usize,
    block: usize,
) -> Result<(), AllocError>
    requires sized { IsPlainSized (length work.old.size.items) work.old }
    requires pivot { pivot < length work.old.size.items }
    requires range { Below (length work.old.size.items) made.items }
    requires once { Once made.items }
    requires sizes { (i : ℕ) → has made.items i ≡ true → (num work.old.size.items i ≤ border) ×
        (num work.old.size.items i ≤ work.old.live) × (0 < num work.old.size.items i) }
    requires small { (i : ℕ) → has made.items i ≡ true → num work.old.bound.items i < length work.old.size.items }
    requires live { work.old.live + block ≤ length work.old.size.items }
    requires border { border ≤ work.old.live }
    requires dense { block + (border + work.old.n_dense) < 2 ^ 64 }
    ensures renews { OnOk result (RenewsClasses pivot made.items border block work.old work.new) }
{
    renew_bounds(
        &made,
        border,
        work.live,
        &work.lists,
        &work.scratch.beyond,
        &work.size,
        &mut work.bound,
    );
    renew_lists(pivot, &made, &mut work.lists)?;
    place_all(&mut work.placed, &mut work.least, &made, &work.bound)?;
    work.lists.members[pivot] = made;
    work.block[pivot] = block;
    work.front[pivot] = block + border;
    work.figures.add_front(block, border + work.n_dense);
    Ok(())
}

/// One round: chooses a pivot, makes its element, and gives the classes of the element their new lists, numbers of rows
/// and bounds. A row must be live. The contract says what the record stands for; the rest (entries of rows that are
/// neither class nor element, stale entries, how low `least` is) is left open.
///
/// # Errors
///
/// `AllocError` for a refused request. What the record then holds is not said.
#[tactic(none)]
pub fn round<A: Allocator + Copy>(
    work: &mut PlainWork<A>,
    control: &Control,
) -> Result<(), AllocError>
    requires stands { (g : Graph) × (dense : ℕ → Bool) × (t : QuotientGraph) × (s : State) ×
        PlainStands g dense work.old t s }
    requires left { 0 < work.old.live }
    ensures round { OnOk result (IsPlainRound control.now.aggressive work.old work.new) }
    ensures fewer { OnOk result (work.new.live < work.old.live) }
{
    let (pivot, front) = make_element(work, control.aggressive)?;
    let (made, border, block) = merge_classes(work, pivot, &front)?;
    renew_classes(work, pivot, made, border, block)
}

/// Rounds until no row is live. The contract says what the record stands for; the rest (entries of rows that
/// are neither class nor element, stale entries, how low `least` is) is left open.
///
/// # Errors
///
/// `AllocError` for a refused request. What the record then holds is not said.
pub fn eliminate<A: Allocator + Copy>(
    work: &mut PlainWork<A>,
    control: &Control,
) -> Result<(), AllocError>
    requires stands { (g : Graph) × (dense : ℕ → Bool) × (t : QuotientGraph) × (s : State) ×
        PlainStands g dense work.old t s }
    ensures rounds { OnOk result (ArePlainRounds control.now.aggressive work.old work.new) }
    ensures end { OnOk result (NoPlainRowIsLive work.new) }
{
    'rounds: while work.live > 0 {
        round(work, control)?;
    }
    Ok(())
}
